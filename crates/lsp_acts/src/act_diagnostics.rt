// What is wrong with a document, as a client shows it.
ghost use Rattle.std.specs.Prelude.{◌≡◌, IfOk, OnOk};
ghost use Rattle.serde_json.specs.View.{members_view, view};
ghost use Rattle.lsp_message.specs.View.{outcome_view};
ghost use Rattle.lsp_acts.specs.Publishing.{AreOutcomeOf, Publishes, with_version};
ghost use Rattle.lsp_acts.specs.Publishing.{publish_params as publish_params_spec};
ghost use Rattle.lsp_acts.specs.View.{act_view};

use crate::server::Act;
use lsp_message::{Notification, ResponseError, write_as};
use serde::Serialize;
use serde_json::{Map, Value, put};
use std::alloc::{AllocError, Global};

impl<P: Drop + PartialEq> Act<P> {
    /// Makes the notification that shows the diagnostics of a document: `textDocument/publishDiagnostics` (LSP 3.17,
    /// "PublishDiagnostics Notification"). They replace those that the client shows for this document; an empty list
    /// removes them. `version` is the version of the text that was analysed, if it is known. The diagnostics may have
    /// any type that `serde` writes; `publish` of `lsp_methods` takes those of `lsp_types`.
    ///
    /// If a diagnostic nests more than 127 levels, or its type refuses to be written, the act writes an error into the
    /// client's log instead, as `send_notification` does. `Err` means that an allocation failed.
    pub fn publish<T: Serialize>(
        alloc: Global,
        uri: &str,
        version: Option<i32>,
        diagnostics: &[T],
    ) -> Result<Act<P>, AllocError>
        ensures { IfOk result (λ act.
            Publishes T.writes uri.now version diagnostics.now (act_view P.eq act)) }
    {
        let method = "textDocument/publishDiagnostics";
        match written(alloc, diagnostics)? {
            Ok(found) => {
                let params = publish_params(alloc, uri, version, found)?;
                let method = String::from_str(alloc, method)?;
                Ok(Act::SendNotification(Notification { method, params }))
            }
            Err(error) => Act::log_error(alloc, method, " was not sent: ", error.message.as_str()),
        }
    }
}

/// Writes values into a list. The error is that of the first value that can't be written.
fn written<T: Serialize>(
    alloc: Global,
    values: &[T],
) -> Result<Result<Value, ResponseError>, AllocError>
    ensures { IfOk result (λ written. AreOutcomeOf T.writes values.now (outcome_view written)) }
{
    let mut trees = Vec::new(alloc);
    for value in values {
        match write_as(alloc, value)? {
            Ok(tree) => trees.push(tree)?,
            Err(error) => return Ok(Err(error)),
        }
    }
    Ok(Ok(Value::Array(trees)))
}

/// Makes the params of the notification.
fn publish_params(
    alloc: Global,
    uri: &str,
    version: Option<i32>,
    diagnostics: Value,
) -> Result<Value, AllocError>
    ensures { IfOk result (λ params.
        view params ≡ publish_params_spec uri.now version (view diagnostics)) }
{
    let mut members = Map::new(alloc);
    put(&mut members, alloc, "diagnostics", diagnostics)?;
    let uri = Value::try_from_str(alloc, uri)?;
    put(&mut members, alloc, "uri", uri)?;
    put_version(&mut members, alloc, version)?;
    Ok(Value::Object(members))
}

fn put_version(
    members: &mut Map<String, Value>,
    alloc: Global,
    version: Option<i32>,
) -> Result<(), AllocError>
    ensures { OnOk result (members_view members.new.entries
        ≡ with_version version (members_view members.old.entries)) }
{
    match version {
        Some(version) => put(members, alloc, "version", Value::from(version)),
        None => Ok(()),
    }
}
