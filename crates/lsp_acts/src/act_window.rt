// What a server shows to the user, and what it writes into the client's log.
ghost use Rattle.std.specs.Prelude.{◌≡◌, ◌++◌, ℕ, IfOk, codes, string_bytes};
ghost use Rattle.serde_json.specs.View.{view};
ghost use Rattle.lsp_acts.specs.Answering.{log_method, logs_error, show_method};
ghost use Rattle.lsp_acts.specs.Answering.{message_params as message_params_spec};
ghost use Rattle.lsp_acts.specs.Acts.{tells};
ghost use Rattle.lsp_acts.specs.View.{act_view};

use crate::server::Act;
use lsp_message::Notification;
use serde_json::{Map, Value, put};
use std::alloc::{AllocError, Global};

impl<P: Drop + PartialEq> Act<P> {
    /// Makes the notification that writes a line into the client's log: `window/logMessage` (LSP 3.17, "LogMessage
    /// Notification"). `kind` says how important the line is: 1 is an error, 2 a warning, 3 information, 4 a log
    /// message. `MessageType` of `lsp_types` has these numbers.
    ///
    /// `Err` means that an allocation failed.
    pub fn log_message<K: Into<u32>>(
        alloc: Global,
        kind: K,
        message: &str,
    ) -> Result<Act<P>, AllocError>
        ensures { IfOk result (λ act. (number : ℕ) × K.converts kind number
            × (act_view P.eq act ≡ tells log_method (message_params_spec number message.now))) }
    {
        told(alloc, "window/logMessage", kind.into(), message)
    }

    /// Makes the notification that shows a text to the user: `window/showMessage` (LSP 3.17, "ShowMessage
    /// Notification"). `kind` is as for `log_message`.
    ///
    /// `Err` means that an allocation failed.
    pub fn show_message<K: Into<u32>>(
        alloc: Global,
        kind: K,
        message: &str,
    ) -> Result<Act<P>, AllocError>
        ensures { IfOk result (λ act. (number : ℕ) × K.converts kind number
            × (act_view P.eq act ≡ tells show_method (message_params_spec number message.now))) }
    {
        told(alloc, "window/showMessage", kind.into(), message)
    }

    // One error in the client's log: what is wrong with this method.
    pub(crate) fn log_error(
        alloc: Global,
        method: &str,
        what: &str,
        why: &str,
    ) -> Result<Act<P>, AllocError>
        ensures { IfOk result (λ act.
            act_view P.eq act ≡ logs_error (method.now ++ what.now ++ why.now)) }
    {
        let mut message = String::from_str(alloc, method)?;
        message.push_str(what)?;
        message.push_str(why)?;
        told(alloc, "window/logMessage", 1, message.as_str())
    }
}

/// Makes a notification with a text for the user.
fn told<P: Drop + PartialEq>(
    alloc: Global,
    method: &str,
    kind: u32,
    message: &str,
) -> Result<Act<P>, AllocError>
    ensures { IfOk result (λ act.
        act_view P.eq act ≡ tells method.now (message_params_spec kind message.now)) }
{
    let method = String::from_str(alloc, method)?;
    let params = message_params(alloc, kind, message)?;
    Ok(Act::SendNotification(Notification { method, params }))
}

/// Makes the params of both notifications.
fn message_params(alloc: Global, kind: u32, message: &str) -> Result<Value, AllocError>
    ensures { IfOk result (λ params. view params ≡ message_params_spec kind message.now) }
{
    let mut members = Map::new(alloc);
    let text = Value::try_from_str(alloc, message)?;
    put(&mut members, alloc, "message", text)?;
    put(&mut members, alloc, "type", Value::from(kind))?;
    Ok(Value::Object(members))
}
