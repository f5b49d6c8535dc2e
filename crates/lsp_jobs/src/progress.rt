// The messages of a job to its client while it runs: progress, and parts of its result.
ghost use Rattle.serde_json.specs.Data.{Data};
ghost use Rattle.serde_json.specs.View.{view};
ghost use Rattle.std.specs.Prelude.{◌≡◌, IfOk, IfSome, codes, option_map, string_bytes};
ghost use Rattle.lsp_message.specs.Message.{notification};
ghost use Rattle.lsp_message.specs.View.{notification_view};
ghost use Rattle.lsp_jobs.specs.Progress.{create_method, create_params, if_token as if_token_spec, progress_method, progress_params, token_of};

use crate::job::JobContext;
use lsp_message::{Notification, RequestId};
use serde_json::{Value, json, put};
use std::alloc::{AllocError, Global};
use std::marker::Model;

/// Reports the progress of a job to the client, if its request has a `workDoneToken`, or the client agreed to a token
/// of the job (LSP 3.17, "Work Done Progress"). Send one `begin`, any number of reports, and one `end`, which takes the
/// value.
///
/// A client whose request is cancelled, answered otherwise or replaced gets no `end`, since nobody waits for the job
/// then. It has the reply to the request, which ends the progress too. Contracts see the token, if there is one.
#[derive(Drop)]
pub struct WorkDone {
    alloc: Global,
    token: Option<Value>,
}

impl Model for WorkDone {
    ghost use Rattle.serde_json.specs.contracts.value.Value as tree;
    ghost use Rattle.serde_json.specs.declared.value.Value.{Value as Tree};
    ghost use Rattle.std.specs.Coded.{coded_option};
    ghost use Rattle.std.specs.Prelude.{Option};

    ghost Value = { Option Tree };

    ghost coded = { coded_option tree.the_row.coded };

    ghost view = { λ work. work.token };
}

impl WorkDone {
    /// Reads the token from the params of a request: a text, or an integer of 32 bits. Without such a token nothing is
    /// ever sent. The error means that an allocation failed.
    pub fn from_params(alloc: Global, params: &Value) -> Result<WorkDone, AllocError>
        ensures { IfOk result (λ work.
            option_map view work ≡ token_of (codes "workDoneToken") (view params.now)) }
    {
        Ok(WorkDone {
            alloc,
            token: token_in(params, "workDoneToken")?,
        })
    }

    /// Asks the client to show progress under this token, which none of its requests has: a text, or an integer of 32
    /// bits, that is used once (LSP 3.17, "Creating Work Done Progress"). It waits for the reply. If the reply is an
    /// error, or there is none, nothing is ever sent. Only a client with the capability `window.workDoneProgress` may
    /// be asked. The error means that an allocation failed.
    pub fn create<C: JobContext>(
        alloc: Global,
        context: &mut C,
        token: Value,
    ) -> Result<WorkDone, AllocError>
        requires { C.may_send_request create_method (create_params (view token)) }
        ensures { IfOk result (λ work. IfSome work (λ given. view given ≡ view token)) }
    {
        let (method, params) = creation_of(alloc, &token)?;
        let token = match context.send_request(method, params)? {
            Some(Ok(_)) => Some(token),
            _ => None,
        };
        Ok(WorkDone { alloc, token })
    }

    /// Begins the progress, with a title. `percentage` is from 0 to 100. If it is `None` here, leave it out in reports
    /// too. The call waits while there is no room to send. The notification is dropped only if nobody waits for the job
    /// any longer. If the job ends without `end`, an end is sent for it. The error means that an allocation failed.
    pub fn begin<C: JobContext>(
        &self,
        context: &mut C,
        title: &str,
        message: Option<&str>,
        percentage: Option<u32>,
    ) -> Result<(), AllocError>
        requires { IfSome (option_map view self.now) (λ token. (value : Data)
            → C.may progress_method (progress_params token value)) }
    {
        let mut value = json!(in self.alloc; { "kind": "begin", "title": title })?;
        put_both(self.alloc, &mut value, message, percentage)?;
        self.begin_with(context, value)
    }

    /// Begins the progress as `begin` does, and lets the client cancel it with `window/workDoneProgress/cancel`. The
    /// job is to end then, and `JobContext::check` reports it (LSP 3.17, "Canceling Work Done Progress").
    pub fn begin_cancellable<C: JobContext>(
        &self,
        context: &mut C,
        title: &str,
        message: Option<&str>,
        percentage: Option<u32>,
    ) -> Result<(), AllocError>
        requires { IfSome (option_map view self.now) (λ token. (value : Data)
            → C.may progress_method (progress_params token value)) }
    {
        if let Some(token) = &self.token {
            context.cancelled_with(token)?;
        }
        let mut value =
            json!(in self.alloc; { "cancellable": true, "kind": "begin", "title": title })?;
        put_both(self.alloc, &mut value, message, percentage)?;
        self.begin_with(context, value)
    }

    /// Sends the begin, and keeps an end that is sent when the job ends. If an allocation failed, it does neither.
    fn begin_with<C: JobContext>(&self, context: &mut C, value: Value) -> Result<(), AllocError>
        requires { IfSome (option_map view self.now) (λ token. (value : Data)
            → C.may progress_method (progress_params token value)) }
    {
        let end = json!(in self.alloc; { "kind": "end" })?;
        let last = notification_of(self.alloc, &self.token, end)?;
        let first = notification_of(self.alloc, &self.token, value)?;
        if let Some(first) = first {
            context.at_end(last);
            context.send(first);
        }
        Ok(())
    }

    /// Reports the progress of the job. The report is dropped if there is no room to send: see `JobContext::report`.
    /// The error means that an allocation failed.
    pub fn report<C: JobContext>(
        &self,
        context: &mut C,
        message: Option<&str>,
        percentage: Option<u32>,
    ) -> Result<(), AllocError>
        requires { IfSome (option_map view self.now) (λ token. (value : Data)
            → C.may progress_method (progress_params token value)) }
    {
        let mut value = json!(in self.alloc; { "kind": "report" })?;
        put_both(self.alloc, &mut value, message, percentage)?;
        if let Some(report) = notification_of(self.alloc, &self.token, value)? {
            context.report(report);
        }
        Ok(())
    }

    /// Ends the progress. The call waits while there is no room to send. The notification is dropped only if nobody
    /// waits for the job any longer. The error means that an allocation failed.
    pub fn end<C: JobContext>(
        self,
        context: &mut C,
        message: Option<&str>,
    ) -> Result<(), AllocError>
        requires { IfSome (option_map view «self») (λ token. (value : Data)
            → C.may progress_method (progress_params token value)) }
    {
        let mut value = json!(in self.alloc; { "kind": "end" })?;
        put_both(self.alloc, &mut value, message, None)?;
        context.at_end(None);
        send(self.alloc, &self.token, context, value)
    }
}

/// Sends parts of a result, if the request has a `partialResultToken` (LSP 3.17, "Partial Result Progress"). The final
/// result is then empty: the parts are the whole result. Contracts see the token, if there is one.
#[derive(Drop)]
pub struct PartialResults {
    alloc: Global,
    token: Option<Value>,
}

impl Model for PartialResults {
    ghost use Rattle.serde_json.specs.contracts.value.Value as tree;
    ghost use Rattle.serde_json.specs.declared.value.Value.{Value as Tree};
    ghost use Rattle.std.specs.Coded.{coded_option};
    ghost use Rattle.std.specs.Prelude.{Option};

    ghost Value = { Option Tree };

    ghost coded = { coded_option tree.the_row.coded };

    ghost view = { λ parts. parts.token };
}

impl PartialResults {
    /// Reads the token from the params of a request: a text, or an integer of 32 bits. Without such a token nothing is
    /// ever sent. The error means that an allocation failed.
    pub fn from_params(alloc: Global, params: &Value) -> Result<PartialResults, AllocError>
        ensures { IfOk result (λ parts.
            option_map view parts ≡ token_of (codes "partialResultToken") (view params.now)) }
    {
        Ok(PartialResults {
            alloc,
            token: token_in(params, "partialResultToken")?,
        })
    }

    /// Returns whether the request has a token. If not, put everything into the final result.
    pub fn are_wanted(&self) -> bool {
        self.token.is_some()
    }

    /// Sends a part. The call waits while there is no room to send. The part is dropped only if nobody waits for the
    /// job any longer. The error means that an allocation failed.
    pub fn send<C: JobContext>(&self, context: &mut C, value: Value) -> Result<(), AllocError>
        requires { IfSome (option_map view self.now) (λ token. (value : Data)
            → C.may progress_method (progress_params token value)) }
    {
        send(self.alloc, &self.token, context, value)
    }
}

/// Adds the members that a begin, a report and an end may have.
fn put_both(
    alloc: Global,
    value: &mut Value,
    message: Option<&str>,
    percentage: Option<u32>,
) -> Result<(), AllocError> {
    let Some(members) = value.as_object_mut() else {
        return Ok(());
    };
    if let Some(message) = message {
        let text = String::from_str(alloc, message)?;
        put(members, alloc, "message", Value::String(text))?;
    }
    if let Some(percentage) = percentage {
        put(members, alloc, "percentage", Value::from(percentage))?;
    }
    Ok(())
}

/// Returns the token that is a member of params: a text or an integer of 32 bits.
fn token_in(params: &Value, name: &str) -> Result<Option<Value>, AllocError>
    ensures { IfOk result (λ token.
        option_map view token ≡ token_of name.now (view params.now)) }
{
    match params.get(name) {
        Some(value) => if_token(value),
        None => Ok(None),
    }
}

/// Returns the value, if it may be a token (LSP 3.17, `ProgressToken`).
fn if_token(value: &Value) -> Result<Option<Value>, AllocError>
    ensures { IfOk result (λ token. option_map view token ≡ if_token_spec (view value.now)) }
{
    match RequestId::from_value(value)? {
        Some(id) => {
            drop(id);
            Ok(Some(value.clone()?))
        }
        None => Ok(None),
    }
}

/// Sends a value for whoever gave the token, if there is one.
fn send<C: JobContext>(
    alloc: Global,
    token: &Option<Value>,
    context: &mut C,
    value: Value,
) -> Result<(), AllocError>
    requires { IfSome (option_map view token.now) (λ token. (value : Data)
        → C.may progress_method (progress_params token value)) }
{
    if let Some(told) = notification_of(alloc, token, value)? {
        context.send(told);
    }
    Ok(())
}

/// Makes the method and the params of the request that creates progress under this token.
fn creation_of(alloc: Global, token: &Value) -> Result<(String, Value), AllocError>
    ensures { IfOk result (λ asked. (string_bytes asked.0 ≡ create_method)
        × (view asked.1 ≡ create_params (view token.now))) }
{
    let token = token.clone()?;
    let method = String::from_str(alloc, "window/workDoneProgress/create")?;
    Ok((method, json!(in alloc; { "token": token })?))
}

/// The notification of a value for whoever gave the token, if there is one.
fn notification_of(
    alloc: Global,
    token: &Option<Value>,
    value: Value,
) -> Result<Option<Notification>, AllocError>
    ensures { IfOk result (λ told. option_map notification_view told
        ≡ option_map (λ given.
        notification progress_method (progress_params (view given) (view value))) token.now) }
{
    let Some(token) = token else {
        return Ok(None);
    };
    let token = token.clone()?;
    Ok(Some(Notification {
        method: String::from_str(alloc, "$/progress")?,
        params: json!(in alloc; { "token": token, "value": value })?,
    }))
}
