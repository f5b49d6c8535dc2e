// What a server tells, asks and answers.
ghost use Rattle.std.specs.Prelude.{◌≡◌, Err, IfOk, MatchResult, Ok};
ghost use Rattle.lsp_acts.specs.Acts.{asks, replies, tells};
ghost use Rattle.lsp_acts.specs.View.{act_view};
ghost use Rattle.lsp_methods.specs.Reads.{IsReadOf};
ghost use Rattle.serde_json.specs.View.{view};

use crate::params::from_value;
use lsp_acts::Act;
use lsp_json_write::{JsonWriteError, JsonWriter};
use lsp_message::{Notification, RequestId, ResponseError, ResultText};
use lsp_types::{FromJson, NotificationToClient, RequestToClient, RequestToServer, ToJson};
use serde_json::Value;
use std::alloc::{AllocError, Global};

/// Makes a notification of this method, with the tree that the params stand for.
///
/// `Err` means that an allocation failed.
pub fn send_notification<M, P>(alloc: Global, params: &M::Params) -> Result<Act<P>, AllocError>
where
    M: NotificationToClient,
    P: Drop + PartialEq,
    ensures { IfOk result (λ act. act_view P.eq act ≡ tells M.method (M.Params.stands params.now)) }
{
    let params = params.to_json(alloc)?;
    let method = String::from_str(alloc, M::method())?;
    Ok(Act::SendNotification(Notification { method, params }))
}

/// Makes a request of this method, which the server sends, with the tree that the params stand for. `payload` is kept
/// for the reply.
///
/// `Err` means that an allocation failed.
pub fn send_request<M, P>(
    alloc: Global,
    params: &M::Params,
    payload: P,
) -> Result<Act<P>, AllocError>
where
    M: RequestToClient,
    P: Drop + PartialEq,
    ensures { IfOk result (λ act. act_view P.eq act ≡ asks M.method (M.Params.stands params.now) «payload») }
{
    let params = params.to_json(alloc)?;
    let method = String::from_str(alloc, M::method())?;
    Ok(Act::SendRequest(method, params, payload))
}

/// Makes the answer to a request of this method, with the JSON text of the result. Use it for a request that is answered
/// later, by its id.
///
/// `Err` means that an allocation failed.
pub fn reply<M, P>(alloc: Global, id: RequestId, found: &M::Result) -> Result<Act<P>, AllocError>
where
    M: RequestToServer,
    P: Drop + PartialEq,
    ensures { IfOk result (λ act. act_view P.eq act ≡ replies id (Ok (M.Result.stands found.now))) }
{
    let text = result_text(alloc, found)?;
    Ok(Act::ReplyText(id, text))
}

/// Writes the JSON text of a result from its type, without a tree. If the result nests more than 127 levels, the tree is
/// kept, since `serde_json` would not read its text.
///
/// `Err` means that an allocation failed.
pub fn result_text<T: ToJson>(alloc: Global, found: &T) -> Result<ResultText, AllocError>
    ensures { IfOk result (λ text. view text ≡ T.stands found.now) }
{
    let mut out = JsonWriter::new(alloc)?;
    match found.write_json(&mut out) {
        Ok(()) => Ok(ResultText::from_text(out.into_string()?)),
        Err(JsonWriteError::TooDeep) => ResultText::of(alloc, found.to_json(alloc)?),
        Err(JsonWriteError::OutOfMemory) => Err(AllocError),
    }
}

/// Reads the client's reply to a request of this method: its result, the client's error, or the error -32602 if the
/// result does not fit.
///
/// `Err(AllocError)` means that an allocation failed.
pub fn read_result<M: RequestToClient>(
    alloc: Global,
    outcome: Result<Value, ResponseError>,
) -> Result<Result<M::Result, ResponseError>, AllocError>
where
    M::Result: FromJson,
    ensures { IfOk result (λ found. MatchResult outcome
        (λ value. IsReadOf M.Result.reads (view value) found) (λ told. found ≡ Err told)) }
{
    match outcome {
        Ok(value) => from_value(alloc, &value),
        Err(error) => Ok(Err(error)),
    }
}
