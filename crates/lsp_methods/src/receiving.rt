// What a client asks and tells.
ghost use Rattle.std.specs.Prelude.{◌≡◌, ◌∷◌, ◌++◌, [], map, codes, string_bytes};
ghost use Rattle.std.specs.Prelude.{IfOk, MatchResult, Ok, Result};
ghost use Rattle.lsp_message.specs.declared.msg.ResponseError.{ResponseError as ReadError};
ghost use Rattle.lsp_methods.specs.Answers.{outcome_of};
ghost use Rattle.lsp_methods.specs.Reads.{IsReadOf};
ghost use Rattle.lsp_acts.specs.Acts.{replies};
ghost use Rattle.lsp_acts.specs.Answering.{ActsFor, Refuses, logs_error};
ghost use Rattle.lsp_acts.specs.View.{act_view};
ghost use Rattle.serde_json.specs.View.{view};

use crate::params::from_value;
use crate::sending::reply;
use lsp_acts::Act;
use lsp_message::{Notification, Request, RequestId, ResponseError};
use lsp_types::{MessageType, NotificationToServer, RequestToServer};
use std::alloc::{AllocError, Global};

/// Answers a request of this method with the result that `answer` returns for its params. If they do not fit, the
/// answer is the error -32602 (JSON-RPC 2.0, section 5.1). The contract says which value the params are read as, and
/// which tree the answer is.
///
/// `Err` means that an allocation failed.
pub fn answer<M, P, F>(
    alloc: Global,
    request: Request,
    answer: F,
) -> Result<Vec<Act<P>>, AllocError>
where
    M: RequestToServer,
    P: Drop + PartialEq,
    F: FnOnce(M::Params) -> Result<M::Result, AllocError>,
    requires method { string_bytes request.method ≡ M.method }
    requires answers { (params : M.Params) → F.pre answer params }
    ensures { IfOk result (λ acts. (read : Result M.Params ReadError)
        × IsReadOf M.Params.reads (view request.params) read
        × ActsFor (λ params given. (found : M.Result) × F.post answer params (Ok found)
        × (given ≡ replies request.id (Ok (M.Result.stands found)) ∷ []))
        request.id read (map (act_view P.eq) acts.items)) }
{
    let (id, read) = read_params::<M>(alloc, request)?;
    match read {
        Ok(params) => {
            let found = answer(params)?;
            Act::one(alloc, reply::<M, P>(alloc, id, &found)?)
        }
        Err(error) => Act::one(alloc, Act::Reply(id, Err(error))),
    }
}

/// Answers a request of this method as `answer` does, with an `answer` that may also return an error, which is the
/// reply then.
pub fn try_answer<M, P, F>(
    alloc: Global,
    request: Request,
    answer: F,
) -> Result<Vec<Act<P>>, AllocError>
where
    M: RequestToServer,
    P: Drop + PartialEq,
    F: FnOnce(M::Params) -> Result<Result<M::Result, ResponseError>, AllocError>,
    requires method { string_bytes request.method ≡ M.method }
    requires answers { (params : M.Params) → F.pre answer params }
    ensures { IfOk result (λ acts. (read : Result M.Params ReadError)
        × IsReadOf M.Params.reads (view request.params) read
        × ActsFor (λ params given. (found : Result M.Result ReadError)
        × F.post answer params (Ok found)
        × (given ≡ replies request.id (outcome_of M.Result.stands found) ∷ []))
        request.id read (map (act_view P.eq) acts.items)) }
{
    let (id, read) = read_params::<M>(alloc, request)?;
    match read {
        Ok(params) => answered::<M, P>(alloc, id, answer(params)?),
        Err(error) => Act::one(alloc, Act::Reply(id, Err(error))),
    }
}

/// Makes the answer to the request with this id: a result, or an error.
fn answered<M, P>(
    alloc: Global,
    id: RequestId,
    found: Result<M::Result, ResponseError>,
) -> Result<Vec<Act<P>>, AllocError>
where
    M: RequestToServer,
    P: Drop + PartialEq,
    ensures { IfOk result (λ acts. map (act_view P.eq) acts.items
        ≡ replies id (outcome_of M.Result.stands found) ∷ []) }
{
    match found {
        Ok(found) => Act::one(alloc, reply::<M, P>(alloc, id, &found)?),
        Err(error) => Act::one(alloc, Act::Reply(id, Err(error))),
    }
}

/// Reads the params of a request of this method, and returns the acts that `act` returns for the id and the params, as
/// `Act::from_request` does.
///
/// `Err` means that an allocation failed.
pub fn on_request<M, P, F>(
    alloc: Global,
    request: Request,
    act: F,
) -> Result<Vec<Act<P>>, AllocError>
where
    M: RequestToServer,
    P: Drop + PartialEq,
    F: FnOnce(RequestId, M::Params) -> Result<Vec<Act<P>>, AllocError>,
    requires method { string_bytes request.method ≡ M.method }
    requires acts { (params : M.Params) → F.pre act request.id params }
    ensures { IfOk result (λ acts. (read : Result M.Params ReadError)
        × IsReadOf M.Params.reads (view request.params) read
        × MatchResult read (λ params. F.post act request.id params (Ok acts))
        (λ e. Refuses request.id e (map (act_view P.eq) acts.items))) }
{
    let (id, read) = read_params::<M>(alloc, request)?;
    match read {
        Ok(params) => act(id, params),
        Err(error) => Act::one(alloc, Act::Reply(id, Err(error))),
    }
}

/// Reads the params of a notification of this method, and returns the acts that `act` returns for them, as
/// `Act::from_notification` does. Params that do not fit give an error in the client's log (`window/logMessage`).
///
/// `Err` means that an allocation failed.
pub fn on_notification<M, P, F>(
    alloc: Global,
    notification: Notification,
    act: F,
) -> Result<Vec<Act<P>>, AllocError>
where
    M: NotificationToServer,
    P: Drop + PartialEq,
    F: FnOnce(M::Params) -> Result<Vec<Act<P>>, AllocError>,
    requires method { string_bytes notification.method ≡ M.method }
    requires acts { (params : M.Params) → F.pre act params }
    ensures { IfOk result (λ acts. (read : Result M.Params ReadError)
        × IsReadOf M.Params.reads (view notification.params) read
        × MatchResult read (λ params. F.post act params (Ok acts))
        (λ e. map (act_view P.eq) acts.items ≡ logs_error
        (string_bytes notification.method ++ codes ": " ++ string_bytes e.message) ∷ [])) }
{
    let Notification { method, params } = notification;
    match from_value(alloc, &params)? {
        Ok(params) => act(params),
        Err(error) => Act::one(
            alloc,
            logged(alloc, method.as_str(), error.message.as_str())?,
        ),
    }
}

/// Returns the id of a request of this method, and its params, or the error -32602 to reply with (JSON-RPC 2.0, section
/// 5.1).
///
/// `Err` means that an allocation failed.
pub fn read_params<M: RequestToServer>(
    alloc: Global,
    request: Request,
) -> Result<(RequestId, Result<M::Params, ResponseError>), AllocError>
    requires method { string_bytes request.method ≡ M.method }
    ensures id { IfOk result (λ r. r.0 ≡ request.id) }
    ensures read { IfOk result (λ r. IsReadOf M.Params.reads (view request.params) r.1) }
{
    let Request { id, method, params } = request;
    drop(method);
    let found = from_value(alloc, &params)?;
    Ok((id, found))
}

/// Makes an error in the client's log about a message of this method.
fn logged<P: Drop + PartialEq>(alloc: Global, method: &str, why: &str) -> Result<Act<P>, AllocError>
    ensures { IfOk result (λ act. act_view P.eq act ≡ logs_error (method.now ++ codes ": " ++ why.now)) }
{
    let mut text = String::from_str(alloc, method)?;
    text.push_str(": ")?;
    text.push_str(why)?;
    Act::log_message(alloc, MessageType::ERROR, text.as_str())
}
