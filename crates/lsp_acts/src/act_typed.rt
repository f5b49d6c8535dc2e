// Acts over types of the user's own.
ghost use Rattle.std.specs.Prelude.{◌≡◌, Err, IfOk, None, Result};
ghost use Rattle.serde_json.specs.Data.{Data};
ghost use Rattle.lsp_message.specs.Converted.{IsOutcomeOf, method_not_found};
ghost use Rattle.lsp_message.specs.ErrorCode.{number_of};
ghost use Rattle.lsp_message.specs.Message.{ErrorObject};
ghost use Rattle.lsp_message.specs.View.{outcome_view};
ghost use Rattle.lsp_acts.specs.Answering.{Notifies};
ghost use Rattle.lsp_acts.specs.Acts.{asks, replies};
ghost use Rattle.lsp_acts.specs.Typed.{Carries};
ghost use Rattle.lsp_acts.specs.View.{act_view};

use crate::server::Act;
use lsp_message::{ErrorCode, Notification, RequestId, ResponseError, ResultText, write_as};
use serde::Serialize;
use std::alloc::{AllocError, Global};

impl<P: Drop + PartialEq> Act<P> {
    /// Makes a notification with params of a type of your own. If they nest more than 127 levels, or their type refuses
    /// to be written, the act writes an error into the client's log instead (`window/logMessage`), with the method and
    /// the reason.
    ///
    /// `Err` means that an allocation failed. No contract says which values can't be written.
    pub fn send_notification<T: Serialize>(
        alloc: Global,
        method: &str,
        params: &T,
    ) -> Result<Act<P>, AllocError>
        ensures { IfOk result (λ act. Notifies (T.writes params.now) method.now (act_view P.eq act)) }
    {
        match write_as(alloc, params)? {
            Ok(params) => {
                let method = String::from_str(alloc, method)?;
                Ok(Act::SendNotification(Notification { method, params }))
            }
            Err(error) => Act::log_error(alloc, method, " was not sent: ", error.message.as_str()),
        }
    }

    /// Makes a request of the server with params of a type of your own. `payload` is kept for the reply. Params that
    /// nest more than 127 levels, or whose type refuses to be written, give no act: the error -32603 says why, and the
    /// session goes on.
    ///
    /// `Err(AllocError)` means that an allocation failed.
    pub fn send_request<T: Serialize>(
        alloc: Global,
        method: &str,
        params: &T,
        payload: P,
    ) -> Result<Result<Act<P>, ResponseError>, AllocError>
        ensures { IfOk result (λ asked.
            Carries P.eq (T.writes params.now) (λ tree. asks method.now tree «payload») asked) }
    {
        match write_as(alloc, params)? {
            Ok(params) => {
                let method = String::from_str(alloc, method)?;
                Ok(Ok(Act::SendRequest(method, params, payload)))
            }
            Err(error) => Ok(Err(error)),
        }
    }

    /// Makes the answer to the client's request with this id: a result of a type of your own. A result that nests more
    /// than 127 levels, or whose type refuses to be written, is answered with the error -32603, which says why
    /// (JSON-RPC 2.0, section 5.1).
    ///
    /// `Err` means that an allocation failed.
    pub fn reply<T: Serialize>(
        alloc: Global,
        id: RequestId,
        found: &T,
    ) -> Result<Act<P>, AllocError>
        ensures { IfOk result (λ act. (outcome : Result Data ErrorObject)
            × IsOutcomeOf (T.writes found.now) outcome × (act_view P.eq act ≡ replies id outcome)) }
    {
        let outcome = write_as(alloc, found)?;
        Ok(Act::Reply(id, outcome))
    }

    /// Makes the answer to the client's request with this id: a result whose JSON text is written already, or an error
    /// (JSON-RPC 2.0, section 5).
    pub fn reply_outcome(id: RequestId, outcome: Result<ResultText, ResponseError>) -> Act<P>
        ensures { act_view P.eq result ≡ replies id (outcome_view outcome) }
    {
        match outcome {
            Ok(text) => Act::ReplyText(id, text),
            Err(error) => Act::Reply(id, Err(error)),
        }
    }

    /// Makes the answer to the client's request with this id: an error with a code that the standards define, a short
    /// text for people, and no data (JSON-RPC 2.0, section 5.1).
    ///
    /// `Err` means that an allocation failed.
    pub fn reply_error(
        alloc: Global,
        id: RequestId,
        code: ErrorCode,
        message: &str,
    ) -> Result<Act<P>, AllocError>
        ensures { IfOk result (λ act. act_view P.eq act
            ≡ replies id (Err
            (record { code = number_of code; message = message.now; details = None }))) }
    {
        let error = ResponseError::new(alloc, code, message)?;
        Ok(Act::Reply(id, Err(error)))
    }

    /// Makes the answer to a request whose method the server does not have: the error -32601, `method not found`
    /// (JSON-RPC 2.0, section 5.1).
    ///
    /// `Err` means that an allocation failed.
    pub fn method_not_found(alloc: Global, id: RequestId) -> Result<Act<P>, AllocError>
        ensures { IfOk result (λ act. act_view P.eq act ≡ replies id (Err method_not_found)) }
    {
        let error = ResponseError::method_not_found(alloc)?;
        Ok(Act::Reply(id, Err(error)))
    }
}
