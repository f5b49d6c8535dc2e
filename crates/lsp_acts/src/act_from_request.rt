// Acts at a message whose params are read by type: two lines for each method.
ghost use Rattle.std.specs.Prelude.{◌≡◌, ◌∷◌, ◌++◌, [], map, codes, string_bytes};
ghost use Rattle.std.specs.Prelude.{IfOk, MatchResult, Result};
ghost use Rattle.lsp_message.specs.declared.msg.ResponseError.{ResponseError as ReadError};
ghost use Rattle.lsp_acts.specs.Answering.{ActsFor, AnswersEither, AnswersWith, IsRead};
ghost use Rattle.lsp_acts.specs.Answering.{Refuses, logs_error};
ghost use Rattle.lsp_acts.specs.View.{act_view};

use crate::server::Act;
use lsp_message::{Notification, Request, RequestId, ResponseError, read_as};
use serde::{DeserializeOwned, Serialize};
use std::alloc::{AllocError, Global};

impl<P: Drop + PartialEq> Act<P> {
    /// Makes a list with this act alone.
    ///
    /// `Err` means that an allocation failed.
    pub fn one(alloc: Global, act: Act<P>) -> Result<Vec<Act<P>>, AllocError>
        ensures { IfOk result (λ acts. acts.items ≡ act ∷ []) }
    {
        let mut acts = Vec::new(alloc);
        acts.push(act)?;
        Ok(acts)
    }

    /// Answers a request: reads its params as a type of your own, and replies with the result that `answer` returns for
    /// them. Params that do not fit are refused with the error -32602. Its text names a missing key, as `#[serde(rename
    /// = "..")]` spells it; about a value of a wrong type it says only that. A result that can't be written is answered
    /// with the error -32603 (JSON-RPC 2.0, section 5.1).
    ///
    /// Check the method first. `Err` means that an allocation failed. No contract says which params fit, so test it.
    pub fn answer<T, R, F>(
        alloc: Global,
        request: Request,
        answer: F,
    ) -> Result<Vec<Act<P>>, AllocError>
    where
        T: DeserializeOwned,
        R: Serialize + Drop,
        F: FnOnce(T) -> Result<R, AllocError>,
        requires { (params : T) → F.pre answer params }
        ensures { IfOk result (λ acts. (read : Result T ReadError) × IsRead read
            × ActsFor (λ params given. (found : R) × F.post answer params (Ok found)
            × AnswersWith (R.writes found) request.id given)
            request.id read (map (act_view P.eq) acts.items)) }
    {
        let (id, read) = request.params_as(alloc)?;
        match read {
            Ok(params) => {
                let found = answer(params)?;
                Act::one(alloc, Act::reply(alloc, id, &found)?)
            }
            Err(error) => Act::one(alloc, Act::Reply(id, Err(error))),
        }
    }

    /// Answers a request as `answer` does, with an `answer` that may also return an error, which is the reply then.
    pub fn try_answer<T, R, F>(
        alloc: Global,
        request: Request,
        answer: F,
    ) -> Result<Vec<Act<P>>, AllocError>
    where
        T: DeserializeOwned,
        R: Serialize + Drop,
        F: FnOnce(T) -> Result<Result<R, ResponseError>, AllocError>,
        requires { (params : T) → F.pre answer params }
        ensures { IfOk result (λ acts. (read : Result T ReadError) × IsRead read
            × ActsFor (λ params given. (found : Result R ReadError)
            × F.post answer params (Ok found)
            × AnswersEither R.writes request.id found given)
            request.id read (map (act_view P.eq) acts.items)) }
    {
        let (id, read) = request.params_as(alloc)?;
        match read {
            Ok(params) => answered(alloc, id, answer(params)?),
            Err(error) => Act::one(alloc, Act::Reply(id, Err(error))),
        }
    }

    /// Reads a request's params as a type of your own, and returns the acts that `act` returns for the id and the
    /// params. Use it for a request that is answered later, or with more than its reply. Params that do not fit are
    /// refused with the error -32602, as by `answer`.
    ///
    /// `Err` means that an allocation failed. No contract says what `act` changes through its captures. If your server
    /// promises something about that, call `Request::params_as`.
    pub fn from_request<T, F>(
        alloc: Global,
        request: Request,
        act: F,
    ) -> Result<Vec<Act<P>>, AllocError>
    where
        T: DeserializeOwned,
        F: FnOnce(RequestId, T) -> Result<Vec<Act<P>>, AllocError>,
        requires { (params : T) → F.pre act request.id params }
        ensures { IfOk result (λ acts. (read : Result T ReadError) × IsRead read
            × MatchResult read (λ params. F.post act request.id params (Ok acts))
            (λ e. Refuses request.id e (map (act_view P.eq) acts.items))) }
    {
        let (id, read) = request.params_as(alloc)?;
        match read {
            Ok(params) => act(id, params),
            Err(error) => Act::one(alloc, Act::Reply(id, Err(error))),
        }
    }

    /// Reads a notification's params as a type of your own, and returns the acts that `act` returns for them. Params
    /// that do not fit give one act, an error in the client's log (`window/logMessage`) with the method and the reason,
    /// in the words of the error that `answer` sends.
    ///
    /// `Err` means that an allocation failed. No contract says what `act` changes through its captures. If your server
    /// promises something about that, call `Notification::params_as`.
    pub fn from_notification<T, F>(
        alloc: Global,
        notification: Notification,
        act: F,
    ) -> Result<Vec<Act<P>>, AllocError>
    where
        T: DeserializeOwned,
        F: FnOnce(T) -> Result<Vec<Act<P>>, AllocError>,
        requires { (params : T) → F.pre act params }
        ensures { IfOk result (λ acts. (read : Result T ReadError) × IsRead read
            × MatchResult read (λ params. F.post act params (Ok acts))
            (λ e. map (act_view P.eq) acts.items ≡ logs_error
            (string_bytes notification.method ++ codes ": " ++ string_bytes e.message) ∷ [])) }
    {
        let Notification { method, params } = notification;
        match read_as(alloc, params)? {
            Ok(params) => act(params),
            Err(error) => {
                let reason = error.message.as_str();
                Act::one(alloc, Act::log_error(alloc, method.as_str(), ": ", reason)?)
            }
        }
    }
}

/// Makes the answer to the request with this id: a result, or an error.
fn answered<P: Drop + PartialEq, R: Serialize + Drop>(
    alloc: Global,
    id: RequestId,
    found: Result<R, ResponseError>,
) -> Result<Vec<Act<P>>, AllocError>
    ensures { IfOk result (λ acts. AnswersEither R.writes id found (map (act_view P.eq) acts.items)) }
{
    match found {
        Ok(found) => Act::one(alloc, Act::reply(alloc, id, &found)?),
        Err(error) => Act::one(alloc, Act::Reply(id, Err(error))),
    }
}
