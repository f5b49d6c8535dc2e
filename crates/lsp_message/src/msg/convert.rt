// Requests, notifications, responses and errors over types of their own. They are read from the tree, and written through their
// compact text.
ghost use Rattle.std.specs.Prelude.{IfErr, IfOk};
ghost use Rattle.lsp_message.specs.Converted.{IsFault, IsOutcomeOf};
ghost use Rattle.lsp_message.specs.View.{error_view, outcome_view};
ghost use Rattle.lsp_message.specs.declared.msg.code.ErrorCode.TheVariants.{InvalidParams};

use crate::error::ExtractError;
use crate::msg::{ErrorCode, Notification, Request, RequestId, Response, ResponseError};
use serde::{DeserializeOwned, Serialize};
use serde_json::Value;
use std::alloc::{AllocError, Global};

/// Reads a tree as a type of your own. A tree that does not fit gives the error to reply with: -32602, with the reason
/// as its text (JSON-RPC 2.0, section 5.1).
///
/// `Err(AllocError)` means that an allocation failed. No contract says what the type takes from the tree, so test it. A
/// tree that does not fit is written out and read again, so that the reason is that of its compact text.
pub fn read_as<P: DeserializeOwned>(
    alloc: Global,
    value: Value,
) -> Result<Result<P, ResponseError>, AllocError>
    ensures { IfOk result (λ read. IfErr read (λ e. IsFault InvalidParams (error_view e))) }
{
    match lsp_trees::from_value(alloc, value) {
        Ok(read) => Ok(Ok(read)),
        Err(error) => Ok(Err(fault(alloc, ErrorCode::InvalidParams, error)?)),
    }
}

/// Writes a value of your own as a tree, which is an outcome to reply with. A value that nests more than 127 levels, or
/// whose type refuses to be written, gives the error -32603, with the reason as its text (JSON-RPC 2.0, section 5.1).
///
/// `Err(AllocError)` means that an allocation failed. The value is converted by way of its compact text.
pub fn write_as<T: Serialize>(
    alloc: Global,
    value: &T,
) -> Result<Result<Value, ResponseError>, AllocError>
    ensures { IfOk result (λ written. IsOutcomeOf (T.writes value.now) (outcome_view written)) }
{
    match serde_json::to_value(alloc, value) {
        Ok(written) => Ok(Ok(written)),
        Err(error) => Ok(Err(fault(alloc, ErrorCode::InternalError, error)?)),
    }
}

/// Makes the error to reply with after a conversion failed.
fn fault(
    alloc: Global,
    code: ErrorCode,
    error: serde_json::Error,
) -> Result<ResponseError, AllocError>
    ensures { IfOk result (λ e. IsFault code (error_view e)) }
{
    if error.is_memory() {
        return Err(AllocError);
    }
    let reason = format!(in alloc; "{error}")?;
    ResponseError::new(alloc, code, reason.as_str())
}

impl ResponseError {
    ghost use Rattle.std.specs.Prelude.{◌≡◌, None};
    ghost use Rattle.lsp_message.specs.Converted.{method_not_found};
    ghost use Rattle.lsp_message.specs.ErrorCode.{number_of};

    /// Makes an error with a code that the standards define, a short text for people, and no data (JSON-RPC 2.0,
    /// section 5.1).
    ///
    /// `Err` means that an allocation failed.
    pub fn new(alloc: Global, code: ErrorCode, message: &str) -> Result<ResponseError, AllocError>
        ensures { IfOk result (λ e.
            error_view e ≡ record {
              code = number_of code;
              message = message.now;
              details =
                  None;
            }) }
    {
        Ok(ResponseError {
            code: code.number(),
            message: String::from_str(alloc, message)?,
            data: None,
        })
    }

    /// Makes the error for a request whose method the server does not have: -32601, `method not found` (JSON-RPC 2.0,
    /// section 5.1).
    ///
    /// `Err` means that an allocation failed.
    pub fn method_not_found(alloc: Global) -> Result<ResponseError, AllocError>
        ensures { IfOk result (λ e. error_view e ≡ method_not_found) }
    {
        ResponseError::new(alloc, ErrorCode::MethodNotFound, "method not found")
    }
}

impl Request {
    ghost use Rattle.std.specs.Prelude.{◌≡◌, ◌≤◌, IfOk, string_bytes};
    ghost use Rattle.serde_json.specs.Data.{depth};
    ghost use Rattle.serde_json.specs.Read.{max_depth};
    ghost use Rattle.serde_json.specs.View.{view};
    ghost use Rattle.lsp_message.specs.Converted.{IsTreeOf};
    ghost use Rattle.lsp_message.specs.Extract.{Extracts};

    /// Makes a request with params of any type that `serde_json` writes (JSON-RPC 2.0, section 4).
    ///
    /// `Err` means that `serde_json` could not convert the params, that they nest more than 127 levels, or that an
    /// allocation failed. The params are converted by way of their compact text.
    pub fn new<P: Serialize + Drop>(
        alloc: Global,
        id: RequestId,
        method: String,
        params: P,
    ) -> Result<Request, serde_json::Error>
        ensures id { IfOk result (λ r. r.id ≡ id) }
        ensures method { IfOk result (λ r. r.method ≡ method) }
        ensures params { IfOk result (λ r. IsTreeOf (P.writes params) (view r.params)) }
        ensures nests { IfOk result (λ r. depth (view r.params) ≤ max_depth) }
    {
        let params = serde_json::to_value(alloc, &params)?;
        Ok(Request { id, method, params })
    }

    /// Returns the id, and the params as a type of your own, if the request has this method.
    ///
    /// If it has another one, `ExtractError::MethodMismatch` returns the request. If the params do not convert, or an
    /// allocation fails, the error is `ExtractError::JsonError`.
    pub fn extract<P: DeserializeOwned>(
        self,
        alloc: Global,
        method: &str,
    ) -> Result<(RequestId, P), ExtractError<Request>>
        ensures { Extracts self (string_bytes self.method) method.now result (λ p. p.0 ≡ self.id) }
    {
        if self.method.as_str() != method {
            return Err(ExtractError::MethodMismatch(self));
        }
        let Request { id, method, params } = self;
        match lsp_trees::from_value(alloc, params) {
            Ok(params) => Ok((id, params)),
            Err(error) => Err(ExtractError::JsonError { method, error }),
        }
    }

    /// Returns the id, and the params as a type of your own. Params that do not fit give the error to reply with under
    /// that id: -32602, with the reason as its text (JSON-RPC 2.0, section 5.1). Check the method first.
    ///
    /// `Err(AllocError)` means that an allocation failed.
    pub fn params_as<P: DeserializeOwned>(
        self,
        alloc: Global,
    ) -> Result<(RequestId, Result<P, ResponseError>), AllocError>
        ensures id { IfOk result (λ r. r.0 ≡ self.id) }
        ensures fault { IfOk result (λ r. IfErr r.1 (λ e. IsFault InvalidParams (error_view e))) }
    {
        let Request { id, params, .. } = self;
        let params = read_as(alloc, params)?;
        Ok((id, params))
    }
}

impl Notification {
    ghost use Rattle.std.specs.Prelude.{◌≡◌, ◌≤◌, IfOk, string_bytes, ⊤};
    ghost use Rattle.serde_json.specs.Data.{depth};
    ghost use Rattle.serde_json.specs.Read.{max_depth};
    ghost use Rattle.serde_json.specs.View.{view};
    ghost use Rattle.lsp_message.specs.Converted.{IsTreeOf};
    ghost use Rattle.lsp_message.specs.Extract.{Extracts};

    /// Makes a notification with params of any type that `serde_json` writes (JSON-RPC 2.0, section 4.1).
    ///
    /// `Err` means that `serde_json` could not convert the params, that they nest more than 127 levels, or that an
    /// allocation failed. The params are converted by way of their compact text.
    pub fn new<P: Serialize + Drop>(
        alloc: Global,
        method: String,
        params: P,
    ) -> Result<Notification, serde_json::Error>
        ensures method { IfOk result (λ n. n.method ≡ method) }
        ensures params { IfOk result (λ n. IsTreeOf (P.writes params) (view n.params)) }
        ensures nests { IfOk result (λ n. depth (view n.params) ≤ max_depth) }
    {
        let params = serde_json::to_value(alloc, &params)?;
        Ok(Notification { method, params })
    }

    /// Returns the params as a type of your own, if the notification has this method. It fails as `Request::extract`
    /// does.
    pub fn extract<P: DeserializeOwned>(
        self,
        alloc: Global,
        method: &str,
    ) -> Result<P, ExtractError<Notification>>
        ensures { Extracts self (string_bytes self.method) method.now result (λ _. ⊤) }
    {
        if self.method.as_str() != method {
            return Err(ExtractError::MethodMismatch(self));
        }
        let Notification { method, params } = self;
        match lsp_trees::from_value(alloc, params) {
            Ok(params) => Ok(params),
            Err(error) => Err(ExtractError::JsonError { method, error }),
        }
    }

    /// Returns the params as a type of your own. Params that do not fit give an error that says why. A notification has
    /// no reply, so log the error or drop it (JSON-RPC 2.0, section 4.1). Check the method first.
    ///
    /// `Err(AllocError)` means that an allocation failed.
    pub fn params_as<P: DeserializeOwned>(
        self,
        alloc: Global,
    ) -> Result<Result<P, ResponseError>, AllocError>
        ensures { IfOk result (λ read. IfErr read (λ e. IsFault InvalidParams (error_view e))) }
    {
        read_as(alloc, self.params)
    }
}

impl Response {
    ghost use Rattle.std.specs.Prelude.{◌≡◌, ◌≤◌, IfOk, IsOkAnd, Err, None};
    ghost use Rattle.serde_json.specs.Data.{depth};
    ghost use Rattle.serde_json.specs.Read.{max_depth};
    ghost use Rattle.serde_json.specs.View.{view};
    ghost use Rattle.lsp_message.specs.Converted.{IsTreeOf, method_not_found};
    ghost use Rattle.lsp_message.specs.Message.{response};
    ghost use Rattle.lsp_message.specs.View.{response_view};

    /// Makes a reply with a result of any type that `serde_json` writes (JSON-RPC 2.0, section 5).
    ///
    /// `Err` means that `serde_json` could not convert the result, that it nests more than 127 levels, or that an
    /// allocation failed. The result is converted by way of its compact text.
    pub fn new_ok<R: Serialize + Drop>(
        alloc: Global,
        id: RequestId,
        value: R,
    ) -> Result<Response, serde_json::Error>
        ensures id { IfOk result (λ r. r.id ≡ id) }
        ensures ok { IfOk result (λ r.
            IsOkAnd r.response_result (λ v. depth (view v) ≤ max_depth)) }
        ensures value { IfOk result (λ r.
            IsOkAnd r.response_result (λ v. IsTreeOf (R.writes value) (view v))) }
    {
        let value = serde_json::to_value(alloc, &value)?;
        Ok(Response {
            id,
            response_result: Ok(value),
        })
    }

    /// Makes the reply to a request whose method the server does not have: the error -32601, `method not found`
    /// (JSON-RPC 2.0, section 5.1).
    ///
    /// `Err` means that an allocation failed.
    pub fn method_not_found(alloc: Global, id: RequestId) -> Result<Response, AllocError>
        ensures { IfOk result (λ r. response_view r ≡ response id (Err method_not_found)) }
    {
        let error = ResponseError::method_not_found(alloc)?;
        Ok(Response {
            id,
            response_result: Err(error),
        })
    }

    /// Makes a reply with an error and no data (JSON-RPC 2.0, section 5.1). It does not allocate. For `code` take the
    /// `number` of an `ErrorCode`.
    pub fn new_err(id: RequestId, code: i32, message: String) -> Response
        ensures { result
            ≡ record {
              id = id;
              response_result =
                  Err (record { code = code; message = message; «data» = None });
            } }
    {
        Response {
            id,
            response_result: Err(ResponseError {
                code,
                message,
                data: None,
            }),
        }
    }
}
