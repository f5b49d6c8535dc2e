//! Types of a caller: params that it reads and writes, and an error that it makes from those of the port by `?`.
use crate::calls;
use lsp_server::{ExtractError, Inbox, Notification, Outbox, ProtocolError, Request, RequestId};
use serde::{Deserialize, Serialize};
use serde_json::Value;
use std::alloc::Global;
use std::fmt;

/// Params of a request.
#[derive(Drop, Serialize, Deserialize)]
pub struct Point {
    pub at: i32,
    pub name: String,
}

/// An error of a caller.
#[derive(Drop)]
pub enum OwnError {
    Protocol(ProtocolError),
    OfRequest(ExtractError<Request>),
    OfNotification(ExtractError<Notification>),
}

impl From<ProtocolError> for OwnError {
    fn from(error: ProtocolError) -> OwnError {
        OwnError::Protocol(error)
    }
}

impl From<ExtractError<Request>> for OwnError {
    fn from(error: ExtractError<Request>) -> OwnError {
        OwnError::OfRequest(error)
    }
}

impl From<ExtractError<Notification>> for OwnError {
    fn from(error: ExtractError<Notification>) -> OwnError {
        OwnError::OfNotification(error)
    }
}

impl fmt::Display for OwnError {
    fn fmt<W: fmt::Write>(&self, f: &mut fmt::Formatter<W>) -> fmt::Result {
        match self {
            OwnError::Protocol(error) => write!(f, "{error}"),
            OwnError::OfRequest(error) => write!(f, "{error}"),
            OwnError::OfNotification(error) => write!(f, "{error}"),
        }
    }
}

/// Reads the params of a request `a`.
pub fn point_of(alloc: Global, request: Request) -> Result<(RequestId, Point), OwnError> {
    let read = calls::extract(request, alloc, "a")?;
    Ok(read)
}

/// Reads the params of a notification `a`.
pub fn number_of(alloc: Global, notification: Notification) -> Result<i32, OwnError> {
    let read = calls::extract_params(notification, alloc, "a")?;
    Ok(read)
}

/// Ends a handshake.
pub fn finish<I: Inbox, O: Outbox>(
    alloc: Global,
    inbox: &mut I,
    outbox: &mut O,
    id: RequestId,
) -> Result<(), OwnError> {
    calls::finish_once(alloc, inbox, outbox, id, Value::Null)?;
    Ok(())
}
