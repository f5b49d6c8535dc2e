//! Why no params were extracted.
use crate::msg::{Notification, Request};
use std::error::Error;
use std::fmt;

/// Why `Request::extract` or `Notification::extract` returned no params.
///
/// It prints `Method mismatch for request '..'` with the method; or, on three lines, `Invalid request`, the method and
/// the error of `serde_json`. For a notification the text has `notification` in place of `request`.
#[derive(Debug, Drop)]
pub enum ExtractError<T> {
    /// The message has another method. It is returned unchanged, so try the next method with it.
    MethodMismatch(T),
    /// The params do not convert to the requested type, or an allocation failed.
    JsonError {
        /// The method of the message.
        method: String,
        /// The error of `serde_json`.
        error: serde_json::Error,
    },
}

impl fmt::Display for ExtractError<Request> {
    ghost use Rattle.lsp_message.specs.Extract.{request_error_text};

    ghost output = { request_error_text };

    fn fmt<W: fmt::Write>(&self, f: &mut fmt::Formatter<W>) -> fmt::Result {
        match self {
            ExtractError::MethodMismatch(request) => {
                let method = &request.method;
                write!(f, "Method mismatch for request '{method}'")
            }
            ExtractError::JsonError { method, error } => {
                write!(f, "Invalid request\nMethod: {method}\n error: {error}")
            }
        }
    }
}

impl fmt::Display for ExtractError<Notification> {
    ghost use Rattle.lsp_message.specs.Extract.{notification_error_text};

    ghost output = { notification_error_text };

    fn fmt<W: fmt::Write>(&self, f: &mut fmt::Formatter<W>) -> fmt::Result {
        match self {
            ExtractError::MethodMismatch(notification) => {
                let method = &notification.method;
                write!(f, "Method mismatch for notification '{method}'")
            }
            ExtractError::JsonError { method, error } => {
                write!(f, "Invalid notification\nMethod: {method}\n error: {error}")
            }
        }
    }
}

impl Error for ExtractError<Request> {}

impl Error for ExtractError<Notification> {}
