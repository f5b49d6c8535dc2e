//! The messages of JSON-RPC 2.0 (sections 4 and 5), as LSP 3.17 uses them.
use serde_json::Value;

mod code;
mod convert;
mod id;
mod nesting;
mod read;
mod result_text;
mod text;
mod tree;
mod value;

pub use code::ErrorCode;
pub use convert::{read_as, write_as};
pub use id::RequestId;
pub use nesting::nests_within;
pub use result_text::ResultText;

/// A message of JSON-RPC 2.0.
#[derive(Clone, Debug, Drop)]
pub enum Message {
    /// A call that wants a reply (section 4).
    Request(Request),
    /// The reply to a request (section 5).
    Response(Response),
    /// A call that wants no reply (section 4.1).
    Notification(Notification),
}

/// A call that wants a reply (JSON-RPC 2.0, section 4).
///
/// All fields are public, so make one from its parts, or by `new` from params of a type of your own.
#[derive(Clone, Debug, Drop)]
pub struct Request {
    /// The id. The reply has the same one.
    pub id: RequestId,
    /// The name of the method.
    pub method: String,
    /// The arguments. Null means none, and is not written.
    pub params: Value,
}

/// A call that wants no reply (JSON-RPC 2.0, section 4.1).
#[derive(Clone, Debug, Drop)]
pub struct Notification {
    /// The name of the method.
    pub method: String,
    /// The arguments. Null means none, and is not written.
    pub params: Value,
}

/// The reply to a request (JSON-RPC 2.0, section 5).
#[derive(Clone, Debug, Drop)]
pub struct Response {
    /// The id of the request.
    pub id: RequestId,
    /// The result of the request, which may be null, or an error.
    pub response_result: Result<Value, ResponseError>,
}

/// Why a request has no result (JSON-RPC 2.0, section 5.1).
#[derive(Clone, Debug, Drop)]
pub struct ResponseError {
    /// The number of the error. `ErrorCode` has those that the standards define.
    pub code: i32,
    /// A short text for people.
    pub message: String,
    /// More about the error. `Some` is written, also if it is null; null is read as `None`.
    pub data: Option<Value>,
}

impl From<Request> for Message {
    ghost use Rattle.std.specs.Prelude.{◌≡◌};
    ghost use Rattle.lsp_message.specs.declared.msg.Message.TheVariants as variant;

    ghost from_gives = { λ r m. m ≡ variant.Request r };

    fn from(request: Request) -> Message {
        Message::Request(request)
    }
}

impl From<Response> for Message {
    ghost use Rattle.std.specs.Prelude.{◌≡◌};
    ghost use Rattle.lsp_message.specs.declared.msg.Message.TheVariants as variant;

    ghost from_gives = { λ r m. m ≡ variant.Response r };

    fn from(response: Response) -> Message {
        Message::Response(response)
    }
}

impl From<Notification> for Message {
    ghost use Rattle.std.specs.Prelude.{◌≡◌};
    ghost use Rattle.lsp_message.specs.declared.msg.Message.TheVariants as variant;

    ghost from_gives = { λ n m. m ≡ variant.Notification n };

    fn from(notification: Notification) -> Message {
        Message::Notification(notification)
    }
}
