// Calls that refer to their parts.
ghost use Rattle.std.specs.Prelude.{◌≡◌};
ghost use Rattle.lsp_message.specs.View.{notification_view, request_view};
ghost use Rattle.lsp_calls.specs.Calls.{notification_ref_view, request_ref_view};

use lsp_json::JsonRef;
use lsp_message::{Notification, Request, RequestId};

/// A request whose params are read where they stand (JSON-RPC 2.0, section 4).
#[derive(Drop)]
pub struct RequestRef<'a> {
    /// The id. The reply has the same one.
    pub id: &'a RequestId,
    /// The name of the method.
    pub method: &'a str,
    /// The arguments. Null means none.
    pub params: JsonRef<'a>,
}

/// A notification whose params are read where they stand (JSON-RPC 2.0, section 4.1).
#[derive(Drop)]
pub struct NotificationRef<'a> {
    /// The name of the method.
    pub method: &'a str,
    /// The arguments. Null means none.
    pub params: JsonRef<'a>,
}

/// A request or a notification.
#[derive(Drop)]
pub enum CallRef<'a> {
    /// A call that wants a reply.
    Request(RequestRef<'a>),
    /// A call that wants no reply.
    Notification(NotificationRef<'a>),
}

impl<'a> RequestRef<'a> {
    /// Refers to the parts of a request.
    pub fn of(request: &'a Request) -> RequestRef<'a>
        ensures { request_ref_view result ≡ request_view request.now }
    {
        RequestRef {
            id: &request.id,
            method: request.method.as_str(),
            params: JsonRef::of_tree(&request.params),
        }
    }
}

impl<'a> NotificationRef<'a> {
    /// Refers to the parts of a notification.
    pub fn of(notification: &'a Notification) -> NotificationRef<'a>
        ensures { notification_ref_view result ≡ notification_view notification.now }
    {
        NotificationRef {
            method: notification.method.as_str(),
            params: JsonRef::of_tree(&notification.params),
        }
    }
}
