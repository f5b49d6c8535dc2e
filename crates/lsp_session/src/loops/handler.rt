// A session of a server (LSP 3.17, "Server lifecycle").
ghost use Rattle.serde_json.specs.View.{view};
ghost use Rattle.std.specs.Prelude.{◌≡◌, List, IfOk, string_bytes};
ghost use Rattle.lsp_message.specs.View.{outcome_view};
ghost use Rattle.lsp_session.specs.HandlerSession.{of_handler, initialize_result as initialize_result_spec};
ghost use Rattle.lsp_session.specs.Session.{SessionOut};
ghost use Rattle.lsp_session.specs.SessionRun.{Runs};

use crate::error::ProtocolError;
use crate::lifecycle::{Inbox, Outbox};
use crate::loops::both_ends::serve_replies;
use crate::loops::handler_service::HandlerService;
use crate::loops::unwoken::Unwoken;
use lsp_message::{Notification, Request, Response, ResponseError};
use serde_json::{Map, Value, put};
use std::alloc::{AllocError, Global};

/// How a session ended.
#[derive(Clone, Copy, Debug, PartialEq, Eq)]
pub enum SessionEnd {
    /// The client asked for `shutdown`, and then sent `exit`.
    ShutDown,
    /// From `initialized` on, the client sent `exit` without a `shutdown`, or the messages ended.
    Closed,
}

/// What a server does with the requests and the notifications of a session.
///
/// The ghost members say what a handler promises. If an `impl` leaves one out, it promises nothing there: the method
/// may do anything.
pub trait Handler {
    ghost use Rattle.serde_json.specs.Data.{Data};
    ghost use Rattle.std.specs.Prelude.{ℕ, Result, ⊤};
    ghost use Rattle.lsp_message.specs.Id.{Id};
    ghost use Rattle.lsp_message.specs.Message.{ErrorObject};

    /// A request with this id, method and params may have this outcome, and change the handler in this manner.
    ghost answer_post: { Self → Id → List ℕ → Data → Result Data ErrorObject → Self → Type 0 } = { λ _ _ _ _ _ _. ⊤ };

    /// A notification with this method and these params may change the handler in this manner.
    ghost note_post: { Self → List ℕ → Data → Self → Type 0 } = { λ _ _ _ _. ⊤ };

    /// Answers a request with its result or an error (JSON-RPC 2.0, section 5). The session sends the reply under the
    /// request's id. An outer `Err` means that an allocation failed, and ends the session.
    fn answer(&mut self, request: &Request) -> Result<Result<Value, ResponseError>, AllocError>
        ensures { IfOk result (λ outcome.
            answer_post self.old request.now.id (string_bytes request.now.method)
            (view request.now.params) (outcome_view outcome) self.new) };

    /// Handles a notification (JSON-RPC 2.0, section 4.1). An `Err` means that an allocation failed, and ends the
    /// session.
    fn note(&mut self, notification: &Notification) -> Result<(), AllocError>
        ensures { IfOk result (λ _.
            note_post self.old (string_bytes notification.now.method) (view notification.now.params)
            self.new) };

    /// Answers a request that is passed by value: it returns the reply under the request's id, with an outcome that
    /// `answer` may have. The session calls this method, which calls `answer`. A handler that returns the params in its
    /// result writes this method too, and moves them.
    fn respond(&mut self, request: Request) -> Result<Response, AllocError>
        ensures id { IfOk result (λ response. response.id ≡ request.id) }
        ensures outcome { IfOk result (λ response.
            answer_post self.old request.id (string_bytes request.method) (view request.params)
            (outcome_view response.response_result) self.new) }
    {
        let response_result = self.answer(&request)?;
        Ok(Response {
            id: request.id,
            response_result,
        })
    }
}

/// Runs a session of a server: the handshake, the handler's answers, and the shutdown (LSP 3.17, "Server lifecycle").
///
/// `initialize` is answered with `{"capabilities":<capabilities>}`. From `initialized` on, each request is answered by
/// the handler, in order. The handler is notified of each notification, and responses are dropped. `shutdown` is
/// answered with null, and `exit` then gives `ShutDown`. The result is `Closed` if, from `initialized` on, `exit`
/// arrives without a `shutdown`, or the messages end. For a message at the wrong time see the table of `lifecycle`.
///
/// An outbox that is closed to a reply ends the session with `disconnected channel`, and a failed allocation ends it
/// with `out of memory`. A reply to `shutdown` that could not be sent is ignored. After 2^64 - 1 events the session
/// ends as if the messages had ended.
pub fn serve<I: Inbox, O: Outbox, H: Handler>(
    alloc: Global,
    inbox: &mut I,
    outbox: &mut O,
    capabilities: Value,
    handler: &mut H,
) -> Result<SessionEnd, ProtocolError>
    ensures { Runs I.receives O.sends
        (SessionOut (of_handler H.answer_post H.note_post (view capabilities)) handler.old handler.new)
        (inbox.old, outbox.old) result (inbox.new, outbox.new) }
{
    let mut capabilities = capabilities;
    let mut service = HandlerService::new(alloc, &mut capabilities, handler);
    let mut unwoken = Unwoken::new(inbox);
    serve_replies(alloc, &mut unwoken, outbox, &mut service).answer
}

/// Makes the result of `initialize`: `{"capabilities":<capabilities>}`. An `Err` means that an allocation failed.
pub fn initialize_result(alloc: Global, capabilities: Value) -> Result<Value, AllocError>
    ensures { IfOk result (λ value. view value ≡ initialize_result_spec (view capabilities)) }
{
    let mut members = Map::new(alloc);
    put(&mut members, alloc, "capabilities", capabilities)?;
    Ok(Value::Object(members))
}
