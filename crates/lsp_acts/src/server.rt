// What a server does at each message of its client.
ghost use Rattle.serde_json.specs.View.{view};
ghost use Rattle.std.specs.Prelude.{map, option_map, List, IfOk, string_bytes};
ghost use Rattle.lsp_message.specs.View.{outcome_view};
ghost use Rattle.lsp_acts.specs.Acts.{Act as PlainAct};
ghost use Rattle.lsp_acts.specs.Calls.{AnswersCall};
ghost use Rattle.lsp_acts.specs.View.{act_view};

use lsp_calls::CallRef;
use lsp_message::{Notification, Request, RequestId, ResponseError, ResultText};
use serde_json::Value;
use std::alloc::{AllocError, Global};

/// A message that a server sends, or a cancellation.
#[derive(Drop)]
pub enum Act<P> {
    /// Sends a notification.
    SendNotification(Notification),
    /// Sends a request with this method and these params, and keeps the payload for the reply. The id is the next of 0,
    /// 1, 2, .. 2147483647. If all of them were used, nothing is sent, and `Server::ids_exhausted` gets the payload back.
    SendRequest(String, Value, P),
    /// Answers the client's request with this id, now or later. If no request is held under it, nothing is sent.
    Reply(RequestId, Result<Value, ResponseError>),
    /// Does the same with a result that is text already. A large result needs less memory in this form until it is
    /// sent.
    ReplyText(RequestId, ResultText),
    /// Cancels each request of the server whose payload equals this one and whose reply has not arrived, the oldest
    /// first. The replies still arrive, with their payloads (LSP 3.17, "Cancellation Support").
    Cancel(P),
}

/// A server that may send first. Its methods return acts, which are performed in order after the method returned. An
/// `Err` means that an allocation failed, and ends the session. Nothing is sent for that message.
///
/// The ghost members say what a server promises. If an `impl` leaves one out, it promises nothing there: the method may
/// do anything. `woken_post` is the exception: an `impl` that leaves it out promises that a wake-up changes nothing and
/// sends nothing.
pub trait Server {
    ghost use Rattle.serde_json.specs.Data.{Data};
    ghost use Rattle.std.specs.Prelude.{ℕ, Result, ⊤};
    ghost use Rattle.lsp_message.specs.Id.{Id};
    ghost use Rattle.lsp_message.specs.Message.{ErrorObject};
    ghost use Rattle.lsp_acts.specs.Acts.{stays};

    /// What the server keeps for the reply to a request of its own. `Act::Cancel` finds requests by it.
    type PendingData: Drop + PartialEq;

    /// For these params of `initialize` it may return this outcome, and change in this manner.
    ghost initialize_post: { Self → Data → Result Data ErrorObject → Self → Type 0 } = { λ _ _ _ _. ⊤ };

    /// At `initialized` it may return these acts, and change in this manner.
    ghost initialized_post: { Self → List (PlainAct Self.PendingData) → Self → Type 0 } = { λ _ _ _. ⊤ };

    /// At a request with this id, method and params it may return these acts, and change in this manner.
    ghost request_post: { Self → Id → List ℕ → Data → List (PlainAct Self.PendingData) → Self → Type 0 } = { λ _ _ _ _ _ _. ⊤ };

    /// At a notification with this method and these params it may return these acts, and change in this manner.
    ghost notification_post: { Self → List ℕ → Data → List (PlainAct Self.PendingData) → Self → Type 0 } = { λ _ _ _ _ _. ⊤ };

    /// At a reply to a request of its own, with this payload and this outcome, it may return these acts, and change in
    /// this manner.
    ghost response_post: { Self → Self.PendingData → Result Data ErrorObject → List (PlainAct Self.PendingData)
        → Self → Type 0 } = { λ _ _ _ _ _. ⊤ };

    /// At a wake-up it may return these acts, and change in this manner. By default it returns none and stays as it is.
    ghost woken_post: { Self → List (PlainAct Self.PendingData) → Self → Type 0 } = { stays };

    /// At `shutdown` it may return these last acts, and change in this manner.
    ghost shutdown_post: { Self → List (PlainAct Self.PendingData) → Self → Type 0 } = { λ _ _ _. ⊤ };

    /// It may get this payload back, and change in this manner.
    ghost ids_exhausted_post: { Self → Self.PendingData → Self → Type 0 } = { λ _ _ _. ⊤ };

    /// Answers `initialize` (LSP 3.17, "Initialize Request"). The result has the capabilities, and the server's name
    /// and version. An error is sent as the reply, and the session waits for another `initialize`.
    fn initialize(&mut self, params: Value) -> Result<Result<Value, ResponseError>, AllocError>
        ensures { IfOk result (λ outcome.
            initialize_post self.old (view params) (outcome_view outcome) self.new) };

    /// Returns the server's first acts: `initialized` arrived, and from now on it may send.
    fn initialized(&mut self) -> Result<Vec<Act<Self::PendingData>>, AllocError>
        ensures { IfOk result (λ acts.
            initialized_post self.old (map (act_view Self.PendingData.eq) acts.items) self.new) };

    /// Handles a request. The request is held until `Act::Reply` answers it, now or later. A client that uses an id
    /// again while a request is held under it gets one reply under this id.
    fn request(&mut self, request: Request) -> Result<Vec<Act<Self::PendingData>>, AllocError>
        ensures { IfOk result (λ acts.
            request_post self.old request.id (string_bytes request.method) (view request.params)
            (map (act_view Self.PendingData.eq) acts.items) self.new) };

    /// Handles a notification. At `$/cancelRequest` it may answer the request that is cancelled. Otherwise the session
    /// replies to that request with the error -32800, `canceled by client` (LSP 3.17, "Cancellation Support").
    fn notification(
        &mut self,
        notification: Notification,
    ) -> Result<Vec<Act<Self::PendingData>>, AllocError>
        ensures { IfOk result (λ acts.
            notification_post self.old (string_bytes notification.method) (view notification.params)
            (map (act_view Self.PendingData.eq) acts.items) self.new) };

    /// Returns whether the server wants requests and notifications by `call`. By default it does not.
    fn reads_calls(&self) -> bool {
        false
    }

    /// Handles a request or a notification whose params are read where they stand, without a tree. It returns `None` to
    /// get the message by `request` or `notification`. Then nothing has changed. By default it returns `None`.
    ///
    /// If `reads_calls` returns true, a `ServerApplication` passes each request and each notification here first. This
    /// has two exceptions: the session handles `initialize`, `initialized`, `shutdown` and `exit`, and
    /// `$/cancelRequest` goes to `notification` alone. A session with jobs calls `request` and `notification` alone.
    fn call(
        &mut self,
        call: &CallRef<'_>,
    ) -> Result<Option<Vec<Act<Self::PendingData>>>, AllocError>
        ensures { IfOk result (λ answer. AnswersCall request_post notification_post self.old call.now
            (option_map (λ acts. map (act_view Self.PendingData.eq) acts.items) answer) self.new) }
    {
        let _ = call;
        Ok(None)
    }

    /// Handles the reply to a request of the server, with the payload that was kept for it. A reply that arrives after
    /// `shutdown` is skipped.
    fn response(
        &mut self,
        payload: Self::PendingData,
        outcome: Result<Value, ResponseError>,
    ) -> Result<Vec<Act<Self::PendingData>>, AllocError>
        ensures { IfOk result (λ acts.
            response_post self.old «payload» (outcome_view outcome) (map (act_view Self.PendingData.eq) acts.items) self.new) };

    /// Handles a wake-up. It means that something is ready for which the server waits
    /// (`WakingInbox::receive_or_woken`), or that the session skipped a content part that is no message, as its policy
    /// allows (`BadContentPolicy`). The session calls it after `initialized` and before `shutdown`, and nowhere else.
    /// Its acts are performed as those of a message. A server that waits only for messages returns an empty vector.
    fn woken(&mut self, alloc: Global) -> Result<Vec<Act<Self::PendingData>>, AllocError>
        ensures { IfOk result (λ acts. woken_post self.old (map (act_view Self.PendingData.eq) acts.items) self.new) };

    /// Returns the server's last acts: `shutdown` arrived (LSP 3.17, "Shutdown Request"). After these acts each request
    /// that is still held gets the error -32800, `canceled by shutdown`, and then `shutdown` gets null. The server
    /// receives nothing after that, so a request that it sends now gets no reply. A server with nothing to do returns
    /// an empty vector.
    fn shutdown(&mut self, alloc: Global) -> Result<Vec<Act<Self::PendingData>>, AllocError>
        ensures { IfOk result (λ acts.
            shutdown_post self.old (map (act_view Self.PendingData.eq) acts.items) self.new) };

    /// Gets back the payload of an `Act::SendRequest` for which no id was left, and which was not sent. This happens only after
    /// 2147483648 requests in a session. The session goes on.
    fn ids_exhausted(&mut self, payload: Self::PendingData) -> Result<(), AllocError>
        ensures { IfOk result (λ _. ids_exhausted_post self.old «payload» self.new) };
}
