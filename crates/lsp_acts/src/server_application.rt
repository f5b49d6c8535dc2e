// A server beside its queues: what it does at a message, and the queues of requests that have no reply yet.
ghost use Rattle.serde_json.specs.View.{view};
ghost use Rattle.std.specs.Prelude.{◌≡◌, map, List, [], string_bytes, true, false, IfOk, IsOk, MatchOption, OnOk, Ok, Err, Some, None};
ghost use Rattle.lsp_calls.specs.Calls.{call_ref_view};
ghost use Rattle.lsp_message.specs.ErrorCode.{number_of};
ghost use Rattle.lsp_message.specs.Message.{notification};
ghost use Rattle.lsp_message.specs.View.{message_view, request_view, notification_view, response_view, outcome_view};
ghost use Rattle.lsp_message.specs.declared.msg.code.ErrorCode.TheVariants.{RequestCanceled};
ghost use Rattle.lsp_queue.specs.Queue.{count_of};
ghost use Rattle.lsp_session.specs.OutputView.{sent_view, to_send_view};
ghost use Rattle.lsp_acts.specs.Acts.{tells, asks, replies, cancels, does, does_all, empty_queues, is_spent, unsent, unsent_by, TakesBack, holds, given, with_message, answers_cancelled, cancel_method, cleared, cancelled_by, cancel_params as cancel_params_spec, Acts, AnswersHeld};
ghost use Rattle.lsp_acts.specs.ServerApplication.{with_queues, Works, WorksSending, Parts};
ghost use Rattle.lsp_acts.specs.Calls.{held_at, is_cancellation};
ghost use Rattle.lsp_acts.specs.View.{act_view, queues_of, listed, seen};

use crate::server::{Act, Server};
use lsp_calls::{CallRef, NotificationRef, RequestRef};
use lsp_message::{
    ErrorCode, Message, Notification, Request, RequestId, Response, ResponseError, ResultText,
};
use lsp_queue::{RegisterFault, ReqQueue, id_to_cancel};
use lsp_session::{Application, Output, Service, ToSend};
use serde_json::{Map, Value, put};
use std::alloc::{AllocError, Global};
use std::mem;

/// The queues of a server: the requests that it holds, those that it sent, and the messages to send. The session sends
/// these in order when the server's method returns.
#[derive(Drop)]
pub(crate) struct Queues<P> {
    alloc: Global,
    requests: ReqQueue<(), P>,
    sent: Vec<ToSend>,
}

impl<P: Drop + PartialEq> Queues<P> {
    /// Makes empty queues. It does not allocate.
    pub(crate) fn new(alloc: Global) -> Queues<P>
        ensures { queues_of result ≡ empty_queues }
    {
        Queues {
            alloc,
            requests: ReqQueue::default(alloc),
            sent: Vec::new(alloc),
        }
    }

    /// Sends a notification.
    fn notify(&mut self, method: String, params: Value) -> Result<(), AllocError>
        ensures { IfOk result (λ _.
            queues_of self.new
            ≡ does (queues_of self.old) (tells (string_bytes method) (view params))) }
    {
        self.send(Message::Notification(Notification { method, params }))
    }

    /// Sends a request of the server. Its reply returns the payload. If no id is left, the payload is returned at once.
    fn ask(&mut self, method: String, params: Value, payload: P) -> Result<Option<P>, AllocError>
        ensures queues { IfOk result (λ _.
            queues_of self.new
            ≡ does (queues_of self.old) (asks (string_bytes method) (view params) «payload»)) }
        ensures back { IfOk result (λ back.
            listed back ≡ unsent_by (count_of (queues_of self.old).asked)
            (asks (string_bytes method) (view params) «payload»)) }
        ensures spent { is_spent (count_of (queues_of self.old).asked) ≡ true → IsOk result }
    {
        match self
            .requests
            .outgoing
            .register_value(method, params, payload)
        {
            Ok(request) => {
                self.send(Message::Request(request))?;
                Ok(None)
            }
            Err(RegisterFault::Spent(payload)) => Ok(Some(payload)),
            Err(_) => Err(AllocError),
        }
    }

    /// Answers a request that is held. If none is held under the id, nothing is sent.
    fn reply(
        &mut self,
        id: RequestId,
        outcome: Result<Value, ResponseError>,
    ) -> Result<(), AllocError>
        ensures { IfOk result (λ _.
            queues_of self.new ≡ does (queues_of self.old) (replies id (outcome_view outcome))) }
    {
        if self.requests.incoming.is_completed(&id) {
            return Ok(());
        }
        self.requests.incoming.complete(&id);
        self.send(Message::Response(Response {
            id,
            response_result: outcome,
        }))
    }

    /// Answers a request that is held, with a result that is text already.
    fn reply_text(&mut self, id: RequestId, text: ResultText) -> Result<(), AllocError>
        ensures { IfOk result (λ _.
            queues_of self.new ≡ does (queues_of self.old) (replies id (Ok (view text)))) }
    {
        if self.requests.incoming.is_completed(&id) {
            return Ok(());
        }
        self.requests.incoming.complete(&id);
        self.push(ToSend::Text(id, text))
    }

    /// Cancels each request of the server that keeps a payload equal to this one.
    fn cancel(&mut self, payload: P) -> Result<(), AllocError>
        ensures { IfOk result (λ _. queues_of self.new
            ≡ does (queues_of self.old) (cancels (λ kept. P.eq kept «payload»))) }
    {
        let ids = self.requests.outgoing.ids_of(&payload)?;
        drop(payload);
        for id in ids {
            let notification = cancellation(self.alloc, &id)?;
            self.send(Message::Notification(notification))?;
        }
        Ok(())
    }

    /// Answers a request that its client cancelled, if it is still held.
    fn answer_cancelled(&mut self, cancelled: Option<RequestId>) -> Result<(), AllocError>
        ensures { IfOk result (λ _.
            queues_of self.new ≡ answers_cancelled (queues_of self.old) cancelled) }
    {
        let Some(id) = cancelled else {
            return Ok(());
        };
        let outcome = canceled_outcome(self.alloc, "canceled by client")?;
        self.reply(id, outcome)
    }

    /// Answers each request that is held: `shutdown` ended it.
    fn answer_held(&mut self) -> Result<(), AllocError>
        ensures { IfOk result (λ _. AnswersHeld (queues_of self.old) (queues_of self.new)) }
    {
        let ids = self.requests.incoming.ids()?;
        for id in ids {
            let outcome = canceled_outcome(self.alloc, "canceled by shutdown")?;
            self.reply(id, outcome)?;
        }
        Ok(())
    }

    fn send(&mut self, message: Message) -> Result<(), AllocError>
        ensures { IfOk result (λ _.
            queues_of self.new ≡ with_message (queues_of self.old) (message_view message)) }
    {
        self.push(ToSend::Message(message))
    }

    fn push(&mut self, message: ToSend) -> Result<(), AllocError>
        ensures { IfOk result (λ _.
            queues_of self.new ≡ with_message (queues_of self.old) (to_send_view message)) }
    {
        self.sent.push(message)?;
        Ok(())
    }

    fn hold(&mut self, id: &RequestId) -> Result<(), AllocError>
        ensures { IfOk result (λ _. queues_of self.new ≡ holds (queues_of self.old) id.now) }
    {
        let id = id.clone()?;
        match self.requests.incoming.register(id, ()) {
            Ok(()) => Ok(()),
            Err(_) => Err(AllocError),
        }
    }

    /// Holds the request that a call is, if it is one.
    fn hold_call(&mut self, call: &CallRef<'_>) -> Result<(), AllocError>
        ensures { IfOk result (λ _. queues_of self.new ≡ held_at call.now (queues_of self.old)) }
    {
        match call {
            CallRef::Request(request) => self.hold(request.id),
            CallRef::Notification(_) => Ok(()),
        }
    }

    /// Performs an act. It returns the payload of a request for which no id was left.
    fn perform(&mut self, act: Act<P>) -> Result<Option<P>, AllocError>
        ensures queues { IfOk result (λ _.
            queues_of self.new ≡ does (queues_of self.old) (act_view P.eq act)) }
        ensures back { IfOk result (λ back.
            listed back ≡ unsent_by (count_of (queues_of self.old).asked) (act_view P.eq act)) }
    {
        match act {
            Act::SendNotification(notification) => self.notify(
                notification.method,
                notification.params,
            )?,
            Act::SendRequest(method, params, payload) => return self.ask(method, params, payload),
            Act::Reply(id, outcome) => self.reply(id, outcome)?,
            Act::ReplyText(id, text) => self.reply_text(id, text)?,
            Act::Cancel(payload) => self.cancel(payload)?,
        }
        Ok(None)
    }

    fn take_sent(&mut self) -> Vec<ToSend>
        ensures sent { sent_view result.items ≡ (queues_of self.old).sent }
        ensures rest { queues_of self.new ≡ cleared (queues_of self.old) }
    {
        mem::replace(&mut self.sent, Vec::new(self.alloc))
    }
}

/// Makes the notification that cancels a request (LSP 3.17, "Cancellation Support").
fn cancellation(alloc: Global, id: &RequestId) -> Result<Notification, AllocError>
    ensures { IfOk result (λ n.
        notification_view n ≡ notification cancel_method (cancel_params_spec id.now)) }
{
    let method = String::from_str(alloc, "$/cancelRequest")?;
    let params = cancel_params(alloc, id)?;
    Ok(Notification { method, params })
}

/// Makes the outcome of a request that was cancelled, with this text.
fn canceled_outcome(
    alloc: Global,
    message: &str,
) -> Result<Result<Value, ResponseError>, AllocError>
    ensures { IfOk result (λ outcome. outcome_view outcome
        ≡ Err (record { code = number_of RequestCanceled; message = message.now; details = None })) }
{
    let error = ResponseError::new(alloc, ErrorCode::RequestCanceled, message)?;
    Ok(Err(error))
}

fn cancel_params(alloc: Global, id: &RequestId) -> Result<Value, AllocError>
    ensures { IfOk result (λ params. view params ≡ cancel_params_spec id.now) }
{
    let mut members = Map::new(alloc);
    put(&mut members, alloc, "id", id.to_value(alloc)?)?;
    Ok(Value::Object(members))
}

/// Returns the id of the request that a notification cancels (LSP 3.17, "Cancellation Support"). It is `None` if the
/// notification cancels none. The error means that an allocation failed.
pub fn cancelled_id(notification: &Notification) -> Result<Option<RequestId>, AllocError>
    ensures { IfOk result (λ id.
        id ≡ cancelled_by (string_bytes notification.now.method) (view notification.now.params)) }
{
    if notification.method.as_str() != "$/cancelRequest" {
        return Ok(None);
    }
    id_to_cancel(&notification.params)
}

/// Returns the acts of a server for a request. A server that reads calls gets it as a call first.
fn acts_at_request<S: Server>(
    server: &mut S,
    request: Request,
) -> Result<Vec<Act<S::PendingData>>, AllocError>
    ensures { IfOk result (λ acts. S.request_post server.old request.id (string_bytes request.method)
        (view request.params) (map (act_view S.PendingData.eq) acts.items) server.new) }
{
    if server.reads_calls() {
        let call = CallRef::Request(RequestRef::of(&request));
        if let Some(acts) = server.call(&call)? {
            return Ok(acts);
        }
    }
    server.request(request)
}

/// Returns the acts of a server for a notification. A server that reads calls gets it as a call first, unless the
/// notification cancels a request.
fn acts_at_notification<S: Server>(
    server: &mut S,
    notification: Notification,
) -> Result<Vec<Act<S::PendingData>>, AllocError>
    ensures { IfOk result (λ acts. S.notification_post server.old (string_bytes notification.method)
        (view notification.params) (map (act_view S.PendingData.eq) acts.items) server.new) }
{
    if server.reads_calls() && notification.method.as_str() != "$/cancelRequest" {
        let call = CallRef::Notification(NotificationRef::of(&notification));
        if let Some(acts) = server.call(&call)? {
            return Ok(acts);
        }
    }
    server.notification(notification)
}

/// Returns whether a call cancels a request.
fn cancels(call: &CallRef<'_>) -> bool
    ensures { result ≡ is_cancellation call.now }
{
    match call {
        CallRef::Request(_) => false,
        CallRef::Notification(notification) => notification.method == "$/cancelRequest",
    }
}

/// A server with its queues, as a service that a session runs.
#[derive(Drop)]
pub struct ServerApplication<S, P> {
    /// Your server. It stays in the state in which the session ended.
    pub server: S,
    queues: Queues<P>,
}

impl<S: Server> ServerApplication<S, S::PendingData> {
    /// Makes a service of a server, with empty queues. It does not allocate.
    pub fn new(alloc: Global, server: S) -> Self
        ensures server { result.server ≡ server }
        ensures queues { seen result ≡ (server, empty_queues) }
    {
        ServerApplication {
            server,
            queues: Queues::new(alloc),
        }
    }

    /// Returns the server without its queues. If no `shutdown` arrived, the requests that are still held get no reply.
    pub fn into_server(self) -> S
        ensures { result ≡ self.server }
    {
        let ServerApplication { server, .. } = self;
        server
    }

    fn on_initialized(&mut self) -> Result<(), AllocError>
        ensures { IfOk result (λ _.
            Acts S.ids_exhausted_post (S.initialized_post self.old.server) (queues_of self.old.queues)
            (seen self.new)) }
    {
        let acts = self.server.initialized()?;
        self.perform_all(acts)
    }

    /// Performs acts, in order.
    fn perform_all(&mut self, acts: Vec<Act<S::PendingData>>) -> Result<(), AllocError>
        ensures queues { IfOk result (λ _.
            queues_of self.new.queues
            ≡ does_all (queues_of self.old.queues) (map (act_view S.PendingData.eq) acts.items)) }
        ensures back { IfOk result (λ _. TakesBack S.ids_exhausted_post
            self.old.server
            (unsent (count_of (queues_of self.old.queues).asked)
            (map (act_view S.PendingData.eq) acts.items))
            self.new.server) }
    {
        for act in acts {
            self.perform(act)?;
        }
        Ok(())
    }

    /// Performs an act. The payload of a request for which no id was left goes back to the server.
    fn perform(&mut self, act: Act<S::PendingData>) -> Result<(), AllocError>
        ensures queues { IfOk result (λ _.
            queues_of self.new.queues
            ≡ does (queues_of self.old.queues) (act_view S.PendingData.eq act)) }
        ensures back { IfOk result (λ _. TakesBack S.ids_exhausted_post
            self.old.server
            (unsent_by (count_of (queues_of self.old.queues).asked) (act_view S.PendingData.eq act))
            self.new.server) }
    {
        match self.queues.perform(act)? {
            Some(payload) => self.server.ids_exhausted(payload),
            None => Ok(()),
        }
    }

    /// Performs the last acts of the server, and answers the requests that it leaves. `shutdown` has this id.
    fn on_shutdown(&mut self, id: &RequestId) -> Result<(), AllocError>
        ensures { IfOk result (λ _.
            Parts S.Server (seen self.old) id.now (seen self.new)) }
    {
        self.queues.requests.incoming.complete(id);
        let acts = self.server.shutdown(self.queues.alloc)?;
        self.perform_all(acts)?;
        self.queues.answer_held()
    }

    fn on_request(&mut self, request: Request) -> Result<(), AllocError>
        ensures { IfOk result (λ _.
            Works S.Server (seen self.old) (Some (request_view request))
            (seen self.new)) }
    {
        self.queues.hold(&request.id)?;
        let acts = acts_at_request(&mut self.server, request)?;
        self.perform_all(acts)
    }

    fn on_notification(&mut self, notification: Notification) -> Result<(), AllocError>
        ensures { IfOk result (λ _.
            Works S.Server (seen self.old) (Some (notification_view notification))
            (seen self.new)) }
    {
        let cancelled = cancelled_id(&notification)?;
        let acts = acts_at_notification(&mut self.server, notification)?;
        self.perform_all(acts)?;
        self.queues.answer_cancelled(cancelled)
    }

    /// Passes a call to the server, and returns the messages to send for it. The result is `None` if the server did not
    /// answer it. Then nothing has changed. A notification that cancels a request is not passed.
    fn on_call(&mut self, call: &CallRef<'_>) -> Result<Option<Vec<ToSend>>, AllocError>
        ensures { IfOk result (λ answer. MatchOption answer (self.new ≡ self.old)
            (λ sent. WorksSending S.Server (seen self.old) (Some (call_ref_view call.now)) (sent_view sent.items)
            (seen self.new))) }
    {
        if cancels(call) {
            return Ok(None);
        }
        match self.server.call(call)? {
            Some(acts) => Ok(Some(self.perform_for(call, acts)?)),
            None => Ok(None),
        }
    }

    /// Holds the request that a call is, if it is one, performs the acts of the server for the call, and returns the
    /// messages to send.
    fn perform_for(
        &mut self,
        call: &CallRef<'_>,
        acts: Vec<Act<S::PendingData>>,
    ) -> Result<Vec<ToSend>, AllocError>
        ensures sent { IfOk result (λ sent. sent_view sent.items
            ≡ (does_all (held_at call.now (queues_of self.old.queues)) (map (act_view S.PendingData.eq) acts.items)).sent) }
        ensures queues { OnOk result (queues_of self.new.queues
            ≡ cleared (does_all (held_at call.now (queues_of self.old.queues)) (map (act_view S.PendingData.eq) acts.items))) }
        ensures back { OnOk result (TakesBack S.ids_exhausted_post self.old.server
            (unsent (count_of (held_at call.now (queues_of self.old.queues)).asked) (map (act_view S.PendingData.eq) acts.items))
            self.new.server) }
    {
        self.queues.hold_call(call)?;
        self.perform_all(acts)?;
        Ok(self.queues.take_sent())
    }

    fn on_response(&mut self, response: Response) -> Result<(), AllocError>
        ensures { IfOk result (λ _.
            Works S.Server (seen self.old) (Some (response_view response))
            (seen self.new)) }
    {
        match self.queues.requests.outgoing.complete(response.id) {
            Some(payload) => {
                let acts = self.server.response(payload, response.response_result)?;
                self.perform_all(acts)
            }
            None => Ok(()),
        }
    }

    fn on_wake(&mut self) -> Result<(), AllocError>
        ensures { IfOk result (λ _. Works S.Server (seen self.old) None (seen self.new)) }
    {
        let acts = self.server.woken(self.queues.alloc)?;
        self.perform_all(acts)
    }
}

impl<S: Server> Service for ServerApplication<S, S::PendingData> {
    type Output = Output;

    ghost behavior = { with_queues S.Server };

    fn initialize(&mut self, params: Value) -> Result<Result<Value, ResponseError>, AllocError> {
        self.server.initialize(params)
    }

    fn initialized(&mut self) -> Result<Output, AllocError> {
        self.on_initialized()?;
        Ok(Output::Several(self.queues.take_sent()))
    }

    fn request(&mut self, request: Request) -> Result<Output, AllocError> {
        self.on_request(request)?;
        Ok(Output::Several(self.queues.take_sent()))
    }

    fn notification(&mut self, notification: Notification) -> Result<Output, AllocError> {
        self.on_notification(notification)?;
        Ok(Output::Several(self.queues.take_sent()))
    }

    /// Returns what the server's `reads_calls` returns.
    fn reads_calls(&self) -> bool {
        self.server.reads_calls()
    }

    fn call(&mut self, call: &CallRef<'_>) -> Result<Option<Output>, AllocError> {
        match self.on_call(call)? {
            Some(sent) => Ok(Some(Output::Several(sent))),
            None => Ok(None),
        }
    }

    fn response(&mut self, response: Response) -> Result<Output, AllocError> {
        self.on_response(response)?;
        Ok(Output::Several(self.queues.take_sent()))
    }

    fn woken(&mut self) -> Result<Output, AllocError> {
        self.on_wake()?;
        Ok(Output::Several(self.queues.take_sent()))
    }

    fn shutdown(&mut self, id: &RequestId) -> Result<Output, AllocError> {
        self.on_shutdown(id)?;
        Ok(Output::Several(self.queues.take_sent()))
    }

    /// Returns true: a reply to a request of the server may cross the `shutdown` of its client.
    fn passes_late(&self) -> bool {
        true
    }
}

impl<S: Server> Application for ServerApplication<S, S::PendingData> {
    ghost use Rattle.lsp_acts.specs.ServerApplication.{ServerSession};

    ghost session = { λ old new. ServerSession S.Server old.server new.server };

    /// Empties the queues. No request of an earlier client belongs to the session that follows.
    fn begin(&mut self) {
        let queues = Queues::new(self.queues.alloc);
        self.queues = queues;
    }
}
