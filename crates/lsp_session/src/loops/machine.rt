// A session of a server as a state machine without IO (LSP 3.17, "Server lifecycle").
ghost use Rattle.std.specs.Prelude.{◌≡◌, ◌⊎◌, ◌&&◌, true, Err, None, IfOk, IsTrue, MatchOption};
ghost use Rattle.lsp_calls.specs.Calls.{call_content_view, call_ref_view};
ghost use Rattle.lsp_message.specs.Message.{response};
ghost use Rattle.lsp_message.specs.View.{error_view, message_view, request_view};
ghost use Rattle.lsp_session.specs.Event.{arrival_view, event_view, message as message_event, woken};
ghost use Rattle.lsp_session.specs.Machine.{came_view, turn_sends, awaited_in, outcome_of, reply_of, IsAwaited, Advances, Moves};
ghost use Rattle.lsp_session.specs.ProtocolError.{expected_initialize, out_of_memory, Shows};
ghost use Rattle.lsp_session.specs.Session.{is_reply, is_served as served_spec};
ghost use Rattle.lsp_session.specs.SessionOutcome.{served_by};
ghost use Rattle.lsp_session.specs.Start.{fault_of_refusal};
ghost use Rattle.lsp_session.specs.declared.loops.machine.Stage.TheVariants as stage;
ghost use Rattle.lsp_session.specs.declared.loops.machine.TurnOutput.TheVariants.{Nothing};
ghost use Rattle.lsp_session.specs.declared.loops.session_outcome.StopReason.TheVariants.{Refused};

use crate::error::ProtocolError;
use crate::lifecycle::{
    Arrival, Event, SendFault, early_reply, finish_on, is_exit, ok_reply, shutdown_on,
};
use crate::loops::service::Service;
use crate::loops::session_outcome::{SessionOutcome, StopReason};
use lsp_calls::{CallContent, CallReader, CallRef};
use lsp_message::{Message, Request, RequestId, Response, ResponseError};
use std::alloc::{AllocError, Global};
use std::mem;

/// The stage that a session has reached.
#[derive(Debug, Drop)]
pub enum Stage {
    /// No `initialize` has a result yet.
    Starting,
    /// `initialize` has its result, and the session awaits `initialized`.
    Replied,
    /// `initialized` arrived. Each message goes to the service.
    Serving,
    /// `shutdown` arrived under this id, and the session waits for `exit`.
    Asked(RequestId),
    /// The session ended with this outcome.
    Ended(SessionOutcome),
}

/// An event that a session takes.
#[derive(Debug, Drop)]
pub enum Came {
    /// A message arrived.
    Message(Message),
    /// A request or a notification arrived, and this is its content part. The session makes a message of it, unless the
    /// service reads calls (`Service::call`).
    Call(CallContent),
    /// Something that the service waits for is ready.
    Woken,
    /// No message arrived within 30 seconds, while the session waited for `exit`.
    Timeout,
    /// No more messages will arrive.
    Closed,
}

impl Came {
    /// Makes a session's event from the result of `Inbox::receive` or `Inbox::receive_for`.
    pub fn from_event(event: Event) -> Came
        ensures { came_view result ≡ event_view event }
    {
        match event {
            Event::Message(message) => Came::Message(message),
            Event::Timeout => Came::Timeout,
            Event::Closed => Came::Closed,
        }
    }

    /// Makes a session's event from the result of `WakingInbox::receive_or_woken` or `receive_call_or_woken`.
    pub fn from_arrival(arrival: Arrival) -> Came
        ensures { came_view result ≡ arrival_view arrival }
    {
        match arrival {
            Arrival::Message(message) => Came::Message(message),
            Arrival::Call(content) => Came::Call(content),
            Arrival::Woken => Came::Woken,
            Arrival::Closed => Came::Closed,
        }
    }
}

/// What a session waits for. It takes `Came::Closed` wherever it waits for a message.
#[derive(Clone, Copy, Debug, PartialEq, Eq)]
pub enum Awaits {
    /// A message, however long it takes.
    Message,
    /// A message or a wake-up, however long it takes.
    MessageOrWake,
    /// A message within 30 seconds. If none comes, the session takes `Came::Timeout`.
    Exit,
    /// Nothing. The session has ended.
    Nothing,
}

/// The messages for an event, in order, without the reply to `shutdown`.
#[derive(Debug, Drop)]
pub enum TurnOutput<T> {
    /// No message.
    Nothing,
    /// One message that the session makes itself.
    One(Message),
    /// The messages that the service returned.
    Given(T),
}

/// The messages that the caller is to send for an event. `T` is the output of the service.
#[derive(Debug, Drop)]
pub struct Turn<T> {
    /// Send these messages first, in order. If one is refused, send nothing more, and call `SessionCore::refused`.
    pub output: TurnOutput<T>,
    /// Then send the reply to `shutdown`: null, under this id. If it is refused, the session awaits `exit` all the
    /// same.
    pub reply: Option<RequestId>,
}

/// The stage after an event, and the messages for that event.
#[derive(Drop)]
struct Moved<T> {
    stage: Stage,
    turn: Turn<T>,
}

impl<T> Moved<T> {
    /// Returns this stage, with nothing to send.
    fn silent(stage: Stage) -> Moved<T>
        ensures { result ≡ record { stage = stage; turn = record { output = Nothing; reply = None } } }
    {
        Moved::sending(stage, TurnOutput::Nothing)
    }

    /// Returns this stage, with this output.
    fn sending(stage: Stage, output: TurnOutput<T>) -> Moved<T>
        ensures { result ≡ record { stage = stage; turn = record { output = output; reply = None } } }
    {
        Moved {
            stage,
            turn: Turn {
                output,
                reply: None,
            },
        }
    }
}

/// A session of a server as a state machine: the handshake, the messages that the service returns, and the shutdown. It
/// does no IO. The caller waits for what `awaits` says, passes the event to `advance`, and sends the `Turn` that this
/// returns, until the session waits for nothing. `serve_transport` says what a session answers to each message.
///
/// The service stays with the caller. Pass the same one to each call of `advance`.
#[derive(Debug, Drop)]
pub struct SessionCore {
    alloc: Global,
    stage: Stage,
    calls: CallReader,
}

impl SessionCore {
    /// Makes a session that waits for `initialize`. It does not allocate. The session allocates in `alloc` what it
    /// makes itself, such as the error reply to an early request.
    pub fn new(alloc: Global) -> SessionCore
        ensures { result.stage ≡ stage.Starting }
    {
        SessionCore {
            alloc,
            stage: Stage::Starting,
            calls: CallReader::new(alloc),
        }
    }

    /// Returns what the session waits for.
    pub fn awaits(&self) -> Awaits
        ensures { result ≡ awaited_in self.now.stage }
    {
        match &self.stage {
            Stage::Starting | Stage::Replied => Awaits::Message,
            Stage::Serving => Awaits::MessageOrWake,
            Stage::Asked(_) => Awaits::Exit,
            Stage::Ended(_) => Awaits::Nothing,
        }
    }

    /// Returns whether the session takes this event now. Drop an event that it does not take, such as a wake-up before
    /// `initialized`.
    pub fn takes(&self, came: &Came) -> bool
        ensures takes { IsTrue result → IsAwaited self.now.stage (came_view came.now) }
        ensures drops { IsAwaited self.now.stage (came_view came.now) → IsTrue result }
    {
        match self.awaits() {
            Awaits::Message => matches!(came, Came::Message(_) | Came::Call(_) | Came::Closed),
            Awaits::MessageOrWake => !matches!(came, Came::Timeout),
            Awaits::Exit => !matches!(came, Came::Woken),
            Awaits::Nothing => false,
        }
    }

    /// Takes an event, and returns what to send for it.
    ///
    /// The session goes on or ends as the tables of a session say (LSP 3.17, "Server lifecycle"). If an allocation
    /// fails, nothing is sent, and the session ends with `out of memory`.
    ///
    /// A call is a message too. From `initialized` up to `shutdown`, a service that reads calls gets it by
    /// `Service::call`, unless it is the request `shutdown` or the notification `exit`. Otherwise the session makes a
    /// message of it.
    pub fn advance<S: Service>(&mut self, service: &mut S, came: Came) -> Turn<S::Output>
        requires { IsAwaited self.old.stage (came_view came) }
        ensures advances { Advances S.behavior (self.old.stage, service.old) (came_view came) (turn_sends S.Output.shows result)
            (self.new.stage, service.new) }
        ensures reply { result.reply ≡ reply_of self.new.stage self.old.stage }
    {
        let stage = mem::replace(&mut self.stage, Stage::Starting);
        let moved = match move_on(self.alloc, &mut self.calls, stage, service, came) {
            Ok(moved) => moved,
            Err(error) => Moved::silent(Stage::Ended(SessionOutcome::failed(error))),
        };
        self.stage = moved.stage;
        moved.turn
    }

    /// Ends the session, because a message of `Turn::output` was refused.
    pub fn refused(&mut self, fault: SendFault)
        ensures { self.new.stage ≡ stage.Ended (record { answer = Err (fault_of_refusal fault); stop = Refused }) }
    {
        self.fail(ProtocolError::from(fault));
    }

    /// Ends the session with this error.
    pub(crate) fn fail(&mut self, error: ProtocolError)
        ensures { self.new.stage ≡ stage.Ended (served_by (Err error)) }
    {
        self.stage = Stage::Ended(SessionOutcome::failed(error));
    }

    /// Returns how the session ended. A session that has not ended yet ends as if the messages had ended.
    pub fn into_outcome(self) -> SessionOutcome
        ensures { result ≡ outcome_of self.stage }
    {
        let SessionCore { stage, calls, .. } = self;
        drop(calls);
        match stage {
            Stage::Starting | Stage::Replied => SessionOutcome::failed(
                ProtocolError::disconnected(),
            ),
            Stage::Serving => SessionOutcome::closed(StopReason::NoMore),
            Stage::Asked(_) => SessionOutcome::failed(ProtocolError::shutdown_disconnected()),
            Stage::Ended(outcome) => outcome,
        }
    }
}

/// Takes an event in this stage.
fn move_on<S: Service>(
    alloc: Global,
    calls: &mut CallReader,
    stage: Stage,
    service: &mut S,
    came: Came,
) -> Result<Moved<S::Output>, ProtocolError>
    requires { IsAwaited stage (came_view came) }
    ensures { Moves S.behavior S.Output.shows stage service.old (came_view came) result service.new }
{
    match came {
        Came::Message(message) => take_message(alloc, stage, service, message),
        Came::Call(content) => take_call(alloc, calls, stage, service, content),
        Came::Woken => wake(service),
        Came::Timeout => Err(ProtocolError::shutdown_timeout()),
        Came::Closed => match stage {
            Stage::Starting | Stage::Replied => Err(ProtocolError::disconnected()),
            Stage::Serving => Ok(Moved::silent(Stage::Ended(SessionOutcome::closed(
                StopReason::NoMore,
            )))),
            Stage::Asked(_) => Err(ProtocolError::shutdown_disconnected()),
            Stage::Ended(_) => unreachable!(),
        },
    }
}

/// Takes a message in this stage.
fn take_message<S: Service>(
    alloc: Global,
    stage: Stage,
    service: &mut S,
    message: Message,
) -> Result<Moved<S::Output>, ProtocolError>
    requires { IsAwaited stage (message_event (message_view message)) }
    ensures { Moves S.behavior S.Output.shows stage service.old (message_event (message_view message)) result service.new }
{
    match stage {
        Stage::Starting => start(alloc, service, message),
        Stage::Replied => open(alloc, service, message),
        Stage::Serving => serve_one(service, message),
        Stage::Asked(id) => leave(alloc, service, id, message),
        Stage::Ended(_) => unreachable!(),
    }
}

/// Takes a call in this stage. A service that reads calls is asked by `call` from `initialized` up to `shutdown`.
fn take_call<S: Service>(
    alloc: Global,
    calls: &mut CallReader,
    stage: Stage,
    service: &mut S,
    content: CallContent,
) -> Result<Moved<S::Output>, ProtocolError>
    requires { IsAwaited stage (message_event (call_content_view content)) }
    ensures { Moves S.behavior S.Output.shows stage service.old (message_event (call_content_view content)) result service.new }
{
    match stage {
        Stage::Serving => serve_call(alloc, calls, service, content),
        stage => match content.into_message(alloc) {
            Ok(message) => take_message(alloc, stage, service, message),
            Err(_) => Err(ProtocolError::out_of_memory()),
        },
    }
}

/// Takes a call from `initialized` up to `shutdown`.
fn serve_call<S: Service>(
    alloc: Global,
    calls: &mut CallReader,
    service: &mut S,
    content: CallContent,
) -> Result<Moved<S::Output>, ProtocolError>
    ensures { Moves S.behavior S.Output.shows stage.Serving service.old (message_event (call_content_view content)) result service.new }
{
    match answer_call(calls, service, &content)? {
        Some(output) => {
            drop(content);
            Ok(Moved::sending(Stage::Serving, TurnOutput::Given(output)))
        }
        None => serve_one(service, content.into_message(alloc)?),
    }
}

/// Returns all messages to send for a call, if the service reads calls and answers this one by `call`. If the result is
/// `None`, nothing has changed.
fn answer_call<S: Service>(
    calls: &mut CallReader,
    service: &mut S,
    content: &CallContent,
) -> Result<Option<S::Output>, AllocError>
    ensures { IfOk result (λ answer. MatchOption answer (service.new ≡ service.old)
        (λ output. (served_spec (call_content_view content.now) ≡ true)
        × S.behavior.outputs service.old (call_content_view content.now) (S.Output.shows output) service.new)) }
{
    if !service.reads_calls() {
        return Ok(None);
    }
    let text = match calls.read(content) {
        Some(text) => text,
        None => return Ok(None),
    };
    let call = text.call();
    if is_served(&call) {
        service.call(&call)
    } else {
        Ok(None)
    }
}

/// Returns whether the call is neither the request `shutdown` nor the notification `exit`.
fn is_served(call: &CallRef<'_>) -> bool
    ensures { result ≡ served_spec (call_ref_view call.now) }
{
    match call {
        CallRef::Request(request) => request.method != "shutdown",
        CallRef::Notification(notification) => notification.method != "exit",
    }
}

/// Takes a message before `initialize` has a result.
fn start<S: Service>(
    alloc: Global,
    service: &mut S,
    message: Message,
) -> Result<Moved<S::Output>, ProtocolError>
    ensures { Moves S.behavior S.Output.shows stage.Starting service.old (message_event (message_view message)) result service.new }
{
    match message {
        Message::Request(request) => start_request(alloc, service, request),
        Message::Notification(notification) => {
            if notification.method.as_str() != "exit" {
                drop(notification);
                return Ok(Moved::silent(Stage::Starting));
            }
            Err(unexpected(alloc, Message::Notification(notification)))
        }
        Message::Response(response) => Err(unexpected(alloc, Message::Response(response))),
    }
}

/// Returns the fault that shows a message in the place of `initialize`.
fn unexpected(alloc: Global, message: Message) -> ProtocolError
    ensures { Shows expected_initialize result ⊎ (result ≡ out_of_memory) }
{
    let fault = ProtocolError::expected_initialize(alloc, &message);
    drop(message);
    fault
}

/// Takes a request before `initialize` has a result.
fn start_request<S: Service>(
    alloc: Global,
    service: &mut S,
    request: Request,
) -> Result<Moved<S::Output>, ProtocolError>
    ensures { Moves S.behavior S.Output.shows stage.Starting service.old (message_event (request_view request)) result service.new }
{
    if request.method.as_str() != "initialize" {
        return Ok(Moved::sending(
            Stage::Starting,
            TurnOutput::One(early_reply(alloc, request)?),
        ));
    }
    let id = request.id;
    match service.initialize(request.params)? {
        Ok(result) => Ok(Moved::sending(Stage::Replied, TurnOutput::One(ok_reply(id, result)))),
        Err(error) => Ok(Moved::sending(Stage::Starting, TurnOutput::One(error_reply(id, error)))),
    }
}

/// Takes the message that follows the result of `initialize`.
fn open<S: Service>(
    alloc: Global,
    service: &mut S,
    message: Message,
) -> Result<Moved<S::Output>, ProtocolError>
    ensures { Moves S.behavior S.Output.shows stage.Replied service.old (message_event (message_view message)) result service.new }
{
    let finished = finish_on(alloc, &message);
    drop(message);
    finished?;
    Ok(Moved::sending(Stage::Serving, TurnOutput::Given(service.initialized()?)))
}

/// Takes a message from `initialized` up to `shutdown`.
fn serve_one<S: Service>(
    service: &mut S,
    message: Message,
) -> Result<Moved<S::Output>, ProtocolError>
    ensures { Moves S.behavior S.Output.shows stage.Serving service.old (message_event (message_view message)) result service.new }
{
    if is_exit(&message) {
        drop(message);
        return Ok(Moved::silent(Stage::Ended(SessionOutcome::closed(StopReason::Decided))));
    }
    match message {
        Message::Request(request) => serve_request(service, request),
        Message::Notification(notification) => Ok(Moved::sending(
            Stage::Serving,
            TurnOutput::Given(service.notification(notification)?),
        )),
        Message::Response(response) => Ok(Moved::sending(
            Stage::Serving,
            TurnOutput::Given(service.response(response)?),
        )),
    }
}

/// Takes a request from `initialized` up to `shutdown`.
fn serve_request<S: Service>(
    service: &mut S,
    request: Request,
) -> Result<Moved<S::Output>, ProtocolError>
    ensures { Moves S.behavior S.Output.shows stage.Serving service.old (message_event (request_view request)) result service.new }
{
    if request.method.as_str() != "shutdown" {
        return Ok(Moved::sending(Stage::Serving, TurnOutput::Given(service.request(request)?)));
    }
    let reply = Some(request.id.clone()?);
    let output = service.shutdown(&request.id)?;
    Ok(Moved {
        stage: Stage::Asked(request.id),
        turn: Turn {
            output: TurnOutput::Given(output),
            reply,
        },
    })
}

/// Takes a message after `shutdown`.
fn leave<S: Service>(
    alloc: Global,
    service: &mut S,
    id: RequestId,
    message: Message,
) -> Result<Moved<S::Output>, ProtocolError>
    ensures { Moves S.behavior S.Output.shows (stage.Asked id) service.old (message_event (message_view message)) result service.new }
{
    if is_passed_over(service.passes_late(), &message) {
        drop(message);
        return Ok(Moved::silent(Stage::Asked(id)));
    }
    shutdown_on(alloc, Event::Message(message))?;
    Ok(Moved::silent(Stage::Ended(SessionOutcome::shut_down())))
}

/// Takes a wake-up from `initialized` up to `shutdown`.
fn wake<S: Service>(service: &mut S) -> Result<Moved<S::Output>, ProtocolError>
    ensures { Moves S.behavior S.Output.shows stage.Serving service.old woken result service.new }
{
    Ok(Moved::sending(Stage::Serving, TurnOutput::Given(service.woken()?)))
}

/// Returns whether the message is a response, and responses are skipped.
fn is_passed_over(passes_late: bool, message: &Message) -> bool
    ensures { result ≡ (passes_late && is_reply (message_view message.now)) }
{
    match message {
        Message::Response(_) => passes_late,
        Message::Request(_) | Message::Notification(_) => false,
    }
}

/// Makes the reply with this error.
fn error_reply(id: RequestId, error: ResponseError) -> Message
    ensures { message_view result ≡ response id (Err (error_view error)) }
{
    Message::Response(Response {
        id,
        response_result: Err(error),
    })
}
