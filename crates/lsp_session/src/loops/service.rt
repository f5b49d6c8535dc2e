// What a session runs.
ghost use Rattle.serde_json.specs.View.{view};
ghost use Rattle.std.specs.Prelude.{◌≡◌, ◌∷◌, [], IfOk, MatchOption, OnErr};
ghost use Rattle.lsp_calls.specs.Calls.{call_ref_view};
ghost use Rattle.lsp_message.specs.View.{message_view, request_view, notification_view, response_view, outcome_view};
ghost use Rattle.lsp_session.specs.Outputs.{SendsAll};
ghost use Rattle.lsp_session.specs.OutputView.{output_view, reply_view, sent_view, to_send_view};

use crate::error::ProtocolError;
use crate::lifecycle::{Outbox, SendFault, TextOutbox};
use lsp_calls::CallRef;
use lsp_message::{Message, Notification, Request, RequestId, Response, ResponseError, ResultText};
use serde_json::Value;
use std::alloc::AllocError;

/// Messages that a session is to send, in order.
#[derive(Debug, Drop)]
pub enum Output {
    /// No message.
    Nothing,
    /// One message. This does not allocate.
    One(Message),
    /// Any number of messages.
    Several(Vec<ToSend>),
}

/// A message that a session is to send.
#[derive(Debug, Drop)]
pub enum ToSend {
    /// A message.
    Message(Message),
    /// The response with this id, whose result is text already.
    Text(RequestId, ResultText),
}

/// The messages that a service returns for a session to send, in order.
pub trait Sendable {
    ghost use Rattle.std.specs.Prelude.{List};
    ghost use Rattle.lsp_message.specs.Message as plain;

    /// Its messages, in order.
    ghost shows: { Self → List plain.Message };

    /// Sends its messages in order, up to the first that is refused.
    fn send_on<O: TextOutbox>(self, outbox: &mut O) -> Result<(), ProtocolError>
        ensures { SendsAll O.sends outbox.old (shows self) result outbox.new };
}

impl Sendable for Output {
    ghost shows = { output_view };

    fn send_on<O: TextOutbox>(self, outbox: &mut O) -> Result<(), ProtocolError> {
        match self {
            Output::Nothing => Ok(()),
            Output::One(message) => send_message(outbox, message),
            Output::Several(messages) => send_all(outbox, messages),
        }
    }
}

/// One message, or none. It does not allocate, and needs no outbox that takes texts.
impl Sendable for Option<Message> {
    ghost shows = { reply_view };

    fn send_on<O: TextOutbox>(self, outbox: &mut O) -> Result<(), ProtocolError> {
        MessagesAlone::send_output(outbox, self)
    }
}

/// How a session sends the messages of its service on its outbox.
pub(crate) trait Sending<O: Outbox, T: Sendable> {
    /// Sends the messages of an output in order, up to the first that is refused.
    fn send_output(outbox: &mut O, output: T) -> Result<(), ProtocolError>
        ensures { SendsAll O.sends outbox.old (T.shows output) result outbox.new };
}

/// Any output, on an outbox that takes texts.
pub(crate) struct WithTexts;

impl<O: TextOutbox, T: Sendable> Sending<O, T> for WithTexts {
    fn send_output(outbox: &mut O, output: T) -> Result<(), ProtocolError> {
        output.send_on(outbox)
    }
}

/// One message or none, on any outbox.
pub(crate) struct MessagesAlone;

impl<O: Outbox> Sending<O, Option<Message>> for MessagesAlone {
    fn send_output(outbox: &mut O, output: Option<Message>) -> Result<(), ProtocolError> {
        match output {
            None => Ok(()),
            Some(message) => send_message(outbox, message),
        }
    }
}

/// Sends one message.
pub(crate) fn send_message<O: Outbox>(outbox: &mut O, message: Message) -> Result<(), ProtocolError>
    ensures { SendsAll O.sends outbox.old (message_view message ∷ []) result outbox.new }
{
    Ok(outbox.send(message)?)
}

/// Sends messages and texts in order, up to the first that is refused.
fn send_all<O: TextOutbox>(outbox: &mut O, messages: Vec<ToSend>) -> Result<(), ProtocolError>
    ensures { SendsAll O.sends outbox.old (sent_view messages.items) result outbox.new }
{
    for message in messages {
        send_one(outbox, message)?;
    }
    Ok(())
}

/// Sends a message, or a response whose result is text already.
fn send_one<O: TextOutbox>(outbox: &mut O, message: ToSend) -> Result<(), SendFault>
    ensures { O.sends outbox.old (to_send_view message) result outbox.new }
{
    match message {
        ToSend::Message(message) => outbox.send(message),
        ToSend::Text(id, text) => outbox.send_text(id, text),
    }
}

/// The logic of a session, one level below `Server` and `Handler`. A service answers `initialize`, may send first after
/// `initialized`, and returns the messages to send for each later message and each wake-up. An outer `Err` means that
/// an allocation failed, and ends the session. Nothing is sent for that message.
pub trait Service {
    ghost use Rattle.lsp_session.specs.Session.{Behavior};

    /// The type of its messages: an `Output`, or an `Option<Message>` if it returns at most one message. A session with
    /// the second needs only an `Outbox`, one with the first a `TextOutbox`.
    type Output: Sendable + Drop;

    /// Which messages it may return, and how it may change.
    ghost behavior: { Behavior Self };

    /// Answers `initialize` (LSP 3.17, "Initialize Request"). The result has the capabilities, and the server's name
    /// and version. An error is sent as the reply, and the session waits for another `initialize`.
    fn initialize(&mut self, params: Value) -> Result<Result<Value, ResponseError>, AllocError>
        ensures outcome { IfOk result (λ outcome.
            behavior.initializes self.old (view params) (outcome_view outcome) self.new) }
        ensures err { OnErr result (behavior.after_memory_fault self.old self.new) };

    /// Returns all messages to send when `initialized` arrived, in order. They are sent before the next message is
    /// read.
    fn initialized(&mut self) -> Result<Self::Output, AllocError>
        ensures output { IfOk result (λ output.
            behavior.at_initialized self.old (Self.Output.shows output) self.new) }
        ensures err { OnErr result (behavior.after_memory_fault self.old self.new) };

    /// Returns all messages to send for a request, in order.
    fn request(&mut self, request: Request) -> Result<Self::Output, AllocError>
        ensures { IfOk result (λ output.
            behavior.outputs self.old (request_view request) (Self.Output.shows output) self.new) };

    /// Returns all messages to send for a notification, in order.
    fn notification(&mut self, notification: Notification) -> Result<Self::Output, AllocError>
        ensures { IfOk result (λ output.
            behavior.outputs self.old (notification_view notification) (Self.Output.shows output)
            self.new) };

    /// Returns whether the service reads calls: requests and notifications whose params are read where they stand
    /// (`call`). If it does not, the session reads each message into a tree at once.
    fn reads_calls(&self) -> bool {
        false
    }

    /// Returns all messages to send for a request or a notification whose params are read where they stand, in order.
    /// Returns `None` to get the same message by `request` or `notification`. Then nothing has changed.
    ///
    /// The session calls this only if `reads_calls` returns true. A message of which the inbox made a tree still comes
    /// by `request` or `notification`.
    fn call(&mut self, call: &CallRef<'_>) -> Result<Option<Self::Output>, AllocError>
        ensures { IfOk result (λ answer. MatchOption answer (self.new ≡ self.old)
            (λ output. behavior.outputs self.old (call_ref_view call.now) (Self.Output.shows output) self.new)) }
    {
        Ok(None)
    }

    /// Returns all messages to send for a response, in order.
    fn response(&mut self, response: Response) -> Result<Self::Output, AllocError>
        ensures { IfOk result (λ output.
            behavior.outputs self.old (response_view response) (Self.Output.shows output) self.new) };

    /// Returns all messages to send at a wake-up, in order. The inbox gives a wake-up when something is ready for which
    /// the service waits. The session calls this from `initialized` up to `shutdown`, and nowhere else. A service that
    /// waits for nothing returns no messages.
    fn woken(&mut self) -> Result<Self::Output, AllocError>
        ensures { IfOk result (λ output. behavior.wakes self.old (Self.Output.shows output) self.new) };

    /// Returns all messages to send before the reply to `shutdown`, in order (LSP 3.17, "Shutdown Request"). The
    /// request has this id. The session sends the reply itself. It calls this once, and after it only `passes_late`.
    fn shutdown(&mut self, id: &RequestId) -> Result<Self::Output, AllocError>
        ensures { IfOk result (λ output.
            behavior.at_shutdown self.old id.now (Self.Output.shows output) self.new) };

    /// Returns whether the session skips a response that arrives after `shutdown`, and goes on waiting for `exit`. A
    /// service that sends requests returns true, since a response may cross the `shutdown` of its client; LSP 3.17
    /// ("Shutdown Request") forbids only requests and notifications there. If it returns false, a response ends the
    /// session, as any other message except `exit` does.
    fn passes_late(&self) -> bool
        ensures { result ≡ behavior.passes_late };
}
