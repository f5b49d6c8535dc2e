//! The lifecycle of a session (LSP 3.17, "Server lifecycle"), with any value that reads messages and any that sends
//! them.
//!
//! The table shows the answer of each call to each message. An error is named by the text that it prints.
//!
//! | Event | `start_within` | `wait_within`, `finish_within`, `finish` | `shutdown` |
//! |---|---|---|---|
//! | the request `initialize` | its id and its params | `expected initialized notification, got: ..` | `unexpected message during shutdown: ..` |
//! | another request | it is answered with code -32002, and the wait goes on | `expected initialized notification, got: ..` | `unexpected message during shutdown: ..` |
//! | the notification `initialized` | it is dropped, and the wait goes on | `Ok(())` | `unexpected message during shutdown: ..` |
//! | the notification `exit` | `expected initialize request, got ..` | `expected initialized notification, got: ..` | `Ok(true)` |
//! | another notification | it is dropped, and the wait goes on | `expected initialized notification, got: ..` | `unexpected message during shutdown: ..` |
//! | a response | `expected initialize request, got ..` | `expected initialized notification, got: ..` | `unexpected message during shutdown: ..` |
//! | nothing in time | the wait goes on | the wait goes on | `timed out waiting for exit notification` |
//! | the end of the messages | `disconnected channel` | `disconnected channel` | `channel disconnected waiting for exit notification` |
//! | a gate that says no | `Initialization has been aborted during initialization` | the same | no gate is asked |
//!
//! A closed outbox ends the handshake with `disconnected channel`, and a failed allocation with `out of memory`. If the
//! reply to `shutdown` can't be sent, `shutdown` waits for `exit` all the same.
ghost use Rattle.std.specs.Prelude.{◌≡◌, ◌≢◌, Ok, IfErr};
ghost use Rattle.serde_json.specs.Data.{null};
ghost use Rattle.serde_json.specs.View.{view};
ghost use Rattle.lsp_message.specs.Message.{response};
ghost use Rattle.lsp_message.specs.View.{message_view};
ghost use Rattle.lsp_session.specs.Boxes.{handed_back, WaitsFor};
ghost use Rattle.lsp_session.specs.Event.{arrival_view, event_view, timeout};

use lsp_calls::{CallContent, CallReader};
use lsp_message::{Message, RequestId, Response, ResultText};
use serde_json::Value;

mod exit;
mod gates;
mod initialize;
mod initialized;
mod kinds;
mod lists;

pub use exit::shutdown;
pub(crate) use exit::{EXIT_SECONDS, offer, shutdown_on};
pub use gates::{CallGate, OpenGate};
pub(crate) use initialize::early_reply;
pub use initialize::start_within;
pub(crate) use initialized::{finish_on, ok_reply};
pub use initialized::{finish, finish_within, wait_within};
pub use kinds::is_exit;
pub use lists::{ListGate, ListInbox, ListOutbox};

/// The result of a receive.
#[derive(Debug, Drop)]
pub enum Event {
    /// A message arrived.
    Message(Message),
    /// No message arrived in time.
    Timeout,
    /// No more messages can arrive.
    Closed,
}

/// An event for which a session waits while it serves its client.
#[derive(Debug, Drop)]
pub enum Arrival {
    /// A message arrived.
    Message(Message),
    /// A request or a notification arrived, and this is its content part. Only `WakingInbox::receive_call_or_woken`
    /// returns it.
    Call(CallContent),
    /// Something that the service waits for is ready.
    Woken,
    /// No more messages can arrive.
    Closed,
}

impl Arrival {
    /// Makes an arrival from the result of a receive without limit. It is no wake-up.
    pub fn from_event(event: Event) -> Arrival
        requires { event_view event ≢ timeout }
        ensures { arrival_view result ≡ event_view event }
    {
        match event {
            Event::Message(message) => Arrival::Message(message),
            Event::Timeout => unreachable!(),
            Event::Closed => Arrival::Closed,
        }
    }
}

/// A source of messages, one after another.
pub trait Inbox {
    ghost use Rattle.lsp_session.specs.Event.{Event};

    /// One receive may return this event, and change the contents in this manner.
    ghost receives: { Self → Event → Self → Type 0 };

    /// Waits for a message, but no longer than `seconds` seconds.
    fn receive_for(&mut self, seconds: u64) -> Event
        ensures { receives self.old (event_view result) self.new };

    /// Waits for a message without limit. It never returns `Timeout`.
    fn receive(&mut self) -> Event
        ensures receives { WaitsFor receives self.old (event_view result) self.new }
        ensures never_timeout { event_view result ≢ timeout };
}

/// An inbox that may also give wake-ups, which mean that something is ready for which a service waits.
pub trait WakingInbox: Inbox {
    ghost use Rattle.std.specs.Prelude.{⊤};
    ghost use Rattle.lsp_session.specs.Event.{Event};

    /// What a wait that also gives wake-ups promises beyond `receives`. An inbox with wake-ups says here that such a
    /// wait loses none of them, although `receive` may.
    ghost listens: { Self → Event → Self → Type 0 } = { λ _ _ _. ⊤ };

    /// Waits for a message or a wake-up, without limit. A session calls it from `initialized` up to `shutdown` and
    /// nowhere else, so no service is woken before or after. The contract of `serve_transport`, a session on one value,
    /// says that the session calls it there, or `receive_call_or_woken`, and not `receive`.
    fn receive_or_woken(&mut self) -> Arrival
        ensures receives { WaitsFor Self.receives self.old (arrival_view result) self.new }
        ensures listens { listens self.old (arrival_view result) self.new };

    /// Waits as `receive_or_woken` does, but may return a request or a notification as its content part
    /// (`Arrival::Call`), which `calls` takes. A session whose service reads calls (`Service::reads_calls`) calls this in
    /// place of `receive_or_woken`, with the same `calls` each time. An inbox that has no content parts keeps this body,
    /// which returns messages.
    fn receive_call_or_woken(&mut self, calls: &mut CallReader) -> Arrival
        ensures receives { WaitsFor Self.receives self.old (arrival_view result) self.new }
        ensures listens { listens self.old (arrival_view result) self.new }
    {
        let _ = calls;
        self.receive_or_woken()
    }
}

/// Why an outbox did not take a message. Each variant returns the message.
#[derive(Debug, Drop)]
pub enum SendFault {
    /// The outbox is closed.
    Closed(Message),
    /// An allocation failed.
    Memory(Message),
}

/// A destination of messages, one after another.
pub trait Outbox {
    ghost use Rattle.std.specs.Prelude.{Result};
    ghost use Rattle.lsp_message.specs.Message.{Message};
    ghost use Rattle.lsp_session.specs.declared.lifecycle.SendFault.{SendFault};

    /// One send of this message may have this outcome, and change the contents in this manner.
    ghost sends: { Self → Message → Result Unit SendFault → Self → Type 0 };

    /// Sends a message. A fault returns it.
    fn send(&mut self, message: Message) -> Result<(), SendFault>
        ensures sends { sends self.old (message_view message) result self.new }
        ensures handed_back { IfErr result (λ fault. handed_back fault ≡ message) };
}

/// An outbox that also takes results that are text already.
pub trait TextOutbox: Outbox {
    /// Sends the response with this id and this text as its result. A fault returns the response with null as its
    /// result.
    fn send_text(&mut self, id: RequestId, text: ResultText) -> Result<(), SendFault>
        ensures sends { Self.sends self.old (response id (Ok (view text))) result self.new }
        ensures handed_back { IfErr result (λ fault. message_view (handed_back fault) ≡ response id (Ok null)) };
}

/// Makes the response with this id and null as its result. A fault of `TextOutbox::send_text` returns it.
pub fn null_response(id: RequestId) -> Message
    ensures { message_view result ≡ response id (Ok null) }
{
    Message::Response(Response {
        id,
        response_result: Ok(Value::Null),
    })
}

/// Decides whether a handshake should go on.
pub trait Gate {
    ghost use Rattle.std.specs.Prelude.{Bool, ⊤};

    /// The gate may be asked. A gate that calls a closure requires that the closure may be called.
    ghost can_ask: { Self → Type 0 } = { λ _. ⊤ };

    /// One question may have this answer, and change the contents in this manner.
    ghost asks: { Self → Bool → Self → Type 0 };

    /// Returns whether to go on.
    fn ask(&mut self) -> bool
        requires { can_ask self.old }
        ensures asks { asks self.old result self.new }
        ensures again { can_ask self.new };
}
