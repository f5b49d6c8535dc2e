// The end of the handshake: the result of `initialize`, and the wait for `initialized` (LSP 3.17, "Server lifecycle").
ghost use Rattle.serde_json.specs.View.{view};
ghost use Rattle.std.specs.Prelude.{◌≡◌};
ghost use Rattle.lsp_message.specs.View.{message_view};
ghost use Rattle.lsp_session.specs.Event.{message as message_event};
ghost use Rattle.lsp_session.specs.Finish.{EventFinishes, AwaitsWithin, FinishesWithin, FinishesAt};
ghost use Rattle.lsp_session.specs.Replies.{ok_reply as ok_reply_spec};

use crate::error::ProtocolError;
use crate::lifecycle::initialize::TURN_SECONDS;
use crate::lifecycle::kinds::is_initialized;
use crate::lifecycle::{Event, Gate, Inbox, Outbox};
use lsp_message::{Message, RequestId, Response};
use serde_json::Value;
use std::alloc::Global;

/// Waits for the notification `initialized`. `None` means that no message arrived in `turns` turns. Call it again to go
/// on. A turn is that of `start_within`. The table of the module has the answers.
pub fn wait_within<I: Inbox, G: Gate>(
    alloc: Global,
    inbox: &mut I,
    gate: &mut G,
    turns: u64,
) -> Option<Result<(), ProtocolError>>
    requires { G.can_ask gate.old }
    ensures awaits { AwaitsWithin G.asks I.receives turns (gate.old, inbox.old) result
        (gate.new, inbox.new) }
    ensures again { G.can_ask gate.new }
{
    for _turn in 0..turns {
        if !gate.ask() {
            return Some(Err(ProtocolError::aborted()));
        }
        match inbox.receive_for(TURN_SECONDS) {
            Event::Timeout => {}
            Event::Closed => return Some(Err(ProtocolError::disconnected())),
            Event::Message(message) => {
                let finished = finish_on(alloc, &message);
                drop(message);
                return Some(finished);
            }
        }
    }
    None
}

/// Returns the result for a message in the place of `initialized`.
pub(crate) fn finish_on(alloc: Global, message: &Message) -> Result<(), ProtocolError>
    ensures { EventFinishes (message_event (message_view message.now)) result }
{
    if is_initialized(message) {
        return Ok(());
    }
    Err(ProtocolError::expected_initialized(alloc, message))
}

/// Sends the result of `initialize`, and then waits as `wait_within` does. If the result can't be sent, no gate is
/// asked and nothing is received. After `None` go on with `wait_within`, since the result was sent.
pub fn finish_within<I: Inbox, O: Outbox, G: Gate>(
    alloc: Global,
    inbox: &mut I,
    outbox: &mut O,
    gate: &mut G,
    id: RequestId,
    initialize_result: Value,
    turns: u64,
) -> Option<Result<(), ProtocolError>>
    requires { G.can_ask gate.old }
    ensures finishes { FinishesWithin G.asks I.receives O.sends turns
        (ok_reply_spec id (view initialize_result))
        (gate.old, inbox.old, outbox.old) result (gate.new, inbox.new, outbox.new) }
    ensures again { G.can_ask gate.new }
{
    if let Err(fault) = outbox.send(ok_reply(id, initialize_result)) {
        return Some(Err(ProtocolError::from(fault)));
    }
    wait_within(alloc, inbox, gate, turns)
}

/// Sends the result of `initialize`, and waits without limit for one message. Any message other than `initialized` is
/// an error.
pub fn finish<I: Inbox, O: Outbox>(
    alloc: Global,
    inbox: &mut I,
    outbox: &mut O,
    id: RequestId,
    initialize_result: Value,
) -> Result<(), ProtocolError>
    ensures { FinishesAt I.receives O.sends (ok_reply_spec id (view initialize_result))
        (inbox.old, outbox.old) result (inbox.new, outbox.new) }
{
    if let Err(fault) = outbox.send(ok_reply(id, initialize_result)) {
        return Err(ProtocolError::from(fault));
    }
    match inbox.receive() {
        Event::Message(message) => {
            let finished = finish_on(alloc, &message);
            drop(message);
            finished
        }
        Event::Timeout => unreachable!(),
        Event::Closed => Err(ProtocolError::disconnected()),
    }
}

/// Makes the reply with this result.
pub(crate) fn ok_reply(id: RequestId, value: Value) -> Message
    ensures { message_view result ≡ ok_reply_spec id (view value) }
{
    Message::Response(Response {
        id,
        response_result: Ok(value),
    })
}
