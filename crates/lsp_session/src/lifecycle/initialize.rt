// The wait for the request `initialize` (LSP 3.17, "Server lifecycle").
ghost use Rattle.std.specs.Prelude.{◌≡◌, List, IfOk, MatchOption, ◌∷◌, [], false, codes, string_bytes, option_map};
ghost use Rattle.std.specs.Str.{bytes_eq};
ghost use Rattle.lsp_message.specs.Message.{Message as PlainMessage};
ghost use Rattle.lsp_message.specs.View.{message_view, request_view};
ghost use Rattle.lsp_session.specs.Event.{event_view, message as message_event};
ghost use Rattle.lsp_session.specs.Start.{start_view, IsEarlyReply, PassesOver, Ends, StartsWithin};
ghost use Rattle.lsp_session.specs.Turns.{got};

use crate::beginning::beginning_of;
use crate::error::ProtocolError;
use crate::lifecycle::{Event, Gate, Inbox, Outbox};
use lsp_message::{ErrorCode, Message, Request, RequestId, Response};
use serde_json::Value;
use std::alloc::{AllocError, Global};

/// How long one turn waits for an event.
pub(crate) const TURN_SECONDS: u64 = 1;

/// Waits for the request `initialize`, and returns its id and its params. `None` means that nothing was decided in
/// `turns` turns. Call it again to go on.
///
/// One turn asks the gate and, if it says yes, waits up to one second for a message. An earlier request is answered
/// with code -32002, and an earlier notification other than `exit` is dropped (LSP 3.17, "Server lifecycle"). The table
/// of the module has the rest.
pub fn start_within<I: Inbox, O: Outbox, G: Gate>(
    alloc: Global,
    inbox: &mut I,
    outbox: &mut O,
    gate: &mut G,
    turns: u64,
) -> Option<Result<(RequestId, Value), ProtocolError>>
    requires { G.can_ask gate.old }
    ensures starts { StartsWithin G.asks I.receives O.sends turns (gate.old, inbox.old, outbox.old)
        (option_map start_view result) (gate.new, inbox.new, outbox.new) }
    ensures again { G.can_ask gate.new }
{
    for _turn in 0..turns {
        if !gate.ask() {
            return Some(Err(ProtocolError::aborted()));
        }
        let event = inbox.receive_for(TURN_SECONDS);
        if let Some(answer) = start_on(alloc, outbox, event) {
            return Some(answer);
        }
    }
    None
}

/// Returns the result for an event before `initialize`.
fn start_on<O: Outbox>(
    alloc: Global,
    outbox: &mut O,
    event: Event,
) -> Option<Result<(RequestId, Value), ProtocolError>>
    ensures { MatchOption result
        ((replies : List PlainMessage)
        × PassesOver O.sends outbox.old (got (event_view event) ∷ []) replies outbox.new)
        (λ answer. Ends O.sends outbox.old (got (event_view event)) (start_view answer)
        outbox.new) }
{
    match event {
        Event::Timeout => None,
        Event::Closed => Some(Err(ProtocolError::disconnected())),
        Event::Message(message) => start_on_message(alloc, outbox, message),
    }
}

/// Returns the result for a message before `initialize`.
fn start_on_message<O: Outbox>(
    alloc: Global,
    outbox: &mut O,
    message: Message,
) -> Option<Result<(RequestId, Value), ProtocolError>>
    ensures { MatchOption result
        ((replies : List PlainMessage)
        × PassesOver O.sends outbox.old (got (message_event (message_view message)) ∷ []) replies
        outbox.new)
        (λ answer. Ends O.sends outbox.old (got (message_event (message_view message)))
        (start_view answer) outbox.new) }
{
    match message {
        Message::Request(request) => {
            if request.method.as_str() == "initialize" {
                return Some(Ok((request.id, request.params)));
            }
            refuse_early(alloc, outbox, request)
        }
        Message::Notification(notification) => {
            if notification.method.as_str() == "exit" {
                let message = Message::Notification(notification);
                let fault = ProtocolError::expected_initialize(alloc, &message);
                drop(message);
                return Some(Err(fault));
            }
            drop(notification);
            None
        }
        Message::Response(response) => {
            let message = Message::Response(response);
            let fault = ProtocolError::expected_initialize(alloc, &message);
            drop(message);
            Some(Err(fault))
        }
    }
}

/// Answers a request that came before `initialize`.
fn refuse_early<O: Outbox>(
    alloc: Global,
    outbox: &mut O,
    request: Request,
) -> Option<Result<(RequestId, Value), ProtocolError>>
    requires { bytes_eq (string_bytes request.method) (codes "initialize") ≡ false }
    ensures { MatchOption result
        ((replies : List PlainMessage)
        × PassesOver O.sends outbox.old (got (message_event (request_view request)) ∷ []) replies
        outbox.new)
        (λ answer. Ends O.sends outbox.old (got (message_event (request_view request)))
        (start_view answer) outbox.new) }
{
    let Ok(reply) = early_reply(alloc, request) else {
        return Some(Err(ProtocolError::out_of_memory()));
    };
    match outbox.send(reply) {
        Ok(()) => None,
        Err(fault) => Some(Err(ProtocolError::from(fault))),
    }
}

/// The error reply to a request that came before `initialize`.
pub(crate) fn early_reply(alloc: Global, request: Request) -> Result<Message, AllocError>
    ensures { IfOk result (λ reply. IsEarlyReply request.id (message_view reply)) }
{
    let shown = beginning_of(alloc, &request)?;
    let message = format!(in alloc; "expected initialize request, got {shown}")?;
    let code = ErrorCode::ServerNotInitialized.number();
    Ok(Message::Response(Response::new_err(request.id, code, message)))
}
