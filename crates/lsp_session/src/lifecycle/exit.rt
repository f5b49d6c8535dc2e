// The end of a session: `shutdown` and `exit` (LSP 3.17, "Server lifecycle").
ghost use Rattle.std.specs.Prelude.{string_bytes};
ghost use Rattle.lsp_message.specs.View.{message_view};
ghost use Rattle.lsp_session.specs.Boxes.{Offers};
ghost use Rattle.lsp_session.specs.Event.{event_view};
ghost use Rattle.lsp_session.specs.Shutdown.{EventShutsDown, ShutsDown};

use crate::error::ProtocolError;
use crate::lifecycle::initialized::ok_reply;
use crate::lifecycle::kinds::is_exit;
use crate::lifecycle::{Event, Inbox, Outbox};
use lsp_message::{Message, Request};
use serde_json::Value;
use std::alloc::Global;

/// How long `shutdown` waits for `exit`.
pub(crate) const EXIT_SECONDS: u64 = 30;

/// Answers the request `shutdown` with null, and waits up to 30 seconds for the notification `exit`. Then it returns
/// `Ok(true)`. For any other request it returns `Ok(false)`, and sends and receives nothing (LSP 3.17, "Shutdown
/// Request").
///
/// If the reply can't be sent, it waits for `exit` all the same. If the id can't be copied because an allocation
/// failed, it sends and receives nothing. The table of the module has the errors.
pub fn shutdown<I: Inbox, O: Outbox>(
    alloc: Global,
    inbox: &mut I,
    outbox: &mut O,
    request: &Request,
) -> Result<bool, ProtocolError>
    ensures { ShutsDown I.receives O.sends request.now.id (string_bytes request.now.method)
        (inbox.old, outbox.old) result (inbox.new, outbox.new) }
{
    if request.method.as_str() != "shutdown" {
        return Ok(false);
    }
    let Ok(id) = request.id.clone() else {
        return Err(ProtocolError::out_of_memory());
    };
    offer(outbox, ok_reply(id, Value::Null));
    shutdown_on(alloc, inbox.receive_for(EXIT_SECONDS))
}

/// Sends a message, and ignores a refusal.
pub(crate) fn offer<O: Outbox>(outbox: &mut O, message: Message)
    ensures { Offers O.sends (message_view message) outbox.old outbox.new }
{
    drop(outbox.send(message));
}

/// Returns the result for an event in the place of `exit`.
pub(crate) fn shutdown_on(alloc: Global, event: Event) -> Result<bool, ProtocolError>
    ensures { EventShutsDown (event_view event) result }
{
    match event {
        Event::Timeout => Err(ProtocolError::shutdown_timeout()),
        Event::Closed => Err(ProtocolError::shutdown_disconnected()),
        Event::Message(message) => {
            if is_exit(&message) {
                drop(message);
                return Ok(true);
            }
            let fault = ProtocolError::unexpected_in_shutdown(alloc, &message);
            drop(message);
            Err(fault)
        }
    }
}
