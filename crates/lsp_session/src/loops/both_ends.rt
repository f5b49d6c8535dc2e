// A session of a server over an inbox and an outbox (LSP 3.17, "Server lifecycle").
ghost use Rattle.std.specs.Prelude.{◌≢◌};
ghost use Rattle.lsp_session.specs.Event.{event_view, timeout};
ghost use Rattle.lsp_session.specs.SessionOutcome.{StopsFor};
ghost use Rattle.lsp_session.specs.Session.{SessionOut};
ghost use Rattle.lsp_session.specs.SessionLaws.{Both};
ghost use Rattle.lsp_session.specs.SessionRun.{Runs};

use crate::lifecycle::{Arrival, Event, Inbox, Outbox, SendFault, TextOutbox, WakingInbox};
use crate::loops::service::{MessagesAlone, Service};
use crate::loops::session_outcome::SessionOutcome;
use crate::loops::transport::{serve_by, serve_transport};
use lsp_calls::CallReader;
use lsp_message::{Message, RequestId, ResultText};
use std::alloc::Global;

/// An inbox and an outbox as one value.
#[derive(Drop)]
struct BothEnds<'a, I, O> {
    inbox: &'a mut I,
    outbox: &'a mut O,
}

impl<'a, I: Inbox, O: Outbox> Inbox for BothEnds<'a, I, O> {
    ghost use Rattle.lsp_session.specs.BothEnds.{BothReceive};

    ghost receives = { BothReceive I.receives };

    fn receive_for(&mut self, seconds: u64) -> Event {
        self.inbox.receive_for(seconds)
    }

    fn receive(&mut self) -> Event {
        self.inbox.receive()
    }
}

impl<'a, I: WakingInbox, O: Outbox> WakingInbox for BothEnds<'a, I, O> {
    ghost use Rattle.lsp_session.specs.BothEnds.{BothReceive};

    ghost listens = { BothReceive I.listens };

    fn receive_or_woken(&mut self) -> Arrival {
        self.inbox.receive_or_woken()
    }

    fn receive_call_or_woken(&mut self, calls: &mut CallReader) -> Arrival {
        self.inbox.receive_call_or_woken(calls)
    }
}

impl<'a, I: Inbox, O: Outbox> Outbox for BothEnds<'a, I, O> {
    ghost use Rattle.lsp_session.specs.BothEnds.{BothSend};

    ghost sends = { BothSend O.sends };

    fn send(&mut self, message: Message) -> Result<(), SendFault> {
        self.outbox.send(message)
    }
}

impl<'a, I: Inbox, O: TextOutbox> TextOutbox for BothEnds<'a, I, O> {
    fn send_text(&mut self, id: RequestId, text: ResultText) -> Result<(), SendFault> {
        self.outbox.send_text(id, text)
    }
}

/// Runs a session of a server: the handshake, the messages that the service returns, and the shutdown (LSP 3.17,
/// "Server lifecycle").
///
/// Before `initialize`, each request is answered with `ServerNotInitialized`, and each notification except `exit` is
/// dropped. `initialize` is answered with the service's result. If the service returns an error, that is the reply, and
/// the session goes on as before `initialize`: the client may send it again (LSP 3.17, "Initialize Request", `retry`).
/// When `initialized` arrives, the session sends what the service returns for it. From then on, up to `shutdown`, the
/// service gets each message, including responses, and each wake-up of the inbox. Its messages are sent in order,
/// before the session waits for the next message.
///
/// `shutdown` is answered with null, after the messages that the service returns for it (`Service::shutdown`). Nothing
/// follows this reply, and `exit` then gives `ShutDown`. The result is `Closed` if, from `initialized` on, `exit`
/// arrives without a `shutdown`, or the messages end. For a message at the wrong time see the table of `lifecycle`.
/// This has one exception: after `shutdown`, responses are skipped if the service says so (`Service::passes_late`).
///
/// An outbox that is closed to a message ends the session with `disconnected channel`, and a failed allocation ends it
/// with `out of memory`. The remaining messages of that turn are not sent. A reply to `shutdown` that could not be sent
/// is ignored. After 2^64 - 1 events the session ends as if the messages had ended.
///
/// The contract of this call says less than this. A contract about two values can't say in which order they are used,
/// nor does this one say that the session waits for wake-ups (`WakingInbox::listens`). `serve_transport`, which this
/// function calls with both as one value, has both in its contract.
pub fn serve_service<I: WakingInbox, O: TextOutbox, S: Service>(
    alloc: Global,
    inbox: &mut I,
    outbox: &mut O,
    service: &mut S,
) -> SessionOutcome
    ensures { Runs I.receives O.sends
        (Both (SessionOut S.behavior service.old service.new) (StopsFor result.stop))
        (inbox.old, outbox.old) result.answer (inbox.new, outbox.new) }
{
    let mut transport = BothEnds { inbox, outbox };
    serve_transport(alloc, &mut transport, service)
}

/// Does what `serve_service` does, for a service that returns at most one message, with any outbox.
pub(crate) fn serve_replies<I: WakingInbox, O: Outbox, S: Service<Output = Option<Message>>>(
    alloc: Global,
    inbox: &mut I,
    outbox: &mut O,
    service: &mut S,
) -> SessionOutcome
    ensures { Runs I.receives O.sends
        (Both (SessionOut S.behavior service.old service.new) (StopsFor result.stop))
        (inbox.old, outbox.old) result.answer (inbox.new, outbox.new) }
{
    let mut transport = BothEnds { inbox, outbox };
    serve_by::<_, S, MessagesAlone>(alloc, &mut transport, service)
}
