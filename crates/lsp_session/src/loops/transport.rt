// A session of a server (LSP 3.17, "Server lifecycle"), over one value that gives messages and takes them.
ghost use Rattle.lsp_session.specs.Machine.{came_view, phase_of, sends_of, IsAwaited};
ghost use Rattle.lsp_session.specs.Outputs.{SendsAll};
ghost use Rattle.lsp_session.specs.Prompt.{Talks, WaitsIn};
ghost use Rattle.lsp_session.specs.Session.{starting, SessionOut};
ghost use Rattle.lsp_session.specs.SessionLaws.{Both};
ghost use Rattle.lsp_session.specs.SessionOutcome.{StopsFor};
ghost use Rattle.lsp_session.specs.TransportTurn.{IsOver, TurnsOn};

use crate::error::ProtocolError;
use crate::lifecycle::{EXIT_SECONDS, Outbox, TextOutbox, WakingInbox, offer, ok_reply};
use crate::loops::machine::{Awaits, Came, SessionCore, TurnOutput};
use crate::loops::service::{Sendable, Sending, Service, WithTexts, send_message};
use crate::loops::session_outcome::SessionOutcome;
use lsp_calls::CallReader;
use serde_json::Value;
use std::alloc::Global;

/// Runs a session of a server: the handshake, the messages that the service returns, and the shutdown (LSP 3.17,
/// "Server lifecycle").
///
/// Before `initialize`, each request is answered with `ServerNotInitialized`, and each notification except `exit` is
/// dropped. `initialize` is answered with the service's result. If the service returns an error, that is the reply, and
/// the session goes on as before `initialize`: the client may send it again (LSP 3.17, "Initialize Request", `retry`).
/// When `initialized` arrives, the session sends what the service returns for it. From then on, up to `shutdown`, the
/// service gets each message, including responses, and each wake-up of the inbox. Its messages are sent in order.
///
/// `shutdown` is answered with null, after the messages that the service returns for it (`Service::shutdown`). Nothing
/// follows this reply, and `exit` then gives `ShutDown`. The result is `Closed` if, from `initialized` on, `exit`
/// arrives without a `shutdown`, or the messages end. For a message at the wrong time see the table of `lifecycle`.
/// This has one exception: after `shutdown`, responses are skipped if the service says so (`Service::passes_late`).
///
/// A transport that is closed to a message ends the session with `disconnected channel`, and a failed allocation ends
/// it with `out of memory`. The remaining messages of that turn are not sent. A reply to `shutdown` that could not be
/// sent is ignored. After 2^64 - 1 events the session ends as if the messages had ended.
///
/// From `initialized` up to `shutdown` each wait is a call of `WakingInbox::receive_or_woken`, or of
/// `receive_call_or_woken` if the service reads calls, so what the transport promises about such a wait (`listens`)
/// holds for each. If it promises there that no wake-up is lost, the service
/// gets every wake-up.
///
/// Everything that is to be sent for a message or a wake-up is sent before the session waits for anything else: the
/// result of `initialize` before `initialized`, and the reply to `shutdown` before `exit`. So a client may wait for it
/// before it sends more. For each request up to `initialized`, and for `shutdown`, this includes the reply. In between,
/// a service may reply later, unless it answers at once, as a handler does
/// (`laws::sessions::session_answers_requests`).
///
/// After a message that the transport refuses, the session waits for nothing. This has one exception: after the reply
/// to `shutdown`, refused or not, it receives events: the responses that it skips, and one more.
pub fn serve_transport<L: WakingInbox + TextOutbox, S: Service>(
    alloc: Global,
    transport: &mut L,
    service: &mut S,
) -> SessionOutcome
    ensures { Talks L.receives L.listens L.sends starting
        (Both (SessionOut S.behavior service.old service.new) (StopsFor result.stop))
        transport.old result.answer transport.new }
{
    serve_by::<L, S, WithTexts>(alloc, transport, service)
}

/// Does what `serve_transport` does, with a value that takes what this kind of sending needs.
pub(crate) fn serve_by<L: WakingInbox + Outbox, S: Service, W: Sending<L, S::Output>>(
    alloc: Global,
    transport: &mut L,
    service: &mut S,
) -> SessionOutcome
    ensures { Talks L.receives L.listens L.sends starting
        (Both (SessionOut S.behavior service.old service.new) (StopsFor result.stop))
        transport.old result.answer transport.new }
{
    let mut session = SessionCore::new(alloc);
    let mut calls = CallReader::new(alloc);
    for _turn in 0..u64::MAX {
        if session.awaits() == Awaits::Nothing {
            return session.into_outcome();
        }
        take_turn::<L, S, W>(transport, &mut session, service, &mut calls);
    }
    session.into_outcome()
}

/// Waits once, passes the event to the session, and sends the messages that the session returns for it.
fn take_turn<L: WakingInbox + Outbox, S: Service, W: Sending<L, S::Output>>(
    transport: &mut L,
    session: &mut SessionCore,
    service: &mut S,
    calls: &mut CallReader,
)
    requires { IsOver session.old.stage → ⊥ }
    ensures { TurnsOn L.receives L.listens L.sends S.behavior (session.old.stage, service.old, transport.old)
        (session.new.stage, service.new, transport.new) }
{
    let came = wait(transport, session, calls, service.reads_calls());
    let turn = session.advance(service, came);
    match send_turn::<L, S::Output, W>(transport, turn.output) {
        Ok(()) => {
            if let Some(id) = turn.reply {
                offer(transport, ok_reply(id, Value::Null));
            }
        }
        Err(error) => session.fail(error),
    }
}

/// Waits for the event that the session needs next. It may be a call, if calls are read.
fn wait<L: WakingInbox>(
    transport: &mut L,
    session: &SessionCore,
    calls: &mut CallReader,
    reads_calls: bool,
) -> Came
    requires { IsOver session.now.stage → ⊥ }
    ensures awaits { WaitsIn L.receives L.listens (phase_of session.now.stage) transport.old (came_view result) transport.new }
    ensures awaited { IsAwaited session.now.stage (came_view result) }
{
    if reads_calls && session.awaits() == Awaits::MessageOrWake {
        return Came::from_arrival(transport.receive_call_or_woken(calls));
    }
    match session.awaits() {
        Awaits::Message => Came::from_event(transport.receive()),
        Awaits::MessageOrWake => Came::from_arrival(transport.receive_or_woken()),
        Awaits::Exit => Came::from_event(transport.receive_for(EXIT_SECONDS)),
        Awaits::Nothing => unreachable!(),
    }
}

/// Sends the messages of a turn in order, up to the first that is refused.
#[inline(always)]
pub(crate) fn send_turn<O: Outbox, T: Sendable, W: Sending<O, T>>(
    outbox: &mut O,
    output: TurnOutput<T>,
) -> Result<(), ProtocolError>
    ensures { SendsAll O.sends outbox.old (sends_of T.shows output) result outbox.new }
{
    match output {
        TurnOutput::Nothing => Ok(()),
        TurnOutput::One(message) => send_message(outbox, message),
        TurnOutput::Given(output) => W::send_output(outbox, output),
    }
}
