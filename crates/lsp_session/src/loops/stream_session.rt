// A session over a reader and a writer.
ghost use Rattle.serde_json.specs.View.{view};
ghost use Rattle.std.specs.Prelude.{◌≡◌, ◌≢◌, [], Err, IfErr, IfSome, IsSomeAnd, OnErr, OnOk};
ghost use Rattle.std.specs.Io.KnownBytes.{Appends, Keeps};
ghost use Rattle.lsp_message.specs.Frame.{no_limit, of_content};
ghost use Rattle.lsp_message.specs.Gathering.{IsFromReader};
ghost use Rattle.lsp_message.specs.Written.{AppendsBeginning, IsOutput};
ghost use Rattle.lsp_session.specs.ByteSessions.{standing, unread, HasServed, KeepsBounds, KnowsEnd};
ghost use Rattle.lsp_session.specs.HandlerService.{lent_handler};
ghost use Rattle.lsp_session.specs.HandlerSession.{of_handler};
ghost use Rattle.lsp_session.specs.Session.{SessionOut};
ghost use Rattle.lsp_session.specs.SessionBytes.{Gives};
ghost use Rattle.lsp_session.specs.SessionFault.{session_answer as session_answer_spec};
ghost use Rattle.lsp_session.specs.SessionRounds.{ReadsSome};
ghost use Rattle.lsp_session.specs.TransportTurn.{IsOver};

use crate::error::ProtocolError;
use crate::loops::handler_service::HandlerService;
use crate::loops::{
    ByteSession, Handler, ReadEnd, Service, SessionEnd, SessionOutcome, StopReason,
};
use lsp_message::{Limits, ReadFault, WriteFault};
use serde_json::Value;
use std::alloc::Global;
use std::error::Error;
use std::fmt;
use std::io::{self, BufRead, ErrorKind, Write};

/// Why a session on a reader and a writer failed. If several faults fit, it is the first of `Write`, `Memory`, `Read`
/// and `Protocol`.
///
/// It prints the text of the fault inside, and `out of memory` for `Memory`. To show a person more, match on the
/// variant.
#[derive(Debug, Drop)]
pub enum SessionFault {
    /// 1: the lifecycle does not allow the last message, or the messages ended too early.
    Protocol(ProtocolError),
    /// 2: a message was not read, and all output for those before it was written. After 2^64 - 1 messages it is `Input`
    /// of kind `Other`.
    Read(ReadFault),
    /// 3: the writer failed.
    Write(WriteFault),
    /// 4: an allocation failed: in reading, in writing, in the handler or in the session itself.
    Memory,
}

impl fmt::Display for SessionFault {
    ghost use Rattle.lsp_session.specs.SessionFault.{session_fault_text};

    ghost output = { session_fault_text };

    fn fmt<W: fmt::Write>(&self, f: &mut fmt::Formatter<W>) -> fmt::Result {
        match self {
            SessionFault::Protocol(error) => write!(f, "{error}"),
            SessionFault::Read(fault) => write!(f, "{fault}"),
            SessionFault::Write(fault) => write!(f, "{fault}"),
            SessionFault::Memory => write!(f, "out of memory"),
        }
    }
}

impl Error for SessionFault {}

/// Runs a session of a server on a reader's messages, and writes its output as frames: it is `serve` from bytes to
/// bytes (LSP 3.17, "Base Protocol" and "Server lifecycle").
///
/// The bytes after the last message that the session used stay in the reader, for example those after the `exit` of a
/// session that was shut down. This holds after a failed write too. Then all messages of the output except the last
/// were written, and a prefix of the last. If memory ran out, the first messages of the output were written, each
/// whole. In that case, and if the reply to `shutdown` was not written, the next message may have been taken from the
/// reader too.
///
/// Each reply is written, and the writer flushed, before the next message is read. This is tested, and not part of the
/// contract.
pub fn session<R: BufRead, W: Write, H: Handler>(
    alloc: Global,
    reader: &mut R,
    writer: &mut W,
    capabilities: Value,
    handler: &mut H,
) -> Result<SessionEnd, SessionFault>
    ensures { IfSome (R.remaining reader.old) (λ text.
        Gives no_limit
        (SessionOut (of_handler H.answer_post H.note_post (view capabilities)) handler.old handler.new)
        text (R.remaining reader.new) (W.contents writer.old) (W.contents writer.new) result) }
{
    session_within(alloc, reader, writer, capabilities, handler, u64::MAX)
}

/// Runs a session of a server, as `session` does, with messages whose content part has at most `limit` bytes. A longer
/// one gives `SessionFault::Read` with `ReadFault::TooLong`, and stays unread. A header part is not bounded; the limits
/// of a `StreamTransport` bound it too.
pub fn session_within<R: BufRead, W: Write, H: Handler>(
    alloc: Global,
    reader: &mut R,
    writer: &mut W,
    capabilities: Value,
    handler: &mut H,
    limit: u64,
) -> Result<SessionEnd, SessionFault>
    ensures { IfSome (R.remaining reader.old) (λ text.
        Gives (of_content limit) (SessionOut (of_handler H.answer_post H.note_post (view capabilities)) handler.old
        handler.new)
        text (R.remaining reader.new) (W.contents writer.old) (W.contents writer.new) result) }
{
    let mut capabilities = capabilities;
    let service = HandlerService::new(alloc, &mut capabilities, handler);
    let limits = Limits {
        header: None,
        content: limit,
    };
    let mut answer = Ok(SessionEnd::Closed);
    let _service = run_handler(alloc, reader, writer, service, limits, &mut answer);
    answer
}

/// Runs a session of a handler that was lent, and returns its service.
fn run_handler<'a, R: BufRead, W: Write, H: Handler>(
    alloc: Global,
    reader: &mut R,
    writer: &mut W,
    service: HandlerService<'a, H>,
    limits: Limits,
    answer: &mut Result<SessionEnd, SessionFault>,
) -> HandlerService<'a, H>
    ensures { IfSome (R.remaining reader.old) (λ text.
        Gives limits (SessionOut (lent_handler H.answer_post H.note_post) service.entry result)
        text (R.remaining reader.new) (W.contents writer.old) (W.contents writer.new) answer.new) }
{
    let (ended, service) = drive(alloc, reader, writer, service, limits);
    *answer = ended;
    service
}

/// Runs a session of this service on a reader and a writer. Returns how it ended, and the service.
fn drive<R: BufRead, W: Write, S: Service>(
    alloc: Global,
    reader: &mut R,
    writer: &mut W,
    service: S,
    limits: Limits,
) -> (Result<SessionEnd, SessionFault>, S)
    ensures { IfSome (R.remaining reader.old) (λ text.
        Gives limits (SessionOut S.behavior service result.1)
        text (R.remaining reader.new) (W.contents writer.old) (W.contents writer.new) result.0) }
{
    let mut session = ByteSession::new(alloc, service, limits, 0);
    for _ in 0..u64::MAX {
        if session.is_done() {
            break;
        }
        if let Err(fault) = read_some(&mut session, reader) {
            return leave(session, SessionFault::Read(fault));
        }
        if let Err(fault) = write_pending(&mut session, writer) {
            return leave(session, SessionFault::Write(fault));
        }
    }
    session.into_parts()
}

/// Passes bytes that the reader shows to the session, and takes from the reader those that the session took. If the
/// input has ended, the session ends. After an interrupted read nothing changes.
fn read_some<R: BufRead, S: Service>(
    session: &mut ByteSession<S>,
    reader: &mut R,
) -> Result<(), ReadFault>
    requires waits { IsOver (standing session.old).stage → ⊥ }
    requires sent { (standing session.old).pending ≡ [] }
    ensures read { OnOk result (IfSome (R.remaining reader.old) (λ text. IsSomeAnd (R.remaining reader.new)
        (λ rest. ReadsSome S.behavior session.old text session.new rest))) }
    ensures kept { OnErr result ((session.new ≡ session.old)
        × Keeps (R.remaining reader.old) (R.remaining reader.new)) }
    ensures fault { IfErr result IsFromReader }
    ensures served { HasServed session.old → HasServed session.new }
    ensures known { KnowsEnd session.old → KnowsEnd session.new }
    ensures bounds { KeepsBounds session.old session.new }
{
    let shown = match reader.fill_buf() {
        Ok(shown) => shown,
        Err(error) => return unless_interrupted(error),
    };
    if shown.is_empty() {
        session.closed();
        return Ok(());
    }
    let count = session.receive(shown);
    reader.consume(count);
    Ok(())
}

/// Returns the fault of a reader that failed. An interrupted read is none: it is tried again.
fn unless_interrupted(error: io::Error) -> Result<(), ReadFault>
    ensures { IfErr result IsFromReader }
{
    match error.kind() {
        ErrorKind::Interrupted => Ok(()),
        kind => Err(ReadFault::Input(kind)),
    }
}

/// Writes what the session has to send, and flushes the writer. If the session has nothing to send, the writer is left
/// alone.
fn write_pending<W: Write, S: Service>(
    session: &mut ByteSession<S>,
    writer: &mut W,
) -> Result<(), WriteFault>
    ensures ok { OnOk result
        (Appends (W.contents writer.old) (W.contents writer.new) (standing session.old).pending) }
    ensures begun { AppendsBeginning (W.contents writer.old) (W.contents writer.new) (standing session.old).pending }
    ensures fault { IfErr result IsOutput }
    ensures some { OnErr result ((standing session.old).pending ≢ []) }
    ensures kept { OnErr result (session.new ≡ session.old) }
    ensures sent { OnOk result
        (standing session.new ≡ record (standing session.old) { pending = [] }) }
    ensures unread { unread session.new ≡ unread session.old }
    ensures end { session.new.end ≡ session.old.end }
    ensures served { HasServed session.old → HasServed session.new }
    ensures known { KnowsEnd session.old → KnowsEnd session.new }
    ensures bounds { KeepsBounds session.old session.new }
{
    let output = session.output();
    let count = output.len();
    if count == 0 {
        return Ok(());
    }
    write_flushed(writer, output)?;
    session.sent(count);
    Ok(())
}

/// Writes all the bytes, or a prefix of them, and flushes the writer once. An interrupted write is a fault, as any other.
fn write_flushed<W: Write>(writer: &mut W, bytes: &[u8]) -> Result<(), WriteFault>
    ensures ok { OnOk result (Appends (W.contents writer.old) (W.contents writer.new) bytes.now) }
    ensures begun { AppendsBeginning (W.contents writer.old) (W.contents writer.new) bytes.now }
    ensures fault { IfErr result IsOutput }
{
    let mut rest = bytes;
    while !rest.is_empty() {
        match writer.write(rest) {
            Ok(0) => return Err(WriteFault::Output(ErrorKind::WriteZero)),
            Ok(count) => rest = &rest[count..],
            Err(error) => return Err(WriteFault::Output(error.kind())),
        }
    }
    match writer.flush() {
        Ok(()) => Ok(()),
        Err(error) => Err(WriteFault::Output(error.kind())),
    }
}

/// Returns the fault that ended a session, and its service.
fn leave<S: Service>(
    session: ByteSession<S>,
    fault: SessionFault,
) -> (Result<SessionEnd, SessionFault>, S)
    ensures answer { result.0 ≡ Err fault }
    ensures service { result.1 ≡ (standing session).service }
{
    let (answer, service) = session.into_parts();
    drop(answer);
    (Err(fault), service)
}

/// Returns the result of a session with this outcome, this end of its messages and this fault of its output. If several
/// faults fit, it is the first of `Write`, `Memory`, `Read` and `Protocol`. A session in threads calls it too.
pub fn session_answer(
    served: SessionOutcome,
    end: Option<ReadEnd>,
    unwritten: Option<WriteFault>,
) -> Result<SessionEnd, SessionFault>
    ensures { result ≡ session_answer_spec served.stop served.answer end unwritten }
{
    match (unwritten, served.stop, end) {
        (Some(WriteFault::Output(kind)), _, _) => Err(SessionFault::Write(WriteFault::Output(
            kind,
        ))),
        (Some(WriteFault::Memory), _, _)
        | (None, StopReason::Exhausted, _)
        | (None, StopReason::NoMore, Some(ReadEnd::Fault(ReadFault::Memory))) => Err(
            SessionFault::Memory,
        ),
        (None, StopReason::NoMore, Some(ReadEnd::Fault(fault))) => Err(SessionFault::Read(fault)),
        (None, StopReason::NoMore, None) => {
            Err(SessionFault::Read(ReadFault::Input(ErrorKind::Other)))
        }
        _ => match served.answer {
            Ok(end) => Ok(end),
            Err(error) => Err(SessionFault::Protocol(error)),
        },
    }
}
