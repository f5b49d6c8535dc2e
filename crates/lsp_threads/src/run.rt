//! Sessions with a reading thread and a writing thread: of a handler, and of any application.
ghost use Rattle.serde_json.specs.View.{view};
ghost use Rattle.std.specs.Prelude.{◌≡◌, [], false, IfOk, OnErr};
ghost use Rattle.lsp_message.specs.Frame.{no_limit, of_content};
ghost use Rattle.lsp_session.specs.HandlerSession.{of_handler};
ghost use Rattle.lsp_session.specs.Session.{SessionOut};
ghost use Rattle.lsp_threads.specs.InThreads.{HandlesInThreads, ServesInThreads};

use crate::content_batch::{Contents, ContentsPlan, ContentsRx, ContentsTx};
use crate::serving::{serve_between, start_both};
use crate::workers::ROOM;
use crate::write_trace::WriteTrace;
use lsp_message::{ByteTrace, Limits};
use lsp_relay::{StartFault, relay};
use lsp_session::{
    Application, BadContentPolicy, EndOnBadContent, Handler, HandlerService, SessionEnd,
    SessionFault,
};
use serde_json::Value;
use std::alloc::Global;
use std::io::{BufRead, Write};
use std::sync::Wait;
use std::thread::{Builder, Threads};

/// The result of `run_threads` and `run_threads_within`.
#[derive(Drop)]
#[derive_where(Debug; W)]
pub struct Threaded<W> {
    /// The writer that you passed in.
    pub writer: W,
    /// How the session ended.
    pub answer: Result<SessionEnd, SessionFault>,
}

/// The result of a session in threads. Only clauses see its traces of bytes.
#[derive(Drop)]
#[derive_where(Debug; W)]
pub struct ThreadsOutcome<W> {
    /// The writer that you passed in.
    pub writer: W,
    /// The bytes that were taken from the reader, up to the end of the last message that the session took. Bytes that
    /// reached the session together with this message are included, up to 64 KiB. Bytes that were read after that and
    /// dropped are not. If the session reached the end of reading, these are all bytes that were taken.
    #[derive_where(skip)]
    pub taken: ByteTrace,
    /// The bytes that the writer took.
    #[derive_where(skip)]
    pub given: ByteTrace,
    /// For each write, what had been taken from the reader and given to the writer when it began.
    #[derive_where(skip)]
    pub order: WriteTrace,
    /// How the session ended.
    pub answer: Result<SessionEnd, SessionFault>,
}

/// How many bytes of content parts a session in threads reads ahead by default: 1 MiB.
pub const DEFAULT_READ_AHEAD_BYTES: u64 = 1_048_576;

/// How many bytes of messages of a session in threads may wait to be written by default: 1 MiB.
pub const UNWRITTEN_BYTES: u64 = 1_048_576;

/// How a session in threads runs. `limits` may change its answers. The rest changes only speed and memory.
#[derive(Drop)]
pub struct ThreadOptions {
    /// Starts the writing thread. It can set the size of its stack.
    pub writer: Builder,
    /// Starts the reading thread. It can set the size of its stack.
    pub reader: Builder,
    /// How many bytes a header part and a content part may have. At a longer one the fault is `SessionFault::Read` with
    /// `ReadFault::HeaderTooLong` or `TooLong`.
    pub limits: Limits,
    /// How many bytes of content parts may be read that the session has not taken. Above that the client waits. A
    /// longer content part is read once nothing else is unread.
    pub unread: u64,
    /// How many bytes of messages may be sent that are not written. Above that the session waits with the next one. A
    /// longer message is sent once nothing else is unwritten. Replies that were gathered, up to 8 KiB, count as one
    /// message.
    pub unwritten: u64,
}

impl ThreadOptions {
    /// Makes options with builders that set nothing, no limits, `DEFAULT_READ_AHEAD_BYTES` and `UNWRITTEN_BYTES`.
    pub fn new() -> ThreadOptions
        ensures limits { result.limits ≡ no_limit }
        ensures unread { result.unread ≡ 1048576 }
        ensures unwritten { result.unwritten ≡ 1048576 }
    {
        ThreadOptions {
            writer: Builder::new(),
            reader: Builder::new(),
            limits: Limits {
                header: None,
                content: u64::MAX,
            },
            unread: DEFAULT_READ_AHEAD_BYTES,
            unwritten: UNWRITTEN_BYTES,
        }
    }
}

/// Runs a session of a server (LSP 3.17, "Server lifecycle") with a reading thread, a writing thread and the handler on
/// the caller's thread. In every schedule its answer and the bytes that it writes are those that a session allows.
///
/// - The fault means that a thread was not started, or that an allocation failed. Then nothing was read or written, and
///   the handler is as it was.
/// - The call returns when the session's answer is known and the replies are written, also if the client stays
///   connected and silent.
/// - The reading thread may outlive the call, unless the reader was at its end, at a fault or at an `exit`. It ends
///   with its input, at the next message that it passes on, or with the program. Messages that it read and the session
///   did not take are dropped. A read fault counts only if the session reached it.
/// - The handler's replies go to the writing thread before the session waits for the next message. Each goes there at
///   once, unless 16 messages or more were read and wait after the current one. While so many wait, replies are
///   gathered, up to 8 KiB.
/// - A content part that is no message ends the session with `SessionFault::Read`. Messages that were read after it are
///   dropped.
/// - After a failed write nothing more is written, and the session goes on until it has something to send. So the
///   handler may get messages that `session` would not have read. While it has nothing to send, it waits for the
///   client.
/// - The clause `session` says also of the bytes that were taken and given: no frame was given before the message that it
///   answers was taken. All that was given was flushed, unless a write or a flush failed. Read fault 1 and write fault 1
///   are reported only if the reader or the writer failed, with the kind of its error. After 2^64 - 1 bytes or messages
///   the session may give up, with the kind `Other`.
/// - If the bytes of the reader or the writer are not known, as those of standard input or a socket, the clause does not
///   name them. `run_in_threads` does: its result has the traces.
pub fn run_threads<T, R, W, H>(
    rt: &T,
    alloc: Global,
    reader: R,
    writer: W,
    capabilities: Value,
    handler: &mut H,
) -> Result<Threaded<W>, StartFault>
where
    T: Threads + Wait + Copy + Drop + Send + 'static,
    R: BufRead + Drop + Send + 'static,
    W: Write + Drop + Send + 'static,
    H: Handler,
    ensures unstarted { OnErr result (handler.new ≡ handler.old) }
    ensures session { IfOk result (λ done. HandlesInThreads no_limit
        (SessionOut (of_handler H.answer_post H.note_post (view capabilities)) handler.old handler.new)
        (R.remaining reader) (W.contents writer) (W.contents done.writer) done.answer) }
{
    run_threads_within(rt, alloc, reader, writer, capabilities, handler, u64::MAX)
}

/// Does what `run_threads` does, with a limit on a content part. If the session reaches one longer than `limit` bytes,
/// the fault is `SessionFault::Read` with `ReadFault::TooLong`. A header part is not bounded; `ThreadOptions` bounds it
/// too.
pub fn run_threads_within<T, R, W, H>(
    rt: &T,
    alloc: Global,
    reader: R,
    writer: W,
    capabilities: Value,
    handler: &mut H,
    limit: u64,
) -> Result<Threaded<W>, StartFault>
where
    T: Threads + Wait + Copy + Drop + Send + 'static,
    R: BufRead + Drop + Send + 'static,
    W: Write + Drop + Send + 'static,
    H: Handler,
    ensures unstarted { OnErr result (handler.new ≡ handler.old) }
    ensures session { IfOk result (λ done. HandlesInThreads (of_content limit)
        (SessionOut (of_handler H.answer_post H.note_post (view capabilities)) handler.old handler.new)
        (R.remaining reader) (W.contents writer) (W.contents done.writer) done.answer) }
{
    let mut capabilities = capabilities;
    let mut service = HandlerService::new(alloc, &mut capabilities, handler);
    let mut options = ThreadOptions::new();
    options.limits = Limits {
        header: None,
        content: limit,
    };
    let ran = run_in_threads(
        rt,
        alloc,
        reader,
        writer,
        &mut service,
        &mut EndOnBadContent,
        options,
    );
    match ran {
        Ok(done) => {
            let ThreadsOutcome { writer, answer, .. } = done;
            Ok(Threaded { writer, answer })
        }
        Err(fault) => Err(fault),
    }
}

/// Runs a session of an application (LSP 3.17, "Server lifecycle") with a reading thread, a writing thread and the
/// application on the caller's thread, and returns its result. Call this if your server is to read on while it works.
/// `StreamTransport::serve` of `lsp_session` does the same on one thread, and says of all bytes in which order they were
/// taken and given. In every schedule the answer and the bytes that are written are those that a session allows. No
/// frame is given before the message that it answers was taken.
///
/// The start, the faults, the gathering of replies and the end are those of `run_threads`, except for content parts
/// that are no messages. A `StartFault` means that a thread was not started, or that an allocation failed. Then nothing
/// was read or written, and the application and the policy are as they were.
///
/// At a content part that is no message (see `lsp_session::is_bad_content`) `policy` is asked, at once and on your
/// thread, from `initialized` up to `shutdown`, if the application can be woken. If it says to read on, nothing is
/// answered, the application is woken, and the next message follows. If the policy ends the session, such a part is
/// `SessionFault::Read`, and the messages read after it are dropped. Before `initialized` and after `shutdown` it is so
/// in any case, and so is each other fault of reading at any time. With `EndOnBadContent` nothing is ever skipped
/// (`laws::nothing_is_skipped_in_threads`).
pub fn run_in_threads<T, R, W, A, L>(
    rt: &T,
    alloc: Global,
    reader: R,
    writer: W,
    application: &mut A,
    policy: &mut L,
    options: ThreadOptions,
) -> Result<ThreadsOutcome<W>, StartFault>
where
    T: Threads + Wait + Copy + Drop + Send + 'static,
    R: BufRead + Drop + Send + 'static,
    W: Write + Drop + Send + 'static,
    A: Application,
    L: BadContentPolicy,
    ensures unstarted { OnErr result ((application.new ≡ application.old) × (policy.new ≡ policy.old)) }
    ensures session { IfOk result (λ done. ServesInThreads false L.passes options.limits policy.old policy.new
        (A.session application.old application.new) (R.remaining reader) (W.contents writer) (W.contents done.writer)
        done.taken done.given done.order done.answer) }
{
    let Ok(ends) = relay::<Contents, ContentsPlan>(alloc, ROOM) else {
        return Err(StartFault::Memory);
    };
    run_in_threads_over(
        rt,
        alloc,
        ends,
        reader,
        writer,
        application,
        policy,
        options,
    )
}

/// Does what `run_in_threads` does, with a relay of the caller on which nothing was sent: `relay::<Contents,
/// ContentsPlan>`. Wakers of the relay wake the application, from `initialized` up to `shutdown`. A wake-up before or
/// after is ignored. If you made no waker, the application is woken only at a content part that is skipped. That a
/// wake-up arrives is tested, and not part of this contract.
///
/// Both ends of the relay are gone when this returns, also after a fault: a wake-up returns false from then on, and one
/// that waits for room gives up (tested as well). `application` and `policy` run on the caller's thread, and should not
/// wake the session themselves: the relay may be full.
pub fn run_in_threads_over<T, R, W, A, L>(
    rt: &T,
    alloc: Global,
    ends: (ContentsTx, ContentsRx),
    reader: R,
    writer: W,
    application: &mut A,
    policy: &mut L,
    options: ThreadOptions,
) -> Result<ThreadsOutcome<W>, StartFault>
where
    T: Threads + Wait + Copy + Drop + Send + 'static,
    R: BufRead + Drop + Send + 'static,
    W: Write + Drop + Send + 'static,
    A: Application,
    L: BadContentPolicy,
    requires fresh { (ends.0.sent ≡ []) × (ends.1.taken ≡ []) }
    requires same { ends.1.relay ≡ ends.0.relay }
    ensures unstarted { OnErr result ((application.new ≡ application.old) × (policy.new ≡ policy.old)) }
    ensures session { IfOk result (λ done. ServesInThreads ends.0.wakeable L.passes options.limits policy.old policy.new
        (A.session application.old application.new) (R.remaining reader) (W.contents writer) (W.contents done.writer)
        done.taken done.given done.order done.answer) }
{
    match start_both(rt, options, alloc, ends, reader, writer) {
        Ok(workers) => Ok(serve_between(rt, alloc, workers, application, policy)),
        Err(fault) => Err(fault),
    }
}
