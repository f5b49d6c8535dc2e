//! The session between the two threads, and how they are started.
ghost use Rattle.std.specs.Prelude.{◌≡◌, [], IfOk, Some, true};
ghost use Rattle.lsp_relay.specs.Relay.{has_end};
ghost use Rattle.lsp_session.specs.SessionLaws.{Both};
ghost use Rattle.lsp_threads.specs.Contents.{LeavesReading, source_of};
ghost use Rattle.lsp_threads.specs.Order.{TellsInOrder};
ghost use Rattle.lsp_threads.specs.Passing.{GivenTo, OfTaken, ReadingFails, TakenFrom};
ghost use Rattle.lsp_threads.specs.Threads.{FlushesInThreads, ReportsReader, ReportsWriter};
ghost use Rattle.lsp_threads.specs.Threads.{session_end as session_end_spec};

use crate::backlog::{Backlog, Takes, bounded_backlog};
use crate::content_batch::{Contents, ContentsPlan, ContentsRx, ContentsTx};
use crate::content_parts::ContentParts;
use crate::frame_text::FrameText;
use crate::parcels::deliver;
use crate::reply_outbox::{ReplyOutbox, reply_fault};
use crate::run::{ThreadOptions, ThreadsOutcome};
use crate::thread_ends::{ThreadEnds, serve_ends};
use crate::watched_writer::{WatchedWriter, WriteFaults, write_faults};
use crate::workers::{ROOM, Reader, Writer, start_reader, start_writer};
use crate::write_trace::WriteTrace;
use lsp_message::{ByteTrace, Limits, ReadFault, WriteFault};
use lsp_relay::{AnyPlan, Parcel, RelayRx, RelayTx, Source, StartFault, plan, relay, settle_all};
use lsp_session::{Application, BadContentPolicy, ReadEnd, session_answer};
use std::alloc::Global;
use std::io::{BufRead, ErrorKind, Write};
use std::marker::Brand;
use std::sync::Wait;
use std::thread::{PromisedHandle, Threads};

/// The thread that reads.
pub(crate) type Reading<R> = PromisedHandle<
    (ContentsTx, ReadEnd, ByteTrace),
    Reader<R, ContentsTx>,
>;

/// The thread that writes.
pub(crate) type Writing<W> = PromisedHandle<
    (
        RelayRx<FrameText>,
        WatchedWriter<W>,
        Option<WriteFault>,
        ByteTrace,
        WriteTrace,
    ),
    Writer<WatchedWriter<W>, FrameText>,
>;

/// The two threads, and the caller's ends of their relays.
#[derive(Drop)]
pub(crate) struct Workers<R: BufRead + Drop, W: Write + Drop> {
    pub(crate) rx: ContentsRx,
    pub(crate) takes: Takes,
    pub(crate) replies: RelayTx<FrameText>,
    pub(crate) unwritten: Backlog,
    pub(crate) reading: Reading<R>,
    pub(crate) writing: Writing<W>,
    pub(crate) faults: WriteFaults,
}

/// Starts the thread that writes and then the one that reads. After a fault both ends of the relay, and the thread, are
/// gone.
pub(crate) fn start_both<T, R, W>(
    rt: &T,
    options: ThreadOptions,
    alloc: Global,
    ends: (ContentsTx, ContentsRx),
    reader: R,
    writer: W,
) -> Result<Workers<R, W>, StartFault>
where
    T: Threads + Wait + Copy + Drop + Send + 'static,
    R: BufRead + Drop + Send + 'static,
    W: Write + Drop + Send + 'static,
    requires fresh { (ends.0.sent ≡ []) × (ends.1.taken ≡ []) }
    requires same { ends.1.relay ≡ ends.0.relay }
    ensures reading { IfOk result (λ workers. (workers.rx.taken ≡ [])
        × (workers.reading.promise.tx.value.relay ≡ workers.rx.relay)
        × (workers.reading.promise.tx.value.sent ≡ [])
        × (workers.reading.promise.reader.value ≡ reader)
        × (workers.reading.promise.limits ≡ options.limits)
        × (workers.reading.promise.tx.value.wakeable ≡ ends.0.wakeable)
        × (workers.rx.source ≡ Some (source_of (R.remaining reader) options.limits))
        × (workers.rx.wakeable ≡ ends.0.wakeable)) }
    ensures writing { IfOk result (λ workers. (workers.replies.sent ≡ [])
        × (workers.writing.promise.rx.value.relay ≡ workers.replies.relay)
        × (workers.writing.promise.writer.value.inner ≡ writer)) }
{
    let Ok((replies, replies_rx)) = relay::<FrameText, AnyPlan>(alloc, ROOM) else {
        return Err(StartFault::Memory);
    };
    let Ok((unread, takes)) = bounded_backlog(alloc, options.unread) else {
        return Err(StartFault::Memory);
    };
    let Ok((unwritten, writes)) = bounded_backlog(alloc, options.unwritten) else {
        return Err(StartFault::Memory);
    };
    let Ok((faults, theirs)) = write_faults(alloc) else {
        return Err(StartFault::Memory);
    };
    let (mut tx, mut rx) = ends;
    plan_reading::<R, Brand>(&mut tx, &mut rx, &reader, options.limits);
    let writing = match start_writer::<FrameText, T, WatchedWriter<W>>(
        rt,
        options.writer,
        alloc,
        replies_rx,
        theirs.watch(writer),
        writes,
    ) {
        Ok(writing) => writing,
        Err(fault) => return Err(fault),
    };
    let limits = options.limits;
    match start_reader::<ContentsTx, T, R>(rt, options.reader, alloc, reader, limits, tx, unread) {
        Ok(reading) => Ok(Workers {
            rx,
            takes,
            replies,
            unwritten,
            reading,
            writing,
            faults,
        }),
        Err(fault) => {
            end_writing(rt, replies, writing);
            Err(fault)
        }
    }
}

/// Allows only the content parts at the front of this reader's bytes to be sent on a fresh relay.
fn plan_reading<R: BufRead, W: Source>(
    tx: &mut ContentsTx,
    rx: &mut ContentsRx,
    reader: &R,
    limits: Limits,
)
    requires same_relay { rx.old.relay ≡ tx.old.relay }
    requires fresh { tx.old.sent ≡ [] }
    requires source { W.source ≡ source_of (R.remaining reader.now) limits }
    ensures sender { tx.new ≡ record {
      relay = tx.old.relay;
      sent = [];
      wakeable = tx.old.wakeable;
      source = Some (source_of (R.remaining reader.now) limits);
    } }
    ensures receiver { rx.new ≡ record {
      relay = rx.old.relay;
      taken = rx.old.taken;
      wakes = rx.old.wakes;
      wakeable = tx.old.wakeable;
      source = Some (source_of (R.remaining reader.now) limits);
    } }
{
    let _ = reader;
    let _ = limits;
    plan::<Contents, ContentsPlan, W>(tx, rx);
}

/// Ends the thread that writes, which has nothing to write.
fn end_writing<T: Threads + Wait, W: Write + Drop>(
    rt: &T,
    replies: RelayTx<FrameText>,
    writing: Writing<W>,
)
    requires { replies.sent ≡ [] }
{
    let mut replies = replies;
    deliver(rt, &mut replies, Parcel::End);
    let _ = writing.join(rt);
}

/// The session between the two threads.
pub(crate) fn serve_between<T, R, W, A, L>(
    rt: &T,
    alloc: Global,
    workers: Workers<R, W>,
    application: &mut A,
    policy: &mut L,
) -> ThreadsOutcome<W>
where
    T: Threads + Wait + Copy + Drop,
    R: BufRead + Drop,
    W: Write + Drop,
    A: Application,
    L: BadContentPolicy,
    requires reading { (workers.rx.taken ≡ [])
        × (workers.reading.promise.tx.value.relay ≡ workers.rx.relay)
        × (workers.reading.promise.tx.value.sent ≡ []) }
    requires source { (workers.rx.source ≡ Some (source_of
        (R.remaining workers.reading.promise.reader.value) workers.reading.promise.limits))
        × (workers.rx.wakeable ≡ workers.reading.promise.tx.value.wakeable) }
    requires writing { (workers.replies.sent ≡ [])
        × (workers.writing.promise.rx.value.relay ≡ workers.replies.relay) }
    ensures told { OfTaken result.taken.parts (λ text.
        TellsInOrder workers.reading.promise.tx.value.wakeable L.passes
        workers.reading.promise.limits (R.remaining workers.reading.promise.reader.value)
        policy.old (Both (A.session application.old application.new) (ReportsReader result.answer result.taken))
        text policy.new result.order result.given.parts result.answer) }
    ensures taken { TakenFrom (R.remaining workers.reading.promise.reader.value)
        result.taken.parts }
    ensures given { GivenTo (W.contents workers.writing.promise.writer.value.inner)
        result.given.parts (W.contents result.writer) }
    ensures flushed { FlushesInThreads result.answer result.given.parts }
    ensures writer { ReportsWriter result.answer result.given }
{
    let Workers {
        rx,
        takes,
        replies,
        unwritten,
        reading,
        writing,
        faults,
    } = workers;
    let mut parts = ContentParts::new(*rt, alloc, rx, takes);
    let mut outbox = ReplyOutbox::new(*rt, alloc, replies, unwritten, faults);
    let mut ends = ThreadEnds::new(alloc, &mut parts, policy, &mut outbox);
    let served = serve_ends(alloc, &mut ends, application);
    let ended = ends.end();
    let drained = parts.is_drained();
    let at_exit = matches!(ended, Some(ReadEnd::Exit));
    let (replies, failed) = outbox.finish();
    let (read, taken) = leave_reading(rt, parts, reading, at_exit);
    let (replies_rx, watched, unwritten, given, order) = writing.join(rt);
    let writer = watched.inner;
    settle_all(rt, replies_rx, replies);
    let fault = reply_fault(unwritten, failed);
    let answer = session_answer(served, session_end(ended, drained, read), fault);
    ThreadsOutcome {
        writer,
        taken,
        given,
        order,
        answer,
    }
}

/// Takes no further content part from the reading thread, and returns how its reading ended, and the bytes that were
/// taken. If the thread sent End, or reached `exit`, where it ends by itself, it is joined. Otherwise it is left to
/// itself, and ends when it has read one more message, or with its input. If it did not send End, the answer is how a
/// reader fails, which is not part of the session's answer.
///
/// After this the relay's ends are gone, except one of a thread that sends nothing more on it. So nobody waits for room
/// in it.
fn leave_reading<T, R>(
    rt: &T,
    parts: ContentParts<T>,
    reading: Reading<R>,
    at_exit: bool,
) -> (ReadEnd, ByteTrace)
where
    T: Threads + Wait + Copy + Drop,
    R: BufRead + Drop,
    requires known { (parts.relay.0 ≡ reading.promise.tx.value.relay)
        × (parts.relay.1 ≡ Some (source_of (R.remaining reading.promise.reader.value) reading.promise.limits))
        × (parts.relay.2 ≡ reading.promise.tx.value.wakeable) }
    ensures leaves { LeavesReading parts reading.promise.limits reading.promise.tx.value
        (R.remaining reading.promise.reader.value) result.1.parts result.0 }
    ensures failed { has_end parts.taken ≡ true → ReadingFails result.0 result.1 }
{
    let drained = parts.is_drained();
    let (rx, so_far) = parts.leave();
    if drained {
        let (tx, read, taken) = reading.join(rt);
        settle_all(rt, rx, tx);
        return (read, taken);
    }
    rx.learn();
    drop(rx);
    join_if(rt, reading, at_exit);
    (ReadEnd::Fault(ReadFault::Input(ErrorKind::Other)), so_far)
}

/// Joins the thread that reads, or leaves it to itself.
fn join_if<T: Threads + Wait, R: BufRead + Drop>(rt: &T, reading: Reading<R>, joins: bool) {
    if joins {
        let _ = reading.join(rt);
    }
}

/// Returns what ended the messages of a session.
fn session_end(ended: Option<ReadEnd>, drained: bool, read: ReadEnd) -> Option<ReadEnd>
    ensures { result ≡ session_end_spec ended drained read }
{
    match (ended, drained) {
        (Some(end), _) => Some(end),
        (None, true) => Some(read),
        (None, false) => None,
    }
}
