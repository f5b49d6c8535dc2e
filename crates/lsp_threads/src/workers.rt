//! The threads that read and write, each on an end of a relay.
ghost use Rattle.std.specs.List.{concat};
ghost use Rattle.std.specs.Prelude.{◌≡◌, [], IfOk, Some};
ghost use Rattle.lsp_threads.specs.Framing.{WritesParcels};
ghost use Rattle.lsp_session.specs.SessionFailures.{write_failures};
ghost use Rattle.lsp_threads.specs.Passing.{GivenTo, IsFlushedUnless, ReadingFails};

use crate::backlog::{Backlog, Takes};
use crate::frame_batch::write_texts;
use crate::frame_text::FrameText;
use crate::write_trace::WriteTrace;
use lsp_message::{ByteTrace, Limits, WriteFault};
use lsp_relay::{RelayRx, StartFault};
use lsp_session::ReadEnd;
use std::alloc::Global;
use std::io::{BufRead, Write};
use std::snapshot::Snapshot;
use std::sync::Wait;
use std::thread::{Builder, Promise, PromisedHandle, Threads};

/// How many parcels may wait between two threads. It changes speed and memory only, and no answer.
pub const ROOM: usize = 32;

/// The end of a relay on which a reading thread sends. The thread is started for any such end, since the check finds
/// that it may own it only if it need not look into its type.
pub trait ReadsInto: Drop {
    ghost use Rattle.std.specs.Prelude.{ℕ, List, Option};
    ghost use Rattle.lsp_message.specs.Told.{Parts};
    ghost use Rattle.lsp_message.specs.declared.frame.limits.Limits.{Limits as most};
    ghost use Rattle.lsp_session.specs.declared.loops.ReadEnd.{ReadEnd as read_end};

    /// The messages whose content parts have at most this many bytes were sent on this end of a relay, which ended like
    /// this. They are those of the bytes that were taken, which are the first of these bytes if they are known. The end
    /// is the last value then.
    ghost tells: { most → Option (List ℕ) → Self → read_end → Parts → Self → Type 0 };

    /// The two are the same end.
    ghost same_end: { Self → Self → Type 0 };

    /// The end may be given to a thread that reads these bytes, if they are known, with content parts of at most this
    /// many bytes.
    ghost may_read: { Option (List ℕ) → most → Self → Type 0 };

    /// Sends the messages of a reader, within `limits`, and then End. It records the bytes that it took, and how the
    /// reader failed. It waits while the other end has too many bytes that it did not take or write.
    fn read_into<R: Wait + Copy + Drop, S: BufRead + Drop>(
        self,
        rt: R,
        alloc: Global,
        reader: S,
        limits: Limits,
        backlog: Backlog,
    ) -> (Self, ReadEnd, ByteTrace)
        requires { may_read (S.remaining reader) limits self }
        ensures relay { same_end self result.0 }
        ensures told { tells limits (S.remaining reader) self result.1 result.2.parts result.0 }
        ensures failed { ReadingFails result.1 result.2 };
}

/// What a writing thread takes from a relay. The thread is started for any such type, for the same reason.
pub trait WritesFrom: Drop {
    ghost use Rattle.std.specs.Prelude.{ℕ, List, Option};
    ghost use Rattle.lsp_message.specs.declared.frame.WriteFault.{WriteFault as fault};
    ghost use Rattle.lsp_message.specs.Told.{Parts};
    ghost use Rattle.lsp_relay.specs.declared.ends.Parcel.{Parcel as parcel};
    ghost use Rattle.lsp_threads.specs.Writes.{Begun as begun};

    /// These parcels were taken and written. After a fault they were not written from the failed write on. The bytes
    /// that were given are stated as if the writer began empty.
    ghost writes: { List (parcel Self) → Option fault → Option (List ℕ) → Option (List ℕ)
        → Type 0 };

    /// These parcels were taken. Each write began with one of them, or in the middle of some, and gave no byte of a later one.
    ghost orders: { List (parcel Self) → List begun → Parts → Type 0 };

    /// Writes the parcels that it takes, up to End, and records the bytes that it gave. After a fault, which it
    /// returns, it writes nothing more. It reports which bytes no longer wait to be written.
    fn write_out<R: Wait + Drop, W: Write + Drop>(
        rt: R,
        alloc: Global,
        rx: RelayRx<Self>,
        writer: W,
        takes: Takes,
    ) -> (RelayRx<Self>, W, Option<WriteFault>, ByteTrace, WriteTrace)
        requires { rx.taken ≡ [] }
        ensures relay { result.0.relay ≡ rx.relay }
        ensures written { writes result.0.taken result.2 (Some []) (Some (concat result.3.parts)) }
        ensures given { GivenTo (W.contents writer) result.3.parts (W.contents result.1) }
        ensures flushed { IsFlushedUnless result.2 result.3.parts }
        ensures failed { result.3.failed ≡ write_failures result.2 }
        ensures order { orders result.0.taken result.4 result.3.parts };
}

/// What the reading thread returns: the sender's end of the relay that it was given.
#[derive(Drop)]
pub struct Reader<S, E> {
    pub reader: Snapshot<S>,
    pub limits: Limits,
    pub tx: Snapshot<E>,
}

impl<S: BufRead, E: ReadsInto> Promise<(E, ReadEnd, ByteTrace)> for Reader<S, E> {
    ghost use Rattle.lsp_threads.specs.Passing.{ReadingFails};

    ghost kept_by = { λ p r. E.same_end p.tx.value r.0
        × E.tells p.limits (S.remaining p.reader.value) p.tx.value r.1 r.2.parts r.0 × ReadingFails r.1 r.2 };
}

/// What the writing thread returns: the receiver's end of the relay that it was given, from which everything was taken,
/// and the writer.
#[derive(Drop)]
pub struct Writer<W, M: Drop> {
    pub writer: Snapshot<W>,
    pub rx: Snapshot<RelayRx<M>>,
}

impl<W: Write, M: WritesFrom> Promise<(RelayRx<M>, W, Option<WriteFault>, ByteTrace, WriteTrace)>
    for Writer<W, M> {
    ghost use Rattle.std.specs.List.{concat};
    ghost use Rattle.std.specs.Prelude.{◌≡◌, [], Some};
    ghost use Rattle.lsp_session.specs.SessionFailures.{write_failures};
    ghost use Rattle.lsp_threads.specs.Passing.{GivenTo, IsFlushedUnless};

    ghost kept_by = { λ p r. (r.0.relay ≡ p.rx.value.relay)
        × M.writes r.0.taken r.2 (Some []) (Some (concat r.3.parts))
        × GivenTo (W.contents p.writer.value) r.3.parts (W.contents r.1)
        × IsFlushedUnless r.2 r.3.parts × (r.3.failed ≡ write_failures r.2)
        × M.orders r.0.taken r.4 r.3.parts };
}

/// Starts the reading thread.
pub fn start_reader<E, R, S>(
    rt: &R,
    builder: Builder,
    alloc: Global,
    reader: S,
    limits: Limits,
    tx: E,
    backlog: Backlog,
) -> Result<PromisedHandle<(E, ReadEnd, ByteTrace), Reader<S, E>>, StartFault>
where
    E: ReadsInto + Drop + Send + 'static,
    R: Threads + Wait + Copy + Drop + Send + 'static,
    S: BufRead + Drop + Send + 'static,
    requires { E.may_read (S.remaining reader) limits tx }
    ensures { IfOk result (λ handle. (handle.promise.reader.value ≡ reader)
        × (handle.promise.limits ≡ limits) × (handle.promise.tx.value ≡ tx)) }
{
    let promise = Reader {
        reader: Snapshot::of(&reader),
        limits,
        tx: Snapshot::of(&tx),
    };
    let theirs = *rt;
    match builder.spawn_with(
        rt,
        promise,
        move || tx.read_into(theirs, alloc, reader, limits, backlog),
    ) {
        Ok(handle) => Ok(handle),
        Err(_) => Err(StartFault::Thread),
    }
}

/// Starts the writing thread.
pub fn start_writer<M, R, W>(
    rt: &R,
    builder: Builder,
    alloc: Global,
    rx: RelayRx<M>,
    writer: W,
    takes: Takes,
) -> Result<
    PromisedHandle<(RelayRx<M>, W, Option<WriteFault>, ByteTrace, WriteTrace), Writer<W, M>>,
    StartFault,
>
where
    M: WritesFrom + Drop + Send + 'static,
    R: Threads + Wait + Copy + Drop + Send + 'static,
    W: Write + Drop + Send + 'static,
    requires { rx.taken ≡ [] }
    ensures { IfOk result (λ handle. (handle.promise.writer.value ≡ writer)
        × (handle.promise.rx.value ≡ rx)) }
{
    let promise = Writer {
        writer: Snapshot::of(&writer),
        rx: Snapshot::of(&rx),
    };
    let theirs = *rt;
    match builder.spawn_with(
        rt,
        promise,
        move || M::write_out(theirs, alloc, rx, writer, takes),
    ) {
        Ok(handle) => Ok(handle),
        Err(_) => Err(StartFault::Thread),
    }
}

impl WritesFrom for FrameText {
    ghost use Rattle.lsp_threads.specs.Framing.{WritesParcels};
    ghost use Rattle.lsp_threads.specs.Writes.{AllWrites, EndsAtMark, marks_of};

    ghost writes = { WritesParcels };

    ghost orders = { λ taken writes given. AllWrites (EndsAtMark (marks_of taken)) writes given };

    fn write_out<R: Wait + Drop, W: Write + Drop>(
        rt: R,
        alloc: Global,
        rx: RelayRx<FrameText>,
        writer: W,
        takes: Takes,
    ) -> (
        RelayRx<FrameText>,
        W,
        Option<WriteFault>,
        ByteTrace,
        WriteTrace,
    )
        requires { rx.taken ≡ [] }
        ensures relay { result.0.relay ≡ rx.relay }
        ensures written { WritesParcels result.0.taken result.2 (Some []) (Some (concat result.3.parts)) }
        ensures given { GivenTo (W.contents writer) result.3.parts (W.contents result.1) }
        ensures flushed { IsFlushedUnless result.2 result.3.parts }
        ensures failed { result.3.failed ≡ write_failures result.2 }
        ensures order { AllWrites (EndsAtMark (marks_of result.0.taken)) result.4 result.3.parts }
    {
        let mut writer = writer;
        let mut given = ByteTrace::new();
        let mut order = WriteTrace::new();
        let (rx, fault) = write_texts(&rt, alloc, rx, &mut writer, &mut given, &mut order, &takes);
        (rx, writer, fault, given, order)
    }
}
