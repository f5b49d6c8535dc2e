//! Passes on messages from a reader, in a thread of its own, to a writer.
ghost use Rattle.std.specs.Prelude.{◌≡◌, [], IfSome, Option, Some};
ghost use Rattle.lsp_message.specs.Frame.{no_limit, of_content};
ghost use Rattle.lsp_threads.specs.Passing.{GivenTo, OfTaken, TakenFrom, noted};
ghost use Rattle.lsp_threads.specs.Pump.{PumpFlushes, PumpReportsReader, PumpReportsWriter, Pumps, pump_answer};

use crate::backlog::bounded_backlog;
use crate::frame_batch::write_texts;
use crate::frame_text::FrameText;
use crate::workers::start_reader;
use crate::write_trace::WriteTrace;
use lsp_message::{ByteTrace, Limits, ReadFault, WriteFault};
use lsp_relay::{AnyPlan, RelayTx, StartFault, relay, settle_all};
use lsp_session::ReadEnd;
use std::alloc::Global;
use std::error::Error;
use std::fmt;
use std::io::{BufRead, Write};
use std::sync::Wait;
use std::thread::{Builder, Threads};

/// How many texts of frames may wait between the two threads. It changes speed and memory only, and no answer.
const PARCEL_ROOM: usize = 8;

/// How many bytes of frames may wait there. A longer text waits alone.
const UNWRITTEN: u64 = 1_048_576;

/// Why not all messages were passed on. If several faults fit, it is the one with the greatest number.
///
/// It prints the text of the fault inside. To show a person more, match on the variant.
#[derive(Clone, Copy, Debug, PartialEq, Eq)]
pub enum PumpFault {
    /// 1: a message was not read. Those before it were written.
    Read(ReadFault),
    /// 2: a message was not written.
    Write(WriteFault),
    /// 3: a thread was not started. Nothing was read or written.
    Start(StartFault),
}

impl fmt::Display for PumpFault {
    ghost use Rattle.lsp_threads.specs.Pump.{pump_fault_text};

    ghost output = { pump_fault_text };

    fn fmt<W: fmt::Write>(&self, f: &mut fmt::Formatter<W>) -> fmt::Result {
        match self {
            PumpFault::Read(fault) => write!(f, "{fault}"),
            PumpFault::Write(fault) => write!(f, "{fault}"),
            PumpFault::Start(fault) => write!(f, "{fault}"),
        }
    }
}

impl Error for PumpFault {}

/// Passes on the messages of a reader to a writer, as frames, up to and including the first `exit` (LSP 3.17, "Base
/// Protocol"). A thread reads and makes the frames, and the caller writes them. The messages stay the same, but not
/// their bytes: spaces are dropped, and members change their order.
///
/// Frames whose messages the reader showed together are written and flushed together, when they have 65,536 bytes or
/// the reader showed no further message. No frame is kept back while the reader waits for more bytes, if its `fill_buf`
/// doesn't wait while it has bytes left to show.
///
/// `Ok` means that the messages ended with `exit` or with the input. After a failed write nothing more is written, and
/// the remaining messages are read and dropped. So the call returns only when the reader is at its end. If no memory is
/// left for a frame, the fault is `PumpFault::Write` with `WriteFault::Memory`, and nothing more is read. The clause
/// applies to a reader whose bytes are known. `pump_traced` says the same for every reader, including standard input
/// and a socket.
pub fn pump<T, R, W>(rt: &T, alloc: Global, reader: R, writer: &mut W) -> Result<(), PumpFault>
where
    T: Threads + Wait + Copy + Drop + Send + 'static,
    R: BufRead + Drop + Send + 'static,
    W: Write,
    ensures { IfSome (R.remaining reader) (λ text.
        Pumps no_limit text (W.contents writer.old) (W.contents writer.new) result) }
{
    pump_within(rt, alloc, reader, writer, u64::MAX)
}

/// Does what `pump` does, with a limit on a content part. If one is longer than `limit` bytes, the fault is
/// `PumpFault::Read` with `ReadFault::TooLong`. A header part is not bounded; `pump_with` bounds it too.
pub fn pump_within<T, R, W>(
    rt: &T,
    alloc: Global,
    reader: R,
    writer: &mut W,
    limit: u64,
) -> Result<(), PumpFault>
where
    T: Threads + Wait + Copy + Drop + Send + 'static,
    R: BufRead + Drop + Send + 'static,
    W: Write,
    ensures { IfSome (R.remaining reader) (λ text.
        Pumps (of_content limit) text (W.contents writer.old) (W.contents writer.new) result) }
{
    let limits = Limits {
        header: None,
        content: limit,
    };
    pump_with(rt, Builder::new(), alloc, reader, writer, limits)
}

/// Does what `pump_within` does, with limits on both parts of a frame, and with a builder for the reading thread, which
/// can set the size of its stack. After a header part that is too long the fault is `PumpFault::Read` with
/// `ReadFault::HeaderTooLong`.
pub fn pump_with<T, R, W>(
    rt: &T,
    builder: Builder,
    alloc: Global,
    reader: R,
    writer: &mut W,
    limits: Limits,
) -> Result<(), PumpFault>
where
    T: Threads + Wait + Copy + Drop + Send + 'static,
    R: BufRead + Drop + Send + 'static,
    W: Write,
    ensures { IfSome (R.remaining reader) (λ text.
        Pumps limits text (W.contents writer.old) (W.contents writer.new) result) }
{
    pump_traced(rt, builder, alloc, reader, writer, limits).answer
}

/// The result of a pump, and traces of the bytes that it took and gave, which only clauses see.
#[derive(Drop)]
#[derive_where(Debug)]
pub struct PumpOutcome {
    /// The bytes that were taken from the reader.
    #[derive_where(skip)]
    pub taken: ByteTrace,
    /// The bytes that the writer took.
    #[derive_where(skip)]
    pub given: ByteTrace,
    /// The result that `pump_with` returns.
    pub answer: Result<(), PumpFault>,
}

/// Does what `pump_with` does, and says more about it for every reader and writer, including standard input and a socket.
/// The clause `told` is that of `pump`, for each text that begins with the bytes that were taken, and for a writer that
/// began empty. The clauses `taken` and `given` say that these are the bytes that were read and written, if they are
/// known. `reader` and `writer` say that read fault 1 and write fault 1 are reported only if the reader or the writer
/// failed, with the kind of its error. No clause says in which order bytes were taken and given.
pub fn pump_traced<T, R, W>(
    rt: &T,
    builder: Builder,
    alloc: Global,
    reader: R,
    writer: &mut W,
    limits: Limits,
) -> PumpOutcome
where
    T: Threads + Wait + Copy + Drop + Send + 'static,
    R: BufRead + Drop + Send + 'static,
    W: Write,
    ensures told { OfTaken result.taken.parts (λ text.
        Pumps limits text (Some []) (noted result.given) result.answer) }
    ensures taken { TakenFrom (R.remaining reader) result.taken.parts }
    ensures given { GivenTo (W.contents writer.old) result.given.parts (W.contents writer.new) }
    ensures flushed { PumpFlushes result.answer result.given.parts }
    ensures reader { PumpReportsReader result.answer result.taken }
    ensures writer { PumpReportsWriter result.answer result.given }
{
    let Ok((tx, rx)) = relay::<FrameText, AnyPlan>(alloc, PARCEL_ROOM) else {
        return not_started(StartFault::Memory);
    };
    let Ok((backlog, takes)) = bounded_backlog(alloc, UNWRITTEN) else {
        return not_started(StartFault::Memory);
    };
    let reading = match start_reader::<RelayTx<FrameText>, T, R>(
        rt, builder, alloc, reader, limits, tx, backlog,
    ) {
        Ok(reading) => reading,
        Err(fault) => return not_started(fault),
    };
    let mut given = ByteTrace::new();
    let mut order = WriteTrace::new();
    let (rx, unwritten) = write_texts(rt, alloc, rx, writer, &mut given, &mut order, &takes);
    let (tx, read, taken) = reading.join(rt);
    settle_all(rt, rx, tx);
    PumpOutcome {
        taken,
        given,
        answer: answer_of(read, unwritten),
    }
}

/// Makes the result of a pump that read and wrote nothing.
fn not_started(fault: StartFault) -> PumpOutcome
    ensures answer { result.answer ≡ Err (PumpFault.Start fault) }
    ensures nothing { (result.taken.parts ≡ []) × (result.given.parts ≡ []) }
    ensures no_failure { (result.taken.failed ≡ []) × (result.given.failed ≡ []) }
{
    PumpOutcome {
        taken: ByteTrace::new(),
        given: ByteTrace::new(),
        answer: Err(PumpFault::Start(fault)),
    }
}

/// Returns the result of a pump whose reading ended like this, with this fault of writing.
fn answer_of(end: ReadEnd, unwritten: Option<WriteFault>) -> Result<(), PumpFault>
    ensures { result ≡ pump_answer end unwritten }
{
    match (unwritten, end) {
        (Some(fault), _) => Err(PumpFault::Write(fault)),
        (None, ReadEnd::Fault(fault)) => Err(PumpFault::Read(fault)),
        (None, ReadEnd::Memory) => Err(PumpFault::Write(WriteFault::Memory)),
        (None, ReadEnd::Exit | ReadEnd::End | ReadEnd::Closed) => Ok(()),
    }
}
