// The calls over the reader and the writer in threads. Each call of the library that is generic stands in a function of its own, since what it
// brings is proved where it is called.
use crate::attempt::{Attempt, Stop};
use crate::devices::{Pause, Sink, Source};
use crate::escapes::escape;
use crate::listening::Listening;
use crate::owners::parted;
use crate::servers::{Echo, Talker};
use crate::signals::{Signal, Signals, is_alone};
use crate::table::{Call, Device, Given};
use lsp_acts::ServerApplication;
use lsp_jobs::{JobOptions, PoolSize, run_jobs};
use lsp_server::running::DEFAULT_READ_AHEAD_WEIGHT;
use lsp_server::{Connection, Limits};
use lsp_session::{Application, HandlerApplication, SessionEnd, SessionFault, SkipAndCount};
use lsp_threads::{
    DEFAULT_READ_AHEAD_BYTES, PumpFault, StartFault, ThreadOptions, ThreadsOutcome,
    UNWRITTEN_BYTES, pump_with, run_in_threads,
};
use serde_json::{Map, Value};
use std::alloc::{AllocError, Global};
use std::fmt::Write as _;
use std::io::{BufRead, ErrorKind, Write};
use std::sync::{Arc, Wait};
use std::thread::{Builder, Threads};
use std::time::Clock;

/// A case at one of its places, with one size of pieces.
#[derive(Clone, Copy)]
pub struct Run {
    pub call: Call,
    pub pool: PoolSize,
    pub device: Device,
    pub step: usize,
    pub count: usize,
    pub written: u64,
    pub kind: ErrorKind,
    /// Whether the call is made on one thread.
    pub is_alone: bool,
}

impl Run {
    /// How many bytes a header part and a content part may have.
    pub fn limits(self) -> Limits {
        match (self.device, self.limit()) {
            (Device::Headers, _) => Limits::new(self.count as u64, u64::MAX),
            (_, Some(limit)) => Limits::of_content(limit),
            _ => Limits::none(),
        }
    }

    /// How many bytes a content part may have, if the call has a limit.
    pub fn limit(self) -> Option<u64> {
        match self.device {
            Device::Limits => Some(self.count as u64),
            Device::Huge if self.count > 0 => Some(self.count as u64),
            _ => None,
        }
    }

    /// Whether the call has limits.
    pub fn is_limited(self) -> bool {
        matches!(self.device, Device::Headers) || self.limit().is_some()
    }

    /// How much may be unread.
    fn bound(self) -> u64 {
        match self.device {
            Device::Bounds => self.count as u64,
            _ => DEFAULT_READ_AHEAD_WEIGHT,
        }
    }
}

/// Returns the result of a run in threads.
pub fn attempt_of<R>(rt: &R, alloc: Global, run: Run, given: &Given) -> Result<Attempt, Stop>
where
    R: Threads + Wait + Clock + AllocGlobal + Copy + Drop + Send + 'static,
{
    let signals = Arc::new(alloc, Signals::new())?;
    let reader = source(alloc, run, given, &signals)?;
    let writer = sink(alloc, run, &signals)?;
    let answer = match run.call {
        Call::Session => handled(rt, alloc, run, reader, writer, &signals),
        Call::Speaks => spoken(rt, alloc, run, reader, writer, &signals),
        Call::Jobs | Call::Many => worked(rt, alloc, run, reader, writer, &signals),
        Call::Pump | Call::Burst => pumped(rt, alloc, run, reader, writer, &signals),
        _ => connected(rt, alloc, run, reader, writer, &signals),
    };
    let came = answer?;
    all_ended(&signals)?;
    Ok(came)
}

/// Checks that no wait was given up, and no thread is left.
fn all_ended(signals: &Arc<Signals>) -> Result<(), Stop> {
    if signals.is_late() {
        return Err(Stop::Broken("a wait was given up"));
    }
    if !is_alone(signals) {
        return Err(Stop::Broken("a thread is left"));
    }
    Ok(())
}

/// The reader of a run.
pub fn source(
    alloc: Global,
    run: Run,
    given: &Given,
    signals: &Arc<Signals>,
) -> Result<Source, AllocError> {
    let bytes = given.bytes.as_slice();
    let end = match run.device {
        Device::Ends => run.count.min(bytes.len()),
        _ => bytes.len(),
    };
    let (fails_at, shows_on) = match run.device {
        Device::Breaks => (Some(run.count), false),
        Device::Looks => (Some(run.count), true),
        Device::Huge => (Some(bytes.len()), false),
        _ => (None, false),
    };
    Ok(Source {
        signals: Arc::try_clone(signals)?,
        bytes: Vec::from_slice(alloc, &bytes[..end])?,
        taken: 0,
        shown: 0,
        step: run.step,
        fails_at,
        kind: run.kind,
        shows_on,
        is_alone: run.is_alone,
        pauses: pauses(alloc, run, given)?,
        over: 0,
    })
}

fn pauses(alloc: Global, run: Run, given: &Given) -> Result<Vec<Pause>, AllocError> {
    if matches!(run.device, Device::Waits) {
        let pause = Pause {
            at: run.count,
            signal: Signal::Written,
            wanted: run.written,
        };
        return Vec::from_slice(alloc, &[pause]);
    }
    Vec::from_slice(alloc, given.pauses.as_slice())
}

/// How many bytes are written without a new allocation, which could fail in the call.
const ROOM: usize = 65536;

/// The writer of a run. On one thread it takes pieces as the reader gives them.
pub fn sink(alloc: Global, run: Run, signals: &Arc<Signals>) -> Result<Sink, AllocError> {
    let mut sink = Sink {
        signals: Arc::try_clone(signals)?,
        taken: Vec::with_capacity(alloc, ROOM)?,
        step: if run.is_alone { run.step } else { usize::MAX },
        room: usize::MAX,
        kind: run.kind,
        bad_flush: 0,
        flushes: 0,
        writes: 0,
        lines: 0,
        is_slow: false,
        is_gated: false,
    };
    match run.device {
        Device::Fills => sink.room = run.count,
        Device::Flushes => sink.bad_flush = run.count,
        Device::Slow => sink.is_slow = true,
        Device::Gated => sink.is_gated = true,
        _ => sink.is_gated = matches!(run.call, Call::Stuck),
    }
    Ok(sink)
}

/// The handler of a run.
pub fn echo(alloc: Global, run: Run, signals: &Arc<Signals>) -> Result<Echo, AllocError> {
    Ok(Echo {
        alloc,
        signals: Arc::try_clone(signals)?,
        is_gated: matches!(run.device, Device::Gated),
        awaited: match run.device {
            Device::Late => run.count as u64,
            _ => 0,
        },
    })
}

/// Returns how a session of the handler ends, and what it wrote.
fn handled<R>(
    rt: &R,
    alloc: Global,
    run: Run,
    reader: Source,
    writer: Sink,
    signals: &Arc<Signals>,
) -> Result<Attempt, AllocError>
where
    R: Threads + Wait + Copy + Drop + Send + 'static,
{
    let echo = echo(alloc, run, signals)?;
    let none = Value::Object(Map::new(alloc));
    let mut application = HandlerApplication::new(alloc, none, echo);
    let came = served(rt, alloc, run, reader, writer, signals, &mut application);
    drop(application);
    came
}

/// Returns how a session of the server that sends first ends, and what it wrote.
fn spoken<R>(
    rt: &R,
    alloc: Global,
    run: Run,
    reader: Source,
    writer: Sink,
    signals: &Arc<Signals>,
) -> Result<Attempt, AllocError>
where
    R: Threads + Wait + Copy + Drop + Send + 'static,
{
    let talker = Talker::new(alloc, Arc::try_clone(signals)?);
    let mut queued = ServerApplication::new(alloc, talker);
    let came = served(rt, alloc, run, reader, writer, signals, &mut queued);
    drop(queued);
    came
}

/// Returns how a session of an application ends, and what it wrote.
fn served<R, A>(
    rt: &R,
    alloc: Global,
    run: Run,
    reader: Source,
    writer: Sink,
    signals: &Arc<Signals>,
    application: &mut A,
) -> Result<Attempt, AllocError>
where
    R: Threads + Wait + Copy + Drop + Send + 'static,
    A: Application,
{
    let mut listening = Listening::new(matches!(run.device, Device::Passes));
    let options = options(run);
    let ran = run_in_threads(
        rt,
        alloc,
        reader,
        writer,
        application,
        &mut listening,
        options,
    );
    let came = threads_answer(alloc, ran, run, signals);
    with_passed(run, came, &listening)
}

/// Returns how a session with jobs ends, what it wrote, how many jobs began and saw their cancellation, and which ends
/// of jobs it saw.
fn worked<R>(
    rt: &R,
    alloc: Global,
    run: Run,
    reader: Source,
    writer: Sink,
    signals: &Arc<Signals>,
) -> Result<Attempt, AllocError>
where
    R: Threads + Wait + Clock + Copy + Drop + Send + 'static,
{
    let talker = Talker::new(alloc, Arc::try_clone(signals)?);
    let mut listening = Listening::new(matches!(run.device, Device::Passes));
    let (talker, ran) = run_talker(rt, alloc, reader, writer, run, talker, &mut listening);
    let came = threads_answer(alloc, ran, run, signals);
    let told = with_jobs(run, came, signals, talker.finished.as_str());
    drop(talker);
    with_passed(run, told, &listening)
}

/// Returns the result of a session and of its jobs.
fn with_jobs(
    run: Run,
    came: Result<Attempt, AllocError>,
    signals: &Arc<Signals>,
    finished: &str,
) -> Result<Attempt, AllocError> {
    let mut came = came?;
    if came.is_refused {
        return Ok(came);
    }
    let begun = signals.count(Signal::Begun);
    write!(came.said, "; {begun} begun")?;
    if !matches!(run.call, Call::Many) {
        let stopped = signals.count(Signal::Stopped);
        write!(came.said, ", {stopped} stopped; finished{finished}")?;
    }
    Ok(came)
}

/// Returns the result of a run and, if it skips content parts, how many of each kind it skipped.
fn with_passed(
    run: Run,
    came: Result<Attempt, AllocError>,
    listening: &Listening,
) -> Result<Attempt, AllocError> {
    let mut came = came?;
    if matches!(run.device, Device::Passes) {
        add_counts(&mut came, listening.counts)?;
    }
    Ok(came)
}

/// Adds how many content parts of each kind were skipped.
pub fn add_counts(came: &mut Attempt, counts: SkipAndCount) -> Result<(), AllocError> {
    let SkipAndCount {
        not_text,
        no_json,
        no_message,
        batches,
    } = counts;
    if came.is_refused {
        return Ok(());
    }
    write!(
        came.said,
        "; passed {not_text} {no_json} {no_message} {batches}"
    )
}

/// Runs a session of the server with its jobs, on any reader and writer. So it is proved in one place that threads may
/// own a job, and in another that they may own these two.
fn run_talker<R, S, W>(
    rt: &R,
    alloc: Global,
    reader: S,
    writer: W,
    run: Run,
    talker: Talker,
    listening: &mut Listening,
) -> (Talker, Result<ThreadsOutcome<W>, StartFault>)
where
    R: Threads + Wait + Clock + Copy + Drop + Send + 'static,
    S: BufRead + Drop + Send + 'static,
    W: Write + Drop + Send + 'static,
{
    let options = JobOptions {
        pool: run.pool,
        threads: options(run),
    };
    run_jobs(rt, alloc, reader, writer, talker, listening, options)
}

/// How threads run. No thread gets a stack of `usize::MAX` bytes.
fn options(run: Run) -> ThreadOptions {
    ThreadOptions {
        writer: builder(matches!(run.device, Device::NoWriter)),
        reader: builder(matches!(run.device, Device::NoReader)),
        limits: run.limits(),
        unread: DEFAULT_READ_AHEAD_BYTES,
        unwritten: UNWRITTEN_BYTES,
    }
}

fn builder(is_refused: bool) -> Builder {
    if is_refused {
        Builder::new().stack_size(usize::MAX)
    } else {
        Builder::new()
    }
}

/// How a session in threads ended, and what it wrote.
fn threads_answer(
    alloc: Global,
    ran: Result<ThreadsOutcome<Sink>, StartFault>,
    run: Run,
    signals: &Arc<Signals>,
) -> Result<Attempt, AllocError> {
    match ran {
        Ok(ThreadsOutcome { writer, answer, .. }) => {
            let end = session_end(alloc, answer)?;
            told(alloc, run, end.as_str(), &writer)
        }
        Err(fault) => not_started(alloc, fault, run, signals),
    }
}

/// How a session ended, in words.
pub fn session_end(
    alloc: Global,
    answer: Result<SessionEnd, SessionFault>,
) -> Result<String, AllocError> {
    match answer {
        Ok(end) => String::from_str(
            alloc,
            match end {
                SessionEnd::ShutDown => "shut down",
                SessionEnd::Closed => "closed",
            },
        ),
        Err(fault) => {
            let text = format!(in alloc; "{fault}");
            drop(fault);
            text
        }
    }
}

/// Returns the result of a call that started no thread, or not both. A case that refuses a thread reports how often a
/// device was called.
fn not_started(
    alloc: Global,
    fault: StartFault,
    run: Run,
    signals: &Arc<Signals>,
) -> Result<Attempt, AllocError> {
    match run.device {
        Device::NoReader | Device::NoWriter => {
            let calls = signals.calls();
            Ok(Attempt::came(format!(in alloc; "{fault}, {calls} calls")?))
        }
        _ => Ok(Attempt::refused(format!(in alloc; "{fault}; wrote ")?)),
    }
}

/// Returns how passing messages on ends, and what it wrote.
fn pumped<R>(
    rt: &R,
    alloc: Global,
    run: Run,
    reader: Source,
    writer: Sink,
    signals: &Arc<Signals>,
) -> Result<Attempt, AllocError>
where
    R: Threads + Wait + Copy + Drop + Send + 'static,
{
    let mut writer = writer;
    let builder = builder(matches!(run.device, Device::NoReader));
    match pump_with(rt, builder, alloc, reader, &mut writer, run.limits()) {
        Ok(()) => told(alloc, run, "passed on", &writer),
        Err(PumpFault::Start(fault)) => not_started(alloc, fault, run, signals),
        Err(fault) => {
            let end = format!(in alloc; "{fault}")?;
            told(alloc, run, end.as_str(), &writer)
        }
    }
}

/// An end, and what was written.
pub fn told(alloc: Global, run: Run, end: &str, writer: &Sink) -> Result<Attempt, AllocError> {
    let bytes = writer.taken.as_slice();
    let written = match run.call {
        Call::Many => escape(alloc, in_order(alloc, bytes)?.as_bytes())?,
        _ => escape(alloc, bytes)?,
    };
    let mut said = [end, "; wrote ", written.as_str()].join(alloc, "")?;
    if matches!(run.call, Call::Burst) {
        write!(said, ", in {} writes", writer.writes)?;
    }
    Ok(attempt(run, end, said))
}

/// Returns the result of a call that ended in this manner: that an allocation failed, unless no memory could be enough.
pub fn attempt(run: Run, end: &str, said: String) -> Attempt {
    Attempt {
        said,
        is_refused: lacks_memory(end) && !matches!(run.device, Device::Huge),
    }
}

/// Returns whether a fault with this text is a failed allocation.
pub fn lacks_memory(fault: &str) -> bool {
    matches!(
        fault,
        "out of memory"
            | "read fault 11"
            | "write fault 2"
            | "Memory"
            | "Fault(Memory)"
            | "Err(Memory)"
    )
}

/// Frames in the order of their texts.
fn in_order(alloc: Global, written: &[u8]) -> Result<String, AllocError> {
    let text = str::from_utf8(written).unwrap_or("");
    let mut frames: Vec<&str> = text.split("Content-Length: ").collect(alloc)?;
    frames.sort()?;
    frames.as_slice().join(alloc, "")
}

/// Returns the results of a connection's threads, and how many bytes were written and flushed; for a writer that fills,
/// how many it took.
fn connected<R>(
    rt: &R,
    alloc: Global,
    run: Run,
    reader: Source,
    writer: Sink,
    signals: &Arc<Signals>,
) -> Result<Attempt, AllocError>
where
    R: Threads + Wait + Clock + AllocGlobal + Copy + Drop + Send + 'static,
{
    let opened = Connection::over_within(rt, reader, writer, run.limits(), run.bound());
    let (connection, threads) = match opened {
        Ok(started) => started,
        Err(fault) => return Ok(Attempt::refused(format!(in alloc; "{fault}; wrote ")?)),
    };
    let (most, ended) = parted(rt, run, connection, threads, signals);
    let end = match ended {
        Ok(()) => String::from_str(alloc, "fine"),
        Err(fault) => format!(in alloc; "{fault}"),
    };
    let end = end?;
    // How many frames a write has is not known, so of a writer that fails those count that it took.
    let counted = match run.device {
        Device::Fills => Signal::Taken,
        _ => Signal::Written,
    };
    let written = signals.count(counted);
    let mut said = format!(in alloc; "{end}; wrote {written} bytes")?;
    if matches!(run.call, Call::Held) {
        write!(said, ", {most} waited")?;
    }
    Ok(attempt(run, end.as_str(), said))
}
