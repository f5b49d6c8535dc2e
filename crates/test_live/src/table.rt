// The words of a case, and the bytes that cases are about.
use crate::attempt::Stop;
use crate::devices::Pause;
use crate::escapes::unescape;
use crate::signals::Signal;
use lsp_jobs::PoolSize;
use std::alloc::Global;
use std::io::ErrorKind;

/// The bytes that cases are about, and where a reader waits in them.
#[derive(Drop)]
pub struct Given {
    pub bytes: Vec<u8>,
    pub pauses: Vec<Pause>,
}

impl Given {
    /// The bytes of a text with escapes, in which no reader waits.
    pub fn new(alloc: Global, text: &str) -> Result<Given, Stop> {
        Ok(Given {
            bytes: unescape(alloc, text)?,
            pauses: Vec::new(alloc),
        })
    }

    /// `COUNT TEXT`: this text follows so many times.
    pub fn repeat(&mut self, alloc: Global, words: &str) -> Result<(), Stop> {
        let (count, text) = words.split_once(" ").ok_or(Stop::Table)?;
        let count: usize = count.parse()?;
        let text = unescape(alloc, text)?;
        let repeated = text.as_slice().repeat(alloc, count)?;
        Ok(self.bytes.extend_from_slice(repeated.as_slice())?)
    }

    /// `AT:SIGNAL:COUNT ..`: at these places, in order, a reader waits until the signal has come this often.
    pub fn pause(&mut self, words: &str) -> Result<(), Stop> {
        for word in words.split(' ') {
            self.pauses.push(pause_of(word).ok_or(Stop::Table)?)?;
        }
        Ok(())
    }
}

fn pause_of(word: &str) -> Option<Pause> {
    let mut words = word.split(':');
    let at = number(words.next());
    let signal = named(&SIGNALS, words.next());
    match (at, signal, number(words.next())) {
        (Some(at), Some(signal), Some(wanted)) => Some(Pause {
            at,
            signal,
            wanted: wanted as u64,
        }),
        _ => None,
    }
}

/// The number that a word is.
fn number(word: Option<&str>) -> Option<usize> {
    word?.parse::<usize>().ok()
}

static SIGNALS: [(&str, Signal); 7] = [
    ("written", Signal::Written),
    ("taken", Signal::Taken),
    ("messages", Signal::Messages),
    ("writes", Signal::Writes),
    ("requests", Signal::Requests),
    ("begun", Signal::Begun),
    ("ended", Signal::Ended),
];

/// Returns the value for a word.
fn named<T: Copy>(table: &[(&str, T)], word: Option<&str>) -> Option<T> {
    let word = word.unwrap_or("");
    for (name, it) in table {
        if *name == word {
            return Some(*it);
        }
    }
    None
}

/// A case: `CALL HOW PIECES DEVICE FROM TO`. With the device `waits` it also has how many bytes have to be written,
/// with `bounds` how many messages have to wait, and with another perhaps the kind of the error with which it fails.
/// The call is made with each size of pieces, in each of its modes, for each count of the device, from the first to the
/// last.
#[derive(Clone, Copy)]
pub struct Case<'a> {
    pub call: Call,
    /// The modes in which the call is made, with commas between them: `alone` is on one thread, each other in threads.
    pub ways: &'a str,
    /// The size of the pool of jobs.
    pub pool: PoolSize,
    /// How many bytes the reader gives at a time, with commas between the sizes.
    pub steps: &'a str,
    pub device: Device,
    pub from: usize,
    pub to: usize,
    pub written: u64,
    pub kind: ErrorKind,
}

/// What is called.
#[derive(Clone, Copy)]
pub enum Call {
    /// `front`.
    Front,
    /// `Message::read`, once; with a limit `Message::read_within`, with a bound `Message::read_traced`.
    Read,
    /// A `StreamInbox`, up to the first event that is no message, and once more.
    Inbox,
    /// `read_loop` into a list, for which the count of `fills` is the room; with a limit `read_loop_within`.
    Loop,
    /// `Message::write` of the first message.
    Write,
    /// `write_frames` of all bytes.
    Frames,
    /// A `FrameOutbox` to which all messages are sent.
    Outbox,
    /// `session` of the handler, with no capabilities; with a limit `session_within`. In threads `run_in_threads`.
    Session,
    /// `StreamTransport::serve` of the server that speaks, with `EndOnBadContent`. In threads as above.
    Speaks,
    /// The same with a transport that holds the devices.
    Line,
    /// `StreamTransport::serve` of the same, which reports its wake-ups, with `SkipAndCount`; with a limit or a bound it
    /// reports none, with `SkipSilently`.
    Tolerant,
    /// `run_jobs`, with that server.
    Jobs,
    /// The same. It reports what was written in the order of the texts.
    Many,
    /// `pump_with`.
    Pump,
    /// The same. It also says how many writes there were.
    Burst,
    /// `Connection::over_within`: each message that arrives is sent back.
    Over,
    /// The same, but nothing is received, and the threads are joined at once.
    Joined,
    /// The same, but the receiver is dropped at once.
    Left,
    /// The same, but nothing is received before so many messages wait. It says how many waited at most.
    Held,
    /// The same, but the connection is dropped then.
    Dropped,
    /// The same, but only the receiver is dropped then, and the sender once the thread that reads has ended.
    Deaf,
    /// The connection is dropped then, while the writer waits, until the thread that reads has ended.
    Stuck,
}

/// What happens after a count of bytes or calls.
#[derive(Clone, Copy)]
pub enum Device {
    /// Nothing.
    Whole,
    /// The input ends after so many bytes.
    Ends,
    /// The reader fails once after so many bytes, and goes on.
    Breaks,
    /// The reader shows what follows, fails once when it is asked for more after so many bytes were taken, and goes on.
    Looks,
    /// The writer fails once after so many bytes, and takes more.
    Fills,
    /// The flush of this number fails, from 1.
    Flushes,
    /// The call has a limit: a content part has at most so many bytes.
    Limits,
    /// The call has a bound: a header part has at most so many bytes.
    Headers,
    /// The connection has a bound: what is unread weighs at most so much.
    Bounds,
    /// No memory holds the content part, so the refusal is the answer. The reader fails if it is asked for more than the
    /// text. The count is the limit, or 0 if there is none.
    Huge,
    /// The reader waits after so many bytes until the bytes that the case names were written and flushed.
    Waits,
    /// The writer is slow, so that messages come faster than they are written.
    Slow,
    /// The writer waits until a request reached the handler, which waits for the second pause of the text.
    Gated,
    /// The handler waits, before it refuses a request, until so many messages were written.
    Late,
    /// Content parts that are no messages are skipped, if a session can do that. It says how many were not UTF-8, no
    /// JSON, no message, and lists.
    Passes,
    /// The thread that reads is not started.
    NoReader,
    /// The thread that writes is not started.
    NoWriter,
}

/// Returns the case of these words, if they are one.
pub fn case_of<'a>(call: &str, rest: &'a str) -> Option<Case<'a>> {
    let mut words = rest.split(' ');
    let (Some(how), Some(steps)) = (words.next(), words.next()) else {
        return None;
    };
    let device = words.next();
    let from = words.next();
    let to = words.next();
    let written = words.next();
    let call = named(&CALLS, Some(call));
    let device = named(&DEVICES, device);
    let kind = named(&KINDS, written);
    let written = match kind {
        Some(_) => 0,
        None => number(written.or(Some("0")))? as u64,
    };
    match (call, pool_of(how), device, number(from), number(to)) {
        (Some(call), Some(pool), Some(device), Some(from), Some(to)) => Some(Case {
            call,
            ways: ways_of(how),
            pool,
            steps,
            device,
            from,
            to,
            written,
            kind: kind.unwrap_or(ErrorKind::BrokenPipe),
        }),
        _ => None,
    }
}

/// Returns the modes that a case names: `alone`, `threads`, `both`; or the size of a pool, for threads.
fn ways_of(how: &str) -> &str {
    match how {
        "both" => "alone,threads",
        how => how,
    }
}

/// `WORKERS`, or `WORKERS:WAITING` if only so many jobs may wait. A call without jobs has the modes in which it is
/// made.
pub fn pool_of(word: &str) -> Option<PoolSize> {
    if matches!(word, "alone" | "threads" | "both") {
        return Some(PoolSize::from(1));
    }
    match word.split_once(":") {
        Some((workers, waiting)) => Some(PoolSize {
            workers: number(Some(workers))?,
            waiting: Some(number(Some(waiting))?),
            stack: Some(1048576),
        }),
        None => Some(PoolSize::from(number(Some(word))?)),
    }
}

static KINDS: [(&str, ErrorKind); 5] = [
    ("BrokenPipe", ErrorKind::BrokenPipe),
    ("Interrupted", ErrorKind::Interrupted),
    ("OutOfMemory", ErrorKind::OutOfMemory),
    ("UnexpectedEof", ErrorKind::UnexpectedEof),
    ("WriteZero", ErrorKind::WriteZero),
];

static CALLS: [(&str, Call); 22] = [
    ("front", Call::Front),
    ("read", Call::Read),
    ("inbox", Call::Inbox),
    ("loop", Call::Loop),
    ("write", Call::Write),
    ("frames", Call::Frames),
    ("outbox", Call::Outbox),
    ("session", Call::Session),
    ("speaks", Call::Speaks),
    ("line", Call::Line),
    ("tolerant", Call::Tolerant),
    ("jobs", Call::Jobs),
    ("many", Call::Many),
    ("pump", Call::Pump),
    ("burst", Call::Burst),
    ("over", Call::Over),
    ("joined", Call::Joined),
    ("left", Call::Left),
    ("held", Call::Held),
    ("dropped", Call::Dropped),
    ("deaf", Call::Deaf),
    ("stuck", Call::Stuck),
];

static DEVICES: [(&str, Device); 17] = [
    ("whole", Device::Whole),
    ("ends", Device::Ends),
    ("breaks", Device::Breaks),
    ("looks", Device::Looks),
    ("fills", Device::Fills),
    ("flushes", Device::Flushes),
    ("limits", Device::Limits),
    ("headers", Device::Headers),
    ("bounds", Device::Bounds),
    ("huge", Device::Huge),
    ("waits", Device::Waits),
    ("slow", Device::Slow),
    ("gated", Device::Gated),
    ("late", Device::Late),
    ("passes", Device::Passes),
    ("no_reader", Device::NoReader),
    ("no_writer", Device::NoWriter),
];
