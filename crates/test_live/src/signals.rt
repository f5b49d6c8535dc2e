// What the parts of a run tell one another, and wait for.
use std::io::ErrorKind;
use std::sync::Arc;
use std::sync::atomic::{AtomicU64, Ordering};
use std::{io, thread};

/// What a part waits for.
#[derive(Clone, Copy)]
pub enum Signal {
    /// So many bytes were written and flushed.
    Written,
    /// So many bytes were written.
    Taken,
    /// So many messages were written and flushed.
    Messages,
    /// So many writes began.
    Writes,
    /// So many requests reached the handler.
    Requests,
    /// The reader reached so many of its pauses.
    Pauses,
    /// The reader was asked so often.
    Reads,
    /// So many jobs began.
    Begun,
    /// So many jobs saw that their token is cancelled.
    Stopped,
    /// So many jobs reached the end of their script.
    Ended,
    /// So many times a job was done with its reports.
    Reported,
    /// A server was asked so often whether to go on.
    Turns,
}

/// How often each signal came.
#[derive(Drop)]
pub struct Signals {
    written: AtomicU64,
    taken: AtomicU64,
    messages: AtomicU64,
    writes: AtomicU64,
    requests: AtomicU64,
    pauses: AtomicU64,
    reads: AtomicU64,
    begun: AtomicU64,
    stopped: AtomicU64,
    ended: AtomicU64,
    reported: AtomicU64,
    turns: AtomicU64,
    /// How many waits were given up.
    late: AtomicU64,
}

/// How often a wait checks its signal before it is given up: for a minute or so, and longer if the machine is busy.
pub const LOOKS: u64 = 100_000_000;

impl Signals {
    /// Nothing happened yet.
    pub fn new() -> Signals {
        Signals {
            written: AtomicU64::new(0),
            taken: AtomicU64::new(0),
            messages: AtomicU64::new(0),
            writes: AtomicU64::new(0),
            requests: AtomicU64::new(0),
            pauses: AtomicU64::new(0),
            reads: AtomicU64::new(0),
            begun: AtomicU64::new(0),
            stopped: AtomicU64::new(0),
            ended: AtomicU64::new(0),
            reported: AtomicU64::new(0),
            turns: AtomicU64::new(0),
            late: AtomicU64::new(0),
        }
    }

    fn counter(&self, signal: Signal) -> &AtomicU64 {
        match signal {
            Signal::Written => &self.written,
            Signal::Taken => &self.taken,
            Signal::Messages => &self.messages,
            Signal::Writes => &self.writes,
            Signal::Requests => &self.requests,
            Signal::Pauses => &self.pauses,
            Signal::Reads => &self.reads,
            Signal::Begun => &self.begun,
            Signal::Stopped => &self.stopped,
            Signal::Ended => &self.ended,
            Signal::Reported => &self.reported,
            Signal::Turns => &self.turns,
        }
    }

    /// How often the signal came.
    pub fn count(&self, signal: Signal) -> u64 {
        self.counter(signal).load(Ordering::SeqCst)
    }

    /// Gives the signal once more.
    pub fn tell(&self, signal: Signal) {
        self.counter(signal).fetch_add(1, Ordering::SeqCst);
    }

    /// So many bytes are written.
    pub fn taken(&self, count: usize) {
        self.taken.store(count as u64, Ordering::SeqCst);
    }

    /// So many bytes, of so many messages, are written and flushed.
    pub fn flushed(&self, count: usize, messages: u64) {
        self.written.store(count as u64, Ordering::SeqCst);
        self.messages.store(messages, Ordering::SeqCst);
    }

    /// Waits until the signal has come so often. The error means that the wait was given up.
    pub fn wait(&self, signal: Signal, wanted: u64) -> io::Result<()> {
        for _ in 0..LOOKS {
            if self.count(signal) >= wanted {
                return Ok(());
            }
            thread::yield_now();
        }
        self.give_up();
        Err(io::Error::from(ErrorKind::TimedOut))
    }

    /// A wait is given up.
    pub fn give_up(&self) {
        self.late.fetch_add(1, Ordering::SeqCst);
    }

    /// Whether a wait was given up.
    pub fn is_late(&self) -> bool {
        self.late.load(Ordering::SeqCst) > 0
    }

    /// How often a reader, a writer or a handler was called.
    pub fn calls(&self) -> u64 {
        let (reads, writes) = (self.count(Signal::Reads), self.count(Signal::Writes));
        reads
            .saturating_add(writes)
            .saturating_add(self.count(Signal::Requests))
    }
}

/// Returns whether nobody else holds the signals any longer. A thread that still runs holds them, and may take a while
/// to end.
pub fn is_alone(signals: &Arc<Signals>) -> bool {
    for _ in 0..LOOKS {
        if Arc::strong_count(signals) == 1 {
            return true;
        }
        thread::yield_now();
    }
    false
}
