// The reader and the writer of all rows, which threads may own. Each fails once, if it is told to, and goes on, so that a call
// that tries again is seen.
use crate::signals::{Signal, Signals};
use std::io::{BufRead, ErrorKind, Read, Write};
use std::sync::Arc;
use std::{io, thread};

/// A place of an input. The bytes after it are given only once the signal has come this often.
#[derive(Clone, Copy)]
pub struct Pause {
    pub at: usize,
    pub signal: Signal,
    pub wanted: u64,
}

/// Gives its bytes in pieces of at most `step` bytes. It waits at each of its pauses.
#[derive(Drop)]
pub struct Source {
    pub signals: Arc<Signals>,
    pub bytes: Vec<u8>,
    /// How many bytes were taken.
    pub taken: usize,
    /// Where the piece ends that is shown.
    pub shown: usize,
    pub step: usize,
    /// After how many bytes it fails, if it still does.
    pub fails_at: Option<usize>,
    pub kind: ErrorKind,
    /// Whether it shows the bytes that follow before it fails.
    pub shows_on: bool,
    /// Whether it is read on one thread. Then it has nothing yet where it would wait.
    pub is_alone: bool,
    /// In the order of their places.
    pub pauses: Vec<Pause>,
    /// How many of the pauses are over.
    pub over: usize,
}

impl Source {
    /// Handles a request for bytes: it fails, if that is due, and otherwise shows a piece.
    fn ask(&mut self) -> io::Result<()> {
        self.signals.tell(Signal::Reads);
        if let Some(place) = self.fails_at {
            if place <= self.taken {
                self.fails_at = None;
                return Err(io::Error::from(self.kind));
            }
        }
        if self.taken >= self.shown {
            self.show()?;
        }
        Ok(())
    }

    /// The bytes that were not taken.
    pub fn left(&self) -> &[u8] {
        let left = self.bytes.as_slice().get(self.taken..);
        left.unwrap_or(&[])
    }

    /// The bytes of the piece that were not taken.
    fn piece(&self) -> &[u8] {
        let piece = self.bytes.as_slice().get(self.taken..self.shown);
        piece.unwrap_or(&[])
    }

    /// Shows the next piece.
    fn show(&mut self) -> io::Result<()> {
        let mut end = self.taken.saturating_add(self.step).min(self.bytes.len());
        if let Some(place) = self.fails_at {
            if !self.shows_on {
                end = end.min(place);
            }
        }
        self.shown = end.min(self.next_pause()?);
        Ok(())
    }

    /// Returns the place up to which bytes are shown now. It waits at each pause that it reached.
    fn next_pause(&mut self) -> io::Result<usize> {
        for _ in 0..u64::MAX {
            let Some(pause) = self.pauses.as_slice().get(self.over).copied() else {
                return Ok(usize::MAX);
            };
            if self.taken < pause.at {
                return Ok(pause.at);
            }
            self.signals.tell(Signal::Pauses);
            self.pass(pause)?;
            self.over = self.over.saturating_add(1);
        }
        Ok(usize::MAX)
    }

    /// Waits at a pause. On one thread nobody else gives the signal.
    fn pass(&self, pause: Pause) -> io::Result<()> {
        if self.is_alone && self.signals.count(pause.signal) < pause.wanted {
            return Err(io::Error::from(ErrorKind::WouldBlock));
        }
        self.signals.wait(pause.signal, pause.wanted)
    }
}

impl Read for Source {
    fn read(&mut self, buf: &mut [u8]) -> io::Result<usize> {
        let mut shown = self.fill_buf()?;
        let count = shown.read(buf)?;
        self.consume(count);
        Ok(count)
    }
}

impl BufRead for Source {
    fn fill_buf(&mut self) -> io::Result<&[u8]> {
        self.ask()?;
        Ok(self.piece())
    }

    fn consume(&mut self, amount: usize) {
        self.taken = self.taken.saturating_add(amount);
    }
}

/// How often a slow writer lets other threads go on before a write.
const REST: u32 = 200;

/// Keeps the bytes that are written.
#[derive(Drop)]
pub struct Sink {
    pub signals: Arc<Signals>,
    pub taken: Vec<u8>,
    /// How many bytes it takes at a time.
    pub step: usize,
    /// After how many bytes it fails.
    pub room: usize,
    pub kind: ErrorKind,
    /// The flush that fails, counted from 1. At 0 none fails.
    pub bad_flush: usize,
    pub flushes: usize,
    pub writes: usize,
    /// How many lines of headers were taken: two of each frame. No content part has the end of one.
    pub lines: u64,
    /// Whether it lets other threads go on before each write.
    pub is_slow: bool,
    /// Whether each write waits until a request reached the handler.
    pub is_gated: bool,
}

impl Write for Sink {
    fn write(&mut self, buf: &[u8]) -> io::Result<usize> {
        self.writes = self.writes.saturating_add(1);
        self.signals.tell(Signal::Writes);
        if self.is_slow {
            rest();
        }
        if self.is_gated {
            self.signals.wait(Signal::Requests, 1)?;
        }
        let room = self.room.saturating_sub(self.taken.len());
        let count = buf.len().min(self.step).min(room);
        if count == 0 {
            self.room = usize::MAX;
            return match self.kind {
                ErrorKind::WriteZero => Ok(0),
                kind => Err(io::Error::from(kind)),
            };
        }
        let taken = &buf[..count];
        self.taken.extend_from_slice(taken)?;
        for byte in taken {
            if *byte == b'\r' {
                self.lines = self.lines.saturating_add(1);
            }
        }
        self.signals.taken(self.taken.len());
        Ok(count)
    }

    fn flush(&mut self) -> io::Result<()> {
        self.flushes = self.flushes.saturating_add(1);
        if self.flushes == self.bad_flush {
            return Err(io::Error::from(self.kind));
        }
        self.signals.flushed(self.taken.len(), self.lines / 2);
        Ok(())
    }
}

/// Lets other threads go on.
pub fn rest() {
    for _ in 0..REST {
        thread::yield_now();
    }
}
