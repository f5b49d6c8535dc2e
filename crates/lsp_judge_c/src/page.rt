// A report in a buffer of the caller's.
ghost use Rattle.std.specs.Prelude.{◌≡◌, ◌≢◌, ◌≤◌, ◌<◌, ℕ, length, OnOk};

use std::io::{self, ErrorKind, Write};
use std::marker::{Brand, PhantomData};

/// The size of a buffer.
pub trait Room {
    ghost size: { ℕ };
}

impl Room for Brand {
    ghost size = { 0 };
}

/// A writer into a buffer. It keeps the first lines that fit whole, and counts the bytes of all.
#[derive(Drop)]
pub struct Page<'a, R: Room> {
    room: &'a mut [u8],
    /// How many bytes were kept: the first ones.
    kept: usize,
    /// How many of these bytes are whole lines.
    lines: usize,
    /// How many bytes there were.
    needed: u64,
    of: PhantomData<R>,
    ghost room_is: { length room.now ≡ R.size },
    ghost fits: { kept ≤ R.size },
    ghost begins: { lines ≤ kept },
    ghost counted: { kept ≤ needed },
    ghost missing: { kept ≢ needed → R.size < needed },
}

/// How much of a report was written.
#[derive(Clone, Copy, Debug)]
pub struct Extent {
    /// The bytes that were written. If not all fit, they are whole lines.
    pub written: u64,
    /// The bytes of the whole report.
    pub needed: u64,
}

impl<'a, R: Room> Page<'a, R> {
    /// Returns an empty page over this room.
    pub fn new(room: &'a mut [u8]) -> Page<'a, R>
        requires { length room.old ≡ R.size }
    {
        Page {
            room,
            kept: 0,
            lines: 0,
            needed: 0,
            of: PhantomData,
        }
    }

    /// Returns how much was written.
    pub fn extent(&self) -> Extent
        ensures within { result.written ≤ R.size }
        ensures begins { result.written ≤ result.needed }
        ensures whole { result.needed ≤ R.size → result.written ≡ result.needed }
    {
        let kept = self.kept as u64;
        let needed = self.needed;
        let written = if kept == needed {
            needed
        } else {
            self.lines as u64
        };
        Extent { written, needed }
    }
}

impl<R: Room> Write for Page<'_, R> {
    /// Keeps the bytes if they fit. The error means that the report has 2^64 bytes or more.
    fn write(&mut self, buf: &[u8]) -> io::Result<usize> {
        let count = buf.len();
        let kept = self.kept;
        let Some(needed) = self.needed.checked_add(count as u64) else {
            return Err(ErrorKind::FileTooLarge.into());
        };
        if kept as u64 != self.needed || self.room.len() - kept < count {
            self.needed = needed;
            return Ok(count);
        }
        self.room[kept..kept + count].copy_from_slice(buf);
        self.needed = needed;
        self.kept = kept + count;
        if buf.ends_with(b"\n") {
            self.lines = kept + count;
        }
        Ok(count)
    }

    fn flush(&mut self) -> io::Result<()> {
        Ok(())
    }
}
