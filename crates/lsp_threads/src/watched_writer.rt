//! A writer that says whether a write has failed.
ghost use Rattle.std.specs.Prelude.{◌≡◌};

use std::alloc::{AllocError, Global};
use std::io;
use std::io::Write;
use std::sync::Arc;
use std::sync::atomic::{AtomicU64, Ordering};

/// Writes to the writer inside, and remembers a fault.
#[derive(Drop)]
pub struct WatchedWriter<W> {
    pub inner: W,
    faults: Arc<AtomicU64, Global>,
}

/// Says whether a write has failed.
#[derive(Drop)]
pub struct WriteFaults {
    faults: Arc<AtomicU64, Global>,
}

/// Makes two owners of this state. The error means that an allocation failed.
pub fn write_faults(alloc: Global) -> Result<(WriteFaults, WriteFaults), AllocError> {
    let Ok(faults) = Arc::new(alloc, AtomicU64::new(0)) else {
        return Err(AllocError);
    };
    let theirs = Arc::try_clone(&faults)?;
    Ok((WriteFaults { faults }, WriteFaults { faults: theirs }))
}

impl WriteFaults {
    /// Returns whether a write has failed.
    pub fn any(&self) -> bool {
        self.faults.load(Ordering::SeqCst) != 0
    }

    /// Returns the writer, which records its faults here.
    pub fn watch<W>(self, inner: W) -> WatchedWriter<W>
        ensures { result.inner ≡ inner }
    {
        let WriteFaults { faults } = self;
        WatchedWriter { inner, faults }
    }
}

impl<W: Write> Write for WatchedWriter<W> {
    ghost contents = { λ watched. W.contents watched.inner };

    fn write(&mut self, buf: &[u8]) -> io::Result<usize> {
        let written = self.inner.write(buf);
        if written.is_err() {
            self.faults.store(1, Ordering::SeqCst);
        }
        written
    }

    fn flush(&mut self) -> io::Result<()> {
        let flushed = self.inner.flush();
        if flushed.is_err() {
            self.faults.store(1, Ordering::SeqCst);
        }
        flushed
    }
}
