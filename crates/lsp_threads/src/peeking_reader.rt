//! A reader that knows how many of the bytes it showed are left.
ghost use Rattle.std.specs.Io.KnownBytes.{Keeps};

use lsp_message::{Front, front};
use std::io;
use std::io::{BufRead, Read};

/// Shows the bytes of a reader, and remembers how many of those that it showed last were not taken.
#[derive(Drop)]
pub struct PeekingReader<R> {
    inner: R,
    /// How many bytes the reader shows without reading more.
    left: usize,
    /// A fault of looking for these bytes, which the next read returns.
    fault: Option<io::Error>,
}

impl<R: BufRead> PeekingReader<R> {
    ghost use Rattle.std.specs.Prelude.{◌≡◌, [], IfSome, OnOk};

    /// Makes a reader that has shown no bytes yet.
    pub fn new(inner: R) -> PeekingReader<R>
        ensures { result.inner ≡ inner }
    {
        PeekingReader {
            inner,
            left: 0,
            fault: None,
        }
    }

    /// Returns whether the next message can be read from bytes that were shown, so that no read waits for it.
    pub fn shows_frame(&mut self) -> bool
        ensures { Keeps (R.remaining self.old.inner) (R.remaining self.new.inner) }
    {
        if self.left == 0 {
            return false;
        }
        match self.inner.fill_buf() {
            Ok(shown) => is_whole(shown),
            Err(fault) => {
                self.left = 0;
                self.fault = Some(fault);
                false
            }
        }
    }

    /// Finds out how many bytes the reader shows. At its end there are none.
    fn look(&mut self) -> io::Result<()>
        ensures kept { Keeps (R.remaining self.old.inner) (R.remaining self.new.inner) }
        ensures end { OnOk result (self.new.left ≡ 0
            → IfSome (R.remaining self.old.inner) (λ text. text ≡ [])) }
    {
        if let Some(fault) = self.fault.take() {
            return Err(fault);
        }
        self.left = self.inner.fill_buf()?.len();
        Ok(())
    }
}

/// Returns whether a whole frame is at the front of the bytes.
fn is_whole(shown: &[u8]) -> bool {
    matches!(front(shown), Front::Whole(_))
}

impl<R: BufRead> Read for PeekingReader<R> {
    ghost remaining = { λ a. R.remaining a.inner };

    fn read(&mut self, buf: &mut [u8]) -> io::Result<usize> {
        self.left = 0;
        if let Some(fault) = self.fault.take() {
            return Err(fault);
        }
        self.inner.read(buf)
    }
}

impl<R: BufRead> BufRead for PeekingReader<R> {
    ghost consumable_len = { λ a. R.consumable_len a.inner };

    fn fill_buf(&mut self) -> io::Result<&[u8]> {
        if self.left == 0 {
            self.look()?;
            if self.left == 0 {
                return Ok(b"");
            }
        }
        self.inner.fill_buf()
    }

    fn consume(&mut self, amount: usize) {
        self.left = self.left.saturating_sub(amount);
        self.inner.consume(amount);
    }
}
