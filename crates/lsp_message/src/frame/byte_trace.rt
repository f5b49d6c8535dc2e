// The bytes that passed, as clauses see them.
ghost use Rattle.std.specs.Prelude.{◌≡◌, ℕ, List, [], ◌∷◌, ◌++◌};
ghost use Rattle.std.specs.Borrow.{ftrue};
ghost use Rattle.std.specs.declared.io.ErrorKind.{ErrorKind as Kind};

use std::io::ErrorKind;
use std::marker::{Model, PhantomData};

/// A trace of the bytes that were taken from a reader or given to a writer, part after part, and of its failures. Only
/// clauses see it. Nothing of it is left when a program runs. An empty part that was taken says that the reader showed
/// its end. An empty part that was given says that the writer was flushed.
///
/// The failures are the kinds of the errors with which the reader or the writer failed, in order. This includes calls
/// that were interrupted and tried again. A writer that took no byte of those that it was offered has failed with the
/// kind `WriteZero`.
#[derive(Drop)]
pub struct ByteTrace {
    marker: PhantomData<u8>,
    pub ghost parts: { List (List ℕ) },
    pub ghost failed: { List Kind },
}

impl Model for ByteTrace {
    ghost also_owns = { λ _. ftrue };
}

// It owns nothing.
unsafe impl Send for ByteTrace {}

impl ByteTrace {
    /// Makes an empty trace.
    pub fn new() -> ByteTrace
        ensures parts { result.parts ≡ [] }
        ensures failed { result.failed ≡ [] }
    {
        ByteTrace {
            marker: PhantomData,
        }
    }

    /// Copies the trace as it is now.
    pub fn so_far(&self) -> ByteTrace
        ensures parts { result.parts ≡ self.now.parts }
        ensures failed { result.failed ≡ self.now.failed }
    {
        ByteTrace {
            marker: PhantomData,
        }
    }

    /// Adds a part at the end.
    pub(crate) fn add(&mut self, _part: &[u8])
        ensures parts { self.new.parts ≡ self.old.parts ++ _part.now ∷ [] }
        ensures failed { self.new.failed ≡ self.old.failed }
    {}

    /// Adds a failure at the end.
    pub(crate) fn add_failure(&mut self, _kind: &ErrorKind)
        ensures parts { self.new.parts ≡ self.old.parts }
        ensures failed { self.new.failed ≡ self.old.failed ++ _kind.now ∷ [] }
    {}
}
