//! Where the writes of a thread began, as clauses see it.
ghost use Rattle.std.specs.Prelude.{◌≡◌, [], ◌∷◌, ◌++◌};

use lsp_message::ByteTrace;
use std::marker::Model;
use std::snapshot::Snapshot;

/// Where the last write began, and those before it, while it is added.
#[derive(Drop)]
#[cycle(writes)]
struct LastWrite {
    before: Option<Snapshot<LastWrite>>,
    taken: ByteTrace,
    given: ByteTrace,
}

impl Model for LastWrite {
    ghost use Rattle.std.specs.Prelude.{◌≡◌, List, ℕ, length};
    ghost use Rattle.lsp_session.specs.AccountItems.{with_last};
    ghost use Rattle.lsp_threads.specs.Writes.{Begun};

    ghost Value = { List Begun };

    ghost view = { λ last. with_last last.before
        (record { taken = last.taken.parts; given = last.given.parts }) };

    ghost size = { length };

    ghost use Rattle.std.proofs.Common.{arith, length-append};

    ghost size_decreases = { λ last h. Prim.grind (arith, length-append) };
}

/// A trace of where each write of a thread began: what had been taken from a reader by then, and what had been given to
/// the writer. Only clauses see it: when a program runs, it is one byte.
#[derive(Drop)]
pub struct WriteTrace {
    last: Option<Snapshot<LastWrite>>,
}

impl Model for WriteTrace {
    ghost use Rattle.std.specs.Prelude.{List};
    ghost use Rattle.lsp_session.specs.AccountItems.{items};
    ghost use Rattle.lsp_threads.specs.Writes.{Begun};

    ghost Value = { List Begun };

    ghost view = { λ trace. items trace.last };
}

impl WriteTrace {
    /// Makes an empty trace.
    pub fn new() -> Self
        ensures { result ≡ [] }
    {
        WriteTrace { last: None }
    }

    /// Notes that a write begins, when these bytes have been taken and given.
    pub(crate) fn begin(&mut self, taken: &ByteTrace, given: &ByteTrace)
        ensures { self.new ≡ self.old
            ++ record { taken = taken.now.parts; given = given.now.parts } ∷ [] }
    {
        let last = LastWrite {
            before: self.last.take(),
            taken: taken.so_far(),
            given: given.so_far(),
        };
        self.last = Some(Snapshot::of(&last));
    }
}
