// What all rows do at content parts that are no messages.
use lsp_message::ReadFault;
use lsp_session::{BadContentPolicy, SkipAndCount};

/// Reads on after content parts that are no messages and counts them, or ends the session at the first.
#[derive(Drop)]
pub struct Listening {
    reads_on: bool,
    pub counts: SkipAndCount,
}

impl Listening {
    /// Makes one that counted nothing.
    pub fn new(reads_on: bool) -> Listening {
        Listening {
            reads_on,
            counts: SkipAndCount::new(),
        }
    }
}

impl BadContentPolicy for Listening {
    ghost use Rattle.std.specs.Prelude.{⊤};

    ghost passes = { λ _ _ _. ⊤ };

    ghost ends = { λ _ _. ⊤ };

    fn skips(&mut self, fault: ReadFault) -> bool {
        if self.reads_on {
            self.counts.skips(fault);
        }
        self.reads_on
    }
}
