// What a session does at a content part that is no message.
ghost use Rattle.std.specs.Bool.{MatchBool};
ghost use Rattle.std.specs.Prelude.{◌≡◌};
ghost use Rattle.lsp_session.specs.SkipAndCount.{counted};

use lsp_message::ReadFault;

/// Decides, at each content part that is no message, whether the session reads on (LSP 3.17, "Base Protocol").
pub trait BadContentPolicy {
    ghost use Rattle.lsp_message.specs.declared.frame.ReadFault.{ReadFault as Fault};

    /// The policy may skip a content part with this fault, and change in this manner.
    ghost passes: { Self → Fault → Self → Type 0 };

    /// The policy may end the session at a content part with this fault.
    ghost ends: { Self → Fault → Type 0 };

    /// Returns whether to skip a content part with this fault and read on. False ends the session with
    /// `SessionFault::Read`, and leaves the policy as it is. The session calls it at once, before it wakes the service.
    fn skips(&mut self, fault: ReadFault) -> bool
        ensures { MatchBool result (passes self.old fault self.new) (ends self.old fault
            × (self.new ≡ self.old)) };
}

/// A policy that ends the session at the first content part which is no message. So nothing is ever skipped.
#[derive(Clone, Copy, Debug)]
pub struct EndOnBadContent;

impl BadContentPolicy for EndOnBadContent {
    ghost use Rattle.std.specs.Prelude.{⊤};

    ghost passes = { λ _ _ _. ⊥ };

    ghost ends = { λ _ _. ⊤ };

    fn skips(&mut self, _fault: ReadFault) -> bool {
        false
    }
}

/// A policy that skips each content part which is no message.
#[derive(Clone, Copy, Debug)]
pub struct SkipSilently;

impl BadContentPolicy for SkipSilently {
    ghost passes = { λ old _ new. new ≡ old };

    ghost ends = { λ _ _. ⊥ };

    fn skips(&mut self, _fault: ReadFault) -> bool {
        true
    }
}

/// A policy that skips each content part which is no message, and counts those of each kind. A count stays at 2^64 - 1.
#[derive(Clone, Copy, Debug, PartialEq, Eq)]
pub struct SkipAndCount {
    /// How many were not UTF-8.
    pub not_text: u64,
    /// How many were UTF-8 and no JSON that `serde_json` reads.
    pub no_json: u64,
    /// How many were JSON, but neither a message nor a list.
    pub no_message: u64,
    /// How many were lists.
    pub batches: u64,
}

impl SkipAndCount {
    ghost use Rattle.lsp_session.specs.SkipAndCount.{no_faults};

    /// Makes counts that are all 0.
    pub fn new() -> SkipAndCount
        ensures { result ≡ no_faults }
    {
        SkipAndCount {
            not_text: 0,
            no_json: 0,
            no_message: 0,
            batches: 0,
        }
    }
}

impl BadContentPolicy for SkipAndCount {
    ghost passes = { λ old fault new. new ≡ counted old fault };

    ghost ends = { λ _ _. ⊥ };

    fn skips(&mut self, fault: ReadFault) -> bool {
        match fault {
            ReadFault::BodyNotText => self.not_text = self.not_text.saturating_add(1),
            ReadFault::NoJson => self.no_json = self.no_json.saturating_add(1),
            ReadFault::NoMessage => self.no_message = self.no_message.saturating_add(1),
            ReadFault::Batch => self.batches = self.batches.saturating_add(1),
            _ => {}
        }
        true
    }
}
