// The outcome of a judgement.
ghost use Rattle.std.specs.Prelude.{◌≡◌, ◌||◌, ◌&&◌, not, if◌then◌else◌};

/// The outcome of the judgement of a session, or of several.
#[derive(Clone, Copy, Debug)]
pub struct Outcome {
    /// Whether a rule is broken.
    pub is_broken: bool,
    /// Whether there was a message to judge.
    pub is_judged: bool,
    /// Whether all was read, up to the end.
    pub is_whole: bool,
}

impl Outcome {
    /// Of nothing so far.
    pub fn new() -> Outcome {
        Outcome {
            is_broken: false,
            is_judged: true,
            is_whole: true,
        }
    }

    /// Of a file that was not judged.
    pub fn unjudged() -> Outcome {
        Outcome {
            is_judged: false,
            ..Outcome::new()
        }
    }

    /// Of a file that could not be read on.
    pub fn unread() -> Outcome {
        Outcome {
            is_whole: false,
            ..Outcome::new()
        }
    }

    /// The outcome of both.
    pub fn and(self, other: Outcome) -> Outcome
        ensures broken { result.is_broken ≡ (self.is_broken || other.is_broken) }
        ensures judged { result.is_judged ≡ (self.is_judged && other.is_judged) }
        ensures whole { result.is_whole ≡ (self.is_whole && other.is_whole) }
    {
        Outcome {
            is_broken: self.is_broken || other.is_broken,
            is_judged: self.is_judged && other.is_judged,
            is_whole: self.is_whole && other.is_whole,
        }
    }

    /// The exit status: 1 if a rule is broken, otherwise 2 if something was not judged at all, otherwise 3 if something was not read to its
    /// end, otherwise 0.
    pub fn status(self) -> u8
        ensures { result ≡ (if self.is_broken then 1 else if not self.is_judged then 2 else if not self.is_whole then 3 else 0) }
    {
        if self.is_broken {
            1
        } else if !self.is_judged {
            2
        } else if !self.is_whole {
            3
        } else {
            0
        }
    }
}
