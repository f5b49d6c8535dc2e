// A session that C keeps: a pointer without a type, and whether a session stands there.
ghost use Rattle.std.specs.Prelude.{◌≡◌, Option, None, Some, MatchOption};
ghost use Rattle.lsp_judge_c.specs.declared.session.Session.{Session as SessionValue};
ghost use Rattle.lsp_judge_c.specs.Held.{value_code};

use crate::loose::Loose;
use crate::session::Session;
use std::alloc::Global;
use std::marker::Model;

/// A handle: it keeps a session or is closed. C: `struct lsp_judge_session`, which is zeroed at first.
#[repr(C)]
pub struct LspJudgeSession {
    at: *mut u8,
    is_open: bool,
    pub ghost value: { Option SessionValue } by { value_code },
}

impl Model for LspJudgeSession {
    ghost use Rattle.lsp_judge_c.specs.Held.{held};

    ghost also_owns = { λ h. held h.is_open h.at h.value };
}

impl LspJudgeSession {
    /// Returns a closed handle.
    pub fn closed() -> LspJudgeSession
        ensures { result.value ≡ None }
    {
        LspJudgeSession {
            at: std::ptr::null_mut(),
            is_open: false,
        }
    }

    /// Returns a handle that keeps the session in a box.
    pub fn of_box(value: Box<Session>) -> LspJudgeSession
        ensures { result.value ≡ Some value.value }
    {
        LspJudgeSession::of(Loose::of(value))
    }

    /// Returns the session of an open handle in its box.
    pub fn into_box(self, alloc: Global) -> Option<Box<Session>>
        ensures { MatchOption result (self.value ≡ None) (λ b. self.value ≡ Some b.value) }
    {
        match self.into_loose(alloc) {
            Some(loose) => Some(loose.into_box()),
            None => None,
        }
    }

    /// Returns a handle that keeps the block of a box.
    fn of(value: Loose<Session, Global>) -> LspJudgeSession
        ensures { result.value ≡ Some value.value }
    {
        let Loose { at, alloc: _ } = value;
        LspJudgeSession {
            at: at as *mut u8,
            is_open: true,
        }
    }

    /// Returns the block of an open handle.
    fn into_loose(self, alloc: Global) -> Option<Loose<Session, Global>>
        ensures { MatchOption result (self.value ≡ None) (λ l. self.value ≡ Some l.value) }
    {
        let LspJudgeSession { at, is_open } = self;
        if is_open {
            Some(Loose {
                at: at as *mut Session,
                alloc,
            })
        } else {
            None
        }
    }
}
