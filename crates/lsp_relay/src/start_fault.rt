//! Why threads were not started.
use std::error::Error;
use std::fmt;

/// Why the threads of a call were not started. Nothing was read or written then.
///
/// It prints `out of memory` or `thread not started`.
#[derive(Clone, Copy, Debug, PartialEq, Eq)]
pub enum StartFault {
    /// 1: an allocation failed.
    Memory,
    /// 2: a thread was not started, because an allocation failed or for another reason.
    Thread,
}

impl fmt::Display for StartFault {
    ghost use Rattle.lsp_relay.specs.StartFault.{start_fault_text};

    ghost output = { start_fault_text };

    fn fmt<W: fmt::Write>(&self, f: &mut fmt::Formatter<W>) -> fmt::Result {
        match self {
            StartFault::Memory => write!(f, "out of memory"),
            StartFault::Thread => write!(f, "thread not started"),
        }
    }
}

impl Error for StartFault {}
