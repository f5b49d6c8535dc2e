//! Why a link or a world stopped.
use std::alloc::AllocError;
use std::error::Error;
use std::fmt;

/// Why a link wrote or took nothing, or why there is no world.
///
/// It prints `out of memory` or `body not read back`.
#[derive(Clone, Copy, Debug, PartialEq, Eq)]
pub enum WorldFault {
    /// 1: an allocation failed.
    Memory,
    /// 2: a message is not read back from its frame, because it nests more than 127 levels.
    NotReadBack,
}

impl WorldFault {
    ghost use Rattle.std.specs.Prelude.{◌≡◌};
    ghost use Rattle.lsp_peers.specs.WorldFault.{world_fault_number};

    /// Returns the fault's number, 1 or 2.
    pub fn number(self) -> u8
        ensures { result ≡ world_fault_number self }
    {
        match self {
            WorldFault::Memory => 1,
            WorldFault::NotReadBack => 2,
        }
    }
}

impl fmt::Display for WorldFault {
    ghost use Rattle.lsp_peers.specs.WorldFault.{world_fault_text};

    ghost output = { world_fault_text };

    fn fmt<W: fmt::Write>(&self, f: &mut fmt::Formatter<W>) -> fmt::Result {
        match self {
            WorldFault::Memory => write!(f, "out of memory"),
            WorldFault::NotReadBack => write!(f, "body not read back"),
        }
    }
}

impl Error for WorldFault {}

impl From<AllocError> for WorldFault {
    ghost use Rattle.std.specs.Prelude.{◌≡◌};
    ghost use Rattle.lsp_peers.specs.declared.fault.WorldFault.TheVariants.{Memory};

    ghost from_gives = { λ _ fault. fault ≡ Memory };

    fn from(_: AllocError) -> WorldFault {
        WorldFault::Memory
    }
}
