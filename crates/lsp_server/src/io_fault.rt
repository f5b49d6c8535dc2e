//! The faults of a connection and of its threads.
ghost use Rattle.std.specs.Prelude.{◌≡◌};

use lsp_message::{ReadFault, WriteFault};
use std::alloc::AllocError;
use std::error::Error;
use std::fmt;
use std::io::ErrorKind;

/// Why a connection was not made, or why its threads did not end as they should.
///
/// It prints one of these texts:
///
/// | Fault | Text |
/// |---|---|
/// | `Read`, `Write` | that of the fault inside, such as `read fault 4` |
/// | `Closed` | `channel closed` |
/// | `Start` | `thread not started` |
/// | `Socket` | `socket fault` |
/// | `Memory` | `out of memory` |
///
/// To show a person more, match on the variant, and print the kind of `Socket` with `{kind:?}`.
#[derive(Clone, Copy, Debug, PartialEq, Eq)]
pub enum IoFault {
    /// 1: a message was not read.
    Read(ReadFault),
    /// 2: a message was not written.
    Write(WriteFault),
    /// 3: a message was read, but the connection's receiver is gone.
    Closed,
    /// 4: a thread was not started.
    Start,
    /// 5: the socket failed, with this kind: the address is bad, the port is in use, nobody listens, or an option can't
    /// be set.
    Socket(ErrorKind),
    /// 6: an allocation of a channel or a buffer failed.
    Memory,
}

impl IoFault {
    ghost use Rattle.lsp_server.specs.IoFault.{io_fault_number};

    /// Returns the fault's number, from 1 to 6.
    pub fn number(self) -> u8
        ensures { result ≡ io_fault_number self }
    {
        match self {
            IoFault::Read(_) => 1,
            IoFault::Write(_) => 2,
            IoFault::Closed => 3,
            IoFault::Start => 4,
            IoFault::Socket(_) => 5,
            IoFault::Memory => 6,
        }
    }
}

impl fmt::Display for IoFault {
    ghost use Rattle.lsp_server.specs.IoFault.{io_fault_text};

    ghost output = { io_fault_text };

    fn fmt<W: fmt::Write>(&self, f: &mut fmt::Formatter<W>) -> fmt::Result {
        match self {
            IoFault::Read(fault) => write!(f, "{fault}"),
            IoFault::Write(fault) => write!(f, "{fault}"),
            IoFault::Closed => write!(f, "channel closed"),
            IoFault::Start => write!(f, "thread not started"),
            IoFault::Socket(_) => write!(f, "socket fault"),
            IoFault::Memory => write!(f, "out of memory"),
        }
    }
}

impl Error for IoFault {}

impl From<AllocError> for IoFault {
    ghost use Rattle.lsp_server.specs.declared.io_fault.IoFault.TheVariants.{Memory};

    ghost from_gives = { λ _ fault. fault ≡ Memory };

    fn from(_: AllocError) -> IoFault {
        IoFault::Memory
    }
}
