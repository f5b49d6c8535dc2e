// Why the program ends before the table does.
use std::alloc::AllocError;
use std::io;
use std::io::ErrorKind;

/// Why a row has no answer.
#[derive(Clone, Copy)]
pub enum Stop {
    /// An allocation failed, in a call or in the program.
    Memory,
    /// The table was not read, or a line was not printed.
    Stream,
    /// A line of the table says nothing that is known.
    Table,
}

impl Stop {
    /// What is said on standard error.
    pub fn text(self) -> &'static str {
        match self {
            Stop::Memory => "no memory for a row",
            Stop::Stream => "a stream failed",
            Stop::Table => "no such line in a table",
        }
    }
}

impl From<AllocError> for Stop {
    fn from(_: AllocError) -> Stop {
        Stop::Memory
    }
}

impl From<io::Error> for Stop {
    fn from(error: io::Error) -> Stop {
        let kind = error.kind();
        drop(error);
        match kind {
            ErrorKind::OutOfMemory => Stop::Memory,
            _ => Stop::Stream,
        }
    }
}
