// What came of a row, and what ends the program.
use std::alloc::{AllocError, AllocFailed, Global};
use std::io::ErrorKind;
use std::num::ParseIntError;
use std::{fmt, io};

/// The result of a call that is tried.
#[derive(Drop)]
pub struct Attempt {
    /// The text of its answer.
    pub said: String,
    /// Whether it answered that an allocation failed, or that a thread was not started. The text then says which call,
    /// and what it left.
    pub is_refused: bool,
}

impl Attempt {
    /// Makes the result of a call with this answer.
    pub fn came(said: String) -> Attempt {
        Attempt {
            said,
            is_refused: false,
        }
    }

    /// Makes the result of a call that answered that an allocation failed, or that a thread was not started.
    pub fn refused(said: String) -> Attempt {
        Attempt {
            said,
            is_refused: true,
        }
    }
}

/// Why the program ends before its table does.
#[derive(Clone, Copy)]
pub enum Stop {
    /// There was no memory for the table, for a reader, for a writer or for a line that is printed.
    Memory,
    /// The table was not read, or a line was not printed.
    Stream,
    /// A line of the table says nothing that is known.
    Table,
    /// A call that is made again was refused again.
    Again,
    /// A call did not do what it promises.
    Broken(&'static str),
}

impl Stop {
    /// Returns the exit status: 2 if a call did not do what it promises, otherwise 1.
    pub fn status(self) -> u8 {
        match self {
            Stop::Broken(_) => 2,
            Stop::Memory | Stop::Stream | Stop::Table | Stop::Again => 1,
        }
    }
}

impl fmt::Display for Stop {
    fn fmt<W: fmt::Write>(&self, f: &mut fmt::Formatter<W>) -> fmt::Result {
        let text = match self {
            Stop::Memory => "no memory for a row",
            Stop::Stream => "a stream failed",
            Stop::Table => "no such line in a table",
            Stop::Again => "refused again",
            Stop::Broken(why) => {
                f.write_str("BROKEN: ")?;
                why
            }
        };
        f.write_str(text)
    }
}

impl From<AllocError> for Stop {
    fn from(_: AllocError) -> Stop {
        Stop::Memory
    }
}

impl<T: Drop> From<AllocFailed<T>> for Stop {
    fn from(_: AllocFailed<T>) -> Stop {
        Stop::Memory
    }
}

impl From<ParseIntError> for Stop {
    fn from(_: ParseIntError) -> Stop {
        Stop::Table
    }
}

/// The texts of a table are JSON, so only memory can be missing.
impl From<serde_json::Error> for Stop {
    fn from(_: serde_json::Error) -> Stop {
        Stop::Memory
    }
}

impl From<io::Error> for Stop {
    fn from(error: io::Error) -> Stop {
        match error.kind() {
            ErrorKind::OutOfMemory => Stop::Memory,
            ErrorKind::TimedOut => Stop::Broken("a wait was given up"),
            _ => Stop::Stream,
        }
    }
}

/// Prints a line below a row: the result of a call or, after `refused: `, which call is made again.
pub fn print_below<R: Print>(rt: &R, alloc: Global, what: &str, came: &str) -> Result<(), Stop> {
    let line = ["  ", what, came].join(alloc, "")?;
    let printed = rt.println(line.as_str());
    drop(line);
    Ok(printed?)
}
