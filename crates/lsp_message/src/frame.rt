//! The frames of the base protocol (LSP 3.17, "Base Protocol"): a header part, a blank line and a content part.
ghost use Rattle.std.specs.Prelude.{◌≡◌, ◌≢◌, ◌⊎◌, Ok, Err, [], ◌∷◌, ◌++◌};
ghost use Rattle.std.specs.IoError.{error_kind};
ghost use Rattle.std.specs.declared.io.ErrorKind.TheVariants.{Interrupted};
ghost use Rattle.lsp_message.specs.Faults.{read_fault_number, read_fault_kind, write_fault_number};

use crate::frame::byte_trace::ByteTrace;
use std::alloc::AllocError;
use std::error::Error;
use std::io::ErrorKind;
use std::{fmt, io};

pub(crate) mod byte_trace;
pub(crate) mod content;
pub(crate) mod header;
pub(crate) mod input;
pub(crate) mod limits;
pub(crate) mod scan;
pub(crate) mod write;

/// Why a message could not be read (LSP 3.17, "Base Protocol").
///
/// It prints `read fault N`, where N is its `number`. To show a person more, match on the variant, and print the kind
/// of `Input` with `{kind:?}`.
///
/// All faults except `Input` and `Memory` are facts about the bytes. The bytes after those at fault stay unread.
#[derive(Clone, Copy, Debug, PartialEq, Eq)]
pub enum ReadFault {
    /// 1: the reader failed in this call, with this kind. Or the call looked at the reader 2^64 - 1 times (kind
    /// `Other`).
    Input(ErrorKind),
    /// 2: a header line is not UTF-8.
    LineNotText,
    /// 3: a header line does not end in `\r\n`.
    LineEnd,
    /// 4: a header line has no `: `.
    NoSeparator,
    /// 5: the value of a `Content-Length` is not a number from 0 to 18446744073709551615.
    BadLength,
    /// 6: the header part has no `Content-Length`.
    NoLength,
    /// 7: the input ended inside the content part. Nothing is left to read.
    ShortBody,
    /// 8: the content part is not UTF-8.
    BodyNotText,
    /// 9: `serde_json` does not read the content part. It is not JSON, nests more than 127 levels, or has a number that
    /// is too large. A `Content-Length` that is too short often has this result.
    NoJson,
    /// 10: the content part is JSON, but neither a message nor a list.
    NoMessage,
    /// 11: an allocation failed. If it was the one for the content part, that part is unread.
    Memory,
    /// 12: the content part is longer than the limit. It is unread. That no memory was reserved for it is tested, not
    /// proved.
    TooLong,
    /// 13: the content part is a list. JSON-RPC 2.0 makes it a batch (section 6), and batches are not supported.
    Batch,
    /// 14: the header part is longer than the bound. One byte above the bound was taken, and none after it.
    HeaderTooLong,
}

impl ReadFault {
    /// Returns the fault's number, from 1 to 14.
    pub fn number(self) -> u8
        ensures { result ≡ read_fault_number self }
    {
        match self {
            ReadFault::Input(_) => 1,
            ReadFault::LineNotText => 2,
            ReadFault::LineEnd => 3,
            ReadFault::NoSeparator => 4,
            ReadFault::BadLength => 5,
            ReadFault::NoLength => 6,
            ReadFault::ShortBody => 7,
            ReadFault::BodyNotText => 8,
            ReadFault::NoJson => 9,
            ReadFault::NoMessage => 10,
            ReadFault::Memory => 11,
            ReadFault::TooLong => 12,
            ReadFault::Batch => 13,
            ReadFault::HeaderTooLong => 14,
        }
    }

    /// Returns the fault as an `ErrorKind`: the reader's own for `Input`, `UnexpectedEof` for `ShortBody`,
    /// `OutOfMemory` for `Memory`, and `InvalidData` for the others.
    pub fn kind(self) -> ErrorKind
        ensures { result ≡ read_fault_kind self }
    {
        match self {
            ReadFault::Input(kind) => kind,
            ReadFault::ShortBody => ErrorKind::UnexpectedEof,
            ReadFault::Memory => ErrorKind::OutOfMemory,
            ReadFault::LineNotText
            | ReadFault::LineEnd
            | ReadFault::NoSeparator
            | ReadFault::BadLength
            | ReadFault::NoLength
            | ReadFault::BodyNotText
            | ReadFault::NoJson
            | ReadFault::NoMessage
            | ReadFault::TooLong
            | ReadFault::Batch
            | ReadFault::HeaderTooLong => ErrorKind::InvalidData,
        }
    }
}

impl fmt::Display for ReadFault {
    ghost use Rattle.lsp_message.specs.Faults.{read_fault_text};

    ghost output = { read_fault_text };

    fn fmt<W: fmt::Write>(&self, f: &mut fmt::Formatter<W>) -> fmt::Result {
        write!(f, "read fault {}", self.number())
    }
}

impl Error for ReadFault {}

impl From<AllocError> for ReadFault {
    ghost use Rattle.lsp_message.specs.declared.frame.ReadFault.TheVariants.{Memory};

    ghost from_gives = { λ _ fault. fault ≡ Memory };

    fn from(_: AllocError) -> ReadFault {
        ReadFault::Memory
    }
}

/// Returns `again` after an interrupted read, so that the caller tries it again. Another failure of the reader is the
/// fault. Each is added to the trace.
pub(crate) fn unless_interrupted<T: Copy>(
    error: io::Error,
    again: T,
    taken: &mut ByteTrace,
) -> Result<T, ReadFault>
    ensures again { ((error_kind error ≡ Interrupted) × (result ≡ Ok again))
        ⊎ ((error_kind error ≢ Interrupted) × (result ≡ Err (ReadFault.Input (error_kind error)))) }
    ensures taken { taken.new.parts ≡ taken.old.parts }
    ensures failed { taken.new.failed ≡ taken.old.failed ++ error_kind error ∷ [] }
{
    taken.add_failure(&error.kind());
    match error.kind() {
        ErrorKind::Interrupted => Ok(again),
        kind => Err(ReadFault::Input(kind)),
    }
}

/// How many of some bytes are their first message (LSP 3.17, "Base Protocol"). Whether the content part is JSON is not
/// checked.
///
/// The function `front` returns it. It is in the module `scan`, since in Rattle its name and that of this type can't be
/// in one module.
#[derive(Clone, Copy, Debug, PartialEq, Eq)]
pub enum Front {
    /// A whole message has arrived. Its header part and its content part are the first bytes, this many.
    Whole(usize),
    /// A header line is bad, or the header part has no length. This is the number of the read fault, from 2 to 6.
    Fault(u8),
    /// More bytes have to arrive.
    More,
}

/// Why a message could not be written (LSP 3.17, "Base Protocol").
///
/// It prints `write fault N`, where N is its `number`. To show a person more, match on the variant, and print the kind
/// of `Output` with `{kind:?}`.
#[derive(Clone, Copy, Debug, PartialEq, Eq)]
pub enum WriteFault {
    /// 1: the writer failed in this call, with this kind, or took no byte (kind `WriteZero`). It got a prefix of the
    /// frame, or all of it if only the flush failed.
    Output(ErrorKind),
    /// 2: an allocation failed. The writer is as it was.
    Memory,
}

impl WriteFault {
    /// Returns the fault's number, 1 or 2.
    pub fn number(self) -> u8
        ensures { result ≡ write_fault_number self }
    {
        match self {
            WriteFault::Output(_) => 1,
            WriteFault::Memory => 2,
        }
    }
}

impl fmt::Display for WriteFault {
    ghost use Rattle.lsp_message.specs.Faults.{write_fault_text};

    ghost output = { write_fault_text };

    fn fmt<W: fmt::Write>(&self, f: &mut fmt::Formatter<W>) -> fmt::Result {
        write!(f, "write fault {}", self.number())
    }
}

impl Error for WriteFault {}

impl From<AllocError> for WriteFault {
    ghost use Rattle.lsp_message.specs.declared.frame.WriteFault.TheVariants.{Memory};

    ghost from_gives = { λ _ fault. fault ≡ Memory };

    fn from(_: AllocError) -> WriteFault {
        WriteFault::Memory
    }
}
