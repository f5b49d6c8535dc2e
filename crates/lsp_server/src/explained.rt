//! Faults as a person reads them.
ghost use Rattle.std.specs.Prelude.{◌≡◌};
ghost use Rattle.lsp_server.specs.Explained.{read_meaning as meaning_of_read, protocol_meaning as meaning_of_protocol};

use crate::io_fault::IoFault;
use lsp_message::{ReadFault, WriteFault};
use lsp_session::{ProtocolError, SessionFault};
use lsp_threads::PumpFault;
use std::error::Error;
use std::fmt;

/// A fault as a person reads it: it prints the fault's own text, and then what that means.
///
/// A fault itself prints a short text that never changes, such as `read fault 3`. `Explained` of it prints
/// `read fault 3: a header line does not end in \r\n`. Print it wherever a person is to find out what is wrong, such as
/// on standard error, and pass it up in place of the fault:
///
/// <!-- from crates/example_diagnostics/src/main.rt -->
/// ```rust
/// serve(&mut transport, &mut application).map_err(Explained)
/// ```
///
/// These faults are explained: `ReadFault`, `WriteFault`, `ProtocolError`, `SessionFault`, `PumpFault` and `IoFault`. A
/// text that says enough, such as `out of memory`, stays as it is. If the reason is the system's, such as `connection
/// refused`, it stands at the end. The contract says nothing about the text then.
#[derive(Debug, Drop)]
pub struct Explained<T>(pub T);

impl fmt::Display for Explained<ReadFault> {
    ghost use Rattle.lsp_server.specs.Explained.{read_explained};

    ghost output = { λ e. read_explained e.0 };

    fn fmt<W: fmt::Write>(&self, f: &mut fmt::Formatter<W>) -> fmt::Result {
        let fault = self.0;
        let meaning = read_meaning(fault);
        match fault {
            ReadFault::Input(kind) => write!(f, "{fault}: {meaning}: {kind}"),
            ReadFault::LineNotText
            | ReadFault::LineEnd
            | ReadFault::NoSeparator
            | ReadFault::BadLength
            | ReadFault::NoLength
            | ReadFault::ShortBody
            | ReadFault::BodyNotText
            | ReadFault::NoJson
            | ReadFault::NoMessage
            | ReadFault::Memory
            | ReadFault::TooLong
            | ReadFault::Batch
            | ReadFault::HeaderTooLong => write!(f, "{fault}: {meaning}"),
        }
    }
}

/// Returns what a read fault means. For `Input`, the kind of the system's error follows.
fn read_meaning(fault: ReadFault) -> &'static str
    ensures { result.now ≡ meaning_of_read fault }
{
    match fault {
        ReadFault::Input(_) => "the read failed",
        ReadFault::LineNotText => "a header line is not UTF-8",
        ReadFault::LineEnd => "a header line does not end in \\r\\n",
        ReadFault::NoSeparator => "a header line has no `: `",
        ReadFault::BadLength => "the value of `Content-Length` is no number",
        ReadFault::NoLength => "the header part has no `Content-Length`",
        ReadFault::ShortBody => "the input ended inside a content part",
        ReadFault::BodyNotText => "the content part is not UTF-8",
        ReadFault::NoJson =>
            "the content part is not JSON that can be read; is `Content-Length` too small?",
        ReadFault::NoMessage => "the content part is JSON, but no message",
        ReadFault::Memory => "out of memory",
        ReadFault::TooLong => "the content part is above the limit",
        ReadFault::Batch => "the content part is a batch: LSP has none",
        ReadFault::HeaderTooLong => "the header part is above the limit",
    }
}

impl fmt::Display for Explained<WriteFault> {
    ghost use Rattle.lsp_server.specs.Explained.{write_explained};

    ghost output = { λ e. write_explained e.0 };

    fn fmt<W: fmt::Write>(&self, f: &mut fmt::Formatter<W>) -> fmt::Result {
        let fault = self.0;
        match fault {
            WriteFault::Output(kind) => write!(f, "{fault}: the write failed: {kind}"),
            WriteFault::Memory => write!(f, "{fault}: out of memory"),
        }
    }
}

/// Returns what follows the text of an error of the lifecycle.
fn protocol_meaning(error: &ProtocolError) -> &'static str
    ensures { result.now ≡ meaning_of_protocol error.now }
{
    if error.channel_is_disconnected() {
        ": the messages ended too early"
    } else {
        ""
    }
}

impl fmt::Display for Explained<ProtocolError> {
    ghost use Rattle.lsp_server.specs.Explained.{protocol_explained};

    ghost output = { λ e. protocol_explained e.0 };

    fn fmt<W: fmt::Write>(&self, f: &mut fmt::Formatter<W>) -> fmt::Result {
        write!(f, "{}{}", self.0, protocol_meaning(&self.0))
    }
}

impl fmt::Display for Explained<SessionFault> {
    ghost use Rattle.lsp_server.specs.Explained.{session_explained};

    ghost output = { λ e. session_explained e.0 };

    fn fmt<W: fmt::Write>(&self, f: &mut fmt::Formatter<W>) -> fmt::Result {
        match &self.0 {
            SessionFault::Protocol(error) => write!(f, "{error}{}", protocol_meaning(error)),
            SessionFault::Read(fault) => write!(f, "{}", Explained(*fault)),
            SessionFault::Write(fault) => write!(f, "{}", Explained(*fault)),
            SessionFault::Memory => write!(f, "out of memory"),
        }
    }
}

impl fmt::Display for Explained<PumpFault> {
    ghost use Rattle.lsp_server.specs.Explained.{pump_explained};

    ghost output = { λ e. pump_explained e.0 };

    fn fmt<W: fmt::Write>(&self, f: &mut fmt::Formatter<W>) -> fmt::Result {
        match self.0 {
            PumpFault::Read(fault) => write!(f, "{}", Explained(fault)),
            PumpFault::Write(fault) => write!(f, "{}", Explained(fault)),
            PumpFault::Start(fault) => write!(f, "{fault}"),
        }
    }
}

impl fmt::Display for Explained<IoFault> {
    ghost use Rattle.lsp_server.specs.Explained.{io_explained};

    ghost output = { λ e. io_explained e.0 };

    fn fmt<W: fmt::Write>(&self, f: &mut fmt::Formatter<W>) -> fmt::Result {
        match self.0 {
            IoFault::Read(fault) => write!(f, "{}", Explained(fault)),
            IoFault::Write(fault) => write!(f, "{}", Explained(fault)),
            IoFault::Closed => write!(f, "channel closed: the receiver of messages was dropped"),
            IoFault::Start => write!(f, "thread not started"),
            IoFault::Socket(kind) => write!(f, "socket fault: {kind}"),
            IoFault::Memory => write!(f, "out of memory"),
        }
    }
}

impl Error for Explained<ReadFault> {}

impl Error for Explained<WriteFault> {}

impl Error for Explained<ProtocolError> {}

impl Error for Explained<SessionFault> {}

impl Error for Explained<PumpFault> {}

impl Error for Explained<IoFault> {}
