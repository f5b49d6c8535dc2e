// Which log it is, by its first lines.
use crate::bytes::{cut, trim_end};
use crate::reader::is_of_helix;
use crate::{emacs, trace};
use lsp_watch::Verdict;
use memchr::memmem;
use std::fmt;

/// Whose lines they are.
#[derive(Clone, Copy, Debug, PartialEq, Eq)]
pub enum Format {
    /// A recorder's: each line has a message after `-> ` or `<- `.
    Recorder,
    /// VS Code's client, which traces each message as an object in one line.
    TraceJson,
    /// VS Code's client and others that write its text: a line that says what passed, and below it the params or the result.
    Trace,
    /// Neovim's `lsp.log`, of the level `debug` or `trace`.
    Neovim,
    /// Emacs' `jsonrpc`.
    Emacs,
    /// Helix, started with `-v`.
    Helix,
    /// Frames of one direction.
    Frames,
}

/// What is reported of a file that has no message.
pub const KNOWN: &str =
    "no message was found in it. These files are known: recordings of example_recorder (`-> {..}`), traces of VS Code as text and as \
JSON (\"trace.server\": \"verbose\"; so do coc.nvim, lsp-mode and `gopls -rpc.trace`), Neovim's lsp.log (vim.lsp.set_log_level(\"debug\")), the events \
of Emacs' eglot, the log of Helix (hx -v), and frames (--to-server, --to-client)";

/// What is reported of a file that begins with a frame.
pub const ONE_DIRECTION: &str =
    "it has frames of one direction: name those of both, by --to-server FRAMES and --to-client FRAMES";

impl Format {
    /// The log that this line belongs to, if it has a mark of that log.
    pub fn of_line(line: &[u8], is_first: bool) -> Option<Format> {
        if is_recorded(line, is_first) {
            Some(Format::Recorder)
        } else if is_first && is_header(line) {
            Some(Format::Frames)
        } else if memmem::find(line, b"\"isLSPMessage\"").is_some() {
            Some(Format::TraceJson)
        } else if trace::is_head(line) {
            Some(Format::Trace)
        } else if is_of_helix(line) {
            Some(Format::Helix)
        } else if cut(line, b"\t\"rpc.send\"\t").is_some()
            || cut(line, b"\t\"rpc.receive\"\t").is_some()
        {
            Some(Format::Neovim)
        } else if emacs::is_head(line) {
            Some(Format::Emacs)
        } else {
            None
        }
    }

    /// Whether a body stands there as its side sent it. Otherwise the editor printed it in its own notation, and if it can't be read, that
    /// is no fault of that side.
    pub fn is_verbatim(self) -> bool {
        match self {
            Format::Recorder | Format::TraceJson | Format::Helix | Format::Frames => true,
            Format::Trace | Format::Neovim | Format::Emacs => false,
        }
    }

    /// How sure it is that a member in the log has another type than LSP lists. `None` means that the log does not show the types: Neovim
    /// and Emacs print an empty list as an empty object. Some clients write their text after they have read the message.
    pub fn shows_types(self) -> Option<Verdict> {
        match self {
            Format::Recorder | Format::TraceJson | Format::Helix | Format::Frames => {
                Some(Verdict::Breach)
            }
            Format::Trace => Some(Verdict::CannotTell),
            Format::Neovim | Format::Emacs => None,
        }
    }
}

impl fmt::Display for Format {
    fn fmt<W: fmt::Write>(&self, f: &mut fmt::Formatter<W>) -> fmt::Result {
        f.write_str(match self {
            Format::Recorder => "recording",
            Format::TraceJson => "trace in JSON",
            Format::Trace => "trace as text",
            Format::Neovim => "log of Neovim",
            Format::Emacs => "events of Emacs",
            Format::Helix => "log of Helix",
            Format::Frames => "frames",
        })
    }
}

/// Returns whether a line is one of a recording. After a first line that is none, a line is one if an object stands after its mark.
fn is_recorded(line: &[u8], is_first: bool) -> bool {
    let begins = line.starts_with(b"-> ") || line.starts_with(b"<- ");
    begins && (is_first || matches!(line.get(3), Some(b'{')))
}

/// Whether a header part may begin with this line (LSP 3.17, "Header Part").
fn is_header(line: &[u8]) -> bool {
    match cut(line, b":") {
        Some((name, _)) => {
            let name = trim_end(name);
            name.eq_ignore_ascii_case(b"Content-Length")
                || name.eq_ignore_ascii_case(b"Content-Type")
        }
        None => false,
    }
}
