// The messages of a log, line by line. Its first lines show which log it is.
use crate::bytes::{cut, is_blank, trim_end, trim_start};
use crate::emacs::Emacs;
use crate::format::Format;
use crate::lua::read_table;
use crate::message_text::MessageText;
use crate::time::time_in;
use crate::trace::Trace;
use crate::traced::traced;
use lsp_watch::Direction;
use std::alloc::{AllocError, Global};

/// How many lines before the first message of a recording are reported.
const MOST_UNKNOWN: usize = 1000;

/// A message that stands in a log.
#[derive(Clone, Copy, Debug)]
pub struct Found {
    pub direction: Direction,
    /// The line of it, from 1 on.
    pub line: u64,
    /// When it passed, in milliseconds from some time on.
    pub time: Option<u64>,
    /// How many milliseconds its sender took for it, if the log says so of a reply.
    pub took: Option<u64>,
}

/// What a line gives.
#[derive(Clone, Copy, Debug)]
pub enum Taken {
    Nothing,
    Found(Found),
    /// A message stands at this line, and can't be read.
    Unread(u64),
    /// This line has no mark of a direction, and needs one.
    NoDirection(u64),
    /// The file has frames.
    Frames,
}

/// The reader of a log.
#[derive(Drop)]
pub struct LogReader {
    alloc: Global,
    format: Option<Format>,
    /// Whether only blank lines came.
    is_first: bool,
    /// The lines that are not blank, of those that came before the log was known: the first ones. So many were returned.
    unknown: Vec<u64>,
    returned: usize,
    body: Vec<u8>,
    /// The server of the message, in a log of several.
    name: Vec<u8>,
    trace: Trace,
    emacs: Emacs,
    text: Vec<u8>,
    table: MessageText,
}

impl LogReader {
    /// Makes a reader that has seen no byte of a log. It does not allocate.
    pub fn new(alloc: Global) -> LogReader {
        LogReader {
            alloc,
            format: None,
            is_first: true,
            unknown: Vec::new(alloc),
            returned: 0,
            body: Vec::new(alloc),
            name: Vec::new(alloc),
            trace: Trace::new(alloc),
            emacs: Emacs::new(alloc),
            text: Vec::new(alloc),
            table: MessageText::new(alloc),
        }
    }

    /// The log that it is, once a line has shown that.
    pub fn format(&self) -> Option<Format> {
        self.format
    }

    /// The body of the last message.
    pub fn body(&self) -> &[u8] {
        self.body.as_slice()
    }

    /// The name of its server. Logs of one server have none.
    pub fn name(&self) -> &[u8] {
        self.name.as_slice()
    }

    /// Whether there were messages of which only the method and the id are known.
    pub fn is_short(&self) -> bool {
        self.emacs.is_short
    }

    /// Takes the next line with its end, and its number.
    pub fn take(&mut self, number: u64, line: &[u8]) -> Result<Taken, AllocError> {
        let line = match number {
            1 => line.strip_prefix(b"\xef\xbb\xbf").unwrap_or(line),
            _ => line,
        };
        if self.format.is_none() {
            self.format = Format::of_line(line, self.is_first);
            let is_empty = line.iter().all(|it| is_blank(*it));
            if self.format.is_none() && !is_empty && self.unknown.len() < MOST_UNKNOWN {
                self.unknown.push(number)?;
            }
            self.is_first = self.is_first && is_empty;
        }
        match self.format {
            None => Ok(Taken::Nothing),
            Some(Format::Frames) => Ok(Taken::Frames),
            Some(Format::Recorder) => self.recorded(number, line),
            Some(Format::TraceJson) => traced(self.alloc, number, line, &mut self.body),
            Some(Format::Trace) => Ok(found_or_nothing(
                self.trace.take(number, line, &mut self.body)?,
            )),
            Some(Format::Emacs) => self.emacs.take(number, line, &mut self.body),
            Some(Format::Neovim) => self.neovim(number, line),
            Some(Format::Helix) => self.helix(number, line),
        }
    }

    /// Takes out the next line that stands before the first message of a recording, and is none of a recording. It is not known before
    /// a later line shows that the file is one.
    pub fn take_unknown(&mut self) -> Option<u64> {
        let Some(Format::Recorder) = self.format else {
            return None;
        };
        let line = self.unknown.get(self.returned).copied()?;
        self.returned = self.returned.saturating_add(1);
        Some(line)
    }

    /// The message that is read at the end of the log, if there is one.
    pub fn end(&mut self) -> Result<Taken, AllocError> {
        match self.format {
            Some(Format::Trace) => Ok(found_or_nothing(self.trace.end(&mut self.body)?)),
            Some(Format::Emacs) => self.emacs.end(&mut self.body),
            _ => Ok(Taken::Nothing),
        }
    }

    /// `-> ` or `<- `, and the body.
    fn recorded(&mut self, number: u64, line: &[u8]) -> Result<Taken, AllocError> {
        let line = trim_end(line);
        let (direction, body) = match line {
            [b'-', b'>', b' ', body @ ..] => (Direction::ToServer, body),
            [b'<', b'-', b' ', body @ ..] => (Direction::ToClient, body),
            [] => return Ok(Taken::Nothing),
            _ => return Ok(Taken::NoDirection(number)),
        };
        self.put(found_at(direction, number, None), body)
    }

    /// `"rpc.send"` or `"rpc.receive"`, and a table as Lua has it.
    fn neovim(&mut self, number: u64, line: &[u8]) -> Result<Taken, AllocError> {
        let (direction, table) = match cut(line, b"\t\"rpc.send\"\t") {
            Some((_, table)) => (Direction::ToServer, table),
            None => match cut(line, b"\t\"rpc.receive\"\t") {
                Some((_, table)) => (Direction::ToClient, table),
                None => return Ok(Taken::Nothing),
            },
        };
        self.table.clear();
        if !read_table(table, &mut self.text, &mut self.table)? {
            return Ok(Taken::Unread(number));
        }
        let table = self.table.as_slice();
        self.body.clear();
        self.body.extend_from_slice(table)?;
        Ok(Taken::Found(found_at(direction, number, None)))
    }

    /// `TIME helix_lsp::transport [INFO] NAME -> {..}`.
    fn helix(&mut self, number: u64, line: &[u8]) -> Result<Taken, AllocError> {
        let Some((time, rest)) = cut(line, b"helix_lsp::transport [") else {
            return Ok(Taken::Nothing);
        };
        let Some((direction, name, body)) = helix_parts(rest) else {
            return Ok(Taken::Nothing);
        };
        // Helix writes each result a second time, alone, after the reply that had it.
        if direction == Direction::ToClient && cut(body, b"\"jsonrpc\"").is_none() {
            return Ok(Taken::Nothing);
        }
        self.name.clear();
        self.name.extend_from_slice(name)?;
        self.put(found_at(direction, number, time_in(time)), body)
    }

    fn put(&mut self, found: Found, body: &[u8]) -> Result<Taken, AllocError> {
        self.body.clear();
        self.body.extend_from_slice(body)?;
        Ok(Taken::Found(found))
    }
}

/// Makes the place of a message: its direction, the line where it begins, and its time of day in milliseconds.
pub fn found_at(direction: Direction, line: u64, time: Option<u64>) -> Found {
    Found {
        direction,
        line,
        time,
        took: None,
    }
}

fn found_or_nothing(found: Option<Found>) -> Taken {
    match found {
        Some(found) => Taken::Found(found),
        None => Taken::Nothing,
    }
}

/// Whether a line of Helix has a message.
pub fn is_of_helix(line: &[u8]) -> bool {
    match cut(line, b"helix_lsp::transport [") {
        Some((_, rest)) => helix_parts(rest).is_some(),
        None => false,
    }
}

/// The direction, the server's name and the body, after `helix_lsp::transport [`. A line of the server's standard error has none, nor has an error
/// that Helix prints.
fn helix_parts(rest: &[u8]) -> Option<(Direction, &[u8], &[u8])> {
    let (level, rest) = cut(rest, b"] ")?;
    if level == b"ERROR".as_slice() {
        return None;
    }
    let (head, body) = match memchr::memchr(b'{', rest) {
        Some(at) => rest.split_at_checked(at)?,
        None => (rest, rest.get(..0)?),
    };
    let head = trim_end(head);
    let (direction, name) = match head.strip_suffix(b"->") {
        Some(name) => (Direction::ToServer, name),
        None => (Direction::ToClient, cut(head, b"<-")?.0),
    };
    Some((direction, trim_end(name), trim_end(trim_start(body))))
}
