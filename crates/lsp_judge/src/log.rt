// What stands in a log, one thing after another.
use crate::format::{Format, ONE_DIRECTION};
use crate::reader::{Found, LogReader, Taken};
use anyhow::{Error, Result};
use lsp_watch::{LoggedMessage, Rule, Verdict};
use std::alloc::Global;
use std::io::BufRead;

/// The report about a last line that has no line end and is no message.
const CUT: &str = "the file is cut here";

const UNREAD: &str = "a message stands here, and can't be read";

const NO_DIRECTION: &str = "neither `-> ` nor `<- ` begins the line";

/// What comes next in a log.
#[derive(Clone, Copy)]
pub enum Step {
    /// A message.
    Found(Found),
    /// This line is skipped, for this reason.
    Skipped(u64, &'static str),
    /// The last line, which is cut.
    Cut(u64, &'static str),
    /// Nothing.
    End,
}

/// A log that is read.
#[derive(Drop)]
pub struct Log {
    log: LogReader,
    line: Vec<u8>,
    /// How many lines were read.
    number: u64,
    /// What the last line gives, if something else was reported first.
    pending: Option<Taken>,
    /// Whether the last one has an end.
    is_ended: bool,
    is_over: bool,
}

impl Log {
    /// Makes an empty log. It does not allocate.
    pub fn new(alloc: Global) -> Log {
        Log {
            log: LogReader::new(alloc),
            line: Vec::new(alloc),
            number: 0,
            pending: None,
            is_ended: true,
            is_over: false,
        }
    }

    /// The body of the last message that came.
    pub fn body(&self) -> &[u8] {
        self.log.body()
    }

    /// The name of its server. Logs of one server have none.
    pub fn name(&self) -> &[u8] {
        self.log.name()
    }

    /// Whether there were messages of which only the method and the id are known.
    pub fn is_short(&self) -> bool {
        self.log.is_short()
    }

    /// How sure it is that a member in the log has another type than LSP lists.
    pub fn shows_types(&self) -> Option<Verdict> {
        self.log.format()?.shows_types()
    }

    /// Whether the last message is to be skipped: it can't be read, and an editor printed it in its own notation, or its line is cut.
    pub fn skips(&self, message: &LoggedMessage) -> bool {
        let is_verbatim = self.log.format().is_none_or(Format::is_verbatim);
        is_unread(message) && (self.is_cut() || !is_verbatim)
    }

    /// Whether the line with the last message is cut, as far as that is known.
    fn is_cut(&self) -> bool {
        !self.is_ended || self.is_over
    }

    /// Reads lines up to the next thing.
    pub fn next<B: BufRead>(&mut self, reader: &mut B) -> Result<Step> {
        for _ in 0..u64::MAX {
            if self.is_over {
                return Ok(Step::End);
            }
            let taken = match self.pending.take() {
                Some(taken) => taken,
                None => self.next_line(reader)?,
            };
            if let Some(line) = self.log.take_unknown() {
                self.pending = Some(taken);
                return Ok(Step::Skipped(line, NO_DIRECTION));
            }
            if let Some(step) = self.step_of(taken)? {
                return Ok(step);
            }
        }
        Ok(Step::End)
    }

    fn next_line<B: BufRead>(&mut self, reader: &mut B) -> Result<Taken> {
        self.line.clear();
        if reader.read_until(b'\n', &mut self.line)? == 0 {
            self.is_over = true;
            return Ok(self.log.end()?);
        }
        self.number = self.number.saturating_add(1);
        self.is_ended = self.line.ends_with(b"\n");
        Ok(self.log.take(self.number, self.line.as_slice())?)
    }

    fn step_of(&self, taken: Taken) -> Result<Option<Step>> {
        match taken {
            Taken::Nothing => Ok(None),
            Taken::Found(found) => Ok(Some(Step::Found(found))),
            Taken::Unread(line) | Taken::NoDirection(line) if self.is_cut() => {
                Ok(Some(Step::Cut(line, CUT)))
            }
            Taken::Unread(line) => Ok(Some(Step::Skipped(line, UNREAD))),
            Taken::NoDirection(line) => Ok(Some(Step::Skipped(line, NO_DIRECTION))),
            Taken::Frames => Err(Error::msg(ONE_DIRECTION)),
        }
    }

    /// Why the message that came last, which can't be read, is skipped.
    pub fn unread(&self, line: u64) -> Step {
        if self.is_cut() {
            Step::Cut(line, CUT)
        } else {
            Step::Skipped(line, UNREAD)
        }
    }
}

/// Whether the content of a message could not be read.
fn is_unread(message: &LoggedMessage) -> bool {
    message.faults.iter().any(|it| matches!(it, Rule::NotUtf8 | Rule::NotJson | Rule::Unreadable))
}
