// The log of a recording.
use crate::line::write_line;
use crate::record::Until;
use anyhow::{Result, bail};
use crossbeam_channel::Receiver;
use lsp_proxy::{Contents, Heard, Next};
use lsp_watch::{Direction, LoggedMessage, Rule, Watch};
use std::alloc::{AllocError, Global};
use std::io::Write;
use std::sync::Wait;

/// Writes a line for each content part that passes. If one breaks a rule, standard error says so, with the line of the message that it
/// goes against.
pub fn write_lines<R: Wait + AllocGlobal + Eprint, W: Write>(
    rt: &R,
    heard: &Receiver<Heard>,
    log: &mut W,
    until: Until,
) -> Result<()> {
    let mut lines = Lines::new(rt.alloc());
    let written = lines.write_all(rt, heard, log, until);
    drop(lines);
    written
}

/// One direction of a recording.
#[derive(Drop)]
struct Side {
    contents: Contents,
    /// Whether it has bytes that are no frame. Nothing of them is written.
    is_broken: bool,
}

/// What is kept of a recording.
#[derive(Drop)]
struct Lines {
    watch: Watch,
    /// How many lines were written.
    number: u64,
    client: Side,
    server: Side,
}

impl Side {
    fn new(alloc: Global) -> Side {
        Side {
            contents: Contents::new(alloc),
            is_broken: false,
        }
    }
}

impl Lines {
    fn new(alloc: Global) -> Lines {
        Lines {
            watch: Watch::new(alloc),
            number: 0,
            client: Side::new(alloc),
            server: Side::new(alloc),
        }
    }

    fn write_all<R: Wait + AllocGlobal + Eprint, W: Write>(
        &mut self,
        rt: &R,
        heard: &Receiver<Heard>,
        log: &mut W,
        until: Until,
    ) -> Result<()> {
        for one in heard.iter(rt) {
            let is_over = is_end(&one, until);
            let written = self.hear(rt, &one, log);
            drop(one);
            written?;
            if is_over {
                break;
            }
        }
        if self.client.is_broken || self.server.is_broken {
            bail!("not all that passed is recorded");
        }
        Ok(())
    }

    fn hear<R: AllocGlobal + Eprint, W: Write>(
        &mut self,
        rt: &R,
        heard: &Heard,
        log: &mut W,
    ) -> Result<()> {
        match heard {
            Heard::Piece(direction, _) | Heard::End(direction) if self.side(*direction).is_broken =>
                Ok(()),
            Heard::Piece(direction, bytes) => {
                self.side(*direction).contents.push(bytes.as_slice())?;
                self.write_contents(rt, *direction, log)
            }
            Heard::End(direction) => {
                if self.side(*direction).contents.is_empty() {
                    return Ok(());
                }
                self.break_off(rt, *direction, "the bytes end in a frame")
            }
            Heard::Lost => Err(AllocError.into()),
        }
    }

    /// Writes the content parts that have come whole.
    fn write_contents<R: AllocGlobal + Eprint, W: Write>(
        &mut self,
        rt: &R,
        direction: Direction,
        log: &mut W,
    ) -> Result<()> {
        for _ in 0..u64::MAX {
            if !self.write_content(rt, direction, log)? {
                return Ok(());
            }
        }
        Ok(())
    }

    /// Writes the next content part, and gives whether there was one.
    fn write_content<R: AllocGlobal + Eprint, W: Write>(
        &mut self,
        rt: &R,
        direction: Direction,
        log: &mut W,
    ) -> Result<bool> {
        let side = self.side(direction);
        let message = match side.contents.next() {
            Next::Content(content) => logged(rt.alloc(), direction, content, log)?,
            Next::More => return Ok(false),
            Next::Bad(why) => {
                self.break_off(rt, direction, why)?;
                return Ok(false);
            }
        };
        side.contents.pass();
        let told = self.tell_breaches(rt, direction, &message);
        drop(message);
        told?;
        Ok(true)
    }

    /// Shows a message to the watch, and reports the rules that it breaks.
    fn tell_breaches<R: Eprint>(
        &mut self,
        rt: &R,
        direction: Direction,
        message: &LoggedMessage,
    ) -> Result<()> {
        self.number = self.number.saturating_add(1);
        let number = self.number;
        let found = self.watch.observe(number, direction, message)?;
        for breach in found.iter() {
            eprintln!(rt; "{number}: {direction} {breach}")?;
        }
        Ok(())
    }

    /// Reports why nothing more of a direction is written.
    fn break_off<R: Eprint>(&mut self, rt: &R, direction: Direction, why: &str) -> Result<()> {
        self.side(direction).is_broken = true;
        Ok(eprintln!(rt; "{direction} {why}: the rest is not recorded")?)
    }

    fn side(&mut self, direction: Direction) -> &mut Side {
        match direction {
            Direction::ToServer => &mut self.client,
            Direction::ToClient => &mut self.server,
        }
    }
}

/// Whether the recording is over with this.
fn is_end(heard: &Heard, until: Until) -> bool {
    match until {
        Until::BothClose => false,
        Until::ServerCloses => matches!(heard, Heard::End(Direction::ToClient)),
    }
}

/// Writes the line of a content part, and gives its message.
fn logged<W: Write>(
    alloc: Global,
    direction: Direction,
    content: &[u8],
    log: &mut W,
) -> Result<LoggedMessage> {
    let message = LoggedMessage::from_content(alloc, content)?;
    match write_line(log, direction, content, is_json(&message)) {
        Ok(()) => Ok(message),
        Err(error) => {
            drop(message);
            Err(error.into())
        }
    }
}

/// Whether the content of a message is JSON, or may be.
fn is_json(message: &LoggedMessage) -> bool {
    !message.faults.iter().any(|it| matches!(it, Rule::NotJson))
}
