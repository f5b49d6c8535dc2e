// The frames of one direction (LSP 3.17, "Base Protocol"), which arrive in pieces.
use lsp_proxy::{self as proxy, Contents};
use lsp_watch::LoggedMessage;
use std::alloc::{AllocError, Global};
use std::io::{self, BufRead};
use std::mem;

/// What comes next.
#[derive(Debug, Drop)]
pub enum Next {
    Message(LoggedMessage),
    /// The next piece tells.
    More,
    /// Nothing: the bytes end after a frame.
    End,
    /// Nothing: the bytes end within a frame.
    Cut,
    /// This is wrong with the frame.
    Bad(&'static str),
}

/// Frames, and the next message.
#[derive(Drop)]
pub struct Frames {
    alloc: Global,
    contents: Contents,
    pub next: Next,
}

impl Frames {
    pub fn new(alloc: Global) -> Frames {
        Frames {
            alloc,
            contents: Contents::new(alloc),
            next: Next::More,
        }
    }

    /// Takes the next message, if there is one, and its place: how many bytes stand before its frame.
    pub fn take(&mut self) -> Option<(u64, LoggedMessage)> {
        match mem::replace(&mut self.next, Next::More) {
            Next::Message(message) => {
                let place = self.contents.place();
                self.contents.pass();
                Some((place, message))
            }
            other => {
                self.next = other;
                None
            }
        }
    }

    /// Looks for the next message in the pieces that arrived.
    pub fn look(&mut self) -> Result<(), AllocError> {
        self.next = match self.contents.next() {
            proxy::Next::Content(content) => {
                Next::Message(LoggedMessage::from_content(self.alloc, content)?)
            }
            proxy::Next::More => Next::More,
            proxy::Next::Bad(why) => Next::Bad(why),
        };
        Ok(())
    }

    /// Takes one more piece.
    pub fn push(&mut self, piece: &[u8]) -> Result<(), AllocError> {
        self.contents.push(piece)
    }

    /// The place of the next frame: how many bytes stand before it.
    pub fn place(&self) -> u64 {
        self.contents.place()
    }

    /// No piece comes any more.
    pub fn end(&mut self) {
        if let Next::More = &self.next {
            self.next = if self.contents.is_empty() {
                Next::End
            } else {
                Next::Cut
            };
        }
    }

    /// Reads pieces until the next message is known.
    pub fn look_on<R: BufRead>(&mut self, reader: &mut R) -> io::Result<()> {
        for _ in 0..u64::MAX {
            self.look()?;
            let Next::More = &self.next else {
                return Ok(());
            };
            let piece = reader.fill_buf()?;
            let count = piece.len();
            self.push(piece)?;
            reader.consume(count);
            if count == 0 {
                self.end();
                return Ok(());
            }
        }
        Ok(())
    }
}
