// The reports of a thread that passes bytes on.
use crate::passing::Hears;
use crossbeam_channel::Sender;
use lsp_watch::Direction;
use std::alloc::AllocError;
use std::sync::Wait;

/// A report about one direction.
#[derive(Drop)]
pub enum Heard {
    /// This was read, and is written next.
    Piece(Direction, Vec<u8>),
    /// The side that sends in this direction has closed.
    End(Direction),
    /// There was no memory to report bytes that passed.
    Lost,
}

/// Reports the bytes that pass in one direction. If nobody receives the reports any longer, the bytes still pass.
#[derive(Drop)]
pub struct Teller<R> {
    rt: R,
    direction: Direction,
    sender: Sender<Heard>,
}

impl<R: Wait + AllocGlobal> Teller<R> {
    /// Makes one that sends its reports about this direction into the channel.
    pub fn new(rt: R, direction: Direction, sender: Sender<Heard>) -> Teller<R> {
        Teller {
            rt,
            direction,
            sender,
        }
    }

    /// Returns the direction that it reports about.
    pub fn direction(&self) -> Direction {
        self.direction
    }

    /// Reports that no more bytes pass.
    pub fn end(&self) {
        drop(self.sender.send(&self.rt, Heard::End(self.direction)));
    }

    fn heard(&self, piece: &[u8]) -> Result<Heard, AllocError> {
        let mut bytes = Vec::new(self.rt.alloc());
        bytes.extend_from_slice(piece)?;
        Ok(Heard::Piece(self.direction, bytes))
    }
}

impl<R: Wait + AllocGlobal> Hears for Teller<R> {
    fn hear(&mut self, piece: &[u8]) {
        let heard = self.heard(piece).unwrap_or(Heard::Lost);
        drop(self.sender.send(&self.rt, heard));
    }
}
