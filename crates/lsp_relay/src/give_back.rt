//! Messages that were written, which go back to a thread that drops them. Two threads that allocate and free in one
//! arena of the C library wait for its lock, so the thread that allocated a message should drop it.
ghost use Rattle.std.specs.Prelude.{◌≡◌, IfSome};

use crossbeam_channel::{Receiver, Sender, bounded};
use std::alloc::{AllocError, Global};
use std::sync::Wait;

/// Makes the two ends of a channel for messages that go back, with room for `room` messages. The error means that an
/// allocation failed.
pub fn way_back<M: Drop>(
    alloc: Global,
    room: usize,
) -> Result<(GiveBack<M>, GivenBack<M>), AllocError> {
    let (sender, receiver) = bounded(alloc, room)?;
    Ok((GiveBack { sender }, GivenBack { receiver, room }))
}

/// The end of the thread that writes.
#[derive(Drop)]
pub struct GiveBack<M: Drop> {
    sender: Sender<M>,
}

impl<M: Drop> GiveBack<M> {
    /// Passes a message back, and doesn't wait. If there is no room, or nobody takes it, it returns the message.
    pub fn give<R: Wait>(&self, rt: &R, message: M) -> Option<M>
        ensures { IfSome result (λ refused. refused ≡ message) }
    {
        match self.sender.try_send(rt, message) {
            Ok(()) => None,
            Err(error) => Some(error.into_inner()),
        }
    }

    /// Passes a message back, or drops it if there is no room.
    pub fn give_or_drop<R: Wait>(&self, rt: &R, message: M) {
        let _ = self.give(rt, message);
    }

    /// Returns whether no message waits to be dropped.
    pub fn is_empty(&self) -> bool {
        self.sender.is_empty()
    }
}

/// The end of the thread that drops.
#[derive(Drop)]
pub struct GivenBack<M: Drop> {
    receiver: Receiver<M>,
    room: usize,
}

impl<M: Drop> GivenBack<M> {
    /// Drops the messages that came back, at most as many as there is room for. It doesn't wait.
    pub fn drop_waiting<R: Wait>(&self, rt: &R) {
        for _ in 0..self.room {
            match self.receiver.try_recv(rt) {
                Ok(message) => drop(message),
                Err(_) => return,
            }
        }
    }
}
