//! Messages that were written, on their way to the thread that drops them. Two threads that allocate and free in one
//! arena of the C library wait for its lock. So a message that came from the other side, or that has parts which did,
//! goes back to the reading thread, which allocated it, or to a thread for dropping. Messages that this side made go to
//! their maker if it asks for them. Otherwise the writing thread drops them.
use crate::spent::ToMaker;
use crossbeam_channel::{Receiver, Sender, bounded};
use lsp_relay::give_back::{GiveBack, GivenBack, way_back};
use std::alloc::{AllocError, Global};
use std::sync::atomic::{AtomicUsize, Ordering};
use std::sync::{Arc, Wait};

/// How many messages that were written wait for the thread that reads.
const WRITTEN_ROOM: usize = 16;

/// How many large messages wait for the thread that drops.
const LARGE_ROOM: usize = 1;

/// The longest frame in bytes of a small message. The reading thread receives large messages one at a time, since it
/// may wait long for its peer and keeps them meanwhile.
const SMALL_FRAME: usize = 8192;

/// Where the writing thread sends messages that it no longer needs.
#[derive(Drop)]
pub(crate) struct Written<M: Drop> {
    back: GiveBack<M>,
    to_maker: ToMaker<M>,
    to_dropper: Sender<M>,
    last_read: Arc<AtomicUsize>,
}

impl<M: Drop> Written<M> {
    /// Lets a message go whose frame has `frame_length` bytes, before the frame is written. If this side made it, its
    /// maker may wait for the peer's next message meanwhile, and allocates nothing then.
    pub(crate) fn let_go<R: Wait>(&self, rt: &R, message: M, frame_length: usize) {
        let is_large = frame_length > SMALL_FRAME;
        if self.is_made_here(frame_length) {
            self.to_maker.let_go(rt, message, is_large);
        } else if is_large {
            self.let_large_go(rt, message);
        } else {
            self.back.give_or_drop(rt, message);
        }
    }

    /// Has another thread drop a large message: the one that reads, if it has none to drop.
    fn let_large_go<R: Wait>(&self, rt: &R, message: M) {
        let refused = if self.back.is_empty() {
            self.back.give(rt, message)
        } else {
            Some(message)
        };
        if let Some(message) = refused {
            let _ = self.to_dropper.send(rt, message);
        }
    }

    /// Returns whether this side made most of a message whose frame has `frame_length` bytes: the message that was read
    /// last is much shorter.
    fn is_made_here(&self, frame_length: usize) -> bool {
        frame_length / 2 > self.last_read.load(Ordering::Relaxed)
    }
}

/// Where messages that were written come back to the thread that reads.
#[derive(Drop)]
pub(crate) struct Returned<M: Drop> {
    back: GivenBack<M>,
    last_read: Arc<AtomicUsize>,
}

impl<M: Drop> Returned<M> {
    /// Records how many bytes the content part has that is being read.
    pub(crate) fn note_read(&self, length: usize) {
        self.last_read.store(length, Ordering::Relaxed);
    }

    /// Drops the messages that came back. It doesn't wait.
    pub(crate) fn drop_waiting<R: Wait>(&self, rt: &R) {
        self.back.drop_waiting(rt);
    }
}

/// Makes the channels for messages that are written, and their ends: that of the reading thread, and that of the thread
/// that drops large messages. Messages that this side made go to `to_maker`.
pub(crate) fn channels_of_written<M: Drop>(
    alloc: Global,
    to_maker: ToMaker<M>,
) -> Result<(Written<M>, Returned<M>, Receiver<M>), AllocError> {
    let (to_reader, back) = way_back(alloc, WRITTEN_ROOM)?;
    let (to_dropper, large) = bounded(alloc, LARGE_ROOM)?;
    let last_read = Arc::new(alloc, AtomicUsize::new(0))?;
    let written = Written {
        back: to_reader,
        to_maker,
        to_dropper,
        last_read: last_read.clone()?,
    };
    Ok((written, Returned { back, last_read }, large))
}

/// Drops large messages as they arrive, until no more can follow.
pub(crate) fn drop_all<R: Wait + Drop, M: Drop>(rt: R, large: Receiver<M>) {
    for message in large.iter(&rt) {
        drop(message);
    }
}
