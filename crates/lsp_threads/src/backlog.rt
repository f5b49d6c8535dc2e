//! How many bytes may wait between two threads: bytes that were read and not taken, or that were sent and not written.
//! This bounds memory, and changes no answer. It also says whether a reading thread goes on after a content part at
//! which it waits.

use crossbeam_channel::{Receiver, Sender, bounded};
use std::alloc::{AllocError, Global};
use std::sync::atomic::{AtomicU64, Ordering};
use std::sync::{Arc, Wait};

/// Makes the two ends of an account of the waiting bytes, which should be at most `bound`. The error means that an
/// allocation failed.
pub fn bounded_backlog(alloc: Global, bound: u64) -> Result<(Backlog, Takes), AllocError> {
    let (ring, bell) = bounded(alloc, 1)?;
    let (verdict, verdicts) = bounded(alloc, 1)?;
    let Ok(taken) = Arc::new(alloc, AtomicU64::new(0)) else {
        return Err(AllocError);
    };
    let theirs = Arc::try_clone(&taken)?;
    let backlog = Backlog {
        taken,
        bell,
        verdicts,
        bound,
        sent: 0,
    };
    let takes = Takes {
        taken: theirs,
        ring,
        verdict,
    };
    Ok((backlog, takes))
}

/// The end of the thread that sends.
#[derive(Drop)]
pub struct Backlog {
    /// How many bytes were taken in all.
    taken: Arc<AtomicU64, Global>,
    /// Rings after bytes were taken.
    bell: Receiver<()>,
    /// Has a message once the other end goes on after a content part at which this end waits.
    verdicts: Receiver<()>,
    bound: u64,
    /// How many bytes were sent in all.
    sent: u64,
}

impl Backlog {
    /// Counts a parcel of `weight` bytes before it is sent. It waits while the parcel and the waiting bytes together
    /// are above the bound. So a parcel that is itself above the bound passes alone. If the other end is gone, it never
    /// waits.
    pub fn add<R: Wait>(&mut self, rt: &R, weight: u64) {
        for _ in rt.forever() {
            if self.has_room(weight) || self.bell.recv(rt).is_err() {
                break;
            }
        }
        self.sent = self.sent.wrapping_add(weight);
    }

    fn has_room(&self, weight: u64) -> bool {
        let waiting = self.sent.wrapping_sub(self.taken.load(Ordering::SeqCst));
        waiting == 0 || weight <= self.bound.saturating_sub(waiting)
    }

    /// Waits until the other end goes on after the last content part. Returns false if the other end is gone.
    pub fn may_go_on<R: Wait>(&self, rt: &R) -> bool {
        self.verdicts.recv(rt).is_ok()
    }
}

/// The end of the thread that takes or writes.
#[derive(Drop)]
pub struct Takes {
    taken: Arc<AtomicU64, Global>,
    ring: Sender<()>,
    verdict: Sender<()>,
}

impl Takes {
    /// Reports that `weight` bytes no longer wait. It doesn't wait: if the bell rings already, the other end will look
    /// again.
    pub fn took<R: Wait>(&self, rt: &R, weight: u64) {
        if weight == 0 {
            return;
        }
        self.taken.fetch_add(weight, Ordering::SeqCst);
        let _ = self.ring.try_send(rt, ());
    }

    /// Goes on after a content part at which the other end waits. It doesn't wait, since the other end waits for one
    /// such signal at each.
    pub fn go_on<R: Wait>(&self, rt: &R) {
        let _ = self.verdict.try_send(rt, ());
    }
}
