// Whether a job is to end, and how many of its messages wait to be taken.
use std::alloc::{AllocError, Global};
use std::sync::atomic::{AtomicBool, AtomicU64, Ordering};
use std::sync::{Arc, Wait};
use std::time::Duration;

/// How many messages of a job may wait to be taken.
const MESSAGES: u64 = 16;

/// How many of these messages may be reports, which can be dropped. One place is kept for a message that can't be
/// dropped.
const REPORTS: u64 = 15;

/// This is added to the count when nobody waits for the job any longer.
const CANCELLED: u64 = 0x8000_0000;

/// Says whether a job is to end: nobody waits for its outcome any longer (LSP 3.17, "Cancellation Support"), or its
/// client cancelled the progress that it shows. The job's thread and the pool share it.
///
/// It also counts the messages of the job that were sent and not taken. The count goes up before one is sent and down
/// after one is taken, so there are never more of them than it says.
#[derive(Drop)]
pub(crate) struct CancellationToken {
    /// How many messages were sent and not taken, and whether nobody waits for the job any longer. A job whose message
    /// finds no room sleeps at this word.
    untaken: AtomicU64,
    /// 1 if the job is to end. A job that sleeps does so at this word.
    ends: AtomicU64,
    /// Whether all jobs of the pool are to end.
    all_end: Arc<AtomicBool, Global>,
}

impl CancellationToken {
    /// Makes the token of a job, in a pool with this flag. The error means that an allocation failed.
    pub fn new(
        alloc: Global,
        all_end: &Arc<AtomicBool, Global>,
    ) -> Result<Arc<CancellationToken, Global>, AllocError> {
        let token = CancellationToken {
            untaken: AtomicU64::new(0),
            ends: AtomicU64::new(0),
            all_end: Arc::try_clone(all_end)?,
        };
        match Arc::new(alloc, token) {
            Ok(token) => Ok(token),
            Err(_) => Err(AllocError),
        }
    }

    /// Returns whether the job is to end.
    pub fn is_cancelled(&self) -> bool {
        self.ends.load(Ordering::SeqCst) != 0 || self.all_end.load(Ordering::SeqCst)
    }

    /// Returns whether somebody waits for the job.
    pub fn is_wanted(&self) -> bool {
        self.untaken.load(Ordering::SeqCst) < CANCELLED
    }

    /// Records that nobody waits for the job any longer.
    pub fn cancel(&self) {
        // The job's thread sleeps at this word only where there is no room.
        if self.is_wanted() && self.untaken.fetch_add(CANCELLED, Ordering::SeqCst) >= MESSAGES {
            self.untaken.wake_all();
        }
        self.stop();
    }

    /// Makes the job end, while somebody still waits for it.
    pub fn stop(&self) {
        self.ends.store(1, Ordering::SeqCst);
        self.ends.wake_all();
    }

    /// Sleeps for this time, or until the job is to end.
    pub fn sleep<T: Wait>(&self, rt: &T, time: Duration) {
        if !self.is_cancelled() {
            self.ends.park_timeout(rt, 0, time);
        }
    }

    /// Counts one more report that is about to be sent. Returns false if there is no room for it, or nobody waits for
    /// the job.
    pub fn try_add(&self) -> bool {
        let has_room = self.untaken.load(Ordering::SeqCst) < REPORTS;
        if has_room {
            let _ = self.untaken.fetch_add(1, Ordering::SeqCst);
        }
        has_room
    }

    /// Counts one more message that is about to be sent, once there is room for it. Returns false if nobody waits for
    /// the job.
    pub fn add<T: Wait>(&self, rt: &T) -> bool {
        for _ in rt.forever() {
            let seen = self.untaken.load(Ordering::SeqCst);
            if seen >= CANCELLED {
                return false;
            }
            if seen < MESSAGES {
                let _ = self.untaken.fetch_add(1, Ordering::SeqCst);
                return true;
            }
            self.untaken.park(rt, seen as u32);
        }
        unreachable!()
    }

    /// Counts a message that was taken, or was not sent.
    pub fn remove(&self) {
        if self.untaken.fetch_sub(1, Ordering::SeqCst) >= MESSAGES {
            self.untaken.wake_all();
        }
    }
}
