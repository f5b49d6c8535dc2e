// The wake-ups from the thread that works to the one that waits.
use crossbeam_channel::Sender;
use lsp_relay::RelayWaker;
use lsp_threads::{Contents, ContentsPlan};
use std::alloc::AllocError;
use std::sync::Wait;

/// Notifies whoever waits for jobs that a job has a message. A worker is started for any such type, since the check
/// finds that it may own one only if it need not look into its type.
pub(crate) trait Notifier: Drop {
    /// Makes a notifier for another thread. The error means that an allocation failed.
    fn another(&mut self) -> Result<Self, AllocError>;

    /// Reports that a job has a message, after that message was sent. It waits for room for a wake-up.
    fn notify<T: Wait>(&mut self, rt: &T);
}

/// Notifies by one wake-up of the relay for each message.
impl Notifier for RelayWaker<Contents, ContentsPlan> {
    fn another(&mut self) -> Result<RelayWaker<Contents, ContentsPlan>, AllocError> {
        RelayWaker::another(self)
    }

    fn notify<T: Wait>(&mut self, rt: &T) {
        let _ = self.wake(rt);
    }
}

/// Notifies by a signal in a channel that has room for one. The signal stands for all messages since it was last taken.
impl Notifier for Sender<()> {
    fn another(&mut self) -> Result<Sender<()>, AllocError> {
        self.clone()
    }

    fn notify<T: Wait>(&mut self, rt: &T) {
        let _ = self.try_send(rt, ());
    }
}
