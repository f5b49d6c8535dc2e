// A policy that a server can ask.
use crate::loops::bad_content_policy::BadContentPolicy;
use lsp_message::ReadFault;
use std::alloc::{AllocError, Global};
use std::sync::Arc;
use std::sync::atomic::{AtomicBool, Ordering};

/// A policy that skips each content part which is no message, and remembers it until somebody asks.
///
/// The content of such a part is lost. It may have been a change of a document. So give your server a `share`, and call
/// `take` on it first in `Server::notification` and `Server::request`. If that returns true, the server can no longer
/// rely on what it knows about its client (`lsp_documents::TextDocuments::invalidate_all`). On one thread, in threads
/// and with jobs, `take` is true from the next message that your server gets. That is tested, not proved.
#[derive(Drop)]
pub struct SkipAndFlag {
    happened: Arc<AtomicBool, Global>,
}

impl SkipAndFlag {
    /// Makes a policy that has skipped nothing yet. The error means that an allocation failed.
    pub fn new(alloc: Global) -> Result<SkipAndFlag, AllocError> {
        match Arc::new(alloc, AtomicBool::new(false)) {
            Ok(happened) => Ok(SkipAndFlag { happened }),
            Err(_) => Err(AllocError),
        }
    }

    /// Makes a second owner of the same state. Give one to the session and one to its server. The error means that an
    /// allocation failed.
    pub fn share(&self) -> Result<SkipAndFlag, AllocError> {
        Ok(SkipAndFlag {
            happened: Arc::try_clone(&self.happened)?,
        })
    }

    /// Returns whether a content part was skipped since `take` was last called.
    pub fn has_happened(&self) -> bool {
        self.happened.load(Ordering::SeqCst)
    }

    /// Returns the same, and sets it to false until the next content part is skipped.
    pub fn take(&self) -> bool {
        self.happened.swap(false, Ordering::SeqCst)
    }
}

impl BadContentPolicy for SkipAndFlag {
    ghost use Rattle.std.specs.Prelude.{⊤};

    ghost passes = { λ _ _ _. ⊤ };

    ghost ends = { λ _ _. ⊥ };

    fn skips(&mut self, _fault: ReadFault) -> bool {
        self.happened.store(true, Ordering::SeqCst);
        true
    }
}
