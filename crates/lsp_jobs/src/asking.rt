// Requests of jobs to the client, and the jobs that wait for the replies.
use crate::cancellation::CancellationToken;
use crossbeam_channel::Sender;
use lsp_message::{RequestId, ResponseError};
use serde_json::Value;
use std::alloc::{AllocError, Global};
use std::collections::BTreeMap;
use std::sync::{Arc, Mutex, Wait};

/// Who sent a request to the client. It is kept for the reply.
#[derive(Drop)]
pub enum RequestOrigin<P> {
    /// The server, which kept this payload for the reply.
    ByServer(P),
    /// A job, which waits for the reply under this number.
    ByJob(u64),
}

impl<P: PartialEq> PartialEq for RequestOrigin<P> {
    ghost use Rattle.lsp_jobs.specs.RequestOriginLaws.{same_origin_laws};
    ghost use Rattle.lsp_jobs.specs.Asking.{same_origin};

    ghost eq = { same_origin P.eq };

    ghost laws = { same_origin_laws P.eq P.laws };

    fn eq(&self, other: &RequestOrigin<P>) -> bool {
        match other {
            RequestOrigin::ByServer(payload) => match self {
                RequestOrigin::ByServer(kept) => *kept == *payload,
                RequestOrigin::ByJob(_) => false,
            },
            RequestOrigin::ByJob(number) => match self {
                RequestOrigin::ByServer(_) => false,
                RequestOrigin::ByJob(asked) => *asked == *number,
            },
        }
    }
}

/// A job that sent a request to the client.
#[derive(Drop)]
pub(crate) struct Waiter {
    token: Arc<CancellationToken, Global>,
    /// Where the client's reply goes. `None` means that the job no longer waits.
    reply: Option<Sender<Result<Value, ResponseError>>>,
    /// Whether the request was taken, to be sent to the client.
    is_taken: bool,
}

impl Waiter {
    /// Lets a job that is to end go on without a reply. Returns false if its request need not be cancelled at the
    /// client: it was not taken, and never will be.
    fn let_go(&mut self) -> bool {
        if !self.token.is_cancelled() {
            return true;
        }
        self.reply = None;
        self.is_taken || self.token.is_wanted()
    }

    /// Passes the reply to the job. If the job no longer waits, the reply is dropped.
    pub fn give<T: Wait>(self, rt: &T, reply: Result<Value, ResponseError>) {
        let Waiter { reply: sender, .. } = self;
        match sender {
            Some(sender) => drop(sender.send(rt, reply)),
            None => drop(reply),
        }
    }

    /// Returns whether the request is to be cancelled at the client.
    fn is_unneeded(&self) -> bool {
        self.is_taken && self.reply.is_none()
    }
}

/// The jobs of a pool that sent a request to the client, each under the number of its request, and those that show
/// progress, each under the progress's token. Each job that waits has a channel. When the job is to end, this end of the
/// channel is dropped, and the job goes on. The job stays here until its request is cancelled at the client.
#[derive(Drop)]
pub(crate) struct Replies {
    waiting: BTreeMap<u64, Waiter>,
    next: u64,
    shown: BTreeMap<RequestId, Arc<CancellationToken, Global>>,
}

impl Replies {
    /// Starts with no waiting job. The error means that an allocation failed.
    pub fn new(alloc: Global) -> Result<Arc<Mutex<Replies>>, AllocError> {
        let none = Replies {
            waiting: BTreeMap::new(alloc),
            next: 0,
            shown: BTreeMap::new(alloc),
        };
        match Arc::new(alloc, Mutex::new(none)) {
            Ok(replies) => Ok(replies),
            Err(_) => Err(AllocError),
        }
    }

    /// Lets the job with this token wait for a reply, which goes to this end of a channel. It returns the number of the
    /// request. If the channel is disconnected, no reply will arrive. `None` means that the job is to end. The error
    /// means that an allocation failed.
    ///
    /// The token is checked here, under the lock. So whoever cancels it and then calls `let_cancelled_go` finds the job,
    /// or the job sees that it was cancelled.
    pub fn begin(
        &mut self,
        token: &Arc<CancellationToken, Global>,
        reply: Sender<Result<Value, ResponseError>>,
    ) -> Result<Option<u64>, AllocError> {
        let waiter = Waiter {
            token: Arc::try_clone(token)?,
            reply: Some(reply),
            is_taken: false,
        };
        if token.is_cancelled() {
            return Ok(None);
        }
        let number = self.next;
        match self.waiting.insert(number, waiter) {
            Ok(_) => {
                self.next = number.wrapping_add(1);
                Ok(Some(number))
            }
            Err(_) => Err(AllocError),
        }
    }

    /// Takes out the job that waits under this number. When it is dropped, the job goes on without a reply.
    pub fn take(&mut self, number: u64) -> Option<Waiter> {
        self.waiting.remove(&number)
    }

    /// Records that the request with this number was taken, to be sent to the client.
    pub fn was_taken(&mut self, number: u64) {
        if let Some(waiter) = self.waiting.get_mut(&number) {
            waiter.is_taken = true;
        }
    }

    /// Returns, once, the number of a request to cancel at the client: its job no longer waits, and no reply arrived.
    pub fn take_request_to_cancel(&mut self) -> Option<u64> {
        let number = self.unneeded()?;
        drop(self.take(number));
        Some(number)
    }

    /// Returns the number of the first request that is to be cancelled at the client.
    fn unneeded(&self) -> Option<u64> {
        for (number, waiter) in self.waiting.iter() {
            if waiter.is_unneeded() {
                return Some(*number);
            }
        }
        None
    }

    /// Lets jobs whose token was cancelled go on without a reply.
    pub fn let_cancelled_go(&mut self) {
        self.waiting.retain(|_, waiter| waiter.let_go());
    }

    /// Records that the job with this token shows progress, which its client may cancel. The error means that an
    /// allocation failed.
    pub fn show(
        &mut self,
        progress: RequestId,
        token: &Arc<CancellationToken, Global>,
    ) -> Result<(), AllocError> {
        match self.shown.insert(progress, Arc::try_clone(token)?) {
            Ok(_) => Ok(()),
            Err(_) => Err(AllocError),
        }
    }

    /// Makes the job end that shows this progress, which the client cancelled. If no job shows it, nothing is done.
    pub fn cancel_shown(&mut self, progress: &RequestId) {
        if let Some(token) = self.shown.get(progress) {
            token.stop();
        }
        self.let_cancelled_go();
    }

    /// Forgets the progress of jobs that ended or are to end.
    pub fn forget_shown(&mut self) {
        self.shown.retain(|_, token| !token.is_cancelled());
    }
}
