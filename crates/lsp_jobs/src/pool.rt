//! The pool: the threads that run jobs, and the jobs that are pending.
ghost use Rattle.std.specs.Prelude.{◌≡◌, Some, IfErr, IfOk, IfNone, IfSome, OnErr, OnOk};
ghost use Rattle.std.specs.Option.{is_some};
ghost use Rattle.lsp_jobs.specs.PendingJobs.{no_jobs, without, with_job, Tells};
ghost use Rattle.lsp_jobs.specs.PoolView.{job_message_view, pending_jobs};
ghost use Rattle.lsp_jobs.specs.declared.names.JobName.TheVariants.{Request as OfRequest};

use crate::asking::Replies;
use crate::cancellation::CancellationToken;
use crate::job::{DoneJob, Interrupted, Job};
use crate::names::JobName;
use crate::notifier::Notifier;
use crate::returned_trees::ReturnedTrees;
use crate::table::{Entry, JobTable};
use crate::waiting_jobs::{JobSource, WaitingJobs, queue_of_jobs};
use crate::workers::{QueuedJob, join_all, start_job_workers};
use crossbeam_channel::{Receiver, bounded};
use lsp_message::{Notification, RequestId, ResponseError};
use lsp_relay::StartFault;
use serde_json::Value;
use std::alloc::{AllocError, Global};
use std::sync::atomic::{AtomicBool, Ordering};
use std::sync::{Arc, Mutex, Wait};
use std::thread::{Builder, JoinHandle, Threads};
use std::time::{Clock, Duration};

/// How many jobs run, and how many may wait for a thread. Jobs of requests run before jobs under keys.
#[derive(Clone, Copy, Debug, PartialEq, Eq)]
pub struct PoolSize {
    /// How many threads run jobs, at least one. If there are two or more, jobs under keys leave one of them to requests,
    /// so that no request waits for jobs under keys alone. One thread runs both kinds: a request then waits until the
    /// running job under a key has ended.
    pub workers: usize,
    /// How many jobs may wait for a thread while all threads run one, at least one. A job waits from
    /// `JobCommand::StartAfter` on. One that is forgotten or replaced no longer waits, whether a thread is free or not.
    /// `None` sets no bound. Then a client decides how much memory waiting requests take: at 100,000 small ones it was
    /// 140 MB.
    ///
    /// If one more job finds no room, its request gets the error -32803, `too many requests are waiting`. If it has a
    /// key, it ends as `JobEnd::Refused`.
    pub waiting: Option<usize>,
    /// The size in bytes of each thread's stack. `None` leaves that to the system.
    pub stack: Option<usize>,
}

impl PoolSize {
    /// Returns how many threads run jobs.
    pub(crate) fn threads(&self) -> usize {
        self.workers.max(1)
    }

    /// Returns how many of them may run jobs under keys at the same time.
    pub(crate) fn threads_for_keys(&self) -> usize {
        self.workers.saturating_sub(1).max(1)
    }

    /// Returns whether one more job may run or wait, beside `jobs` jobs that do, with `threads` threads that may run
    /// them.
    pub(crate) fn has_room(&self, threads: usize, jobs: u64) -> bool {
        match self.waiting {
            Some(waiting) => jobs < threads.saturating_add(waiting.max(1)) as u64,
            None => true,
        }
    }

    /// Starts a thread.
    pub(crate) fn builder(&self) -> Builder {
        match self.stack {
            Some(bytes) => Builder::new().stack_size(bytes),
            None => Builder::new(),
        }
    }
}

/// How many jobs may wait in a pool whose size says nothing else.
const WAITING: usize = 1024;

impl From<usize> for PoolSize {
    ghost use Rattle.std.specs.Prelude.{◌≡◌, None, Some};

    ghost from_gives = { λ workers size. (size.workers ≡ workers) × (size.waiting ≡ Some 1024) × (size.stack ≡ None) };

    /// Makes a size of this many threads, with at most 1,024 jobs that wait.
    fn from(workers: usize) -> PoolSize {
        PoolSize {
            workers,
            waiting: Some(WAITING),
            stack: None,
        }
    }
}

/// Why a job was not submitted.
#[derive(Clone, Copy, Debug, PartialEq, Eq)]
pub enum SubmitFault {
    /// 1: the pool is full. As many jobs run and wait as may.
    Full,
    /// 2: an allocation failed.
    Memory,
}

/// A message of a job.
#[derive(Debug, Drop)]
pub enum JobMessage<F> {
    /// A notification to send while it runs.
    Report(Notification),
    /// A request to send to the client, with this method and these params. The job waits until `JobPool::reply` gets
    /// the reply with this number.
    Ask(String, Value, u64),
    /// The job's result.
    Ran(Result<DoneJob<F>, Interrupted>),
}

/// Threads that run jobs, and the jobs that are pending. Contracts see the pending jobs: under each name, the job.
///
/// No clause says that a job runs or ends, or that it notices that it is to end.
#[derive(Drop)]
pub struct JobPool<T: Wait + Drop, J: Job> {
    rt: T,
    alloc: Global,
    /// Whether all jobs are to end.
    all_end: Arc<AtomicBool, Global>,
    table: JobTable<J>,
    waiting: WaitingJobs<QueuedJob<J>>,
    replies: Arc<Mutex<Replies>>,
    /// The trees of results that are to be freed.
    returned: ReturnedTrees,
    workers: Vec<JoinHandle<()>>,
}

impl<T, J> JobPool<T, J>
where
    T: Threads + Wait + Clock + Copy + Drop + Send + 'static,
    J: Job + Send + 'static,
    J::Found: Send + 'static,
{
    /// Starts threads that run jobs. It returns the pool, with no job, and the end of a channel. A signal on this
    /// channel means that jobs have messages: call `take_message` then until it returns `None`. One signal may stand
    /// for several messages. Up to 256 messages wait for your loop. A job that has one more waits, but a report is
    /// dropped.
    ///
    /// After a fault no thread is left.
    pub fn start(
        rt: &T,
        alloc: Global,
        size: PoolSize,
    ) -> Result<(JobPool<T, J>, Receiver<()>), StartFault>
        ensures { IfOk result (λ started. pending_jobs started.0 ≡ no_jobs) }
    {
        let Ok((signals, signalled)) = bounded(alloc, 1) else {
            return Err(StartFault::Memory);
        };
        match start_pool(rt, alloc, size, signals) {
            Ok(pool) => Ok((pool, signalled)),
            Err(fault) => Err(fault),
        }
    }

    /// Makes all jobs end, and waits until each thread has ended. A job that runs goes on until it notices that it is
    /// to end, and one that has not begun never does. A job that waits for a reply of the client goes on without it. A
    /// pool that is only dropped cancels its jobs too, and waits for no thread; a job that waits for a reply then waits
    /// for ever.
    pub fn end(self) {
        let JobPool {
            rt,
            all_end,
            table,
            waiting,
            replies,
            workers,
            ..
        } = self;
        all_end.store(true, Ordering::SeqCst);
        replies.lock(&rt).let_cancelled_go();
        // A worker that waits for room goes on when the table is gone.
        drop(table);
        drop(waiting);
        join_all(&rt, workers);
    }
}

/// Does what `JobPool::start` does, with a notifier.
pub(crate) fn start_pool<T, J, N>(
    rt: &T,
    alloc: Global,
    size: PoolSize,
    notifier: N,
) -> Result<JobPool<T, J>, StartFault>
where
    T: Threads + Wait + Clock + Copy + Drop + Send + 'static,
    J: Job + Send + 'static,
    J::Found: Send + 'static,
    N: Notifier + Send + 'static,
    ensures { IfOk result (λ pool. pending_jobs pool ≡ no_jobs) }
{
    let mut notifier = notifier;
    let (mut pool, taken) = match pool_without_workers(*rt, alloc, size) {
        Ok(made) => made,
        Err(_) => return Err(StartFault::Memory),
    };
    match start_job_workers(rt, size, taken, &mut notifier, &mut pool.workers) {
        Ok(()) => Ok(pool),
        Err(fault) => {
            pool.end();
            Err(fault)
        }
    }
}

/// Makes a pool for this many jobs, and the end of its queue where workers take them.
fn pool_without_workers<T: Wait + Drop, J: Job>(
    rt: T,
    alloc: Global,
    size: PoolSize,
) -> Result<(JobPool<T, J>, JobSource<QueuedJob<J>>), AllocError>
    ensures { IfOk result (λ made. pending_jobs made.0 ≡ no_jobs) }
{
    let Ok(all_end) = Arc::new(alloc, AtomicBool::new(false)) else {
        return Err(AllocError);
    };
    let replies = Replies::new(alloc)?;
    let (returned, trees) = ReturnedTrees::new(alloc)?;
    let (waiting, taken) = queue_of_jobs(alloc, size, trees)?;
    let table = JobTable::new(alloc)?;
    let pool = JobPool {
        rt,
        alloc,
        all_end,
        table,
        waiting,
        replies,
        returned,
        workers: Vec::new(alloc),
    };
    Ok((pool, taken))
}

impl<T: Wait + Drop, J: Job> JobPool<T, J> {
    /// Returns whether there is room for the job of one more request. A true result stays true until a job is
    /// submitted.
    pub fn has_room(&self) -> bool {
        self.waiting.has_room(&self.rt, false)
    }

    /// Records the params of a long request, whose job may return them as its result.
    pub(crate) fn record_params(&self, params: &Value) {
        self.returned.record_params(params);
    }

    /// Returns whether there is room for one more job with a name of this kind.
    pub(crate) fn has_room_for(&self, name: &JobName) -> bool {
        self.waiting.has_room(&self.rt, name.is_keyed())
    }
}

impl<T: Wait + Clock + Drop, J: Job> JobPool<T, J> {
    /// Passes a job to the threads. It never waits for one. An earlier job with the name is forgotten. After a fault no
    /// job has the name, and this one never runs.
    pub fn submit(&mut self, name: JobName, job: J) -> Result<(), SubmitFault>
        ensures ok { OnOk result
            (pending_jobs self.new ≡ with_job name «job» (pending_jobs self.old)) }
        ensures err { OnErr result (pending_jobs self.new ≡ without name (pending_jobs self.old)) }
    {
        self.cancel(&name);
        if !self.has_room_for(&name) {
            drop((name, job));
            return Err(SubmitFault::Full);
        }
        match self.hand_over(name, job, Duration::ZERO) {
            Ok(()) => Ok(()),
            Err(name) => {
                drop(name);
                Err(SubmitFault::Memory)
            }
        }
    }

    /// Passes a job to the threads, whether there is room for it or not. If it has a key, it starts after this time. If
    /// an allocation fails, it returns the name. Then no job has the name, and this one never runs.
    pub(crate) fn hand_over(&mut self, name: JobName, job: J, time: Duration) -> Result<(), JobName>
        ensures ok { OnOk result
            (pending_jobs self.new ≡ with_job name «job» (pending_jobs self.old)) }
        ensures err { OnErr result (pending_jobs self.new ≡ without name (pending_jobs self.old)) }
        ensures name { IfErr result (λ back. back ≡ name) }
    {
        self.returned.free_all(&self.rt);
        match self.keep(name, job, time) {
            Ok(()) => Ok(()),
            Err(name) => {
                self.cancel(&name);
                Err(name)
            }
        }
    }

    /// Keeps a job, and passes it to the workers. If an allocation fails, it returns the name, and the job may be kept.
    fn keep(&mut self, name: JobName, job: J, time: Duration) -> Result<(), JobName>
        ensures ok { OnOk result
            (pending_jobs self.new ≡ with_job name «job» (pending_jobs self.old)) }
        ensures err { without name (pending_jobs self.new) ≡ without name (pending_jobs self.old) }
        ensures name { IfErr result (λ back. back ≡ name) }
    {
        let Ok(token) = CancellationToken::new(self.alloc, &self.all_end) else {
            return Err(name);
        };
        let is_keyed_job = name.is_keyed();
        let queued = self.table.enter(name, job, token, &self.replies)?;
        let ticket = queued.ticket;
        match self
            .waiting
            .add(&self.rt, ticket, queued, is_keyed_job, time)
        {
            Ok(()) => Ok(()),
            Err(queued) => Err(queued.name),
        }
    }
}

impl<T: Wait + Drop, J: Job> JobPool<T, J> {
    /// Returns whether a job with this name is pending.
    pub fn is_waiting(&self, name: &JobName) -> bool
        ensures { result ≡ is_some (pending_jobs self.now name.now) }
    {
        self.table.is_waiting(name)
    }

    /// Makes the job with this name end, because nobody needs its result: its request was cancelled or answered
    /// otherwise, or its key is needed. Its messages are dropped. A job that still waits for a thread is dropped at
    /// once, and another may wait in its place. Returns whether a job was pending.
    pub fn cancel(&mut self, name: &JobName) -> bool
        ensures pending { pending_jobs self.new ≡ without name.now (pending_jobs self.old) }
        ensures was { result ≡ is_some (pending_jobs self.old name.now) }
    {
        let Some(entry) = self.table.complete(name) else {
            return false;
        };
        self.end_job(entry);
        true
    }

    /// Does what `cancel` does, for the job of the request with this id.
    pub(crate) fn cancel_request(&mut self, id: &RequestId)
        ensures { pending_jobs self.new ≡ without (OfRequest id.now) (pending_jobs self.old) }
    {
        if let Some(entry) = self.table.complete_request(id) {
            self.end_job(entry);
        }
    }

    /// Makes a job end that is no longer in the table.
    fn end_job(&self, entry: Entry<J>) {
        let ticket = entry.ticket;
        drop(entry);
        self.waiting.take_back(&self.rt, ticket);
        self.replies.lock(&self.rt).let_cancelled_go();
    }

    /// Makes all jobs end, as `cancel` does for one, for example because the client shuts the session down.
    pub fn cancel_all(&mut self)
        ensures { pending_jobs self.new ≡ no_jobs }
    {
        self.table.complete_all(self.alloc);
        self.waiting.take_all_back(&self.rt);
        self.replies.lock(&self.rt).let_cancelled_go();
    }

    /// Passes the client's reply to the job that waits under this number. If the job no longer waits, the reply is
    /// dropped.
    pub fn reply(&self, number: u64, outcome: Result<Value, ResponseError>) {
        let waiter = self.replies.lock(&self.rt).take(number);
        match waiter {
            Some(waiter) => waiter.give(&self.rt, outcome),
            None => drop(outcome),
        }
    }

    /// Reports that no reply will arrive to a request of a job. The job that waits under this number goes on without
    /// one.
    pub fn abandon(&self, number: u64) {
        let waiter = self.replies.lock(&self.rt).take(number);
        drop(waiter);
    }

    /// Returns the number of a job's request to cancel at the client, if there is one: the job is to end, no longer
    /// waits, and the client has not replied (LSP 3.17, "Cancellation Support"). Each number is returned once, and a
    /// signal is sent for it too.
    pub fn take_request_to_cancel(&self) -> Option<u64> {
        self.replies.lock(&self.rt).take_request_to_cancel()
    }

    /// Makes the job end that shows the progress with this token, because the client cancelled that progress (LSP 3.17,
    /// "Canceling Work Done Progress"). Its result is still awaited.
    pub fn cancel_progress(&self, token: &RequestId) {
        self.replies.lock(&self.rt).cancel_shown(token);
    }

    /// Takes the next message of a pending job, with the job's name: a report or a request to the client, after which
    /// the job goes on; or its result, after which the job is no longer pending. `None` means that no pending job has a
    /// new message. It doesn't wait.
    pub fn take_message(&mut self) -> Option<(JobName, JobMessage<J::Found>)>
        ensures some { IfSome result (λ said.
            Tells J.Job said.0 (pending_jobs self.old) (job_message_view said.1)
            (pending_jobs self.new)) }
        ensures none { IfNone result (pending_jobs self.new ≡ pending_jobs self.old) }
    {
        self.returned.free_all(&self.rt);
        let (name, message) = self.table.take(&self.rt)?;
        match &message {
            JobMessage::Report(_) => (),
            JobMessage::Ask(_, _, number) => self.replies.lock(&self.rt).was_taken(*number),
            JobMessage::Ran(_) => drop(self.table.complete(&name)),
        }
        Some((name, message))
    }
}
