// The threads that run jobs. Each is started for any such job, since the check finds that it may own its ends only if it need not
// look into the types.
ghost use Rattle.std.specs.Prelude.{◌≡◌, ◌∷◌, ◌++◌, [], length, MatchResult, OnErr, OnOk, Some};
ghost use Rattle.crossbeam_channel.specs.Claims.{IsSeatAt, view as knows};
ghost use Rattle.crossbeam_channel.specs.Ends.{sends_on};
ghost use Rattle.lsp_jobs.specs.Outcomes.{KnowsAll, all_jobs};
ghost use Rattle.lsp_jobs.specs.declared.channel.Known.TheVariants.{All, One};

use crate::asking::Replies;
use crate::cancellation::CancellationToken;
use crate::channel::{ItemPass, ItemSender, ticket_for};
use crate::job::{Job, run_as_text};
use crate::names::JobName;
use crate::notifier::Notifier;
use crate::pool::PoolSize;
use crate::reporter::{Picked, Reporter};
use crate::returned_trees::TreeReturn;
use crate::waiting_jobs::{JobSource, RunningJobs};
use lsp_relay::StartFault;
use std::alloc::Global;
use std::marker::{Brand, PhantomData};
use std::sync::{Arc, Mutex, Wait};
use std::thread::{Builder, JoinHandle, Threads};
use std::time::Clock;

/// The work for a worker.
pub(crate) trait Work: Drop {
    /// Returns whether somebody waits for the result.
    fn is_wanted(&self) -> bool;

    /// Drops the work, since nobody waits for it. It no longer counts as running.
    fn end(self, running: &RunningJobs);

    /// Runs the work to its end, and notifies at each of its messages. It counts as running until its work is done. The
    /// tree of its result goes to `trees`.
    fn run<T: Wait + Copy + Drop, N: Notifier>(
        self,
        rt: T,
        notifier: N,
        running: &RunningJobs,
        trees: &TreeReturn,
    ) -> N;
}

/// A job for a worker, with its ticket, its name, and the end of the channel for its messages.
#[derive(Drop)]
pub(crate) struct QueuedJob<J: Job> {
    alloc: Global,
    job: J,
    pub(crate) ticket: u64,
    pub(crate) name: JobName,
    token: Arc<CancellationToken, Global>,
    replies: Arc<Mutex<Replies>>,
    sender: ItemSender<J, J::Found>,
    pass: ItemPass<J, J::Found>,
    ghost known: { IsSeatAt (sends_on sender) pass × (knows pass ≡ One ticket job) },
}

/// Gives the next ticket, which has this number, to a job. If an allocation fails, it returns the name, and nothing
/// changed.
pub(crate) fn with_ticket<J: Job>(
    alloc: Global,
    sender: &ItemSender<J, J::Found>,
    pass: &mut ItemPass<J, J::Found>,
    ticket: u64,
    name: JobName,
    job: J,
    token: Arc<CancellationToken, Global>,
    replies: &Arc<Mutex<Replies>>,
) -> Result<QueuedJob<J>, JobName>
    requires seat { IsSeatAt (sends_on sender.now) pass.old }
    requires all { KnowsAll (knows pass.old) × (length (all_jobs (knows pass.old)) ≡ ticket) }
    ensures seat { IsSeatAt (sends_on sender.now) pass.new × (pass.new.id ≡ pass.old.id) }
    ensures ok { OnOk result (knows pass.new ≡ All (all_jobs (knows pass.old) ++ «job» ∷ [])) }
    ensures err { OnErr result (knows pass.new ≡ knows pass.old) }
    ensures name { MatchResult result (λ queued. queued.name ≡ name) (λ back. back ≡ name) }
{
    let Ok(replies) = Arc::try_clone(replies) else {
        return Err(name);
    };
    let Ok(theirs) = sender.try_clone() else {
        return Err(name);
    };
    let job_pass = ticket_for::<Brand, J>(sender, pass, &job);
    Ok(QueuedJob {
        alloc,
        job,
        ticket,
        name,
        token,
        replies,
        sender: theirs,
        pass: job_pass,
    })
}

impl<J: Job> Work for QueuedJob<J> {
    fn is_wanted(&self) -> bool {
        !self.token.is_cancelled()
    }

    fn end(self, running: &RunningJobs) {
        running.end(self.name.is_keyed());
        drop(self);
    }

    fn run<T: Wait + Copy + Drop, N: Notifier>(
        self,
        rt: T,
        notifier: N,
        running: &RunningJobs,
        trees: &TreeReturn,
    ) -> N {
        perform::<Brand, T, J, N>(self, rt, notifier, running, trees)
    }
}

/// Performs a job, and sends its messages. When its work is done, it no longer counts as running. Nothing is sent if
/// nobody waits for it any longer.
fn perform<W: Picked<J>, T: Wait + Copy + Drop, J: Job, N: Notifier>(
    queued: QueuedJob<J>,
    rt: T,
    notifier: N,
    running: &RunningJobs,
    trees: &TreeReturn,
) -> N
    requires { W.job ≡ Some queued.job }
{
    let QueuedJob {
        alloc,
        job,
        ticket,
        name,
        token,
        replies,
        sender,
        pass,
    } = queued;
    let mut reporter: Reporter<W, T, J, N> = Reporter {
        of: PhantomData,
        rt,
        alloc,
        notifier,
        ticket,
        name,
        token,
        replies,
        is_shown: false,
        sender,
        pass,
        last: None,
    };
    let (outcome, tree) = run_as_text(job, alloc, &mut reporter);
    if let Some(tree) = tree {
        trees.give_back(&rt, tree);
    }
    reporter.end();
    reporter.finish(outcome, running)
}

/// Runs jobs until no further job will be added.
fn run_queued<T: Wait + Clock + Copy + Drop, E: Work, N: Notifier>(
    rt: T,
    jobs: JobSource<E>,
    notifier: N,
) {
    let mut notifier = notifier;
    for _ in rt.forever() {
        let Some(job) = jobs.next(&rt) else {
            return;
        };
        if job.is_wanted() {
            notifier = job.run(rt, notifier, jobs.running(), jobs.trees());
        } else {
            job.end(jobs.running());
        }
    }
}

/// Starts a worker.
fn start_worker<T, E, N>(
    rt: &T,
    builder: Builder,
    jobs: &JobSource<E>,
    notifier: &mut N,
) -> Result<JoinHandle<()>, StartFault>
where
    T: Threads + Wait + Clock + Copy + Drop + Send + 'static,
    E: Work + Send + 'static,
    N: Notifier + Send + 'static,
{
    let Ok(jobs) = jobs.another() else {
        return Err(StartFault::Memory);
    };
    let Ok(notifier) = notifier.another() else {
        return Err(StartFault::Memory);
    };
    let theirs = *rt;
    match builder.spawn(rt, move || run_queued(theirs, jobs, notifier)) {
        Ok(handle) => Ok(handle),
        Err(_) => Err(StartFault::Thread),
    }
}

/// Starts as many workers as the size says. Workers that were started before a fault stay in `workers`, which has room
/// for all before the first starts.
pub(crate) fn start_workers<T, E, N>(
    rt: &T,
    size: PoolSize,
    jobs: JobSource<E>,
    notifier: &mut N,
    workers: &mut Vec<JoinHandle<()>>,
) -> Result<(), StartFault>
where
    T: Threads + Wait + Clock + Copy + Drop + Send + 'static,
    E: Work + Send + 'static,
    N: Notifier + Send + 'static,
{
    let count = size.workers.max(1);
    if workers.try_reserve(count).is_err() {
        return Err(StartFault::Memory);
    }
    for _ in 0..count {
        let worker = start_worker(rt, size.builder(), &jobs, notifier)?;
        if workers.push(worker).is_err() {
            return Err(StartFault::Memory);
        }
    }
    Ok(())
}

/// Starts workers for jobs.
pub(crate) fn start_job_workers<T, J, N>(
    rt: &T,
    size: PoolSize,
    waiting: JobSource<QueuedJob<J>>,
    notifier: &mut N,
    workers: &mut Vec<JoinHandle<()>>,
) -> Result<(), StartFault>
where
    T: Threads + Wait + Clock + Copy + Drop + Send + 'static,
    J: Job + Send + 'static,
    J::Found: Send + 'static,
    N: Notifier + Send + 'static,
{
    start_workers::<T, QueuedJob<J>, N>(rt, size, waiting, notifier, workers)
}

/// Joins threads.
pub(crate) fn join_all<T: Threads>(rt: &T, workers: Vec<JoinHandle<()>>) {
    for worker in workers {
        worker.join(rt);
    }
}
