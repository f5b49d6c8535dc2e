// The jobs that wait for a worker: those of requests go first. One that is taken back gives its place to another at once.
// A job that is to start after a time waits here too, and holds no worker: one that has nothing to do sleeps until then.
ghost use Rattle.std.specs.Prelude.{◌≡◌, IfErr};

use crate::pool::PoolSize;
use crate::returned_trees::TreeReturn;
use std::alloc::{AllocError, Global};
use std::collections::BTreeMap;
use std::sync::atomic::{AtomicBool, AtomicU64, Ordering};
use std::sync::{Arc, Mutex, Wait};
use std::time::{Clock, Duration};

/// Counts the jobs that run. A worker counts one under the lock of the queue when it takes it. It stops counting the
/// job when its work is done, before the result is sent, so that whoever receives the result finds the room. Workers
/// that find no job sleep here.
#[derive(Drop)]
pub(crate) struct RunningJobs {
    /// The jobs that run.
    all: AtomicU64,
    /// Those of them that have keys.
    keyed: AtomicU64,
    /// How often a job may have become ready. A worker that finds none sleeps at this word.
    rings: AtomicU64,
    /// Whether no further job will be added.
    is_closed: AtomicBool,
}

impl RunningJobs {
    /// Starts at no job. The error means that an allocation failed.
    fn new(alloc: Global) -> Result<Arc<RunningJobs, Global>, AllocError> {
        let none = RunningJobs {
            all: AtomicU64::new(0),
            keyed: AtomicU64::new(0),
            rings: AtomicU64::new(0),
            is_closed: AtomicBool::new(false),
        };
        match Arc::new(alloc, none) {
            Ok(running) => Ok(running),
            Err(_) => Err(AllocError),
        }
    }

    fn begin(&self, is_keyed_job: bool) {
        let _ = self.all.fetch_add(1, Ordering::SeqCst);
        if is_keyed_job {
            let _ = self.keyed.fetch_add(1, Ordering::SeqCst);
        }
    }

    /// Counts that the work of one is done. If it had a key, another may begin.
    pub fn end(&self, is_keyed_job: bool) {
        let _ = self.all.fetch_sub(1, Ordering::SeqCst);
        if is_keyed_job {
            let _ = self.keyed.fetch_sub(1, Ordering::SeqCst);
            self.ring();
        }
    }

    /// Wakes a worker that sleeps.
    fn ring(&self) {
        let _ = self.rings.fetch_add(1, Ordering::SeqCst);
        self.rings.wake_one();
    }

    /// Makes each worker end.
    fn close(&self) {
        self.is_closed.store(true, Ordering::SeqCst);
        let _ = self.rings.fetch_add(1, Ordering::SeqCst);
        self.rings.wake_all();
    }

    /// Sleeps until a worker is woken after the count of rings was `seen`, or for this time.
    fn sleep<T: Wait>(&self, rt: &T, seen: u64, time: Option<Duration>) {
        let seen = (seen % 0x1_0000_0000) as u32;
        match time {
            Some(time) => self.rings.park_timeout(rt, seen, time),
            None => self.rings.park(rt, seen),
        }
    }
}

/// The jobs that wait, under their tickets, of which an older one is smaller.
#[derive(Drop)]
struct Rows<E: Drop> {
    requests: BTreeMap<u64, E>,
    keyed: BTreeMap<u64, E>,
    /// Those under keys that are to start after a time, each with the time on the monotonic clock when it has passed.
    later: BTreeMap<u64, (Duration, E)>,
}

impl<E: Drop> Rows<E> {
    /// Adds a job under a key, which is to start at this time, or at once. If an allocation fails, it returns the job.
    fn add_keyed(&mut self, ticket: u64, job: E, due: Option<Duration>) -> Result<(), E>
        ensures { IfErr result (λ back. back ≡ «job») }
    {
        let Some(due) = due else {
            return insert(&mut self.keyed, ticket, job);
        };
        match self.later.insert(ticket, (due, job)) {
            Ok(_) => Ok(()),
            Err(refused) => Err(refused.value.1.1),
        }
    }

    fn remove(&mut self, ticket: u64) -> Option<E> {
        match self.requests.remove(&ticket) {
            Some(job) => Some(job),
            None => self.remove_keyed(ticket),
        }
    }

    fn remove_keyed(&mut self, ticket: u64) -> Option<E> {
        match self.keyed.remove(&ticket) {
            Some(job) => Some(job),
            None => self.remove_later(ticket),
        }
    }

    fn remove_later(&mut self, ticket: u64) -> Option<E> {
        let (_, job) = self.later.remove(&ticket)?;
        Some(job)
    }

    fn pop(&mut self) -> Option<E> {
        match self.requests.pop_first() {
            Some((_, job)) => Some(job),
            None => match self.keyed.pop_first() {
                Some((_, job)) => Some(job),
                None => self.pop_later(),
            },
        }
    }

    fn pop_later(&mut self) -> Option<E> {
        let (_, (_, job)) = self.later.pop_first()?;
        Some(job)
    }

    /// Takes a job under a key whose time has passed. If there is none, it takes the oldest of those that start at
    /// once.
    fn pop_keyed(&mut self, now: Duration) -> Option<E> {
        if let Some(ticket) = self.last_due(now) {
            return self.remove_later(ticket);
        }
        let (_, job) = self.keyed.pop_first()?;
        Some(job)
    }

    /// Returns the ticket of the youngest job whose time has passed.
    fn last_due(&self, now: Duration) -> Option<u64> {
        let mut last = None;
        for (ticket, later) in self.later.iter() {
            if later.0 <= now {
                last = Some(*ticket);
            }
        }
        last
    }

    /// Returns how long it takes until the time of a job has passed. `None` means that no job waits for its time.
    fn time_left(&self, now: Duration) -> Option<Duration> {
        let mut least: Option<Duration> = None;
        for (_, later) in self.later.iter() {
            let left = later.0.saturating_sub(now);
            least = Some(least.map_or(left, |least| least.min(left)));
        }
        least
    }
}

/// The end of the queue at which jobs are added, and taken back. When it is dropped, each worker ends.
pub(crate) struct WaitingJobs<E: Drop> {
    rows: Arc<Mutex<Rows<E>>>,
    running: Arc<RunningJobs, Global>,
    size: PoolSize,
}

impl<E: Drop> Drop for WaitingJobs<E> {
    fn drop(self) {
        self.running.close();
        let Self {
            rows: _,
            running: _,
            size: _,
        } = self;
    }
}

/// The end of the queue at which a worker takes jobs.
#[derive(Drop)]
pub(crate) struct JobSource<E: Drop> {
    rows: Arc<Mutex<Rows<E>>>,
    running: Arc<RunningJobs, Global>,
    trees: Arc<TreeReturn, Global>,
    /// How many jobs under keys may run at once.
    threads_for_keys: u64,
}

/// Makes a queue of this many jobs. The trees of their results go to `trees`.
pub(crate) fn queue_of_jobs<E: Drop>(
    alloc: Global,
    size: PoolSize,
    trees: Arc<TreeReturn, Global>,
) -> Result<(WaitingJobs<E>, JobSource<E>), AllocError> {
    let none = Rows {
        requests: BTreeMap::new(alloc),
        keyed: BTreeMap::new(alloc),
        later: BTreeMap::new(alloc),
    };
    let Ok(rows) = Arc::new(alloc, Mutex::new(none)) else {
        return Err(AllocError);
    };
    let source = JobSource {
        rows: Arc::try_clone(&rows)?,
        running: RunningJobs::new(alloc)?,
        trees,
        threads_for_keys: size.threads_for_keys() as u64,
    };
    let running = Arc::try_clone(&source.running)?;
    Ok((
        WaitingJobs {
            rows,
            running,
            size,
        },
        source,
    ))
}

impl<E: Drop> WaitingJobs<E> {
    /// Returns whether one more job may wait or run. A job that waits for an idle worker takes that worker's room.
    pub fn has_room<T: Wait>(&self, rt: &T, is_keyed_job: bool) -> bool {
        let rows = self.rows.lock(rt);
        let requests = rows.requests.len() as u64;
        let waiting = (rows.keyed.len() as u64).saturating_add(rows.later.len() as u64);
        let keyed = self
            .running
            .keyed
            .load(Ordering::SeqCst)
            .saturating_add(waiting);
        let all = self
            .running
            .all
            .load(Ordering::SeqCst)
            .saturating_add(requests)
            .saturating_add(waiting);
        drop(rows);
        if is_keyed_job && !self.size.has_room(self.size.threads_for_keys(), keyed) {
            return false;
        }
        self.size.has_room(self.size.threads(), all)
    }

    /// Adds a job after all others of its kind, whose tickets are smaller. If it has a key, it is to start after this
    /// time. If an allocation fails, it returns the job.
    pub fn add<T: Wait + Clock>(
        &self,
        rt: &T,
        ticket: u64,
        job: E,
        is_keyed_job: bool,
        time: Duration,
    ) -> Result<(), E>
        ensures { IfErr result (λ back. back ≡ «job») }
    {
        let due = due_after(rt, time);
        let mut rows = self.rows.lock(rt);
        let added = if is_keyed_job {
            rows.add_keyed(ticket, job, due)
        } else {
            insert(&mut rows.requests, ticket, job)
        };
        drop(rows);
        if added.is_ok() {
            self.running.ring();
        }
        added
    }

    /// Takes the job with this ticket back, and drops it. If a worker took it, nothing is done.
    pub fn take_back<T: Wait>(&self, rt: &T, ticket: u64) {
        let job = self.rows.lock(rt).remove(ticket);
        drop(job);
    }

    /// Takes all jobs back, and drops them.
    pub fn take_all_back<T: Wait>(&self, rt: &T) {
        for _ in rt.forever() {
            let job = self.rows.lock(rt).pop();
            if job.is_none() {
                return;
            }
            drop(job);
        }
        unreachable!()
    }
}

/// Adds a job under its ticket. If an allocation fails, it returns the job.
fn insert<E: Drop>(rows: &mut BTreeMap<u64, E>, ticket: u64, job: E) -> Result<(), E>
    ensures { IfErr result (λ back. back ≡ «job») }
{
    match rows.insert(ticket, job) {
        Ok(_) => Ok(()),
        Err(refused) => Err(refused.value.1),
    }
}

/// Returns when this time has passed from now. `None` means that it has: it is zero, or the clock can't be read.
fn due_after<T: Clock>(rt: &T, time: Duration) -> Option<Duration> {
    if time.is_zero() {
        return None;
    }
    match rt.monotonic() {
        Ok(now) => Some(now.saturating_add(time)),
        Err(_) => None,
    }
}

/// Returns the time on the monotonic clock. If the clock can't be read, each time has passed.
fn time_of<T: Clock>(rt: &T) -> Duration {
    match rt.monotonic() {
        Ok(now) => now,
        Err(_) => Duration::MAX,
    }
}

impl<E: Drop> JobSource<E> {
    /// Makes an end for another worker. The error means that an allocation failed.
    pub fn another(&self) -> Result<JobSource<E>, AllocError> {
        Ok(JobSource {
            rows: Arc::try_clone(&self.rows)?,
            running: Arc::try_clone(&self.running)?,
            trees: Arc::try_clone(&self.trees)?,
            threads_for_keys: self.threads_for_keys,
        })
    }

    /// Returns the count of the jobs that run.
    pub fn running(&self) -> &RunningJobs {
        &self.running
    }

    /// Returns where the trees of results go.
    pub fn trees(&self) -> &TreeReturn {
        &self.trees
    }

    /// Takes the oldest job of a request. If none waits, it takes one under a key. The job counts as running from now
    /// on. The error means that no job is ready, and says how long the worker sleeps at most.
    ///
    /// While jobs wait for their time, one of the workers that sleep wakes when the first is due. So a worker that takes
    /// a job wakes another one.
    fn take<T: Wait + Clock>(&self, rt: &T) -> Result<E, Option<Duration>> {
        let mut rows = self.rows.lock(rt);
        let job = match rows.requests.pop_first() {
            Some((_, job)) => {
                self.running.begin(false);
                job
            }
            None => self.take_keyed(rt, &mut rows)?,
        };
        if !rows.later.is_empty() {
            self.running.ring();
        }
        Ok(job)
    }

    /// Takes a job under a key, unless as many of those run as may: the youngest of those whose time has passed, or the
    /// oldest of those that start at once.
    fn take_keyed<T: Clock>(&self, rt: &T, rows: &mut Rows<E>) -> Result<E, Option<Duration>> {
        if self.running.keyed.load(Ordering::SeqCst) >= self.threads_for_keys {
            return Err(None);
        }
        let now = time_of(rt);
        let Some(job) = rows.pop_keyed(now) else {
            return Err(rows.time_left(now));
        };
        self.running.begin(true);
        Ok(job)
    }

    /// Waits for a job. `None` means that no further job will be added.
    pub fn next<T: Wait + Clock>(&self, rt: &T) -> Option<E> {
        for _ in rt.forever() {
            let seen = self.running.rings.load(Ordering::SeqCst);
            if self.running.is_closed.load(Ordering::SeqCst) {
                return None;
            }
            match self.take(rt) {
                Ok(job) => return Some(job),
                Err(time) => self.running.sleep(rt, seen, time),
            }
        }
        unreachable!()
    }
}
