// The jobs that are pending, and the end of the channel at which what jobs say is taken.
ghost use Rattle.std.specs.Option.{is_some};
ghost use Rattle.std.specs.Prelude.{◌≡◌, Some, length, IfOk, IfSome, IsTrue, MatchResult, OnErr, OnOk};
ghost use Rattle.crossbeam_channel.specs.Claims.{IsSeatAt, view as knows};
ghost use Rattle.crossbeam_channel.specs.Ends.{receives_on, sends_on};
ghost use Rattle.lsp_jobs.specs.Outcomes.{KnowsAll, IsSaidBy, all_jobs};
ghost use Rattle.lsp_jobs.specs.PendingJobs.{no_jobs, without, with_job};
ghost use Rattle.lsp_jobs.specs.Waiting.{HaveTickets, MaySay, entry_of, pending_of};
ghost use Rattle.lsp_jobs.specs.declared.names.JobName.TheVariants.{Request as OfRequest};

use crate::asking::Replies;
use crate::cancellation::CancellationToken;
use crate::channel::{Item, ItemPass, ItemSender, Known, Tickets, channel_of_items};
use crate::entries::Entries;
use crate::job::Job;
use crate::names::JobName;
use crate::pool::JobMessage;
use crate::workers::{QueuedJob, with_ticket};
use crossbeam_channel::RuledReceiver;
use lsp_message::RequestId;
use std::alloc::{AllocError, Global};
use std::mem;
use std::snapshot::Snapshot;
use std::sync::{Arc, Mutex, Wait};

/// A job that is pending. When this is dropped, the job is to end, since nobody waits for it.
pub(crate) struct Entry<J> {
    pub(crate) job: Snapshot<J>,
    pub(crate) ticket: u64,
    token: Arc<CancellationToken, Global>,
}

impl<J> Drop for Entry<J> {
    fn drop(self) {
        self.token.cancel();
        let Self {
            job: _,
            ticket: _,
            token: _,
        } = self;
    }
}

/// The jobs that are pending, each with its ticket, and the end of the channel where the messages of jobs are taken.
#[derive(Drop)]
pub(crate) struct JobTable<J: Job> {
    alloc: Global,
    sender: ItemSender<J, J::Found>,
    receiver: RuledReceiver<Item<J::Found>, Known<J>, Tickets>,
    pass: ItemPass<J, J::Found>,
    next: u64,
    jobs: Entries<Entry<J>>,
    ghost known: { IsSeatAt (sends_on sender) pass × IsSeatAt (receives_on receiver) pass
        × KnowsAll (knows pass) × (length (all_jobs (knows pass)) ≡ next)
        × HaveTickets (all_jobs (knows pass)) (entry_of jobs) },
}

impl<J: Job> JobTable<J> {
    /// Makes a table with no job. The error means that an allocation failed.
    pub fn new(alloc: Global) -> Result<JobTable<J>, AllocError>
        ensures { IfOk result (λ table. pending_of table.jobs ≡ no_jobs) }
    {
        let (sender, receiver, pass) = channel_of_items::<J>(alloc)?;
        Ok(JobTable {
            alloc,
            sender,
            receiver,
            pass,
            next: 0,
            jobs: Entries::new(alloc),
        })
    }

    /// Adds this job, which gets the next ticket. The table keeps a copy of the name. If an allocation fails, it returns
    /// the name.
    pub fn enter(
        &mut self,
        name: JobName,
        job: J,
        token: Arc<CancellationToken, Global>,
        replies: &Arc<Mutex<Replies>>,
    ) -> Result<QueuedJob<J>, JobName>
        ensures ok { OnOk result
            (pending_of self.new.jobs ≡ with_job name «job» (pending_of self.old.jobs)) }
        ensures err { OnErr result (pending_of self.new.jobs ≡ pending_of self.old.jobs) }
        ensures name { MatchResult result (λ queued. queued.name ≡ name) (λ back. back ≡ name) }
    {
        let ticket = self.next;
        let Some(next) = ticket.checked_add(1) else {
            return Err(name);
        };
        let Ok(same) = name.clone() else {
            return Err(name);
        };
        let Ok(theirs) = Arc::try_clone(&token) else {
            return Err(name);
        };
        let entry = Entry {
            job: Snapshot::of(&job),
            ticket,
            token,
        };
        let queued = with_ticket(
            self.alloc,
            &self.sender,
            &mut self.pass,
            ticket,
            name,
            job,
            theirs,
            replies,
        )?;
        self.next = next;
        match self.jobs.add(same, entry) {
            Ok(()) => Ok(queued),
            Err(_) => Err(queued.name),
        }
    }

    /// Returns whether a job with this name is pending.
    pub fn is_waiting(&self, name: &JobName) -> bool
        ensures { result ≡ is_some (pending_of self.now.jobs name.now) }
    {
        self.jobs.get(name).is_some()
    }

    /// Takes out the job with this name, which is no longer pending.
    pub fn complete(&mut self, name: &JobName) -> Option<Entry<J>>
        ensures value { result ≡ entry_of self.old.jobs name.now }
        ensures removed { pending_of self.new.jobs ≡ without name.now (pending_of self.old.jobs) }
    {
        self.jobs.remove(name)
    }

    /// Takes out the job of the request with this id, which is no longer pending.
    pub fn complete_request(&mut self, id: &RequestId) -> Option<Entry<J>>
        ensures { pending_of self.new.jobs ≡ without (OfRequest id.now) (pending_of self.old.jobs) }
    {
        self.jobs.remove_request(id)
    }

    /// Takes out all jobs.
    pub fn complete_all(&mut self, alloc: Global)
        ensures { pending_of self.new.jobs ≡ no_jobs }
    {
        let all = mem::replace(&mut self.jobs, Entries::new(alloc));
        drop(all);
    }

    /// Takes the next item of the channel.
    fn take_item<T: Wait>(&mut self, rt: &T) -> Option<Item<J::Found>>
        ensures same { self.new.jobs ≡ self.old.jobs }
        ensures said { IfSome result (λ item.
            IsSaidBy J.Job (all_jobs (knows self.new.pass)) item) }
    {
        match self.receiver.try_recv_as::<Tickets, T>(rt, &mut self.pass) {
            Ok(item) => Some(item),
            Err(_) => None,
        }
    }

    /// Returns whether the job that this item names is pending with the item's ticket. If so, one message of that job
    /// counts as taken.
    fn is_awaited(&self, item: &Item<J::Found>) -> bool
        ensures { IsTrue result → (entry : Entry J)
            × (entry_of self.now.jobs item.now.name ≡ Some entry) × (entry.ticket ≡ item.now.ticket) }
    {
        match self.jobs.get(&item.name) {
            Some(entry) if entry.ticket == item.ticket => {
                entry.token.remove();
                true
            }
            _ => false,
        }
    }

    /// Takes the next message of a pending job, with that job's name. Messages of others are dropped.
    pub fn take<T: Wait>(&mut self, rt: &T) -> Option<(JobName, JobMessage<J::Found>)>
        ensures same { self.new.jobs ≡ self.old.jobs }
        ensures said { IfSome result (λ said.
            MaySay J.Job (pending_of self.old.jobs) said.0 said.1) }
    {
        for _ in rt.forever() {
            let item = self.take_item(rt)?;
            if self.is_awaited(&item) {
                return Some((item.name, item.message));
            }
        }
        unreachable!()
    }
}
