// The way from the threads that work to the pool of what jobs say: one channel, whose rule gives each job a ticket. An item that comes
// out is one that the job with its ticket may send.
ghost use Rattle.std.specs.Prelude.{◌≡◌, [], IfOk};
ghost use Rattle.crossbeam_channel.specs.Claims.{IsSeatAt, view as knows};
ghost use Rattle.crossbeam_channel.specs.Ends.{receives_on, sends_on};
ghost use Rattle.lsp_jobs.specs.Outcomes.{KnowsAll, next_one, with_next};
ghost use Rattle.lsp_jobs.specs.declared.channel.Known.TheVariants.{All};

use crate::job::Job;
use crate::names::JobName;
use crate::pool::JobMessage;
use crossbeam_channel::protocol::{Lesson, Outcome, Protocol, Split};
use crossbeam_channel::{Pass, RuledReceiver, RuledSender, bounded_with};
use std::alloc::{AllocError, Global};
use std::collections::LinkedList;
use std::marker::Brand;

/// An item of the channel: the ticket of a job, its name, and its message.
#[derive(Drop)]
pub(crate) struct Item<F> {
    pub(crate) ticket: u64,
    pub(crate) name: JobName,
    pub(crate) message: JobMessage<F>,
}

/// How many items may wait for the pool. A job whose message finds no room waits.
const ITEMS: usize = 256;

/// What a pass knows. No value of it is made.
pub(crate) enum Known<J> {
    /// All jobs that got a ticket, in order. The first has ticket 0.
    All(LinkedList<J>),
    /// The job that has this ticket.
    One(u64, J),
}

/// The rule of the channel: each item is one that the job with its ticket may send.
pub(crate) struct Tickets;

impl<J: Job> Protocol<Item<J::Found>, Known<J>> for Tickets {
    ghost use Rattle.std.specs.Prelude.{[]};
    ghost use Rattle.lsp_jobs.specs.Outcomes.{SaidByTickets};
    ghost use Rattle.lsp_jobs.specs.declared.channel.Known.TheVariants.{All};

    ghost holds = { SaidByTickets J.Job };

    ghost first = { All [] };
}

/// A pass knows the same after an item. One that knows all jobs learns that the job with the item's ticket may send it.
impl<J: Job> Outcome<Item<J::Found>, Known<J>> for Tickets {
    ghost use Rattle.std.specs.Prelude.{◌≡◌};
    ghost use Rattle.lsp_jobs.specs.Outcomes.{IsSaidBy, KnowsAll, all_jobs};

    ghost then = { λ before item after. (after ≡ before)
        × (KnowsAll before → IsSaidBy J.Job (all_jobs before) item) };
}

impl<J: Job> Lesson<Item<J::Found>, Known<J>> for Tickets {
    ghost fact = { λ known sent. Unit {0} };
}

/// What two passes know that were one, picked for each call.
impl<J> Split<Known<J>> for Brand {
    ghost left = { λ known. known };

    ghost right = { λ known. known };
}

/// The end of the channel at which items are sent, and what a thread knows of the channel.
pub(crate) type ItemSender<J, F> = RuledSender<Item<F>, Known<J>, Tickets>;

pub(crate) type ItemPass<J, F> = Pass<Item<F>, Known<J>>;

/// Makes the channel. The pass knows all jobs, and there is none. The error means that an allocation failed.
pub(crate) fn channel_of_items<J: Job>(
    alloc: Global,
) -> Result<
    (
        ItemSender<J, J::Found>,
        RuledReceiver<Item<J::Found>, Known<J>, Tickets>,
        ItemPass<J, J::Found>,
    ),
    AllocError,
>
    ensures ends { IfOk result (λ made. IsSeatAt (sends_on made.0) made.2
        × IsSeatAt (receives_on made.1) made.2) }
    ensures none { IfOk result (λ made. knows made.2 ≡ All []) }
{
    bounded_with(alloc, ITEMS)
}

/// Gives the next ticket to this job: a pass that knows that.
pub(crate) fn ticket_for<W: Split<Known<J>>, J: Job>(
    sender: &ItemSender<J, J::Found>,
    pass: &mut ItemPass<J, J::Found>,
    job: &J,
) -> ItemPass<J, J::Found>
    requires seat { IsSeatAt (sends_on sender.now) pass.old }
    requires all { KnowsAll (knows pass.old) }
    requires left { W.left ≡ with_next job.now }
    requires right { W.right ≡ next_one job.now }
    ensures seat { IsSeatAt (sends_on sender.now) pass.new × (pass.new.id ≡ pass.old.id)
        × IsSeatAt (sends_on sender.now) result }
    ensures all { knows pass.new ≡ with_next job.now (knows pass.old) }
    ensures one { knows result ≡ next_one job.now (knows pass.old) }
{
    sender.another::<W>(pass)
}
