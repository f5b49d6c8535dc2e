// The context of a job that a worker runs: it sends the job's reports, its requests to the client, and its result.
ghost use Rattle.lsp_jobs.specs.Outcomes.{MayAsk, MayReport, PickedMaySend};
ghost use Rattle.lsp_jobs.specs.declared.pool.JobMessage.TheVariants.{Ran};

use crate::asking::Replies;
use crate::cancellation::CancellationToken;
use crate::channel::{Item, ItemPass, ItemSender, Tickets};
use crate::job::{DoneJob, Interrupted, Job, JobContext};
use crate::names::JobName;
use crate::notifier::Notifier;
use crate::pool::JobMessage;
use crate::waiting_jobs::RunningJobs;
use crossbeam_channel::{Receiver, bounded};
use lsp_message::{Notification, RequestId, ResponseError};
use serde_json::Value;
use std::alloc::{AllocError, Global};
use std::marker::{Brand, Model, PhantomData};
use std::sync::{Arc, Mutex, Wait};
use std::thread::yield_now;
use std::time::Duration;

/// The job that runs, picked for each call.
pub(crate) trait Picked<J> {
    ghost use Rattle.std.specs.Prelude.{Option};

    ghost job: { Option J };
}

impl<J> Picked<J> for Brand {
    ghost use Rattle.std.specs.Prelude.{None};

    ghost job = { None };
}

/// The context of a job that a worker runs. It can send what the job may send. Contracts see the job's ticket.
#[derive(Drop)]
pub(crate) struct Reporter<W: Picked<J>, T: Wait + Drop, J: Job, N: Notifier> {
    pub(crate) of: PhantomData<W>,
    pub(crate) rt: T,
    pub(crate) alloc: Global,
    pub(crate) notifier: N,
    pub(crate) ticket: u64,
    pub(crate) name: JobName,
    pub(crate) token: Arc<CancellationToken, Global>,
    pub(crate) replies: Arc<Mutex<Replies>>,
    /// Whether the job shows progress that its client may cancel.
    pub(crate) is_shown: bool,
    pub(crate) sender: ItemSender<J, J::Found>,
    pub(crate) pass: ItemPass<J, J::Found>,
    /// What is sent when the job ends.
    pub(crate) last: Option<Notification>,
}

impl<W: Picked<J>, T: Wait + Drop, J: Job, N: Notifier> Model for Reporter<W, T, J, N> {
    ghost use Rattle.serde_json.specs.View.{view as tree_of};
    ghost use Rattle.std.specs.Prelude.{◌≡◌, ℕ, IfSome, MatchOption, string_bytes};
    ghost use Rattle.crossbeam_channel.specs.Claims.{IsSeatAt, view as knows};
    ghost use Rattle.crossbeam_channel.specs.Ends.{sends_on};
    ghost use Rattle.lsp_jobs.specs.Outcomes.{MayReport};
    ghost use Rattle.lsp_jobs.specs.declared.channel.Known.TheVariants.{One};

    ghost Value = { ℕ };

    ghost view = { λ r. r.ticket };

    ghost invariant = { λ r. IsSeatAt (sends_on r.sender) r.pass
        × MatchOption W.job ⊥ (λ job. knows r.pass ≡ One r.ticket job)
        × IfSome r.last (λ told. MayReport J.Job W.job (string_bytes told.method) (tree_of told.params)) };
}

impl<W: Picked<J>, T: Wait + Drop, J: Job, N: Notifier> Reporter<W, T, J, N> {
    /// Sends the job's result, and returns the notifier. Before that the job no longer counts as running.
    pub fn finish(self, outcome: Result<DoneJob<J::Found>, Interrupted>, running: &RunningJobs) -> N
        requires { PickedMaySend J.Job W.job (Ran «outcome») }
    {
        let Reporter {
            rt,
            mut notifier,
            ticket,
            name,
            token,
            sender,
            mut pass,
            ..
        } = self;
        running.end(name.is_keyed());
        if token.add(&rt) {
            let item = Item {
                ticket,
                name,
                message: JobMessage::Ran(outcome),
            };
            if was_sent(sender.send_as::<Tickets, T>(&rt, &mut pass, item)) {
                notifier.notify(&rt);
            }
        }
        notifier
    }

    /// Sends the notification that was kept for the job's end. The job shows no progress any longer.
    pub fn end(&mut self) {
        if let Some(last) = self.last.take() {
            self.send(last);
        }
        if self.is_shown {
            self.token.stop();
            self.replies.lock(&self.rt).forget_shown();
        }
    }

    /// Sends a message once there is room for it. Returns false if nobody waits for the job any longer.
    fn post(&mut self, name: JobName, message: JobMessage<J::Found>) -> bool
        requires { PickedMaySend J.Job W.job «message» }
    {
        if !self.token.add(&self.rt) {
            return false;
        }
        let item = Item {
            ticket: self.ticket,
            name,
            message,
        };
        let is_sent = was_sent(
            self.sender
                .send_as::<Tickets, T>(&self.rt, &mut self.pass, item),
        );
        self.counted(is_sent)
    }

    /// Counts a message that is sent now, or was not sent.
    fn counted(&mut self, is_sent: bool) -> bool {
        if is_sent {
            self.notifier.notify(&self.rt);
        } else {
            self.token.remove();
        }
        is_sent
    }

    /// Prepares the job to wait for a reply. It returns the number of the request, and the end of a channel for the
    /// reply. `None` means that the job is to end. The error means that an allocation failed.
    fn begin(&self) -> Result<Option<(u64, Receiver<Result<Value, ResponseError>>)>, AllocError> {
        let (sender, receiver) = bounded(self.alloc, 1)?;
        match self.replies.lock(&self.rt).begin(&self.token, sender)? {
            Some(number) => Ok(Some((number, receiver))),
            None => Ok(None),
        }
    }

    /// Handles that no reply arrived. If the job is to end, its request may be cancelled at the client.
    fn tell_unneeded(&mut self) {
        if self.token.is_cancelled() {
            self.notifier.notify(&self.rt);
        }
    }

    /// Copies the job's name. While memory for it is missing, it waits until there is some, or until nobody waits for
    /// the job.
    fn copied_name(&self) -> Option<JobName> {
        for _ in self.rt.forever() {
            if let Ok(name) = self.name.clone() {
                return Some(name);
            }
            if !self.token.is_wanted() {
                return None;
            }
            yield_now();
        }
        unreachable!()
    }
}

impl<W: Picked<J>, T: Wait + Drop, J: Job, N: Notifier> JobContext for Reporter<W, T, J, N> {
    ghost may = { MayReport J.Job W.job };

    ghost may_send_request = { MayAsk J.Job W.job };

    fn is_cancelled(&self) -> bool {
        self.token.is_cancelled()
    }

    fn sleep(&mut self, time: Duration) -> Result<(), Interrupted> {
        self.token.sleep(&self.rt, time);
        self.check()
    }

    fn report(&mut self, notification: Notification) -> bool {
        let Ok(name) = self.name.clone() else {
            return false;
        };
        if !self.token.try_add() {
            return false;
        }
        let item = Item {
            ticket: self.ticket,
            name,
            message: JobMessage::Report(notification),
        };
        let is_sent = was_sent(
            self.sender
                .try_send_as::<Tickets, T>(&self.rt, &mut self.pass, item),
        );
        self.counted(is_sent)
    }

    fn send(&mut self, notification: Notification) -> bool {
        match self.copied_name() {
            Some(name) => self.post(name, JobMessage::Report(notification)),
            None => false,
        }
    }

    fn send_request(
        &mut self,
        method: String,
        params: Value,
    ) -> Result<Option<Result<Value, ResponseError>>, AllocError> {
        let name = self.name.clone()?;
        let Some((number, replies)) = self.begin()? else {
            return Ok(None);
        };
        if !self.post(name, JobMessage::Ask(method, params, number)) {
            drop(self.replies.lock(&self.rt).take(number));
            return Ok(None);
        }
        match replies.recv(&self.rt) {
            Ok(reply) => Ok(Some(reply)),
            Err(_) => {
                self.tell_unneeded();
                Ok(None)
            }
        }
    }

    fn at_end(&mut self, last: Option<Notification>) {
        self.last = last;
    }

    fn cancelled_with(&mut self, token: &Value) -> Result<(), AllocError> {
        match RequestId::from_value(token)? {
            Some(progress) => {
                self.is_shown = true;
                self.replies.lock(&self.rt).show(progress, &self.token)
            }
            None => Ok(()),
        }
    }
}

/// Returns whether it was sent. A message that was not is dropped.
fn was_sent<E: Drop>(sent: Result<(), E>) -> bool {
    sent.is_ok()
}
