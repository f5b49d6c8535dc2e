//! One side: its queues, the link to it, and the messages that it took.
ghost use Rattle.std.specs.Prelude.{◌≡◌, [], ◌∷◌, List, Err, Ok, None, OnErr, IfOk, IsOk};
ghost use Rattle.std.specs.FinMap as map;
ghost use Rattle.lsp_message.specs.Message as plain;
ghost use Rattle.lsp_message.specs.View.{message_view, response_view};
ghost use Rattle.lsp_queue.specs.Queue.{count_of, all_ids};
ghost use Rattle.lsp_peers.specs.Delivery.{Delivers, PeersAfter, Continues};
ghost use Rattle.lsp_peers.specs.Exchange.{SideAfter, seen};
ghost use Rattle.lsp_peers.specs.History.{Entry, entries_of, next_sent, outcome_of, written_in};
ghost use Rattle.lsp_peers.specs.HistoryLaw.{NeedsNoMemory};
ghost use Rattle.lsp_peers.specs.Sides.{side_of, other};
ghost use Rattle.lsp_peers.specs.declared.step.Side.{Side};

use crate::fault::WorldFault;
use crate::link::Link;
use crate::step::{Outcome, Step};
use lsp_message::{Message, Notification, RequestId, Response};
use lsp_queue::{RegisterFault, ReqQueue};
use serde_json::Value;
use std::alloc::Global;
use std::mem;

/// One side: its queues, the link to it, and the messages that it took, in order.
#[derive(Debug, Drop)]
pub(crate) struct Peer {
    pub(crate) queue: ReqQueue<u64, u64>,
    pub(crate) link: Link,
    pub(crate) taken: Vec<Message>,
}

impl Peer {
    pub(crate) fn new(alloc: Global) -> Peer
        ensures { SideAfter (seen result) [] [] [] }
    {
        Peer {
            queue: ReqQueue::default(alloc),
            link: Link::default(alloc),
            taken: Vec::new(alloc),
        }
    }

    /// A step of this side.
    pub(crate) fn step(&mut self, far: &mut Peer, step: Step) -> Result<Outcome, WorldFault>
        ensures ok { Continues self.old far.old self.new far.new step result }
        ensures err { (handed : Side → List plain.Message) (history : List Entry)
            → PeersAfter self.old far.old (side_of step) handed history
            → OnErr result (result ≡ Err WorldFault.Memory) }
        ensures free { (handed : Side → List plain.Message) (history : List Entry)
            → PeersAfter self.old far.old (side_of step) handed history →
            NeedsNoMemory
            (outcome_of (entries_of (side_of step) history)
            (entries_of (other (side_of step)) history) step) → IsOk result }
        ensures same { result ≡ Err WorldFault.NotReadBack → (self.new ≡ self.old)
            × (far.new ≡ far.old) }
    {
        match step {
            Step::Register {
                side: _,
                method,
                params,
                payload,
            } => self.register(far, method, params, payload),
            Step::Tell {
                side: _,
                method,
                params,
            } => self.tell(far, method, params),
            Step::Pass { to: _, bytes } => Ok(self.pass(far, bytes)),
            Step::Take { side: _, label } => self.take(far, label),
            Step::Answer {
                side: _,
                id,
                result: value,
            } => self.answer(
                far,
                Response {
                    id,
                    response_result: Ok(value),
                },
            ),
            Step::Refuse {
                side: _,
                id,
                code,
                message,
            } => self.answer(far, Response::new_err(id, code, message)),
            Step::Cancel { side: _, id } => self.cancel(far, id),
            Step::GiveUp { side: _, id } => Ok(self.give_up(far, id)),
        }
    }

    fn register(
        &mut self,
        far: &mut Peer,
        method: String,
        params: Value,
        payload: u64,
    ) -> Result<Outcome, WorldFault>
        ensures ok { (side : Side) → Continues self.old far.old self.new far.new
            (Step.Register side method params payload) result }
        ensures err { OnErr result (result ≡ Err WorldFault.Memory) }
        ensures spent { count_of self.old.queue.outgoing ≡ all_ids → result ≡ Ok Outcome.Spent }
    {
        match self.queue.outgoing.register_value(method, params, payload) {
            Ok(request) => {
                let Ok(id) = request.id.clone() else {
                    drop(request);
                    return Err(WorldFault::Memory);
                };
                let message = Message::Request(request);
                let written = far.link.write(&message);
                drop(message);
                written?;
                Ok(Outcome::Registered(id))
            }
            Err(RegisterFault::Spent(_)) => Ok(Outcome::Spent),
            Err(RegisterFault::Memory(_)) => Err(WorldFault::Memory),
            Err(RegisterFault::Unwritable(_)) => Err(WorldFault::Memory),
        }
    }

    fn tell(&self, far: &mut Peer, method: String, params: Value) -> Result<Outcome, WorldFault>
        ensures ok { (side : Side) → Continues self.now far.old self.now far.new
            (Step.Tell side method params) result }
        ensures err { OnErr result (result ≡ Err WorldFault.Memory) }
    {
        let notification = Notification { method, params };
        let message = Message::Notification(notification);
        let written = far.link.write(&message);
        drop(message);
        written?;
        Ok(Outcome::Told)
    }

    fn pass(&mut self, far: &Peer, bytes: usize) -> Outcome
        ensures { (side : Side) → Continues self.old far.now self.new far.now
            (Step.Pass side bytes) (Ok result) }
    {
        Outcome::Passed(self.link.pass(bytes))
    }

    fn answer(&mut self, far: &mut Peer, reply: Response) -> Result<Outcome, WorldFault>
        ensures ok { (step : Step)
            → written_in step (Outcome.Answered 0) ≡ response_view reply ∷ []
            → Continues self.old far.old self.new far.new step result }
        ensures err { OnErr result (result ≡ Err WorldFault.Memory) }
        ensures absent { map.get self.old.queue.incoming reply.id ≡ None
            → result ≡ Ok Outcome.Absent }
    {
        match self.queue.incoming.complete(&reply.id) {
            Some(label) => {
                let message = Message::Response(reply);
                let written = far.link.write(&message);
                drop(message);
                written?;
                Ok(Outcome::Answered(label))
            }
            None => {
                drop(reply);
                Ok(Outcome::Absent)
            }
        }
    }

    fn cancel(&mut self, far: &mut Peer, id: RequestId) -> Result<Outcome, WorldFault>
        ensures ok { (side : Side) → Continues self.old far.old self.new far.new
            (Step.Cancel side id) result }
        ensures err { OnErr result (result ≡ Err WorldFault.Memory) }
        ensures absent { map.get self.old.queue.incoming id ≡ None → result ≡ Ok Outcome.Absent }
    {
        match self.queue.incoming.cancel(id) {
            Ok(Some(reply)) => {
                let message = Message::Response(reply);
                let written = far.link.write(&message);
                drop(message);
                written?;
                Ok(Outcome::Cancelled)
            }
            Ok(None) => Ok(Outcome::Absent),
            Err(_) => Err(WorldFault::Memory),
        }
    }

    fn give_up(&mut self, far: &Peer, id: RequestId) -> Outcome
        ensures { (side : Side) → Continues self.old far.now self.new far.now
            (Step.GiveUp side id) (Ok result) }
    {
        match self.queue.incoming.complete(&id) {
            Some(label) => Outcome::GaveUp(label),
            None => Outcome::Absent,
        }
    }

    fn take(&mut self, far: &Peer, label: u64) -> Result<Outcome, WorldFault>
        ensures ok { (side : Side) → Continues self.old far.now self.new far.now
            (Step.Take side label) result }
        ensures err { (side : Side) (handed : Side → List plain.Message) (history : List Entry)
            → PeersAfter self.old far.now side handed history
            → OnErr result (result ≡ Err WorldFault.Memory) }
        ensures waits { (side : Side) (handed : Side → List plain.Message) (history : List Entry)
            → PeersAfter self.old far.now side handed history
            → next_sent (entries_of side history) (entries_of (other side) history) ≡ None
            → result ≡ Ok Outcome.Waiting }
        ensures same { result ≡ Err WorldFault.NotReadBack → self.new ≡ self.old }
    {
        let Some(message) = self.link.take()? else {
            return Ok(Outcome::Waiting);
        };
        let Ok(outcome) = deliver(&mut self.queue, &message, label) else {
            drop(message);
            return Err(WorldFault::Memory);
        };
        match self.taken.push(message) {
            Ok(()) => Ok(outcome),
            Err(refused) => {
                drop(refused);
                drop(outcome);
                Err(WorldFault::Memory)
            }
        }
    }

    /// Returns the messages that were taken, in order, and keeps none.
    pub(crate) fn hand_out(&mut self, alloc: Global) -> Vec<Message>
        ensures given { result.items ≡ self.old.taken.items }
        ensures none { self.new.taken.items ≡ [] }
        ensures queue { self.new.queue ≡ self.old.queue }
        ensures link { self.new.link ≡ self.old.link }
    {
        mem::replace(&mut self.taken, Vec::new(alloc))
    }
}

/// Handles a message that was taken: a request becomes pending with the label, a reply completes its id, and a
/// notification does nothing.
fn deliver(
    queue: &mut ReqQueue<u64, u64>,
    message: &Message,
    label: u64,
) -> Result<Outcome, WorldFault>
    ensures { IfOk result (λ outcome.
        Delivers (message_view message.now) label queue.old outcome queue.new) }
{
    match message {
        Message::Request(request) => {
            let id = request.id.clone()?;
            match queue.incoming.register(request.id.clone()?, label) {
                Ok(()) => Ok(Outcome::Arrived(id)),
                Err(_) => Err(WorldFault::Memory),
            }
        }
        Message::Response(response) => {
            let id = response.id.clone()?;
            let payload = queue.outgoing.complete(response.id.clone()?);
            Ok(Outcome::Returned(id, payload))
        }
        Message::Notification(_) => Ok(Outcome::Notified),
    }
}
