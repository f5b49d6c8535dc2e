//! Two peers with their queues, joined by two links.
ghost use Rattle.std.specs.Prelude.{◌≡◌, ◌∷◌, ◌++◌, [], List, Err, IfOk, IsOk, OnErr, map as each};
ghost use Rattle.lsp_message.specs.Message as plain;
ghost use Rattle.lsp_message.specs.View.{message_view};
ghost use Rattle.lsp_peers.specs.Exchange.{WorldAfter, IsWholeRun, handed_on, handed_out, peer_at, seen_at};
ghost use Rattle.lsp_peers.specs.History.{Entry, entries_of, outcome_of};
ghost use Rattle.lsp_peers.specs.HistoryLaw.{FactsOf, NeedsNoMemory};
ghost use Rattle.lsp_peers.specs.Shallow.{IsShallow, AllShallow};
ghost use Rattle.lsp_peers.specs.Sides.{side_of, other};

use crate::fault::WorldFault;
use crate::peer::Peer;
use crate::shallow::is_shallow;
use crate::step::{Outcome, Side, Step};
use lsp_message::Message;
use lsp_queue::ReqQueue;
use std::alloc::Global;

/// Two peers, A and B, each with its queues, and a link to each (JSON-RPC 2.0, sections 4 and 5).
#[derive(Debug, Drop)]
pub struct World {
    a: Peer,
    b: Peer,
}

impl World {
    /// Makes two peers with empty queues and empty links. It does not allocate.
    pub fn new(alloc: Global) -> World
        ensures { WorldAfter result (λ side. []) [] }
    {
        World {
            a: Peer::new(alloc),
            b: Peer::new(alloc),
        }
    }

    /// Takes the steps one after another, from empty queues and empty links. It returns the world after them, and the
    /// outcome of each step.
    ///
    /// - The messages that each side took are the first of those that the other side wrote, in order. The rest is still
    ///   in the link.
    /// - Each reply returns the payload of its own request, once.
    ///
    /// This holds however the steps of the two sides interleave, and in whatever pieces the bytes arrive.
    ///
    /// After a fault there is no world. `WorldFault::Memory` means that an allocation failed, and
    /// `WorldFault::NotReadBack` that the params or the result of a step nest more than 126 levels.
    pub fn run(alloc: Global, steps: Vec<Step>) -> Result<(World, Vec<Outcome>), WorldFault>
        // The steps and outcomes are a history of the two sides: each outcome follows from the entries before it, and the world is
        // what it is after them.
        ensures exchanged { IfOk result (λ r. IsWholeRun steps.items r.1.items r.0) }
        // Requests are registered and arrive as 0, 1, 2, .., each reply gives back the payload of its own request, once, and a request
        // is found exactly if it is held.
        ensures facts { IfOk result (λ r. FactsOf steps.items r.1.items) }
        // The other fault comes only at a step that nests too deeply.
        ensures deep { AllShallow steps.items → OnErr result (result ≡ Err WorldFault.Memory) }
    {
        let mut world = World::new(alloc);
        let mut outcomes = Vec::new(alloc);
        for step in steps {
            let outcome = world.step(step)?;
            if outcomes.push(outcome).is_err() {
                return Err(WorldFault::Memory);
            }
        }
        Ok((world, outcomes))
    }

    /// Takes one step, and returns its outcome.
    ///
    /// `WorldFault::NotReadBack` means that the step's params or result nest more than 126 levels. Its message would
    /// nest more than 127, so the other side could not read it. Then the world is as it was, and you may go on.
    ///
    /// `WorldFault::Memory` means that an allocation failed. Drop the world then: a request may be registered and not
    /// written. A step with the outcome `Spent`, `Passed`, `Waiting`, `GaveUp` or `Absent` needs no memory.
    ///
    /// A world keeps each message that a side took, until `hand_out` returns them.
    pub fn step(&mut self, step: Step) -> Result<Outcome, WorldFault>
        // The outcome follows from the entries that led to this world, and the new world is what it is after one more entry.
        ensures exchanged { (handed : Side → List plain.Message) (old : List Entry)
            → WorldAfter self.old handed old → IfOk result (λ outcome.
            (entry : Entry) × (entry.step ≡ step) × (entry.outcome ≡ outcome)
            × WorldAfter self.new handed (old ++ entry ∷ [])) }
        // The other fault comes at a step that nests too deeply, and only there, and nothing has changed then.
        ensures err { (handed : Side → List plain.Message) (old : List Entry)
            → WorldAfter self.old handed old → IsShallow step →
            OnErr result (result ≡ Err WorldFault.Memory) }
        ensures deep { (IsShallow step → ⊥) → result ≡ Err WorldFault.NotReadBack }
        ensures same { result ≡ Err WorldFault.NotReadBack → self.new ≡ self.old }
        ensures free { (handed : Side → List plain.Message) (old : List Entry)
            → WorldAfter self.old handed old → IsShallow step →
            NeedsNoMemory
            (outcome_of (entries_of (side_of step) old) (entries_of (other (side_of step)) old)
            step) → IsOk result }
    {
        if !is_shallow(&step) {
            drop(step);
            return Err(WorldFault::NotReadBack);
        }
        let side = step.side();
        match side {
            Side::A => self.a.step(&mut self.b, step),
            Side::B => self.b.step(&mut self.a, step),
        }
    }

    /// Returns the messages that a side took and that the world still has, in order. The world no longer keeps them.
    /// The queues and links of this side, and everything of the other side, are as they were.
    pub fn hand_out(&mut self, alloc: Global, side: Side) -> Vec<Message>
        ensures given { result.items ≡ (seen_at side self.old).taken }
        ensures after { (handed : Side → List plain.Message) (old : List Entry)
            → WorldAfter self.old handed old →
            WorldAfter self.new (handed_on side (each message_view result.items) handed) old }
        ensures here { seen_at side self.new ≡ handed_out (seen_at side self.old) }
        ensures there { seen_at (other side) self.new ≡ seen_at (other side) self.old }
    {
        match side {
            Side::A => self.a.hand_out(alloc),
            Side::B => self.b.hand_out(alloc),
        }
    }

    /// Returns the queues of a side: the requests that are pending there.
    pub fn queue(&self, side: Side) -> &ReqQueue<u64, u64>
        ensures { result.now ≡ (seen_at side self.now).queue }
    {
        &self.peer(side).queue
    }

    /// Returns the bytes on the way to a side.
    pub fn on_way(&self, to: Side) -> &[u8]
        ensures { result.now ≡ (seen_at to self.now).on_way }
    {
        self.peer(to).link.on_way()
    }

    /// Returns the bytes that have arrived at a side and were not taken.
    pub fn arrived(&self, side: Side) -> &[u8]
        ensures { result.now ≡ (seen_at side self.now).arrived }
    {
        self.peer(side).link.arrived()
    }

    /// Returns the messages that a side took and that the world still has, in order.
    pub fn taken(&self, side: Side) -> &[Message]
        ensures { result.now ≡ (seen_at side self.now).taken }
    {
        self.peer(side).taken.as_slice()
    }

    fn peer(&self, side: Side) -> &Peer
        ensures { result.now ≡ peer_at side self.now }
    {
        match side {
            Side::A => &self.a,
            Side::B => &self.b,
        }
    }
}
