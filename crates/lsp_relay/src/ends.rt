//! The two ends of a relay: a bounded channel with one sender and one receiver, each of which keeps account of its
//! parcels. The channel holds a parcel as `Some`, and a wake-up as `None`. The account of the end that takes, and that
//! of each waker, count wake-ups.
ghost use Rattle.std.specs.Bool.{MatchBool};
ghost use Rattle.std.specs.Prelude.{◌≡◌, ◌<◌, ◌≤◌, ◌+◌, [], ◌∷◌, ◌++◌, false, None, Some, true, IfErr, IfNone, IfOk, IfSome, OnErr, OnOk};
ghost use mathlib.Core.List.{IsPrefix};

use crate::account::{
    Account, AnyPlan, CopyWaker, InOrder, Lend, MakeWaker, Plan, Plans, Received, Roles, Sent,
    Source, Whole, Woken,
};
use crossbeam_channel::{Pass, RuledReceiver, RuledSender, bounded_with};
use std::alloc::{AllocError, Global};
use std::marker::Model;
use std::sync::Wait;

/// What a relay carries: a message, or `End`, which means that no further message follows.
#[derive(Debug, Drop)]
pub enum Parcel<M> {
    /// A message.
    Message(M),
    /// The messages end. It is sent once, and last.
    End,
}

/// What a take found at the front of a relay.
#[derive(Debug, Drop)]
pub enum Taken<M> {
    /// A parcel, which was taken.
    Parcel(Parcel<M>),
    /// A wake-up, which was taken. It carries nothing.
    Wake,
    /// Nothing was taken.
    Nothing,
}

/// The sender's end of a relay. Contracts see which relay it belongs to, the parcels that were sent, in order, and
/// whether a waker was ever made.
#[derive(Drop)]
#[derive_where(Debug)]
pub struct RelayTx<M: Drop, P: Plan<M> = AnyPlan> {
    #[derive_where(skip)]
    sender: RuledSender<Option<Parcel<M>>, Account<M>, InOrder<P>>,
    #[derive_where(skip)]
    pass: Pass<Option<Parcel<M>>, Account<M>>,
}

impl<M: Drop, P: Plan<M>> Model for RelayTx<M, P> {
    ghost use Rattle.std.specs.Prelude.{◌≡◌};
    ghost use Rattle.crossbeam_channel.specs.Claims.{IsSeatAt};
    ghost use Rattle.crossbeam_channel.specs.Ends.{sends_on};
    ghost use Rattle.lsp_relay.specs.Relay.{Sending, EndsAtMostOnce, account_of, relay_of, sender_account};

    ghost Value = { Sending M };

    ghost view = { λ t. record {
      relay = relay_of t.pass;
      sent = (account_of t.pass).sent;
      wakeable = (account_of t.pass).wakeable;
      source = (account_of t.pass).source;
    } };

    ghost invariant = { λ t. IsSeatAt (sends_on t.sender) t.pass
        × (account_of t.pass ≡ sender_account (account_of t.pass).sent (account_of t.pass).wakeable
        (account_of t.pass).source)
        × EndsAtMostOnce (account_of t.pass).sent };
}

/// The receiver's end of a relay. Contracts see which relay it belongs to, the parcels that were taken, in order, and
/// the number of wake-ups that were.
#[derive(Drop)]
#[derive_where(Debug)]
pub struct RelayRx<M: Drop, P: Plan<M> = AnyPlan> {
    #[derive_where(skip)]
    receiver: RuledReceiver<Option<Parcel<M>>, Account<M>, InOrder<P>>,
    #[derive_where(skip)]
    pass: Pass<Option<Parcel<M>>, Account<M>>,
}

impl<M: Drop, P: Plan<M>> Model for RelayRx<M, P> {
    ghost use Rattle.std.specs.Prelude.{◌≡◌};
    ghost use Rattle.crossbeam_channel.specs.Claims.{IsSeatAt};
    ghost use Rattle.crossbeam_channel.specs.Ends.{receives_on};
    ghost use Rattle.lsp_relay.specs.Relay.{Taking, account_of, relay_of, receiver_account, IsLearned};

    ghost Value = { Taking M };

    ghost view = { λ r. record {
      relay = relay_of r.pass;
      taken = (account_of r.pass).taken;
      wakes = (account_of r.pass).wakes;
      wakeable = (account_of r.pass).wakeable;
      source = (account_of r.pass).source;
    } };

    ghost invariant = { λ r. IsSeatAt (receives_on r.receiver) r.pass
        × (account_of r.pass
        ≡ receiver_account (account_of r.pass).taken (account_of r.pass).wakes (account_of r.pass).wakeable
        (account_of r.pass).source)
        × IsLearned P.may_send (account_of r.pass).source (account_of r.pass).wakeable (account_of r.pass).taken
        (account_of r.pass).wakes };
}

/// Wakes the thread that takes from a relay. Contracts see which relay it belongs to, and how many wake-ups it sent. It
/// sends no parcel.
#[derive(Drop)]
#[derive_where(Debug)]
pub struct RelayWaker<M: Drop, P: Plan<M> = AnyPlan> {
    #[derive_where(skip)]
    sender: RuledSender<Option<Parcel<M>>, Account<M>, InOrder<P>>,
    #[derive_where(skip)]
    pass: Pass<Option<Parcel<M>>, Account<M>>,
}

impl<M: Drop, P: Plan<M>> Model for RelayWaker<M, P> {
    ghost use Rattle.std.specs.Prelude.{◌≡◌};
    ghost use Rattle.crossbeam_channel.specs.Claims.{IsSeatAt};
    ghost use Rattle.crossbeam_channel.specs.Ends.{sends_on};
    ghost use Rattle.lsp_relay.specs.Relay.{Waking, account_of, relay_of, waker_account};

    ghost Value = { Waking M };

    ghost view = { λ w. record { relay = relay_of w.pass; given = (account_of w.pass).wakes } };

    ghost invariant = { λ w. IsSeatAt (sends_on w.sender) w.pass
        × (account_of w.pass ≡ waker_account (account_of w.pass).wakes) };
}

/// Makes a relay with room for `room` parcels and wake-ups, at least one. The error means that an allocation failed.
pub fn relay<M: Drop, P: Plan<M>>(
    alloc: Global,
    room: usize,
) -> Result<(RelayTx<M, P>, RelayRx<M, P>), AllocError>
    requires { 0 < room }
    ensures one_relay { IfOk result (λ ends. ends.1.relay ≡ ends.0.relay) }
    ensures empty { IfOk result (λ ends. (ends.0.sent ≡ []) × (ends.1.taken ≡ [])) }
    ensures unwoken { IfOk result (λ ends. (ends.1.wakes ≡ 0) × (ends.0.wakeable ≡ false)) }
    ensures unplanned { IfOk result (λ ends. ends.0.source ≡ None) }
{
    let (sender, receiver, mut sends) = bounded_with(alloc, room)?;
    let takes = sender.another::<Roles>(&mut sends);
    let tx = RelayTx {
        sender,
        pass: sends,
    };
    let rx = RelayRx {
        receiver,
        pass: takes,
    };
    Ok((tx, rx))
}

impl<M: Drop, P: Plan<M>> RelayTx<M, P> {
    ghost use Rattle.std.specs.Prelude.{true};
    ghost use Rattle.lsp_relay.specs.Relay.{Follows, IsOpen};

    /// Adds the parcel at the back in one step. It waits while the relay is full. Send nothing after `Parcel::End`.
    ///
    /// An error means that the receiver's end is gone. It returns the parcel, and nothing has changed.
    pub fn send<R: Wait>(&mut self, rt: &R, parcel: Parcel<M>) -> Result<(), Parcel<M>>
        requires open { IsOpen self.old.sent }
        requires planned { Follows P.may_send self.old.source (self.old.sent ++ parcel ∷ []) }
        ensures relay { self.new.relay ≡ self.old.relay }
        ensures wakeable { self.new.wakeable ≡ self.old.wakeable }
        ensures source { self.new.source ≡ self.old.source }
        ensures sent { OnOk result (self.new.sent ≡ self.old.sent ++ parcel ∷ []) }
        ensures refused { IfErr result (λ back. (back ≡ parcel) × (self.new.sent ≡ self.old.sent)) }
    {
        match self
            .sender
            .send_as::<Sent, R>(rt, &mut self.pass, Some(parcel))
        {
            Ok(()) => Ok(()),
            Err(refused) => match refused.into_inner() {
                Some(back) => Err(back),
                None => unreachable!(),
            },
        }
    }

    /// Makes a waker of the thread that takes. The error means that an allocation failed.
    pub fn waker(&mut self) -> Result<RelayWaker<M, P>, AllocError>
        requires unplanned { self.old.source ≡ None }
        ensures relay { IfOk result (λ waker.
            waker ≡ record { relay = self.old.relay; given = 0 }) }
        ensures made { OnOk result
            (self.new ≡ record {
              relay = self.old.relay;
              sent = self.old.sent;
              wakeable = true;
              source = None;
            }) }
        ensures same { OnErr result (self.new ≡ self.old) }
    {
        let sender = self.sender.try_clone()?;
        let pass = self.sender.another::<MakeWaker>(&mut self.pass);
        Ok(RelayWaker { sender, pass })
    }
}

impl<M: Drop, P: Plan<M>> RelayWaker<M, P> {
    /// Makes another waker, for another thread. The error means that an allocation failed.
    pub fn another(&mut self) -> Result<RelayWaker<M, P>, AllocError>
        ensures relay { IfOk result (λ waker.
            waker ≡ record { relay = self.old.relay; given = 0 }) }
        ensures same { self.new ≡ self.old }
    {
        let sender = self.sender.try_clone()?;
        let pass = self.sender.another::<CopyWaker>(&mut self.pass);
        Ok(RelayWaker { sender, pass })
    }

    /// Wakes the thread that takes. A wake-up takes room in the relay as a parcel does, and while the relay is full
    /// this waits. So the thread that takes should not wake itself.
    ///
    /// True means that the wake-up is in the relay, after everything that was there. False means that none was sent.
    /// This happens if the receiver's end is gone, which no contract says.
    pub fn wake<R: Wait>(&mut self, rt: &R) -> bool
        ensures relay { self.new.relay ≡ self.old.relay }
        ensures given { MatchBool result (self.new.given ≡ self.old.given + 1)
            (self.new.given ≡ self.old.given) }
    {
        match self.sender.send_as::<Woken, R>(rt, &mut self.pass, None) {
            Ok(()) => true,
            Err(_) => false,
        }
    }
}

impl<M: Drop, P: Plan<M>> RelayRx<M, P> {
    ghost use Rattle.std.specs.Prelude.{true};
    ghost use Rattle.lsp_relay.specs.Relay.{IsLearned, TakenIs, has_end, wakes_after};

    /// States that the parcels that were taken follow the plan, if there is one, and that each wake-up was sent by a
    /// waker that was made before. It does nothing else.
    pub fn learn(&self)
        ensures { IsLearned P.may_send self.now.source self.now.wakeable self.now.taken self.now.wakes }
    {
        let _pass = &self.pass;
    }

    /// Takes the parcel at the front in one step. It waits while the relay is empty, and ignores wake-ups.
    ///
    /// `None` means that no parcel was taken. This happens if the relay is empty and the sender's end and all wakers
    /// are gone, which no contract says.
    pub fn take<R: Wait>(&mut self, rt: &R) -> Option<Parcel<M>>
        ensures relay { self.new.relay ≡ self.old.relay }
        ensures source { (self.new.source ≡ self.old.source) × (self.new.wakeable ≡ self.old.wakeable) }
        ensures some { IfSome result (λ parcel. self.new.taken ≡ self.old.taken ++ parcel ∷ []) }
        ensures none { IfNone result (self.new.taken ≡ self.old.taken) }
        ensures wakes { self.old.wakes ≤ self.new.wakes }
    {
        for _ in rt.forever() {
            match self.take_or_wake(rt) {
                Taken::Parcel(parcel) => return Some(parcel),
                Taken::Wake => {}
                Taken::Nothing => return None,
            }
        }
        unreachable!()
    }

    /// Takes the parcel or the wake-up at the front in one step. It waits while the relay is empty. `Taken::Wake` means
    /// that one wake-up was taken, and no other result takes one. `Taken::Nothing` is returned where `take` returns
    /// `None`.
    pub fn take_or_wake<R: Wait>(&mut self, rt: &R) -> Taken<M>
        ensures relay { self.new.relay ≡ self.old.relay }
        ensures source { (self.new.source ≡ self.old.source) × (self.new.wakeable ≡ self.old.wakeable) }
        ensures taken { TakenIs result self.old.taken self.new.taken }
        ensures wakes { self.new.wakes ≡ wakes_after result self.old.wakes }
    {
        match self.receiver.recv_as::<Received<P>, R>(rt, &mut self.pass) {
            Ok(Some(parcel)) => Taken::Parcel(parcel),
            Ok(None) => Taken::Wake,
            Err(_) => Taken::Nothing,
        }
    }

    /// Does what `take_or_wake` does, but doesn't wait. `Taken::Nothing` means that nothing is at the front.
    pub fn try_take<R: Wait>(&mut self, rt: &R) -> Taken<M>
        ensures relay { self.new.relay ≡ self.old.relay }
        ensures source { (self.new.source ≡ self.old.source) × (self.new.wakeable ≡ self.old.wakeable) }
        ensures taken { TakenIs result self.old.taken self.new.taken }
        ensures wakes { self.new.wakes ≡ wakes_after result self.old.wakes }
    {
        match self
            .receiver
            .try_recv_as::<Received<P>, R>(rt, &mut self.pass)
        {
            Ok(Some(parcel)) => Taken::Parcel(parcel),
            Ok(None) => Taken::Wake,
            Err(_) => Taken::Nothing,
        }
    }

    /// Takes without waiting. `None` means that no parcel was taken: nothing or a wake-up was at the front.
    fn take_at_once<R: Wait>(&mut self, rt: &R) -> Option<Parcel<M>>
        ensures relay { self.new.relay ≡ self.old.relay }
        ensures source { (self.new.source ≡ self.old.source) × (self.new.wakeable ≡ self.old.wakeable) }
        ensures some { IfSome result (λ parcel. self.new.taken ≡ self.old.taken ++ parcel ∷ []) }
        ensures none { IfNone result (self.new.taken ≡ self.old.taken) }
        ensures wakes { self.old.wakes ≤ self.new.wakes }
    {
        match self.try_take(rt) {
            Taken::Parcel(parcel) => Some(parcel),
            Taken::Wake | Taken::Nothing => None,
        }
    }

    /// Takes a parcel without waiting, when both ends are in one thread again. After this the parcels that were taken
    /// are the first of those that were sent, in order, and all of them if `Parcel::End` was taken. If no waker was
    /// ever made, no wake-up was taken.
    ///
    /// `None` means that no parcel was taken. This happens if the relay is empty, or if a wake-up is at the front,
    /// which is taken then.
    pub fn settle<R: Wait>(&mut self, rt: &R, tx: &mut RelayTx<M, P>) -> Option<Parcel<M>>
        requires same_relay { self.old.relay ≡ tx.old.relay }
        ensures relay { self.new.relay ≡ self.old.relay }
        ensures some { IfSome result (λ parcel. self.new.taken ≡ self.old.taken ++ parcel ∷ []) }
        ensures none { IfNone result (self.new.taken ≡ self.old.taken) }
        ensures settled { IsPrefix self.new.taken tx.new.sent }
        ensures whole { has_end self.new.taken ≡ true → self.new.taken ≡ tx.new.sent }
        ensures wakes { self.old.wakes ≤ self.new.wakes }
        ensures unwoken { tx.old.wakeable ≡ false → self.new.wakes ≡ 0 }
        ensures sender { tx.new ≡ tx.old }
    {
        let front = self.take_at_once(rt);
        let takes = tx.sender.another::<Lend>(&mut self.pass);
        tx.sender.absorb::<Roles>(&mut tx.pass, takes);
        tx.sender.learn_as::<Whole<P>>(&mut tx.pass);
        self.pass = tx.sender.another::<Roles>(&mut tx.pass);
        front
    }
}

/// Gives a fresh relay a plan. From now on the sender sends only what the plan allows, and makes no waker, and the
/// receiver knows both.
pub fn plan<M: Drop, P: Plan<M>, W: Source>(tx: &mut RelayTx<M, P>, rx: &mut RelayRx<M, P>)
    requires same_relay { rx.old.relay ≡ tx.old.relay }
    requires fresh { tx.old.sent ≡ [] }
    requires begins { P.may_send W.source [] }
    ensures sender { tx.new ≡ record {
      relay = tx.old.relay;
      sent = [];
      wakeable = tx.old.wakeable;
      source = Some W.source;
    } }
    ensures receiver { rx.new ≡ record {
      relay = rx.old.relay;
      taken = rx.old.taken;
      wakes = rx.old.wakes;
      wakeable = tx.old.wakeable;
      source = Some W.source;
    } }
{
    let takes = tx.sender.another::<Lend>(&mut rx.pass);
    tx.sender.absorb::<Roles>(&mut tx.pass, takes);
    tx.sender.learn_as::<Whole<P>>(&mut tx.pass);
    rx.pass = tx.sender.another::<Plans<W>>(&mut tx.pass);
}

/// Settles a relay whose ends are in one thread again, and drops both. The parcels that were taken are the first of
/// those that were sent. If no waker was ever made, no wake-up was taken.
pub fn settle_all<R: Wait, M: Drop, P: Plan<M>>(rt: &R, rx: RelayRx<M, P>, tx: RelayTx<M, P>)
    requires { rx.relay ≡ tx.relay }
    ensures settled { IsPrefix rx.taken tx.sent }
    ensures unwoken { tx.wakeable ≡ false → rx.wakes ≡ 0 }
{
    let mut rx = rx;
    let mut tx = tx;
    let _ = rx.settle(rt, &mut tx);
}
