//! What each end of a relay knows, and how the two ends share it. It exists only in the proofs.
use crate::ends::Parcel;
use crossbeam_channel::protocol::{Join, Lesson, Outcome, Protocol, Split};
use std::collections::LinkedList;
use std::marker::{Brand, PhantomData};

/// What a pass knows: whether it may send and take, and what was sent and taken with it. No value of it is made.
pub struct Account<M> {
    /// Whether it may send.
    pub sends: bool,
    /// Whether it may take.
    pub takes: bool,
    /// Whether it may wake.
    pub may_wake: bool,
    /// What was sent with it, in order.
    pub sent: LinkedList<Parcel<M>>,
    /// What was taken with it, in order.
    pub taken: LinkedList<Parcel<M>>,
    /// How many wake-ups were sent or taken with it.
    pub wakes: u64,
    /// Whether a waker was ever made. A pass knows it that may send, and one that may take and knows a plan.
    pub wakeable: bool,
    /// What the relay's plan is made of, if it has one: bytes, if they are known, and two bounds, the first if there is
    /// one.
    pub source: Option<(Option<LinkedList<u8>>, (Option<u64>, u64))>,
}

/// Which parcels may be sent on a relay, for these bytes and these bounds.
pub trait Plan<M> {
    ghost use Rattle.std.specs.Prelude.{ℕ, List, Option};
    ghost use Rattle.lsp_relay.specs.declared.ends.Parcel.{Parcel as AnyParcel};

    ghost may_send: { Option (List ℕ) × (Option ℕ × ℕ) → List (AnyParcel M) → Type 0 };
}

/// A plan that allows everything.
pub struct AnyPlan;

impl<M> Plan<M> for AnyPlan {
    ghost may_send = { λ source sent. Unit {0} };
}

/// The rule of a relay: the parcels that were taken, followed by those that are held, are those that were sent; and if
/// no waker was made, there are no wake-ups. The channel holds `None` for a wake-up.
pub(crate) struct InOrder<P> {
    plan: PhantomData<P>,
}

impl<M, P: Plan<M>> Protocol<Option<Parcel<M>>, Account<M>> for InOrder<P> {
    ghost use Rattle.lsp_relay.specs.Relay.{both_account, TakenThenHeldIsSent};
    ghost use Rattle.std.specs.Prelude.{[], None, false};

    ghost holds = { TakenThenHeldIsSent P.may_send };

    ghost first = { both_account [] [] 0 false None };
}

/// The two roles are given to two passes, and come together again.
pub(crate) struct Roles;

impl<M> Split<Account<M>> for Roles {
    ghost use Rattle.lsp_relay.specs.Relay.{sender_account, receiver_account};

    ghost left = { λ v. sender_account v.sent v.wakeable v.source };

    ghost right = { λ v. receiver_account v.taken v.wakes v.wakeable v.source };
}

impl<M> Join<Account<M>> for Roles {
    ghost use Rattle.lsp_relay.specs.Relay.{both_account, no_account};

    ghost both = { λ v w. both_account v.sent w.taken w.wakes v.wakeable v.source };

    ghost spent = { no_account };
}

/// The receiver's role moves to a pass of its own.
pub(crate) struct Lend;

impl<M> Split<Account<M>> for Lend {
    ghost use Rattle.lsp_relay.specs.Relay.{receiver_account, no_account};

    ghost left = { λ v. no_account };

    ghost right = { λ v. receiver_account v.taken v.wakes v.wakeable v.source };
}

/// What a relay's plan is made of, picked for each.
pub trait Source {
    ghost use Rattle.std.specs.Prelude.{ℕ, List, Option};

    ghost source: { Option (List ℕ) × (Option ℕ × ℕ) };
}

impl Source for Brand {
    ghost use Rattle.std.specs.Prelude.{None};

    ghost source = { (None, (None, 0)) };
}

/// The two roles are given to two passes, which know what may be sent.
pub(crate) struct Plans<W> {
    what: PhantomData<W>,
}

impl<M, W: Source> Split<Account<M>> for Plans<W> {
    ghost use Rattle.std.specs.Prelude.{Some};
    ghost use Rattle.lsp_relay.specs.Relay.{sender_account, receiver_account};

    ghost left = { λ v. sender_account v.sent v.wakeable (Some W.source) };

    ghost right = { λ v. receiver_account v.taken v.wakes v.wakeable (Some W.source) };
}

/// A waker is made by the sender, which knows it.
pub(crate) struct MakeWaker;

impl<M> Split<Account<M>> for MakeWaker {
    ghost use Rattle.std.specs.Prelude.{true};
    ghost use Rattle.lsp_relay.specs.Relay.{waker_account};

    ghost left = { λ v. record v { wakeable = true } };

    ghost right = { λ v. waker_account 0 };
}

/// A waker makes another one.
pub(crate) struct CopyWaker;

impl<M> Split<Account<M>> for CopyWaker {
    ghost use Rattle.lsp_relay.specs.Relay.{waker_account};

    ghost left = { λ v. v };

    ghost right = { λ v. waker_account 0 };
}

/// A parcel was added at the back.
pub(crate) struct Sent;

impl<M> Outcome<Option<Parcel<M>>, Account<M>> for Sent {
    ghost use Rattle.lsp_relay.specs.Relay.{sends_one};

    ghost then = { sends_one };
}

impl<M> Lesson<Option<Parcel<M>>, Account<M>> for Sent {
    ghost fact = { λ v items. Unit {0} };
}

/// A wake-up was added at the back. The account has one more of them.
pub(crate) struct Woken;

impl<M> Outcome<Option<Parcel<M>>, Account<M>> for Woken {
    ghost use Rattle.lsp_relay.specs.Relay.{gives_wake};

    ghost then = { gives_wake };
}

impl<M> Lesson<Option<Parcel<M>>, Account<M>> for Woken {
    ghost fact = { λ v items. Unit {0} };
}

/// The parcel or the wake-up at the front was taken.
pub(crate) struct Received<P> {
    plan: PhantomData<P>,
}

impl<M, P: Plan<M>> Outcome<Option<Parcel<M>>, Account<M>> for Received<P> {
    ghost use Rattle.lsp_relay.specs.Relay.{takes_one};

    ghost then = { takes_one P.may_send };
}

impl<M, P> Lesson<Option<Parcel<M>>, Account<M>> for Received<P> {
    ghost fact = { λ v items. Unit {0} };
}

/// The parcels that were sent are those that were taken, followed by those that are held, and the taken ones follow the
/// plan. If no waker was made, no wake-up was taken.
pub(crate) struct Whole<P> {
    plan: PhantomData<P>,
}

impl<M, P: Plan<M>> Lesson<Option<Parcel<M>>, Account<M>> for Whole<P> {
    ghost use Rattle.std.specs.Prelude.{◌≡◌, ◌++◌, false};
    ghost use Rattle.lsp_relay.specs.Relay.{parcels_of, Follows};

    ghost fact = { λ v items. (v.sent ≡ v.taken ++ parcels_of items)
        × (v.wakeable ≡ false → v.wakes ≡ 0) × Follows P.may_send v.source v.taken };
}
