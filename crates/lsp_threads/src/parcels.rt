//! Sends and takes parcels, and tries again as often as needed.
ghost use Rattle.std.specs.Prelude.{◌≡◌, ◌≤◌, ◌+◌, ◌++◌, ◌∷◌, [], IfNone, IfSome};
ghost use Rattle.lsp_relay.specs.Relay.{IsOpen};

use lsp_relay::{Parcel, Plan, RelayRx, RelayTx, Taken};
use std::sync::Wait;

/// Sends a parcel, and tries again as often as needed.
pub fn deliver<R: Wait, M: Drop>(rt: &R, tx: &mut RelayTx<M>, parcel: Parcel<M>)
    requires { IsOpen tx.old.sent }
    ensures relay { tx.new.relay ≡ tx.old.relay }
    ensures sent { tx.new.sent ≡ tx.old.sent ++ parcel ∷ [] }
    ensures wakeable { tx.new.wakeable ≡ tx.old.wakeable }
{
    let mut parcel = parcel;
    for _ in rt.forever() {
        match tx.send(rt, parcel) {
            Ok(()) => return,
            Err(back) => parcel = back,
        }
    }
    unreachable!()
}

/// Takes a parcel, and tries again as often as needed. Wake-ups are ignored.
pub fn collect<R: Wait, M: Drop>(rt: &R, rx: &mut RelayRx<M>) -> Parcel<M>
    ensures relay { rx.new.relay ≡ rx.old.relay }
    ensures taken { rx.new.taken ≡ rx.old.taken ++ result ∷ [] }
    ensures wakes { rx.old.wakes ≤ rx.new.wakes }
{
    for _ in rt.forever() {
        if let Some(parcel) = rx.take(rt) {
            return parcel;
        }
    }
    unreachable!()
}

/// Takes a parcel, or a wake-up, which is `None`, and tries again as often as needed.
pub fn collect_or_wake<R: Wait, M: Drop, P: Plan<M>>(
    rt: &R,
    rx: &mut RelayRx<M, P>,
) -> Option<Parcel<M>>
    ensures relay { rx.new.relay ≡ rx.old.relay }
    ensures known { (rx.new.source ≡ rx.old.source) × (rx.new.wakeable ≡ rx.old.wakeable) }
    ensures parcel { IfSome result (λ parcel. rx.new.taken ≡ rx.old.taken ++ parcel ∷ []) }
    ensures wake { IfNone result (rx.new.taken ≡ rx.old.taken) }
    ensures unwoken { IfSome result (λ parcel. rx.new.wakes ≡ rx.old.wakes) }
    ensures counted { IfNone result (rx.new.wakes ≡ rx.old.wakes + 1) }
{
    for _ in rt.forever() {
        match rx.take_or_wake(rt) {
            Taken::Parcel(parcel) => return Some(parcel),
            Taken::Wake => return None,
            Taken::Nothing => {}
        }
    }
    unreachable!()
}
