// The relay of `lsp_relay`, which carries anything, for messages.
ghost use Rattle.std.specs.Prelude.{◌≡◌, ◌<◌, [], false, IfOk, None};

use lsp_message::Message;
use std::alloc::{AllocError, Global};

/// What a relay carries: a message, or `End`, which means that no more messages follow.
pub type Parcel = lsp_relay::Parcel<Message>;

/// The sender's end of a relay. Contracts see which relay it belongs to, which parcels were sent, in order, and whether
/// a waker was ever made.
pub type RelayTx = lsp_relay::RelayTx<Message>;

/// The receiver's end of a relay. Contracts see which relay it belongs to, which parcels were taken, in order, and the
/// number of wake-ups.
pub type RelayRx = lsp_relay::RelayRx<Message>;

/// Makes a relay with room for `room` parcels, at least one. The error means that an allocation failed.
pub fn relay(alloc: Global, room: usize) -> Result<(RelayTx, RelayRx), AllocError>
    requires { 0 < room }
    ensures one_relay { IfOk result (λ ends. ends.1.relay ≡ ends.0.relay) }
    ensures empty { IfOk result (λ ends. (ends.0.sent ≡ []) × (ends.1.taken ≡ [])) }
    ensures unwoken { IfOk result (λ ends. (ends.1.wakes ≡ 0) × (ends.0.wakeable ≡ false)) }
    ensures unplanned { IfOk result (λ ends. ends.0.source ≡ None) }
{
    lsp_relay::relay(alloc, room)
}
