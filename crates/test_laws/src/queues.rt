//! Requests that have no reply yet.
ghost use Rattle.std.specs.Prelude.{◌≡◌, Some, IfOk};
ghost use Rattle.std.specs.FinMap as map;

use lsp_message::RequestId;
use lsp_queue::laws::pending_is_last_registered;
use lsp_queue::{Incoming, RegisterFault};

/// Registers requests under the ids 1, 2 and 1 again, completes the one under the id 2, and returns the data under the
/// id 1, which is that of the last registration.
pub fn data_of_last(queue: &mut Incoming<u32>) -> Result<Option<u32>, RegisterFault<u32>>
    requires { queue.old ≡ map.empty }
    ensures { IfOk result (λ found. found ≡ Some 30) }
{
    pending_is_last_registered::<u32>();
    queue.register(RequestId::from(1), 10)?;
    queue.register(RequestId::from(2), 20)?;
    queue.register(RequestId::from(1), 30)?;
    queue.complete(&RequestId::from(2));
    Ok(queue.complete(&RequestId::from(1)))
}
