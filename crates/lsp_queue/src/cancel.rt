// What a cancellation names.
ghost use Rattle.std.specs.Prelude.{◌≡◌, IfOk};
ghost use Rattle.serde_json.specs.View.{view};
ghost use Rattle.lsp_queue.specs.Queue.{cancelled_id};

use lsp_message::RequestId;
use serde_json::Value;
use std::alloc::AllocError;

/// Returns the id of the request that the params of `$/cancelRequest` name (LSP 3.17, "Cancellation Support"): they are
/// an object whose `id` is a string or a whole number of 32 bits. For all other params it is `None`. The error means
/// that an allocation failed.
pub fn id_to_cancel(params: &Value) -> Result<Option<RequestId>, AllocError>
    ensures { IfOk result (λ id. id ≡ cancelled_id (view params.now)) }
{
    match params.get("id") {
        Some(id) => RequestId::from_value(id),
        None => Ok(None),
    }
}
