//! The requests that have no reply yet (JSON-RPC 2.0, section 5). `lsp_server` exports all of it except `id_to_cancel`,
//! under the same names.
#![tactic(auto)]

mod cancel;
mod error;
pub mod laws;
mod req_queue;

pub use cancel::id_to_cancel;
pub use error::RegisterFault;
pub use req_queue::{Incoming, Outgoing, ReqQueue};
