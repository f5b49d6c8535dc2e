//! A dispatcher of requests with cancellation (JSON-RPC 2.0, section 5; LSP 3.17, "Cancellation Support"). Each request
//! gets at most one reply, and none after it was cancelled or replaced. `lsp_server::dispatch` exports all of it.
#![tactic(auto)]

mod answer;
mod calls;
mod dispatcher;
pub mod laws;

pub use answer::{Answer, DispatchFault};
pub use calls::{Call, replay};
pub use dispatcher::Dispatcher;
