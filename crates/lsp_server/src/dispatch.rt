//! A dispatcher of requests with cancellation (LSP 3.17, "Cancellation Support"). Each request gets at most one reply,
//! and none after it was cancelled or replaced.
pub use lsp_dispatch::{Answer, Call, DispatchFault, Dispatcher, replay};
