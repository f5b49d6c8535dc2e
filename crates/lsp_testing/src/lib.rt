//! A test client for a language server: a session in memory, without an editor and without a process. It plays the
//! client of a `Handler` (in a `HandlerApplication`) or of a `Server` (in a `ServerApplication` of `lsp_acts`).
#![tactic(auto)]

mod client;
mod fault;
mod traffic;

pub use client::TestClient;
pub use fault::TestFault;
