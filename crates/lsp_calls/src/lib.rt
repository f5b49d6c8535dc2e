//! Requests and notifications whose params are read where they stand, without a tree (JSON-RPC 2.0, section 4).
#![tactic(auto)]

mod call_ref;
mod call_text;

pub use call_ref::{CallRef, NotificationRef, RequestRef};
pub use call_text::{CallContent, CallReader, CallText};
