//! Requests and notifications whose params are read where they stand, in a text or in a tree. `Server::call` takes them.

pub use lsp_calls::{CallContent, CallReader, CallRef, CallText, NotificationRef, RequestRef};
pub use lsp_json::{JsonItems, JsonRef, JsonText};
