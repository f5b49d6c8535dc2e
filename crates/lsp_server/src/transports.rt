//! What a session runs on: values that read messages and write them.

pub use crate::stdio::StandardOutput;
pub use lsp_session::{
    Arrival, ClientStreams, TextOutbox, TolerantInbox, Transcript, WakingInbox, serve_application,
    serve_transport,
};
