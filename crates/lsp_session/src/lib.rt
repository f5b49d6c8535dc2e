//! A server's session (LSP 3.17, "Server lifecycle"): the handshake and the shutdown with any inbox and outbox, and the
//! loops between bytes and messages. `lsp_server` exports all of it under the same names, except the module `machine`.
#![tactic(auto)]

mod beginning;
mod error;
pub mod laws;
mod lifecycle;
mod loops;
pub mod machine;

pub use error::ProtocolError;
pub use lifecycle::{
    Arrival, CallGate, Event, Gate, Inbox, ListGate, ListInbox, ListOutbox, OpenGate, Outbox,
    SendFault, TextOutbox, WakingInbox, finish, finish_within, is_exit, null_response, shutdown,
    start_within, wait_within,
};
pub use loops::{
    Application, BadContentPolicy, ClientStreams, EndOnBadContent, FrameOutbox, Handler,
    HandlerApplication, HandlerService, Output, ReadEnd, Sendable, Service, SessionEnd,
    SessionFault, SessionOutcome, SkipAndCount, SkipAndFlag, SkipSilently, StopReason, StreamInbox,
    StreamTransport, ToSend, TolerantInbox, Transcript, WriteEnd, initialize_result,
    is_bad_content, read_loop, read_loop_within, serve, serve_application, serve_service,
    serve_transport, session, session_answer, session_within, write_loop,
};
