//! The base of language servers (LSP 3.17, JSON-RPC 2.0). It carries messages between an editor and a server, does the
//! handshake and the shutdown, and keeps the requests that have no reply yet.
//!
//! Write a `Handler` for a server that only answers, and run it with `session`. Write a `Server` for one that also sends
//! first, and run its `ServerApplication` with `StreamTransport::serve` on one thread, or with `run_in_threads`. Both also
//! run a `HandlerApplication`. Take a `Connection` for a loop of your own. `docs/WRITING_A_SERVER.md` shows all three.
#![tactic(auto)]

pub mod about;
pub mod calls;
mod channel_account;
mod client_places;
pub mod clients;
mod connection;
pub mod dispatch;
mod explained;
pub mod frames;
mod io_fault;
mod io_threads;
pub mod laws;
pub mod machine;
mod memory;
mod outgoing;
mod outlet;
mod pipe;
mod places;
pub mod policies;
mod reading;
mod relays;
pub mod running;
pub mod services;
mod serving_thread;
mod socket;
mod spent;
mod stdio;
mod transport;
pub mod transports;
mod unread_weights;
mod words;
mod writer_end;
mod writing;
mod written;

pub use connection::Connection;
pub use explained::Explained;
pub use io_fault::IoFault;
pub use io_threads::IoThreads;
pub use lsp_acts::{Act, Server, ServerApplication};
pub use lsp_message::{
    ErrorCode, ExtractError, Front, Limits, Message, Notification, ReadFault, Request, RequestId,
    Response, ResponseError, WriteFault, front,
};
pub use lsp_peers::{Link, Outcome, Side, Step, World, WorldFault};
pub use lsp_queue::{Incoming, Outgoing, RegisterFault, ReqQueue};
pub use lsp_session::{
    Application, CallGate, Event, FrameOutbox, Gate, Handler, HandlerApplication, Inbox, ListGate,
    ListInbox, ListOutbox, OpenGate, Outbox, ProtocolError, ReadEnd, SendFault, SessionEnd,
    SessionFault, StreamInbox, StreamTransport, WriteEnd, finish, finish_within, read_loop,
    read_loop_within, serve, session, session_within, shutdown, start_within, wait_within,
    write_loop,
};
pub use lsp_threads::{
    PumpFault, StartFault, ThreadOptions, Threaded, ThreadsOutcome, pump, pump_within,
    run_in_threads, run_threads, run_threads_within,
};
pub use relays::{Parcel, RelayRx, RelayTx, relay};
