//! A session of a server as a state machine without IO (LSP 3.17, "Server lifecycle"). Use it for an event loop of your
//! own, for several sessions on one thread, or for a test with no transport.

pub use crate::loops::{Awaits, ByteSession, Came, SessionCore, Stage, Turn, TurnOutput};
