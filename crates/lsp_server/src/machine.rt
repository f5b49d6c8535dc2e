//! A session without IO, for an event loop of your own, for a test, or behind an interface of another language.

pub use lsp_session::machine::{Awaits, ByteSession, Came, SessionCore, Stage, Turn, TurnOutput};
