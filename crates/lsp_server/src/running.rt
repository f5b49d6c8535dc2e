//! Threads and memory: the bounds of a connection, and what a program may set when it starts.

pub use crate::io_threads::CHANNEL_ROOM;
pub use crate::memory::keep_freed_memory;
pub use crate::serving_thread::{spawn, spawn_with};
pub use crate::unread_weights::DEFAULT_READ_AHEAD_WEIGHT;
pub use lsp_threads::{DEFAULT_READ_AHEAD_BYTES, PumpOutcome, pump_traced};
