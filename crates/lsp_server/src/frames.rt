//! Frames, and values read and written by type, without a session.

pub use lsp_message::{ResultText, read_as, write_as, write_frames};
