//! The text of open documents, and edits of it by lines and characters (LSP 3.17, "Text Document Synchronization").
//! `serde` reads and writes positions, ranges and changes, so `lsp_types` uses these types too. `lsp_documents` reads
//! the params of a client's notifications.
#![tactic(auto)]

mod blocks;
mod columns;
mod document;
mod json;
pub mod laws;
mod line_ends;
mod lines;
mod position;
mod text;

pub use document::{ContentChange, TextDocument};
pub use line_ends::LineEnds;
pub use position::{Position, PositionEncoding, Range};
pub use text::Text;
