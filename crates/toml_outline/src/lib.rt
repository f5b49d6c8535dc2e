//! The keys, tables and values of a TOML text, where each stands, and what is wrong with the text. It knows no LSP.
//!
//! A problem ends the line in which it stands, and the reading goes on at the next line. The kit's `toml_parser` reads
//! strings, numbers and dates. The kit's `toml` decides whether the text is a document: only it looks for keys that are
//! defined twice.
#![tactic(auto)]

mod outline;
mod reader;
mod scanner;

pub use outline::{Entry, Kind, Outline, Problem, Span, Token, TokenKind};
pub use reader::{Reader, read};
