//! What a language server says about TOML texts: hovers, symbols, completions, definitions, edits that format, semantic
//! tokens and folding ranges. It needs no session. Each function takes the open documents and the params of a request,
//! and returns the result of the request. `None` is the result null. It means that the document's text is not known,
//! or that there is nothing to say. `Err` means that an allocation failed.
//!
//! Positions are in the units that the client and the server agreed on.
#![tactic(auto)]

mod completions;
mod definitions;
mod edits;
mod folds;
mod hovers;
mod symbol_lists;
mod tokens;

pub use completions::completion;
pub use definitions::definition;
pub use edits::formatting;
pub use folds::folding;
pub use hovers::hover;
pub use symbol_lists::{symbol_kind, symbols};
pub use tokens::{semantic_tokens, token_legend};
