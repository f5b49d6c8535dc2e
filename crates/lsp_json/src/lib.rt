//! JSON values that are read where they stand: in a tree, or in a text that was never made into one.
#![tactic(auto)]

mod fits;
mod json_ref;
mod json_text;
mod numbers;
mod others;
mod text_ref;
mod tree;

pub use json_ref::{JsonItems, JsonRef};
pub use json_text::JsonText;
