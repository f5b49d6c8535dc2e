//! JSON values as types of your own, with no text in between.
#![tactic(auto)]

mod depth;
mod read;
mod reader;

pub use read::from_value;
