//! JSON that is written part by part: as a text or as a tree.
#![tactic(auto)]

mod json_writer;
mod sink;
mod tree_writer;

pub use json_writer::{JsonWriteError, JsonWriter};
pub use sink::JsonSink;
pub use tree_writer::TreeWriter;
