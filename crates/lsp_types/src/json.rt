//! How types of LSP are read and written, for crates with such types.
//!
//! `reads` says which value a JSON value is read as, and `stands` which JSON a value is written as. Both have a line for
//! each member. No step of a reader returns an error: the first misfit is kept until the end of the object, so that
//! nothing is dropped half way.
//!
//! A type is written to a sink: a text or a tree. Only an object with members that its type has no field for makes a
//! tree first.
mod members;
mod offers;
mod read_lists;
mod read_rest;
mod read_values;
mod reading;
mod values;
mod write_rest;
mod writing;

pub use members::Members;
pub use reading::{FromJson, Misfit, fitting, number_within, optional, present, required};
pub use write_rest::{KnownMembers, write_with};
pub use writing::{ToJson, write_member, write_some, write_text};
