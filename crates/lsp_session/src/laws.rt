//! Laws of the lifecycle and of sessions. Each is the contract of a function, on which the proofs of callers may rest.
pub mod clients;
pub mod dialogs;
pub mod endings;
pub mod policies;
pub mod sessions;
pub mod streams;
pub mod turns;
