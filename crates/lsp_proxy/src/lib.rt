//! For a program between a client and a server: it passes the bytes of both on unchanged, and reports the bytes that pass.
#![tactic(auto)]

mod contents;
mod heard;
mod passing;

pub use contents::{Contents, Next};
pub use heard::{Heard, Teller};
pub use passing::{Ended, Hears, pass_on};
