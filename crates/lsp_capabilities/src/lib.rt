//! Watches what a client and a server announce to each other, and reports each message that does not fit it (LSP 3.17,
//! "Capabilities").
#![tactic(auto)]

mod announced;
mod methods;
mod opened;
mod params;
mod registrations;

pub use announced::Announced;
