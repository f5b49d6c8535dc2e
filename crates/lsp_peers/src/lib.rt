//! Two peers that send each other requests and replies over two links (JSON-RPC 2.0, sections 4 and 5), and what holds
//! however their steps interleave. `lsp_server` exports all of it under the same names.
#![tactic(auto)]

mod fault;
pub mod laws;
mod link;
mod peer;
mod shallow;
mod step;
mod world;

pub use fault::WorldFault;
pub use link::Link;
pub use step::{Outcome, Side, Step};
pub use world::World;
