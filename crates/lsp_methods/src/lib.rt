//! Calls by LSP's methods. A type of `lsp_types::methods` says which method is meant, and so which params and which
//! result: a pair that LSP does not have does not compile. That a request has this method is proved where the call is
//! made. After `HoverRequest::METHOD =>` in a `match` the prover sees this without help.
//!
//! Params are sent as the tree that they stand for (`ToJson`), and a result is written as JSON text from its type. A tree
//! is read as its type says (`FromJson`). The contracts have both. For params and results of your own with `serde`, use
//! the calls of `lsp_acts` and `lsp_message`.
#![tactic(auto)]

mod configuration;
mod params;
mod publishing;
mod receiving;
mod registering;
mod sending;
mod tracing;

pub use configuration::Configuration;
pub use params::{from_json, from_value};
pub use publishing::publish;
pub use receiving::{answer, on_notification, on_request, read_params, try_answer};
pub use registering::{can_watch_files, register, unregister};
pub use sending::{read_result, reply, result_text, send_notification, send_request};
pub use tracing::TraceValue;
