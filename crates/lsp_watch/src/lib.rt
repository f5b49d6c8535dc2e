//! A watch over what passes between a client and a server: whether each message fits those before it, and is one by itself (JSON-RPC
//! 2.0; LSP 3.17).
#![tactic(auto)]

mod breach;
mod direction;
mod documents;
pub mod laws;
mod lifecycle;
mod logged;
mod methods;
mod open;
mod progress;
mod requests;
mod rule;
mod shape;
mod unread;
mod uses;
mod watch;

pub use breach::{Breach, Unanswered, Verdict};
pub use direction::Direction;
pub use documents::document_uri;
pub use logged::{Entry, Kind, LoggedId, LoggedMessage};
pub use open::Asked;
pub use progress::progress_token;
pub use rule::{Group, Level, Rule, Side, rules};
pub use watch::Watch;
