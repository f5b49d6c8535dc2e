//! The documents that a client has opened, kept up to date by its notifications (LSP 3.17, "Text Document
//! Synchronization").
#![tactic(auto)]

mod changes;
mod documents;
mod fault;
mod kept;
mod kept_document;
mod known;
pub mod laws;
mod lost;
mod method;
mod negotiation;
mod options;
mod params;

pub use documents::TextDocuments;
pub use fault::{DocumentFault, DocumentUpdate, SyncWarning, UpdateFault};
pub use kept::DocumentState;
pub use kept_document::KeptDocument;
pub use known::{DocumentSnapshot, KnownDocuments};
pub use lost::LostDocument;
pub use negotiation::SyncOptions;
pub use options::DocumentOptions;
pub use params::{position_encoding, position_from, range_from, uri_from};
