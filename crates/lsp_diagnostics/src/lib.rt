//! Diagnostics in the background. At each change of a document a job analyses its text, in place of the job for the
//! text before. So nobody waits for an analysis, and the client never gets diagnostics of an older text.
//!
//! Your job implements `Analysis`, and its result is `Findings`. Your server keeps its documents in an
//! `AnalysedDocuments`, passes it each notification, and takes its commands in `KeyedJobs::take_commands`. In
//! `KeyedJobs::found` it returns the acts of `Findings::publish`. `laws` says what the client gets.
//!
//! If the session skips content that is no message, any text may have missed a change: call
//! `AnalysedDocuments::invalidate_all`. A job that answers a request from the texts implements `TextQuery`.
#![tactic(auto)]

mod analysed;
mod findings;
pub mod laws;
mod text_query;

pub use analysed::{AnalysedDocuments, Analysis};
pub use findings::Findings;
pub use text_query::TextQuery;
