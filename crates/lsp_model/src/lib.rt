//! The types of LSP 3.17's meta model as data, and whether the params and results of messages fit them.
#![tactic(auto)]

mod findings;
mod fitting;
mod form;
mod line_counts;
mod lines;
mod lsp;
mod misfit;
mod mode;
mod model;
mod plain;
mod spans;
mod texts;

pub use fitting::fits;
pub use form::{Form, Member};
pub use line_counts::LineCounts;
pub use misfit::Misfit;
pub use mode::Mode;
pub use model::{Method, Model, Receiver};
