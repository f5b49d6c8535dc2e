//! Judges a recording or a log of what passed between a client and a server, by the rules of `lsp_watch`, and reports what breaks a rule.
#![tactic(auto)]

mod bytes;
pub mod choice;
mod emacs;
pub mod format;
pub mod full;
pub mod json;
pub mod judgement;
pub mod junit;
pub mod laws;
pub mod lines;
mod lisp;
pub mod log;
mod lua;
pub mod memory;
mod message_text;
pub mod outcome;
pub mod passed;
pub mod reader;
pub mod recording;
pub mod report;
pub mod reported;
pub mod rules_list;
mod sarif;
pub mod sessions;
mod text;
mod time;
mod trace;
mod traced;
mod types;
