//! No false alarm: what passes between the peers of `lsp_peers`, and what a session of `lsp_session` sends, breaks no
//! rule of `lsp_watch`.
#![tactic(auto)]

pub mod laws;
