//! Policies: what a session does at a content part that is no message.

pub use lsp_session::{
    BadContentPolicy, EndOnBadContent, SkipAndCount, SkipAndFlag, SkipSilently, is_bad_content,
};
