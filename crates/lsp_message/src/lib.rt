//! Messages between an editor and a language server (JSON-RPC 2.0), and their frames (LSP 3.17, "Base Protocol").
//! `lsp_server` exports what a server needs of it, under the same names.
#![tactic(auto)]

mod error;
mod frame;
pub mod laws;
mod msg;

pub use error::ExtractError;
pub use frame::byte_trace::ByteTrace;
pub use frame::content::{read_content_traced, read_content_within};
pub use frame::input::{Frame, FrameInput};
pub use frame::limits::Limits;
pub use frame::scan::front;
pub use frame::write::{write_frames, write_frames_traced};
pub use frame::{Front, ReadFault, WriteFault};
pub use msg::{
    ErrorCode, Message, Notification, Request, RequestId, Response, ResponseError, ResultText,
    nests_within, read_as, write_as,
};
