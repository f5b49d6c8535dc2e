//! Frames as text, on their way to the thread that writes them.

use lsp_message::ByteTrace;

/// Some frames as one text, and a trace of the bytes that had been taken from the reader when the last of them was made.
#[derive(Drop)]
pub struct FrameText {
    pub(crate) text: String,
    pub(crate) taken: ByteTrace,
}
