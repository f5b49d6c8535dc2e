// The content parts of frames (LSP 3.17, "Base Protocol"), of which pieces come.
use lsp_message::{Front, Limits, front};
use memchr::memmem;
use std::alloc::{AllocError, Global};

/// The frame at the front of the bytes that arrived.
#[derive(Clone, Copy)]
pub enum Next<'c> {
    /// A frame with this content part.
    Content(&'c [u8]),
    /// Less than a frame.
    More,
    /// No frame, for this reason.
    Bad(&'static str),
}

/// Frames of which pieces come, and their content parts.
#[derive(Drop)]
pub struct Contents {
    /// The bytes that arrived and were not passed yet.
    bytes: Vec<u8>,
    /// How many bytes were passed.
    passed: u64,
}

impl Contents {
    /// Nothing came yet.
    pub fn new(alloc: Global) -> Contents {
        Contents {
            bytes: Vec::new(alloc),
            passed: 0,
        }
    }

    /// Takes one more piece. The error means that an allocation failed, and nothing was taken.
    pub fn push(&mut self, piece: &[u8]) -> Result<(), AllocError> {
        self.bytes.extend_from_slice(piece)
    }

    /// What stands in front. A frame stays there until it is passed.
    pub fn next(&self) -> Next<'_> {
        let bytes = self.bytes.as_slice();
        match front(bytes) {
            Front::Whole(count) => Next::Content(content_of(&bytes[..count])),
            Front::Fault(_) => Next::Bad("the header part of the frame is bad"),
            Front::More if is_long_header(bytes) => {
                Next::Bad("the header part of the frame is longer than 64 KiB")
            }
            Front::More => Next::More,
        }
    }

    /// Passes the frame in front, if it is whole.
    pub fn pass(&mut self) {
        if let Front::Whole(count) = front(self.bytes.as_slice()) {
            remove_front(&mut self.bytes, count);
            self.passed = self.passed.saturating_add(count as u64);
        }
    }

    /// The place of what stands in front: how many bytes came before it.
    pub fn place(&self) -> u64 {
        self.passed
    }

    /// Whether all that came was passed.
    pub fn is_empty(&self) -> bool {
        self.bytes.is_empty()
    }
}

/// The content part of a frame, which stands after the first empty line.
fn content_of(frame: &[u8]) -> &[u8] {
    match memmem::find(frame, b"\r\n\r\n") {
        Some(at) => frame.get(at + 4..).unwrap_or(&[]),
        None => &[],
    }
}

/// Whether the header part goes on after the most bytes that it may have. Otherwise each piece of one that never ends would be looked
/// through again.
fn is_long_header(bytes: &[u8]) -> bool {
    match bytes.get(..Limits::HEADER_BYTES as usize) {
        Some(front) => memmem::find(front, b"\r\n\r\n").is_none(),
        None => false,
    }
}

/// Removes the first bytes, this many or all.
fn remove_front(bytes: &mut Vec<u8>, count: usize) {
    let len = bytes.len();
    let count = count.min(len);
    bytes.as_mut_slice().copy_within(count..len, 0);
    bytes.truncate(len - count);
}
