// The frames that a session has to send, until they are sent.
ghost use Rattle.serde_json.specs.View.{view};
ghost use Rattle.std.specs.Prelude.{◌≡◌, ◌≤◌, ◌++◌, Ok, [], length, drop as drop_front, IfOk, OnErr, string_bytes};
ghost use Rattle.lsp_message.specs.Message.{response};
ghost use Rattle.lsp_message.specs.View.{message_view};

use crate::error::ProtocolError;
use crate::lifecycle::{Outbox, SendFault, TextOutbox, null_response};
use crate::loops::machine::Turn;
use crate::loops::service::{Sendable, WithTexts, send_message};
use crate::loops::transport::send_turn;
use lsp_message::{Message, RequestId, ResultText};
use std::alloc::{AllocError, Global};

/// An outbox that keeps the frames of its messages until they are sent. If memory runs out, it keeps nothing of that
/// message.
#[derive(Drop)]
pub(crate) struct PendingOutput {
    alloc: Global,
    bytes: Vec<u8>,
    sent: usize,
    ghost within: { sent ≤ length bytes.items },
}

impl PendingOutput {
    ghost use Rattle.lsp_session.specs.PendingOutput.{waiting, AddsFrame};

    /// Makes an empty output. It does not allocate.
    pub(crate) fn new(alloc: Global) -> PendingOutput
        ensures { waiting result ≡ [] }
    {
        PendingOutput {
            alloc,
            bytes: Vec::new(alloc),
            sent: 0,
        }
    }

    /// Returns the bytes that were not sent yet.
    pub(crate) fn as_slice(&self) -> &[u8]
        ensures { result.now ≡ waiting self.now }
    {
        &self.bytes.as_slice()[self.sent..]
    }

    /// Drops `count` bytes from the front. The bytes after them are moved only when at least as many were sent. If none
    /// are left, their memory is freed.
    pub(crate) fn sent(&mut self, count: usize)
        requires { count ≤ length (waiting self.old) }
        ensures { waiting self.new ≡ drop_front count (waiting self.old) }
    {
        let sent = self.sent + count;
        if sent == self.bytes.len() {
            self.bytes = Vec::new(self.alloc);
            self.sent = 0;
        } else if sent < self.bytes.len() - sent {
            self.sent = sent;
        } else {
            drop(self.bytes.drain(..sent));
            self.sent = 0;
        }
    }

    /// Adds a frame. It is moved if no other bytes are to be sent. The error means that an allocation failed.
    fn add(&mut self, frame: String) -> Result<(), AllocError>
        ensures ok { result ≡ Ok tt → waiting self.new ≡ waiting self.old ++ string_bytes frame }
        ensures err { OnErr result (waiting self.new ≡ waiting self.old) }
    {
        if self.bytes.is_empty() {
            self.bytes = frame.into_bytes();
            return Ok(());
        }
        self.bytes.extend_from_slice(frame.as_bytes())
    }

    /// Adds the frame of a message. The error means that an allocation failed.
    fn add_message(&mut self, message: &Message) -> Result<(), AllocError>
        ensures { AddsFrame (message_view message.now) (waiting self.old) result (waiting self.new) }
    {
        self.add(message.to_frame(self.alloc)?)
    }

    /// Adds the frame of the response with this id and this text as its result. The error means that an allocation
    /// failed.
    fn add_text(&mut self, id: &RequestId, text: ResultText) -> Result<(), AllocError>
        ensures { AddsFrame (response id.now (Ok (view text))) (waiting self.old) result (waiting self.new) }
    {
        self.add(text.into_frame(self.alloc, id)?)
    }
}

impl PendingOutput {
    ghost use Rattle.lsp_session.specs.Machine.{turn_sends};
    ghost use Rattle.lsp_session.specs.PendingOutput.{waiting, AddsFrames};

    /// Adds the frames of a turn's messages, in order, up to one for which memory runs out.
    pub(crate) fn add_turn<T: Sendable>(&mut self, turn: Turn<T>) -> Result<(), ProtocolError>
        ensures { AddsFrames (waiting self.old) (turn_sends T.shows turn) result (waiting self.new) }
    {
        let Turn { output, reply } = turn;
        send_turn::<PendingOutput, T, WithTexts>(self, output)?;
        match reply {
            Some(id) => send_message(self, null_response(id)),
            None => Ok(()),
        }
    }
}

impl Outbox for PendingOutput {
    ghost use Rattle.lsp_session.specs.PendingOutput.{PendingSends};

    ghost sends = { PendingSends };

    fn send(&mut self, message: Message) -> Result<(), SendFault> {
        match self.add_message(&message) {
            Ok(()) => {
                drop(message);
                Ok(())
            }
            Err(_) => Err(SendFault::Memory(message)),
        }
    }
}

impl TextOutbox for PendingOutput {
    fn send_text(&mut self, id: RequestId, text: ResultText) -> Result<(), SendFault> {
        match self.add_text(&id, text) {
            Ok(()) => {
                drop(id);
                Ok(())
            }
            Err(_) => Err(SendFault::Memory(null_response(id))),
        }
    }
}
