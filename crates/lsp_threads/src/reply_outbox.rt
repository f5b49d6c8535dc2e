//! The outbox of a session with a writing thread. It makes frames, gathers them, and passes them on as texts.
ghost use Rattle.std.specs.Prelude.{◌≡◌, ◌∷◌, [], false, Ok, IfErr, IfOk, string_bytes};
ghost use Rattle.serde_json.specs.Data.{null};
ghost use Rattle.serde_json.specs.View.{view};
ghost use Rattle.lsp_message.specs.Message.{response};
ghost use Rattle.lsp_message.specs.View.{message_view};
ghost use Rattle.lsp_message.specs.Written.{IsFrameOf};
ghost use Rattle.lsp_session.specs.Boxes.{handed_back};
ghost use Rattle.lsp_threads.specs.Framing.{parcel_bytes, AreEnded};
ghost use Rattle.lsp_threads.specs.Replies.{AddsBytes, RepliesSend, reply_fault as reply_fault_spec};
ghost use Rattle.lsp_threads.specs.Writes.{AddsMark, KeepsMarks, marks_of};

use crate::backlog::Backlog;
use crate::frame_batch::FrameBatch;
use crate::frame_text::FrameText;
use crate::watched_writer::WriteFaults;
use lsp_message::{ByteTrace, Message, RequestId, ResultText, WriteFault};
use lsp_relay::RelayTx;
use lsp_session::{SendFault, null_response};
use std::alloc::Global;
use std::marker::Model;
use std::sync::Wait;

/// From how many bytes on gathered frames are passed on, although more could join them. It changes speed and memory
/// only.
const FULL_TEXT: usize = 8192;

/// The sender's end of a relay of texts. It makes the frame of each message, and passes it on at once. While more
/// content parts are available, it gathers frames instead. It waits for room, and while too many bytes are not written.
///
/// If no memory is left for a frame, or a write has failed, that message and all after it are refused.
#[derive(Drop)]
pub struct ReplyOutbox<R: Wait + Drop> {
    alloc: Global,
    batch: FrameBatch<R>,
    /// Whether the next frame is gathered.
    gathers: bool,
    /// Whether a message was refused.
    failed: bool,
    faults: WriteFaults,
}

impl<R: Wait + Drop> Model for ReplyOutbox<R> {
    ghost use Rattle.lsp_threads.specs.Replies.{Gathered};

    ghost Value = { Gathered };

    ghost view = { λ b.
        record {
          replies = record {
            relay = b.batch.framing.relay;
            bytes = b.batch.framing.bytes;
            failed = b.failed;
          };
          held = b.batch.held;
          marks = b.batch.marks;
        } };
}

impl<R: Wait + Drop> ReplyOutbox<R> {
    pub fn new(
        rt: R,
        alloc: Global,
        tx: RelayTx<FrameText>,
        unwritten: Backlog,
        faults: WriteFaults,
    ) -> ReplyOutbox<R>
        requires { tx.sent ≡ [] }
        ensures { result ≡ record {
          replies = record { relay = tx.relay; bytes = []; failed = false };
          held = [];
          marks = record { taken = []; bytes = [] } ∷ [];
        } }
    {
        ReplyOutbox {
            alloc,
            batch: FrameBatch::new(rt, alloc, tx, unwritten),
            gathers: false,
            failed: false,
            faults,
        }
    }

    /// Sends a message, which is made when `taken` has been taken. The fault means that it was refused, and returns it.
    pub fn send(&mut self, message: Message, taken: ByteTrace) -> Result<(), SendFault>
        ensures sends { RepliesSend self.old.replies (message_view message) result self.new.replies }
        ensures marks { AddsMark self.old.marks taken.parts self.new.replies.bytes self.new.marks }
        ensures handed_back { IfErr result (λ fault. handed_back fault ≡ message) }
    {
        if self.failed || self.faults.any() {
            self.failed = true;
            return Err(SendFault::Memory(message));
        }
        match framed(self.alloc, message) {
            Ok(frame) => {
                self.gather(frame, taken);
                Ok(())
            }
            Err(message) => {
                self.failed = true;
                Err(SendFault::Memory(message))
            }
        }
    }

    /// Sends a response whose result is text already, when `taken` has been taken. The fault means that it was refused,
    /// and returns the response with null as its result.
    pub fn send_text(
        &mut self,
        id: RequestId,
        text: ResultText,
        taken: ByteTrace,
    ) -> Result<(), SendFault>
        ensures sends { RepliesSend self.old.replies (response id (Ok (view text))) result self.new.replies }
        ensures marks { AddsMark self.old.marks taken.parts self.new.replies.bytes self.new.marks }
        ensures handed_back { IfErr result (λ fault. message_view (handed_back fault) ≡ response id (Ok null)) }
    {
        if self.failed || self.faults.any() {
            self.failed = true;
            drop(text);
            return Err(SendFault::Memory(null_response(id)));
        }
        match text.into_frame(self.alloc, &id) {
            Ok(frame) => {
                self.gather(frame, taken);
                drop(id);
                Ok(())
            }
            Err(_) => {
                self.failed = true;
                Err(SendFault::Memory(null_response(id)))
            }
        }
    }

    /// Adds a frame after those that wait, and passes on all of them unless frames are gathered.
    fn gather(&mut self, frame: String, taken: ByteTrace)
        ensures adds { AddsBytes self.old.replies (string_bytes frame) self.new.replies }
        ensures marks { AddsMark self.old.marks taken.parts self.new.replies.bytes self.new.marks }
    {
        self.batch.add(frame, taken);
        let size = if self.gathers { FULL_TEXT } else { 0 };
        self.batch.hand_over_from(size);
    }

    /// Gathers frames from now on, if more content parts are available. Otherwise it passes on the frames that wait,
    /// and from now on each frame at once.
    pub fn go_on(&mut self, at_hand: bool)
        ensures replies { self.new.replies ≡ self.old.replies }
        ensures ready { at_hand ≡ false → self.new.held ≡ [] }
        ensures marks { KeepsMarks self.old.marks self.new.marks }
    {
        self.gathers = at_hand;
        if !at_hand {
            self.batch.hand_over();
        }
    }

    /// Sends the frames that wait and then End, and returns the relay's end, and whether a message was refused.
    pub fn finish(self) -> (RelayTx<FrameText>, bool)
        ensures relay { result.0.relay ≡ self.replies.relay }
        ensures bytes { parcel_bytes result.0.sent ≡ self.replies.bytes }
        ensures ended { AreEnded result.0.sent }
        ensures failed { result.1 ≡ self.replies.failed }
        ensures marks { KeepsMarks self.marks (marks_of result.0.sent) }
    {
        let ReplyOutbox { batch, failed, .. } = self;
        (batch.finish(), failed)
    }
}

/// Makes the frame of a message, which is dropped. If an allocation failed, it returns the message.
fn framed(alloc: Global, message: Message) -> Result<String, Message>
    ensures ok { IfOk result (λ frame. IsFrameOf (message_view message) (string_bytes frame)) }
    ensures err { IfErr result (λ back. back ≡ message) }
{
    match message.to_frame(alloc) {
        Ok(frame) => Ok(frame),
        Err(_) => Err(message),
    }
}

/// Returns the fault of the output: that of the writing thread or, if it has none, that of an outbox that refused a
/// message.
pub fn reply_fault(unwritten: Option<WriteFault>, failed: bool) -> Option<WriteFault>
    ensures { result ≡ reply_fault_spec unwritten failed }
{
    match (unwritten, failed) {
        (Some(fault), _) => Some(fault),
        (None, true) => Some(WriteFault::Memory),
        (None, false) => None,
    }
}
