// An outbox that writes frames.
use crate::lifecycle::{Outbox, SendFault, TextOutbox, null_response};
use lsp_message::{ByteTrace, Message, RequestId, ResultText, WriteFault};
use std::alloc::Global;
use std::io::Write;

/// Writes each message to a writer as a frame (LSP 3.17, "Base Protocol"). After a fault it is closed, keeps the fault,
/// and writes nothing more.
#[derive(Debug, Drop)]
pub struct FrameOutbox<'a, W> {
    alloc: Global,
    writer: &'a mut W,
    fault: Option<WriteFault>,
}

impl<'a, W: Write> FrameOutbox<'a, W> {
    ghost use Rattle.std.specs.Prelude.{◌≡◌, None, IfErr};
    ghost use Rattle.lsp_message.specs.Told.{Given};
    ghost use Rattle.lsp_message.specs.View.{message_view};
    ghost use Rattle.lsp_session.specs.Account.{sending};
    ghost use Rattle.lsp_session.specs.ActBytes.{SentParts};
    ghost use Rattle.lsp_session.specs.Boxes.{handed_back};
    ghost use Rattle.lsp_session.specs.FrameBoxes.{FrameOutboxSends};
    ghost use Rattle.lsp_session.specs.SessionFailures.{FailsInSend};

    /// Makes an outbox on a writer. It does not allocate.
    pub fn new(alloc: Global, writer: &'a mut W) -> Self
        ensures same_writer { result.writer.ghost_name ≡ writer.entry.ghost_name }
        ensures unwritten { result.writer.now ≡ writer.old }
        ensures unfailed { result.fault ≡ None }
    {
        FrameOutbox {
            alloc,
            writer,
            fault: None,
        }
    }

    /// Makes an outbox that goes on where another on the same writer stopped, with the fault of that one's writes.
    pub(crate) fn resumed(alloc: Global, writer: &'a mut W, fault: Option<WriteFault>) -> Self
        ensures same_writer { result.writer.ghost_name ≡ writer.entry.ghost_name }
        ensures unwritten { result.writer.now ≡ writer.old }
        ensures resumed { (result.fault ≡ fault) × (result.alloc ≡ alloc) }
    {
        FrameOutbox {
            alloc,
            writer,
            fault,
        }
    }

    /// Returns the fault that closed the outbox.
    pub fn fault(&self) -> Option<WriteFault>
        ensures { result ≡ self.now.fault }
    {
        self.fault
    }

    /// Sends a message, as `send` does, and adds the bytes that the writer takes to the trace.
    #[tactic(auto, using(crate::proofs::Sendings::fails_at_kept, crate::proofs::Sendings::fails_at_sent, crate::proofs::Sendings::fails_at_lost))]
    pub(crate) fn send_traced(
        &mut self,
        message: Message,
        given: &mut ByteTrace,
    ) -> Result<(), SendFault>
        ensures sends { FrameOutboxSends W.contents self.old (message_view message) result self.new }
        ensures back { IfErr result (λ fault. handed_back fault ≡ message) }
        ensures told { Given (SentParts self.old.fault (sending (message_view message) result) self.new.fault) given.old.parts
            given.new.parts (W.contents self.old.writer.now) (W.contents self.new.writer.now) }
        ensures failed { FailsInSend self.old.fault self.new.fault given.old given.new }
    {
        if self.fault.is_some() {
            return Err(SendFault::Closed(message));
        }
        match message.write_traced(self.alloc, self.writer, given) {
            Ok(()) => {
                drop(message);
                Ok(())
            }
            Err(fault) => {
                self.fault = Some(fault);
                match fault {
                    WriteFault::Output(_) => Err(SendFault::Closed(message)),
                    WriteFault::Memory => Err(SendFault::Memory(message)),
                }
            }
        }
    }
}

impl<'a, W: Write> FrameOutbox<'a, W> {
    ghost use Rattle.std.specs.Prelude.{◌≡◌, Ok, IfErr};
    ghost use Rattle.serde_json.specs.Data.{null};
    ghost use Rattle.serde_json.specs.View.{view};
    ghost use Rattle.lsp_message.specs.Message.{response};
    ghost use Rattle.lsp_message.specs.Told.{Given};
    ghost use Rattle.lsp_message.specs.View.{message_view};
    ghost use Rattle.lsp_session.specs.Account.{sending};
    ghost use Rattle.lsp_session.specs.ActBytes.{SentParts};
    ghost use Rattle.lsp_session.specs.Boxes.{handed_back};
    ghost use Rattle.lsp_session.specs.FrameBoxes.{FrameOutboxSends};
    ghost use Rattle.lsp_session.specs.SessionFailures.{FailsInSend};

    /// Sends a response whose result is text already, as `send_text` does, and adds the bytes that the writer takes to
    /// the trace.
    #[tactic(auto, using(crate::proofs::Sendings::fails_at_kept, crate::proofs::Sendings::fails_at_sent, crate::proofs::Sendings::fails_at_lost))]
    pub(crate) fn send_text_traced(
        &mut self,
        id: RequestId,
        text: ResultText,
        given: &mut ByteTrace,
    ) -> Result<(), SendFault>
        ensures sends { FrameOutboxSends W.contents self.old (response id (Ok (view text))) result self.new }
        ensures back { IfErr result (λ fault. message_view (handed_back fault) ≡ response id (Ok null)) }
        ensures told { Given (SentParts self.old.fault (sending (response id (Ok (view text))) result) self.new.fault) given.old.parts
            given.new.parts (W.contents self.old.writer.now) (W.contents self.new.writer.now) }
        ensures failed { FailsInSend self.old.fault self.new.fault given.old given.new }
    {
        if self.fault.is_some() {
            drop(text);
            return Err(SendFault::Closed(null_response(id)));
        }
        match text.write_traced(self.alloc, self.writer, &id, given) {
            Ok(()) => {
                drop(id);
                Ok(())
            }
            Err(fault) => {
                self.fault = Some(fault);
                match fault {
                    WriteFault::Output(_) => Err(SendFault::Closed(null_response(id))),
                    WriteFault::Memory => Err(SendFault::Memory(null_response(id))),
                }
            }
        }
    }
}

impl<'a, W: Write> Outbox for FrameOutbox<'a, W> {
    ghost use Rattle.lsp_session.specs.FrameBoxes.{FrameOutboxSends};

    ghost sends = { FrameOutboxSends W.contents };

    fn send(&mut self, message: Message) -> Result<(), SendFault> {
        self.send_traced(message, &mut ByteTrace::new())
    }
}

impl<'a, W: Write> TextOutbox for FrameOutbox<'a, W> {
    fn send_text(&mut self, id: RequestId, text: ResultText) -> Result<(), SendFault> {
        self.send_text_traced(id, text, &mut ByteTrace::new())
    }
}
