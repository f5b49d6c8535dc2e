// A loop from an inbox to a writer.
ghost use Rattle.lsp_message.specs.View.{message_view};
ghost use Rattle.lsp_message.specs.Written.{Writes};
ghost use Rattle.lsp_session.specs.Boxes.{Offers};
ghost use Rattle.lsp_session.specs.WriteLoop.{WritesOut};

use crate::lifecycle::{Event, Inbox, Outbox, offer};
use lsp_message::{Message, WriteFault};
use std::alloc::Global;
use std::io::Write;

/// How a loop that writes an inbox's messages ended.
#[derive(Clone, Copy, Debug, PartialEq, Eq)]
pub enum WriteEnd {
    /// The inbox is closed, or gave 2^64 - 1 messages. All were written.
    Closed,
    /// The write of the last message failed. All before it were written.
    Fault(WriteFault),
}

/// Writes an inbox's messages as frames (LSP 3.17, "Base Protocol"), in order, until the inbox is closed or a write
/// fails.
///
/// Each message is offered to `done` when its write has ended, whether it succeeded or failed, and the result of `done`
/// is ignored. After a fault nothing more is received or written. Timeouts of the inbox are ignored.
pub fn write_loop<I: Inbox, W: Write, O: Outbox>(
    alloc: Global,
    inbox: &mut I,
    writer: &mut W,
    done: &mut O,
) -> WriteEnd
    ensures { WritesOut I.receives O.sends (inbox.old, W.contents writer.old, done.old) result
        (inbox.new, W.contents writer.new, done.new) }
{
    for _count in 0..u64::MAX {
        let message = match inbox.receive() {
            Event::Message(message) => message,
            Event::Timeout => unreachable!(),
            Event::Closed => return WriteEnd::Closed,
        };
        match write_and_offer(alloc, message, writer, done) {
            Ok(()) => {}
            Err(fault) => return WriteEnd::Fault(fault),
        }
    }
    WriteEnd::Closed
}

/// Writes a message as a frame, and offers it to the outbox, whether or not it was written.
fn write_and_offer<W: Write, O: Outbox>(
    alloc: Global,
    message: Message,
    writer: &mut W,
    done: &mut O,
) -> Result<(), WriteFault>
    ensures written { Writes (message_view message) (W.contents writer.old) result
        (W.contents writer.new) }
    ensures offered { Offers O.sends (message_view message) done.old done.new }
{
    let written = message.write(alloc, writer);
    offer(done, message);
    written
}
