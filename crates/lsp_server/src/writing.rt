//! The thread of a connection that writes. It writes the frames of messages that wait together at once.
ghost use Rattle.std.specs.Prelude.{◌≡◌, ◌++◌, List, [], ℕ, IfErr, IfNone, IfOk, IfSome, OnErr, OnOk, Some, string_bytes};
ghost use Rattle.std.specs.Io.KnownBytes.{Appends};
ghost use Rattle.lsp_message.specs.View.{message_view};
ghost use Rattle.lsp_message.specs.Written.{AppendsBeginning, IsFrameOf, IsOutput};
ghost use Rattle.lsp_server.specs.Taken.{taken_of, takes, untaken};
ghost use Rattle.lsp_server.specs.Writing.{FailsBehind, WritesBehind, WritesFrom, WritesMessages};
ghost use Rattle.lsp_threads.specs.Passing.{GivesMore, noted};

use crate::io_fault::IoFault;
use crate::outgoing::Outgoing;
use crate::writer_end::WriterEnd;
use crate::written::Written;
use crossbeam_channel::Receiver;
use lsp_message::{ByteTrace, Message, WriteFault, write_frames_traced};
use std::alloc::{AllocError, Global};
use std::io::Write;
use std::snapshot::Snapshot;
use std::sync::Wait;

/// How many bytes of frames are written together at most, unless one frame has more. It changes speed and memory only.
const FULL: usize = 65536;

/// The thread that writes.
pub(crate) fn write_all<R: Wait + Drop, W: Write + Drop>(
    rt: R,
    alloc: Global,
    outgoing: Receiver<Message>,
    mut writer: W,
    written: Written<Message>,
) -> WriterEnd
    ensures channel { result.channel.value ≡ outgoing }
    ensures written { WritesMessages (taken_of result.taken) (Some []) result.answer (noted result.given) }
{
    let channel = Snapshot::of(&outgoing);
    let mut outgoing = Outgoing::new(outgoing);
    let mut given = ByteTrace::new();
    let answer = write_messages(&rt, alloc, &mut outgoing, &mut writer, &written, &mut given);
    let taken = outgoing.finish();
    WriterEnd {
        channel,
        taken,
        given,
        answer,
    }
}

/// Writes the messages of the channel as frames, in order, until the channel is closed or a write fails (LSP 3.17,
/// "Base Protocol"). The bytes that the writer takes are recorded.
fn write_messages<R: Wait, W: Write>(
    rt: &R,
    alloc: Global,
    outgoing: &mut Outgoing,
    writer: &mut W,
    written: &Written<Message>,
    given: &mut ByteTrace,
) -> Result<(), IoFault>
    requires { taken_of outgoing.old.taken ≡ untaken }
    ensures written { WritesMessages (taken_of outgoing.new.taken) (noted given.old) result (noted given.new) }
    ensures given { GivesMore given.old.parts given.new.parts (W.contents writer.old) (W.contents writer.new) }
{
    for _ in rt.forever() {
        let message = match outgoing.next(rt) {
            Some(message) => message,
            None => return Ok(()),
        };
        if let Err(fault) = write_message(rt, alloc, message, outgoing, writer, written, given) {
            return Err(IoFault::Write(fault));
        }
    }
    unreachable!()
}

/// Writes a message as a frame, together with frames of the messages that wait after it.
fn write_message<R: Wait, W: Write>(
    rt: &R,
    alloc: Global,
    message: Message,
    outgoing: &mut Outgoing,
    writer: &mut W,
    written: &Written<Message>,
    given: &mut ByteTrace,
) -> Result<(), WriteFault>
    ensures written { WritesFrom (message_view message) (taken_of outgoing.old.taken) (noted given.old) result
        (taken_of outgoing.new.taken) (noted given.new) }
    ensures given { GivesMore given.old.parts given.new.parts (W.contents writer.old) (W.contents writer.new) }
{
    match frame_of(rt, alloc, message, written) {
        Ok(frame) => write_behind(rt, alloc, frame, outgoing, writer, written, given),
        Err(_) => Err(WriteFault::Memory),
    }
}

/// The frame of a message. It lets the message go before the write, which may wait.
fn frame_of<R: Wait>(
    rt: &R,
    alloc: Global,
    message: Message,
    written: &Written<Message>,
) -> Result<String, AllocError>
    ensures { IfOk result (λ frame. IsFrameOf (message_view message) (string_bytes frame)) }
{
    let frame = message.to_frame(alloc)?;
    written.let_go(rt, message, frame.len());
    Ok(frame)
}

/// Writes a frame, and frames of the messages that wait. It waits for none. The gathered frames are written in any
/// case, also if no memory is left for the frame of a later message.
fn write_behind<R: Wait, W: Write>(
    rt: &R,
    alloc: Global,
    frame: String,
    outgoing: &mut Outgoing,
    writer: &mut W,
    written: &Written<Message>,
    given: &mut ByteTrace,
) -> Result<(), WriteFault>
    ensures written { WritesBehind (string_bytes frame) (taken_of outgoing.old.taken) (noted given.old) result
        (taken_of outgoing.new.taken) (noted given.new) }
    ensures given { GivesMore given.old.parts given.new.parts (W.contents writer.old) (W.contents writer.new) }
{
    let mut gathered = frame;
    for _ in 0..FULL {
        let message = match next_behind(rt, gathered.len(), outgoing) {
            Some(message) => message,
            None => return write_text(writer, gathered, given),
        };
        let Ok(next) = frame_of(rt, alloc, message, written) else {
            return Err(fail_behind(writer, gathered, given));
        };
        gathered = join(gathered, next, writer, given)?;
    }
    write_text(writer, gathered, given)
}

/// Takes a message whose frame may be written together with so many bytes: one that waits, unless these are enough.
fn next_behind<R: Wait>(rt: &R, gathered: usize, outgoing: &mut Outgoing) -> Option<Message>
    ensures some { IfSome result (λ message.
        taken_of outgoing.new.taken ≡ takes (taken_of outgoing.old.taken) (message_view message)) }
    ensures none { IfNone result (taken_of outgoing.new.taken ≡ taken_of outgoing.old.taken) }
{
    if gathered >= FULL {
        return None;
    }
    outgoing.next_at_once(rt)
}

/// Adds a frame to those that are not written. If they have no room together, the others are written first.
fn join<W: Write>(
    pending: String,
    next: String,
    writer: &mut W,
    given: &mut ByteTrace,
) -> Result<String, WriteFault>
    ensures ok { IfOk result (λ left. (done : List ℕ)
        × Appends (noted given.old) (noted given.new) done
        × (string_bytes pending ++ string_bytes next ≡ done ++ string_bytes left)) }
    ensures err { OnErr result
        (AppendsBeginning (noted given.old) (noted given.new) (string_bytes pending)) }
    ensures fault { IfErr result IsOutput }
    ensures given { GivesMore given.old.parts given.new.parts (W.contents writer.old) (W.contents writer.new) }
{
    let mut pending = pending;
    let fits = next.len() <= FULL.saturating_sub(pending.len());
    if fits && pending.push_str(next.as_str()).is_ok() {
        return Ok(pending);
    }
    write_text(writer, pending, given)?;
    Ok(next)
}

/// Writes the frames that were gathered before memory ran out, and returns the fault.
fn fail_behind<W: Write>(writer: &mut W, gathered: String, given: &mut ByteTrace) -> WriteFault
    ensures written { FailsBehind (string_bytes gathered) result (noted given.old) (noted given.new) }
    ensures given { GivesMore given.old.parts given.new.parts (W.contents writer.old) (W.contents writer.new) }
{
    match write_text(writer, gathered, given) {
        Ok(()) => WriteFault::Memory,
        Err(fault) => fault,
    }
}

/// Writes a text of whole frames.
fn write_text<W: Write>(
    writer: &mut W,
    text: String,
    given: &mut ByteTrace,
) -> Result<(), WriteFault>
    ensures ok { OnOk result (Appends (noted given.old) (noted given.new) (string_bytes text)) }
    ensures begun { AppendsBeginning (noted given.old) (noted given.new) (string_bytes text) }
    ensures fault { IfErr result IsOutput }
    ensures given { GivesMore given.old.parts given.new.parts (W.contents writer.old) (W.contents writer.new) }
{
    write_frames_traced(writer, text.as_str(), given)
}
