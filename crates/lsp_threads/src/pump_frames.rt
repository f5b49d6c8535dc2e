//! Frames of a reader's messages, made in the reading thread, several of them in one parcel.
ghost use Rattle.std.specs.Prelude.{◌≡◌, []};
ghost use Rattle.lsp_threads.specs.Framing.{HandsSome, TellsFrames};
ghost use Rattle.lsp_threads.specs.Passing.{OfTaken, ReadingFails, TakenFrom};

use crate::backlog::Backlog;
use crate::frame_batch::{FULL_PARCEL, FrameBatch};
use crate::frame_text::FrameText;
use crate::peeking_reader::PeekingReader;
use crate::workers::ReadsInto;
use lsp_message::{ByteTrace, Limits, Message};
use lsp_relay::RelayTx;
use lsp_session::{ReadEnd, is_exit};
use std::alloc::Global;
use std::io::BufRead;
use std::sync::Wait;

/// Makes the frames of a reader's messages, up to and including the first `exit`, as `read_loop_within` passes on
/// messages. The frames are sent before a read that may wait. It records the bytes that it takes, and how the reader
/// failed.
fn read_frames<R: Wait + Drop, S: BufRead>(
    rt: &R,
    alloc: Global,
    reader: &mut PeekingReader<S>,
    outbox: &mut FrameBatch<R>,
    limits: Limits,
    taken: &mut ByteTrace,
) -> ReadEnd
    requires { (taken.old.parts ≡ []) × (taken.old.failed ≡ []) }
    ensures handed { OfTaken taken.new.parts (λ text.
        HandsSome limits text outbox.old.framing outbox.new.framing result) }
    ensures taken { TakenFrom (S.remaining reader.old.inner) taken.new.parts }
    ensures failed { ReadingFails result taken.new }
    ensures relay { outbox.new.framing.relay ≡ outbox.old.framing.relay }
{
    for _ in rt.forever() {
        let message = match Message::read_traced(alloc, reader, limits, taken) {
            Ok(Some(message)) => message,
            Ok(None) => return ReadEnd::End,
            Err(fault) => return ReadEnd::Fault(fault),
        };
        let is_last = is_exit(&message);
        let framed = message.to_frame(alloc);
        drop(message);
        let frame = match framed {
            Ok(frame) => frame,
            Err(_) => return ReadEnd::Memory,
        };
        outbox.add(frame, taken.so_far());
        if is_last {
            return ReadEnd::Exit;
        }
        let size = if reader.shows_frame() { FULL_PARCEL } else { 0 };
        outbox.hand_over_from(size);
    }
    unreachable!()
}

impl ReadsInto for RelayTx<FrameText> {
    ghost use Rattle.std.specs.Prelude.{◌≡◌, []};
    ghost use Rattle.lsp_threads.specs.Framing.{TellsFrames};

    ghost tells = { TellsFrames };

    ghost same_end = { λ old new. new.relay ≡ old.relay };

    ghost may_read = { λ known limit tx. tx.sent ≡ [] };

    fn read_into<R: Wait + Copy + Drop, S: BufRead + Drop>(
        self,
        rt: R,
        alloc: Global,
        reader: S,
        limits: Limits,
        backlog: Backlog,
    ) -> (RelayTx<FrameText>, ReadEnd, ByteTrace)
        requires { self.sent ≡ [] }
        ensures relay { result.0.relay ≡ self.relay }
        ensures told { TellsFrames limits (S.remaining reader) self result.1 result.2.parts result.0 }
        ensures failed { ReadingFails result.1 result.2 }
    {
        let mut reader = PeekingReader::new(reader);
        let mut outbox = FrameBatch::new(rt, alloc, self, backlog);
        let mut taken = ByteTrace::new();
        let end = read_frames(&rt, alloc, &mut reader, &mut outbox, limits, &mut taken);
        (outbox.finish(), end, taken)
    }
}
