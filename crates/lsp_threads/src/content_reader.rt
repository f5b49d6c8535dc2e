//! The thread that reads. It passes on the content parts of a reader's messages as bytes.
ghost use Rattle.std.specs.Prelude.{◌≡◌, [], false, Some};
ghost use Rattle.lsp_threads.specs.Contents.{ReadsContents, ReadsFor, TellsContents, source_of};
ghost use Rattle.lsp_threads.specs.Passing.{OfTaken, ReadingFails, TakenFrom};

use crate::backlog::Backlog;
use crate::content_batch::{ContentBatch, Contents, ContentsPlan, ContentsTx};
use crate::goes_on::surely_goes_on;
use crate::peeking_reader::PeekingReader;
use crate::workers::ReadsInto;
use json::Scratch;
use lsp_message::{ByteTrace, Limits, ReadFault, read_content_traced};
use lsp_relay::RelayTx;
use lsp_session::ReadEnd;
use std::alloc::Global;
use std::io::BufRead;
use std::sync::Wait;

/// Adds a reader's content parts to an outbox that has none. They are passed on before a read that may wait. After a
/// content part that may be `exit`, or no message, it waits until the session goes on, and ends if the session does
/// not. It also ends once the session takes no further content part. It records the bytes that it takes, and how the
/// reader failed.
fn read_contents<R: Wait + Drop, S: BufRead>(
    rt: &R,
    alloc: Global,
    reader: &mut PeekingReader<S>,
    outbox: &mut ContentBatch<R>,
    limits: Limits,
    taken: &mut ByteTrace,
) -> ReadEnd
    requires fresh { (outbox.old.contents ≡ []) × (taken.old.parts ≡ []) × (taken.old.failed ≡ []) }
    requires source { outbox.old.relay.1 ≡ Some (source_of (S.remaining reader.old.inner) limits) }
    ensures read { outbox.new.closed ≡ false → OfTaken taken.new.parts (λ text.
        ReadsContents limits text result outbox.new.contents) }
    ensures taken { TakenFrom (S.remaining reader.old.inner) taken.new.parts }
    ensures failed { ReadingFails result taken.new }
    ensures relay { outbox.new.relay ≡ outbox.old.relay }
    ensures wakeable { outbox.new.wakeable ≡ outbox.old.wakeable }
{
    let mut scratch = Scratch::new(alloc);
    for _ in rt.forever() {
        let content = match read_content_traced(alloc, reader, limits, taken) {
            Ok(Some(content)) => content,
            Ok(None) => return ReadEnd::End,
            Err(fault) => return ReadEnd::Fault(fault),
        };
        let goes_on = surely_goes_on(alloc, &content, &mut scratch);
        match outbox.add(content, taken) {
            Ok(()) => {}
            Err(_) => return ReadEnd::Fault(ReadFault::Memory),
        }
        if outbox.is_closed() {
            return ReadEnd::Closed;
        }
        if goes_on {
            outbox.go_on(reader.shows_frame());
        } else {
            outbox.wait_to_go_on();
        }
        if outbox.is_closed() {
            return ReadEnd::Closed;
        }
    }
    unreachable!()
}

impl ReadsInto for RelayTx<Contents, ContentsPlan> {
    ghost use Rattle.std.specs.Prelude.{◌≡◌, []};
    ghost use Rattle.lsp_threads.specs.Contents.{ReadsFor, TellsContents};

    ghost tells = { TellsContents };

    ghost same_end = { λ old new. new.relay ≡ old.relay };

    ghost may_read = { λ known limit tx. (tx.sent ≡ []) × ReadsFor known limit tx };

    fn read_into<R: Wait + Copy + Drop, S: BufRead + Drop>(
        self,
        rt: R,
        alloc: Global,
        reader: S,
        limits: Limits,
        backlog: Backlog,
    ) -> (ContentsTx, ReadEnd, ByteTrace)
        requires { (self.sent ≡ []) × ReadsFor (S.remaining reader) limits self }
        ensures relay { result.0.relay ≡ self.relay }
        ensures told { TellsContents limits (S.remaining reader) self result.1 result.2.parts
            result.0 }
        ensures failed { ReadingFails result.1 result.2 }
    {
        let mut reader = PeekingReader::new(reader);
        let mut outbox = ContentBatch::new(rt, alloc, self, backlog);
        let mut taken = ByteTrace::new();
        let end = read_contents(&rt, alloc, &mut reader, &mut outbox, limits, &mut taken);
        (outbox.finish(), end, taken)
    }
}
