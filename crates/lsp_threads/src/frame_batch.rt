//! The ends of a relay of texts: one gathers frames, and a loop writes them.
ghost use Rattle.std.specs.Bool.{MatchBool};
ghost use Rattle.std.specs.Prelude.{◌≡◌, ◌∷◌, ◌++◌, [], None, IfNone, IfSome, OnSome, string_bytes};
ghost use Rattle.lsp_session.specs.SessionFailures.{write_failures};
ghost use Rattle.lsp_relay.specs.Relay.{IsOpen};
ghost use Rattle.lsp_threads.specs.Framing.{parcel_bytes, AreEnded, Gathers, WritesBytes, WritesParcels};
ghost use Rattle.lsp_threads.specs.Passing.{GivesMore, IsFlushed, IsFlushedUnless, noted};
ghost use Rattle.lsp_threads.specs.Writes.{AddsMark, AllWrites, EndsAtMark, KeepsMarks, NotesWrite, marks_of};

use crate::backlog::{Backlog, Takes};
use crate::frame_text::FrameText;
use crate::parcels::{collect, deliver};
use crate::write_trace::WriteTrace;
use lsp_message::{ByteTrace, WriteFault, write_frames_traced};
use lsp_relay::{Parcel, RelayRx, RelayTx, Taken};
use std::alloc::Global;
use std::io::Write;
use std::marker::Model;
use std::mem;
use std::sync::Wait;

/// How many bytes of frames go into one text, and how many bytes of texts are written together, unless one frame has
/// more. It changes speed and memory only.
pub const FULL_PARCEL: usize = 65536;

/// The sender's end of a relay of texts. It gathers frames, and hands them over as one text.
#[derive(Drop)]
pub struct FrameBatch<R: Wait + Drop> {
    rt: R,
    alloc: Global,
    tx: RelayTx<FrameText>,
    unwritten: Backlog,
    /// Frames that were gathered and not handed over yet.
    held: String,
    /// What had been taken from the reader when the last frame was made.
    taken: ByteTrace,
}

impl<R: Wait + Drop> Model for FrameBatch<R> {
    ghost use Rattle.std.specs.Prelude.{◌++◌, string_bytes};
    ghost use Rattle.lsp_relay.specs.Relay.{IsOpen};
    ghost use Rattle.lsp_threads.specs.Framing.{parcel_bytes};
    ghost use Rattle.lsp_threads.specs.Writes.{all_marks, Batch};

    ghost Value = { Batch };

    ghost view = { λ b.
        record {
          framing = record { relay = b.tx.relay; bytes = parcel_bytes b.tx.sent ++ string_bytes b.held };
          held = string_bytes b.held;
          marks = all_marks b.tx.sent b.taken.parts (string_bytes b.held);
        } };

    ghost invariant = { λ b. IsOpen b.tx.sent };
}

impl<R: Wait + Drop> FrameBatch<R> {
    pub fn new(rt: R, alloc: Global, tx: RelayTx<FrameText>, unwritten: Backlog) -> FrameBatch<R>
        requires { tx.sent ≡ [] }
        ensures { result ≡ record {
          framing = record { relay = tx.relay; bytes = [] };
          held = [];
          marks = record { taken = []; bytes = [] } ∷ [];
        } }
    {
        FrameBatch {
            rt,
            alloc,
            tx,
            unwritten,
            held: String::new(alloc),
            taken: ByteTrace::new(),
        }
    }

    /// Adds a frame, which was made when `taken` had been taken. If it does not fit into one text with the frames that
    /// were gathered, those are handed over first.
    pub fn add(&mut self, frame: String, taken: ByteTrace)
        ensures adds { self.new.framing
            ≡ record self.old.framing { bytes = self.old.framing.bytes ++ string_bytes frame } }
        ensures marks { AddsMark self.old.marks taken.parts self.new.framing.bytes self.new.marks }
    {
        if joins(&mut self.held, &frame) {
            self.taken = taken;
            return;
        }
        self.hand_over();
        self.held = frame;
        self.taken = taken;
    }

    /// Hands over the gathered frames as one text. It waits while too many bytes are not written.
    pub fn hand_over(&mut self)
        ensures framing { self.new.framing ≡ self.old.framing }
        ensures held { self.new.held ≡ [] }
        ensures marks { KeepsMarks self.old.marks self.new.marks }
    {
        let text = mem::replace(&mut self.held, String::new(self.alloc));
        self.unwritten.add(&self.rt, text.len() as u64);
        let taken = self.taken.so_far();
        deliver_text(&self.rt, &mut self.tx, text, taken);
    }

    /// Hands over the gathered frames if they have at least this many bytes.
    pub fn hand_over_from(&mut self, size: usize)
        ensures framing { self.new.framing ≡ self.old.framing }
        ensures marks { KeepsMarks self.old.marks self.new.marks }
    {
        if self.held.len() >= size {
            self.hand_over();
        }
    }

    /// Hands over the gathered frames and then End, and returns the relay's end.
    pub fn finish(self) -> RelayTx<FrameText>
        ensures relay { result.relay ≡ self.framing.relay }
        ensures bytes { parcel_bytes result.sent ≡ self.framing.bytes }
        ensures ended { AreEnded result.sent }
        ensures marks { KeepsMarks self.marks (marks_of result.sent) }
    {
        let FrameBatch {
            rt,
            alloc: _,
            mut tx,
            mut unwritten,
            held,
            taken,
        } = self;
        unwritten.add(&rt, held.len() as u64);
        deliver_text(&rt, &mut tx, held, taken);
        deliver(&rt, &mut tx, Parcel::End);
        tx
    }
}

/// Sends a text as one parcel, unless it is empty, with a trace of what had been taken when its last frame was made.
fn deliver_text<R: Wait>(rt: &R, tx: &mut RelayTx<FrameText>, text: String, taken: ByteTrace)
    requires { IsOpen tx.old.sent }
    ensures relay { tx.new.relay ≡ tx.old.relay }
    ensures bytes { parcel_bytes tx.new.sent ≡ parcel_bytes tx.old.sent ++ string_bytes text }
    ensures still_open { IsOpen tx.new.sent }
    ensures marks { AddsMark (marks_of tx.old.sent) taken.parts (parcel_bytes tx.old.sent ++ string_bytes text)
        (marks_of tx.new.sent) }
{
    if !text.is_empty() {
        deliver(rt, tx, Parcel::Message(FrameText { text, taken }));
    }
}

/// Writes each text up to End. Texts that wait together are one write, and it waits for a text only when it has written
/// all that it took. After a fault it writes nothing more, and drops the texts. It records the bytes that the writer
/// takes, how the writer failed, and where each write begins. It reports which bytes, written or dropped, no longer
/// wait.
pub fn write_texts<R: Wait, W: Write>(
    rt: &R,
    alloc: Global,
    rx: RelayRx<FrameText>,
    writer: &mut W,
    given: &mut ByteTrace,
    order: &mut WriteTrace,
    takes: &Takes,
) -> (RelayRx<FrameText>, Option<WriteFault>)
    requires { rx.taken ≡ [] }
    ensures relay { result.0.relay ≡ rx.relay }
    ensures written { WritesParcels result.0.taken result.1 (noted given.old) (noted given.new) }
    ensures given { GivesMore given.old.parts given.new.parts (W.contents writer.old) (W.contents writer.new) }
    ensures flushed { IsFlushed given.old.parts → IsFlushedUnless result.1 given.new.parts }
    ensures failed { given.old.failed ≡ [] → given.new.failed ≡ write_failures result.1 }
    ensures order { given.old.parts ≡ [] → order.old ≡ []
        → AllWrites (EndsAtMark (marks_of result.0.taken)) order.new given.new.parts }
{
    let mut rx = rx;
    let mut fault = None;
    let mut pending = String::new(alloc);
    let mut last = ByteTrace::new();
    for _ in rt.forever() {
        match next_parcel(rt, &mut rx, pending.is_empty()) {
            Some(Parcel::Message(next)) => {
                let FrameText { text, taken } = next;
                let held = pending.len().saturating_add(text.len());
                let (left, first_fault) = gather(fault, pending, text, &last, writer, given, order);
                takes.took(rt, held.saturating_sub(left.len()) as u64);
                pending = left;
                last = taken;
                fault = first_fault;
            }
            Some(Parcel::End) => {
                return (
                    rx,
                    write_after(fault, &pending, &last, writer, given, order),
                );
            }
            None => {
                fault = write_after(fault, &pending, &last, writer, given, order);
                takes.took(rt, pending.len() as u64);
                pending = String::new(alloc);
            }
        }
    }
    unreachable!()
}

/// Takes the next parcel. If there is none, it waits for one or returns `None`, as `waits` says. Wake-ups are ignored.
fn next_parcel<R: Wait, M: Drop>(rt: &R, rx: &mut RelayRx<M>, waits: bool) -> Option<Parcel<M>>
    ensures relay { rx.new.relay ≡ rx.old.relay }
    ensures some { IfSome result (λ parcel. rx.new.taken ≡ rx.old.taken ++ parcel ∷ []) }
    ensures none { IfNone result (rx.new.taken ≡ rx.old.taken) }
{
    if waits {
        return Some(collect(rt, rx));
    }
    match rx.try_take(rt) {
        Taken::Parcel(parcel) => Some(parcel),
        Taken::Wake | Taken::Nothing => None,
    }
}

/// Adds a text after those that are not written. If it can't join them, the others are written first, unless a write
/// failed before. Their last frame was made when `taken` had been taken. Returns the texts that are left, and the first
/// fault.
fn gather<W: Write>(
    before: Option<WriteFault>,
    pending: String,
    text: String,
    taken: &ByteTrace,
    writer: &mut W,
    given: &mut ByteTrace,
    order: &mut WriteTrace,
) -> (String, Option<WriteFault>)
    ensures gathered { Gathers before (string_bytes pending ++ string_bytes text)
        (string_bytes result.0) result.1 (noted given.old) (noted given.new) }
    ensures given { GivesMore given.old.parts given.new.parts (W.contents writer.old) (W.contents writer.new) }
    ensures flushed { IsFlushedUnless before given.old.parts → IsFlushedUnless result.1 given.new.parts }
    ensures failed { given.old.failed ≡ write_failures before → given.new.failed ≡ write_failures result.1 }
    ensures order { NotesWrite before (string_bytes pending) taken.now.parts given.old.parts given.new.parts
        order.old order.new }
{
    let mut pending = pending;
    if joins(&mut pending, &text) {
        return (pending, before);
    }
    let fault = write_after(before, pending.as_str(), taken, writer, given, order);
    (text, fault)
}

/// Adds a text to those that are not written. False means that it was not added: there are none, they have no room
/// together, or an allocation failed.
fn joins(pending: &mut String, text: &str) -> bool
    ensures { MatchBool result (string_bytes pending.new ≡ string_bytes pending.old ++ text.now)
        (string_bytes pending.new ≡ string_bytes pending.old) }
{
    if pending.is_empty() || text.len() > FULL_PARCEL.saturating_sub(pending.len()) {
        return false;
    }
    match pending.push_str(text) {
        Ok(()) => true,
        Err(_) => false,
    }
}

/// Writes a text, unless a write failed before. Its last frame was made when `taken` had been taken. Returns the first
/// fault.
fn write_after<W: Write>(
    before: Option<WriteFault>,
    text: &str,
    taken: &ByteTrace,
    writer: &mut W,
    given: &mut ByteTrace,
    order: &mut WriteTrace,
) -> Option<WriteFault>
    ensures none { before ≡ None → WritesBytes text.now result (noted given.old) (noted given.new) }
    ensures some { OnSome before ((result ≡ before) × (given.new ≡ given.old)) }
    ensures silent { OnSome before (writer.new ≡ writer.old) }
    ensures given { GivesMore given.old.parts given.new.parts (W.contents writer.old) (W.contents writer.new) }
    ensures flushed { IsFlushedUnless before given.old.parts → IsFlushedUnless result given.new.parts }
    ensures failed { given.old.failed ≡ write_failures before → given.new.failed ≡ write_failures result }
    ensures order { NotesWrite before text.now taken.now.parts given.old.parts given.new.parts order.old order.new }
{
    if before.is_some() || text.is_empty() {
        return before;
    }
    order.begin(taken, given);
    write_frames_traced(writer, text, given).err()
}
