//! Content parts that were read, gathered for the relay that carries them.
ghost use Rattle.std.specs.Prelude.{◌≡◌, ◌++◌, ◌∷◌, [], false, true, List, OnErr, OnOk};
ghost use Rattle.lsp_relay.specs.Relay.{ended, has_end, IsOpen};
ghost use Rattle.lsp_threads.specs.Contents.{Contents as Carried, BeginsAny, Stays, bytes_of, contents_of};

use crate::backlog::Backlog;
use lsp_message::ByteTrace;
use lsp_relay::{Parcel, Plan, RelayRx, RelayTx};
use std::alloc::{AllocError, Global};
use std::marker::Model;
use std::mem;
use std::sync::Wait;

/// What a parcel of a session's relay carries: the content parts of some messages, in order (LSP 3.17, "Content Part");
/// a trace of all bytes that were taken from the reader up to their end; and whether the reading thread waits after
/// the last of them.
#[derive(Drop)]
pub struct Contents {
    pub(crate) parts: Vec<Vec<u8>>,
    pub(crate) taken: ByteTrace,
    /// Whether nothing is read until the session goes on after the last content part.
    pub(crate) waits: bool,
}

/// How many bytes of content parts go into one parcel. A longer content part is a parcel by itself. It changes speed
/// and memory only.
const FULL_PARCEL: usize = 65536;

/// What may be sent on a session's relay: the content parts in the bytes that were taken up to their end.
pub struct ContentsPlan;

impl Plan<Contents> for ContentsPlan {
    ghost use Rattle.lsp_threads.specs.Contents.{MaySend};

    ghost may_send = { MaySend };
}

/// The sender's end of a session's relay.
pub type ContentsTx = RelayTx<Contents, ContentsPlan>;

/// The receiver's end of a session's relay.
pub type ContentsRx = RelayRx<Contents, ContentsPlan>;

/// The sender's end of a relay of content parts. It gathers content parts until they are passed on, and copies none. It
/// is closed once the receiver's end is gone, and sends nothing from then on.
#[derive(Drop)]
pub struct ContentBatch<R: Wait + Drop> {
    rt: R,
    alloc: Global,
    tx: ContentsTx,
    backlog: Backlog,
    pending: Vec<Vec<u8>>,
    /// The bytes that were taken up to the end of the last content part.
    taken: ByteTrace,
    /// How many bytes wait to be passed on.
    size: usize,
    closed: bool,
}

impl<R: Wait + Drop> Model for ContentBatch<R> {
    ghost use Rattle.std.specs.Prelude.{◌≡◌, ◌++◌, false};
    ghost use Rattle.lsp_relay.specs.Relay.{IsOpen};
    ghost use Rattle.lsp_threads.specs.Contents.{bytes_of, contents_of, BeginsAny, Gathering};

    ghost Value = { Gathering };

    ghost view = { λ b.
        record {
          relay = (b.tx.relay, b.tx.source);
          contents = contents_of b.tx.sent ++ bytes_of b.pending.items;
          wakeable = b.tx.wakeable;
          closed = b.closed;
        } };

    ghost invariant = { λ b. IsOpen b.tx.sent
        × (b.closed ≡ false → BeginsAny b.tx.source (contents_of b.tx.sent ++ bytes_of b.pending.items)
        b.taken.parts) };
}

impl<R: Wait + Drop> ContentBatch<R> {
    pub fn new(rt: R, alloc: Global, tx: ContentsTx, backlog: Backlog) -> ContentBatch<R>
        requires { tx.sent ≡ [] }
        ensures { result ≡ record {
          relay = (tx.relay, tx.source);
          contents = [];
          wakeable = tx.wakeable;
          closed = false;
        } }
    {
        ContentBatch {
            rt,
            alloc,
            tx,
            backlog,
            pending: Vec::new(alloc),
            taken: ByteTrace::new(),
            size: 0,
            closed: false,
        }
    }

    /// Returns whether the receiver's end was gone at an earlier send.
    pub fn is_closed(&self) -> bool
        ensures { result ≡ self.now.closed }
    {
        self.closed
    }

    /// Adds a content part, of the bytes that were taken up to its end. If it does not fit into one parcel with the
    /// content parts that wait, those are passed on first. The error means that an allocation failed.
    pub fn add(&mut self, content: Vec<u8>, taken: &ByteTrace) -> Result<(), AllocError>
        requires { self.old.closed ≡ false
            → BeginsAny self.old.relay.1 (self.old.contents ++ content.items ∷ []) taken.now.parts }
        ensures ok { OnOk result (Stays self.old (self.old.contents ++ content.items ∷ []) self.new) }
        ensures err { OnErr result (Stays self.old self.old.contents self.new) }
    {
        let size = self.size.saturating_add(content.len());
        if size > FULL_PARCEL {
            self.hand_over(false);
        }
        self.gather(content, taken)
    }

    /// Adds a content part to those that wait.
    fn gather(&mut self, content: Vec<u8>, taken: &ByteTrace) -> Result<(), AllocError>
        requires { self.old.closed ≡ false
            → BeginsAny self.old.relay.1 (self.old.contents ++ content.items ∷ []) taken.now.parts }
        ensures ok { OnOk result (Stays self.old (self.old.contents ++ content.items ∷ []) self.new) }
        ensures err { OnErr result (self.new ≡ self.old) }
    {
        let size = self.size.saturating_add(content.len());
        self.pending.push(content)?;
        self.size = size;
        self.taken = taken.so_far();
        Ok(())
    }

    /// Sends the content parts that wait as one parcel, and says in it whether the reading thread waits after them. It
    /// waits while too many bytes are unread.
    fn hand_over(&mut self, waits: bool)
        ensures { Stays self.old self.old.contents self.new }
    {
        if self.closed {
            return;
        }
        self.size = 0;
        let parts = mem::replace(&mut self.pending, Vec::new(self.alloc));
        self.backlog.add(&self.rt, weight(&parts));
        let taken = self.taken.so_far();
        let contents = Contents {
            parts,
            taken,
            waits,
        };
        self.closed = !deliver_contents(&self.rt, &mut self.tx, contents);
    }

    /// Sends the content parts that wait, unless the next message is available and the parcel is not full.
    pub fn go_on(&mut self, has_next: bool)
        ensures { Stays self.old self.old.contents self.new }
    {
        if !has_next || self.size >= FULL_PARCEL {
            self.hand_over(false);
        }
    }

    /// Sends the content parts that wait, and then waits until the session goes on after the last of them. If the
    /// session does not go on, the outbox is closed.
    pub fn wait_to_go_on(&mut self)
        ensures { Stays self.old self.old.contents self.new }
    {
        self.hand_over(true);
        if !self.backlog.may_go_on(&self.rt) {
            self.closed = true;
        }
    }

    /// Sends the content parts that wait and then End, unless the receiver's end is gone, and returns the relay's end.
    pub fn finish(self) -> ContentsTx
        ensures relay { (result.relay, result.source) ≡ self.relay }
        ensures ended { has_end result.sent ≡ true
            → (self.closed ≡ false) × (contents_of result.sent ≡ self.contents)
            × ((parcels : List Carried) × (result.sent ≡ ended parcels)) }
        ensures wakeable { result.wakeable ≡ self.wakeable }
    {
        let ContentBatch {
            rt,
            alloc: _,
            mut tx,
            mut backlog,
            pending,
            taken,
            size: _,
            closed,
        } = self;
        if closed {
            return tx;
        }
        backlog.add(&rt, weight(&pending));
        let contents = Contents {
            parts: pending,
            taken,
            waits: false,
        };
        if !deliver_contents(&rt, &mut tx, contents) {
            return tx;
        }
        let _ = tx.send(&rt, Parcel::End);
        tx
    }
}

/// Returns how many bytes the content parts have.
pub fn weight(parts: &Vec<Vec<u8>>) -> u64 {
    let mut bytes: u64 = 0;
    for content in parts {
        bytes = bytes.saturating_add(content.len() as u64);
    }
    bytes
}

/// Sends content parts as one parcel, unless there are none. Returns false if the receiver's end is gone.
fn deliver_contents<R: Wait>(rt: &R, tx: &mut ContentsTx, contents: Contents) -> bool
    requires open { IsOpen tx.old.sent }
    requires begins { BeginsAny tx.old.source (contents_of tx.old.sent ++ bytes_of contents.parts.items)
        contents.taken.parts }
    ensures relay { (tx.new.relay ≡ tx.old.relay) × (tx.new.source ≡ tx.old.source) }
    ensures contents { result ≡ true → contents_of tx.new.sent ≡ contents_of tx.old.sent
        ++ bytes_of contents.parts.items }
    ensures still_open { IsOpen tx.new.sent }
    ensures wakeable { tx.new.wakeable ≡ tx.old.wakeable }
{
    if contents.parts.is_empty() {
        return true;
    }
    tx.send(rt, Parcel::Message(contents)).is_ok()
}
