//! The receiver's end of a relay of content parts, several of which arrive in one parcel. It returns them one after
//! another.
ghost use Rattle.std.specs.Prelude.{◌≡◌, [], false};
ghost use Rattle.lsp_relay.specs.Relay.{has_end, IsLearned};
ghost use Rattle.lsp_threads.specs.Contents.{bytes_of, parts_of, MaySend, NextIs};

use crate::backlog::Takes;
use crate::content_batch::{ContentsRx, weight};
use crate::parcels::collect_or_wake;
use lsp_message::ByteTrace;
use lsp_relay::Parcel;
use std::alloc::Global;
use std::collections::VecDeque;
use std::marker::Model;
use std::sync::Wait;

/// How many content parts have to be available after the next one for replies to be gathered. So replies to the few
/// requests that a client sends together go out one by one, and none waits for a slow one.
const MANY: usize = 16;

/// The next item of a relay of content parts.
#[derive(Drop)]
pub enum Next {
    /// A content part.
    Content(Vec<u8>),
    /// A wake-up.
    Wake,
    /// The content parts ended.
    End,
}

/// The receiver's end of a relay of content parts, with those that were taken and not returned yet.
#[derive(Drop)]
pub struct ContentParts<R: Wait + Drop> {
    rt: R,
    rx: ContentsRx,
    takes: Takes,
    waiting: VecDeque<Vec<u8>>,
    /// The bytes that were taken from the reader up to the end of the last parcel.
    taken: ByteTrace,
    /// Whether the reading thread waits after the last parcel.
    is_awaited: bool,
    drained: bool,
}

impl<R: Wait + Drop> Model for ContentParts<R> {
    ghost use Rattle.std.specs.Prelude.{◌≡◌};
    ghost use Rattle.lsp_relay.specs.Relay.{has_end};
    ghost use Rattle.lsp_threads.specs.Contents.{bytes_of, parts_of, Taking};

    ghost Value = { Taking };

    ghost view = { λ b.
        record {
          relay = (b.rx.relay, b.rx.source, b.rx.wakeable);
          taken = b.rx.taken;
          waiting = bytes_of b.waiting.items;
          wakes =
              b.rx.wakes;
        } };

    ghost invariant = { λ b. (b.drained ≡ has_end b.rx.taken) × (b.taken.parts ≡ parts_of b.rx.taken) };
}

impl<R: Wait + Drop> ContentParts<R> {
    pub fn new(rt: R, alloc: Global, rx: ContentsRx, takes: Takes) -> ContentParts<R>
        requires { rx.taken ≡ [] }
        ensures { result ≡ record {
          relay = (rx.relay, rx.source, rx.wakeable);
          taken = rx.taken;
          waiting = [];
          wakes = rx.wakes;
        } }
    {
        ContentParts {
            rt,
            rx,
            takes,
            waiting: VecDeque::new(alloc),
            taken: ByteTrace::new(),
            is_awaited: false,
            drained: false,
        }
    }

    /// Returns whether End was taken.
    pub fn is_drained(&self) -> bool
        ensures { result ≡ has_end self.now.taken }
    {
        self.drained
    }

    /// Returns whether so many content parts are available that replies are gathered. A take does not wait then.
    pub fn is_at_hand(&self) -> bool
        ensures { self.now.waiting ≡ [] → result ≡ false }
    {
        self.waiting.len() > MANY
    }

    /// Returns the runtime with which it waits.
    pub fn handle(&self) -> R
    where
        R: Copy,
    {
        self.rt
    }

    /// Copies the trace of the bytes that were taken from the reader, up to the end of the last parcel. It also states
    /// that the parcels that were taken follow the relay's plan.
    pub fn so_far(&self) -> ByteTrace
        ensures account { result.parts ≡ parts_of self.now.taken }
        ensures learned { IsLearned MaySend self.now.relay.1 self.now.relay.2 self.now.taken self.now.wakes }
    {
        self.rx.learn();
        self.taken.so_far()
    }

    /// Takes the next content part or a wake-up, and waits for it.
    pub fn take_next(&mut self) -> Next
        requires { has_end self.old.taken ≡ false }
        ensures relay { self.new.relay ≡ self.old.relay }
        ensures next { NextIs self.old.taken self.old.waiting self.old.wakes result self.new.taken
            self.new.waiting self.new.wakes }
    {
        let ContentParts {
            rt,
            rx,
            takes,
            waiting,
            taken,
            is_awaited,
            drained,
        } = self;
        let next = next_content(rt, rx, takes, waiting, taken, is_awaited);
        *drained = matches!(next, Next::End);
        next
    }

    /// Reports to the reading thread that the session goes on after the last content part, if that thread waits for it.
    pub fn go_on(&self) {
        if self.is_awaited && self.waiting.is_empty() {
            self.takes.go_on(&self.rt);
        }
    }

    /// Takes no further content part, and returns the relay's end, with a trace of the bytes that were taken from
    /// the reader up to the end of the last parcel. From then on the reading thread waits neither for unread bytes nor
    /// for the session to go on.
    pub fn leave(self) -> (ContentsRx, ByteTrace)
        ensures relay { (result.0.relay, result.0.source, result.0.wakeable) ≡ self.relay }
        ensures taken { result.0.taken ≡ self.taken }
        ensures wakes { result.0.wakes ≡ self.wakes }
        ensures account { result.1.parts ≡ parts_of self.taken }
    {
        let ContentParts {
            rt: _,
            rx,
            takes,
            waiting: _,
            taken,
            is_awaited: _,
            drained: _,
        } = self;
        drop(takes);
        (rx, taken)
    }
}

/// Takes the next content part or a wake-up. While content parts are left that were taken, no parcel and no wake-up is
/// taken.
fn next_content<R: Wait>(
    rt: &R,
    rx: &mut ContentsRx,
    takes: &Takes,
    waiting: &mut VecDeque<Vec<u8>>,
    taken: &mut ByteTrace,
    is_awaited: &mut bool,
) -> Next
    requires unended { has_end rx.old.taken ≡ false }
    requires account { taken.old.parts ≡ parts_of rx.old.taken }
    ensures account { taken.new.parts ≡ parts_of rx.new.taken }
    ensures relay { rx.new.relay ≡ rx.old.relay }
    ensures known { (rx.new.source ≡ rx.old.source) × (rx.new.wakeable ≡ rx.old.wakeable) }
    ensures next { NextIs rx.old.taken (bytes_of waiting.old.items) rx.old.wakes result rx.new.taken
        (bytes_of waiting.new.items) rx.new.wakes }
{
    for _ in rt.forever() {
        match waiting.pop_front() {
            Some(content) => return Next::Content(content),
            None => match collect_or_wake(rt, rx) {
                Some(Parcel::Message(contents)) => {
                    takes.took(rt, weight(&contents.parts));
                    *is_awaited = contents.waits;
                    *waiting = VecDeque::from_vec(contents.parts);
                    *taken = contents.taken;
                }
                Some(Parcel::End) => return Next::End,
                None => return Next::Wake,
            },
        }
    }
    unreachable!()
}
