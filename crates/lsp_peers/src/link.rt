//! The bytes of one direction between two peers.
ghost use Rattle.std.specs.Prelude.{◌≡◌, ◌≤◌, ℕ, length, Ok, Err, None, OnOk, OnErr, IfOk, option_map, is_some, min, drop, vec_len};
ghost use Rattle.lsp_message.specs.Front.{front_of};
ghost use Rattle.lsp_message.specs.View.{message_view};
ghost use Rattle.lsp_peers.specs.WorldFault.{fault_of};
ghost use Rattle.lsp_peers.specs.Post.{SentFrame, Post, Carries, ReadsBack, Shows, posted, passed_on, unpassed, next, message_of, empty_post, IfNext, after_take};

use crate::fault::WorldFault;
use lsp_message::{Front, Message, ReadFault, front};
use std::alloc::Global;
use std::marker::Model;

/// The bytes of one direction between two peers: those that have arrived, followed by those on the way.
///
/// They are frames (LSP 3.17, "Base Protocol"), one after another. Their bytes arrive in any pieces.
#[derive(Debug, Drop)]
pub struct Link {
    alloc: Global,
    bytes: Vec<u8>,
    start: usize,
    end: usize,
}

impl Model for Link {
    ghost use Rattle.std.specs.Prelude.{◌≤◌, ◌-◌, vec_len};
    ghost use Rattle.lsp_peers.specs.Post.{Line, line_of};

    ghost Value = { Line };

    ghost view = { λ l. line_of l.bytes.items l.start l.end };

    // The bytes that were taken and are still there are no more than the others.
    ghost invariant = { λ l. (l.start ≤ l.end) × (l.end ≤ vec_len l.bytes)
        × (l.start ≤ vec_len l.bytes - l.start) };
}

impl Link {
    /// Makes a link without bytes. It does not allocate.
    pub fn default(alloc: Global) -> Link
        ensures { Carries result empty_post }
    {
        Link {
            alloc,
            bytes: Vec::new(alloc),
            start: 0,
            end: 0,
        }
    }

    /// Returns the bytes that have arrived and were not taken.
    pub fn arrived(&self) -> &[u8]
        ensures { result.now ≡ self.now.arrived }
    {
        &self.bytes[self.start..self.end]
    }

    /// Returns the bytes on the way.
    pub fn on_way(&self) -> &[u8]
        ensures { result.now ≡ self.now.on_way }
    {
        &self.bytes[self.end..]
    }

    /// Adds a frame of the message to the bytes on the way.
    ///
    /// The only fault is `WorldFault::Memory`. Then the link is as it was.
    pub fn write(&mut self, message: &Message) -> Result<(), WorldFault>
        ensures ok { (post : Post) → Carries self.old post → OnOk result (
            (sent_frame : SentFrame) × (sent_frame.message ≡ message_view message.now)
            × Carries self.new (posted post sent_frame)) }
        ensures err { OnErr result (self.new ≡ self.old) }
        ensures memory { OnErr result (result ≡ Err WorldFault.Memory) }
    {
        let count = self.bytes.len();
        match message.write(self.alloc, &mut self.bytes) {
            Ok(()) => Ok(()),
            Err(_) => {
                self.bytes.truncate(count);
                Err(WorldFault::Memory)
            }
        }
    }

    /// Lets `bytes` bytes arrive, in order, or all that are on the way if these are fewer. It returns how many arrived.
    pub fn pass(&mut self, bytes: usize) -> usize
        ensures { (post : Post) → Carries self.old post →
            (result ≡ min bytes (unpassed post)) × Carries self.new (passed_on post bytes) }
    {
        let count = bytes.min(self.bytes.len() - self.end);
        self.end += count;
        count
    }

    /// Takes the first message if its whole frame has arrived. Otherwise it returns `None`.
    ///
    /// `WorldFault::Memory` means that an allocation failed, and `WorldFault::NotReadBack` that the message nests more
    /// than 127 levels, so that it is not read from its frame. After a fault the link is as it was, with the frame in
    /// front; `skip` skips it.
    pub fn take(&mut self) -> Result<Option<Message>, WorldFault>
        ensures ok { (post : Post) → Carries self.old post → IfNext ReadsBack post
            → IfOk result (λ taken.
            (option_map message_view taken ≡ message_of (next post))
            × Carries self.new (after_take post)) }
        ensures err { OnErr result (self.new ≡ self.old) }
        ensures memory { (post : Post) → Carries self.old post → IfNext ReadsBack post →
            OnErr result (result ≡ Err WorldFault.Memory) }
        ensures waits { front_of self.old.arrived ≡ Front.More → result ≡ Ok None }
        ensures idle { (post : Post) → Carries self.old post → next post ≡ None → result ≡ Ok None }
        ensures comes { (post : Post) → Carries self.old post → result ≡ Ok None
            → next post ≡ None }
    {
        match self.first() {
            Front::More => Ok(None),
            Front::Fault(_) => Err(WorldFault::NotReadBack),
            Front::Whole(count) => {
                let mut frame = &self.arrived()[..count];
                match Message::read(self.alloc, &mut frame) {
                    Ok(Some(message)) => {
                        self.remove(count);
                        Ok(Some(message))
                    }
                    Ok(None) => Err(WorldFault::NotReadBack),
                    Err(fault) => Err(fault_of_read(fault)),
                }
            }
        }
    }

    /// Skips the first message if its whole frame has arrived, without reading it, and returns whether it did. So a
    /// link goes on after a message that `take` can't read.
    pub fn skip(&mut self) -> bool
        ensures { (post : Post) → Carries self.old post → (result ≡ is_some (next post))
            × Carries self.new (after_take post) }
    {
        match self.first() {
            Front::Whole(count) => {
                self.remove(count);
                true
            }
            Front::More => false,
            Front::Fault(_) => false,
        }
    }

    /// Returns how much of the arrived bytes is the first frame.
    fn first(&self) -> Front
        ensures front { result ≡ front_of self.now.arrived }
        ensures within { (count : ℕ) → result ≡ Front.Whole count → count ≤ length self.now.arrived }
        ensures shows { (post : Post) → Carries self.now post → Shows self.now post result }
    {
        front(&self.bytes[self.start..self.end])
    }

    /// Removes the first of the bytes that have arrived. When more were taken than are left, it moves the rest to the
    /// front. So a link holds at most twice the bytes that wait in it, however long it runs.
    fn remove(&mut self, count: usize)
        requires { count ≤ length self.old.arrived }
        ensures arrived { self.new.arrived ≡ drop count self.old.arrived }
        ensures on_way { self.new.on_way ≡ self.old.on_way }
    {
        self.start += count;
        let left = self.bytes.len() - self.start;
        if self.start > left {
            remove_front(&mut self.bytes, self.start);
            self.end -= self.start;
            self.start = 0;
        }
    }
}

/// Removes the first `count` bytes, and keeps the room.
fn remove_front(bytes: &mut Vec<u8>, count: usize)
    requires { count ≤ vec_len bytes.old }
    ensures { bytes.new.items ≡ drop count bytes.old.items }
{
    let len = bytes.len();
    bytes.as_mut_slice().copy_within(count..len, 0);
    bytes.truncate(len - count);
}

/// Returns the fault for one of a reader. Bytes in memory don't fail, so it counts as a failed allocation.
fn fault_of_read(fault: ReadFault) -> WorldFault
    ensures { result ≡ fault_of fault }
{
    match fault {
        ReadFault::Input(_) | ReadFault::Memory => WorldFault::Memory,
        ReadFault::LineNotText
        | ReadFault::LineEnd
        | ReadFault::NoSeparator
        | ReadFault::BadLength
        | ReadFault::NoLength
        | ReadFault::ShortBody
        | ReadFault::BodyNotText
        | ReadFault::NoJson
        | ReadFault::NoMessage
        | ReadFault::TooLong
        | ReadFault::HeaderTooLong
        | ReadFault::Batch => WorldFault::NotReadBack,
    }
}
