// What a connection has read and nobody has taken, by weight.
ghost use Rattle.std.specs.Prelude.{◌≡◌, ◌↔◌, ◌++◌, ◌∷◌, ◌==◌, [], count_by, drop, sum, IfOk, IsTrue, OnErr, OnOk};
ghost use Rattle.lsp_server.specs.Unread.{capped, content_weight, newest, HasRoom};

use memchr::memchr_iter;
use std::alloc::{AllocError, Global};
use std::collections::VecDeque;
use std::marker::Model;

/// The default bound on the unread messages of a connection: 64 MB of weight. The messages that the receiver has not
/// taken weigh no more, unless there is only one.
///
/// The weight of a message is an estimate of the most memory that it takes: a byte for each byte of its content part,
/// 208 more for each comma and each `[`, and 900 more for each `{`. Those in strings count too.
pub const DEFAULT_READ_AHEAD_WEIGHT: u64 = 67_108_864;

/// The most memory in bytes that an item of a list or a member of an object takes, without the bytes of its text.
const ITEM_WEIGHT: u64 = 208;

/// The most memory in bytes that an object with a member takes.
const OBJECT_WEIGHT: u64 = 900;

/// The weights of the messages that were sent into a channel and may still be there, oldest first.
#[derive(Drop)]
pub(crate) struct UnreadWeights {
    weights: VecDeque<u64>,
}

impl Model for UnreadWeights {
    ghost use Rattle.std.specs.Prelude.{ℕ, List};

    ghost Value = { List ℕ };

    ghost view = { λ unread. unread.weights.items };
}

impl UnreadWeights {
    /// Makes an account of no messages, with memory for `room` weights. The error means that an allocation failed.
    pub(crate) fn new(alloc: Global, room: usize) -> Result<UnreadWeights, AllocError>
        ensures { IfOk result (λ unread. unread ≡ []) }
    {
        Ok(UnreadWeights {
            weights: VecDeque::with_capacity(alloc, room)?,
        })
    }

    /// Records that a message of this weight is sent. The error means that an allocation failed.
    pub(crate) fn sent(&mut self, weight: u64) -> Result<(), AllocError>
        ensures ok { OnOk result (self.new ≡ self.old ++ weight ∷ []) }
        ensures err { OnErr result (self.new ≡ self.old) }
    {
        self.weights.push_back(weight)?;
        Ok(())
    }

    /// Records that the channel contains `len` messages, so the older ones were taken.
    pub(crate) fn settled(&mut self, len: usize)
        ensures { self.new ≡ newest len self.old }
    {
        let taken = self.weights.len().saturating_sub(len);
        for _ in 0..taken {
            self.oldest_taken();
        }
    }

    fn oldest_taken(&mut self)
        ensures { self.new ≡ drop 1 self.old }
    {
        let _ = self.weights.pop_front();
    }

    /// Returns the weight of all unread messages together.
    pub(crate) fn weight(&self) -> u64
        ensures { result ≡ capped (sum self.now) }
    {
        let mut all: u64 = 0;
        for weight in self.weights.iter() {
            all = all.saturating_add(*weight);
        }
        all
    }

    /// Returns whether a message of this weight may be sent too.
    pub(crate) fn has_room(&self, weight: u64, bound: u64) -> bool
        ensures { IsTrue result ↔ HasRoom self.now weight bound }
    {
        self.weights.is_empty() || self.weight().saturating_add(weight) <= bound
    }
}

/// Returns the weight of the message in a content part.
pub(crate) fn weight_of(content: &[u8]) -> u64
    ensures { result ≡ capped (content_weight content.now) }
{
    let items = count_of(content, b',').saturating_add(count_of(content, b'['));
    let objects = count_of(content, b'{');
    (content.len() as u64)
        .saturating_add(items.saturating_mul(ITEM_WEIGHT))
        .saturating_add(objects.saturating_mul(OBJECT_WEIGHT))
}

/// Counts a byte in a content part. The search skips the bytes between in wide steps.
fn count_of(content: &[u8], byte: u8) -> u64
    ensures { result ≡ count_by (λ it. it == byte) content.now }
{
    let mut count: u64 = 0;
    for _ in memchr_iter(byte, content) {
        count = count.saturating_add(1);
    }
    count
}
