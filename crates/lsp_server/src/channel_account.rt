// The messages that passed through one end of a channel, as clauses see them.
ghost use Rattle.std.specs.Prelude.{◌≡◌, List, [], ◌∷◌, ◌++◌};
ghost use Rattle.std.specs.Borrow.{ftrue};

use std::marker::{Model, PhantomData};

/// An account of the messages that were taken from a channel or sent into it, oldest first. Only clauses see it.
/// Nothing of it is left when a program runs.
#[derive(Drop)]
pub(crate) struct ChannelAccount<M> {
    marker: PhantomData<M>,
    pub ghost messages: { List M },
}

impl<M> Model for ChannelAccount<M> {
    ghost also_owns = { λ _. ftrue };
}

// It owns nothing.
unsafe impl<M> Send for ChannelAccount<M> {}

impl<M> ChannelAccount<M> {
    /// Makes an empty account.
    pub(crate) fn new() -> ChannelAccount<M>
        ensures { result.messages ≡ [] }
    {
        ChannelAccount {
            marker: PhantomData,
        }
    }

    /// Returns the same account with one message more.
    pub(crate) fn with_one(&self, _message: &M) -> ChannelAccount<M>
        ensures { result.messages ≡ self.now.messages ++ _message.now ∷ [] }
    {
        ChannelAccount {
            marker: PhantomData,
        }
    }
}
