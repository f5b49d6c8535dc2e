// An inbox that gives no wake, where one that may is asked for.

ghost use Rattle.std.specs.Prelude.{◌≡◌};

use crate::lifecycle::{Arrival, Event, Inbox, WakingInbox};

/// An inbox that was lent, as one that may also give wake-ups: it gives none.
#[derive(Drop)]
pub(crate) struct Unwoken<'a, I> {
    inbox: &'a mut I,
}

impl<'a, I: Inbox> Unwoken<'a, I> {
    /// Makes an inbox that may also give wake-ups from one that gives none.
    pub(crate) fn new(inbox: &'a mut I) -> Self
        ensures same_inbox { result.inbox.ghost_name ≡ inbox.entry.ghost_name }
        ensures unchanged { result.inbox.now ≡ inbox.old }
    {
        Unwoken { inbox }
    }
}

impl<'a, I: Inbox> Inbox for Unwoken<'a, I> {
    ghost use Rattle.lsp_session.specs.Unwoken.{UnwokenReceives};

    ghost receives = { UnwokenReceives I.receives };

    fn receive_for(&mut self, seconds: u64) -> Event {
        self.inbox.receive_for(seconds)
    }

    fn receive(&mut self) -> Event {
        self.inbox.receive()
    }
}

impl<'a, I: Inbox> WakingInbox for Unwoken<'a, I> {
    fn receive_or_woken(&mut self) -> Arrival {
        Arrival::from_event(self.receive())
    }
}
