// An inbox and an outbox over lists that know of each other.
ghost use Rattle.std.specs.Prelude.{◌≢◌};
ghost use Rattle.lsp_session.specs.Event.{event_view, timeout};

use lsp_message::{Message, RequestId, ResultText};
use lsp_session::{
    Arrival, Event, Inbox, ListInbox, ListOutbox, Outbox, SendFault, TextOutbox, WakingInbox,
};
use std::cell::Cell;

/// What an inbox does beside returning the events of its list.
#[derive(Clone, Copy, PartialEq, Eq)]
pub enum Habit {
    /// Nothing.
    Gives,
    /// Before each event, also the first, it has a wake-up for whoever asks for that.
    Wakes,
    /// It is closed as long as nothing was sent.
    Follows,
}

/// Gives the events of a list.
#[derive(Drop)]
pub struct Events<'a> {
    pub list: ListInbox,
    pub habit: Habit,
    /// Whether something was sent.
    pub sent: &'a Cell<bool>,
    /// Whether it is ready to wake.
    pub is_ready: bool,
    /// For how many seconds it was last asked to wait at most, or 0 if it was without limit.
    pub seconds: u64,
}

impl Events<'_> {
    /// Whether it is closed, since nothing was sent.
    fn is_closed(&self) -> bool {
        self.habit == Habit::Follows && !self.sent.get()
    }
}

impl Inbox for Events<'_> {
    ghost use Rattle.std.specs.Prelude.{⊤};

    ghost receives = { λ _ _ _. ⊤ };

    fn receive_for(&mut self, seconds: u64) -> Event {
        self.is_ready = true;
        self.seconds = seconds;
        if self.is_closed() {
            return Event::Closed;
        }
        self.list.receive_for(seconds)
    }

    fn receive(&mut self) -> Event {
        self.is_ready = true;
        self.seconds = 0;
        if self.is_closed() {
            return Event::Closed;
        }
        self.list.receive()
    }
}

impl WakingInbox for Events<'_> {
    fn receive_or_woken(&mut self) -> Arrival {
        if self.habit == Habit::Wakes && self.is_ready {
            self.is_ready = false;
            return Arrival::Woken;
        }
        self.is_ready = true;
        Arrival::from_event(self.list.receive())
    }
}

/// Keeps what it is sent, up to its room, and records that something was sent.
#[derive(Drop)]
pub struct Sent<'a> {
    pub list: ListOutbox,
    pub is_some: &'a Cell<bool>,
}

impl Outbox for Sent<'_> {
    ghost use Rattle.std.specs.Prelude.{⊤};

    ghost sends = { λ _ _ _ _. ⊤ };

    fn send(&mut self, message: Message) -> Result<(), SendFault> {
        let sent = self.list.send(message);
        if sent.is_ok() {
            self.is_some.set(true);
        }
        sent
    }
}

impl TextOutbox for Sent<'_> {
    fn send_text(&mut self, id: RequestId, text: ResultText) -> Result<(), SendFault> {
        let sent = self.list.send_text(id, text);
        if sent.is_ok() {
            self.is_some.set(true);
        }
        sent
    }
}
