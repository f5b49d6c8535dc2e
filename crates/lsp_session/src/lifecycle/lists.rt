// Boxes whose contents are lists.
ghost use Rattle.std.specs.Prelude.{◌≡◌, ◌∷◌, ◌++◌, [], map, Ok, OnErr, OnOk};
ghost use Rattle.serde_json.specs.View.{view};
ghost use Rattle.lsp_message.specs.Message.{response};
ghost use Rattle.lsp_message.specs.View.{message_view};

use crate::lifecycle::{Event, Gate, Inbox, Outbox, SendFault, TextOutbox, null_response};
use lsp_message::{Message, RequestId, ResultText};
use std::alloc::{AllocError, Global};
use std::collections::VecDeque;

/// An inbox that returns the events of a list in order, and is closed once none is left. Use it for tests.
#[derive(Debug, Drop)]
pub struct ListInbox {
    /// The events that are left.
    pub events: VecDeque<Event>,
}

impl ListInbox {
    ghost use Rattle.std.specs.Prelude.{◌≡◌, []};

    /// Makes an inbox with no events. It does not allocate.
    pub fn new(alloc: Global) -> ListInbox
        ensures { result.events.items ≡ [] }
    {
        ListInbox {
            events: VecDeque::new(alloc),
        }
    }
}

impl Inbox for ListInbox {
    ghost use Rattle.std.specs.Prelude.{map};
    ghost use Rattle.lsp_session.specs.Event.{event_view};
    ghost use Rattle.lsp_session.specs.Lists.{GivesNext};

    ghost receives = { λ old event new.
        GivesNext (map event_view old.events.items) event (map event_view new.events.items) };

    fn receive_for(&mut self, _seconds: u64) -> Event {
        match self.events.pop_front() {
            Some(event) => event,
            None => Event::Closed,
        }
    }

    #[tactic(auto, using(crate::proofs::Waiting::box_runs))]
    fn receive(&mut self) -> Event {
        while let Some(event) = self.events.pop_front() {
            match event {
                Event::Timeout => {}
                Event::Message(message) => return Event::Message(message),
                Event::Closed => return Event::Closed,
            }
        }
        Event::Closed
    }
}

/// An outbox that keeps the messages it is sent, up to `room` messages. After that it is closed. Use it for tests.
#[derive(Debug, Drop)]
pub struct ListOutbox {
    /// The messages that were sent, in order.
    pub sent: Vec<Message>,
    /// How many messages the outbox has room for.
    pub room: usize,
}

impl ListOutbox {
    ghost use Rattle.std.specs.Prelude.{◌≡◌, []};

    /// Makes an empty outbox with room for `room` messages. It does not allocate.
    pub fn new(alloc: Global, room: usize) -> ListOutbox
        ensures empty { result.sent.items ≡ [] }
        ensures room { result.room ≡ room }
    {
        ListOutbox {
            sent: Vec::new(alloc),
            room,
        }
    }
}

impl Outbox for ListOutbox {
    ghost use Rattle.std.specs.Prelude.{map};
    ghost use Rattle.lsp_message.specs.View.{message_view};
    ghost use Rattle.lsp_session.specs.Lists.{TakesUpToRoom};

    ghost sends = { λ old message outcome new.
        TakesUpToRoom old.room new.room (map message_view old.sent.items) message outcome
        (map message_view new.sent.items) };

    fn send(&mut self, message: Message) -> Result<(), SendFault> {
        if self.sent.len() >= self.room {
            return Err(SendFault::Closed(message));
        }
        match self.sent.push(message) {
            Ok(()) => Ok(()),
            Err(refused) => Err(SendFault::Memory(refused.value)),
        }
    }
}

impl TextOutbox for ListOutbox {
    fn send_text(&mut self, id: RequestId, text: ResultText) -> Result<(), SendFault> {
        if self.sent.len() >= self.room {
            drop(text);
            return Err(SendFault::Closed(null_response(id)));
        }
        match push_text(&mut self.sent, &id, text) {
            Ok(()) => Ok(()),
            Err(_) => Err(SendFault::Memory(null_response(id))),
        }
    }
}

/// Adds a response, whose result is read from its text.
fn push_text(sent: &mut Vec<Message>, id: &RequestId, text: ResultText) -> Result<(), AllocError>
    ensures ok { OnOk result (map message_view sent.new.items
        ≡ map message_view sent.old.items ++ response id.now (Ok (view text)) ∷ []) }
    ensures err { OnErr result (sent.new.items ≡ sent.old.items) }
{
    let alloc = *sent.allocator();
    let reply = text.into_message(alloc, id)?;
    match sent.push(reply) {
        Ok(()) => Ok(()),
        Err(_) => Err(AllocError),
    }
}

/// A gate that returns the answers of a list in order, and says no once none is left. Use it for tests.
#[derive(Debug, Drop)]
pub struct ListGate {
    /// The answers that are left.
    pub answers: VecDeque<bool>,
}

impl ListGate {
    ghost use Rattle.std.specs.Prelude.{◌≡◌, []};

    /// Makes a gate with no answers, which says no. It does not allocate.
    pub fn new(alloc: Global) -> ListGate
        ensures { result.answers.items ≡ [] }
    {
        ListGate {
            answers: VecDeque::new(alloc),
        }
    }
}

impl Gate for ListGate {
    ghost use Rattle.lsp_session.specs.Lists.{AnswersNext};

    ghost asks = { λ old answer new. AnswersNext old.answers.items answer new.answers.items };

    fn ask(&mut self) -> bool {
        self.answers.pop_front().unwrap_or(false)
    }
}
