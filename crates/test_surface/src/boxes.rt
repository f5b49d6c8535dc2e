//! Traits that a user of the port implements, with exactly the methods that were asked for.
use lsp_server::{
    Event, Gate, Handler, Inbox, Message, Notification, Outbox, Request, ResponseError, SendFault,
};
use serde_json::Value;
use std::alloc::AllocError;

/// An inbox that gives this many timeouts, and then the end.
#[derive(Drop)]
pub struct Given {
    pub left: u64,
}

impl Inbox for Given {
    ghost use Rattle.std.specs.Prelude.{⊤};

    ghost receives = { λ _ _ _. ⊤ };

    fn receive(&mut self) -> Event {
        Event::Closed
    }

    fn receive_for(&mut self, _seconds: u64) -> Event {
        if self.left == 0 {
            return Event::Closed;
        }
        self.left -= 1;
        Event::Timeout
    }
}

/// An outbox that counts messages, and refuses none.
#[derive(Drop)]
pub struct Kept {
    pub count: u64,
}

impl Outbox for Kept {
    ghost use Rattle.std.specs.Prelude.{⊤};

    ghost sends = { λ _ _ _ _. ⊤ };

    fn send(&mut self, message: Message) -> Result<(), SendFault> {
        drop(message);
        self.count = self.count.saturating_add(1);
        Ok(())
    }
}

/// A gate that says yes.
#[derive(Drop)]
pub struct Asked;

impl Gate for Asked {
    ghost use Rattle.std.specs.Prelude.{⊤};

    ghost asks = { λ _ _ _. ⊤ };

    fn ask(&mut self) -> bool {
        true
    }
}

/// A handler that answers each request with null.
#[derive(Drop)]
pub struct Answers;

impl Handler for Answers {
    fn answer(&mut self, _request: &Request) -> Result<Result<Value, ResponseError>, AllocError> {
        Ok(Ok(Value::Null))
    }

    fn note(&mut self, _notification: &Notification) -> Result<(), AllocError> {
        Ok(())
    }
}
