//! The ends of a connection's two channels as an inbox and an outbox. No clause says what a channel delivers, so their
//! relations allow everything.
ghost use Rattle.std.specs.Prelude.{◌≡◌, IfErr};
ghost use Rattle.lsp_session.specs.Boxes.{handed_back};

use crossbeam_channel::{Receiver, RecvTimeoutError, SendError, Sender};
use lsp_message::Message;
use lsp_session::{Event, Inbox, Outbox, SendFault};
use std::sync::Wait;
use std::time::{Clock, Duration};

/// Receives from a channel.
#[derive(Drop)]
pub(crate) struct ChannelInbox<'a, R> {
    pub(crate) rt: &'a R,
    pub(crate) receiver: &'a Receiver<Message>,
}

impl<'a, R: Wait + Clock> Inbox for ChannelInbox<'a, R> {
    ghost use Rattle.std.specs.Prelude.{⊤};

    ghost receives = { λ _ _ _. ⊤ };

    fn receive_for(&mut self, seconds: u64) -> Event {
        match self
            .receiver
            .recv_timeout(self.rt, Duration::from_secs(seconds))
        {
            Ok(message) => Event::Message(message),
            Err(RecvTimeoutError::Timeout) => Event::Timeout,
            Err(RecvTimeoutError::Disconnected) => Event::Closed,
        }
    }

    fn receive(&mut self) -> Event {
        match self.receiver.recv(self.rt) {
            Ok(message) => Event::Message(message),
            Err(_) => Event::Closed,
        }
    }
}

/// Sends on a channel.
#[derive(Drop)]
pub(crate) struct ChannelOutbox<'a, R> {
    pub(crate) rt: &'a R,
    pub(crate) sender: &'a Sender<Message>,
}

impl<'a, R: Wait> Outbox for ChannelOutbox<'a, R> {
    ghost use Rattle.std.specs.Prelude.{⊤};

    ghost sends = { λ _ _ _ _. ⊤ };

    fn send(&mut self, message: Message) -> Result<(), SendFault> {
        forward(self.rt, self.sender, message)
    }
}

/// Sends a message, or returns why the channel refused it.
fn forward<R: Wait>(rt: &R, sender: &Sender<Message>, message: Message) -> Result<(), SendFault>
    ensures { IfErr result (λ fault. handed_back fault ≡ message) }
{
    match sender.send(rt, message) {
        Ok(()) => Ok(()),
        Err(SendError::Disconnected(back)) => Err(SendFault::Closed(back)),
        Err(SendError::OutOfMemory(back)) => Err(SendFault::Memory(back)),
    }
}
