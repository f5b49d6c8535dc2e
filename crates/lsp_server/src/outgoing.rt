// The channel of what a connection sends, at its receiving end. It keeps account of what the channel gave.
ghost use Rattle.std.specs.Prelude.{◌≡◌, IfNone, IfSome};
ghost use Rattle.lsp_message.specs.View.{message_view};
ghost use Rattle.lsp_server.specs.Taken.{closed, taken_of, takes, untaken};

use crate::channel_account::ChannelAccount;
use crossbeam_channel::Receiver;
use lsp_message::Message;
use std::sync::Wait;

/// The messages that a channel gave, and whether it reported that no more follow.
#[derive(Drop)]
pub(crate) struct TakenMessages {
    account: ChannelAccount<Message>,
    is_closed: bool,
}

impl TakenMessages {
    fn new() -> TakenMessages
        ensures { taken_of result ≡ untaken }
    {
        TakenMessages {
            account: ChannelAccount::new(),
            is_closed: false,
        }
    }

    fn note(&mut self, message: &Message)
        ensures { taken_of self.new ≡ takes (taken_of self.old) (message_view message.now) }
    {
        self.account = self.account.with_one(message);
    }

    fn close(&mut self)
        ensures { taken_of self.new ≡ closed (taken_of self.old) }
    {
        self.is_closed = true;
    }
}

/// The receiving end, and the messages that it gave. Nothing else takes from this end, so each message that it gave is
/// in the account.
#[derive(Drop)]
pub(crate) struct Outgoing {
    receiver: Receiver<Message>,
    taken: TakenMessages,
}

impl Outgoing {
    /// Nothing was taken yet.
    pub(crate) fn new(receiver: Receiver<Message>) -> Outgoing
        ensures { taken_of result.taken ≡ untaken }
    {
        Outgoing {
            receiver,
            taken: TakenMessages::new(),
        }
    }

    /// Takes the next message. It waits for one, and returns none once no more can follow.
    pub(crate) fn next<R: Wait>(&mut self, rt: &R) -> Option<Message>
        ensures some { IfSome result (λ message.
            taken_of self.new.taken ≡ takes (taken_of self.old.taken) (message_view message)) }
        ensures none { IfNone result (taken_of self.new.taken ≡ closed (taken_of self.old.taken)) }
    {
        match self.receiver.recv(rt) {
            Ok(message) => {
                self.taken.note(&message);
                Some(message)
            }
            Err(_) => {
                self.taken.close();
                None
            }
        }
    }

    /// Takes the next message, if it is there.
    pub(crate) fn next_at_once<R: Wait>(&mut self, rt: &R) -> Option<Message>
        ensures some { IfSome result (λ message.
            taken_of self.new.taken ≡ takes (taken_of self.old.taken) (message_view message)) }
        ensures none { IfNone result (self.new.taken ≡ self.old.taken) }
    {
        match self.receiver.try_recv(rt) {
            Ok(message) => {
                self.taken.note(&message);
                Some(message)
            }
            Err(_) => None,
        }
    }

    /// Lets the end go, and returns what was taken.
    pub(crate) fn finish(self) -> TakenMessages
        ensures { result ≡ self.taken }
    {
        let Outgoing { receiver, taken } = self;
        drop(receiver);
        taken
    }
}
