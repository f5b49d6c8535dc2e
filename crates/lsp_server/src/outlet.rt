// Where the thread that reads sends its messages: the channel of the connection's receiver, and what of it is unread.
ghost use Rattle.std.specs.Prelude.{◌≡◌, ◌∷◌, ◌++◌, [], IfErr, OnOk};
ghost use Rattle.lsp_session.specs.Boxes.{handed_back};

use crate::channel_account::ChannelAccount;
use crate::io_threads::CHANNEL_ROOM;
use crate::places::Place;
use crate::unread_weights::UnreadWeights;
use crate::written::Returned;
use crossbeam_channel::{SendError, Sender, TrySendError};
use lsp_message::Message;
use lsp_session::SendFault;
use std::alloc::{AllocError, Global};
use std::sync::Wait;
use std::thread;
use std::time::{Clock, Duration};

/// How many milliseconds the reader waits at first before it checks again whether a message was taken, and how many at
/// most.
const SHORT_REST: u64 = 1;

const LONG_REST: u64 = 10;

/// Sends the messages that were read on a channel, and drops those that were written meanwhile. It accepts no message
/// that would be too much.
#[derive(Drop)]
pub(crate) struct Outlet<'a, R: Wait> {
    rt: &'a R,
    alloc: Global,
    incoming: &'a Sender<Message>,
    /// The messages that were sent.
    sent: ChannelAccount<Message>,
    returned: &'a Returned<Message>,
    /// The weights of the messages that were sent. It is as long as the channel, or longer.
    unread: UnreadWeights,
    /// How much may be unread.
    bound: u64,
    /// Places of the channel to which nothing was sent.
    places: Vec<Place<'a, R>>,
}

impl<'a, R: Wait> Outlet<'a, R> {
    /// Starts with a channel on which nothing was sent.
    pub(crate) fn new(
        rt: &'a R,
        alloc: Global,
        incoming: &'a Sender<Message>,
        returned: &'a Returned<Message>,
        unread: UnreadWeights,
        bound: u64,
    ) -> Outlet<'a, R>
        ensures { result.sent.messages ≡ [] }
    {
        Outlet {
            rt,
            alloc,
            incoming,
            sent: ChannelAccount::new(),
            returned,
            unread,
            bound,
            places: Vec::new(alloc),
        }
    }

    /// Records how many bytes the content part has that is being read.
    pub(crate) fn note_read(&self, length: usize) {
        self.returned.note_read(length);
    }

    /// Sends a message of this weight. It waits while the channel is full.
    pub(crate) fn send(&mut self, message: Message, weight: u64) -> Result<(), SendFault>
        ensures ok { OnOk result (self.new.sent.messages ≡ self.old.sent.messages ++ message ∷ []) }
        ensures err { IfErr result (λ fault. (handed_back fault ≡ message)
            × (self.new.sent.messages ≡ self.old.sent.messages)) }
    {
        if self.unread.sent(weight).is_err() {
            return Err(SendFault::Memory(message));
        }
        let with_this = self.sent.with_one(&message);
        let forwarded = self.forward(message);
        self.returned.drop_waiting(self.rt);
        if forwarded.is_ok() {
            self.sent = with_this;
        }
        forwarded
    }

    /// Sends a message to a place that is free, or to one that was kept, or to the next that is free. It checks first
    /// whether the receiver is gone, since a place that was kept would take the message all the same.
    fn forward(&mut self, message: Message) -> Result<(), SendFault>
        ensures refused { IfErr result (λ fault. handed_back fault ≡ message) }
        ensures account { self.new.sent.messages ≡ self.old.sent.messages }
    {
        match self.incoming.try_send(self.rt, message) {
            Ok(()) => Ok(()),
            Err(TrySendError::Full(message)) => self.forward_full(message),
            Err(TrySendError::Disconnected(message)) => Err(SendFault::Closed(message)),
            Err(TrySendError::OutOfMemory(message)) => Err(SendFault::Memory(message)),
        }
    }

    fn forward_full(&mut self, message: Message) -> Result<(), SendFault>
        ensures refused { IfErr result (λ fault. handed_back fault ≡ message) }
        ensures account { self.new.sent.messages ≡ self.old.sent.messages }
    {
        let sent = match self.places.pop() {
            Some(place) => place.send(self.incoming, message),
            None => self.incoming.send(self.rt, message),
        };
        match sent {
            Ok(()) => Ok(()),
            Err(SendError::Disconnected(message)) => Err(SendFault::Closed(message)),
            Err(SendError::OutOfMemory(message)) => Err(SendFault::Memory(message)),
        }
    }
}

impl<'a, R: Wait + Clock> Outlet<'a, R> {
    /// Waits until a message of this weight may be sent too: until enough messages, or all, were taken. It ends at once
    /// if the receiver is gone, which the next `send` reports. Meanwhile it drops messages that were written. The error
    /// means that an allocation failed.
    pub(crate) fn make_room(&mut self, weight: u64) -> Result<(), AllocError>
        ensures { self.new.sent.messages ≡ self.old.sent.messages }
    {
        let rt = self.rt;
        let mut rest = SHORT_REST;
        for _ in rt.forever() {
            self.unread.settled(self.incoming.len());
            if self.unread.has_room(weight, self.bound) || self.is_left()? {
                return Ok(());
            }
            self.returned.drop_waiting(rt);
            thread::sleep(rt, Duration::from_millis(rest));
            rest = rest.saturating_mul(2).min(LONG_REST);
        }
        unreachable!()
    }

    /// Returns whether the receiver is gone. It keeps each place that is free: a channel whose receiver is there has no
    /// more than its room.
    fn is_left(&mut self) -> Result<bool, AllocError>
        ensures { self.new.sent.messages ≡ self.old.sent.messages }
    {
        for _ in self.places.len()..=CHANNEL_ROOM {
            match Place::take(self.rt, self.alloc, self.incoming)? {
                Some(place) => self.places.push(place)?,
                None => return Ok(false),
            }
        }
        Ok(true)
    }
}
