// What a transport did, as clauses see it.
ghost use Rattle.std.specs.Prelude.{◌≡◌, [], ◌∷◌, ◌++◌, Ok};
ghost use Rattle.serde_json.specs.View.{view};
ghost use Rattle.lsp_message.specs.Message.{response};
ghost use Rattle.lsp_message.specs.View.{message_view};
ghost use Rattle.lsp_session.specs.Account.{sending};
ghost use Rattle.lsp_session.specs.Transcripts.{note_view, notes_of, reader_failed, reads_failed, writer_failed, writes_failed};

use crate::lifecycle::{Arrival, Event, SendFault};
use crate::loops::account::Account;
use lsp_message::{ByteTrace, Message, RequestId, ResultText};
use std::snapshot::Snapshot;

/// An act of a transport, with the bytes that were read or written in it, and the failures.
#[derive(Drop)]
pub(crate) enum Noted {
    /// The transport returned this event.
    Gave(Snapshot<Event>, ByteTrace),
    /// The transport returned this in a wait that may also give a wake-up.
    Came(Snapshot<Arrival>, ByteTrace),
    /// The transport took this message.
    Took(Snapshot<Message>, ByteTrace),
    /// The transport refused this message.
    Lost(Snapshot<Message>, ByteTrace),
    /// The transport took the response with this id, whose result was this text.
    TookText(Snapshot<RequestId>, Snapshot<ResultText>, ByteTrace),
    /// The transport refused this response.
    LostText(Snapshot<RequestId>, Snapshot<ResultText>, ByteTrace),
}

impl Noted {
    /// The act of a send with this outcome.
    pub(crate) fn of_send(
        sent: Snapshot<Message>,
        outcome: &Result<(), SendFault>,
        given: ByteTrace,
    ) -> Noted
        ensures note { note_view result ≡ (sending (message_view sent.value) outcome.now, given.parts) }
        ensures reader { reader_failed result ≡ [] }
        ensures writer { writer_failed result ≡ given.failed }
    {
        match outcome {
            Ok(()) => Noted::Took(sent, given),
            Err(_) => Noted::Lost(sent, given),
        }
    }

    /// The act of a send of the response with this id and this result, with this outcome.
    pub(crate) fn of_text(
        id: Snapshot<RequestId>,
        text: Snapshot<ResultText>,
        outcome: &Result<(), SendFault>,
        given: ByteTrace,
    ) -> Noted
        ensures note { note_view result ≡ (sending (response id.value (Ok (view text.value))) outcome.now, given.parts) }
        ensures reader { reader_failed result ≡ [] }
        ensures writer { writer_failed result ≡ given.failed }
    {
        match outcome {
            Ok(()) => Noted::TookText(id, text, given),
            Err(_) => Noted::LostText(id, text, given),
        }
    }
}

/// The reads and writes of a transport, act after act in one order, each with its bytes and its failures. Only clauses
/// see it: when a program runs, it is one byte.
#[derive(Drop)]
pub struct Transcript {
    acts: Account<Noted>,
}

impl Transcript {
    /// Makes an empty transcript.
    pub fn new() -> Self
        ensures { notes_of result ≡ [] }
    {
        Transcript {
            acts: Account::new(),
        }
    }

    /// Adds an act at the end.
    pub(crate) fn add(&mut self, noted: Noted)
        ensures notes { notes_of self.new ≡ notes_of self.old ++ note_view noted ∷ [] }
        ensures reads { reads_failed self.new ≡ reads_failed self.old ++ reader_failed noted }
        ensures writes { writes_failed self.new ≡ writes_failed self.old ++ writer_failed noted }
    {
        self.acts.add(noted);
    }
}
