// An inbox that reads messages.
ghost use Rattle.std.specs.Prelude.{◌≡◌, None};
ghost use Rattle.lsp_message.specs.Frame.{no_limit, of_content};
ghost use Rattle.lsp_session.specs.Event.{event_view};
ghost use Rattle.lsp_session.specs.StreamBoxes.{StreamInboxGives};

use crate::lifecycle::{Event, Inbox};
use crate::loops::{EndOnBadContent, ReadEnd, TolerantInbox};
use lsp_message::{ByteTrace, Limits};
use std::alloc::Global;
use std::io::BufRead;

/// Reads a reader's messages (LSP 3.17, "Base Protocol"). It is closed after an `exit`, at the end of the input and
/// after a fault. It keeps which of them it was, and reads nothing more. It has no timeouts: a receive waits as long as
/// the reader does.
#[derive(Debug, Drop)]
pub struct StreamInbox<'a, R> {
    alloc: Global,
    reader: &'a mut R,
    limits: Limits,
    end: Option<ReadEnd>,
}

impl<'a, R: BufRead> StreamInbox<'a, R> {
    /// Makes an inbox on a reader. It does not allocate.
    pub fn new(alloc: Global, reader: &'a mut R) -> Self
        ensures same_reader { result.reader.ghost_name ≡ reader.entry.ghost_name }
        ensures unread { result.reader.now ≡ reader.old }
        ensures unended { result.end ≡ None }
        ensures unlimited { result.limits ≡ no_limit }
    {
        StreamInbox::within(alloc, reader, u64::MAX)
    }

    /// Makes an inbox on a reader, for messages whose content part has at most `limit` bytes. A longer one ends the
    /// messages with `ReadFault::TooLong`. A header part is not bounded; a `TolerantInbox` bounds it too. It does not
    /// allocate.
    pub fn within(alloc: Global, reader: &'a mut R, limit: u64) -> Self
        ensures same_reader { result.reader.ghost_name ≡ reader.entry.ghost_name }
        ensures unread { result.reader.now ≡ reader.old }
        ensures unended { result.end ≡ None }
        ensures limited { result.limits ≡ of_content limit }
    {
        StreamInbox {
            alloc,
            reader,
            limits: Limits {
                header: None,
                content: limit,
            },
            end: None,
        }
    }

    /// Returns what ended the messages: `Exit`, `End` or `Fault`. Before the end it returns `None`.
    pub fn end(&self) -> Option<ReadEnd>
        ensures { result ≡ self.now.end }
    {
        self.end
    }

    fn next_event(&mut self) -> Event
        ensures { StreamInboxGives R.remaining self.old (event_view result) self.new }
    {
        let mut policy = EndOnBadContent;
        let mut inbox = TolerantInbox::resumed(
            self.alloc,
            &mut *self.reader,
            &mut policy,
            self.limits,
            self.end,
        );
        let event = inbox.next_event(&mut ByteTrace::new());
        self.end = inbox.end();
        event
    }
}

impl<'a, R: BufRead> Inbox for StreamInbox<'a, R> {
    ghost use Rattle.lsp_session.specs.StreamBoxes.{StreamInboxGives};

    ghost receives = { StreamInboxGives R.remaining };

    fn receive_for(&mut self, _seconds: u64) -> Event {
        self.next_event()
    }

    #[tactic(auto, using(crate::proofs::Waiting::waits_none))]
    fn receive(&mut self) -> Event {
        self.next_event()
    }
}
