// An inbox that reads messages, and asks a policy whether to read on after a content part that is none.
ghost use Rattle.std.specs.Prelude.{◌≡◌, None};
ghost use Rattle.lsp_message.specs.View.{message_view};
ghost use Rattle.lsp_message.specs.Told.{Told};
ghost use Rattle.lsp_session.specs.ActBytes.{ReadParts, TakenFor};
ghost use Rattle.lsp_session.specs.Event.{arrival_view, event_view};
ghost use Rattle.lsp_session.specs.Incoming.{incoming_view};
ghost use Rattle.lsp_session.specs.Passing.{is_bad_content as is_of_content_spec};
ghost use Rattle.lsp_session.specs.PassingBoxes.{EndsAtContent, NeverEndsAtContent, ReadsNext, TolerantInboxGives};
ghost use Rattle.lsp_session.specs.SessionFailures.{FailsInRead, FailsInWait};

use crate::lifecycle::{Arrival, Event, Inbox, WakingInbox, is_exit};
use crate::loops::incoming::Incoming;
use crate::loops::{BadContentPolicy, ReadEnd};
use lsp_calls::CallReader;
use lsp_message::{ByteTrace, Limits, Message, ReadFault};
use std::alloc::Global;
use std::io::BufRead;

/// Returns whether the fault belongs to a content part that was read to its end: it is not UTF-8, no JSON, no message,
/// or a batch. The next frame follows it (LSP 3.17, "Base Protocol").
pub fn is_bad_content(fault: ReadFault) -> bool
    ensures { result ≡ is_of_content_spec fault }
{
    matches!(
        fault,
        ReadFault::BodyNotText | ReadFault::NoJson | ReadFault::NoMessage | ReadFault::Batch
    )
}

/// Reads a reader's messages (LSP 3.17, "Base Protocol"), as `StreamInbox` does, but may skip a content part that is no
/// message (`is_bad_content`). It asks a policy in `receive_or_woken`, where a wake-up can report the skip. That call
/// then skips the part and returns `Arrival::Woken`, or ends the messages. In the other calls there is no wake-up, and
/// such a part ends the messages. Any other fault ends the messages in each call.
#[derive(Debug, Drop)]
pub struct TolerantInbox<'a, R, L> {
    alloc: Global,
    reader: &'a mut R,
    policy: &'a mut L,
    limits: Limits,
    end: Option<ReadEnd>,
}

impl<'a, R: BufRead, L: BadContentPolicy> TolerantInbox<'a, R, L> {
    /// Makes an inbox on a reader, for messages within `limits`. A longer header part or content part ends the messages
    /// with `ReadFault::HeaderTooLong` or `TooLong`. It does not allocate.
    pub fn within(alloc: Global, reader: &'a mut R, policy: &'a mut L, limits: Limits) -> Self
        ensures same_reader { result.reader.ghost_name ≡ reader.entry.ghost_name }
        ensures unread { result.reader.now ≡ reader.old }
        ensures same_policy { result.policy.ghost_name ≡ policy.entry.ghost_name }
        ensures untold { result.policy.now ≡ policy.old }
        ensures unended { result.end ≡ None }
        ensures limited { result.limits ≡ limits }
    {
        TolerantInbox {
            alloc,
            reader,
            policy,
            limits,
            end: None,
        }
    }

    /// Makes an inbox that goes on where another on the same reader stopped, with the end of that one's messages.
    pub(crate) fn resumed(
        alloc: Global,
        reader: &'a mut R,
        policy: &'a mut L,
        limits: Limits,
        end: Option<ReadEnd>,
    ) -> Self
        ensures same_reader { result.reader.ghost_name ≡ reader.entry.ghost_name }
        ensures unread { result.reader.now ≡ reader.old }
        ensures same_policy { result.policy.ghost_name ≡ policy.entry.ghost_name }
        ensures untold { result.policy.now ≡ policy.old }
        ensures resumed { (result.end ≡ end) × (result.limits ≡ limits) × (result.alloc ≡ alloc) }
    {
        TolerantInbox {
            alloc,
            reader,
            policy,
            limits,
            end,
        }
    }

    /// Returns what ended the messages: `Exit`, `End` or `Fault`. Before the end it returns `None`.
    pub fn end(&self) -> Option<ReadEnd>
        ensures { result ≡ self.now.end }
    {
        self.end
    }

    /// Reads a message, or `None` if the messages ended. A fault has not ended the messages yet.
    #[tactic(auto, using(crate::proofs::ToldEvents::fails_at_none, crate::proofs::ToldEvents::fails_at_next, crate::proofs::ToldEvents::fails_at_fault, crate::proofs::ToldEvents::unended))]
    fn read_next(&mut self, taken: &mut ByteTrace) -> Result<Option<Message>, ReadFault>
        ensures read { ReadsNext R.remaining message_view self.old result self.new }
        ensures reads_on { NeverEndsAtContent self.old self.new }
        ensures told { Told (ReadParts self.old.limits message_view self.old.end result self.new.end) taken.old.parts
            taken.new.parts (R.remaining self.old.reader.now) (R.remaining self.new.reader.now) }
        ensures failed { FailsInRead self.old.end result self.new.end taken.old taken.new }
    {
        if self.end.is_some() {
            return Ok(None);
        }
        match Message::read_traced(self.alloc, self.reader, self.limits, taken)? {
            Some(message) => {
                if is_exit(&message) {
                    self.end = Some(ReadEnd::Exit);
                }
                Ok(Some(message))
            }
            None => {
                self.end = Some(ReadEnd::End);
                Ok(None)
            }
        }
    }

    /// Does one wait that also gives wake-ups. At a content part that is no message it asks the policy whether to read
    /// on.
    #[tactic(auto, using(crate::proofs::ToldEvents::fails_at_end, crate::proofs::ToldEvents::fails_at_skip))]
    pub(crate) fn next_arrival(&mut self, taken: &mut ByteTrace) -> Arrival
        ensures gives { TolerantInboxGives R.remaining L.passes self.old (arrival_view result)
            self.new }
        ensures reads_on { EndsAtContent L.ends self.old self.new }
        ensures told { Told (TakenFor self.old.limits L.passes (self.old.end, self.old.policy.now) (arrival_view result)
            (self.new.end, self.new.policy.now))
            taken.old.parts taken.new.parts (R.remaining self.old.reader.now) (R.remaining self.new.reader.now) }
        ensures failed { FailsInWait self.old.end self.new.end taken.old taken.new }
    {
        match self.read_next(taken) {
            Ok(Some(message)) => Arrival::Message(message),
            Ok(None) => Arrival::Closed,
            Err(fault) => {
                if is_bad_content(fault) && self.policy.skips(fault) {
                    return Arrival::Woken;
                }
                self.end = Some(ReadEnd::Fault(fault));
                Arrival::Closed
            }
        }
    }

    /// Does what `read_next` does, but makes no tree of a call.
    #[tactic(auto, using(crate::proofs::ToldEvents::fails_at_none, crate::proofs::ToldEvents::fails_at_next, crate::proofs::ToldEvents::fails_at_fault, crate::proofs::ToldEvents::unended))]
    fn read_incoming(
        &mut self,
        calls: &mut CallReader,
        taken: &mut ByteTrace,
    ) -> Result<Option<Incoming>, ReadFault>
        ensures read { ReadsNext R.remaining incoming_view self.old result self.new }
        ensures reads_on { NeverEndsAtContent self.old self.new }
        ensures told { Told (ReadParts self.old.limits incoming_view self.old.end result self.new.end) taken.old.parts
            taken.new.parts (R.remaining self.old.reader.now) (R.remaining self.new.reader.now) }
        ensures failed { FailsInRead self.old.end result self.new.end taken.old taken.new }
    {
        if self.end.is_some() {
            return Ok(None);
        }
        match Incoming::read_traced(self.alloc, self.reader, self.limits, calls, taken)? {
            Some(came) => {
                if came.is_exit() {
                    self.end = Some(ReadEnd::Exit);
                }
                Ok(Some(came))
            }
            None => {
                self.end = Some(ReadEnd::End);
                Ok(None)
            }
        }
    }

    /// Does what `next_arrival` does, but makes no tree of a call.
    #[tactic(auto, using(crate::proofs::ToldEvents::fails_at_end, crate::proofs::ToldEvents::fails_at_skip))]
    pub(crate) fn next_call_or_arrival(
        &mut self,
        calls: &mut CallReader,
        taken: &mut ByteTrace,
    ) -> Arrival
        ensures gives { TolerantInboxGives R.remaining L.passes self.old (arrival_view result)
            self.new }
        ensures reads_on { EndsAtContent L.ends self.old self.new }
        ensures told { Told (TakenFor self.old.limits L.passes (self.old.end, self.old.policy.now) (arrival_view result)
            (self.new.end, self.new.policy.now))
            taken.old.parts taken.new.parts (R.remaining self.old.reader.now) (R.remaining self.new.reader.now) }
        ensures failed { FailsInWait self.old.end self.new.end taken.old taken.new }
    {
        match self.read_incoming(calls, taken) {
            Ok(Some(came)) => came.into_arrival(),
            Ok(None) => Arrival::Closed,
            Err(fault) => {
                if is_bad_content(fault) && self.policy.skips(fault) {
                    return Arrival::Woken;
                }
                self.end = Some(ReadEnd::Fault(fault));
                Arrival::Closed
            }
        }
    }

    /// Does one wait that gives no wake-ups.
    #[tactic(auto, using(crate::proofs::ToldEvents::fails_at_end))]
    pub(crate) fn next_event(&mut self, taken: &mut ByteTrace) -> Event
        ensures gives { TolerantInboxGives R.remaining L.passes self.old (event_view result) self.new }
        ensures told { Told (TakenFor self.old.limits L.passes (self.old.end, self.old.policy.now) (event_view result)
            (self.new.end, self.new.policy.now))
            taken.old.parts taken.new.parts (R.remaining self.old.reader.now) (R.remaining self.new.reader.now) }
        ensures failed { FailsInWait self.old.end self.new.end taken.old taken.new }
    {
        match self.read_next(taken) {
            Ok(Some(message)) => Event::Message(message),
            Ok(None) => Event::Closed,
            Err(fault) => {
                self.end = Some(ReadEnd::Fault(fault));
                Event::Closed
            }
        }
    }
}

impl<'a, R: BufRead, L: BadContentPolicy> Inbox for TolerantInbox<'a, R, L> {
    ghost use Rattle.lsp_session.specs.PassingBoxes.{TolerantInboxGives};

    ghost receives = { TolerantInboxGives R.remaining L.passes };

    fn receive_for(&mut self, _seconds: u64) -> Event {
        self.next_event(&mut ByteTrace::new())
    }

    #[tactic(auto, using(crate::proofs::Waiting::waits_none))]
    fn receive(&mut self) -> Event {
        self.next_event(&mut ByteTrace::new())
    }
}

impl<'a, R: BufRead, L: BadContentPolicy> WakingInbox for TolerantInbox<'a, R, L> {
    ghost use Rattle.lsp_session.specs.PassingBoxes.{EndsAtContent};

    // If a wake can tell of such a part, it ends the messages only if the policy says so.
    ghost listens = { λ old _ new. EndsAtContent L.ends old new };

    #[tactic(auto, using(crate::proofs::Waiting::waits_none))]
    fn receive_or_woken(&mut self) -> Arrival {
        self.next_arrival(&mut ByteTrace::new())
    }
}
