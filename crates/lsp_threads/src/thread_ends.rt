//! The caller's ends of a session in threads: an inbox on a relay of content parts, and the outbox of its replies, as
//! one value.
ghost use Rattle.std.specs.Prelude.{◌≡◌, [], None};
ghost use Rattle.lsp_session.specs.Event.{arrival_view, event_view};
ghost use Rattle.lsp_session.specs.SessionOutcome.{StopsBy};
ghost use Rattle.lsp_session.specs.SessionLaws.{Both};
ghost use Rattle.lsp_session.specs.SessionRun.{Runs};
ghost use Rattle.lsp_threads.specs.Contents.{ContentsGive};
ghost use Rattle.lsp_threads.specs.Replies.{RepliesSend};
ghost use Rattle.lsp_threads.specs.ThreadEnds.{EndsInOrder, EndsListen, GivesNext, IsFresh, IsNoCall, IsReadyToWait, KeepsLent};
ghost use Rattle.lsp_threads.specs.ThreadEnds.{ReadsNext, seen_of};
ghost use Rattle.lsp_threads.specs.Writes.{KeepsMarks};

use crate::content_parts::{ContentParts, Next};
use crate::reply_outbox::ReplyOutbox;
use lsp_calls::CallReader;
use lsp_message::{Message, ReadFault, RequestId, ResultText};
use lsp_session::{
    Application, Arrival, BadContentPolicy, Event, Inbox, Outbox, ReadEnd, SendFault,
    SessionOutcome, TextOutbox, WakingInbox, is_bad_content, is_exit, serve_application,
};
use std::alloc::Global;
use std::sync::Wait;

/// Reads messages from content parts, on the caller's thread, and waits for each. It is closed after `exit`, after a
/// content part that is no message and was not skipped, and once End was taken. It has no timeouts.
///
/// `receive_or_woken` returns each wake-up of the relay. It also asks the policy at a content part that is no message
/// (`is_bad_content`). Then it skips the part and returns `Arrival::Woken`, or ends the messages.
/// `receive_call_or_woken` does the same, and returns the content part of a request or a notification as
/// `Arrival::Call`. In the other calls there is no wake-up: those of the relay are ignored, and such a part ends the
/// messages. Any other fault ends the messages in each call.
///
/// The messages that are sent are gathered while many content parts are available, and all of them are passed on before
/// a wait.
#[derive(Drop)]
pub struct ThreadEnds<'a, R: Wait + Drop, L> {
    alloc: Global,
    parts: &'a mut ContentParts<R>,
    policy: &'a mut L,
    outbox: &'a mut ReplyOutbox<R>,
    end: Option<ReadEnd>,
}

impl<'a, R: Wait + Copy + Drop, L: BadContentPolicy> ThreadEnds<'a, R, L> {
    pub fn new(
        alloc: Global,
        parts: &'a mut ContentParts<R>,
        policy: &'a mut L,
        outbox: &'a mut ReplyOutbox<R>,
    ) -> ThreadEnds<'a, R, L>
        ensures same_parts { result.parts.ghost_name ≡ parts.entry.ghost_name }
        ensures untaken { result.parts.now ≡ parts.old }
        ensures same_policy { result.policy.ghost_name ≡ policy.entry.ghost_name }
        ensures untold { result.policy.now ≡ policy.old }
        ensures same_outbox { result.outbox.ghost_name ≡ outbox.entry.ghost_name }
        ensures unsent { result.outbox.now ≡ outbox.old }
        ensures unended { result.end ≡ None }
    {
        ThreadEnds {
            alloc,
            parts,
            policy,
            outbox,
            end: None,
        }
    }

    /// Returns what ended the messages, if that was not End: `Exit` or `Fault`.
    pub fn end(&self) -> Option<ReadEnd>
        ensures { result ≡ self.now.end }
    {
        self.end
    }

    /// Passes on the messages that were sent, unless many content parts are available. Then the messages for the next
    /// one are gathered.
    fn make_ready(&mut self)
        ensures untaken { seen_of self.new ≡ seen_of self.old }
        ensures unsent { self.new.outbox.now.replies ≡ self.old.outbox.now.replies }
        ensures marks { KeepsMarks self.old.outbox.now.marks self.new.outbox.now.marks }
        ensures ready { IsReadyToWait self.new }
        ensures lent { KeepsLent self.old self.new }
    {
        let at_hand = self.parts.is_at_hand();
        self.outbox.go_on(at_hand);
    }

    /// Takes the next item: a message, a wake-up of the relay, or the end of the messages. A fault has not ended the
    /// messages yet.
    fn read_next(&mut self) -> Result<Arrival, ReadFault>
        requires { IsReadyToWait self.old }
        ensures reads { ReadsNext self.old result self.new }
        ensures plain { IsNoCall result }
    {
        if self.end.is_some() || self.parts.is_drained() {
            return Ok(Arrival::Closed);
        }
        match self.parts.take_next() {
            Next::Content(content) => {
                let message = Message::from_content(self.alloc, &content)?;
                if is_exit(&message) {
                    self.end = Some(ReadEnd::Exit);
                } else {
                    self.parts.go_on();
                }
                Ok(Arrival::Message(message))
            }
            Next::Wake => Ok(Arrival::Woken),
            Next::End => Ok(Arrival::Closed),
        }
    }

    /// Does what `read_next` does, but makes no tree of a call.
    fn read_next_or_call(&mut self, calls: &mut CallReader) -> Result<Arrival, ReadFault>
        requires { IsReadyToWait self.old }
        ensures { ReadsNext self.old result self.new }
    {
        if self.end.is_some() || self.parts.is_drained() {
            return Ok(Arrival::Closed);
        }
        match self.parts.take_next() {
            Next::Content(content) => {
                let content = match calls.take(content) {
                    Ok(call) => {
                        self.parts.go_on();
                        return Ok(Arrival::Call(call));
                    }
                    Err(content) => content,
                };
                let message = Message::from_content(self.alloc, &content)?;
                if is_exit(&message) {
                    self.end = Some(ReadEnd::Exit);
                } else {
                    self.parts.go_on();
                }
                Ok(Arrival::Message(message))
            }
            Next::Wake => Ok(Arrival::Woken),
            Next::End => Ok(Arrival::Closed),
        }
    }

    /// Does one wait that also gives wake-ups. At a content part that is no message it asks the policy whether to read
    /// on.
    fn next_arrival(&mut self) -> Arrival
        requires { IsReadyToWait self.old }
        ensures gives { GivesNext L.passes self.old (arrival_view result) self.new }
        ensures listens { EndsListen L.ends self.old (arrival_view result) self.new }
    {
        match self.read_next() {
            Ok(arrival) => arrival,
            Err(fault) => {
                if is_bad_content(fault) && self.policy.skips(fault) {
                    self.parts.go_on();
                    return Arrival::Woken;
                }
                self.end = Some(ReadEnd::Fault(fault));
                Arrival::Closed
            }
        }
    }

    /// Does what `next_arrival` does, but makes no tree of a call.
    fn next_call_or_arrival(&mut self, calls: &mut CallReader) -> Arrival
        requires { IsReadyToWait self.old }
        ensures gives { GivesNext L.passes self.old (arrival_view result) self.new }
        ensures listens { EndsListen L.ends self.old (arrival_view result) self.new }
    {
        match self.read_next_or_call(calls) {
            Ok(arrival) => arrival,
            Err(fault) => {
                if is_bad_content(fault) && self.policy.skips(fault) {
                    self.parts.go_on();
                    return Arrival::Woken;
                }
                self.end = Some(ReadEnd::Fault(fault));
                Arrival::Closed
            }
        }
    }

    /// Returns the message of the next content part, and ignores wake-ups of the relay.
    fn next_event(&mut self) -> Event
        requires { IsReadyToWait self.old }
        ensures { GivesNext L.passes self.old (event_view result) self.new }
    {
        let rt = self.parts.handle();
        for _ in rt.forever() {
            match self.read_next() {
                Ok(Arrival::Message(message)) => return Event::Message(message),
                Ok(Arrival::Call(_)) => unreachable!(),
                Ok(Arrival::Woken) => {}
                Ok(Arrival::Closed) => return Event::Closed,
                Err(fault) => {
                    self.end = Some(ReadEnd::Fault(fault));
                    return Event::Closed;
                }
            }
        }
        unreachable!()
    }
}

impl<'a, R: Wait + Copy + Drop, L: BadContentPolicy> Inbox for ThreadEnds<'a, R, L> {
    ghost use Rattle.lsp_threads.specs.ThreadEnds.{EndsGive};

    ghost receives = { EndsGive L.passes };

    #[tactic(auto, using(crate::proofs::ThreadEnds::ready_waits))]
    fn receive_for(&mut self, _seconds: u64) -> Event {
        self.make_ready();
        self.next_event()
    }

    #[tactic(auto, using(crate::proofs::ThreadEnds::ready_waits))]
    fn receive(&mut self) -> Event {
        self.make_ready();
        self.next_event()
    }
}

impl<'a, R: Wait + Copy + Drop, L: BadContentPolicy> WakingInbox for ThreadEnds<'a, R, L> {
    ghost use Rattle.lsp_threads.specs.ThreadEnds.{EndsListen};

    ghost listens = { EndsListen L.ends };

    #[tactic(auto, using(crate::proofs::ThreadEnds::ready_waits))]
    fn receive_or_woken(&mut self) -> Arrival {
        self.make_ready();
        self.next_arrival()
    }

    #[tactic(auto, using(crate::proofs::ThreadEnds::ready_waits))]
    fn receive_call_or_woken(&mut self, calls: &mut CallReader) -> Arrival {
        self.make_ready();
        self.next_call_or_arrival(calls)
    }
}

impl<'a, R: Wait + Copy + Drop, L: BadContentPolicy> Outbox for ThreadEnds<'a, R, L> {
    ghost use Rattle.lsp_threads.specs.ThreadEnds.{EndsSend};

    ghost sends = { EndsSend };

    fn send(&mut self, message: Message) -> Result<(), SendFault> {
        let taken = self.parts.so_far();
        self.outbox.send(message, taken)
    }
}

impl<'a, R: Wait + Copy + Drop, L: BadContentPolicy> TextOutbox for ThreadEnds<'a, R, L> {
    fn send_text(&mut self, id: RequestId, text: ResultText) -> Result<(), SendFault> {
        let taken = self.parts.so_far();
        self.outbox.send_text(id, text, taken)
    }
}

/// Runs a session of an application on the caller's ends. All messages that are sent for a message are passed on before
/// a wait for the next.
pub fn serve_ends<R: Wait + Copy + Drop, L: BadContentPolicy, A: Application>(
    alloc: Global,
    ends: &mut ThreadEnds<'_, R, L>,
    application: &mut A,
) -> SessionOutcome
    requires { IsFresh ends.old }
    ensures runs { Runs (ContentsGive L.passes) RepliesSend
        (Both (Both (A.session application.old application.new) (StopsBy result.stop))
        (EndsInOrder L.passes ends.old ends.new))
        (seen_of ends.old, ends.old.outbox.now.replies) result.answer
        (seen_of ends.new, ends.new.outbox.now.replies) }
    ensures lent { KeepsLent ends.old ends.new }
{
    serve_application(alloc, ends, application)
}
