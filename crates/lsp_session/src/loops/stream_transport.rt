// A transport over a reader and a writer.
ghost use Rattle.std.specs.Prelude.{◌≡◌, None};
ghost use Rattle.lsp_session.specs.Event.{arrival_view, event_view};
ghost use Rattle.lsp_session.specs.SessionFailures.{ReportsReader, ReportsWriter};
ghost use Rattle.lsp_session.specs.SessionFault.{session_answer as session_answer_spec};
ghost use Rattle.lsp_session.specs.Transcripts.{notes_of};
ghost use Rattle.lsp_session.specs.StreamTransports.{GivesBetween, IsUnused, PassesBetween, Serves, StreamTransportGives, StreamTransportListens};

use crate::lifecycle::{Arrival, Event, Inbox, Outbox, SendFault, TextOutbox, WakingInbox};
use crate::loops::transcript::{Noted, Transcript};
use crate::loops::{
    Application, BadContentPolicy, FrameOutbox, ReadEnd, SessionEnd, SessionFault, SessionOutcome,
    TolerantInbox, serve_application, session_answer,
};
use lsp_calls::CallReader;
use lsp_message::{ByteTrace, Limits, Message, RequestId, ResultText, WriteFault};
use std::alloc::Global;
use std::io::{BufRead, Write};
use std::snapshot::Snapshot;

/// Reads a reader's messages, as a `TolerantInbox` does, and writes messages to a writer, as a `FrameOutbox` does (LSP
/// 3.17, "Base Protocol"). It adds the bytes that were read and written to a transcript, which only clauses see.
///
/// `serve` runs a session on it. A function that is lent a transport can't replace its reader or its writer, and code
/// outside of `lsp_session` can't add to its transcript. A proof by hand could, since it may give ghost data any value.
/// `tools/by_hand` lists the proofs by hand, and fails at any other. While it passes, a clause with the transcript in
/// it is about the bytes of this reader and this writer.
#[derive(Drop)]
pub struct StreamTransport<'a, R, W, L> {
    alloc: Global,
    reader: &'a mut R,
    writer: &'a mut W,
    policy: &'a mut L,
    transcript: &'a mut Transcript,
    limits: Limits,
    end: Option<ReadEnd>,
    fault: Option<WriteFault>,
}

impl<'a, R: BufRead, W: Write, L: BadContentPolicy> StreamTransport<'a, R, W, L> {
    /// Makes a transport on a reader and a writer, for messages within `limits`. A longer header part or content part
    /// ends the messages with `ReadFault::HeaderTooLong` or `TooLong`. The policy is asked as by a `TolerantInbox`;
    /// with `EndOnBadContent` no content part is skipped. It does not allocate.
    pub fn within(
        alloc: Global,
        reader: &'a mut R,
        writer: &'a mut W,
        policy: &'a mut L,
        limits: Limits,
        transcript: &'a mut Transcript,
    ) -> Self
        ensures same_reader { result.reader.ghost_name ≡ reader.entry.ghost_name }
        ensures same_writer { result.writer.ghost_name ≡ writer.entry.ghost_name }
        ensures same_policy { result.policy.ghost_name ≡ policy.entry.ghost_name }
        ensures same_transcript { result.transcript.ghost_name ≡ transcript.entry.ghost_name }
        ensures unread { result.reader.now ≡ reader.old }
        ensures unwritten { result.writer.now ≡ writer.old }
        ensures untold { result.policy.now ≡ policy.old }
        ensures transcribed { result.transcript.now ≡ transcript.old }
        ensures limited { result.limits ≡ limits }
        ensures unended { result.end ≡ None }
        ensures unfailed { result.fault ≡ None }
    {
        StreamTransport {
            alloc,
            reader,
            writer,
            policy,
            transcript,
            limits,
            end: None,
            fault: None,
        }
    }

    /// Returns what ended the messages: `Exit`, `End` or `Fault`. Before the end it returns `None`.
    pub fn end(&self) -> Option<ReadEnd>
        ensures { result ≡ self.now.end }
    {
        self.end
    }

    /// Returns the fault of the write that failed. Nothing is written after it.
    pub fn fault(&self) -> Option<WriteFault>
        ensures { result ≡ self.now.fault }
    {
        self.fault
    }

    /// Returns the result of a session on this transport, from the outcome that `serve_transport` returned. If several
    /// faults fit, it is the first of `Write`, `Memory`, `Read` and `Protocol`.
    pub fn answer(&self, served: SessionOutcome) -> Result<SessionEnd, SessionFault>
        ensures { result ≡ session_answer_spec served.stop served.answer self.now.end self.now.fault }
    {
        session_answer(served, self.end, self.fault)
    }

    /// Runs a session of an application on this transport, which must be unused, on the caller's thread, and returns
    /// its result (LSP 3.17, "Base Protocol" and "Server lifecycle"). Call this for a server on standard input and
    /// output, or on a socket. `run_in_threads` of `lsp_threads` does the same with threads that read and write.
    ///
    /// A content part that is no message ends the session with `SessionFault::Read`, unless the policy says to read on.
    /// The policy is asked from `initialized` up to `shutdown`. If it says to read on, nothing is answered, and the
    /// next message is taken. Each other fault of reading ends the session at any time. The bytes after the last
    /// message that the session used stay in the reader.
    ///
    /// `serves` and `passed` hold for every reader and writer, also for those that do not say which bytes they have,
    /// such as standard input and output. The transcript says which bytes were taken for each message, which were given
    /// for each, and in which order. It also says which content parts were skipped, and that the policy allowed each.
    /// With `EndOnBadContent` none is skipped (`laws::policies::nothing_is_skipped`). `known` says more if the reader's
    /// bytes are known, as those of a slice are.
    ///
    /// `reader` and `writer` are about failures. The transcript has the kind of each error with which the reader or the
    /// writer failed. A result `Read(Input(kind))` or `Write(Output(kind))` has the kind of the last one.
    pub fn serve<A: Application>(&mut self, application: &mut A) -> Result<SessionEnd, SessionFault>
        requires { IsUnused self.old }
        ensures serves { Serves L.passes (A.session application.old application.new) self.old result self.new }
        ensures passed { PassesBetween R.remaining W.contents (notes_of self.new.transcript.now) self.old self.new }
        ensures known { GivesBetween R.remaining L.passes W.contents (A.session application.old application.new) self.old result self.new }
        ensures reader { ReportsReader result self.new.transcript.now }
        ensures writer { ReportsWriter result self.new.transcript.now }
    {
        let outcome = serve_application(self.alloc, self, application);
        self.answer(outcome)
    }

    /// Does one wait that gives no wake-ups.
    #[tactic(auto, using(crate::proofs::Noting::adds_reads))]
    fn next_event(&mut self) -> Event
        ensures { StreamTransportGives R.remaining L.passes self.old (event_view result) self.new }
    {
        let mut taken = ByteTrace::new();
        let mut inbox = TolerantInbox::resumed(
            self.alloc,
            &mut *self.reader,
            &mut *self.policy,
            self.limits,
            self.end,
        );
        let event = inbox.next_event(&mut taken);
        self.end = inbox.end();
        let noted = Noted::Gave(Snapshot::of(&event), taken);
        self.transcript.add(noted);
        event
    }

    /// Does one wait that also gives wake-ups.
    #[tactic(auto, using(crate::proofs::Noting::adds_reads))]
    fn next_arrival(&mut self) -> Arrival
        ensures gives { StreamTransportGives R.remaining L.passes self.old (arrival_view result)
            self.new }
        ensures reads_on { StreamTransportListens L.ends self.old (arrival_view result) self.new }
    {
        let mut taken = ByteTrace::new();
        let mut inbox = TolerantInbox::resumed(
            self.alloc,
            &mut *self.reader,
            &mut *self.policy,
            self.limits,
            self.end,
        );
        let arrival = inbox.next_arrival(&mut taken);
        self.end = inbox.end();
        let noted = Noted::Came(Snapshot::of(&arrival), taken);
        self.transcript.add(noted);
        arrival
    }

    /// Does what `next_arrival` does, but makes no tree of a call.
    #[tactic(auto, using(crate::proofs::Noting::adds_reads))]
    fn next_call_or_arrival(&mut self, calls: &mut CallReader) -> Arrival
        ensures gives { StreamTransportGives R.remaining L.passes self.old (arrival_view result)
            self.new }
        ensures reads_on { StreamTransportListens L.ends self.old (arrival_view result) self.new }
    {
        let mut taken = ByteTrace::new();
        let mut inbox = TolerantInbox::resumed(
            self.alloc,
            &mut *self.reader,
            &mut *self.policy,
            self.limits,
            self.end,
        );
        let arrival = inbox.next_call_or_arrival(calls, &mut taken);
        self.end = inbox.end();
        let noted = Noted::Came(Snapshot::of(&arrival), taken);
        self.transcript.add(noted);
        arrival
    }
}

impl<'a, R: BufRead, W: Write, L: BadContentPolicy> Inbox for StreamTransport<'a, R, W, L> {
    ghost use Rattle.lsp_session.specs.StreamTransports.{StreamTransportGives};

    ghost receives = { StreamTransportGives R.remaining L.passes };

    /// It has no timeouts: a receive waits as the reader does.
    fn receive_for(&mut self, _seconds: u64) -> Event {
        self.next_event()
    }

    #[tactic(auto, using(crate::proofs::Waiting::waits_none))]
    fn receive(&mut self) -> Event {
        self.next_event()
    }
}

impl<'a, R: BufRead, W: Write, L: BadContentPolicy> WakingInbox for StreamTransport<'a, R, W, L> {
    ghost use Rattle.lsp_session.specs.StreamTransports.{StreamTransportListens};

    // If a wake can tell of a content part that is no message, it ends the messages only if the policy says so.
    ghost listens = { StreamTransportListens L.ends };

    #[tactic(auto, using(crate::proofs::Waiting::waits_none))]
    fn receive_or_woken(&mut self) -> Arrival {
        self.next_arrival()
    }

    #[tactic(auto, using(crate::proofs::Waiting::waits_none))]
    fn receive_call_or_woken(&mut self, calls: &mut CallReader) -> Arrival {
        self.next_call_or_arrival(calls)
    }
}

impl<'a, R: BufRead, W: Write, L: BadContentPolicy> Outbox for StreamTransport<'a, R, W, L> {
    ghost use Rattle.lsp_session.specs.StreamTransports.{StreamTransportSends};

    ghost sends = { StreamTransportSends W.contents };

    fn send(&mut self, message: Message) -> Result<(), SendFault> {
        let sent = Snapshot::of(&message);
        let mut given = ByteTrace::new();
        let mut outbox = FrameOutbox::resumed(self.alloc, &mut *self.writer, self.fault);
        let outcome = outbox.send_traced(message, &mut given);
        self.fault = outbox.fault();
        self.transcript.add(Noted::of_send(sent, &outcome, given));
        outcome
    }
}

impl<'a, R: BufRead, W: Write, L: BadContentPolicy> TextOutbox for StreamTransport<'a, R, W, L> {
    fn send_text(&mut self, id: RequestId, text: ResultText) -> Result<(), SendFault> {
        let reply = Snapshot::of(&id);
        let sent = Snapshot::of(&text);
        let mut given = ByteTrace::new();
        let mut outbox = FrameOutbox::resumed(self.alloc, &mut *self.writer, self.fault);
        let outcome = outbox.send_text_traced(id, text, &mut given);
        self.fault = outbox.fault();
        self.transcript
            .add(Noted::of_text(reply, sent, &outcome, given));
        outcome
    }
}
