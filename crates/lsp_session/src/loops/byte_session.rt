// A session of a server between bytes and bytes.
ghost use Rattle.std.specs.Prelude.{◌≡◌, ◌≤◌, ◌<◌, ◌⊎◌, ◌++◌, [], length, drop as drop_front, take, IsTrue, None, Some, IsSomeAnd};
ghost use Rattle.std.specs.List.{concat};
ghost use Rattle.lsp_message.specs.FrameInput.{AwaitsMore, IsFrameRead};
ghost use Rattle.lsp_session.specs.ByteSession.{BeginsWithFault, Comes, Goes, IsEndOf};
ghost use Rattle.lsp_session.specs.ByteSessions.{standing, unread, EndsAtFrame, HasServed, KeepsBounds, KnowsEnd, PausesAtFrame};
ghost use Rattle.lsp_session.specs.Event.{closed, timeout, woken};
ghost use Rattle.lsp_session.specs.Machine.{awaited_in, came_view, outcome_of};
ghost use Rattle.lsp_session.specs.SessionFault.{session_answer as session_answer_spec};
ghost use Rattle.lsp_session.specs.TransportTurn.{IsOver};
ghost use Rattle.lsp_session.specs.declared.loops.ReadEnd.TheVariants.{Fault};
ghost use Rattle.lsp_session.specs.declared.loops.machine.Stage.TheVariants as stage;

use crate::error::ProtocolError;
use crate::loops::ReadEnd;
use crate::loops::handler::SessionEnd;
use crate::loops::incoming::Incoming;
use crate::loops::machine::{Awaits, Came, SessionCore};
use crate::loops::pending_output::PendingOutput;
use crate::loops::service::Service;
use crate::loops::stream_session::{SessionFault, session_answer};
use lsp_calls::CallReader;
use lsp_message::{ByteTrace, Frame, FrameInput, Limits, ReadFault};
use std::alloc::Global;

/// A session of a server from bytes to bytes (LSP 3.17, "Base Protocol" and "Server lifecycle"). It does no IO: the
/// caller passes in the bytes that arrived, and sends its output. So it runs in an event loop, in a test, or behind an
/// interface of another language.
///
/// At each message the session does what `serve_transport` describes. It holds the bytes of at most one frame, within
/// its `Limits`. While more than `most_pending` bytes are to be sent, it takes no input. So it holds at most these
/// bytes, and the output of one more event.
///
/// If the service reads calls (`Service::reads_calls`), the session makes no tree of a call from `initialized` up to
/// `shutdown`.
///
/// At bytes that are no message the session ends, as one with the policy `EndOnBadContent` does. `into_parts` then returns
/// `SessionFault::Read`, and the bytes count as unread. If memory runs out, the session ends, and `into_parts` returns
/// `SessionFault::Memory`. The room of a content part is reserved where its header part ends. So a length that no memory
/// holds ends the session there, before a byte of the content part comes.
///
/// This loop runs a session on a reader and a writer. `input` holds the bytes that were read and not taken:
///
/// ```text
/// while !session.is_done() {
///     if !session.output().is_empty() {
///         let count = writer.write(session.output())?;
///         session.sent(count);
///     } else if input.is_empty() {
///         match reader.read(&mut buffer)? {
///             0 => session.closed(),
///             count => input.extend_from_slice(&buffer[..count])?,
///         }
///     } else {
///         let count = session.receive(&input);
///         drop(input.drain(..count));
///     }
/// }
/// let (answer, service) = session.into_parts();
/// ```
#[derive(Drop)]
pub struct ByteSession<S> {
    alloc: Global,
    core: SessionCore,
    service: S,
    most_pending: usize,
    input: FrameInput,
    refused: ByteTrace,
    output: PendingOutput,
    end: Option<ReadEnd>,
    calls: CallReader,
}

impl<S: Service> ByteSession<S> {
    /// Makes a session that waits for `initialize`, for messages within `limits`. It does not allocate.
    pub fn new(alloc: Global, service: S, limits: Limits, most_pending: usize) -> ByteSession<S>
        ensures starts { standing result ≡ record { stage = stage.Starting; service = service; pending = [] } }
        ensures unread { unread result ≡ [] }
        ensures limits { result.input.limits ≡ limits }
        ensures most { result.most_pending ≡ most_pending }
        ensures unended { result.end ≡ None }
        ensures frame { EndsAtFrame result }
        ensures served { HasServed result }
        ensures known { KnowsEnd result }
    {
        ByteSession {
            alloc,
            core: SessionCore::new(alloc),
            service,
            most_pending,
            input: FrameInput::new(alloc, limits),
            refused: ByteTrace::new(),
            output: PendingOutput::new(alloc),
            end: None,
            calls: CallReader::new(alloc),
        }
    }

    /// Returns what the session waits for.
    pub fn awaits(&self) -> Awaits
        ensures { result ≡ awaited_in (standing self.now).stage }
    {
        self.core.awaits()
    }

    /// Returns whether `receive` takes bytes: the session has not ended, and at most `most_pending` bytes are to be
    /// sent.
    pub fn wants_input(&self) -> bool
        ensures pending { IsTrue result → length (standing self.now).pending ≤ self.now.most_pending }
        ensures waits { IsTrue result → IsOver (standing self.now).stage → ⊥ }
        ensures refuses { (IsTrue result → ⊥) → IsOver (standing self.now).stage ⊎ (self.now.most_pending < length (standing self.now).pending) }
    {
        self.core.awaits() != Awaits::Nothing && self.output.as_slice().len() <= self.most_pending
    }

    /// Takes bytes that arrived, in pieces of any size, and serves each message as soon as it is whole. It returns how
    /// many bytes it took: all of them, unless the session ends or more than `most_pending` bytes are to be sent. Pass
    /// in the others again when enough of the output was sent.
    ///
    /// The session takes no other event for bytes. It ends here at its last message, at a fault of the bytes, or
    /// because memory ran out. If it ends at its last message, it takes no byte after the frame of that message. It takes
    /// none either after the frame of a message for which more than `most_pending` bytes are to be sent.
    pub fn receive(&mut self, bytes: &[u8]) -> usize
        ensures within { result ≤ length bytes.now }
        ensures goes { Goes self.old.input.limits self.old.most_pending S.behavior (standing self.old) (unread self.old)
            self.old.end (take result bytes.now) (standing self.new) (unread self.new) self.new.end }
        ensures all { (result ≡ length bytes.now) ⊎ IsOver (standing self.new).stage
            ⊎ (self.new.most_pending < length (standing self.new).pending) }
        ensures frame { EndsAtFrame self.old → EndsAtFrame self.new }
        ensures paused { PausesAtFrame self.old → PausesAtFrame self.new }
        ensures served { HasServed self.old → HasServed self.new }
        ensures known { KnowsEnd self.old → KnowsEnd self.new }
        ensures kept { KeepsBounds self.old self.new }
    {
        let mut taken = 0;
        while taken < bytes.len() && self.wants_input() {
            taken += self.receive_part(&bytes[taken..]);
        }
        taken
    }

    /// Takes bytes up to the end of a line of the header part, or up to the end of the content part. Returns how many.
    fn receive_part(&mut self, bytes: &[u8]) -> usize
        requires room { length (standing self.old).pending ≤ self.old.most_pending }
        requires waits { IsOver (standing self.old).stage → ⊥ }
        ensures within { result ≤ length bytes.now }
        ensures some { (0 < length bytes.now → 0 < result) ⊎ IsOver (standing self.new).stage }
        ensures goes { Goes self.old.input.limits self.old.most_pending S.behavior (standing self.old) (unread self.old)
            self.old.end (take result bytes.now) (standing self.new) (unread self.new) self.new.end }
        ensures frame { EndsAtFrame self.new }
        ensures paused { PausesAtFrame self.new }
        ensures served { HasServed self.new }
        ensures known { KnowsEnd self.old → KnowsEnd self.new }
        ensures kept { KeepsBounds self.old self.new }
    {
        let (count, read) = self.input.receive(bytes);
        match read {
            Ok(Some(frame)) => self.take(frame),
            Ok(None) => {}
            Err(fault) => self.fail(fault, ByteTrace::new()),
        }
        count
    }

    /// Serves the message of a frame that came whole. At a content part that is no message, it ends the messages.
    fn take(&mut self, frame: Frame)
        requires room { length (standing self.old).pending ≤ self.old.most_pending }
        requires waits { IsOver (standing self.old).stage → ⊥ }
        requires whole { IsFrameRead self.old.input.limits frame.content.items (concat frame.bytes.parts) }
        requires begins { concat self.old.input.seen.parts ≡ [] }
        requires awaits { AwaitsMore self.old.input.limits (concat self.old.input.seen.parts) }
        ensures goes { Goes self.old.input.limits self.old.most_pending S.behavior (standing self.old)
            (concat frame.bytes.parts) self.old.end [] (standing self.new) (unread self.new) self.new.end }
        ensures frame { EndsAtFrame self.new }
        ensures paused { PausesAtFrame self.new }
        ensures served { HasServed self.new }
        ensures known { KnowsEnd self.old → KnowsEnd self.new }
        ensures kept { KeepsBounds self.old self.new }
    {
        let Frame { content, bytes } = frame;
        let reads_calls = self.core.awaits() == Awaits::MessageOrWake && self.service.reads_calls();
        match Incoming::in_part(self.alloc, &mut self.calls, reads_calls, content) {
            Ok(came) => self.come(came.into_came()),
            Err(fault) => self.fail(fault, bytes),
        }
    }

    /// Ends the messages with this fault, with which these bytes begin, and those that the input has.
    fn fail(&mut self, fault: ReadFault, refused: ByteTrace)
        requires room { length (standing self.old).pending ≤ self.old.most_pending }
        requires waits { IsOver (standing self.old).stage → ⊥ }
        requires begins { BeginsWithFault self.old.input.limits
            (concat refused.parts ++ concat self.old.input.seen.parts) fault }
        ensures goes { Goes self.old.input.limits self.old.most_pending S.behavior (standing self.old)
            (concat refused.parts ++ concat self.old.input.seen.parts) self.old.end [] (standing self.new)
            (unread self.new) self.new.end }
        ensures ends { self.new.end ≡ Some (Fault fault) }
        ensures paused { PausesAtFrame self.new }
        ensures known { KnowsEnd self.new }
        ensures over { IsOver (standing self.new).stage }
        ensures kept { KeepsBounds self.old self.new }
    {
        self.come(Came::Closed);
        self.end = Some(ReadEnd::Fault(fault));
        self.refused = refused;
    }

    /// Passes an event to the session, and keeps the output for it. It drops an event that the session does not take.
    fn come(&mut self, came: Came)
        ensures comes { Comes S.behavior (standing self.old) (came_view came) (standing self.new) }
        ensures input { self.new.input ≡ self.old.input }
        ensures unread { unread self.new ≡ unread self.old }
        ensures end { self.new.end ≡ self.old.end }
        ensures most { self.new.most_pending ≡ self.old.most_pending }
    {
        if !self.core.takes(&came) {
            return drop(came);
        }
        // A session that goes on has refused no frame.
        self.refused = ByteTrace::new();
        let turn = self.core.advance(&mut self.service, came);
        match self.output.add_turn(turn) {
            Ok(()) => {}
            Err(error) => {
                drop(error);
                self.core.fail(ProtocolError::out_of_memory());
            }
        }
    }

    /// Returns what ends the messages where the input ends: the end of the input at the start of a line of a header
    /// part, and a fault elsewhere.
    fn end_of_input(&self) -> ReadEnd
        requires waits { IsOver (standing self.now).stage → ⊥ }
        ensures { IsEndOf self.now.input.limits (unread self.now) result }
    {
        match self.input.at_end() {
            None => ReadEnd::End,
            Some(fault) => ReadEnd::Fault(fault),
        }
    }

    /// Reports that no more bytes will arrive. The session ends. If a frame is not whole then, the result is the fault
    /// that a reader has there. No memory is needed to find it.
    pub fn closed(&mut self)
        ensures comes { Comes S.behavior (standing self.old) closed (standing self.new) }
        ensures unread { unread self.new ≡ unread self.old }
        ensures end { (IsOver (standing self.old).stage → ⊥) → IsSomeAnd self.new.end (IsEndOf self.old.input.limits (unread self.old)) }
        ensures over { IsOver (standing self.new).stage }
        ensures known { KnowsEnd self.old → KnowsEnd self.new }
        ensures kept { KeepsBounds self.old self.new }
    {
        if self.core.awaits() == Awaits::Nothing {
            return;
        }
        self.end = Some(self.end_of_input());
        self.come(Came::Closed);
    }

    /// Reports that something is ready for which the service waits. The session takes it only from `initialized` up to
    /// `shutdown`.
    pub fn woken(&mut self)
        ensures comes { Comes S.behavior (standing self.old) woken (standing self.new) }
        ensures unread { unread self.new ≡ unread self.old }
        ensures served { HasServed self.old → HasServed self.new }
        ensures known { KnowsEnd self.old → KnowsEnd self.new }
        ensures kept { KeepsBounds self.old self.new }
    {
        self.come(Came::Woken);
    }

    /// Reports that no message arrived within 30 seconds. The session takes it only while it waits for `exit`, and
    /// ends.
    pub fn timeout(&mut self)
        ensures comes { Comes S.behavior (standing self.old) timeout (standing self.new) }
        ensures unread { unread self.new ≡ unread self.old }
        ensures served { HasServed self.old → HasServed self.new }
        ensures known { KnowsEnd self.old → KnowsEnd self.new }
        ensures kept { KeepsBounds self.old self.new }
    {
        self.come(Came::Timeout);
    }

    /// Returns the bytes that are to be sent.
    pub fn output(&self) -> &[u8]
        ensures { result.now ≡ (standing self.now).pending }
    {
        self.output.as_slice()
    }

    /// Reports that the first `count` bytes of `output` were sent, and drops them. `count` is at most the length of
    /// `output`.
    pub fn sent(&mut self, count: usize)
        requires { count ≤ length (standing self.old).pending }
        ensures sent { standing self.new ≡ record (standing self.old) { pending = drop_front count (standing self.old).pending } }
        ensures unread { unread self.new ≡ unread self.old }
        ensures end { self.new.end ≡ self.old.end }
        ensures served { HasServed self.old → HasServed self.new }
        ensures known { KnowsEnd self.old → KnowsEnd self.new }
        ensures kept { KeepsBounds self.old self.new }
    {
        self.output.sent(count);
    }

    /// Returns whether the session has ended and all its output was sent.
    pub fn is_done(&self) -> bool
        ensures done { IsTrue result → IsOver (standing self.now).stage × ((standing self.now).pending ≡ []) }
        ensures undone { IsOver (standing self.now).stage → (standing self.now).pending ≡ [] → IsTrue result }
    {
        self.core.awaits() == Awaits::Nothing && self.output.as_slice().is_empty()
    }

    /// Returns how the session ended, and the service. Call `closed` first. If several faults fit, the result is the
    /// first of `Memory`, `Read` and `Protocol`.
    pub fn into_parts(self) -> (Result<SessionEnd, SessionFault>, S)
        ensures answer { result.0 ≡ session_answer_spec (outcome_of (standing self).stage).stop
            (outcome_of (standing self).stage).answer self.end None }
        ensures service { result.1 ≡ (standing self).service }
    {
        let ByteSession {
            core,
            service,
            end,
            ..
        } = self;
        (session_answer(core.into_outcome(), end, None), service)
    }
}
