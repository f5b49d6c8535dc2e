//! What the steps of the lifecycle take from a reader, and what they leave in it; and what a session on a transport
//! reads and writes.
ghost use Rattle.serde_json.specs.View.{view};
ghost use Rattle.std.specs.Prelude.{◌≡◌, false, Option, None};
ghost use Rattle.lsp_message.specs.Frame.{no_limit};
ghost use Rattle.lsp_message.specs.declared.frame.ReadFault.{ReadFault};
ghost use Rattle.lsp_session.specs.Finish.{FinishesAt};
ghost use Rattle.lsp_session.specs.Passing.{ended_at_content};
ghost use Rattle.lsp_session.specs.Prompt.{Talks};
ghost use Rattle.lsp_session.specs.Replies.{ok_reply};
ghost use Rattle.lsp_session.specs.SessionOutcome.{StopsFor};
ghost use Rattle.lsp_session.specs.Session.{starting, SessionAnswer, SessionOut};
ghost use Rattle.lsp_session.specs.SessionFault.{session_answer as session_answer_spec};
ghost use Rattle.lsp_session.specs.SessionLaws.{Both};
ghost use Rattle.lsp_session.specs.StreamTransports.{IsUnused, KeepsEnds, GivesInOrder, StreamTransportGives, StreamTransportListens, StreamTransportSends, StopsServing, PassesBetween, Serves};
ghost use Rattle.lsp_session.specs.Transcripts.{notes_of};
ghost use Rattle.lsp_session.specs.Streams.{StreamGives};
ghost use Rattle.lsp_session.specs.declared.loops.ReadEnd.{ReadEnd as ReadEndType};
ghost use Rattle.lsp_session.specs.declared.loops.session_outcome.StopReason.{StopReason as Reason};
ghost use Rattle.lsp_session.specs.declared.loops.stream_transport.StreamTransport.{StreamTransport as TransportOf};

use crate::error::ProtocolError;
use crate::lifecycle::{Outbox, finish};
use crate::loops::{BadContentPolicy, Service, StreamInbox};
use lsp_message::RequestId;
use serde_json::Value;
use std::alloc::Global;
use std::io::{BufRead, Write};

/// Does what `finish` does, with the messages of a reader that is lent. It takes messages from the front of the
/// reader's bytes. The bytes after them stay in the reader.
pub fn finish_over_reader<R: BufRead, O: Outbox>(
    alloc: Global,
    reader: &mut R,
    outbox: &mut O,
    id: RequestId,
    initialize_result: Value,
) -> Result<(), ProtocolError>
    ensures { (end : Option ReadEndType)
        × FinishesAt (StreamGives no_limit) O.sends (ok_reply id (view initialize_result))
        (record { remaining = R.remaining reader.old; end = None }, outbox.old) result
        (record { remaining = R.remaining reader.new; end = end }, outbox.new) }
{
    let mut inbox = StreamInbox::new(alloc, reader);
    finish(alloc, &mut inbox, outbox, id, initialize_result)
}

/// Says which bytes a session on an unused transport reads and writes, and in which order (LSP 3.17, "Base Protocol"
/// and "Server lifecycle"). It applies to each session that `serve_transport` ran on a `StreamTransport`. Its result is
/// `StreamTransport::answer`. The transport keeps its reader, its writer and its policy.
///
/// Everything that is to be sent for a message is written before the next message is read: the result of `initialize`
/// before `initialized`, and the reply to `shutdown` before `exit`. So a client may wait for it before it sends more.
/// `transport_tells_its_bytes` says that each message is flushed too.
pub fn transport_gives_in_order<R: BufRead, W: Write, L: BadContentPolicy, S: Service>()
    ensures { (old new : S) (before after : TransportOf R W L) (reason : Reason) (answer : SessionAnswer)
        → IsUnused before
        → Talks (StreamTransportGives R.remaining L.passes) (StreamTransportListens L.ends)
        (StreamTransportSends W.contents)
        starting (Both (SessionOut S.behavior old new) (StopsFor reason)) before answer after
        → GivesInOrder R.remaining L.passes W.contents (SessionOut S.behavior old new) before
        (session_answer_spec reason answer after.end after.fault) after
        × KeepsEnds before after }
{}

/// Says which bytes a session on an unused transport took and gave, for every reader and writer (LSP 3.17, "Base
/// Protocol" and "Server lifecycle"). This includes readers and writers that do not say which bytes they have, such as
/// standard input and output. It applies to each session that `serve_transport` ran on a `StreamTransport`.
///
/// The transcript lists the acts in order, each with its bytes. These are the acts of a session: it takes a message,
/// gives everything that is to be sent for it, and only then takes the next one.
///
/// - The bytes that were taken for a message are a frame of it, whatever follows them, and no byte more.
/// - At the end of the messages, the bytes taken are those of the end of the input, or of the fault.
/// - The bytes that were given for a message are a frame of it, and the writer was flushed then. For a message that was
///   refused they are a prefix of one, or none.
pub fn transport_tells_its_bytes<R: BufRead, W: Write, L: BadContentPolicy, S: Service>()
    ensures { (old new : S) (before after : TransportOf R W L) (reason : Reason) (answer : SessionAnswer)
        → IsUnused before
        → Talks (StreamTransportGives R.remaining L.passes) (StreamTransportListens L.ends)
        (StreamTransportSends W.contents)
        starting (Both (SessionOut S.behavior old new) (StopsFor reason)) before answer after
        → Serves L.passes (SessionOut S.behavior old new) before
        (session_answer_spec reason answer after.end after.fault) after
        × PassesBetween R.remaining W.contents (notes_of after.transcript.now) before after }
{}

/// A session on an unused transport whose policy never ends it, such as `SkipSilently`, reads on after bad content. While it
/// serves its client, before a `shutdown`, it does not stop at a content part that was read whole and is no message
/// (LSP 3.17, "Base Protocol"). This applies to each session that `serve_transport` ran on a `StreamTransport`. In the
/// other waits, such as those for `initialize` and for `exit`, the policy is not asked, and such a content part ends
/// the messages.
pub fn transport_reads_on<R: BufRead, W: Write, L: BadContentPolicy, S: Service>()
    ensures { (old new : S) (before after : TransportOf R W L) (reason : Reason) (answer : SessionAnswer)
        → ((policy : L) (fault : ReadFault) → L.ends policy fault → ⊥)
        → IsUnused before
        → (talks : Talks (StreamTransportGives R.remaining L.passes) (StreamTransportListens L.ends)
        (StreamTransportSends W.contents)
        starting (Both (SessionOut S.behavior old new) (StopsFor reason)) before answer after)
        → StopsServing talks.history.reached
        → ended_at_content after.end ≡ false }
{}
