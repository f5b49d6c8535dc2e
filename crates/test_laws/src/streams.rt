//! The bytes of sessions, and the first steps of the lifecycle.
ghost use Rattle.serde_json.specs.View.{view};
ghost use Rattle.std.specs.Prelude.{◌≡◌, ◌<◌, ◌^◌, ◌++◌, ℕ, List, length, Some, None, Option, IsSome, IfSome};
ghost use Rattle.lsp_message.specs.Frame.{no_limit};
ghost use Rattle.lsp_session.specs.ClientReads.{ClientReads};
ghost use Rattle.lsp_session.specs.Finish.{FinishesAt};
ghost use Rattle.lsp_session.specs.HandlerService.{lent_handler};
ghost use Rattle.lsp_session.specs.PassingBytes.{GivesAndTells};
ghost use Rattle.lsp_session.specs.Replies.{ok_reply};
ghost use Rattle.lsp_session.specs.Session.{SessionOut};
ghost use Rattle.lsp_session.specs.SessionBytes.{Gives};
ghost use Rattle.lsp_session.specs.SessionLaws.{Both};
ghost use Rattle.lsp_session.specs.StreamTransports.{IsUnused};
ghost use Rattle.lsp_session.specs.Streams.{StreamGives};

use crate::sessions::Quiet;
use lsp_message::RequestId;
use lsp_session::laws::clients::client_reads_what_was_sent;
use lsp_session::laws::policies::nothing_is_skipped_in_bytes;
use lsp_session::laws::streams::finish_over_reader;
use lsp_session::laws::turns::list_is_answered;
use lsp_session::{
    BadContentPolicy, EndOnBadContent, Handler, HandlerService, ListInbox, ListOutbox, OpenGate,
    Outbox, ProtocolError, ReadEnd, SessionEnd, SessionFault, StreamTransport, start_within,
};
use serde_json::Value;
use std::alloc::Global;
use std::io::{BufRead, Write};

/// Serves a client, up to the first content that is no message. If the bytes of the reader and the writer are known,
/// whoever reads what was written gets the messages that were sent.
pub fn serve_bytes<R: BufRead, W: Write>(
    transport: &mut StreamTransport<'_, R, W, EndOnBadContent>,
    service: &mut HandlerService<'_, Quiet>,
) -> Result<SessionEnd, SessionFault>
    requires { IsUnused transport.old }
    ensures { (text before written : List ℕ) → R.remaining transport.old.reader.now ≡ Some text
        → W.contents transport.old.writer.now ≡ Some before
        → W.contents transport.new.writer.now ≡ Some (before ++ written) → length written < 2 ^ 64
        → Gives transport.old.limits (Both (SessionOut (lent_handler ⟦<Quiet as Handler>⟧.answer_post
        ⟦<Quiet as Handler>⟧.note_post) service.old service.new) (ClientReads written result))
        text (R.remaining transport.new.reader.now) (Some before) (Some (before ++ written)) result }
{
    nothing_is_skipped_in_bytes::<EndOnBadContent, HandlerService<Quiet>>();
    client_reads_what_was_sent::<HandlerService<Quiet>, EndOnBadContent>();
    transport.serve(service)
}

/// Waits for `initialize` in a list of fewer than ten events. There is an answer, whatever they are.
pub fn begin(
    alloc: Global,
    inbox: &mut ListInbox,
    outbox: &mut ListOutbox,
) -> Option<Result<(RequestId, Value), ProtocolError>>
    requires { length inbox.old.events.items < 10 }
    ensures { IsSome result }
{
    list_is_answered::<OpenGate, ListOutbox>();
    start_within(alloc, inbox, outbox, &mut OpenGate, 10)
}

/// Sends the result of `initialize` to a list, and takes one message from the front of some bytes.
pub fn finish_bytes(
    alloc: Global,
    bytes: &mut &[u8],
    outbox: &mut ListOutbox,
    id: RequestId,
    initialize_result: Value,
) -> Result<(), ProtocolError>
    ensures { (end : Option ReadEnd) × FinishesAt (StreamGives no_limit) ⟦<ListOutbox as Outbox>⟧.sends
        (ok_reply id (view initialize_result))
        (record { remaining = Some bytes.old.now; end = None }, outbox.old) result
        (record { remaining = Some bytes.new.now; end = end }, outbox.new) }
{
    finish_over_reader(alloc, bytes, outbox, id, initialize_result)
}

/// Returns the result of a session that ended well, and reads nothing. If the reader does not say which bytes it has, a
/// clause about its bytes allows this, since it says nothing there.
pub fn serve_nothing<R: BufRead>(reader: &mut R) -> Result<SessionEnd, SessionFault>
    ensures { (old new : HandlerService Quiet) (first last : EndOnBadContent) → R.remaining reader.old ≡ None
        → IfSome (R.remaining reader.old) (λ text. GivesAndTells ⟦<EndOnBadContent as BadContentPolicy>⟧.passes no_limit
        (SessionOut (lent_handler ⟦<Quiet as Handler>⟧.answer_post ⟦<Quiet as Handler>⟧.note_post) old new) text None
        first last None None result) }
{
    let _reader = reader;
    Ok(SessionEnd::Closed)
}
