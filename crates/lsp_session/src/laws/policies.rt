//! What a session that asks a policy, and one of a handler, does with its client's requests.
ghost use Rattle.serde_json.specs.View.{view};
ghost use Rattle.std.specs.Prelude.{ℕ, List, Option, Result};
ghost use Rattle.lsp_message.specs.declared.frame.limits.Limits.{Limits};
ghost use Rattle.lsp_session.specs.ActBytes.{SkipsNothing};
ghost use Rattle.lsp_session.specs.HandlerService.{lent_handler};
ghost use Rattle.lsp_session.specs.HandlerSession.{of_handler};
ghost use Rattle.lsp_session.specs.PassingBytes.{GivesAndTells, SkipsNoContent};
ghost use Rattle.lsp_session.specs.Session.{Exchange, SessionAnswer, Stop, SessionOut};
ghost use Rattle.lsp_session.specs.SessionBytes.{Gives};
ghost use Rattle.lsp_session.specs.StreamTransports.{Serves};
ghost use Rattle.lsp_session.specs.Transcripts.{notes_of};
ghost use Rattle.lsp_session.specs.declared.loops.handler.SessionEnd.{SessionEnd as EndOfSession};
ghost use Rattle.lsp_session.specs.declared.loops.handler_service.HandlerService.{HandlerService as ServiceOf};
ghost use Rattle.lsp_session.specs.declared.loops.stream_session.SessionFault.{SessionFault as FaultOfSession};
ghost use Rattle.lsp_session.specs.declared.loops.stream_transport.StreamTransport.{StreamTransport as TransportOf};

use crate::loops::{Application, BadContentPolicy, Handler};
use std::io::{BufRead, Write};

/// With a policy that never skips anything, such as `EndOnBadContent`, each frame of a session from known bytes to bytes is
/// a message. So what the contract of `session` says about its session also applies to this one.
pub fn nothing_is_skipped_in_bytes<L: BadContentPolicy, A: Application>()
    ensures { (old new : A) (limit : Limits) (text : List ℕ) (left : Option (List ℕ)) (first last : L)
        (before after : Option (List ℕ)) (answer : Result EndOfSession FaultOfSession)
        → SkipsNoContent L.passes
        → GivesAndTells L.passes limit (A.session old new) text left first last before after answer
        → Gives limit (A.session old new) text left before after answer }
{}

/// With a policy that never skips anything, such as `EndOnBadContent`, no content part is skipped in a session on a
/// transport, for every reader and writer. This applies to each session that `StreamTransport::serve` ran.
pub fn nothing_is_skipped<R: BufRead, W: Write, L: BadContentPolicy, A: Application>()
    ensures { (old new : A) (before after : TransportOf R W L) (answer : Result EndOfSession FaultOfSession)
        → SkipsNoContent L.passes → Serves L.passes (A.session old new) before answer after
        → SkipsNothing (notes_of after.transcript.now) }
{}

/// A session of a handler that is lent to a service (`HandlerService`) is a session of that handler, which answers
/// `initialize` with the capabilities that the service was lent. So what the contract of `session` says applies to each
/// session that is run with such a service, and each request gets exactly one reply
/// (`sessions::session_answers_requests`).
pub fn handler_service_runs_its_handler<H: Handler>()
    ensures { (old new : ServiceOf H) (exchanges : List Exchange) (stop : Stop) (answer : SessionAnswer)
        → SessionOut (lent_handler H.answer_post H.note_post) old new exchanges stop answer
        → SessionOut (of_handler H.answer_post H.note_post (view old.capabilities.now)) old.handler.now
        new.handler.now exchanges stop answer }
{}
