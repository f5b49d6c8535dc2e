//! What a session of a handler did that ended well: the first law to read.
ghost use Rattle.serde_json.specs.Data.{Data};
ghost use Rattle.std.specs.Prelude.{[], ℕ, IfOk, List, Option, Result};
ghost use Rattle.lsp_message.specs.declared.frame.limits.Limits.{Limits};
ghost use Rattle.lsp_session.specs.ActBytes.{SkipsNothing};
ghost use Rattle.lsp_session.specs.EndsWell.{EndsWell, EndsWellBetween, all_given, all_taken};
ghost use Rattle.lsp_session.specs.HandlerSession.{of_handler};
ghost use Rattle.lsp_session.specs.Session.{SessionOut};
ghost use Rattle.lsp_session.specs.SessionBytes.{Gives};
ghost use Rattle.lsp_session.specs.StreamTransports.{Serves};
ghost use Rattle.lsp_session.specs.Transcripts.{notes_of};
ghost use Rattle.lsp_session.specs.declared.loops.handler.SessionEnd.{SessionEnd};
ghost use Rattle.lsp_session.specs.declared.loops.stream_session.SessionFault.{SessionFault};
ghost use Rattle.lsp_session.specs.declared.loops.stream_transport.StreamTransport.{StreamTransport};

use crate::loops::{BadContentPolicy, Handler};
use std::io::{BufRead, Write};

/// A session of a handler over bytes that ended well (`session`). The bytes that came, up to those that the reader has
/// left, are frames of the client's messages, and perhaps the end of the input. The bytes that the writer got are frames
/// of one reply to each request, under its id, in order, each with an outcome that the handler may give then, and of
/// nothing else. The last reply is the null of `shutdown`, if that came (JSON-RPC 2.0, section 5; LSP 3.17, "Server
/// lifecycle").
pub fn session_ends_well<H: Handler>()
    ensures { (limits : Limits) (capabilities : Data) (old new : H) (text : List ℕ)
        (left before after : Option (List ℕ)) (result : Result SessionEnd SessionFault)
        → Gives limits (SessionOut (of_handler H.answer_post H.note_post capabilities) old new) text left before after
        result
        → IfOk result (λ end. EndsWellBetween H.answer_post H.note_post limits capabilities old text left before after
        end new) }
{}

/// The same of a session over a transport that skipped nothing (`StreamTransport::serve`), for every reader and writer:
/// the bytes are those that were taken and given, as the transcript has them.
pub fn transport_session_ends_well<R: BufRead, W: Write, L: BadContentPolicy, H: Handler>()
    ensures { (capabilities : Data) (old new : H) (before after : StreamTransport R W L)
        (result : Result SessionEnd SessionFault)
        → SkipsNothing (notes_of after.transcript.now)
        → Serves L.passes (SessionOut (of_handler H.answer_post H.note_post capabilities) old new) before result after
        → IfOk result (λ end. EndsWell H.answer_post H.note_post before.limits capabilities old
        (all_taken after.transcript.now) [] (all_given after.transcript.now) end new) }
{}
