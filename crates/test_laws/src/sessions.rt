//! A session of a server that answers each request with null.
ghost use Rattle.serde_json.specs.View.{view};
ghost use Rattle.std.specs.Prelude.{◌≡◌, false, []};
ghost use Rattle.lsp_session.specs.Dialog.{Client, NeverBothWait, WaitsForReplies};
ghost use Rattle.lsp_session.specs.HandlerService.{lent_handler};
ghost use Rattle.lsp_session.specs.HandlerSession.{of_handler};
ghost use Rattle.lsp_session.specs.Passing.{ended_at_content};
ghost use Rattle.lsp_session.specs.Prompt.{Talks};
ghost use Rattle.lsp_session.specs.Session.{SessionOut, starting};
ghost use Rattle.lsp_session.specs.SessionFault.{session_answer};
ghost use Rattle.lsp_session.specs.SessionLaws.{Both};
ghost use Rattle.lsp_session.specs.SessionOutcome.{StopsFor};
ghost use Rattle.lsp_session.specs.StreamTransports.{GivesInOrder, IsUnused, KeepsEnds, PassesBetween, Serves, StopsServing};
ghost use Rattle.lsp_session.specs.StreamTransports.{StreamTransportGives, StreamTransportListens, StreamTransportSends, account_of};
ghost use Rattle.lsp_session.specs.Transcripts.{notes_of};
ghost use Rattle.test_laws.specs.Kept.{Kept};

use lsp_message::{Notification, Request, ResponseError};
use lsp_session::laws::dialogs::{client_is_never_kept_waiting, session_acts_in_order};
use lsp_session::laws::policies::handler_service_runs_its_handler;
use lsp_session::laws::sessions::{
    lost_client_was_answered, nothing_follows_a_refusal, only_replies_come_first,
    session_answers_requests, session_keeps_order,
};
use lsp_session::laws::streams::{
    transport_gives_in_order, transport_reads_on, transport_tells_its_bytes,
};
use lsp_session::{
    BadContentPolicy, Handler, HandlerService, SessionOutcome, SkipSilently, StreamTransport,
    serve_transport,
};
use serde_json::Value;
use std::alloc::{AllocError, Global};
use std::io::{BufRead, Write};

/// A server that answers each request with null.
#[derive(Drop)]
pub struct Quiet {
    /// How many notifications it got.
    pub notes: u32,
}

impl Handler for Quiet {
    ghost use Rattle.serde_json.specs.Data.{null};
    ghost use Rattle.std.specs.Prelude.{◌≡◌, Ok};

    ghost answer_post = { λ old _ _ _ outcome new. (new ≡ old) × (outcome ≡ Ok null) };

    fn answer(&mut self, _request: &Request) -> Result<Result<Value, ResponseError>, AllocError> {
        Ok(Ok(Value::Null))
    }

    fn note(&mut self, _notification: &Notification) -> Result<(), AllocError> {
        self.notes = self.notes.saturating_add(1);
        Ok(())
    }
}

/// Serves a client, and reads on after content that is no message.
pub fn serve_client<R: BufRead, W: Write>(
    alloc: Global,
    transport: &mut StreamTransport<'_, R, W, SkipSilently>,
    service: &mut HandlerService<'_, Quiet>,
) -> SessionOutcome
    requires { IsUnused transport.old }
    // The bytes that were taken and given, in order, are those of a session that keeps the laws.
    ensures told { Serves ⟦<SkipSilently as BadContentPolicy>⟧.passes
        (Both (SessionOut (of_handler ⟦<Quiet as Handler>⟧.answer_post ⟦<Quiet as Handler>⟧.note_post
        (view service.old.capabilities.now)) service.old.handler.now service.new.handler.now) Kept) transport.old
        (session_answer result.stop result.answer transport.new.end transport.new.fault) transport.new }
    ensures passed { PassesBetween R.remaining W.contents (notes_of transport.new.transcript.now)
        transport.old transport.new }
    // If the reader's bytes are known, the same holds from bytes to bytes.
    ensures known { GivesInOrder R.remaining ⟦<SkipSilently as BadContentPolicy>⟧.passes W.contents
        (SessionOut (lent_handler ⟦<Quiet as Handler>⟧.answer_post ⟦<Quiet as Handler>⟧.note_post)
        service.old service.new)
        transport.old (session_answer result.stop result.answer transport.new.end transport.new.fault) transport.new }
    ensures ends { KeepsEnds transport.old transport.new }
    // While it serves, it does not stop at content that is no message.
    ensures reads_on { (talks : Talks (StreamTransportGives R.remaining ⟦<SkipSilently as BadContentPolicy>⟧.passes)
        (StreamTransportListens ⟦<SkipSilently as BadContentPolicy>⟧.ends) (StreamTransportSends W.contents) starting
        (Both (SessionOut (lent_handler ⟦<Quiet as Handler>⟧.answer_post ⟦<Quiet as Handler>⟧.note_post)
        service.old service.new)
        (StopsFor result.stop)) transport.old result.answer transport.new)
        × (StopsServing talks.history.reached → ended_at_content transport.new.end ≡ false) }
    // A client that waits only for replies is never kept waiting.
    ensures waits { (goes_on : Client) → WaitsForReplies goes_on
        → NeverBothWait goes_on [] [] (account_of transport.new) }
{
    transport_tells_its_bytes::<R, W, SkipSilently, HandlerService<Quiet>>();
    transport_gives_in_order::<R, W, SkipSilently, HandlerService<Quiet>>();
    transport_reads_on::<R, W, SkipSilently, HandlerService<Quiet>>();
    handler_service_runs_its_handler::<Quiet>();
    session_answers_requests::<Quiet>();
    session_keeps_order::<HandlerService<Quiet>>();
    nothing_follows_a_refusal::<HandlerService<Quiet>>();
    only_replies_come_first();
    lost_client_was_answered();
    session_acts_in_order::<StreamTransport<R, W, SkipSilently>, HandlerService<Quiet>>();
    client_is_never_kept_waiting::<HandlerService<Quiet>, Quiet>();
    serve_transport(alloc, transport, service)
}
