//! What a recorder sees of sessions.
ghost use Rattle.lsp_session.specs.Prompt.{Talks};
ghost use Rattle.lsp_session.specs.Session.{starting};
ghost use Rattle.test_laws.specs.Clean.{AnswersCleanly, SpeaksCleanly};

use crate::acts::Keeper;
use crate::sessions::Quiet;
use lsp_acts::ServerApplication;
use lsp_acts::laws::server_keeps_laws;
use lsp_session::laws::sessions::session_answers_requests;
use lsp_session::{
    ClientStreams, EndOnBadContent, HandlerApplication, SessionEnd, SessionOutcome, TextOutbox,
    WakingInbox, serve_application,
};
use lsp_watched::laws::{
    a_session_is_recorded, recorded_server_is_clean, recorded_server_keeps_lifecycle,
    recorded_server_of_replies_is_clean, server_keeps_lifecycle, server_of_replies_is_clean,
    server_replies_fit,
};
use serde_json::{Map, Value};
use std::alloc::Global;

/// Serves a client, and answers each request with null. The server breaks no rule of ids or of the lifecycle (JSON-RPC
/// 2.0, section 5; LSP 3.17, "Server lifecycle"): neither in the log of the session, nor as a recorder sees it if the
/// client reuses no id before its reply.
pub fn serve_quiet<L: WakingInbox + TextOutbox>(
    alloc: Global,
    transport: &mut L,
    application: &mut HandlerApplication<Quiet>,
) -> SessionOutcome
    ensures { Talks L.receives L.listens L.sends starting AnswersCleanly transport.old result.answer transport.new }
{
    session_answers_requests::<Quiet>();
    server_of_replies_is_clean();
    server_keeps_lifecycle();
    a_session_is_recorded();
    recorded_server_of_replies_is_clean();
    recorded_server_keeps_lifecycle();
    serve_application(alloc, transport, application)
}

/// Serves a client with a server that answers no request before `shutdown`. As a recorder sees it, the server breaks no
/// rule of ids or of the lifecycle, if the client reuses no id before its reply.
pub fn serve_keeper<L: WakingInbox + TextOutbox>(
    alloc: Global,
    transport: &mut L,
    application: &mut ServerApplication<Keeper, ()>,
) -> SessionOutcome
    ensures { Talks L.receives L.listens L.sends starting SpeaksCleanly transport.old result.answer transport.new }
{
    server_keeps_laws::<Keeper>();
    server_keeps_lifecycle();
    recorded_server_is_clean::<Keeper>();
    server_replies_fit();
    serve_application(alloc, transport, application)
}

/// Serves a client that sends these bytes, with a server that answers each request with null. Returns whether the session
/// ended at `exit`, after `shutdown`.
pub fn shuts_down_quiet(alloc: Global, text: &str) -> bool {
    let quiet = Quiet { notes: 0 };
    let mut application = HandlerApplication::new(alloc, Value::Object(Map::new(alloc)), quiet);
    let mut client = ClientStreams::new(text.as_bytes(), Vec::new(alloc));
    let mut policy = EndOnBadContent;
    let mut transport = client.transport(alloc, &mut policy);
    let outcome = serve_quiet(alloc, &mut transport, &mut application);
    let ended = is_shut_down(&outcome);
    drop(outcome);
    drop(transport);
    drop(client);
    drop(application);
    ended
}

/// Serves a client that sends these bytes, with a server that answers no request before `shutdown`. Returns whether the
/// session ended at `exit`, after `shutdown`.
pub fn shuts_down_keeper(alloc: Global, text: &str) -> bool {
    let mut application = ServerApplication::new(alloc, Keeper::new(alloc));
    let mut client = ClientStreams::new(text.as_bytes(), Vec::new(alloc));
    let mut policy = EndOnBadContent;
    let mut transport = client.transport(alloc, &mut policy);
    let outcome = serve_keeper(alloc, &mut transport, &mut application);
    let ended = is_shut_down(&outcome);
    drop(outcome);
    drop(transport);
    drop(client);
    drop(application);
    ended
}

/// Returns whether a session ended at `exit`, after `shutdown`.
fn is_shut_down(outcome: &SessionOutcome) -> bool {
    matches!(outcome.answer, Ok(SessionEnd::ShutDown))
}
