//! Laws of what passes. Each is the contract of a function, so the proofs of callers can use it.
//!
//! In the log of a session each message of the client stands where the session takes it, with what is sent for it behind
//! it. A recorder in between may see a message sooner, if the client does not wait for replies (`IsRecorded`): laws of
//! such a log ask for a client that reuses no id before its reply passed.
ghost use Rattle.std.specs.Prelude.{Bool, List, Option};
ghost use Rattle.lsp_message.specs.Id.{Id};
ghost use Rattle.lsp_message.specs.Message.{Message};
ghost use Rattle.lsp_peers.specs.History.{Entry, IsHistory};
ghost use Rattle.lsp_peers.specs.declared.step.Side.{Side};
ghost use Rattle.lsp_queue.specs.Queue.{Pending};
ghost use Rattle.lsp_acts.specs.Law.{KeepsLaws, NeverMore};
ghost use Rattle.lsp_session.specs.Answered.{AnswersRequests};
ghost use Rattle.lsp_session.specs.Session.{Exchange, SessionAnswer, Stop};
ghost use Rattle.lsp_session.specs.SessionLaws.{KeepsOrder};
ghost use Rattle.lsp_watch.specs.Log.{Log};
ghost use Rattle.lsp_watched.specs.Peers.{IsLogOf, KeepsIds};
ghost use Rattle.lsp_watched.specs.Recorded.{IsRecorded};
ghost use Rattle.lsp_watched.specs.Sessions.{IsLogOfSession, ClientKeepsIds};
ghost use Rattle.lsp_watched.specs.Sessions.{ServerIsClean, ServerKeepsLifecycle, ServerRepliesFit};

use lsp_acts::Server;
use lsp_peers::laws::{a_beginning_is_a_history, each_request_is_in_one_place};

/// In the log of a history of two peers no message breaks a rule of ids (JSON-RPC 2.0, sections 4 and 5), whichever of
/// the two is the client: no request comes under an id under which one waits, and no reply that no request waits for.
pub fn peers_keep_ids()
    ensures { (client : Side) (history : List Entry) (log : Log)
        → IsHistory history → IsLogOf client history log → KeepsIds log }
{
    a_beginning_is_a_history();
    each_request_is_in_one_place();
}

/// A session in which each request gets its one reply breaks no rule of ids or of the lifecycle, whatever its client
/// does: a fact of each session of a `Handler`
/// (`lsp_session::laws::sessions::session_answers_requests`).
pub fn server_of_replies_is_clean()
    ensures { (exchanges : List Exchange) (stop : Stop)
        (answer : SessionAnswer) (log : Log)
        → AnswersRequests exchanges stop answer → IsLogOfSession exchanges log
        → ServerIsClean log }
{}

/// A session that keeps the order of the lifecycle sends nothing that breaks a rule of it, whatever its client and its
/// service do: a fact of each session (`lsp_session::laws::sessions::session_keeps_order`).
pub fn server_keeps_lifecycle()
    ensures { (passes_late speaks_last : Bool) (exchanges : List Exchange) (stop : Stop)
        (answer : SessionAnswer) (log : Log)
        → KeepsOrder passes_late speaks_last exchanges stop answer
        → IsLogOfSession exchanges log → ServerKeepsLifecycle log }
{}

/// A session in which there are never more replies under an id than requests sends no reply that breaks a rule of ids,
/// as a recorder sees it, if its client reuses no id before the reply: a fact of each session of a `Server`
/// (`lsp_acts::laws::server_keeps_laws`).
pub fn server_replies_fit()
    ensures { (exchanges : List Exchange) (log : Log) → ((id : Id) → NeverMore id exchanges)
        → IsRecorded exchanges log → ClientKeepsIds log → ServerRepliesFit log }
{}

/// As a recorder sees it, a session that keeps the order of the lifecycle sends nothing that breaks a rule of it, if its
/// client reuses no id before the reply.
pub fn recorded_server_keeps_lifecycle()
    ensures { (passes_late speaks_last : Bool) (exchanges : List Exchange) (stop : Stop)
        (answer : SessionAnswer) (log : Log)
        → KeepsOrder passes_late speaks_last exchanges stop answer
        → IsRecorded exchanges log → ClientKeepsIds log → ServerKeepsLifecycle log }
{}

/// As a recorder sees it, a session in which each request gets its one reply breaks no rule of ids or of the lifecycle,
/// if its client reuses no id before the reply.
pub fn recorded_server_of_replies_is_clean()
    ensures { (exchanges : List Exchange) (stop : Stop)
        (answer : SessionAnswer) (log : Log)
        → AnswersRequests exchanges stop answer → IsRecorded exchanges log
        → ClientKeepsIds log → ServerIsClean log }
{}

/// As a recorder sees it, a session of a `Server` breaks no rule of ids or of the lifecycle, if its client reuses no id
/// before the reply: a fact of each session that keeps the laws (`lsp_acts::laws::server_keeps_laws`). Its own requests have
/// the ids 0, 1, 2, and so on.
pub fn recorded_server_is_clean<S: Server>()
    ensures { (first last : S) (held : Pending (Unit {0})) (exchanges : List Exchange) (stop : Stop)
        (answer : SessionAnswer) (log : Log)
        → KeepsLaws S.Server first last held exchanges stop answer
        → IsRecorded exchanges log → ClientKeepsIds log → ServerIsClean log }
{}

/// The log of a session is one that a recorder may see: the client waits for the messages that are sent for each of its
/// own.
pub fn a_session_is_recorded()
    ensures { (exchanges : List Exchange) (log : Log) → IsLogOfSession exchanges log
        → IsRecorded exchanges log }
{}
