//! Laws about the session of a server, in terms of what a user sees.
ghost use Rattle.std.specs.FinMap as map;
ghost use Rattle.std.specs.Prelude.{◌≡◌, [], IfOk, List, Option, Result};
ghost use Rattle.lsp_message.specs.Id.{Id};
ghost use Rattle.lsp_message.specs.Message.{Message};
ghost use Rattle.lsp_queue.specs.Queue.{Pending};
ghost use Rattle.lsp_session.specs.ActBytes.{SkipsNothing};
ghost use Rattle.lsp_session.specs.EndsWell.{all_given, all_taken};
ghost use Rattle.lsp_session.specs.Session.{Exchange, SessionAnswer, SessionOut, Stop, messages_of};
ghost use Rattle.lsp_session.specs.SessionLaws.{Implies};
ghost use Rattle.lsp_session.specs.StreamTransports.{Serves};
ghost use Rattle.lsp_session.specs.Transcripts.{notes_of};
ghost use Rattle.lsp_session.specs.declared.loops.handler.SessionEnd.{SessionEnd};
ghost use Rattle.lsp_session.specs.declared.loops.stream_session.SessionFault.{SessionFault};
ghost use Rattle.lsp_session.specs.declared.loops.stream_transport.StreamTransport.{StreamTransport};
ghost use Rattle.lsp_acts.specs.Acts.{Queues, empty_queues};
ghost use Rattle.lsp_acts.specs.AtOnce.{AnswersAllAtOnce, LeavesNone};
ghost use Rattle.lsp_acts.specs.Law.{is_request_under, how_many, AnswersLast, AnswersLastInFull, IsGone, IsOwedWhatIsHeld, IsWhole, KeepsLaws, LawfulSession, NeverMore, OnceOrEnded, WasToSend};
ghost use Rattle.lsp_acts.specs.SentByActs.{ActsAt};
ghost use Rattle.lsp_acts.specs.ServerApplication.{with_queues, ServerSession, WorksSending, held_by};
ghost use Rattle.lsp_acts.specs.ServerEndsWell.{ServerEndsWell};
ghost use Rattle.lsp_acts.specs.View.{seen};
ghost use Rattle.lsp_acts.specs.declared.server_application.ServerApplication.{ServerApplication as QueuedOf};

use crate::server::Server;
use lsp_session::BadContentPolicy;
use std::io::{BufRead, Write};

/// A session of a server that ended well, over a transport that skipped nothing (`StreamTransport::serve`), for every
/// reader and writer. This is the law to read first. The bytes that were taken are frames of the client's messages, and
/// perhaps the end of the input. The bytes that were given are frames of the server's messages, and of nothing else.
/// Under no id are there more replies than the client sent requests. If the client asked for `shutdown`, its null is
/// the last message, and each request whose id was used once has exactly one reply (JSON-RPC 2.0, section 5; LSP 3.17,
/// "Server lifecycle").
pub fn server_session_ends_well<R: BufRead, W: Write, L: BadContentPolicy, S: Server>()
    ensures { (first last : S) (before after : StreamTransport R W L) (result : Result SessionEnd SessionFault)
        → SkipsNothing (notes_of after.transcript.now)
        → Serves L.passes (ServerSession S.Server first last) before result after
        → IfOk result (λ end. ServerEndsWell before.limits (all_taken after.transcript.now) []
        (all_given after.transcript.now) end) }
{}

/// The contract of a server's session implies these laws. They apply to the exchanges of each session of a
/// `ServerApplication`, and so to the session in each form.
///
/// - In each prefix of the session, the replies under an id are no more than the client's requests under it. So no
///   reply goes to anything else, and none is sent twice.
/// - The last request under an id got exactly one reply after it arrived, or it got none. It has none if it is still
///   held, or if the session ended at it because the lifecycle does not allow it. The fault shows that.
/// - A request that was cancelled has its reply when the exchange of its cancellation is over.
/// - Up to `initialized`, nothing is sent except one reply for each request.
/// - Nothing follows the reply to `shutdown`. When that was sent, no request is held
///   (`shutdown_leaves_nobody_waiting`).
/// - If the outbox refused a message, the messages that were to follow it for the same message or wake-up are lost too.
///   If an allocation failed, a request may be left without a reply. The rest holds in these cases too.
///
/// Each act is sent in its place. What the server stated about a message, a wake-up and `initialized` is what it did,
/// and the messages of those acts, in their order, are all that is sent there (`ActsAt`). Each reply of the client
/// reaches the server once, with the payload that was kept with the request under its id. A reply under an id that is
/// not pending reaches nobody. These statements are about the server's states, from the first to the last (unless an
/// allocation failed). Each state follows from the one before by what the server stated.
pub fn server_keeps_laws<S: Server>()
    ensures exchanges { (first last : S) (exchanges : List Exchange) (stop : Stop) (answer : SessionAnswer)
        → (session : ServerSession S.Server first last exchanges stop answer)
        → KeepsLaws S.Server first last (held_by S.Server session) exchanges
        stop answer }
    ensures lawful { (first last : S) → Implies (ServerSession S.Server first last) (LawfulSession S.Server first last) }
{}

/// A session of a server with its queues is a session of the server. This applies to the exchanges of each session that
/// was run with a `ServerApplication` as a service. The queues are empty at first (`ServerApplication::new`). As an application,
/// the `ServerApplication` promises this itself.
pub fn server_application_runs_its_server<S: Server>()
    ensures { (old new : QueuedOf S S.PendingData) (server : S) (exchanges : List Exchange)
        (stop : Stop) (answer : SessionAnswer)
        → seen old ≡ (server, empty_queues)
        → SessionOut (with_queues S.Server) old new exchanges stop answer
        → ServerSession S.Server server new.server exchanges stop answer }
{}

/// What a server stated about a message or a wake-up is what it did, and the messages of its acts, in their order, are
/// all that is sent: each notification, each request for which an id is left, the answer to each request that is held,
/// and the cancellation of each of its own requests that has no reply yet.
pub fn call_sends_its_acts<S: Server>()
    ensures { (old : S × Queues S.PendingData) (came : Option Message) (sent : List Message) (new : S
        × Queues S.PendingData)
        → WorksSending S.Server old came sent new
        → ActsAt S.Server old came sent new }
{}

/// If the client is gone, the last request under each id has exactly one reply, or it has none and is still held. This
/// applies to each session that keeps the laws, unless memory ran out. `all` are the exchanges with everything that was
/// to be sent in them. If the outbox refused a message, that message and those that were to follow it for the same
/// message or wake-up are lost. Otherwise `all` are the exchanges themselves.
pub fn lost_client_is_owed_what_is_held()
    ensures { (id : Id) (all : List Exchange) (stop : Stop) (held : Pending (Unit {0}))
        (answer : SessionAnswer) → IsGone answer → AnswersLast id all stop held answer
        → IsOwedWhatIsHeld id all held }
{}

/// After `shutdown` got its reply, the last request under each id has exactly one reply, before that of `shutdown`. The
/// only request without one is one at which the session ended because the lifecycle does not allow it. This applies to
/// each session that keeps the laws, unless memory ran out, since nothing is held then (`none_held`).
pub fn shutdown_leaves_nobody_waiting()
    ensures { (id : Id) (all : List Exchange) (stop : Stop) (held : Pending (Unit {0}))
        (answer : SessionAnswer) → held ≡ map.empty → AnswersLast id all stop held answer
        → AnswersLastInFull id all stop answer }
{}

/// A request whose id was used once has exactly one reply, or it has none: it is still held, or the session ended at it
/// because the lifecycle does not allow it. This applies to each session that keeps the laws, if the outbox refused no
/// message and memory did not run out.
pub fn id_used_once_is_answered_once()
    ensures { (id : Id) (exchanges all : List Exchange) (stop : Stop) (held : Pending (Unit {0}))
        (answer : SessionAnswer) → WasToSend stop exchanges all → IsWhole stop
        → NeverMore id exchanges → AnswersLast id all stop held answer
        → how_many (is_request_under id) (messages_of exchanges) ≡ 1
        → OnceOrEnded id exchanges stop held answer }
{}

/// A server that answers each request at once leaves none without a reply, as a `Handler` does. Its `request_post` says
/// that it does: exactly one of the acts is a reply, and it is to this request (`AnswersEach`).
///
/// A request whose id was used once has exactly one reply, if the outbox refused no message and memory did not run out.
/// So has the last request under each id, of all that was to be sent, if memory did not run out. The only request
/// without a reply is one at which the session ended because the lifecycle does not allow it.
pub fn server_that_answers_at_once_leaves_none<S: Server>()
    ensures { (first last : S) (exchanges : List Exchange) (stop : Stop) (answer : SessionAnswer)
        → AnswersAllAtOnce S.Server → ServerSession S.Server first last exchanges stop answer
        → LeavesNone exchanges stop answer }
{}
