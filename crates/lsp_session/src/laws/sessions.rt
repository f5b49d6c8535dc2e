//! What a session does with the requests of its client.
ghost use Rattle.serde_json.specs.Data.{Data};
ghost use Rattle.std.specs.Prelude.{◌≡◌, Bool, true, false, List, [], ◌∷◌, ◌++◌, None, IsSome, Err};
ghost use Rattle.lsp_message.specs.Message.{Message};
ghost use Rattle.lsp_session.specs.Answered.{AllReplied, AnswersRequests};
ghost use Rattle.lsp_session.specs.HandlerSession.{of_handler};
ghost use Rattle.lsp_session.specs.ProtocolError.{ProtocolFault, is_disconnected};
ghost use Rattle.lsp_session.specs.Session.{Exchange, SessionAnswer, Stop, sends_of, refused, SessionOut};
ghost use Rattle.lsp_session.specs.SessionBytes.{lost_of};
ghost use Rattle.lsp_session.specs.SessionLaws.{Both, KeepsOrder, is_reply, OpenedBy};
ghost use Rattle.lsp_session.specs.declared.lifecycle.SendFault.{SendFault as RefusedSend};

use crate::loops::{Handler, Service};

/// Each request of a handler's session gets exactly one reply, under its id and in order, and no reply goes to anything
/// else (JSON-RPC 2.0, section 5). This includes requests that came too early, `initialize`, those that the handler
/// answered, and `shutdown`. The only request without a reply is a last one that the lifecycle does not allow.
/// `session_keeps_order` says which requests these are.
///
/// This applies to the exchanges of each session that was run, and so to a session in each form.
pub fn session_answers_requests<H: Handler>()
    ensures { (capabilities : Data) (old new : H) (exchanges : List Exchange)
        (stop : Stop) (answer : SessionAnswer)
        → SessionOut (of_handler H.answer_post H.note_post capabilities) old new exchanges stop answer
        → Both AnswersRequests (KeepsOrder false false) exchanges stop answer }
{}

/// If a session returns that the client is gone, each request that it read has its reply. So if a request is left
/// without one, the fault shows it.
#[tactic(auto, using(crate::proofs::Ordering::all_answered))]
pub fn lost_client_was_answered()
    ensures { (exchanges : List Exchange) (stop : Stop) (fault : ProtocolFault)
        → is_disconnected fault ≡ true → AnswersRequests exchanges stop (Err fault)
        → AllReplied exchanges }
{}

/// If a session stopped because the outbox refused a message, this message is the last one that the session offered, in
/// its last exchange. The outbox took all messages before it. This applies to each session.
pub fn nothing_follows_a_refusal<S: Service>()
    ensures { (old new : S) (exchanges : List Exchange) (fault : RefusedSend) (answer : SessionAnswer)
        → SessionOut S.behavior old new exchanges (refused fault) answer
        → (earlier : List Exchange) × (last : Exchange) × (exchanges ≡ earlier ++ last ∷ [])
        × IsSome last.not_sent × (lost_of earlier ≡ None) }
{}

/// A message that is no reply is sent only after the client sent `initialize` and then `initialized`, and after the
/// result of `initialize` (LSP 3.17, "Server lifecycle"). This applies to each session that keeps its order.
pub fn only_replies_come_first()
    ensures { (passes_late speaks_last : Bool) (exchanges : List Exchange) (stop : Stop)
        (answer : SessionAnswer) (before more : List Message)
        (sent : Message)
        → KeepsOrder passes_late speaks_last exchanges stop answer
        → sends_of exchanges ≡ before ++ sent ∷ more → is_reply sent ≡ false
        → OpenedBy exchanges before }
{}

/// A session keeps the order of the lifecycle (LSP 3.17, "Server lifecycle"), whatever its service returns.
///
/// - Up to and including `initialize`, each request gets one reply: first errors, and last the result of `initialize`.
///   Nothing else is sent before `initialized` arrives. If no `initialize` gets a result, only errors are sent.
/// - The first `shutdown` gets null, after the messages that the service returns for it. This reply is the last message
///   that is sent.
/// - No message is read after an `exit`, or after a response that arrives before `initialize`.
/// - The result is that of the phase in which the session stopped. The session is shut down only by an `exit` after the
///   reply to `shutdown`.
/// - It stopped at a message that the outbox refused only if it offered one for the last message it read.
///
/// This applies to the exchanges of each session that was run, and so to a session in each form.
pub fn session_keeps_order<S: Service>()
    ensures { (old new : S) (exchanges : List Exchange) (stop : Stop)
        (answer : SessionAnswer)
        → SessionOut S.behavior old new exchanges stop answer
        → KeepsOrder S.behavior.passes_late true exchanges stop answer }
{}
