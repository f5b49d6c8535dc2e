//! What a client of a session may wait for.
ghost use Rattle.serde_json.specs.Data.{Data};
ghost use Rattle.std.specs.Prelude.{◌≡◌, List, [], ◌++◌};
ghost use Rattle.lsp_session.specs.Account.{Act, InOrder};
ghost use Rattle.lsp_session.specs.KeptAccount.{KeepsAccount};
ghost use Rattle.lsp_session.specs.Dialog.{Client, NeverBothWait, WaitsForReplies, WaitsForItsDue};
ghost use Rattle.lsp_session.specs.HandlerSession.{of_handler};
ghost use Rattle.lsp_session.specs.Prompt.{Talks};
ghost use Rattle.lsp_session.specs.Session.{starting, Exchange, SessionAnswer, SessionPart, Stop, SessionOut};
ghost use Rattle.lsp_session.specs.SessionLaws.{Both};

use crate::lifecycle::{Outbox, WakingInbox};
use crate::loops::{Handler, Service};

/// On a transport that keeps an account of its acts, a session acts in order: it reads a message, sends everything that
/// is to be sent for it, and only then reads the next one. So the result of `initialize` is sent before `initialized`
/// is read, and the reply to `shutdown` before `exit` is read (LSP 3.17, "Server lifecycle"). This is about the same
/// exchanges as all other clauses of the session.
pub fn session_acts_in_order<L: WakingInbox + Outbox, S: Service>()
    ensures { (account : L → List Act) (old new : S) (before after : L) (answer : SessionAnswer)
        → KeepsAccount L.receives L.sends account
        → Talks L.receives L.listens L.sends starting (SessionOut S.behavior old new) before answer
        after
        → (acts : List Act) × (account after ≡ account before ++ acts)
        × Talks L.receives L.listens L.sends starting
        (Both (SessionOut S.behavior old new) (InOrder acts)) before answer after }
{}

/// A session that acts in order never keeps a client waiting that waits only for messages which are due to it. Whenever
/// the session waited for something, the client went on. So the two never waited for each other, whatever the client
/// sent, in whatever order, up to the end of the session or up to a message that the transport refused.
///
/// The messages that are due are those that the session sends for the messages it read, such as the result of
/// `initialize` and the reply to `shutdown`. In a handler's session they are one reply to each request, in order.
///
/// This is about the acts of a session that has ended. No session knows what it will read, so a session that still runs
/// has acted in the same way.
pub fn client_is_never_kept_waiting<S: Service, H: Handler>()
    ensures due { (goes_on : Client) (acts : List Act) (old new : S) (exchanges : List Exchange)
        (stop : Stop) (answer : SessionAnswer)
        → WaitsForItsDue S.behavior old goes_on
        → Both (SessionOut S.behavior old new) (InOrder acts) exchanges stop answer
        → NeverBothWait goes_on [] [] acts }
    ensures replies { (capabilities : Data) (goes_on : Client) (acts : List Act) (old new : H)
        (exchanges : List Exchange) (stop : Stop) (answer : SessionAnswer)
        → WaitsForReplies goes_on
        → Both (SessionOut (of_handler H.answer_post H.note_post capabilities) old new) (InOrder acts)
        exchanges stop answer
        → NeverBothWait goes_on [] [] acts }
{}
