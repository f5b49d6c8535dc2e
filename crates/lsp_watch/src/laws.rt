//! Laws of logs. Each is the contract of a function, so the proofs of callers can use it.
ghost use Rattle.lsp_message.specs.Id.{Id};
ghost use Rattle.lsp_watch.specs.CleanLog.{IsClean, RepliesOnce, KeepsOrder};
ghost use Rattle.lsp_watch.specs.Lawful.{IsLawful, BreaksNone};
ghost use Rattle.lsp_watch.specs.Log.{Log, Open, Passed};
ghost use Rattle.lsp_watch.specs.Orders.{AreOrders, IsBehindAll, open_under, breaks, is_sure, is_late, is_unasked, any_finding};
ghost use Rattle.lsp_watch.specs.Verdicts.{findings_of};
ghost use Rattle.lsp_watch.specs.declared.direction.Direction.{Direction};
ghost use Rattle.std.specs.List.{list_any};
ghost use Rattle.std.specs.Prelude.{◌≡◌, ◌++◌, ◌∷◌, List, true, false};

/// In a log in which no message breaks a rule:
///
/// - Each reply answers one request that passed before it in the other direction, and each request has at most one
///   reply, at every beginning of the log (JSON-RPC 2.0, section 5).
/// - The requests and notifications of both sides keep the order of the lifecycle (LSP 3.17, "Server lifecycle").
pub fn a_clean_log_keeps_order()
    ensures replies { (log : Log) → IsClean log → RepliesOnce log }
    ensures order { (log : Log) → IsClean log → KeepsOrder log }
{}

/// A lawful log breaks no rule of ids or of progress, whoever the two sides are. In a lawful log each request has an id that is free, and
/// each reply has its request. Progress has the token of a request that is open, or one that the client accepted and that has not ended.
///
/// `IsLawful` is a grammar of such logs. It knows nothing of how a reply finds its request.
pub fn a_lawful_log_breaks_none()
    ensures { (log : Log) (asked : List Open) (live : List Id) → IsLawful log asked live → BreaksNone log }
{}

/// A breach that looks only at what its own side sent is there in each order of the messages: if a message breaks such a rule in one
/// order, the log has a breach in each other order, in which each side sends the same. `is_in_each_order` names these rules.
pub fn a_sure_breach_is_in_each_order()
    ensures { (log order : Log) → AreOrders log order → breaks is_sure log ≡ true → breaks any_finding order ≡ true }
{}

/// A breach that looks at both sides is there in each order of the messages, if the message passed after all messages of the other side,
/// and each reply before it had its request. `needs_all` names these rules.
///
/// At the end of such a log, each order without a breach leaves the same requests without a reply.
pub fn a_late_breach_is_in_each_order()
    ensures breach { (after before order : Log) (p : Passed) → IsBehindAll after p before → AreOrders (after ++ p ∷ before) order
        → list_any is_late (findings_of before p.direction p.message) ≡ true → breaks any_finding order ≡ true }
    ensures left { (log order : Log) → AreOrders log order → breaks is_unasked log ≡ false → breaks any_finding order ≡ false
        → (direction : Direction) (id : Id) → open_under direction id log ≡ open_under direction id order }
{}
