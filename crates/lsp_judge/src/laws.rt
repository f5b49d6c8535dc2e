//! Laws of recordings. Each is the contract of a function, so the proofs of callers can use it.
ghost use Rattle.std.specs.List.{list_any};
ghost use Rattle.std.specs.Prelude.{◌≡◌, ◌++◌, ◌∷◌, ℕ, List, true, false};
ghost use Rattle.lsp_watch.specs.Log.{Log, Passed};
ghost use Rattle.lsp_watch.specs.Orders.{AreOrders, IsBehindAll, any_finding, breaks};
ghost use Rattle.lsp_watch.specs.Verdicts.{findings_of};
ghost use Rattle.lsp_judge.specs.Choice.{decides, is_known};
ghost use Rattle.lsp_judge.specs.declared.passed.Order.TheVariants.{BehindAll};
ghost use Rattle.lsp_judge.specs.declared.passed.Order.{Order};
ghost use Rattle.lsp_watch.specs.CleanLog.{RepliesOnce, KeepsOrder};
ghost use Rattle.lsp_judge.specs.Recording.{IsStrict, judged_of, session_after};
ghost use Rattle.lsp_judge.specs.declared.choice.Choice.{Choice};

use lsp_watch::laws::{
    a_clean_log_keeps_order, a_late_breach_is_in_each_order, a_sure_breach_is_in_each_order,
};

/// If each breach counts, and the judgement of a recording from its first message on finds none, then for the session that goes on after
/// each of its lines:
///
/// - Each reply answers one request that passed before it in the other direction, and each request has at most one
///   reply (JSON-RPC 2.0, section 5).
/// - The requests and notifications of both sides keep the order of the lifecycle (LSP 3.17, "Server lifecycle").
pub fn a_clean_recording_keeps_order()
    ensures replies { (choice : Choice) → IsStrict choice → (text : List ℕ) → (judged_of choice false text).is_broken ≡ false
        → (count : ℕ) → RepliesOnce (session_after count text) }
    ensures order { (choice : Choice) → IsStrict choice → (text : List ℕ) → (judged_of choice false text).is_broken ≡ false
        → (count : ℕ) → KeepsOrder (session_after count text) }
{
    a_clean_log_keeps_order();
}

/// What is reported as certain in two files of frames is a breach in each order of their messages: if a message breaks a rule that
/// `Order::decides` names, each order of the messages has a breach.
///
/// `Order::BehindAll` has to be true of the log: nothing of the other side passed after the message, and each reply before it had its
/// request.
pub fn a_decided_breach_is_in_each_order()
    ensures { (known : Order) → is_known known ≡ false → (after before other : Log) (p : Passed)
        → (known ≡ BehindAll → IsBehindAll after p before) → AreOrders (after ++ p ∷ before) other
        → list_any (λ found. decides known found.0) (findings_of before p.direction p.message) ≡ true → breaks any_finding other ≡ true }
{
    a_sure_breach_is_in_each_order();
    a_late_breach_is_in_each_order();
}
