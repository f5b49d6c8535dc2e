//! What a watch sees between a client and a server.
ghost use Rattle.std.specs.Prelude.{◌≡◌, ◌∷◌, [], List, IfOk, Some, true, false};
ghost use Rattle.lsp_judge.specs.Choice.{decides, is_known};
ghost use Rattle.lsp_message.specs.Message.{Message as Plain};
ghost use Rattle.lsp_message.specs.View.{request_view, response_view};
ghost use Rattle.lsp_watch.specs.CleanLog.{IsClean};
ghost use Rattle.lsp_watch.specs.Lawful.{BreaksNone};
ghost use Rattle.lsp_watch.specs.Log.{Log, passed};
ghost use Rattle.lsp_watch.specs.Orders.{AreOrders, IsBehindAll, any_finding, breaks, is_in_each_order, is_unasked, needs_all};
ghost use Rattle.lsp_watch.specs.Saw.{Saw};
ghost use Rattle.lsp_watch.specs.Verdicts.{entered};
ghost use Rattle.lsp_watch.specs.declared.breach.Breach.{Breach as Found};
ghost use Rattle.test_logs.specs.Logs.{IsRight, message_in};

use lsp_judge::laws::a_decided_breach_is_in_each_order;
use lsp_judge::passed::Order;
use lsp_message::{Request, Response};
use lsp_watch::laws::{
    a_clean_log_keeps_order, a_late_breach_is_in_each_order, a_lawful_log_breaks_none,
    a_sure_breach_is_in_each_order,
};
use lsp_watch::{Breach, Direction, LoggedMessage, Watch};
use serde_json::Value;
use std::alloc::AllocError;

/// Observes one more message, and returns the rules that it breaks.
///
/// - If neither this message nor one before it breaks a rule, each reply has its request (JSON-RPC 2.0, section 5), and
///   the messages keep the order of the lifecycle (LSP 3.17, "Server lifecycle").
/// - Some rules look only at what one side sent. If the first rule that the message breaks is one of these, each order
///   of the messages has a breach. This also holds for a rule about both sides, if each reply before had its request,
///   and for what `Order::decides` names.
pub fn observe(
    watch: &mut Watch,
    place: u64,
    direction: Direction,
    message: &LoggedMessage,
) -> Result<Vec<Breach>, AllocError>
    ensures right { (log : Log) → Saw watch.old log → IsClean log → IfOk result (λ found.
        found.items ≡ [] → IsRight (entered direction place (message_in message.now) log)) }
    ensures sure { (log other : Log) (m : Plain) (first : Found) (rest : List Found)
        → Saw watch.old log → message.now.faults.items ≡ [] → message_in message.now ≡ Some m
        → AreOrders (passed direction place m ∷ log) other → is_in_each_order first.rule ≡ true
        → IfOk result (λ found. found.items ≡ first ∷ rest → breaks any_finding other ≡ true) }
    ensures late { (log other : Log) (m : Plain) (first : Found) (rest : List Found)
        → Saw watch.old log → message.now.faults.items ≡ [] → message_in message.now ≡ Some m
        → AreOrders (passed direction place m ∷ log) other → breaks is_unasked log ≡ false
        → needs_all first.rule ≡ true
        → IfOk result (λ found. found.items ≡ first ∷ rest → breaks any_finding other ≡ true) }
    ensures decided { (known : Order) (log other : Log) (m : Plain) (first : Found) (rest : List Found)
        → is_known known ≡ false → Saw watch.old log → message.now.faults.items ≡ []
        → message_in message.now ≡ Some m
        → (known ≡ Order.BehindAll → IsBehindAll [] (passed direction place m) log)
        → AreOrders (passed direction place m ∷ log) other → decides known first.rule ≡ true
        → IfOk result (λ found. found.items ≡ first ∷ rest → breaks any_finding other ≡ true) }
{
    a_decided_breach_is_in_each_order();
    a_clean_log_keeps_order();
    a_sure_breach_is_in_each_order();
    a_late_breach_is_in_each_order();
    watch.observe(place, direction, message)
}

/// Answers a request with null. A log of the request and its reply breaks no rule of ids or of progress.
pub fn answer(request: &Request) -> Result<Response, AllocError>
    ensures { IfOk result (λ reply. BreaksNone (passed Direction.ToClient 2 (response_view reply)
        ∷ passed Direction.ToServer 1 (request_view request.now) ∷ [])) }
{
    a_lawful_log_breaks_none();
    let id = request.id.clone()?;
    Ok(Response {
        id,
        response_result: Ok(Value::Null),
    })
}
