//! A whole list of calls, one after another.
ghost use Rattle.std.specs.Prelude.{◌≡◌, ◌≢◌, [], IfOk, IfErr, map as each};
ghost use Rattle.lsp_dispatch.specs.DispatchAnswers.{answer_view, call_view};
ghost use Rattle.lsp_dispatch.specs.Dispatch.{Dispatches, AnswersEach};
ghost use Rattle.lsp_dispatch.specs.DispatchFaults.{dispatch_fault_number};
ghost use Rattle.lsp_dispatch.specs.DispatchLaw.{RepliesOnce};
ghost use Rattle.lsp_dispatch.specs.DispatchPending.{answered, all_tickets};
ghost use Rattle.lsp_queue.specs.Queue.{count_of};

use crate::answer::{Answer, DispatchFault};
use crate::dispatcher::Dispatcher;
use lsp_message::{Message, RequestId, ResponseError};
use serde_json::Value;
use std::alloc::Global;

/// A call of a dispatcher.
#[derive(Debug, Drop)]
pub enum Call {
    /// A message arrived.
    Deliver(Message),
    /// The work under a ticket is done.
    Finish {
        /// The id of the request.
        id: RequestId,
        /// The ticket.
        ticket: u64,
        /// The outcome of the work: the result, or an error.
        result: Result<Value, ResponseError>,
    },
}

/// Makes these calls on a new dispatcher, and returns the answers. It stops at the first fault and returns its number.
///
/// That number is always 1, a failed allocation: no `Vec` has as many calls as there are tickets.
pub fn replay(alloc: Global, calls: Vec<Call>) -> Result<Vec<Answer>, u8>
    // Each answer is right for its place in the list of calls.
    ensures ok { IfOk result (λ answers.
        Dispatches [] (each call_view calls.items) (each answer_view answers.items)) }
    // The same by places: there is one answer for each call, and it is what the calls before it ask for.
    ensures places { IfOk result (λ answers.
        AnswersEach (each call_view calls.items) (each answer_view answers.items)) }
    // Each request gets at most one reply, and none after it was replaced.
    ensures once { IfOk result (λ answers. RepliesOnce (each answer_view answers.items)) }
    // A failed allocation is the only fault.
    ensures err { IfErr result (λ number. number ≡ 1) }
{
    let mut answers = match Vec::with_capacity(alloc, calls.len()) {
        Ok(room) => room,
        Err(_) => return Err(1),
    };
    let mut dispatcher = Dispatcher::default(alloc);
    for call in calls {
        let answer = step(&mut dispatcher, call)?;
        let pushed = answers.push(answer);
        let is_refused = pushed.is_err();
        drop(pushed);
        if is_refused {
            return Err(1);
        }
    }
    Ok(answers)
}

/// Makes one call. A fault is returned as its number.
fn step(dispatcher: &mut Dispatcher, call: Call) -> Result<Answer, u8>
    ensures ok { IfOk result (λ answer. (answer_view answer, dispatcher.new)
        ≡ answered dispatcher.old (call_view call)) }
    ensures memory { count_of dispatcher.old ≢ all_tickets → IfErr result (λ number. number ≡ 1) }
{
    match call {
        Call::Deliver(message) => match dispatcher.deliver(message) {
            Ok(answer) => Ok(answer),
            Err(fault) => Err(number_of(fault)),
        },
        Call::Finish {
            id,
            ticket,
            result: outcome,
        } => Ok(dispatcher.finish(id, ticket, outcome)),
    }
}

fn number_of(fault: DispatchFault) -> u8
    ensures { result ≡ dispatch_fault_number fault }
{
    let number = fault.number();
    drop(fault);
    number
}
