// The requests that the server works on.
ghost use Rattle.std.specs.Prelude.{◌≡◌, true, Some, Ok, IfOk, OnOk, string_bytes};
ghost use Rattle.std.specs.BTreeMap.{IsEmpty, Updates};
ghost use Rattle.std.specs.Ordering.{nat_cmp};
ghost use Rattle.serde_json.specs.View.{view};
ghost use Rattle.lsp_server.specs.DispatchAnswers.{answer_view};
ghost use Rattle.lsp_server.specs.DispatchPending.{finished};
ghost use Rattle.lsp_server.specs.View.{outcome_view, request_view, message_view};
ghost use Rattle.lsp_demo.specs.Server.{begun, demo_outcome, is_kept, served};

use lsp_server::dispatch::{Answer, DispatchFault, Dispatcher};
use lsp_server::{Message, Request, ResponseError};
use serde_json::Value;
use std::alloc::{AllocError, Global};
use std::collections::BTreeMap;
use std::mem;

/// Why a message could not be handled.
pub enum WorkFault {
    /// The message was not delivered, or a request that is to be kept was not.
    Dispatch(DispatchFault),
    /// There was no memory for a reply.
    Memory,
}

/// The requests whose work is going on.
#[derive(Drop)]
pub struct Work {
    alloc: Global,
    dispatcher: Dispatcher,
    /// The requests that are kept, under their tickets.
    held: BTreeMap<u64, Request>,
}

impl Work {
    /// Starts with none.
    pub fn new(alloc: Global) -> Work {
        Work {
            alloc,
            dispatcher: Dispatcher::default(alloc),
            held: BTreeMap::new(alloc),
        }
    }

    /// Takes a message, does its work, and returns what is left to do: to send a reply, or to handle a notification.
    pub fn take(&mut self, message: Message) -> Result<Answer, WorkFault>
        ensures { IfOk result (λ answer. (answer_view answer, self.new.dispatcher)
            ≡ served self.old.dispatcher (message_view message)) }
    {
        let pending = match &message {
            Message::Request(request) => self.dispatcher.ticket_of(&request.id),
            _ => None,
        };
        let answer = match self.dispatcher.deliver(message) {
            Ok(answer) => answer,
            Err(fault) => return Err(WorkFault::Dispatch(fault)),
        };
        match answer {
            Answer::Work { request, ticket } => {
                if let Some(replaced) = pending {
                    drop(self.held.remove(&replaced));
                }
                self.start(request, ticket)
            }
            Answer::Cancelled { reply, ticket } => {
                drop(self.held.remove(&ticket));
                Ok(Answer::Cancelled { reply, ticket })
            }
            answer => Ok(answer),
        }
    }

    /// Keeps a request that asks for it, and finishes any other at once.
    fn start(&mut self, request: Request, ticket: u64) -> Result<Answer, WorkFault>
        ensures begun { IfOk result (λ answer. (answer_view answer, self.new.dispatcher)
            ≡ begun (request_view request) ticket self.old.dispatcher) }
        ensures kept { is_kept (string_bytes request.method) ≡ true
            → OnOk result (Updates nat_cmp self.old.held self.new.held ticket (Some request)) }
    {
        if request.method.as_str() == "demo/hold" {
            return match self.held.insert(ticket, request) {
                Ok(replaced) => {
                    drop(replaced);
                    Ok(Answer::Nothing)
                }
                Err(refused) => {
                    let message = Message::Request(refused.value.1);
                    Err(WorkFault::Dispatch(DispatchFault::Memory(message)))
                }
            };
        }
        let Request { id, method, params } = request;
        match outcome_of(self.alloc, method.as_str(), params) {
            Ok(outcome) => Ok(self.dispatcher.finish(id, ticket, outcome)),
            Err(_) => Err(WorkFault::Memory),
        }
    }

    /// Returns the requests that are kept, by their tickets, and keeps them no longer.
    pub fn release(&mut self) -> BTreeMap<u64, Request>
        ensures given { result ≡ self.old.held }
        ensures none { IsEmpty self.new.held }
    {
        mem::replace(&mut self.held, BTreeMap::new(self.alloc))
    }

    /// Finishes a request with its params as its result.
    pub fn finish(&mut self, ticket: u64, request: Request) -> Answer
        ensures { (answer_view result, self.new.dispatcher)
            ≡ finished self.old.dispatcher request.id ticket (Ok (view request.params)) }
    {
        self.dispatcher
            .finish(request.id, ticket, Ok(request.params))
    }
}

/// Returns the outcome of a request that is finished at once.
fn outcome_of(
    alloc: Global,
    method: &str,
    params: Value,
) -> Result<Result<Value, ResponseError>, AllocError>
    ensures { IfOk result (λ outcome.
        outcome_view outcome ≡ demo_outcome method.now (view params)) }
{
    if method == "demo/echo" {
        return Ok(Ok(params));
    }
    drop(params);
    Ok(Err(ResponseError::method_not_found(alloc)?))
}
