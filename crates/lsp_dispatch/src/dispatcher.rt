//! Requests whose work is going on, each under its id with a ticket.
ghost use Rattle.std.specs.Prelude.{◌≡◌, Err, ◌≢◌, ◌^◌, ◌-◌, Some, None, IfOk, IfErr, OnErr, string_bytes, codes};
ghost use Rattle.std.specs.FinMap as map;
ghost use Rattle.serde_json.specs.View.{view};
ghost use Rattle.lsp_message.specs.Id.{Id};
ghost use Rattle.lsp_message.specs.View.{request_view, notification_view, response_view, message_view, outcome_view};
ghost use Rattle.lsp_queue.specs.Queue.{cancelled_id, pending_of, count_of};
ghost use Rattle.lsp_dispatch.specs.DispatchAnswers.{answer_view};
ghost use Rattle.lsp_dispatch.specs.DispatchCalls.{asked_in, not_found_reply, is_own as own_spec};
ghost use Rattle.lsp_dispatch.specs.DispatchPending.{delivered, cancelling, finished, all_tickets, is_pending_with as pending_with};
ghost use Rattle.lsp_dispatch.specs.DispatchFaults.{handed_back, IsSpent};

use crate::answer::{Answer, DispatchFault};
use lsp_message::{Message, Notification, Request, RequestId, Response, ResponseError};
use lsp_queue::{ReqQueue, id_to_cancel};
use serde_json::Value;
use std::alloc::{AllocError, Global};
use std::marker::Model;

/// Keeps account of the requests that a server works on, so that each gets at most one reply.
///
/// - `deliver` gives each request a ticket. Call `finish` with the ticket when the work is done.
/// - A ticket gets at most one reply: when its work is finished, or when the client cancels it (LSP 3.17, "Cancellation
///   Support").
/// - Work that was cancelled, or whose id was used again, gets no reply, whenever it is finished.
///
/// A dispatcher sends nothing: send the message that `Answer::into_reply` returns. Before `deliver`, pass each request
/// to `Connection::handle_shutdown` or `shutdown`, which end the session.
#[derive(Debug, Drop)]
pub struct Dispatcher {
    alloc: Global,
    queue: ReqQueue<u64, u64>,
    tickets: u64,
}

impl Model for Dispatcher {
    ghost use Rattle.std.specs.Coded.{coded×, coded_ℕ};
    ghost use Rattle.std.specs.FinMap as map;
    ghost use Rattle.lsp_message.specs.IdKeys.{coded_id};
    ghost use Rattle.lsp_dispatch.specs.DispatchPending.{Held};

    ghost Value = { Held };

    ghost coded = { coded× (map.code coded_id coded_ℕ) coded_ℕ };

    ghost view = { λ d. (d.queue.incoming, d.tickets) };
}

impl Dispatcher {
    /// Makes a dispatcher with no request. It does not allocate.
    pub fn default(alloc: Global) -> Dispatcher
        ensures { result ≡ (map.empty, 0) }
    {
        Dispatcher::after(alloc, 0)
    }

    /// Makes a dispatcher that has used `tickets` tickets. None of their requests is pending. It does not allocate.
    ///
    /// The next request gets the ticket `tickets`. So a server can go on where an earlier dispatcher stopped, and a
    /// test can reach the last tickets.
    pub fn after(alloc: Global, tickets: u64) -> Dispatcher
        ensures { result ≡ (map.empty, tickets) }
    {
        Dispatcher {
            alloc,
            queue: ReqQueue::default(alloc),
            tickets,
        }
    }

    /// Returns the ticket that is pending under this id. `None` means that the id has no request, or that its request
    /// was finished or cancelled.
    ///
    /// Call it before you `deliver` a request. If the answer is `Work`, the new ticket replaces this one, which no
    /// longer gets a reply: drop its work.
    pub fn ticket_of(&self, id: &RequestId) -> Option<u64>
        ensures { result ≡ map.get (pending_of self.now) id.now }
    {
        self.queue.incoming.data(id).copied()
    }

    /// Takes a message, and returns what to do about it. The first line that fits counts:
    ///
    /// | Message | Answer |
    /// |---|---|
    /// | request, method begins with `$/` | `Unknown`: code -32601, `method not found` |
    /// | another request | `Work`: it is pending under its id with the next ticket, and a ticket that was pending there no longer is |
    /// | notification `$/cancelRequest`, params an object whose `id` is a good id that is pending | `Cancelled`: the reply of `Incoming::cancel`; the id is no longer pending |
    /// | another notification, method begins with `$/` | `Nothing` |
    /// | another notification | `Note` |
    /// | response | `Nothing`, and the response is dropped |
    ///
    /// A dispatcher knows only the client's requests. So if you send your client requests, take its responses before
    /// `deliver`, and pass their ids to `ReqQueue::outgoing.complete`.
    ///
    /// A good id is a text, or a whole number that fits an `i32`. `DispatchFault::Memory` means that an allocation
    /// failed, and `DispatchFault::Spent` that no ticket is left for the request. Both return the message, and nothing
    /// has changed.
    pub fn deliver(&mut self, message: Message) -> Result<Answer, DispatchFault>
        ensures ok { IfOk result (λ answer.
            (answer_view answer, self.new) ≡ delivered self.old (message_view message)) }
        ensures err { OnErr result (self.new ≡ self.old) }
        ensures handed_back { IfErr result (λ fault. handed_back fault ≡ message) }
        ensures spent { IfErr result (λ fault. IsSpent fault → count_of self.old ≡ all_tickets) }
        ensures full { (id : Id) → count_of self.old ≡ all_tickets
            → asked_in (message_view message) ≡ Some id
            → result ≡ Err (DispatchFault.Spent message) }
    {
        match message {
            Message::Request(request) => self.deliver_request(request),
            Message::Notification(notification) => self.deliver_notification(notification),
            Message::Response(response) => {
                drop(response);
                Ok(Answer::Nothing)
            }
        }
    }

    fn deliver_request(&mut self, request: Request) -> Result<Answer, DispatchFault>
        ensures ok { IfOk result (λ answer.
            (answer_view answer, self.new) ≡ delivered self.old (request_view request)) }
        ensures err { OnErr result (self.new ≡ self.old) }
        ensures handed_back { IfErr result (λ fault. handed_back fault ≡ Message.Request request) }
        ensures spent { IfErr result (λ fault. IsSpent fault → count_of self.old ≡ all_tickets) }
        ensures full { (id : Id) → count_of self.old ≡ all_tickets
            → asked_in (request_view request) ≡ Some id
            → result ≡ Err (DispatchFault.Spent (Message.Request request)) }
    {
        if is_own(request.method.as_str()) {
            return match not_found(self.alloc, &request.id) {
                Ok(reply) => {
                    drop(request);
                    Ok(Answer::Unknown(reply))
                }
                Err(_) => Err(DispatchFault::Memory(Message::Request(request))),
            };
        }
        let ticket = self.tickets;
        if ticket == u64::MAX {
            return Err(DispatchFault::Spent(Message::Request(request)));
        }
        match self.keep(&request.id, ticket) {
            Ok(()) => {
                self.tickets = ticket + 1;
                Ok(Answer::Work { request, ticket })
            }
            Err(_) => Err(DispatchFault::Memory(Message::Request(request))),
        }
    }

    /// Makes a request pending with this ticket.
    fn keep(&mut self, id: &RequestId, ticket: u64) -> Result<(), AllocError>
        ensures ok { IfOk result (λ _.
            self.new ≡ (map.insert (pending_of self.old) id.now ticket, count_of self.old)) }
        ensures err { OnErr result (self.new ≡ self.old) }
    {
        let id = id.clone()?;
        match self.queue.incoming.register(id, ticket) {
            Ok(()) => Ok(()),
            Err(_) => Err(AllocError),
        }
    }

    fn deliver_notification(&mut self, notification: Notification) -> Result<Answer, DispatchFault>
        ensures ok { IfOk result (λ answer.
            (answer_view answer, self.new) ≡ delivered self.old (notification_view notification)) }
        ensures err { OnErr result (self.new ≡ self.old) }
        ensures handed_back { IfErr result (λ fault.
            fault ≡ DispatchFault.Memory (Message.Notification notification)) }
    {
        if notification.method.as_str() == "$/cancelRequest" {
            return match self.cancel(&notification.params) {
                Ok(answer) => {
                    drop(notification);
                    Ok(answer)
                }
                Err(_) => Err(DispatchFault::Memory(Message::Notification(notification))),
            };
        }
        if is_own(notification.method.as_str()) {
            drop(notification);
            return Ok(Answer::Nothing);
        }
        Ok(Answer::Note(notification))
    }

    /// Cancels the request that the params name, if it is pending.
    fn cancel(&mut self, params: &Value) -> Result<Answer, AllocError>
        ensures ok { IfOk result (λ answer.
            (answer_view answer, self.new) ≡ cancelling self.old (cancelled_id (view params.now))) }
        ensures err { OnErr result (self.new ≡ self.old) }
    {
        let Some(id) = id_to_cancel(params)? else {
            return Ok(Answer::Nothing);
        };
        let Some(ticket) = self.ticket_of(&id) else {
            return Ok(Answer::Nothing);
        };
        match self.queue.incoming.cancel(id)? {
            Some(reply) => Ok(Answer::Cancelled { reply, ticket }),
            None => Ok(Answer::Nothing),
        }
    }

    /// Reports that the work of a ticket is done. If the ticket is still pending under this id, the answer is
    /// `Finished` with the reply to send. Otherwise it was cancelled, replaced or finished before: the answer is
    /// `Nothing`, and nothing changes.
    pub fn finish(
        &mut self,
        id: RequestId,
        ticket: u64,
        outcome: Result<Value, ResponseError>,
    ) -> Answer
        ensures { (answer_view result, self.new)
            ≡ finished self.old id ticket (outcome_view outcome) }
    {
        if !self.is_pending_with(&id, ticket) {
            drop(outcome);
            return Answer::Nothing;
        }
        self.queue.incoming.complete(&id);
        let reply = Response {
            id,
            response_result: outcome,
        };
        Answer::Finished { reply, ticket }
    }

    fn is_pending_with(&self, id: &RequestId, ticket: u64) -> bool
        ensures { result ≡ pending_with ticket (map.get (pending_of self.now) id.now) }
    {
        match self.ticket_of(id) {
            Some(pending) => pending == ticket,
            None => false,
        }
    }
}

/// Makes the reply to a request whose method is not known.
fn not_found(alloc: Global, id: &RequestId) -> Result<Response, AllocError>
    ensures { IfOk result (λ reply. response_view reply ≡ not_found_reply id.now) }
{
    Response::method_not_found(alloc, id.clone()?)
}

/// Returns whether the method is one of the protocol's, whose names begin with `$/`.
fn is_own(method: &str) -> bool
    ensures { result ≡ own_spec method.now }
{
    method.starts_with("$/")
}
