// A test client of a language server.
ghost use Rattle.serde_json.specs.Data.{no_members as no_members_spec, object};
ghost use Rattle.serde_json.specs.View.{view};
ghost use Rattle.serde_json.specs.declared.value.Value.TheVariants.{Null};
ghost use Rattle.std.specs.Prelude.{◌≡◌, ◌+ℤ◌, [], pos, Ok, None, Some, IfOk, IfSome, IsSome, codes, string_bytes};
ghost use Rattle.lsp_message.specs.Id.{number};
ghost use Rattle.lsp_message.specs.Message.{notification, request, response};
ghost use Rattle.lsp_message.specs.View.{message_view, outcome_view};
ghost use Rattle.lsp_session.specs.ByteSessions.{standing};
ghost use Rattle.lsp_session.specs.declared.loops.handler.SessionEnd.TheVariants.{ShutDown};
ghost use Rattle.lsp_session.specs.declared.loops.machine.Stage.TheVariants.{Starting};
ghost use Rattle.lsp_testing.specs.Client.{is_reply_to as is_reply_to_spec, AllArrive, Asks, FindsReply, Holds, Passes, TakesReply};

use crate::fault::TestFault;
use crate::traffic::Traffic;
use lsp_message::{Limits, Message, Notification, Request, RequestId, Response, ResponseError};
use lsp_session::machine::ByteSession;
use lsp_session::{Service, SessionEnd, SessionFault};
use serde_json::{Map, Value};
use std::alloc::{AllocError, Global};
use std::mem;

/// A client that tests a server in memory (LSP 3.17, "Server lifecycle"). It owns the server's session between bytes,
/// and passes each message to it as a frame. The server has answered when the call returns. The client does no IO.
///
/// ```text
/// let mut client = TestClient::new(alloc, ServerApplication::new(alloc, server));
/// let result = client.initialize(params)?;
/// client.notify("textDocument/didOpen", document)?;
/// let published = client.take_messages();
/// let hover = client.request("textDocument/hover", place)?;
/// client.shutdown()?;
/// ```
///
/// The contracts say: the session gets the frames of the messages that the client sends, and no other bytes. All output
/// of the session is read, and its messages are kept in their order. A request has a new id, and its reply has this id.
/// No clause says which text a `TestFault` has.
#[derive(Drop)]
pub struct TestClient<S> {
    alloc: Global,
    session: Option<ByteSession<S>>,
    end: Option<Result<SessionEnd, SessionFault>>,
    next_id: i32,
    traffic: Traffic,
}

impl<S: Service + Drop> TestClient<S> {
    /// Makes a client of a server that waits for `initialize`. The service is a `HandlerApplication`, or a
    /// `ServerApplication` of `lsp_acts`. It does not allocate.
    pub fn new(alloc: Global, service: S) -> TestClient<S>
        ensures starts { IfSome result.session (λ s. standing s ≡ record { stage = Starting; service = service; pending = [] }) }
        ensures ready { IsSome result.session }
        ensures silent { (result.traffic.own.items ≡ []) × (string_bytes result.traffic.lines ≡ []) }
    {
        TestClient {
            alloc,
            session: Some(ByteSession::new(alloc, service, Limits::none(), usize::MAX)),
            end: None,
            next_id: 1,
            traffic: Traffic::new(alloc),
        }
    }

    /// Sends `initialize` with these params, returns its result, and sends `initialized` (LSP 3.17, "Initialize
    /// Request"). If the server answers with an error, the fault is `Refused`, and the client may call this again.
    pub fn initialize(&mut self, params: Value) -> Result<Value, TestFault>
        ensures { IfOk result (λ value. (mid : TestClient S)
            × Asks S.behavior self.old (codes "initialize") params (Ok value) mid
            × Passes S.behavior mid (Some (notification (codes "initialized") (object no_members_spec))) self.new) }
    {
        let result = self.expect_result("initialize", params)?;
        self.notify("initialized", no_members(self.alloc))?;
        Ok(result)
    }

    /// Sends a request, and returns its result or its error (JSON-RPC 2.0, sections 4 and 5). The other messages that
    /// the server sent are kept. If it has not answered, the fault is `NoReply`.
    pub fn request(
        &mut self,
        method: &str,
        params: Value,
    ) -> Result<Result<Value, ResponseError>, TestFault>
        ensures { IfOk result (λ outcome. Asks S.behavior self.old method.now params outcome self.new) }
    {
        let id = self.ask(method, params)?;
        match self.take_reply(&id) {
            Some(outcome) => Ok(outcome),
            None => Err(self.no_reply(method)),
        }
    }

    /// Sends a request that the server may answer later, and returns its id. `take_reply` takes the reply. The ids are 1,
    /// 2 and so on. The fault is `NoIds` if none is left.
    pub fn ask(&mut self, method: &str, params: Value) -> Result<RequestId, TestFault>
        ensures id { IfOk result (λ id. id ≡ number self.old.next_id) }
        ensures sends { IfOk result (λ _. Passes S.behavior self.old
            (Some (request (number self.old.next_id) method.now (view params))) self.new) }
        ensures fresh { IfOk result (λ _. self.new.next_id ≡ self.old.next_id +ℤ pos 1) }
    {
        let Some(next) = self.next_id.checked_add(1) else {
            return Err(TestFault::NoIds);
        };
        let id = RequestId::from(self.next_id);
        let request = Request {
            id: id.clone()?,
            method: String::from_str(self.alloc, method)?,
            params,
        };
        self.next_id = next;
        self.send(Message::Request(request))?;
        Ok(id)
    }

    /// Takes the reply to a request out of the messages. If the server has not sent it, the result is `None`.
    pub fn take_reply(&mut self, id: &RequestId) -> Option<Result<Value, ResponseError>>
        ensures takes { TakesReply id.now self.old.traffic.own.items result self.new.traffic.own.items }
        ensures rest { self.new ≡ record self.old { traffic = record self.old.traffic { own = self.new.traffic.own } } }
    {
        let place = place_of_reply(self.traffic.own.as_slice(), id)?;
        match self.traffic.own.remove(place) {
            Message::Response(reply) => Some(reply.response_result),
            _ => None,
        }
    }

    /// Sends a notification (JSON-RPC 2.0, section 4.1). If it makes the session fail, the fault is `Ended`.
    pub fn notify(&mut self, method: &str, params: Value) -> Result<(), TestFault>
        ensures { IfOk result (λ _. Passes S.behavior self.old (Some (notification method.now (view params))) self.new) }
    {
        let method = String::from_str(self.alloc, method)?;
        self.send(Message::Notification(Notification { method, params }))
    }

    /// Answers a request of the server, which `messages` has, under its id (JSON-RPC 2.0, section 5).
    pub fn reply(
        &mut self,
        id: RequestId,
        response_result: Result<Value, ResponseError>,
    ) -> Result<(), TestFault>
        ensures { IfOk result (λ _. Passes S.behavior self.old (Some (response id (outcome_view response_result))) self.new) }
    {
        self.send(Message::Response(Response {
            id,
            response_result,
        }))
    }

    /// Notifies the server that something is ready for which it waits. The session takes it from `initialized` up to
    /// `shutdown`.
    pub fn wake(&mut self) -> Result<(), TestFault>
        ensures { IfOk result (λ _. Passes S.behavior self.old None self.new) }
    {
        match self.session.take() {
            Some(mut session) => {
                session.woken();
                self.collect(session)?;
                Ok(())
            }
            None => Err(self.ended()),
        }
    }

    /// Sends `shutdown` and `exit` (LSP 3.17, "Shutdown Request" and "Exit Notification"). If the session does not end as
    /// one that was shut down, the fault is `Ended`.
    pub fn shutdown(&mut self) -> Result<(), TestFault>
        ensures ends { IfOk result (λ _. self.new.end ≡ Some (Ok ShutDown)) }
        ensures sends { IfOk result (λ _. (mid : TestClient S) × (value : Value)
            × Asks S.behavior self.old (codes "shutdown") Null (Ok value) mid
            × Passes S.behavior mid (Some (notification (codes "exit") (view Null))) self.new) }
    {
        let _result = self.expect_result("shutdown", Value::Null)?;
        self.notify("exit", Value::Null)?;
        match &self.end {
            Some(Ok(SessionEnd::ShutDown)) => Ok(()),
            _ => Err(self.ended()),
        }
    }

    /// Returns the messages of the server that were not taken, in order. Replies that `request` returned are taken.
    pub fn messages(&self) -> &[Message]
        ensures { result.now ≡ self.now.traffic.own.items }
    {
        self.traffic.own.as_slice()
    }

    /// Takes the messages of the server that were not taken, in order.
    pub fn take_messages(&mut self) -> Vec<Message>
        ensures taken { result.items ≡ self.old.traffic.own.items }
        ensures none { self.new.traffic.own.items ≡ [] }
        ensures rest { self.new ≡ record self.old { traffic = record self.old.traffic { own = self.new.traffic.own } } }
    {
        mem::replace(&mut self.traffic.own, Vec::new(self.alloc))
    }

    /// Returns a line for each message that passed, in order: `->` and a message of the client, or `<-` and one of the
    /// server, as JSON without `jsonrpc`. Store it, and compare.
    pub fn snapshot(&self) -> &str
        ensures { result.now ≡ string_bytes self.now.traffic.lines }
    {
        self.traffic.lines.as_str()
    }

    /// Sends a request whose outcome has to be a result.
    fn expect_result(&mut self, method: &str, params: Value) -> Result<Value, TestFault>
        ensures { IfOk result (λ value. Asks S.behavior self.old method.now params (Ok value) self.new) }
    {
        match self.request(method, params)? {
            Ok(result) => Ok(result),
            Err(error) => Err(TestFault::Refused(String::from_str(self.alloc, method)?, error)),
        }
    }

    /// Sends a message, and takes what the server sends.
    fn send(&mut self, message: Message) -> Result<(), TestFault>
        ensures passes { IfOk result (λ _. Passes S.behavior self.old (Some (message_view message)) self.new) }
        ensures next { self.new.next_id ≡ self.old.next_id }
    {
        let frame = message.to_frame(self.alloc)?;
        match self.session.take() {
            Some(mut session) => {
                self.traffic.add_sent(&message)?;
                session.receive(frame.as_bytes());
                self.collect(session)?;
                Ok(())
            }
            None => Err(self.ended()),
        }
    }

    /// Reads the output of the session. Then it holds the session again, or notes how it ended.
    fn collect(&mut self, session: ByteSession<S>) -> Result<(), TestFault>
        requires taken { self.old.session ≡ None }
        ensures holds { IfOk result (λ _. Holds session self.new.session self.new.end) }
        ensures arrive { IfOk result (λ _. AllArrive (standing session).pending self.old.traffic self.new.traffic) }
        ensures next { self.new.next_id ≡ self.old.next_id }
    {
        let mut session = session;
        self.traffic.read(session.output())?;
        session.sent(session.output().len());
        if !session.is_done() {
            self.session = Some(session);
            return Ok(());
        }
        let (end, service) = session.into_parts();
        drop(service);
        let failed = end.is_err();
        self.end = Some(end);
        if failed { Err(self.ended()) } else { Ok(()) }
    }

    /// Returns how the session ended, as a fault.
    fn ended(&self) -> TestFault {
        match self.end_text() {
            Ok(text) => TestFault::Ended(text),
            Err(error) => TestFault::from(error),
        }
    }

    fn end_text(&self) -> Result<String, AllocError> {
        match &self.end {
            Some(Ok(SessionEnd::ShutDown)) => String::from_str(self.alloc, "it was shut down"),
            Some(Ok(SessionEnd::Closed)) => {
                String::from_str(self.alloc, "`exit` came without a `shutdown`")
            }
            Some(Err(fault)) => format!(in self.alloc; "{fault}"),
            None => String::from_str(self.alloc, "a step before this one failed"),
        }
    }

    /// Returns the fault of a request that has no reply.
    fn no_reply(&self, method: &str) -> TestFault {
        match String::from_str(self.alloc, method) {
            Ok(method) => TestFault::NoReply(method),
            Err(error) => TestFault::from(error),
        }
    }
}

/// Returns a JSON object without members.
fn no_members(alloc: Global) -> Value
    ensures { view result ≡ object no_members_spec }
{
    Value::Object(Map::new(alloc))
}

/// Returns the place of the first reply to the request with this id.
fn place_of_reply(messages: &[Message], id: &RequestId) -> Option<usize>
    ensures { FindsReply id.now messages.now result }
{
    for place in 0..messages.len() {
        if is_reply_to(&messages[place], id) {
            return Some(place);
        }
    }
    None
}

/// Returns whether a message is the reply to the request with this id.
fn is_reply_to(message: &Message, id: &RequestId) -> bool
    ensures { result ≡ is_reply_to_spec id.now message.now }
{
    match message {
        Message::Response(reply) => reply.id == *id,
        _ => false,
    }
}
