//! Each call that waits for no thread, with its arguments in their order and its result.
ghost use Rattle.std.specs.Prelude.{◌≤◌};

use lsp_server::dispatch::{Answer, Call, DispatchFault, Dispatcher, replay};
use lsp_server::{
    CallGate, ErrorCode, ExtractError, FrameOutbox, Front, Gate, Handler, Inbox, Incoming, Link,
    ListGate, ListInbox, ListOutbox, Message, Notification, OpenGate, Outbox, Outcome, Outgoing,
    ProtocolError, ReadEnd, ReadFault, RegisterFault, ReqQueue, Request, RequestId, Response,
    ResponseError, SessionEnd, SessionFault, Side, Step, StreamInbox, World, WorldFault, WriteEnd,
    WriteFault, finish, finish_within, front, read_loop, read_loop_within, serve, session,
    session_within, shutdown, start_within, wait_within, write_loop,
};
use serde::{DeserializeOwned, Serialize};
use serde_json::Value;
use std::alloc::{AllocError, Global};
use std::cmp::Ordering;
use std::io::{BufRead, ErrorKind, Write};

type Answered = Result<Value, ResponseError>;

// Frames.

pub fn front_of(bytes: &[u8]) -> Front {
    front(bytes)
}

pub fn number_of(fault: ReadFault) -> u8 {
    fault.number()
}

pub fn kind_of(fault: ReadFault) -> ErrorKind {
    fault.kind()
}

pub fn read<R: BufRead>(alloc: Global, reader: &mut R) -> Result<Option<Message>, ReadFault> {
    Message::read(alloc, reader)
}

pub fn read_up_to<R: BufRead>(
    alloc: Global,
    reader: &mut R,
    limit: u64,
) -> Result<Option<Message>, ReadFault> {
    Message::read_within(alloc, reader, limit)
}

pub fn write<W: Write>(message: &Message, alloc: Global, writer: &mut W) -> Result<(), WriteFault> {
    message.write(alloc, writer)
}

// Messages.

pub fn from_request(request: Request) -> Message {
    Message::from(request)
}

pub fn from_response(response: Response) -> Message {
    Message::from(response)
}

pub fn from_notification(notification: Notification) -> Message {
    Message::from(notification)
}

pub fn from_value(alloc: Global, tree: &Value) -> Result<Option<Message>, AllocError> {
    Message::from_value(alloc, tree)
}

pub fn to_value(message: &Message, alloc: Global) -> Result<Value, AllocError> {
    message.to_value(alloc)
}

pub fn member_text(message: &Message, alloc: Global) -> Result<String, AllocError> {
    message.member_text(alloc)
}

pub fn body_text(message: &Message, alloc: Global) -> Result<String, AllocError> {
    message.body_text(alloc)
}

pub fn request<P: Serialize + Drop>(
    alloc: Global,
    id: RequestId,
    method: String,
    params: P,
) -> Result<Request, serde_json::Error> {
    Request::new(alloc, id, method, params)
}

pub fn notification<P: Serialize + Drop>(
    alloc: Global,
    method: String,
    params: P,
) -> Result<Notification, serde_json::Error> {
    Notification::new(alloc, method, params)
}

pub fn ok<V: Serialize + Drop>(
    alloc: Global,
    id: RequestId,
    value: V,
) -> Result<Response, serde_json::Error> {
    Response::new_ok(alloc, id, value)
}

pub fn err(id: RequestId, code: i32, message: String) -> Response {
    Response::new_err(id, code, message)
}

pub fn extract<P: DeserializeOwned>(
    request: Request,
    alloc: Global,
    method: &str,
) -> Result<(RequestId, P), ExtractError<Request>> {
    request.extract(alloc, method)
}

pub fn extract_params<P: DeserializeOwned>(
    notification: Notification,
    alloc: Global,
    method: &str,
) -> Result<P, ExtractError<Notification>> {
    notification.extract(alloc, method)
}

pub fn ids(number: i32, text: String) -> (RequestId, RequestId) {
    (RequestId::from(number), RequestId::from(text))
}

pub fn clone_of(id: &RequestId) -> Result<RequestId, AllocError> {
    id.clone()
}

pub fn compared(a: &RequestId, b: &RequestId) -> (bool, Ordering) {
    (a == b, a.cmp(b))
}

pub fn code_of(code: ErrorCode) -> (i32, ErrorCode) {
    (code.number(), code)
}

// Errors.

pub fn flags(error: &ProtocolError) -> (bool, bool) {
    (error.channel_is_disconnected(), error.is_out_of_memory())
}

pub fn are_equal(a: &ProtocolError, b: &ProtocolError) -> bool {
    a == b
}

// Queues.

pub fn queue<I, O>(alloc: Global) -> ReqQueue<I, O> {
    ReqQueue::default(alloc)
}

pub fn has_pending<I, O>(queue: &ReqQueue<I, O>) -> (bool, bool, bool) {
    (
        queue.has_pending(),
        queue.incoming.has_pending(),
        queue.outgoing.has_pending(),
    )
}

pub fn register_incoming<I: Drop>(
    queue: &mut Incoming<I>,
    id: RequestId,
    data: I,
) -> Result<(), RegisterFault<I>> {
    queue.register(id, data)
}

pub fn cancel<I: Drop>(
    queue: &mut Incoming<I>,
    id: RequestId,
) -> Result<Option<Response>, AllocError> {
    queue.cancel(id)
}

pub fn complete_incoming<I>(queue: &mut Incoming<I>, id: &RequestId) -> Option<I> {
    queue.complete(id)
}

pub fn is_completed<I>(queue: &Incoming<I>, id: &RequestId) -> bool {
    queue.is_completed(id)
}

pub fn data_of<'a, I>(queue: &'a Incoming<I>, id: &RequestId) -> Option<&'a I> {
    queue.data(id)
}

pub fn register_outgoing<O: Drop, P: Serialize + Drop>(
    queue: &mut Outgoing<O>,
    method: String,
    params: P,
    data: O,
) -> Result<Request, RegisterFault<O>> {
    queue.register(method, params, data)
}

pub fn register_value<O: Drop>(
    queue: &mut Outgoing<O>,
    method: String,
    params: Value,
    data: O,
) -> Result<Request, RegisterFault<O>> {
    queue.register_value(method, params, data)
}

pub fn complete_outgoing<O>(queue: &mut Outgoing<O>, id: RequestId) -> Option<O> {
    queue.complete(id)
}

// Lifecycle.

pub fn start<I: Inbox, O: Outbox, G: Gate>(
    alloc: Global,
    inbox: &mut I,
    outbox: &mut O,
    gate: &mut G,
    turns: u64,
) -> Option<Result<(RequestId, Value), ProtocolError>>
    requires { G.can_ask gate.old }
{
    start_within(alloc, inbox, outbox, gate, turns)
}

pub fn wait<I: Inbox, G: Gate>(
    alloc: Global,
    inbox: &mut I,
    gate: &mut G,
    turns: u64,
) -> Option<Result<(), ProtocolError>>
    requires { G.can_ask gate.old }
{
    wait_within(alloc, inbox, gate, turns)
}

pub fn finish_in<I: Inbox, O: Outbox, G: Gate>(
    alloc: Global,
    inbox: &mut I,
    outbox: &mut O,
    gate: &mut G,
    id: RequestId,
    value: Value,
    turns: u64,
) -> Option<Result<(), ProtocolError>>
    requires { G.can_ask gate.old }
{
    finish_within(alloc, inbox, outbox, gate, id, value, turns)
}

pub fn finish_once<I: Inbox, O: Outbox>(
    alloc: Global,
    inbox: &mut I,
    outbox: &mut O,
    id: RequestId,
    value: Value,
) -> Result<(), ProtocolError> {
    finish(alloc, inbox, outbox, id, value)
}

pub fn shut_down<I: Inbox, O: Outbox>(
    alloc: Global,
    inbox: &mut I,
    outbox: &mut O,
    request: &Request,
) -> Result<bool, ProtocolError> {
    shutdown(alloc, inbox, outbox, request)
}

pub fn lists(alloc: Global, room: usize) -> (ListInbox, ListOutbox, ListGate, OpenGate) {
    (
        ListInbox::new(alloc),
        ListOutbox::new(alloc, room),
        ListGate::new(alloc),
        OpenGate,
    )
}

pub fn wait_while_true(alloc: Global, inbox: &mut ListInbox) -> Option<Result<(), ProtocolError>> {
    wait_within(alloc, inbox, &mut CallGate { running: || true }, 1)
}

// Loops and sessions.

pub fn read_all<R: BufRead, O: Outbox>(alloc: Global, reader: &mut R, outbox: &mut O) -> ReadEnd {
    read_loop(alloc, reader, outbox)
}

pub fn read_all_up_to<R: BufRead, O: Outbox>(
    alloc: Global,
    reader: &mut R,
    outbox: &mut O,
    limit: u64,
) -> ReadEnd {
    read_loop_within(alloc, reader, outbox, limit)
}

pub fn write_all<I: Inbox, W: Write, O: Outbox>(
    alloc: Global,
    inbox: &mut I,
    writer: &mut W,
    spent: &mut O,
) -> WriteEnd {
    write_loop(alloc, inbox, writer, spent)
}

pub fn messages_of<R: BufRead>(alloc: Global, reader: &mut R) -> StreamInbox<'_, R> {
    StreamInbox::new(alloc, reader)
}

pub fn messages_up_to<R: BufRead>(alloc: Global, reader: &mut R, limit: u64) -> StreamInbox<'_, R> {
    StreamInbox::within(alloc, reader, limit)
}

pub fn frames_to<W: Write>(alloc: Global, writer: &mut W) -> FrameOutbox<'_, W> {
    FrameOutbox::new(alloc, writer)
}

pub fn serve_boxes<I: Inbox, O: Outbox, H: Handler>(
    alloc: Global,
    inbox: &mut I,
    outbox: &mut O,
    capabilities: Value,
    handler: &mut H,
) -> Result<SessionEnd, ProtocolError> {
    serve(alloc, inbox, outbox, capabilities, handler)
}

pub fn session_of<R: BufRead, W: Write, H: Handler>(
    alloc: Global,
    reader: &mut R,
    writer: &mut W,
    capabilities: Value,
    handler: &mut H,
) -> Result<SessionEnd, SessionFault> {
    session(alloc, reader, writer, capabilities, handler)
}

pub fn session_up_to<R: BufRead, W: Write, H: Handler>(
    alloc: Global,
    reader: &mut R,
    writer: &mut W,
    capabilities: Value,
    handler: &mut H,
    limit: u64,
) -> Result<SessionEnd, SessionFault> {
    session_within(alloc, reader, writer, capabilities, handler, limit)
}

// Two peers.

pub fn link(alloc: Global) -> Link {
    Link::default(alloc)
}

pub fn write_on(link: &mut Link, message: &Message) -> Result<(), WorldFault> {
    link.write(message)
}

pub fn pass_on(link: &mut Link, bytes: usize) -> usize {
    link.pass(bytes)
}

pub fn take_from(link: &mut Link) -> Result<Option<Message>, WorldFault> {
    link.take()
}

pub fn run(alloc: Global, steps: Vec<Step>) -> Result<(World, Vec<Outcome>), WorldFault> {
    World::run(alloc, steps)
}

pub fn queue_of(world: &World, side: Side) -> &ReqQueue<u64, u64> {
    world.queue(side)
}

pub fn bytes_of(world: &World, side: Side) -> (&[u8], &[u8]) {
    (world.on_way(side), world.arrived(side))
}

pub fn taken_by(world: &World, side: Side) -> &[Message] {
    world.taken(side)
}

// A dispatcher with cancellation.

pub fn dispatcher(alloc: Global) -> Dispatcher {
    Dispatcher::default(alloc)
}

pub fn deliver(dispatcher: &mut Dispatcher, message: Message) -> Result<Answer, DispatchFault> {
    dispatcher.deliver(message)
}

pub fn finish_work(
    dispatcher: &mut Dispatcher,
    id: RequestId,
    ticket: u64,
    outcome: Answered,
) -> Answer {
    dispatcher.finish(id, ticket, outcome)
}

pub fn replay_all(alloc: Global, calls: Vec<Call>) -> Result<Vec<Answer>, u8> {
    replay(alloc, calls)
}
