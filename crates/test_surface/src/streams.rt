//! Each engine over the boxes of a reader and a writer.
use lsp_server::{
    CallGate, FrameOutbox, Handler, OpenGate, ProtocolError, ReadEnd, Request, RequestId,
    SessionEnd, StreamInbox, WriteEnd, finish, finish_within, read_loop, serve, shutdown,
    start_within, wait_within, write_loop,
};
use serde_json::Value;
use std::alloc::Global;
use std::io::{BufRead, Write};

pub fn start<R: BufRead, W: Write>(
    alloc: Global,
    reader: &mut R,
    writer: &mut W,
    turns: u64,
) -> Option<Result<(RequestId, Value), ProtocolError>> {
    let mut inbox = StreamInbox::new(alloc, reader);
    let mut outbox = FrameOutbox::new(alloc, writer);
    let mut gate = CallGate { running: || true };
    start_within(alloc, &mut inbox, &mut outbox, &mut gate, turns)
}

pub fn wait<R: BufRead>(
    alloc: Global,
    reader: &mut R,
    turns: u64,
) -> Option<Result<(), ProtocolError>> {
    let mut inbox = StreamInbox::within(alloc, reader, 100);
    wait_within(alloc, &mut inbox, &mut OpenGate, turns)
}

pub fn finish_in<R: BufRead, W: Write>(
    alloc: Global,
    reader: &mut R,
    writer: &mut W,
    id: RequestId,
    turns: u64,
) -> Option<Result<(), ProtocolError>> {
    let mut inbox = StreamInbox::new(alloc, reader);
    let mut outbox = FrameOutbox::new(alloc, writer);
    finish_within(
        alloc,
        &mut inbox,
        &mut outbox,
        &mut OpenGate,
        id,
        Value::Null,
        turns,
    )
}

pub fn finish_once<R: BufRead, W: Write>(
    alloc: Global,
    reader: &mut R,
    writer: &mut W,
    id: RequestId,
) -> Result<(), ProtocolError> {
    let mut inbox = StreamInbox::new(alloc, reader);
    let mut outbox = FrameOutbox::new(alloc, writer);
    finish(alloc, &mut inbox, &mut outbox, id, Value::Null)
}

pub fn shut_down<R: BufRead, W: Write>(
    alloc: Global,
    reader: &mut R,
    writer: &mut W,
    request: &Request,
) -> Result<bool, ProtocolError> {
    let mut inbox = StreamInbox::new(alloc, reader);
    let mut outbox = FrameOutbox::new(alloc, writer);
    shutdown(alloc, &mut inbox, &mut outbox, request)
}

pub fn serve_bytes<R: BufRead, W: Write, H: Handler>(
    alloc: Global,
    reader: &mut R,
    writer: &mut W,
    handler: &mut H,
) -> Result<SessionEnd, ProtocolError> {
    let mut inbox = StreamInbox::new(alloc, reader);
    let mut outbox = FrameOutbox::new(alloc, writer);
    serve(alloc, &mut inbox, &mut outbox, Value::Null, handler)
}

pub fn read_into<R: BufRead, W: Write>(alloc: Global, reader: &mut R, writer: &mut W) -> ReadEnd {
    let mut outbox = FrameOutbox::new(alloc, writer);
    read_loop(alloc, reader, &mut outbox)
}

pub fn write_from<R: BufRead, V: Write, W: Write>(
    alloc: Global,
    reader: &mut R,
    writer: &mut V,
    spent: &mut W,
) -> WriteEnd {
    let mut inbox = StreamInbox::new(alloc, reader);
    let mut spent = FrameOutbox::new(alloc, spent);
    write_loop(alloc, &mut inbox, writer, &mut spent)
}
