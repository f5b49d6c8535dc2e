//! The calls of a connection over two channels, with their arguments in their order and their results.
use lsp_server::{Connection, IoFault, IoThreads, ProtocolError, Request, RequestId};
use serde_json::Value;
use std::alloc::{AllocError, Global};
use std::net::{Net, ToSocketAddrs};
use std::sync::Wait;
use std::thread::Threads;
use std::time::Clock;

pub fn stdio<R>(rt: &R) -> Result<(Connection, IoThreads), IoFault>
where
    R: Threads + Wait + Clock + AllocGlobal + Input + Print + Copy + Drop + Send + 'static,
    R::Reader: Send + 'static,
{
    Connection::stdio(rt)
}

pub fn connect<R, A>(rt: &R, addr: A) -> Result<(Connection, IoThreads), IoFault>
where
    R: Net + Threads + Wait + Clock + AllocGlobal + Copy + Drop + Send + 'static,
    R::Stream: Send + 'static,
    A: ToSocketAddrs,
{
    Connection::connect(rt, addr)
}

pub fn listen<R, A>(rt: &R, addr: A) -> Result<(Connection, IoThreads), IoFault>
where
    R: Net + Threads + Wait + Clock + AllocGlobal + Copy + Drop + Send + 'static,
    R::Stream: Send + 'static,
    A: ToSocketAddrs,
{
    Connection::listen(rt, addr)
}

pub fn memory(alloc: Global) -> Result<(Connection, Connection), AllocError> {
    Connection::memory(alloc)
}

pub fn start<R: Wait + Clock + AllocGlobal>(
    connection: &Connection,
    rt: &R,
) -> Result<(RequestId, Value), ProtocolError> {
    connection.initialize_start(rt)
}

pub fn start_while<R: Wait + Clock + AllocGlobal>(
    connection: &Connection,
    rt: &R,
) -> Result<(RequestId, Value), ProtocolError> {
    connection.initialize_start_while(rt, || true)
}

pub fn finish<R: Wait + Clock + AllocGlobal>(
    connection: &Connection,
    rt: &R,
    initialize_id: RequestId,
    initialize_result: Value,
) -> Result<(), ProtocolError> {
    connection.initialize_finish(rt, initialize_id, initialize_result)
}

pub fn finish_while<R: Wait + Clock + AllocGlobal>(
    connection: &Connection,
    rt: &R,
    initialize_id: RequestId,
    initialize_result: Value,
) -> Result<(), ProtocolError> {
    connection.initialize_finish_while(rt, initialize_id, initialize_result, || true)
}

pub fn initialize<R: Wait + Clock + AllocGlobal>(
    connection: &Connection,
    rt: &R,
    server_capabilities: Value,
) -> Result<Value, ProtocolError> {
    connection.initialize(rt, server_capabilities)
}

pub fn initialize_while<R: Wait + Clock + AllocGlobal>(
    connection: &Connection,
    rt: &R,
    server_capabilities: Value,
) -> Result<Value, ProtocolError> {
    connection.initialize_while(rt, server_capabilities, || true)
}

pub fn handle_shutdown<R: Wait + Clock + AllocGlobal>(
    connection: &Connection,
    rt: &R,
    request: &Request,
) -> Result<bool, ProtocolError> {
    connection.handle_shutdown(rt, request)
}

pub fn join<R: Threads>(threads: IoThreads, rt: &R) -> Result<(), IoFault> {
    threads.join(rt)
}
