//! A server that drops everything that it receives, on one thread and on three. It answers each request with a value
//! that it makes. The cost shows whether one thread frees what another one allocated.
use crate::Host;
use crate::session::Echo;
use anyhow::{Error, Result};
use lsp_server::transports::StandardOutput;
use lsp_server::{Connection, Handler, IoThreads, Limits, Message, Request, Response};
use serde_json::{Map, Value, put};
use std::alloc::{AllocError, Global};
use std::io::BufRead;
use std::sync::Wait;

/// Makes a server whose replies are a list of this many places, or null for none.
pub fn server(alloc: Global, count: &str) -> Result<Echo> {
    let count = count.parse::<u64>()?;
    Ok(Echo {
        echoes: false,
        reply: places(alloc, count)?,
    })
}

fn places(alloc: Global, count: u64) -> Result<Value, AllocError> {
    if count == 0 {
        return Ok(Value::Null);
    }
    let mut list = Vec::new(alloc);
    for line in 0..count {
        list.push(place(alloc, line)?)?;
    }
    Ok(Value::Array(list))
}

fn place(alloc: Global, line: u64) -> Result<Value, AllocError> {
    let mut members = Map::new(alloc);
    put(&mut members, alloc, "character", Value::from(7))?;
    put(&mut members, alloc, "line", Value::from(line))?;
    Ok(Value::Object(members))
}

/// Runs a loop on a connection.
pub fn serve_connection<T, R>(rt: &T, reader: R, echo: Echo) -> Result<()>
where
    T: Host,
    R: BufRead + Drop + Send + 'static,
{
    match Connection::over(rt, reader, StandardOutput::new(*rt), Limits::none()) {
        Ok((connection, threads)) => answer_all(rt, connection, threads, echo),
        Err(fault) => {
            drop(echo);
            Err(Error::from(fault))
        }
    }
}

/// Runs a session from `initialize` to `exit`. The connection is dropped at the end, so that its threads end too.
fn answer_all<T>(rt: &T, connection: Connection, threads: IoThreads, echo: Echo) -> Result<()>
where
    T: Host,
{
    let mut echo = echo;
    let answered = answer_each(rt, &connection, &threads, &mut echo);
    drop(connection);
    drop(echo);
    match answered {
        Ok(()) => Ok(threads.join(rt)?),
        Err(error) => {
            drop(threads.flush(rt));
            Err(error)
        }
    }
}

fn answer_each<T>(
    rt: &T,
    connection: &Connection,
    threads: &IoThreads,
    echo: &mut Echo,
) -> Result<()>
where
    T: Host,
{
    drop(connection.initialize(rt, Value::Object(Map::new(rt.alloc())))?);
    for message in connection.receiver.iter(rt) {
        threads.drop_written(rt);
        match message {
            Message::Request(request) => {
                if answer(rt, connection, request, echo)? {
                    return Ok(());
                }
            }
            other => drop(other),
        }
    }
    Err(Error::msg("the client left without a shutdown"))
}

/// Answers this request, and returns whether it was the shutdown.
fn answer<T>(rt: &T, connection: &Connection, request: Request, echo: &mut Echo) -> Result<bool>
where
    T: Host,
{
    match connection.handle_shutdown(rt, &request) {
        Ok(true) => {
            drop(request);
            Ok(true)
        }
        Ok(false) => send(rt, connection, echo.respond(request)?),
        Err(error) => {
            drop(request);
            Err(Error::from(error))
        }
    }
}

/// Sends the reply. The session goes on, so it returns false.
fn send<T: Wait>(rt: &T, connection: &Connection, response: Response) -> Result<bool> {
    match connection.sender.send(rt, Message::from(response)).ok() {
        Some(()) => Ok(false),
        None => Err(Error::msg("the other side is gone")),
    }
}
