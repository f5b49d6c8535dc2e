//! A small test client. It holds a session with a server, in which it sends one request. The server runs in a thread of
//! the same program, or listens at an address.
use crate::{send, serve};
use anyhow::{Error, Result, anyhow, bail};
use lsp_server::running::spawn;
use lsp_server::{Connection, Explained, Message, Notification, Request, RequestId, Response};
use serde_json::Value;
use std::net::Net;
use std::sync::Wait;
use std::thread::Threads;
use std::time::Clock;

/// What the client tells the server about itself.
const ABOUT: &str = r#"{ "processId": null, "rootUri": null, "capabilities": {} }"#;

/// What it asks about.
const PLACE: &str = r#"{ "textDocument": { "uri": "file:///a.rs" } }"#;

/// Prints the answer of a server: that of this program with the argument `client`, and another one with `client
/// ADDRESS`.
pub fn print_answer<R>(rt: &R, words: &[String]) -> Result<()>
where
    R: Net + Threads + Wait + Clock + AllocGlobal + Print + Copy + Drop + Send + 'static,
    R::Stream: Send + 'static,
{
    let answer = match words {
        [word] if word.as_str() == "client" => ask_thread(rt),
        [word, address] if word.as_str() == "client" => ask_address(rt, address.as_str()),
        _ => bail!("usage: example_connection [client [ADDRESS]]"),
    };
    let answer = answer?;
    let printed = println!(rt; "{answer}");
    drop(answer);
    Ok(printed?)
}

/// Returns the answer of the server that listens at an address, such as `127.0.0.1:9257`.
pub fn ask_address<R>(rt: &R, address: &str) -> Result<Value>
where
    R: Net + Threads + Wait + Clock + AllocGlobal + Copy + Drop + Send + 'static,
    R::Stream: Send + 'static,
{
    let (connection, threads) = match Connection::connect(rt, address) {
        Ok(ends) => ends,
        Err(fault) => bail!("{address}: {}", Explained(fault)),
    };
    let answer = hold_session(rt, &connection);
    // The threads end once the connection is dropped.
    drop(connection);
    let threads = threads.flush(rt);
    if answer.is_err() {
        drop(threads);
        return answer;
    }
    let joined = threads.join(rt).map_err(Explained);
    joined.map_err(Error::from).and(answer)
}

/// Returns the answer of the server of this program. It runs in a thread, and needs no socket.
pub fn ask_thread<R>(rt: &R) -> Result<Value>
where
    R: Threads + Wait + Clock + AllocGlobal + Copy + Drop + Send + 'static,
{
    let (client, server) = Connection::memory(rt.alloc())?;
    let thread = spawn(rt, server, |rt, server| serve(&rt, server, None))?;
    let answer = hold_session(rt, &client);
    // The server would wait for more.
    drop(client);
    thread.join(rt).and(answer)
}

/// Sends and receives the messages of the session (LSP 3.17, "Server lifecycle").
fn hold_session<R: Wait + AllocGlobal>(rt: &R, connection: &Connection) -> Result<Value> {
    drop(ask(rt, connection, 1, "initialize", ABOUT)?);
    tell(rt, connection, "initialized")?;
    let answer = ask(rt, connection, 2, "textDocument/hover", PLACE)?;
    drop(ask(rt, connection, 3, "shutdown", "null")?);
    tell(rt, connection, "exit")?;
    Ok(answer)
}

/// Sends a request under a new id, and waits for its result. Other messages of the server are ignored.
fn ask<R: Wait + AllocGlobal>(
    rt: &R,
    connection: &Connection,
    number: i32,
    method: &str,
    params: &str,
) -> Result<Value> {
    let id = RequestId::from(number);
    let method = String::from_str(rt.alloc(), method)?;
    let params = Value::from_str(rt.alloc(), params)?;
    let request = Request { id, method, params };
    send(rt, connection, Message::from(request))?;
    result_of(rt, connection, number)
}

/// Waits for the result of the request with this id.
fn result_of<R: Wait>(rt: &R, connection: &Connection, number: i32) -> Result<Value> {
    for message in connection.receiver.iter(rt) {
        match message {
            Message::Response(reply) => {
                if reply.id == RequestId::from(number) {
                    return result_in(reply);
                }
                drop(reply);
            }
            other => drop(other),
        }
    }
    bail!("the server is gone")
}

/// Returns the result, or an error with the code and the text of the server's.
fn result_in(reply: Response) -> Result<Value> {
    let Response {
        id: _,
        response_result: outcome,
    } = reply;
    match outcome {
        Ok(result) => Ok(result),
        Err(error) => {
            let told = anyhow!("error {}: {}", error.code, error.message);
            drop(error);
            Err(told)
        }
    }
}

/// Sends a notification without params.
fn tell<R: Wait + AllocGlobal>(rt: &R, connection: &Connection, method: &str) -> Result<()> {
    let method = String::from_str(rt.alloc(), method)?;
    let params = Value::Null;
    let note = Notification { method, params };
    send(rt, connection, Message::from(note))
}
