//! A whole language server on standard input and output, as a loop. It says how long the path of a document is, in
//! answer to a request `textDocument/hover`. At the start it asks its client once what to call a path, if the client
//! can be asked (`workspace/configuration`, section `paths`, a text).
//!
//! With the argument `client` the program is a test client: it asks the server, which then runs in a thread, or with
//! `client ADDRESS` another server, and prints the answer.
#![tactic(auto)]

mod client;

use anyhow::{Context, Result, bail};
use lsp_server::about::About;
use lsp_server::{Connection, Explained, IoThreads, Message, ReqQueue, Request, Response};
use serde_json::{Value, json};
use std::alloc::{AllocError, Global};
use std::env;
use std::sync::Wait;
use std::time::Clock;

/// What the server keeps between two messages.
#[derive(Drop)]
struct Paths {
    alloc: Global,
    /// What a hover calls a path.
    name: String,
    /// The requests of the server that have no reply yet, each with what it asked for.
    queue: ReqQueue<(), Asked>,
}

/// What a request of the server asked for.
#[derive(Drop)]
enum Asked {
    Name,
}

/// What `--help` and `--version` print.
const ABOUT: About<'static> = About {
    name: "example_connection",
    version: "0.1",
    purpose: "A language server at standard input and output: a hover says how long the path of a document is.",
    arguments: "  client          asks a server once: this program, or with one more argument that at an address
  --help          prints this text; also -h
  --version       prints the version; also -V
",
};

fn main(rt: HostRuntime) -> Result<()> {
    let words: Vec<String> = env::args(&rt)?.skip(1).collect(rt.alloc())?;
    if let Some(text) = ABOUT.asked(words.as_slice()) {
        return Ok(print!(&rt; "{text}")?);
    }
    if !words.is_empty() {
        return client::print_answer(&rt, words.as_slice());
    }
    let (connection, threads) = Connection::stdio(&rt).map_err(Explained)?;
    let served = serve(&rt, connection, Some(&threads));
    let threads = threads.flush(&rt);
    served?;
    threads.join(&rt).map_err(Explained)?;
    Ok(())
}

/// Serves a client from `initialize` to `exit`. The connection is dropped at the end, so that its threads end too. A
/// connection in memory has no threads.
fn serve<R: Wait + Clock + AllocGlobal>(
    rt: &R,
    connection: Connection,
    threads: Option<&IoThreads>,
) -> Result<()> {
    let served = serve_session(rt, &connection, threads);
    drop(connection);
    served
}

fn serve_session<R: Wait + Clock + AllocGlobal>(
    rt: &R,
    connection: &Connection,
    threads: Option<&IoThreads>,
) -> Result<()> {
    let can_be_asked = begin(rt, connection)?;
    let mut paths = Paths::new(rt.alloc())?;
    if can_be_asked {
        send(rt, connection, Message::from(paths.ask()?))?;
    }
    serve_messages(rt, connection, threads, &mut paths)
}

/// Does the handshake. Returns whether the client can be asked for its configuration.
fn begin<R: Wait + Clock + AllocGlobal>(rt: &R, connection: &Connection) -> Result<bool> {
    let (id, params) = connection.initialize_start(rt).map_err(Explained)?;
    let can_be_asked = can_be_asked(&params);
    drop(params);
    let finished = connection.initialize_finish(rt, id, about(rt.alloc())?);
    finished.map_err(Explained)?;
    Ok(can_be_asked)
}

fn serve_messages<R: Wait + Clock + AllocGlobal>(
    rt: &R,
    connection: &Connection,
    threads: Option<&IoThreads>,
    paths: &mut Paths,
) -> Result<()> {
    for message in connection.receiver.iter(rt) {
        if let Some(threads) = threads {
            threads.drop_written(rt);
        }
        match message {
            Message::Request(request) => {
                if connection.handle_shutdown(rt, &request).map_err(Explained)? {
                    return Ok(());
                }
                send(rt, connection, Message::from(paths.answer(request)?))?;
            }
            Message::Response(response) => paths.take(response)?,
            Message::Notification(note) => drop(note),
        }
    }
    bail!("the client left without a shutdown")
}

/// What the server says about itself (LSP 3.17, `InitializeResult`).
fn about(alloc: Global) -> Result<Value, serde_json::Error> {
    let about = r#"{
        "capabilities": { "hoverProvider": true },
        "serverInfo": { "name": "my_server", "version": "0.1" }
    }"#;
    Value::from_str(alloc, about)
}

/// Returns whether the client supports `workspace/configuration` (LSP 3.17, "Configuration Request").
fn can_be_asked(params: &Value) -> bool {
    let path = "/capabilities/workspace/configuration";
    matches!(params.pointer(path), Some(Value::Bool(true)))
}

fn send<R: Wait>(rt: &R, connection: &Connection, message: Message) -> Result<()> {
    let sent = connection.sender.send(rt, message).ok();
    sent.context("the other side is gone")
}

impl Paths {
    fn new(alloc: Global) -> Result<Paths, AllocError> {
        Ok(Paths {
            alloc,
            name: String::from_str(alloc, "a path")?,
            queue: ReqQueue::default(alloc),
        })
    }

    /// Makes the request that asks for the name. It is pending until its response arrives.
    fn ask(&mut self) -> Result<Request> {
        let method = String::from_str(self.alloc, "workspace/configuration")?;
        let sections = r#"{ "items": [{ "section": "paths" }] }"#;
        let params = Value::from_str(self.alloc, sections)?;
        let queue = &mut self.queue.outgoing;
        let registered = queue.register_value(method, params, Asked::Name).ok();
        registered.context("a registration was refused")
    }

    /// Takes the response to a request of the server.
    fn take(&mut self, response: Response) -> Result<(), AllocError> {
        let Response {
            id,
            response_result: outcome,
        } = response;
        let taken = match (self.queue.outgoing.complete(id), &outcome) {
            (Some(Asked::Name), Ok(values)) => self.rename(values),
            _ => Ok(()),
        };
        drop(outcome);
        taken
    }

    /// Takes the values of the configuration: a list with the name, if the user set one.
    fn rename(&mut self, values: &Value) -> Result<(), AllocError> {
        if let Some(name) = values.pointer("/0").and_then(|value| value.as_str()) {
            self.name = String::from_str(self.alloc, name)?;
        }
        Ok(())
    }

    fn answer(&self, request: Request) -> Result<Response, AllocError> {
        let Request { id, method, params } = request;
        if method.as_str() != "textDocument/hover" {
            drop(params);
            return Response::method_not_found(self.alloc, id);
        }
        let hover = self.hover(&params);
        drop(params);
        let response_result = Ok(hover?);
        Ok(Response {
            id,
            response_result,
        })
    }

    /// Returns what a hover shows.
    fn hover(&self, params: &Value) -> Result<Value, AllocError> {
        let name = self.name.as_str();
        let length = uri_of(params).map_or(0, |uri| uri.len() as u64);
        let contents = format!(in self.alloc; "{name} of {length} bytes")?;
        json!(in self.alloc; { "contents": contents })
    }
}

/// Returns the path of the document that the params of a request name (LSP 3.17, "TextDocumentPositionParams").
fn uri_of(params: &Value) -> Option<&str> {
    params.get("textDocument")?.get("uri")?.as_str()
}
