// The calls of a connection in memory, whose other side is here too; and what only a socket tells.
use crate::attempt::{Attempt, Stop};
use crate::signals::{Signal, Signals};
use lsp_message::{Message, Notification, Request, RequestId};
use lsp_server::running::spawn;
use lsp_server::{Connection, Explained, ProtocolError};
use serde_json::{Map, Value};
use std::alloc::{AllocError, Global};
use std::fmt::Display;
use std::net::{Net, OpenListener, TcpListener};
use std::sync::{Arc, Wait};
use std::thread::Threads;
use std::time::{Clock, Instant};

/// `NAME | MESSAGES`: a call of a server, whose client sent these messages before, or is `gone`. The result is what the
/// call returned, how many messages it left, and the messages that the client got.
pub fn called<R: Wait + Clock + AllocGlobal>(
    rt: &R,
    alloc: Global,
    row: &str,
) -> Result<Attempt, Stop> {
    let (name, texts) = row.split_once(" | ").ok_or(Stop::Table)?;
    let (server, client) = Connection::memory(alloc)?;
    if texts == "gone" {
        drop(client);
        let came = call(rt, alloc, &server, name);
        drop(server);
        return Ok(Attempt::came(came?));
    }
    let came = answered(rt, alloc, &server, &client, name, texts);
    drop(server);
    with_rest(rt, alloc, came, client)
}

/// Returns the result of a call after the client has sent these messages, and how many it leaves.
fn answered<R: Wait + Clock + AllocGlobal>(
    rt: &R,
    alloc: Global,
    server: &Connection,
    client: &Connection,
    name: &str,
    texts: &str,
) -> Result<String, Stop> {
    send_all(rt, alloc, client, texts)?;
    let came = call(rt, alloc, server, name)?;
    let left = server.receiver.len();
    Ok(format!(in alloc; "{came}; left {left}")?)
}

/// Returns the result of a call whose server is gone, and the messages that its client got.
fn with_rest<R: Wait>(
    rt: &R,
    alloc: Global,
    came: Result<String, Stop>,
    client: Connection,
) -> Result<Attempt, Stop> {
    let got = rest_of(rt, alloc, &client);
    drop(client);
    said_and_got(alloc, came?, got?)
}

/// Sends the messages with these member texts.
fn send_all<R>(rt: &R, alloc: Global, client: &Connection, texts: &str) -> Result<(), Stop>
where
    R: Wait,
{
    for text in texts.split("; ") {
        send(rt, alloc, client, text)?;
    }
    Ok(())
}

/// Sends the message with this member text.
fn send<R: Wait>(rt: &R, alloc: Global, client: &Connection, text: &str) -> Result<(), Stop> {
    let tree = Value::from_str(alloc, text)?;
    let message = Message::from_value(alloc, &tree);
    drop(tree);
    match message {
        Ok(Some(message)) => match client.sender.send(rt, message).ok() {
            Some(()) => Ok(()),
            None => Err(Stop::Broken("a connection in memory was closed")),
        },
        Ok(None) => Err(Stop::Table),
        Err(_) => Err(Stop::Memory),
    }
}

/// Returns the member texts of the messages that arrive, up to the end.
fn rest_of<R: Wait>(rt: &R, alloc: Global, client: &Connection) -> Result<String, AllocError> {
    let mut texts = String::new(alloc);
    for message in client.receiver.iter(rt) {
        let pushed = push_text(alloc, &mut texts, &message);
        drop(message);
        pushed?;
    }
    Ok(texts)
}

fn push_text(alloc: Global, texts: &mut String, message: &Message) -> Result<(), AllocError> {
    texts.push_str(message.member_text(alloc)?.as_str())
}

fn call<R: Wait + Clock + AllocGlobal>(
    rt: &R,
    alloc: Global,
    server: &Connection,
    name: &str,
) -> Result<String, AllocError> {
    match name {
        "initialize_start" => started(alloc, server.initialize_start(rt)),
        "initialize_start_while" | "initialize_finish_while" | "initialize_while" => {
            let signals = Signals::new();
            let came = call_while(rt, alloc, server, name, &signals, 1);
            drop(signals);
            came
        }
        "initialize" => given(alloc, server.initialize(rt, Value::Object(Map::new(alloc)))),
        "initialize_finish" => done(
            alloc,
            server.initialize_finish(rt, RequestId::from(234), Value::Null),
        ),
        method => match request(alloc, method) {
            Ok(request) => shut_down(rt, alloc, server, request),
            Err(error) => Err(error),
        },
    }
}

/// Makes a call that asks before each wait whether to go on. The server signals each question, and goes on until this
/// turn.
fn call_while<R: Wait + Clock + AllocGlobal>(
    rt: &R,
    alloc: Global,
    server: &Connection,
    name: &str,
    signals: &Signals,
    last: u64,
) -> Result<String, AllocError> {
    let running = || {
        signals.tell(Signal::Turns);
        signals.count(Signal::Turns) < last
    };
    match name {
        "initialize_start_while" => started(alloc, server.initialize_start_while(rt, running)),
        "initialize_finish_while" => done(
            alloc,
            server.initialize_finish_while(rt, RequestId::from(234), Value::Null, running),
        ),
        _ => given(
            alloc,
            server.initialize_while(rt, Value::Object(Map::new(alloc)), running),
        ),
    }
}

/// A request of id 2.
fn request(alloc: Global, method: &str) -> Result<Request, AllocError> {
    Ok(Request {
        id: RequestId::from(2),
        method: String::from_str(alloc, method)?,
        params: Value::Null,
    })
}

/// Returns the id and the params of `initialize`.
fn started(
    alloc: Global,
    answer: Result<(RequestId, Value), ProtocolError>,
) -> Result<String, AllocError> {
    match answer {
        Ok((id, params)) => {
            let text = format!(in alloc; "{id} {params}");
            drop(params);
            drop(id);
            text
        }
        Err(error) => failed(alloc, error),
    }
}

fn done(alloc: Global, answer: Result<(), ProtocolError>) -> Result<String, AllocError> {
    match answer {
        Ok(()) => String::from_str(alloc, "done"),
        Err(error) => failed(alloc, error),
    }
}

/// Returns the result of a call.
fn given<T: Display + Drop>(
    alloc: Global,
    answer: Result<T, ProtocolError>,
) -> Result<String, AllocError> {
    match answer {
        Ok(value) => {
            let text = format!(in alloc; "{value}");
            drop(value);
            text
        }
        Err(error) => failed(alloc, error),
    }
}

fn failed(alloc: Global, error: ProtocolError) -> Result<String, AllocError> {
    let end = match error.channel_is_disconnected() {
        true => ", disconnected",
        false => "",
    };
    let text = format!(in alloc; "{error}{end}");
    drop(error);
    text
}

/// Runs a handshake that is called off in its second turn, in which nothing has arrived either. It returns how often
/// the server asked whether to go on, and whether a second was over.
pub fn called_off<R: Wait + Clock + AllocGlobal>(rt: &R, alloc: Global) -> Result<Attempt, Stop> {
    let (server, client) = Connection::memory(alloc)?;
    let signals = Signals::new();
    let came = called_off_by(rt, alloc, &server, &signals);
    drop(signals);
    drop(client);
    drop(server);
    came
}

/// Does the same with these signals, with a client that stays.
fn called_off_by<R: Wait + Clock + AllocGlobal>(
    rt: &R,
    alloc: Global,
    server: &Connection,
    signals: &Signals,
) -> Result<Attempt, Stop> {
    let start = Instant::now(rt)?;
    let came = call_while(rt, alloc, server, "initialize_start_while", signals, 2)?;
    let is_late = start.elapsed(rt)?.as_secs() >= 1;
    let turns = signals.count(Signal::Turns);
    Ok(Attempt::came(format!(in alloc; "{came}, asked {turns} times, after a second {is_late}")?))
}

/// The messages of a client in a thread before the server has asked often enough whether to go on, and those after
/// that.
const EARLY: &str = "{\"id\":1,\"method\":\"initialize\",\"params\":{\"a\":1}}";

static LATE: [&str; 3] = [
    "{\"method\":\"initialized\"}",
    "{\"id\":2,\"method\":\"shutdown\"}",
    "{\"method\":\"exit\"}",
];

const TURNS: u64 = 3;

/// Plays that client, and returns the messages that it got.
fn patient<R: Wait + AllocGlobal + Drop>(
    rt: R,
    client: Connection,
    signals: Arc<Signals>,
) -> Result<String, Stop> {
    let got = got_by(&rt, rt.alloc(), &client, &signals);
    drop(signals);
    drop(client);
    got
}

fn got_by<R: Wait>(
    rt: &R,
    alloc: Global,
    client: &Connection,
    signals: &Signals,
) -> Result<String, Stop> {
    send(rt, alloc, client, EARLY)?;
    signals.wait(Signal::Turns, TURNS)?;
    for text in &LATE {
        send(rt, alloc, client, text)?;
    }
    Ok(rest_of(rt, alloc, client)?)
}

/// Runs a whole session with that client, which waits for more than one turn before it ends the handshake.
pub fn turns<R>(rt: &R, alloc: Global) -> Result<Attempt, Stop>
where
    R: Threads + Wait + Clock + AllocGlobal + Copy + Drop + Send + 'static,
{
    let signals = Arc::new(alloc, Signals::new())?;
    let theirs = Arc::try_clone(&signals)?;
    let (server, client) = Connection::memory(alloc)?;
    match spawn(rt, client, move |rt, client| patient(rt, client, theirs)) {
        Ok(thread) => {
            let said = served(rt, alloc, &server, &signals);
            drop(server);
            let got = thread.join(rt);
            said_and_got(alloc, said?, got?)
        }
        Err(refused) => {
            drop(refused);
            drop(server);
            Ok(Attempt::refused(String::from_str(alloc, "spawn")?))
        }
    }
}

/// Makes a result of what a server returned, and the messages that its client got.
fn said_and_got(alloc: Global, said: String, got: String) -> Result<Attempt, Stop> {
    let all = [said.as_str(), "; got ", got.as_str()].join(alloc, "")?;
    Ok(Attempt::came(all))
}

/// Does a handshake, and the shutdown that a client asks for.
fn served<R: Wait + Clock + AllocGlobal>(
    rt: &R,
    alloc: Global,
    server: &Connection,
    signals: &Signals,
) -> Result<String, AllocError> {
    let said = call_while(rt, alloc, server, "initialize_while", signals, u64::MAX)?;
    let shut = match server.receiver.recv(rt) {
        Ok(Message::Request(request)) => shut_down(rt, alloc, server, request),
        Ok(other) => {
            drop(other);
            String::from_str(alloc, "no request")
        }
        Err(_) => String::from_str(alloc, "no message"),
    };
    let shut = shut?;
    [said.as_str(), "; shutdown ", shut.as_str()].join(alloc, "")
}

/// Returns the result of the shutdown that this request may ask for.
fn shut_down<R: Wait + Clock + AllocGlobal>(
    rt: &R,
    alloc: Global,
    server: &Connection,
    request: Request,
) -> Result<String, AllocError> {
    let answer = server.handle_shutdown(rt, &request);
    drop(request);
    given(alloc, answer)
}

/// Returns whether a server whose client stays and is silent gives up the wait for `exit` after 30 seconds and not
/// before.
pub fn awaits_exit<R: Wait + Clock + AllocGlobal>(rt: &R) -> Result<Attempt, Stop> {
    let alloc = rt.alloc();
    let (server, client) = Connection::memory(alloc)?;
    let said = exit_awaited(rt, alloc, &server);
    drop(server);
    with_rest(rt, alloc, said, client)
}

fn exit_awaited<R: Wait + Clock + AllocGlobal>(
    rt: &R,
    alloc: Global,
    server: &Connection,
) -> Result<String, Stop> {
    let start = Instant::now(rt)?;
    let said = call(rt, alloc, server, "shutdown")?;
    let is_late = start.elapsed(rt)?.as_secs() >= 30;
    Ok(format!(in alloc; "{said}, after 30 seconds {is_late}")?)
}

/// Returns the result of a connection to an address at which nobody listens.
pub fn nobody<R>(rt: &R, alloc: Global) -> Result<Attempt, Stop>
where
    R: Net + Threads + Wait + Clock + AllocGlobal + Copy + Drop + Send + 'static,
    R::Stream: Send + 'static,
{
    let listener = TcpListener::bind(rt, ("127.0.0.1", 0))?;
    let address = listener.local_addr();
    drop(listener);
    let said = match Connection::connect(rt, address?) {
        Ok((connection, threads)) => {
            drop(connection);
            drop(threads.flush(rt));
            String::from_str(alloc, "a connection")
        }
        Err(fault) => format!(in alloc; "{fault:?}, {fault}, {}", Explained(fault)),
    };
    Ok(Attempt::came(said?))
}
