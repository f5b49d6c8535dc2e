// The server that answers `demo/echo` at once, and `demo/hold` at `demo/release`.
ghost use Rattle.std.specs.Prelude.{◌≡◌, ◌≤◌};

use crate::report::report;
use crate::work::{Work, WorkFault};
use lsp_server::dispatch::Answer;
use lsp_server::{Connection, IoFault, IoThreads, Message, ProtocolError};
use serde_json::{Map, Value};
use std::io::Write;
use std::net::{Net, ToSocketAddrs};
use std::sync::Wait;
use std::thread::Threads;
use std::time::Clock;

/// How a session of the server ended.
enum ServeEnd {
    /// The client asked for `shutdown`, and then sent `exit`.
    ShutDown,
    /// With an `exit` or the end of the messages, or with a reply that was not sent.
    Ended,
    /// With an error of the handshake or of the shutdown.
    Refused(ProtocolError),
    /// With a message that could not be handled.
    Failed(WorkFault),
}

/// Serves one connection, and returns the exit status: 0 after `shutdown` and `exit`, if the threads of the connection
/// ended without a fault, otherwise 1. The reason goes to `errors`, whose faults are ignored.
///
/// The request `demo/echo` is answered with its params at once. `demo/hold` is kept. It is answered with its params at
/// the notification `demo/release`, together with the others that are kept and in the order in which they arrived, or
/// with code -32800 if the notification `$/cancelRequest` names it before. Every other request is answered with code
/// -32601. A request under the id of one that is kept replaces it. The replaced one gets no reply, and neither do those
/// that are kept at `shutdown`. Other notifications than these and `exit`, and responses, are dropped. Without threads
/// nothing is waited for at the end.
pub fn serve_on<R: Threads + Wait + Clock + AllocGlobal, E: Write>(
    rt: &R,
    connection: Connection,
    threads: Option<IoThreads>,
    errors: &mut E,
) -> u8
    ensures { result ≤ 1 }
{
    let end = serve_session(rt, &connection);
    match end {
        ServeEnd::ShutDown => match close(rt, connection, threads) {
            Ok(()) => 0,
            Err(fault) => report(errors, fault),
        },
        ServeEnd::Ended => match close(rt, connection, threads) {
            Ok(()) => report(errors, "ended without shutdown"),
            Err(fault) => report(errors, fault),
        },
        ServeEnd::Refused(error) => report_refusal(rt, connection, threads, errors, error),
        ServeEnd::Failed(fault) => {
            let status = report_failure(errors, fault);
            drop(flush(rt, connection, threads));
            status
        }
    }
}

/// Prints why the other side was refused, or which fault the threads had if it is gone. All messages that were sent are
/// written first.
fn report_refusal<R: Threads, E: Write>(
    rt: &R,
    connection: Connection,
    threads: Option<IoThreads>,
    errors: &mut E,
    error: ProtocolError,
) -> u8
    ensures { result ≡ 1 }
{
    if !error.channel_is_disconnected() {
        drop(flush(rt, connection, threads));
        return report(errors, error);
    }
    match close(rt, connection, threads) {
        Ok(()) => report(errors, error),
        Err(fault) => {
            drop(error);
            report(errors, fault)
        }
    }
}

/// Prints why a message could not be handled.
fn report_failure<E: Write>(errors: &mut E, fault: WorkFault) -> u8
    ensures { result ≡ 1 }
{
    match fault {
        WorkFault::Dispatch(fault) => report(errors, fault),
        WorkFault::Memory => report(errors, "out of memory"),
    }
}

/// Drops the connection, and waits until all messages that were sent are written, and then for the threads.
fn close<R: Threads>(
    rt: &R,
    connection: Connection,
    threads: Option<IoThreads>,
) -> Result<(), IoFault> {
    match flush(rt, connection, threads) {
        Some(threads) => threads.join(rt),
        None => Ok(()),
    }
}

/// Drops the connection, and waits until all messages that were sent are written. The client may stay and be silent.
fn flush<R: Threads>(
    rt: &R,
    connection: Connection,
    threads: Option<IoThreads>,
) -> Option<IoThreads> {
    drop(connection);
    match threads {
        Some(threads) => Some(threads.flush(rt)),
        None => None,
    }
}

/// Runs a session: the handshake with capabilities `{}`, and then one message after another.
fn serve_session<'a, R: Wait + Clock + AllocGlobal>(
    rt: &'a R,
    connection: &'a Connection,
) -> ServeEnd {
    let capabilities = Value::Object(Map::new(rt.alloc()));
    match connection.initialize(rt, capabilities) {
        Ok(_params) => serve_messages(rt, connection),
        Err(error) => ServeEnd::Refused(error),
    }
}

/// Runs the session after the handshake.
fn serve_messages<'a, R: Wait + Clock + AllocGlobal>(
    rt: &'a R,
    connection: &'a Connection,
) -> ServeEnd {
    let mut work = Work::new(rt.alloc());
    let end = serve_each(rt, connection, &mut work);
    drop(work);
    end
}

fn serve_each<R: Wait + Clock + AllocGlobal>(
    rt: &R,
    connection: &Connection,
    work: &mut Work,
) -> ServeEnd {
    for message in connection.receiver.iter(rt) {
        if let Some(end) = serve_message(rt, connection, work, message) {
            return end;
        }
    }
    ServeEnd::Ended
}

/// Handles a message. It returns how the session ends, if it ends with this message.
fn serve_message<R: Wait + Clock + AllocGlobal>(
    rt: &R,
    connection: &Connection,
    work: &mut Work,
    message: Message,
) -> Option<ServeEnd> {
    match shutdown(rt, connection, &message) {
        Some(end) => {
            drop(message);
            Some(end)
        }
        None => take(rt, connection, work, message),
    }
}

/// Returns how the session ends, if the message asks for the shutdown.
fn shutdown<R: Wait + Clock + AllocGlobal>(
    rt: &R,
    connection: &Connection,
    message: &Message,
) -> Option<ServeEnd> {
    let Message::Request(request) = message else {
        return None;
    };
    match connection.handle_shutdown(rt, request) {
        Ok(true) => Some(ServeEnd::ShutDown),
        Ok(false) => None,
        Err(error) => Some(ServeEnd::Refused(error)),
    }
}

/// Handles any other message.
fn take<R: Wait>(
    rt: &R,
    connection: &Connection,
    work: &mut Work,
    message: Message,
) -> Option<ServeEnd> {
    match work.take(message) {
        Ok(Answer::Note(notification)) => {
            let end = serve_notification(rt, connection, work, notification.method.as_str());
            drop(notification);
            end
        }
        Ok(answer) => reply(rt, connection, answer),
        Err(fault) => Some(ServeEnd::Failed(fault)),
    }
}

/// Handles a notification by its method.
fn serve_notification<R: Wait>(
    rt: &R,
    connection: &Connection,
    work: &mut Work,
    method: &str,
) -> Option<ServeEnd> {
    match method {
        "exit" => Some(ServeEnd::Ended),
        "demo/release" => release_all(rt, connection, work),
        _ => None,
    }
}

/// Answers every request that is kept, in the order in which they arrived.
fn release_all<R: Wait>(rt: &R, connection: &Connection, work: &mut Work) -> Option<ServeEnd> {
    for (ticket, request) in work.release() {
        let answer = work.finish(ticket, request);
        if let Some(end) = reply(rt, connection, answer) {
            return Some(end);
        }
    }
    None
}

/// Sends the reply of an answer, if it has one.
fn reply<R: Wait>(rt: &R, connection: &Connection, answer: Answer) -> Option<ServeEnd> {
    match connection.sender.send(rt, answer.into_reply()?).ok() {
        Some(()) => None,
        None => Some(ServeEnd::Ended),
    }
}

/// Serves standard input and output, and returns the exit status, as `serve_on` does.
pub fn serve_stdio<R, E: Write>(rt: &R, errors: &mut E) -> u8
where
    R: Threads + Wait + Clock + AllocGlobal + Input + Print + Copy + Drop + Send + 'static,
    R::Reader: Send + 'static,
    ensures { result ≤ 1 }
{
    match Connection::stdio(rt) {
        Ok((connection, threads)) => serve_on(rt, connection, Some(threads), errors),
        Err(fault) => report(errors, fault),
    }
}

/// Waits at the address for one client, serves it, and returns the exit status, as `serve_on` does.
pub fn tcp_on<R, A: ToSocketAddrs, E: Write>(rt: &R, addr: A, errors: &mut E) -> u8
where
    R: Net + Threads + Wait + Clock + AllocGlobal + Copy + Drop + Send + 'static,
    R::Stream: Send + 'static,
    ensures { result ≤ 1 }
{
    match Connection::listen(rt, addr) {
        Ok((connection, threads)) => serve_on(rt, connection, Some(threads), errors),
        Err(fault) => report(errors, fault),
    }
}
