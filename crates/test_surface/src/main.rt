//! The public surface of the port, in the shapes that were asked for: each name, each list of arguments in its order,
//! each result, each pattern without `..`, and an `impl` of each trait with only its methods. A line here changes only
//! if what was asked for changes.
//!
//! When run, it prints the results of some of the calls.
//!
//! `docs/DECISIONS.md` lists 23 forms under "Forms that were asked for in another way". In the code such a line says
//! `beyond`.
#![tactic(auto)]

mod boxes;
mod calls;
mod channels;
mod own;
mod shapes;
mod streams;
mod texts;
mod threads;
mod traits;

use anyhow::Result;
use boxes::{Answers, Asked, Given, Kept};
use lsp_server::{
    Message, Notification, ReqQueue, Request, RequestId, Response, ResponseError, SessionEnd, Side,
    Step,
};
use own::Point;
use serde_json::Value;
use std::alloc::Global;

/// The input of a whole session: the frames of `initialize`, `initialized`, `shutdown` and `exit`.
const SESSION: &[u8] =
    b"Content-Length: 46\r\n\r\n{\"jsonrpc\":\"2.0\",\"id\":1,\"method\":\"initialize\"}Content-Length: 40\r\n\r\n{\"jsonrpc\":\"2.0\",\"method\":\"initialized\"}Content-Length: 44\r\n\r\n{\"jsonrpc\":\"2.0\",\"id\":2,\"method\":\"shutdown\"}Content-Length: 33\r\n\r\n{\"jsonrpc\":\"2.0\",\"method\":\"exit\"}";

/// The frame of `initialized`.
const INITIALIZED: &[u8] =
    b"Content-Length: 40\r\n\r\n{\"jsonrpc\":\"2.0\",\"method\":\"initialized\"}";

/// The frame of `exit`.
const EXIT: &[u8] = b"Content-Length: 33\r\n\r\n{\"jsonrpc\":\"2.0\",\"method\":\"exit\"}";

fn main(rt: HostRuntime) -> Result<()> {
    let alloc = rt.alloc();
    show_traits();
    let exit = Message::from(note(alloc, "exit")?);
    println!(&rt; "{}", exit.body_text(alloc)?)?;
    drop(exit);
    show_ids(&rt, alloc)?;
    show_responses(&rt, alloc)?;
    show_null_data(&rt, alloc)?;
    show_own_params(&rt, alloc)?;
    show_own_errors(&rt, alloc)?;
    show_misfit(&rt, alloc)?;
    show_queue(&rt, alloc)?;
    show_session(&rt, alloc)?;
    show_boxes(&rt, alloc)?;
    show_handshake(&rt, alloc)?;
    show_shutdown(&rt, alloc)?;
    show_loops(&rt, alloc)?;
    show_world(&rt, alloc)?;
    texts::show_read_faults(&rt)?;
    texts::show_faults(&rt)?;
    texts::show_io_faults(&rt)?;
    let messages = (note(alloc, "a")?, note(alloc, "b")?);
    texts::show_dispatch_faults(&rt, Message::from(messages.0), Message::from(messages.1))?;
    texts::show_codes(&rt)
}

/// Names the traits of all types, with a type of this crate where they take one.
fn show_traits() {
    traits::debug_of_messages::<u8>();
    traits::debug_of_sessions::<u8>();
    traits::debug_of_peers();
    traits::display_of_faults::<u8>();
    traits::values();
}

fn note(alloc: Global, method: &str) -> Result<Notification> {
    Ok(Notification {
        method: String::from_str(alloc, method)?,
        params: Value::Null,
    })
}

fn request(alloc: Global, method: &str, params: i32) -> Result<Request> {
    let method = String::from_str(alloc, method)?;
    Ok(calls::request(alloc, RequestId::from(7), method, params)?)
}

fn point(alloc: Global) -> Result<Point> {
    Ok(Point {
        at: 3,
        name: String::from_str(alloc, "q")?,
    })
}

/// Ids as they are printed, and whether they rise: numbers come before texts.
fn show_ids<R: Print>(rt: &R, alloc: Global) -> Result<()> {
    let (number, text) = calls::ids(92, String::from_str(alloc, "92")?);
    println!(rt; "{number} {text}")?;
    let texts = (
        RequestId::from(String::from_str(alloc, "")?),
        RequestId::from(String::from_str(alloc, "1")?),
    );
    let numbers = (RequestId::from(-5), RequestId::from(2), RequestId::from(10));
    let rise = (numbers.0 < numbers.1, numbers.1 < numbers.2);
    println!(rt;
        "{} {} {} {}",
        rise.0,
        rise.1,
        numbers.2 < texts.0,
        texts.0 < texts.1
    )?;
    Ok(())
}

/// Responses with a result that is a text, and with an error.
fn show_responses<R: Print>(rt: &R, alloc: Global) -> Result<()> {
    let good = Message::from(calls::ok(alloc, RequestId::from(3), "success")?);
    println!(rt; "{}", good.body_text(alloc)?)?;
    drop(good);
    let text = String::from_str(alloc, "bad response message")?;
    let bad = Message::from(calls::err(RequestId::from(3), -32600, text));
    println!(rt; "{}", bad.member_text(alloc)?)?;
    drop(bad);
    Ok(())
}

/// An error with the data null, which is written, and read as none.
fn show_null_data<R: Print>(rt: &R, alloc: Global) -> Result<()> {
    let error = ResponseError {
        code: -1,
        message: String::from_str(alloc, "x")?,
        data: Some(Value::Null),
    };
    let message = Message::from(Response {
        id: RequestId::from(1),
        response_result: Err(error),
    });
    println!(rt; "{}", message.member_text(alloc)?)?;
    let tree = message.to_value(alloc)?;
    let back = Message::from_value(alloc, &tree)?;
    let has_none = matches!(
        &back,
        Some(Message::Response(Response {
            id: _,
            response_result: Err(ResponseError {
                code: -1,
                message: _,
                data: None,
            },),
        },),)
    );
    drop(back);
    println!(rt; "read back without data: {has_none}")?;
    Ok(())
}

fn point_request(alloc: Global) -> Result<Request> {
    let method = String::from_str(alloc, "a")?;
    Ok(calls::request(alloc, RequestId::from(7), method, point(alloc)?)?)
}

/// Params of a type of this crate, written and read, and params that are a number.
fn show_own_params<R: Print>(rt: &R, alloc: Global) -> Result<()> {
    let message = Message::from(point_request(alloc)?);
    println!(rt; "{}", message.member_text(alloc)?)?;
    drop(message);
    match own::point_of(alloc, point_request(alloc)?) {
        Ok((id, point)) => println!(rt; "{id}: {} {}", point.at, point.name)?,
        Err(error) => println!(rt; "{error}")?,
    }
    let number = calls::notification(alloc, String::from_str(alloc, "a")?, 5)?;
    match own::number_of(alloc, number) {
        Ok(number) => println!(rt; "{number}")?,
        Err(error) => println!(rt; "{error}")?,
    }
    Ok(())
}

/// Errors of the port as those of this crate.
fn show_own_errors<R: Print>(rt: &R, alloc: Global) -> Result<()> {
    if let Err(error) = own::point_of(alloc, request(alloc, "b", 5)?) {
        println!(rt; "{error}")?;
    }
    if let Err(error) = own::number_of(alloc, note(alloc, "b")?) {
        println!(rt; "{error}")?;
    }
    let mut inbox = Given { left: 0 };
    let mut outbox = Kept { count: 0 };
    if let Err(error) = own::finish(alloc, &mut inbox, &mut outbox, RequestId::from(1)) {
        println!(rt; "{error}")?;
    }
    Ok(())
}

/// Params that are no value of the type: the error's text up to the reason, which is open.
fn show_misfit<R: Print>(rt: &R, alloc: Global) -> Result<()> {
    if let Err(error) = own::point_of(alloc, request(alloc, "a", 5)?) {
        let text = format!(in alloc; "{error}")?;
        drop(error);
        let is_fixed = text.starts_with("Invalid request\nMethod: a\n error: ");
        println!(rt; "the fixed part of a misfit: {is_fixed}")?;
    }
    Ok(())
}

/// A queue with data of two types, and a request that it makes.
fn show_queue<R: Print>(rt: &R, alloc: Global) -> Result<()> {
    let mut queue: ReqQueue<Point, &str> = calls::queue(alloc);
    let method = String::from_str(alloc, "m")?;
    let sent = calls::register_outgoing(&mut queue.outgoing, method, point(alloc)?, "kept");
    if let Ok(request) = sent {
        println!(rt; "{}", Message::from(request).member_text(alloc)?)?;
    }
    let kept = calls::complete_outgoing(&mut queue.outgoing, RequestId::from(0));
    println!(rt; "{}", kept.unwrap_or("nothing"))?;
    let came = calls::register_incoming(&mut queue.incoming, RequestId::from(7), point(alloc)?);
    println!(rt; "{} {}", came.is_ok(), queue.incoming.has_pending())?;
    Ok(())
}

/// Runs a session from bytes to bytes, by `session` and by `serve` over the boxes of a reader and a writer.
fn show_session<R: Print>(rt: &R, alloc: Global) -> Result<()> {
    let mut reader = SESSION;
    let mut written = Vec::new(alloc);
    let end = calls::session_of(alloc, &mut reader, &mut written, Value::Null, &mut Answers);
    let shut_down = matches!(&end, Ok(SessionEnd::ShutDown));
    drop(end);
    println!(rt; "shut down: {shut_down}, bytes written: {}", written.len())?;
    let mut reader = SESSION;
    let mut served = Vec::new(alloc);
    let end = streams::serve_bytes(alloc, &mut reader, &mut served, &mut Answers);
    let shut_down = matches!(&end, Ok(SessionEnd::ShutDown));
    drop(end);
    println!(rt;
        "shut down: {shut_down}, the same bytes: {}",
        served == written
    )?;
    Ok(())
}

/// Runs a handshake with an inbox and an outbox of this crate, which have only the methods that were asked for.
fn show_boxes<R: Print>(rt: &R, alloc: Global) -> Result<()> {
    let mut inbox = Given { left: 3 };
    let mut outbox = Kept { count: 0 };
    let started = calls::start(alloc, &mut inbox, &mut outbox, &mut Asked, 10);
    let decided = started.is_some();
    drop(started);
    println!(rt;
        "decided: {decided}, events left: {}, messages sent: {}",
        inbox.left, outbox.count
    )?;
    Ok(())
}

/// Runs a handshake from bytes to bytes.
fn show_handshake<R: Print>(rt: &R, alloc: Global) -> Result<()> {
    let (mut reader, mut next) = (SESSION, INITIALIZED);
    let mut written = Vec::new(alloc);
    let started = streams::start(alloc, &mut reader, &mut written, 10);
    let is_started = matches!(&started, Some(Ok(_)));
    drop(started);
    let waited = streams::wait(alloc, &mut reader, 10);
    let is_waited = matches!(&waited, Some(Ok(())));
    drop(waited);
    let finished = streams::finish_in(alloc, &mut next, &mut written, RequestId::from(1), 10);
    let is_finished = matches!(&finished, Some(Ok(())));
    drop(finished);
    println!(rt;
        "started: {is_started}, waited: {is_waited}, finished: {is_finished}, bytes left: {}, bytes written: {}",
        reader.len(),
        written.len()
    )?;
    Ok(())
}

/// Runs the end of a handshake and a shutdown from bytes to bytes.
fn show_shutdown<R: Print>(rt: &R, alloc: Global) -> Result<()> {
    let (mut next, mut last) = (INITIALIZED, EXIT);
    let mut written = Vec::new(alloc);
    let finished = streams::finish_once(alloc, &mut next, &mut written, RequestId::from(1));
    let is_finished = finished.is_ok();
    drop(finished);
    let request = request(alloc, "shutdown", 0)?;
    let ended = streams::shut_down(alloc, &mut last, &mut written, &request);
    let is_shut_down = matches!(&ended, Ok(true));
    drop(ended);
    println!(rt;
        "finished: {is_finished}, shut down: {is_shut_down}, bytes written: {}",
        written.len()
    )?;
    Ok(())
}

/// Reads and writes the messages of a session by the two loops.
fn show_loops<R: Print>(rt: &R, alloc: Global) -> Result<()> {
    let mut reader = SESSION;
    let mut read = Vec::new(alloc);
    let end = shapes::read_end(streams::read_into(alloc, &mut reader, &mut read));
    println!(rt;
        "read end {end}, the same bytes: {}",
        read.as_slice() == SESSION
    )?;
    let mut reader = SESSION;
    let mut written = Vec::new(alloc);
    let mut spent = Vec::new(alloc);
    let end = streams::write_from(alloc, &mut reader, &mut written, &mut spent);
    let end = shapes::write_end(end);
    println!(rt;
        "write end {end}, the same bytes: {} {}",
        written == read,
        spent == read
    )?;
    Ok(())
}

/// Two peers: one request, which arrives.
fn show_world<R: Print>(rt: &R, alloc: Global) -> Result<()> {
    let mut steps = Vec::new(alloc);
    steps.push(Step::Register {
        side: Side::A,
        method: String::from_str(alloc, "p")?,
        params: Value::Null,
        payload: 7,
    })?;
    steps.push(Step::Pass {
        to: Side::B,
        bytes: 100,
    })?;
    steps.push(Step::Take {
        side: Side::B,
        label: 4,
    })?;
    let ran = calls::run(alloc, steps)?;
    for outcome in ran.1.iter() {
        println!(rt; "outcome {}", shapes::outcome(outcome))?;
    }
    drop(ran);
    Ok(())
}
