//! Several sessions on one thread, as an event loop runs them: no session waits, reads or writes. With a line `NAME BYTES`
//! of standard input, these bytes of a client arrive, in which `\r` and `\n` mean a line's end. With `NAME closed` the
//! client sends nothing more, and with `NAME timeout` 30 seconds have passed.
#![tactic(auto)]

use anyhow::Result;
use lsp_message::{Limits, Notification, Request, ResponseError};
use lsp_session::machine::ByteSession;
use lsp_session::{Handler, HandlerApplication};
use serde_json::{Value, json};
use std::alloc::{AllocError, Global};
use std::collections::BTreeMap;
use std::io;

/// Answers each request with the number of requests so far.
#[derive(Drop)]
struct Counter {
    requests: u32,
}

impl Handler for Counter {
    fn answer(&mut self, _request: &Request) -> Result<Result<Value, ResponseError>, AllocError> {
        self.requests = self.requests.saturating_add(1);
        Ok(Ok(Value::from(self.requests)))
    }

    fn note(&mut self, _notification: &Notification) -> Result<(), AllocError> {
        Ok(())
    }
}

type Session = ByteSession<HandlerApplication<Counter>>;

/// Makes a session whose content parts have at most 1000 bytes. It takes no message while 1000 bytes of output wait.
fn new_session(alloc: Global) -> Result<Session, AllocError> {
    let service = HandlerApplication::new(alloc, json!(in alloc; {})?, Counter { requests: 0 });
    let limits = Limits::new(Limits::HEADER_BYTES, 1000);
    Ok(ByteSession::new(alloc, service, limits, 1000))
}

/// Passes bytes of a client to its session, and sends the output.
fn receive<R: Print>(
    rt: &R,
    alloc: Global,
    name: &str,
    session: &mut Session,
    bytes: &[u8],
) -> Result<()> {
    let mut rest = bytes;
    for _ in 0..bytes.len() {
        let count = session.receive(rest);
        rest = &rest[count..];
        let output = std::str::from_utf8(session.output())?;
        if !output.is_empty() {
            let output = output.replace(alloc, "\r\n", "\\r\\n")?;
            println!(rt; "{name} {output}")?;
        }
        session.sent(session.output().len());
    }
    Ok(())
}

fn main(rt: HostRuntime) -> Result<()> {
    let alloc = rt.alloc();
    let mut sessions: BTreeMap<String, Session> = BTreeMap::new(alloc);
    for line in io::read_to_string(alloc, rt.reader())?.lines() {
        let (name, event) = line.split_once(" ").unwrap_or((line, ""));
        if !sessions.contains_key(name) {
            sessions.insert(String::from_str(alloc, name)?, new_session(alloc)?)?;
        }
        let Some(session) = sessions.get_mut(name) else {
            continue;
        };
        match event {
            "closed" => session.closed(),
            "timeout" => session.timeout(),
            text => {
                let text = text
                    .replace(alloc, "\\r", "\r")?
                    .replace(alloc, "\\n", "\n")?;
                receive(&rt, alloc, name, session, text.as_bytes())?;
            }
        }
    }
    show_ends(&rt, sessions)
}

/// Shows how each session ended.
fn show_ends<R: Print>(rt: &R, sessions: BTreeMap<String, Session>) -> Result<()> {
    for (name, session) in sessions {
        let (answer, _) = session.into_parts();
        match answer {
            Ok(end) => println!(rt; "{name} ended: {end:?}")?,
            Err(fault) => println!(rt; "{name} failed: {fault}")?,
        }
    }
    Ok(())
}
