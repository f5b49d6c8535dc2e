// The calls over lists. The events of a row are member texts or `timeout`, `; ` between them.
//
// | Row | What is called |
// |---|---|
// | `calls NAMES \| ANSWERS \| ROOM \| EVENTS` | calls of the lifecycle, one after another, with a gate that answers `y` or `n` |
// | `serve ROOM \| EVENTS` | `serve` of the echo |
// | `woken ROOM \| EVENTS` | `serve_service` of the server that speaks, with an inbox that is ready to wake it before each event |
// | `served ROOM \| EVENTS` | the same of a server that is not woken, with an inbox that never wakes |
// | `writes FILLS ROOM \| EVENTS` | `write_loop`, whose writer fails once after so many bytes |
//
// A name of `calls` is `start`, `wait`, `finish` or the method of a request that may be `shutdown`. The first three may have a count
// of turns, as `start:10`; `finish` without one waits without limit. If a name begins with `>`, the inbox is closed until the call
// has sent something.
use crate::boxes::{Events, Habit, Sent};
use crate::messages::message_in;
use crate::said::{Said, Stepped};
use crate::servers::{Echo, Talker};
use lsp_acts::ServerApplication;
use lsp_message::{Request, RequestId, WriteFault};
use lsp_session::{
    Event, ListGate, ListInbox, ListOutbox, ProtocolError, SessionEnd, WriteEnd, finish,
    finish_within, serve, serve_service, shutdown, start_within, wait_within, write_loop,
};
use serde_json::{Map, Value};
use std::alloc::{AllocError, Global};
use std::cell::Cell;
use std::fmt::Write as _;
use std::io::{ErrorKind, Write};
use std::{io, mem};

/// A step is an event that is added.
impl Stepped for ListInbox {
    fn step(&mut self, said: &mut Said, step: &str) {
        match step {
            "" => {}
            "timeout" => said.kept(self.events.push_back(Event::Timeout)),
            text => match message_in(said.alloc, text) {
                Ok(Some(message)) => said.kept(self.events.push_back(Event::Message(message))),
                Ok(None) => said.unknown(),
                Err(_) => said.is_short = true,
            },
        }
    }
}

/// How many messages an outbox takes, and how many bytes a writer, without a new allocation. If one fails in a call,
/// the reply to `shutdown` may be missing, and a message that is passed on. Neither is a refusal.
const MESSAGES: usize = 32;

const BYTES: usize = 4096;

/// The inbox, the outbox and the gate of a row, and the id that the last start returned.
#[derive(Drop)]
struct Boxes<'a> {
    inbox: Events<'a>,
    outbox: Sent<'a>,
    gate: ListGate,
    id: RequestId,
}

impl<'a> Boxes<'a> {
    /// Makes empty ones. The outbox takes its messages without a new allocation.
    fn new(said: &mut Said, room: &str, habit: Habit, is_some: &'a Cell<bool>) -> Boxes<'a> {
        let alloc = said.alloc;
        let room = said.count_in(room);
        let sent = said.made(Vec::with_capacity(alloc, MESSAGES), Vec::new(alloc));
        Boxes {
            inbox: Events {
                list: ListInbox::new(alloc),
                habit,
                sent: is_some,
                is_ready: true,
                seconds: 0,
            },
            outbox: Sent {
                list: ListOutbox { sent, room },
                is_some,
            },
            gate: ListGate::new(alloc),
            id: RequestId::from(1),
        }
    }
}

/// Says the results of the calls; what was sent, what is left of the events and the answers, and for how long the last
/// wait was.
pub fn called(said: &mut Said, row: &str) {
    let (names, row) = said.cut(row, " | ");
    let (answers, row) = said.cut(row, " | ");
    let (room, events) = said.cut(row, " | ");
    let sent = Cell::new(false);
    let mut boxes = Boxes::new(said, room, Habit::Gives, &sent);
    call_row(said, &mut boxes, names, answers, events);
    drop(boxes);
}

fn call_row(said: &mut Said, boxes: &mut Boxes<'_>, names: &str, answers: &str, events: &str) {
    add_answers(said, &mut boxes.gate, answers);
    said.steps(events, &mut boxes.inbox.list);
    call_all(said, boxes, names);
    said.messages("sent ", boxes.outbox.list.sent.as_slice());
    said.push("; left ");
    said.show(boxes.inbox.list.events.len());
    said.push(" and ");
    said.show(boxes.gate.answers.len());
    said.push("; ");
    said.show(boxes.inbox.seconds);
    said.push(" seconds");
}

fn add_answers(said: &mut Said, gate: &mut ListGate, answers: &str) {
    for answer in answers.as_bytes() {
        said.kept(gate.answers.push_back(*answer == b'y'));
    }
}

fn call_all(said: &mut Said, boxes: &mut Boxes<'_>, names: &str) {
    for name in names.split(' ') {
        said.push(name);
        said.push(" ");
        call(said, boxes, name);
        said.push("; ");
    }
}

fn call(said: &mut Said, boxes: &mut Boxes<'_>, name: &str) {
    let (name, turns) = name.split_once(":").unwrap_or((name, "0"));
    let turns = said.count_in(turns) as u64;
    boxes.outbox.is_some.set(false);
    let (habit, name) = match name.strip_prefix(">") {
        Some(name) => (Habit::Follows, name),
        None => (Habit::Gives, name),
    };
    boxes.inbox.habit = habit;
    match name {
        "start" => start(said, boxes, turns),
        "wait" => wait(said, boxes, turns),
        "finish" => end(said, boxes, turns),
        method => shut(said, boxes, method),
    }
}

/// Calls `start_within`, and says the id and the params of a start.
fn start(said: &mut Said, boxes: &mut Boxes<'_>, turns: u64) {
    let Boxes {
        inbox,
        outbox,
        gate,
        id,
    } = boxes;
    match start_within(said.alloc, inbox, outbox, gate, turns) {
        Some(Ok((came, params))) => {
            let told = write!(said.text, "{came} ");
            said.note(told);
            said.show(params);
            drop(mem::replace(id, came));
        }
        Some(Err(error)) => say_error(said, error),
        None => said.push("undecided"),
    }
}

fn wait(said: &mut Said, boxes: &mut Boxes<'_>, turns: u64) {
    let Boxes { inbox, gate, .. } = boxes;
    let answer = wait_within(said.alloc, inbox, gate, turns);
    say_done(said, answer)
}

/// Calls `finish`, or with a count of turns `finish_within`.
fn end(said: &mut Said, boxes: &mut Boxes<'_>, turns: u64) {
    let Boxes {
        inbox,
        outbox,
        gate,
        id,
    } = boxes;
    let id = said.made(id.clone(), RequestId::from(0));
    let answer = match turns {
        0 => Some(finish(said.alloc, inbox, outbox, id, Value::Null)),
        _ => finish_within(said.alloc, inbox, outbox, gate, id, Value::Null, turns),
    };
    say_done(said, answer)
}

fn say_done(said: &mut Said, answer: Option<Result<(), ProtocolError>>) {
    match answer {
        Some(Ok(())) => said.push("done"),
        Some(Err(error)) => say_error(said, error),
        None => said.push("undecided"),
    }
}

/// Says the text of the error. An allocation that failed is no answer.
fn say_error(said: &mut Said, error: ProtocolError) {
    if error.is_out_of_memory() {
        said.is_short = true;
    }
    said.show(error);
}

/// Says the result of `shutdown` for a request of this method.
fn shut(said: &mut Said, boxes: &mut Boxes<'_>, method: &str) {
    let last = said.text_of("last");
    let method = said.text_of(method);
    let request = Request {
        id: RequestId::from(last),
        method,
        params: Value::Null,
    };
    let Boxes { inbox, outbox, .. } = boxes;
    let answer = shutdown(said.alloc, inbox, outbox, &request);
    drop(request);
    match answer {
        Ok(is_last) => said.show(is_last),
        Err(error) => say_error(said, error),
    }
}

/// Says how a session on lists ends, and what it sent.
pub fn session(said: &mut Said, word: &str, row: &str) {
    let (room, events) = said.cut(row, " | ");
    let sent = Cell::new(false);
    let habit = match word {
        "woken" => Habit::Wakes,
        _ => Habit::Gives,
    };
    let mut boxes = Boxes::new(said, room, habit, &sent);
    session_row(said, word, &mut boxes, events);
    drop(boxes);
}

fn session_row(said: &mut Said, word: &str, boxes: &mut Boxes<'_>, events: &str) {
    said.steps(events, &mut boxes.inbox.list);
    let mut echo = Echo::new(said.alloc);
    say_end(said, word, boxes, &mut echo);
    said.messages("; sent ", boxes.outbox.list.sent.as_slice());
    said.push("; ");
    said.show(echo.asked);
    said.push(" asked, ");
    said.show(echo.told);
    said.push(" told");
    drop(echo);
}

fn say_end(said: &mut Said, word: &str, boxes: &mut Boxes<'_>, echo: &mut Echo) {
    let alloc = said.alloc;
    let Boxes { inbox, outbox, .. } = boxes;
    let ended = match word {
        "serve" => serve(alloc, inbox, outbox, Value::Object(Map::new(alloc)), echo),
        "woken" => woken(alloc, inbox, outbox),
        "served" => served(alloc, inbox, outbox),
        _ => return said.unknown(),
    };
    match ended {
        Ok(SessionEnd::ShutDown) => said.push("shut down"),
        Ok(SessionEnd::Closed) => said.push("closed"),
        Err(error) => say_error(said, error),
    }
}

fn woken(
    alloc: Global,
    inbox: &mut Events<'_>,
    outbox: &mut Sent<'_>,
) -> Result<SessionEnd, ProtocolError> {
    let mut talker = Talker::new(alloc);
    talker.tells_wakes = true;
    let mut service = ServerApplication::new(alloc, talker);
    let served = serve_service(alloc, inbox, outbox, &mut service);
    drop(service);
    served.answer
}

fn served(
    alloc: Global,
    inbox: &mut Events<'_>,
    outbox: &mut Sent<'_>,
) -> Result<SessionEnd, ProtocolError> {
    let mut service = ServerApplication::new(alloc, Talker::new(alloc));
    let served = serve_service(alloc, inbox, outbox, &mut service);
    drop(service);
    served.answer
}

/// Says what is written of the events, and what is passed on afterwards.
pub fn written(said: &mut Said, row: &str) {
    let (counts, events) = said.cut(row, " | ");
    let (fills, room) = said.cut(counts, " ");
    let fills = said.count_in(fills);
    let sent = Cell::new(false);
    let mut boxes = Boxes::new(said, room, Habit::Gives, &sent);
    write_row(said, &mut boxes, events, fills);
    drop(boxes);
}

fn write_row(said: &mut Said, boxes: &mut Boxes<'_>, events: &str, fills: usize) {
    said.steps(events, &mut boxes.inbox.list);
    write_all(said, boxes, fills);
    said.messages("; on ", boxes.outbox.list.sent.as_slice());
    said.push("; left ");
    said.show(boxes.inbox.list.events.len());
}

/// Keeps the bytes that are written. It fails after this many.
#[derive(Drop)]
struct Filling {
    taken: Vec<u8>,
    room: usize,
}

impl Write for Filling {
    fn write(&mut self, buf: &[u8]) -> io::Result<usize> {
        let room = self.room.saturating_sub(self.taken.len());
        let count = buf.len().min(room);
        if count == 0 {
            return Err(io::Error::from(ErrorKind::BrokenPipe));
        }
        self.taken.extend_from_slice(&buf[..count])?;
        Ok(count)
    }

    fn flush(&mut self) -> io::Result<()> {
        Ok(())
    }
}

fn write_all(said: &mut Said, boxes: &mut Boxes<'_>, fills: usize) {
    let taken = said.made(Vec::with_capacity(said.alloc, BYTES), Vec::new(said.alloc));
    let mut writer = Filling { taken, room: fills };
    let Boxes { inbox, outbox, .. } = boxes;
    let end = write_loop(said.alloc, inbox, &mut writer, outbox);
    say_write_end(said, end, writer.taken.as_slice());
    drop(writer);
}

fn say_write_end(said: &mut Said, end: WriteEnd, taken: &[u8]) {
    if matches!(end, WriteEnd::Fault(WriteFault::Memory)) {
        said.is_short = true;
    }
    said.debug(end);
    said.bytes("; wrote ", taken)
}
