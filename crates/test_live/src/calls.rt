// The calls over the reader and the writer on one thread. Each call of the library that is generic stands in a function of its own, since
// what it brings is proved where it is called.
use crate::attempt::{Attempt, Stop};
use crate::devices::{Sink, Source};
use crate::escapes::{escape, unescape};
use crate::servers::Talker;
use crate::sessions::{
    Run, add_counts, attempt, echo, lacks_memory, session_end, sink, source, told,
};
use crate::signals::Signals;
use crate::table::{Call, Device, Given};
use lsp_acts::ServerApplication;
use lsp_message::{ByteTrace, Front, Limits, Message, ReadFault, WriteFault, front, write_frames};
use lsp_session::{
    Application, BadContentPolicy, EndOnBadContent, Event, FrameOutbox, Inbox, ListOutbox, Outbox,
    ReadEnd, SendFault, SessionEnd, SessionFault, SkipAndCount, SkipSilently, StreamInbox,
    StreamTransport, Transcript, read_loop, read_loop_within, session, session_within,
};
use serde_json::{Map, Value};
use std::alloc::{AllocError, Global};
use std::sync::Arc;

/// A run, and its devices.
#[derive(Drop)]
struct Trial {
    alloc: Global,
    run: Run,
    reader: Source,
    writer: Sink,
}

/// Returns the result of a run on one thread.
pub fn attempt_alone(alloc: Global, run: Run, given: &Given) -> Result<Attempt, Stop> {
    let signals = Arc::new(alloc, Signals::new())?;
    let mut trial = Trial {
        alloc,
        run,
        reader: source(alloc, run, given, &signals)?,
        writer: sink(alloc, run, &signals)?,
    };
    let came = call(&mut trial);
    drop(trial);
    came
}

fn call(trial: &mut Trial) -> Result<Attempt, Stop> {
    match trial.run.call {
        Call::Front => fronted(trial),
        Call::Read => read(trial),
        Call::Inbox => received(trial),
        Call::Loop => handed_on(trial),
        Call::Write => written(trial),
        Call::Frames => written_at_once(trial),
        Call::Outbox => sent(trial),
        Call::Session => handled(trial),
        Call::Speaks => spoken(trial),
        Call::Line => spoken_over_transport(trial),
        Call::Tolerant => spoken_woken(trial),
        _ => Err(Stop::Table),
    }
}

fn fronted(trial: &Trial) -> Result<Attempt, Stop> {
    let said = match front(trial.reader.left()) {
        Front::Whole(length) => format!(in trial.alloc; "whole, {length} bytes"),
        Front::More => String::from_str(trial.alloc, "more"),
        Front::Fault(number) => format!(in trial.alloc; "read fault {number}"),
    };
    Ok(Attempt::came(said?))
}

/// Returns the result of one read, and what it leaves.
fn read(trial: &mut Trial) -> Result<Attempt, Stop> {
    let alloc = trial.alloc;
    let read = match (trial.run.device, trial.run.limit()) {
        (Device::Headers, _) => {
            let mut taken = ByteTrace::new();
            Message::read_traced(alloc, &mut trial.reader, trial.run.limits(), &mut taken)
        }
        (_, Some(limit)) => Message::read_within(alloc, &mut trial.reader, limit),
        _ => Message::read(alloc, &mut trial.reader),
    };
    let came = read_text(alloc, read)?;
    let left = escape(alloc, trial.reader.left())?;
    let said = [came.as_str(), "; left ", left.as_str()].join(alloc, "")?;
    Ok(attempt(trial.run, came.as_str(), said))
}

/// Returns the message that was read, or the fault, with the kind of the reader's error.
fn read_text(
    alloc: Global,
    read: Result<Option<Message>, ReadFault>,
) -> Result<String, AllocError> {
    match read {
        Ok(Some(message)) => message.member_text(alloc),
        Ok(None) => String::from_str(alloc, "the end"),
        Err(ReadFault::Input(kind)) => {
            format!(in alloc; "{} by {kind:?}", ReadFault::Input(kind))
        }
        Err(fault) => format!(in alloc; "{fault}"),
    }
}

/// Returns the meaning of a content part in a frame, and as a tree if that differs.
pub fn meaning(alloc: Global, escaped: &str) -> Result<Attempt, Stop> {
    let body = unescape(alloc, escaped)?;
    let mut frame = format!(in alloc; "Content-Length: {}\r\n\r\n", body.len())?.into_bytes();
    frame.extend_from_slice(body.as_slice())?;
    let in_frame = read_text(alloc, Message::read(alloc, &mut frame.as_slice()))?;
    if lacks_memory(in_frame.as_str()) {
        return Ok(Attempt::refused(in_frame));
    }
    let as_tree = tree_text(alloc, body.as_slice())?;
    if in_frame == as_tree {
        return Ok(Attempt::came(in_frame));
    }
    Ok(Attempt::came([in_frame.as_str(), ", ", as_tree.as_str()].join(alloc, "")?))
}

/// Returns the message of a tree, if these bytes are one.
fn tree_text(alloc: Global, body: &[u8]) -> Result<String, AllocError> {
    match Value::from_slice(alloc, body) {
        Ok(tree) => match Message::from_value(alloc, &tree)? {
            Some(message) => message.member_text(alloc),
            None => String::from_str(alloc, "no message"),
        },
        Err(error) if error.is_memory() => Err(AllocError),
        Err(_) => String::from_str(alloc, "no message"),
    }
}

/// The most messages that are read of a text.
const MOST: usize = 20;

/// Returns the events of an inbox on the reader, how it ended, and whether it is closed then.
fn received(trial: &mut Trial) -> Result<Attempt, Stop> {
    let alloc = trial.alloc;
    let mut inbox = StreamInbox::new(alloc, &mut trial.reader);
    let came = events(alloc, &mut inbox)?;
    let end = inbox.end();
    let is_closed = matches!(inbox.receive(), Event::Closed);
    Ok(Attempt::came(format!(in alloc; "{came} {end:?}, closed {is_closed}")?))
}

/// Returns the messages up to the first event that is none.
fn events<I: Inbox>(alloc: Global, inbox: &mut I) -> Result<String, AllocError> {
    let mut came = String::new(alloc);
    for _ in 0..MOST {
        match inbox.receive_for(1) {
            Event::Message(message) => add_text(&mut came, message.member_text(alloc))?,
            Event::Timeout => break,
            Event::Closed => break,
        }
    }
    Ok(came)
}

fn add_text(all: &mut String, text: Result<String, AllocError>) -> Result<(), AllocError> {
    all.push_str(text?.as_str())
}

/// Returns what a loop passes on, how it ends, and how many bytes it leaves.
fn handed_on(trial: &mut Trial) -> Result<Attempt, Stop> {
    let alloc = trial.alloc;
    let room = match trial.run.device {
        Device::Fills => trial.run.count,
        _ => usize::MAX,
    };
    let mut outbox = ListOutbox::new(alloc, room);
    let end = match trial.run.limit() {
        Some(limit) => read_loop_within(alloc, &mut trial.reader, &mut outbox, limit),
        None => read_loop(alloc, &mut trial.reader, &mut outbox),
    };
    let end = format!(in alloc; "{end:?}")?;
    let mut sent = String::new(alloc);
    for message in outbox.sent.as_slice() {
        add_text(&mut sent, message.member_text(alloc))?;
    }
    let left = trial.reader.left().len();
    let said = format!(in alloc; "{end}; sent {sent}; left {left}")?;
    Ok(attempt(trial.run, end.as_str(), said))
}

/// Returns the result of writing the first message, and the bytes that the writer got.
fn written(trial: &mut Trial) -> Result<Attempt, Stop> {
    match next_message(trial.alloc, &mut trial.reader) {
        Some(message) => {
            let written = message.write(trial.alloc, &mut trial.writer);
            got_after(trial, written)
        }
        None => Err(Stop::Table),
    }
}

/// Reads the next message. There is none at the end, and after a fault.
fn next_message(alloc: Global, reader: &mut Source) -> Option<Message> {
    match Message::read(alloc, reader) {
        Ok(message) => message,
        Err(_) => None,
    }
}

/// Returns the result of writing all frames at once, and the bytes that the writer got.
fn written_at_once(trial: &mut Trial) -> Result<Attempt, Stop> {
    match str::from_utf8(trial.reader.left()) {
        Ok(frames) => {
            let written = write_frames(&mut trial.writer, frames);
            got_after(trial, written)
        }
        Err(_) => Err(Stop::Table),
    }
}

fn got_after(trial: &Trial, written: Result<(), WriteFault>) -> Result<Attempt, Stop> {
    let came = format!(in trial.alloc; "{written:?}")?;
    got(trial, came.as_str())
}

/// Returns a result, and the bytes that the writer got.
fn got(trial: &Trial, came: &str) -> Result<Attempt, Stop> {
    let bytes = escape(trial.alloc, trial.writer.taken.as_slice())?;
    let flushes = trial.writer.flushes;
    let said = format!(in trial.alloc; "{came}; wrote {bytes}, {flushes} flushes")?;
    Ok(attempt(trial.run, came, said))
}

/// Returns the result of each send to an outbox on the writer, and the bytes that the writer got.
fn sent(trial: &mut Trial) -> Result<Attempt, Stop> {
    let alloc = trial.alloc;
    let mut outbox = FrameOutbox::new(alloc, &mut trial.writer);
    let sent = all_sent(alloc, &mut trial.reader, &mut outbox)?;
    let fault = outbox.fault();
    drop(outbox);
    let came = format!(in alloc; "{sent}{fault:?}")?;
    got(trial, came.as_str())
}

/// Returns for each message whether it was taken or returned.
fn all_sent<O: Outbox>(
    alloc: Global,
    reader: &mut Source,
    outbox: &mut O,
) -> Result<String, AllocError> {
    let mut all = String::new(alloc);
    for _ in 0..MOST {
        let Some(message) = next_message(alloc, reader) else {
            break;
        };
        match outbox.send(message) {
            Ok(()) => all.push_str("taken, ")?,
            Err(SendFault::Closed(message)) => {
                add_text(&mut all, message.member_text(alloc))?;
                all.push_str(" back, ")?;
            }
            Err(SendFault::Memory(_)) => return Err(AllocError),
        }
    }
    Ok(all)
}

/// Returns how a session of the handler ends, and what it wrote.
fn handled(trial: &mut Trial) -> Result<Attempt, Stop> {
    let alloc = trial.alloc;
    let mut echo = echo(alloc, trial.run, &trial.reader.signals)?;
    let none = Value::Object(Map::new(alloc));
    let Trial { reader, writer, .. } = trial;
    let end = match trial.run.limit() {
        Some(limit) => session_within(alloc, reader, writer, none, &mut echo, limit),
        None => session(alloc, reader, writer, none, &mut echo),
    };
    drop(echo);
    ended(trial, end)
}

/// Returns how a session ended, and what it wrote.
fn ended(trial: &Trial, answer: Result<SessionEnd, SessionFault>) -> Result<Attempt, Stop> {
    let end = session_end(trial.alloc, answer)?;
    Ok(told(trial.alloc, trial.run, end.as_str(), &trial.writer)?)
}

/// Makes the server that sends first.
fn talker(trial: &Trial) -> Result<Talker, AllocError> {
    Ok(Talker::new(trial.alloc, Arc::try_clone(&trial.reader.signals)?))
}

/// Returns how a session of the server that sends first ends, and what it wrote.
fn spoken(trial: &mut Trial) -> Result<Attempt, Stop> {
    let talker = talker(trial)?;
    let end = if trial.run.is_limited() {
        limited(trial, talker, &mut EndOnBadContent)
    } else {
        unlimited(trial, talker)
    };
    ended(trial, end)
}

fn limited<L: BadContentPolicy>(
    trial: &mut Trial,
    talker: Talker,
    policy: &mut L,
) -> Result<SessionEnd, SessionFault> {
    let limits = trial.run.limits();
    let mut queued = ServerApplication::new(trial.alloc, talker);
    let end = served(trial, &mut queued, policy, limits);
    drop(queued);
    end
}

fn unlimited(trial: &mut Trial, talker: Talker) -> Result<SessionEnd, SessionFault> {
    let mut queued = ServerApplication::new(trial.alloc, talker);
    let end = served(trial, &mut queued, &mut EndOnBadContent, Limits::none());
    drop(queued);
    end
}

/// Returns how a session of an application on the reader and the writer ends.
fn served<A: Application, L: BadContentPolicy>(
    trial: &mut Trial,
    application: &mut A,
    policy: &mut L,
    limits: Limits,
) -> Result<SessionEnd, SessionFault> {
    let alloc = trial.alloc;
    let Trial { reader, writer, .. } = trial;
    let mut transcript = Transcript::new();
    let mut transport = StreamTransport::within(
        alloc,
        reader,
        writer,
        policy,
        limits,
        &mut transcript,
    );
    transport.serve(application)
}

/// Returns the same with one value that holds the reader and the writer.
fn spoken_over_transport(trial: &mut Trial) -> Result<Attempt, Stop> {
    let alloc = trial.alloc;
    let talker = talker(trial)?;
    let mut policy = EndOnBadContent;
    let mut transcript = Transcript::new();
    let mut transport = StreamTransport::within(
        alloc,
        &mut trial.reader,
        &mut trial.writer,
        &mut policy,
        Limits::none(),
        &mut transcript,
    );
    let mut queued = ServerApplication::new(alloc, talker);
    let end = transport.serve(&mut queued);
    drop(queued);
    drop(transport);
    ended(trial, end)
}

/// Returns the same if content parts are skipped, and how many of each kind: not UTF-8, no JSON, no message, lists.
/// With a limit the server is notified of none.
fn spoken_woken(trial: &mut Trial) -> Result<Attempt, Stop> {
    let talker = talker(trial)?;
    if trial.run.is_limited() {
        let end = limited(trial, talker, &mut SkipSilently);
        return ended(trial, end);
    }
    let mut counts = SkipAndCount::new();
    let end = woken(trial, talker, &mut counts);
    let mut came = ended(trial, end)?;
    add_counts(&mut came, counts)?;
    Ok(came)
}

fn woken(
    trial: &mut Trial,
    mut talker: Talker,
    counts: &mut SkipAndCount,
) -> Result<SessionEnd, SessionFault> {
    talker.tells_wakes = true;
    let mut queued = ServerApplication::new(trial.alloc, talker);
    let end = served(trial, &mut queued, counts, Limits::none());
    drop(queued);
    end
}
