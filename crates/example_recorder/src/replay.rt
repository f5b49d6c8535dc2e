// What is done with a recording.
use crate::line::{message_of, read_line};
use anyhow::{Context, Error, Result, bail};
use crossbeam_channel::{Receiver, Sender};
use lsp_server::{Connection, ErrorCode, Message, RequestId, Response};
use lsp_watch::Direction;
use serde_json::Value;
use std::alloc::{AllocError, Global};
use std::io::{self, BufRead, Write};
use std::sync::Wait;
use std::time::{Clock, Duration};

/// How many seconds the replay waits for a message.
const PATIENCE: u64 = 10;

/// Writes the client's messages of a recording as frames.
pub fn write_frames<B: BufRead, W: Write>(
    alloc: Global,
    recording: &mut B,
    writer: &mut W,
) -> Result<()> {
    let mut line = Vec::new(alloc);
    for _ in 0..u64::MAX {
        match read_line(alloc, recording, &mut line)? {
            Some((Direction::ToServer, body)) => write_frame(body, writer)?,
            Some((Direction::ToClient, _)) => {}
            None => break,
        }
    }
    Ok(writer.flush()?)
}

/// Writes a frame with this content part, which may be none of a message.
fn write_frame<W: Write>(content: &[u8], writer: &mut W) -> io::Result<()> {
    write!(writer, "Content-Length: {}\r\n\r\n", content.len())?;
    writer.write_all(content)
}

/// Sends the client's messages of a recording, compares the server's messages with those of the recording, and counts them.
///
/// The replay waits for each message of the server. A reply may arrive earlier or later than in the recording, since requests may take
/// other times. So may parts of a result, those of one token in their order. The server's other notifications and requests keep their
/// order. Work done progress (`$/progress`) is not compared. A request that the client cancels may get the recorded reply, or -32800 (LSP
/// 3.17, "Cancellation Support"). The first difference goes to `report`, and is an error. The connection is closed at the end.
pub fn compare<R: Wait + Clock + AllocGlobal, B: BufRead, W: Write>(
    rt: &R,
    recording: &mut B,
    connection: Connection,
    report: &mut W,
) -> Result<u64> {
    let mut replay = Replay::new(rt.alloc());
    let played = replay.play(rt, recording, &connection, report);
    let Connection { sender, receiver } = connection;
    drop(sender);
    let counted = match played {
        Ok(()) => replay.end(rt, &receiver, report),
        Err(error) => Err(error),
    };
    drop(replay);
    counted
}

/// What a replay keeps between two lines.
#[derive(Drop)]
struct Replay {
    /// The server's messages that came before their places.
    early: Vec<Message>,
    /// The requests that the client cancelled.
    cancelled: Vec<RequestId>,
    /// How many messages of the server were compared.
    count: u64,
}

impl Replay {
    fn new(alloc: Global) -> Replay {
        Replay {
            early: Vec::new(alloc),
            cancelled: Vec::new(alloc),
            count: 0,
        }
    }

    /// Plays all lines.
    fn play<R: Wait + Clock + AllocGlobal, B: BufRead, W: Write>(
        &mut self,
        rt: &R,
        recording: &mut B,
        connection: &Connection,
        report: &mut W,
    ) -> Result<()> {
        let mut line = Vec::new(rt.alloc());
        for _ in 0..u64::MAX {
            match read_line(rt.alloc(), recording, &mut line)? {
                Some((direction, body)) => self.play_line(rt, direction, body, connection, report)?,
                None => break,
            }
        }
        Ok(())
    }

    fn play_line<R: Wait + Clock + AllocGlobal, W: Write>(
        &mut self,
        rt: &R,
        direction: Direction,
        body: &[u8],
        connection: &Connection,
        report: &mut W,
    ) -> Result<()> {
        let message = message_of(rt.alloc(), body)?;
        match direction {
            Direction::ToServer => self.send(rt, &connection.sender, message),
            Direction::ToClient => {
                let met = self.meet(rt, &connection.receiver, &message, report);
                drop(message);
                met
            }
        }
    }

    /// Sends a message of the client's.
    fn send<R: Wait>(&mut self, rt: &R, sender: &Sender<Message>, message: Message) -> Result<()> {
        match self.keep_cancelled(&message) {
            Ok(()) => sender.send(rt, message).ok().context("the server is gone"),
            Err(fault) => {
                drop(message);
                Err(Error::from(fault))
            }
        }
    }

    fn keep_cancelled(&mut self, message: &Message) -> Result<(), AllocError> {
        if let Some(id) = cancelled_by(message)? {
            self.cancelled.push(id)?;
        }
        Ok(())
    }

    /// Waits for the server's message in the place of a recorded one, and compares the two.
    fn meet<R: Wait + Clock + AllocGlobal, W: Write>(
        &mut self,
        rt: &R,
        receiver: &Receiver<Message>,
        recorded: &Message,
        report: &mut W,
    ) -> Result<()> {
        if is_of_work_done(recorded) {
            return Ok(());
        }
        let found = find(rt, receiver, &mut self.early, recorded)?;
        let is_cancelled = is_by_cancellation(found.as_ref(), recorded, self.cancelled.as_slice());
        let compared = if is_cancelled {
            Ok(())
        } else {
            expect(rt.alloc(), found.as_ref(), Some(recorded), report)
        };
        drop(found);
        self.count = self.count.saturating_add(1);
        compared
    }

    /// Checks that the server sends nothing more, and returns how many messages were compared.
    fn end<R: Wait + Clock + AllocGlobal, W: Write>(
        &self,
        rt: &R,
        receiver: &Receiver<Message>,
        report: &mut W,
    ) -> Result<u64> {
        let more = receive(rt, receiver);
        let first = self.early.first().or(more.as_ref());
        let compared = expect(rt.alloc(), first, None, report);
        drop(more);
        compared?;
        Ok(self.count)
    }
}

/// The server's message that takes the place of a recorded one. Those that come before it are kept in `early`, for their own places.
fn find<R: Wait + Clock>(
    rt: &R,
    receiver: &Receiver<Message>,
    early: &mut Vec<Message>,
    recorded: &Message,
) -> Result<Option<Message>> {
    if let Some(at) = early.iter().position(|it| is_in_place_of(it, recorded)) {
        return Ok(Some(early.remove(at)));
    }
    for _ in rt.forever() {
        let Some(message) = receive(rt, receiver) else {
            break;
        };
        if is_in_place_of(&message, recorded) {
            return Ok(Some(message));
        }
        early.push(message)?;
    }
    Ok(None)
}

/// The server's next message that is compared.
fn receive<R: Wait + Clock>(rt: &R, receiver: &Receiver<Message>) -> Option<Message> {
    for _ in rt.forever() {
        let patience = Duration::from_secs(PATIENCE);
        let message = receiver.recv_timeout(rt, patience).ok()?;
        if !is_of_work_done(&message) {
            return Some(message);
        }
        drop(message);
    }
    None
}

/// The params of a notification of progress.
fn progress_in(message: &Message) -> Option<&Value> {
    match message {
        Message::Notification(told) if told.method.as_str() == "$/progress" => Some(&told.params),
        _ => None,
    }
}

/// Whether a message says how far a request is, and is no part of a result (LSP 3.17, "Work Done Progress").
fn is_of_work_done(message: &Message) -> bool {
    progress_in(message).is_some_and(|params| params.pointer("/value/kind").is_some())
}

/// The request that the client cancels by a message.
fn cancelled_by(message: &Message) -> Result<Option<RequestId>, AllocError> {
    match message {
        Message::Notification(sent) if sent.method.as_str() == "$/cancelRequest" => {
            match sent.params.get("id") {
                Some(id) => RequestId::from_value(id),
                None => Ok(None),
            }
        }
        _ => Ok(None),
    }
}

/// Whether both are replies to a request that the client cancelled, and one says so by its error.
fn is_by_cancellation(
    found: Option<&Message>,
    recorded: &Message,
    cancelled: &[RequestId],
) -> bool {
    match (found, recorded) {
        (Some(Message::Response(found)), Message::Response(recorded)) => {
            cancelled.contains(&recorded.id) && (is_refused(found) || is_refused(recorded))
        }
        _ => false,
    }
}

/// Whether a reply is the error of a request that was cancelled.
fn is_refused(reply: &Response) -> bool {
    match &reply.response_result {
        Ok(_found) => false,
        Err(error) => error.code == ErrorCode::RequestCanceled.number(),
    }
}

/// Whether both are replies to one request, or progress under one token, or neither: such messages have one order.
fn is_in_place_of(found: &Message, recorded: &Message) -> bool {
    match (found, recorded) {
        (Message::Response(found), Message::Response(recorded)) => found.id == recorded.id,
        (Message::Response(_reply), _other) | (_other, Message::Response(_reply)) => false,
        _ => token_of(found) == token_of(recorded),
    }
}

/// The token of progress: a text or a number (LSP 3.17, `ProgressToken`).
fn token_of(message: &Message) -> Option<(Option<&str>, Option<i64>)> {
    let token = progress_in(message)?.get("token")?;
    Some((token.as_str(), token.as_i64()))
}

/// Compares a message with the recorded one. Spaces and the order of members do not count. If nothing was recorded, nothing may be found.
fn expect<W: Write>(
    alloc: Global,
    found: Option<&Message>,
    recorded: Option<&Message>,
    report: &mut W,
) -> Result<()> {
    let found = text_of(alloc, found)?;
    let recorded = text_of(alloc, recorded)?;
    if found == recorded {
        return Ok(());
    }
    let recorded = recorded.as_ref().map(|it| it.as_str());
    let found = found.as_ref().map(|it| it.as_str());
    writeln!(report, "recorded: {}", recorded.unwrap_or("nothing more"))?;
    writeln!(report, "found: {}", found.unwrap_or("nothing"))?;
    bail!("not as recorded")
}

fn text_of(alloc: Global, message: Option<&Message>) -> Result<Option<String>, AllocError> {
    match message {
        Some(message) => Ok(Some(message.body_text(alloc)?)),
        None => Ok(None),
    }
}
