// The objects in which VS Code's client traces messages, where its trace is in JSON.
use crate::bytes::{cut, cut_last, trim_end};
use crate::reader::{Found, Taken};
use lsp_watch::Direction;
use serde_json::Value;
use std::alloc::{AllocError, Global};

/// The message of a line, or nothing if the line has none: the type says in which direction the message went, and the
/// timestamp is in milliseconds.
pub fn traced(
    alloc: Global,
    number: u64,
    line: &[u8],
    out: &mut Vec<u8>,
) -> Result<Taken, AllocError> {
    let Some((before, _)) = cut(line, b"\"isLSPMessage\"") else {
        return Ok(Taken::Nothing);
    };
    let Some((_, object)) = line.split_at_checked(before.len().saturating_sub(1)) else {
        return Ok(Taken::Nothing);
    };
    out.clear();
    if let Some((direction, body, time)) = parts_of(trim_end(object)) {
        out.extend_from_slice(body)?;
        return Ok(Taken::Found(Found {
            direction,
            line: number,
            time,
            took: None,
        }));
    }
    read_object(alloc, number, object, out)
}

/// The parts of an object whose members stand in the order in which VS Code's client writes them.
fn parts_of(object: &[u8]) -> Option<(Direction, &[u8], Option<u64>)> {
    let rest = object.strip_prefix(b"{\"isLSPMessage\":true,\"type\":\"")?;
    let (kind, rest) = cut(rest, b"\",\"message\":")?;
    let direction = direction_of(kind)?;
    let (body, time) = cut_last(rest.strip_suffix(b"}")?, b",\"timestamp\":")?;
    let time = std::str::from_utf8(time).ok()?.parse::<u64>().ok()?;
    Some((direction, body, Some(time)))
}

fn direction_of(kind: &[u8]) -> Option<Direction> {
    if kind.starts_with(b"send-") {
        Some(Direction::ToServer)
    } else if kind.starts_with(b"receive-") {
        Some(Direction::ToClient)
    } else {
        None
    }
}

/// The same of any order.
fn read_object(
    alloc: Global,
    number: u64,
    object: &[u8],
    out: &mut Vec<u8>,
) -> Result<Taken, AllocError> {
    let Ok(text) = std::str::from_utf8(object) else {
        return Ok(Taken::Unread(number));
    };
    let trace = match Value::from_str(alloc, text) {
        Ok(trace) => trace,
        Err(error) if error.is_memory() => return Err(AllocError),
        Err(_) => return Ok(Taken::Unread(number)),
    };
    let taken = of_object(alloc, number, &trace, out);
    drop(trace);
    taken
}

fn of_object(
    alloc: Global,
    number: u64,
    trace: &Value,
    out: &mut Vec<u8>,
) -> Result<Taken, AllocError> {
    let kind = trace.get("type").and_then(Value::as_str).unwrap_or("");
    let (Some(direction), Some(message)) = (direction_of(kind.as_bytes()), trace.get("message"))
    else {
        return Ok(Taken::Unread(number));
    };
    let text = message.to_string(alloc)?;
    out.extend_from_slice(text.as_str().as_bytes())?;
    Ok(Taken::Found(Found {
        direction,
        line: number,
        time: trace.get("timestamp").and_then(Value::as_u64),
        took: None,
    }))
}
