// Traces as text, as VS Code's client writes them, and coc.nvim, lsp-mode and `gopls -rpc.trace` after it: a line says what passed, the
// lines below it have the params, the result or the error's data, up to an empty line or a line with a `[` at its begin.
use crate::bytes::{cut, cut_last, is_blank, is_whole_number, push_quoted, trim_end, while_first};
use crate::reader::Found;
use crate::time::time_in;
use lsp_watch::Direction;
use std::alloc::{AllocError, Global};

#[derive(Clone, Copy, PartialEq, Eq)]
enum Kind {
    Call,
    Reply,
    /// A reply whose line says that it is an error.
    Refusal,
}

/// What a line says of the message whose body stands below it.
#[derive(Clone, Copy)]
struct Head<'l> {
    direction: Direction,
    kind: Kind,
    method: Option<&'l [u8]>,
    id: Option<&'l [u8]>,
    /// The error's message, and its code in round brackets.
    error: &'l [u8],
    time: Option<u64>,
    took: Option<u64>,
}

/// How far the body of the held message was read.
#[derive(Clone, Copy, PartialEq, Eq)]
enum Body {
    None,
    /// It goes on, and this many objects are open around it.
    Open,
    Over,
}

/// The message whose body is read.
#[derive(Clone, Copy)]
struct Held {
    found: Found,
    kind: Kind,
    body: Body,
    has_body: bool,
}

/// The reader of such a trace.
#[derive(Drop)]
pub struct Trace {
    held: Option<Held>,
    text: Vec<u8>,
    error: Vec<u8>,
    /// Whether bodies are traced.
    is_verbose: bool,
}

impl Trace {
    /// Makes a reader that has seen no line. It does not allocate.
    pub fn new(alloc: Global) -> Trace {
        Trace {
            held: None,
            text: Vec::new(alloc),
            error: Vec::new(alloc),
            is_verbose: false,
        }
    }

    /// Takes a line, and gives the message that ends before it, whose text is written.
    pub fn take(
        &mut self,
        number: u64,
        line: &[u8],
        out: &mut Vec<u8>,
    ) -> Result<Option<Found>, AllocError> {
        if line.starts_with(b"[") || is_head(line) {
            let ended = self.end(out)?;
            if let Some(head) = head_of(line) {
                self.begin(number, &head)?;
            }
            return Ok(ended);
        }
        if let Some(mut held) = self.held {
            self.go_on(&mut held, trim_end(line))?;
            self.held = Some(held);
        }
        Ok(None)
    }

    /// The message that is read, if there is one: its body has ended.
    pub fn end(&mut self, out: &mut Vec<u8>) -> Result<Option<Found>, AllocError> {
        let Some(held) = self.held.take() else {
            return Ok(None);
        };
        out.clear();
        out.extend_from_slice(self.text.as_slice())?;
        match held.kind {
            Kind::Call => {}
            Kind::Reply if held.has_body => {}
            // A refusal without data is traced without a body, and every result has one, where bodies are traced.
            Kind::Reply if self.is_verbose && held.found.direction == Direction::ToServer => {
                out.extend_from_slice(b",\"error\":{\"code\":0,\"message\":\"\"}")?;
            }
            Kind::Reply => out.extend_from_slice(b",\"result\":null")?,
            Kind::Refusal if held.has_body => out.push(b'}')?,
            Kind::Refusal => {
                out.extend_from_slice(b",\"error\":{")?;
                out.extend_from_slice(self.error.as_slice())?;
                out.push(b'}')?;
            }
        }
        out.push(b'}')?;
        Ok(Some(held.found))
    }

    fn begin(&mut self, number: u64, head: &Head<'_>) -> Result<(), AllocError> {
        self.text.clear();
        self.text.extend_from_slice(b"{\"jsonrpc\":\"2.0\"")?;
        if let Some(id) = head.id {
            self.text.extend_from_slice(b",\"id\":")?;
            push_id(&mut self.text, id)?;
        }
        if let Some(method) = head.method {
            self.text.extend_from_slice(b",\"method\":")?;
            push_quoted(&mut self.text, method)?;
        }
        push_error(&mut self.error, head.error)?;
        let found = Found {
            direction: head.direction,
            line: number,
            time: head.time,
            took: head.took,
        };
        self.held = Some(Held {
            found,
            kind: head.kind,
            body: Body::None,
            has_body: false,
        });
        Ok(())
    }

    /// Reads a line below the head.
    fn go_on(&mut self, held: &mut Held, line: &[u8]) -> Result<(), AllocError> {
        match held.body {
            Body::Over => Ok(()),
            Body::Open if line.is_empty() => {
                held.body = Body::Over;
                Ok(())
            }
            Body::Open => self.text.extend_from_slice(line),
            Body::None => self.begin_body(held, line),
        }
    }

    fn begin_body(&mut self, held: &mut Held, line: &[u8]) -> Result<(), AllocError> {
        held.body = Body::Over;
        let (member, body): (&[u8], &[u8]) = match held.kind {
            Kind::Call => match line.strip_prefix(b"Params:") {
                Some(body) => (b",\"params\":", body),
                None => return Ok(()),
            },
            Kind::Reply | Kind::Refusal => match reply_body(line) {
                Some(found) => found,
                None => return Ok(()),
            },
        };
        // gopls writes the word where there are no params.
        self.is_verbose = true;
        if body.iter().all(|it| is_blank(*it)) {
            return Ok(());
        }
        self.text.extend_from_slice(member)?;
        if member == b",\"error\":{".as_slice() {
            held.kind = Kind::Refusal;
            self.text.extend_from_slice(self.error.as_slice())?;
            self.text.extend_from_slice(b",\"data\":")?;
        }
        self.text.extend_from_slice(body)?;
        held.body = Body::Open;
        held.has_body = true;
        Ok(())
    }
}

/// The member of a reply that a line begins, and its value.
fn reply_body(line: &[u8]) -> Option<(&[u8], &[u8])> {
    if let Some(body) = line.strip_prefix(b"Error data:") {
        return Some((b",\"error\":{", body));
    }
    if line.starts_with(b"No result returned") {
        return Some((b",\"result\":", b"null"));
    }
    let body = line
        .strip_prefix(b"Result:")
        .or(line.strip_prefix(b"Params:"))?;
    Some((b",\"result\":", body))
}

/// Whether a line says what passed.
pub fn is_head(line: &[u8]) -> bool {
    head_of(line).is_some()
}

/// `[Trace - 6:58:23 AM] Sending request 'initialize - (0)'.` and similar lines.
fn head_of(line: &[u8]) -> Option<Head<'_>> {
    let line = trim_end(line);
    if let [b'[', b'E', ..] = line {
        return refusal_of(line);
    }
    let (before, direction, rest) = direction_of(line)?;
    let time = time_in(before);
    let (kind, quoted) = match rest.strip_prefix(b"response ") {
        Some(quoted) => (Kind::Reply, quoted),
        None => (Kind::Call, call_of(rest)?),
    };
    if kind == Kind::Reply && !quoted.starts_with(b"'") {
        let (id, _) = while_first(quoted, |it| it != b' ');
        return Some(reply(direction, id, time));
    }
    let quoted = quoted.strip_prefix(b"'")?;
    if rest.starts_with(b"notification ") {
        let (method, _) = cut_last(quoted, b"'")?;
        return Some(Head {
            method: Some(method),
            id: None,
            ..call(direction, time)
        });
    }
    let (named, tail) = cut(quoted, b")'")?;
    let (method, id) = cut_last(named, b" - (")?;
    if kind == Kind::Call {
        return Some(Head {
            method: Some(method),
            id: Some(id),
            ..call(direction, time)
        });
    }
    Some(with_tail(reply(direction, id, time), tail))
}

/// What stands after the word of a call.
fn call_of(rest: &[u8]) -> Option<&[u8]> {
    rest.strip_prefix(b"request ")
        .or(rest.strip_prefix(b"notification "))
}

fn call<'l>(direction: Direction, time: Option<u64>) -> Head<'l> {
    Head {
        direction,
        kind: Kind::Call,
        method: None,
        id: None,
        error: b"",
        time,
        took: None,
    }
}

fn reply(direction: Direction, id: &[u8], time: Option<u64>) -> Head<'_> {
    Head {
        direction,
        kind: Kind::Reply,
        method: None,
        id: Some(id),
        error: b"",
        time,
        took: None,
    }
}

/// A reply, with what stands after its name: how long it took, and perhaps that the request failed.
fn with_tail<'l>(head: Head<'l>, tail: &'l [u8]) -> Head<'l> {
    let (before, failed) = match cut(tail, b" Request failed: ") {
        Some((before, error)) => (before, Some(error)),
        None => (tail, None),
    };
    let took = match cut(before, b" in ").or(cut(before, b" took ")) {
        Some((_, time)) => milliseconds_of(time),
        None => None,
    };
    match failed {
        Some(error) => Head {
            kind: Kind::Refusal,
            error,
            took,
            ..head
        },
        None => Head { took, ..head },
    }
}

/// The number before `ms`.
fn milliseconds_of(text: &[u8]) -> Option<u64> {
    let (digits, _) = while_first(text, |it| it.is_ascii_digit());
    std::str::from_utf8(digits).ok()?.parse::<u64>().ok()
}

/// What stands before the direction, the direction, and what stands after it.
fn direction_of(line: &[u8]) -> Option<(&[u8], Direction, &[u8])> {
    let (before, rest) = match line {
        [b'[', ..] => cut(line, b"] ")?,
        _ => (line.get(..0)?, line),
    };
    match rest.strip_prefix(b"Sending ") {
        Some(rest) => Some((before, Direction::ToServer, rest)),
        None => Some((
            before,
            Direction::ToClient,
            rest.strip_prefix(b"Received ")?,
        )),
    }
}

/// gopls: `[Error - Received] 06:58:46.617 AM #5 message`.
fn refusal_of(line: &[u8]) -> Option<Head<'_>> {
    let (direction, rest) = match line.strip_prefix(b"[Error - Received] ") {
        Some(rest) => (Direction::ToClient, rest),
        None => (Direction::ToServer, line.strip_prefix(b"[Error - Sent] ")?),
    };
    let (before, rest) = cut(rest, b" #")?;
    let (id, error) = while_first(rest, |it| it != b' ');
    Some(Head {
        kind: Kind::Refusal,
        error,
        ..reply(direction, id, time_in(before))
    })
}

/// An id: the trace does not say whether it was a number or a text.
fn push_id(out: &mut Vec<u8>, id: &[u8]) -> Result<(), AllocError> {
    if is_whole_number(id) {
        out.extend_from_slice(id)
    } else {
        push_quoted(out, id)
    }
}

/// The code and the message of an error: `message (-32601).`
fn push_error(out: &mut Vec<u8>, error: &[u8]) -> Result<(), AllocError> {
    out.clear();
    let (message, code) = match cut_last(error, b" (") {
        Some((message, code)) => (message, while_first(code, |it| it != b')').0),
        None => (error, error),
    };
    out.extend_from_slice(b"\"code\":")?;
    if is_whole_number(code) {
        out.extend_from_slice(code)?;
    } else {
        out.push(b'0')?;
    }
    out.extend_from_slice(b",\"message\":")?;
    push_quoted(out, message)
}
