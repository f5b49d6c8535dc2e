// The events of Emacs' `jsonrpc`, which eglot uses. Emacs 30 writes `[jsonrpc] e[07:02:59.334] --> initialize[1] `, then the message in
// JSON (:format full), below it as Lisp prints it (:format lisp), or nothing (:format short). Older ones write `[client-request] (id:1)
// DATE:`, and below it Lisp.
use crate::bytes::{cut, push_quoted, trim_end, trim_start, while_first};
use crate::lisp::read_list;
use crate::message_text::MessageText;
use crate::reader::{Found, Taken};
use crate::time::time_in;
use lsp_watch::Direction;
use std::alloc::{AllocError, Global};
use std::collections::BTreeMap;

/// How many open requests are kept of a log that has no bodies.
const MOST_OPEN: usize = 10_000;

/// What a line says of a message.
#[derive(Clone, Copy)]
struct Head<'l> {
    direction: Direction,
    /// The method and, in square brackets, the id. Older ones have none.
    name: &'l [u8],
    /// The message in JSON.
    json: Option<&'l [u8]>,
    time: Option<u64>,
}

/// The reader of such events.
#[derive(Drop)]
pub struct Emacs {
    alloc: Global,
    held: Option<Found>,
    name: Vec<u8>,
    lisp: Vec<u8>,
    message: MessageText,
    /// Where there are no bodies: the method of each open request, by its direction and id.
    open: BTreeMap<Vec<u8>, Vec<u8>>,
    /// Whether a message had no body.
    pub is_short: bool,
}

impl Emacs {
    /// Makes a reader that has seen no line. It does not allocate.
    pub fn new(alloc: Global) -> Emacs {
        Emacs {
            alloc,
            held: None,
            name: Vec::new(alloc),
            lisp: Vec::new(alloc),
            message: MessageText::new(alloc),
            open: BTreeMap::new(alloc),
            is_short: false,
        }
    }

    /// Takes a line, and gives the message that ends with it or before it, whose text is written.
    pub fn take(
        &mut self,
        number: u64,
        line: &[u8],
        out: &mut Vec<u8>,
    ) -> Result<Taken, AllocError> {
        if !line.starts_with(b"[") {
            if self.held.is_some() {
                self.lisp.extend_from_slice(line)?;
            }
            return Ok(Taken::Nothing);
        }
        let ended = self.end(out)?;
        let Some(head) = head_of(line) else {
            return Ok(ended);
        };
        let found = Found {
            direction: head.direction,
            line: number,
            time: head.time,
            took: None,
        };
        if let (Some(json), Taken::Nothing) = (head.json, &ended) {
            out.clear();
            out.extend_from_slice(json)?;
            return Ok(Taken::Found(found));
        }
        self.name.clear();
        self.name.extend_from_slice(head.name)?;
        self.lisp.clear();
        self.lisp.extend_from_slice(head.json.unwrap_or(b""))?;
        self.held = Some(found);
        Ok(ended)
    }

    /// The message that is read, if there is one: nothing more of it comes.
    pub fn end(&mut self, out: &mut Vec<u8>) -> Result<Taken, AllocError> {
        let Some(found) = self.held.take() else {
            return Ok(Taken::Nothing);
        };
        out.clear();
        let lisp = trim_start(self.lisp.as_slice());
        match lisp {
            [] if self.name.is_empty() => Ok(Taken::Unread(found.line)),
            [] => {
                self.is_short = true;
                self.put_short(found.direction, out)?;
                Ok(Taken::Found(found))
            }
            [b'{', ..] => {
                out.extend_from_slice(lisp)?;
                Ok(Taken::Found(found))
            }
            _ => self.put_list(&found, out),
        }
    }

    fn put_list(&mut self, found: &Found, out: &mut Vec<u8>) -> Result<Taken, AllocError> {
        self.message.clear();
        let list = trim_start(self.lisp.as_slice());
        if !read_list(list, &mut self.name, &mut self.message)? {
            return Ok(Taken::Unread(found.line));
        }
        out.extend_from_slice(self.message.as_slice())?;
        Ok(Taken::Found(*found))
    }

    /// The text of a message of which there are only its method and its id. It is a reply, if such a request is open in
    /// the other direction.
    fn put_short(&mut self, direction: Direction, out: &mut Vec<u8>) -> Result<(), AllocError> {
        out.extend_from_slice(b"{\"jsonrpc\":\"2.0\"")?;
        let key = key_of(self.alloc, direction.other(), id_in(self.name.as_slice()))?;
        let asked = self.open.get(&key);
        let is_reply = asked.is_some_and(|it| it.as_slice() == method_in(self.name.as_slice()));
        if is_reply {
            self.open.remove(&key);
        }
        drop(key);
        put_id(out, id_in(self.name.as_slice()))?;
        if is_reply {
            return out.extend_from_slice(b",\"result\":null}");
        }
        self.keep_open(direction)?;
        out.extend_from_slice(b",\"method\":")?;
        push_quoted(out, method_in(self.name.as_slice()))?;
        Ok(out.push(b'}')?)
    }

    /// Keeps a request, so that its reply is known.
    fn keep_open(&mut self, direction: Direction) -> Result<(), AllocError> {
        let id = id_in(self.name.as_slice());
        if id.is_empty() || self.open.len() >= MOST_OPEN {
            return Ok(());
        }
        let key = key_of(self.alloc, direction, id)?;
        let method = Vec::from_slice(self.alloc, method_in(self.name.as_slice()));
        match method {
            Ok(method) => {
                self.open.insert(key, method)?;
                Ok(())
            }
            Err(error) => {
                drop(key);
                Err(error)
            }
        }
    }
}

/// The method of a name, which may have an id after it.
fn method_in(name: &[u8]) -> &[u8] {
    while_first(name, |it| it != b'[').0
}

/// The id after a method, in square brackets. It may be empty.
fn id_in(name: &[u8]) -> &[u8] {
    match cut(name, b"[") {
        Some((_, id)) => while_first(id, |it| it != b']').0,
        None => &[],
    }
}

fn put_id(out: &mut Vec<u8>, id: &[u8]) -> Result<(), AllocError> {
    if id.is_empty() {
        return Ok(());
    }
    out.extend_from_slice(b",\"id\":")?;
    out.extend_from_slice(id)
}

/// The key of a request.
fn key_of(alloc: Global, direction: Direction, id: &[u8]) -> Result<Vec<u8>, AllocError> {
    let mut key = Vec::new(alloc);
    key.push(if direction.is_from_client() {
        b'>'
    } else {
        b'<'
    })?;
    key.extend_from_slice(id)?;
    Ok(key)
}

/// Whether a line says what passed.
pub fn is_head(line: &[u8]) -> bool {
    head_of(line).is_some()
}

fn head_of(line: &[u8]) -> Option<Head<'_>> {
    if let Some(rest) = line.strip_prefix(b"[jsonrpc] e[") {
        return named(rest);
    }
    let (direction, rest) = match line.strip_prefix(b"[client-") {
        Some(rest) => (Direction::ToServer, rest),
        None => (Direction::ToClient, line.strip_prefix(b"[server-")?),
    };
    let (kind, _) = cut(rest, b"] ")?;
    matches!(kind, b"request" | b"notification" | b"reply").then_some(Head {
        direction,
        name: b"",
        json: None,
        time: None,
    })
}

/// `07:02:59.334] --> initialize[1] {..}`.
fn named(rest: &[u8]) -> Option<Head<'_>> {
    let (time, rest) = cut(rest, b"] ")?;
    let rest = trim_start(rest);
    let (direction, rest) = match rest.strip_prefix(b"--> ") {
        Some(rest) => (Direction::ToServer, rest),
        None => (Direction::ToClient, rest.strip_prefix(b"<-- ")?),
    };
    let (name, json) = while_first(trim_end(rest), |it| it != b' ');
    let json = trim_start(json);
    Some(Head {
        direction,
        name,
        json: json.starts_with(b"{").then_some(json),
        time: time_in(time),
    })
}
