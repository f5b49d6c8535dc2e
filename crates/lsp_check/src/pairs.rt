// Requests with their replies.
use lsp_judge::log::Log;
use lsp_judge::reader::Found;
use lsp_watch::{Direction, Kind, LoggedMessage};
use serde_json::Value;
use std::alloc::{AllocError, Global};
use std::collections::BTreeMap;

/// How many requests may wait for a reply. Those beyond are not paired.
const MOST_OPEN: usize = 10_000;

/// LSP 3.17, `ErrorCodes`: the client has cancelled the request, or the server has.
const CANCELLED: [i64; 2] = [-32800, -32802];

/// A request, and its reply if there is one.
#[derive(Drop)]
pub struct Pair {
    pub direction: Direction,
    pub method: String,
    /// The line of the request, and of the reply.
    pub line: u64,
    pub end: Option<u64>,
    /// When the request passed, and how many milliseconds its reply took.
    pub time: Option<u64>,
    pub took: Option<u64>,
    pub is_error: bool,
    pub is_cancelled: bool,
    /// Of both.
    pub bytes: u64,
}

/// The requests that wait.
#[derive(Drop)]
pub struct Pairs {
    alloc: Global,
    open: BTreeMap<String, Pair>,
    has_seen: bool,
    /// When the last message passed.
    last: Option<u64>,
}

impl Pairs {
    pub fn new(alloc: Global) -> Pairs {
        Pairs {
            alloc,
            open: BTreeMap::new(alloc),
            has_seen: false,
            last: None,
        }
    }

    /// Whether there was a message.
    pub fn has_seen(&self) -> bool {
        self.has_seen
    }

    /// When the last message passed, where that is known.
    pub fn last(&self) -> Option<u64> {
        self.last
    }

    /// One of the requests that wait.
    pub fn take_open(&mut self) -> Option<Pair> {
        self.open.pop_first().map(|it| it.1)
    }

    /// Sees a message of a log, and gives the request that it replies to.
    pub fn see(&mut self, found: &Found, log: &Log) -> Result<Option<Pair>, AllocError> {
        self.has_seen = true;
        self.last = found.time.or(self.last);
        let message = LoggedMessage::from_content(self.alloc, log.body())?;
        let pair = self.see_message(found, log, &message);
        drop(message);
        pair
    }

    fn see_message(
        &mut self,
        found: &Found,
        log: &Log,
        message: &LoggedMessage,
    ) -> Result<Option<Pair>, AllocError> {
        let Some(entry) = &message.entry else {
            return Ok(None);
        };
        let bytes = log.body().len() as u64;
        match entry.kind() {
            Kind::Request(_) => {
                let key = self.key(found.direction, log, entry.tree().get("id"))?;
                if self.open.len() < MOST_OPEN {
                    let pair = asked(self.alloc, found, entry.method(), bytes)?;
                    self.open.insert(key, pair)?;
                }
                Ok(None)
            }
            Kind::Reply(_, _) => {
                let key = self.key(found.direction.other(), log, entry.tree().get("id"))?;
                let pair = self.open.remove(key.as_str());
                Ok(pair.map(|it| replied(it, found, entry.tree(), bytes)))
            }
            Kind::Notification => {
                if entry.method() == "$/cancelRequest" {
                    let id = entry.params().and_then(|it| it.get("id"));
                    let key = self.key(found.direction, log, id)?;
                    if let Some(pair) = self.open.get_mut(key.as_str()) {
                        pair.is_cancelled = true;
                    }
                }
                Ok(None)
            }
        }
    }

    /// The key of a request: its direction, the server and the id.
    fn key(
        &self,
        direction: Direction,
        log: &Log,
        id: Option<&Value>,
    ) -> Result<String, AllocError> {
        let name = std::str::from_utf8(log.name()).unwrap_or("");
        match id {
            Some(id) => {
                let id = id.to_string(self.alloc)?;
                format!(in self.alloc; "{direction} {id} {name}")
            }
            None => format!(in self.alloc; "{direction}  {name}"),
        }
    }
}

fn asked(alloc: Global, found: &Found, method: &str, bytes: u64) -> Result<Pair, AllocError> {
    Ok(Pair {
        direction: found.direction,
        method: String::from_str(alloc, method)?,
        line: found.line,
        end: None,
        time: found.time,
        took: None,
        is_error: false,
        is_cancelled: false,
        bytes,
    })
}

fn replied(pair: Pair, found: &Found, reply: &Value, bytes: u64) -> Pair {
    let mut pair = pair;
    pair.end = Some(found.line);
    pair.took = match (found.took, pair.time, found.time) {
        (Some(took), _, _) => Some(took),
        (None, Some(begun), Some(ended)) => Some(ended.saturating_sub(begun)),
        _ => None,
    };
    let error = reply.get("error");
    pair.is_error = error.is_some();
    let code = error.and_then(|it| it.get("code")).and_then(Value::as_i64);
    if let Some(code) = code
        && CANCELLED.contains(&code)
    {
        pair.is_cancelled = true;
    }
    pair.bytes = pair.bytes.saturating_add(bytes);
    pair
}
