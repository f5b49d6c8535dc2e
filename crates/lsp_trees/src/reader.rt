// A value as a `Format` of serde's. A step gives what the same step gives over the value's text, or `Stop::Misfit` where that does not
// fit either. It stops for good at what it cannot say as the text would.
use serde::{Format, Kind, Name};
use serde_json::{Map, Number, Value};
use std::alloc::Global;
use std::collections::btree_map::Iter;

/// Why a value was not read.
#[derive(Clone, Copy, Debug, Drop, PartialEq, Eq)]
pub(crate) enum Stop {
    /// It does not fit, and another type may.
    Misfit,
    /// Its text is needed.
    Other,
    /// An allocation failed.
    Memory,
}

/// What is left of an array or an object.
#[derive(Drop)]
enum Level<'v> {
    Items(&'v [Value]),
    Members(Iter<'v, String, Value>),
}

/// An array or an object that is being read. `below` is one past the place of the one that it stands in.
#[derive(Drop)]
struct Frame<'v> {
    level: Level<'v>,
    below: usize,
}

/// What a step in an array or an object finds.
#[derive(Clone, Copy, Drop)]
enum Step<'v> {
    Item(&'v Value),
    ItemsEnd,
    Member(&'v str, &'v Value),
    MembersEnd,
}

/// A value that is being read.
#[derive(Drop)]
pub(crate) struct TreeReader<'v> {
    frames: Vec<Frame<'v>>,
    // One past the place of the frame that is open, or 0.
    at: usize,
    // The frames below this place are those of marks, and stay as they are.
    kept: usize,
    // The value that comes next, if one is due, and a key before it that is read as a value.
    next: Option<&'v Value>,
    key: Option<&'v str>,
    // What stopped it for good.
    stopped: Option<Stop>,
}

/// Where a reader stood.
#[derive(Clone, Copy, Drop)]
pub(crate) struct Mark<'v> {
    len: usize,
    at: usize,
    kept: usize,
    next: Option<&'v Value>,
    key: Option<&'v str>,
}

impl<'v> TreeReader<'v> {
    pub(crate) fn new(alloc: Global, value: &'v Value) -> TreeReader<'v> {
        TreeReader {
            frames: Vec::new(alloc),
            at: 0,
            kept: 0,
            next: Some(value),
            key: None,
            stopped: None,
        }
    }

    /// Returns what was read, unless the reader stopped for good before. A part that is left unread does not count, as
    /// in the text.
    pub(crate) fn settled<T: Drop>(&self, read: Result<T, Stop>) -> Result<T, Stop> {
        match self.stopped {
            None => read,
            Some(stop) => {
                drop(read);
                Err(stop)
            }
        }
    }

    fn stop(&mut self, stop: Stop) -> Stop {
        self.stopped = Some(stop);
        stop
    }

    /// Reports that a value of another type was expected. The next value is inside it, if it is an array or an object,
    /// as in its text.
    fn misfit(&mut self, value: &'v Value) -> Stop {
        let opened = match value {
            Value::Array(items) => self.open_items(items.as_slice()),
            Value::Object(members) => self.open_members(members),
            _ => Ok(()),
        };
        match opened {
            Ok(()) => Stop::Misfit,
            Err(stop) => stop,
        }
    }

    /// Takes the next value, which is no key.
    fn value(&mut self) -> Result<&'v Value, Stop> {
        if self.key.is_some() {
            return Err(self.stop(Stop::Other));
        }
        match self.next.take() {
            Some(value) => Ok(value),
            None => Err(self.stop(Stop::Other)),
        }
    }

    fn number(&mut self) -> Result<&'v Number, Stop> {
        match self.value()? {
            Value::Number(number) => Ok(number),
            other => Err(self.misfit(other)),
        }
    }

    fn text(&mut self) -> Result<&'v str, Stop> {
        if let Some(key) = self.key.take() {
            return Ok(key);
        }
        match self.value()? {
            Value::String(text) => Ok(text.as_str()),
            other => Err(self.misfit(other)),
        }
    }

    fn push(&mut self, level: Level<'v>, below: usize) -> Result<(), Stop> {
        if self.frames.push(Frame { level, below }).is_err() {
            return Err(self.stop(Stop::Memory));
        }
        self.at = self.frames.len();
        Ok(())
    }

    fn open_items(&mut self, items: &'v [Value]) -> Result<(), Stop> {
        self.push(Level::Items(items), self.at)
    }

    fn open_members(&mut self, members: &'v Map<String, Value>) -> Result<(), Stop> {
        self.push(Level::Members(members.iter()), self.at)
    }

    /// Copies a frame, which stays as it is.
    fn copied(&self, at: usize) -> Result<(Level<'v>, usize), Stop> {
        let Some(frame) = self.frames.get(at) else {
            return Err(Stop::Other);
        };
        match &frame.level {
            Level::Items(items) => Ok((Level::Items(items), frame.below)),
            Level::Members(members) => match members.clone() {
                Ok(members) => Ok((Level::Members(members), frame.below)),
                Err(_) => Err(Stop::Memory),
            },
        }
    }

    fn copy(&mut self, at: usize) -> Result<(), Stop> {
        match self.copied(at) {
            Ok((level, below)) => self.push(level, below),
            Err(stop) => Err(self.stop(stop)),
        }
    }

    /// Goes on in the frame that is open.
    fn step(&mut self) -> Result<Step<'v>, Stop> {
        if self.at <= self.kept && self.at > 0 {
            self.copy(self.at - 1)?;
        }
        if self.at == 0 || self.next.is_some() {
            return Err(self.stop(Stop::Other));
        }
        match self.frames.get_mut(self.at - 1) {
            Some(frame) => Ok(step_in(&mut frame.level)),
            None => Err(self.stop(Stop::Other)),
        }
    }

    /// Leaves the frame that is open. After the one around it, only the frames of marks are kept.
    fn leave(&mut self) {
        self.at = match self.frames.get(self.at.saturating_sub(1)) {
            Some(frame) => frame.below,
            None => 0,
        };
        self.frames.truncate(self.at.max(self.kept));
    }
}

fn step_in<'v>(level: &mut Level<'v>) -> Step<'v> {
    match level {
        Level::Items(items) => match items.split_first() {
            Some((item, rest)) => {
                *items = rest;
                Step::Item(item)
            }
            None => Step::ItemsEnd,
        },
        Level::Members(members) => match members.next() {
            Some((key, member)) => Step::Member(key.as_str(), member),
            None => Step::MembersEnd,
        },
    }
}

fn kind_of(value: &Value) -> Kind {
    match value {
        Value::Null => Kind::Unit,
        Value::Bool(_) => Kind::Bool,
        Value::Number(n) if n.is_u64() => Kind::Unsigned,
        Value::Number(n) if n.is_i64() => Kind::Signed,
        Value::Number(_) => Kind::Float,
        Value::String(_) => Kind::Str,
        Value::Array(_) => Kind::Seq,
        Value::Object(_) => Kind::Map,
    }
}

impl<'v> Format for TreeReader<'v> {
    type Error = Stop;

    type Mark = Mark<'v>;

    fn bool(&mut self, _input: &[u8]) -> Result<bool, Stop> {
        match self.value()? {
            Value::Bool(b) => Ok(*b),
            other => Err(self.misfit(other)),
        }
    }

    fn i64(&mut self, _input: &[u8]) -> Result<i64, Stop> {
        self.number()?.as_i64().ok_or(Stop::Misfit)
    }

    fn u64(&mut self, _input: &[u8]) -> Result<u64, Stop> {
        self.number()?.as_u64().ok_or(Stop::Misfit)
    }

    fn i128(&mut self, _input: &[u8]) -> Result<i128, Stop> {
        self.number()?.as_i128().ok_or(Stop::Misfit)
    }

    fn u128(&mut self, _input: &[u8]) -> Result<u128, Stop> {
        self.number()?.as_u128().ok_or(Stop::Misfit)
    }

    // The nearest of a number's text may be another than that of the number.
    fn f32(&mut self, _input: &[u8]) -> Result<f32, Stop> {
        Err(self.stop(Stop::Other))
    }

    fn f64(&mut self, _input: &[u8]) -> Result<f64, Stop> {
        self.number()?.as_f64().ok_or(Stop::Misfit)
    }

    fn char(&mut self, _input: &[u8]) -> Result<char, Stop> {
        match self.text()?.parse::<char>() {
            Ok(c) => Ok(c),
            Err(_) => Err(Stop::Misfit),
        }
    }

    fn plain_str(&mut self, _input: &[u8]) -> Result<(usize, usize), Stop> {
        Err(self.stop(Stop::Other))
    }

    fn plain_bytes(&mut self, _input: &[u8]) -> Result<(usize, usize), Stop> {
        Err(self.stop(Stop::Other))
    }

    fn string(&mut self, alloc: Global, _input: &[u8]) -> Result<String, Stop> {
        match String::from_str(alloc, self.text()?) {
            Ok(text) => Ok(text),
            Err(_) => Err(self.stop(Stop::Memory)),
        }
    }

    fn byte_buf(&mut self, _alloc: Global, _input: &[u8]) -> Result<Vec<u8>, Stop> {
        Err(self.stop(Stop::Other))
    }

    fn peek(&mut self, _input: &[u8]) -> Result<Kind, Stop> {
        if self.key.is_some() {
            return Ok(Kind::Str);
        }
        let next = self.next;
        match next {
            Some(value) => Ok(kind_of(value)),
            None => Err(self.stop(Stop::Other)),
        }
    }

    fn take_unit(&mut self, _input: &[u8]) -> Result<bool, Stop> {
        if self.key.is_some() {
            return Ok(false);
        }
        match self.next {
            None => Err(self.stop(Stop::Other)),
            Some(Value::Null) => {
                self.next = None;
                Ok(true)
            }
            Some(_) => Ok(false),
        }
    }

    fn take_none(&mut self, input: &[u8]) -> Result<bool, Stop> {
        self.take_unit(input)
    }

    fn begin_seq(&mut self, _input: &[u8]) -> Result<(), Stop> {
        match self.value()? {
            Value::Array(items) => self.open_items(items.as_slice()),
            other => Err(self.misfit(other)),
        }
    }

    fn next_item(&mut self, _input: &[u8]) -> Result<bool, Stop> {
        if self.next.is_some() {
            return Ok(true);
        }
        match self.step()? {
            Step::Item(item) => {
                self.next = Some(item);
                Ok(true)
            }
            Step::ItemsEnd => {
                self.leave();
                Ok(false)
            }
            Step::Member(_, _) | Step::MembersEnd => Err(self.stop(Stop::Other)),
        }
    }

    fn begin_map(&mut self, _input: &[u8]) -> Result<(), Stop> {
        match self.value()? {
            Value::Object(members) => self.open_members(members),
            other => Err(self.misfit(other)),
        }
    }

    fn begin_struct(&mut self, _input: &[u8]) -> Result<bool, Stop> {
        match self.value()? {
            Value::Object(members) => {
                self.open_members(members)?;
                Ok(false)
            }
            Value::Array(items) => {
                self.open_items(items.as_slice())?;
                Ok(true)
            }
            other => Err(self.misfit(other)),
        }
    }

    fn next_key(&mut self, _input: &[u8], names: &[Name<'_>]) -> Result<Option<usize>, Stop> {
        match self.step()? {
            Step::Member(key, member) => {
                self.next = Some(member);
                Ok(Some(serde::find(names, key)))
            }
            Step::MembersEnd => {
                self.leave();
                Ok(None)
            }
            Step::Item(_) | Step::ItemsEnd => Err(self.stop(Stop::Other)),
        }
    }

    fn next_entry(&mut self, _input: &[u8]) -> Result<bool, Stop> {
        match self.step()? {
            Step::Member(key, member) => {
                self.next = Some(member);
                self.key = Some(key);
                Ok(true)
            }
            Step::MembersEnd => {
                self.leave();
                Ok(false)
            }
            Step::Item(_) | Step::ItemsEnd => Err(self.stop(Stop::Other)),
        }
    }

    fn variant(&mut self, _input: &[u8], names: &[Name<'_>]) -> Result<usize, Stop> {
        Ok(serde::find(names, self.text()?))
    }

    fn skip(&mut self, _input: &[u8]) -> Result<(), Stop> {
        if self.key.take().is_some() {
            return Ok(());
        }
        self.value()?;
        Ok(())
    }

    fn mark(&mut self) -> Mark<'v> {
        let mark = Mark {
            len: self.frames.len(),
            at: self.at,
            kept: self.kept,
            next: self.next,
            key: self.key,
        };
        self.kept = mark.len;
        mark
    }

    fn rewind(&mut self, mark: Mark<'v>) {
        self.frames.truncate(mark.len);
        self.at = mark.at;
        self.kept = mark.len;
        self.next = mark.next;
        self.key = mark.key;
    }

    fn release(&mut self, mark: Mark<'v>) {
        self.kept = mark.kept;
    }

    fn is_fatal(&self, error: &Stop) -> bool {
        !matches!(error, Stop::Misfit)
    }

    fn missing(&self, _name: &str) -> Stop {
        Stop::Misfit
    }

    fn duplicate(&self, _name: &str) -> Stop {
        Stop::Misfit
    }

    fn unknown_key(&self) -> Stop {
        Stop::Misfit
    }

    fn unknown_variant(&self) -> Stop {
        Stop::Misfit
    }

    fn wrong_len(&self) -> Stop {
        Stop::Misfit
    }

    fn invalid(&self) -> Stop {
        Stop::Misfit
    }

    fn no_memory(&self) -> Stop {
        Stop::Memory
    }

    fn custom(&self, _message: &str) -> Stop {
        Stop::Misfit
    }
}
