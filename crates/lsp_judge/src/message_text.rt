// The JSON text of a message, written value by value.
use crate::bytes::push_quoted;
use std::alloc::{AllocError, Global};

/// What is open: a list or an object, or it is not known yet which.
#[derive(Clone, Copy, PartialEq, Eq)]
enum Open {
    Unknown,
    List,
    Object,
}

/// The JSON text of a message that is read from the notation of another language.
///
/// Lua and Emacs Lisp drop members that are null. So a message with no method, result or error gets `"result":null`.
#[derive(Drop)]
pub struct MessageText {
    text: Vec<u8>,
    open: Vec<Open>,
    /// Whether a value was written whole.
    is_whole: bool,
    /// Whether the message has a method, a result or an error.
    has_kind: bool,
    /// Whether the last key is `params`, of the message.
    is_at_params: bool,
    /// What is skipped stands this deep.
    skipped: Option<usize>,
}

impl MessageText {
    /// Makes an empty text. It does not allocate.
    pub fn new(alloc: Global) -> MessageText {
        MessageText {
            text: Vec::new(alloc),
            open: Vec::new(alloc),
            is_whole: false,
            has_kind: false,
            is_at_params: false,
            skipped: None,
        }
    }

    /// Drops the text, and begins with an empty one.
    pub fn clear(&mut self) {
        self.text.clear();
        self.open.clear();
        self.is_whole = false;
        self.has_kind = false;
        self.is_at_params = false;
        self.skipped = None;
    }

    /// Returns the bytes of the text so far.
    pub fn as_slice(&self) -> &[u8] {
        self.text.as_slice()
    }

    /// Whether a value stands there, from its begin to its end.
    pub fn is_whole(&self) -> bool {
        self.is_whole
    }

    /// Whether the value that comes next is the message's `params`.
    pub fn is_at_params(&self) -> bool {
        self.is_at_params
    }

    /// Whether a key may stand where a value may.
    pub fn takes_key(&self) -> bool {
        match self.open.last() {
            Some(Open::Unknown | Open::Object) => true,
            Some(Open::List) | None => false,
        }
    }

    /// A list or an object begins.
    pub fn open(&mut self) -> Result<(), AllocError> {
        self.begin_value()?;
        Ok(self.open.push(Open::Unknown)?)
    }

    /// The last list or object ends. If it has nothing, this text stands for it.
    pub fn close(&mut self, empty: &[u8]) -> Result<(), AllocError> {
        if self.open.len() == 1 && self.takes_key() && !self.has_kind {
            self.key(b"result")?;
            self.word(b"null")?;
        }
        let end: &[u8] = match self.open.pop() {
            Some(Open::Unknown) => empty,
            Some(Open::List) => b"]",
            Some(Open::Object) => b"}",
            None => return Ok(()),
        };
        self.put(end)?;
        self.end_value();
        Ok(())
    }

    /// The key of the next value.
    pub fn key(&mut self, key: &[u8]) -> Result<(), AllocError> {
        let begin: &[u8] = match self.open.pop() {
            Some(Open::Object) => b",",
            _ => b"{",
        };
        self.open.push(Open::Object)?;
        if self.open.len() == 1 {
            self.is_at_params = matches!(key, b"params");
            self.has_kind = self.has_kind || matches!(key, b"method" | b"result" | b"error");
        }
        if self.skipped.is_none() {
            self.text.extend_from_slice(begin)?;
            push_quoted(&mut self.text, key)?;
            self.text.push(b':')?;
        }
        Ok(())
    }

    /// A text.
    pub fn text(&mut self, text: &[u8]) -> Result<(), AllocError> {
        self.begin_value()?;
        if self.skipped.is_none() {
            push_quoted(&mut self.text, text)?;
        }
        self.end_value();
        Ok(())
    }

    /// A value that this JSON is.
    pub fn word(&mut self, json: &[u8]) -> Result<(), AllocError> {
        self.begin_value()?;
        self.put(json)?;
        self.end_value();
        Ok(())
    }

    /// The next list or object is skipped.
    pub fn skip(&mut self) {
        if self.skipped.is_none() {
            self.skipped = Some(self.open.len());
        }
    }

    fn begin_value(&mut self) -> Result<(), AllocError> {
        if self.skipped.is_some() {
            return Ok(());
        }
        match self.open.pop() {
            Some(Open::Unknown) => {
                self.text.push(b'[')?;
                self.open.push(Open::List)?;
            }
            Some(Open::List) => {
                self.text.push(b',')?;
                self.open.push(Open::List)?;
            }
            Some(Open::Object) => self.open.push(Open::Object)?,
            None => {}
        }
        Ok(())
    }

    fn end_value(&mut self) {
        if self.skipped == Some(self.open.len()) {
            self.skipped = None;
        } else if self.open.is_empty() {
            self.is_whole = true;
        }
        if self.open.len() == 1 {
            self.is_at_params = false;
        }
    }

    fn put(&mut self, json: &[u8]) -> Result<(), AllocError> {
        if self.skipped.is_none() {
            self.text.extend_from_slice(json)?;
        }
        Ok(())
    }
}
