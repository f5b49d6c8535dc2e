// The outline of a text.
ghost use Rattle.std.specs.Prelude.{◌≡◌, [], ◌++◌, IfOk, OnOk, option_and_then, option_map, reverse, slice_get};
ghost use Rattle.std.specs.Prelude.{string_bytes, take};
ghost use Rattle.toml_outline.specs.Keys.{key_of};
ghost use Rattle.toml_outline.specs.Names as names;
ghost use Rattle.toml_outline.specs.Names.{name_of, name_to, name_with, parts_to, written};
ghost use Rattle.toml_outline.specs.Scanned.{keys_of};

use std::alloc::{AllocError, Global};
use toml_parser::text::byte_at;
use toml_parser::{ParseError, quoted, starts_string};

/// A part of a text, as offsets in bytes of UTF-8.
#[derive(Clone, Copy)]
pub struct Span {
    /// Where it begins.
    pub start: usize,
    /// Where it ends.
    pub end: usize,
}

impl Span {
    /// Makes the part between two offsets.
    pub fn new(start: usize, end: usize) -> Span
        ensures { result ≡ record { start = start; end = end } }
    {
        Span { start, end }
    }

    /// Returns whether a cursor at this offset is in the part or at one of its ends.
    pub fn touches(self, offset: usize) -> bool {
        self.start <= offset && offset <= self.end
    }
}

/// What a key names: a table that a header begins, or a type of value (TOML 1.0, "Key/Value Pair").
#[derive(Clone, Copy)]
pub enum Kind {
    /// A table that the header `[key]` begins.
    Table,
    /// A table that the header `[[key]]` adds to an array.
    ArrayOfTables,
    /// A table in braces.
    InlineTable,
    /// An array in brackets.
    Array,
    /// A string, of any of the four forms.
    String,
    /// An integer.
    Integer,
    /// A float.
    Float,
    /// A boolean.
    Boolean,
    /// A date, a time, or both.
    DateTime,
    /// A value that could not be read: a problem stands in it.
    Unreadable,
}

impl Kind {
    /// Returns its name in the words of the TOML specification.
    pub fn name(self) -> &'static str {
        match self {
            Kind::Table => "table",
            Kind::ArrayOfTables => "array of tables",
            Kind::InlineTable => "inline table",
            Kind::Array => "array",
            Kind::String => "string",
            Kind::Integer => "integer",
            Kind::Float => "float",
            Kind::Boolean => "boolean",
            Kind::DateTime => "date-time",
            Kind::Unreadable => "no value",
        }
    }

    /// Returns whether a header writes it.
    pub fn is_header(self) -> bool {
        matches!(self, Kind::Table | Kind::ArrayOfTables)
    }
}

/// A header, or a key with its value.
#[derive(Drop)]
pub struct Entry {
    /// The index in `Outline::entries` of the header above it, or of the key whose inline table has it.
    pub parent: Option<usize>,
    /// The parts of its dotted key, quotes included. A header has all parts from the root.
    pub parts: Vec<Span>,
    /// What the key names.
    pub kind: Kind,
    /// Its whole key. Of a header this is the whole header.
    pub key: Span,
    /// Its value. Of a header this is the whole header.
    pub value: Span,
    /// The whole entry: a key with its value, or a header with the keys under it.
    pub whole: Span,
}

/// What a token is.
#[derive(Clone, Copy)]
pub enum TokenKind {
    /// A part of a key.
    Key,
    /// A string, of any of the four forms.
    String,
    /// An integer or a float.
    Number,
    /// A boolean.
    Boolean,
    /// A date, a time, or both.
    DateTime,
    /// A comment, without the end of its line.
    Comment,
}

/// A key, a value without parts, or a comment. Between tokens stand only blanks, ends of lines and `=`, `.`, `,` and
/// brackets.
#[derive(Clone, Copy)]
pub struct Token {
    /// Where it stands.
    pub span: Span,
    /// What it is.
    pub kind: TokenKind,
}

/// What is wrong at a part of a text.
#[derive(Drop)]
pub struct Problem {
    /// Where it stands.
    pub span: Span,
    /// What it is, in words for the user.
    pub message: String,
}

/// The outline of a text.
#[derive(Drop)]
pub struct Outline<'t> {
    /// The text.
    pub text: &'t str,
    /// Its headers and keys, in the order of the text.
    pub entries: Vec<Entry>,
    /// Its tokens, in the order of the text. Those of a line with a problem end at the problem.
    pub tokens: Vec<Token>,
    /// Why the text is no document of TOML 1.1. If it is one, there are none.
    pub problems: Vec<Problem>,
    /// What TOML 1.1 allows and TOML 1.0 does not.
    pub newer: Vec<Problem>,
}

impl<'t> Outline<'t> {
    /// Makes an outline without entries and problems.
    pub fn new(alloc: Global, text: &'t str) -> Outline<'t>
        ensures text { result.text.now ≡ text.now }
        ensures entries { result.entries.items ≡ [] }
        ensures tokens { result.tokens.items ≡ [] }
        ensures problems { result.problems.items ≡ [] }
        ensures newer { result.newer.items ≡ [] }
    {
        Outline {
            text,
            entries: Vec::new(alloc),
            tokens: Vec::new(alloc),
            problems: Vec::new(alloc),
            newer: Vec::new(alloc),
        }
    }

    /// Returns the key of an entry after the keys of all its parents. The parts are as in the text, with dots between
    /// them. Of its own parts it has the first `count`.
    pub fn full_key(&self, alloc: Global, index: usize, count: usize) -> Result<String, AllocError>
        ensures { IfOk result (λ key.
            string_bytes key ≡ name_to self.now.text.now (keys_of self.now) index count) }
    {
        let spans = self.spans_to(alloc, index, count)?;
        self.joined(alloc, spans.as_slice())
    }

    /// Returns the whole key of an entry after the keys of all its parents.
    pub fn whole_key(&self, alloc: Global, index: usize) -> Result<String, AllocError>
        ensures { IfOk result (λ key. string_bytes key ≡ name_of self.now.text.now (keys_of self.now) index) }
    {
        let count = match self.entry(Some(index)) {
            Some(entry) => entry.parts.len(),
            None => 0,
        };
        self.full_key(alloc, index, count)
    }

    /// Returns an entry, if its index is given and there is one.
    fn entry(&self, index: Option<usize>) -> Option<&Entry>
        ensures { option_map (λ entry. key_of entry.now) result
            ≡ option_and_then (slice_get (keys_of self.now)) index }
    {
        let at = index?;
        if at < self.entries.len() {
            Some(&self.entries[at])
        } else {
            None
        }
    }

    /// Returns the parts of the keys of all parents of an entry, then the first `count` parts of its key.
    fn spans_to(&self, alloc: Global, index: usize, count: usize) -> Result<Vec<Span>, AllocError>
        ensures { IfOk result (λ spans. spans.items
            ≡ parts_to (keys_of self.now) count (slice_get (keys_of self.now) index)) }
    {
        let mut spans = Vec::new(alloc);
        let Some(entry) = self.entry(Some(index)) else {
            return Ok(spans);
        };
        add_backward(entry.parts.as_slice(), count, &mut spans)?;
        let mut next = entry.parent;
        for _ in 0..self.entries.len() {
            let Some(parent) = self.entry(next) else {
                break;
            };
            add_backward(parent.parts.as_slice(), parent.parts.len(), &mut spans)?;
            next = parent.parent;
        }
        spans.reverse();
        Ok(spans)
    }

    /// Returns the names that lead from the root to the table or value of an entry. Quotes and escapes are read. Of the
    /// entry's own parts it has the first `count`.
    pub fn path(
        &self,
        alloc: Global,
        index: usize,
        count: usize,
    ) -> Result<Vec<String>, AllocError> {
        let spans = self.spans_to(alloc, index, count)?;
        let mut names = Vec::new(alloc);
        for span in spans.iter() {
            names.push(self.name(alloc, *span)?)?;
        }
        Ok(names)
    }

    /// Returns the name that a part of a key writes.
    pub fn name(&self, alloc: Global, part: Span) -> Result<String, AllocError> {
        let written = self.written(part);
        if !starts_string(written) {
            return String::from_str(alloc, written);
        }
        match quoted(alloc, written) {
            Ok((name, _)) => Ok(name),
            Err(ParseError::OutOfMemory) => Err(AllocError),
            Err(ParseError::At(_, _, _)) => String::from_str(alloc, written),
        }
    }

    /// Returns a part of the text. It is empty where the text has no such part.
    pub fn written(&self, part: Span) -> &'t str
        ensures { result.now ≡ written self.now.text.now part }
    {
        let text = self.text;
        if part.start <= part.end && is_boundary(text, part.start) && is_boundary(text, part.end) {
            &text[part.start..part.end]
        } else {
            ""
        }
    }

    /// Joins parts of the text by dots.
    pub fn joined(&self, alloc: Global, spans: &[Span]) -> Result<String, AllocError>
        ensures { IfOk result (λ key. string_bytes key ≡ name_with self.now.text.now [] spans.now) }
    {
        let mut key = String::new(alloc);
        for span in spans.iter() {
            add_part(&mut key, self.written(*span))?;
        }
        Ok(key)
    }

    /// Returns the index of an entry, and the index of the part of its key that a cursor at this offset touches.
    pub fn part_at(&self, offset: usize) -> Option<(usize, usize)> {
        for (index, entry) in self.entries.iter().enumerate() {
            if let Some(number) = entry.parts.iter().position(|part| part.touches(offset)) {
                return Some((index, number));
            }
        }
        None
    }

    /// Returns the innermost entry whose value a cursor at this offset touches. Headers have no values.
    pub fn value_at(&self, offset: usize) -> Option<usize> {
        let mut found = None;
        for (index, entry) in self.entries.iter().enumerate() {
            if !entry.kind.is_header() && entry.value.touches(offset) {
                found = Some(index);
            }
        }
        found
    }
}

/// Adds a part to a name, after a dot if it is not the first.
fn add_part(name: &mut String, part: &str) -> Result<(), AllocError>
    ensures { OnOk result (string_bytes name.new ≡ names.add_part (string_bytes name.old) part.now) }
{
    if !name.is_empty() {
        name.push('.')?;
    }
    name.push_str(part)?;
    Ok(())
}

/// Adds the first `count` parts, the last one first.
fn add_backward(parts: &[Span], count: usize, spans: &mut Vec<Span>) -> Result<(), AllocError>
    ensures { OnOk result (spans.new.items ≡ spans.old.items ++ reverse (take count parts.now)) }
{
    let mut left = parts.len().min(count);
    while left > 0 {
        left -= 1;
        spans.push(parts[left])?;
    }
    Ok(())
}

/// Returns whether a character begins at a place, or the text ends there.
fn is_boundary(text: &str, at: usize) -> bool
    ensures { result ≡ names.is_boundary text.now at }
{
    at <= text.len() && !(byte_at(text, at) >= 128 && byte_at(text, at) < 192)
}
