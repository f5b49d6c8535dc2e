// The lines of a text. Arrays and inline tables are kept on a stack, so no function calls itself.
ghost use Rattle.std.specs.Prelude.{◌≡◌, ◌<◌, true, [], Some, None, drop, length};
ghost use Rattle.std.specs.Prelude.{slice_index, IfOk, MatchResult, OnErr, OnOk, option_copied, option_map};
ghost use Rattle.toml.specs.Parse.{skip_bom};
ghost use Rattle.toml_parser.specs.Lexical as lexical;
ghost use Rattle.toml_parser.specs.Strings as strings;
ghost use Rattle.toml_outline.specs.Keys as keys;
ghost use Rattle.toml_outline.specs.Lines as lines;
ghost use Rattle.toml_outline.specs.Scanned.{KeepsKeys, KeepsRest, KeepsText, NotesProblem, ReadsExpression};
ghost use Rattle.toml_outline.specs.Scanned.{ReadsKey, ReadsLine, Skips, Steps, keys_of};
ghost use Rattle.toml_outline.specs.Values as values;

use crate::outline::{Entry, Kind, Outline, Problem, Span, Token, TokenKind};
use std::alloc::{AllocError, Global};
use toml_parser::bytes::{is_bare, is_non_eol};
use toml_parser::text::{byte_at, first, skip, skip_blank, skip_ws, starts_newline};
use toml_parser::{
    ErrorKind, ParseError, RECURSION_LIMIT, Scalar, quoted, starts_string, unquoted,
};

const NEWER_LINES: &str = "before TOML 1.1 an inline table stands on one line";

const NEWER_COMMA: &str = "before TOML 1.1 no comma ends an inline table";

const NEWER_ESCAPE: &str = r"before TOML 1.1 strings have no `\e` and `\x`";

const NEWER_TIME: &str = "before TOML 1.1 a time has seconds";

/// Where a text is read, and what was read of it.
#[derive(Drop)]
pub struct Scanner<'t> {
    alloc: Global,
    /// What was not read yet.
    rest: &'t str,
    /// The header above the next line.
    header: Option<usize>,
    outline: Outline<'t>,
}

/// A bracket or brace that is open.
#[derive(Clone, Copy)]
struct Frame {
    is_table: bool,
    /// The entry whose value it begins. An item of an array has none.
    owner: Option<usize>,
    /// The nearest entry around it.
    around: Option<usize>,
    start: usize,
}

/// What comes next within a value.
#[derive(Clone, Copy)]
enum Awaited {
    /// A value, of this entry if it is no item of an array.
    Value(Option<usize>),
    /// An item, or the end of the array.
    Item,
    /// A key of an inline table, or its end. A comma before it stands at this offset.
    Member(Option<usize>),
    /// What follows a value.
    End,
}

impl<'t> Scanner<'t> {
    pub fn new(alloc: Global, text: &'t str) -> Scanner<'t>
        ensures text { result.outline.text.now ≡ text.now }
        ensures rest { result.rest.now ≡ skip_bom text.now }
        ensures header { result.header ≡ None }
        ensures keys { keys_of result.outline ≡ [] }
        ensures problems { result.outline.problems.items ≡ [] }
    {
        Scanner {
            alloc,
            rest: without_mark(text),
            header: None,
            outline: Outline::new(alloc, text),
        }
    }

    pub fn into_outline(self) -> Outline<'t>
        ensures { result ≡ self.entry.outline }
    {
        let Scanner { outline, .. } = self;
        outline
    }

    /// Reads the next header or key. If it has a problem, the reading goes on at the next line.
    pub fn next_line(&mut self) -> Result<bool, AllocError>
        ensures { IfOk result (ReadsLine self.old self.new) }
    {
        let read = self.expression();
        self.extend_parents();
        match read {
            Ok(is_there) => Ok(is_there),
            Err(error) => {
                self.note_problem(error)?;
                Ok(true)
            }
        }
    }

    /// Notes the problem of a line, and goes on at the line after it.
    fn note_problem(&mut self, error: ParseError) -> Result<(), AllocError>
        ensures noted { OnOk result (NotesProblem self.old self.new) }
        ensures error { OnOk result (error ≡ ParseError.OutOfMemory → ⊥) }
    {
        match error {
            ParseError::OutOfMemory => Err(AllocError),
            ParseError::At(kind, from, to) => {
                let length = self.outline.text.len();
                let start = length.saturating_sub(from).max(self.offset());
                let end = length.saturating_sub(to).max(start);
                let message = String::from_str(self.alloc, kind.description())?;
                let span = Span::new(start, end);
                self.outline.problems.push(Problem { span, message })?;
                self.rest = after_line(self.outline.text, start);
                Ok(())
            }
        }
    }

    /// How many bytes were read.
    fn offset(&self) -> usize
        ensures { result ≡ keys.offset self.now.outline.text.now self.now.rest.now }
    {
        self.outline.text.len().saturating_sub(self.rest.len())
    }

    /// Notes what TOML 1.0 does not allow, from an offset up to where the text is read.
    fn note_newer(&mut self, start: usize, message: &str) -> Result<(), AllocError>
        ensures { KeepsRest self.old self.new }
    {
        let span = Span::new(start, self.offset());
        let message = String::from_str(self.alloc, message)?;
        self.outline.newer.push(Problem { span, message })?;
        Ok(())
    }

    /// Notes a token from an offset up to where the text is read.
    fn note(&mut self, start: usize, kind: TokenKind) -> Result<(), AllocError>
        ensures { KeepsRest self.old self.new }
    {
        let span = Span::new(start, self.offset());
        self.outline.tokens.push(Token { span, kind })?;
        Ok(())
    }

    /// Skips blanks, ends of lines and comments.
    fn skip_comments(&mut self) -> Result<(), AllocError>
        ensures kept { KeepsKeys self.old self.new }
        ensures rest { OnOk result (self.new.rest.now ≡ lexical.skip_blank self.old.rest.now) }
    {
        note_comments(self.outline.text, self.rest, &mut self.outline.tokens)?;
        self.rest = skip_blank(self.rest, true);
        Ok(())
    }

    fn expression(&mut self) -> Result<bool, ParseError>
        ensures text { self.new.outline.text.now ≡ self.old.outline.text.now }
        ensures problems { self.new.outline.problems.items ≡ self.old.outline.problems.items }
        ensures line { ReadsExpression (lines.line self.old.outline.text.now self.old.header self.old.rest.now
            (keys_of self.old.outline)) (keys_of self.old.outline) self.new result }
    {
        self.skip_comments()?;
        if self.rest.is_empty() {
            return Ok(false);
        }
        self.content()?;
        self.rest = skip_ws(self.rest);
        if !ends_line(self.rest) {
            return Err(ParseError::at(ErrorKind::EndOfLine, self.rest));
        }
        Ok(true)
    }

    /// Reads a header, or a key with its value.
    fn content(&mut self) -> Result<(), ParseError>
        ensures text { self.new.outline.text.now ≡ self.old.outline.text.now }
        ensures problems { self.new.outline.problems.items ≡ self.old.outline.problems.items }
        ensures header { OnErr result (self.new.header ≡ self.old.header) }
        ensures step { Steps (λ _. self.new.header) result self.new
            (lines.content self.old.outline.text.now self.old.header self.old.rest.now (keys_of self.old.outline)) }
    {
        if first(self.rest) == b'[' {
            return self.read_header();
        }
        let entry = self.key_and_equals(self.header)?;
        self.value(entry)
    }

    fn read_header(&mut self) -> Result<(), ParseError>
        requires { slice_index self.old.rest.now 0 ≡ 91 }
        ensures text { self.new.outline.text.now ≡ self.old.outline.text.now }
        ensures problems { self.new.outline.problems.items ≡ self.old.outline.problems.items }
        ensures set { OnOk result (self.new.header ≡ Some (length (keys_of self.old.outline))) }
        ensures unset { OnErr result (self.new.header ≡ self.old.header) }
        ensures step { Steps (λ _. tt) result self.new
            (lines.header self.old.outline.text.now self.old.rest.now (keys_of self.old.outline)) }
    {
        let start = self.offset();
        let is_array = begins_array(self.rest);
        self.rest = skip_ws(after_opening(self.rest, is_array));
        let (parts, _) = self.dotted_key()?;
        let Some(rest) = after_brackets(self.rest, b']', is_array) else {
            return Err(ParseError::at(unclosed(is_array), self.rest));
        };
        self.rest = rest;
        let whole = Span::new(start, self.offset());
        let index = self.outline.entries.len();
        self.outline.entries.push(Entry {
            parent: None,
            parts,
            kind: header_kind(is_array),
            key: whole,
            value: whole,
            whole,
        })?;
        self.header = Some(index);
        Ok(())
    }

    /// Reads a key with its dots, and the spaces after it. Returns its parts, and where the last one ends. Like the
    /// kit's `toml` it takes no key of more parts than the limit.
    fn dotted_key(&mut self) -> Result<(Vec<Span>, usize), ParseError>
        ensures kept { KeepsKeys self.old self.new }
        ensures read { ReadsKey result self.old self.new }
    {
        let mut parts = Vec::new(self.alloc);
        for _ in 0..RECURSION_LIMIT {
            let part = self.key_part()?;
            parts.push(part)?;
            self.rest = skip_ws(self.rest);
            if first(self.rest) != b'.' {
                return Ok((parts, part.end));
            }
            self.rest = skip_ws(skip(self.rest, 1));
        }
        Err(ParseError::at(ErrorKind::Recursion, self.rest))
    }

    fn key_part(&mut self) -> Result<Span, ParseError>
        ensures kept { KeepsKeys self.old self.new }
        ensures rest { MatchResult result
            (λ span. (keys.skip_part self.old.rest.now ≡ Some self.new.rest.now)
            × (span ≡ keys.part self.old.outline.text.now self.old.rest.now self.new.rest.now))
            (λ e. (e ≡ ParseError.OutOfMemory → ⊥) → keys.skip_part self.old.rest.now ≡ None) }
    {
        let start = self.offset();
        if starts_string(self.rest) && !has_lines(self.rest) {
            self.string()?;
        } else if is_bare(first(self.rest)) {
            self.rest = skip_bare(self.rest);
        } else {
            return Err(ParseError::at(ErrorKind::Key, self.rest));
        }
        self.note(start, TokenKind::Key)?;
        Ok(Span::new(start, self.offset()))
    }

    /// Reads the string that begins here.
    fn string(&mut self) -> Result<(), ParseError>
        requires { strings.starts_string self.old.rest.now ≡ true }
        ensures kept { KeepsKeys self.old self.new }
        ensures rest { MatchResult result
            (λ _. keys.skip_string self.old.rest.now ≡ Some self.new.rest.now)
            (λ e. (e ≡ ParseError.OutOfMemory → ⊥) → keys.skip_string self.old.rest.now ≡ None) }
    {
        let start = self.offset();
        let (_text, rest) = quoted(self.alloc, self.rest)?;
        self.rest = rest;
        let written = self.outline.text.get(start..self.offset()).unwrap_or("");
        if has_newer_escape(written) {
            self.note_newer(start, NEWER_ESCAPE)?;
        }
        Ok(())
    }

    /// Reads a key and its `=`. The new entry has no value yet.
    fn key_and_equals(&mut self, parent: Option<usize>) -> Result<usize, ParseError>
        ensures kept { KeepsText self.old self.new }
        ensures step { Steps (λ index. index) result self.new
            (keys.key_equals self.old.outline.text.now parent self.old.rest.now (keys_of self.old.outline)) }
    {
        let start = self.offset();
        let (parts, end) = self.dotted_key()?;
        let index = self.outline.entries.len();
        let key = Span::new(start, end);
        self.outline.entries.push(Entry {
            parent,
            parts,
            kind: Kind::Unreadable,
            key,
            value: Span::new(end, end),
            whole: key,
        })?;
        if first(self.rest) != b'=' {
            return Err(ParseError::at(ErrorKind::MissingEquals, self.rest));
        }
        self.rest = skip_ws(skip(self.rest, 1));
        Ok(index)
    }

    /// Reads the value of an entry.
    fn value(&mut self, entry: usize) -> Result<(), ParseError>
        ensures kept { KeepsText self.old self.new }
        ensures step { Steps (λ _. tt) result self.new
            (lines.value self.old.outline.text.now entry self.old.rest.now (keys_of self.old.outline)) }
    {
        let mut frames: Vec<Frame> = Vec::new(self.alloc);
        let mut awaited = Some(Awaited::Value(Some(entry)));
        // Each turn takes a character, or awaits something else than the turn before.
        for _ in 0..2 * self.rest.len() + 1 {
            let Some(next) = awaited else {
                break;
            };
            awaited = self.step(&mut frames, next)?;
        }
        Ok(())
    }

    /// Reads what is awaited, and returns what is awaited next.
    fn step(
        &mut self,
        frames: &mut Vec<Frame>,
        awaited: Awaited,
    ) -> Result<Option<Awaited>, ParseError>
        ensures kept { KeepsText self.old self.new }
        ensures step { Steps (option_map (λ next. (frames.new.items, next))) result self.new
            (values.turn self.old.outline.text.now awaited frames.old.items self.old.rest.now
            (keys_of self.old.outline)) }
    {
        match awaited {
            Awaited::Value(owner) => Ok(Some(self.begin(frames, owner)?)),
            Awaited::Item => Ok(Some(self.next_item(frames)?)),
            Awaited::Member(comma) => Ok(Some(self.next_member(frames, comma)?)),
            Awaited::End => match frames.as_slice().last().copied() {
                Some(frame) => Ok(Some(self.separator(frames, frame)?)),
                None => Ok(None),
            },
        }
    }

    /// Skips spaces, ends of lines and comments. In an inline table TOML 1.0 allows only spaces.
    fn skip_lines(&mut self, is_table: bool) -> Result<(), AllocError>
        ensures kept { KeepsKeys self.old self.new }
        ensures rest { OnOk result (self.new.rest.now ≡ lexical.skip_blank self.old.rest.now) }
    {
        let spaced = skip_ws(self.rest).len();
        let start = self.outline.text.len().saturating_sub(spaced);
        self.skip_comments()?;
        if is_table && self.rest.len() < spaced {
            self.note_newer(start, NEWER_LINES)?;
        }
        Ok(())
    }

    /// Reads up to the next item of an array, or its end.
    fn next_item(&mut self, frames: &mut Vec<Frame>) -> Result<Awaited, ParseError>
        ensures kept { KeepsText self.old self.new }
        ensures step { Steps (λ next. (frames.new.items, next)) result self.new
            (values.next_item self.old.outline.text.now frames.old.items self.old.rest.now
            (keys_of self.old.outline)) }
    {
        self.skip_lines(false)?;
        if first(self.rest) != b']' {
            return Ok(Awaited::Value(None));
        }
        self.close(frames);
        Ok(Awaited::End)
    }

    /// Reads the next key of an inline table, or its end.
    fn next_member(
        &mut self,
        frames: &mut Vec<Frame>,
        comma: Option<usize>,
    ) -> Result<Awaited, ParseError>
        ensures kept { KeepsText self.old self.new }
        ensures step { Steps (λ next. (frames.new.items, next)) result self.new
            (values.next_member self.old.outline.text.now frames.old.items self.old.rest.now
            (keys_of self.old.outline)) }
    {
        self.skip_lines(true)?;
        if first(self.rest) != b'}' {
            let entry = self.key_and_equals(holder(frames.as_slice()))?;
            return Ok(Awaited::Value(Some(entry)));
        }
        self.note_comma(comma)?;
        self.close(frames);
        Ok(Awaited::End)
    }

    /// Notes the comma before the end of an inline table, if one stands there.
    fn note_comma(&mut self, comma: Option<usize>) -> Result<(), AllocError>
        ensures { KeepsRest self.old self.new }
    {
        match comma {
            Some(start) => self.note_newer(start, NEWER_COMMA),
            None => Ok(()),
        }
    }

    /// Reads a value that has no parts, or the bracket that opens one.
    fn begin(
        &mut self,
        frames: &mut Vec<Frame>,
        owner: Option<usize>,
    ) -> Result<Awaited, ParseError>
        ensures kept { KeepsText self.old self.new }
        ensures step { Steps (λ next. (frames.new.items, next)) result self.new
            (values.begin self.old.outline.text.now owner frames.old.items self.old.rest.now
            (keys_of self.old.outline)) }
    {
        let start = self.offset();
        let is_table = first(self.rest) == b'{';
        if !is_table && first(self.rest) != b'[' {
            let kind = self.scalar()?;
            self.settle(owner, kind, start);
            return Ok(Awaited::End);
        }
        if frames.len() >= RECURSION_LIMIT {
            return Err(ParseError::at(ErrorKind::Recursion, self.rest));
        }
        let around = around(owner, frames.as_slice());
        frames.push(Frame {
            is_table,
            owner,
            around,
            start,
        })?;
        self.rest = skip(self.rest, 1);
        Ok(if is_table {
            Awaited::Member(None)
        } else {
            Awaited::Item
        })
    }

    fn scalar(&mut self) -> Result<Kind, ParseError>
        ensures kept { KeepsKeys self.old self.new }
        ensures read { Skips (λ kind. kind) result self.new (values.scalar self.old.rest.now) }
    {
        let start = self.offset();
        if starts_string(self.rest) {
            self.string()?;
            self.note(start, TokenKind::String)?;
            return Ok(Kind::String);
        }
        let (scalar, rest) = unquoted(self.alloc, self.rest)?;
        self.rest = rest;
        let kind = kind_of(scalar);
        self.note(start, token_of(kind))?;
        let written = self.outline.text.get(start..self.offset()).unwrap_or("");
        if matches!(kind, Kind::DateTime) && lacks_seconds(written) {
            self.note_newer(start, NEWER_TIME)?;
        }
        Ok(kind)
    }

    /// Ends the value of an entry that began at an offset.
    fn settle(&mut self, owner: Option<usize>, kind: Kind, start: usize)
        ensures kept { KeepsText self.old self.new }
        ensures rest { self.new.rest.now ≡ self.old.rest.now }
        ensures keys { keys_of self.new.outline ≡ values.settle owner kind (keys_of self.old.outline) }
    {
        let value = Span::new(start, self.offset());
        if let Some(at) = owner
            && at < self.outline.entries.len()
        {
            settle_entry(&mut self.outline.entries[at], kind, value);
        }
    }

    /// Extends the entries around the last one to its end, also those whose values have a problem.
    fn extend_parents(&mut self)
        ensures { KeepsRest self.old self.new }
    {
        let mut end = 0;
        let mut next = self.outline.entries.len().checked_sub(1);
        for _ in 0..self.outline.entries.len() {
            let Some(at) = next else {
                break;
            };
            (end, next) = self.extend(at, end);
        }
    }

    /// Extends an entry to an end, if it ends before. Returns its end, and the entry around it.
    fn extend(&mut self, at: usize, end: usize) -> (usize, Option<usize>)
        ensures { KeepsRest self.old self.new }
    {
        if at >= self.outline.entries.len() {
            return (end, None);
        }
        let entry = &mut self.outline.entries[at];
        entry.whole.end = entry.whole.end.max(end);
        (entry.whole.end, entry.parent)
    }

    /// Reads the bracket that closes the innermost open one.
    fn close(&mut self, frames: &mut Vec<Frame>)
        requires some { 0 < slice_index self.old.rest.now 0 }
        requires ascii { slice_index self.old.rest.now 0 < 128 }
        ensures kept { KeepsText self.old self.new }
        ensures left { frames.new.items ≡ values.outer frames.old.items }
        ensures rest { self.new.rest.now ≡ drop 1 self.old.rest.now }
        ensures keys { keys_of self.new.outline
            ≡ values.settle_frame (values.innermost frames.old.items) (keys_of self.old.outline) }
    {
        self.rest = skip(self.rest, 1);
        let frame = frames.as_slice().last().copied();
        frames.truncate(frames.len().saturating_sub(1));
        if let Some(frame) = frame {
            let kind = if frame.is_table {
                Kind::InlineTable
            } else {
                Kind::Array
            };
            self.settle(frame.owner, kind, frame.start);
        }
    }

    /// Reads what follows an item, or the value of a key: a comma, or the closing bracket.
    fn separator(&mut self, frames: &mut Vec<Frame>, frame: Frame) -> Result<Awaited, ParseError>
        ensures kept { KeepsText self.old self.new }
        ensures step { Steps (λ next. (frames.new.items, next)) result self.new
            (values.separator self.old.outline.text.now frame frames.old.items self.old.rest.now
            (keys_of self.old.outline)) }
    {
        self.skip_lines(frame.is_table)?;
        let comma = self.offset();
        if first(self.rest) == b',' {
            self.rest = skip(self.rest, 1);
            return Ok(after_comma(frame.is_table, comma));
        }
        if first(self.rest) != closing(frame.is_table) {
            return Err(ParseError::at(unended(frame.is_table), self.rest));
        }
        self.close(frames);
        Ok(Awaited::End)
    }
}

/// What is awaited after a comma that stands at an offset.
fn after_comma(is_table: bool, comma: usize) -> Awaited
    ensures { result ≡ values.after_comma is_table comma }
{
    if is_table {
        Awaited::Member(Some(comma))
    } else {
        Awaited::Item
    }
}

/// The bracket that closes an inline table or an array.
fn closing(is_table: bool) -> u8
    ensures bracket { result ≡ values.closing is_table }
    ensures some { 0 < result }
    ensures ascii { result < 128 }
{
    if is_table { b'}' } else { b']' }
}

fn unended(is_table: bool) -> ErrorKind {
    if is_table {
        ErrorKind::InlineTable
    } else {
        ErrorKind::Array
    }
}

fn unclosed(is_array: bool) -> ErrorKind {
    if is_array {
        ErrorKind::UnclosedArrayTable
    } else {
        ErrorKind::UnclosedTable
    }
}

/// What a header begins.
fn header_kind(is_array: bool) -> Kind
    ensures { result ≡ lines.header_kind is_array }
{
    if is_array {
        Kind::ArrayOfTables
    } else {
        Kind::Table
    }
}

/// Whether a line is over, but for a comment.
fn ends_line(text: &str) -> bool
    ensures { result ≡ lines.ends_line text.now }
{
    text.is_empty() || first(text) == b'#' || starts_newline(text)
}

/// The text without the byte order mark.
fn without_mark(text: &str) -> &str
    ensures { result.now ≡ skip_bom text.now }
{
    if first(text) == 0xEF && byte_at(text, 1) == 0xBB && byte_at(text, 2) == 0xBF {
        &text[3..]
    } else {
        text
    }
}

/// The text after the line of an offset.
fn after_line(text: &str, offset: usize) -> &str
    ensures { result.now ≡ lines.after_newline (drop offset text.now) }
{
    for at in offset..text.len() {
        if byte_at(text, at) == b'\n' {
            return skip(text, at + 1);
        }
    }
    ""
}

/// The text after a bracket, or after two, if it begins with them.
fn after_brackets(text: &str, bracket: u8, is_double: bool) -> Option<&str>
    requires some { 0 < bracket }
    requires ascii { bracket < 128 }
    ensures { option_copied result ≡ lines.after_brackets bracket is_double text.now }
{
    if first(text) != bracket {
        None
    } else if !is_double {
        Some(skip(text, 1))
    } else if byte_at(text, 1) == bracket {
        Some(skip(text, 2))
    } else {
        None
    }
}

/// Whether a header of an array of tables begins here.
fn begins_array(text: &str) -> bool
    ensures { result ≡ lines.begins_array text.now }
{
    first(text) == b'[' && byte_at(text, 1) == b'['
}

/// The text after the brackets that open a header.
fn after_opening(text: &str, is_array: bool) -> &str
    requires bracket { slice_index text.now 0 ≡ 91 }
    requires array { is_array ≡ lines.begins_array text.now }
    ensures { result.now ≡ lines.after_opening is_array text.now }
{
    if is_array {
        skip(text, 2)
    } else {
        skip(text, 1)
    }
}

/// Whether three quotes stand where a string begins.
fn has_lines(text: &str) -> bool
    ensures { result ≡ keys.has_lines text.now }
{
    byte_at(text, 1) == first(text) && byte_at(text, 2) == first(text)
}

/// The text after the bare key at its front.
fn skip_bare(text: &str) -> &str
    ensures { result.now ≡ keys.skip_bare text.now }
{
    let mut rest = text;
    'bytes: while is_bare(first(rest)) {
        rest = skip(rest, 1);
    }
    rest
}

/// Notes the comments that stand before the next key or value.
fn note_comments(text: &str, rest: &str, tokens: &mut Vec<Token>) -> Result<(), AllocError> {
    let mut rest = rest;
    // Each turn but the last reads a comment.
    for _ in 0..=rest.len() {
        rest = skip_blank(rest, false);
        if first(rest) != b'#' {
            break;
        }
        let start = text.len().saturating_sub(rest.len());
        let length = rest.bytes().take_while(|b| is_non_eol(*b)).count();
        rest = rest.get(length..).unwrap_or("");
        let span = Span::new(start, text.len().saturating_sub(rest.len()));
        tokens.push(Token {
            span,
            kind: TokenKind::Comment,
        })?;
    }
    Ok(())
}

/// The kind of a scalar.
fn kind_of(scalar: Scalar) -> Kind
    ensures { result ≡ values.kind_of scalar }
{
    match scalar {
        Scalar::Boolean(_) => Kind::Boolean,
        Scalar::Integer(_) => Kind::Integer,
        Scalar::Float(_) => Kind::Float,
        Scalar::Datetime(_) => Kind::DateTime,
    }
}

/// The token of a scalar.
fn token_of(kind: Kind) -> TokenKind {
    match kind {
        Kind::Boolean => TokenKind::Boolean,
        Kind::DateTime => TokenKind::DateTime,
        _ => TokenKind::Number,
    }
}

/// The entry around what stands in the innermost bracket.
fn holder(frames: &[Frame]) -> Option<usize>
    ensures { result ≡ values.holder frames.now }
{
    match frames.last().copied() {
        Some(frame) => frame.around,
        None => None,
    }
}

/// The entry around the items of a value, which this entry may own.
fn around(owner: Option<usize>, frames: &[Frame]) -> Option<usize>
    ensures { result ≡ values.around owner frames.now }
{
    match owner {
        Some(entry) => Some(entry),
        None => holder(frames),
    }
}

/// Gives an entry its value.
fn settle_entry(entry: &mut Entry, kind: Kind, value: Span)
    ensures { keys.key_of entry.new ≡ record (keys.key_of entry.old) { kind = kind } }
{
    entry.kind = kind;
    entry.value = value;
    entry.whole.end = value.end;
}

/// Whether a string has an escape that is new in TOML 1.1. A string in single quotes has no escapes.
fn has_newer_escape(written: &str) -> bool {
    let mut is_escaped = false;
    for byte in written.bytes() {
        if is_escaped && (byte == b'e' || byte == b'x') {
            return written.starts_with('"');
        }
        is_escaped = byte == b'\\' && !is_escaped;
    }
    false
}

/// Whether a time in a value ends after its minutes.
fn lacks_seconds(written: &str) -> bool {
    match written.find(':') {
        Some(at) => written.as_bytes().get(at.saturating_add(3)) != Some(&b':'),
        None => false,
    }
}
