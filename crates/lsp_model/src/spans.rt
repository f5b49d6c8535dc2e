// Ranges of a text, as JSON has them (LSP 3.17, "Position" and "Range").
ghost use Rattle.std.specs.Prelude.{◌≡◌, option_map};
ghost use Rattle.serde_json.specs.View.{view};
ghost use Rattle.lsp_model.specs.Spans.{number_in, place_in, span_of, span_in, is_before as is_earlier, comes_before, overlap as do_overlap, hull as hull_of, earlier as earlier_of, later as later_of, is_within as is_inside, is_reversed as is_range_reversed, is_fold_reversed as is_folding_reversed};

use serde_json::Value;

/// A position.
#[derive(Clone, Copy)]
pub struct Place {
    pub line: u64,
    character: u64,
}

/// A range.
#[derive(Clone, Copy)]
pub struct Span {
    pub start: Place,
    pub end: Place,
}

impl Place {
    /// Returns the position at a key of an object.
    fn of(object: &Value, key: &str) -> Option<Place>
        ensures { result ≡ place_in key.now (view object.now) }
    {
        let value = object.get(key)?;
        Some(Place {
            line: number(value, "line")?,
            character: number(value, "character")?,
        })
    }

    fn is_before(self, other: Place) -> bool
        ensures { result ≡ is_earlier self other }
    {
        self.line < other.line || (self.line == other.line && self.character < other.character)
    }
}

impl Span {
    /// Returns the range at a key of an object.
    pub fn of(object: &Value, key: &str) -> Option<Span>
        ensures { result ≡ span_in key.now (view object.now) }
    {
        Span::read(object.get(key)?)
    }

    /// Returns a range.
    pub fn read(range: &Value) -> Option<Span>
        ensures { result ≡ span_of (view range.now) }
    {
        Some(Span {
            start: Place::of(range, "start")?,
            end: Place::of(range, "end")?,
        })
    }
}

/// Returns whether two ranges overlap. An empty one overlaps only what begins before it and ends after it.
pub fn overlap(one: Option<Span>, other: Option<Span>) -> bool
    ensures { result ≡ do_overlap one other }
{
    match (one, other) {
        (Some(one), Some(other)) => {
            one.start.is_before(other.end) && other.start.is_before(one.end)
        }
        _ => false,
    }
}

/// Returns the range from the first start to the last end of two ranges. One that can't be read has no part in it.
pub fn hull(one: Option<Span>, other: Option<Span>) -> Option<Span>
    ensures { result ≡ hull_of one other }
{
    match (one, other) {
        (Some(one), Some(other)) => Some(Span {
            start: earlier(one.start, other.start),
            end: later(one.end, other.end),
        }),
        (one, None) => one,
        (None, other) => other,
    }
}

fn earlier(one: Place, other: Place) -> Place
    ensures { result ≡ earlier_of one other }
{
    if other.is_before(one) { other } else { one }
}

fn later(one: Place, other: Place) -> Place
    ensures { result ≡ later_of one other }
{
    if one.is_before(other) { other } else { one }
}

/// Returns whether a range is within another one. Where one of them can't be read, this is not known, and the result is true.
pub fn is_within(whole: Option<Span>, part: Option<Span>) -> bool
    ensures { result ≡ is_inside whole part }
{
    match (whole, part) {
        (Some(whole), Some(part)) => {
            !part.start.is_before(whole.start) && !whole.end.is_before(part.end)
        }
        _ => true,
    }
}

/// Returns whether a range ends before it starts. Where it can't be read, this is not known, and the result is false.
pub fn is_reversed(range: &Value) -> bool
    ensures { result ≡ is_range_reversed (view range.now) }
{
    match Span::read(range) {
        Some(range) => range.end.is_before(range.start),
        None => false,
    }
}

/// Returns whether a folding range ends before it starts. Its columns are compared if both are there: a missing one is the end of its line.
pub fn is_fold_reversed(fold: &Value) -> bool
    ensures { result ≡ is_folding_reversed (view fold.now) }
{
    match (number(fold, "startLine"), number(fold, "endLine")) {
        (Some(start), Some(end)) if start == end => {
            is_less(number(fold, "endCharacter"), number(fold, "startCharacter"))
        }
        (Some(start), Some(end)) => end < start,
        _ => false,
    }
}

/// Returns the number at a key of an object.
pub fn number(object: &Value, key: &str) -> Option<u64>
    ensures { result ≡ number_in key.now (view object.now) }
{
    object.get(key)?.as_u64()
}

fn is_less(one: Option<u64>, other: Option<u64>) -> bool
    ensures { result ≡ comes_before one other }
{
    match (one, other) {
        (Some(one), Some(other)) => one < other,
        _ => false,
    }
}
