// A text with the places where its lines begin.
ghost use Rattle.std.specs.Prelude.{◌≡◌, ℕ, List, length, map, drop, slice_index, IfOk, MatchOption, OnOk, OnErr, ◌≤◌, ◌<◌, ◌^◌, min};
ghost use Rattle.std.specs.String.{string_bytes};
ghost use Rattle.std.specs.String.Boundary.{IsSplitPoint};
ghost use Rattle.std.specs.List.{replace_range};
ghost use Rattle.lsp_text.specs.Lines.{lined, starts_of};
ghost use Rattle.lsp_text.specs.declared.line_ends.LineEnds.TheVariants.{LineFeed};
ghost use Rattle.lsp_text.specs.Columns.{offset_of, line_text, line_of, column_of, column_left, IsPlace};
ghost use Rattle.lsp_text.specs.Edits.{edited, is_past_end, past_in};
ghost use Rattle.lsp_text.specs.Places.{position_of, IsCounted};

use crate::columns::{Reached, Width};
use crate::line_ends::LineEnds;
use crate::position::{Position, PositionEncoding, Range};
use crate::{columns, lines};
use std::alloc::{AllocError, Global};
use std::marker::Model;

/// A place of a line, up to which the line's units are counted.
#[derive(Clone, Copy, Drop)]
struct Mark {
    start: usize,
    place: usize,
    width: Width,
}

impl Mark {
    /// The text's start.
    const START: Mark = Mark {
        start: 0,
        place: 0,
        width: Width {
            units: 0,
            ended: false,
        },
    };
}

/// A text with the places where its lines begin. Contracts see the bytes of its UTF-8, and what ends its lines.
#[derive(Drop)]
pub struct Text {
    ends: LineEnds,
    text: String,
    starts: Vec<usize>,
}

impl Model for Text {
    ghost use Rattle.std.specs.Prelude.{◌≡◌};
    ghost use Rattle.std.specs.String.{string_bytes};
    ghost use Rattle.lsp_text.specs.Lines.{LinedText, lined, line_starts};

    ghost Value = { LinedText };

    ghost view = { λ t. lined t.ends (string_bytes t.text) };

    ghost invariant = { λ t. t.starts.items ≡ line_starts t.ends (string_bytes t.text) };
}

impl Clone for Text {
    ghost is_clone = { λ text copy. copy ≡ text };

    fn clone(&self) -> Result<Text, AllocError> {
        let text = self.text.clone()?;
        let starts = self.starts.clone()?;
        Ok(Text {
            ends: self.ends,
            text,
            starts,
        })
    }
}

impl Text {
    /// Makes a copy of a text. Its lines end as `LineEnds::LineFeed` says. `Err` means that an allocation failed.
    pub fn new(alloc: Global, text: &str) -> Result<Text, AllocError>
        ensures { IfOk result (λ t. t ≡ lined LineFeed text.now) }
    {
        Text::with_line_ends(alloc, text, LineEnds::LineFeed)
    }

    /// Makes a copy of a text. `ends` says what ends its lines. `Err` means that an allocation failed.
    pub fn with_line_ends(alloc: Global, text: &str, ends: LineEnds) -> Result<Text, AllocError>
        ensures { IfOk result (λ t. t ≡ lined ends text.now) }
    {
        let starts = lines::starts_of(alloc, ends, text.as_bytes())?;
        let text = String::from_str(alloc, text)?;
        Ok(Text { ends, text, starts })
    }

    /// Returns what ends its lines.
    pub fn line_ends(&self) -> LineEnds
        ensures { result ≡ self.now.ends }
    {
        self.ends
    }

    /// Returns the whole text.
    pub fn as_str(&self) -> &str
        ensures { result.now ≡ self.now.bytes }
    {
        self.text.as_str()
    }

    /// Returns how many lines the text has: one more than ends of lines.
    pub fn line_count(&self) -> usize
        ensures { result ≡ length (starts_of self.now) }
    {
        self.starts.len()
    }

    /// Returns a line without its end: `\n` or `\r\n`, or `\r` if that ends lines too. Lines count from 0, and the last
    /// one may be empty. `None` means that the text has no such line.
    pub fn line(&self, line: u32) -> Option<&str>
        ensures { MatchOption result (length (starts_of self.now) ≤ line)
            (λ found. (line < length (starts_of self.now))
            × (found.now ≡ line_text self.now line)) }
    {
        let line = line as usize;
        let starts = self.starts.as_slice();
        if line >= starts.len() {
            return None;
        }
        let text = self.text.as_bytes();
        let start = lines::start_of(self.ends, text, starts, line);
        let end = lines::line_end(self.ends, text, starts, line);
        Some(&self.text.as_str()[start..end])
    }

    /// Returns the offset of a position in the text, in bytes of UTF-8. A line past the last one is the text's end. A
    /// character past the line's end is the line's end, and one within a character is that character's start.
    pub fn offset_at(&self, position: Position, encoding: PositionEncoding) -> usize
        ensures value { result ≡ offset_of encoding self.now position.line position.character }
        ensures boundary { IsSplitPoint self.now.bytes result }
    {
        self.reach(position, encoding).place
    }

    /// Returns the place of a position, and how many units of its character are left there.
    fn reach(&self, position: Position, encoding: PositionEncoding) -> Reached
        ensures value { result.place
            ≡ offset_of encoding self.now position.line position.character }
        ensures left { position.line < length (starts_of self.now)
            → result.left
            ≡ column_left self.now.ends encoding position.character
            (drop (slice_index (starts_of self.now) position.line) self.now.bytes) }
        ensures fewer { result.left ≤ position.character }
        ensures boundary { IsSplitPoint self.now.bytes result.place }
    {
        let line = position.line as usize;
        if line < self.starts.len() {
            let text = self.text.as_bytes();
            let start = lines::start_of(self.ends, text, self.starts.as_slice(), line);
            columns::reach_in(self.ends, encoding, position.character, text, start)
        } else {
            Reached {
                place: self.text.len(),
                left: 0,
            }
        }
    }

    /// Returns the place of the end of a range, and how many units of its character are left there. If it is in the
    /// line of the range's start, which was reached, the search goes on from there.
    fn end_of(&self, range: Range, encoding: PositionEncoding, start: Reached) -> Reached
        requires place { start.place
            ≡ offset_of encoding self.now range.start.line range.start.character }
        requires left { range.start.line < length (starts_of self.now)
            → start.left ≡ column_left self.now.ends encoding range.start.character
            (drop (slice_index (starts_of self.now) range.start.line) self.now.bytes) }
        requires fewer { start.left ≤ range.start.character }
        requires boundary { IsSplitPoint self.now.bytes start.place }
        ensures value { result.place
            ≡ offset_of encoding self.now range.end.line range.end.character }
        ensures left { range.end.line < length (starts_of self.now)
            → result.left ≡ column_left self.now.ends encoding range.end.character
            (drop (slice_index (starts_of self.now) range.end.line) self.now.bytes) }
        ensures boundary { IsSplitPoint self.now.bytes result.place }
    {
        let line = range.end.line as usize;
        let behind = range.start.character <= range.end.character;
        if line < self.starts.len() && range.start.line == range.end.line && behind {
            let more = range.end.character - range.start.character;
            let text = self.text.as_bytes();
            columns::reach_in(self.ends, encoding, start.left + more, text, start.place)
        } else {
            self.reach(range.end, encoding)
        }
    }

    /// Returns whether a position is past its line's end, or past the place after the last line. `reached` is its
    /// place.
    fn is_past(&self, position: Position, encoding: PositionEncoding, reached: Reached) -> bool
        requires place { reached.place
            ≡ offset_of encoding self.now position.line position.character }
        requires left { position.line < length (starts_of self.now)
            → reached.left ≡ column_left self.now.ends encoding position.character
            (drop (slice_index (starts_of self.now) position.line) self.now.bytes) }
        ensures { result ≡ is_past_end encoding self.now position }
    {
        let line = position.line as usize;
        if line < self.starts.len() {
            columns::is_past(self.ends, self.text.as_bytes(), reached)
        } else {
            line > self.starts.len() || position.character > 0
        }
    }

    /// Returns the position of an offset in bytes of UTF-8. An offset past the text's end is its end, one within the
    /// end of a line is that line's end, and one within a character counts that character. A number that does not fit
    /// is the greatest one.
    pub fn position_at(&self, offset: usize, encoding: PositionEncoding) -> Position
        ensures line { result.line ≡ min (line_of self.now (min offset (length self.now.bytes)))
            0xFFFF_FFFF }
        ensures character { result.character
            ≡ min (column_of encoding self.now (min offset (length self.now.bytes))) 0xFFFF_FFFF }
        ensures inverse { IsPlace self.now offset → length self.now.bytes < 2 ^ 30
            → offset_of encoding self.now result.line result.character ≡ offset }
    {
        let text = self.text.as_bytes();
        let place = offset.min(text.len());
        let line = lines::line_at(self.ends, text, self.starts.as_slice(), place);
        let start = lines::start_of(self.ends, text, self.starts.as_slice(), line);
        Position {
            line: fitted(line),
            character: columns::width_of(self.ends, encoding, &text[start..place]).units,
        }
    }

    /// Returns the positions of several offsets, each as `position_at` does. An offset in the line of the one before
    /// it, and not before that, is counted from there on. So offsets in ascending order read each line once.
    /// `Err` means that an allocation failed.
    pub fn positions_at(
        &self,
        alloc: Global,
        offsets: &[usize],
        encoding: PositionEncoding,
    ) -> Result<Vec<Position>, AllocError>
        ensures { IfOk result (λ found.
            found.items ≡ map (position_of encoding self.now) offsets.now) }
    {
        let mut positions = Vec::new(alloc);
        let mut mark = Mark::START;
        for i in 0..offsets.len() {
            let place = offsets[i].min(self.text.len());
            let line = lines::line_at(
                self.ends,
                self.text.as_bytes(),
                self.starts.as_slice(),
                place,
            );
            mark = self.mark_at(line, place, encoding, mark);
            positions.push(Position {
                line: fitted(line),
                character: mark.width.units,
            })?;
        }
        Ok(positions)
    }

    /// Returns the units of a line up to a place. It counts from `before` on, if that is in this line before the place.
    fn mark_at(&self, line: usize, place: usize, encoding: PositionEncoding, before: Mark) -> Mark
        requires line { line < length (starts_of self.now) }
        requires in_order { slice_index (starts_of self.now) line ≤ place }
        requires within { place ≤ length self.now.bytes }
        requires before { IsCounted encoding self.now before.start before.place before.width.units
            before.width.ended }
        ensures start { result.start ≡ slice_index (starts_of self.now) line }
        ensures place { result.place ≡ place }
        ensures counted { IsCounted encoding self.now result.start result.place result.width.units
            result.width.ended }
    {
        let text = self.text.as_bytes();
        let start = lines::start_of(self.ends, text, self.starts.as_slice(), line);
        let width = if before.start == start && before.place <= place {
            columns::width_on(
                self.ends,
                encoding,
                before.width,
                &text[before.place..place],
            )
        } else {
            columns::width_of(self.ends, encoding, &text[start..place])
        };
        Mark {
            start,
            place,
            width,
        }
    }

    /// Replaces the bytes between two offsets by another text. Both offsets have to be between characters. If memory
    /// runs out, the text stays as it was.
    pub fn replace(
        &mut self,
        alloc: Global,
        from: usize,
        to: usize,
        new: &str,
    ) -> Result<(), AllocError>
        requires in_order { from ≤ to }
        requires start { IsSplitPoint self.old.bytes from }
        requires end { IsSplitPoint self.old.bytes to }
        ensures ok { OnOk result (self.new
            ≡ lined self.old.ends (replace_range self.old.bytes from to new.now)) }
        ensures err { OnErr result (self.new ≡ self.old) }
    {
        self.text.reserve(new.len())?;
        lines::replace_starts(
            alloc,
            self.ends,
            self.text.as_bytes(),
            &mut self.starts,
            from,
            to,
            new.as_bytes(),
        )?;
        self.text.replace_range(from..to, new)?;
        Ok(())
    }

    /// Replaces a range, or the whole text, by another text. The ends of a range whose end is before its start are
    /// swapped. It returns whether a position of the range is past its line's end, or past the place after the last
    /// line. LSP 3.17 takes such a position for that end, but a client with this text has no such place. If memory runs
    /// out, the text stays as it was.
    pub fn apply(
        &mut self,
        alloc: Global,
        range: Option<Range>,
        encoding: PositionEncoding,
        text: &str,
    ) -> Result<bool, AllocError>
        ensures past { IfOk result (λ past. past ≡ past_in encoding self.old range) }
        ensures ok { OnOk result (self.new ≡ edited encoding self.old range text.now) }
        ensures err { OnErr result (self.new ≡ self.old) }
    {
        match range {
            Some(range) => {
                let start = self.reach(range.start, encoding);
                let end = self.end_of(range, encoding, start);
                let past = self.is_past(range.start, encoding, start)
                    || self.is_past(range.end, encoding, end);
                let from = start.place.min(end.place);
                self.replace(alloc, from, start.place.max(end.place), text)?;
                Ok(past)
            }
            None => {
                *self = Text::with_line_ends(alloc, text, self.ends)?;
                Ok(false)
            }
        }
    }
}

/// Returns a number, or the greatest one that fits.
fn fitted(number: usize) -> u32
    ensures { result ≡ min number 0xFFFF_FFFF }
{
    if number < 0xFFFF_FFFF {
        number as u32
    } else {
        u32::MAX
    }
}
