// A text in blocks of whole lines, for many edits.
ghost use Rattle.std.specs.Prelude.{◌≡◌, ℕ, ◌+◌, ◌-◌, ◌<◌, ◌≤◌, IfOk, OnOk, OnErr, length, take, slice_index, IfSome, Some, List, [], ◌++◌, ◌∷◌};
ghost use Rattle.std.specs.List.{splice};
ghost use Rattle.std.specs.String.Boundary.{IsSplitPoint};
ghost use Rattle.lsp_text.specs.Lines.{lined, LinedText};
ghost use Rattle.lsp_text.specs.Edits.{edited, past_in};
ghost use Rattle.lsp_text.specs.Blocks.{joined, ends_in, merged, AreBlocks};

use crate::line_ends::LineEnds;
use crate::position::{Position, PositionEncoding, Range};
use crate::text::Text;
use std::alloc::{AllocError, Global};
use std::marker::Model;

/// How many bytes a block has at least, except the last one.
const BLOCK_LEN: usize = 16_384;

/// A text in blocks of whole lines. An edit moves no bytes but those of its block. Contracts see the whole text.
#[derive(Drop)]
pub struct Blocks {
    ends: LineEnds,
    blocks: Vec<Text>,
}

impl Model for Blocks {
    ghost use Rattle.std.specs.Prelude.{◌<◌, length};
    ghost use Rattle.lsp_text.specs.Lines.{LinedText, lined};
    ghost use Rattle.lsp_text.specs.Blocks.{joined, AreBlocks};

    ghost Value = { LinedText };

    ghost view = { λ t. lined t.ends (joined t.blocks.items) };

    ghost invariant = { λ t. (0 < length t.blocks.items) × AreBlocks t.ends t.blocks.items };
}

impl Blocks {
    /// Makes a copy of a text in blocks. `Err` means that an allocation failed.
    pub fn new(alloc: Global, text: &str, ends: LineEnds) -> Result<Blocks, AllocError>
        ensures { IfOk result (λ t. t ≡ lined ends text.now) }
    {
        let mut blocks = Vec::new(alloc);
        let mut at = 0;
        while let Some(end) = block_end(text, at) {
            blocks.push(Text::with_line_ends(alloc, &text[at..end], ends)?)?;
            at = end;
        }
        blocks.push(Text::with_line_ends(alloc, &text[at..], ends)?)?;
        Ok(Blocks { ends, blocks })
    }

    /// Returns the whole text. `Err` means that an allocation failed.
    pub fn to_text(&self, alloc: Global) -> Result<Text, AllocError>
        ensures { IfOk result (λ t. t ≡ self.now) }
    {
        join(alloc, self.ends, self.blocks.as_slice())
    }

    /// Replaces a range, or the whole text, as `Text::apply` does, and returns the same. If memory runs out, the text
    /// stays as it was.
    pub fn apply(
        &mut self,
        alloc: Global,
        range: Option<Range>,
        encoding: PositionEncoding,
        text: &str,
    ) -> Result<bool, AllocError>
        ensures past { IfOk result (λ past. past ≡ past_in encoding self.old range) }
        ensures ok { OnOk result (self.new ≡ edited encoding self.old range text.now) }
        ensures err { OnErr result (self.new ≡ self.old) }
    {
        match range {
            Some(range) => apply_in(alloc, self.ends, &mut self.blocks, range, encoding, text),
            None => {
                *self = Blocks::new(alloc, text, self.ends)?;
                Ok(false)
            }
        }
    }
}

/// Returns where the block that begins at a place of a text ends: after a line. `None` means that the rest is the last
/// block.
fn block_end(text: &str, at: usize) -> Option<usize>
    requires { at ≤ length text.now }
    ensures { IfSome result (λ end. (at < end) × ((end ≤ length text.now)
        × ((slice_index text.now (end - 1) ≡ 10) × IsSplitPoint text.now end))) }
{
    let text = text.as_bytes();
    for i in at.saturating_add(BLOCK_LEN)..text.len() {
        if text[i] == b'\n' {
            return Some(i + 1);
        }
    }
    None
}

/// Joins blocks. `Err` means that an allocation failed.
fn join(alloc: Global, ends: LineEnds, blocks: &[Text]) -> Result<Text, AllocError>
    ensures { IfOk result (λ t. t ≡ lined ends (joined blocks.now)) }
{
    let mut text = String::new(alloc);
    for block in blocks {
        text.push_str(block.as_str())?;
    }
    Text::with_line_ends(alloc, text.as_str(), ends)
}

/// A block that has a line.
#[derive(Clone, Copy, Drop)]
struct Found {
    /// Which block.
    index: usize,
    /// How many lines are before it.
    before: u32,
}

/// Returns the block that has a line: the last block, if no block before it has the line.
fn find(ends: LineEnds, blocks: &[Text], line: u32) -> Found
    requires some { 0 < length blocks.now }
    requires blocks { AreBlocks ends blocks.now }
    ensures within { result.index < length blocks.now }
    ensures before { result.before ≡ ends_in ends (joined (take result.index blocks.now)) }
    ensures begins { result.before ≤ line }
    ensures ends { result.index + 1 < length blocks.now
        → line < ends_in ends (joined (take (result.index + 1) blocks.now)) }
{
    let mut index = 0;
    let mut before = 0;
    while index + 1 < blocks.len() {
        let lines = blocks[index].line_count() - 1;
        if ((line - before) as usize) < lines {
            return Found { index, before };
        }
        before += lines as u32;
        index += 1;
    }
    Found { index, before }
}

/// The blocks that a range touches, from one up to another.
#[derive(Clone, Copy, Drop)]
struct Span {
    /// The first block.
    first: usize,
    /// The last block.
    last: usize,
    /// How many lines are before the first block.
    before: u32,
}

/// Returns the blocks that a range touches.
fn span_of(ends: LineEnds, blocks: &[Text], range: Range) -> Span
    requires some { 0 < length blocks.now }
    requires blocks { AreBlocks ends blocks.now }
    ensures in_order { result.first ≤ result.last }
    ensures within { result.last < length blocks.now }
    ensures before { result.before ≡ ends_in ends (joined (take result.first blocks.now)) }
    ensures start { result.before ≤ range.start.line }
    ensures end { result.before ≤ range.end.line }
    ensures start_within { result.last + 1 < length blocks.now
        → range.start.line < ends_in ends (joined (take (result.last + 1) blocks.now)) }
    ensures end_within { result.last + 1 < length blocks.now
        → range.end.line < ends_in ends (joined (take (result.last + 1) blocks.now)) }
{
    let start = find(ends, blocks, range.start.line);
    let end = find(ends, blocks, range.end.line);
    if start.index <= end.index {
        Span {
            first: start.index,
            last: end.index,
            before: start.before,
        }
    } else {
        Span {
            first: end.index,
            last: start.index,
            before: end.before,
        }
    }
}

/// Puts blocks in the place of some blocks. If memory runs out, they stay as they were.
fn put_blocks(
    blocks: &mut Vec<Text>,
    from: usize,
    to: usize,
    new: Vec<Text>,
) -> Result<(), AllocError>
    requires in_order { from ≤ to }
    requires within { to ≤ length blocks.old.items }
    ensures ok { OnOk result (blocks.new.items ≡ splice blocks.old.items from to new.items) }
    ensures err { OnErr result (blocks.new.items ≡ blocks.old.items) }
{
    blocks.splice(from..to, new)?;
    Ok(())
}

/// Joins the blocks from one up to another in the place of the first one. If memory runs out, they stay as they were.
fn merge(
    alloc: Global,
    ends: LineEnds,
    blocks: &mut Vec<Text>,
    first: usize,
    last: usize,
) -> Result<(), AllocError>
    requires in_order { first ≤ last }
    requires within { last < length blocks.old.items }
    requires blocks { AreBlocks ends blocks.old.items }
    ensures ok { OnOk result (blocks.new.items ≡ merged ends blocks.old.items first (last + 1)) }
    ensures err { OnErr result (blocks.new.items ≡ blocks.old.items) }
{
    if first < last {
        let mut merged = Vec::new(alloc);
        merged.push(join(alloc, ends, &blocks.as_slice()[first..last + 1])?)?;
        put_blocks(blocks, first, last + 1, merged)?;
    }
    Ok(())
}

/// Returns a range, with its lines counted from another line on.
fn counted_from(line: u32, range: Range) -> Range
    requires start { line ≤ range.start.line }
    requires end { line ≤ range.end.line }
    ensures start_line { range.start.line ≡ line + result.start.line }
    ensures start_character { range.start.character ≡ result.start.character }
    ensures end_line { range.end.line ≡ line + result.end.line }
    ensures end_character { range.end.character ≡ result.end.character }
{
    Range {
        start: Position {
            line: range.start.line - line,
            character: range.start.character,
        },
        end: Position {
            line: range.end.line - line,
            character: range.end.character,
        },
    }
}

/// Replaces a range of one block, as `Text::apply` does. If memory runs out, the block stays as it was.
fn apply_at(
    alloc: Global,
    blocks: &mut Vec<Text>,
    index: usize,
    range: Range,
    encoding: PositionEncoding,
    text: &str,
) -> Result<bool, AllocError>
    requires { index < length blocks.old.items }
    ensures past { (xs ys : List LinedText) (b : LinedText) → blocks.old.items ≡ xs ++ (b ∷ ys)
        → index ≡ length xs → IfOk result (λ past. past ≡ past_in encoding b (Some range)) }
    ensures ok { (xs ys : List LinedText) (b : LinedText) → blocks.old.items ≡ xs ++ (b ∷ ys)
        → index ≡ length xs
        → OnOk result (blocks.new.items ≡ xs ++ (edited encoding b (Some range) text.now ∷ ys)) }
    ensures err { OnErr result (blocks.new.items ≡ blocks.old.items) }
{
    let block = &mut blocks[index];
    block.apply(alloc, Some(range), encoding, text)
}

/// Replaces a range of the text that the blocks have, as `Text::apply` does. If memory runs out, the text stays as it
/// was.
fn apply_in(
    alloc: Global,
    ends: LineEnds,
    blocks: &mut Vec<Text>,
    range: Range,
    encoding: PositionEncoding,
    text: &str,
) -> Result<bool, AllocError>
    requires some { 0 < length blocks.old.items }
    requires blocks { AreBlocks ends blocks.old.items }
    ensures some { 0 < length blocks.new.items }
    ensures blocks { AreBlocks ends blocks.new.items }
    ensures past { IfOk result (λ past. past
        ≡ past_in encoding (lined ends (joined blocks.old.items)) (Some range)) }
    ensures ok { OnOk result (lined ends (joined blocks.new.items)
        ≡ edited encoding (lined ends (joined blocks.old.items)) (Some range) text.now) }
    ensures err { OnErr result (joined blocks.new.items ≡ joined blocks.old.items) }
{
    let span = span_of(ends, blocks.as_slice(), range);
    merge(alloc, ends, blocks, span.first, span.last)?;
    let inner = counted_from(span.before, range);
    apply_at(alloc, blocks, span.first, inner, encoding, text)
}
