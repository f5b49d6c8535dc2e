// Where the lines of a text begin.
ghost use Rattle.std.specs.Prelude.{◌≡◌, ℕ, ◌+◌, ◌-◌, ◌<◌, ◌≤◌, ◌^◌, ◌++◌, OnOk, OnErr, IfOk, length, map, take, drop, slice_index, slice_index_or, slice_range};
ghost use Rattle.std.specs.List.{replace_range, splice};
ghost use Rattle.lsp_text.specs.Lines.{ends_line as is_ended, starts_in, line_starts, lined};
ghost use Rattle.lsp_text.specs.Columns.{first_line, line_of};
ghost use Rattle.std.specs.String.Boundary.{IsSplitPoint};

use crate::line_ends::LineEnds;
use std::alloc::{AllocError, Global};

/// Returns whether a byte is the last one of a line's end, if `next` follows it.
fn ends_line(ends: LineEnds, byte: u8, next: u8) -> bool
    ensures { result ≡ is_ended ends byte next }
{
    byte <= b'\r' && (byte == b'\n' || ends.has(byte) && next != b'\n')
}

/// Returns the byte at a place, or `default` past the end.
fn byte_or(bytes: &[u8], i: usize, default: u8) -> u8
    ensures { result ≡ slice_index_or bytes.now i default }
{
    if i < bytes.len() { bytes[i] } else { default }
}

/// Adds where lines begin that follow the line ends in `bytes`, which are at a place of a text, before the byte `next`.
/// `Err` means that an allocation failed.
pub fn push_starts(
    ends: LineEnds,
    starts: &mut Vec<usize>,
    at: usize,
    bytes: &[u8],
    next: u8,
) -> Result<(), AllocError>
    requires { at + length bytes.now < 2 ^ 64 }
    ensures { OnOk result (starts.new.items ≡ starts.old.items ++ starts_in ends at bytes.now next) }
{
    for i in 0..bytes.len() {
        let byte = bytes[i];
        if ends_line(ends, byte, byte_or(bytes, i + 1, next)) {
            starts.push(at + i + 1)?;
        }
    }
    Ok(())
}

/// Moves the starts of lines, except the first ones, from after one place to after another.
fn move_starts(starts: &mut [usize], first: usize, from: usize, to: usize)
    requires within { first ≤ length starts.old }
    requires fits { (k : ℕ) → first ≤ k → k < length starts.old → (from ≤ slice_index starts.old k)
        × (slice_index starts.old k - from + to < 2 ^ 64) }
    ensures { starts.new ≡ take first starts.old
        ++ map (λ s. s - from + to) (drop first starts.old) }
{
    for i in first..starts.len() {
        starts[i] = starts[i] - from + to;
    }
}

/// Moves the starts of lines of an index, except the first ones.
fn move_behind(starts: &mut Vec<usize>, first: usize, from: usize, to: usize)
    requires within { first ≤ length starts.old.items }
    requires fits { (k : ℕ) → first ≤ k → k < length starts.old.items
        → (from ≤ slice_index starts.old.items k)
        × (slice_index starts.old.items k - from + to < 2 ^ 64) }
    ensures { starts.new.items ≡ take first starts.old.items
        ++ map (λ s. s - from + to) (drop first starts.old.items) }
{
    move_starts(starts.as_mut_slice(), first, from, to);
}

/// Replaces some starts of lines by others.
fn put_starts(
    starts: &mut Vec<usize>,
    from: usize,
    to: usize,
    new: Vec<usize>,
) -> Result<(), AllocError>
    requires in_order { from ≤ to }
    requires within { to ≤ length starts.old.items }
    ensures ok { OnOk result (starts.new.items ≡ splice starts.old.items from to new.items) }
    ensures err { OnErr result (starts.new.items ≡ starts.old.items) }
{
    starts.splice(from..to, new)?;
    Ok(())
}

/// Returns how many of the starts, which are in order, are at most `place`.
pub fn starts_to(starts: &[usize], place: usize) -> usize
    requires { (i j : ℕ) → i ≤ j → j < length starts.now
        → slice_index starts.now i ≤ slice_index starts.now j }
    ensures within { result ≤ length starts.now }
    ensures below { (k : ℕ) → k < result → slice_index starts.now k ≤ place }
    ensures above { (k : ℕ) → result ≤ k → k < length starts.now
        → place < slice_index starts.now k }
{
    let mut low = 0;
    let mut high = starts.len();
    while low < high {
        let middle = low + (high - low) / 2;
        if starts[middle] <= place {
            low = middle + 1;
        } else {
            high = middle;
        }
    }
    low
}

/// Returns where a line begins.
pub fn start_of(ends: LineEnds, text: &[u8], starts: &[usize], line: usize) -> usize
    requires index { starts.now ≡ line_starts ends text.now }
    requires within { line < length starts.now }
    ensures value { result ≡ slice_index (line_starts ends text.now) line }
    ensures within { result ≤ length text.now }
{
    starts[line]
}

/// Returns where a line ends. The next one begins after its end: one byte, with the `\r` before it if there is one in
/// the line.
pub fn line_end(ends: LineEnds, text: &[u8], starts: &[usize], line: usize) -> usize
    requires index { starts.now ≡ line_starts ends text.now }
    requires within { line < length starts.now }
    ensures in_order { slice_index starts.now line ≤ result }
    ensures line { slice_range text.now (slice_index starts.now line) result
        ≡ first_line ends (drop (slice_index starts.now line) text.now) }
    ensures boundary { IsSplitPoint text.now result }
{
    if line + 1 == starts.len() {
        return text.len();
    }
    let last = starts[line + 1] - 1;
    if starts[line] < last && text[last - 1] == b'\r' {
        last - 1
    } else {
        last
    }
}

/// Returns the line of a place of a text: the last one that begins there or before.
pub fn line_at(ends: LineEnds, text: &[u8], starts: &[usize], place: usize) -> usize
    requires index { starts.now ≡ line_starts ends text.now }
    ensures value { result ≡ line_of (lined ends text.now) place }
    ensures within { result < length starts.now }
    ensures begins { (k : ℕ) → k < result + 1 → slice_index starts.now k ≤ place }
    ensures last { (k : ℕ) → result + 1 ≤ k → k < length starts.now
        → place < slice_index starts.now k }
{
    let count = starts_to(starts, place);
    count - 1
}

/// Returns where the lines of a text begin. `Err` means that an allocation failed.
pub fn starts_of(alloc: Global, ends: LineEnds, text: &[u8]) -> Result<Vec<usize>, AllocError>
    requires { length text.now < 2 ^ 64 }
    ensures { IfOk result (λ v. v.items ≡ line_starts ends text.now) }
{
    let mut starts = Vec::new(alloc);
    starts.push(0)?;
    push_starts(ends, &mut starts, 0, text, 0)?;
    Ok(starts)
}

/// Changes the starts of the lines of a text to those of the text in which `new` replaces the bytes from `from` to
/// `to`. If memory runs out, they stay as they were.
pub fn replace_starts(
    alloc: Global,
    ends: LineEnds,
    text: &[u8],
    starts: &mut Vec<usize>,
    from: usize,
    to: usize,
    new: &[u8],
) -> Result<(), AllocError>
    requires index { starts.old.items ≡ line_starts ends text.now }
    requires in_order { from ≤ to }
    requires within { to ≤ length text.now }
    requires fits { length text.now + length new.now < 2 ^ 64 }
    ensures ok { OnOk result
        (starts.new.items ≡ line_starts ends (replace_range text.now from to new.now)) }
    ensures err { OnErr result (starts.new.items ≡ starts.old.items) }
{
    // Whether a carriage return before the edit ends a line depends on what follows it.
    let before = from.saturating_sub(1);
    let next = byte_or(text, to, 0);
    let kept = starts_to(starts.as_slice(), before);
    let tail = starts_to(starts.as_slice(), to);
    let mut between = Vec::new(alloc);
    push_starts(
        ends,
        &mut between,
        before,
        &text[before..from],
        byte_or(new, 0, next),
    )?;
    push_starts(ends, &mut between, from, new, next)?;
    let moved = kept + between.len();
    put_starts(starts, kept, tail, between)?;
    move_behind(starts, moved, to, from + new.len());
    Ok(())
}
