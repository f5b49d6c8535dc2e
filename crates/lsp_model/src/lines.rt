// How many lines a text has after changes, without the text (LSP 3.17, "Text Documents").
ghost use Rattle.std.specs.Prelude.{◌≡◌, ◌==◌, count_by, is_some, slice_index_or};
ghost use Rattle.serde_json.specs.View.{view, items_view};
ghost use Rattle.lsp_model.specs.Lines.{has_lone_return as has_a_lone_return, breaks_in as line_ends_in, lines_of as lines_in, after_edit as lines_after_edit, after_change as lines_after_change, after_changes as lines_after_changes, is_past as is_line_past, is_fold_outside as is_folding_outside, is_outside as is_result_outside, any_fold_outside};

use crate::spans::{Span, number};
use serde_json::Value;

/// Returns the number of lines of a text, or `None` where a carriage return stands alone: what an edit puts after it may begin with a line
/// feed.
pub fn lines_of(text: &str) -> Option<u64>
    ensures { result ≡ lines_in text.now }
{
    breaks_in(text.as_bytes())?.checked_add(1)
}

/// Returns the number of lines that a document has after the changes of a `textDocument/didChange`. `None` means that it is not known.
pub fn after_changes(lines: Option<u64>, changes: &[Value]) -> Option<u64>
    ensures { result ≡ lines_after_changes lines (items_view changes.now) }
{
    let mut counted = lines;
    for change in changes {
        counted = after_change(counted, change);
    }
    counted
}

/// Returns the number of lines after one change. One without a range is the whole text.
fn after_change(lines: Option<u64>, change: &Value) -> Option<u64>
    ensures { result ≡ lines_after_change lines (view change.now) }
{
    let text = change.get("text")?.as_str()?;
    match change.get("range") {
        None => lines_of(text),
        Some(range) => after_edit(lines?, Span::read(range)?, breaks_in(text.as_bytes())?),
    }
}

/// Returns the number of lines after text with so many line ends has replaced a range.
fn after_edit(lines: u64, span: Span, breaks: u64) -> Option<u64>
    ensures { result ≡ lines_after_edit lines span breaks }
{
    let (start, end) = (span.start.line, span.end.line);
    if end < start {
        return None;
    }
    let last = lines.saturating_sub(1);
    let gone = end.min(last) - start.min(last);
    (lines - gone).checked_add(breaks)
}

/// Returns the number of line ends of a text, or `None` where a carriage return stands alone.
fn breaks_in(text: &[u8]) -> Option<u64>
    ensures { result ≡ line_ends_in text.now }
{
    if has_lone_return(text) {
        None
    } else {
        Some(count_line_feeds(text))
    }
}

fn count_line_feeds(text: &[u8]) -> u64
    ensures { result ≡ count_by (λ b. b == 10) text.now }
{
    let mut count = 0;
    for byte in text {
        if *byte == b'\n' {
            count += 1;
        }
    }
    count
}

/// Returns whether no line feed follows a carriage return.
fn has_lone_return(text: &[u8]) -> bool
    ensures { result ≡ has_a_lone_return text.now }
{
    let mut rest = text;
    while let [byte, others @ ..] = rest {
        if *byte == b'\r' && !begins_with_line_feed(others) {
            return true;
        }
        rest = others;
    }
    false
}

fn begins_with_line_feed(text: &[u8]) -> bool
    ensures { result ≡ (slice_index_or text.now 0 0 == 10) }
{
    matches!(text, [b'\n', ..])
}

/// Returns whether a line of a folding range is none of a document with so many lines. The value is a result of
/// `textDocument/foldingRange`.
pub fn is_outside(lines: u64, folds: &Value) -> bool
    ensures { result ≡ is_result_outside lines (view folds.now) }
{
    match folds.as_array() {
        Some(folds) => any_outside(lines, folds.as_slice()),
        None => false,
    }
}

fn any_outside(lines: u64, folds: &[Value]) -> bool
    ensures { result ≡ any_fold_outside lines (items_view folds.now) }
{
    for fold in folds {
        if is_fold_outside(lines, fold) {
            return true;
        }
    }
    false
}

fn is_fold_outside(lines: u64, fold: &Value) -> bool
    ensures { result ≡ is_folding_outside lines (view fold.now) }
{
    line_outside(lines, fold).is_some()
}

/// Returns the key of the first line of a folding range that is none of so many.
pub fn line_outside(lines: u64, fold: &Value) -> Option<&'static str>
    ensures { is_some result ≡ is_folding_outside lines (view fold.now) }
{
    if is_past(lines, number(fold, "startLine")) {
        Some("startLine")
    } else if is_past(lines, number(fold, "endLine")) {
        Some("endLine")
    } else {
        None
    }
}

fn is_past(lines: u64, line: Option<u64>) -> bool
    ensures { result ≡ is_line_past lines line }
{
    match line {
        Some(line) => lines <= line,
        None => false,
    }
}
