// The edits that format a text.
ghost use Rattle.std.specs.Prelude.{◌≡◌, None, IfOk, string_bytes};
ghost use Rattle.toml_features.specs.Places.{known_at};

use lsp_documents::TextDocuments;
use lsp_text::Text;
use lsp_types::{DocumentFormattingParams, TextEdit};
use std::alloc::{AllocError, Global};
use std::ops::Range;
use toml_outline::{Outline, Span, read};

/// What may stand between tokens and is no bracket.
const BLANKS: [char; 4] = [' ', '\t', '\r', '\n'];

/// Returns the edits that format a text (LSP 3.17, "Document Formatting Request"): one space on each side of `=`, no
/// blanks at the end of a line, one empty line at most between others, and one line feed at the end. Strings and comments
/// stay as they are. `None` means that the text is not known, or that it is no document of TOML 1.1.
pub fn formatting(
    alloc: Global,
    documents: &TextDocuments,
    params: &DocumentFormattingParams,
) -> Result<Option<Vec<TextEdit>>, AllocError>
    ensures { known_at documents.now (string_bytes params.now.text_document.uri) ≡ None
        → IfOk result (λ found. found ≡ None) }
{
    let Some(document) = documents.get(params.text_document.uri.as_str()) else {
        return Ok(None);
    };
    let text = document.text();
    let outline = read(alloc, text.as_str())?;
    if !outline.problems.is_empty() {
        return Ok(None);
    }
    Ok(Some(edits_of(alloc, documents, text, &outline)?))
}

fn edits_of(
    alloc: Global,
    documents: &TextDocuments,
    text: &Text,
    outline: &Outline<'_>,
) -> Result<Vec<TextEdit>, AllocError> {
    let mut edits = Vec::new(alloc);
    let written = text.as_str();
    let head = if written.starts_with('\u{feff}') {
        3
    } else {
        0
    };
    let mut start = head;
    for token in outline.tokens.iter() {
        add_gap(
            alloc,
            documents,
            text,
            start..token.span.start,
            start == head,
            &mut edits,
        )?;
        start = token.span.end;
    }
    let end = written.trim_end_matches(BLANKS).len().max(start);
    add_gap(
        alloc,
        documents,
        text,
        start..end,
        start == head,
        &mut edits,
    )?;
    let last = if end == head { "" } else { line_end(written) };
    replace(alloc, documents, text, end..written.len(), last, &mut edits)?;
    add_equals(alloc, documents, text, outline, &mut edits)?;
    Ok(edits)
}

/// Adds the edits of the lines that end between two tokens.
fn add_gap(
    alloc: Global,
    documents: &TextDocuments,
    text: &Text,
    gap: Range<usize>,
    begins_text: bool,
    edits: &mut Vec<TextEdit>,
) -> Result<(), AllocError> {
    let words = text.as_str().get(gap.start..gap.end).unwrap_or("");
    let mut was_empty = begins_text;
    let mut begins_line = begins_text;
    let mut start = gap.start;
    for line in words.split('\n') {
        let end = start.saturating_add(line.len());
        if end >= gap.end {
            break;
        }
        let whole = line.strip_suffix('\r').unwrap_or(line);
        let kept = whole.trim_end_matches([' ', '\t']);
        let is_empty = begins_line && kept.is_empty();
        let part = if is_empty && was_empty {
            start..end.saturating_add(1)
        } else {
            start.saturating_add(kept.len())..start.saturating_add(whole.len())
        };
        replace(alloc, documents, text, part, "", edits)?;
        was_empty = is_empty;
        begins_line = true;
        start = end.saturating_add(1);
    }
    Ok(())
}

/// Adds the edits around each `=`.
fn add_equals(
    alloc: Global,
    documents: &TextDocuments,
    text: &Text,
    outline: &Outline<'_>,
    edits: &mut Vec<TextEdit>,
) -> Result<(), AllocError> {
    for entry in outline.entries.iter() {
        let gap = Span::new(entry.key.end, entry.value.start);
        if let Some(at) = outline.written(gap).find('=') {
            let equals = gap.start.saturating_add(at);
            replace(alloc, documents, text, gap.start..equals, " ", edits)?;
            replace(
                alloc,
                documents,
                text,
                equals.saturating_add(1)..gap.end,
                " ",
                edits,
            )?;
        }
    }
    Ok(())
}

/// Adds the edit that writes other blanks in the place of these, if they differ. It changes nothing but blanks.
fn replace(
    alloc: Global,
    documents: &TextDocuments,
    text: &Text,
    part: Range<usize>,
    new: &str,
    edits: &mut Vec<TextEdit>,
) -> Result<(), AllocError> {
    let Some(old) = text.as_str().get(part.start..part.end) else {
        return Ok(());
    };
    if old == new || !is_blank(old) || !is_blank(new) {
        return Ok(());
    }
    let new_text = String::from_str(alloc, new)?;
    let range = documents.range_of(text, part);
    edits.push(TextEdit { range, new_text })?;
    Ok(())
}

fn is_blank(text: &str) -> bool {
    text.bytes()
        .all(|byte| matches!(byte, b' ' | b'\t' | b'\r' | b'\n'))
}

/// What ends the first line of a text.
fn line_end(text: &str) -> &'static str {
    match text.find('\n') {
        Some(at) if text.get(..at).unwrap_or("").ends_with('\r') => "\r\n",
        _ => "\n",
    }
}
