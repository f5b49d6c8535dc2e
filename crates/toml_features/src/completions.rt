// What may be typed at a position.
ghost use Rattle.std.specs.Prelude.{◌≡◌, None, IfOk, string_bytes};
ghost use Rattle.toml_features.specs.Places.{known_at};

use lsp_documents::TextDocuments;
use lsp_text::Range;
use lsp_types::{
    CompletionItem, CompletionItemKind, CompletionParams, CompletionResult, CompletionTextEdit,
    TextEdit,
};
use std::alloc::{AllocError, Global};
use std::collections::BTreeSet;
use toml_outline::{Outline, Span, TokenKind, read};

/// Returns what may be typed at a position (LSP 3.17, "Completion Request"): the keys of similar tables where a key
/// begins, `true` and `false` after `=`, and the text's tables after `[`.
pub fn completion(
    alloc: Global,
    documents: &TextDocuments,
    params: &CompletionParams,
) -> Result<Option<CompletionResult>, AllocError>
    ensures { known_at documents.now (string_bytes params.now.text_document.uri) ≡ None
        → IfOk result (λ found. found ≡ None) }
{
    let uri = params.text_document.uri.as_str();
    let Some((document, offset)) = documents.resolve(uri, params.position) else {
        return Ok(None);
    };
    let text = document.text();
    let outline = read(alloc, text.as_str())?;
    let typed = typed_before(text.as_str(), offset);
    let start = offset.saturating_sub(typed.len());
    let (labels, kind) = labels_at(alloc, &outline, start, offset)?;
    let range = documents.range_of(text, start..offset);
    let mut items = Vec::new(alloc);
    for label in labels.iter() {
        items.push(item(alloc, label, kind, range)?)?;
    }
    Ok(Some(CompletionResult::Items(items)))
}

/// The beginning of a dotted key, or of a value, that ends at an offset.
fn typed_before(text: &str, offset: usize) -> &str {
    let before = text.get(..offset).unwrap_or("");
    let is_typed = |c: char| c.is_ascii_alphanumeric() || c == '-' || c == '_' || c == '.';
    let rest = before.trim_end_matches(is_typed);
    before.get(rest.len()..).unwrap_or("")
}

fn item(
    alloc: Global,
    label: &str,
    kind: CompletionItemKind,
    range: Range,
) -> Result<CompletionItem, AllocError> {
    let new_text = String::from_str(alloc, label)?;
    Ok(CompletionItem {
        text_edit: Some(CompletionTextEdit::Edit(TextEdit { range, new_text })),
        ..CompletionItem::new(String::from_str(alloc, label)?, kind)
    })
}

/// What may stand at a place in the text, from where it was typed up to the cursor. The names are sorted.
fn labels_at<'t>(
    alloc: Global,
    outline: &Outline<'t>,
    start: usize,
    offset: usize,
) -> Result<(BTreeSet<&'t str>, CompletionItemKind), AllocError> {
    let before = outline.text.get(..start).unwrap_or("");
    let line_start = before.rfind('\n').map_or(0, |at| at.saturating_add(1));
    let line = before.get(line_start..).unwrap_or("").trim();
    let mut labels = BTreeSet::new(alloc);
    let mut kind = CompletionItemKind::PROPERTY;
    if is_quiet(outline, offset) {
        return Ok((labels, kind));
    }
    if line == "[" || line == "[[" {
        kind = CompletionItemKind::MODULE;
        add_tables(outline, offset, &mut labels)?;
    } else if line.ends_with('=') {
        kind = CompletionItemKind::KEYWORD;
        labels.insert("false")?;
        labels.insert("true")?;
    } else if line.is_empty() && outline.value_at(start).is_none() {
        add_keys(alloc, outline, offset, &mut labels)?;
    }
    Ok((labels, kind))
}

/// Whether an offset is in a string or a comment, where nothing is completed.
fn is_quiet(outline: &Outline<'_>, offset: usize) -> bool {
    outline.tokens.iter().any(|token| match token.kind {
        TokenKind::String => token.span.start < offset && offset < token.span.end,
        TokenKind::Comment => token.span.start < offset && offset <= token.span.end,
        _ => false,
    })
}

/// Adds the keys of all headers, except the header at an offset.
fn add_tables<'t>(
    outline: &Outline<'t>,
    offset: usize,
    labels: &mut BTreeSet<&'t str>,
) -> Result<(), AllocError> {
    for entry in outline.entries.iter() {
        if !entry.kind.is_header() || entry.key.touches(offset) {
            continue;
        }
        if let (Some(first), Some(last)) = (entry.parts.first(), entry.parts.last()) {
            labels.insert(outline.written(Span::new(first.start, last.end)))?;
        }
    }
    Ok(())
}

/// Adds the keys under the headers that are similar to the one above an offset, without those that it has already.
fn add_keys<'t>(
    alloc: Global,
    outline: &Outline<'t>,
    offset: usize,
    labels: &mut BTreeSet<&'t str>,
) -> Result<(), AllocError> {
    let Some(above) = header_above(outline, offset) else {
        return Ok(());
    };
    let path = outline.path(alloc, above, usize::MAX)?;
    let mut similar = None;
    for (index, entry) in outline.entries.iter().enumerate() {
        if entry.kind.is_header() {
            let other = outline.path(alloc, index, usize::MAX)?;
            similar = Some(index).filter(|_| are_similar(path.as_slice(), other.as_slice()));
        } else if similar.is_some() && entry.parent == similar && entry.parent != Some(above) {
            labels.insert(outline.written(entry.key))?;
        }
    }
    remove_keys(outline, above, offset, labels);
    Ok(())
}

/// The last header before an offset.
fn header_above(outline: &Outline<'_>, offset: usize) -> Option<usize> {
    let mut above = None;
    for (index, entry) in outline.entries.iter().enumerate() {
        if entry.kind.is_header() && entry.key.end <= offset {
            above = Some(index);
        }
    }
    above
}

/// Whether two tables are elements of one array, or stand in the same table, which is not the root.
fn are_similar(path: &[String], other: &[String]) -> bool {
    let inner = path.len().saturating_sub(1);
    let is_beside = inner > 0
        && path.len() == other.len()
        && path.get(..inner) == other.get(..inner);
    is_beside || path == other
}

/// Removes the keys under a header, but for the one that is being typed at an offset.
fn remove_keys<'t>(
    outline: &Outline<'t>,
    header: usize,
    offset: usize,
    labels: &mut BTreeSet<&'t str>,
) {
    for entry in outline.entries.iter() {
        if entry.parent == Some(header) && !entry.key.touches(offset) {
            labels.remove(&outline.written(entry.key));
        }
    }
}
