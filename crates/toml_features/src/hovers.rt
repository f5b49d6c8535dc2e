// The key at a position, and what it names.
ghost use Rattle.std.specs.Prelude.{◌≡◌, None, IfOk, IfSome, string_bytes};
ghost use Rattle.toml_features.specs.Places.{IsRangeOf, known_at};

use lsp_documents::TextDocuments;
use lsp_types::{Hover, HoverParams, MarkupKind};
use std::alloc::{AllocError, Global};
use toml_outline::{Outline, Span, read};

/// Returns the full key at a position and the type of its value, such as `owner.dob: date-time` (LSP 3.17, "Hover
/// Request"). A key before a dot is a table. The range is the part of the key, or the value.
pub fn hover(
    alloc: Global,
    documents: &TextDocuments,
    params: &HoverParams,
) -> Result<Option<Hover>, AllocError>
    ensures unknown { known_at documents.now (string_bytes params.now.text_document.uri) ≡ None
        → IfOk result (λ found. found ≡ None) }
    ensures range { IfOk result (λ found. IfSome found (λ hover. IfSome hover.range
        (IsRangeOf documents.now (string_bytes params.now.text_document.uri)))) }
{
    let uri = params.text_document.uri.as_str();
    let Some((document, offset)) = documents.resolve(uri, params.position) else {
        return Ok(None);
    };
    let text = document.text();
    let outline = read(alloc, text.as_str())?;
    let Some((words, span)) = described(alloc, &outline, offset)? else {
        return Ok(None);
    };
    Ok(Some(Hover {
        range: Some(documents.range_of(text, span.start..span.end)),
        ..Hover::new(MarkupKind::PlainText, words)
    }))
}

/// The words about an offset, and the part of the text that they are about.
fn described(
    alloc: Global,
    outline: &Outline<'_>,
    offset: usize,
) -> Result<Option<(String, Span)>, AllocError> {
    let part = outline.part_at(offset);
    let Some(index) = part.map(|at| at.0).or(outline.value_at(offset)) else {
        return Ok(None);
    };
    let Some(entry) = outline.entries.get(index) else {
        return Ok(None);
    };
    let last = entry.parts.len().saturating_sub(1);
    let number = part.map_or(last, |at| at.1);
    let span = match (part, entry.parts.get(number)) {
        (Some(_), Some(span)) => *span,
        _ => entry.value,
    };
    let name = if number < last {
        "table"
    } else {
        entry.kind.name()
    };
    let key = outline.full_key(alloc, index, number.saturating_add(1))?;
    Ok(Some((format!(in alloc; "{key}: {name}")?, span)))
}
