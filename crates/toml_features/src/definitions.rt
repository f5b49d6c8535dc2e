// The header that defines a table.
ghost use Rattle.std.specs.Prelude.{◌≡◌, None, IfOk, string_bytes};
ghost use Rattle.toml_features.specs.Places.{known_at};

use lsp_documents::TextDocuments;
use lsp_types::{DefinitionParams, DefinitionResult, Location};
use std::alloc::{AllocError, Global};
use toml_outline::{Outline, Span, read};

/// Returns the header of the table that the part of a key at a position names (LSP 3.17, "Goto Definition Request").
/// Of several elements of an array it is the last one that does not stand after the position.
pub fn definition(
    alloc: Global,
    documents: &TextDocuments,
    params: &DefinitionParams,
) -> Result<Option<DefinitionResult>, AllocError>
    ensures { known_at documents.now (string_bytes params.now.text_document.uri) ≡ None
        → IfOk result (λ found. found ≡ None) }
{
    let uri = params.text_document.uri.as_str();
    let Some((document, offset)) = documents.resolve(uri, params.position) else {
        return Ok(None);
    };
    let text = document.text();
    let outline = read(alloc, text.as_str())?;
    let Some(span) = defining_header(alloc, &outline, offset)? else {
        return Ok(None);
    };
    Ok(Some(DefinitionResult::One(Location {
        uri: String::from_str(alloc, uri)?,
        range: documents.range_of(text, span.start..span.end),
    })))
}

/// The header that defines the table at an offset. If there is no such header, it is the first header of a table in it.
fn defining_header(
    alloc: Global,
    outline: &Outline<'_>,
    offset: usize,
) -> Result<Option<Span>, AllocError> {
    let Some((index, number)) = outline.part_at(offset) else {
        return Ok(None);
    };
    let wanted = outline.path(alloc, index, number.saturating_add(1))?;
    let mut own = None;
    let mut inner = None;
    for (at, entry) in outline.entries.iter().enumerate() {
        if !entry.kind.is_header() || entry.parts.len() < wanted.len() {
            continue;
        }
        if !outline
            .path(alloc, at, usize::MAX)?
            .starts_with(wanted.as_slice())
        {
            continue;
        }
        if entry.parts.len() > wanted.len() {
            inner = inner.or(Some(entry.key));
        } else if own.is_none() || entry.key.start <= offset {
            own = Some(entry.key);
        }
    }
    Ok(own.or(inner))
}
