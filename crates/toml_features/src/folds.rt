// The parts of a text that a client can fold.
ghost use Rattle.std.specs.Prelude.{◌≡◌, None, IfOk, string_bytes};
ghost use Rattle.toml_features.specs.Places.{known_at};

use lsp_documents::TextDocuments;
use lsp_text::Text;
use lsp_types_features::{FoldingRange, FoldingRangeParams};
use std::alloc::{AllocError, Global};
use toml_outline::{Outline, Span, TokenKind, read};

/// Returns the tables, the values of several lines, and the blocks of comments of a text (LSP 3.17, "Folding Range
/// Request").
pub fn folding(
    alloc: Global,
    documents: &TextDocuments,
    params: &FoldingRangeParams,
) -> Result<Option<Vec<FoldingRange>>, AllocError>
    ensures { known_at documents.now (string_bytes params.now.text_document.uri) ≡ None
        → IfOk result (λ found. found ≡ None) }
{
    let Some(document) = documents.get(params.text_document.uri.as_str()) else {
        return Ok(None);
    };
    let text = document.text();
    let outline = read(alloc, text.as_str())?;
    let mut folds = Vec::new(alloc);
    for entry in outline.entries.iter() {
        let (first, last) = lines_of(documents, text, entry.whole);
        if first < last {
            folds.push(FoldingRange::new(first, last))?;
        }
    }
    add_comments(alloc, documents, text, &outline, &mut folds)?;
    Ok(Some(folds))
}

/// Adds each block of two or more lines that are nothing but comments.
fn add_comments(
    alloc: Global,
    documents: &TextDocuments,
    text: &Text,
    outline: &Outline<'_>,
    folds: &mut Vec<FoldingRange>,
) -> Result<(), AllocError> {
    let mut block: Option<(u32, u32)> = None;
    for token in outline.tokens.iter() {
        if !matches!(token.kind, TokenKind::Comment)
            || !begins_line(text.as_str(), token.span.start)
        {
            continue;
        }
        let (line, _) = lines_of(documents, text, token.span);
        block = match block {
            Some((first, last)) if last.saturating_add(1) == line => Some((first, line)),
            ended => {
                add_block(alloc, ended, folds)?;
                Some((line, line))
            }
        };
    }
    add_block(alloc, block, folds)
}

fn add_block(
    alloc: Global,
    block: Option<(u32, u32)>,
    folds: &mut Vec<FoldingRange>,
) -> Result<(), AllocError> {
    match block {
        Some((first, last)) if first < last => {
            let kind = Some(String::from_str(alloc, "comment")?);
            folds.push(FoldingRange {
                kind,
                ..FoldingRange::new(first, last)
            })?;
            Ok(())
        }
        _ => Ok(()),
    }
}

/// Whether only blanks stand before an offset in its line.
fn begins_line(text: &str, offset: usize) -> bool {
    let before = text.get(..offset).unwrap_or("");
    let indent = before.trim_end_matches([' ', '\t']);
    indent.is_empty() || indent.ends_with('\n')
}

/// The lines in which a part of a text begins and ends.
fn lines_of(documents: &TextDocuments, text: &Text, part: Span) -> (u32, u32) {
    let range = documents.range_of(text, part.start..part.end);
    (range.start.line, range.end.line)
}
