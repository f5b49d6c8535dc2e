// What each word of a text is, for its colour.
ghost use Rattle.std.specs.Prelude.{◌≡◌, None, IfOk, string_bytes};
ghost use Rattle.toml_features.specs.Places.{known_at};

use lsp_documents::TextDocuments;
use lsp_types::{SemanticToken, SemanticTokens, SemanticTokensLegend, SemanticTokensParams};
use std::alloc::{AllocError, Global};
use toml_outline::{Outline, TokenKind, read};

/// The types of tokens, in the order of their numbers (LSP 3.17, "SemanticTokenTypes").
const TYPES: [&str; 5] = ["property", "string", "number", "keyword", "comment"];

/// Returns what the numbers of `semantic_tokens` stand for, which the server sends with its capabilities.
pub fn token_legend(alloc: Global) -> Result<SemanticTokensLegend, AllocError> {
    let mut token_types = Vec::new(alloc);
    for name in TYPES {
        token_types.push(String::from_str(alloc, name)?)?;
    }
    Ok(SemanticTokensLegend {
        token_types,
        token_modifiers: Vec::new(alloc),
    })
}

/// Returns the keys, strings, numbers, booleans, dates and comments of a text (LSP 3.17, "Semantic Tokens"). One that
/// goes over several lines is a token in each of them.
pub fn semantic_tokens(
    alloc: Global,
    documents: &TextDocuments,
    params: &SemanticTokensParams,
) -> Result<Option<SemanticTokens>, AllocError>
    ensures { known_at documents.now (string_bytes params.now.text_document.uri) ≡ None
        → IfOk result (λ found. found ≡ None) }
{
    let Some(document) = documents.get(params.text_document.uri.as_str()) else {
        return Ok(None);
    };
    let text = document.text();
    let outline = read(alloc, text.as_str())?;
    let mut offsets = Vec::new(alloc);
    let mut types = Vec::new(alloc);
    for token in outline.tokens.iter() {
        let words = outline.written(token.span);
        add_lines(
            words,
            token.span.start,
            number_of(token.kind),
            &mut offsets,
            &mut types,
        )?;
    }
    let positions = documents.positions_of(text, offsets.as_slice())?;
    let mut tokens = Vec::new(alloc);
    for (ends, token_type) in positions.chunks_exact(2).zip(types.iter()) {
        let [start, end] = ends else {
            continue;
        };
        tokens.push(SemanticToken {
            line: start.line,
            start: start.character,
            length: end.character.saturating_sub(start.character),
            token_type: *token_type,
            token_modifiers: 0,
        })?;
    }
    SemanticTokens::encode(alloc, tokens.as_slice())
}

/// Adds the two ends of each line of a token that begins at an offset, if the line is not empty, and its type.
fn add_lines(
    words: &str,
    offset: usize,
    token_type: u32,
    offsets: &mut Vec<usize>,
    types: &mut Vec<u32>,
) -> Result<(), AllocError> {
    let mut start = offset;
    for line in words.split('\n') {
        let kept = line.strip_suffix('\r').unwrap_or(line);
        if !kept.is_empty() {
            offsets.push(start)?;
            offsets.push(start.saturating_add(kept.len()))?;
            types.push(token_type)?;
        }
        start = start.saturating_add(line.len()).saturating_add(1);
    }
    Ok(())
}

/// The index of its name in `TYPES`. The standard has no name for dates.
fn number_of(kind: TokenKind) -> u32 {
    match kind {
        TokenKind::Key => 0,
        TokenKind::String => 1,
        TokenKind::Number | TokenKind::DateTime => 2,
        TokenKind::Boolean => 3,
        TokenKind::Comment => 4,
    }
}
