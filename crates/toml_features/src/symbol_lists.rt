// The headers and keys of a text.
ghost use Rattle.std.specs.Prelude.{◌≡◌, None, IfOk, string_bytes};
ghost use Rattle.toml_features.specs.Places.{known_at};

use lsp_documents::TextDocuments;
use lsp_text::Text;
use lsp_types::{
    DocumentSymbol, DocumentSymbolParams, DocumentSymbolResult, Location, SymbolInformation,
    SymbolKind,
};
use std::alloc::{AllocError, Global};
use std::mem;
use toml_outline::{Entry, Kind, Outline, read};

/// Returns the headers and keys of a text (LSP 3.17, "Document Symbols Request"). `has_hierarchy` says whether the
/// client has `hierarchicalDocumentSymbolSupport`. If it has, the keys under a header, and those of an inline table, are
/// its children. Otherwise the symbols are a list, and each has its full key.
pub fn symbols(
    alloc: Global,
    documents: &TextDocuments,
    params: &DocumentSymbolParams,
    has_hierarchy: bool,
) -> Result<Option<DocumentSymbolResult>, AllocError>
    ensures { known_at documents.now (string_bytes params.now.text_document.uri) ≡ None
        → IfOk result (λ found. found ≡ None) }
{
    let uri = params.text_document.uri.as_str();
    let Some(document) = documents.get(uri) else {
        return Ok(None);
    };
    let text = document.text();
    let outline = read(alloc, text.as_str())?;
    Ok(Some(if has_hierarchy {
        DocumentSymbolResult::Symbols(tree(alloc, documents, text, &outline)?)
    } else {
        DocumentSymbolResult::Information(list(alloc, documents, uri, text, &outline)?)
    }))
}

/// Each header and key, in the order of the text.
fn list(
    alloc: Global,
    documents: &TextDocuments,
    uri: &str,
    text: &Text,
    outline: &Outline<'_>,
) -> Result<Vec<SymbolInformation>, AllocError> {
    let mut symbols = Vec::new(alloc);
    for (index, entry) in outline.entries.iter().enumerate() {
        let name = outline.full_key(alloc, index, usize::MAX)?;
        let uri = String::from_str(alloc, uri)?;
        let range = documents.range_of(text, entry.whole.start..entry.whole.end);
        let kind = symbol_kind(entry.kind);
        symbols.push(SymbolInformation::new(name, kind, Location { uri, range }))?;
    }
    Ok(symbols)
}

/// The symbols that have no parent, with their children. A parent stands before its children, so the last entry of all
/// has none.
fn tree(
    alloc: Global,
    documents: &TextDocuments,
    text: &Text,
    outline: &Outline<'_>,
) -> Result<Vec<DocumentSymbol>, AllocError> {
    let mut roots = Vec::new(alloc);
    let mut children: Vec<Vec<DocumentSymbol>> = Vec::new(alloc);
    for _ in outline.entries.iter() {
        children.push(Vec::new(alloc))?;
    }
    for entry in outline.entries.iter().rev() {
        let mut own = children.pop().unwrap_or(Vec::new(alloc));
        own.reverse();
        let symbol = symbol(alloc, documents, text, outline, entry, own)?;
        match entry.parent.and_then(|at| children.get_mut(at)) {
            Some(parent) => parent.push(symbol)?,
            None => roots.push(symbol)?,
        }
    }
    roots.reverse();
    Ok(roots)
}

fn symbol(
    alloc: Global,
    documents: &TextDocuments,
    text: &Text,
    outline: &Outline<'_>,
    entry: &Entry,
    children: Vec<DocumentSymbol>,
) -> Result<DocumentSymbol, AllocError> {
    let name = outline.joined(alloc, entry.parts.as_slice())?;
    let range = documents.range_of(text, entry.whole.start..entry.whole.end);
    let selection = documents.range_of(text, entry.key.start..entry.key.end);
    Ok(DocumentSymbol::new(name, symbol_kind(entry.kind), range, selection, children))
}

/// Returns how a client shows a key (LSP 3.17, "SymbolKind").
pub fn symbol_kind(kind: Kind) -> SymbolKind {
    match kind {
        Kind::Table | Kind::InlineTable => SymbolKind::OBJECT,
        Kind::ArrayOfTables | Kind::Array => SymbolKind::ARRAY,
        Kind::String => SymbolKind::STRING,
        Kind::Integer | Kind::Float => SymbolKind::NUMBER,
        Kind::Boolean => SymbolKind::BOOLEAN,
        Kind::DateTime => SymbolKind::CONSTANT,
        Kind::Unreadable => SymbolKind::NULL,
    }
}
