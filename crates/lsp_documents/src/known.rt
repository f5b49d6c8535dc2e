// The documents whose text is known.
ghost use Rattle.std.specs.Iterator.{YieldsFirstBy, item_count};

use crate::kept::DocumentState;
use lsp_text::{PositionEncoding, Range, Text, TextDocument};
use std::alloc::{AllocError, Global};
use std::collections::btree_map::Iter;
use std::marker::Model;
use std::ops;
use std::sync::Arc;

/// Goes over the documents whose text is known in the order of their URIs: the URI and the document. Contracts see the
/// list of those that are left.
#[derive(Drop)]
pub struct KnownDocuments<'d> {
    pub(crate) open: Iter<'d, String, DocumentState>,
}

impl<'d> Model for KnownDocuments<'d> {
    ghost use Rattle.std.specs.Prelude.{ℕ, List};
    ghost use Rattle.lsp_text.specs.Documents.{Document};
    ghost use Rattle.lsp_documents.specs.Known.{known_in};

    ghost Value = { List (List ℕ × Document) };

    ghost view = { λ it. known_in it.open };
}

impl<'d> Iterator for KnownDocuments<'d> {
    type Item = (&'d str, &'d TextDocument);

    ghost next_gives = { YieldsFirstBy (λ item. (item.0.now, item.1.now)) (λ rest. rest) };

    ghost remaining = { item_count (λ rest. rest) };

    fn next(&mut self) -> Option<(&'d str, &'d TextDocument)> {
        while let Some((uri, open)) = self.open.next() {
            if let Some(document) = open.document() {
                return Some((uri.as_str(), document));
            }
        }
        None
    }
}

/// A copy of a document at one time: its URI, its language, its version and its text. The text is shared with the
/// document until that changes.
#[derive(Drop)]
pub struct DocumentSnapshot {
    /// The document's URI.
    pub uri: String,
    /// The language, as the client names it.
    pub language_id: String,
    /// The version, if the client gave one.
    pub version: Option<i32>,
    /// The whole text.
    pub text: Arc<Text>,
}

impl DocumentSnapshot {
    ghost use Rattle.std.specs.Arc.{arc_value};
    ghost use Rattle.std.specs.Prelude.{◌≡◌, ◌<◌, ◌^◌, length, IfOk, string_bytes};
    ghost use Rattle.lsp_text.specs.Columns.{offset_of, IsPlace};
    ghost use Rattle.lsp_text.specs.Places.{position_of};

    /// Copies a URI and a document. The text is not copied. `Err` means that an allocation failed.
    pub fn new(
        alloc: Global,
        uri: &str,
        document: &TextDocument,
    ) -> Result<DocumentSnapshot, AllocError>
        ensures uri { IfOk result (λ copy. string_bytes copy.uri ≡ uri.now) }
        ensures language { IfOk result (λ copy.
            string_bytes copy.language_id ≡ document.now.language_id) }
        ensures version { IfOk result (λ copy. copy.version ≡ document.now.version) }
        ensures text { IfOk result (λ copy. arc_value copy.text ≡ document.now.text) }
    {
        let uri = String::from_str(alloc, uri)?;
        let language_id = String::from_str(alloc, document.language_id())?;
        Ok(DocumentSnapshot {
            uri,
            language_id,
            version: document.version(),
            text: document.share_text()?,
        })
    }

    /// Returns the range of a part of the text (LSP 3.17, "Range"). It is for a job, which has the copy alone. The part
    /// is given in bytes of UTF-8. The range is in this encoding: pass the one that was agreed on, which
    /// `TextDocuments::encoding` returns. An end past the end of the text counts as that end.
    pub fn range_of(&self, part: ops::Range<usize>, encoding: PositionEncoding) -> Range
        ensures start { result.start ≡ position_of encoding (arc_value self.now.text) part.start }
        ensures end { result.end ≡ position_of encoding (arc_value self.now.text) part.end }
        ensures start_again { IsPlace (arc_value self.now.text) part.start
            → length (arc_value self.now.text).bytes < 2 ^ 30
            → offset_of encoding (arc_value self.now.text) result.start.line result.start.character
            ≡ part.start }
        ensures end_again { IsPlace (arc_value self.now.text) part.end
            → length (arc_value self.now.text).bytes < 2 ^ 30
            → offset_of encoding (arc_value self.now.text) result.end.line result.end.character
            ≡ part.end }
    {
        Range {
            start: self.text.position_at(part.start, encoding),
            end: self.text.position_at(part.end, encoding),
        }
    }
}
