// What a server keeps of a document that is open.
ghost use Rattle.std.specs.Prelude.{◌≡◌};
ghost use Rattle.std.specs.Option.{option_copied};
ghost use Rattle.lsp_documents.specs.Notices.{shown, language_of, version_of, lost_at, is_doubtful as has_doubt};

use crate::kept_document::KeptDocument;
use crate::lost::LostDocument;
use lsp_text::TextDocument;

/// What a server keeps of a document that is open.
#[derive(Drop)]
pub enum DocumentState {
    /// The document, with the client's text.
    Known(KeptDocument),
    /// What is left of a document whose text is lost.
    Lost(LostDocument),
}

impl DocumentState {
    /// Returns the document, if its text is known.
    pub fn document(&self) -> Option<&TextDocument>
        ensures { option_copied result ≡ shown self.now }
    {
        match self {
            DocumentState::Known(known) => Some(known.document()),
            DocumentState::Lost(_) => None,
        }
    }

    /// Returns the language, as the client named it when it opened the document.
    pub fn language_id(&self) -> &str
        ensures { result.now ≡ language_of self.now }
    {
        match self {
            DocumentState::Known(known) => known.document().language_id(),
            DocumentState::Lost(document) => document.language_id(),
        }
    }

    /// Returns the version of its text. If the text is lost, it is the version before changes came out of order, or
    /// `None`.
    pub fn version(&self) -> Option<i32>
        ensures { result ≡ version_of self.now }
    {
        match self {
            DocumentState::Known(known) => known.document().version(),
            DocumentState::Lost(document) => document.version(),
        }
    }

    /// Returns whether its text is known and doubtful: a save brought it back, and the client has not sent it whole
    /// since. Some clients save before they send their last changes, so the saved text may already have the next
    /// change.
    pub fn is_doubtful(&self) -> bool
        ensures { result ≡ has_doubt self.now }
    {
        match self {
            DocumentState::Known(known) => known.is_doubtful(),
            DocumentState::Lost(_) => false,
        }
    }

    /// Returns what is left of it if its text is lost, with this version. A document whose text is lost already stays
    /// as it is.
    pub(crate) fn into_lost(self, version: Option<i32>) -> DocumentState
        ensures { result ≡ lost_at version self }
    {
        match self {
            DocumentState::Known(known) => DocumentState::Lost(LostDocument {
                language_id: known.into_document().into_language_id(),
                version,
            }),
            DocumentState::Lost(document) => DocumentState::Lost(document),
        }
    }
}
