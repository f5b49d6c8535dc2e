// What is left of a document whose text is lost.
ghost use Rattle.std.specs.Prelude.{◌≡◌};
ghost use Rattle.std.specs.String.{string_bytes};
ghost use Rattle.lsp_documents.specs.Remains.{Remains, remains};

use std::marker::Model;

/// A document whose text is lost, since a notification about it was missed or changes came out of order. Contracts see
/// its language, and its version if changes came out of order.
#[derive(Drop)]
pub struct LostDocument {
    pub(crate) language_id: String,
    pub(crate) version: Option<i32>,
}

impl Model for LostDocument {
    ghost Value = { Remains };

    ghost view = { λ d. remains (string_bytes d.language_id) d.version };
}

impl LostDocument {
    /// Returns the language, as the client named it when it opened the document.
    pub fn language_id(&self) -> &str
        ensures { result.now ≡ self.now.language_id }
    {
        self.language_id.as_str()
    }

    /// Returns its version, if changes came out of order. A whole text of any version brings the text back. If the
    /// text's version is not higher, the warning is `VersionNotHigher`.
    pub fn version(&self) -> Option<i32>
        ensures { result ≡ self.now.version }
    {
        self.version
    }
}
