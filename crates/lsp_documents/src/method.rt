// The methods of the notifications of documents.
ghost use Rattle.std.specs.Prelude.{◌≡◌};
ghost use Rattle.lsp_documents.specs.Methods.{method_named};

/// A notification about a document (LSP 3.17, "Text Document Synchronization").
#[derive(Clone, Copy)]
pub enum DocumentMethod {
    /// `textDocument/didOpen`.
    DidOpen,
    /// `textDocument/didChange`.
    DidChange,
    /// `textDocument/didSave`.
    DidSave,
    /// `textDocument/didClose`.
    DidClose,
}

impl DocumentMethod {
    /// Returns the notification with this method, if it is one about a document.
    pub fn named(name: &str) -> Option<DocumentMethod>
        ensures { result ≡ method_named name.now }
    {
        match name {
            "textDocument/didOpen" => Some(DocumentMethod::DidOpen),
            "textDocument/didChange" => Some(DocumentMethod::DidChange),
            "textDocument/didSave" => Some(DocumentMethod::DidSave),
            "textDocument/didClose" => Some(DocumentMethod::DidClose),
            _ => None,
        }
    }
}
