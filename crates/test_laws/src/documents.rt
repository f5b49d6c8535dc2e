//! Texts that a client has opened.
ghost use Rattle.std.specs.Prelude.{◌≡◌, ℕ, List, [], ◌∷◌, false, None, Some, IfOk, option_and_then};
ghost use Rattle.lsp_documents.specs.Held.{documents_of};
ghost use Rattle.lsp_documents.specs.Notices.{Agrees, Notice, SavesItsText, kept_by, kinds_in, shown, text_item, told_all};
ghost use Rattle.lsp_documents.specs.Sessions.{HasNone, MeansAll};
ghost use Rattle.lsp_message.specs.View.{notification_view};

use anyhow::Result;
use lsp_documents::laws::{documents_are_the_clients, texts_are_the_clients};
use lsp_documents::{DocumentFault, SyncOptions, SyncWarning, TextDocuments};
use lsp_message::Notification;
use serde_json::Value;
use std::alloc::Global;

/// The params of `textDocument/didOpen`.
const OPENED: &str = r#"{
    "textDocument": { "uri": "file:///a", "languageId": "plaintext", "version": 1, "text": "one" }
}"#;

/// The params of `textDocument/didChange`.
const CHANGED: &str = r#"{
    "textDocument": { "uri": "file:///a", "version": 2 },
    "contentChanges": [{
        "range": { "start": { "line": 0, "character": 3 }, "end": { "line": 0, "character": 3 } },
        "text": " two"
    }]
}"#;

/// Opens a document. If memory does not run out, the server shows the client's text, language and version.
pub fn open_text(
    documents: &mut TextDocuments,
    uri: &str,
    language_id: &str,
    version: Option<i32>,
    text: &str,
) -> Result<Option<SyncWarning>, DocumentFault>
    ensures { IfOk result (λ _. option_and_then shown ((documents_of documents.new).held uri.now)
        ≡ Some (kept_by documents.old.sync (text_item language_id.now version text.now))) }
{
    documents_are_the_clients();
    let opened = documents.open(uri, language_id, version, text);
    opened
}

/// Applies two notifications of a client, and returns for each whether it is about a document. Each text that the server
/// shows then is the client's own.
pub fn apply_both(
    documents: &mut TextDocuments,
    first: &Notification,
    second: &Notification,
) -> (bool, bool)
    requires { HasNone documents.old }
    ensures { (meant : List Notice) → MeansAll ((false, Some (notification_view first.now))
        ∷ (false, Some (notification_view second.now)) ∷ []) meant → (uri : List ℕ)
        → SavesItsText documents.old.sync None (kinds_in uri meant)
        → Agrees documents.old.sync (told_all documents.old.sync None (kinds_in uri meant))
        ((documents_of documents.new).held uri) }
{
    texts_are_the_clients();
    let one = documents.apply(first).is_some();
    let other = documents.apply(second).is_some();
    (one, other)
}

/// Opens a document with the text `one`, and adds ` two` to it. Returns the text that the server shows then.
pub fn changed_text(alloc: Global) -> Result<Option<String>> {
    let opened = notification(alloc, "textDocument/didOpen", OPENED)?;
    let changed = notification(alloc, "textDocument/didChange", CHANGED)?;
    let mut documents = TextDocuments::new(alloc, SyncOptions::defaults());
    apply_both(&mut documents, &opened, &changed);
    shown_text(alloc, &documents, "file:///a")
}

/// Opens a document with this text. Returns the text that the server shows then.
pub fn opened_text(alloc: Global, text: &str) -> Result<Option<String>> {
    let mut documents = TextDocuments::new(alloc, SyncOptions::defaults());
    open_text(&mut documents, "file:///b", "plaintext", Some(1), text)?;
    shown_text(alloc, &documents, "file:///b")
}

/// Makes a notification from the text of its params.
fn notification(alloc: Global, method: &str, params: &str) -> Result<Notification> {
    let params = Value::from_str(alloc, params)?;
    let method = String::from_str(alloc, method)?;
    Ok(Notification { method, params })
}

/// Copies the text that the server shows under a URI.
fn shown_text(alloc: Global, documents: &TextDocuments, uri: &str) -> Result<Option<String>> {
    match documents.get(uri) {
        Some(document) => Ok(Some(String::from_str(alloc, document.text().as_str())?)),
        None => Ok(None),
    }
}
