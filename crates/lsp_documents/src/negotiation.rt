// What a server and its client agreed on for documents.
ghost use Rattle.std.specs.Prelude.{◌≡◌, IfOk, OnOk, false};
ghost use Rattle.serde_json.specs.View.{view, members_view};
ghost use Rattle.lsp_text.specs.declared.position.PositionEncoding.TheVariants.{Utf16};
ghost use Rattle.lsp_documents.specs.Announced.{announced as with_announced, announced_members, usual, sync_of, options_of, IsAnnounced};
ghost use Rattle.lsp_documents.specs.Params.{encoding_in, encoding_of};

use crate::options::DocumentOptions;
use crate::params::{encoding_for, position_encoding};
use lsp_text::PositionEncoding;
use lsp_types::{SaveOptions, ServerCapabilities, TextDocumentSyncKind, TextDocumentSyncOptions};
use serde_json::{Map, Value, json, put};
use std::alloc::{AllocError, Global};
use std::mem;

/// What a server and its client agreed on about documents: in which units characters are counted, and whether a save
/// comes with the text. How the rest is read is the author's choice: `with_options`.
///
/// Only a call that announces it returns another encoding than UTF-16, or asks for texts. So no server counts in units
/// that its client does not know.
#[derive(Clone, Copy, Drop)]
pub struct SyncOptions {
    encoding: PositionEncoding,
    include_text: bool,
    options: DocumentOptions,
}

impl SyncOptions {
    /// Returns what holds if nothing is announced: UTF-16, and no texts with saves (LSP 3.17, "PositionEncodingKind",
    /// "SaveOptions").
    pub fn defaults() -> SyncOptions
        ensures { result ≡ record {
          encoding = Utf16;
          include_text = false;
          options = usual;
        } }
    {
        SyncOptions {
            encoding: PositionEncoding::Utf16,
            include_text: false,
            options: DocumentOptions::new(),
        }
    }

    /// Agrees on an encoding with the client that sent these params of `initialize`, as `position_encoding` does, and
    /// announces it in the server's capabilities, which become an object if they are none (LSP 3.17,
    /// "ServerCapabilities"). Its `textDocumentSync` asks the client to notify the server when a document is opened,
    /// closed, changed (with the parts that changed) and saved, with the text if `include_text` is true. `Err` means
    /// that an allocation failed.
    pub fn negotiate(
        alloc: Global,
        params: &Value,
        include_text: bool,
        capabilities: &mut Value,
    ) -> Result<SyncOptions, AllocError>
        ensures sync { IfOk result (λ sync. sync ≡ record {
          encoding = encoding_in (view params.now);
          include_text = include_text;
          options = usual;
        }) }
        ensures announced { IfOk result (λ sync.
            view capabilities.new ≡ with_announced sync (view capabilities.old)) }
    {
        let sync = SyncOptions {
            encoding: position_encoding(params),
            include_text,
            options: DocumentOptions::new(),
        };
        if !capabilities.is_object() {
            drop(mem::replace(capabilities, Value::Object(Map::new(alloc))));
        }
        sync.write(alloc, capabilities).and(Ok(sync))
    }

    /// Writes what was agreed on into capabilities that are an object.
    fn write(self, alloc: Global, capabilities: &mut Value) -> Result<(), AllocError>
        ensures { OnOk result (view capabilities.new
            ≡ with_announced self (view capabilities.old)) }
    {
        match capabilities {
            Value::Object(members) => self.write_members(alloc, members),
            _ => Err(AllocError),
        }
    }

    /// Writes what was agreed on as members of capabilities.
    fn write_members(
        self,
        alloc: Global,
        members: &mut Map<String, Value>,
    ) -> Result<(), AllocError>
        ensures { OnOk result (members_view members.new.entries
            ≡ announced_members self (members_view members.old.entries)) }
    {
        let name = Value::try_from_str(alloc, self.encoding.name())?;
        put(members, alloc, "positionEncoding", name)?;
        put(
            members,
            alloc,
            "textDocumentSync",
            sync_value(alloc, self.include_text)?,
        )
    }

    /// Does what `negotiate` does with types, for a client with these capabilities (`InitializeParams::capabilities`).
    /// Set the other fields of the result to what else the server can do.
    pub fn with_capabilities(
        alloc: Global,
        client: &Value,
        include_text: bool,
    ) -> Result<(SyncOptions, ServerCapabilities), AllocError>
        ensures sync { IfOk result (λ both. both.0 ≡ record {
          encoding = encoding_of (view client.now);
          include_text = include_text;
          options = usual;
        }) }
        ensures announced { IfOk result (λ both. IsAnnounced both.0 both.1) }
    {
        let sync = SyncOptions {
            encoding: encoding_for(client),
            include_text,
            options: DocumentOptions::new(),
        };
        let name = String::from_str(alloc, sync.encoding.name())?;
        let mut capabilities = ServerCapabilities::default();
        capabilities.position_encoding = Some(name);
        capabilities.text_document_sync = Some(sync_options(include_text));
        Ok((sync, capabilities))
    }

    /// Returns the same agreement with other options.
    pub fn with_options(self, options: DocumentOptions) -> SyncOptions
        ensures { result ≡ record {
          encoding = self.encoding;
          include_text = self.include_text;
          options = options;
        } }
    {
        SyncOptions { options, ..self }
    }

    /// Returns how the client's notifications are read.
    pub fn options(self) -> DocumentOptions
        ensures { result ≡ self.options }
    {
        self.options
    }

    /// Returns the encoding that was agreed on.
    pub fn encoding(self) -> PositionEncoding
        ensures { result ≡ self.encoding }
    {
        self.encoding
    }

    /// Returns whether the client was asked for the text with a save.
    pub fn include_text(self) -> bool
        ensures { result ≡ self.include_text }
    {
        self.include_text
    }
}

/// Returns which notifications about documents the client is to send (LSP 3.17, "TextDocumentSyncOptions"), as a type.
fn sync_options(include_text: bool) -> TextDocumentSyncOptions
    ensures { result ≡ options_of include_text }
{
    let mut options = TextDocumentSyncOptions::new(TextDocumentSyncKind::INCREMENTAL);
    options.save = Some(SaveOptions {
        include_text: Some(include_text),
    });
    options
}

/// Returns the same as a tree.
fn sync_value(alloc: Global, include_text: bool) -> Result<Value, AllocError>
    ensures { IfOk result (λ value. view value ≡ sync_of include_text) }
{
    json!(in alloc; {
        "change": 2,
        "openClose": true,
        "save": { "includeText": include_text }
    })
}
