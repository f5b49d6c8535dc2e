//! Places in documents, and the notifications about documents.
// `tools/types` wrote this file from `types.txt`: change that.
ghost use Rattle.std.specs.Prelude.{◌∷◌, [], Some, codes, option_map};
ghost use Rattle.serde_json.specs.Data.{number, unsigned};
ghost use Rattle.lsp_types.specs.Json.{object_of};
ghost use Rattle.lsp_types.specs.Reads.{IfFits, IsObject, IsWithin, NoneReads, Optional, Required, TextOrEmpty, ◌and◌};

use crate::json::{
    FromJson, Members, Misfit, ToJson, fitting, number_within, write_member, write_some,
};
use crate::progress::ProgressToken;
use lsp_json::JsonRef;
use lsp_json_write::JsonSink;
use lsp_text::{ContentChange, Position, Range};
use std::alloc::Global;

/// A part of a document (LSP 3.17, "Location").
#[derive(Drop)]
pub struct Location {
    /// The document's URI.
    pub uri: String,
    /// The part of it.
    pub range: Range,
}

impl ToJson for Location {
    ghost stands = { λ it. object_of (
        (codes "range", Some (⟦<Range as ToJson>⟧.stands it.range))
        ∷ (codes "uri", Some (⟦<String as ToJson>⟧.stands it.uri)) ∷ []) };

    fn write_json<S: JsonSink>(&self, out: &mut S) -> Result<(), S::Error> {
        out.begin_object()?;
        write_member(out, "range", &self.range)?;
        write_member(out, "uri", &self.uri)?;
        out.end_object()
    }
}

impl FromJson for Location {
    ghost reads = { λ json it. IsObject json
        and Required ⟦<String as FromJson>⟧.reads (codes "uri") json it.uri
        and Required ⟦<Range as FromJson>⟧.reads (codes "range") json it.range };

    fn from_json(alloc: Global, value: &JsonRef<'_>) -> Result<Location, Misfit> {
        match Members::new(alloc, value)
            .required("uri")
            .required("range")
            .end()
        {
            Ok(read) => {
                let (((), uri), range) = read;
                Ok(Location { uri, range })
            }
            Err(misfit) => Err(misfit),
        }
    }
}

/// A part of a document, and the part from which a link leads there (LSP 3.17, "LocationLink").
#[derive(Drop)]
pub struct LocationLink {
    /// The part that leads there. `None` means the word at the requested place.
    pub origin_selection_range: Option<Range>,
    /// The document's URI.
    pub target_uri: String,
    /// The whole target, such as a function with its comment.
    pub target_range: Range,
    /// The part to select, such as its name. It is within `target_range`.
    pub target_selection_range: Range,
}

impl LocationLink {
    ghost use Rattle.std.specs.Prelude.{◌≡◌, None};

    /// Makes one from the required members. The others are `None`.
    pub fn new(
        target_uri: String,
        target_range: Range,
        target_selection_range: Range,
    ) -> LocationLink
        ensures { result ≡ record {
          origin_selection_range = None;
          target_uri = target_uri;
          target_range = target_range;
          target_selection_range = target_selection_range;
        } }
    {
        LocationLink {
            origin_selection_range: None,
            target_uri,
            target_range,
            target_selection_range,
        }
    }
}

impl ToJson for LocationLink {
    ghost stands = { λ it. object_of (
        (codes "originSelectionRange", option_map ⟦<Range as ToJson>⟧.stands it.origin_selection_range)
        ∷ (codes "targetRange", Some (⟦<Range as ToJson>⟧.stands it.target_range))
        ∷ (codes "targetSelectionRange", Some (⟦<Range as ToJson>⟧.stands it.target_selection_range))
        ∷ (codes "targetUri", Some (⟦<String as ToJson>⟧.stands it.target_uri)) ∷ []) };

    fn write_json<S: JsonSink>(&self, out: &mut S) -> Result<(), S::Error> {
        out.begin_object()?;
        write_some(out, "originSelectionRange", &self.origin_selection_range)?;
        write_member(out, "targetRange", &self.target_range)?;
        write_member(out, "targetSelectionRange", &self.target_selection_range)?;
        write_member(out, "targetUri", &self.target_uri)?;
        out.end_object()
    }
}

impl FromJson for LocationLink {
    ghost reads = { λ json it. IsObject json
        and Optional ⟦<Range as FromJson>⟧.reads (codes "originSelectionRange") json it.origin_selection_range
        and Required ⟦<String as FromJson>⟧.reads (codes "targetUri") json it.target_uri
        and Required ⟦<Range as FromJson>⟧.reads (codes "targetRange") json it.target_range
        and Required ⟦<Range as FromJson>⟧.reads (codes "targetSelectionRange") json it.target_selection_range };

    fn from_json(alloc: Global, value: &JsonRef<'_>) -> Result<LocationLink, Misfit> {
        match Members::new(alloc, value)
            .optional("originSelectionRange")
            .required("targetUri")
            .required("targetRange")
            .required("targetSelectionRange")
            .end()
        {
            Ok(read) => {
                let (read, target_selection_range) = read;
                let (read, target_range) = read;
                let (read, target_uri) = read;
                let ((), origin_selection_range) = read;
                Ok(LocationLink {
                    origin_selection_range,
                    target_uri,
                    target_range,
                    target_selection_range,
                })
            }
            Err(misfit) => Err(misfit),
        }
    }
}

/// Where something is: the result of `textDocument/definition`, `declaration`, `typeDefinition` and `implementation`,
/// or null (LSP 3.17, "Goto Definition Request").
#[derive(Drop)]
pub enum DefinitionResult {
    /// One place.
    One(Location),
    /// Places.
    Several(Vec<Location>),
    /// Links, for clients with `linkSupport` at this method.
    Links(Vec<LocationLink>),
}

impl ToJson for DefinitionResult {
    ghost use Rattle.lsp_types.specs.declared.documents.DefinitionResult.TheVariants.{One, Several, Links};

    ghost stands = { elim [
      | One it ↦ ⟦<Location as ToJson>⟧.stands it
      | Several it ↦ ⟦<Vec<Location> as ToJson>⟧.stands it
      | Links it ↦ ⟦<Vec<LocationLink> as ToJson>⟧.stands it
    ] };

    fn write_json<S: JsonSink>(&self, out: &mut S) -> Result<(), S::Error> {
        match self {
            DefinitionResult::One(it) => it.write_json(out),
            DefinitionResult::Several(it) => it.write_json(out),
            DefinitionResult::Links(it) => it.write_json(out),
        }
    }
}

impl FromJson for DefinitionResult {
    ghost use Rattle.lsp_types.specs.declared.documents.DefinitionResult.TheVariants.{One, Several, Links};

    ghost reads = { λ json. elim [
      | One it ↦ ⟦<Location as FromJson>⟧.reads json it
      | Several it ↦ NoneReads ⟦<Location as FromJson>⟧.reads json × ⟦<Vec<Location> as FromJson>⟧.reads json it
      | Links it ↦ NoneReads ⟦<Location as FromJson>⟧.reads json × NoneReads ⟦<Vec<Location> as FromJson>⟧.reads json × ⟦<Vec<LocationLink> as FromJson>⟧.reads json it
    ] };

    fn from_json(alloc: Global, value: &JsonRef<'_>) -> Result<DefinitionResult, Misfit> {
        if let Some(it) = fitting(alloc, value)? {
            return Ok(DefinitionResult::One(it));
        }
        if let Some(it) = fitting(alloc, value)? {
            return Ok(DefinitionResult::Several(it));
        }
        match FromJson::from_json(alloc, value) {
            Ok(it) => Ok(DefinitionResult::Links(it)),
            Err(misfit) => Err(misfit),
        }
    }
}

/// A document (LSP 3.17, "TextDocumentIdentifier").
#[derive(Drop)]
pub struct TextDocumentIdentifier {
    /// Its URI.
    pub uri: String,
}

impl ToJson for TextDocumentIdentifier {
    ghost stands = { λ it. object_of (
        (codes "uri", Some (⟦<String as ToJson>⟧.stands it.uri)) ∷ []) };

    fn write_json<S: JsonSink>(&self, out: &mut S) -> Result<(), S::Error> {
        out.begin_object()?;
        write_member(out, "uri", &self.uri)?;
        out.end_object()
    }
}

impl FromJson for TextDocumentIdentifier {
    ghost reads = { λ json it. IsObject json
        and Required ⟦<String as FromJson>⟧.reads (codes "uri") json it.uri };

    fn from_json(alloc: Global, value: &JsonRef<'_>) -> Result<TextDocumentIdentifier, Misfit> {
        match Members::new(alloc, value).required("uri").end() {
            Ok(read) => {
                let ((), uri) = read;
                Ok(TextDocumentIdentifier { uri })
            }
            Err(misfit) => Err(misfit),
        }
    }
}

/// A document at a version (LSP 3.17, "VersionedTextDocumentIdentifier").
#[derive(Drop)]
pub struct VersionedTextDocumentIdentifier {
    /// Its URI.
    pub uri: String,
    /// Its version, which grows with each change. When read, it is `None` if it is missing, null or no number of 32
    /// bits.
    pub version: Option<i32>,
}

impl ToJson for VersionedTextDocumentIdentifier {
    ghost stands = { λ it. object_of (
        (codes "uri", Some (⟦<String as ToJson>⟧.stands it.uri))
        ∷ (codes "version", option_map ⟦<i32 as ToJson>⟧.stands it.version) ∷ []) };

    fn write_json<S: JsonSink>(&self, out: &mut S) -> Result<(), S::Error> {
        out.begin_object()?;
        write_member(out, "uri", &self.uri)?;
        write_some(out, "version", &self.version)?;
        out.end_object()
    }
}

impl FromJson for VersionedTextDocumentIdentifier {
    ghost reads = { λ json it. IsObject json
        and Required ⟦<String as FromJson>⟧.reads (codes "uri") json it.uri
        and IfFits ⟦<i32 as FromJson>⟧.reads (codes "version") json it.version };

    fn from_json(
        alloc: Global,
        value: &JsonRef<'_>,
    ) -> Result<VersionedTextDocumentIdentifier, Misfit> {
        match Members::new(alloc, value)
            .required("uri")
            .if_fits("version")
            .end()
        {
            Ok(read) => {
                let (((), uri), version) = read;
                Ok(VersionedTextDocumentIdentifier { uri, version })
            }
            Err(misfit) => Err(misfit),
        }
    }
}

/// A document with its text (LSP 3.17, "TextDocumentItem").
#[derive(Drop)]
pub struct TextDocumentItem {
    /// Its URI.
    pub uri: String,
    /// Its language, such as `rust`. When read, it is the empty text if it is missing, null or no text.
    pub language_id: String,
    /// Its version, which grows with each change. When read, it is `None` if it is missing, null or no number of 32
    /// bits.
    pub version: Option<i32>,
    /// Its whole text.
    pub text: String,
}

impl ToJson for TextDocumentItem {
    ghost stands = { λ it. object_of (
        (codes "languageId", Some (⟦<String as ToJson>⟧.stands it.language_id))
        ∷ (codes "text", Some (⟦<String as ToJson>⟧.stands it.text))
        ∷ (codes "uri", Some (⟦<String as ToJson>⟧.stands it.uri))
        ∷ (codes "version", option_map ⟦<i32 as ToJson>⟧.stands it.version) ∷ []) };

    fn write_json<S: JsonSink>(&self, out: &mut S) -> Result<(), S::Error> {
        out.begin_object()?;
        write_member(out, "languageId", &self.language_id)?;
        write_member(out, "text", &self.text)?;
        write_member(out, "uri", &self.uri)?;
        write_some(out, "version", &self.version)?;
        out.end_object()
    }
}

impl FromJson for TextDocumentItem {
    ghost reads = { λ json it. IsObject json
        and Required ⟦<String as FromJson>⟧.reads (codes "uri") json it.uri
        and TextOrEmpty (codes "languageId") json it.language_id
        and IfFits ⟦<i32 as FromJson>⟧.reads (codes "version") json it.version
        and Required ⟦<String as FromJson>⟧.reads (codes "text") json it.text };

    fn from_json(alloc: Global, value: &JsonRef<'_>) -> Result<TextDocumentItem, Misfit> {
        match Members::new(alloc, value)
            .required("uri")
            .text_or_empty("languageId")
            .if_fits("version")
            .required("text")
            .end()
        {
            Ok(read) => {
                let (((((), uri), language_id), version), text) = read;
                Ok(TextDocumentItem {
                    uri,
                    language_id,
                    version,
                    text,
                })
            }
            Err(misfit) => Err(misfit),
        }
    }
}

/// The params of `textDocument/didOpen` (LSP 3.17, "DidOpenTextDocument Notification").
#[derive(Drop)]
pub struct DidOpenTextDocumentParams {
    /// The document that was opened.
    pub text_document: TextDocumentItem,
}

impl ToJson for DidOpenTextDocumentParams {
    ghost stands = { λ it. object_of (
        (codes "textDocument", Some (⟦<TextDocumentItem as ToJson>⟧.stands it.text_document)) ∷ []) };

    fn write_json<S: JsonSink>(&self, out: &mut S) -> Result<(), S::Error> {
        out.begin_object()?;
        write_member(out, "textDocument", &self.text_document)?;
        out.end_object()
    }
}

impl FromJson for DidOpenTextDocumentParams {
    ghost reads = { λ json it. IsObject json
        and Required ⟦<TextDocumentItem as FromJson>⟧.reads (codes "textDocument") json it.text_document };

    fn from_json(alloc: Global, value: &JsonRef<'_>) -> Result<DidOpenTextDocumentParams, Misfit> {
        match Members::new(alloc, value).required("textDocument").end() {
            Ok(read) => {
                let ((), text_document) = read;
                Ok(DidOpenTextDocumentParams { text_document })
            }
            Err(misfit) => Err(misfit),
        }
    }
}

/// The params of `textDocument/didChange` (LSP 3.17, "DidChangeTextDocument Notification").
#[derive(Drop)]
pub struct DidChangeTextDocumentParams {
    /// The document, at its version after all changes.
    pub text_document: VersionedTextDocumentIdentifier,
    /// The changes. Each is applied to the text that the one before it left.
    pub content_changes: Vec<ContentChange>,
}

impl ToJson for DidChangeTextDocumentParams {
    ghost stands = { λ it. object_of (
        (codes "contentChanges", Some (⟦<Vec<ContentChange> as ToJson>⟧.stands it.content_changes))
        ∷ (codes "textDocument", Some (⟦<VersionedTextDocumentIdentifier as ToJson>⟧.stands it.text_document)) ∷ []) };

    fn write_json<S: JsonSink>(&self, out: &mut S) -> Result<(), S::Error> {
        out.begin_object()?;
        write_member(out, "contentChanges", &self.content_changes)?;
        write_member(out, "textDocument", &self.text_document)?;
        out.end_object()
    }
}

impl FromJson for DidChangeTextDocumentParams {
    ghost reads = { λ json it. IsObject json
        and Required ⟦<VersionedTextDocumentIdentifier as FromJson>⟧.reads (codes "textDocument") json it.text_document
        and Required ⟦<Vec<ContentChange> as FromJson>⟧.reads (codes "contentChanges") json it.content_changes };

    fn from_json(
        alloc: Global,
        value: &JsonRef<'_>,
    ) -> Result<DidChangeTextDocumentParams, Misfit> {
        match Members::new(alloc, value)
            .required("textDocument")
            .required("contentChanges")
            .end()
        {
            Ok(read) => {
                let (((), text_document), content_changes) = read;
                Ok(DidChangeTextDocumentParams {
                    text_document,
                    content_changes,
                })
            }
            Err(misfit) => Err(misfit),
        }
    }
}

/// The params of `textDocument/didSave` (LSP 3.17, "DidSaveTextDocument Notification").
#[derive(Drop)]
pub struct DidSaveTextDocumentParams {
    /// The document that was saved.
    pub text_document: TextDocumentIdentifier,
    /// Its text, if the server asked for it.
    pub text: Option<String>,
}

impl ToJson for DidSaveTextDocumentParams {
    ghost stands = { λ it. object_of (
        (codes "text", option_map ⟦<String as ToJson>⟧.stands it.text)
        ∷ (codes "textDocument", Some (⟦<TextDocumentIdentifier as ToJson>⟧.stands it.text_document)) ∷ []) };

    fn write_json<S: JsonSink>(&self, out: &mut S) -> Result<(), S::Error> {
        out.begin_object()?;
        write_some(out, "text", &self.text)?;
        write_member(out, "textDocument", &self.text_document)?;
        out.end_object()
    }
}

impl FromJson for DidSaveTextDocumentParams {
    ghost reads = { λ json it. IsObject json
        and Required ⟦<TextDocumentIdentifier as FromJson>⟧.reads (codes "textDocument") json it.text_document
        and Optional ⟦<String as FromJson>⟧.reads (codes "text") json it.text };

    fn from_json(alloc: Global, value: &JsonRef<'_>) -> Result<DidSaveTextDocumentParams, Misfit> {
        match Members::new(alloc, value)
            .required("textDocument")
            .optional("text")
            .end()
        {
            Ok(read) => {
                let (((), text_document), text) = read;
                Ok(DidSaveTextDocumentParams {
                    text_document,
                    text,
                })
            }
            Err(misfit) => Err(misfit),
        }
    }
}

/// The params of `textDocument/willSave` and `willSaveWaitUntil` (LSP 3.17, "WillSaveTextDocument Notification"). The
/// result of the second is a list of `TextEdit` or null.
#[derive(Drop)]
pub struct WillSaveTextDocumentParams {
    /// The document that will be saved.
    pub text_document: TextDocumentIdentifier,
    /// Why.
    pub reason: TextDocumentSaveReason,
}

impl ToJson for WillSaveTextDocumentParams {
    ghost stands = { λ it. object_of (
        (codes "reason", Some (⟦<TextDocumentSaveReason as ToJson>⟧.stands it.reason))
        ∷ (codes "textDocument", Some (⟦<TextDocumentIdentifier as ToJson>⟧.stands it.text_document)) ∷ []) };

    fn write_json<S: JsonSink>(&self, out: &mut S) -> Result<(), S::Error> {
        out.begin_object()?;
        write_member(out, "reason", &self.reason)?;
        write_member(out, "textDocument", &self.text_document)?;
        out.end_object()
    }
}

impl FromJson for WillSaveTextDocumentParams {
    ghost reads = { λ json it. IsObject json
        and Required ⟦<TextDocumentIdentifier as FromJson>⟧.reads (codes "textDocument") json it.text_document
        and Required ⟦<TextDocumentSaveReason as FromJson>⟧.reads (codes "reason") json it.reason };

    fn from_json(alloc: Global, value: &JsonRef<'_>) -> Result<WillSaveTextDocumentParams, Misfit> {
        match Members::new(alloc, value)
            .required("textDocument")
            .required("reason")
            .end()
        {
            Ok(read) => {
                let (((), text_document), reason) = read;
                Ok(WillSaveTextDocumentParams {
                    text_document,
                    reason,
                })
            }
            Err(misfit) => Err(misfit),
        }
    }
}

/// Why a document is saved (LSP 3.17, "TextDocumentSaveReason"). On reading, another number is refused.
#[derive(Clone, Copy, Drop)]
pub struct TextDocumentSaveReason(pub u32);

impl TextDocumentSaveReason {
    /// The user asked, or a command.
    pub const MANUAL: TextDocumentSaveReason = TextDocumentSaveReason(1);
    /// Some time went by.
    pub const AFTER_DELAY: TextDocumentSaveReason = TextDocumentSaveReason(2);
    /// The editor lost the focus.
    pub const FOCUS_OUT: TextDocumentSaveReason = TextDocumentSaveReason(3);
}

impl ToJson for TextDocumentSaveReason {
    ghost stands = { λ it. number (unsigned it.0) };

    fn write_json<S: JsonSink>(&self, out: &mut S) -> Result<(), S::Error> {
        self.0.write_json(out)
    }
}

impl FromJson for TextDocumentSaveReason {
    ghost reads = { λ json it. IsWithin 1 3 json it.0 };

    fn from_json(alloc: Global, value: &JsonRef<'_>) -> Result<TextDocumentSaveReason, Misfit> {
        match number_within(alloc, value, 1, 3) {
            Ok(number) => Ok(TextDocumentSaveReason(number)),
            Err(misfit) => Err(misfit),
        }
    }
}

/// The params of `textDocument/didClose` (LSP 3.17, "DidCloseTextDocument Notification").
#[derive(Drop)]
pub struct DidCloseTextDocumentParams {
    /// The document.
    pub text_document: TextDocumentIdentifier,
}

impl ToJson for DidCloseTextDocumentParams {
    ghost stands = { λ it. object_of (
        (codes "textDocument", Some (⟦<TextDocumentIdentifier as ToJson>⟧.stands it.text_document)) ∷ []) };

    fn write_json<S: JsonSink>(&self, out: &mut S) -> Result<(), S::Error> {
        out.begin_object()?;
        write_member(out, "textDocument", &self.text_document)?;
        out.end_object()
    }
}

impl FromJson for DidCloseTextDocumentParams {
    ghost reads = { λ json it. IsObject json
        and Required ⟦<TextDocumentIdentifier as FromJson>⟧.reads (codes "textDocument") json it.text_document };

    fn from_json(alloc: Global, value: &JsonRef<'_>) -> Result<DidCloseTextDocumentParams, Misfit> {
        match Members::new(alloc, value).required("textDocument").end() {
            Ok(read) => {
                let ((), text_document) = read;
                Ok(DidCloseTextDocumentParams { text_document })
            }
            Err(misfit) => Err(misfit),
        }
    }
}

/// The params of `textDocument/documentSymbol` (LSP 3.17, "Document Symbols Request").
#[derive(Drop)]
pub struct DocumentSymbolParams {
    /// The document.
    pub text_document: TextDocumentIdentifier,
    /// The token to report progress with. `None` means that no progress is requested, or that the token does not fit.
    pub work_done_token: Option<ProgressToken>,
    /// The token to send parts of the result with. `None` means that no parts are requested, or that the token does not
    /// fit.
    pub partial_result_token: Option<ProgressToken>,
}

impl ToJson for DocumentSymbolParams {
    ghost stands = { λ it. object_of (
        (codes "partialResultToken", option_map ⟦<ProgressToken as ToJson>⟧.stands it.partial_result_token)
        ∷ (codes "textDocument", Some (⟦<TextDocumentIdentifier as ToJson>⟧.stands it.text_document))
        ∷ (codes "workDoneToken", option_map ⟦<ProgressToken as ToJson>⟧.stands it.work_done_token) ∷ []) };

    fn write_json<S: JsonSink>(&self, out: &mut S) -> Result<(), S::Error> {
        out.begin_object()?;
        write_some(out, "partialResultToken", &self.partial_result_token)?;
        write_member(out, "textDocument", &self.text_document)?;
        write_some(out, "workDoneToken", &self.work_done_token)?;
        out.end_object()
    }
}

impl FromJson for DocumentSymbolParams {
    ghost reads = { λ json it. IsObject json
        and Required ⟦<TextDocumentIdentifier as FromJson>⟧.reads (codes "textDocument") json it.text_document
        and IfFits ⟦<ProgressToken as FromJson>⟧.reads (codes "workDoneToken") json it.work_done_token
        and IfFits ⟦<ProgressToken as FromJson>⟧.reads (codes "partialResultToken") json it.partial_result_token };

    fn from_json(alloc: Global, value: &JsonRef<'_>) -> Result<DocumentSymbolParams, Misfit> {
        match Members::new(alloc, value)
            .required("textDocument")
            .if_fits("workDoneToken")
            .if_fits("partialResultToken")
            .end()
        {
            Ok(read) => {
                let ((((), text_document), work_done_token), partial_result_token) = read;
                Ok(DocumentSymbolParams {
                    text_document,
                    work_done_token,
                    partial_result_token,
                })
            }
            Err(misfit) => Err(misfit),
        }
    }
}

/// A document: the params of requests about a whole one (LSP 3.17, "DocumentSymbolParams" and others).
pub type TextDocumentParams = DocumentSymbolParams;

/// The params of `textDocument/semanticTokens/full` (LSP 3.17, "Semantic Tokens").
pub type SemanticTokensParams = DocumentSymbolParams;

/// A place in a document: the params of hover, definition, signature help and others (LSP 3.17,
/// "TextDocumentPositionParams").
#[derive(Drop)]
pub struct TextDocumentPositionParams {
    /// The document.
    pub text_document: TextDocumentIdentifier,
    /// The place in it.
    pub position: Position,
}

impl ToJson for TextDocumentPositionParams {
    ghost stands = { λ it. object_of (
        (codes "position", Some (⟦<Position as ToJson>⟧.stands it.position))
        ∷ (codes "textDocument", Some (⟦<TextDocumentIdentifier as ToJson>⟧.stands it.text_document)) ∷ []) };

    fn write_json<S: JsonSink>(&self, out: &mut S) -> Result<(), S::Error> {
        out.begin_object()?;
        write_member(out, "position", &self.position)?;
        write_member(out, "textDocument", &self.text_document)?;
        out.end_object()
    }
}

impl FromJson for TextDocumentPositionParams {
    ghost reads = { λ json it. IsObject json
        and Required ⟦<TextDocumentIdentifier as FromJson>⟧.reads (codes "textDocument") json it.text_document
        and Required ⟦<Position as FromJson>⟧.reads (codes "position") json it.position };

    fn from_json(alloc: Global, value: &JsonRef<'_>) -> Result<TextDocumentPositionParams, Misfit> {
        match Members::new(alloc, value)
            .required("textDocument")
            .required("position")
            .end()
        {
            Ok(read) => {
                let (((), text_document), position) = read;
                Ok(TextDocumentPositionParams {
                    text_document,
                    position,
                })
            }
            Err(misfit) => Err(misfit),
        }
    }
}

/// The params of `textDocument/hover` (LSP 3.17, "Hover Request").
#[derive(Drop)]
pub struct HoverParams {
    /// The document.
    pub text_document: TextDocumentIdentifier,
    /// The place in it.
    pub position: Position,
    /// The token to report progress with. `None` means that no progress is requested, or that the token does not fit.
    pub work_done_token: Option<ProgressToken>,
}

impl ToJson for HoverParams {
    ghost stands = { λ it. object_of (
        (codes "position", Some (⟦<Position as ToJson>⟧.stands it.position))
        ∷ (codes "textDocument", Some (⟦<TextDocumentIdentifier as ToJson>⟧.stands it.text_document))
        ∷ (codes "workDoneToken", option_map ⟦<ProgressToken as ToJson>⟧.stands it.work_done_token) ∷ []) };

    fn write_json<S: JsonSink>(&self, out: &mut S) -> Result<(), S::Error> {
        out.begin_object()?;
        write_member(out, "position", &self.position)?;
        write_member(out, "textDocument", &self.text_document)?;
        write_some(out, "workDoneToken", &self.work_done_token)?;
        out.end_object()
    }
}

impl FromJson for HoverParams {
    ghost reads = { λ json it. IsObject json
        and Required ⟦<TextDocumentIdentifier as FromJson>⟧.reads (codes "textDocument") json it.text_document
        and Required ⟦<Position as FromJson>⟧.reads (codes "position") json it.position
        and IfFits ⟦<ProgressToken as FromJson>⟧.reads (codes "workDoneToken") json it.work_done_token };

    fn from_json(alloc: Global, value: &JsonRef<'_>) -> Result<HoverParams, Misfit> {
        match Members::new(alloc, value)
            .required("textDocument")
            .required("position")
            .if_fits("workDoneToken")
            .end()
        {
            Ok(read) => {
                let ((((), text_document), position), work_done_token) = read;
                Ok(HoverParams {
                    text_document,
                    position,
                    work_done_token,
                })
            }
            Err(misfit) => Err(misfit),
        }
    }
}

/// The params of `textDocument/prepareRename` (LSP 3.17, "Prepare Rename Request").
pub type PrepareRenameParams = HoverParams;

/// The params of `textDocument/definition` (LSP 3.17, "Goto Definition Request").
#[derive(Drop)]
pub struct DefinitionParams {
    /// The document.
    pub text_document: TextDocumentIdentifier,
    /// The place in it.
    pub position: Position,
    /// The token to report progress with. `None` means that no progress is requested, or that the token does not fit.
    pub work_done_token: Option<ProgressToken>,
    /// The token to send parts of the result with. `None` means that no parts are requested, or that the token does not
    /// fit.
    pub partial_result_token: Option<ProgressToken>,
}

impl ToJson for DefinitionParams {
    ghost stands = { λ it. object_of (
        (codes "partialResultToken", option_map ⟦<ProgressToken as ToJson>⟧.stands it.partial_result_token)
        ∷ (codes "position", Some (⟦<Position as ToJson>⟧.stands it.position))
        ∷ (codes "textDocument", Some (⟦<TextDocumentIdentifier as ToJson>⟧.stands it.text_document))
        ∷ (codes "workDoneToken", option_map ⟦<ProgressToken as ToJson>⟧.stands it.work_done_token) ∷ []) };

    fn write_json<S: JsonSink>(&self, out: &mut S) -> Result<(), S::Error> {
        out.begin_object()?;
        write_some(out, "partialResultToken", &self.partial_result_token)?;
        write_member(out, "position", &self.position)?;
        write_member(out, "textDocument", &self.text_document)?;
        write_some(out, "workDoneToken", &self.work_done_token)?;
        out.end_object()
    }
}

impl FromJson for DefinitionParams {
    ghost reads = { λ json it. IsObject json
        and Required ⟦<TextDocumentIdentifier as FromJson>⟧.reads (codes "textDocument") json it.text_document
        and Required ⟦<Position as FromJson>⟧.reads (codes "position") json it.position
        and IfFits ⟦<ProgressToken as FromJson>⟧.reads (codes "workDoneToken") json it.work_done_token
        and IfFits ⟦<ProgressToken as FromJson>⟧.reads (codes "partialResultToken") json it.partial_result_token };

    fn from_json(alloc: Global, value: &JsonRef<'_>) -> Result<DefinitionParams, Misfit> {
        match Members::new(alloc, value)
            .required("textDocument")
            .required("position")
            .if_fits("workDoneToken")
            .if_fits("partialResultToken")
            .end()
        {
            Ok(read) => {
                let (read, partial_result_token) = read;
                let (read, work_done_token) = read;
                let (read, position) = read;
                let ((), text_document) = read;
                Ok(DefinitionParams {
                    text_document,
                    position,
                    work_done_token,
                    partial_result_token,
                })
            }
            Err(misfit) => Err(misfit),
        }
    }
}

/// The params of `textDocument/declaration` (LSP 3.17, "Goto Declaration Request").
pub type DeclarationParams = DefinitionParams;

/// The params of `textDocument/typeDefinition` (LSP 3.17, "Goto Type Definition Request").
pub type TypeDefinitionParams = DefinitionParams;

/// The params of `textDocument/implementation` (LSP 3.17, "Goto Implementation Request").
pub type ImplementationParams = DefinitionParams;

/// The params of `textDocument/inlayHint` (LSP 3.17, "Inlay Hint Request").
#[derive(Drop)]
pub struct InlayHintParams {
    /// The document.
    pub text_document: TextDocumentIdentifier,
    /// The part of it.
    pub range: Range,
    /// The token to report progress with. `None` means that no progress is requested, or that the token does not fit.
    pub work_done_token: Option<ProgressToken>,
}

impl ToJson for InlayHintParams {
    ghost stands = { λ it. object_of (
        (codes "range", Some (⟦<Range as ToJson>⟧.stands it.range))
        ∷ (codes "textDocument", Some (⟦<TextDocumentIdentifier as ToJson>⟧.stands it.text_document))
        ∷ (codes "workDoneToken", option_map ⟦<ProgressToken as ToJson>⟧.stands it.work_done_token) ∷ []) };

    fn write_json<S: JsonSink>(&self, out: &mut S) -> Result<(), S::Error> {
        out.begin_object()?;
        write_member(out, "range", &self.range)?;
        write_member(out, "textDocument", &self.text_document)?;
        write_some(out, "workDoneToken", &self.work_done_token)?;
        out.end_object()
    }
}

impl FromJson for InlayHintParams {
    ghost reads = { λ json it. IsObject json
        and Required ⟦<TextDocumentIdentifier as FromJson>⟧.reads (codes "textDocument") json it.text_document
        and Required ⟦<Range as FromJson>⟧.reads (codes "range") json it.range
        and IfFits ⟦<ProgressToken as FromJson>⟧.reads (codes "workDoneToken") json it.work_done_token };

    fn from_json(alloc: Global, value: &JsonRef<'_>) -> Result<InlayHintParams, Misfit> {
        match Members::new(alloc, value)
            .required("textDocument")
            .required("range")
            .if_fits("workDoneToken")
            .end()
        {
            Ok(read) => {
                let ((((), text_document), range), work_done_token) = read;
                Ok(InlayHintParams {
                    text_document,
                    range,
                    work_done_token,
                })
            }
            Err(misfit) => Err(misfit),
        }
    }
}

/// The params of `textDocument/semanticTokens/range` (LSP 3.17, "Semantic Tokens").
#[derive(Drop)]
pub struct SemanticTokensRangeParams {
    /// The document.
    pub text_document: TextDocumentIdentifier,
    /// The part of it.
    pub range: Range,
    /// The token to report progress with. `None` means that no progress is requested, or that the token does not fit.
    pub work_done_token: Option<ProgressToken>,
    /// The token to send parts of the result with. `None` means that no parts are requested, or that the token does not
    /// fit.
    pub partial_result_token: Option<ProgressToken>,
}

impl ToJson for SemanticTokensRangeParams {
    ghost stands = { λ it. object_of (
        (codes "partialResultToken", option_map ⟦<ProgressToken as ToJson>⟧.stands it.partial_result_token)
        ∷ (codes "range", Some (⟦<Range as ToJson>⟧.stands it.range))
        ∷ (codes "textDocument", Some (⟦<TextDocumentIdentifier as ToJson>⟧.stands it.text_document))
        ∷ (codes "workDoneToken", option_map ⟦<ProgressToken as ToJson>⟧.stands it.work_done_token) ∷ []) };

    fn write_json<S: JsonSink>(&self, out: &mut S) -> Result<(), S::Error> {
        out.begin_object()?;
        write_some(out, "partialResultToken", &self.partial_result_token)?;
        write_member(out, "range", &self.range)?;
        write_member(out, "textDocument", &self.text_document)?;
        write_some(out, "workDoneToken", &self.work_done_token)?;
        out.end_object()
    }
}

impl FromJson for SemanticTokensRangeParams {
    ghost reads = { λ json it. IsObject json
        and Required ⟦<TextDocumentIdentifier as FromJson>⟧.reads (codes "textDocument") json it.text_document
        and Required ⟦<Range as FromJson>⟧.reads (codes "range") json it.range
        and IfFits ⟦<ProgressToken as FromJson>⟧.reads (codes "workDoneToken") json it.work_done_token
        and IfFits ⟦<ProgressToken as FromJson>⟧.reads (codes "partialResultToken") json it.partial_result_token };

    fn from_json(alloc: Global, value: &JsonRef<'_>) -> Result<SemanticTokensRangeParams, Misfit> {
        match Members::new(alloc, value)
            .required("textDocument")
            .required("range")
            .if_fits("workDoneToken")
            .if_fits("partialResultToken")
            .end()
        {
            Ok(read) => {
                let (((((), text_document), range), work_done_token), partial_result_token) = read;
                Ok(SemanticTokensRangeParams {
                    text_document,
                    range,
                    work_done_token,
                    partial_result_token,
                })
            }
            Err(misfit) => Err(misfit),
        }
    }
}

/// A part of a document: the params of requests about one (LSP 3.17, "SemanticTokensRangeParams" and others).
pub type TextDocumentRangeParams = SemanticTokensRangeParams;

/// The params of `textDocument/references` (LSP 3.17, "Find References Request").
#[derive(Drop)]
pub struct ReferenceParams {
    /// The document.
    pub text_document: TextDocumentIdentifier,
    /// The place in it.
    pub position: Position,
    /// Which references are requested.
    pub context: ReferenceContext,
    /// The token to report progress with. `None` means that no progress is requested, or that the token does not fit.
    pub work_done_token: Option<ProgressToken>,
    /// The token to send parts of the result with. `None` means that no parts are requested, or that the token does not
    /// fit.
    pub partial_result_token: Option<ProgressToken>,
}

impl ToJson for ReferenceParams {
    ghost stands = { λ it. object_of (
        (codes "context", Some (⟦<ReferenceContext as ToJson>⟧.stands it.context))
        ∷ (codes "partialResultToken", option_map ⟦<ProgressToken as ToJson>⟧.stands it.partial_result_token)
        ∷ (codes "position", Some (⟦<Position as ToJson>⟧.stands it.position))
        ∷ (codes "textDocument", Some (⟦<TextDocumentIdentifier as ToJson>⟧.stands it.text_document))
        ∷ (codes "workDoneToken", option_map ⟦<ProgressToken as ToJson>⟧.stands it.work_done_token) ∷ []) };

    fn write_json<S: JsonSink>(&self, out: &mut S) -> Result<(), S::Error> {
        out.begin_object()?;
        write_member(out, "context", &self.context)?;
        write_some(out, "partialResultToken", &self.partial_result_token)?;
        write_member(out, "position", &self.position)?;
        write_member(out, "textDocument", &self.text_document)?;
        write_some(out, "workDoneToken", &self.work_done_token)?;
        out.end_object()
    }
}

impl FromJson for ReferenceParams {
    ghost reads = { λ json it. IsObject json
        and Required ⟦<TextDocumentIdentifier as FromJson>⟧.reads (codes "textDocument") json it.text_document
        and Required ⟦<Position as FromJson>⟧.reads (codes "position") json it.position
        and Required ⟦<ReferenceContext as FromJson>⟧.reads (codes "context") json it.context
        and IfFits ⟦<ProgressToken as FromJson>⟧.reads (codes "workDoneToken") json it.work_done_token
        and IfFits ⟦<ProgressToken as FromJson>⟧.reads (codes "partialResultToken") json it.partial_result_token };

    fn from_json(alloc: Global, value: &JsonRef<'_>) -> Result<ReferenceParams, Misfit> {
        match Members::new(alloc, value)
            .required("textDocument")
            .required("position")
            .required("context")
            .if_fits("workDoneToken")
            .if_fits("partialResultToken")
            .end()
        {
            Ok(read) => {
                let (read, partial_result_token) = read;
                let (read, work_done_token) = read;
                let (read, context) = read;
                let (read, position) = read;
                let ((), text_document) = read;
                Ok(ReferenceParams {
                    text_document,
                    position,
                    context,
                    work_done_token,
                    partial_result_token,
                })
            }
            Err(misfit) => Err(misfit),
        }
    }
}

/// Which references are requested (LSP 3.17, "ReferenceContext").
#[derive(Clone, Copy, Drop)]
pub struct ReferenceContext {
    /// Whether the declaration is one of them.
    pub include_declaration: bool,
}

impl ToJson for ReferenceContext {
    ghost stands = { λ it. object_of (
        (codes "includeDeclaration", Some (⟦<bool as ToJson>⟧.stands it.include_declaration)) ∷ []) };

    fn write_json<S: JsonSink>(&self, out: &mut S) -> Result<(), S::Error> {
        out.begin_object()?;
        write_member(out, "includeDeclaration", &self.include_declaration)?;
        out.end_object()
    }
}

impl FromJson for ReferenceContext {
    ghost reads = { λ json it. IsObject json
        and Required ⟦<bool as FromJson>⟧.reads (codes "includeDeclaration") json it.include_declaration };

    fn from_json(alloc: Global, value: &JsonRef<'_>) -> Result<ReferenceContext, Misfit> {
        match Members::new(alloc, value)
            .required("includeDeclaration")
            .end()
        {
            Ok(read) => {
                let ((), include_declaration) = read;
                Ok(ReferenceContext {
                    include_declaration,
                })
            }
            Err(misfit) => Err(misfit),
        }
    }
}
