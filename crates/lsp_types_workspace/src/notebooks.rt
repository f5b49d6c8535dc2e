//! Notebooks, whose cells are documents.
// `tools/types` wrote this file from `types.txt`: change that.
ghost use Rattle.std.specs.Prelude.{◌∷◌, [], Some, codes, option_map};
ghost use Rattle.serde_json.specs.Data.{number, unsigned};
ghost use Rattle.lsp_types.specs.Json.{object_of};
ghost use Rattle.lsp_types.specs.Reads.{IsObject, IsWithin, Optional, Required, ◌and◌};

use lsp_json::JsonRef;
use lsp_json_write::JsonSink;
use lsp_text::ContentChange;
use lsp_types::json::{FromJson, Members, Misfit, ToJson, number_within, write_member, write_some};
use lsp_types::{TextDocumentIdentifier, TextDocumentItem, VersionedTextDocumentIdentifier};
use serde_json::Value;
use std::alloc::Global;

/// What a cell holds (LSP 3.17, "NotebookCellKind"). On reading, another number is refused.
#[derive(Clone, Copy, Drop)]
pub struct NotebookCellKind(pub u32);

impl NotebookCellKind {
    /// Text to read.
    pub const MARKUP: NotebookCellKind = NotebookCellKind(1);
    /// Code.
    pub const CODE: NotebookCellKind = NotebookCellKind(2);
}

impl ToJson for NotebookCellKind {
    ghost stands = { λ it. number (unsigned it.0) };

    fn write_json<S: JsonSink>(&self, out: &mut S) -> Result<(), S::Error> {
        self.0.write_json(out)
    }
}

impl FromJson for NotebookCellKind {
    ghost reads = { λ json it. IsWithin 1 2 json it.0 };

    fn from_json(alloc: Global, value: &JsonRef<'_>) -> Result<NotebookCellKind, Misfit> {
        match number_within(alloc, value, 1, 2) {
            Ok(number) => Ok(NotebookCellKind(number)),
            Err(misfit) => Err(misfit),
        }
    }
}

/// How a cell was run (LSP 3.17, "ExecutionSummary").
#[derive(Clone, Copy, Drop)]
pub struct ExecutionSummary {
    /// Which run it was.
    pub execution_order: u32,
    /// Whether it succeeded.
    pub success: Option<bool>,
}

impl ToJson for ExecutionSummary {
    ghost stands = { λ it. object_of (
        (codes "executionOrder", Some (⟦<u32 as ToJson>⟧.stands it.execution_order))
        ∷ (codes "success", option_map ⟦<bool as ToJson>⟧.stands it.success) ∷ []) };

    fn write_json<S: JsonSink>(&self, out: &mut S) -> Result<(), S::Error> {
        out.begin_object()?;
        write_member(out, "executionOrder", &self.execution_order)?;
        write_some(out, "success", &self.success)?;
        out.end_object()
    }
}

impl FromJson for ExecutionSummary {
    ghost reads = { λ json it. IsObject json
        and Required ⟦<u32 as FromJson>⟧.reads (codes "executionOrder") json it.execution_order
        and Optional ⟦<bool as FromJson>⟧.reads (codes "success") json it.success };

    fn from_json(alloc: Global, value: &JsonRef<'_>) -> Result<ExecutionSummary, Misfit> {
        match Members::new(alloc, value)
            .required("executionOrder")
            .optional("success")
            .end()
        {
            Ok(read) => {
                let (((), execution_order), success) = read;
                Ok(ExecutionSummary {
                    execution_order,
                    success,
                })
            }
            Err(misfit) => Err(misfit),
        }
    }
}

/// A cell (LSP 3.17, "NotebookCell").
#[derive(Drop)]
pub struct NotebookCell {
    /// What it holds.
    pub kind: NotebookCellKind,
    /// The URI of the document with its text.
    pub document: String,
    /// Its metadata: an object.
    pub metadata: Option<Value>,
    /// How it was run last.
    pub execution_summary: Option<ExecutionSummary>,
}

impl ToJson for NotebookCell {
    ghost stands = { λ it. object_of (
        (codes "document", Some (⟦<String as ToJson>⟧.stands it.document))
        ∷ (codes "executionSummary", option_map ⟦<ExecutionSummary as ToJson>⟧.stands it.execution_summary)
        ∷ (codes "kind", Some (⟦<NotebookCellKind as ToJson>⟧.stands it.kind))
        ∷ (codes "metadata", option_map ⟦<Value as ToJson>⟧.stands it.metadata) ∷ []) };

    fn write_json<S: JsonSink>(&self, out: &mut S) -> Result<(), S::Error> {
        out.begin_object()?;
        write_member(out, "document", &self.document)?;
        write_some(out, "executionSummary", &self.execution_summary)?;
        write_member(out, "kind", &self.kind)?;
        write_some(out, "metadata", &self.metadata)?;
        out.end_object()
    }
}

impl FromJson for NotebookCell {
    ghost reads = { λ json it. IsObject json
        and Required ⟦<NotebookCellKind as FromJson>⟧.reads (codes "kind") json it.kind
        and Required ⟦<String as FromJson>⟧.reads (codes "document") json it.document
        and Optional ⟦<Value as FromJson>⟧.reads (codes "metadata") json it.metadata
        and Optional ⟦<ExecutionSummary as FromJson>⟧.reads (codes "executionSummary") json it.execution_summary };

    fn from_json(alloc: Global, value: &JsonRef<'_>) -> Result<NotebookCell, Misfit> {
        match Members::new(alloc, value)
            .required("kind")
            .required("document")
            .optional("metadata")
            .optional("executionSummary")
            .end()
        {
            Ok(read) => {
                let (((((), kind), document), metadata), execution_summary) = read;
                Ok(NotebookCell {
                    kind,
                    document,
                    metadata,
                    execution_summary,
                })
            }
            Err(misfit) => Err(misfit),
        }
    }
}

/// A notebook (LSP 3.17, "NotebookDocument").
#[derive(Drop)]
pub struct NotebookDocument {
    /// Its URI.
    pub uri: String,
    /// Its kind, such as `jupyter-notebook`.
    pub notebook_type: String,
    /// Its version, which grows with each change.
    pub version: i32,
    /// Its metadata: an object.
    pub metadata: Option<Value>,
    /// Its cells.
    pub cells: Vec<NotebookCell>,
}

impl ToJson for NotebookDocument {
    ghost stands = { λ it. object_of (
        (codes "cells", Some (⟦<Vec<NotebookCell> as ToJson>⟧.stands it.cells))
        ∷ (codes "metadata", option_map ⟦<Value as ToJson>⟧.stands it.metadata)
        ∷ (codes "notebookType", Some (⟦<String as ToJson>⟧.stands it.notebook_type))
        ∷ (codes "uri", Some (⟦<String as ToJson>⟧.stands it.uri))
        ∷ (codes "version", Some (⟦<i32 as ToJson>⟧.stands it.version)) ∷ []) };

    fn write_json<S: JsonSink>(&self, out: &mut S) -> Result<(), S::Error> {
        out.begin_object()?;
        write_member(out, "cells", &self.cells)?;
        write_some(out, "metadata", &self.metadata)?;
        write_member(out, "notebookType", &self.notebook_type)?;
        write_member(out, "uri", &self.uri)?;
        write_member(out, "version", &self.version)?;
        out.end_object()
    }
}

impl FromJson for NotebookDocument {
    ghost reads = { λ json it. IsObject json
        and Required ⟦<String as FromJson>⟧.reads (codes "uri") json it.uri
        and Required ⟦<String as FromJson>⟧.reads (codes "notebookType") json it.notebook_type
        and Required ⟦<i32 as FromJson>⟧.reads (codes "version") json it.version
        and Optional ⟦<Value as FromJson>⟧.reads (codes "metadata") json it.metadata
        and Required ⟦<Vec<NotebookCell> as FromJson>⟧.reads (codes "cells") json it.cells };

    fn from_json(alloc: Global, value: &JsonRef<'_>) -> Result<NotebookDocument, Misfit> {
        match Members::new(alloc, value)
            .required("uri")
            .required("notebookType")
            .required("version")
            .optional("metadata")
            .required("cells")
            .end()
        {
            Ok(read) => {
                let ((((((), uri), notebook_type), version), metadata), cells) = read;
                Ok(NotebookDocument {
                    uri,
                    notebook_type,
                    version,
                    metadata,
                    cells,
                })
            }
            Err(misfit) => Err(misfit),
        }
    }
}

/// The params of `notebookDocument/didOpen` (LSP 3.17, "DidOpenNotebookDocument Notification").
#[derive(Drop)]
pub struct DidOpenNotebookDocumentParams {
    /// The notebook.
    pub notebook_document: NotebookDocument,
    /// The documents of its cells.
    pub cell_text_documents: Vec<TextDocumentItem>,
}

impl ToJson for DidOpenNotebookDocumentParams {
    ghost stands = { λ it. object_of (
        (codes "cellTextDocuments", Some (⟦<Vec<TextDocumentItem> as ToJson>⟧.stands it.cell_text_documents))
        ∷ (codes "notebookDocument", Some (⟦<NotebookDocument as ToJson>⟧.stands it.notebook_document)) ∷ []) };

    fn write_json<S: JsonSink>(&self, out: &mut S) -> Result<(), S::Error> {
        out.begin_object()?;
        write_member(out, "cellTextDocuments", &self.cell_text_documents)?;
        write_member(out, "notebookDocument", &self.notebook_document)?;
        out.end_object()
    }
}

impl FromJson for DidOpenNotebookDocumentParams {
    ghost reads = { λ json it. IsObject json
        and Required ⟦<NotebookDocument as FromJson>⟧.reads (codes "notebookDocument") json it.notebook_document
        and Required ⟦<Vec<TextDocumentItem> as FromJson>⟧.reads (codes "cellTextDocuments") json it.cell_text_documents };

    fn from_json(
        alloc: Global,
        value: &JsonRef<'_>,
    ) -> Result<DidOpenNotebookDocumentParams, Misfit> {
        match Members::new(alloc, value)
            .required("notebookDocument")
            .required("cellTextDocuments")
            .end()
        {
            Ok(read) => {
                let (((), notebook_document), cell_text_documents) = read;
                Ok(DidOpenNotebookDocumentParams {
                    notebook_document,
                    cell_text_documents,
                })
            }
            Err(misfit) => Err(misfit),
        }
    }
}

/// A notebook at a version (LSP 3.17, "VersionedNotebookDocumentIdentifier").
#[derive(Drop)]
pub struct VersionedNotebookDocumentIdentifier {
    /// Its version, after the change.
    pub version: i32,
    /// Its URI.
    pub uri: String,
}

impl ToJson for VersionedNotebookDocumentIdentifier {
    ghost stands = { λ it. object_of (
        (codes "uri", Some (⟦<String as ToJson>⟧.stands it.uri))
        ∷ (codes "version", Some (⟦<i32 as ToJson>⟧.stands it.version)) ∷ []) };

    fn write_json<S: JsonSink>(&self, out: &mut S) -> Result<(), S::Error> {
        out.begin_object()?;
        write_member(out, "uri", &self.uri)?;
        write_member(out, "version", &self.version)?;
        out.end_object()
    }
}

impl FromJson for VersionedNotebookDocumentIdentifier {
    ghost reads = { λ json it. IsObject json
        and Required ⟦<i32 as FromJson>⟧.reads (codes "version") json it.version
        and Required ⟦<String as FromJson>⟧.reads (codes "uri") json it.uri };

    fn from_json(
        alloc: Global,
        value: &JsonRef<'_>,
    ) -> Result<VersionedNotebookDocumentIdentifier, Misfit> {
        match Members::new(alloc, value)
            .required("version")
            .required("uri")
            .end()
        {
            Ok(read) => {
                let (((), version), uri) = read;
                Ok(VersionedNotebookDocumentIdentifier { version, uri })
            }
            Err(misfit) => Err(misfit),
        }
    }
}

/// A change of the list of cells (LSP 3.17, "NotebookCellArrayChange").
#[derive(Drop)]
pub struct NotebookCellArrayChange {
    /// The first cell that is removed, from 0.
    pub start: u32,
    /// How many are removed.
    pub delete_count: u32,
    /// The cells in their place.
    pub cells: Option<Vec<NotebookCell>>,
}

impl ToJson for NotebookCellArrayChange {
    ghost stands = { λ it. object_of (
        (codes "cells", option_map ⟦<Vec<NotebookCell> as ToJson>⟧.stands it.cells)
        ∷ (codes "deleteCount", Some (⟦<u32 as ToJson>⟧.stands it.delete_count))
        ∷ (codes "start", Some (⟦<u32 as ToJson>⟧.stands it.start)) ∷ []) };

    fn write_json<S: JsonSink>(&self, out: &mut S) -> Result<(), S::Error> {
        out.begin_object()?;
        write_some(out, "cells", &self.cells)?;
        write_member(out, "deleteCount", &self.delete_count)?;
        write_member(out, "start", &self.start)?;
        out.end_object()
    }
}

impl FromJson for NotebookCellArrayChange {
    ghost reads = { λ json it. IsObject json
        and Required ⟦<u32 as FromJson>⟧.reads (codes "start") json it.start
        and Required ⟦<u32 as FromJson>⟧.reads (codes "deleteCount") json it.delete_count
        and Optional ⟦<Vec<NotebookCell> as FromJson>⟧.reads (codes "cells") json it.cells };

    fn from_json(alloc: Global, value: &JsonRef<'_>) -> Result<NotebookCellArrayChange, Misfit> {
        match Members::new(alloc, value)
            .required("start")
            .required("deleteCount")
            .optional("cells")
            .end()
        {
            Ok(read) => {
                let ((((), start), delete_count), cells) = read;
                Ok(NotebookCellArrayChange {
                    start,
                    delete_count,
                    cells,
                })
            }
            Err(misfit) => Err(misfit),
        }
    }
}

/// Which cells were added and removed (LSP 3.17, "NotebookDocumentChangeEvent").
#[derive(Drop)]
pub struct NotebookCellStructure {
    /// The change of the list.
    pub array: NotebookCellArrayChange,
    /// The documents of added cells.
    pub did_open: Option<Vec<TextDocumentItem>>,
    /// The documents of removed cells.
    pub did_close: Option<Vec<TextDocumentIdentifier>>,
}

impl ToJson for NotebookCellStructure {
    ghost stands = { λ it. object_of (
        (codes "array", Some (⟦<NotebookCellArrayChange as ToJson>⟧.stands it.array))
        ∷ (codes "didClose", option_map ⟦<Vec<TextDocumentIdentifier> as ToJson>⟧.stands it.did_close)
        ∷ (codes "didOpen", option_map ⟦<Vec<TextDocumentItem> as ToJson>⟧.stands it.did_open) ∷ []) };

    fn write_json<S: JsonSink>(&self, out: &mut S) -> Result<(), S::Error> {
        out.begin_object()?;
        write_member(out, "array", &self.array)?;
        write_some(out, "didClose", &self.did_close)?;
        write_some(out, "didOpen", &self.did_open)?;
        out.end_object()
    }
}

impl FromJson for NotebookCellStructure {
    ghost reads = { λ json it. IsObject json
        and Required ⟦<NotebookCellArrayChange as FromJson>⟧.reads (codes "array") json it.array
        and Optional ⟦<Vec<TextDocumentItem> as FromJson>⟧.reads (codes "didOpen") json it.did_open
        and Optional ⟦<Vec<TextDocumentIdentifier> as FromJson>⟧.reads (codes "didClose") json it.did_close };

    fn from_json(alloc: Global, value: &JsonRef<'_>) -> Result<NotebookCellStructure, Misfit> {
        match Members::new(alloc, value)
            .required("array")
            .optional("didOpen")
            .optional("didClose")
            .end()
        {
            Ok(read) => {
                let ((((), array), did_open), did_close) = read;
                Ok(NotebookCellStructure {
                    array,
                    did_open,
                    did_close,
                })
            }
            Err(misfit) => Err(misfit),
        }
    }
}

/// A change of the text of a cell (LSP 3.17, "NotebookDocumentChangeEvent").
#[derive(Drop)]
pub struct NotebookCellTextChange {
    /// The cell's document, at its version after all changes.
    pub document: VersionedTextDocumentIdentifier,
    /// The changes. Each is applied to the text that the one before it left.
    pub changes: Vec<ContentChange>,
}

impl ToJson for NotebookCellTextChange {
    ghost stands = { λ it. object_of (
        (codes "changes", Some (⟦<Vec<ContentChange> as ToJson>⟧.stands it.changes))
        ∷ (codes "document", Some (⟦<VersionedTextDocumentIdentifier as ToJson>⟧.stands it.document)) ∷ []) };

    fn write_json<S: JsonSink>(&self, out: &mut S) -> Result<(), S::Error> {
        out.begin_object()?;
        write_member(out, "changes", &self.changes)?;
        write_member(out, "document", &self.document)?;
        out.end_object()
    }
}

impl FromJson for NotebookCellTextChange {
    ghost reads = { λ json it. IsObject json
        and Required ⟦<VersionedTextDocumentIdentifier as FromJson>⟧.reads (codes "document") json it.document
        and Required ⟦<Vec<ContentChange> as FromJson>⟧.reads (codes "changes") json it.changes };

    fn from_json(alloc: Global, value: &JsonRef<'_>) -> Result<NotebookCellTextChange, Misfit> {
        match Members::new(alloc, value)
            .required("document")
            .required("changes")
            .end()
        {
            Ok(read) => {
                let (((), document), changes) = read;
                Ok(NotebookCellTextChange { document, changes })
            }
            Err(misfit) => Err(misfit),
        }
    }
}

/// Changes of cells (LSP 3.17, "NotebookDocumentChangeEvent").
#[derive(Drop)]
pub struct NotebookCellChanges {
    /// Which were added and removed.
    pub structure: Option<NotebookCellStructure>,
    /// Those in which something other than the text changed.
    pub data: Option<Vec<NotebookCell>>,
    /// Those whose text changed.
    pub text_content: Option<Vec<NotebookCellTextChange>>,
}

impl ToJson for NotebookCellChanges {
    ghost stands = { λ it. object_of (
        (codes "data", option_map ⟦<Vec<NotebookCell> as ToJson>⟧.stands it.«data»)
        ∷ (codes "structure", option_map ⟦<NotebookCellStructure as ToJson>⟧.stands it.structure)
        ∷ (codes "textContent", option_map ⟦<Vec<NotebookCellTextChange> as ToJson>⟧.stands it.text_content) ∷ []) };

    fn write_json<S: JsonSink>(&self, out: &mut S) -> Result<(), S::Error> {
        out.begin_object()?;
        write_some(out, "data", &self.data)?;
        write_some(out, "structure", &self.structure)?;
        write_some(out, "textContent", &self.text_content)?;
        out.end_object()
    }
}

impl FromJson for NotebookCellChanges {
    ghost reads = { λ json it. IsObject json
        and Optional ⟦<NotebookCellStructure as FromJson>⟧.reads (codes "structure") json it.structure
        and Optional ⟦<Vec<NotebookCell> as FromJson>⟧.reads (codes "data") json it.«data»
        and Optional ⟦<Vec<NotebookCellTextChange> as FromJson>⟧.reads (codes "textContent") json it.text_content };

    fn from_json(alloc: Global, value: &JsonRef<'_>) -> Result<NotebookCellChanges, Misfit> {
        match Members::new(alloc, value)
            .optional("structure")
            .optional("data")
            .optional("textContent")
            .end()
        {
            Ok(read) => {
                let ((((), structure), data), text_content) = read;
                Ok(NotebookCellChanges {
                    structure,
                    data,
                    text_content,
                })
            }
            Err(misfit) => Err(misfit),
        }
    }
}

/// Changes of a notebook (LSP 3.17, "NotebookDocumentChangeEvent").
#[derive(Drop)]
pub struct NotebookDocumentChangeEvent {
    /// Its new metadata.
    pub metadata: Option<Value>,
    /// Changes of its cells.
    pub cells: Option<NotebookCellChanges>,
}

impl ToJson for NotebookDocumentChangeEvent {
    ghost stands = { λ it. object_of (
        (codes "cells", option_map ⟦<NotebookCellChanges as ToJson>⟧.stands it.cells)
        ∷ (codes "metadata", option_map ⟦<Value as ToJson>⟧.stands it.metadata) ∷ []) };

    fn write_json<S: JsonSink>(&self, out: &mut S) -> Result<(), S::Error> {
        out.begin_object()?;
        write_some(out, "cells", &self.cells)?;
        write_some(out, "metadata", &self.metadata)?;
        out.end_object()
    }
}

impl FromJson for NotebookDocumentChangeEvent {
    ghost reads = { λ json it. IsObject json
        and Optional ⟦<Value as FromJson>⟧.reads (codes "metadata") json it.metadata
        and Optional ⟦<NotebookCellChanges as FromJson>⟧.reads (codes "cells") json it.cells };

    fn from_json(
        alloc: Global,
        value: &JsonRef<'_>,
    ) -> Result<NotebookDocumentChangeEvent, Misfit> {
        match Members::new(alloc, value)
            .optional("metadata")
            .optional("cells")
            .end()
        {
            Ok(read) => {
                let (((), metadata), cells) = read;
                Ok(NotebookDocumentChangeEvent { metadata, cells })
            }
            Err(misfit) => Err(misfit),
        }
    }
}

/// The params of `notebookDocument/didChange` (LSP 3.17, "DidChangeNotebookDocument Notification").
#[derive(Drop)]
pub struct DidChangeNotebookDocumentParams {
    /// The notebook.
    pub notebook_document: VersionedNotebookDocumentIdentifier,
    /// What changed.
    pub change: NotebookDocumentChangeEvent,
}

impl ToJson for DidChangeNotebookDocumentParams {
    ghost stands = { λ it. object_of (
        (codes "change", Some (⟦<NotebookDocumentChangeEvent as ToJson>⟧.stands it.change))
        ∷ (codes "notebookDocument", Some (⟦<VersionedNotebookDocumentIdentifier as ToJson>⟧.stands it.notebook_document)) ∷ []) };

    fn write_json<S: JsonSink>(&self, out: &mut S) -> Result<(), S::Error> {
        out.begin_object()?;
        write_member(out, "change", &self.change)?;
        write_member(out, "notebookDocument", &self.notebook_document)?;
        out.end_object()
    }
}

impl FromJson for DidChangeNotebookDocumentParams {
    ghost reads = { λ json it. IsObject json
        and Required ⟦<VersionedNotebookDocumentIdentifier as FromJson>⟧.reads (codes "notebookDocument") json it.notebook_document
        and Required ⟦<NotebookDocumentChangeEvent as FromJson>⟧.reads (codes "change") json it.change };

    fn from_json(
        alloc: Global,
        value: &JsonRef<'_>,
    ) -> Result<DidChangeNotebookDocumentParams, Misfit> {
        match Members::new(alloc, value)
            .required("notebookDocument")
            .required("change")
            .end()
        {
            Ok(read) => {
                let (((), notebook_document), change) = read;
                Ok(DidChangeNotebookDocumentParams {
                    notebook_document,
                    change,
                })
            }
            Err(misfit) => Err(misfit),
        }
    }
}

/// A notebook (LSP 3.17, "NotebookDocumentIdentifier").
pub type NotebookDocumentIdentifier = TextDocumentIdentifier;

/// The params of `notebookDocument/didSave` (LSP 3.17, "DidSaveNotebookDocument Notification").
#[derive(Drop)]
pub struct DidSaveNotebookDocumentParams {
    /// The notebook.
    pub notebook_document: NotebookDocumentIdentifier,
}

impl ToJson for DidSaveNotebookDocumentParams {
    ghost stands = { λ it. object_of (
        (codes "notebookDocument", Some (⟦<NotebookDocumentIdentifier as ToJson>⟧.stands it.notebook_document)) ∷ []) };

    fn write_json<S: JsonSink>(&self, out: &mut S) -> Result<(), S::Error> {
        out.begin_object()?;
        write_member(out, "notebookDocument", &self.notebook_document)?;
        out.end_object()
    }
}

impl FromJson for DidSaveNotebookDocumentParams {
    ghost reads = { λ json it. IsObject json
        and Required ⟦<NotebookDocumentIdentifier as FromJson>⟧.reads (codes "notebookDocument") json it.notebook_document };

    fn from_json(
        alloc: Global,
        value: &JsonRef<'_>,
    ) -> Result<DidSaveNotebookDocumentParams, Misfit> {
        match Members::new(alloc, value)
            .required("notebookDocument")
            .end()
        {
            Ok(read) => {
                let ((), notebook_document) = read;
                Ok(DidSaveNotebookDocumentParams { notebook_document })
            }
            Err(misfit) => Err(misfit),
        }
    }
}

/// The params of `notebookDocument/didClose` (LSP 3.17, "DidCloseNotebookDocument Notification").
#[derive(Drop)]
pub struct DidCloseNotebookDocumentParams {
    /// The notebook.
    pub notebook_document: NotebookDocumentIdentifier,
    /// The documents of its cells, which are closed too.
    pub cell_text_documents: Vec<TextDocumentIdentifier>,
}

impl ToJson for DidCloseNotebookDocumentParams {
    ghost stands = { λ it. object_of (
        (codes "cellTextDocuments", Some (⟦<Vec<TextDocumentIdentifier> as ToJson>⟧.stands it.cell_text_documents))
        ∷ (codes "notebookDocument", Some (⟦<NotebookDocumentIdentifier as ToJson>⟧.stands it.notebook_document)) ∷ []) };

    fn write_json<S: JsonSink>(&self, out: &mut S) -> Result<(), S::Error> {
        out.begin_object()?;
        write_member(out, "cellTextDocuments", &self.cell_text_documents)?;
        write_member(out, "notebookDocument", &self.notebook_document)?;
        out.end_object()
    }
}

impl FromJson for DidCloseNotebookDocumentParams {
    ghost reads = { λ json it. IsObject json
        and Required ⟦<NotebookDocumentIdentifier as FromJson>⟧.reads (codes "notebookDocument") json it.notebook_document
        and Required ⟦<Vec<TextDocumentIdentifier> as FromJson>⟧.reads (codes "cellTextDocuments") json it.cell_text_documents };

    fn from_json(
        alloc: Global,
        value: &JsonRef<'_>,
    ) -> Result<DidCloseNotebookDocumentParams, Misfit> {
        match Members::new(alloc, value)
            .required("notebookDocument")
            .required("cellTextDocuments")
            .end()
        {
            Ok(read) => {
                let (((), notebook_document), cell_text_documents) = read;
                Ok(DidCloseNotebookDocumentParams {
                    notebook_document,
                    cell_text_documents,
                })
            }
            Err(misfit) => Err(misfit),
        }
    }
}
