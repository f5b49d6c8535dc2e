//! Diagnostics that a client requests.
// `tools/types` wrote this file from `types.txt`: change that.
ghost use Rattle.std.specs.Prelude.{◌∷◌, [], Some, codes, option_map};
ghost use Rattle.serde_json.specs.Data.{string};
ghost use Rattle.lsp_types.specs.Json.{object_of};
ghost use Rattle.lsp_types.specs.Reads.{IfFits, IsObject, Named, NoneReads, Optional, Required, ◌and◌};

use lsp_json::JsonRef;
use lsp_json_write::JsonSink;
use lsp_types::json::{
    FromJson, Members, Misfit, ToJson, fitting, write_member, write_some, write_text,
};
use lsp_types::{Diagnostic, ProgressToken, TextDocumentIdentifier};
use std::alloc::Global;
use std::collections::BTreeMap;

/// The params of `textDocument/diagnostic` (LSP 3.17, "Document Diagnostics"). The result is a
/// `DocumentDiagnosticReport`.
#[derive(Drop)]
pub struct DocumentDiagnosticParams {
    /// The document.
    pub text_document: TextDocumentIdentifier,
    /// Which kind is requested, by the identifier in `DiagnosticOptions`.
    pub identifier: Option<String>,
    /// The report that the client has.
    pub previous_result_id: Option<String>,
    /// The token to report progress with. `None` means that no progress is requested, or that the token does not fit.
    pub work_done_token: Option<ProgressToken>,
    /// The token to send parts of the result with. `None` means that no parts are requested, or that the token does not
    /// fit.
    pub partial_result_token: Option<ProgressToken>,
}

impl ToJson for DocumentDiagnosticParams {
    ghost stands = { λ it. object_of (
        (codes "identifier", option_map ⟦<String as ToJson>⟧.stands it.identifier)
        ∷ (codes "partialResultToken", option_map ⟦<ProgressToken as ToJson>⟧.stands it.partial_result_token)
        ∷ (codes "previousResultId", option_map ⟦<String as ToJson>⟧.stands it.previous_result_id)
        ∷ (codes "textDocument", Some (⟦<TextDocumentIdentifier as ToJson>⟧.stands it.text_document))
        ∷ (codes "workDoneToken", option_map ⟦<ProgressToken as ToJson>⟧.stands it.work_done_token) ∷ []) };

    fn write_json<S: JsonSink>(&self, out: &mut S) -> Result<(), S::Error> {
        out.begin_object()?;
        write_some(out, "identifier", &self.identifier)?;
        write_some(out, "partialResultToken", &self.partial_result_token)?;
        write_some(out, "previousResultId", &self.previous_result_id)?;
        write_member(out, "textDocument", &self.text_document)?;
        write_some(out, "workDoneToken", &self.work_done_token)?;
        out.end_object()
    }
}

impl FromJson for DocumentDiagnosticParams {
    ghost reads = { λ json it. IsObject json
        and Required ⟦<TextDocumentIdentifier as FromJson>⟧.reads (codes "textDocument") json it.text_document
        and Optional ⟦<String as FromJson>⟧.reads (codes "identifier") json it.identifier
        and Optional ⟦<String as FromJson>⟧.reads (codes "previousResultId") json it.previous_result_id
        and IfFits ⟦<ProgressToken as FromJson>⟧.reads (codes "workDoneToken") json it.work_done_token
        and IfFits ⟦<ProgressToken as FromJson>⟧.reads (codes "partialResultToken") json it.partial_result_token };

    fn from_json(alloc: Global, value: &JsonRef<'_>) -> Result<DocumentDiagnosticParams, Misfit> {
        match Members::new(alloc, value)
            .required("textDocument")
            .optional("identifier")
            .optional("previousResultId")
            .if_fits("workDoneToken")
            .if_fits("partialResultToken")
            .end()
        {
            Ok(read) => {
                let (read, partial_result_token) = read;
                let (read, work_done_token) = read;
                let (read, previous_result_id) = read;
                let (read, identifier) = read;
                let ((), text_document) = read;
                Ok(DocumentDiagnosticParams {
                    text_document,
                    identifier,
                    previous_result_id,
                    work_done_token,
                    partial_result_token,
                })
            }
            Err(misfit) => Err(misfit),
        }
    }
}

/// All that is wrong with a document (LSP 3.17, "FullDocumentDiagnosticReport").
#[derive(Drop)]
pub struct FullDocumentDiagnosticReport {
    /// An id for this report.
    pub result_id: Option<String>,
    /// What is wrong.
    pub items: Vec<Diagnostic>,
}

impl FullDocumentDiagnosticReport {
    ghost use Rattle.std.specs.Prelude.{◌≡◌, None};

    /// Makes one from the required members. The others are `None`.
    pub fn new(items: Vec<Diagnostic>) -> FullDocumentDiagnosticReport
        ensures { result ≡ record {
          result_id = None;
          items = items;
        } }
    {
        FullDocumentDiagnosticReport {
            result_id: None,
            items,
        }
    }
}

impl ToJson for FullDocumentDiagnosticReport {
    ghost stands = { λ it. object_of (
        (codes "items", Some (⟦<Vec<Diagnostic> as ToJson>⟧.stands it.items))
        ∷ (codes "kind", Some (string (codes "full")))
        ∷ (codes "resultId", option_map ⟦<String as ToJson>⟧.stands it.result_id) ∷ []) };

    fn write_json<S: JsonSink>(&self, out: &mut S) -> Result<(), S::Error> {
        out.begin_object()?;
        write_member(out, "items", &self.items)?;
        write_text(out, "kind", "full")?;
        write_some(out, "resultId", &self.result_id)?;
        out.end_object()
    }
}

impl FromJson for FullDocumentDiagnosticReport {
    ghost reads = { λ json it. IsObject json
        and Named (codes "kind") (codes "full") json
        and Optional ⟦<String as FromJson>⟧.reads (codes "resultId") json it.result_id
        and Required ⟦<Vec<Diagnostic> as FromJson>⟧.reads (codes "items") json it.items };

    fn from_json(
        alloc: Global,
        value: &JsonRef<'_>,
    ) -> Result<FullDocumentDiagnosticReport, Misfit> {
        match Members::new(alloc, value)
            .named("kind", "full")
            .optional("resultId")
            .required("items")
            .end()
        {
            Ok(read) => {
                let ((((), ()), result_id), items) = read;
                Ok(FullDocumentDiagnosticReport { result_id, items })
            }
            Err(misfit) => Err(misfit),
        }
    }
}

/// The client's report is still valid (LSP 3.17, "UnchangedDocumentDiagnosticReport").
#[derive(Drop)]
pub struct UnchangedDocumentDiagnosticReport {
    /// Its id from now on.
    pub result_id: String,
}

impl ToJson for UnchangedDocumentDiagnosticReport {
    ghost stands = { λ it. object_of (
        (codes "kind", Some (string (codes "unchanged")))
        ∷ (codes "resultId", Some (⟦<String as ToJson>⟧.stands it.result_id)) ∷ []) };

    fn write_json<S: JsonSink>(&self, out: &mut S) -> Result<(), S::Error> {
        out.begin_object()?;
        write_text(out, "kind", "unchanged")?;
        write_member(out, "resultId", &self.result_id)?;
        out.end_object()
    }
}

impl FromJson for UnchangedDocumentDiagnosticReport {
    ghost reads = { λ json it. IsObject json
        and Named (codes "kind") (codes "unchanged") json
        and Required ⟦<String as FromJson>⟧.reads (codes "resultId") json it.result_id };

    fn from_json(
        alloc: Global,
        value: &JsonRef<'_>,
    ) -> Result<UnchangedDocumentDiagnosticReport, Misfit> {
        match Members::new(alloc, value)
            .named("kind", "unchanged")
            .required("resultId")
            .end()
        {
            Ok(read) => {
                let (((), ()), result_id) = read;
                Ok(UnchangedDocumentDiagnosticReport { result_id })
            }
            Err(misfit) => Err(misfit),
        }
    }
}

/// What is wrong with another document (LSP 3.17, "RelatedFullDocumentDiagnosticReport").
#[derive(Drop)]
pub enum RelatedReport {
    /// All of it.
    Full(FullDocumentDiagnosticReport),
    /// The client's report is still valid.
    Unchanged(UnchangedDocumentDiagnosticReport),
}

impl ToJson for RelatedReport {
    ghost use Rattle.lsp_types_features.specs.declared.reports.RelatedReport.TheVariants.{Full, Unchanged};

    ghost stands = { elim [
      | Full it ↦ ⟦<FullDocumentDiagnosticReport as ToJson>⟧.stands it
      | Unchanged it ↦ ⟦<UnchangedDocumentDiagnosticReport as ToJson>⟧.stands it
    ] };

    fn write_json<S: JsonSink>(&self, out: &mut S) -> Result<(), S::Error> {
        match self {
            RelatedReport::Full(it) => it.write_json(out),
            RelatedReport::Unchanged(it) => it.write_json(out),
        }
    }
}

impl FromJson for RelatedReport {
    ghost use Rattle.lsp_types_features.specs.declared.reports.RelatedReport.TheVariants.{Full, Unchanged};

    ghost reads = { λ json. elim [
      | Full it ↦ ⟦<FullDocumentDiagnosticReport as FromJson>⟧.reads json it
      | Unchanged it ↦ NoneReads ⟦<FullDocumentDiagnosticReport as FromJson>⟧.reads json × ⟦<UnchangedDocumentDiagnosticReport as FromJson>⟧.reads json it
    ] };

    fn from_json(alloc: Global, value: &JsonRef<'_>) -> Result<RelatedReport, Misfit> {
        if let Some(it) = fitting(alloc, value)? {
            return Ok(RelatedReport::Full(it));
        }
        match FromJson::from_json(alloc, value) {
            Ok(it) => Ok(RelatedReport::Unchanged(it)),
            Err(misfit) => Err(misfit),
        }
    }
}

/// All that is wrong with a document, and with others that depend on it (LSP 3.17,
/// "RelatedFullDocumentDiagnosticReport").
#[derive(Drop)]
pub struct RelatedFullDocumentDiagnosticReport {
    /// An id for this report.
    pub result_id: Option<String>,
    /// What is wrong.
    pub items: Vec<Diagnostic>,
    /// The reports of other documents, by their URIs.
    pub related_documents: Option<BTreeMap<String, RelatedReport>>,
}

impl RelatedFullDocumentDiagnosticReport {
    ghost use Rattle.std.specs.Prelude.{◌≡◌, None};

    /// Makes one from the required members. The others are `None`.
    pub fn new(items: Vec<Diagnostic>) -> RelatedFullDocumentDiagnosticReport
        ensures { result ≡ record {
          result_id = None;
          items = items;
          related_documents = None;
        } }
    {
        RelatedFullDocumentDiagnosticReport {
            result_id: None,
            items,
            related_documents: None,
        }
    }
}

impl ToJson for RelatedFullDocumentDiagnosticReport {
    ghost stands = { λ it. object_of (
        (codes "items", Some (⟦<Vec<Diagnostic> as ToJson>⟧.stands it.items))
        ∷ (codes "kind", Some (string (codes "full")))
        ∷ (codes "relatedDocuments", option_map ⟦<BTreeMap<String, RelatedReport> as ToJson>⟧.stands it.related_documents)
        ∷ (codes "resultId", option_map ⟦<String as ToJson>⟧.stands it.result_id) ∷ []) };

    fn write_json<S: JsonSink>(&self, out: &mut S) -> Result<(), S::Error> {
        out.begin_object()?;
        write_member(out, "items", &self.items)?;
        write_text(out, "kind", "full")?;
        write_some(out, "relatedDocuments", &self.related_documents)?;
        write_some(out, "resultId", &self.result_id)?;
        out.end_object()
    }
}

impl FromJson for RelatedFullDocumentDiagnosticReport {
    ghost reads = { λ json it. IsObject json
        and Named (codes "kind") (codes "full") json
        and Optional ⟦<String as FromJson>⟧.reads (codes "resultId") json it.result_id
        and Required ⟦<Vec<Diagnostic> as FromJson>⟧.reads (codes "items") json it.items
        and Optional ⟦<BTreeMap<String, RelatedReport> as FromJson>⟧.reads (codes "relatedDocuments") json it.related_documents };

    fn from_json(
        alloc: Global,
        value: &JsonRef<'_>,
    ) -> Result<RelatedFullDocumentDiagnosticReport, Misfit> {
        match Members::new(alloc, value)
            .named("kind", "full")
            .optional("resultId")
            .required("items")
            .optional("relatedDocuments")
            .end()
        {
            Ok(read) => {
                let (((((), ()), result_id), items), related_documents) = read;
                Ok(RelatedFullDocumentDiagnosticReport {
                    result_id,
                    items,
                    related_documents,
                })
            }
            Err(misfit) => Err(misfit),
        }
    }
}

/// The client's report is still valid, with reports of other documents (LSP 3.17,
/// "RelatedUnchangedDocumentDiagnosticReport").
#[derive(Drop)]
pub struct RelatedUnchangedDocumentDiagnosticReport {
    /// Its id from now on.
    pub result_id: String,
    /// The reports of other documents, by their URIs.
    pub related_documents: Option<BTreeMap<String, RelatedReport>>,
}

impl RelatedUnchangedDocumentDiagnosticReport {
    ghost use Rattle.std.specs.Prelude.{◌≡◌, None};

    /// Makes one from the required members. The others are `None`.
    pub fn new(result_id: String) -> RelatedUnchangedDocumentDiagnosticReport
        ensures { result ≡ record {
          result_id = result_id;
          related_documents = None;
        } }
    {
        RelatedUnchangedDocumentDiagnosticReport {
            result_id,
            related_documents: None,
        }
    }
}

impl ToJson for RelatedUnchangedDocumentDiagnosticReport {
    ghost stands = { λ it. object_of (
        (codes "kind", Some (string (codes "unchanged")))
        ∷ (codes "relatedDocuments", option_map ⟦<BTreeMap<String, RelatedReport> as ToJson>⟧.stands it.related_documents)
        ∷ (codes "resultId", Some (⟦<String as ToJson>⟧.stands it.result_id)) ∷ []) };

    fn write_json<S: JsonSink>(&self, out: &mut S) -> Result<(), S::Error> {
        out.begin_object()?;
        write_text(out, "kind", "unchanged")?;
        write_some(out, "relatedDocuments", &self.related_documents)?;
        write_member(out, "resultId", &self.result_id)?;
        out.end_object()
    }
}

impl FromJson for RelatedUnchangedDocumentDiagnosticReport {
    ghost reads = { λ json it. IsObject json
        and Named (codes "kind") (codes "unchanged") json
        and Required ⟦<String as FromJson>⟧.reads (codes "resultId") json it.result_id
        and Optional ⟦<BTreeMap<String, RelatedReport> as FromJson>⟧.reads (codes "relatedDocuments") json it.related_documents };

    fn from_json(
        alloc: Global,
        value: &JsonRef<'_>,
    ) -> Result<RelatedUnchangedDocumentDiagnosticReport, Misfit> {
        match Members::new(alloc, value)
            .named("kind", "unchanged")
            .required("resultId")
            .optional("relatedDocuments")
            .end()
        {
            Ok(read) => {
                let ((((), ()), result_id), related_documents) = read;
                Ok(RelatedUnchangedDocumentDiagnosticReport {
                    result_id,
                    related_documents,
                })
            }
            Err(misfit) => Err(misfit),
        }
    }
}

/// The result of `textDocument/diagnostic` (LSP 3.17, "DocumentDiagnosticReport").
#[derive(Drop)]
pub enum DocumentDiagnosticReport {
    /// All that is wrong.
    Full(RelatedFullDocumentDiagnosticReport),
    /// The client's report is still valid.
    Unchanged(RelatedUnchangedDocumentDiagnosticReport),
}

impl ToJson for DocumentDiagnosticReport {
    ghost use Rattle.lsp_types_features.specs.declared.reports.DocumentDiagnosticReport.TheVariants.{Full, Unchanged};

    ghost stands = { elim [
      | Full it ↦ ⟦<RelatedFullDocumentDiagnosticReport as ToJson>⟧.stands it
      | Unchanged it ↦ ⟦<RelatedUnchangedDocumentDiagnosticReport as ToJson>⟧.stands it
    ] };

    fn write_json<S: JsonSink>(&self, out: &mut S) -> Result<(), S::Error> {
        match self {
            DocumentDiagnosticReport::Full(it) => it.write_json(out),
            DocumentDiagnosticReport::Unchanged(it) => it.write_json(out),
        }
    }
}

impl FromJson for DocumentDiagnosticReport {
    ghost use Rattle.lsp_types_features.specs.declared.reports.DocumentDiagnosticReport.TheVariants.{Full, Unchanged};

    ghost reads = { λ json. elim [
      | Full it ↦ ⟦<RelatedFullDocumentDiagnosticReport as FromJson>⟧.reads json it
      | Unchanged it ↦ NoneReads ⟦<RelatedFullDocumentDiagnosticReport as FromJson>⟧.reads json × ⟦<RelatedUnchangedDocumentDiagnosticReport as FromJson>⟧.reads json it
    ] };

    fn from_json(alloc: Global, value: &JsonRef<'_>) -> Result<DocumentDiagnosticReport, Misfit> {
        if let Some(it) = fitting(alloc, value)? {
            return Ok(DocumentDiagnosticReport::Full(it));
        }
        match FromJson::from_json(alloc, value) {
            Ok(it) => Ok(DocumentDiagnosticReport::Unchanged(it)),
            Err(misfit) => Err(misfit),
        }
    }
}

/// A report that the client has (LSP 3.17, "PreviousResultId").
#[derive(Drop)]
pub struct PreviousResultId {
    /// The document's URI.
    pub uri: String,
    /// The report's id.
    pub value: String,
}

impl ToJson for PreviousResultId {
    ghost stands = { λ it. object_of (
        (codes "uri", Some (⟦<String as ToJson>⟧.stands it.uri))
        ∷ (codes "value", Some (⟦<String as ToJson>⟧.stands it.value)) ∷ []) };

    fn write_json<S: JsonSink>(&self, out: &mut S) -> Result<(), S::Error> {
        out.begin_object()?;
        write_member(out, "uri", &self.uri)?;
        write_member(out, "value", &self.value)?;
        out.end_object()
    }
}

impl FromJson for PreviousResultId {
    ghost reads = { λ json it. IsObject json
        and Required ⟦<String as FromJson>⟧.reads (codes "uri") json it.uri
        and Required ⟦<String as FromJson>⟧.reads (codes "value") json it.value };

    fn from_json(alloc: Global, value: &JsonRef<'_>) -> Result<PreviousResultId, Misfit> {
        match Members::new(alloc, value)
            .required("uri")
            .required("value")
            .end()
        {
            Ok(read) => {
                let (((), uri), value) = read;
                Ok(PreviousResultId { uri, value })
            }
            Err(misfit) => Err(misfit),
        }
    }
}

/// The params of `workspace/diagnostic` (LSP 3.17, "Workspace Diagnostics"). The result is a
/// `WorkspaceDiagnosticReport`.
#[derive(Drop)]
pub struct WorkspaceDiagnosticParams {
    /// Which kind is requested, by the identifier in `DiagnosticOptions`.
    pub identifier: Option<String>,
    /// The reports that the client has.
    pub previous_result_ids: Vec<PreviousResultId>,
    /// The token to report progress with. `None` means that no progress is requested, or that the token does not fit.
    pub work_done_token: Option<ProgressToken>,
    /// The token to send parts of the result with. `None` means that no parts are requested, or that the token does not
    /// fit.
    pub partial_result_token: Option<ProgressToken>,
}

impl ToJson for WorkspaceDiagnosticParams {
    ghost stands = { λ it. object_of (
        (codes "identifier", option_map ⟦<String as ToJson>⟧.stands it.identifier)
        ∷ (codes "partialResultToken", option_map ⟦<ProgressToken as ToJson>⟧.stands it.partial_result_token)
        ∷ (codes "previousResultIds", Some (⟦<Vec<PreviousResultId> as ToJson>⟧.stands it.previous_result_ids))
        ∷ (codes "workDoneToken", option_map ⟦<ProgressToken as ToJson>⟧.stands it.work_done_token) ∷ []) };

    fn write_json<S: JsonSink>(&self, out: &mut S) -> Result<(), S::Error> {
        out.begin_object()?;
        write_some(out, "identifier", &self.identifier)?;
        write_some(out, "partialResultToken", &self.partial_result_token)?;
        write_member(out, "previousResultIds", &self.previous_result_ids)?;
        write_some(out, "workDoneToken", &self.work_done_token)?;
        out.end_object()
    }
}

impl FromJson for WorkspaceDiagnosticParams {
    ghost reads = { λ json it. IsObject json
        and Optional ⟦<String as FromJson>⟧.reads (codes "identifier") json it.identifier
        and Required ⟦<Vec<PreviousResultId> as FromJson>⟧.reads (codes "previousResultIds") json it.previous_result_ids
        and IfFits ⟦<ProgressToken as FromJson>⟧.reads (codes "workDoneToken") json it.work_done_token
        and IfFits ⟦<ProgressToken as FromJson>⟧.reads (codes "partialResultToken") json it.partial_result_token };

    fn from_json(alloc: Global, value: &JsonRef<'_>) -> Result<WorkspaceDiagnosticParams, Misfit> {
        match Members::new(alloc, value)
            .optional("identifier")
            .required("previousResultIds")
            .if_fits("workDoneToken")
            .if_fits("partialResultToken")
            .end()
        {
            Ok(read) => {
                let (read, partial_result_token) = read;
                let (read, work_done_token) = read;
                let (read, previous_result_ids) = read;
                let ((), identifier) = read;
                Ok(WorkspaceDiagnosticParams {
                    identifier,
                    previous_result_ids,
                    work_done_token,
                    partial_result_token,
                })
            }
            Err(misfit) => Err(misfit),
        }
    }
}

/// All that is wrong with a document (LSP 3.17, "WorkspaceFullDocumentDiagnosticReport").
#[derive(Drop)]
pub struct WorkspaceFullDocumentDiagnosticReport {
    /// An id for this report.
    pub result_id: Option<String>,
    /// What is wrong.
    pub items: Vec<Diagnostic>,
    /// The document's URI.
    pub uri: String,
    /// The version that was analysed. `None` means the file on disk.
    pub version: Option<i32>,
}

impl WorkspaceFullDocumentDiagnosticReport {
    ghost use Rattle.std.specs.Prelude.{◌≡◌, None};

    /// Makes one from the required members. The others are `None`.
    pub fn new(items: Vec<Diagnostic>, uri: String) -> WorkspaceFullDocumentDiagnosticReport
        ensures { result ≡ record {
          result_id = None;
          items = items;
          uri = uri;
          version = None;
        } }
    {
        WorkspaceFullDocumentDiagnosticReport {
            result_id: None,
            items,
            uri,
            version: None,
        }
    }
}

impl ToJson for WorkspaceFullDocumentDiagnosticReport {
    ghost stands = { λ it. object_of (
        (codes "items", Some (⟦<Vec<Diagnostic> as ToJson>⟧.stands it.items))
        ∷ (codes "kind", Some (string (codes "full")))
        ∷ (codes "resultId", option_map ⟦<String as ToJson>⟧.stands it.result_id)
        ∷ (codes "uri", Some (⟦<String as ToJson>⟧.stands it.uri))
        ∷ (codes "version", Some (⟦<Option<i32> as ToJson>⟧.stands it.version)) ∷ []) };

    fn write_json<S: JsonSink>(&self, out: &mut S) -> Result<(), S::Error> {
        out.begin_object()?;
        write_member(out, "items", &self.items)?;
        write_text(out, "kind", "full")?;
        write_some(out, "resultId", &self.result_id)?;
        write_member(out, "uri", &self.uri)?;
        write_member(out, "version", &self.version)?;
        out.end_object()
    }
}

impl FromJson for WorkspaceFullDocumentDiagnosticReport {
    ghost reads = { λ json it. IsObject json
        and Named (codes "kind") (codes "full") json
        and Optional ⟦<String as FromJson>⟧.reads (codes "resultId") json it.result_id
        and Required ⟦<Vec<Diagnostic> as FromJson>⟧.reads (codes "items") json it.items
        and Required ⟦<String as FromJson>⟧.reads (codes "uri") json it.uri
        and Optional ⟦<i32 as FromJson>⟧.reads (codes "version") json it.version };

    fn from_json(
        alloc: Global,
        value: &JsonRef<'_>,
    ) -> Result<WorkspaceFullDocumentDiagnosticReport, Misfit> {
        match Members::new(alloc, value)
            .named("kind", "full")
            .optional("resultId")
            .required("items")
            .required("uri")
            .optional("version")
            .end()
        {
            Ok(read) => {
                let ((((((), ()), result_id), items), uri), version) = read;
                Ok(WorkspaceFullDocumentDiagnosticReport {
                    result_id,
                    items,
                    uri,
                    version,
                })
            }
            Err(misfit) => Err(misfit),
        }
    }
}

/// The client's report is still valid (LSP 3.17, "WorkspaceUnchangedDocumentDiagnosticReport").
#[derive(Drop)]
pub struct WorkspaceUnchangedDocumentDiagnosticReport {
    /// Its id from now on.
    pub result_id: String,
    /// The document's URI.
    pub uri: String,
    /// The version that was analysed. `None` means the file on disk.
    pub version: Option<i32>,
}

impl WorkspaceUnchangedDocumentDiagnosticReport {
    ghost use Rattle.std.specs.Prelude.{◌≡◌, None};

    /// Makes one from the required members. The others are `None`.
    pub fn new(result_id: String, uri: String) -> WorkspaceUnchangedDocumentDiagnosticReport
        ensures { result ≡ record {
          result_id = result_id;
          uri = uri;
          version = None;
        } }
    {
        WorkspaceUnchangedDocumentDiagnosticReport {
            result_id,
            uri,
            version: None,
        }
    }
}

impl ToJson for WorkspaceUnchangedDocumentDiagnosticReport {
    ghost stands = { λ it. object_of (
        (codes "kind", Some (string (codes "unchanged")))
        ∷ (codes "resultId", Some (⟦<String as ToJson>⟧.stands it.result_id))
        ∷ (codes "uri", Some (⟦<String as ToJson>⟧.stands it.uri))
        ∷ (codes "version", Some (⟦<Option<i32> as ToJson>⟧.stands it.version)) ∷ []) };

    fn write_json<S: JsonSink>(&self, out: &mut S) -> Result<(), S::Error> {
        out.begin_object()?;
        write_text(out, "kind", "unchanged")?;
        write_member(out, "resultId", &self.result_id)?;
        write_member(out, "uri", &self.uri)?;
        write_member(out, "version", &self.version)?;
        out.end_object()
    }
}

impl FromJson for WorkspaceUnchangedDocumentDiagnosticReport {
    ghost reads = { λ json it. IsObject json
        and Named (codes "kind") (codes "unchanged") json
        and Required ⟦<String as FromJson>⟧.reads (codes "resultId") json it.result_id
        and Required ⟦<String as FromJson>⟧.reads (codes "uri") json it.uri
        and Optional ⟦<i32 as FromJson>⟧.reads (codes "version") json it.version };

    fn from_json(
        alloc: Global,
        value: &JsonRef<'_>,
    ) -> Result<WorkspaceUnchangedDocumentDiagnosticReport, Misfit> {
        match Members::new(alloc, value)
            .named("kind", "unchanged")
            .required("resultId")
            .required("uri")
            .optional("version")
            .end()
        {
            Ok(read) => {
                let (((((), ()), result_id), uri), version) = read;
                Ok(WorkspaceUnchangedDocumentDiagnosticReport {
                    result_id,
                    uri,
                    version,
                })
            }
            Err(misfit) => Err(misfit),
        }
    }
}

/// What is wrong with a document of a workspace (LSP 3.17, "WorkspaceDocumentDiagnosticReport").
#[derive(Drop)]
pub enum WorkspaceDocumentDiagnosticReport {
    /// All of it.
    Full(WorkspaceFullDocumentDiagnosticReport),
    /// The client's report is still valid.
    Unchanged(WorkspaceUnchangedDocumentDiagnosticReport),
}

impl ToJson for WorkspaceDocumentDiagnosticReport {
    ghost use Rattle.lsp_types_features.specs.declared.reports.WorkspaceDocumentDiagnosticReport.TheVariants.{Full, Unchanged};

    ghost stands = { elim [
      | Full it ↦ ⟦<WorkspaceFullDocumentDiagnosticReport as ToJson>⟧.stands it
      | Unchanged it ↦ ⟦<WorkspaceUnchangedDocumentDiagnosticReport as ToJson>⟧.stands it
    ] };

    fn write_json<S: JsonSink>(&self, out: &mut S) -> Result<(), S::Error> {
        match self {
            WorkspaceDocumentDiagnosticReport::Full(it) => it.write_json(out),
            WorkspaceDocumentDiagnosticReport::Unchanged(it) => it.write_json(out),
        }
    }
}

impl FromJson for WorkspaceDocumentDiagnosticReport {
    ghost use Rattle.lsp_types_features.specs.declared.reports.WorkspaceDocumentDiagnosticReport.TheVariants.{Full, Unchanged};

    ghost reads = { λ json. elim [
      | Full it ↦ ⟦<WorkspaceFullDocumentDiagnosticReport as FromJson>⟧.reads json it
      | Unchanged it ↦ NoneReads ⟦<WorkspaceFullDocumentDiagnosticReport as FromJson>⟧.reads json × ⟦<WorkspaceUnchangedDocumentDiagnosticReport as FromJson>⟧.reads json it
    ] };

    fn from_json(
        alloc: Global,
        value: &JsonRef<'_>,
    ) -> Result<WorkspaceDocumentDiagnosticReport, Misfit> {
        if let Some(it) = fitting(alloc, value)? {
            return Ok(WorkspaceDocumentDiagnosticReport::Full(it));
        }
        match FromJson::from_json(alloc, value) {
            Ok(it) => Ok(WorkspaceDocumentDiagnosticReport::Unchanged(it)),
            Err(misfit) => Err(misfit),
        }
    }
}

/// The result of `workspace/diagnostic` (LSP 3.17, "WorkspaceDiagnosticReport").
#[derive(Drop)]
pub struct WorkspaceDiagnosticReport {
    /// The documents.
    pub items: Vec<WorkspaceDocumentDiagnosticReport>,
}

impl ToJson for WorkspaceDiagnosticReport {
    ghost stands = { λ it. object_of (
        (codes "items", Some (⟦<Vec<WorkspaceDocumentDiagnosticReport> as ToJson>⟧.stands it.items)) ∷ []) };

    fn write_json<S: JsonSink>(&self, out: &mut S) -> Result<(), S::Error> {
        out.begin_object()?;
        write_member(out, "items", &self.items)?;
        out.end_object()
    }
}

impl FromJson for WorkspaceDiagnosticReport {
    ghost reads = { λ json it. IsObject json
        and Required ⟦<Vec<WorkspaceDocumentDiagnosticReport> as FromJson>⟧.reads (codes "items") json it.items };

    fn from_json(alloc: Global, value: &JsonRef<'_>) -> Result<WorkspaceDiagnosticReport, Misfit> {
        match Members::new(alloc, value).required("items").end() {
            Ok(read) => {
                let ((), items) = read;
                Ok(WorkspaceDiagnosticReport { items })
            }
            Err(misfit) => Err(misfit),
        }
    }
}

/// The `data` of the error -32802 (server cancelled) to a request for diagnostics (LSP 3.17,
/// "DiagnosticServerCancellationData").
#[derive(Clone, Copy, Drop)]
pub struct DiagnosticServerCancellationData {
    /// Whether the client is to ask again.
    pub retrigger_request: bool,
}

impl ToJson for DiagnosticServerCancellationData {
    ghost stands = { λ it. object_of (
        (codes "retriggerRequest", Some (⟦<bool as ToJson>⟧.stands it.retrigger_request)) ∷ []) };

    fn write_json<S: JsonSink>(&self, out: &mut S) -> Result<(), S::Error> {
        out.begin_object()?;
        write_member(out, "retriggerRequest", &self.retrigger_request)?;
        out.end_object()
    }
}

impl FromJson for DiagnosticServerCancellationData {
    ghost reads = { λ json it. IsObject json
        and Required ⟦<bool as FromJson>⟧.reads (codes "retriggerRequest") json it.retrigger_request };

    fn from_json(
        alloc: Global,
        value: &JsonRef<'_>,
    ) -> Result<DiagnosticServerCancellationData, Misfit> {
        match Members::new(alloc, value)
            .required("retriggerRequest")
            .end()
        {
            Ok(read) => {
                let ((), retrigger_request) = read;
                Ok(DiagnosticServerCancellationData { retrigger_request })
            }
            Err(misfit) => Err(misfit),
        }
    }
}
