//! The result of a request for the diagnostics of a document.
use crate::reports::{
    DocumentDiagnosticReport, RelatedFullDocumentDiagnosticReport,
    RelatedUnchangedDocumentDiagnosticReport,
};
use lsp_types::Diagnostic;

impl DocumentDiagnosticReport {
    ghost use Rattle.std.specs.Prelude.{◌≡◌, ◌≢◌, None, Some, option_map, string_bytes};
    ghost use Rattle.lsp_types_features.specs.declared.reports.DocumentDiagnosticReport.TheVariants.{Full, Unchanged};

    /// Makes the result of `textDocument/diagnostic` (LSP 3.17, "Document Diagnostics"). `result_id` is the id of these
    /// diagnostics: choose another for a text with other diagnostics. `previous` is the id of the report that the client
    /// has, `previous_result_id` of the params. If the two are the same, the client's report is still valid, so the
    /// result does not have the diagnostics. Otherwise it has all of them.
    pub fn since(
        previous: Option<&str>,
        result_id: String,
        items: Vec<Diagnostic>,
    ) -> DocumentDiagnosticReport
        ensures unchanged { option_map (λ id. id.now) previous.entry ≡ Some (string_bytes result_id)
            → result ≡ Unchanged (record { result_id = result_id; related_documents = None }) }
        ensures full { option_map (λ id. id.now) previous.entry ≢ Some (string_bytes result_id)
            → result ≡ Full (record {
              result_id = Some result_id;
              items = items;
              related_documents = None;
            }) }
    {
        if previous == Some(result_id.as_str()) {
            drop(items);
            return DocumentDiagnosticReport::Unchanged(
                RelatedUnchangedDocumentDiagnosticReport::new(result_id),
            );
        }
        DocumentDiagnosticReport::Full(RelatedFullDocumentDiagnosticReport {
            result_id: Some(result_id),
            ..RelatedFullDocumentDiagnosticReport::new(items)
        })
    }
}
