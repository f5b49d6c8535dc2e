//! What a server finds wrong with a document.
// `tools/types` wrote this file from `types.txt`: change that.
ghost use Rattle.std.specs.Prelude.{◌∷◌, [], Some, codes, option_map};
ghost use Rattle.serde_json.specs.Data.{number, unsigned};
ghost use Rattle.lsp_types.specs.Json.{object_of};
ghost use Rattle.lsp_types.specs.Reads.{IsObject, IsWithin, Optional, Required, ◌and◌};

use crate::choices::NumberOrString;
use crate::documents::Location;
use crate::json::{FromJson, Members, Misfit, ToJson, number_within, write_member, write_some};
use lsp_json::JsonRef;
use lsp_json_write::JsonSink;
use lsp_text::Range;
use serde_json::Value;
use std::alloc::Global;

/// How severe a diagnostic is (LSP 3.17, "DiagnosticSeverity"). On reading, another number is refused.
#[derive(Clone, Copy, Drop)]
pub struct DiagnosticSeverity(pub u32);

impl DiagnosticSeverity {
    /// An error.
    pub const ERROR: DiagnosticSeverity = DiagnosticSeverity(1);
    /// A warning.
    pub const WARNING: DiagnosticSeverity = DiagnosticSeverity(2);
    /// Information.
    pub const INFORMATION: DiagnosticSeverity = DiagnosticSeverity(3);
    /// A hint.
    pub const HINT: DiagnosticSeverity = DiagnosticSeverity(4);
}

impl ToJson for DiagnosticSeverity {
    ghost stands = { λ it. number (unsigned it.0) };

    fn write_json<S: JsonSink>(&self, out: &mut S) -> Result<(), S::Error> {
        self.0.write_json(out)
    }
}

impl FromJson for DiagnosticSeverity {
    ghost reads = { λ json it. IsWithin 1 4 json it.0 };

    fn from_json(alloc: Global, value: &JsonRef<'_>) -> Result<DiagnosticSeverity, Misfit> {
        match number_within(alloc, value, 1, 4) {
            Ok(number) => Ok(DiagnosticSeverity(number)),
            Err(misfit) => Err(misfit),
        }
    }
}

/// How a client may show a diagnostic (LSP 3.17, "DiagnosticTag"). On reading, another number is refused.
#[derive(Clone, Copy, Drop)]
pub struct DiagnosticTag(pub u32);

impl DiagnosticTag {
    /// Faded: unused code.
    pub const UNNECESSARY: DiagnosticTag = DiagnosticTag(1);
    /// Struck through: deprecated code.
    pub const DEPRECATED: DiagnosticTag = DiagnosticTag(2);
}

impl ToJson for DiagnosticTag {
    ghost stands = { λ it. number (unsigned it.0) };

    fn write_json<S: JsonSink>(&self, out: &mut S) -> Result<(), S::Error> {
        self.0.write_json(out)
    }
}

impl FromJson for DiagnosticTag {
    ghost reads = { λ json it. IsWithin 1 2 json it.0 };

    fn from_json(alloc: Global, value: &JsonRef<'_>) -> Result<DiagnosticTag, Misfit> {
        match number_within(alloc, value, 1, 2) {
            Ok(number) => Ok(DiagnosticTag(number)),
            Err(misfit) => Err(misfit),
        }
    }
}

/// A place that has to do with a diagnostic (LSP 3.17, "DiagnosticRelatedInformation").
#[derive(Drop)]
pub struct DiagnosticRelatedInformation {
    /// The place.
    pub location: Location,
    /// What it has to do with it.
    pub message: String,
}

impl ToJson for DiagnosticRelatedInformation {
    ghost stands = { λ it. object_of (
        (codes "location", Some (⟦<Location as ToJson>⟧.stands it.location))
        ∷ (codes "message", Some (⟦<String as ToJson>⟧.stands it.message)) ∷ []) };

    fn write_json<S: JsonSink>(&self, out: &mut S) -> Result<(), S::Error> {
        out.begin_object()?;
        write_member(out, "location", &self.location)?;
        write_member(out, "message", &self.message)?;
        out.end_object()
    }
}

impl FromJson for DiagnosticRelatedInformation {
    ghost reads = { λ json it. IsObject json
        and Required ⟦<Location as FromJson>⟧.reads (codes "location") json it.location
        and Required ⟦<String as FromJson>⟧.reads (codes "message") json it.message };

    fn from_json(
        alloc: Global,
        value: &JsonRef<'_>,
    ) -> Result<DiagnosticRelatedInformation, Misfit> {
        match Members::new(alloc, value)
            .required("location")
            .required("message")
            .end()
        {
            Ok(read) => {
                let (((), location), message) = read;
                Ok(DiagnosticRelatedInformation { location, message })
            }
            Err(misfit) => Err(misfit),
        }
    }
}

/// Where a rule is described (LSP 3.17, "CodeDescription").
#[derive(Drop)]
pub struct CodeDescription {
    /// The URI of a page.
    pub href: String,
}

impl ToJson for CodeDescription {
    ghost stands = { λ it. object_of (
        (codes "href", Some (⟦<String as ToJson>⟧.stands it.href)) ∷ []) };

    fn write_json<S: JsonSink>(&self, out: &mut S) -> Result<(), S::Error> {
        out.begin_object()?;
        write_member(out, "href", &self.href)?;
        out.end_object()
    }
}

impl FromJson for CodeDescription {
    ghost reads = { λ json it. IsObject json
        and Required ⟦<String as FromJson>⟧.reads (codes "href") json it.href };

    fn from_json(alloc: Global, value: &JsonRef<'_>) -> Result<CodeDescription, Misfit> {
        match Members::new(alloc, value).required("href").end() {
            Ok(read) => {
                let ((), href) = read;
                Ok(CodeDescription { href })
            }
            Err(misfit) => Err(misfit),
        }
    }
}

/// What is wrong with a part of a document (LSP 3.17, "Diagnostic").
#[derive(Drop)]
pub struct Diagnostic {
    /// The part.
    pub range: Range,
    /// How severe it is.
    pub severity: Option<DiagnosticSeverity>,
    /// The code of the rule that it breaks.
    pub code: Option<NumberOrString>,
    /// Where that rule is described.
    pub code_description: Option<CodeDescription>,
    /// The source of the diagnostic, such as the name of a compiler.
    pub source: Option<String>,
    /// What is wrong, for people.
    pub message: String,
    /// How it may be shown.
    pub tags: Option<Vec<DiagnosticTag>>,
    /// Places that have to do with it.
    pub related_information: Option<Vec<DiagnosticRelatedInformation>>,
    /// The client returns this value in a code action's context.
    pub data: Option<Value>,
}

impl Diagnostic {
    ghost use Rattle.std.specs.Prelude.{◌≡◌, Some, None};

    /// Makes a diagnostic of a part of a document, with how severe it is, and what is wrong there.
    pub fn new(range: Range, severity: DiagnosticSeverity, message: String) -> Diagnostic
        ensures { result ≡ record {
          range = range;
          severity = Some severity;
          code = None;
          code_description = None;
          source = None;
          message = message;
          tags = None;
          related_information = None;
          «data» = None;
        } }
    {
        Diagnostic {
            range,
            severity: Some(severity),
            code: None,
            code_description: None,
            source: None,
            message,
            tags: None,
            related_information: None,
            data: None,
        }
    }
}

impl ToJson for Diagnostic {
    ghost stands = { λ it. object_of (
        (codes "code", option_map ⟦<NumberOrString as ToJson>⟧.stands it.code)
        ∷ (codes "codeDescription", option_map ⟦<CodeDescription as ToJson>⟧.stands it.code_description)
        ∷ (codes "data", option_map ⟦<Value as ToJson>⟧.stands it.«data»)
        ∷ (codes "message", Some (⟦<String as ToJson>⟧.stands it.message))
        ∷ (codes "range", Some (⟦<Range as ToJson>⟧.stands it.range))
        ∷ (codes "relatedInformation", option_map ⟦<Vec<DiagnosticRelatedInformation> as ToJson>⟧.stands it.related_information)
        ∷ (codes "severity", option_map ⟦<DiagnosticSeverity as ToJson>⟧.stands it.severity)
        ∷ (codes "source", option_map ⟦<String as ToJson>⟧.stands it.source)
        ∷ (codes "tags", option_map ⟦<Vec<DiagnosticTag> as ToJson>⟧.stands it.tags) ∷ []) };

    fn write_json<S: JsonSink>(&self, out: &mut S) -> Result<(), S::Error> {
        out.begin_object()?;
        write_some(out, "code", &self.code)?;
        write_some(out, "codeDescription", &self.code_description)?;
        write_some(out, "data", &self.data)?;
        write_member(out, "message", &self.message)?;
        write_member(out, "range", &self.range)?;
        write_some(out, "relatedInformation", &self.related_information)?;
        write_some(out, "severity", &self.severity)?;
        write_some(out, "source", &self.source)?;
        write_some(out, "tags", &self.tags)?;
        out.end_object()
    }
}

impl FromJson for Diagnostic {
    ghost reads = { λ json it. IsObject json
        and Required ⟦<Range as FromJson>⟧.reads (codes "range") json it.range
        and Optional ⟦<DiagnosticSeverity as FromJson>⟧.reads (codes "severity") json it.severity
        and Optional ⟦<NumberOrString as FromJson>⟧.reads (codes "code") json it.code
        and Optional ⟦<CodeDescription as FromJson>⟧.reads (codes "codeDescription") json it.code_description
        and Optional ⟦<String as FromJson>⟧.reads (codes "source") json it.source
        and Required ⟦<String as FromJson>⟧.reads (codes "message") json it.message
        and Optional ⟦<Vec<DiagnosticTag> as FromJson>⟧.reads (codes "tags") json it.tags
        and Optional ⟦<Vec<DiagnosticRelatedInformation> as FromJson>⟧.reads (codes "relatedInformation") json it.related_information
        and Optional ⟦<Value as FromJson>⟧.reads (codes "data") json it.«data» };

    fn from_json(alloc: Global, value: &JsonRef<'_>) -> Result<Diagnostic, Misfit> {
        match Members::new(alloc, value)
            .required("range")
            .optional("severity")
            .optional("code")
            .optional("codeDescription")
            .optional("source")
            .required("message")
            .optional("tags")
            .optional("relatedInformation")
            .optional("data")
            .end()
        {
            Ok(read) => {
                let (read, data) = read;
                let (read, related_information) = read;
                let (read, tags) = read;
                let (read, message) = read;
                let (read, source) = read;
                let (read, code_description) = read;
                let (read, code) = read;
                let (read, severity) = read;
                let ((), range) = read;
                Ok(Diagnostic {
                    range,
                    severity,
                    code,
                    code_description,
                    source,
                    message,
                    tags,
                    related_information,
                    data,
                })
            }
            Err(misfit) => Err(misfit),
        }
    }
}

/// The params of `textDocument/publishDiagnostics` (LSP 3.17, "PublishDiagnostics Notification").
#[derive(Drop)]
pub struct PublishDiagnosticsParams {
    /// The document's URI.
    pub uri: String,
    /// The version of the document that was analysed.
    pub version: Option<i32>,
    /// All its diagnostics. An empty list removes those that are shown.
    pub diagnostics: Vec<Diagnostic>,
}

impl PublishDiagnosticsParams {
    ghost use Rattle.std.specs.Prelude.{◌≡◌, None};

    /// Makes one from the required members. The others are `None`.
    pub fn new(uri: String, diagnostics: Vec<Diagnostic>) -> PublishDiagnosticsParams
        ensures { result ≡ record {
          uri = uri;
          version = None;
          diagnostics = diagnostics;
        } }
    {
        PublishDiagnosticsParams {
            uri,
            version: None,
            diagnostics,
        }
    }
}

impl ToJson for PublishDiagnosticsParams {
    ghost stands = { λ it. object_of (
        (codes "diagnostics", Some (⟦<Vec<Diagnostic> as ToJson>⟧.stands it.diagnostics))
        ∷ (codes "uri", Some (⟦<String as ToJson>⟧.stands it.uri))
        ∷ (codes "version", option_map ⟦<i32 as ToJson>⟧.stands it.version) ∷ []) };

    fn write_json<S: JsonSink>(&self, out: &mut S) -> Result<(), S::Error> {
        out.begin_object()?;
        write_member(out, "diagnostics", &self.diagnostics)?;
        write_member(out, "uri", &self.uri)?;
        write_some(out, "version", &self.version)?;
        out.end_object()
    }
}

impl FromJson for PublishDiagnosticsParams {
    ghost reads = { λ json it. IsObject json
        and Required ⟦<String as FromJson>⟧.reads (codes "uri") json it.uri
        and Optional ⟦<i32 as FromJson>⟧.reads (codes "version") json it.version
        and Required ⟦<Vec<Diagnostic> as FromJson>⟧.reads (codes "diagnostics") json it.diagnostics };

    fn from_json(alloc: Global, value: &JsonRef<'_>) -> Result<PublishDiagnosticsParams, Misfit> {
        match Members::new(alloc, value)
            .required("uri")
            .optional("version")
            .required("diagnostics")
            .end()
        {
            Ok(read) => {
                let ((((), uri), version), diagnostics) = read;
                Ok(PublishDiagnosticsParams {
                    uri,
                    version,
                    diagnostics,
                })
            }
            Err(misfit) => Err(misfit),
        }
    }
}
