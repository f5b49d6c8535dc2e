//! Values of variables, shown within the text while a program is stopped.
// `tools/types` wrote this file from `types.txt`: change that.
ghost use Rattle.std.specs.Prelude.{◌∷◌, [], Some, codes, option_map};
ghost use Rattle.lsp_types.specs.Json.{object_of};
ghost use Rattle.lsp_types.specs.Reads.{IfFits, IsObject, NoneReads, Optional, Required, ◌and◌};

use lsp_json::JsonRef;
use lsp_json_write::JsonSink;
use lsp_text::Range;
use lsp_types::json::{FromJson, Members, Misfit, ToJson, fitting, write_member, write_some};
use lsp_types::{ProgressToken, TextDocumentIdentifier};
use std::alloc::Global;

/// The params of `textDocument/inlineValue` (LSP 3.17, "Inline Value Request"). The result is a list of `InlineValue`
/// or null.
#[derive(Drop)]
pub struct InlineValueParams {
    /// The document.
    pub text_document: TextDocumentIdentifier,
    /// The part of it that is shown.
    pub range: Range,
    /// Where the program is stopped.
    pub context: InlineValueContext,
    /// The token to report progress with. `None` means that no progress is requested, or that the token does not fit.
    pub work_done_token: Option<ProgressToken>,
}

impl ToJson for InlineValueParams {
    ghost stands = { λ it. object_of (
        (codes "context", Some (⟦<InlineValueContext as ToJson>⟧.stands it.context))
        ∷ (codes "range", Some (⟦<Range as ToJson>⟧.stands it.range))
        ∷ (codes "textDocument", Some (⟦<TextDocumentIdentifier as ToJson>⟧.stands it.text_document))
        ∷ (codes "workDoneToken", option_map ⟦<ProgressToken as ToJson>⟧.stands it.work_done_token) ∷ []) };

    fn write_json<S: JsonSink>(&self, out: &mut S) -> Result<(), S::Error> {
        out.begin_object()?;
        write_member(out, "context", &self.context)?;
        write_member(out, "range", &self.range)?;
        write_member(out, "textDocument", &self.text_document)?;
        write_some(out, "workDoneToken", &self.work_done_token)?;
        out.end_object()
    }
}

impl FromJson for InlineValueParams {
    ghost reads = { λ json it. IsObject json
        and Required ⟦<TextDocumentIdentifier as FromJson>⟧.reads (codes "textDocument") json it.text_document
        and Required ⟦<Range as FromJson>⟧.reads (codes "range") json it.range
        and Required ⟦<InlineValueContext as FromJson>⟧.reads (codes "context") json it.context
        and IfFits ⟦<ProgressToken as FromJson>⟧.reads (codes "workDoneToken") json it.work_done_token };

    fn from_json(alloc: Global, value: &JsonRef<'_>) -> Result<InlineValueParams, Misfit> {
        match Members::new(alloc, value)
            .required("textDocument")
            .required("range")
            .required("context")
            .if_fits("workDoneToken")
            .end()
        {
            Ok(read) => {
                let (((((), text_document), range), context), work_done_token) = read;
                Ok(InlineValueParams {
                    text_document,
                    range,
                    context,
                    work_done_token,
                })
            }
            Err(misfit) => Err(misfit),
        }
    }
}

/// Where a program is stopped (LSP 3.17, "InlineValueContext").
#[derive(Clone, Copy, Drop)]
pub struct InlineValueContext {
    /// The frame of its stack.
    pub frame_id: i32,
    /// Where it is stopped in the document. Most clients use its last line.
    pub stopped_location: Range,
}

impl ToJson for InlineValueContext {
    ghost stands = { λ it. object_of (
        (codes "frameId", Some (⟦<i32 as ToJson>⟧.stands it.frame_id))
        ∷ (codes "stoppedLocation", Some (⟦<Range as ToJson>⟧.stands it.stopped_location)) ∷ []) };

    fn write_json<S: JsonSink>(&self, out: &mut S) -> Result<(), S::Error> {
        out.begin_object()?;
        write_member(out, "frameId", &self.frame_id)?;
        write_member(out, "stoppedLocation", &self.stopped_location)?;
        out.end_object()
    }
}

impl FromJson for InlineValueContext {
    ghost reads = { λ json it. IsObject json
        and Required ⟦<i32 as FromJson>⟧.reads (codes "frameId") json it.frame_id
        and Required ⟦<Range as FromJson>⟧.reads (codes "stoppedLocation") json it.stopped_location };

    fn from_json(alloc: Global, value: &JsonRef<'_>) -> Result<InlineValueContext, Misfit> {
        match Members::new(alloc, value)
            .required("frameId")
            .required("stoppedLocation")
            .end()
        {
            Ok(read) => {
                let (((), frame_id), stopped_location) = read;
                Ok(InlineValueContext {
                    frame_id,
                    stopped_location,
                })
            }
            Err(misfit) => Err(misfit),
        }
    }
}

/// A text to show (LSP 3.17, "InlineValueText").
#[derive(Drop)]
pub struct InlineValueText {
    /// Where.
    pub range: Range,
    /// The text.
    pub text: String,
}

impl ToJson for InlineValueText {
    ghost stands = { λ it. object_of (
        (codes "range", Some (⟦<Range as ToJson>⟧.stands it.range))
        ∷ (codes "text", Some (⟦<String as ToJson>⟧.stands it.text)) ∷ []) };

    fn write_json<S: JsonSink>(&self, out: &mut S) -> Result<(), S::Error> {
        out.begin_object()?;
        write_member(out, "range", &self.range)?;
        write_member(out, "text", &self.text)?;
        out.end_object()
    }
}

impl FromJson for InlineValueText {
    ghost reads = { λ json it. IsObject json
        and Required ⟦<Range as FromJson>⟧.reads (codes "range") json it.range
        and Required ⟦<String as FromJson>⟧.reads (codes "text") json it.text };

    fn from_json(alloc: Global, value: &JsonRef<'_>) -> Result<InlineValueText, Misfit> {
        match Members::new(alloc, value)
            .required("range")
            .required("text")
            .end()
        {
            Ok(read) => {
                let (((), range), text) = read;
                Ok(InlineValueText { range, text })
            }
            Err(misfit) => Err(misfit),
        }
    }
}

/// A variable whose value the client finds (LSP 3.17, "InlineValueVariableLookup").
#[derive(Drop)]
pub struct InlineValueVariableLookup {
    /// Where it is.
    pub range: Range,
    /// Its name. `None` means the text there.
    pub variable_name: Option<String>,
    /// Whether the case of letters matters.
    pub case_sensitive_lookup: bool,
}

impl InlineValueVariableLookup {
    ghost use Rattle.std.specs.Prelude.{◌≡◌, None};

    /// Makes one from the required members. The others are `None`.
    pub fn new(range: Range, case_sensitive_lookup: bool) -> InlineValueVariableLookup
        ensures { result ≡ record {
          range = range;
          variable_name = None;
          case_sensitive_lookup = case_sensitive_lookup;
        } }
    {
        InlineValueVariableLookup {
            range,
            variable_name: None,
            case_sensitive_lookup,
        }
    }
}

impl ToJson for InlineValueVariableLookup {
    ghost stands = { λ it. object_of (
        (codes "caseSensitiveLookup", Some (⟦<bool as ToJson>⟧.stands it.case_sensitive_lookup))
        ∷ (codes "range", Some (⟦<Range as ToJson>⟧.stands it.range))
        ∷ (codes "variableName", option_map ⟦<String as ToJson>⟧.stands it.variable_name) ∷ []) };

    fn write_json<S: JsonSink>(&self, out: &mut S) -> Result<(), S::Error> {
        out.begin_object()?;
        write_member(out, "caseSensitiveLookup", &self.case_sensitive_lookup)?;
        write_member(out, "range", &self.range)?;
        write_some(out, "variableName", &self.variable_name)?;
        out.end_object()
    }
}

impl FromJson for InlineValueVariableLookup {
    ghost reads = { λ json it. IsObject json
        and Required ⟦<Range as FromJson>⟧.reads (codes "range") json it.range
        and Optional ⟦<String as FromJson>⟧.reads (codes "variableName") json it.variable_name
        and Required ⟦<bool as FromJson>⟧.reads (codes "caseSensitiveLookup") json it.case_sensitive_lookup };

    fn from_json(alloc: Global, value: &JsonRef<'_>) -> Result<InlineValueVariableLookup, Misfit> {
        match Members::new(alloc, value)
            .required("range")
            .optional("variableName")
            .required("caseSensitiveLookup")
            .end()
        {
            Ok(read) => {
                let ((((), range), variable_name), case_sensitive_lookup) = read;
                Ok(InlineValueVariableLookup {
                    range,
                    variable_name,
                    case_sensitive_lookup,
                })
            }
            Err(misfit) => Err(misfit),
        }
    }
}

/// An expression whose value the client finds (LSP 3.17, "InlineValueEvaluatableExpression").
#[derive(Drop)]
pub struct InlineValueEvaluatableExpression {
    /// Where it is.
    pub range: Range,
    /// The expression. `None` means the text there.
    pub expression: Option<String>,
}

impl InlineValueEvaluatableExpression {
    ghost use Rattle.std.specs.Prelude.{◌≡◌, None};

    /// Makes one from the required members. The others are `None`.
    pub fn new(range: Range) -> InlineValueEvaluatableExpression
        ensures { result ≡ record {
          range = range;
          expression = None;
        } }
    {
        InlineValueEvaluatableExpression {
            range,
            expression: None,
        }
    }
}

impl ToJson for InlineValueEvaluatableExpression {
    ghost stands = { λ it. object_of (
        (codes "expression", option_map ⟦<String as ToJson>⟧.stands it.expression)
        ∷ (codes "range", Some (⟦<Range as ToJson>⟧.stands it.range)) ∷ []) };

    fn write_json<S: JsonSink>(&self, out: &mut S) -> Result<(), S::Error> {
        out.begin_object()?;
        write_some(out, "expression", &self.expression)?;
        write_member(out, "range", &self.range)?;
        out.end_object()
    }
}

impl FromJson for InlineValueEvaluatableExpression {
    ghost reads = { λ json it. IsObject json
        and Required ⟦<Range as FromJson>⟧.reads (codes "range") json it.range
        and Optional ⟦<String as FromJson>⟧.reads (codes "expression") json it.expression };

    fn from_json(
        alloc: Global,
        value: &JsonRef<'_>,
    ) -> Result<InlineValueEvaluatableExpression, Misfit> {
        match Members::new(alloc, value)
            .required("range")
            .optional("expression")
            .end()
        {
            Ok(read) => {
                let (((), range), expression) = read;
                Ok(InlineValueEvaluatableExpression { range, expression })
            }
            Err(misfit) => Err(misfit),
        }
    }
}

/// What is shown at a place (LSP 3.17, "Inline Value Request").
#[derive(Drop)]
pub enum InlineValue {
    /// A text.
    Text(InlineValueText),
    /// The value of a variable.
    Lookup(InlineValueVariableLookup),
    /// The value of an expression.
    Expression(InlineValueEvaluatableExpression),
}

impl ToJson for InlineValue {
    ghost use Rattle.lsp_types_features.specs.declared.inline_values.InlineValue.TheVariants.{Text, Lookup, Expression};

    ghost stands = { elim [
      | Text it ↦ ⟦<InlineValueText as ToJson>⟧.stands it
      | Lookup it ↦ ⟦<InlineValueVariableLookup as ToJson>⟧.stands it
      | Expression it ↦ ⟦<InlineValueEvaluatableExpression as ToJson>⟧.stands it
    ] };

    fn write_json<S: JsonSink>(&self, out: &mut S) -> Result<(), S::Error> {
        match self {
            InlineValue::Text(it) => it.write_json(out),
            InlineValue::Lookup(it) => it.write_json(out),
            InlineValue::Expression(it) => it.write_json(out),
        }
    }
}

impl FromJson for InlineValue {
    ghost use Rattle.lsp_types_features.specs.declared.inline_values.InlineValue.TheVariants.{Text, Lookup, Expression};

    ghost reads = { λ json. elim [
      | Text it ↦ ⟦<InlineValueText as FromJson>⟧.reads json it
      | Lookup it ↦ NoneReads ⟦<InlineValueText as FromJson>⟧.reads json × ⟦<InlineValueVariableLookup as FromJson>⟧.reads json it
      | Expression it ↦ NoneReads ⟦<InlineValueText as FromJson>⟧.reads json × NoneReads ⟦<InlineValueVariableLookup as FromJson>⟧.reads json × ⟦<InlineValueEvaluatableExpression as FromJson>⟧.reads json it
    ] };

    fn from_json(alloc: Global, value: &JsonRef<'_>) -> Result<InlineValue, Misfit> {
        if let Some(it) = fitting(alloc, value)? {
            return Ok(InlineValue::Text(it));
        }
        if let Some(it) = fitting(alloc, value)? {
            return Ok(InlineValue::Lookup(it));
        }
        match FromJson::from_json(alloc, value) {
            Ok(it) => Ok(InlineValue::Expression(it)),
            Err(misfit) => Err(misfit),
        }
    }
}
