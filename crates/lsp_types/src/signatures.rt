//! Signature help: what a call takes, while it is typed.
// `tools/types` wrote this file from `types.txt`: change that.
ghost use Rattle.std.specs.Prelude.{◌∷◌, [], Some, codes, option_map};
ghost use Rattle.serde_json.specs.Data.{number, unsigned};
ghost use Rattle.lsp_types.specs.Json.{object_of};
ghost use Rattle.lsp_types.specs.Reads.{IfFits, IsObject, IsWithin, NoneReads, Optional, Required, ◌and◌};

use crate::documents::TextDocumentIdentifier;
use crate::hovers::Documentation;
use crate::json::{
    FromJson, Members, Misfit, ToJson, fitting, number_within, write_member, write_some,
};
use crate::offsets::LabelOffsets;
use crate::progress::ProgressToken;
use lsp_json::JsonRef;
use lsp_json_write::JsonSink;
use lsp_text::Position;
use std::alloc::Global;

/// The result of `textDocument/signatureHelp` (LSP 3.17, "Signature Help Request").
#[derive(Drop)]
pub struct SignatureHelp {
    /// The signatures. An empty list shows none.
    pub signatures: Vec<SignatureInformation>,
    /// Which of them is active, from 0. `None` means the first.
    pub active_signature: Option<u32>,
    /// Which parameter of it is typed, from 0. `None` means the first.
    pub active_parameter: Option<u32>,
}

impl SignatureHelp {
    ghost use Rattle.std.specs.Prelude.{◌≡◌, None};

    /// Makes one from the required members. The others are `None`.
    pub fn new(signatures: Vec<SignatureInformation>) -> SignatureHelp
        ensures { result ≡ record {
          signatures = signatures;
          active_signature = None;
          active_parameter = None;
        } }
    {
        SignatureHelp {
            signatures,
            active_signature: None,
            active_parameter: None,
        }
    }
}

impl ToJson for SignatureHelp {
    ghost stands = { λ it. object_of (
        (codes "activeParameter", option_map ⟦<u32 as ToJson>⟧.stands it.active_parameter)
        ∷ (codes "activeSignature", option_map ⟦<u32 as ToJson>⟧.stands it.active_signature)
        ∷ (codes "signatures", Some (⟦<Vec<SignatureInformation> as ToJson>⟧.stands it.signatures)) ∷ []) };

    fn write_json<S: JsonSink>(&self, out: &mut S) -> Result<(), S::Error> {
        out.begin_object()?;
        write_some(out, "activeParameter", &self.active_parameter)?;
        write_some(out, "activeSignature", &self.active_signature)?;
        write_member(out, "signatures", &self.signatures)?;
        out.end_object()
    }
}

impl FromJson for SignatureHelp {
    ghost reads = { λ json it. IsObject json
        and Required ⟦<Vec<SignatureInformation> as FromJson>⟧.reads (codes "signatures") json it.signatures
        and Optional ⟦<u32 as FromJson>⟧.reads (codes "activeSignature") json it.active_signature
        and Optional ⟦<u32 as FromJson>⟧.reads (codes "activeParameter") json it.active_parameter };

    fn from_json(alloc: Global, value: &JsonRef<'_>) -> Result<SignatureHelp, Misfit> {
        match Members::new(alloc, value)
            .required("signatures")
            .optional("activeSignature")
            .optional("activeParameter")
            .end()
        {
            Ok(read) => {
                let ((((), signatures), active_signature), active_parameter) = read;
                Ok(SignatureHelp {
                    signatures,
                    active_signature,
                    active_parameter,
                })
            }
            Err(misfit) => Err(misfit),
        }
    }
}

/// What may be called (LSP 3.17, "SignatureInformation").
#[derive(Drop)]
pub struct SignatureInformation {
    /// The signature, as it is shown.
    pub label: String,
    /// Its documentation.
    pub documentation: Option<Documentation>,
    /// Its parameters.
    pub parameters: Option<Vec<ParameterInformation>>,
    /// Which of them is typed. It replaces the help's `active_parameter`.
    pub active_parameter: Option<u32>,
}

impl SignatureInformation {
    ghost use Rattle.std.specs.Prelude.{◌≡◌, None};

    /// Makes one from the required members. The others are `None`.
    pub fn new(label: String) -> SignatureInformation
        ensures { result ≡ record {
          label = label;
          documentation = None;
          parameters = None;
          active_parameter = None;
        } }
    {
        SignatureInformation {
            label,
            documentation: None,
            parameters: None,
            active_parameter: None,
        }
    }
}

impl ToJson for SignatureInformation {
    ghost stands = { λ it. object_of (
        (codes "activeParameter", option_map ⟦<u32 as ToJson>⟧.stands it.active_parameter)
        ∷ (codes "documentation", option_map ⟦<Documentation as ToJson>⟧.stands it.documentation)
        ∷ (codes "label", Some (⟦<String as ToJson>⟧.stands it.label))
        ∷ (codes "parameters", option_map ⟦<Vec<ParameterInformation> as ToJson>⟧.stands it.parameters) ∷ []) };

    fn write_json<S: JsonSink>(&self, out: &mut S) -> Result<(), S::Error> {
        out.begin_object()?;
        write_some(out, "activeParameter", &self.active_parameter)?;
        write_some(out, "documentation", &self.documentation)?;
        write_member(out, "label", &self.label)?;
        write_some(out, "parameters", &self.parameters)?;
        out.end_object()
    }
}

impl FromJson for SignatureInformation {
    ghost reads = { λ json it. IsObject json
        and Required ⟦<String as FromJson>⟧.reads (codes "label") json it.label
        and Optional ⟦<Documentation as FromJson>⟧.reads (codes "documentation") json it.documentation
        and Optional ⟦<Vec<ParameterInformation> as FromJson>⟧.reads (codes "parameters") json it.parameters
        and Optional ⟦<u32 as FromJson>⟧.reads (codes "activeParameter") json it.active_parameter };

    fn from_json(alloc: Global, value: &JsonRef<'_>) -> Result<SignatureInformation, Misfit> {
        match Members::new(alloc, value)
            .required("label")
            .optional("documentation")
            .optional("parameters")
            .optional("activeParameter")
            .end()
        {
            Ok(read) => {
                let (((((), label), documentation), parameters), active_parameter) = read;
                Ok(SignatureInformation {
                    label,
                    documentation,
                    parameters,
                    active_parameter,
                })
            }
            Err(misfit) => Err(misfit),
        }
    }
}

/// The part of a signature's label that a parameter is: a string, or a list (LSP 3.17, "ParameterInformation").
#[derive(Drop)]
pub enum ParameterLabel {
    /// Its text.
    Text(String),
    /// Its offsets, for clients with `labelOffsetSupport`.
    Offsets(LabelOffsets),
}

impl ToJson for ParameterLabel {
    ghost use Rattle.lsp_types.specs.declared.signatures.ParameterLabel.TheVariants.{Text, Offsets};

    ghost stands = { elim [
      | Text it ↦ ⟦<String as ToJson>⟧.stands it
      | Offsets it ↦ ⟦<LabelOffsets as ToJson>⟧.stands it
    ] };

    fn write_json<S: JsonSink>(&self, out: &mut S) -> Result<(), S::Error> {
        match self {
            ParameterLabel::Text(it) => it.write_json(out),
            ParameterLabel::Offsets(it) => it.write_json(out),
        }
    }
}

impl FromJson for ParameterLabel {
    ghost use Rattle.lsp_types.specs.declared.signatures.ParameterLabel.TheVariants.{Text, Offsets};

    ghost reads = { λ json. elim [
      | Text it ↦ ⟦<String as FromJson>⟧.reads json it
      | Offsets it ↦ NoneReads ⟦<String as FromJson>⟧.reads json × ⟦<LabelOffsets as FromJson>⟧.reads json it
    ] };

    fn from_json(alloc: Global, value: &JsonRef<'_>) -> Result<ParameterLabel, Misfit> {
        if let Some(it) = fitting(alloc, value)? {
            return Ok(ParameterLabel::Text(it));
        }
        match FromJson::from_json(alloc, value) {
            Ok(it) => Ok(ParameterLabel::Offsets(it)),
            Err(misfit) => Err(misfit),
        }
    }
}

/// A parameter (LSP 3.17, "ParameterInformation").
#[derive(Drop)]
pub struct ParameterInformation {
    /// The part of the signature's label that it is.
    pub label: ParameterLabel,
    /// Its documentation.
    pub documentation: Option<Documentation>,
}

impl ParameterInformation {
    ghost use Rattle.std.specs.Prelude.{◌≡◌, None};
    ghost use Rattle.lsp_types.specs.declared.signatures.ParameterLabel.TheVariants.{Text};

    /// Makes a parameter with its text in the signature. The other members are `None`.
    pub fn new(label: String) -> ParameterInformation
        ensures { result ≡ record {
          label = Text label;
          documentation = None;
        } }
    {
        ParameterInformation {
            label: ParameterLabel::Text(label),
            documentation: None,
        }
    }
}

impl ToJson for ParameterInformation {
    ghost stands = { λ it. object_of (
        (codes "documentation", option_map ⟦<Documentation as ToJson>⟧.stands it.documentation)
        ∷ (codes "label", Some (⟦<ParameterLabel as ToJson>⟧.stands it.label)) ∷ []) };

    fn write_json<S: JsonSink>(&self, out: &mut S) -> Result<(), S::Error> {
        out.begin_object()?;
        write_some(out, "documentation", &self.documentation)?;
        write_member(out, "label", &self.label)?;
        out.end_object()
    }
}

impl FromJson for ParameterInformation {
    ghost reads = { λ json it. IsObject json
        and Required ⟦<ParameterLabel as FromJson>⟧.reads (codes "label") json it.label
        and Optional ⟦<Documentation as FromJson>⟧.reads (codes "documentation") json it.documentation };

    fn from_json(alloc: Global, value: &JsonRef<'_>) -> Result<ParameterInformation, Misfit> {
        match Members::new(alloc, value)
            .required("label")
            .optional("documentation")
            .end()
        {
            Ok(read) => {
                let (((), label), documentation) = read;
                Ok(ParameterInformation {
                    label,
                    documentation,
                })
            }
            Err(misfit) => Err(misfit),
        }
    }
}

/// Why signature help is requested (LSP 3.17, "SignatureHelpTriggerKind"). On reading, another number is refused.
#[derive(Clone, Copy, Drop)]
pub struct SignatureHelpTriggerKind(pub u32);

impl SignatureHelpTriggerKind {
    /// The user asked.
    pub const INVOKED: SignatureHelpTriggerKind = SignatureHelpTriggerKind(1);
    /// One of `trigger_characters` was typed.
    pub const TRIGGER_CHARACTER: SignatureHelpTriggerKind = SignatureHelpTriggerKind(2);
    /// The cursor moved, or the text changed.
    pub const CONTENT_CHANGE: SignatureHelpTriggerKind = SignatureHelpTriggerKind(3);
}

impl ToJson for SignatureHelpTriggerKind {
    ghost stands = { λ it. number (unsigned it.0) };

    fn write_json<S: JsonSink>(&self, out: &mut S) -> Result<(), S::Error> {
        self.0.write_json(out)
    }
}

impl FromJson for SignatureHelpTriggerKind {
    ghost reads = { λ json it. IsWithin 1 3 json it.0 };

    fn from_json(alloc: Global, value: &JsonRef<'_>) -> Result<SignatureHelpTriggerKind, Misfit> {
        match number_within(alloc, value, 1, 3) {
            Ok(number) => Ok(SignatureHelpTriggerKind(number)),
            Err(misfit) => Err(misfit),
        }
    }
}

/// Why signature help is requested (LSP 3.17, "SignatureHelpContext").
#[derive(Drop)]
pub struct SignatureHelpContext {
    /// Why.
    pub trigger_kind: SignatureHelpTriggerKind,
    /// The character that was typed, if it was one of `trigger_characters` or `retrigger_characters`.
    pub trigger_character: Option<String>,
    /// Whether help is shown already.
    pub is_retrigger: bool,
    /// The help that is shown.
    pub active_signature_help: Option<SignatureHelp>,
}

impl ToJson for SignatureHelpContext {
    ghost stands = { λ it. object_of (
        (codes "activeSignatureHelp", option_map ⟦<SignatureHelp as ToJson>⟧.stands it.active_signature_help)
        ∷ (codes "isRetrigger", Some (⟦<bool as ToJson>⟧.stands it.is_retrigger))
        ∷ (codes "triggerCharacter", option_map ⟦<String as ToJson>⟧.stands it.trigger_character)
        ∷ (codes "triggerKind", Some (⟦<SignatureHelpTriggerKind as ToJson>⟧.stands it.trigger_kind)) ∷ []) };

    fn write_json<S: JsonSink>(&self, out: &mut S) -> Result<(), S::Error> {
        out.begin_object()?;
        write_some(out, "activeSignatureHelp", &self.active_signature_help)?;
        write_member(out, "isRetrigger", &self.is_retrigger)?;
        write_some(out, "triggerCharacter", &self.trigger_character)?;
        write_member(out, "triggerKind", &self.trigger_kind)?;
        out.end_object()
    }
}

impl FromJson for SignatureHelpContext {
    ghost reads = { λ json it. IsObject json
        and Required ⟦<SignatureHelpTriggerKind as FromJson>⟧.reads (codes "triggerKind") json it.trigger_kind
        and Optional ⟦<String as FromJson>⟧.reads (codes "triggerCharacter") json it.trigger_character
        and Required ⟦<bool as FromJson>⟧.reads (codes "isRetrigger") json it.is_retrigger
        and Optional ⟦<SignatureHelp as FromJson>⟧.reads (codes "activeSignatureHelp") json it.active_signature_help };

    fn from_json(alloc: Global, value: &JsonRef<'_>) -> Result<SignatureHelpContext, Misfit> {
        match Members::new(alloc, value)
            .required("triggerKind")
            .optional("triggerCharacter")
            .required("isRetrigger")
            .optional("activeSignatureHelp")
            .end()
        {
            Ok(read) => {
                let (read, active_signature_help) = read;
                let (read, is_retrigger) = read;
                let (read, trigger_character) = read;
                let ((), trigger_kind) = read;
                Ok(SignatureHelpContext {
                    trigger_kind,
                    trigger_character,
                    is_retrigger,
                    active_signature_help,
                })
            }
            Err(misfit) => Err(misfit),
        }
    }
}

/// The params of `textDocument/signatureHelp` (LSP 3.17, "Signature Help Request").
#[derive(Drop)]
pub struct SignatureHelpParams {
    /// The document.
    pub text_document: TextDocumentIdentifier,
    /// The place in it.
    pub position: Position,
    /// Why. `None` means that the client does not say why, or that the value does not fit.
    pub context: Option<SignatureHelpContext>,
    /// The token to report progress with. `None` means that no progress is requested, or that the token does not fit.
    pub work_done_token: Option<ProgressToken>,
}

impl ToJson for SignatureHelpParams {
    ghost stands = { λ it. object_of (
        (codes "context", option_map ⟦<SignatureHelpContext as ToJson>⟧.stands it.context)
        ∷ (codes "position", Some (⟦<Position as ToJson>⟧.stands it.position))
        ∷ (codes "textDocument", Some (⟦<TextDocumentIdentifier as ToJson>⟧.stands it.text_document))
        ∷ (codes "workDoneToken", option_map ⟦<ProgressToken as ToJson>⟧.stands it.work_done_token) ∷ []) };

    fn write_json<S: JsonSink>(&self, out: &mut S) -> Result<(), S::Error> {
        out.begin_object()?;
        write_some(out, "context", &self.context)?;
        write_member(out, "position", &self.position)?;
        write_member(out, "textDocument", &self.text_document)?;
        write_some(out, "workDoneToken", &self.work_done_token)?;
        out.end_object()
    }
}

impl FromJson for SignatureHelpParams {
    ghost reads = { λ json it. IsObject json
        and Required ⟦<TextDocumentIdentifier as FromJson>⟧.reads (codes "textDocument") json it.text_document
        and Required ⟦<Position as FromJson>⟧.reads (codes "position") json it.position
        and IfFits ⟦<SignatureHelpContext as FromJson>⟧.reads (codes "context") json it.context
        and IfFits ⟦<ProgressToken as FromJson>⟧.reads (codes "workDoneToken") json it.work_done_token };

    fn from_json(alloc: Global, value: &JsonRef<'_>) -> Result<SignatureHelpParams, Misfit> {
        match Members::new(alloc, value)
            .required("textDocument")
            .required("position")
            .if_fits("context")
            .if_fits("workDoneToken")
            .end()
        {
            Ok(read) => {
                let (((((), text_document), position), context), work_done_token) = read;
                Ok(SignatureHelpParams {
                    text_document,
                    position,
                    context,
                    work_done_token,
                })
            }
            Err(misfit) => Err(misfit),
        }
    }
}
