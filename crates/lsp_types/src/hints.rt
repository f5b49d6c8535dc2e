//! Inlay hints: what a client shows between the characters of a text.
// `tools/types` wrote this file from `types.txt`: change that.
ghost use Rattle.std.specs.Prelude.{◌∷◌, [], Some, codes, option_map};
ghost use Rattle.serde_json.specs.Data.{number, unsigned};
ghost use Rattle.serde_json.specs.View.{view};
ghost use Rattle.lsp_types.specs.Json.{object_of, object_with};
ghost use Rattle.lsp_types.specs.Reads.{Beside, IsObject, IsWithin, NoneReads, Optional, Required, ◌and◌};

use crate::documents::Location;
use crate::edits::TextEdit;
use crate::hovers::Documentation;
use crate::json::{
    FromJson, KnownMembers, Members, Misfit, ToJson, fitting, number_within, write_member,
    write_some, write_with,
};
use crate::workspace::Command;
use lsp_json::JsonRef;
use lsp_json_write::JsonSink;
use lsp_text::Position;
use serde_json::Value;
use std::alloc::Global;

/// What a hint is about (LSP 3.17, "InlayHintKind"). On reading, another number is refused.
#[derive(Clone, Copy, Drop)]
pub struct InlayHintKind(pub u32);

impl InlayHintKind {
    /// A type.
    pub const TYPE: InlayHintKind = InlayHintKind(1);
    /// A parameter.
    pub const PARAMETER: InlayHintKind = InlayHintKind(2);
}

impl ToJson for InlayHintKind {
    ghost stands = { λ it. number (unsigned it.0) };

    fn write_json<S: JsonSink>(&self, out: &mut S) -> Result<(), S::Error> {
        self.0.write_json(out)
    }
}

impl FromJson for InlayHintKind {
    ghost reads = { λ json it. IsWithin 1 2 json it.0 };

    fn from_json(alloc: Global, value: &JsonRef<'_>) -> Result<InlayHintKind, Misfit> {
        match number_within(alloc, value, 1, 2) {
            Ok(number) => Ok(InlayHintKind(number)),
            Err(misfit) => Err(misfit),
        }
    }
}

/// A part of a hint (LSP 3.17, "InlayHintLabelPart").
#[derive(Drop)]
pub struct InlayHintLabelPart {
    /// Its text.
    pub value: String,
    /// What is shown while the mouse is over it.
    pub tooltip: Option<Documentation>,
    /// Where its name is defined, so that a user can go there.
    pub location: Option<Location>,
    /// The command that a click sends.
    pub command: Option<Command>,
}

impl InlayHintLabelPart {
    ghost use Rattle.std.specs.Prelude.{◌≡◌, None};

    /// Makes one from the required members. The others are `None`.
    pub fn new(value: String) -> InlayHintLabelPart
        ensures { result ≡ record {
          value = value;
          tooltip = None;
          location = None;
          command = None;
        } }
    {
        InlayHintLabelPart {
            value,
            tooltip: None,
            location: None,
            command: None,
        }
    }
}

impl ToJson for InlayHintLabelPart {
    ghost stands = { λ it. object_of (
        (codes "command", option_map ⟦<Command as ToJson>⟧.stands it.command)
        ∷ (codes "location", option_map ⟦<Location as ToJson>⟧.stands it.location)
        ∷ (codes "tooltip", option_map ⟦<Documentation as ToJson>⟧.stands it.tooltip)
        ∷ (codes "value", Some (⟦<String as ToJson>⟧.stands it.value)) ∷ []) };

    fn write_json<S: JsonSink>(&self, out: &mut S) -> Result<(), S::Error> {
        out.begin_object()?;
        write_some(out, "command", &self.command)?;
        write_some(out, "location", &self.location)?;
        write_some(out, "tooltip", &self.tooltip)?;
        write_member(out, "value", &self.value)?;
        out.end_object()
    }
}

impl FromJson for InlayHintLabelPart {
    ghost reads = { λ json it. IsObject json
        and Required ⟦<String as FromJson>⟧.reads (codes "value") json it.value
        and Optional ⟦<Documentation as FromJson>⟧.reads (codes "tooltip") json it.tooltip
        and Optional ⟦<Location as FromJson>⟧.reads (codes "location") json it.location
        and Optional ⟦<Command as FromJson>⟧.reads (codes "command") json it.command };

    fn from_json(alloc: Global, value: &JsonRef<'_>) -> Result<InlayHintLabelPart, Misfit> {
        match Members::new(alloc, value)
            .required("value")
            .optional("tooltip")
            .optional("location")
            .optional("command")
            .end()
        {
            Ok(read) => {
                let (((((), value), tooltip), location), command) = read;
                Ok(InlayHintLabelPart {
                    value,
                    tooltip,
                    location,
                    command,
                })
            }
            Err(misfit) => Err(misfit),
        }
    }
}

/// What a hint says: a string, or a list (LSP 3.17, "InlayHint").
#[derive(Drop)]
pub enum InlayHintLabel {
    /// A text.
    Text(String),
    /// Texts, one after the other, with more about each.
    Parts(Vec<InlayHintLabelPart>),
}

impl ToJson for InlayHintLabel {
    ghost use Rattle.lsp_types.specs.declared.hints.InlayHintLabel.TheVariants.{Text, Parts};

    ghost stands = { elim [
      | Text it ↦ ⟦<String as ToJson>⟧.stands it
      | Parts it ↦ ⟦<Vec<InlayHintLabelPart> as ToJson>⟧.stands it
    ] };

    fn write_json<S: JsonSink>(&self, out: &mut S) -> Result<(), S::Error> {
        match self {
            InlayHintLabel::Text(it) => it.write_json(out),
            InlayHintLabel::Parts(it) => it.write_json(out),
        }
    }
}

impl FromJson for InlayHintLabel {
    ghost use Rattle.lsp_types.specs.declared.hints.InlayHintLabel.TheVariants.{Text, Parts};

    ghost reads = { λ json. elim [
      | Text it ↦ ⟦<String as FromJson>⟧.reads json it
      | Parts it ↦ NoneReads ⟦<String as FromJson>⟧.reads json × ⟦<Vec<InlayHintLabelPart> as FromJson>⟧.reads json it
    ] };

    fn from_json(alloc: Global, value: &JsonRef<'_>) -> Result<InlayHintLabel, Misfit> {
        if let Some(it) = fitting(alloc, value)? {
            return Ok(InlayHintLabel::Text(it));
        }
        match FromJson::from_json(alloc, value) {
            Ok(it) => Ok(InlayHintLabel::Parts(it)),
            Err(misfit) => Err(misfit),
        }
    }
}

/// A hint (LSP 3.17, "Inlay Hint Request").
#[derive(Drop)]
pub struct InlayHint {
    /// Where it is.
    pub position: Position,
    /// What it says.
    pub label: InlayHintLabel,
    /// What it is about.
    pub kind: Option<InlayHintKind>,
    /// Edits that make it a part of the text, if the user takes it.
    pub text_edits: Option<Vec<TextEdit>>,
    /// What is shown while the mouse is over it.
    pub tooltip: Option<Documentation>,
    /// Whether there is a space before it.
    pub padding_left: Option<bool>,
    /// Whether there is a space after it.
    pub padding_right: Option<bool>,
    /// The client returns this value in `inlayHint/resolve`.
    pub data: Option<Value>,
    /// An object with members that LSP 3.17 does not name, for example those of a newer client or server. They are
    /// written beside the members above. When read, it is `None` if there are none. If a field above has the same name,
    /// the member here counts.
    pub more: Option<Value>,
}

impl InlayHint {
    ghost use Rattle.std.specs.Prelude.{◌≡◌, None};
    ghost use Rattle.lsp_types.specs.declared.hints.InlayHintLabel.TheVariants.{Text};

    /// Makes a hint with a text at a place. The other members are `None`.
    pub fn new(position: Position, label: String) -> InlayHint
        ensures { result ≡ record {
          position = position;
          label = Text label;
          kind = None;
          text_edits = None;
          tooltip = None;
          padding_left = None;
          padding_right = None;
          «data» = None;
          more = None;
        } }
    {
        InlayHint {
            position,
            label: InlayHintLabel::Text(label),
            kind: None,
            text_edits: None,
            tooltip: None,
            padding_left: None,
            padding_right: None,
            data: None,
            more: None,
        }
    }
}

impl KnownMembers for InlayHint {
    ghost known = { λ it. (codes "data", option_map ⟦<Value as ToJson>⟧.stands it.«data»)
        ∷ (codes "kind", option_map ⟦<InlayHintKind as ToJson>⟧.stands it.kind)
        ∷ (codes "label", Some (⟦<InlayHintLabel as ToJson>⟧.stands it.label))
        ∷ (codes "paddingLeft", option_map ⟦<bool as ToJson>⟧.stands it.padding_left)
        ∷ (codes "paddingRight", option_map ⟦<bool as ToJson>⟧.stands it.padding_right)
        ∷ (codes "position", Some (⟦<Position as ToJson>⟧.stands it.position))
        ∷ (codes "textEdits", option_map ⟦<Vec<TextEdit> as ToJson>⟧.stands it.text_edits)
        ∷ (codes "tooltip", option_map ⟦<Documentation as ToJson>⟧.stands it.tooltip) ∷ [] };

    fn write_known<S: JsonSink>(&self, out: &mut S) -> Result<(), S::Error> {
        out.begin_object()?;
        write_some(out, "data", &self.data)?;
        write_some(out, "kind", &self.kind)?;
        write_member(out, "label", &self.label)?;
        write_some(out, "paddingLeft", &self.padding_left)?;
        write_some(out, "paddingRight", &self.padding_right)?;
        write_member(out, "position", &self.position)?;
        write_some(out, "textEdits", &self.text_edits)?;
        write_some(out, "tooltip", &self.tooltip)?;
        out.end_object()
    }
}

impl ToJson for InlayHint {
    ghost stands = { λ it. object_with (⟦<InlayHint as KnownMembers>⟧.known it) (option_map view it.more) };

    fn write_json<S: JsonSink>(&self, out: &mut S) -> Result<(), S::Error> {
        write_with(out, self, &self.more)
    }
}

impl FromJson for InlayHint {
    ghost reads = { λ json it. IsObject json
        and Required ⟦<Position as FromJson>⟧.reads (codes "position") json it.position
        and Required ⟦<InlayHintLabel as FromJson>⟧.reads (codes "label") json it.label
        and Optional ⟦<InlayHintKind as FromJson>⟧.reads (codes "kind") json it.kind
        and Optional ⟦<Vec<TextEdit> as FromJson>⟧.reads (codes "textEdits") json it.text_edits
        and Optional ⟦<Documentation as FromJson>⟧.reads (codes "tooltip") json it.tooltip
        and Optional ⟦<bool as FromJson>⟧.reads (codes "paddingLeft") json it.padding_left
        and Optional ⟦<bool as FromJson>⟧.reads (codes "paddingRight") json it.padding_right
        and Optional ⟦<Value as FromJson>⟧.reads (codes "data") json it.«data»
        and Beside (codes "position" ∷ codes "label" ∷ codes "kind" ∷ codes "textEdits" ∷ codes "tooltip" ∷ codes "paddingLeft" ∷ codes "paddingRight" ∷ codes "data" ∷ []) json it.more };

    fn from_json(alloc: Global, value: &JsonRef<'_>) -> Result<InlayHint, Misfit> {
        match Members::new(alloc, value)
            .required("position")
            .required("label")
            .optional("kind")
            .optional("textEdits")
            .optional("tooltip")
            .optional("paddingLeft")
            .optional("paddingRight")
            .optional("data")
            .rest(&[
                "position",
                "label",
                "kind",
                "textEdits",
                "tooltip",
                "paddingLeft",
                "paddingRight",
                "data",
            ])
            .end()
        {
            Ok(read) => {
                let (read, more) = read;
                let (read, data) = read;
                let (read, padding_right) = read;
                let (read, padding_left) = read;
                let (read, tooltip) = read;
                let (read, text_edits) = read;
                let (read, kind) = read;
                let (read, label) = read;
                let ((), position) = read;
                Ok(InlayHint {
                    position,
                    label,
                    kind,
                    text_edits,
                    tooltip,
                    padding_left,
                    padding_right,
                    data,
                    more,
                })
            }
            Err(misfit) => Err(misfit),
        }
    }
}
