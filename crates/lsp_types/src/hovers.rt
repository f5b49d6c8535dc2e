//! Texts that a client shows, and hovers.
// `tools/types` wrote this file from `types.txt`: change that.
ghost use Rattle.std.specs.Prelude.{◌∷◌, [], Some, codes, option_map};
ghost use Rattle.lsp_types.specs.Json.{object_of};
ghost use Rattle.lsp_types.specs.Reads.{IsObject, NoneReads, Optional, Required, ◌and◌};

use crate::choices::MarkupKind;
use crate::json::{FromJson, Members, Misfit, ToJson, fitting, write_member, write_some};
use lsp_json::JsonRef;
use lsp_json_write::JsonSink;
use lsp_text::Range;
use std::alloc::Global;

/// A text to show (LSP 3.17, "MarkupContent").
#[derive(Drop)]
pub struct MarkupContent {
    /// How it is marked up.
    pub kind: MarkupKind,
    /// The text.
    pub value: String,
}

impl ToJson for MarkupContent {
    ghost stands = { λ it. object_of (
        (codes "kind", Some (⟦<MarkupKind as ToJson>⟧.stands it.kind))
        ∷ (codes "value", Some (⟦<String as ToJson>⟧.stands it.value)) ∷ []) };

    fn write_json<S: JsonSink>(&self, out: &mut S) -> Result<(), S::Error> {
        out.begin_object()?;
        write_member(out, "kind", &self.kind)?;
        write_member(out, "value", &self.value)?;
        out.end_object()
    }
}

impl FromJson for MarkupContent {
    ghost reads = { λ json it. IsObject json
        and Required ⟦<MarkupKind as FromJson>⟧.reads (codes "kind") json it.kind
        and Required ⟦<String as FromJson>⟧.reads (codes "value") json it.value };

    fn from_json(alloc: Global, value: &JsonRef<'_>) -> Result<MarkupContent, Misfit> {
        match Members::new(alloc, value)
            .required("kind")
            .required("value")
            .end()
        {
            Ok(read) => {
                let (((), kind), value) = read;
                Ok(MarkupContent { kind, value })
            }
            Err(misfit) => Err(misfit),
        }
    }
}

/// A text that describes something: a string, or an object (LSP 3.17, "MarkupContent").
#[derive(Drop)]
pub enum Documentation {
    /// Plain text.
    Text(String),
    /// A text that says how it is marked up.
    Markup(MarkupContent),
}

impl ToJson for Documentation {
    ghost use Rattle.lsp_types.specs.declared.hovers.Documentation.TheVariants.{Text, Markup};

    ghost stands = { elim [
      | Text it ↦ ⟦<String as ToJson>⟧.stands it
      | Markup it ↦ ⟦<MarkupContent as ToJson>⟧.stands it
    ] };

    fn write_json<S: JsonSink>(&self, out: &mut S) -> Result<(), S::Error> {
        match self {
            Documentation::Text(it) => it.write_json(out),
            Documentation::Markup(it) => it.write_json(out),
        }
    }
}

impl FromJson for Documentation {
    ghost use Rattle.lsp_types.specs.declared.hovers.Documentation.TheVariants.{Text, Markup};

    ghost reads = { λ json. elim [
      | Text it ↦ ⟦<String as FromJson>⟧.reads json it
      | Markup it ↦ NoneReads ⟦<String as FromJson>⟧.reads json × ⟦<MarkupContent as FromJson>⟧.reads json it
    ] };

    fn from_json(alloc: Global, value: &JsonRef<'_>) -> Result<Documentation, Misfit> {
        if let Some(it) = fitting(alloc, value)? {
            return Ok(Documentation::Text(it));
        }
        match FromJson::from_json(alloc, value) {
            Ok(it) => Ok(Documentation::Markup(it)),
            Err(misfit) => Err(misfit),
        }
    }
}

/// Code (LSP 3.17, "MarkedString").
#[derive(Drop)]
pub struct LanguageString {
    /// Its language, such as `rust`.
    pub language: String,
    /// The code.
    pub value: String,
}

impl ToJson for LanguageString {
    ghost stands = { λ it. object_of (
        (codes "language", Some (⟦<String as ToJson>⟧.stands it.language))
        ∷ (codes "value", Some (⟦<String as ToJson>⟧.stands it.value)) ∷ []) };

    fn write_json<S: JsonSink>(&self, out: &mut S) -> Result<(), S::Error> {
        out.begin_object()?;
        write_member(out, "language", &self.language)?;
        write_member(out, "value", &self.value)?;
        out.end_object()
    }
}

impl FromJson for LanguageString {
    ghost reads = { λ json it. IsObject json
        and Required ⟦<String as FromJson>⟧.reads (codes "language") json it.language
        and Required ⟦<String as FromJson>⟧.reads (codes "value") json it.value };

    fn from_json(alloc: Global, value: &JsonRef<'_>) -> Result<LanguageString, Misfit> {
        match Members::new(alloc, value)
            .required("language")
            .required("value")
            .end()
        {
            Ok(read) => {
                let (((), language), value) = read;
                Ok(LanguageString { language, value })
            }
            Err(misfit) => Err(misfit),
        }
    }
}

/// A text in the form that `MarkupContent` has replaced: a string, or an object (LSP 3.17, "MarkedString").
#[derive(Drop)]
pub enum MarkedString {
    /// Markdown.
    Text(String),
    /// Code, shown as a block.
    Code(LanguageString),
}

impl ToJson for MarkedString {
    ghost use Rattle.lsp_types.specs.declared.hovers.MarkedString.TheVariants.{Text, Code};

    ghost stands = { elim [
      | Text it ↦ ⟦<String as ToJson>⟧.stands it
      | Code it ↦ ⟦<LanguageString as ToJson>⟧.stands it
    ] };

    fn write_json<S: JsonSink>(&self, out: &mut S) -> Result<(), S::Error> {
        match self {
            MarkedString::Text(it) => it.write_json(out),
            MarkedString::Code(it) => it.write_json(out),
        }
    }
}

impl FromJson for MarkedString {
    ghost use Rattle.lsp_types.specs.declared.hovers.MarkedString.TheVariants.{Text, Code};

    ghost reads = { λ json. elim [
      | Text it ↦ ⟦<String as FromJson>⟧.reads json it
      | Code it ↦ NoneReads ⟦<String as FromJson>⟧.reads json × ⟦<LanguageString as FromJson>⟧.reads json it
    ] };

    fn from_json(alloc: Global, value: &JsonRef<'_>) -> Result<MarkedString, Misfit> {
        if let Some(it) = fitting(alloc, value)? {
            return Ok(MarkedString::Text(it));
        }
        match FromJson::from_json(alloc, value) {
            Ok(it) => Ok(MarkedString::Code(it)),
            Err(misfit) => Err(misfit),
        }
    }
}

/// What a hover shows (LSP 3.17, "Hover Request"). An object with `kind` is the last form, and one with `language` is
/// code.
#[derive(Drop)]
pub enum HoverContents {
    /// A text in the older form.
    Marked(MarkedString),
    /// Texts in the older form.
    Several(Vec<MarkedString>),
    /// A text that says how it is marked up.
    Markup(MarkupContent),
}

impl ToJson for HoverContents {
    ghost use Rattle.lsp_types.specs.declared.hovers.HoverContents.TheVariants.{Marked, Several, Markup};

    ghost stands = { elim [
      | Marked it ↦ ⟦<MarkedString as ToJson>⟧.stands it
      | Several it ↦ ⟦<Vec<MarkedString> as ToJson>⟧.stands it
      | Markup it ↦ ⟦<MarkupContent as ToJson>⟧.stands it
    ] };

    fn write_json<S: JsonSink>(&self, out: &mut S) -> Result<(), S::Error> {
        match self {
            HoverContents::Marked(it) => it.write_json(out),
            HoverContents::Several(it) => it.write_json(out),
            HoverContents::Markup(it) => it.write_json(out),
        }
    }
}

impl FromJson for HoverContents {
    ghost use Rattle.lsp_types.specs.declared.hovers.HoverContents.TheVariants.{Marked, Several, Markup};

    ghost reads = { λ json. elim [
      | Marked it ↦ ⟦<MarkedString as FromJson>⟧.reads json it
      | Several it ↦ NoneReads ⟦<MarkedString as FromJson>⟧.reads json × ⟦<Vec<MarkedString> as FromJson>⟧.reads json it
      | Markup it ↦ NoneReads ⟦<MarkedString as FromJson>⟧.reads json × NoneReads ⟦<Vec<MarkedString> as FromJson>⟧.reads json × ⟦<MarkupContent as FromJson>⟧.reads json it
    ] };

    fn from_json(alloc: Global, value: &JsonRef<'_>) -> Result<HoverContents, Misfit> {
        if let Some(it) = fitting(alloc, value)? {
            return Ok(HoverContents::Marked(it));
        }
        if let Some(it) = fitting(alloc, value)? {
            return Ok(HoverContents::Several(it));
        }
        match FromJson::from_json(alloc, value) {
            Ok(it) => Ok(HoverContents::Markup(it)),
            Err(misfit) => Err(misfit),
        }
    }
}

/// The result of `textDocument/hover`, or null (LSP 3.17, "Hover Request").
#[derive(Drop)]
pub struct Hover {
    /// What is shown.
    pub contents: HoverContents,
    /// The part of the text that it is about.
    pub range: Option<Range>,
}

impl ToJson for Hover {
    ghost stands = { λ it. object_of (
        (codes "contents", Some (⟦<HoverContents as ToJson>⟧.stands it.contents))
        ∷ (codes "range", option_map ⟦<Range as ToJson>⟧.stands it.range) ∷ []) };

    fn write_json<S: JsonSink>(&self, out: &mut S) -> Result<(), S::Error> {
        out.begin_object()?;
        write_member(out, "contents", &self.contents)?;
        write_some(out, "range", &self.range)?;
        out.end_object()
    }
}

impl FromJson for Hover {
    ghost reads = { λ json it. IsObject json
        and Required ⟦<HoverContents as FromJson>⟧.reads (codes "contents") json it.contents
        and Optional ⟦<Range as FromJson>⟧.reads (codes "range") json it.range };

    fn from_json(alloc: Global, value: &JsonRef<'_>) -> Result<Hover, Misfit> {
        match Members::new(alloc, value)
            .required("contents")
            .optional("range")
            .end()
        {
            Ok(read) => {
                let (((), contents), range) = read;
                Ok(Hover { contents, range })
            }
            Err(misfit) => Err(misfit),
        }
    }
}
