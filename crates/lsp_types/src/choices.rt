//! Values that have one of several types.
ghost use Rattle.std.specs.Prelude.{◌≡◌, Some, codes, string_bytes};
ghost use Rattle.serde_json.specs.Data.{number, string};
ghost use Rattle.serde_json.specs.Find.{as_str, of_integer};
ghost use Rattle.lsp_types.specs.Reads.{IsInt};

use crate::json::{FromJson, Misfit, ToJson, fitting};
use lsp_json::JsonRef;
use lsp_json_write::JsonSink;
use std::alloc::Global;

/// A number or a text, such as the code of a diagnostic or a token of progress (LSP 3.17, "Diagnostic" and
/// "ProgressToken").
#[derive(Drop)]
pub enum NumberOrString {
    /// A number.
    Number(i32),
    /// A text.
    String(String),
}

impl ToJson for NumberOrString {
    ghost use Rattle.lsp_types.specs.declared.choices.NumberOrString.TheVariants.{Number, String};

    ghost stands = { elim [ Number z ↦ number (of_integer z) | String text ↦ string (string_bytes text) ] };

    fn write_json<S: JsonSink>(&self, out: &mut S) -> Result<(), S::Error> {
        match self {
            NumberOrString::Number(number) => number.write_json(out),
            NumberOrString::String(text) => text.write_json(out),
        }
    }
}

impl FromJson for NumberOrString {
    ghost use Rattle.lsp_types.specs.declared.choices.NumberOrString.TheVariants.{Number, String};

    ghost reads = { λ json. elim [ Number z ↦ IsInt json z | String text ↦ as_str json ≡ Some (string_bytes text) ] };

    fn from_json(alloc: Global, value: &JsonRef<'_>) -> Result<NumberOrString, Misfit> {
        if let Some(text) = fitting(alloc, value)? {
            return Ok(NumberOrString::String(text));
        }
        match fitting(alloc, value)? {
            Some(number) => Ok(NumberOrString::Number(number)),
            None => Err(Misfit::Wanted("a whole number of 32 bits or a string")),
        }
    }
}

/// How a text is marked up (LSP 3.17, "MarkupContent"). When it is read, another name is refused.
#[derive(Clone, Copy, Drop)]
pub enum MarkupKind {
    /// Plain text.
    PlainText,
    /// Markdown.
    Markdown,
}

impl ToJson for MarkupKind {
    ghost use Rattle.lsp_types.specs.declared.choices.MarkupKind.TheVariants.{Markdown, PlainText};

    ghost stands = { elim [ PlainText ↦ string (codes "plaintext") | Markdown ↦ string (codes "markdown") ] };

    fn write_json<S: JsonSink>(&self, out: &mut S) -> Result<(), S::Error> {
        match self {
            MarkupKind::PlainText => out.str("plaintext"),
            MarkupKind::Markdown => out.str("markdown"),
        }
    }
}

impl FromJson for MarkupKind {
    ghost use Rattle.lsp_types.specs.declared.choices.MarkupKind.TheVariants.{Markdown, PlainText};

    ghost reads = { λ json. elim [
      | PlainText ↦ as_str json ≡ Some (codes "plaintext")
      | Markdown ↦ as_str json ≡ Some (codes "markdown")
    ] };

    fn from_json(_alloc: Global, value: &JsonRef<'_>) -> Result<MarkupKind, Misfit> {
        match value.as_str() {
            Some("plaintext") => Ok(MarkupKind::PlainText),
            Some("markdown") => Ok(MarkupKind::Markdown),
            _ => Err(Misfit::Wanted("`plaintext` or `markdown`")),
        }
    }
}
