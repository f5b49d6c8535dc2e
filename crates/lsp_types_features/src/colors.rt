//! Colors that a text names.
// `tools/types` wrote this file from `types.txt`: change that.
ghost use Rattle.std.specs.Prelude.{◌∷◌, [], Some, codes, option_map};
ghost use Rattle.lsp_types.specs.Json.{object_of};
ghost use Rattle.lsp_types.specs.Reads.{IfFits, IsObject, Optional, Required, ◌and◌};

use lsp_json::JsonRef;
use lsp_json_write::JsonSink;
use lsp_text::Range;
use lsp_types::json::{FromJson, Members, Misfit, ToJson, write_member, write_some};
use lsp_types::{DocumentSymbolParams, ProgressToken, TextDocumentIdentifier, TextEdit};
use std::alloc::Global;

/// The params of `textDocument/documentColor` (LSP 3.17, "Document Color Request"). The result is a list of
/// `ColorInformation`.
pub type DocumentColorParams = DocumentSymbolParams;

/// A color (LSP 3.17, "Color"). Each part goes from 0 to 1.
#[derive(Clone, Copy, Drop)]
pub struct Color {
    /// How red it is.
    pub red: f64,
    /// How green it is.
    pub green: f64,
    /// How blue it is.
    pub blue: f64,
    /// How dense it is: 0 is transparent, and 1 is opaque.
    pub alpha: f64,
}

impl ToJson for Color {
    ghost stands = { λ it. object_of (
        (codes "alpha", Some (⟦<f64 as ToJson>⟧.stands it.alpha))
        ∷ (codes "blue", Some (⟦<f64 as ToJson>⟧.stands it.blue))
        ∷ (codes "green", Some (⟦<f64 as ToJson>⟧.stands it.green))
        ∷ (codes "red", Some (⟦<f64 as ToJson>⟧.stands it.red)) ∷ []) };

    fn write_json<S: JsonSink>(&self, out: &mut S) -> Result<(), S::Error> {
        out.begin_object()?;
        write_member(out, "alpha", &self.alpha)?;
        write_member(out, "blue", &self.blue)?;
        write_member(out, "green", &self.green)?;
        write_member(out, "red", &self.red)?;
        out.end_object()
    }
}

impl FromJson for Color {
    ghost reads = { λ json it. IsObject json
        and Required ⟦<f64 as FromJson>⟧.reads (codes "red") json it.red
        and Required ⟦<f64 as FromJson>⟧.reads (codes "green") json it.green
        and Required ⟦<f64 as FromJson>⟧.reads (codes "blue") json it.blue
        and Required ⟦<f64 as FromJson>⟧.reads (codes "alpha") json it.alpha };

    fn from_json(alloc: Global, value: &JsonRef<'_>) -> Result<Color, Misfit> {
        match Members::new(alloc, value)
            .required("red")
            .required("green")
            .required("blue")
            .required("alpha")
            .end()
        {
            Ok(read) => {
                let (((((), red), green), blue), alpha) = read;
                Ok(Color {
                    red,
                    green,
                    blue,
                    alpha,
                })
            }
            Err(misfit) => Err(misfit),
        }
    }
}

/// A color that a text names (LSP 3.17, "ColorInformation").
#[derive(Clone, Copy, Drop)]
pub struct ColorInformation {
    /// Where.
    pub range: Range,
    /// The color.
    pub color: Color,
}

impl ToJson for ColorInformation {
    ghost stands = { λ it. object_of (
        (codes "color", Some (⟦<Color as ToJson>⟧.stands it.color))
        ∷ (codes "range", Some (⟦<Range as ToJson>⟧.stands it.range)) ∷ []) };

    fn write_json<S: JsonSink>(&self, out: &mut S) -> Result<(), S::Error> {
        out.begin_object()?;
        write_member(out, "color", &self.color)?;
        write_member(out, "range", &self.range)?;
        out.end_object()
    }
}

impl FromJson for ColorInformation {
    ghost reads = { λ json it. IsObject json
        and Required ⟦<Range as FromJson>⟧.reads (codes "range") json it.range
        and Required ⟦<Color as FromJson>⟧.reads (codes "color") json it.color };

    fn from_json(alloc: Global, value: &JsonRef<'_>) -> Result<ColorInformation, Misfit> {
        match Members::new(alloc, value)
            .required("range")
            .required("color")
            .end()
        {
            Ok(read) => {
                let (((), range), color) = read;
                Ok(ColorInformation { range, color })
            }
            Err(misfit) => Err(misfit),
        }
    }
}

/// The params of `textDocument/colorPresentation` (LSP 3.17, "Color Presentation Request"). The result is a list of
/// `ColorPresentation`.
#[derive(Drop)]
pub struct ColorPresentationParams {
    /// The document.
    pub text_document: TextDocumentIdentifier,
    /// The color that the user chose.
    pub color: Color,
    /// Where it will be.
    pub range: Range,
    /// The token to report progress with. `None` means that no progress is requested, or that the token does not fit.
    pub work_done_token: Option<ProgressToken>,
    /// The token to send parts of the result with. `None` means that no parts are requested, or that the token does not
    /// fit.
    pub partial_result_token: Option<ProgressToken>,
}

impl ToJson for ColorPresentationParams {
    ghost stands = { λ it. object_of (
        (codes "color", Some (⟦<Color as ToJson>⟧.stands it.color))
        ∷ (codes "partialResultToken", option_map ⟦<ProgressToken as ToJson>⟧.stands it.partial_result_token)
        ∷ (codes "range", Some (⟦<Range as ToJson>⟧.stands it.range))
        ∷ (codes "textDocument", Some (⟦<TextDocumentIdentifier as ToJson>⟧.stands it.text_document))
        ∷ (codes "workDoneToken", option_map ⟦<ProgressToken as ToJson>⟧.stands it.work_done_token) ∷ []) };

    fn write_json<S: JsonSink>(&self, out: &mut S) -> Result<(), S::Error> {
        out.begin_object()?;
        write_member(out, "color", &self.color)?;
        write_some(out, "partialResultToken", &self.partial_result_token)?;
        write_member(out, "range", &self.range)?;
        write_member(out, "textDocument", &self.text_document)?;
        write_some(out, "workDoneToken", &self.work_done_token)?;
        out.end_object()
    }
}

impl FromJson for ColorPresentationParams {
    ghost reads = { λ json it. IsObject json
        and Required ⟦<TextDocumentIdentifier as FromJson>⟧.reads (codes "textDocument") json it.text_document
        and Required ⟦<Color as FromJson>⟧.reads (codes "color") json it.color
        and Required ⟦<Range as FromJson>⟧.reads (codes "range") json it.range
        and IfFits ⟦<ProgressToken as FromJson>⟧.reads (codes "workDoneToken") json it.work_done_token
        and IfFits ⟦<ProgressToken as FromJson>⟧.reads (codes "partialResultToken") json it.partial_result_token };

    fn from_json(alloc: Global, value: &JsonRef<'_>) -> Result<ColorPresentationParams, Misfit> {
        match Members::new(alloc, value)
            .required("textDocument")
            .required("color")
            .required("range")
            .if_fits("workDoneToken")
            .if_fits("partialResultToken")
            .end()
        {
            Ok(read) => {
                let (read, partial_result_token) = read;
                let (read, work_done_token) = read;
                let (read, range) = read;
                let (read, color) = read;
                let ((), text_document) = read;
                Ok(ColorPresentationParams {
                    text_document,
                    color,
                    range,
                    work_done_token,
                    partial_result_token,
                })
            }
            Err(misfit) => Err(misfit),
        }
    }
}

/// A way to write a color (LSP 3.17, "ColorPresentation").
#[derive(Drop)]
pub struct ColorPresentation {
    /// What is shown, and written if there is no `text_edit`.
    pub label: String,
    /// The edit that writes it.
    pub text_edit: Option<TextEdit>,
    /// Edits elsewhere in the document.
    pub additional_text_edits: Option<Vec<TextEdit>>,
}

impl ColorPresentation {
    ghost use Rattle.std.specs.Prelude.{◌≡◌, None};

    /// Makes one from the required members. The others are `None`.
    pub fn new(label: String) -> ColorPresentation
        ensures { result ≡ record {
          label = label;
          text_edit = None;
          additional_text_edits = None;
        } }
    {
        ColorPresentation {
            label,
            text_edit: None,
            additional_text_edits: None,
        }
    }
}

impl ToJson for ColorPresentation {
    ghost stands = { λ it. object_of (
        (codes "additionalTextEdits", option_map ⟦<Vec<TextEdit> as ToJson>⟧.stands it.additional_text_edits)
        ∷ (codes "label", Some (⟦<String as ToJson>⟧.stands it.label))
        ∷ (codes "textEdit", option_map ⟦<TextEdit as ToJson>⟧.stands it.text_edit) ∷ []) };

    fn write_json<S: JsonSink>(&self, out: &mut S) -> Result<(), S::Error> {
        out.begin_object()?;
        write_some(out, "additionalTextEdits", &self.additional_text_edits)?;
        write_member(out, "label", &self.label)?;
        write_some(out, "textEdit", &self.text_edit)?;
        out.end_object()
    }
}

impl FromJson for ColorPresentation {
    ghost reads = { λ json it. IsObject json
        and Required ⟦<String as FromJson>⟧.reads (codes "label") json it.label
        and Optional ⟦<TextEdit as FromJson>⟧.reads (codes "textEdit") json it.text_edit
        and Optional ⟦<Vec<TextEdit> as FromJson>⟧.reads (codes "additionalTextEdits") json it.additional_text_edits };

    fn from_json(alloc: Global, value: &JsonRef<'_>) -> Result<ColorPresentation, Misfit> {
        match Members::new(alloc, value)
            .required("label")
            .optional("textEdit")
            .optional("additionalTextEdits")
            .end()
        {
            Ok(read) => {
                let ((((), label), text_edit), additional_text_edits) = read;
                Ok(ColorPresentation {
                    label,
                    text_edit,
                    additional_text_edits,
                })
            }
            Err(misfit) => Err(misfit),
        }
    }
}
