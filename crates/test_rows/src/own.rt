// A type of one's own that has one of LSP's in it.
ghost use Rattle.std.specs.Prelude.{◌∷◌, [], Some, codes};
ghost use Rattle.lsp_types.specs.Json.{object_of};
ghost use Rattle.lsp_types.specs.Reads.{IsObject, Required, ◌and◌};

use lsp_json::JsonRef;
use lsp_json_write::JsonSink;
use lsp_types::json::{Members, Misfit, write_member};
use lsp_types::{FromJson, Range, ToJson};
use std::alloc::Global;

/// A note on a part of a text.
#[derive(Drop)]
pub struct Note {
    /// The part.
    pub range: Range,
    /// What is noted.
    pub text: String,
}

impl FromJson for Note {
    ghost reads = { λ json it. IsObject json
        and Required ⟦<Range as FromJson>⟧.reads (codes "range") json it.range
        and Required ⟦<String as FromJson>⟧.reads (codes "text") json it.text };

    fn from_json(alloc: Global, value: &JsonRef<'_>) -> Result<Note, Misfit> {
        match Members::new(alloc, value)
            .required("range")
            .required("text")
            .end()
        {
            Ok(read) => {
                let (((), range), text) = read;
                Ok(Note { range, text })
            }
            Err(misfit) => Err(misfit),
        }
    }
}

impl ToJson for Note {
    ghost stands = { λ it. object_of (
        (codes "range", Some (⟦<Range as ToJson>⟧.stands it.range))
        ∷ (codes "text", Some (⟦<String as ToJson>⟧.stands it.text)) ∷ []) };

    fn write_json<S: JsonSink>(&self, out: &mut S) -> Result<(), S::Error> {
        out.begin_object()?;
        write_member(out, "range", &self.range)?;
        write_member(out, "text", &self.text)?;
        out.end_object()
    }
}
