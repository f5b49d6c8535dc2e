//! The result of requests for semantic tokens.
// `tools/types` wrote this file from `types.txt`: change that.
ghost use Rattle.std.specs.Prelude.{◌∷◌, [], Some, codes, option_map};
ghost use Rattle.lsp_types.specs.Json.{object_of};
ghost use Rattle.lsp_types.specs.Reads.{IsObject, Optional, Required, ◌and◌};

use crate::json::{FromJson, Members, Misfit, ToJson, write_member, write_some};
use lsp_json::JsonRef;
use lsp_json_write::JsonSink;
use std::alloc::Global;

/// The result of `textDocument/semanticTokens/full` and `/range`, or null (LSP 3.17, "Semantic Tokens").
#[derive(Drop)]
pub struct SemanticTokens {
    /// An id for this result, for requests of later changes.
    pub result_id: Option<String>,
    /// Five numbers for each token.
    pub data: Vec<u32>,
}

impl ToJson for SemanticTokens {
    ghost stands = { λ it. object_of (
        (codes "data", Some (⟦<Vec<u32> as ToJson>⟧.stands it.«data»))
        ∷ (codes "resultId", option_map ⟦<String as ToJson>⟧.stands it.result_id) ∷ []) };

    fn write_json<S: JsonSink>(&self, out: &mut S) -> Result<(), S::Error> {
        out.begin_object()?;
        write_member(out, "data", &self.data)?;
        write_some(out, "resultId", &self.result_id)?;
        out.end_object()
    }
}

impl FromJson for SemanticTokens {
    ghost reads = { λ json it. IsObject json
        and Optional ⟦<String as FromJson>⟧.reads (codes "resultId") json it.result_id
        and Required ⟦<Vec<u32> as FromJson>⟧.reads (codes "data") json it.«data» };

    fn from_json(alloc: Global, value: &JsonRef<'_>) -> Result<SemanticTokens, Misfit> {
        match Members::new(alloc, value)
            .optional("resultId")
            .required("data")
            .end()
        {
            Ok(read) => {
                let (((), result_id), data) = read;
                Ok(SemanticTokens { result_id, data })
            }
            Err(misfit) => Err(misfit),
        }
    }
}
