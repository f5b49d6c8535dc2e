//! Changes of semantic tokens.
// `tools/types` wrote this file from `types.txt`: change that.
ghost use Rattle.std.specs.Prelude.{◌∷◌, [], Some, codes, option_map};
ghost use Rattle.lsp_types.specs.Json.{object_of};
ghost use Rattle.lsp_types.specs.Reads.{IfFits, IsObject, NoneReads, Optional, Required, ◌and◌};

use lsp_json::JsonRef;
use lsp_json_write::JsonSink;
use lsp_types::json::{FromJson, Members, Misfit, ToJson, fitting, write_member, write_some};
use lsp_types::{ProgressToken, SemanticTokens, TextDocumentIdentifier};
use std::alloc::Global;

/// The params of `textDocument/semanticTokens/full/delta` (LSP 3.17, "Semantic Tokens").
#[derive(Drop)]
pub struct SemanticTokensDeltaParams {
    /// The document.
    pub text_document: TextDocumentIdentifier,
    /// The result that the client has.
    pub previous_result_id: String,
    /// The token to report progress with. `None` means that no progress is requested, or that the token does not fit.
    pub work_done_token: Option<ProgressToken>,
    /// The token to send parts of the result with. `None` means that no parts are requested, or that the token does not
    /// fit.
    pub partial_result_token: Option<ProgressToken>,
}

impl ToJson for SemanticTokensDeltaParams {
    ghost stands = { λ it. object_of (
        (codes "partialResultToken", option_map ⟦<ProgressToken as ToJson>⟧.stands it.partial_result_token)
        ∷ (codes "previousResultId", Some (⟦<String as ToJson>⟧.stands it.previous_result_id))
        ∷ (codes "textDocument", Some (⟦<TextDocumentIdentifier as ToJson>⟧.stands it.text_document))
        ∷ (codes "workDoneToken", option_map ⟦<ProgressToken as ToJson>⟧.stands it.work_done_token) ∷ []) };

    fn write_json<S: JsonSink>(&self, out: &mut S) -> Result<(), S::Error> {
        out.begin_object()?;
        write_some(out, "partialResultToken", &self.partial_result_token)?;
        write_member(out, "previousResultId", &self.previous_result_id)?;
        write_member(out, "textDocument", &self.text_document)?;
        write_some(out, "workDoneToken", &self.work_done_token)?;
        out.end_object()
    }
}

impl FromJson for SemanticTokensDeltaParams {
    ghost reads = { λ json it. IsObject json
        and Required ⟦<TextDocumentIdentifier as FromJson>⟧.reads (codes "textDocument") json it.text_document
        and Required ⟦<String as FromJson>⟧.reads (codes "previousResultId") json it.previous_result_id
        and IfFits ⟦<ProgressToken as FromJson>⟧.reads (codes "workDoneToken") json it.work_done_token
        and IfFits ⟦<ProgressToken as FromJson>⟧.reads (codes "partialResultToken") json it.partial_result_token };

    fn from_json(alloc: Global, value: &JsonRef<'_>) -> Result<SemanticTokensDeltaParams, Misfit> {
        match Members::new(alloc, value)
            .required("textDocument")
            .required("previousResultId")
            .if_fits("workDoneToken")
            .if_fits("partialResultToken")
            .end()
        {
            Ok(read) => {
                let (read, partial_result_token) = read;
                let (read, work_done_token) = read;
                let (read, previous_result_id) = read;
                let ((), text_document) = read;
                Ok(SemanticTokensDeltaParams {
                    text_document,
                    previous_result_id,
                    work_done_token,
                    partial_result_token,
                })
            }
            Err(misfit) => Err(misfit),
        }
    }
}

/// A change of the numbers of tokens (LSP 3.17, "SemanticTokensEdit").
#[derive(Drop)]
pub struct SemanticTokensEdit {
    /// The first number that is removed, from 0.
    pub start: u32,
    /// How many are removed.
    pub delete_count: u32,
    /// The numbers in their place.
    pub data: Option<Vec<u32>>,
}

impl SemanticTokensEdit {
    ghost use Rattle.std.specs.Prelude.{◌≡◌, None};

    /// Makes one from the required members. The others are `None`.
    pub fn new(start: u32, delete_count: u32) -> SemanticTokensEdit
        ensures { result ≡ record {
          start = start;
          delete_count = delete_count;
          «data» = None;
        } }
    {
        SemanticTokensEdit {
            start,
            delete_count,
            data: None,
        }
    }
}

impl ToJson for SemanticTokensEdit {
    ghost stands = { λ it. object_of (
        (codes "data", option_map ⟦<Vec<u32> as ToJson>⟧.stands it.«data»)
        ∷ (codes "deleteCount", Some (⟦<u32 as ToJson>⟧.stands it.delete_count))
        ∷ (codes "start", Some (⟦<u32 as ToJson>⟧.stands it.start)) ∷ []) };

    fn write_json<S: JsonSink>(&self, out: &mut S) -> Result<(), S::Error> {
        out.begin_object()?;
        write_some(out, "data", &self.data)?;
        write_member(out, "deleteCount", &self.delete_count)?;
        write_member(out, "start", &self.start)?;
        out.end_object()
    }
}

impl FromJson for SemanticTokensEdit {
    ghost reads = { λ json it. IsObject json
        and Required ⟦<u32 as FromJson>⟧.reads (codes "start") json it.start
        and Required ⟦<u32 as FromJson>⟧.reads (codes "deleteCount") json it.delete_count
        and Optional ⟦<Vec<u32> as FromJson>⟧.reads (codes "data") json it.«data» };

    fn from_json(alloc: Global, value: &JsonRef<'_>) -> Result<SemanticTokensEdit, Misfit> {
        match Members::new(alloc, value)
            .required("start")
            .required("deleteCount")
            .optional("data")
            .end()
        {
            Ok(read) => {
                let ((((), start), delete_count), data) = read;
                Ok(SemanticTokensEdit {
                    start,
                    delete_count,
                    data,
                })
            }
            Err(misfit) => Err(misfit),
        }
    }
}

/// What changed (LSP 3.17, "SemanticTokensDelta").
#[derive(Drop)]
pub struct SemanticTokensDelta {
    /// An id for the new result.
    pub result_id: Option<String>,
    /// The changes.
    pub edits: Vec<SemanticTokensEdit>,
}

impl SemanticTokensDelta {
    ghost use Rattle.std.specs.Prelude.{◌≡◌, None};

    /// Makes one from the required members. The others are `None`.
    pub fn new(edits: Vec<SemanticTokensEdit>) -> SemanticTokensDelta
        ensures { result ≡ record {
          result_id = None;
          edits = edits;
        } }
    {
        SemanticTokensDelta {
            result_id: None,
            edits,
        }
    }
}

impl ToJson for SemanticTokensDelta {
    ghost stands = { λ it. object_of (
        (codes "edits", Some (⟦<Vec<SemanticTokensEdit> as ToJson>⟧.stands it.edits))
        ∷ (codes "resultId", option_map ⟦<String as ToJson>⟧.stands it.result_id) ∷ []) };

    fn write_json<S: JsonSink>(&self, out: &mut S) -> Result<(), S::Error> {
        out.begin_object()?;
        write_member(out, "edits", &self.edits)?;
        write_some(out, "resultId", &self.result_id)?;
        out.end_object()
    }
}

impl FromJson for SemanticTokensDelta {
    ghost reads = { λ json it. IsObject json
        and Optional ⟦<String as FromJson>⟧.reads (codes "resultId") json it.result_id
        and Required ⟦<Vec<SemanticTokensEdit> as FromJson>⟧.reads (codes "edits") json it.edits };

    fn from_json(alloc: Global, value: &JsonRef<'_>) -> Result<SemanticTokensDelta, Misfit> {
        match Members::new(alloc, value)
            .optional("resultId")
            .required("edits")
            .end()
        {
            Ok(read) => {
                let (((), result_id), edits) = read;
                Ok(SemanticTokensDelta { result_id, edits })
            }
            Err(misfit) => Err(misfit),
        }
    }
}

/// The result of `textDocument/semanticTokens/full/delta`, or null (LSP 3.17, "Semantic Tokens").
#[derive(Drop)]
pub enum SemanticTokensDeltaResult {
    /// What changed.
    Delta(SemanticTokensDelta),
    /// All tokens again.
    Tokens(SemanticTokens),
}

impl ToJson for SemanticTokensDeltaResult {
    ghost use Rattle.lsp_types_features.specs.declared.token_changes.SemanticTokensDeltaResult.TheVariants.{Delta, Tokens};

    ghost stands = { elim [
      | Delta it ↦ ⟦<SemanticTokensDelta as ToJson>⟧.stands it
      | Tokens it ↦ ⟦<SemanticTokens as ToJson>⟧.stands it
    ] };

    fn write_json<S: JsonSink>(&self, out: &mut S) -> Result<(), S::Error> {
        match self {
            SemanticTokensDeltaResult::Delta(it) => it.write_json(out),
            SemanticTokensDeltaResult::Tokens(it) => it.write_json(out),
        }
    }
}

impl FromJson for SemanticTokensDeltaResult {
    ghost use Rattle.lsp_types_features.specs.declared.token_changes.SemanticTokensDeltaResult.TheVariants.{Delta, Tokens};

    ghost reads = { λ json. elim [
      | Delta it ↦ ⟦<SemanticTokensDelta as FromJson>⟧.reads json it
      | Tokens it ↦ NoneReads ⟦<SemanticTokensDelta as FromJson>⟧.reads json × ⟦<SemanticTokens as FromJson>⟧.reads json it
    ] };

    fn from_json(alloc: Global, value: &JsonRef<'_>) -> Result<SemanticTokensDeltaResult, Misfit> {
        if let Some(it) = fitting(alloc, value)? {
            return Ok(SemanticTokensDeltaResult::Delta(it));
        }
        match FromJson::from_json(alloc, value) {
            Ok(it) => Ok(SemanticTokensDeltaResult::Tokens(it)),
            Err(misfit) => Err(misfit),
        }
    }
}
