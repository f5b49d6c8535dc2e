// The methods of LSP by which a client asks something about one document: what the server announces, and its answers.
use crate::server::TomlServer;
use lsp_features::{Answers, Offers};
use lsp_types::methods::{
    CompletionRequest, DefinitionRequest, DocumentFormattingRequest, DocumentSymbolRequest,
    HoverRequest, SemanticTokensRequest,
};
use lsp_types::{
    CompletionOptions, CompletionParams, CompletionResult, DefinitionParams, DefinitionResult,
    DocumentFormattingParams, DocumentSymbolParams, DocumentSymbolResult, Hover, HoverParams,
    SemanticTokens, SemanticTokensFullOptions, SemanticTokensOptions, SemanticTokensParams,
    TextEdit,
};
use lsp_types_features::methods::FoldingRangeRequest;
use lsp_types_features::{FoldingRange, FoldingRangeParams};
use std::alloc::{AllocError, Global};
use toml_features::{
    completion, definition, folding, formatting, hover, semantic_tokens, symbols, token_legend,
};

/// The methods that the server announces and answers.
///
/// Two methods have no entry. A job answers `workspace/symbol`, and its error has a text of the server's own. The
/// server invented `toml/text`, and no member of the capabilities announces it.
pub type Features = (
    HoverRequest,
    (
        DocumentSymbolRequest,
        (
            CompletionRequest,
            (
                DefinitionRequest,
                (
                    DocumentFormattingRequest,
                    (SemanticTokensRequest, (FoldingRangeRequest, ())),
                ),
            ),
        ),
    ),
);

impl Answers<HoverRequest> for TomlServer {
    ghost use Rattle.std.specs.Prelude.{string_bytes};
    ghost use Rattle.example_toml.specs.Replies.{FindsAt};

    ghost answers = { λ old params found new. FindsAt (string_bytes params.text_document.uri) old found new };

    fn answer(&mut self, params: HoverParams) -> Result<Option<Hover>, AllocError> {
        hover(self.alloc, &self.texts.documents, &params)
    }
}

impl Answers<DocumentSymbolRequest> for TomlServer {
    ghost use Rattle.std.specs.Prelude.{string_bytes};
    ghost use Rattle.example_toml.specs.Replies.{FindsAt};

    ghost answers = { λ old params found new. FindsAt (string_bytes params.text_document.uri) old found new };

    fn answer(
        &mut self,
        params: DocumentSymbolParams,
    ) -> Result<Option<DocumentSymbolResult>, AllocError> {
        symbols(self.alloc, &self.texts.documents, &params, self.shows_trees)
    }
}

impl Answers<CompletionRequest> for TomlServer {
    ghost use Rattle.std.specs.Prelude.{string_bytes};
    ghost use Rattle.example_toml.specs.Replies.{FindsAt};

    ghost answers = { λ old params found new. FindsAt (string_bytes params.text_document.uri) old found new };

    fn answer(&mut self, params: CompletionParams) -> Result<Option<CompletionResult>, AllocError> {
        completion(self.alloc, &self.texts.documents, &params)
    }
}

impl Answers<DefinitionRequest> for TomlServer {
    ghost use Rattle.std.specs.Prelude.{string_bytes};
    ghost use Rattle.example_toml.specs.Replies.{FindsAt};

    ghost answers = { λ old params found new. FindsAt (string_bytes params.text_document.uri) old found new };

    fn answer(&mut self, params: DefinitionParams) -> Result<Option<DefinitionResult>, AllocError> {
        definition(self.alloc, &self.texts.documents, &params)
    }
}

impl Answers<DocumentFormattingRequest> for TomlServer {
    ghost use Rattle.std.specs.Prelude.{string_bytes};
    ghost use Rattle.example_toml.specs.Replies.{FindsAt};

    ghost answers = { λ old params found new. FindsAt (string_bytes params.text_document.uri) old found new };

    fn answer(
        &mut self,
        params: DocumentFormattingParams,
    ) -> Result<Option<Vec<TextEdit>>, AllocError> {
        formatting(self.alloc, &self.texts.documents, &params)
    }
}

impl Answers<SemanticTokensRequest> for TomlServer {
    ghost use Rattle.std.specs.Prelude.{string_bytes};
    ghost use Rattle.example_toml.specs.Replies.{FindsAt};

    ghost answers = { λ old params found new. FindsAt (string_bytes params.text_document.uri) old found new };

    fn answer(
        &mut self,
        params: SemanticTokensParams,
    ) -> Result<Option<SemanticTokens>, AllocError> {
        semantic_tokens(self.alloc, &self.texts.documents, &params)
    }
}

impl Answers<FoldingRangeRequest> for TomlServer {
    ghost use Rattle.std.specs.Prelude.{string_bytes};
    ghost use Rattle.example_toml.specs.Replies.{FindsAt};

    ghost answers = { λ old params found new. FindsAt (string_bytes params.text_document.uri) old found new };

    fn answer(
        &mut self,
        params: FoldingRangeParams,
    ) -> Result<Option<Vec<FoldingRange>>, AllocError> {
        folding(self.alloc, &self.texts.documents, &params)
    }
}

impl Offers<CompletionRequest> for TomlServer {
    fn options(&self, alloc: Global) -> Result<CompletionOptions, AllocError> {
        let mut triggers = Vec::new(alloc);
        for character in [".", "=", "["] {
            triggers.push(String::from_str(alloc, character)?)?;
        }
        Ok(CompletionOptions {
            trigger_characters: Some(triggers),
            ..CompletionOptions::default()
        })
    }
}

impl Offers<SemanticTokensRequest> for TomlServer {
    fn options(&self, alloc: Global) -> Result<SemanticTokensOptions, AllocError> {
        Ok(SemanticTokensOptions {
            full: Some(SemanticTokensFullOptions { delta: Some(false) }),
            ..SemanticTokensOptions::new(token_legend(alloc)?)
        })
    }
}
