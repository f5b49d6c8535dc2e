// The methods that are announced by `true` (LSP 3.17, "ServerCapabilities").
// `tools/types` wrote this file from `features.txt`: change that.
ghost use Rattle.std.specs.Prelude.{◌≡◌, true, codes};
ghost use Rattle.serde_json.specs.Data.{boolean};

use crate::feature::Feature;
use lsp_types::methods::{
    DeclarationRequest, DefinitionRequest, DocumentFormattingRequest,
    DocumentRangeFormattingRequest, DocumentSymbolRequest, HoverRequest, ImplementationRequest,
    InlayHintRequest, ReferencesRequest, TypeDefinitionRequest, WorkspaceSymbolRequest,
};
use lsp_types_features::methods::{
    DocumentHighlightRequest, FoldingRangeRequest, InlineValueRequest, LinkedEditingRangeRequest,
    MonikerRequest, SelectionRangeRequest,
};
use serde_json::Value;
use std::alloc::{AllocError, Global};

impl<S> Feature<S> for DeclarationRequest {
    ghost member = { codes "declarationProvider" };

    ghost offers = { λ _ json. json ≡ boolean true };

    fn method() -> &'static str {
        DeclarationRequest::METHOD
    }

    fn member() -> &'static str {
        "declarationProvider"
    }

    fn offer(_server: &S, _alloc: Global) -> Result<Value, AllocError> {
        Ok(Value::Bool(true))
    }
}

impl<S> Feature<S> for DefinitionRequest {
    ghost member = { codes "definitionProvider" };

    ghost offers = { λ _ json. json ≡ boolean true };

    fn method() -> &'static str {
        DefinitionRequest::METHOD
    }

    fn member() -> &'static str {
        "definitionProvider"
    }

    fn offer(_server: &S, _alloc: Global) -> Result<Value, AllocError> {
        Ok(Value::Bool(true))
    }
}

impl<S> Feature<S> for TypeDefinitionRequest {
    ghost member = { codes "typeDefinitionProvider" };

    ghost offers = { λ _ json. json ≡ boolean true };

    fn method() -> &'static str {
        TypeDefinitionRequest::METHOD
    }

    fn member() -> &'static str {
        "typeDefinitionProvider"
    }

    fn offer(_server: &S, _alloc: Global) -> Result<Value, AllocError> {
        Ok(Value::Bool(true))
    }
}

impl<S> Feature<S> for ImplementationRequest {
    ghost member = { codes "implementationProvider" };

    ghost offers = { λ _ json. json ≡ boolean true };

    fn method() -> &'static str {
        ImplementationRequest::METHOD
    }

    fn member() -> &'static str {
        "implementationProvider"
    }

    fn offer(_server: &S, _alloc: Global) -> Result<Value, AllocError> {
        Ok(Value::Bool(true))
    }
}

impl<S> Feature<S> for ReferencesRequest {
    ghost member = { codes "referencesProvider" };

    ghost offers = { λ _ json. json ≡ boolean true };

    fn method() -> &'static str {
        ReferencesRequest::METHOD
    }

    fn member() -> &'static str {
        "referencesProvider"
    }

    fn offer(_server: &S, _alloc: Global) -> Result<Value, AllocError> {
        Ok(Value::Bool(true))
    }
}

impl<S> Feature<S> for HoverRequest {
    ghost member = { codes "hoverProvider" };

    ghost offers = { λ _ json. json ≡ boolean true };

    fn method() -> &'static str {
        HoverRequest::METHOD
    }

    fn member() -> &'static str {
        "hoverProvider"
    }

    fn offer(_server: &S, _alloc: Global) -> Result<Value, AllocError> {
        Ok(Value::Bool(true))
    }
}

impl<S> Feature<S> for DocumentSymbolRequest {
    ghost member = { codes "documentSymbolProvider" };

    ghost offers = { λ _ json. json ≡ boolean true };

    fn method() -> &'static str {
        DocumentSymbolRequest::METHOD
    }

    fn member() -> &'static str {
        "documentSymbolProvider"
    }

    fn offer(_server: &S, _alloc: Global) -> Result<Value, AllocError> {
        Ok(Value::Bool(true))
    }
}

impl<S> Feature<S> for InlayHintRequest {
    ghost member = { codes "inlayHintProvider" };

    ghost offers = { λ _ json. json ≡ boolean true };

    fn method() -> &'static str {
        InlayHintRequest::METHOD
    }

    fn member() -> &'static str {
        "inlayHintProvider"
    }

    fn offer(_server: &S, _alloc: Global) -> Result<Value, AllocError> {
        Ok(Value::Bool(true))
    }
}

impl<S> Feature<S> for DocumentFormattingRequest {
    ghost member = { codes "documentFormattingProvider" };

    ghost offers = { λ _ json. json ≡ boolean true };

    fn method() -> &'static str {
        DocumentFormattingRequest::METHOD
    }

    fn member() -> &'static str {
        "documentFormattingProvider"
    }

    fn offer(_server: &S, _alloc: Global) -> Result<Value, AllocError> {
        Ok(Value::Bool(true))
    }
}

impl<S> Feature<S> for DocumentRangeFormattingRequest {
    ghost member = { codes "documentRangeFormattingProvider" };

    ghost offers = { λ _ json. json ≡ boolean true };

    fn method() -> &'static str {
        DocumentRangeFormattingRequest::METHOD
    }

    fn member() -> &'static str {
        "documentRangeFormattingProvider"
    }

    fn offer(_server: &S, _alloc: Global) -> Result<Value, AllocError> {
        Ok(Value::Bool(true))
    }
}

impl<S> Feature<S> for WorkspaceSymbolRequest {
    ghost member = { codes "workspaceSymbolProvider" };

    ghost offers = { λ _ json. json ≡ boolean true };

    fn method() -> &'static str {
        WorkspaceSymbolRequest::METHOD
    }

    fn member() -> &'static str {
        "workspaceSymbolProvider"
    }

    fn offer(_server: &S, _alloc: Global) -> Result<Value, AllocError> {
        Ok(Value::Bool(true))
    }
}

impl<S> Feature<S> for DocumentHighlightRequest {
    ghost member = { codes "documentHighlightProvider" };

    ghost offers = { λ _ json. json ≡ boolean true };

    fn method() -> &'static str {
        DocumentHighlightRequest::METHOD
    }

    fn member() -> &'static str {
        "documentHighlightProvider"
    }

    fn offer(_server: &S, _alloc: Global) -> Result<Value, AllocError> {
        Ok(Value::Bool(true))
    }
}

impl<S> Feature<S> for FoldingRangeRequest {
    ghost member = { codes "foldingRangeProvider" };

    ghost offers = { λ _ json. json ≡ boolean true };

    fn method() -> &'static str {
        FoldingRangeRequest::METHOD
    }

    fn member() -> &'static str {
        "foldingRangeProvider"
    }

    fn offer(_server: &S, _alloc: Global) -> Result<Value, AllocError> {
        Ok(Value::Bool(true))
    }
}

impl<S> Feature<S> for SelectionRangeRequest {
    ghost member = { codes "selectionRangeProvider" };

    ghost offers = { λ _ json. json ≡ boolean true };

    fn method() -> &'static str {
        SelectionRangeRequest::METHOD
    }

    fn member() -> &'static str {
        "selectionRangeProvider"
    }

    fn offer(_server: &S, _alloc: Global) -> Result<Value, AllocError> {
        Ok(Value::Bool(true))
    }
}

impl<S> Feature<S> for LinkedEditingRangeRequest {
    ghost member = { codes "linkedEditingRangeProvider" };

    ghost offers = { λ _ json. json ≡ boolean true };

    fn method() -> &'static str {
        LinkedEditingRangeRequest::METHOD
    }

    fn member() -> &'static str {
        "linkedEditingRangeProvider"
    }

    fn offer(_server: &S, _alloc: Global) -> Result<Value, AllocError> {
        Ok(Value::Bool(true))
    }
}

impl<S> Feature<S> for MonikerRequest {
    ghost member = { codes "monikerProvider" };

    ghost offers = { λ _ json. json ≡ boolean true };

    fn method() -> &'static str {
        MonikerRequest::METHOD
    }

    fn member() -> &'static str {
        "monikerProvider"
    }

    fn offer(_server: &S, _alloc: Global) -> Result<Value, AllocError> {
        Ok(Value::Bool(true))
    }
}

impl<S> Feature<S> for InlineValueRequest {
    ghost member = { codes "inlineValueProvider" };

    ghost offers = { λ _ json. json ≡ boolean true };

    fn method() -> &'static str {
        InlineValueRequest::METHOD
    }

    fn member() -> &'static str {
        "inlineValueProvider"
    }

    fn offer(_server: &S, _alloc: Global) -> Result<Value, AllocError> {
        Ok(Value::Bool(true))
    }
}
