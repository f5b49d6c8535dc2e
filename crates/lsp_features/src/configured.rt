// The methods that are announced with options (LSP 3.17, "ServerCapabilities").
// `tools/types` wrote this file from `features.txt`: change that.
ghost use Rattle.std.specs.Prelude.{codes};
ghost use Rattle.lsp_features.specs.Features.{IsOption};

use crate::feature::{Feature, HasOptions, Offers, options_of};
use lsp_types::methods::{
    CodeActionRequest, CompletionRequest, DocumentOnTypeFormattingRequest, ExecuteCommandRequest,
    RenameRequest, SemanticTokensRequest, SignatureHelpRequest,
};
use lsp_types::{
    CodeActionOptions, CodeLensOptions, CompletionOptions, DiagnosticOptions, DocumentLinkOptions,
    DocumentOnTypeFormattingOptions, ExecuteCommandOptions, RenameOptions, SemanticTokensOptions,
    SignatureHelpOptions, ToJson,
};
use lsp_types_features::methods::{
    CodeLensRequest, DocumentDiagnosticRequest, DocumentLinkRequest,
};
use serde_json::Value;
use std::alloc::{AllocError, Global};

impl HasOptions for SemanticTokensRequest {
    type Options = SemanticTokensOptions;
}

impl<S: Offers<SemanticTokensRequest>> Feature<S> for SemanticTokensRequest {
    ghost member = { codes "semanticTokensProvider" };

    ghost offers = { λ server json.
        IsOption (S.options server) ⟦<SemanticTokensOptions as ToJson>⟧.stands json };

    fn method() -> &'static str {
        SemanticTokensRequest::METHOD
    }

    fn member() -> &'static str {
        "semanticTokensProvider"
    }

    fn offer(server: &S, alloc: Global) -> Result<Value, AllocError> {
        options_of::<SemanticTokensRequest, S>(server, alloc)
    }
}

impl HasOptions for CompletionRequest {
    type Options = CompletionOptions;
}

impl<S: Offers<CompletionRequest>> Feature<S> for CompletionRequest {
    ghost member = { codes "completionProvider" };

    ghost offers = { λ server json.
        IsOption (S.options server) ⟦<CompletionOptions as ToJson>⟧.stands json };

    fn method() -> &'static str {
        CompletionRequest::METHOD
    }

    fn member() -> &'static str {
        "completionProvider"
    }

    fn offer(server: &S, alloc: Global) -> Result<Value, AllocError> {
        options_of::<CompletionRequest, S>(server, alloc)
    }
}

impl HasOptions for SignatureHelpRequest {
    type Options = SignatureHelpOptions;
}

impl<S: Offers<SignatureHelpRequest>> Feature<S> for SignatureHelpRequest {
    ghost member = { codes "signatureHelpProvider" };

    ghost offers = { λ server json.
        IsOption (S.options server) ⟦<SignatureHelpOptions as ToJson>⟧.stands json };

    fn method() -> &'static str {
        SignatureHelpRequest::METHOD
    }

    fn member() -> &'static str {
        "signatureHelpProvider"
    }

    fn offer(server: &S, alloc: Global) -> Result<Value, AllocError> {
        options_of::<SignatureHelpRequest, S>(server, alloc)
    }
}

impl HasOptions for CodeActionRequest {
    type Options = CodeActionOptions;
}

impl<S: Offers<CodeActionRequest>> Feature<S> for CodeActionRequest {
    ghost member = { codes "codeActionProvider" };

    ghost offers = { λ server json.
        IsOption (S.options server) ⟦<CodeActionOptions as ToJson>⟧.stands json };

    fn method() -> &'static str {
        CodeActionRequest::METHOD
    }

    fn member() -> &'static str {
        "codeActionProvider"
    }

    fn offer(server: &S, alloc: Global) -> Result<Value, AllocError> {
        options_of::<CodeActionRequest, S>(server, alloc)
    }
}

impl HasOptions for DocumentOnTypeFormattingRequest {
    type Options = DocumentOnTypeFormattingOptions;
}

impl<S: Offers<DocumentOnTypeFormattingRequest>> Feature<S> for DocumentOnTypeFormattingRequest {
    ghost member = { codes "documentOnTypeFormattingProvider" };

    ghost offers = { λ server json.
        IsOption (S.options server) ⟦<DocumentOnTypeFormattingOptions as ToJson>⟧.stands json };

    fn method() -> &'static str {
        DocumentOnTypeFormattingRequest::METHOD
    }

    fn member() -> &'static str {
        "documentOnTypeFormattingProvider"
    }

    fn offer(server: &S, alloc: Global) -> Result<Value, AllocError> {
        options_of::<DocumentOnTypeFormattingRequest, S>(server, alloc)
    }
}

impl HasOptions for RenameRequest {
    type Options = RenameOptions;
}

impl<S: Offers<RenameRequest>> Feature<S> for RenameRequest {
    ghost member = { codes "renameProvider" };

    ghost offers = { λ server json.
        IsOption (S.options server) ⟦<RenameOptions as ToJson>⟧.stands json };

    fn method() -> &'static str {
        RenameRequest::METHOD
    }

    fn member() -> &'static str {
        "renameProvider"
    }

    fn offer(server: &S, alloc: Global) -> Result<Value, AllocError> {
        options_of::<RenameRequest, S>(server, alloc)
    }
}

impl HasOptions for ExecuteCommandRequest {
    type Options = ExecuteCommandOptions;
}

impl<S: Offers<ExecuteCommandRequest>> Feature<S> for ExecuteCommandRequest {
    ghost member = { codes "executeCommandProvider" };

    ghost offers = { λ server json.
        IsOption (S.options server) ⟦<ExecuteCommandOptions as ToJson>⟧.stands json };

    fn method() -> &'static str {
        ExecuteCommandRequest::METHOD
    }

    fn member() -> &'static str {
        "executeCommandProvider"
    }

    fn offer(server: &S, alloc: Global) -> Result<Value, AllocError> {
        options_of::<ExecuteCommandRequest, S>(server, alloc)
    }
}

impl HasOptions for CodeLensRequest {
    type Options = CodeLensOptions;
}

impl<S: Offers<CodeLensRequest>> Feature<S> for CodeLensRequest {
    ghost member = { codes "codeLensProvider" };

    ghost offers = { λ server json.
        IsOption (S.options server) ⟦<CodeLensOptions as ToJson>⟧.stands json };

    fn method() -> &'static str {
        CodeLensRequest::METHOD
    }

    fn member() -> &'static str {
        "codeLensProvider"
    }

    fn offer(server: &S, alloc: Global) -> Result<Value, AllocError> {
        options_of::<CodeLensRequest, S>(server, alloc)
    }
}

impl HasOptions for DocumentLinkRequest {
    type Options = DocumentLinkOptions;
}

impl<S: Offers<DocumentLinkRequest>> Feature<S> for DocumentLinkRequest {
    ghost member = { codes "documentLinkProvider" };

    ghost offers = { λ server json.
        IsOption (S.options server) ⟦<DocumentLinkOptions as ToJson>⟧.stands json };

    fn method() -> &'static str {
        DocumentLinkRequest::METHOD
    }

    fn member() -> &'static str {
        "documentLinkProvider"
    }

    fn offer(server: &S, alloc: Global) -> Result<Value, AllocError> {
        options_of::<DocumentLinkRequest, S>(server, alloc)
    }
}

impl HasOptions for DocumentDiagnosticRequest {
    type Options = DiagnosticOptions;
}

impl<S: Offers<DocumentDiagnosticRequest>> Feature<S> for DocumentDiagnosticRequest {
    ghost member = { codes "diagnosticProvider" };

    ghost offers = { λ server json.
        IsOption (S.options server) ⟦<DiagnosticOptions as ToJson>⟧.stands json };

    fn method() -> &'static str {
        DocumentDiagnosticRequest::METHOD
    }

    fn member() -> &'static str {
        "diagnosticProvider"
    }

    fn offer(server: &S, alloc: Global) -> Result<Value, AllocError> {
        options_of::<DocumentDiagnosticRequest, S>(server, alloc)
    }
}
