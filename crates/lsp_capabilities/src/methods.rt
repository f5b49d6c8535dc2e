// By which path of its capabilities a side announces a method, and by which registration (LSP 3.17, "Initialize Request" and "Register
// Capability").
ghost use Rattle.std.specs.Prelude.{◌≡◌, option_map};
ghost use Rattle.lsp_capabilities.specs.Methods as spec;

/// Returns the path in the server's capabilities by which the server announces a method.
pub fn provider(method: &str) -> Option<&'static str>
    ensures { option_map (λ s. s.now) result ≡ spec.provider method.now }
{
    place_provider(method)
        .or(symbol_provider(method))
        .or(edit_provider(method))
        .or(token_provider(method))
        .or(other_provider(method))
}

/// Returns the path for a method about a place in a document.
fn place_provider(method: &str) -> Option<&'static str>
    ensures { option_map (λ s. s.now) result ≡ spec.place_provider method.now }
{
    match method {
        "textDocument/hover" => Some("/hoverProvider"),
        "textDocument/definition" => Some("/definitionProvider"),
        "textDocument/declaration" => Some("/declarationProvider"),
        "textDocument/typeDefinition" => Some("/typeDefinitionProvider"),
        "textDocument/implementation" => Some("/implementationProvider"),
        _ => None,
    }
}

/// Returns the path for a method about uses of a name, or about a document's symbols and actions.
fn symbol_provider(method: &str) -> Option<&'static str>
    ensures { option_map (λ s. s.now) result ≡ spec.symbol_provider method.now }
{
    match method {
        "textDocument/references" => Some("/referencesProvider"),
        "textDocument/documentHighlight" => Some("/documentHighlightProvider"),
        "textDocument/documentSymbol" => Some("/documentSymbolProvider"),
        "textDocument/codeAction" => Some("/codeActionProvider"),
        "textDocument/codeLens" => Some("/codeLensProvider"),
        _ => None,
    }
}

/// Returns the path for a method about links, colours, edits and ranges.
fn edit_provider(method: &str) -> Option<&'static str>
    ensures { option_map (λ s. s.now) result ≡ spec.edit_provider method.now }
{
    match method {
        "textDocument/documentLink" => Some("/documentLinkProvider"),
        "textDocument/documentColor" => Some("/colorProvider"),
        "textDocument/formatting" => Some("/documentFormattingProvider"),
        "textDocument/rangeFormatting" => Some("/documentRangeFormattingProvider"),
        "textDocument/onTypeFormatting" => Some("/documentOnTypeFormattingProvider"),
        "textDocument/rename" => Some("/renameProvider"),
        "textDocument/foldingRange" => Some("/foldingRangeProvider"),
        "textDocument/selectionRange" => Some("/selectionRangeProvider"),
        "textDocument/completion" => Some("/completionProvider"),
        "textDocument/signatureHelp" => Some("/signatureHelpProvider"),
        _ => None,
    }
}

/// Returns the path for a method about hierarchies, values and the workspace.
fn other_provider(method: &str) -> Option<&'static str>
    ensures { option_map (λ s. s.now) result ≡ spec.other_provider method.now }
{
    match method {
        "textDocument/prepareCallHierarchy" => Some("/callHierarchyProvider"),
        "textDocument/prepareTypeHierarchy" => Some("/typeHierarchyProvider"),
        "textDocument/inlayHint" => Some("/inlayHintProvider"),
        "textDocument/inlineValue" => Some("/inlineValueProvider"),
        "textDocument/linkedEditingRange" => Some("/linkedEditingRangeProvider"),
        "textDocument/moniker" => Some("/monikerProvider"),
        "textDocument/diagnostic" => Some("/diagnosticProvider"),
        "workspace/symbol" => Some("/workspaceSymbolProvider"),
        "workspace/executeCommand" => Some("/executeCommandProvider"),
        _ => None,
    }
}

/// Returns the path for a method about semantic tokens: each request has a part of the options (LSP 3.17, "Semantic Tokens").
fn token_provider(method: &str) -> Option<&'static str>
    ensures { option_map (λ s. s.now) result ≡ spec.token_provider method.now }
{
    match method {
        "textDocument/semanticTokens/full" => Some("/semanticTokensProvider/full"),
        "textDocument/semanticTokens/full/delta" => Some("/semanticTokensProvider/full/delta"),
        "textDocument/semanticTokens/range" => Some("/semanticTokensProvider/range"),
        _ => None,
    }
}

/// Returns the method under which the server registers a method. Requests of semantic tokens have one together (LSP 3.17, "Semantic
/// Tokens").
pub fn registered_as(method: &str) -> &str
    ensures { result.now ≡ spec.registered_as method.now }
{
    match token_provider(method) {
        Some(_) => "textDocument/semanticTokens",
        None => method,
    }
}

/// Returns the path in a registration that the method needs there.
pub fn registered_option(method: &str) -> Option<&'static str>
    ensures { option_map (λ s. s.now) result ≡ spec.registered_option method.now }
{
    match method {
        "textDocument/semanticTokens/full" => Some("/registerOptions/full"),
        "textDocument/semanticTokens/full/delta" => Some("/registerOptions/full/delta"),
        "textDocument/semanticTokens/range" => Some("/registerOptions/range"),
        _ => None,
    }
}

/// Returns the path in the client's capabilities by which the client announces that it answers a request.
pub fn needed(method: &str) -> Option<&'static str>
    ensures { option_map (λ s. s.now) result ≡ spec.needed method.now }
{
    match method {
        "window/workDoneProgress/create" => Some("/window/workDoneProgress"),
        "window/showDocument" => Some("/window/showDocument/support"),
        "workspace/configuration" => Some("/workspace/configuration"),
        "workspace/workspaceFolders" => Some("/workspace/workspaceFolders"),
        "workspace/applyEdit" => Some("/workspace/applyEdit"),
        "workspace/semanticTokens/refresh" => Some("/workspace/semanticTokens/refreshSupport"),
        "workspace/codeLens/refresh" => Some("/workspace/codeLens/refreshSupport"),
        "workspace/inlayHint/refresh" => Some("/workspace/inlayHint/refreshSupport"),
        "workspace/inlineValue/refresh" => Some("/workspace/inlineValue/refreshSupport"),
        "workspace/diagnostic/refresh" => Some("/workspace/diagnostics/refreshSupport"),
        _ => None,
    }
}
