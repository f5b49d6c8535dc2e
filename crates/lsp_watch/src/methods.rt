// The methods of LSP 3.17: which are requests, and which notifications.
ghost use Rattle.std.specs.Prelude.{◌≡◌};
ghost use Rattle.lsp_watch.specs.Methods as spec;

/// Whether LSP has a request of this method.
pub fn is_request(method: &str) -> bool
    ensures { result ≡ spec.is_request method.now }
{
    is_lifecycle_request(method)
        || is_window_request(method)
        || is_workspace_request(method)
        || is_part_request(method)
        || is_document_request(method)
        || is_later_document_request(method)
        || is_last_document_request(method)
}

/// A request of the lifecycle.
fn is_lifecycle_request(method: &str) -> bool
    ensures { result ≡ spec.is_lifecycle_request method.now }
{
    method == "initialize" || method == "shutdown"
}

/// A request about windows and capabilities.
fn is_window_request(method: &str) -> bool
    ensures { result ≡ spec.is_window_request method.now }
{
    method == "client/registerCapability"
        || method == "client/unregisterCapability"
        || method == "window/showDocument"
        || method == "window/showMessageRequest"
        || method == "window/workDoneProgress/create"
}

/// A request about the workspace.
fn is_workspace_request(method: &str) -> bool
    ensures { result ≡ spec.is_workspace_request method.now }
{
    method == "workspace/applyEdit"
        || method == "workspace/codeLens/refresh"
        || method == "workspace/configuration"
        || method == "workspace/diagnostic"
        || method == "workspace/diagnostic/refresh"
        || method == "workspace/executeCommand"
        || method == "workspace/inlayHint/refresh"
        || method == "workspace/inlineValue/refresh"
        || method == "workspace/semanticTokens/refresh"
        || method == "workspace/symbol"
        || method == "workspace/willCreateFiles"
        || method == "workspace/willDeleteFiles"
        || method == "workspace/willRenameFiles"
        || method == "workspace/workspaceFolders"
}

/// A request about a part of an earlier result.
fn is_part_request(method: &str) -> bool
    ensures { result ≡ spec.is_part_request method.now }
{
    method == "callHierarchy/incomingCalls"
        || method == "callHierarchy/outgoingCalls"
        || method == "codeAction/resolve"
        || method == "codeLens/resolve"
        || method == "completionItem/resolve"
        || method == "documentLink/resolve"
        || method == "inlayHint/resolve"
        || method == "typeHierarchy/subtypes"
        || method == "typeHierarchy/supertypes"
        || method == "workspaceSymbol/resolve"
}

/// A request about a document, from `codeAction` to `documentSymbol`.
fn is_document_request(method: &str) -> bool
    ensures { result ≡ spec.is_document_request method.now }
{
    method == "textDocument/codeAction"
        || method == "textDocument/codeLens"
        || method == "textDocument/colorPresentation"
        || method == "textDocument/completion"
        || method == "textDocument/declaration"
        || method == "textDocument/definition"
        || method == "textDocument/diagnostic"
        || method == "textDocument/documentColor"
        || method == "textDocument/documentHighlight"
        || method == "textDocument/documentLink"
        || method == "textDocument/documentSymbol"
}

/// A request about a document, from `foldingRange` to `prepareRename`.
fn is_later_document_request(method: &str) -> bool
    ensures { result ≡ spec.is_later_document_request method.now }
{
    method == "textDocument/foldingRange"
        || method == "textDocument/formatting"
        || method == "textDocument/hover"
        || method == "textDocument/implementation"
        || method == "textDocument/inlayHint"
        || method == "textDocument/inlineValue"
        || method == "textDocument/linkedEditingRange"
        || method == "textDocument/moniker"
        || method == "textDocument/onTypeFormatting"
        || method == "textDocument/prepareCallHierarchy"
        || method == "textDocument/prepareRename"
}

/// A request about a document, from `prepareTypeHierarchy` to `willSaveWaitUntil`.
fn is_last_document_request(method: &str) -> bool
    ensures { result ≡ spec.is_last_document_request method.now }
{
    method == "textDocument/prepareTypeHierarchy"
        || method == "textDocument/rangeFormatting"
        || method == "textDocument/references"
        || method == "textDocument/rename"
        || method == "textDocument/selectionRange"
        || method == "textDocument/semanticTokens/full"
        || method == "textDocument/semanticTokens/full/delta"
        || method == "textDocument/semanticTokens/range"
        || method == "textDocument/signatureHelp"
        || method == "textDocument/typeDefinition"
        || method == "textDocument/willSaveWaitUntil"
}

/// Whether LSP has a notification of this method.
pub fn is_notification(method: &str) -> bool
    ensures { result ≡ spec.is_notification method.now }
{
    is_lifecycle_notification(method)
        || is_document_notification(method)
        || is_other_notification(method)
}

/// A notification of the lifecycle, or of any method.
fn is_lifecycle_notification(method: &str) -> bool
    ensures { result ≡ spec.is_lifecycle_notification method.now }
{
    method == "$/cancelRequest"
        || method == "$/logTrace"
        || method == "$/progress"
        || method == "$/setTrace"
        || method == "exit"
        || method == "initialized"
}

/// A notification about a document.
fn is_document_notification(method: &str) -> bool
    ensures { result ≡ spec.is_document_notification method.now }
{
    method == "notebookDocument/didChange"
        || method == "notebookDocument/didClose"
        || method == "notebookDocument/didOpen"
        || method == "notebookDocument/didSave"
        || method == "textDocument/didChange"
        || method == "textDocument/didClose"
        || method == "textDocument/didOpen"
        || method == "textDocument/didSave"
        || method == "textDocument/publishDiagnostics"
        || method == "textDocument/willSave"
}

/// A notification about windows and the workspace.
fn is_other_notification(method: &str) -> bool
    ensures { result ≡ spec.is_other_notification method.now }
{
    method == "telemetry/event"
        || method == "window/logMessage"
        || method == "window/showMessage"
        || method == "window/workDoneProgress/cancel"
        || method == "workspace/didChangeConfiguration"
        || method == "workspace/didChangeWatchedFiles"
        || method == "workspace/didChangeWorkspaceFolders"
        || method == "workspace/didCreateFiles"
        || method == "workspace/didDeleteFiles"
        || method == "workspace/didRenameFiles"
}
