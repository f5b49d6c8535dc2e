//! The methods of LSP 3.17, each a type that knows its params and its result. `lsp_methods` has calls that take it.
// `tools/types` wrote this file from `types.txt`: change that.
ghost use Rattle.std.specs.Prelude.{codes};

use crate::actions::{CodeAction, CodeActionOrCommand, CodeActionParams};
use crate::completions::{CompletionItem, CompletionParams, CompletionResult};
use crate::diagnostics::PublishDiagnosticsParams;
use crate::directions::{
    NotificationToClient, NotificationToServer, RequestToClient, RequestToServer,
};
use crate::documents::{
    DeclarationParams, DefinitionParams, DefinitionResult, DidChangeTextDocumentParams,
    DidCloseTextDocumentParams, DidOpenTextDocumentParams, DidSaveTextDocumentParams,
    DocumentSymbolParams, HoverParams, ImplementationParams, InlayHintParams, Location,
    PrepareRenameParams, ReferenceParams, SemanticTokensParams, SemanticTokensRangeParams,
    TypeDefinitionParams, WillSaveTextDocumentParams,
};
use crate::edits::{
    DocumentFormattingParams, DocumentOnTypeFormattingParams, DocumentRangeFormattingParams,
    PrepareRenameResult, RenameParams, TextEdit, WorkspaceEdit,
};
use crate::hints::InlayHint;
use crate::hovers::Hover;
use crate::lifecycle::{
    CancelParams, InitializeParams, InitializeResult, LogTraceParams, RegistrationParams,
    SetTraceParams, UnregistrationParams,
};
use crate::progress::{ProgressParams, WorkDoneProgressCancelParams, WorkDoneProgressCreateParams};
use crate::semantic_tokens::SemanticTokens;
use crate::signatures::{SignatureHelp, SignatureHelpParams};
use crate::symbols::{DocumentSymbolResult, WorkspaceSymbol, WorkspaceSymbolParams};
use crate::window::{
    LogMessageParams, MessageActionItem, ShowDocumentParams, ShowDocumentResult, ShowMessageParams,
    ShowMessageRequestParams,
};
use crate::workspace::{
    ApplyWorkspaceEditParams, ApplyWorkspaceEditResult, ConfigurationParams,
    DidChangeConfigurationParams, DidChangeWatchedFilesParams, DidChangeWorkspaceFoldersParams,
    ExecuteCommandParams, WorkspaceFolder,
};
use serde_json::Value;

/// `initialize`, a request to the server. The handshake (LSP 3.17, "Initialize Request").
pub struct InitializeRequest;

impl InitializeRequest {
    /// The name of the method.
    pub const METHOD: &'static str = "initialize";
}

impl RequestToServer for InitializeRequest {
    type Params = InitializeParams;

    type Result = InitializeResult;

    ghost method = { codes "initialize" };
}

/// `initialized`, a notification to the server. The handshake is done (LSP 3.17, "Initialized Notification").
pub struct InitializedNotification;

impl InitializedNotification {
    /// The name of the method.
    pub const METHOD: &'static str = "initialized";
}

impl NotificationToServer for InitializedNotification {
    type Params = Value;

    ghost method = { codes "initialized" };
}

/// `shutdown`, a request to the server. The server is to end its work (LSP 3.17, "Shutdown Request").
pub struct ShutdownRequest;

impl ShutdownRequest {
    /// The name of the method.
    pub const METHOD: &'static str = "shutdown";
}

impl RequestToServer for ShutdownRequest {
    type Params = ();

    type Result = ();

    ghost method = { codes "shutdown" };
}

/// `exit`, a notification to the server. The server is to end (LSP 3.17, "Exit Notification").
pub struct ExitNotification;

impl ExitNotification {
    /// The name of the method.
    pub const METHOD: &'static str = "exit";
}

impl NotificationToServer for ExitNotification {
    type Params = ();

    ghost method = { codes "exit" };
}

/// `client/registerCapability`, a request to the client. What the server can do from now on (LSP 3.17, "Register
/// Capability").
pub struct RegistrationRequest;

impl RegistrationRequest {
    /// The name of the method.
    pub const METHOD: &'static str = "client/registerCapability";
}

impl RequestToClient for RegistrationRequest {
    type Params = RegistrationParams;

    type Result = ();

    ghost method = { codes "client/registerCapability" };

    fn method() -> &'static str {
        RegistrationRequest::METHOD
    }
}

/// `client/unregisterCapability`, a request to the client. What the server unregisters (LSP 3.17, "Unregister
/// Capability").
pub struct UnregistrationRequest;

impl UnregistrationRequest {
    /// The name of the method.
    pub const METHOD: &'static str = "client/unregisterCapability";
}

impl RequestToClient for UnregistrationRequest {
    type Params = UnregistrationParams;

    type Result = ();

    ghost method = { codes "client/unregisterCapability" };

    fn method() -> &'static str {
        UnregistrationRequest::METHOD
    }
}

/// `$/setTrace`, a notification to the server. How much trace the client wants (LSP 3.17, "SetTrace").
pub struct SetTraceNotification;

impl SetTraceNotification {
    /// The name of the method.
    pub const METHOD: &'static str = "$/setTrace";
}

impl NotificationToServer for SetTraceNotification {
    type Params = SetTraceParams;

    ghost method = { codes "$/setTrace" };
}

/// `$/logTrace`, a notification to the client. What the server does (LSP 3.17, "LogTrace").
pub struct LogTraceNotification;

impl LogTraceNotification {
    /// The name of the method.
    pub const METHOD: &'static str = "$/logTrace";
}

impl NotificationToClient for LogTraceNotification {
    type Params = LogTraceParams;

    ghost method = { codes "$/logTrace" };

    fn method() -> &'static str {
        LogTraceNotification::METHOD
    }
}

/// `$/cancelRequest`, a notification in both directions. A request is no longer needed (LSP 3.17, "Cancellation
/// Support").
pub struct CancelNotification;

impl CancelNotification {
    /// The name of the method.
    pub const METHOD: &'static str = "$/cancelRequest";
}

impl NotificationToServer for CancelNotification {
    type Params = CancelParams;

    ghost method = { codes "$/cancelRequest" };
}

impl NotificationToClient for CancelNotification {
    type Params = CancelParams;

    ghost method = { codes "$/cancelRequest" };

    fn method() -> &'static str {
        CancelNotification::METHOD
    }
}

/// `$/progress`, a notification to the client. The progress of work, or a part of a result (LSP 3.17, "Progress
/// Support").
pub struct ProgressNotification;

impl ProgressNotification {
    /// The name of the method.
    pub const METHOD: &'static str = "$/progress";
}

impl NotificationToClient for ProgressNotification {
    type Params = ProgressParams<Value>;

    ghost method = { codes "$/progress" };

    fn method() -> &'static str {
        ProgressNotification::METHOD
    }
}

/// `textDocument/didOpen`, a notification to the server. A document was opened (LSP 3.17, "DidOpenTextDocument
/// Notification").
pub struct DidOpenTextDocumentNotification;

impl DidOpenTextDocumentNotification {
    /// The name of the method.
    pub const METHOD: &'static str = "textDocument/didOpen";
}

impl NotificationToServer for DidOpenTextDocumentNotification {
    type Params = DidOpenTextDocumentParams;

    ghost method = { codes "textDocument/didOpen" };
}

/// `textDocument/didChange`, a notification to the server. A document was changed (LSP 3.17, "DidChangeTextDocument
/// Notification").
pub struct DidChangeTextDocumentNotification;

impl DidChangeTextDocumentNotification {
    /// The name of the method.
    pub const METHOD: &'static str = "textDocument/didChange";
}

impl NotificationToServer for DidChangeTextDocumentNotification {
    type Params = DidChangeTextDocumentParams;

    ghost method = { codes "textDocument/didChange" };
}

/// `textDocument/willSave`, a notification to the server. A document will be saved (LSP 3.17, "WillSaveTextDocument
/// Notification").
pub struct WillSaveTextDocumentNotification;

impl WillSaveTextDocumentNotification {
    /// The name of the method.
    pub const METHOD: &'static str = "textDocument/willSave";
}

impl NotificationToServer for WillSaveTextDocumentNotification {
    type Params = WillSaveTextDocumentParams;

    ghost method = { codes "textDocument/willSave" };
}

/// `textDocument/willSaveWaitUntil`, a request to the server. Changes to make before a document is saved (LSP 3.17,
/// "WillSaveWaitUntilTextDocument Request").
pub struct WillSaveTextDocumentWaitUntilRequest;

impl WillSaveTextDocumentWaitUntilRequest {
    /// The name of the method.
    pub const METHOD: &'static str = "textDocument/willSaveWaitUntil";
}

impl RequestToServer for WillSaveTextDocumentWaitUntilRequest {
    type Params = WillSaveTextDocumentParams;

    type Result = Option<Vec<TextEdit>>;

    ghost method = { codes "textDocument/willSaveWaitUntil" };
}

/// `textDocument/didSave`, a notification to the server. A document was saved (LSP 3.17, "DidSaveTextDocument
/// Notification").
pub struct DidSaveTextDocumentNotification;

impl DidSaveTextDocumentNotification {
    /// The name of the method.
    pub const METHOD: &'static str = "textDocument/didSave";
}

impl NotificationToServer for DidSaveTextDocumentNotification {
    type Params = DidSaveTextDocumentParams;

    ghost method = { codes "textDocument/didSave" };
}

/// `textDocument/didClose`, a notification to the server. A document was closed (LSP 3.17, "DidCloseTextDocument
/// Notification").
pub struct DidCloseTextDocumentNotification;

impl DidCloseTextDocumentNotification {
    /// The name of the method.
    pub const METHOD: &'static str = "textDocument/didClose";
}

impl NotificationToServer for DidCloseTextDocumentNotification {
    type Params = DidCloseTextDocumentParams;

    ghost method = { codes "textDocument/didClose" };
}

/// `textDocument/declaration`, a request to the server. Where a name is declared (LSP 3.17, "Goto Declaration
/// Request").
pub struct DeclarationRequest;

impl DeclarationRequest {
    /// The name of the method.
    pub const METHOD: &'static str = "textDocument/declaration";
}

impl RequestToServer for DeclarationRequest {
    type Params = DeclarationParams;

    type Result = Option<DefinitionResult>;

    ghost method = { codes "textDocument/declaration" };
}

/// `textDocument/definition`, a request to the server. Where a name is defined (LSP 3.17, "Goto Definition Request").
pub struct DefinitionRequest;

impl DefinitionRequest {
    /// The name of the method.
    pub const METHOD: &'static str = "textDocument/definition";
}

impl RequestToServer for DefinitionRequest {
    type Params = DefinitionParams;

    type Result = Option<DefinitionResult>;

    ghost method = { codes "textDocument/definition" };
}

/// `textDocument/typeDefinition`, a request to the server. Where the type of a name is defined (LSP 3.17, "Goto Type
/// Definition Request").
pub struct TypeDefinitionRequest;

impl TypeDefinitionRequest {
    /// The name of the method.
    pub const METHOD: &'static str = "textDocument/typeDefinition";
}

impl RequestToServer for TypeDefinitionRequest {
    type Params = TypeDefinitionParams;

    type Result = Option<DefinitionResult>;

    ghost method = { codes "textDocument/typeDefinition" };
}

/// `textDocument/implementation`, a request to the server. Where a name is implemented (LSP 3.17, "Goto Implementation
/// Request").
pub struct ImplementationRequest;

impl ImplementationRequest {
    /// The name of the method.
    pub const METHOD: &'static str = "textDocument/implementation";
}

impl RequestToServer for ImplementationRequest {
    type Params = ImplementationParams;

    type Result = Option<DefinitionResult>;

    ghost method = { codes "textDocument/implementation" };
}

/// `textDocument/references`, a request to the server. Where a name is used (LSP 3.17, "Find References Request").
pub struct ReferencesRequest;

impl ReferencesRequest {
    /// The name of the method.
    pub const METHOD: &'static str = "textDocument/references";
}

impl RequestToServer for ReferencesRequest {
    type Params = ReferenceParams;

    type Result = Option<Vec<Location>>;

    ghost method = { codes "textDocument/references" };
}

/// `textDocument/hover`, a request to the server. What is shown about a place (LSP 3.17, "Hover Request").
pub struct HoverRequest;

impl HoverRequest {
    /// The name of the method.
    pub const METHOD: &'static str = "textDocument/hover";
}

impl RequestToServer for HoverRequest {
    type Params = HoverParams;

    type Result = Option<Hover>;

    ghost method = { codes "textDocument/hover" };
}

/// `textDocument/documentSymbol`, a request to the server. The symbols of a document (LSP 3.17, "Document Symbols
/// Request").
pub struct DocumentSymbolRequest;

impl DocumentSymbolRequest {
    /// The name of the method.
    pub const METHOD: &'static str = "textDocument/documentSymbol";
}

impl RequestToServer for DocumentSymbolRequest {
    type Params = DocumentSymbolParams;

    type Result = Option<DocumentSymbolResult>;

    ghost method = { codes "textDocument/documentSymbol" };
}

/// `textDocument/semanticTokens/full`, a request to the server. The kind of each token of a document (LSP 3.17,
/// "Semantic Tokens").
pub struct SemanticTokensRequest;

impl SemanticTokensRequest {
    /// The name of the method.
    pub const METHOD: &'static str = "textDocument/semanticTokens/full";
}

impl RequestToServer for SemanticTokensRequest {
    type Params = SemanticTokensParams;

    type Result = Option<SemanticTokens>;

    ghost method = { codes "textDocument/semanticTokens/full" };
}

/// `textDocument/semanticTokens/range`, a request to the server. The kind of each token of a part of a document (LSP
/// 3.17, "Semantic Tokens").
pub struct SemanticTokensRangeRequest;

impl SemanticTokensRangeRequest {
    /// The name of the method.
    pub const METHOD: &'static str = "textDocument/semanticTokens/range";
}

impl RequestToServer for SemanticTokensRangeRequest {
    type Params = SemanticTokensRangeParams;

    type Result = Option<SemanticTokens>;

    ghost method = { codes "textDocument/semanticTokens/range" };
}

/// `workspace/semanticTokens/refresh`, a request to the client. The client is to request semantic tokens again (LSP
/// 3.17, "Semantic Tokens").
pub struct SemanticTokensRefreshRequest;

impl SemanticTokensRefreshRequest {
    /// The name of the method.
    pub const METHOD: &'static str = "workspace/semanticTokens/refresh";
}

impl RequestToClient for SemanticTokensRefreshRequest {
    type Params = ();

    type Result = ();

    ghost method = { codes "workspace/semanticTokens/refresh" };

    fn method() -> &'static str {
        SemanticTokensRefreshRequest::METHOD
    }
}

/// `textDocument/inlayHint`, a request to the server. What is shown between the characters of a part (LSP 3.17, "Inlay
/// Hint Request").
pub struct InlayHintRequest;

impl InlayHintRequest {
    /// The name of the method.
    pub const METHOD: &'static str = "textDocument/inlayHint";
}

impl RequestToServer for InlayHintRequest {
    type Params = InlayHintParams;

    type Result = Option<Vec<InlayHint>>;

    ghost method = { codes "textDocument/inlayHint" };
}

/// `inlayHint/resolve`, a request to the server. The same hint, with more (LSP 3.17, "Inlay Hint Resolve Request").
pub struct InlayHintResolveRequest;

impl InlayHintResolveRequest {
    /// The name of the method.
    pub const METHOD: &'static str = "inlayHint/resolve";
}

impl RequestToServer for InlayHintResolveRequest {
    type Params = InlayHint;

    type Result = InlayHint;

    ghost method = { codes "inlayHint/resolve" };
}

/// `workspace/inlayHint/refresh`, a request to the client. The client is to request hints again (LSP 3.17, "Inlay Hint
/// Refresh Request").
pub struct InlayHintRefreshRequest;

impl InlayHintRefreshRequest {
    /// The name of the method.
    pub const METHOD: &'static str = "workspace/inlayHint/refresh";
}

impl RequestToClient for InlayHintRefreshRequest {
    type Params = ();

    type Result = ();

    ghost method = { codes "workspace/inlayHint/refresh" };

    fn method() -> &'static str {
        InlayHintRefreshRequest::METHOD
    }
}

/// `textDocument/completion`, a request to the server. What may be typed at a place (LSP 3.17, "Completion Request").
pub struct CompletionRequest;

impl CompletionRequest {
    /// The name of the method.
    pub const METHOD: &'static str = "textDocument/completion";
}

impl RequestToServer for CompletionRequest {
    type Params = CompletionParams;

    type Result = Option<CompletionResult>;

    ghost method = { codes "textDocument/completion" };
}

/// `completionItem/resolve`, a request to the server. The same completion, with more (LSP 3.17, "Completion Item
/// Resolve Request").
pub struct CompletionResolveRequest;

impl CompletionResolveRequest {
    /// The name of the method.
    pub const METHOD: &'static str = "completionItem/resolve";
}

impl RequestToServer for CompletionResolveRequest {
    type Params = CompletionItem;

    type Result = CompletionItem;

    ghost method = { codes "completionItem/resolve" };
}

/// `textDocument/publishDiagnostics`, a notification to the client. What is wrong with a document (LSP 3.17,
/// "PublishDiagnostics Notification").
pub struct PublishDiagnosticsNotification;

impl PublishDiagnosticsNotification {
    /// The name of the method.
    pub const METHOD: &'static str = "textDocument/publishDiagnostics";
}

impl NotificationToClient for PublishDiagnosticsNotification {
    type Params = PublishDiagnosticsParams;

    ghost method = { codes "textDocument/publishDiagnostics" };

    fn method() -> &'static str {
        PublishDiagnosticsNotification::METHOD
    }
}

/// `textDocument/signatureHelp`, a request to the server. What a call takes (LSP 3.17, "Signature Help Request").
pub struct SignatureHelpRequest;

impl SignatureHelpRequest {
    /// The name of the method.
    pub const METHOD: &'static str = "textDocument/signatureHelp";
}

impl RequestToServer for SignatureHelpRequest {
    type Params = SignatureHelpParams;

    type Result = Option<SignatureHelp>;

    ghost method = { codes "textDocument/signatureHelp" };
}

/// `textDocument/codeAction`, a request to the server. The changes that a user may choose (LSP 3.17, "Code Action
/// Request").
pub struct CodeActionRequest;

impl CodeActionRequest {
    /// The name of the method.
    pub const METHOD: &'static str = "textDocument/codeAction";
}

impl RequestToServer for CodeActionRequest {
    type Params = CodeActionParams;

    type Result = Option<Vec<CodeActionOrCommand>>;

    ghost method = { codes "textDocument/codeAction" };
}

/// `codeAction/resolve`, a request to the server. The same change, with more (LSP 3.17, "Code Action Resolve Request").
pub struct CodeActionResolveRequest;

impl CodeActionResolveRequest {
    /// The name of the method.
    pub const METHOD: &'static str = "codeAction/resolve";
}

impl RequestToServer for CodeActionResolveRequest {
    type Params = CodeAction;

    type Result = CodeAction;

    ghost method = { codes "codeAction/resolve" };
}

/// `textDocument/formatting`, a request to the server. Changes that format a document (LSP 3.17, "Document Formatting
/// Request").
pub struct DocumentFormattingRequest;

impl DocumentFormattingRequest {
    /// The name of the method.
    pub const METHOD: &'static str = "textDocument/formatting";
}

impl RequestToServer for DocumentFormattingRequest {
    type Params = DocumentFormattingParams;

    type Result = Option<Vec<TextEdit>>;

    ghost method = { codes "textDocument/formatting" };
}

/// `textDocument/rangeFormatting`, a request to the server. Changes that format a part of a document (LSP 3.17,
/// "Document Range Formatting Request").
pub struct DocumentRangeFormattingRequest;

impl DocumentRangeFormattingRequest {
    /// The name of the method.
    pub const METHOD: &'static str = "textDocument/rangeFormatting";
}

impl RequestToServer for DocumentRangeFormattingRequest {
    type Params = DocumentRangeFormattingParams;

    type Result = Option<Vec<TextEdit>>;

    ghost method = { codes "textDocument/rangeFormatting" };
}

/// `textDocument/onTypeFormatting`, a request to the server. Changes that format what was typed (LSP 3.17, "Document on
/// Type Formatting Request").
pub struct DocumentOnTypeFormattingRequest;

impl DocumentOnTypeFormattingRequest {
    /// The name of the method.
    pub const METHOD: &'static str = "textDocument/onTypeFormatting";
}

impl RequestToServer for DocumentOnTypeFormattingRequest {
    type Params = DocumentOnTypeFormattingParams;

    type Result = Option<Vec<TextEdit>>;

    ghost method = { codes "textDocument/onTypeFormatting" };
}

/// `textDocument/rename`, a request to the server. Changes that rename the symbol at a place (LSP 3.17, "Rename
/// Request").
pub struct RenameRequest;

impl RenameRequest {
    /// The name of the method.
    pub const METHOD: &'static str = "textDocument/rename";
}

impl RequestToServer for RenameRequest {
    type Params = RenameParams;

    type Result = Option<WorkspaceEdit>;

    ghost method = { codes "textDocument/rename" };
}

/// `textDocument/prepareRename`, a request to the server. What would be renamed (LSP 3.17, "Prepare Rename Request").
pub struct PrepareRenameRequest;

impl PrepareRenameRequest {
    /// The name of the method.
    pub const METHOD: &'static str = "textDocument/prepareRename";
}

impl RequestToServer for PrepareRenameRequest {
    type Params = PrepareRenameParams;

    type Result = Option<PrepareRenameResult>;

    ghost method = { codes "textDocument/prepareRename" };
}

/// `workspace/symbol`, a request to the server. The symbols of a workspace (LSP 3.17, "Workspace Symbols Request").
pub struct WorkspaceSymbolRequest;

impl WorkspaceSymbolRequest {
    /// The name of the method.
    pub const METHOD: &'static str = "workspace/symbol";
}

impl RequestToServer for WorkspaceSymbolRequest {
    type Params = WorkspaceSymbolParams;

    type Result = Option<Vec<WorkspaceSymbol>>;

    ghost method = { codes "workspace/symbol" };
}

/// `workspaceSymbol/resolve`, a request to the server. The same symbol, with more (LSP 3.17, "Workspace Symbol Resolve
/// Request").
pub struct WorkspaceSymbolResolveRequest;

impl WorkspaceSymbolResolveRequest {
    /// The name of the method.
    pub const METHOD: &'static str = "workspaceSymbol/resolve";
}

impl RequestToServer for WorkspaceSymbolResolveRequest {
    type Params = WorkspaceSymbol;

    type Result = WorkspaceSymbol;

    ghost method = { codes "workspaceSymbol/resolve" };
}

/// `workspace/configuration`, a request to the client. What the user set (LSP 3.17, "Configuration Request").
pub struct ConfigurationRequest;

impl ConfigurationRequest {
    /// The name of the method.
    pub const METHOD: &'static str = "workspace/configuration";
}

impl RequestToClient for ConfigurationRequest {
    type Params = ConfigurationParams;

    type Result = Vec<Value>;

    ghost method = { codes "workspace/configuration" };

    fn method() -> &'static str {
        ConfigurationRequest::METHOD
    }
}

/// `workspace/didChangeConfiguration`, a notification to the server. The user set something (LSP 3.17,
/// "DidChangeConfiguration Notification").
pub struct DidChangeConfigurationNotification;

impl DidChangeConfigurationNotification {
    /// The name of the method.
    pub const METHOD: &'static str = "workspace/didChangeConfiguration";
}

impl NotificationToServer for DidChangeConfigurationNotification {
    type Params = DidChangeConfigurationParams;

    ghost method = { codes "workspace/didChangeConfiguration" };
}

/// `workspace/workspaceFolders`, a request to the client. The folders that are open (LSP 3.17, "Workspace folders
/// request").
pub struct WorkspaceFoldersRequest;

impl WorkspaceFoldersRequest {
    /// The name of the method.
    pub const METHOD: &'static str = "workspace/workspaceFolders";
}

impl RequestToClient for WorkspaceFoldersRequest {
    type Params = ();

    type Result = Option<Vec<WorkspaceFolder>>;

    ghost method = { codes "workspace/workspaceFolders" };

    fn method() -> &'static str {
        WorkspaceFoldersRequest::METHOD
    }
}

/// `workspace/didChangeWorkspaceFolders`, a notification to the server. Folders were opened or closed (LSP 3.17,
/// "DidChangeWorkspaceFolders Notification").
pub struct DidChangeWorkspaceFoldersNotification;

impl DidChangeWorkspaceFoldersNotification {
    /// The name of the method.
    pub const METHOD: &'static str = "workspace/didChangeWorkspaceFolders";
}

impl NotificationToServer for DidChangeWorkspaceFoldersNotification {
    type Params = DidChangeWorkspaceFoldersParams;

    ghost method = { codes "workspace/didChangeWorkspaceFolders" };
}

/// `workspace/didChangeWatchedFiles`, a notification to the server. Files were created, changed or deleted (LSP 3.17,
/// "DidChangeWatchedFiles Notification").
pub struct DidChangeWatchedFilesNotification;

impl DidChangeWatchedFilesNotification {
    /// The name of the method.
    pub const METHOD: &'static str = "workspace/didChangeWatchedFiles";
}

impl NotificationToServer for DidChangeWatchedFilesNotification {
    type Params = DidChangeWatchedFilesParams;

    ghost method = { codes "workspace/didChangeWatchedFiles" };
}

/// `workspace/executeCommand`, a request to the server. Runs a command (LSP 3.17, "Execute a command").
pub struct ExecuteCommandRequest;

impl ExecuteCommandRequest {
    /// The name of the method.
    pub const METHOD: &'static str = "workspace/executeCommand";
}

impl RequestToServer for ExecuteCommandRequest {
    type Params = ExecuteCommandParams;

    type Result = Value;

    ghost method = { codes "workspace/executeCommand" };
}

/// `workspace/applyEdit`, a request to the client. Changes to make (LSP 3.17, "Applies a WorkspaceEdit").
pub struct ApplyWorkspaceEditRequest;

impl ApplyWorkspaceEditRequest {
    /// The name of the method.
    pub const METHOD: &'static str = "workspace/applyEdit";
}

impl RequestToClient for ApplyWorkspaceEditRequest {
    type Params = ApplyWorkspaceEditParams;

    type Result = ApplyWorkspaceEditResult;

    ghost method = { codes "workspace/applyEdit" };

    fn method() -> &'static str {
        ApplyWorkspaceEditRequest::METHOD
    }
}

/// `window/showMessage`, a notification to the client. A text to show (LSP 3.17, "ShowMessage Notification").
pub struct ShowMessageNotification;

impl ShowMessageNotification {
    /// The name of the method.
    pub const METHOD: &'static str = "window/showMessage";
}

impl NotificationToClient for ShowMessageNotification {
    type Params = ShowMessageParams;

    ghost method = { codes "window/showMessage" };

    fn method() -> &'static str {
        ShowMessageNotification::METHOD
    }
}

/// `window/showMessageRequest`, a request to the client. A text to show, with a choice (LSP 3.17, "ShowMessage
/// Request").
pub struct ShowMessageRequest;

impl ShowMessageRequest {
    /// The name of the method.
    pub const METHOD: &'static str = "window/showMessageRequest";
}

impl RequestToClient for ShowMessageRequest {
    type Params = ShowMessageRequestParams;

    type Result = Option<MessageActionItem>;

    ghost method = { codes "window/showMessageRequest" };

    fn method() -> &'static str {
        ShowMessageRequest::METHOD
    }
}

/// `window/showDocument`, a request to the client. A document to show (LSP 3.17, "Show Document Request").
pub struct ShowDocumentRequest;

impl ShowDocumentRequest {
    /// The name of the method.
    pub const METHOD: &'static str = "window/showDocument";
}

impl RequestToClient for ShowDocumentRequest {
    type Params = ShowDocumentParams;

    type Result = ShowDocumentResult;

    ghost method = { codes "window/showDocument" };

    fn method() -> &'static str {
        ShowDocumentRequest::METHOD
    }
}

/// `window/logMessage`, a notification to the client. A line of the log (LSP 3.17, "LogMessage Notification").
pub struct LogMessageNotification;

impl LogMessageNotification {
    /// The name of the method.
    pub const METHOD: &'static str = "window/logMessage";
}

impl NotificationToClient for LogMessageNotification {
    type Params = LogMessageParams;

    ghost method = { codes "window/logMessage" };

    fn method() -> &'static str {
        LogMessageNotification::METHOD
    }
}

/// `window/workDoneProgress/create`, a request to the client. Begins to show the progress of work (LSP 3.17, "Creating
/// Work Done Progress").
pub struct WorkDoneProgressCreateRequest;

impl WorkDoneProgressCreateRequest {
    /// The name of the method.
    pub const METHOD: &'static str = "window/workDoneProgress/create";
}

impl RequestToClient for WorkDoneProgressCreateRequest {
    type Params = WorkDoneProgressCreateParams;

    type Result = ();

    ghost method = { codes "window/workDoneProgress/create" };

    fn method() -> &'static str {
        WorkDoneProgressCreateRequest::METHOD
    }
}

/// `window/workDoneProgress/cancel`, a notification to the server. The user cancels work (LSP 3.17, "Canceling a Work
/// Done Progress").
pub struct WorkDoneProgressCancelNotification;

impl WorkDoneProgressCancelNotification {
    /// The name of the method.
    pub const METHOD: &'static str = "window/workDoneProgress/cancel";
}

impl NotificationToServer for WorkDoneProgressCancelNotification {
    type Params = WorkDoneProgressCancelParams;

    ghost method = { codes "window/workDoneProgress/cancel" };
}

/// `telemetry/event`, a notification to the client. Telemetry of the server: an object or a list (LSP 3.17, "Telemetry
/// Notification").
pub struct TelemetryEventNotification;

impl TelemetryEventNotification {
    /// The name of the method.
    pub const METHOD: &'static str = "telemetry/event";
}

impl NotificationToClient for TelemetryEventNotification {
    type Params = Value;

    ghost method = { codes "telemetry/event" };

    fn method() -> &'static str {
        TelemetryEventNotification::METHOD
    }
}
