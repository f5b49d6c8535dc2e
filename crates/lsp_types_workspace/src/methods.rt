//! The methods of LSP 3.17 for these, each a type that knows its params and its result.
// `tools/types` wrote this file from `types.txt`: change that.
ghost use Rattle.std.specs.Prelude.{codes};

use crate::files::{CreateFilesParams, DeleteFilesParams, RenameFilesParams};
use crate::notebooks::{
    DidChangeNotebookDocumentParams, DidCloseNotebookDocumentParams, DidOpenNotebookDocumentParams,
    DidSaveNotebookDocumentParams,
};
use lsp_types::{NotificationToServer, RequestToServer, WorkspaceEdit};

/// `workspace/willCreateFiles`, a request to the server. Changes to make before files are created (LSP 3.17,
/// "WillCreateFiles Request").
pub struct WillCreateFilesRequest;

impl WillCreateFilesRequest {
    /// The name of the method.
    pub const METHOD: &'static str = "workspace/willCreateFiles";
}

impl RequestToServer for WillCreateFilesRequest {
    type Params = CreateFilesParams;

    type Result = Option<WorkspaceEdit>;

    ghost method = { codes "workspace/willCreateFiles" };
}

/// `workspace/willRenameFiles`, a request to the server. Changes to make before files are renamed (LSP 3.17,
/// "WillRenameFiles Request").
pub struct WillRenameFilesRequest;

impl WillRenameFilesRequest {
    /// The name of the method.
    pub const METHOD: &'static str = "workspace/willRenameFiles";
}

impl RequestToServer for WillRenameFilesRequest {
    type Params = RenameFilesParams;

    type Result = Option<WorkspaceEdit>;

    ghost method = { codes "workspace/willRenameFiles" };
}

/// `workspace/willDeleteFiles`, a request to the server. Changes to make before files are deleted (LSP 3.17,
/// "WillDeleteFiles Request").
pub struct WillDeleteFilesRequest;

impl WillDeleteFilesRequest {
    /// The name of the method.
    pub const METHOD: &'static str = "workspace/willDeleteFiles";
}

impl RequestToServer for WillDeleteFilesRequest {
    type Params = DeleteFilesParams;

    type Result = Option<WorkspaceEdit>;

    ghost method = { codes "workspace/willDeleteFiles" };
}

/// `workspace/didCreateFiles`, a notification to the server. Files were created (LSP 3.17, "DidCreateFiles
/// Notification").
pub struct DidCreateFilesNotification;

impl DidCreateFilesNotification {
    /// The name of the method.
    pub const METHOD: &'static str = "workspace/didCreateFiles";
}

impl NotificationToServer for DidCreateFilesNotification {
    type Params = CreateFilesParams;

    ghost method = { codes "workspace/didCreateFiles" };
}

/// `workspace/didRenameFiles`, a notification to the server. Files were renamed (LSP 3.17, "DidRenameFiles
/// Notification").
pub struct DidRenameFilesNotification;

impl DidRenameFilesNotification {
    /// The name of the method.
    pub const METHOD: &'static str = "workspace/didRenameFiles";
}

impl NotificationToServer for DidRenameFilesNotification {
    type Params = RenameFilesParams;

    ghost method = { codes "workspace/didRenameFiles" };
}

/// `workspace/didDeleteFiles`, a notification to the server. Files were deleted (LSP 3.17, "DidDeleteFiles
/// Notification").
pub struct DidDeleteFilesNotification;

impl DidDeleteFilesNotification {
    /// The name of the method.
    pub const METHOD: &'static str = "workspace/didDeleteFiles";
}

impl NotificationToServer for DidDeleteFilesNotification {
    type Params = DeleteFilesParams;

    ghost method = { codes "workspace/didDeleteFiles" };
}

/// `notebookDocument/didOpen`, a notification to the server. A notebook was opened (LSP 3.17, "DidOpenNotebookDocument
/// Notification").
pub struct DidOpenNotebookDocumentNotification;

impl DidOpenNotebookDocumentNotification {
    /// The name of the method.
    pub const METHOD: &'static str = "notebookDocument/didOpen";
}

impl NotificationToServer for DidOpenNotebookDocumentNotification {
    type Params = DidOpenNotebookDocumentParams;

    ghost method = { codes "notebookDocument/didOpen" };
}

/// `notebookDocument/didChange`, a notification to the server. A notebook was changed (LSP 3.17,
/// "DidChangeNotebookDocument Notification").
pub struct DidChangeNotebookDocumentNotification;

impl DidChangeNotebookDocumentNotification {
    /// The name of the method.
    pub const METHOD: &'static str = "notebookDocument/didChange";
}

impl NotificationToServer for DidChangeNotebookDocumentNotification {
    type Params = DidChangeNotebookDocumentParams;

    ghost method = { codes "notebookDocument/didChange" };
}

/// `notebookDocument/didSave`, a notification to the server. A notebook was saved (LSP 3.17, "DidSaveNotebookDocument
/// Notification").
pub struct DidSaveNotebookDocumentNotification;

impl DidSaveNotebookDocumentNotification {
    /// The name of the method.
    pub const METHOD: &'static str = "notebookDocument/didSave";
}

impl NotificationToServer for DidSaveNotebookDocumentNotification {
    type Params = DidSaveNotebookDocumentParams;

    ghost method = { codes "notebookDocument/didSave" };
}

/// `notebookDocument/didClose`, a notification to the server. A notebook was closed (LSP 3.17,
/// "DidCloseNotebookDocument Notification").
pub struct DidCloseNotebookDocumentNotification;

impl DidCloseNotebookDocumentNotification {
    /// The name of the method.
    pub const METHOD: &'static str = "notebookDocument/didClose";
}

impl NotificationToServer for DidCloseNotebookDocumentNotification {
    type Params = DidCloseNotebookDocumentParams;

    ghost method = { codes "notebookDocument/didClose" };
}
