//! Types of LSP 3.17 for files that are created, renamed, deleted or watched, and for notebooks. As in `lsp_types`,
//! each call is safe and returns, and it is proved which value a tree is read as, and which tree a value is written as.
//! That the keys are the standard's is tested.
#![tactic(auto)]

mod files;
pub mod methods;
mod notebooks;

pub use files::{
    BaseUri, CreateFilesParams, DeleteFilesParams, DidChangeWatchedFilesRegistrationOptions,
    FileCreate, FileDelete, FileOperationFilter, FileOperationOptions, FileOperationPattern,
    FileOperationPatternOptions, FileOperationRegistrationOptions, FileRename, FileSystemWatcher,
    GlobPattern, RelativePattern, RenameFilesParams,
};
pub use notebooks::{
    DidChangeNotebookDocumentParams, DidCloseNotebookDocumentParams, DidOpenNotebookDocumentParams,
    DidSaveNotebookDocumentParams, ExecutionSummary, NotebookCell, NotebookCellArrayChange,
    NotebookCellChanges, NotebookCellKind, NotebookCellStructure, NotebookCellTextChange,
    NotebookDocument, NotebookDocumentChangeEvent, NotebookDocumentIdentifier,
    VersionedNotebookDocumentIdentifier,
};
