// Values of the types of `lsp_types_features` and `lsp_types_workspace`.
use crate::forms::of_edit;
use crate::own::Note;
use crate::said::Said;
use crate::types::back;
use lsp_types_features::{
    CallHierarchyIncomingCall, CallHierarchyIncomingCallsParams, CallHierarchyItem,
    CallHierarchyOutgoingCall, CodeLens, ColorInformation, ColorPresentation,
    ColorPresentationParams, DiagnosticServerCancellationData, DocumentDiagnosticParams,
    DocumentHighlight, DocumentLink, FoldingRange, InlineValueParams, LinkedEditingRanges, Moniker,
    SelectionRange, SelectionRangeParams, SemanticTokensDeltaParams, WorkspaceDiagnosticParams,
    WorkspaceDiagnosticReport,
};
use lsp_types_workspace::{
    CreateFilesParams, DidChangeNotebookDocumentParams, DidChangeWatchedFilesRegistrationOptions,
    DidCloseNotebookDocumentParams, DidOpenNotebookDocumentParams, DidSaveNotebookDocumentParams,
    FileOperationOptions, RenameFilesParams,
};

pub fn of_feature(said: &mut Said, name: &str, text: &str) {
    match name {
        "DocumentHighlight" => back::<DocumentHighlight>(said, text),
        "FoldingRange" => back::<FoldingRange>(said, text),
        "SelectionRange" => back::<SelectionRange>(said, text),
        "SelectionRangeParams" => back::<SelectionRangeParams>(said, text),
        "LinkedEditingRanges" => back::<LinkedEditingRanges>(said, text),
        "Moniker" => back::<Moniker>(said, text),
        "CodeLens" => back::<CodeLens>(said, text),
        "DocumentLink" => back::<DocumentLink>(said, text),
        _ => of_call(said, name, text),
    }
}

fn of_call(said: &mut Said, name: &str, text: &str) {
    match name {
        "CallHierarchyItem" => back::<CallHierarchyItem>(said, text),
        "CallHierarchyIncomingCallsParams" => back::<CallHierarchyIncomingCallsParams>(said, text),
        "CallHierarchyIncomingCall" => back::<CallHierarchyIncomingCall>(said, text),
        "CallHierarchyOutgoingCall" => back::<CallHierarchyOutgoingCall>(said, text),
        "ColorInformation" => back::<ColorInformation>(said, text),
        "ColorPresentationParams" => back::<ColorPresentationParams>(said, text),
        "ColorPresentation" => back::<ColorPresentation>(said, text),
        _ => of_report(said, name, text),
    }
}

fn of_report(said: &mut Said, name: &str, text: &str) {
    match name {
        "InlineValueParams" => back::<InlineValueParams>(said, text),
        "SemanticTokensDeltaParams" => back::<SemanticTokensDeltaParams>(said, text),
        "DocumentDiagnosticParams" => back::<DocumentDiagnosticParams>(said, text),
        "WorkspaceDiagnosticParams" => back::<WorkspaceDiagnosticParams>(said, text),
        "WorkspaceDiagnosticReport" => back::<WorkspaceDiagnosticReport>(said, text),
        "DiagnosticServerCancellationData" => back::<DiagnosticServerCancellationData>(said, text),
        _ => of_file(said, name, text),
    }
}

fn of_file(said: &mut Said, name: &str, text: &str) {
    match name {
        "CreateFilesParams" => back::<CreateFilesParams>(said, text),
        "RenameFilesParams" => back::<RenameFilesParams>(said, text),
        "FileOperationOptions" => back::<FileOperationOptions>(said, text),
        "DidChangeWatchedFilesRegistrationOptions" => back::<
            DidChangeWatchedFilesRegistrationOptions,
        >(said, text),
        "DidOpenNotebookDocumentParams" => back::<DidOpenNotebookDocumentParams>(said, text),
        "DidChangeNotebookDocumentParams" => back::<DidChangeNotebookDocumentParams>(said, text),
        "DidSaveNotebookDocumentParams" => back::<DidSaveNotebookDocumentParams>(said, text),
        "DidCloseNotebookDocumentParams" => back::<DidCloseNotebookDocumentParams>(said, text),
        "Note" => back::<Note>(said, text),
        _ => of_edit(said, name, text),
    }
}
