// Values of types of which the standard has several forms.
use crate::said::Said;
use crate::types::{back, of_other};
use lsp_types::{
    AnyTextEdit, CodeActionOrCommand, CompletionEditRange, CompletionResult, CompletionTextEdit,
    DefinitionResult, DocumentChange, DocumentSymbol, DocumentSymbolResult, Documentation,
    HoverContents, InlayHintLabel, MarkedString, ParameterLabel, PrepareRenameResult,
    WorkspaceSymbolLocation,
};
use lsp_types_features::{DocumentDiagnosticReport, InlineValue, SemanticTokensDeltaResult};
use lsp_types_workspace::BaseUri;

pub fn of_edit(said: &mut Said, name: &str, text: &str) {
    match name {
        "AnyTextEdit" => back::<AnyTextEdit>(said, text),
        "DocumentChange" => back::<DocumentChange>(said, text),
        "CompletionTextEdit" => back::<CompletionTextEdit>(said, text),
        "CompletionEditRange" => back::<CompletionEditRange>(said, text),
        "CodeActionOrCommand" => back::<CodeActionOrCommand>(said, text),
        "PrepareRenameResult" => back::<PrepareRenameResult>(said, text),
        _ => of_text(said, name, text),
    }
}

fn of_text(said: &mut Said, name: &str, text: &str) {
    match name {
        "Documentation" => back::<Documentation>(said, text),
        "HoverContents" => back::<HoverContents>(said, text),
        "MarkedString" => back::<MarkedString>(said, text),
        "InlayHintLabel" => back::<InlayHintLabel>(said, text),
        "ParameterLabel" => back::<ParameterLabel>(said, text),
        _ => of_place(said, name, text),
    }
}

fn of_place(said: &mut Said, name: &str, text: &str) {
    match name {
        "BaseUri" => back::<BaseUri>(said, text),
        "CompletionResult" => back::<CompletionResult>(said, text),
        "DocumentSymbol" => back::<DocumentSymbol>(said, text),
        "DocumentSymbolResult" => back::<DocumentSymbolResult>(said, text),
        "DefinitionResult" => back::<DefinitionResult>(said, text),
        "DocumentDiagnosticReport" => back::<DocumentDiagnosticReport>(said, text),
        "InlineValue" => back::<InlineValue>(said, text),
        "SemanticTokensDeltaResult" => back::<SemanticTokensDeltaResult>(said, text),
        "WorkspaceSymbolLocation" => back::<WorkspaceSymbolLocation>(said, text),
        _ => of_other(said, name, text),
    }
}
