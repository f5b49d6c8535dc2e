// Values that are read by the types of `lsp_types` and written again.
use crate::json_writing::say_text;
use crate::messages::{text_in, value_in};
use crate::more_types;
use crate::said::{Said, ended};
use lsp_documents::SyncOptions;
use lsp_json::JsonRef;
use lsp_json_write::{JsonWriteError, JsonWriter};
use lsp_types::json::Misfit;
use lsp_types::{
    ApplyWorkspaceEditParams, ApplyWorkspaceEditResult, CancelParams, ChangeNotifications,
    CodeAction, CodeActionOptions, CodeActionParams, CodeLensOptions, Command, CompletionItem,
    CompletionItemOptions, CompletionList, CompletionOptions, CompletionParams,
    ConfigurationParams, DefinitionParams, DiagnosticOptions, DidChangeConfigurationParams,
    DidChangeTextDocumentParams, DidChangeWatchedFilesParams, DidChangeWorkspaceFoldersParams,
    DidCloseTextDocumentParams, DidOpenTextDocumentParams, DidSaveTextDocumentParams,
    DocumentFormattingParams, DocumentLinkOptions, DocumentOnTypeFormattingOptions,
    DocumentOnTypeFormattingParams, DocumentRangeFormattingParams, ExecuteCommandOptions,
    ExecuteCommandParams, FromJson, Hover, HoverParams, InitializeParams, InitializeResult,
    InlayHint, InlayHintParams, Location, LocationLink, LogTraceParams, MessageActionItem,
    ProgressParams, PublishDiagnosticsParams, ReferenceParams, RegistrationParams, RenameOptions,
    RenameParams, SaveOptions, SemanticTokens, SemanticTokensFullOptions, SemanticTokensLegend,
    SemanticTokensOptions, ServerCapabilities, SetTraceParams, ShowDocumentParams,
    ShowDocumentResult, ShowMessageParams, ShowMessageRequestParams, SignatureHelp,
    SignatureHelpOptions, SignatureHelpParams, TextDocumentParams, TextDocumentPositionParams,
    TextDocumentRangeParams, TextDocumentSyncKind, TextDocumentSyncOptions, ToJson,
    UnregistrationParams, WillSaveTextDocumentParams, WorkDoneProgressBegin,
    WorkDoneProgressCreateParams, WorkDoneProgressEnd, WorkDoneProgressParams,
    WorkDoneProgressReport, WorkspaceFoldersServerCapabilities, WorkspaceOptions, WorkspaceSymbol,
    WorkspaceSymbolParams,
};
use serde::Serialize;
use serde_json::{Map, Value, to_value};
use std::alloc::Global;

/// Says the result for a type's name and a value: the value written again, or `refused`.
pub fn answer(said: &mut Said, row: &str) {
    let (name, text) = said.cut(row, " ");
    said.is_wrong = false;
    of_document(said, name, text);
    if said.is_wrong {
        said.text.clear();
        said.push("refused");
    }
}

/// Reads the value of a JSON text by its type.
pub fn read_typed<T: FromJson>(alloc: Global, text: &str) -> Result<T, Misfit> {
    match value_in(alloc, text) {
        Ok(value) => {
            let found = T::from_json(alloc, &JsonRef::of_tree(&value));
            drop(value);
            found
        }
        Err(_) => Err(Misfit::Memory),
    }
}

/// Reads the value of a JSON text by its type, or returns another.
pub fn read<T: FromJson>(said: &mut Said, text: &str, otherwise: T) -> T {
    let found = read_typed(said.alloc, text);
    read_or(said, found, otherwise)
}

/// The value that was read, or another.
fn read_or<T: Drop>(said: &mut Said, found: Result<T, Misfit>, otherwise: T) -> T {
    match found {
        Ok(value) => {
            drop(otherwise);
            value
        }
        Err(misfit) => {
            unfit(said, misfit);
            otherwise
        }
    }
}

/// Remembers why a value was not read.
pub fn unfit(said: &mut Said, misfit: Misfit) {
    said.is_wrong = true;
    if misfit == Misfit::Memory {
        said.is_short = true;
    }
}

/// Says a value of one of LSP's types as JSON, and also its tree, if that is something else.
pub fn say_json<T: ToJson>(said: &mut Said, value: &T) {
    let text = in_text(said, value);
    let tree = in_tree(said, value);
    said.push(text.as_str());
    if text != tree {
        said.push("; but its tree is ");
        said.push(tree.as_str());
    }
    drop(text);
    drop(tree);
}

fn in_text<T: ToJson>(said: &mut Said, value: &T) -> String {
    let mut found = Said::new(said.alloc);
    say_text(&mut found, text_of(said.alloc, value));
    ended(said, found)
}

fn text_of<T: ToJson>(alloc: Global, value: &T) -> Result<String, JsonWriteError> {
    let mut out = JsonWriter::new(alloc)?;
    value.write_json(&mut out)?;
    Ok(out.into_string()?)
}

fn in_tree<T: ToJson>(said: &mut Said, value: &T) -> String {
    let mut found = Said::new(said.alloc);
    match value.to_json(said.alloc) {
        Ok(tree) => found.show(tree),
        Err(_) => found.is_short = true,
    }
    ended(said, found)
}

/// Says another value as JSON.
pub fn say_written<T: Serialize>(said: &mut Said, value: &T) {
    match to_value(said.alloc, value) {
        Ok(tree) => said.show(tree),
        Err(error) => said.refuse(error),
    }
}

/// Says the value of a JSON text by a type, written again, or `refused`.
pub fn back<T: ToJson + FromJson>(said: &mut Said, text: &str) {
    match read_typed::<T>(said.alloc, text) {
        Ok(value) => {
            say_json(said, &value);
            drop(value);
        }
        Err(misfit) => unfit(said, misfit),
    }
}

fn of_document(said: &mut Said, name: &str, text: &str) {
    match name {
        "InitializeParams" => back::<InitializeParams>(said, text),
        "DidOpenTextDocumentParams" => back::<DidOpenTextDocumentParams>(said, text),
        "DidChangeTextDocumentParams" => back::<DidChangeTextDocumentParams>(said, text),
        "DidSaveTextDocumentParams" => back::<DidSaveTextDocumentParams>(said, text),
        "TextDocumentParams" => back::<TextDocumentParams>(said, text),
        "TextDocumentPositionParams" => back::<TextDocumentPositionParams>(said, text),
        "TextDocumentRangeParams" => back::<TextDocumentRangeParams>(said, text),
        "InlayHintParams" => back::<InlayHintParams>(said, text),
        "ReferenceParams" => back::<ReferenceParams>(said, text),
        _ => of_saved(said, name, text),
    }
}

fn of_saved(said: &mut Said, name: &str, text: &str) {
    match name {
        "WillSaveTextDocumentParams" => back::<WillSaveTextDocumentParams>(said, text),
        "DidCloseTextDocumentParams" => back::<DidCloseTextDocumentParams>(said, text),
        "DocumentRangeFormattingParams" => back::<DocumentRangeFormattingParams>(said, text),
        "WorkspaceSymbolParams" => back::<WorkspaceSymbolParams>(said, text),
        "WorkspaceSymbol" => back::<WorkspaceSymbol>(said, text),
        _ => of_change(said, name, text),
    }
}

fn of_change(said: &mut Said, name: &str, text: &str) {
    match name {
        "CodeActionParams" => back::<CodeActionParams>(said, text),
        "CodeAction" => back::<CodeAction>(said, text),
        "Command" => back::<Command>(said, text),
        "RenameParams" => back::<RenameParams>(said, text),
        "DocumentFormattingParams" => back::<DocumentFormattingParams>(said, text),
        "ExecuteCommandParams" => back::<ExecuteCommandParams>(said, text),
        "ApplyWorkspaceEditParams" => back::<ApplyWorkspaceEditParams>(said, text),
        "ApplyWorkspaceEditResult" => back::<ApplyWorkspaceEditResult>(said, text),
        _ => of_answer(said, name, text),
    }
}

fn of_answer(said: &mut Said, name: &str, text: &str) {
    match name {
        "Hover" => back::<Hover>(said, text),
        "CompletionList" => back::<CompletionList>(said, text),
        "CompletionItem" => back::<CompletionItem>(said, text),
        "SignatureHelp" => back::<SignatureHelp>(said, text),
        "Location" => back::<Location>(said, text),
        "SemanticTokens" => back::<SemanticTokens>(said, text),
        "InlayHint" => back::<InlayHint>(said, text),
        _ => of_window(said, name, text),
    }
}

fn of_window(said: &mut Said, name: &str, text: &str) {
    match name {
        "PublishDiagnosticsParams" => back::<PublishDiagnosticsParams>(said, text),
        "ShowMessageParams" => back::<ShowMessageParams>(said, text),
        "ConfigurationParams" => back::<ConfigurationParams>(said, text),
        "WorkDoneProgressParams" => back::<WorkDoneProgressParams>(said, text),
        "WorkDoneProgressCreateParams" => back::<WorkDoneProgressCreateParams>(said, text),
        _ => of_place(said, name, text),
    }
}

fn of_place(said: &mut Said, name: &str, text: &str) {
    match name {
        "LocationLink" => back::<LocationLink>(said, text),
        "HoverParams" => back::<HoverParams>(said, text),
        "DefinitionParams" => back::<DefinitionParams>(said, text),
        "CompletionParams" => back::<CompletionParams>(said, text),
        "SignatureHelpParams" => back::<SignatureHelpParams>(said, text),
        "DocumentOnTypeFormattingParams" => back::<DocumentOnTypeFormattingParams>(said, text),
        _ => of_client(said, name, text),
    }
}

fn of_client(said: &mut Said, name: &str, text: &str) {
    match name {
        "DidChangeWorkspaceFoldersParams" => back::<DidChangeWorkspaceFoldersParams>(said, text),
        "DidChangeConfigurationParams" => back::<DidChangeConfigurationParams>(said, text),
        "DidChangeWatchedFilesParams" => back::<DidChangeWatchedFilesParams>(said, text),
        "SetTraceParams" => back::<SetTraceParams>(said, text),
        "CancelParams" => back::<CancelParams>(said, text),
        "MessageActionItem" => back::<MessageActionItem>(said, text),
        "ShowDocumentResult" => back::<ShowDocumentResult>(said, text),
        _ => of_server(said, name, text),
    }
}

fn of_server(said: &mut Said, name: &str, text: &str) {
    match name {
        "ShowMessageRequestParams" => back::<ShowMessageRequestParams>(said, text),
        "ShowDocumentParams" => back::<ShowDocumentParams>(said, text),
        "LogTraceParams" => back::<LogTraceParams>(said, text),
        "InitializeResult" => back::<InitializeResult>(said, text),
        "RegistrationParams" => back::<RegistrationParams>(said, text),
        "UnregistrationParams" => back::<UnregistrationParams>(said, text),
        _ => more_types::of_feature(said, name, text),
    }
}

/// A value of a type that is not read as a whole.
pub fn of_other(said: &mut Said, name: &str, text: &str) {
    match value_in(said.alloc, text) {
        Ok(found) => {
            of_members(said, name, &found);
            drop(found);
        }
        Err(_) => said.is_short = true,
    }
}

fn of_members(said: &mut Said, name: &str, found: &Value) {
    match name {
        "ProgressParams" => match text_in(found.pointer("/value/kind")) {
            "begin" => progress::<WorkDoneProgressBegin>(said, found),
            "report" => progress::<WorkDoneProgressReport>(said, found),
            _ => progress::<WorkDoneProgressEnd>(said, found),
        },
        "ServerCapabilities" => {
            let all = capabilities(said, found);
            say_json(said, &all);
            drop(all);
        }
        "DocumentCapabilities" => document_capabilities(said, found),
        _ => said.push("no such type"),
    }
}

/// Says the capabilities of a server that keeps its documents, in the encoding that the params of `initialize` agree
/// on: by types, and then by a tree, which also has the members of `server`. The text of a save is requested if
/// `includeText` says so.
fn document_capabilities(said: &mut Said, params: &Value) {
    let none = Value::Null;
    let asked = params.get("includeText").and_then(|asked| asked.as_bool());
    let include_text = asked == Some(true);
    let client = params.get("capabilities").unwrap_or(&none);
    match SyncOptions::with_capabilities(said.alloc, client, include_text) {
        Ok((_, can)) => {
            say_json(said, &can);
            drop(can);
        }
        Err(_) => said.is_short = true,
    }
    drop(none);
    said.begin_step();
    let mut can = get(said, params, "server", Value::Null);
    match SyncOptions::negotiate(said.alloc, params, include_text, &mut can) {
        Ok(_) => said.show(can),
        Err(_) => {
            drop(can);
            said.is_short = true;
        }
    }
}

/// A member by its type, null if there is none.
fn member<T: FromJson>(alloc: Global, found: &Value, key: &str) -> Result<T, Misfit> {
    match found.get(key) {
        Some(value) => T::from_json(alloc, &JsonRef::of_tree(value)),
        None => T::from_json(alloc, &JsonRef::of_tree(&Value::Null)),
    }
}

/// A member by its type, or another value.
pub fn get<T: FromJson>(said: &mut Said, found: &Value, key: &str, otherwise: T) -> T {
    let found = member(said.alloc, found, key);
    read_or(said, found, otherwise)
}

fn progress<T: ToJson + FromJson>(said: &mut Said, found: &Value) {
    match ProgressParams::<T>::from_json(said.alloc, &JsonRef::of_tree(found)) {
        Ok(told) => {
            say_json(said, &told);
            drop(told);
        }
        Err(misfit) => unfit(said, misfit),
    }
}

/// Returns the object that is given as `more`, if there is one.
fn more(said: &mut Said, found: &Value) -> Option<Value> {
    let more: Option<Map<String, Value>> = get(said, found, "more", None);
    match more {
        Some(members) => Some(Value::Object(members)),
        None => None,
    }
}

/// Returns a server that can do everything that has a field, and what is given as `more`.
fn capabilities(said: &mut Said, found: &Value) -> ServerCapabilities {
    ServerCapabilities {
        position_encoding: get(said, found, "positionEncoding", None),
        text_document_sync: Some(synchronization()),
        completion_provider: Some(completions(said, found)),
        signature_help_provider: Some(SignatureHelpOptions {
            trigger_characters: get(said, found, "characters", None),
            retrigger_characters: get(said, found, "names", None),
            work_done_progress: Some(true),
        }),
        code_action_provider: Some(CodeActionOptions {
            code_action_kinds: get(said, found, "names", None),
            resolve_provider: Some(true),
            work_done_progress: Some(true),
        }),
        document_on_type_formatting_provider: Some(DocumentOnTypeFormattingOptions {
            first_trigger_character: said.text_of("}"),
            more_trigger_character: get(said, found, "characters", None),
        }),
        execute_command_provider: Some(ExecuteCommandOptions {
            commands: words(said, found, "names"),
            work_done_progress: Some(true),
        }),
        semantic_tokens_provider: Some(tokens(said, found)),
        more: more(said, found),
        ..objects(said, found)
    }
}

/// What has no list of names.
fn objects(said: &mut Said, found: &Value) -> ServerCapabilities {
    ServerCapabilities {
        notebook_document_sync: Some(notebook(said, found)),
        code_lens_provider: Some(CodeLensOptions {
            resolve_provider: Some(true),
            work_done_progress: Some(true),
        }),
        document_link_provider: Some(DocumentLinkOptions {
            resolve_provider: Some(true),
            work_done_progress: Some(true),
        }),
        rename_provider: Some(RenameOptions {
            prepare_provider: Some(true),
            work_done_progress: Some(true),
        }),
        diagnostic_provider: Some(DiagnosticOptions {
            identifier: Some(said.text_of("}")),
            inter_file_dependencies: true,
            workspace_diagnostics: false,
            work_done_progress: Some(true),
        }),
        workspace: Some(WorkspaceOptions {
            workspace_folders: Some(WorkspaceFoldersServerCapabilities {
                supported: Some(true),
                change_notifications: Some(ChangeNotifications::Wanted(false)),
            }),
            file_operations: Some(notebook(said, found)),
        }),
        experimental: Some(notebook(said, found)),
        ..truths()
    }
}

fn truths() -> ServerCapabilities {
    ServerCapabilities {
        hover_provider: Some(true),
        declaration_provider: Some(true),
        definition_provider: Some(false),
        type_definition_provider: Some(true),
        implementation_provider: Some(true),
        references_provider: Some(true),
        document_highlight_provider: Some(true),
        document_symbol_provider: Some(true),
        color_provider: Some(true),
        document_formatting_provider: Some(true),
        document_range_formatting_provider: Some(true),
        folding_range_provider: Some(true),
        selection_range_provider: Some(true),
        call_hierarchy_provider: Some(true),
        linked_editing_range_provider: Some(true),
        moniker_provider: Some(true),
        type_hierarchy_provider: Some(true),
        inline_value_provider: Some(true),
        inlay_hint_provider: Some(true),
        workspace_symbol_provider: Some(true),
        ..ServerCapabilities::default()
    }
}

fn synchronization() -> TextDocumentSyncOptions {
    TextDocumentSyncOptions {
        will_save: Some(false),
        will_save_wait_until: Some(true),
        save: Some(SaveOptions {
            include_text: Some(true),
        }),
        ..TextDocumentSyncOptions::new(TextDocumentSyncKind::INCREMENTAL)
    }
}

fn completions(said: &mut Said, found: &Value) -> CompletionOptions {
    CompletionOptions {
        trigger_characters: get(said, found, "characters", None),
        resolve_provider: Some(true),
        all_commit_characters: get(said, found, "characters", None),
        completion_item: Some(CompletionItemOptions {
            label_details_support: Some(true),
        }),
        work_done_progress: Some(true),
    }
}

/// An object that stands for one that has no type.
fn notebook(said: &mut Said, found: &Value) -> Value {
    let mut members = Map::new(said.alloc);
    let names = get(said, found, "names", Value::Null);
    let key = said.text_of("notebook");
    if members.insert(key, names).is_err() {
        said.is_short = true;
    }
    Value::Object(members)
}

fn tokens(said: &mut Said, found: &Value) -> SemanticTokensOptions {
    SemanticTokensOptions {
        legend: SemanticTokensLegend {
            token_types: words(said, found, "names"),
            token_modifiers: words(said, found, "characters"),
        },
        range: Some(false),
        full: Some(SemanticTokensFullOptions { delta: Some(true) }),
        work_done_progress: Some(true),
    }
}

fn words(said: &mut Said, found: &Value, key: &str) -> Vec<String> {
    get(said, found, key, Vec::new(said.alloc))
}
