//! Folders, configuration and commands of a workspace.
// `tools/types` wrote this file from `types.txt`: change that.
ghost use Rattle.std.specs.Prelude.{◌∷◌, [], Some, codes, option_map};
ghost use Rattle.serde_json.specs.Data.{number, unsigned};
ghost use Rattle.lsp_types.specs.Json.{object_of};
ghost use Rattle.lsp_types.specs.Reads.{IfFits, IsObject, IsWithin, Optional, Required, ◌and◌};

use crate::edits::WorkspaceEdit;
use crate::json::{FromJson, Members, Misfit, ToJson, number_within, write_member, write_some};
use crate::progress::ProgressToken;
use lsp_json::JsonRef;
use lsp_json_write::JsonSink;
use serde_json::Value;
use std::alloc::Global;

/// A folder that is open in the client (LSP 3.17, "WorkspaceFolder").
#[derive(Drop)]
pub struct WorkspaceFolder {
    /// Its URI.
    pub uri: String,
    /// Its name, for people. When read, it is `None` if it is missing or does not fit.
    pub name: Option<String>,
}

impl ToJson for WorkspaceFolder {
    ghost stands = { λ it. object_of (
        (codes "name", option_map ⟦<String as ToJson>⟧.stands it.name)
        ∷ (codes "uri", Some (⟦<String as ToJson>⟧.stands it.uri)) ∷ []) };

    fn write_json<S: JsonSink>(&self, out: &mut S) -> Result<(), S::Error> {
        out.begin_object()?;
        write_some(out, "name", &self.name)?;
        write_member(out, "uri", &self.uri)?;
        out.end_object()
    }
}

impl FromJson for WorkspaceFolder {
    ghost reads = { λ json it. IsObject json
        and Required ⟦<String as FromJson>⟧.reads (codes "uri") json it.uri
        and IfFits ⟦<String as FromJson>⟧.reads (codes "name") json it.name };

    fn from_json(alloc: Global, value: &JsonRef<'_>) -> Result<WorkspaceFolder, Misfit> {
        match Members::new(alloc, value)
            .required("uri")
            .if_fits("name")
            .end()
        {
            Ok(read) => {
                let (((), uri), name) = read;
                Ok(WorkspaceFolder { uri, name })
            }
            Err(misfit) => Err(misfit),
        }
    }
}

/// The params of `workspace/didChangeWorkspaceFolders` (LSP 3.17, "DidChangeWorkspaceFolders Notification").
#[derive(Drop)]
pub struct DidChangeWorkspaceFoldersParams {
    /// Which folders were opened and closed.
    pub event: WorkspaceFoldersChangeEvent,
}

impl ToJson for DidChangeWorkspaceFoldersParams {
    ghost stands = { λ it. object_of (
        (codes "event", Some (⟦<WorkspaceFoldersChangeEvent as ToJson>⟧.stands it.event)) ∷ []) };

    fn write_json<S: JsonSink>(&self, out: &mut S) -> Result<(), S::Error> {
        out.begin_object()?;
        write_member(out, "event", &self.event)?;
        out.end_object()
    }
}

impl FromJson for DidChangeWorkspaceFoldersParams {
    ghost reads = { λ json it. IsObject json
        and Required ⟦<WorkspaceFoldersChangeEvent as FromJson>⟧.reads (codes "event") json it.event };

    fn from_json(
        alloc: Global,
        value: &JsonRef<'_>,
    ) -> Result<DidChangeWorkspaceFoldersParams, Misfit> {
        match Members::new(alloc, value).required("event").end() {
            Ok(read) => {
                let ((), event) = read;
                Ok(DidChangeWorkspaceFoldersParams { event })
            }
            Err(misfit) => Err(misfit),
        }
    }
}

/// Which folders were opened and closed (LSP 3.17, "DidChangeWorkspaceFolders Notification").
#[derive(Drop)]
pub struct WorkspaceFoldersChangeEvent {
    /// Those that were opened.
    pub added: Vec<WorkspaceFolder>,
    /// Those that were closed.
    pub removed: Vec<WorkspaceFolder>,
}

impl ToJson for WorkspaceFoldersChangeEvent {
    ghost stands = { λ it. object_of (
        (codes "added", Some (⟦<Vec<WorkspaceFolder> as ToJson>⟧.stands it.added))
        ∷ (codes "removed", Some (⟦<Vec<WorkspaceFolder> as ToJson>⟧.stands it.removed)) ∷ []) };

    fn write_json<S: JsonSink>(&self, out: &mut S) -> Result<(), S::Error> {
        out.begin_object()?;
        write_member(out, "added", &self.added)?;
        write_member(out, "removed", &self.removed)?;
        out.end_object()
    }
}

impl FromJson for WorkspaceFoldersChangeEvent {
    ghost reads = { λ json it. IsObject json
        and Required ⟦<Vec<WorkspaceFolder> as FromJson>⟧.reads (codes "added") json it.added
        and Required ⟦<Vec<WorkspaceFolder> as FromJson>⟧.reads (codes "removed") json it.removed };

    fn from_json(
        alloc: Global,
        value: &JsonRef<'_>,
    ) -> Result<WorkspaceFoldersChangeEvent, Misfit> {
        match Members::new(alloc, value)
            .required("added")
            .required("removed")
            .end()
        {
            Ok(read) => {
                let (((), added), removed) = read;
                Ok(WorkspaceFoldersChangeEvent { added, removed })
            }
            Err(misfit) => Err(misfit),
        }
    }
}

/// The params of `workspace/didChangeConfiguration` (LSP 3.17, "DidChangeConfiguration Notification").
#[derive(Drop)]
pub struct DidChangeConfigurationParams {
    /// The settings. A client that can be asked may send null. Then the server should ask (`workspace/configuration`).
    pub settings: Value,
}

impl ToJson for DidChangeConfigurationParams {
    ghost stands = { λ it. object_of (
        (codes "settings", Some (⟦<Value as ToJson>⟧.stands it.settings)) ∷ []) };

    fn write_json<S: JsonSink>(&self, out: &mut S) -> Result<(), S::Error> {
        out.begin_object()?;
        write_member(out, "settings", &self.settings)?;
        out.end_object()
    }
}

impl FromJson for DidChangeConfigurationParams {
    ghost reads = { λ json it. IsObject json
        and Required ⟦<Value as FromJson>⟧.reads (codes "settings") json it.settings };

    fn from_json(
        alloc: Global,
        value: &JsonRef<'_>,
    ) -> Result<DidChangeConfigurationParams, Misfit> {
        match Members::new(alloc, value).required("settings").end() {
            Ok(read) => {
                let ((), settings) = read;
                Ok(DidChangeConfigurationParams { settings })
            }
            Err(misfit) => Err(misfit),
        }
    }
}

/// What happened to a file (LSP 3.17, "FileChangeType"). On reading, another number is refused.
#[derive(Clone, Copy, Drop)]
pub struct FileChangeType(pub u32);

impl FileChangeType {
    /// It was created.
    pub const CREATED: FileChangeType = FileChangeType(1);
    /// It was changed.
    pub const CHANGED: FileChangeType = FileChangeType(2);
    /// It was deleted.
    pub const DELETED: FileChangeType = FileChangeType(3);
}

impl ToJson for FileChangeType {
    ghost stands = { λ it. number (unsigned it.0) };

    fn write_json<S: JsonSink>(&self, out: &mut S) -> Result<(), S::Error> {
        self.0.write_json(out)
    }
}

impl FromJson for FileChangeType {
    ghost reads = { λ json it. IsWithin 1 3 json it.0 };

    fn from_json(alloc: Global, value: &JsonRef<'_>) -> Result<FileChangeType, Misfit> {
        match number_within(alloc, value, 1, 3) {
            Ok(number) => Ok(FileChangeType(number)),
            Err(misfit) => Err(misfit),
        }
    }
}

/// What happened to a file (LSP 3.17, "FileEvent").
#[derive(Drop)]
pub struct FileEvent {
    /// Its URI.
    pub uri: String,
    /// What happened to it. Its key is `type`.
    pub typ: FileChangeType,
}

impl ToJson for FileEvent {
    ghost stands = { λ it. object_of (
        (codes "type", Some (⟦<FileChangeType as ToJson>⟧.stands it.typ))
        ∷ (codes "uri", Some (⟦<String as ToJson>⟧.stands it.uri)) ∷ []) };

    fn write_json<S: JsonSink>(&self, out: &mut S) -> Result<(), S::Error> {
        out.begin_object()?;
        write_member(out, "type", &self.typ)?;
        write_member(out, "uri", &self.uri)?;
        out.end_object()
    }
}

impl FromJson for FileEvent {
    ghost reads = { λ json it. IsObject json
        and Required ⟦<String as FromJson>⟧.reads (codes "uri") json it.uri
        and Required ⟦<FileChangeType as FromJson>⟧.reads (codes "type") json it.typ };

    fn from_json(alloc: Global, value: &JsonRef<'_>) -> Result<FileEvent, Misfit> {
        match Members::new(alloc, value)
            .required("uri")
            .required("type")
            .end()
        {
            Ok(read) => {
                let (((), uri), typ) = read;
                Ok(FileEvent { uri, typ })
            }
            Err(misfit) => Err(misfit),
        }
    }
}

/// The params of `workspace/didChangeWatchedFiles` (LSP 3.17, "DidChangeWatchedFiles Notification").
#[derive(Drop)]
pub struct DidChangeWatchedFilesParams {
    /// The files.
    pub changes: Vec<FileEvent>,
}

impl ToJson for DidChangeWatchedFilesParams {
    ghost stands = { λ it. object_of (
        (codes "changes", Some (⟦<Vec<FileEvent> as ToJson>⟧.stands it.changes)) ∷ []) };

    fn write_json<S: JsonSink>(&self, out: &mut S) -> Result<(), S::Error> {
        out.begin_object()?;
        write_member(out, "changes", &self.changes)?;
        out.end_object()
    }
}

impl FromJson for DidChangeWatchedFilesParams {
    ghost reads = { λ json it. IsObject json
        and Required ⟦<Vec<FileEvent> as FromJson>⟧.reads (codes "changes") json it.changes };

    fn from_json(
        alloc: Global,
        value: &JsonRef<'_>,
    ) -> Result<DidChangeWatchedFilesParams, Misfit> {
        match Members::new(alloc, value).required("changes").end() {
            Ok(read) => {
                let ((), changes) = read;
                Ok(DidChangeWatchedFilesParams { changes })
            }
            Err(misfit) => Err(misfit),
        }
    }
}

/// The params of `workspace/configuration` (LSP 3.17, "Configuration Request"). The result is a list with a value for
/// each item.
#[derive(Drop)]
pub struct ConfigurationParams {
    /// The requested parts of the configuration.
    pub items: Vec<ConfigurationItem>,
}

impl ToJson for ConfigurationParams {
    ghost stands = { λ it. object_of (
        (codes "items", Some (⟦<Vec<ConfigurationItem> as ToJson>⟧.stands it.items)) ∷ []) };

    fn write_json<S: JsonSink>(&self, out: &mut S) -> Result<(), S::Error> {
        out.begin_object()?;
        write_member(out, "items", &self.items)?;
        out.end_object()
    }
}

impl FromJson for ConfigurationParams {
    ghost reads = { λ json it. IsObject json
        and Required ⟦<Vec<ConfigurationItem> as FromJson>⟧.reads (codes "items") json it.items };

    fn from_json(alloc: Global, value: &JsonRef<'_>) -> Result<ConfigurationParams, Misfit> {
        match Members::new(alloc, value).required("items").end() {
            Ok(read) => {
                let ((), items) = read;
                Ok(ConfigurationParams { items })
            }
            Err(misfit) => Err(misfit),
        }
    }
}

/// A part of the configuration (LSP 3.17, "ConfigurationItem").
#[derive(Drop)]
pub struct ConfigurationItem {
    /// The document or folder that it is for.
    pub scope_uri: Option<String>,
    /// The section, such as the name of the server.
    pub section: Option<String>,
}

impl Default for ConfigurationItem {
    ghost use Rattle.std.specs.Prelude.{◌≡◌, None};

    /// Makes one in which no member is set.
    fn default() -> ConfigurationItem
        ensures { result ≡ record {
          scope_uri = None;
          section = None;
        } }
    {
        ConfigurationItem {
            scope_uri: None,
            section: None,
        }
    }
}

impl ToJson for ConfigurationItem {
    ghost stands = { λ it. object_of (
        (codes "scopeUri", option_map ⟦<String as ToJson>⟧.stands it.scope_uri)
        ∷ (codes "section", option_map ⟦<String as ToJson>⟧.stands it.section) ∷ []) };

    fn write_json<S: JsonSink>(&self, out: &mut S) -> Result<(), S::Error> {
        out.begin_object()?;
        write_some(out, "scopeUri", &self.scope_uri)?;
        write_some(out, "section", &self.section)?;
        out.end_object()
    }
}

impl FromJson for ConfigurationItem {
    ghost reads = { λ json it. IsObject json
        and Optional ⟦<String as FromJson>⟧.reads (codes "scopeUri") json it.scope_uri
        and Optional ⟦<String as FromJson>⟧.reads (codes "section") json it.section };

    fn from_json(alloc: Global, value: &JsonRef<'_>) -> Result<ConfigurationItem, Misfit> {
        match Members::new(alloc, value)
            .optional("scopeUri")
            .optional("section")
            .end()
        {
            Ok(read) => {
                let (((), scope_uri), section) = read;
                Ok(ConfigurationItem { scope_uri, section })
            }
            Err(misfit) => Err(misfit),
        }
    }
}

/// A command that the client shows and sends back (LSP 3.17, "Command").
#[derive(Drop)]
pub struct Command {
    /// What is shown.
    pub title: String,
    /// Its name.
    pub command: String,
    /// The arguments that the client sends back.
    pub arguments: Option<Vec<Value>>,
}

impl Command {
    ghost use Rattle.std.specs.Prelude.{◌≡◌, None};

    /// Makes one from the required members. The others are `None`.
    pub fn new(title: String, command: String) -> Command
        ensures { result ≡ record {
          title = title;
          command = command;
          arguments = None;
        } }
    {
        Command {
            title,
            command,
            arguments: None,
        }
    }
}

impl ToJson for Command {
    ghost stands = { λ it. object_of (
        (codes "arguments", option_map ⟦<Vec<Value> as ToJson>⟧.stands it.arguments)
        ∷ (codes "command", Some (⟦<String as ToJson>⟧.stands it.command))
        ∷ (codes "title", Some (⟦<String as ToJson>⟧.stands it.title)) ∷ []) };

    fn write_json<S: JsonSink>(&self, out: &mut S) -> Result<(), S::Error> {
        out.begin_object()?;
        write_some(out, "arguments", &self.arguments)?;
        write_member(out, "command", &self.command)?;
        write_member(out, "title", &self.title)?;
        out.end_object()
    }
}

impl FromJson for Command {
    ghost reads = { λ json it. IsObject json
        and Required ⟦<String as FromJson>⟧.reads (codes "title") json it.title
        and Required ⟦<String as FromJson>⟧.reads (codes "command") json it.command
        and Optional ⟦<Vec<Value> as FromJson>⟧.reads (codes "arguments") json it.arguments };

    fn from_json(alloc: Global, value: &JsonRef<'_>) -> Result<Command, Misfit> {
        match Members::new(alloc, value)
            .required("title")
            .required("command")
            .optional("arguments")
            .end()
        {
            Ok(read) => {
                let ((((), title), command), arguments) = read;
                Ok(Command {
                    title,
                    command,
                    arguments,
                })
            }
            Err(misfit) => Err(misfit),
        }
    }
}

/// The params of `workspace/executeCommand` (LSP 3.17, "Execute a command").
#[derive(Drop)]
pub struct ExecuteCommandParams {
    /// The command's name.
    pub command: String,
    /// The command's arguments.
    pub arguments: Option<Vec<Value>>,
    /// The token to report progress with. `None` means that no progress is requested, or that the token does not fit.
    pub work_done_token: Option<ProgressToken>,
}

impl ToJson for ExecuteCommandParams {
    ghost stands = { λ it. object_of (
        (codes "arguments", option_map ⟦<Vec<Value> as ToJson>⟧.stands it.arguments)
        ∷ (codes "command", Some (⟦<String as ToJson>⟧.stands it.command))
        ∷ (codes "workDoneToken", option_map ⟦<ProgressToken as ToJson>⟧.stands it.work_done_token) ∷ []) };

    fn write_json<S: JsonSink>(&self, out: &mut S) -> Result<(), S::Error> {
        out.begin_object()?;
        write_some(out, "arguments", &self.arguments)?;
        write_member(out, "command", &self.command)?;
        write_some(out, "workDoneToken", &self.work_done_token)?;
        out.end_object()
    }
}

impl FromJson for ExecuteCommandParams {
    ghost reads = { λ json it. IsObject json
        and Required ⟦<String as FromJson>⟧.reads (codes "command") json it.command
        and Optional ⟦<Vec<Value> as FromJson>⟧.reads (codes "arguments") json it.arguments
        and IfFits ⟦<ProgressToken as FromJson>⟧.reads (codes "workDoneToken") json it.work_done_token };

    fn from_json(alloc: Global, value: &JsonRef<'_>) -> Result<ExecuteCommandParams, Misfit> {
        match Members::new(alloc, value)
            .required("command")
            .optional("arguments")
            .if_fits("workDoneToken")
            .end()
        {
            Ok(read) => {
                let ((((), command), arguments), work_done_token) = read;
                Ok(ExecuteCommandParams {
                    command,
                    arguments,
                    work_done_token,
                })
            }
            Err(misfit) => Err(misfit),
        }
    }
}

/// The params of `workspace/applyEdit` (LSP 3.17, "Applies a WorkspaceEdit").
#[derive(Drop)]
pub struct ApplyWorkspaceEditParams {
    /// The name of the edit, for example in a list of steps to undo.
    pub label: Option<String>,
    /// The edit.
    pub edit: WorkspaceEdit,
}

impl ApplyWorkspaceEditParams {
    ghost use Rattle.std.specs.Prelude.{◌≡◌, None};

    /// Makes one from the required members. The others are `None`.
    pub fn new(edit: WorkspaceEdit) -> ApplyWorkspaceEditParams
        ensures { result ≡ record {
          label = None;
          edit = edit;
        } }
    {
        ApplyWorkspaceEditParams { label: None, edit }
    }
}

impl ToJson for ApplyWorkspaceEditParams {
    ghost stands = { λ it. object_of (
        (codes "edit", Some (⟦<WorkspaceEdit as ToJson>⟧.stands it.edit))
        ∷ (codes "label", option_map ⟦<String as ToJson>⟧.stands it.label) ∷ []) };

    fn write_json<S: JsonSink>(&self, out: &mut S) -> Result<(), S::Error> {
        out.begin_object()?;
        write_member(out, "edit", &self.edit)?;
        write_some(out, "label", &self.label)?;
        out.end_object()
    }
}

impl FromJson for ApplyWorkspaceEditParams {
    ghost reads = { λ json it. IsObject json
        and Optional ⟦<String as FromJson>⟧.reads (codes "label") json it.label
        and Required ⟦<WorkspaceEdit as FromJson>⟧.reads (codes "edit") json it.edit };

    fn from_json(alloc: Global, value: &JsonRef<'_>) -> Result<ApplyWorkspaceEditParams, Misfit> {
        match Members::new(alloc, value)
            .optional("label")
            .required("edit")
            .end()
        {
            Ok(read) => {
                let (((), label), edit) = read;
                Ok(ApplyWorkspaceEditParams { label, edit })
            }
            Err(misfit) => Err(misfit),
        }
    }
}

/// The result of `workspace/applyEdit` (LSP 3.17, "ApplyWorkspaceEditResult").
#[derive(Drop)]
pub struct ApplyWorkspaceEditResult {
    /// Whether the edit was made.
    pub applied: bool,
    /// Why not.
    pub failure_reason: Option<String>,
    /// Which change failed, from 0.
    pub failed_change: Option<u32>,
}

impl ToJson for ApplyWorkspaceEditResult {
    ghost stands = { λ it. object_of (
        (codes "applied", Some (⟦<bool as ToJson>⟧.stands it.applied))
        ∷ (codes "failedChange", option_map ⟦<u32 as ToJson>⟧.stands it.failed_change)
        ∷ (codes "failureReason", option_map ⟦<String as ToJson>⟧.stands it.failure_reason) ∷ []) };

    fn write_json<S: JsonSink>(&self, out: &mut S) -> Result<(), S::Error> {
        out.begin_object()?;
        write_member(out, "applied", &self.applied)?;
        write_some(out, "failedChange", &self.failed_change)?;
        write_some(out, "failureReason", &self.failure_reason)?;
        out.end_object()
    }
}

impl FromJson for ApplyWorkspaceEditResult {
    ghost reads = { λ json it. IsObject json
        and Required ⟦<bool as FromJson>⟧.reads (codes "applied") json it.applied
        and Optional ⟦<String as FromJson>⟧.reads (codes "failureReason") json it.failure_reason
        and Optional ⟦<u32 as FromJson>⟧.reads (codes "failedChange") json it.failed_change };

    fn from_json(alloc: Global, value: &JsonRef<'_>) -> Result<ApplyWorkspaceEditResult, Misfit> {
        match Members::new(alloc, value)
            .required("applied")
            .optional("failureReason")
            .optional("failedChange")
            .end()
        {
            Ok(read) => {
                let ((((), applied), failure_reason), failed_change) = read;
                Ok(ApplyWorkspaceEditResult {
                    applied,
                    failure_reason,
                    failed_change,
                })
            }
            Err(misfit) => Err(misfit),
        }
    }
}
