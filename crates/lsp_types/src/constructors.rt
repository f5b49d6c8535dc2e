// Values of types that are made of less than their fields.
ghost use Rattle.std.specs.Prelude.{◌≡◌};

use crate::actions::CodeAction;
use crate::capabilities::ServerCapabilities;
use crate::choices::MarkupKind;
use crate::edits::{TextEdit, WorkspaceEdit};
use crate::hovers::{Hover, HoverContents, MarkupContent};
use crate::lifecycle::{InitializeResult, ServerInfo};
use crate::window::MessageType;
use crate::workspace::{ConfigurationItem, ConfigurationParams};
use std::alloc::{AllocError, Global};
use std::collections::BTreeMap;

impl Hover {
    ghost use Rattle.std.specs.Prelude.{◌≡◌, None};
    ghost use Rattle.lsp_types.specs.declared.hovers.HoverContents.TheVariants.{Markup};

    /// Makes a hover with one text, about the requested place.
    pub fn new(kind: MarkupKind, value: String) -> Hover
        ensures { result ≡ record {
          contents = Markup (record { kind = kind; value = value });
          range = None;
        } }
    {
        Hover {
            contents: HoverContents::Markup(MarkupContent { kind, value }),
            range: None,
        }
    }
}

impl InitializeResult {
    ghost use Rattle.std.specs.Prelude.{◌≡◌, None, Some, IfOk, option_map, string_bytes};

    /// Makes the result from the server's capabilities and its name. `Err` means that an allocation failed.
    pub fn new(
        alloc: Global,
        capabilities: ServerCapabilities,
        name: &str,
    ) -> Result<InitializeResult, AllocError>
        ensures capabilities { IfOk result (λ r. r.«capabilities» ≡ «capabilities») }
        ensures name { IfOk result (λ r.
            option_map (λ info. string_bytes info.«name») r.server_info ≡ Some «name».now) }
        ensures version { IfOk result (λ r. option_map (λ info. info.version) r.server_info ≡ Some None) }
    {
        match String::from_str(alloc, name) {
            Ok(name) => Ok(InitializeResult {
                capabilities,
                server_info: Some(ServerInfo {
                    name,
                    version: None,
                }),
            }),
            Err(failed) => {
                drop(capabilities);
                Err(failed)
            }
        }
    }
}

impl ConfigurationParams {
    ghost use Rattle.std.specs.Prelude.{◌≡◌, ◌∷◌, [], Some, None, IfOk, option_map, string_bytes};
    ghost use Rattle.lsp_types.specs.declared.workspace.ConfigurationItem.{ConfigurationItem as Item};

    /// Makes params that request one section, for no document in particular. `Err` means that an allocation failed.
    pub fn section(alloc: Global, section: &str) -> Result<ConfigurationParams, AllocError>
        ensures { IfOk result (λ params. (item : Item) × (params.items.items ≡ item ∷ [])
            × (item.scope_uri ≡ None)
            × (option_map string_bytes item.«section» ≡ Some «section».now)) }
    {
        let item = ConfigurationItem {
            scope_uri: None,
            section: Some(String::from_str(alloc, section)?),
        };
        Ok(ConfigurationParams {
            items: vec![in alloc; item]?,
        })
    }
}

impl From<MessageType> for u32 {
    ghost from_gives = { λ kind number. number ≡ kind.0 };

    fn from(kind: MessageType) -> u32 {
        kind.0
    }
}

impl WorkspaceEdit {
    ghost use Rattle.std.specs.Prelude.{◌≡◌, ◌∷◌, [], None, Some, IfOk, option_map};

    /// Makes an edit with changes of one document. `Err` means that an allocation failed.
    pub fn of_document(
        alloc: Global,
        uri: String,
        edits: Vec<TextEdit>,
    ) -> Result<WorkspaceEdit, AllocError>
        ensures changes { IfOk result (λ edit.
            option_map (λ changes. changes.entries) edit.changes ≡ Some ((uri, edits) ∷ [])) }
        ensures others { IfOk result (λ edit.
            (edit.document_changes ≡ None) × (edit.change_annotations ≡ None)) }
    {
        let mut changes = BTreeMap::new(alloc);
        drop(changes.insert(uri, edits)?);
        Ok(WorkspaceEdit {
            changes: Some(changes),
            document_changes: None,
            change_annotations: None,
        })
    }
}

impl CodeAction {
    ghost use Rattle.std.specs.Prelude.{◌≡◌, None, Some};

    /// Makes an action with this title and this kind (`code_action_kinds`), which makes this edit.
    pub fn with_edit(title: String, kind: String, edit: WorkspaceEdit) -> CodeAction
        ensures { result ≡ record {
          title = title;
          kind = Some kind;
          diagnostics = None;
          is_preferred = None;
          disabled = None;
          edit = Some edit;
          command = None;
          «data» = None;
          more = None;
        } }
    {
        CodeAction {
            title,
            kind: Some(kind),
            diagnostics: None,
            is_preferred: None,
            disabled: None,
            edit: Some(edit),
            command: None,
            data: None,
            more: None,
        }
    }
}
