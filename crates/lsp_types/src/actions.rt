//! Code actions: fixes and refactorings that a user may choose.
// `tools/types` wrote this file from `types.txt`: change that.
ghost use Rattle.std.specs.Prelude.{◌∷◌, [], Some, codes, option_map};
ghost use Rattle.serde_json.specs.Data.{number, unsigned};
ghost use Rattle.serde_json.specs.View.{view};
ghost use Rattle.lsp_types.specs.Json.{object_of, object_with};
ghost use Rattle.lsp_types.specs.Reads.{Beside, IfFits, IsObject, IsWithin, NoneReads, Optional, Required, ThoseThatFit, ◌and◌};

use crate::diagnostics::Diagnostic;
use crate::documents::TextDocumentIdentifier;
use crate::edits::WorkspaceEdit;
use crate::json::{
    FromJson, KnownMembers, Members, Misfit, ToJson, fitting, number_within, write_member,
    write_some, write_with,
};
use crate::progress::ProgressToken;
use crate::workspace::Command;
use lsp_json::JsonRef;
use lsp_json_write::JsonSink;
use lsp_text::Range;
use serde_json::Value;
use std::alloc::Global;

/// The params of `textDocument/codeAction` (LSP 3.17, "Code Action Request"). The result is a list of
/// `CodeActionOrCommand` or null.
#[derive(Drop)]
pub struct CodeActionParams {
    /// The document.
    pub text_document: TextDocumentIdentifier,
    /// The part for which actions are requested.
    pub range: Range,
    /// The context of the request.
    pub context: CodeActionContext,
    /// The token to report progress with. `None` means that no progress is requested, or that the token does not fit.
    pub work_done_token: Option<ProgressToken>,
    /// The token to send parts of the result with. `None` means that no parts are requested, or that the token does not
    /// fit.
    pub partial_result_token: Option<ProgressToken>,
}

impl ToJson for CodeActionParams {
    ghost stands = { λ it. object_of (
        (codes "context", Some (⟦<CodeActionContext as ToJson>⟧.stands it.context))
        ∷ (codes "partialResultToken", option_map ⟦<ProgressToken as ToJson>⟧.stands it.partial_result_token)
        ∷ (codes "range", Some (⟦<Range as ToJson>⟧.stands it.range))
        ∷ (codes "textDocument", Some (⟦<TextDocumentIdentifier as ToJson>⟧.stands it.text_document))
        ∷ (codes "workDoneToken", option_map ⟦<ProgressToken as ToJson>⟧.stands it.work_done_token) ∷ []) };

    fn write_json<S: JsonSink>(&self, out: &mut S) -> Result<(), S::Error> {
        out.begin_object()?;
        write_member(out, "context", &self.context)?;
        write_some(out, "partialResultToken", &self.partial_result_token)?;
        write_member(out, "range", &self.range)?;
        write_member(out, "textDocument", &self.text_document)?;
        write_some(out, "workDoneToken", &self.work_done_token)?;
        out.end_object()
    }
}

impl FromJson for CodeActionParams {
    ghost reads = { λ json it. IsObject json
        and Required ⟦<TextDocumentIdentifier as FromJson>⟧.reads (codes "textDocument") json it.text_document
        and Required ⟦<Range as FromJson>⟧.reads (codes "range") json it.range
        and Required ⟦<CodeActionContext as FromJson>⟧.reads (codes "context") json it.context
        and IfFits ⟦<ProgressToken as FromJson>⟧.reads (codes "workDoneToken") json it.work_done_token
        and IfFits ⟦<ProgressToken as FromJson>⟧.reads (codes "partialResultToken") json it.partial_result_token };

    fn from_json(alloc: Global, value: &JsonRef<'_>) -> Result<CodeActionParams, Misfit> {
        match Members::new(alloc, value)
            .required("textDocument")
            .required("range")
            .required("context")
            .if_fits("workDoneToken")
            .if_fits("partialResultToken")
            .end()
        {
            Ok(read) => {
                let (read, partial_result_token) = read;
                let (read, work_done_token) = read;
                let (read, context) = read;
                let (read, range) = read;
                let ((), text_document) = read;
                Ok(CodeActionParams {
                    text_document,
                    range,
                    context,
                    work_done_token,
                    partial_result_token,
                })
            }
            Err(misfit) => Err(misfit),
        }
    }
}

/// The context of a request for code actions (LSP 3.17, "CodeActionContext").
#[derive(Drop)]
pub struct CodeActionContext {
    /// The diagnostics that the client shows there, from each server and tool. When read, one that does not fit is left
    /// out.
    pub diagnostics: Vec<Diagnostic>,
    /// The requested kinds (`code_action_kinds`), each with those below it.
    pub only: Option<Vec<String>>,
    /// Why they are requested. When read, it is `None` if it does not fit.
    pub trigger_kind: Option<CodeActionTriggerKind>,
}

impl ToJson for CodeActionContext {
    ghost stands = { λ it. object_of (
        (codes "diagnostics", Some (⟦<Vec<Diagnostic> as ToJson>⟧.stands it.diagnostics))
        ∷ (codes "only", option_map ⟦<Vec<String> as ToJson>⟧.stands it.only)
        ∷ (codes "triggerKind", option_map ⟦<CodeActionTriggerKind as ToJson>⟧.stands it.trigger_kind) ∷ []) };

    fn write_json<S: JsonSink>(&self, out: &mut S) -> Result<(), S::Error> {
        out.begin_object()?;
        write_member(out, "diagnostics", &self.diagnostics)?;
        write_some(out, "only", &self.only)?;
        write_some(out, "triggerKind", &self.trigger_kind)?;
        out.end_object()
    }
}

impl FromJson for CodeActionContext {
    ghost reads = { λ json it. IsObject json
        and ThoseThatFit ⟦<Diagnostic as FromJson>⟧.reads (codes "diagnostics") json it.diagnostics
        and Optional ⟦<Vec<String> as FromJson>⟧.reads (codes "only") json it.only
        and IfFits ⟦<CodeActionTriggerKind as FromJson>⟧.reads (codes "triggerKind") json it.trigger_kind };

    fn from_json(alloc: Global, value: &JsonRef<'_>) -> Result<CodeActionContext, Misfit> {
        match Members::new(alloc, value)
            .those_that_fit("diagnostics")
            .optional("only")
            .if_fits("triggerKind")
            .end()
        {
            Ok(read) => {
                let ((((), diagnostics), only), trigger_kind) = read;
                Ok(CodeActionContext {
                    diagnostics,
                    only,
                    trigger_kind,
                })
            }
            Err(misfit) => Err(misfit),
        }
    }
}

/// Why code actions are requested (LSP 3.17, "CodeActionTriggerKind"). On reading, another number is refused.
#[derive(Clone, Copy, Drop)]
pub struct CodeActionTriggerKind(pub u32);

impl CodeActionTriggerKind {
    /// The user asked.
    pub const INVOKED: CodeActionTriggerKind = CodeActionTriggerKind(1);
    /// The client asked, because the cursor moved or the text changed.
    pub const AUTOMATIC: CodeActionTriggerKind = CodeActionTriggerKind(2);
}

impl ToJson for CodeActionTriggerKind {
    ghost stands = { λ it. number (unsigned it.0) };

    fn write_json<S: JsonSink>(&self, out: &mut S) -> Result<(), S::Error> {
        self.0.write_json(out)
    }
}

impl FromJson for CodeActionTriggerKind {
    ghost reads = { λ json it. IsWithin 1 2 json it.0 };

    fn from_json(alloc: Global, value: &JsonRef<'_>) -> Result<CodeActionTriggerKind, Misfit> {
        match number_within(alloc, value, 1, 2) {
            Ok(number) => Ok(CodeActionTriggerKind(number)),
            Err(misfit) => Err(misfit),
        }
    }
}

/// Why a change can't be chosen now (LSP 3.17, "CodeAction").
#[derive(Drop)]
pub struct CodeActionDisabled {
    /// The reason, for people.
    pub reason: String,
}

impl ToJson for CodeActionDisabled {
    ghost stands = { λ it. object_of (
        (codes "reason", Some (⟦<String as ToJson>⟧.stands it.reason)) ∷ []) };

    fn write_json<S: JsonSink>(&self, out: &mut S) -> Result<(), S::Error> {
        out.begin_object()?;
        write_member(out, "reason", &self.reason)?;
        out.end_object()
    }
}

impl FromJson for CodeActionDisabled {
    ghost reads = { λ json it. IsObject json
        and Required ⟦<String as FromJson>⟧.reads (codes "reason") json it.reason };

    fn from_json(alloc: Global, value: &JsonRef<'_>) -> Result<CodeActionDisabled, Misfit> {
        match Members::new(alloc, value).required("reason").end() {
            Ok(read) => {
                let ((), reason) = read;
                Ok(CodeActionDisabled { reason })
            }
            Err(misfit) => Err(misfit),
        }
    }
}

/// A change that a user may choose (LSP 3.17, "CodeAction").
#[derive(Drop)]
pub struct CodeAction {
    /// What is shown.
    pub title: String,
    /// Its kind (`code_action_kinds`).
    pub kind: Option<String>,
    /// The diagnostics that it fixes.
    pub diagnostics: Option<Vec<Diagnostic>>,
    /// Whether it is applied if the user does not choose, for example by a key for fixes.
    pub is_preferred: Option<bool>,
    /// Why it can't be chosen now.
    pub disabled: Option<CodeActionDisabled>,
    /// What it changes, before its command is sent.
    pub edit: Option<WorkspaceEdit>,
    /// The command that the client sends after the edit.
    pub command: Option<Command>,
    /// The client returns this value in `codeAction/resolve`.
    pub data: Option<Value>,
    /// An object with members that LSP 3.17 does not name, for example those of a newer client or server. They are
    /// written beside the members above. When read, it is `None` if there are none. If a field above has the same name,
    /// the member here counts.
    pub more: Option<Value>,
}

impl CodeAction {
    ghost use Rattle.std.specs.Prelude.{◌≡◌, Some, None};

    /// Makes an action with this title and this kind, without an edit.
    pub fn new(title: String, kind: String) -> CodeAction
        ensures { result ≡ record {
          title = title;
          kind = Some kind;
          diagnostics = None;
          is_preferred = None;
          disabled = None;
          edit = None;
          command = None;
          «data» = None;
          more = None;
        } }
    {
        CodeAction {
            title,
            kind: Some(kind),
            diagnostics: None,
            is_preferred: None,
            disabled: None,
            edit: None,
            command: None,
            data: None,
            more: None,
        }
    }
}

impl KnownMembers for CodeAction {
    ghost known = { λ it. (codes "command", option_map ⟦<Command as ToJson>⟧.stands it.command)
        ∷ (codes "data", option_map ⟦<Value as ToJson>⟧.stands it.«data»)
        ∷ (codes "diagnostics", option_map ⟦<Vec<Diagnostic> as ToJson>⟧.stands it.diagnostics)
        ∷ (codes "disabled", option_map ⟦<CodeActionDisabled as ToJson>⟧.stands it.disabled)
        ∷ (codes "edit", option_map ⟦<WorkspaceEdit as ToJson>⟧.stands it.edit)
        ∷ (codes "isPreferred", option_map ⟦<bool as ToJson>⟧.stands it.is_preferred)
        ∷ (codes "kind", option_map ⟦<String as ToJson>⟧.stands it.kind)
        ∷ (codes "title", Some (⟦<String as ToJson>⟧.stands it.title)) ∷ [] };

    fn write_known<S: JsonSink>(&self, out: &mut S) -> Result<(), S::Error> {
        out.begin_object()?;
        write_some(out, "command", &self.command)?;
        write_some(out, "data", &self.data)?;
        write_some(out, "diagnostics", &self.diagnostics)?;
        write_some(out, "disabled", &self.disabled)?;
        write_some(out, "edit", &self.edit)?;
        write_some(out, "isPreferred", &self.is_preferred)?;
        write_some(out, "kind", &self.kind)?;
        write_member(out, "title", &self.title)?;
        out.end_object()
    }
}

impl ToJson for CodeAction {
    ghost stands = { λ it. object_with (⟦<CodeAction as KnownMembers>⟧.known it) (option_map view it.more) };

    fn write_json<S: JsonSink>(&self, out: &mut S) -> Result<(), S::Error> {
        write_with(out, self, &self.more)
    }
}

impl FromJson for CodeAction {
    ghost reads = { λ json it. IsObject json
        and Required ⟦<String as FromJson>⟧.reads (codes "title") json it.title
        and Optional ⟦<String as FromJson>⟧.reads (codes "kind") json it.kind
        and Optional ⟦<Vec<Diagnostic> as FromJson>⟧.reads (codes "diagnostics") json it.diagnostics
        and Optional ⟦<bool as FromJson>⟧.reads (codes "isPreferred") json it.is_preferred
        and Optional ⟦<CodeActionDisabled as FromJson>⟧.reads (codes "disabled") json it.disabled
        and Optional ⟦<WorkspaceEdit as FromJson>⟧.reads (codes "edit") json it.edit
        and Optional ⟦<Command as FromJson>⟧.reads (codes "command") json it.command
        and Optional ⟦<Value as FromJson>⟧.reads (codes "data") json it.«data»
        and Beside (codes "title" ∷ codes "kind" ∷ codes "diagnostics" ∷ codes "isPreferred" ∷ codes "disabled" ∷ codes "edit" ∷ codes "command" ∷ codes "data" ∷ []) json it.more };

    fn from_json(alloc: Global, value: &JsonRef<'_>) -> Result<CodeAction, Misfit> {
        match Members::new(alloc, value)
            .required("title")
            .optional("kind")
            .optional("diagnostics")
            .optional("isPreferred")
            .optional("disabled")
            .optional("edit")
            .optional("command")
            .optional("data")
            .rest(&[
                "title",
                "kind",
                "diagnostics",
                "isPreferred",
                "disabled",
                "edit",
                "command",
                "data",
            ])
            .end()
        {
            Ok(read) => {
                let (read, more) = read;
                let (read, data) = read;
                let (read, command) = read;
                let (read, edit) = read;
                let (read, disabled) = read;
                let (read, is_preferred) = read;
                let (read, diagnostics) = read;
                let (read, kind) = read;
                let ((), title) = read;
                Ok(CodeAction {
                    title,
                    kind,
                    diagnostics,
                    is_preferred,
                    disabled,
                    edit,
                    command,
                    data,
                    more,
                })
            }
            Err(misfit) => Err(misfit),
        }
    }
}

/// What a user may choose (LSP 3.17, "Code Action Request"). In a command, `command` is a string; in a code action it
/// is not.
#[derive(Drop)]
pub enum CodeActionOrCommand {
    /// A command that the client sends.
    Command(Command),
    /// A change, and perhaps a command.
    Action(CodeAction),
}

impl ToJson for CodeActionOrCommand {
    ghost use Rattle.lsp_types.specs.declared.actions.CodeActionOrCommand.TheVariants.{Command, Action};

    ghost stands = { elim [
      | Command it ↦ ⟦<Command as ToJson>⟧.stands it
      | Action it ↦ ⟦<CodeAction as ToJson>⟧.stands it
    ] };

    fn write_json<S: JsonSink>(&self, out: &mut S) -> Result<(), S::Error> {
        match self {
            CodeActionOrCommand::Command(it) => it.write_json(out),
            CodeActionOrCommand::Action(it) => it.write_json(out),
        }
    }
}

impl FromJson for CodeActionOrCommand {
    ghost use Rattle.lsp_types.specs.declared.actions.CodeActionOrCommand.TheVariants.{Command, Action};

    ghost reads = { λ json. elim [
      | Command it ↦ ⟦<Command as FromJson>⟧.reads json it
      | Action it ↦ NoneReads ⟦<Command as FromJson>⟧.reads json × ⟦<CodeAction as FromJson>⟧.reads json it
    ] };

    fn from_json(alloc: Global, value: &JsonRef<'_>) -> Result<CodeActionOrCommand, Misfit> {
        if let Some(it) = fitting(alloc, value)? {
            return Ok(CodeActionOrCommand::Command(it));
        }
        match FromJson::from_json(alloc, value) {
            Ok(it) => Ok(CodeActionOrCommand::Action(it)),
            Err(misfit) => Err(misfit),
        }
    }
}
