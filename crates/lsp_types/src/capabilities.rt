//! What a server can do. A struct of options whose fields are all `None` means the same as the standard's `true`.
// `tools/types` wrote this file from `types.txt`: change that.
ghost use Rattle.std.specs.Prelude.{◌∷◌, [], Some, codes, option_map};
ghost use Rattle.serde_json.specs.Data.{number, unsigned};
ghost use Rattle.serde_json.specs.View.{view};
ghost use Rattle.lsp_types.specs.Json.{object_of, object_with};
ghost use Rattle.lsp_types.specs.Offers.{NumberOr, Offered, Options};
ghost use Rattle.lsp_types.specs.Reads.{Beside, IsObject, IsWithin, NoneReads, Optional, Required, ◌and◌};

use crate::json::{
    FromJson, KnownMembers, Members, Misfit, ToJson, fitting, number_within, write_member,
    write_some, write_with,
};
use lsp_json::JsonRef;
use lsp_json_write::JsonSink;
use serde_json::Value;
use std::alloc::Global;

/// What a server can do (LSP 3.17, "ServerCapabilities"). `more` has the members without a field.
#[derive(Drop)]
pub struct ServerCapabilities {
    /// What `Position::character` counts: `utf-8`, `utf-16` or `utf-32`. `None` means `utf-16`.
    pub position_encoding: Option<String>,
    /// Which notifications about documents the client is to send.
    pub text_document_sync: Option<TextDocumentSyncOptions>,
    /// Which notifications about notebooks the client is to send: an object.
    pub notebook_document_sync: Option<Value>,
    /// `textDocument/completion`.
    pub completion_provider: Option<CompletionOptions>,
    /// `textDocument/hover`.
    pub hover_provider: Option<bool>,
    /// `textDocument/signatureHelp`.
    pub signature_help_provider: Option<SignatureHelpOptions>,
    /// `textDocument/declaration`.
    pub declaration_provider: Option<bool>,
    /// `textDocument/definition`.
    pub definition_provider: Option<bool>,
    /// `textDocument/typeDefinition`.
    pub type_definition_provider: Option<bool>,
    /// `textDocument/implementation`.
    pub implementation_provider: Option<bool>,
    /// `textDocument/references`.
    pub references_provider: Option<bool>,
    /// `textDocument/documentHighlight`.
    pub document_highlight_provider: Option<bool>,
    /// `textDocument/documentSymbol`.
    pub document_symbol_provider: Option<bool>,
    /// `textDocument/codeAction`.
    pub code_action_provider: Option<CodeActionOptions>,
    /// `textDocument/codeLens`.
    pub code_lens_provider: Option<CodeLensOptions>,
    /// `textDocument/documentLink`.
    pub document_link_provider: Option<DocumentLinkOptions>,
    /// `textDocument/documentColor` and `colorPresentation`.
    pub color_provider: Option<bool>,
    /// `textDocument/formatting`.
    pub document_formatting_provider: Option<bool>,
    /// `textDocument/rangeFormatting`.
    pub document_range_formatting_provider: Option<bool>,
    /// `textDocument/onTypeFormatting`.
    pub document_on_type_formatting_provider: Option<DocumentOnTypeFormattingOptions>,
    /// `textDocument/rename`.
    pub rename_provider: Option<RenameOptions>,
    /// `textDocument/foldingRange`.
    pub folding_range_provider: Option<bool>,
    /// `textDocument/selectionRange`.
    pub selection_range_provider: Option<bool>,
    /// `workspace/executeCommand`.
    pub execute_command_provider: Option<ExecuteCommandOptions>,
    /// `textDocument/prepareCallHierarchy`, and calls from and to.
    pub call_hierarchy_provider: Option<bool>,
    /// `textDocument/linkedEditingRange`.
    pub linked_editing_range_provider: Option<bool>,
    /// `textDocument/semanticTokens/full`, and perhaps `/range`.
    pub semantic_tokens_provider: Option<SemanticTokensOptions>,
    /// `textDocument/moniker`.
    pub moniker_provider: Option<bool>,
    /// `textDocument/prepareTypeHierarchy`, and types above and below.
    pub type_hierarchy_provider: Option<bool>,
    /// `textDocument/inlineValue`.
    pub inline_value_provider: Option<bool>,
    /// `textDocument/inlayHint`.
    pub inlay_hint_provider: Option<bool>,
    /// `textDocument/diagnostic`, and perhaps `workspace/diagnostic`.
    pub diagnostic_provider: Option<DiagnosticOptions>,
    /// `workspace/symbol`.
    pub workspace_symbol_provider: Option<bool>,
    /// What it can do with the workspace.
    pub workspace: Option<WorkspaceOptions>,
    /// What the standard lacks.
    pub experimental: Option<Value>,
    /// An object with further members, such as `{"codeLensProvider": {}}`, which are written beside those above.
    /// Another value is ignored. If a field above has the same name, the member here counts: a tree keeps the last of
    /// two. When read, it has the members without a field.
    pub more: Option<Value>,
}

impl Default for ServerCapabilities {
    ghost use Rattle.std.specs.Prelude.{◌≡◌, None};

    /// Makes the capabilities of a server that can do nothing.
    fn default() -> ServerCapabilities
        ensures { result ≡ record {
          position_encoding = None;
          text_document_sync = None;
          notebook_document_sync = None;
          completion_provider = None;
          hover_provider = None;
          signature_help_provider = None;
          declaration_provider = None;
          definition_provider = None;
          type_definition_provider = None;
          implementation_provider = None;
          references_provider = None;
          document_highlight_provider = None;
          document_symbol_provider = None;
          code_action_provider = None;
          code_lens_provider = None;
          document_link_provider = None;
          color_provider = None;
          document_formatting_provider = None;
          document_range_formatting_provider = None;
          document_on_type_formatting_provider = None;
          rename_provider = None;
          folding_range_provider = None;
          selection_range_provider = None;
          execute_command_provider = None;
          call_hierarchy_provider = None;
          linked_editing_range_provider = None;
          semantic_tokens_provider = None;
          moniker_provider = None;
          type_hierarchy_provider = None;
          inline_value_provider = None;
          inlay_hint_provider = None;
          diagnostic_provider = None;
          workspace_symbol_provider = None;
          workspace = None;
          experimental = None;
          more = None;
        } }
    {
        ServerCapabilities {
            position_encoding: None,
            text_document_sync: None,
            notebook_document_sync: None,
            completion_provider: None,
            hover_provider: None,
            signature_help_provider: None,
            declaration_provider: None,
            definition_provider: None,
            type_definition_provider: None,
            implementation_provider: None,
            references_provider: None,
            document_highlight_provider: None,
            document_symbol_provider: None,
            code_action_provider: None,
            code_lens_provider: None,
            document_link_provider: None,
            color_provider: None,
            document_formatting_provider: None,
            document_range_formatting_provider: None,
            document_on_type_formatting_provider: None,
            rename_provider: None,
            folding_range_provider: None,
            selection_range_provider: None,
            execute_command_provider: None,
            call_hierarchy_provider: None,
            linked_editing_range_provider: None,
            semantic_tokens_provider: None,
            moniker_provider: None,
            type_hierarchy_provider: None,
            inline_value_provider: None,
            inlay_hint_provider: None,
            diagnostic_provider: None,
            workspace_symbol_provider: None,
            workspace: None,
            experimental: None,
            more: None,
        }
    }
}

impl KnownMembers for ServerCapabilities {
    ghost known = { λ it. (codes "callHierarchyProvider", option_map ⟦<bool as ToJson>⟧.stands it.call_hierarchy_provider)
        ∷ (codes "codeActionProvider", option_map ⟦<CodeActionOptions as ToJson>⟧.stands it.code_action_provider)
        ∷ (codes "codeLensProvider", option_map ⟦<CodeLensOptions as ToJson>⟧.stands it.code_lens_provider)
        ∷ (codes "colorProvider", option_map ⟦<bool as ToJson>⟧.stands it.color_provider)
        ∷ (codes "completionProvider", option_map ⟦<CompletionOptions as ToJson>⟧.stands it.completion_provider)
        ∷ (codes "declarationProvider", option_map ⟦<bool as ToJson>⟧.stands it.declaration_provider)
        ∷ (codes "definitionProvider", option_map ⟦<bool as ToJson>⟧.stands it.definition_provider)
        ∷ (codes "diagnosticProvider", option_map ⟦<DiagnosticOptions as ToJson>⟧.stands it.diagnostic_provider)
        ∷ (codes "documentFormattingProvider", option_map ⟦<bool as ToJson>⟧.stands it.document_formatting_provider)
        ∷ (codes "documentHighlightProvider", option_map ⟦<bool as ToJson>⟧.stands it.document_highlight_provider)
        ∷ (codes "documentLinkProvider", option_map ⟦<DocumentLinkOptions as ToJson>⟧.stands it.document_link_provider)
        ∷ (codes "documentOnTypeFormattingProvider", option_map ⟦<DocumentOnTypeFormattingOptions as ToJson>⟧.stands it.document_on_type_formatting_provider)
        ∷ (codes "documentRangeFormattingProvider", option_map ⟦<bool as ToJson>⟧.stands it.document_range_formatting_provider)
        ∷ (codes "documentSymbolProvider", option_map ⟦<bool as ToJson>⟧.stands it.document_symbol_provider)
        ∷ (codes "executeCommandProvider", option_map ⟦<ExecuteCommandOptions as ToJson>⟧.stands it.execute_command_provider)
        ∷ (codes "experimental", option_map ⟦<Value as ToJson>⟧.stands it.experimental)
        ∷ (codes "foldingRangeProvider", option_map ⟦<bool as ToJson>⟧.stands it.folding_range_provider)
        ∷ (codes "hoverProvider", option_map ⟦<bool as ToJson>⟧.stands it.hover_provider)
        ∷ (codes "implementationProvider", option_map ⟦<bool as ToJson>⟧.stands it.implementation_provider)
        ∷ (codes "inlayHintProvider", option_map ⟦<bool as ToJson>⟧.stands it.inlay_hint_provider)
        ∷ (codes "inlineValueProvider", option_map ⟦<bool as ToJson>⟧.stands it.inline_value_provider)
        ∷ (codes "linkedEditingRangeProvider", option_map ⟦<bool as ToJson>⟧.stands it.linked_editing_range_provider)
        ∷ (codes "monikerProvider", option_map ⟦<bool as ToJson>⟧.stands it.moniker_provider)
        ∷ (codes "notebookDocumentSync", option_map ⟦<Value as ToJson>⟧.stands it.notebook_document_sync)
        ∷ (codes "positionEncoding", option_map ⟦<String as ToJson>⟧.stands it.position_encoding)
        ∷ (codes "referencesProvider", option_map ⟦<bool as ToJson>⟧.stands it.references_provider)
        ∷ (codes "renameProvider", option_map ⟦<RenameOptions as ToJson>⟧.stands it.rename_provider)
        ∷ (codes "selectionRangeProvider", option_map ⟦<bool as ToJson>⟧.stands it.selection_range_provider)
        ∷ (codes "semanticTokensProvider", option_map ⟦<SemanticTokensOptions as ToJson>⟧.stands it.semantic_tokens_provider)
        ∷ (codes "signatureHelpProvider", option_map ⟦<SignatureHelpOptions as ToJson>⟧.stands it.signature_help_provider)
        ∷ (codes "textDocumentSync", option_map ⟦<TextDocumentSyncOptions as ToJson>⟧.stands it.text_document_sync)
        ∷ (codes "typeDefinitionProvider", option_map ⟦<bool as ToJson>⟧.stands it.type_definition_provider)
        ∷ (codes "typeHierarchyProvider", option_map ⟦<bool as ToJson>⟧.stands it.type_hierarchy_provider)
        ∷ (codes "workspace", option_map ⟦<WorkspaceOptions as ToJson>⟧.stands it.workspace)
        ∷ (codes "workspaceSymbolProvider", option_map ⟦<bool as ToJson>⟧.stands it.workspace_symbol_provider) ∷ [] };

    fn write_known<S: JsonSink>(&self, out: &mut S) -> Result<(), S::Error> {
        out.begin_object()?;
        write_some(out, "callHierarchyProvider", &self.call_hierarchy_provider)?;
        write_some(out, "codeActionProvider", &self.code_action_provider)?;
        write_some(out, "codeLensProvider", &self.code_lens_provider)?;
        write_some(out, "colorProvider", &self.color_provider)?;
        write_some(out, "completionProvider", &self.completion_provider)?;
        write_some(out, "declarationProvider", &self.declaration_provider)?;
        write_some(out, "definitionProvider", &self.definition_provider)?;
        write_some(out, "diagnosticProvider", &self.diagnostic_provider)?;
        write_some(
            out,
            "documentFormattingProvider",
            &self.document_formatting_provider,
        )?;
        write_some(
            out,
            "documentHighlightProvider",
            &self.document_highlight_provider,
        )?;
        write_some(out, "documentLinkProvider", &self.document_link_provider)?;
        write_some(
            out,
            "documentOnTypeFormattingProvider",
            &self.document_on_type_formatting_provider,
        )?;
        write_some(
            out,
            "documentRangeFormattingProvider",
            &self.document_range_formatting_provider,
        )?;
        write_some(
            out,
            "documentSymbolProvider",
            &self.document_symbol_provider,
        )?;
        write_some(
            out,
            "executeCommandProvider",
            &self.execute_command_provider,
        )?;
        write_some(out, "experimental", &self.experimental)?;
        write_some(out, "foldingRangeProvider", &self.folding_range_provider)?;
        write_some(out, "hoverProvider", &self.hover_provider)?;
        write_some(out, "implementationProvider", &self.implementation_provider)?;
        write_some(out, "inlayHintProvider", &self.inlay_hint_provider)?;
        write_some(out, "inlineValueProvider", &self.inline_value_provider)?;
        write_some(
            out,
            "linkedEditingRangeProvider",
            &self.linked_editing_range_provider,
        )?;
        write_some(out, "monikerProvider", &self.moniker_provider)?;
        write_some(out, "notebookDocumentSync", &self.notebook_document_sync)?;
        write_some(out, "positionEncoding", &self.position_encoding)?;
        write_some(out, "referencesProvider", &self.references_provider)?;
        write_some(out, "renameProvider", &self.rename_provider)?;
        write_some(
            out,
            "selectionRangeProvider",
            &self.selection_range_provider,
        )?;
        write_some(
            out,
            "semanticTokensProvider",
            &self.semantic_tokens_provider,
        )?;
        write_some(out, "signatureHelpProvider", &self.signature_help_provider)?;
        write_some(out, "textDocumentSync", &self.text_document_sync)?;
        write_some(
            out,
            "typeDefinitionProvider",
            &self.type_definition_provider,
        )?;
        write_some(out, "typeHierarchyProvider", &self.type_hierarchy_provider)?;
        write_some(out, "workspace", &self.workspace)?;
        write_some(
            out,
            "workspaceSymbolProvider",
            &self.workspace_symbol_provider,
        )?;
        out.end_object()
    }
}

impl ToJson for ServerCapabilities {
    ghost stands = { λ it. object_with (⟦<ServerCapabilities as KnownMembers>⟧.known it) (option_map view it.more) };

    fn write_json<S: JsonSink>(&self, out: &mut S) -> Result<(), S::Error> {
        write_with(out, self, &self.more)
    }
}

impl FromJson for ServerCapabilities {
    ghost reads = { λ json it. IsObject json
        and Optional ⟦<String as FromJson>⟧.reads (codes "positionEncoding") json it.position_encoding
        and NumberOr ⟦<TextDocumentSyncOptions as FromJson>⟧.reads (codes "change") (codes "textDocumentSync") json it.text_document_sync
        and Optional ⟦<Value as FromJson>⟧.reads (codes "notebookDocumentSync") json it.notebook_document_sync
        and Optional ⟦<CompletionOptions as FromJson>⟧.reads (codes "completionProvider") json it.completion_provider
        and Offered (codes "hoverProvider") json it.hover_provider
        and Optional ⟦<SignatureHelpOptions as FromJson>⟧.reads (codes "signatureHelpProvider") json it.signature_help_provider
        and Offered (codes "declarationProvider") json it.declaration_provider
        and Offered (codes "definitionProvider") json it.definition_provider
        and Offered (codes "typeDefinitionProvider") json it.type_definition_provider
        and Offered (codes "implementationProvider") json it.implementation_provider
        and Offered (codes "referencesProvider") json it.references_provider
        and Offered (codes "documentHighlightProvider") json it.document_highlight_provider
        and Offered (codes "documentSymbolProvider") json it.document_symbol_provider
        and Options ⟦<CodeActionOptions as FromJson>⟧.reads (codes "codeActionProvider") json it.code_action_provider
        and Optional ⟦<CodeLensOptions as FromJson>⟧.reads (codes "codeLensProvider") json it.code_lens_provider
        and Optional ⟦<DocumentLinkOptions as FromJson>⟧.reads (codes "documentLinkProvider") json it.document_link_provider
        and Offered (codes "colorProvider") json it.color_provider
        and Offered (codes "documentFormattingProvider") json it.document_formatting_provider
        and Offered (codes "documentRangeFormattingProvider") json it.document_range_formatting_provider
        and Optional ⟦<DocumentOnTypeFormattingOptions as FromJson>⟧.reads (codes "documentOnTypeFormattingProvider") json it.document_on_type_formatting_provider
        and Options ⟦<RenameOptions as FromJson>⟧.reads (codes "renameProvider") json it.rename_provider
        and Offered (codes "foldingRangeProvider") json it.folding_range_provider
        and Offered (codes "selectionRangeProvider") json it.selection_range_provider
        and Optional ⟦<ExecuteCommandOptions as FromJson>⟧.reads (codes "executeCommandProvider") json it.execute_command_provider
        and Offered (codes "callHierarchyProvider") json it.call_hierarchy_provider
        and Offered (codes "linkedEditingRangeProvider") json it.linked_editing_range_provider
        and Optional ⟦<SemanticTokensOptions as FromJson>⟧.reads (codes "semanticTokensProvider") json it.semantic_tokens_provider
        and Offered (codes "monikerProvider") json it.moniker_provider
        and Offered (codes "typeHierarchyProvider") json it.type_hierarchy_provider
        and Offered (codes "inlineValueProvider") json it.inline_value_provider
        and Offered (codes "inlayHintProvider") json it.inlay_hint_provider
        and Optional ⟦<DiagnosticOptions as FromJson>⟧.reads (codes "diagnosticProvider") json it.diagnostic_provider
        and Offered (codes "workspaceSymbolProvider") json it.workspace_symbol_provider
        and Optional ⟦<WorkspaceOptions as FromJson>⟧.reads (codes "workspace") json it.workspace
        and Optional ⟦<Value as FromJson>⟧.reads (codes "experimental") json it.experimental
        and Beside (codes "positionEncoding" ∷ codes "textDocumentSync" ∷ codes "notebookDocumentSync" ∷ codes "completionProvider" ∷ codes "hoverProvider" ∷ codes "signatureHelpProvider" ∷ codes "declarationProvider" ∷ codes "definitionProvider" ∷ codes "typeDefinitionProvider" ∷ codes "implementationProvider" ∷ codes "referencesProvider" ∷ codes "documentHighlightProvider" ∷ codes "documentSymbolProvider" ∷ codes "codeActionProvider" ∷ codes "codeLensProvider" ∷ codes "documentLinkProvider" ∷ codes "colorProvider" ∷ codes "documentFormattingProvider" ∷ codes "documentRangeFormattingProvider" ∷ codes "documentOnTypeFormattingProvider" ∷ codes "renameProvider" ∷ codes "foldingRangeProvider" ∷ codes "selectionRangeProvider" ∷ codes "executeCommandProvider" ∷ codes "callHierarchyProvider" ∷ codes "linkedEditingRangeProvider" ∷ codes "semanticTokensProvider" ∷ codes "monikerProvider" ∷ codes "typeHierarchyProvider" ∷ codes "inlineValueProvider" ∷ codes "inlayHintProvider" ∷ codes "diagnosticProvider" ∷ codes "workspaceSymbolProvider" ∷ codes "workspace" ∷ codes "experimental" ∷ []) json it.more };

    fn from_json(alloc: Global, value: &JsonRef<'_>) -> Result<ServerCapabilities, Misfit> {
        match Members::new(alloc, value)
            .optional("positionEncoding")
            .number_or("textDocumentSync", "change")
            .optional("notebookDocumentSync")
            .optional("completionProvider")
            .offered("hoverProvider")
            .optional("signatureHelpProvider")
            .offered("declarationProvider")
            .offered("definitionProvider")
            .offered("typeDefinitionProvider")
            .offered("implementationProvider")
            .offered("referencesProvider")
            .offered("documentHighlightProvider")
            .offered("documentSymbolProvider")
            .options("codeActionProvider")
            .optional("codeLensProvider")
            .optional("documentLinkProvider")
            .offered("colorProvider")
            .offered("documentFormattingProvider")
            .offered("documentRangeFormattingProvider")
            .optional("documentOnTypeFormattingProvider")
            .options("renameProvider")
            .offered("foldingRangeProvider")
            .offered("selectionRangeProvider")
            .optional("executeCommandProvider")
            .offered("callHierarchyProvider")
            .offered("linkedEditingRangeProvider")
            .optional("semanticTokensProvider")
            .offered("monikerProvider")
            .offered("typeHierarchyProvider")
            .offered("inlineValueProvider")
            .offered("inlayHintProvider")
            .optional("diagnosticProvider")
            .offered("workspaceSymbolProvider")
            .optional("workspace")
            .optional("experimental")
            .rest(&[
                "positionEncoding",
                "textDocumentSync",
                "notebookDocumentSync",
                "completionProvider",
                "hoverProvider",
                "signatureHelpProvider",
                "declarationProvider",
                "definitionProvider",
                "typeDefinitionProvider",
                "implementationProvider",
                "referencesProvider",
                "documentHighlightProvider",
                "documentSymbolProvider",
                "codeActionProvider",
                "codeLensProvider",
                "documentLinkProvider",
                "colorProvider",
                "documentFormattingProvider",
                "documentRangeFormattingProvider",
                "documentOnTypeFormattingProvider",
                "renameProvider",
                "foldingRangeProvider",
                "selectionRangeProvider",
                "executeCommandProvider",
                "callHierarchyProvider",
                "linkedEditingRangeProvider",
                "semanticTokensProvider",
                "monikerProvider",
                "typeHierarchyProvider",
                "inlineValueProvider",
                "inlayHintProvider",
                "diagnosticProvider",
                "workspaceSymbolProvider",
                "workspace",
                "experimental",
            ])
            .end()
        {
            Ok(read) => {
                let (read, more) = read;
                let (read, experimental) = read;
                let (read, workspace) = read;
                let (read, workspace_symbol_provider) = read;
                let (read, diagnostic_provider) = read;
                let (read, inlay_hint_provider) = read;
                let (read, inline_value_provider) = read;
                let (read, type_hierarchy_provider) = read;
                let (read, moniker_provider) = read;
                let (read, semantic_tokens_provider) = read;
                let (read, linked_editing_range_provider) = read;
                let (read, call_hierarchy_provider) = read;
                let (read, execute_command_provider) = read;
                let (read, selection_range_provider) = read;
                let (read, folding_range_provider) = read;
                let (read, rename_provider) = read;
                let (read, document_on_type_formatting_provider) = read;
                let (read, document_range_formatting_provider) = read;
                let (read, document_formatting_provider) = read;
                let (read, color_provider) = read;
                let (read, document_link_provider) = read;
                let (read, code_lens_provider) = read;
                let (read, code_action_provider) = read;
                let (read, document_symbol_provider) = read;
                let (read, document_highlight_provider) = read;
                let (read, references_provider) = read;
                let (read, implementation_provider) = read;
                let (read, type_definition_provider) = read;
                let (read, definition_provider) = read;
                let (read, declaration_provider) = read;
                let (read, signature_help_provider) = read;
                let (read, hover_provider) = read;
                let (read, completion_provider) = read;
                let (read, notebook_document_sync) = read;
                let (read, text_document_sync) = read;
                let ((), position_encoding) = read;
                Ok(ServerCapabilities {
                    position_encoding,
                    text_document_sync,
                    notebook_document_sync,
                    completion_provider,
                    hover_provider,
                    signature_help_provider,
                    declaration_provider,
                    definition_provider,
                    type_definition_provider,
                    implementation_provider,
                    references_provider,
                    document_highlight_provider,
                    document_symbol_provider,
                    code_action_provider,
                    code_lens_provider,
                    document_link_provider,
                    color_provider,
                    document_formatting_provider,
                    document_range_formatting_provider,
                    document_on_type_formatting_provider,
                    rename_provider,
                    folding_range_provider,
                    selection_range_provider,
                    execute_command_provider,
                    call_hierarchy_provider,
                    linked_editing_range_provider,
                    semantic_tokens_provider,
                    moniker_provider,
                    type_hierarchy_provider,
                    inline_value_provider,
                    inlay_hint_provider,
                    diagnostic_provider,
                    workspace_symbol_provider,
                    workspace,
                    experimental,
                    more,
                })
            }
            Err(misfit) => Err(misfit),
        }
    }
}

/// How a client sends changes of documents (LSP 3.17, "TextDocumentSyncKind"). On reading, another number is refused.
#[derive(Clone, Copy, Drop)]
pub struct TextDocumentSyncKind(pub u32);

impl TextDocumentSyncKind {
    /// Not at all.
    pub const NONE: TextDocumentSyncKind = TextDocumentSyncKind(0);
    /// As the whole text.
    pub const FULL: TextDocumentSyncKind = TextDocumentSyncKind(1);
    /// As the parts that changed.
    pub const INCREMENTAL: TextDocumentSyncKind = TextDocumentSyncKind(2);
}

impl ToJson for TextDocumentSyncKind {
    ghost stands = { λ it. number (unsigned it.0) };

    fn write_json<S: JsonSink>(&self, out: &mut S) -> Result<(), S::Error> {
        self.0.write_json(out)
    }
}

impl FromJson for TextDocumentSyncKind {
    ghost reads = { λ json it. IsWithin 0 2 json it.0 };

    fn from_json(alloc: Global, value: &JsonRef<'_>) -> Result<TextDocumentSyncKind, Misfit> {
        match number_within(alloc, value, 0, 2) {
            Ok(number) => Ok(TextDocumentSyncKind(number)),
            Err(misfit) => Err(misfit),
        }
    }
}

/// Which notifications about documents a client is to send (LSP 3.17, "TextDocumentSyncOptions").
#[derive(Drop)]
pub struct TextDocumentSyncOptions {
    /// `textDocument/didOpen` and `didClose`.
    pub open_close: Option<bool>,
    /// How it sends changes. `None` means not at all.
    pub change: Option<TextDocumentSyncKind>,
    /// `textDocument/willSave`.
    pub will_save: Option<bool>,
    /// `textDocument/willSaveWaitUntil`.
    pub will_save_wait_until: Option<bool>,
    /// `textDocument/didSave`.
    pub save: Option<SaveOptions>,
}

impl TextDocumentSyncOptions {
    ghost use Rattle.std.specs.Prelude.{◌≡◌, Some, None, true};

    /// Makes options by which the client notifies the server of opened and closed documents, and of changes in this
    /// form, but not of saves.
    pub fn new(change: TextDocumentSyncKind) -> TextDocumentSyncOptions
        ensures { result ≡ record {
          open_close = Some true;
          change = Some change;
          will_save = None;
          will_save_wait_until = None;
          save = None;
        } }
    {
        TextDocumentSyncOptions {
            open_close: Some(true),
            change: Some(change),
            will_save: None,
            will_save_wait_until: None,
            save: None,
        }
    }
}

impl Default for TextDocumentSyncOptions {
    ghost use Rattle.std.specs.Prelude.{◌≡◌, None};

    /// Makes one in which no member is set.
    fn default() -> TextDocumentSyncOptions
        ensures { result ≡ record {
          open_close = None;
          change = None;
          will_save = None;
          will_save_wait_until = None;
          save = None;
        } }
    {
        TextDocumentSyncOptions {
            open_close: None,
            change: None,
            will_save: None,
            will_save_wait_until: None,
            save: None,
        }
    }
}

impl ToJson for TextDocumentSyncOptions {
    ghost stands = { λ it. object_of (
        (codes "change", option_map ⟦<TextDocumentSyncKind as ToJson>⟧.stands it.change)
        ∷ (codes "openClose", option_map ⟦<bool as ToJson>⟧.stands it.open_close)
        ∷ (codes "save", option_map ⟦<SaveOptions as ToJson>⟧.stands it.save)
        ∷ (codes "willSave", option_map ⟦<bool as ToJson>⟧.stands it.will_save)
        ∷ (codes "willSaveWaitUntil", option_map ⟦<bool as ToJson>⟧.stands it.will_save_wait_until) ∷ []) };

    fn write_json<S: JsonSink>(&self, out: &mut S) -> Result<(), S::Error> {
        out.begin_object()?;
        write_some(out, "change", &self.change)?;
        write_some(out, "openClose", &self.open_close)?;
        write_some(out, "save", &self.save)?;
        write_some(out, "willSave", &self.will_save)?;
        write_some(out, "willSaveWaitUntil", &self.will_save_wait_until)?;
        out.end_object()
    }
}

impl FromJson for TextDocumentSyncOptions {
    ghost reads = { λ json it. IsObject json
        and Optional ⟦<bool as FromJson>⟧.reads (codes "openClose") json it.open_close
        and Optional ⟦<TextDocumentSyncKind as FromJson>⟧.reads (codes "change") json it.change
        and Optional ⟦<bool as FromJson>⟧.reads (codes "willSave") json it.will_save
        and Optional ⟦<bool as FromJson>⟧.reads (codes "willSaveWaitUntil") json it.will_save_wait_until
        and Options ⟦<SaveOptions as FromJson>⟧.reads (codes "save") json it.save };

    fn from_json(alloc: Global, value: &JsonRef<'_>) -> Result<TextDocumentSyncOptions, Misfit> {
        match Members::new(alloc, value)
            .optional("openClose")
            .optional("change")
            .optional("willSave")
            .optional("willSaveWaitUntil")
            .options("save")
            .end()
        {
            Ok(read) => {
                let ((((((), open_close), change), will_save), will_save_wait_until), save) = read;
                Ok(TextDocumentSyncOptions {
                    open_close,
                    change,
                    will_save,
                    will_save_wait_until,
                    save,
                })
            }
            Err(misfit) => Err(misfit),
        }
    }
}

/// What a client sends when a document is saved (LSP 3.17, "SaveOptions").
#[derive(Clone, Copy, Drop)]
pub struct SaveOptions {
    /// Whether it sends the text too.
    pub include_text: Option<bool>,
}

impl Default for SaveOptions {
    ghost use Rattle.std.specs.Prelude.{◌≡◌, None};

    /// Makes one in which no member is set.
    fn default() -> SaveOptions
        ensures { result ≡ record {
          include_text = None;
        } }
    {
        SaveOptions { include_text: None }
    }
}

impl ToJson for SaveOptions {
    ghost stands = { λ it. object_of (
        (codes "includeText", option_map ⟦<bool as ToJson>⟧.stands it.include_text) ∷ []) };

    fn write_json<S: JsonSink>(&self, out: &mut S) -> Result<(), S::Error> {
        out.begin_object()?;
        write_some(out, "includeText", &self.include_text)?;
        out.end_object()
    }
}

impl FromJson for SaveOptions {
    ghost reads = { λ json it. IsObject json
        and Optional ⟦<bool as FromJson>⟧.reads (codes "includeText") json it.include_text };

    fn from_json(alloc: Global, value: &JsonRef<'_>) -> Result<SaveOptions, Misfit> {
        match Members::new(alloc, value).optional("includeText").end() {
            Ok(read) => {
                let ((), include_text) = read;
                Ok(SaveOptions { include_text })
            }
            Err(misfit) => Err(misfit),
        }
    }
}

/// How completion is offered (LSP 3.17, "Completion Request").
#[derive(Drop)]
pub struct CompletionOptions {
    /// Which typed characters, beside letters, request it.
    pub trigger_characters: Option<Vec<String>>,
    /// Whether the server fills in items by `completionItem/resolve`.
    pub resolve_provider: Option<bool>,
    /// Which typed characters accept an item.
    pub all_commit_characters: Option<Vec<String>>,
    /// What the server supports of an item.
    pub completion_item: Option<CompletionItemOptions>,
    /// Whether the server can report progress.
    pub work_done_progress: Option<bool>,
}

impl Default for CompletionOptions {
    ghost use Rattle.std.specs.Prelude.{◌≡◌, None};

    /// Makes one in which no member is set.
    fn default() -> CompletionOptions
        ensures { result ≡ record {
          trigger_characters = None;
          resolve_provider = None;
          all_commit_characters = None;
          completion_item = None;
          work_done_progress = None;
        } }
    {
        CompletionOptions {
            trigger_characters: None,
            resolve_provider: None,
            all_commit_characters: None,
            completion_item: None,
            work_done_progress: None,
        }
    }
}

impl ToJson for CompletionOptions {
    ghost stands = { λ it. object_of (
        (codes "allCommitCharacters", option_map ⟦<Vec<String> as ToJson>⟧.stands it.all_commit_characters)
        ∷ (codes "completionItem", option_map ⟦<CompletionItemOptions as ToJson>⟧.stands it.completion_item)
        ∷ (codes "resolveProvider", option_map ⟦<bool as ToJson>⟧.stands it.resolve_provider)
        ∷ (codes "triggerCharacters", option_map ⟦<Vec<String> as ToJson>⟧.stands it.trigger_characters)
        ∷ (codes "workDoneProgress", option_map ⟦<bool as ToJson>⟧.stands it.work_done_progress) ∷ []) };

    fn write_json<S: JsonSink>(&self, out: &mut S) -> Result<(), S::Error> {
        out.begin_object()?;
        write_some(out, "allCommitCharacters", &self.all_commit_characters)?;
        write_some(out, "completionItem", &self.completion_item)?;
        write_some(out, "resolveProvider", &self.resolve_provider)?;
        write_some(out, "triggerCharacters", &self.trigger_characters)?;
        write_some(out, "workDoneProgress", &self.work_done_progress)?;
        out.end_object()
    }
}

impl FromJson for CompletionOptions {
    ghost reads = { λ json it. IsObject json
        and Optional ⟦<Vec<String> as FromJson>⟧.reads (codes "triggerCharacters") json it.trigger_characters
        and Optional ⟦<bool as FromJson>⟧.reads (codes "resolveProvider") json it.resolve_provider
        and Optional ⟦<Vec<String> as FromJson>⟧.reads (codes "allCommitCharacters") json it.all_commit_characters
        and Optional ⟦<CompletionItemOptions as FromJson>⟧.reads (codes "completionItem") json it.completion_item
        and Optional ⟦<bool as FromJson>⟧.reads (codes "workDoneProgress") json it.work_done_progress };

    fn from_json(alloc: Global, value: &JsonRef<'_>) -> Result<CompletionOptions, Misfit> {
        match Members::new(alloc, value)
            .optional("triggerCharacters")
            .optional("resolveProvider")
            .optional("allCommitCharacters")
            .optional("completionItem")
            .optional("workDoneProgress")
            .end()
        {
            Ok(read) => {
                let (read, work_done_progress) = read;
                let (read, completion_item) = read;
                let (read, all_commit_characters) = read;
                let (read, resolve_provider) = read;
                let ((), trigger_characters) = read;
                Ok(CompletionOptions {
                    trigger_characters,
                    resolve_provider,
                    all_commit_characters,
                    completion_item,
                    work_done_progress,
                })
            }
            Err(misfit) => Err(misfit),
        }
    }
}

/// What a server supports of an item (LSP 3.17, "Completion Request").
#[derive(Clone, Copy, Drop)]
pub struct CompletionItemOptions {
    /// Whether it reads `label_details` in `completionItem/resolve`.
    pub label_details_support: Option<bool>,
}

impl Default for CompletionItemOptions {
    ghost use Rattle.std.specs.Prelude.{◌≡◌, None};

    /// Makes one in which no member is set.
    fn default() -> CompletionItemOptions
        ensures { result ≡ record {
          label_details_support = None;
        } }
    {
        CompletionItemOptions {
            label_details_support: None,
        }
    }
}

impl ToJson for CompletionItemOptions {
    ghost stands = { λ it. object_of (
        (codes "labelDetailsSupport", option_map ⟦<bool as ToJson>⟧.stands it.label_details_support) ∷ []) };

    fn write_json<S: JsonSink>(&self, out: &mut S) -> Result<(), S::Error> {
        out.begin_object()?;
        write_some(out, "labelDetailsSupport", &self.label_details_support)?;
        out.end_object()
    }
}

impl FromJson for CompletionItemOptions {
    ghost reads = { λ json it. IsObject json
        and Optional ⟦<bool as FromJson>⟧.reads (codes "labelDetailsSupport") json it.label_details_support };

    fn from_json(alloc: Global, value: &JsonRef<'_>) -> Result<CompletionItemOptions, Misfit> {
        match Members::new(alloc, value)
            .optional("labelDetailsSupport")
            .end()
        {
            Ok(read) => {
                let ((), label_details_support) = read;
                Ok(CompletionItemOptions {
                    label_details_support,
                })
            }
            Err(misfit) => Err(misfit),
        }
    }
}

/// How signature help is offered (LSP 3.17, "Signature Help Request").
#[derive(Drop)]
pub struct SignatureHelpOptions {
    /// Which typed characters request it.
    pub trigger_characters: Option<Vec<String>>,
    /// Which further characters request it again while it is shown.
    pub retrigger_characters: Option<Vec<String>>,
    /// Whether the server can report progress.
    pub work_done_progress: Option<bool>,
}

impl Default for SignatureHelpOptions {
    ghost use Rattle.std.specs.Prelude.{◌≡◌, None};

    /// Makes one in which no member is set.
    fn default() -> SignatureHelpOptions
        ensures { result ≡ record {
          trigger_characters = None;
          retrigger_characters = None;
          work_done_progress = None;
        } }
    {
        SignatureHelpOptions {
            trigger_characters: None,
            retrigger_characters: None,
            work_done_progress: None,
        }
    }
}

impl ToJson for SignatureHelpOptions {
    ghost stands = { λ it. object_of (
        (codes "retriggerCharacters", option_map ⟦<Vec<String> as ToJson>⟧.stands it.retrigger_characters)
        ∷ (codes "triggerCharacters", option_map ⟦<Vec<String> as ToJson>⟧.stands it.trigger_characters)
        ∷ (codes "workDoneProgress", option_map ⟦<bool as ToJson>⟧.stands it.work_done_progress) ∷ []) };

    fn write_json<S: JsonSink>(&self, out: &mut S) -> Result<(), S::Error> {
        out.begin_object()?;
        write_some(out, "retriggerCharacters", &self.retrigger_characters)?;
        write_some(out, "triggerCharacters", &self.trigger_characters)?;
        write_some(out, "workDoneProgress", &self.work_done_progress)?;
        out.end_object()
    }
}

impl FromJson for SignatureHelpOptions {
    ghost reads = { λ json it. IsObject json
        and Optional ⟦<Vec<String> as FromJson>⟧.reads (codes "triggerCharacters") json it.trigger_characters
        and Optional ⟦<Vec<String> as FromJson>⟧.reads (codes "retriggerCharacters") json it.retrigger_characters
        and Optional ⟦<bool as FromJson>⟧.reads (codes "workDoneProgress") json it.work_done_progress };

    fn from_json(alloc: Global, value: &JsonRef<'_>) -> Result<SignatureHelpOptions, Misfit> {
        match Members::new(alloc, value)
            .optional("triggerCharacters")
            .optional("retriggerCharacters")
            .optional("workDoneProgress")
            .end()
        {
            Ok(read) => {
                let ((((), trigger_characters), retrigger_characters), work_done_progress) = read;
                Ok(SignatureHelpOptions {
                    trigger_characters,
                    retrigger_characters,
                    work_done_progress,
                })
            }
            Err(misfit) => Err(misfit),
        }
    }
}

/// How code actions are offered (LSP 3.17, "Code Action Request").
#[derive(Drop)]
pub struct CodeActionOptions {
    /// Which kinds there are (`code_action_kinds`).
    pub code_action_kinds: Option<Vec<String>>,
    /// Whether the server fills in actions by `codeAction/resolve`.
    pub resolve_provider: Option<bool>,
    /// Whether the server can report progress.
    pub work_done_progress: Option<bool>,
}

impl Default for CodeActionOptions {
    ghost use Rattle.std.specs.Prelude.{◌≡◌, None};

    /// Makes one in which no member is set.
    fn default() -> CodeActionOptions
        ensures { result ≡ record {
          code_action_kinds = None;
          resolve_provider = None;
          work_done_progress = None;
        } }
    {
        CodeActionOptions {
            code_action_kinds: None,
            resolve_provider: None,
            work_done_progress: None,
        }
    }
}

impl ToJson for CodeActionOptions {
    ghost stands = { λ it. object_of (
        (codes "codeActionKinds", option_map ⟦<Vec<String> as ToJson>⟧.stands it.code_action_kinds)
        ∷ (codes "resolveProvider", option_map ⟦<bool as ToJson>⟧.stands it.resolve_provider)
        ∷ (codes "workDoneProgress", option_map ⟦<bool as ToJson>⟧.stands it.work_done_progress) ∷ []) };

    fn write_json<S: JsonSink>(&self, out: &mut S) -> Result<(), S::Error> {
        out.begin_object()?;
        write_some(out, "codeActionKinds", &self.code_action_kinds)?;
        write_some(out, "resolveProvider", &self.resolve_provider)?;
        write_some(out, "workDoneProgress", &self.work_done_progress)?;
        out.end_object()
    }
}

impl FromJson for CodeActionOptions {
    ghost reads = { λ json it. IsObject json
        and Optional ⟦<Vec<String> as FromJson>⟧.reads (codes "codeActionKinds") json it.code_action_kinds
        and Optional ⟦<bool as FromJson>⟧.reads (codes "resolveProvider") json it.resolve_provider
        and Optional ⟦<bool as FromJson>⟧.reads (codes "workDoneProgress") json it.work_done_progress };

    fn from_json(alloc: Global, value: &JsonRef<'_>) -> Result<CodeActionOptions, Misfit> {
        match Members::new(alloc, value)
            .optional("codeActionKinds")
            .optional("resolveProvider")
            .optional("workDoneProgress")
            .end()
        {
            Ok(read) => {
                let ((((), code_action_kinds), resolve_provider), work_done_progress) = read;
                Ok(CodeActionOptions {
                    code_action_kinds,
                    resolve_provider,
                    work_done_progress,
                })
            }
            Err(misfit) => Err(misfit),
        }
    }
}

/// How code lenses are offered (LSP 3.17, "Code Lens Request").
#[derive(Clone, Copy, Drop)]
pub struct CodeLensOptions {
    /// Whether the server fills in lenses by `codeLens/resolve`.
    pub resolve_provider: Option<bool>,
    /// Whether the server can report progress.
    pub work_done_progress: Option<bool>,
}

impl Default for CodeLensOptions {
    ghost use Rattle.std.specs.Prelude.{◌≡◌, None};

    /// Makes one in which no member is set.
    fn default() -> CodeLensOptions
        ensures { result ≡ record {
          resolve_provider = None;
          work_done_progress = None;
        } }
    {
        CodeLensOptions {
            resolve_provider: None,
            work_done_progress: None,
        }
    }
}

impl ToJson for CodeLensOptions {
    ghost stands = { λ it. object_of (
        (codes "resolveProvider", option_map ⟦<bool as ToJson>⟧.stands it.resolve_provider)
        ∷ (codes "workDoneProgress", option_map ⟦<bool as ToJson>⟧.stands it.work_done_progress) ∷ []) };

    fn write_json<S: JsonSink>(&self, out: &mut S) -> Result<(), S::Error> {
        out.begin_object()?;
        write_some(out, "resolveProvider", &self.resolve_provider)?;
        write_some(out, "workDoneProgress", &self.work_done_progress)?;
        out.end_object()
    }
}

impl FromJson for CodeLensOptions {
    ghost reads = { λ json it. IsObject json
        and Optional ⟦<bool as FromJson>⟧.reads (codes "resolveProvider") json it.resolve_provider
        and Optional ⟦<bool as FromJson>⟧.reads (codes "workDoneProgress") json it.work_done_progress };

    fn from_json(alloc: Global, value: &JsonRef<'_>) -> Result<CodeLensOptions, Misfit> {
        match Members::new(alloc, value)
            .optional("resolveProvider")
            .optional("workDoneProgress")
            .end()
        {
            Ok(read) => {
                let (((), resolve_provider), work_done_progress) = read;
                Ok(CodeLensOptions {
                    resolve_provider,
                    work_done_progress,
                })
            }
            Err(misfit) => Err(misfit),
        }
    }
}

/// How links are offered (LSP 3.17, "Document Link Request").
#[derive(Clone, Copy, Drop)]
pub struct DocumentLinkOptions {
    /// Whether the server fills in links by `documentLink/resolve`.
    pub resolve_provider: Option<bool>,
    /// Whether the server can report progress.
    pub work_done_progress: Option<bool>,
}

impl Default for DocumentLinkOptions {
    ghost use Rattle.std.specs.Prelude.{◌≡◌, None};

    /// Makes one in which no member is set.
    fn default() -> DocumentLinkOptions
        ensures { result ≡ record {
          resolve_provider = None;
          work_done_progress = None;
        } }
    {
        DocumentLinkOptions {
            resolve_provider: None,
            work_done_progress: None,
        }
    }
}

impl ToJson for DocumentLinkOptions {
    ghost stands = { λ it. object_of (
        (codes "resolveProvider", option_map ⟦<bool as ToJson>⟧.stands it.resolve_provider)
        ∷ (codes "workDoneProgress", option_map ⟦<bool as ToJson>⟧.stands it.work_done_progress) ∷ []) };

    fn write_json<S: JsonSink>(&self, out: &mut S) -> Result<(), S::Error> {
        out.begin_object()?;
        write_some(out, "resolveProvider", &self.resolve_provider)?;
        write_some(out, "workDoneProgress", &self.work_done_progress)?;
        out.end_object()
    }
}

impl FromJson for DocumentLinkOptions {
    ghost reads = { λ json it. IsObject json
        and Optional ⟦<bool as FromJson>⟧.reads (codes "resolveProvider") json it.resolve_provider
        and Optional ⟦<bool as FromJson>⟧.reads (codes "workDoneProgress") json it.work_done_progress };

    fn from_json(alloc: Global, value: &JsonRef<'_>) -> Result<DocumentLinkOptions, Misfit> {
        match Members::new(alloc, value)
            .optional("resolveProvider")
            .optional("workDoneProgress")
            .end()
        {
            Ok(read) => {
                let (((), resolve_provider), work_done_progress) = read;
                Ok(DocumentLinkOptions {
                    resolve_provider,
                    work_done_progress,
                })
            }
            Err(misfit) => Err(misfit),
        }
    }
}

/// How formatting while a user types is offered (LSP 3.17, "Document on Type Formatting Request").
#[derive(Drop)]
pub struct DocumentOnTypeFormattingOptions {
    /// A character that requests it, such as `}`.
    pub first_trigger_character: String,
    /// Others that request it.
    pub more_trigger_character: Option<Vec<String>>,
}

impl DocumentOnTypeFormattingOptions {
    ghost use Rattle.std.specs.Prelude.{◌≡◌, None};

    /// Makes one from the required members. The others are `None`.
    pub fn new(first_trigger_character: String) -> DocumentOnTypeFormattingOptions
        ensures { result ≡ record {
          first_trigger_character = first_trigger_character;
          more_trigger_character = None;
        } }
    {
        DocumentOnTypeFormattingOptions {
            first_trigger_character,
            more_trigger_character: None,
        }
    }
}

impl ToJson for DocumentOnTypeFormattingOptions {
    ghost stands = { λ it. object_of (
        (codes "firstTriggerCharacter", Some (⟦<String as ToJson>⟧.stands it.first_trigger_character))
        ∷ (codes "moreTriggerCharacter", option_map ⟦<Vec<String> as ToJson>⟧.stands it.more_trigger_character) ∷ []) };

    fn write_json<S: JsonSink>(&self, out: &mut S) -> Result<(), S::Error> {
        out.begin_object()?;
        write_member(out, "firstTriggerCharacter", &self.first_trigger_character)?;
        write_some(out, "moreTriggerCharacter", &self.more_trigger_character)?;
        out.end_object()
    }
}

impl FromJson for DocumentOnTypeFormattingOptions {
    ghost reads = { λ json it. IsObject json
        and Required ⟦<String as FromJson>⟧.reads (codes "firstTriggerCharacter") json it.first_trigger_character
        and Optional ⟦<Vec<String> as FromJson>⟧.reads (codes "moreTriggerCharacter") json it.more_trigger_character };

    fn from_json(
        alloc: Global,
        value: &JsonRef<'_>,
    ) -> Result<DocumentOnTypeFormattingOptions, Misfit> {
        match Members::new(alloc, value)
            .required("firstTriggerCharacter")
            .optional("moreTriggerCharacter")
            .end()
        {
            Ok(read) => {
                let (((), first_trigger_character), more_trigger_character) = read;
                Ok(DocumentOnTypeFormattingOptions {
                    first_trigger_character,
                    more_trigger_character,
                })
            }
            Err(misfit) => Err(misfit),
        }
    }
}

/// How renaming is offered (LSP 3.17, "Rename Request").
#[derive(Clone, Copy, Drop)]
pub struct RenameOptions {
    /// `textDocument/prepareRename`.
    pub prepare_provider: Option<bool>,
    /// Whether the server can report progress.
    pub work_done_progress: Option<bool>,
}

impl Default for RenameOptions {
    ghost use Rattle.std.specs.Prelude.{◌≡◌, None};

    /// Makes one in which no member is set.
    fn default() -> RenameOptions
        ensures { result ≡ record {
          prepare_provider = None;
          work_done_progress = None;
        } }
    {
        RenameOptions {
            prepare_provider: None,
            work_done_progress: None,
        }
    }
}

impl ToJson for RenameOptions {
    ghost stands = { λ it. object_of (
        (codes "prepareProvider", option_map ⟦<bool as ToJson>⟧.stands it.prepare_provider)
        ∷ (codes "workDoneProgress", option_map ⟦<bool as ToJson>⟧.stands it.work_done_progress) ∷ []) };

    fn write_json<S: JsonSink>(&self, out: &mut S) -> Result<(), S::Error> {
        out.begin_object()?;
        write_some(out, "prepareProvider", &self.prepare_provider)?;
        write_some(out, "workDoneProgress", &self.work_done_progress)?;
        out.end_object()
    }
}

impl FromJson for RenameOptions {
    ghost reads = { λ json it. IsObject json
        and Optional ⟦<bool as FromJson>⟧.reads (codes "prepareProvider") json it.prepare_provider
        and Optional ⟦<bool as FromJson>⟧.reads (codes "workDoneProgress") json it.work_done_progress };

    fn from_json(alloc: Global, value: &JsonRef<'_>) -> Result<RenameOptions, Misfit> {
        match Members::new(alloc, value)
            .optional("prepareProvider")
            .optional("workDoneProgress")
            .end()
        {
            Ok(read) => {
                let (((), prepare_provider), work_done_progress) = read;
                Ok(RenameOptions {
                    prepare_provider,
                    work_done_progress,
                })
            }
            Err(misfit) => Err(misfit),
        }
    }
}

/// Which commands there are (LSP 3.17, "Execute a command").
#[derive(Drop)]
pub struct ExecuteCommandOptions {
    /// Their names.
    pub commands: Vec<String>,
    /// Whether the server can report progress.
    pub work_done_progress: Option<bool>,
}

impl ExecuteCommandOptions {
    ghost use Rattle.std.specs.Prelude.{◌≡◌, None};

    /// Makes one from the required members. The others are `None`.
    pub fn new(commands: Vec<String>) -> ExecuteCommandOptions
        ensures { result ≡ record {
          commands = commands;
          work_done_progress = None;
        } }
    {
        ExecuteCommandOptions {
            commands,
            work_done_progress: None,
        }
    }
}

impl ToJson for ExecuteCommandOptions {
    ghost stands = { λ it. object_of (
        (codes "commands", Some (⟦<Vec<String> as ToJson>⟧.stands it.commands))
        ∷ (codes "workDoneProgress", option_map ⟦<bool as ToJson>⟧.stands it.work_done_progress) ∷ []) };

    fn write_json<S: JsonSink>(&self, out: &mut S) -> Result<(), S::Error> {
        out.begin_object()?;
        write_member(out, "commands", &self.commands)?;
        write_some(out, "workDoneProgress", &self.work_done_progress)?;
        out.end_object()
    }
}

impl FromJson for ExecuteCommandOptions {
    ghost reads = { λ json it. IsObject json
        and Required ⟦<Vec<String> as FromJson>⟧.reads (codes "commands") json it.commands
        and Optional ⟦<bool as FromJson>⟧.reads (codes "workDoneProgress") json it.work_done_progress };

    fn from_json(alloc: Global, value: &JsonRef<'_>) -> Result<ExecuteCommandOptions, Misfit> {
        match Members::new(alloc, value)
            .required("commands")
            .optional("workDoneProgress")
            .end()
        {
            Ok(read) => {
                let (((), commands), work_done_progress) = read;
                Ok(ExecuteCommandOptions {
                    commands,
                    work_done_progress,
                })
            }
            Err(misfit) => Err(misfit),
        }
    }
}

/// How semantic tokens are offered (LSP 3.17, "Semantic Tokens").
#[derive(Drop)]
pub struct SemanticTokensOptions {
    /// The names of the types and modifiers.
    pub legend: SemanticTokensLegend,
    /// `textDocument/semanticTokens/range`.
    pub range: Option<bool>,
    /// `textDocument/semanticTokens/full`.
    pub full: Option<SemanticTokensFullOptions>,
    /// Whether the server can report progress.
    pub work_done_progress: Option<bool>,
}

impl SemanticTokensOptions {
    ghost use Rattle.std.specs.Prelude.{◌≡◌, None};

    /// Makes one from the required members. The others are `None`.
    pub fn new(legend: SemanticTokensLegend) -> SemanticTokensOptions
        ensures { result ≡ record {
          legend = legend;
          range = None;
          full = None;
          work_done_progress = None;
        } }
    {
        SemanticTokensOptions {
            legend,
            range: None,
            full: None,
            work_done_progress: None,
        }
    }
}

impl ToJson for SemanticTokensOptions {
    ghost stands = { λ it. object_of (
        (codes "full", option_map ⟦<SemanticTokensFullOptions as ToJson>⟧.stands it.full)
        ∷ (codes "legend", Some (⟦<SemanticTokensLegend as ToJson>⟧.stands it.legend))
        ∷ (codes "range", option_map ⟦<bool as ToJson>⟧.stands it.range)
        ∷ (codes "workDoneProgress", option_map ⟦<bool as ToJson>⟧.stands it.work_done_progress) ∷ []) };

    fn write_json<S: JsonSink>(&self, out: &mut S) -> Result<(), S::Error> {
        out.begin_object()?;
        write_some(out, "full", &self.full)?;
        write_member(out, "legend", &self.legend)?;
        write_some(out, "range", &self.range)?;
        write_some(out, "workDoneProgress", &self.work_done_progress)?;
        out.end_object()
    }
}

impl FromJson for SemanticTokensOptions {
    ghost reads = { λ json it. IsObject json
        and Required ⟦<SemanticTokensLegend as FromJson>⟧.reads (codes "legend") json it.legend
        and Offered (codes "range") json it.range
        and Options ⟦<SemanticTokensFullOptions as FromJson>⟧.reads (codes "full") json it.full
        and Optional ⟦<bool as FromJson>⟧.reads (codes "workDoneProgress") json it.work_done_progress };

    fn from_json(alloc: Global, value: &JsonRef<'_>) -> Result<SemanticTokensOptions, Misfit> {
        match Members::new(alloc, value)
            .required("legend")
            .offered("range")
            .options("full")
            .optional("workDoneProgress")
            .end()
        {
            Ok(read) => {
                let (((((), legend), range), full), work_done_progress) = read;
                Ok(SemanticTokensOptions {
                    legend,
                    range,
                    full,
                    work_done_progress,
                })
            }
            Err(misfit) => Err(misfit),
        }
    }
}

/// How the semantic tokens of a whole document are offered (LSP 3.17, "SemanticTokensOptions").
#[derive(Clone, Copy, Drop)]
pub struct SemanticTokensFullOptions {
    /// `textDocument/semanticTokens/full/delta`.
    pub delta: Option<bool>,
}

impl Default for SemanticTokensFullOptions {
    ghost use Rattle.std.specs.Prelude.{◌≡◌, None};

    /// Makes one in which no member is set.
    fn default() -> SemanticTokensFullOptions
        ensures { result ≡ record {
          delta = None;
        } }
    {
        SemanticTokensFullOptions { delta: None }
    }
}

impl ToJson for SemanticTokensFullOptions {
    ghost stands = { λ it. object_of (
        (codes "delta", option_map ⟦<bool as ToJson>⟧.stands it.delta) ∷ []) };

    fn write_json<S: JsonSink>(&self, out: &mut S) -> Result<(), S::Error> {
        out.begin_object()?;
        write_some(out, "delta", &self.delta)?;
        out.end_object()
    }
}

impl FromJson for SemanticTokensFullOptions {
    ghost reads = { λ json it. IsObject json
        and Optional ⟦<bool as FromJson>⟧.reads (codes "delta") json it.delta };

    fn from_json(alloc: Global, value: &JsonRef<'_>) -> Result<SemanticTokensFullOptions, Misfit> {
        match Members::new(alloc, value).optional("delta").end() {
            Ok(read) => {
                let ((), delta) = read;
                Ok(SemanticTokensFullOptions { delta })
            }
            Err(misfit) => Err(misfit),
        }
    }
}

/// What the numbers of semantic tokens stand for (LSP 3.17, "SemanticTokensLegend").
#[derive(Drop)]
pub struct SemanticTokensLegend {
    /// The name of each type, from 0, such as `variable`.
    pub token_types: Vec<String>,
    /// The name of each modifier, from the lowest bit, such as `readonly`.
    pub token_modifiers: Vec<String>,
}

impl ToJson for SemanticTokensLegend {
    ghost stands = { λ it. object_of (
        (codes "tokenModifiers", Some (⟦<Vec<String> as ToJson>⟧.stands it.token_modifiers))
        ∷ (codes "tokenTypes", Some (⟦<Vec<String> as ToJson>⟧.stands it.token_types)) ∷ []) };

    fn write_json<S: JsonSink>(&self, out: &mut S) -> Result<(), S::Error> {
        out.begin_object()?;
        write_member(out, "tokenModifiers", &self.token_modifiers)?;
        write_member(out, "tokenTypes", &self.token_types)?;
        out.end_object()
    }
}

impl FromJson for SemanticTokensLegend {
    ghost reads = { λ json it. IsObject json
        and Required ⟦<Vec<String> as FromJson>⟧.reads (codes "tokenTypes") json it.token_types
        and Required ⟦<Vec<String> as FromJson>⟧.reads (codes "tokenModifiers") json it.token_modifiers };

    fn from_json(alloc: Global, value: &JsonRef<'_>) -> Result<SemanticTokensLegend, Misfit> {
        match Members::new(alloc, value)
            .required("tokenTypes")
            .required("tokenModifiers")
            .end()
        {
            Ok(read) => {
                let (((), token_types), token_modifiers) = read;
                Ok(SemanticTokensLegend {
                    token_types,
                    token_modifiers,
                })
            }
            Err(misfit) => Err(misfit),
        }
    }
}

/// How diagnostics are offered that a client requests (LSP 3.17, "Pull Diagnostics").
#[derive(Drop)]
pub struct DiagnosticOptions {
    /// A name for them, if the server has several kinds.
    pub identifier: Option<String>,
    /// Whether a change of a document may change those of another.
    pub inter_file_dependencies: bool,
    /// `workspace/diagnostic`.
    pub workspace_diagnostics: bool,
    /// Whether the server can report progress.
    pub work_done_progress: Option<bool>,
}

impl DiagnosticOptions {
    ghost use Rattle.std.specs.Prelude.{◌≡◌, None};

    /// Makes one from the required members. The others are `None`.
    pub fn new(inter_file_dependencies: bool, workspace_diagnostics: bool) -> DiagnosticOptions
        ensures { result ≡ record {
          identifier = None;
          inter_file_dependencies = inter_file_dependencies;
          workspace_diagnostics = workspace_diagnostics;
          work_done_progress = None;
        } }
    {
        DiagnosticOptions {
            identifier: None,
            inter_file_dependencies,
            workspace_diagnostics,
            work_done_progress: None,
        }
    }
}

impl ToJson for DiagnosticOptions {
    ghost stands = { λ it. object_of (
        (codes "identifier", option_map ⟦<String as ToJson>⟧.stands it.identifier)
        ∷ (codes "interFileDependencies", Some (⟦<bool as ToJson>⟧.stands it.inter_file_dependencies))
        ∷ (codes "workDoneProgress", option_map ⟦<bool as ToJson>⟧.stands it.work_done_progress)
        ∷ (codes "workspaceDiagnostics", Some (⟦<bool as ToJson>⟧.stands it.workspace_diagnostics)) ∷ []) };

    fn write_json<S: JsonSink>(&self, out: &mut S) -> Result<(), S::Error> {
        out.begin_object()?;
        write_some(out, "identifier", &self.identifier)?;
        write_member(out, "interFileDependencies", &self.inter_file_dependencies)?;
        write_some(out, "workDoneProgress", &self.work_done_progress)?;
        write_member(out, "workspaceDiagnostics", &self.workspace_diagnostics)?;
        out.end_object()
    }
}

impl FromJson for DiagnosticOptions {
    ghost reads = { λ json it. IsObject json
        and Optional ⟦<String as FromJson>⟧.reads (codes "identifier") json it.identifier
        and Required ⟦<bool as FromJson>⟧.reads (codes "interFileDependencies") json it.inter_file_dependencies
        and Required ⟦<bool as FromJson>⟧.reads (codes "workspaceDiagnostics") json it.workspace_diagnostics
        and Optional ⟦<bool as FromJson>⟧.reads (codes "workDoneProgress") json it.work_done_progress };

    fn from_json(alloc: Global, value: &JsonRef<'_>) -> Result<DiagnosticOptions, Misfit> {
        match Members::new(alloc, value)
            .optional("identifier")
            .required("interFileDependencies")
            .required("workspaceDiagnostics")
            .optional("workDoneProgress")
            .end()
        {
            Ok(read) => {
                let (read, work_done_progress) = read;
                let (read, workspace_diagnostics) = read;
                let (read, inter_file_dependencies) = read;
                let ((), identifier) = read;
                Ok(DiagnosticOptions {
                    identifier,
                    inter_file_dependencies,
                    workspace_diagnostics,
                    work_done_progress,
                })
            }
            Err(misfit) => Err(misfit),
        }
    }
}

/// What a server can do with a workspace (LSP 3.17, "ServerCapabilities").
#[derive(Drop)]
pub struct WorkspaceOptions {
    /// What it can do with folders.
    pub workspace_folders: Option<WorkspaceFoldersServerCapabilities>,
    /// For which files it wants notifications and requests when they are created, renamed or deleted: an object.
    pub file_operations: Option<Value>,
}

impl Default for WorkspaceOptions {
    ghost use Rattle.std.specs.Prelude.{◌≡◌, None};

    /// Makes one in which no member is set.
    fn default() -> WorkspaceOptions
        ensures { result ≡ record {
          workspace_folders = None;
          file_operations = None;
        } }
    {
        WorkspaceOptions {
            workspace_folders: None,
            file_operations: None,
        }
    }
}

impl ToJson for WorkspaceOptions {
    ghost stands = { λ it. object_of (
        (codes "fileOperations", option_map ⟦<Value as ToJson>⟧.stands it.file_operations)
        ∷ (codes "workspaceFolders", option_map ⟦<WorkspaceFoldersServerCapabilities as ToJson>⟧.stands it.workspace_folders) ∷ []) };

    fn write_json<S: JsonSink>(&self, out: &mut S) -> Result<(), S::Error> {
        out.begin_object()?;
        write_some(out, "fileOperations", &self.file_operations)?;
        write_some(out, "workspaceFolders", &self.workspace_folders)?;
        out.end_object()
    }
}

impl FromJson for WorkspaceOptions {
    ghost reads = { λ json it. IsObject json
        and Optional ⟦<WorkspaceFoldersServerCapabilities as FromJson>⟧.reads (codes "workspaceFolders") json it.workspace_folders
        and Optional ⟦<Value as FromJson>⟧.reads (codes "fileOperations") json it.file_operations };

    fn from_json(alloc: Global, value: &JsonRef<'_>) -> Result<WorkspaceOptions, Misfit> {
        match Members::new(alloc, value)
            .optional("workspaceFolders")
            .optional("fileOperations")
            .end()
        {
            Ok(read) => {
                let (((), workspace_folders), file_operations) = read;
                Ok(WorkspaceOptions {
                    workspace_folders,
                    file_operations,
                })
            }
            Err(misfit) => Err(misfit),
        }
    }
}

/// What a server can do with folders (LSP 3.17, "WorkspaceFoldersServerCapabilities").
#[derive(Drop)]
pub struct WorkspaceFoldersServerCapabilities {
    /// Whether it can have several.
    pub supported: Option<bool>,
    /// Whether it wants notifications of their changes.
    pub change_notifications: Option<ChangeNotifications>,
}

impl Default for WorkspaceFoldersServerCapabilities {
    ghost use Rattle.std.specs.Prelude.{◌≡◌, None};

    /// Makes one in which no member is set.
    fn default() -> WorkspaceFoldersServerCapabilities
        ensures { result ≡ record {
          supported = None;
          change_notifications = None;
        } }
    {
        WorkspaceFoldersServerCapabilities {
            supported: None,
            change_notifications: None,
        }
    }
}

impl ToJson for WorkspaceFoldersServerCapabilities {
    ghost stands = { λ it. object_of (
        (codes "changeNotifications", option_map ⟦<ChangeNotifications as ToJson>⟧.stands it.change_notifications)
        ∷ (codes "supported", option_map ⟦<bool as ToJson>⟧.stands it.supported) ∷ []) };

    fn write_json<S: JsonSink>(&self, out: &mut S) -> Result<(), S::Error> {
        out.begin_object()?;
        write_some(out, "changeNotifications", &self.change_notifications)?;
        write_some(out, "supported", &self.supported)?;
        out.end_object()
    }
}

impl FromJson for WorkspaceFoldersServerCapabilities {
    ghost reads = { λ json it. IsObject json
        and Optional ⟦<bool as FromJson>⟧.reads (codes "supported") json it.supported
        and Optional ⟦<ChangeNotifications as FromJson>⟧.reads (codes "changeNotifications") json it.change_notifications };

    fn from_json(
        alloc: Global,
        value: &JsonRef<'_>,
    ) -> Result<WorkspaceFoldersServerCapabilities, Misfit> {
        match Members::new(alloc, value)
            .optional("supported")
            .optional("changeNotifications")
            .end()
        {
            Ok(read) => {
                let (((), supported), change_notifications) = read;
                Ok(WorkspaceFoldersServerCapabilities {
                    supported,
                    change_notifications,
                })
            }
            Err(misfit) => Err(misfit),
        }
    }
}

/// Whether a server wants notifications of changes of folders: a boolean, or a string (LSP 3.17,
/// "WorkspaceFoldersServerCapabilities").
#[derive(Drop)]
pub enum ChangeNotifications {
    /// Whether it does.
    Wanted(bool),
    /// It does, and unregisters by this id (`client/unregisterCapability`).
    Id(String),
}

impl ToJson for ChangeNotifications {
    ghost use Rattle.lsp_types.specs.declared.capabilities.ChangeNotifications.TheVariants.{Wanted, Id};

    ghost stands = { elim [
      | Wanted it ↦ ⟦<bool as ToJson>⟧.stands it
      | Id it ↦ ⟦<String as ToJson>⟧.stands it
    ] };

    fn write_json<S: JsonSink>(&self, out: &mut S) -> Result<(), S::Error> {
        match self {
            ChangeNotifications::Wanted(it) => it.write_json(out),
            ChangeNotifications::Id(it) => it.write_json(out),
        }
    }
}

impl FromJson for ChangeNotifications {
    ghost use Rattle.lsp_types.specs.declared.capabilities.ChangeNotifications.TheVariants.{Wanted, Id};

    ghost reads = { λ json. elim [
      | Wanted it ↦ ⟦<bool as FromJson>⟧.reads json it
      | Id it ↦ NoneReads ⟦<bool as FromJson>⟧.reads json × ⟦<String as FromJson>⟧.reads json it
    ] };

    fn from_json(alloc: Global, value: &JsonRef<'_>) -> Result<ChangeNotifications, Misfit> {
        if let Some(it) = fitting(alloc, value)? {
            return Ok(ChangeNotifications::Wanted(it));
        }
        match FromJson::from_json(alloc, value) {
            Ok(it) => Ok(ChangeNotifications::Id(it)),
            Err(misfit) => Err(misfit),
        }
    }
}
