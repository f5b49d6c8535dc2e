//! The methods of LSP 3.17 for these, each a type that knows its params and its result.
// `tools/types` wrote this file from `types.txt`: change that.
ghost use Rattle.std.specs.Prelude.{codes};

use crate::colors::{
    ColorInformation, ColorPresentation, ColorPresentationParams, DocumentColorParams,
};
use crate::hierarchies::{
    CallHierarchyIncomingCall, CallHierarchyIncomingCallsParams, CallHierarchyItem,
    CallHierarchyOutgoingCall, CallHierarchyOutgoingCallsParams, CallHierarchyPrepareParams,
    TypeHierarchyItem, TypeHierarchyPrepareParams, TypeHierarchySubtypesParams,
    TypeHierarchySupertypesParams,
};
use crate::inline_values::{InlineValue, InlineValueParams};
use crate::places::{
    CodeLens, CodeLensParams, DocumentHighlight, DocumentHighlightParams, DocumentLink,
    DocumentLinkParams, FoldingRange, FoldingRangeParams, LinkedEditingRangeParams,
    LinkedEditingRanges, Moniker, MonikerParams, SelectionRange, SelectionRangeParams,
};
use crate::reports::{
    DocumentDiagnosticParams, DocumentDiagnosticReport, WorkspaceDiagnosticParams,
    WorkspaceDiagnosticReport,
};
use crate::token_changes::{SemanticTokensDeltaParams, SemanticTokensDeltaResult};
use lsp_types::{RequestToClient, RequestToServer};

/// `textDocument/documentHighlight`, a request to the server. Where a name occurs, to mark it (LSP 3.17, "Document
/// Highlights Request").
pub struct DocumentHighlightRequest;

impl DocumentHighlightRequest {
    /// The name of the method.
    pub const METHOD: &'static str = "textDocument/documentHighlight";
}

impl RequestToServer for DocumentHighlightRequest {
    type Params = DocumentHighlightParams;

    type Result = Option<Vec<DocumentHighlight>>;

    ghost method = { codes "textDocument/documentHighlight" };
}

/// `textDocument/foldingRange`, a request to the server. What can be folded (LSP 3.17, "Folding Range Request").
pub struct FoldingRangeRequest;

impl FoldingRangeRequest {
    /// The name of the method.
    pub const METHOD: &'static str = "textDocument/foldingRange";
}

impl RequestToServer for FoldingRangeRequest {
    type Params = FoldingRangeParams;

    type Result = Option<Vec<FoldingRange>>;

    ghost method = { codes "textDocument/foldingRange" };
}

/// `textDocument/selectionRange`, a request to the server. What can be selected around places (LSP 3.17, "Selection
/// Range Request").
pub struct SelectionRangeRequest;

impl SelectionRangeRequest {
    /// The name of the method.
    pub const METHOD: &'static str = "textDocument/selectionRange";
}

impl RequestToServer for SelectionRangeRequest {
    type Params = SelectionRangeParams;

    type Result = Option<Vec<SelectionRange>>;

    ghost method = { codes "textDocument/selectionRange" };
}

/// `textDocument/linkedEditingRange`, a request to the server. What is edited together with a place (LSP 3.17, "Linked
/// Editing Range").
pub struct LinkedEditingRangeRequest;

impl LinkedEditingRangeRequest {
    /// The name of the method.
    pub const METHOD: &'static str = "textDocument/linkedEditingRange";
}

impl RequestToServer for LinkedEditingRangeRequest {
    type Params = LinkedEditingRangeParams;

    type Result = Option<LinkedEditingRanges>;

    ghost method = { codes "textDocument/linkedEditingRange" };
}

/// `textDocument/moniker`, a request to the server. The names of a symbol in indexes (LSP 3.17, "Monikers").
pub struct MonikerRequest;

impl MonikerRequest {
    /// The name of the method.
    pub const METHOD: &'static str = "textDocument/moniker";
}

impl RequestToServer for MonikerRequest {
    type Params = MonikerParams;

    type Result = Option<Vec<Moniker>>;

    ghost method = { codes "textDocument/moniker" };
}

/// `textDocument/codeLens`, a request to the server. Commands that are shown within a text (LSP 3.17, "Code Lens
/// Request").
pub struct CodeLensRequest;

impl CodeLensRequest {
    /// The name of the method.
    pub const METHOD: &'static str = "textDocument/codeLens";
}

impl RequestToServer for CodeLensRequest {
    type Params = CodeLensParams;

    type Result = Option<Vec<CodeLens>>;

    ghost method = { codes "textDocument/codeLens" };
}

/// `codeLens/resolve`, a request to the server. The same lens, with its command (LSP 3.17, "Code Lens Resolve
/// Request").
pub struct CodeLensResolveRequest;

impl CodeLensResolveRequest {
    /// The name of the method.
    pub const METHOD: &'static str = "codeLens/resolve";
}

impl RequestToServer for CodeLensResolveRequest {
    type Params = CodeLens;

    type Result = CodeLens;

    ghost method = { codes "codeLens/resolve" };
}

/// `workspace/codeLens/refresh`, a request to the client. The client is to request lenses again (LSP 3.17, "Code Lens
/// Refresh Request").
pub struct CodeLensRefreshRequest;

impl CodeLensRefreshRequest {
    /// The name of the method.
    pub const METHOD: &'static str = "workspace/codeLens/refresh";
}

impl RequestToClient for CodeLensRefreshRequest {
    type Params = ();

    type Result = ();

    ghost method = { codes "workspace/codeLens/refresh" };

    fn method() -> &'static str {
        CodeLensRefreshRequest::METHOD
    }
}

/// `textDocument/documentLink`, a request to the server. What leads elsewhere (LSP 3.17, "Document Link Request").
pub struct DocumentLinkRequest;

impl DocumentLinkRequest {
    /// The name of the method.
    pub const METHOD: &'static str = "textDocument/documentLink";
}

impl RequestToServer for DocumentLinkRequest {
    type Params = DocumentLinkParams;

    type Result = Option<Vec<DocumentLink>>;

    ghost method = { codes "textDocument/documentLink" };
}

/// `documentLink/resolve`, a request to the server. The same link, with its target (LSP 3.17, "Document Link Resolve
/// Request").
pub struct DocumentLinkResolveRequest;

impl DocumentLinkResolveRequest {
    /// The name of the method.
    pub const METHOD: &'static str = "documentLink/resolve";
}

impl RequestToServer for DocumentLinkResolveRequest {
    type Params = DocumentLink;

    type Result = DocumentLink;

    ghost method = { codes "documentLink/resolve" };
}

/// `textDocument/prepareCallHierarchy`, a request to the server. The functions at a place (LSP 3.17, "Prepare Call
/// Hierarchy Request").
pub struct CallHierarchyPrepareRequest;

impl CallHierarchyPrepareRequest {
    /// The name of the method.
    pub const METHOD: &'static str = "textDocument/prepareCallHierarchy";
}

impl RequestToServer for CallHierarchyPrepareRequest {
    type Params = CallHierarchyPrepareParams;

    type Result = Option<Vec<CallHierarchyItem>>;

    ghost method = { codes "textDocument/prepareCallHierarchy" };
}

/// `callHierarchy/incomingCalls`, a request to the server. Who calls it (LSP 3.17, "Call Hierarchy Incoming Calls").
pub struct CallHierarchyIncomingCallsRequest;

impl CallHierarchyIncomingCallsRequest {
    /// The name of the method.
    pub const METHOD: &'static str = "callHierarchy/incomingCalls";
}

impl RequestToServer for CallHierarchyIncomingCallsRequest {
    type Params = CallHierarchyIncomingCallsParams;

    type Result = Option<Vec<CallHierarchyIncomingCall>>;

    ghost method = { codes "callHierarchy/incomingCalls" };
}

/// `callHierarchy/outgoingCalls`, a request to the server. Whom it calls (LSP 3.17, "Call Hierarchy Outgoing Calls").
pub struct CallHierarchyOutgoingCallsRequest;

impl CallHierarchyOutgoingCallsRequest {
    /// The name of the method.
    pub const METHOD: &'static str = "callHierarchy/outgoingCalls";
}

impl RequestToServer for CallHierarchyOutgoingCallsRequest {
    type Params = CallHierarchyOutgoingCallsParams;

    type Result = Option<Vec<CallHierarchyOutgoingCall>>;

    ghost method = { codes "callHierarchy/outgoingCalls" };
}

/// `textDocument/prepareTypeHierarchy`, a request to the server. The types at a place (LSP 3.17, "Prepare Type
/// Hierarchy Request").
pub struct TypeHierarchyPrepareRequest;

impl TypeHierarchyPrepareRequest {
    /// The name of the method.
    pub const METHOD: &'static str = "textDocument/prepareTypeHierarchy";
}

impl RequestToServer for TypeHierarchyPrepareRequest {
    type Params = TypeHierarchyPrepareParams;

    type Result = Option<Vec<TypeHierarchyItem>>;

    ghost method = { codes "textDocument/prepareTypeHierarchy" };
}

/// `typeHierarchy/supertypes`, a request to the server. The types right above it (LSP 3.17, "Type Hierarchy
/// Supertypes").
pub struct TypeHierarchySupertypesRequest;

impl TypeHierarchySupertypesRequest {
    /// The name of the method.
    pub const METHOD: &'static str = "typeHierarchy/supertypes";
}

impl RequestToServer for TypeHierarchySupertypesRequest {
    type Params = TypeHierarchySupertypesParams;

    type Result = Option<Vec<TypeHierarchyItem>>;

    ghost method = { codes "typeHierarchy/supertypes" };
}

/// `typeHierarchy/subtypes`, a request to the server. The types right below it (LSP 3.17, "Type Hierarchy Subtypes").
pub struct TypeHierarchySubtypesRequest;

impl TypeHierarchySubtypesRequest {
    /// The name of the method.
    pub const METHOD: &'static str = "typeHierarchy/subtypes";
}

impl RequestToServer for TypeHierarchySubtypesRequest {
    type Params = TypeHierarchySubtypesParams;

    type Result = Option<Vec<TypeHierarchyItem>>;

    ghost method = { codes "typeHierarchy/subtypes" };
}

/// `textDocument/documentColor`, a request to the server. The colors that a text names (LSP 3.17, "Document Color
/// Request").
pub struct DocumentColorRequest;

impl DocumentColorRequest {
    /// The name of the method.
    pub const METHOD: &'static str = "textDocument/documentColor";
}

impl RequestToServer for DocumentColorRequest {
    type Params = DocumentColorParams;

    type Result = Vec<ColorInformation>;

    ghost method = { codes "textDocument/documentColor" };
}

/// `textDocument/colorPresentation`, a request to the server. How a color is written (LSP 3.17, "Color Presentation
/// Request").
pub struct ColorPresentationRequest;

impl ColorPresentationRequest {
    /// The name of the method.
    pub const METHOD: &'static str = "textDocument/colorPresentation";
}

impl RequestToServer for ColorPresentationRequest {
    type Params = ColorPresentationParams;

    type Result = Vec<ColorPresentation>;

    ghost method = { codes "textDocument/colorPresentation" };
}

/// `textDocument/inlineValue`, a request to the server. What is shown of values (LSP 3.17, "Inline Value Request").
pub struct InlineValueRequest;

impl InlineValueRequest {
    /// The name of the method.
    pub const METHOD: &'static str = "textDocument/inlineValue";
}

impl RequestToServer for InlineValueRequest {
    type Params = InlineValueParams;

    type Result = Option<Vec<InlineValue>>;

    ghost method = { codes "textDocument/inlineValue" };
}

/// `workspace/inlineValue/refresh`, a request to the client. The client is to request values again (LSP 3.17, "Inline
/// Value Refresh Request").
pub struct InlineValueRefreshRequest;

impl InlineValueRefreshRequest {
    /// The name of the method.
    pub const METHOD: &'static str = "workspace/inlineValue/refresh";
}

impl RequestToClient for InlineValueRefreshRequest {
    type Params = ();

    type Result = ();

    ghost method = { codes "workspace/inlineValue/refresh" };

    fn method() -> &'static str {
        InlineValueRefreshRequest::METHOD
    }
}

/// `textDocument/semanticTokens/full/delta`, a request to the server. Changes of the tokens of a document (LSP 3.17,
/// "Semantic Tokens").
pub struct SemanticTokensDeltaRequest;

impl SemanticTokensDeltaRequest {
    /// The name of the method.
    pub const METHOD: &'static str = "textDocument/semanticTokens/full/delta";
}

impl RequestToServer for SemanticTokensDeltaRequest {
    type Params = SemanticTokensDeltaParams;

    type Result = Option<SemanticTokensDeltaResult>;

    ghost method = { codes "textDocument/semanticTokens/full/delta" };
}

/// `textDocument/diagnostic`, a request to the server. What is wrong with a document (LSP 3.17, "Document
/// Diagnostics").
pub struct DocumentDiagnosticRequest;

impl DocumentDiagnosticRequest {
    /// The name of the method.
    pub const METHOD: &'static str = "textDocument/diagnostic";
}

impl RequestToServer for DocumentDiagnosticRequest {
    type Params = DocumentDiagnosticParams;

    type Result = DocumentDiagnosticReport;

    ghost method = { codes "textDocument/diagnostic" };
}

/// `workspace/diagnostic`, a request to the server. What is wrong with the documents of a workspace (LSP 3.17,
/// "Workspace Diagnostics").
pub struct WorkspaceDiagnosticRequest;

impl WorkspaceDiagnosticRequest {
    /// The name of the method.
    pub const METHOD: &'static str = "workspace/diagnostic";
}

impl RequestToServer for WorkspaceDiagnosticRequest {
    type Params = WorkspaceDiagnosticParams;

    type Result = WorkspaceDiagnosticReport;

    ghost method = { codes "workspace/diagnostic" };
}

/// `workspace/diagnostic/refresh`, a request to the client. The client is to request diagnostics again (LSP 3.17,
/// "Diagnostics Refresh").
pub struct DiagnosticRefreshRequest;

impl DiagnosticRefreshRequest {
    /// The name of the method.
    pub const METHOD: &'static str = "workspace/diagnostic/refresh";
}

impl RequestToClient for DiagnosticRefreshRequest {
    type Params = ();

    type Result = ();

    ghost method = { codes "workspace/diagnostic/refresh" };

    fn method() -> &'static str {
        DiagnosticRefreshRequest::METHOD
    }
}
