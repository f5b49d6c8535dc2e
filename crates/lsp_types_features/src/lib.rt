//! Types of LSP 3.17 for language features that fewer servers have: highlights, folds, selections, monikers, lenses,
//! links, hierarchies of calls and types, colors, inline values, changes of semantic tokens, and diagnostics that a
//! client requests. As in `lsp_types`, each call is safe and returns, and it is proved which value a tree is read as,
//! and which tree a value is written as. That the keys are the standard's is tested.
#![tactic(auto)]

mod colors;
mod diagnostic_reports;
mod hierarchies;
mod inline_values;
pub mod methods;
mod nested;
mod places;
mod reports;
mod token_changes;
mod token_edits;

pub use colors::{
    Color, ColorInformation, ColorPresentation, ColorPresentationParams, DocumentColorParams,
};
pub use hierarchies::{
    CallHierarchyIncomingCall, CallHierarchyIncomingCallsParams, CallHierarchyItem,
    CallHierarchyOutgoingCall, CallHierarchyOutgoingCallsParams, CallHierarchyPrepareParams,
    TypeHierarchyItem, TypeHierarchyPrepareParams, TypeHierarchySubtypesParams,
    TypeHierarchySupertypesParams,
};
pub use inline_values::{
    InlineValue, InlineValueContext, InlineValueEvaluatableExpression, InlineValueParams,
    InlineValueText, InlineValueVariableLookup,
};
pub use places::{
    CodeLens, CodeLensParams, DocumentHighlight, DocumentHighlightKind, DocumentHighlightParams,
    DocumentLink, DocumentLinkParams, FoldingRange, FoldingRangeParams, LinkedEditingRangeParams,
    LinkedEditingRanges, Moniker, MonikerParams, SelectionRange, SelectionRangeParams,
};
pub use reports::{
    DiagnosticServerCancellationData, DocumentDiagnosticParams, DocumentDiagnosticReport,
    FullDocumentDiagnosticReport, PreviousResultId, RelatedFullDocumentDiagnosticReport,
    RelatedReport, RelatedUnchangedDocumentDiagnosticReport, UnchangedDocumentDiagnosticReport,
    WorkspaceDiagnosticParams, WorkspaceDiagnosticReport, WorkspaceDocumentDiagnosticReport,
    WorkspaceFullDocumentDiagnosticReport, WorkspaceUnchangedDocumentDiagnosticReport,
};
pub use token_changes::{
    SemanticTokensDelta, SemanticTokensDeltaParams, SemanticTokensDeltaResult, SemanticTokensEdit,
};
