// The methods of LSP 3.17 and their types. `tools/model` wrote this file from `tools/metamodel.txt`: do not change it. It
// was made from LSP's meta model, which is Copyright (c) Microsoft Corporation, under the MIT licence in the file NOTICE.

use crate::form::{Form, Member};
use crate::model::{Method, Model, Receiver};
use Member::{Optional, Required};
use std::alloc::{AllocError, Global};

impl Model {
    /// Returns the methods and types of LSP 3.17. The error means that an allocation failed.
    pub fn lsp(alloc: Global) -> Result<Model, AllocError> {
        let mut methods = Vec::new(alloc);
        let mut types = Vec::new(alloc);
        add_methods(&mut methods)?;
        add_types(&mut types)?;
        Ok(Model { methods, types })
    }
}

fn add_methods(methods: &mut Vec<Method>) -> Result<(), AllocError> {
    add_methods_1(methods)?;
    add_methods_2(methods)?;
    add_methods_3(methods)?;
    add_methods_4(methods)?;
    Ok(())
}

fn add_methods_1(methods: &mut Vec<Method>) -> Result<(), AllocError> {
    methods.extend_from_slice(&[
        Method {
            name: "$/cancelRequest",
            receiver: Receiver::Both,
            params: 1,
            result: 0,
        },
        Method {
            name: "$/logTrace",
            receiver: Receiver::Client,
            params: 5,
            result: 0,
        },
        Method {
            name: "$/progress",
            receiver: Receiver::Both,
            params: 6,
            result: 0,
        },
        Method {
            name: "$/setTrace",
            receiver: Receiver::Server,
            params: 8,
            result: 0,
        },
        Method {
            name: "callHierarchy/incomingCalls",
            receiver: Receiver::Server,
            params: 10,
            result: 22,
        },
        Method {
            name: "callHierarchy/outgoingCalls",
            receiver: Receiver::Server,
            params: 23,
            result: 26,
        },
        Method {
            name: "client/registerCapability",
            receiver: Receiver::Client,
            params: 27,
            result: 0,
        },
        Method {
            name: "client/unregisterCapability",
            receiver: Receiver::Client,
            params: 30,
            result: 0,
        },
        Method {
            name: "codeAction/resolve",
            receiver: Receiver::Server,
            params: 33,
            result: 33,
        },
        Method {
            name: "codeLens/resolve",
            receiver: Receiver::Server,
            params: 70,
            result: 70,
        },
        Method {
            name: "completionItem/resolve",
            receiver: Receiver::Server,
            params: 71,
            result: 71,
        },
        Method {
            name: "documentLink/resolve",
            receiver: Receiver::Server,
            params: 80,
            result: 80,
        },
        Method {
            name: "exit",
            receiver: Receiver::Server,
            params: 7,
            result: 0,
        },
        Method {
            name: "initialize",
            receiver: Receiver::Server,
            params: 81,
            result: 173,
        },
        Method {
            name: "initialized",
            receiver: Receiver::Server,
            params: 260,
            result: 0,
        },
        Method {
            name: "inlayHint/resolve",
            receiver: Receiver::Server,
            params: 261,
            result: 261,
        },
        Method {
            name: "notebookDocument/didChange",
            receiver: Receiver::Server,
            params: 265,
            result: 0,
        },
        Method {
            name: "notebookDocument/didClose",
            receiver: Receiver::Server,
            params: 285,
            result: 0,
        },
        Method {
            name: "notebookDocument/didOpen",
            receiver: Receiver::Server,
            params: 287,
            result: 0,
        },
        Method {
            name: "notebookDocument/didSave",
            receiver: Receiver::Server,
            params: 289,
            result: 0,
        },
        Method {
            name: "shutdown",
            receiver: Receiver::Server,
            params: 7,
            result: 0,
        },
        Method {
            name: "telemetry/event",
            receiver: Receiver::Client,
            params: 7,
            result: 0,
        },
        Method {
            name: "textDocument/codeAction",
            receiver: Receiver::Server,
            params: 290,
            result: 294,
        },
        Method {
            name: "textDocument/codeLens",
            receiver: Receiver::Server,
            params: 295,
            result: 297,
        },
        Method {
            name: "textDocument/colorPresentation",
            receiver: Receiver::Server,
            params: 298,
            result: 302,
        },
        Method {
            name: "textDocument/completion",
            receiver: Receiver::Server,
            params: 303,
            result: 311,
        },
        Method {
            name: "textDocument/declaration",
            receiver: Receiver::Server,
            params: 312,
            result: 316,
        },
        Method {
            name: "textDocument/definition",
            receiver: Receiver::Server,
            params: 317,
            result: 316,
        },
        Method {
            name: "textDocument/diagnostic",
            receiver: Receiver::Server,
            params: 318,
            result: 327,
        },
        Method {
            name: "textDocument/didChange",
            receiver: Receiver::Server,
            params: 328,
            result: 0,
        },
        Method {
            name: "textDocument/didClose",
            receiver: Receiver::Server,
            params: 329,
            result: 0,
        },
    ])
}

fn add_methods_2(methods: &mut Vec<Method>) -> Result<(), AllocError> {
    methods.extend_from_slice(&[
        Method {
            name: "textDocument/didOpen",
            receiver: Receiver::Server,
            params: 330,
            result: 0,
        },
        Method {
            name: "textDocument/didSave",
            receiver: Receiver::Server,
            params: 331,
            result: 0,
        },
        Method {
            name: "textDocument/documentColor",
            receiver: Receiver::Server,
            params: 332,
            result: 334,
        },
        Method {
            name: "textDocument/documentHighlight",
            receiver: Receiver::Server,
            params: 335,
            result: 338,
        },
        Method {
            name: "textDocument/documentLink",
            receiver: Receiver::Server,
            params: 339,
            result: 341,
        },
        Method {
            name: "textDocument/documentSymbol",
            receiver: Receiver::Server,
            params: 342,
            result: 347,
        },
        Method {
            name: "textDocument/foldingRange",
            receiver: Receiver::Server,
            params: 348,
            result: 351,
        },
        Method {
            name: "textDocument/formatting",
            receiver: Receiver::Server,
            params: 352,
            result: 354,
        },
        Method {
            name: "textDocument/hover",
            receiver: Receiver::Server,
            params: 355,
            result: 361,
        },
        Method {
            name: "textDocument/implementation",
            receiver: Receiver::Server,
            params: 362,
            result: 316,
        },
        Method {
            name: "textDocument/inlayHint",
            receiver: Receiver::Server,
            params: 363,
            result: 365,
        },
        Method {
            name: "textDocument/inlineValue",
            receiver: Receiver::Server,
            params: 366,
            result: 373,
        },
        Method {
            name: "textDocument/linkedEditingRange",
            receiver: Receiver::Server,
            params: 374,
            result: 376,
        },
        Method {
            name: "textDocument/moniker",
            receiver: Receiver::Server,
            params: 377,
            result: 382,
        },
        Method {
            name: "textDocument/onTypeFormatting",
            receiver: Receiver::Server,
            params: 383,
            result: 354,
        },
        Method {
            name: "textDocument/prepareCallHierarchy",
            receiver: Receiver::Server,
            params: 384,
            result: 386,
        },
        Method {
            name: "textDocument/prepareRename",
            receiver: Receiver::Server,
            params: 387,
            result: 390,
        },
        Method {
            name: "textDocument/prepareTypeHierarchy",
            receiver: Receiver::Server,
            params: 391,
            result: 394,
        },
        Method {
            name: "textDocument/publishDiagnostics",
            receiver: Receiver::Client,
            params: 395,
            result: 0,
        },
        Method {
            name: "textDocument/rangeFormatting",
            receiver: Receiver::Server,
            params: 396,
            result: 354,
        },
        Method {
            name: "textDocument/references",
            receiver: Receiver::Server,
            params: 397,
            result: 399,
        },
        Method {
            name: "textDocument/rename",
            receiver: Receiver::Server,
            params: 400,
            result: 401,
        },
        Method {
            name: "textDocument/selectionRange",
            receiver: Receiver::Server,
            params: 402,
            result: 406,
        },
        Method {
            name: "textDocument/semanticTokens/full",
            receiver: Receiver::Server,
            params: 407,
            result: 410,
        },
        Method {
            name: "textDocument/semanticTokens/full/delta",
            receiver: Receiver::Server,
            params: 411,
            result: 416,
        },
        Method {
            name: "textDocument/semanticTokens/range",
            receiver: Receiver::Server,
            params: 417,
            result: 410,
        },
        Method {
            name: "textDocument/signatureHelp",
            receiver: Receiver::Server,
            params: 418,
            result: 426,
        },
        Method {
            name: "textDocument/typeDefinition",
            receiver: Receiver::Server,
            params: 427,
            result: 316,
        },
    ])
}

fn add_methods_3(methods: &mut Vec<Method>) -> Result<(), AllocError> {
    methods.extend_from_slice(&[
        Method {
            name: "textDocument/willSave",
            receiver: Receiver::Server,
            params: 428,
            result: 0,
        },
        Method {
            name: "textDocument/willSaveWaitUntil",
            receiver: Receiver::Server,
            params: 428,
            result: 354,
        },
        Method {
            name: "typeHierarchy/subtypes",
            receiver: Receiver::Server,
            params: 429,
            result: 394,
        },
        Method {
            name: "typeHierarchy/supertypes",
            receiver: Receiver::Server,
            params: 430,
            result: 394,
        },
        Method {
            name: "window/logMessage",
            receiver: Receiver::Client,
            params: 431,
            result: 0,
        },
        Method {
            name: "window/showDocument",
            receiver: Receiver::Client,
            params: 432,
            result: 433,
        },
        Method {
            name: "window/showMessage",
            receiver: Receiver::Client,
            params: 434,
            result: 0,
        },
        Method {
            name: "window/showMessageRequest",
            receiver: Receiver::Client,
            params: 435,
            result: 438,
        },
        Method {
            name: "window/workDoneProgress/cancel",
            receiver: Receiver::Server,
            params: 439,
            result: 0,
        },
        Method {
            name: "window/workDoneProgress/create",
            receiver: Receiver::Client,
            params: 440,
            result: 0,
        },
        Method {
            name: "workspace/applyEdit",
            receiver: Receiver::Client,
            params: 441,
            result: 442,
        },
        Method {
            name: "workspace/codeLens/refresh",
            receiver: Receiver::Client,
            params: 7,
            result: 0,
        },
        Method {
            name: "workspace/configuration",
            receiver: Receiver::Client,
            params: 443,
            result: 69,
        },
        Method {
            name: "workspace/diagnostic",
            receiver: Receiver::Server,
            params: 446,
            result: 449,
        },
        Method {
            name: "workspace/diagnostic/refresh",
            receiver: Receiver::Client,
            params: 7,
            result: 0,
        },
        Method {
            name: "workspace/didChangeConfiguration",
            receiver: Receiver::Server,
            params: 454,
            result: 0,
        },
        Method {
            name: "workspace/didChangeWatchedFiles",
            receiver: Receiver::Server,
            params: 455,
            result: 0,
        },
        Method {
            name: "workspace/didChangeWorkspaceFolders",
            receiver: Receiver::Server,
            params: 458,
            result: 0,
        },
        Method {
            name: "workspace/didCreateFiles",
            receiver: Receiver::Server,
            params: 460,
            result: 0,
        },
        Method {
            name: "workspace/didDeleteFiles",
            receiver: Receiver::Server,
            params: 463,
            result: 0,
        },
        Method {
            name: "workspace/didRenameFiles",
            receiver: Receiver::Server,
            params: 466,
            result: 0,
        },
        Method {
            name: "workspace/executeCommand",
            receiver: Receiver::Server,
            params: 469,
            result: 7,
        },
        Method {
            name: "workspace/inlayHint/refresh",
            receiver: Receiver::Client,
            params: 7,
            result: 0,
        },
        Method {
            name: "workspace/inlineValue/refresh",
            receiver: Receiver::Client,
            params: 7,
            result: 0,
        },
        Method {
            name: "workspace/semanticTokens/refresh",
            receiver: Receiver::Client,
            params: 7,
            result: 0,
        },
        Method {
            name: "workspace/symbol",
            receiver: Receiver::Server,
            params: 470,
            result: 475,
        },
        Method {
            name: "workspace/willCreateFiles",
            receiver: Receiver::Server,
            params: 460,
            result: 401,
        },
        Method {
            name: "workspace/willDeleteFiles",
            receiver: Receiver::Server,
            params: 463,
            result: 401,
        },
        Method {
            name: "workspace/willRenameFiles",
            receiver: Receiver::Server,
            params: 466,
            result: 401,
        },
    ])
}

fn add_methods_4(methods: &mut Vec<Method>) -> Result<(), AllocError> {
    methods.extend_from_slice(&[
        Method {
            name: "workspace/workspaceFolders",
            receiver: Receiver::Client,
            params: 7,
            result: 172,
        },
        Method {
            name: "workspaceSymbol/resolve",
            receiver: Receiver::Server,
            params: 471,
            result: 471,
        },
    ])
}

fn add_types(types: &mut Vec<Form>) -> Result<(), AllocError> {
    add_types_1(types)?;
    add_types_2(types)?;
    add_types_3(types)?;
    add_types_4(types)?;
    add_types_5(types)?;
    add_types_6(types)?;
    add_types_7(types)?;
    add_types_8(types)?;
    add_types_9(types)?;
    add_types_10(types)?;
    add_types_11(types)?;
    add_types_12(types)?;
    add_types_13(types)?;
    add_types_14(types)?;
    add_types_15(types)?;
    add_types_16(types)?;
    add_types_17(types)?;
    add_types_18(types)?;
    Ok(())
}

fn add_types_1(types: &mut Vec<Form>) -> Result<(), AllocError> {
    types.extend_from_slice(&[
        // 0
        Form::Nothing,
        // 1: CancelParams
        Form::Object(&[Required("id", 4)]),
        // 2
        Form::Integer,
        // 3
        Form::String,
        // 4
        Form::OneOf(&[2, 3]),
        // 5: LogTraceParams
        Form::Object(&[Required("message", 3), Optional("verbose", 3)]),
        // 6: ProgressParams
        Form::Object(&[Required("token", 4), Required("value", 7)]),
        // 7
        Form::Any,
        // 8: SetTraceParams
        Form::Object(&[Required("value", 9)]),
        // 9
        Form::Words(&["off", "messages", "verbose"]),
        // 10: CallHierarchyIncomingCallsParams
        Form::Object(&[
            Required("item", 11),
            Optional("workDoneToken", 4),
            Optional("partialResultToken", 4),
        ]),
        // 11: CallHierarchyItem
        Form::Around(
            &[
                Required("name", 3),
                Required("kind", 12),
                Required("uri", 3),
                Required("range", 13),
                Required("selectionRange", 13),
                Optional("tags", 17),
                Optional("detail", 3),
                Optional("data", 7),
            ],
            "range",
            "selectionRange",
        ),
        // 12
        Form::Listed(1, 26),
        // 13: Range
        Form::Range(&[Required("start", 14), Required("end", 14)]),
        // 14: Position
        Form::Object(&[Required("line", 15), Required("character", 15)]),
        // 15
        Form::Unsigned,
        // 16
        Form::Listed(1, 1),
        // 17
        Form::List(16),
        // 18: CallHierarchyIncomingCall
        Form::Object(&[Required("from", 11), Required("fromRanges", 19)]),
        // 19
        Form::List(13),
        // 20
        Form::List(18),
        // 21
        Form::Null,
        // 22
        Form::OneOf(&[20, 21]),
        // 23: CallHierarchyOutgoingCallsParams
        Form::Object(&[
            Required("item", 11),
            Optional("workDoneToken", 4),
            Optional("partialResultToken", 4),
        ]),
        // 24: CallHierarchyOutgoingCall
        Form::Object(&[Required("to", 11), Required("fromRanges", 19)]),
        // 25
        Form::List(24),
        // 26
        Form::OneOf(&[25, 21]),
        // 27: RegistrationParams
        Form::Object(&[Required("registrations", 29)]),
        // 28: Registration
        Form::Object(&[
            Required("id", 3),
            Required("method", 3),
            Optional("registerOptions", 7),
        ]),
        // 29
        Form::List(28),
        // 30: UnregistrationParams
        Form::Object(&[Required("unregisterations", 32)]),
        // 31: Unregistration
        Form::Object(&[Required("id", 3), Required("method", 3)]),
        // 32
        Form::List(31),
        // 33: CodeAction
        Form::Object(&[
            Required("title", 3),
            Optional("kind", 3),
            Optional("diagnostics", 42),
            Optional("isPreferred", 43),
            Optional("disabled", 44),
            Optional("edit", 45),
            Optional("command", 68),
            Optional("data", 7),
        ]),
        // 34: Diagnostic
        Form::Object(&[
            Required("range", 13),
            Required("message", 3),
            Optional("severity", 35),
            Optional("code", 4),
            Optional("codeDescription", 36),
            Optional("source", 3),
            Optional("tags", 38),
            Optional("relatedInformation", 41),
            Optional("data", 7),
        ]),
        // 35
        Form::Listed(1, 4),
        // 36: CodeDescription
        Form::Object(&[Required("href", 3)]),
        // 37
        Form::Listed(1, 2),
        // 38
        Form::List(37),
    ])
}

fn add_types_2(types: &mut Vec<Form>) -> Result<(), AllocError> {
    types.extend_from_slice(&[
        // 39: DiagnosticRelatedInformation
        Form::Object(&[Required("location", 40), Required("message", 3)]),
        // 40: Location
        Form::Object(&[Required("uri", 3), Required("range", 13)]),
        // 41
        Form::List(39),
        // 42
        Form::List(34),
        // 43
        Form::Boolean,
        // 44: CodeActionDisabledType
        Form::Object(&[Required("reason", 3)]),
        // 45: WorkspaceEdit
        Form::Object(&[
            Optional("changes", 48),
            Optional("documentChanges", 65),
            Optional("changeAnnotations", 67),
        ]),
        // 46: TextEdit
        Form::Object(&[Required("range", 13), Required("newText", 3)]),
        // 47
        Form::Edits(46),
        // 48
        Form::Map(47),
        // 49: TextDocumentEdit
        Form::Object(&[Required("textDocument", 50), Required("edits", 54)]),
        // 50: OptionalVersionedTextDocumentIdentifier
        Form::Object(&[Required("uri", 3), Required("version", 51)]),
        // 51
        Form::OneOf(&[2, 21]),
        // 52: AnnotatedTextEdit
        Form::Object(&[
            Required("annotationId", 3),
            Required("range", 13),
            Required("newText", 3),
        ]),
        // 53
        Form::OneOf(&[46, 52]),
        // 54
        Form::Edits(53),
        // 55: CreateFile
        Form::Object(&[
            Required("uri", 3),
            Required("kind", 56),
            Optional("options", 57),
            Optional("annotationId", 3),
        ]),
        // 56
        Form::Word("create"),
        // 57: CreateFileOptions
        Form::Object(&[Optional("overwrite", 43), Optional("ignoreIfExists", 43)]),
        // 58: RenameFile
        Form::Object(&[
            Required("oldUri", 3),
            Required("newUri", 3),
            Required("kind", 59),
            Optional("options", 60),
            Optional("annotationId", 3),
        ]),
        // 59
        Form::Word("rename"),
        // 60: RenameFileOptions
        Form::Object(&[Optional("overwrite", 43), Optional("ignoreIfExists", 43)]),
        // 61: DeleteFile
        Form::Object(&[
            Required("uri", 3),
            Required("kind", 62),
            Optional("options", 63),
            Optional("annotationId", 3),
        ]),
        // 62
        Form::Word("delete"),
        // 63: DeleteFileOptions
        Form::Object(&[Optional("recursive", 43), Optional("ignoreIfNotExists", 43)]),
        // 64
        Form::OneOf(&[49, 55, 58, 61]),
        // 65
        Form::List(64),
        // 66: ChangeAnnotation
        Form::Object(&[
            Required("label", 3),
            Optional("needsConfirmation", 43),
            Optional("description", 3),
        ]),
        // 67
        Form::Map(66),
        // 68: Command
        Form::Object(&[
            Required("title", 3),
            Required("command", 3),
            Optional("arguments", 69),
        ]),
        // 69
        Form::List(7),
        // 70: CodeLens
        Form::Object(&[
            Required("range", 13),
            Optional("command", 68),
            Optional("data", 7),
        ]),
    ])
}

fn add_types_3(types: &mut Vec<Form>) -> Result<(), AllocError> {
    types.extend_from_slice(&[
        // 71: CompletionItem
        Form::Object(&[
            Required("label", 3),
            Optional("labelDetails", 72),
            Optional("kind", 73),
            Optional("tags", 17),
            Optional("detail", 3),
            Optional("documentation", 76),
            Optional("deprecated", 43),
            Optional("preselect", 43),
            Optional("sortText", 3),
            Optional("filterText", 3),
            Optional("insertText", 3),
            Optional("insertTextFormat", 37),
            Optional("insertTextMode", 37),
            Optional("textEdit", 78),
            Optional("textEditText", 3),
            Optional("additionalTextEdits", 47),
            Optional("commitCharacters", 79),
            Optional("command", 68),
            Optional("data", 7),
        ]),
        // 72: CompletionItemLabelDetails
        Form::Object(&[Optional("detail", 3), Optional("description", 3)]),
        // 73
        Form::Listed(1, 25),
        // 74: MarkupContent
        Form::Object(&[Required("kind", 75), Required("value", 3)]),
        // 75
        Form::Words(&["plaintext", "markdown"]),
        // 76
        Form::OneOf(&[3, 74]),
        // 77: InsertReplaceEdit
        Form::Object(&[
            Required("newText", 3),
            Required("insert", 13),
            Required("replace", 13),
        ]),
        // 78
        Form::OneOf(&[46, 77]),
        // 79
        Form::List(3),
        // 80: DocumentLink
        Form::Object(&[
            Required("range", 13),
            Optional("target", 3),
            Optional("tooltip", 3),
            Optional("data", 7),
        ]),
        // 81: InitializeParams
        Form::Object(&[
            Required("capabilities", 82),
            Required("processId", 51),
            Optional("clientInfo", 168),
            Optional("locale", 3),
            Optional("rootPath", 169),
            Required("rootUri", 169),
            Optional("initializationOptions", 7),
            Optional("trace", 9),
            Optional("workDoneToken", 4),
            Optional("workspaceFolders", 172),
        ]),
        // 82: ClientCapabilities
        Form::Object(&[
            Optional("workspace", 83),
            Optional("textDocument", 103),
            Optional("notebookDocument", 158),
            Optional("window", 160),
            Optional("general", 164),
            Optional("experimental", 7),
        ]),
        // 83: WorkspaceClientCapabilities
        Form::Object(&[
            Optional("applyEdit", 43),
            Optional("workspaceEdit", 84),
            Optional("didChangeConfiguration", 89),
            Optional("didChangeWatchedFiles", 90),
            Optional("symbol", 91),
            Optional("executeCommand", 96),
            Optional("workspaceFolders", 43),
            Optional("configuration", 43),
            Optional("semanticTokens", 97),
            Optional("codeLens", 98),
            Optional("fileOperations", 99),
            Optional("inlineValue", 100),
            Optional("inlayHint", 101),
            Optional("diagnostics", 102),
        ]),
        // 84: WorkspaceEditClientCapabilities
        Form::Object(&[
            Optional("documentChanges", 43),
            Optional("resourceOperations", 86),
            Optional("failureHandling", 87),
            Optional("normalizesLineEndings", 43),
            Optional("changeAnnotationSupport", 88),
        ]),
        // 85
        Form::Words(&["create", "rename", "delete"]),
        // 86
        Form::List(85),
        // 87
        Form::Words(&["abort", "transactional", "textOnlyTransactional", "undo"]),
        // 88: WorkspaceEditClientCapabilitiesChangeAnnotationSupportType
        Form::Object(&[Optional("groupsOnLabel", 43)]),
        // 89: DidChangeConfigurationClientCapabilities
        Form::Object(&[Optional("dynamicRegistration", 43)]),
    ])
}

fn add_types_4(types: &mut Vec<Form>) -> Result<(), AllocError> {
    types.extend_from_slice(&[
        // 90: DidChangeWatchedFilesClientCapabilities
        Form::Object(&[
            Optional("dynamicRegistration", 43),
            Optional("relativePatternSupport", 43),
        ]),
        // 91: WorkspaceSymbolClientCapabilities
        Form::Object(&[
            Optional("dynamicRegistration", 43),
            Optional("symbolKind", 92),
            Optional("tagSupport", 94),
            Optional("resolveSupport", 95),
        ]),
        // 92: WorkspaceSymbolClientCapabilitiesSymbolKindType
        Form::Object(&[Optional("valueSet", 93)]),
        // 93
        Form::List(12),
        // 94: WorkspaceSymbolClientCapabilitiesTagSupportType
        Form::Object(&[Required("valueSet", 17)]),
        // 95: WorkspaceSymbolClientCapabilitiesResolveSupportType
        Form::Object(&[Required("properties", 79)]),
        // 96: ExecuteCommandClientCapabilities
        Form::Object(&[Optional("dynamicRegistration", 43)]),
        // 97: SemanticTokensWorkspaceClientCapabilities
        Form::Object(&[Optional("refreshSupport", 43)]),
        // 98: CodeLensWorkspaceClientCapabilities
        Form::Object(&[Optional("refreshSupport", 43)]),
        // 99: FileOperationClientCapabilities
        Form::Object(&[
            Optional("dynamicRegistration", 43),
            Optional("didCreate", 43),
            Optional("willCreate", 43),
            Optional("didRename", 43),
            Optional("willRename", 43),
            Optional("didDelete", 43),
            Optional("willDelete", 43),
        ]),
        // 100: InlineValueWorkspaceClientCapabilities
        Form::Object(&[Optional("refreshSupport", 43)]),
        // 101: InlayHintWorkspaceClientCapabilities
        Form::Object(&[Optional("refreshSupport", 43)]),
        // 102: DiagnosticWorkspaceClientCapabilities
        Form::Object(&[Optional("refreshSupport", 43)]),
        // 103: TextDocumentClientCapabilities
        Form::Object(&[
            Optional("synchronization", 104),
            Optional("completion", 105),
            Optional("hover", 114),
            Optional("signatureHelp", 115),
            Optional("declaration", 118),
            Optional("definition", 119),
            Optional("typeDefinition", 120),
            Optional("implementation", 121),
            Optional("references", 122),
            Optional("documentHighlight", 123),
            Optional("documentSymbol", 124),
            Optional("codeAction", 127),
            Optional("codeLens", 131),
            Optional("documentLink", 132),
            Optional("colorProvider", 133),
            Optional("formatting", 134),
            Optional("rangeFormatting", 135),
            Optional("onTypeFormatting", 136),
            Optional("rename", 137),
            Optional("foldingRange", 138),
            Optional("selectionRange", 141),
            Optional("publishDiagnostics", 142),
            Optional("callHierarchy", 144),
            Optional("semanticTokens", 145),
            Optional("linkedEditingRange", 151),
            Optional("moniker", 152),
            Optional("typeHierarchy", 153),
            Optional("inlineValue", 154),
            Optional("inlayHint", 155),
            Optional("diagnostic", 157),
        ]),
        // 104: TextDocumentSyncClientCapabilities
        Form::Object(&[
            Optional("dynamicRegistration", 43),
            Optional("willSave", 43),
            Optional("willSaveWaitUntil", 43),
            Optional("didSave", 43),
        ]),
    ])
}

fn add_types_5(types: &mut Vec<Form>) -> Result<(), AllocError> {
    types.extend_from_slice(&[
        // 105: CompletionClientCapabilities
        Form::Object(&[
            Optional("dynamicRegistration", 43),
            Optional("completionItem", 106),
            Optional("completionItemKind", 111),
            Optional("insertTextMode", 37),
            Optional("contextSupport", 43),
            Optional("completionList", 113),
        ]),
        // 106: CompletionClientCapabilitiesCompletionItemType
        Form::Object(&[
            Optional("snippetSupport", 43),
            Optional("commitCharactersSupport", 43),
            Optional("documentationFormat", 107),
            Optional("deprecatedSupport", 43),
            Optional("preselectSupport", 43),
            Optional("tagSupport", 108),
            Optional("insertReplaceSupport", 43),
            Optional("resolveSupport", 109),
            Optional("insertTextModeSupport", 110),
            Optional("labelDetailsSupport", 43),
        ]),
        // 107
        Form::List(75),
        // 108: CompletionClientCapabilitiesCompletionItemTypeTagSupportType
        Form::Object(&[Required("valueSet", 17)]),
        // 109: CompletionClientCapabilitiesCompletionItemTypeResolveSupportType
        Form::Object(&[Required("properties", 79)]),
        // 110: CompletionClientCapabilitiesCompletionItemTypeInsertTextModeSupportType
        Form::Object(&[Required("valueSet", 38)]),
        // 111: CompletionClientCapabilitiesCompletionItemKindType
        Form::Object(&[Optional("valueSet", 112)]),
        // 112
        Form::List(73),
        // 113: CompletionClientCapabilitiesCompletionListType
        Form::Object(&[Optional("itemDefaults", 79)]),
        // 114: HoverClientCapabilities
        Form::Object(&[
            Optional("dynamicRegistration", 43),
            Optional("contentFormat", 107),
        ]),
        // 115: SignatureHelpClientCapabilities
        Form::Object(&[
            Optional("dynamicRegistration", 43),
            Optional("signatureInformation", 116),
            Optional("contextSupport", 43),
        ]),
        // 116: SignatureHelpClientCapabilitiesSignatureInformationType
        Form::Object(&[
            Optional("documentationFormat", 107),
            Optional("parameterInformation", 117),
            Optional("activeParameterSupport", 43),
        ]),
        // 117: SignatureHelpClientCapabilitiesSignatureInformationTypeParameterInformationType
        Form::Object(&[Optional("labelOffsetSupport", 43)]),
        // 118: DeclarationClientCapabilities
        Form::Object(&[
            Optional("dynamicRegistration", 43),
            Optional("linkSupport", 43),
        ]),
        // 119: DefinitionClientCapabilities
        Form::Object(&[
            Optional("dynamicRegistration", 43),
            Optional("linkSupport", 43),
        ]),
        // 120: TypeDefinitionClientCapabilities
        Form::Object(&[
            Optional("dynamicRegistration", 43),
            Optional("linkSupport", 43),
        ]),
        // 121: ImplementationClientCapabilities
        Form::Object(&[
            Optional("dynamicRegistration", 43),
            Optional("linkSupport", 43),
        ]),
        // 122: ReferenceClientCapabilities
        Form::Object(&[Optional("dynamicRegistration", 43)]),
        // 123: DocumentHighlightClientCapabilities
        Form::Object(&[Optional("dynamicRegistration", 43)]),
        // 124: DocumentSymbolClientCapabilities
        Form::Object(&[
            Optional("dynamicRegistration", 43),
            Optional("symbolKind", 125),
            Optional("hierarchicalDocumentSymbolSupport", 43),
            Optional("tagSupport", 126),
            Optional("labelSupport", 43),
        ]),
    ])
}

fn add_types_6(types: &mut Vec<Form>) -> Result<(), AllocError> {
    types.extend_from_slice(&[
        // 125: DocumentSymbolClientCapabilitiesSymbolKindType
        Form::Object(&[Optional("valueSet", 93)]),
        // 126: DocumentSymbolClientCapabilitiesTagSupportType
        Form::Object(&[Required("valueSet", 17)]),
        // 127: CodeActionClientCapabilities
        Form::Object(&[
            Optional("dynamicRegistration", 43),
            Optional("codeActionLiteralSupport", 128),
            Optional("isPreferredSupport", 43),
            Optional("disabledSupport", 43),
            Optional("dataSupport", 43),
            Optional("resolveSupport", 130),
            Optional("honorsChangeAnnotations", 43),
        ]),
        // 128: CodeActionClientCapabilitiesCodeActionLiteralSupportType
        Form::Object(&[Required("codeActionKind", 129)]),
        // 129: CodeActionClientCapabilitiesCodeActionLiteralSupportTypeCodeActionKindType
        Form::Object(&[Required("valueSet", 79)]),
        // 130: CodeActionClientCapabilitiesResolveSupportType
        Form::Object(&[Required("properties", 79)]),
        // 131: CodeLensClientCapabilities
        Form::Object(&[Optional("dynamicRegistration", 43)]),
        // 132: DocumentLinkClientCapabilities
        Form::Object(&[
            Optional("dynamicRegistration", 43),
            Optional("tooltipSupport", 43),
        ]),
        // 133: DocumentColorClientCapabilities
        Form::Object(&[Optional("dynamicRegistration", 43)]),
        // 134: DocumentFormattingClientCapabilities
        Form::Object(&[Optional("dynamicRegistration", 43)]),
        // 135: DocumentRangeFormattingClientCapabilities
        Form::Object(&[Optional("dynamicRegistration", 43)]),
        // 136: DocumentOnTypeFormattingClientCapabilities
        Form::Object(&[Optional("dynamicRegistration", 43)]),
        // 137: RenameClientCapabilities
        Form::Object(&[
            Optional("dynamicRegistration", 43),
            Optional("prepareSupport", 43),
            Optional("prepareSupportDefaultBehavior", 16),
            Optional("honorsChangeAnnotations", 43),
        ]),
        // 138: FoldingRangeClientCapabilities
        Form::Object(&[
            Optional("dynamicRegistration", 43),
            Optional("rangeLimit", 15),
            Optional("lineFoldingOnly", 43),
            Optional("foldingRangeKind", 139),
            Optional("foldingRange", 140),
        ]),
        // 139: FoldingRangeClientCapabilitiesFoldingRangeKindType
        Form::Object(&[Optional("valueSet", 79)]),
        // 140: FoldingRangeClientCapabilitiesFoldingRangeType
        Form::Object(&[Optional("collapsedText", 43)]),
        // 141: SelectionRangeClientCapabilities
        Form::Object(&[Optional("dynamicRegistration", 43)]),
        // 142: PublishDiagnosticsClientCapabilities
        Form::Object(&[
            Optional("relatedInformation", 43),
            Optional("tagSupport", 143),
            Optional("versionSupport", 43),
            Optional("codeDescriptionSupport", 43),
            Optional("dataSupport", 43),
        ]),
        // 143: PublishDiagnosticsClientCapabilitiesTagSupportType
        Form::Object(&[Required("valueSet", 38)]),
        // 144: CallHierarchyClientCapabilities
        Form::Object(&[Optional("dynamicRegistration", 43)]),
    ])
}

fn add_types_7(types: &mut Vec<Form>) -> Result<(), AllocError> {
    types.extend_from_slice(&[
        // 145: SemanticTokensClientCapabilities
        Form::Object(&[
            Required("requests", 146),
            Required("tokenTypes", 79),
            Required("tokenModifiers", 79),
            Required("formats", 150),
            Optional("dynamicRegistration", 43),
            Optional("overlappingTokenSupport", 43),
            Optional("multilineTokenSupport", 43),
            Optional("serverCancelSupport", 43),
            Optional("augmentsSyntaxTokens", 43),
        ]),
        // 146: SemanticTokensClientCapabilitiesRequestsType
        Form::Object(&[Optional("range", 7), Optional("full", 148)]),
        // 147: SemanticTokensClientCapabilitiesRequestsTypeFullType1
        Form::Object(&[Optional("delta", 43)]),
        // 148
        Form::OneOf(&[43, 147]),
        // 149
        Form::Word("relative"),
        // 150
        Form::List(149),
        // 151: LinkedEditingRangeClientCapabilities
        Form::Object(&[Optional("dynamicRegistration", 43)]),
        // 152: MonikerClientCapabilities
        Form::Object(&[Optional("dynamicRegistration", 43)]),
        // 153: TypeHierarchyClientCapabilities
        Form::Object(&[Optional("dynamicRegistration", 43)]),
        // 154: InlineValueClientCapabilities
        Form::Object(&[Optional("dynamicRegistration", 43)]),
        // 155: InlayHintClientCapabilities
        Form::Object(&[
            Optional("dynamicRegistration", 43),
            Optional("resolveSupport", 156),
        ]),
        // 156: InlayHintClientCapabilitiesResolveSupportType
        Form::Object(&[Required("properties", 79)]),
        // 157: DiagnosticClientCapabilities
        Form::Object(&[
            Optional("dynamicRegistration", 43),
            Optional("relatedDocumentSupport", 43),
        ]),
        // 158: NotebookDocumentClientCapabilities
        Form::Object(&[Required("synchronization", 159)]),
        // 159: NotebookDocumentSyncClientCapabilities
        Form::Object(&[
            Optional("dynamicRegistration", 43),
            Optional("executionSummarySupport", 43),
        ]),
        // 160: WindowClientCapabilities
        Form::Object(&[
            Optional("workDoneProgress", 43),
            Optional("showMessage", 161),
            Optional("showDocument", 163),
        ]),
        // 161: ShowMessageRequestClientCapabilities
        Form::Object(&[Optional("messageActionItem", 162)]),
        // 162: ShowMessageRequestClientCapabilitiesMessageActionItemType
        Form::Object(&[Optional("additionalPropertiesSupport", 43)]),
        // 163: ShowDocumentClientCapabilities
        Form::Object(&[Required("support", 43)]),
        // 164: GeneralClientCapabilities
        Form::Object(&[
            Optional("staleRequestSupport", 165),
            Optional("regularExpressions", 166),
            Optional("markdown", 167),
            Optional("positionEncodings", 79),
        ]),
        // 165: GeneralClientCapabilitiesStaleRequestSupportType
        Form::Object(&[
            Required("cancel", 43),
            Required("retryOnContentModified", 79),
        ]),
        // 166: RegularExpressionsClientCapabilities
        Form::Object(&[Required("engine", 3), Optional("version", 3)]),
        // 167: MarkdownClientCapabilities
        Form::Object(&[
            Required("parser", 3),
            Optional("version", 3),
            Optional("allowedTags", 79),
        ]),
        // 168: InitializeParamsClientInfoType
        Form::Object(&[Required("name", 3), Optional("version", 3)]),
        // 169
        Form::OneOf(&[3, 21]),
    ])
}

fn add_types_8(types: &mut Vec<Form>) -> Result<(), AllocError> {
    types.extend_from_slice(&[
        // 170: WorkspaceFolder
        Form::Object(&[Required("uri", 3), Required("name", 3)]),
        // 171
        Form::List(170),
        // 172
        Form::OneOf(&[171, 21]),
        // 173: InitializeResult
        Form::Object(&[Required("capabilities", 174), Optional("serverInfo", 259)]),
        // 174: ServerCapabilities
        Form::Object(&[
            Optional("positionEncoding", 3),
            Optional("textDocumentSync", 179),
            Optional("notebookDocumentSync", 180),
            Optional("completionProvider", 193),
            Optional("hoverProvider", 196),
            Optional("signatureHelpProvider", 197),
            Optional("declarationProvider", 199),
            Optional("definitionProvider", 201),
            Optional("typeDefinitionProvider", 203),
            Optional("implementationProvider", 205),
            Optional("referencesProvider", 207),
            Optional("documentHighlightProvider", 209),
            Optional("documentSymbolProvider", 211),
            Optional("codeActionProvider", 213),
            Optional("codeLensProvider", 214),
            Optional("documentLinkProvider", 215),
            Optional("colorProvider", 217),
            Optional("workspaceSymbolProvider", 219),
            Optional("documentFormattingProvider", 221),
            Optional("documentRangeFormattingProvider", 223),
            Optional("documentOnTypeFormattingProvider", 224),
            Optional("renameProvider", 226),
            Optional("foldingRangeProvider", 228),
            Optional("selectionRangeProvider", 230),
            Optional("executeCommandProvider", 231),
            Optional("callHierarchyProvider", 233),
            Optional("linkedEditingRangeProvider", 235),
            Optional("semanticTokensProvider", 236),
            Optional("monikerProvider", 241),
            Optional("typeHierarchyProvider", 243),
            Optional("inlineValueProvider", 245),
            Optional("inlayHintProvider", 247),
            Optional("diagnosticProvider", 248),
            Optional("workspace", 249),
            Optional("experimental", 7),
        ]),
        // 175: TextDocumentSyncOptions
        Form::Object(&[
            Optional("openClose", 43),
            Optional("change", 176),
            Optional("willSave", 43),
            Optional("willSaveWaitUntil", 43),
            Optional("save", 178),
        ]),
        // 176
        Form::Listed(0, 2),
        // 177: SaveOptions
        Form::Object(&[Optional("includeText", 43)]),
        // 178
        Form::OneOf(&[43, 177]),
        // 179
        Form::OneOf(&[175, 176]),
        // 180: NotebookDocumentSyncOptions
        Form::Object(&[Required("notebookSelector", 192), Optional("save", 43)]),
        // 181: NotebookDocumentSyncOptionsNotebookSelectorType1
        Form::Object(&[Required("notebook", 185), Optional("cells", 187)]),
        // 182
        Form::Object(&[
            Required("notebookType", 3),
            Optional("scheme", 3),
            Optional("pattern", 3),
        ]),
        // 183
        Form::Object(&[
            Required("scheme", 3),
            Optional("notebookType", 3),
            Optional("pattern", 3),
        ]),
        // 184
        Form::Object(&[
            Required("pattern", 3),
            Optional("notebookType", 3),
            Optional("scheme", 3),
        ]),
        // 185
        Form::OneOf(&[3, 182, 183, 184]),
        // 186: NotebookDocumentSyncOptionsNotebookSelectorType1CellsType
        Form::Object(&[Required("language", 3)]),
        // 187
        Form::List(186),
        // 188: NotebookDocumentSyncOptionsNotebookSelectorType2
        Form::Object(&[Required("cells", 190), Optional("notebook", 185)]),
    ])
}

fn add_types_9(types: &mut Vec<Form>) -> Result<(), AllocError> {
    types.extend_from_slice(&[
        // 189: NotebookDocumentSyncOptionsNotebookSelectorType2CellsType
        Form::Object(&[Required("language", 3)]),
        // 190
        Form::List(189),
        // 191
        Form::OneOf(&[181, 188]),
        // 192
        Form::List(191),
        // 193: CompletionOptions
        Form::Object(&[
            Optional("triggerCharacters", 79),
            Optional("allCommitCharacters", 79),
            Optional("resolveProvider", 43),
            Optional("completionItem", 194),
            Optional("workDoneProgress", 43),
        ]),
        // 194: CompletionOptionsCompletionItemType
        Form::Object(&[Optional("labelDetailsSupport", 43)]),
        // 195: HoverOptions
        Form::Object(&[Optional("workDoneProgress", 43)]),
        // 196
        Form::OneOf(&[43, 195]),
        // 197: SignatureHelpOptions
        Form::Object(&[
            Optional("triggerCharacters", 79),
            Optional("retriggerCharacters", 79),
            Optional("workDoneProgress", 43),
        ]),
        // 198: DeclarationOptions
        Form::Object(&[Optional("workDoneProgress", 43)]),
        // 199
        Form::OneOf(&[43, 198]),
        // 200: DefinitionOptions
        Form::Object(&[Optional("workDoneProgress", 43)]),
        // 201
        Form::OneOf(&[43, 200]),
        // 202: TypeDefinitionOptions
        Form::Object(&[Optional("workDoneProgress", 43)]),
        // 203
        Form::OneOf(&[43, 202]),
        // 204: ImplementationOptions
        Form::Object(&[Optional("workDoneProgress", 43)]),
        // 205
        Form::OneOf(&[43, 204]),
        // 206: ReferenceOptions
        Form::Object(&[Optional("workDoneProgress", 43)]),
        // 207
        Form::OneOf(&[43, 206]),
        // 208: DocumentHighlightOptions
        Form::Object(&[Optional("workDoneProgress", 43)]),
        // 209
        Form::OneOf(&[43, 208]),
        // 210: DocumentSymbolOptions
        Form::Object(&[Optional("label", 3), Optional("workDoneProgress", 43)]),
        // 211
        Form::OneOf(&[43, 210]),
        // 212: CodeActionOptions
        Form::Object(&[
            Optional("codeActionKinds", 79),
            Optional("resolveProvider", 43),
            Optional("workDoneProgress", 43),
        ]),
        // 213
        Form::OneOf(&[43, 212]),
        // 214: CodeLensOptions
        Form::Object(&[
            Optional("resolveProvider", 43),
            Optional("workDoneProgress", 43),
        ]),
        // 215: DocumentLinkOptions
        Form::Object(&[
            Optional("resolveProvider", 43),
            Optional("workDoneProgress", 43),
        ]),
        // 216: DocumentColorOptions
        Form::Object(&[Optional("workDoneProgress", 43)]),
        // 217
        Form::OneOf(&[43, 216]),
        // 218: WorkspaceSymbolOptions
        Form::Object(&[
            Optional("resolveProvider", 43),
            Optional("workDoneProgress", 43),
        ]),
        // 219
        Form::OneOf(&[43, 218]),
        // 220: DocumentFormattingOptions
        Form::Object(&[Optional("workDoneProgress", 43)]),
        // 221
        Form::OneOf(&[43, 220]),
        // 222: DocumentRangeFormattingOptions
        Form::Object(&[Optional("workDoneProgress", 43)]),
        // 223
        Form::OneOf(&[43, 222]),
        // 224: DocumentOnTypeFormattingOptions
        Form::Object(&[
            Required("firstTriggerCharacter", 3),
            Optional("moreTriggerCharacter", 79),
        ]),
        // 225: RenameOptions
        Form::Object(&[
            Optional("prepareProvider", 43),
            Optional("workDoneProgress", 43),
        ]),
    ])
}

fn add_types_10(types: &mut Vec<Form>) -> Result<(), AllocError> {
    types.extend_from_slice(&[
        // 226
        Form::OneOf(&[43, 225]),
        // 227: FoldingRangeOptions
        Form::Object(&[Optional("workDoneProgress", 43)]),
        // 228
        Form::OneOf(&[43, 227]),
        // 229: SelectionRangeOptions
        Form::Object(&[Optional("workDoneProgress", 43)]),
        // 230
        Form::OneOf(&[43, 229]),
        // 231: ExecuteCommandOptions
        Form::Object(&[Required("commands", 79), Optional("workDoneProgress", 43)]),
        // 232: CallHierarchyOptions
        Form::Object(&[Optional("workDoneProgress", 43)]),
        // 233
        Form::OneOf(&[43, 232]),
        // 234: LinkedEditingRangeOptions
        Form::Object(&[Optional("workDoneProgress", 43)]),
        // 235
        Form::OneOf(&[43, 234]),
        // 236: SemanticTokensOptions
        Form::Object(&[
            Required("legend", 237),
            Optional("range", 7),
            Optional("full", 239),
            Optional("workDoneProgress", 43),
        ]),
        // 237: SemanticTokensLegend
        Form::Object(&[Required("tokenTypes", 79), Required("tokenModifiers", 79)]),
        // 238: SemanticTokensOptionsFullType1
        Form::Object(&[Optional("delta", 43)]),
        // 239
        Form::OneOf(&[43, 238]),
        // 240: MonikerOptions
        Form::Object(&[Optional("workDoneProgress", 43)]),
        // 241
        Form::OneOf(&[43, 240]),
        // 242: TypeHierarchyOptions
        Form::Object(&[Optional("workDoneProgress", 43)]),
        // 243
        Form::OneOf(&[43, 242]),
        // 244: InlineValueOptions
        Form::Object(&[Optional("workDoneProgress", 43)]),
        // 245
        Form::OneOf(&[43, 244]),
        // 246: InlayHintOptions
        Form::Object(&[
            Optional("resolveProvider", 43),
            Optional("workDoneProgress", 43),
        ]),
        // 247
        Form::OneOf(&[43, 246]),
        // 248: DiagnosticOptions
        Form::Object(&[
            Required("interFileDependencies", 43),
            Required("workspaceDiagnostics", 43),
            Optional("identifier", 3),
            Optional("workDoneProgress", 43),
        ]),
        // 249: ServerCapabilitiesWorkspaceType
        Form::Object(&[
            Optional("workspaceFolders", 250),
            Optional("fileOperations", 252),
        ]),
        // 250: WorkspaceFoldersServerCapabilities
        Form::Object(&[
            Optional("supported", 43),
            Optional("changeNotifications", 251),
        ]),
        // 251
        Form::OneOf(&[3, 43]),
        // 252: FileOperationOptions
        Form::Object(&[
            Optional("didCreate", 253),
            Optional("willCreate", 253),
            Optional("didRename", 253),
            Optional("willRename", 253),
            Optional("didDelete", 253),
            Optional("willDelete", 253),
        ]),
        // 253: FileOperationRegistrationOptions
        Form::Object(&[Required("filters", 258)]),
        // 254: FileOperationFilter
        Form::Object(&[Required("pattern", 255), Optional("scheme", 3)]),
        // 255: FileOperationPattern
        Form::Object(&[
            Required("glob", 3),
            Optional("matches", 256),
            Optional("options", 257),
        ]),
        // 256
        Form::Words(&["file", "folder"]),
        // 257: FileOperationPatternOptions
        Form::Object(&[Optional("ignoreCase", 43)]),
        // 258
        Form::List(254),
        // 259: InitializeResultServerInfoType
        Form::Object(&[Required("name", 3), Optional("version", 3)]),
        // 260: InitializedParams
        Form::Object(&[]),
    ])
}

fn add_types_11(types: &mut Vec<Form>) -> Result<(), AllocError> {
    types.extend_from_slice(&[
        // 261: InlayHint
        Form::Object(&[
            Required("position", 14),
            Required("label", 264),
            Optional("kind", 37),
            Optional("textEdits", 47),
            Optional("tooltip", 76),
            Optional("paddingLeft", 43),
            Optional("paddingRight", 43),
            Optional("data", 7),
        ]),
        // 262: InlayHintLabelPart
        Form::Object(&[
            Required("value", 3),
            Optional("tooltip", 76),
            Optional("location", 40),
            Optional("command", 68),
        ]),
        // 263
        Form::List(262),
        // 264
        Form::OneOf(&[3, 263]),
        // 265: DidChangeNotebookDocumentParams
        Form::Object(&[Required("notebookDocument", 266), Required("change", 267)]),
        // 266: VersionedNotebookDocumentIdentifier
        Form::Object(&[Required("version", 2), Required("uri", 3)]),
        // 267: NotebookDocumentChangeEvent
        Form::Object(&[Optional("metadata", 7), Optional("cells", 268)]),
        // 268: NotebookDocumentChangeEventCellsType
        Form::Object(&[
            Optional("structure", 269),
            Optional("data", 273),
            Optional("textContent", 284),
        ]),
        // 269: NotebookDocumentChangeEventCellsTypeStructureType
        Form::Object(&[
            Required("array", 270),
            Optional("didOpen", 275),
            Optional("didClose", 277),
        ]),
        // 270: NotebookCellArrayChange
        Form::Object(&[
            Required("start", 15),
            Required("deleteCount", 15),
            Optional("cells", 273),
        ]),
        // 271: NotebookCell
        Form::Object(&[
            Required("kind", 37),
            Required("document", 3),
            Optional("metadata", 7),
            Optional("executionSummary", 272),
        ]),
        // 272: ExecutionSummary
        Form::Object(&[Required("executionOrder", 15), Optional("success", 43)]),
        // 273
        Form::List(271),
        // 274: TextDocumentItem
        Form::Object(&[
            Required("uri", 3),
            Required("languageId", 3),
            Required("version", 2),
            Required("text", 3),
        ]),
        // 275
        Form::List(274),
        // 276: TextDocumentIdentifier
        Form::Object(&[Required("uri", 3)]),
        // 277
        Form::List(276),
        // 278: NotebookDocumentChangeEventCellsTypeTextContentType
        Form::Object(&[Required("document", 279), Required("changes", 283)]),
        // 279: VersionedTextDocumentIdentifier
        Form::Object(&[Required("version", 2), Required("uri", 3)]),
        // 280
        Form::Object(&[
            Required("range", 13),
            Required("text", 3),
            Optional("rangeLength", 15),
        ]),
        // 281
        Form::Object(&[Required("text", 3)]),
        // 282
        Form::OneOf(&[280, 281]),
        // 283
        Form::List(282),
        // 284
        Form::List(278),
        // 285: DidCloseNotebookDocumentParams
        Form::Object(&[
            Required("notebookDocument", 286),
            Required("cellTextDocuments", 277),
        ]),
        // 286: NotebookDocumentIdentifier
        Form::Object(&[Required("uri", 3)]),
        // 287: DidOpenNotebookDocumentParams
        Form::Object(&[
            Required("notebookDocument", 288),
            Required("cellTextDocuments", 275),
        ]),
        // 288: NotebookDocument
        Form::Object(&[
            Required("uri", 3),
            Required("notebookType", 3),
            Required("version", 2),
            Required("cells", 273),
            Optional("metadata", 7),
        ]),
        // 289: DidSaveNotebookDocumentParams
        Form::Object(&[Required("notebookDocument", 286)]),
    ])
}

fn add_types_12(types: &mut Vec<Form>) -> Result<(), AllocError> {
    types.extend_from_slice(&[
        // 290: CodeActionParams
        Form::Object(&[
            Required("textDocument", 276),
            Required("range", 13),
            Required("context", 291),
            Optional("workDoneToken", 4),
            Optional("partialResultToken", 4),
        ]),
        // 291: CodeActionContext
        Form::Object(&[
            Required("diagnostics", 42),
            Optional("only", 79),
            Optional("triggerKind", 37),
        ]),
        // 292
        Form::OneOf(&[68, 33]),
        // 293
        Form::List(292),
        // 294
        Form::OneOf(&[293, 21]),
        // 295: CodeLensParams
        Form::Object(&[
            Required("textDocument", 276),
            Optional("workDoneToken", 4),
            Optional("partialResultToken", 4),
        ]),
        // 296
        Form::List(70),
        // 297
        Form::OneOf(&[296, 21]),
        // 298: ColorPresentationParams
        Form::Object(&[
            Required("textDocument", 276),
            Required("color", 299),
            Required("range", 13),
            Optional("workDoneToken", 4),
            Optional("partialResultToken", 4),
        ]),
        // 299: Color
        Form::Object(&[
            Required("red", 300),
            Required("green", 300),
            Required("blue", 300),
            Required("alpha", 300),
        ]),
        // 300
        Form::Decimal,
        // 301: ColorPresentation
        Form::Object(&[
            Required("label", 3),
            Optional("textEdit", 46),
            Optional("additionalTextEdits", 47),
        ]),
        // 302
        Form::List(301),
        // 303: CompletionParams
        Form::Object(&[
            Required("textDocument", 276),
            Required("position", 14),
            Optional("context", 304),
            Optional("workDoneToken", 4),
            Optional("partialResultToken", 4),
        ]),
        // 304: CompletionContext
        Form::Object(&[
            Required("triggerKind", 305),
            Optional("triggerCharacter", 3),
        ]),
        // 305
        Form::Listed(1, 3),
        // 306
        Form::List(71),
        // 307: CompletionList
        Form::Object(&[
            Required("isIncomplete", 43),
            Required("items", 306),
            Optional("itemDefaults", 308),
        ]),
        // 308: CompletionListItemDefaultsType
        Form::Object(&[
            Optional("commitCharacters", 79),
            Optional("editRange", 310),
            Optional("insertTextFormat", 37),
            Optional("insertTextMode", 37),
            Optional("data", 7),
        ]),
        // 309: CompletionListItemDefaultsTypeEditRangeType1
        Form::Object(&[Required("insert", 13), Required("replace", 13)]),
        // 310
        Form::OneOf(&[13, 309]),
        // 311
        Form::OneOf(&[306, 307, 21]),
        // 312: DeclarationParams
        Form::Object(&[
            Required("textDocument", 276),
            Required("position", 14),
            Optional("workDoneToken", 4),
            Optional("partialResultToken", 4),
        ]),
        // 313
        Form::List(40),
        // 314: LocationLink
        Form::Around(
            &[
                Required("targetUri", 3),
                Required("targetRange", 13),
                Required("targetSelectionRange", 13),
                Optional("originSelectionRange", 13),
            ],
            "targetRange",
            "targetSelectionRange",
        ),
        // 315
        Form::List(314),
        // 316
        Form::OneOf(&[40, 313, 315, 21]),
        // 317: DefinitionParams
        Form::Object(&[
            Required("textDocument", 276),
            Required("position", 14),
            Optional("workDoneToken", 4),
            Optional("partialResultToken", 4),
        ]),
    ])
}

fn add_types_13(types: &mut Vec<Form>) -> Result<(), AllocError> {
    types.extend_from_slice(&[
        // 318: DocumentDiagnosticParams
        Form::Object(&[
            Required("textDocument", 276),
            Optional("identifier", 3),
            Optional("previousResultId", 3),
            Optional("workDoneToken", 4),
            Optional("partialResultToken", 4),
        ]),
        // 319: RelatedFullDocumentDiagnosticReport
        Form::Object(&[
            Required("items", 42),
            Optional("relatedDocuments", 325),
            Required("kind", 321),
            Optional("resultId", 3),
        ]),
        // 320: FullDocumentDiagnosticReport
        Form::Object(&[
            Required("items", 42),
            Required("kind", 321),
            Optional("resultId", 3),
        ]),
        // 321
        Form::Word("full"),
        // 322: UnchangedDocumentDiagnosticReport
        Form::Object(&[Required("resultId", 3), Required("kind", 323)]),
        // 323
        Form::Word("unchanged"),
        // 324
        Form::OneOf(&[320, 322]),
        // 325
        Form::Map(324),
        // 326: RelatedUnchangedDocumentDiagnosticReport
        Form::Object(&[
            Required("resultId", 3),
            Optional("relatedDocuments", 325),
            Required("kind", 323),
        ]),
        // 327
        Form::OneOf(&[319, 326]),
        // 328: DidChangeTextDocumentParams
        Form::Object(&[
            Required("textDocument", 279),
            Required("contentChanges", 283),
        ]),
        // 329: DidCloseTextDocumentParams
        Form::Object(&[Required("textDocument", 276)]),
        // 330: DidOpenTextDocumentParams
        Form::Object(&[Required("textDocument", 274)]),
        // 331: DidSaveTextDocumentParams
        Form::Object(&[Required("textDocument", 276), Optional("text", 3)]),
        // 332: DocumentColorParams
        Form::Object(&[
            Required("textDocument", 276),
            Optional("workDoneToken", 4),
            Optional("partialResultToken", 4),
        ]),
        // 333: ColorInformation
        Form::Object(&[Required("range", 13), Required("color", 299)]),
        // 334
        Form::List(333),
        // 335: DocumentHighlightParams
        Form::Object(&[
            Required("textDocument", 276),
            Required("position", 14),
            Optional("workDoneToken", 4),
            Optional("partialResultToken", 4),
        ]),
        // 336: DocumentHighlight
        Form::Object(&[Required("range", 13), Optional("kind", 305)]),
        // 337
        Form::List(336),
        // 338
        Form::OneOf(&[337, 21]),
        // 339: DocumentLinkParams
        Form::Object(&[
            Required("textDocument", 276),
            Optional("workDoneToken", 4),
            Optional("partialResultToken", 4),
        ]),
        // 340
        Form::List(80),
        // 341
        Form::OneOf(&[340, 21]),
        // 342: DocumentSymbolParams
        Form::Object(&[
            Required("textDocument", 276),
            Optional("workDoneToken", 4),
            Optional("partialResultToken", 4),
        ]),
        // 343: SymbolInformation
        Form::Object(&[
            Required("location", 40),
            Required("name", 3),
            Required("kind", 12),
            Optional("deprecated", 43),
            Optional("tags", 17),
            Optional("containerName", 3),
        ]),
        // 344
        Form::List(343),
        // 345: DocumentSymbol
        Form::Around(
            &[
                Required("name", 3),
                Required("kind", 12),
                Required("range", 13),
                Required("selectionRange", 13),
                Optional("detail", 3),
                Optional("tags", 17),
                Optional("deprecated", 43),
                Optional("children", 346),
            ],
            "range",
            "selectionRange",
        ),
        // 346
        Form::List(345),
        // 347
        Form::OneOf(&[344, 346, 21]),
    ])
}

fn add_types_14(types: &mut Vec<Form>) -> Result<(), AllocError> {
    types.extend_from_slice(&[
        // 348: FoldingRangeParams
        Form::Object(&[
            Required("textDocument", 276),
            Optional("workDoneToken", 4),
            Optional("partialResultToken", 4),
        ]),
        // 349: FoldingRange
        Form::Folding(&[
            Required("startLine", 15),
            Required("endLine", 15),
            Optional("startCharacter", 15),
            Optional("endCharacter", 15),
            Optional("kind", 3),
            Optional("collapsedText", 3),
        ]),
        // 350
        Form::List(349),
        // 351
        Form::OneOf(&[350, 21]),
        // 352: DocumentFormattingParams
        Form::Object(&[
            Required("textDocument", 276),
            Required("options", 353),
            Optional("workDoneToken", 4),
        ]),
        // 353: FormattingOptions
        Form::Object(&[
            Required("tabSize", 15),
            Required("insertSpaces", 43),
            Optional("trimTrailingWhitespace", 43),
            Optional("insertFinalNewline", 43),
            Optional("trimFinalNewlines", 43),
        ]),
        // 354
        Form::OneOf(&[47, 21]),
        // 355: HoverParams
        Form::Object(&[
            Required("textDocument", 276),
            Required("position", 14),
            Optional("workDoneToken", 4),
        ]),
        // 356: Hover
        Form::Object(&[Required("contents", 360), Optional("range", 13)]),
        // 357
        Form::Object(&[Required("language", 3), Required("value", 3)]),
        // 358
        Form::OneOf(&[3, 357]),
        // 359
        Form::List(358),
        // 360
        Form::OneOf(&[74, 3, 357, 359]),
        // 361
        Form::OneOf(&[356, 21]),
        // 362: ImplementationParams
        Form::Object(&[
            Required("textDocument", 276),
            Required("position", 14),
            Optional("workDoneToken", 4),
            Optional("partialResultToken", 4),
        ]),
        // 363: InlayHintParams
        Form::Object(&[
            Required("textDocument", 276),
            Required("range", 13),
            Optional("workDoneToken", 4),
        ]),
        // 364
        Form::List(261),
        // 365
        Form::OneOf(&[364, 21]),
        // 366: InlineValueParams
        Form::Object(&[
            Required("textDocument", 276),
            Required("range", 13),
            Required("context", 367),
            Optional("workDoneToken", 4),
        ]),
        // 367: InlineValueContext
        Form::Object(&[Required("frameId", 2), Required("stoppedLocation", 13)]),
        // 368: InlineValueText
        Form::Object(&[Required("range", 13), Required("text", 3)]),
        // 369: InlineValueVariableLookup
        Form::Object(&[
            Required("range", 13),
            Required("caseSensitiveLookup", 43),
            Optional("variableName", 3),
        ]),
        // 370: InlineValueEvaluatableExpression
        Form::Object(&[Required("range", 13), Optional("expression", 3)]),
        // 371
        Form::OneOf(&[368, 369, 370]),
        // 372
        Form::List(371),
        // 373
        Form::OneOf(&[372, 21]),
        // 374: LinkedEditingRangeParams
        Form::Object(&[
            Required("textDocument", 276),
            Required("position", 14),
            Optional("workDoneToken", 4),
        ]),
        // 375: LinkedEditingRanges
        Form::Object(&[Required("ranges", 19), Optional("wordPattern", 3)]),
        // 376
        Form::OneOf(&[375, 21]),
        // 377: MonikerParams
        Form::Object(&[
            Required("textDocument", 276),
            Required("position", 14),
            Optional("workDoneToken", 4),
            Optional("partialResultToken", 4),
        ]),
    ])
}

fn add_types_15(types: &mut Vec<Form>) -> Result<(), AllocError> {
    types.extend_from_slice(&[
        // 378: Moniker
        Form::Object(&[
            Required("scheme", 3),
            Required("identifier", 3),
            Required("unique", 379),
            Optional("kind", 380),
        ]),
        // 379
        Form::Words(&["document", "project", "group", "scheme", "global"]),
        // 380
        Form::Words(&["import", "export", "local"]),
        // 381
        Form::List(378),
        // 382
        Form::OneOf(&[381, 21]),
        // 383: DocumentOnTypeFormattingParams
        Form::Object(&[
            Required("textDocument", 276),
            Required("position", 14),
            Required("ch", 3),
            Required("options", 353),
        ]),
        // 384: CallHierarchyPrepareParams
        Form::Object(&[
            Required("textDocument", 276),
            Required("position", 14),
            Optional("workDoneToken", 4),
        ]),
        // 385
        Form::List(11),
        // 386
        Form::OneOf(&[385, 21]),
        // 387: PrepareRenameParams
        Form::Object(&[
            Required("textDocument", 276),
            Required("position", 14),
            Optional("workDoneToken", 4),
        ]),
        // 388
        Form::Object(&[Required("range", 13), Required("placeholder", 3)]),
        // 389
        Form::Object(&[Required("defaultBehavior", 43)]),
        // 390
        Form::OneOf(&[13, 388, 389, 21]),
        // 391: TypeHierarchyPrepareParams
        Form::Object(&[
            Required("textDocument", 276),
            Required("position", 14),
            Optional("workDoneToken", 4),
        ]),
        // 392: TypeHierarchyItem
        Form::Around(
            &[
                Required("name", 3),
                Required("kind", 12),
                Required("uri", 3),
                Required("range", 13),
                Required("selectionRange", 13),
                Optional("tags", 17),
                Optional("detail", 3),
                Optional("data", 7),
            ],
            "range",
            "selectionRange",
        ),
        // 393
        Form::List(392),
        // 394
        Form::OneOf(&[393, 21]),
        // 395: PublishDiagnosticsParams
        Form::Object(&[
            Required("uri", 3),
            Required("diagnostics", 42),
            Optional("version", 2),
        ]),
        // 396: DocumentRangeFormattingParams
        Form::Object(&[
            Required("textDocument", 276),
            Required("range", 13),
            Required("options", 353),
            Optional("workDoneToken", 4),
        ]),
        // 397: ReferenceParams
        Form::Object(&[
            Required("context", 398),
            Required("textDocument", 276),
            Required("position", 14),
            Optional("workDoneToken", 4),
            Optional("partialResultToken", 4),
        ]),
        // 398: ReferenceContext
        Form::Object(&[Required("includeDeclaration", 43)]),
        // 399
        Form::OneOf(&[313, 21]),
        // 400: RenameParams
        Form::Object(&[
            Required("textDocument", 276),
            Required("position", 14),
            Required("newName", 3),
            Optional("workDoneToken", 4),
        ]),
        // 401
        Form::OneOf(&[45, 21]),
        // 402: SelectionRangeParams
        Form::Object(&[
            Required("textDocument", 276),
            Required("positions", 403),
            Optional("workDoneToken", 4),
            Optional("partialResultToken", 4),
        ]),
        // 403
        Form::List(14),
        // 404: SelectionRange
        Form::Object(&[Required("range", 13), Optional("parent", 404)]),
        // 405
        Form::List(404),
        // 406
        Form::OneOf(&[405, 21]),
        // 407: SemanticTokensParams
        Form::Object(&[
            Required("textDocument", 276),
            Optional("workDoneToken", 4),
            Optional("partialResultToken", 4),
        ]),
    ])
}

fn add_types_16(types: &mut Vec<Form>) -> Result<(), AllocError> {
    types.extend_from_slice(&[
        // 408: SemanticTokens
        Form::Object(&[Required("data", 409), Optional("resultId", 3)]),
        // 409
        Form::Tokens(15),
        // 410
        Form::OneOf(&[408, 21]),
        // 411: SemanticTokensDeltaParams
        Form::Object(&[
            Required("textDocument", 276),
            Required("previousResultId", 3),
            Optional("workDoneToken", 4),
            Optional("partialResultToken", 4),
        ]),
        // 412: SemanticTokensDelta
        Form::Object(&[Required("edits", 415), Optional("resultId", 3)]),
        // 413: SemanticTokensEdit
        Form::Object(&[
            Required("start", 15),
            Required("deleteCount", 15),
            Optional("data", 414),
        ]),
        // 414
        Form::List(15),
        // 415
        Form::List(413),
        // 416
        Form::OneOf(&[408, 412, 21]),
        // 417: SemanticTokensRangeParams
        Form::Object(&[
            Required("textDocument", 276),
            Required("range", 13),
            Optional("workDoneToken", 4),
            Optional("partialResultToken", 4),
        ]),
        // 418: SignatureHelpParams
        Form::Object(&[
            Required("textDocument", 276),
            Required("position", 14),
            Optional("context", 419),
            Optional("workDoneToken", 4),
        ]),
        // 419: SignatureHelpContext
        Form::Object(&[
            Required("triggerKind", 305),
            Required("isRetrigger", 43),
            Optional("triggerCharacter", 3),
            Optional("activeSignatureHelp", 420),
        ]),
        // 420: SignatureHelp
        Form::Object(&[
            Required("signatures", 425),
            Optional("activeSignature", 15),
            Optional("activeParameter", 15),
        ]),
        // 421: SignatureInformation
        Form::Object(&[
            Required("label", 3),
            Optional("documentation", 76),
            Optional("parameters", 424),
            Optional("activeParameter", 15),
        ]),
        // 422: ParameterInformation
        Form::Object(&[Required("label", 423), Optional("documentation", 76)]),
        // 423
        Form::OneOf(&[3, 414]),
        // 424
        Form::List(422),
        // 425
        Form::List(421),
        // 426
        Form::OneOf(&[420, 21]),
        // 427: TypeDefinitionParams
        Form::Object(&[
            Required("textDocument", 276),
            Required("position", 14),
            Optional("workDoneToken", 4),
            Optional("partialResultToken", 4),
        ]),
        // 428: WillSaveTextDocumentParams
        Form::Object(&[Required("textDocument", 276), Required("reason", 305)]),
        // 429: TypeHierarchySubtypesParams
        Form::Object(&[
            Required("item", 392),
            Optional("workDoneToken", 4),
            Optional("partialResultToken", 4),
        ]),
        // 430: TypeHierarchySupertypesParams
        Form::Object(&[
            Required("item", 392),
            Optional("workDoneToken", 4),
            Optional("partialResultToken", 4),
        ]),
        // 431: LogMessageParams
        Form::Object(&[Required("type", 35), Required("message", 3)]),
        // 432: ShowDocumentParams
        Form::Object(&[
            Required("uri", 3),
            Optional("external", 43),
            Optional("takeFocus", 43),
            Optional("selection", 13),
        ]),
        // 433: ShowDocumentResult
        Form::Object(&[Required("success", 43)]),
        // 434: ShowMessageParams
        Form::Object(&[Required("type", 35), Required("message", 3)]),
        // 435: ShowMessageRequestParams
        Form::Object(&[
            Required("type", 35),
            Required("message", 3),
            Optional("actions", 437),
        ]),
    ])
}

fn add_types_17(types: &mut Vec<Form>) -> Result<(), AllocError> {
    types.extend_from_slice(&[
        // 436: MessageActionItem
        Form::Object(&[Required("title", 3)]),
        // 437
        Form::List(436),
        // 438
        Form::OneOf(&[436, 21]),
        // 439: WorkDoneProgressCancelParams
        Form::Object(&[Required("token", 4)]),
        // 440: WorkDoneProgressCreateParams
        Form::Object(&[Required("token", 4)]),
        // 441: ApplyWorkspaceEditParams
        Form::Object(&[Required("edit", 45), Optional("label", 3)]),
        // 442: ApplyWorkspaceEditResult
        Form::Object(&[
            Required("applied", 43),
            Optional("failureReason", 3),
            Optional("failedChange", 15),
        ]),
        // 443: ConfigurationParams
        Form::Object(&[Required("items", 445)]),
        // 444: ConfigurationItem
        Form::Object(&[Optional("scopeUri", 3), Optional("section", 3)]),
        // 445
        Form::List(444),
        // 446: WorkspaceDiagnosticParams
        Form::Object(&[
            Required("previousResultIds", 448),
            Optional("identifier", 3),
            Optional("workDoneToken", 4),
            Optional("partialResultToken", 4),
        ]),
        // 447: PreviousResultId
        Form::Object(&[Required("uri", 3), Required("value", 3)]),
        // 448
        Form::List(447),
        // 449: WorkspaceDiagnosticReport
        Form::Object(&[Required("items", 453)]),
        // 450: WorkspaceFullDocumentDiagnosticReport
        Form::Object(&[
            Required("uri", 3),
            Required("items", 42),
            Required("version", 51),
            Required("kind", 321),
            Optional("resultId", 3),
        ]),
        // 451: WorkspaceUnchangedDocumentDiagnosticReport
        Form::Object(&[
            Required("uri", 3),
            Required("resultId", 3),
            Required("version", 51),
            Required("kind", 323),
        ]),
        // 452
        Form::OneOf(&[450, 451]),
        // 453
        Form::List(452),
        // 454: DidChangeConfigurationParams
        Form::Object(&[Required("settings", 7)]),
        // 455: DidChangeWatchedFilesParams
        Form::Object(&[Required("changes", 457)]),
        // 456: FileEvent
        Form::Object(&[Required("uri", 3), Required("type", 305)]),
        // 457
        Form::List(456),
        // 458: DidChangeWorkspaceFoldersParams
        Form::Object(&[Required("event", 459)]),
        // 459: WorkspaceFoldersChangeEvent
        Form::Object(&[Required("added", 171), Required("removed", 171)]),
        // 460: CreateFilesParams
        Form::Object(&[Required("files", 462)]),
        // 461: FileCreate
        Form::Object(&[Required("uri", 3)]),
        // 462
        Form::List(461),
        // 463: DeleteFilesParams
        Form::Object(&[Required("files", 465)]),
        // 464: FileDelete
        Form::Object(&[Required("uri", 3)]),
        // 465
        Form::List(464),
        // 466: RenameFilesParams
        Form::Object(&[Required("files", 468)]),
        // 467: FileRename
        Form::Object(&[Required("oldUri", 3), Required("newUri", 3)]),
        // 468
        Form::List(467),
        // 469: ExecuteCommandParams
        Form::Object(&[
            Required("command", 3),
            Optional("arguments", 69),
            Optional("workDoneToken", 4),
        ]),
        // 470: WorkspaceSymbolParams
        Form::Object(&[
            Required("query", 3),
            Optional("workDoneToken", 4),
            Optional("partialResultToken", 4),
        ]),
    ])
}

fn add_types_18(types: &mut Vec<Form>) -> Result<(), AllocError> {
    types.extend_from_slice(&[
        // 471: WorkspaceSymbol
        Form::Object(&[
            Required("location", 473),
            Required("name", 3),
            Required("kind", 12),
            Optional("data", 7),
            Optional("tags", 17),
            Optional("containerName", 3),
        ]),
        // 472: WorkspaceSymbolLocationType1
        Form::Object(&[Required("uri", 3)]),
        // 473
        Form::OneOf(&[40, 472]),
        // 474
        Form::List(471),
        // 475
        Form::OneOf(&[344, 474, 21]),
    ])
}
