//! Highlights, folds, selections, links and lenses.
// `tools/types` wrote this file from `types.txt`: change that.
ghost use Rattle.std.specs.Prelude.{◌∷◌, [], Some, codes, option_map};
ghost use Rattle.serde_json.specs.Data.{number, unsigned};
ghost use Rattle.serde_json.specs.View.{view};
ghost use Rattle.lsp_types.specs.Json.{object_of, object_with};
ghost use Rattle.lsp_types.specs.Reads.{Beside, IfFits, IsObject, IsWithin, Optional, Required, ◌and◌};

use lsp_json::JsonRef;
use lsp_json_write::JsonSink;
use lsp_text::{Position, Range};
use lsp_types::json::{
    FromJson, KnownMembers, Members, Misfit, ToJson, number_within, write_member, write_some,
    write_with,
};
use lsp_types::{
    Command, DefinitionParams, DocumentSymbolParams, HoverParams, ProgressToken,
    TextDocumentIdentifier,
};
use serde_json::Value;
use std::alloc::Global;

/// A place to mark (LSP 3.17, "Document Highlights Request").
#[derive(Drop)]
pub struct DocumentHighlight {
    /// The place.
    pub range: Range,
    /// What is done there. `None` means a textual occurrence.
    pub kind: Option<DocumentHighlightKind>,
}

impl DocumentHighlight {
    ghost use Rattle.std.specs.Prelude.{◌≡◌, None};

    /// Makes one from the required members. The others are `None`.
    pub fn new(range: Range) -> DocumentHighlight
        ensures { result ≡ record {
          range = range;
          kind = None;
        } }
    {
        DocumentHighlight { range, kind: None }
    }
}

impl ToJson for DocumentHighlight {
    ghost stands = { λ it. object_of (
        (codes "kind", option_map ⟦<DocumentHighlightKind as ToJson>⟧.stands it.kind)
        ∷ (codes "range", Some (⟦<Range as ToJson>⟧.stands it.range)) ∷ []) };

    fn write_json<S: JsonSink>(&self, out: &mut S) -> Result<(), S::Error> {
        out.begin_object()?;
        write_some(out, "kind", &self.kind)?;
        write_member(out, "range", &self.range)?;
        out.end_object()
    }
}

impl FromJson for DocumentHighlight {
    ghost reads = { λ json it. IsObject json
        and Required ⟦<Range as FromJson>⟧.reads (codes "range") json it.range
        and Optional ⟦<DocumentHighlightKind as FromJson>⟧.reads (codes "kind") json it.kind };

    fn from_json(alloc: Global, value: &JsonRef<'_>) -> Result<DocumentHighlight, Misfit> {
        match Members::new(alloc, value)
            .required("range")
            .optional("kind")
            .end()
        {
            Ok(read) => {
                let (((), range), kind) = read;
                Ok(DocumentHighlight { range, kind })
            }
            Err(misfit) => Err(misfit),
        }
    }
}

/// What is done with a name at a place (LSP 3.17, "DocumentHighlightKind"). On reading, another number is refused.
#[derive(Clone, Copy, Drop)]
pub struct DocumentHighlightKind(pub u32);

impl DocumentHighlightKind {
    /// It occurs as text.
    pub const TEXT: DocumentHighlightKind = DocumentHighlightKind(1);
    /// It is read.
    pub const READ: DocumentHighlightKind = DocumentHighlightKind(2);
    /// It is written.
    pub const WRITE: DocumentHighlightKind = DocumentHighlightKind(3);
}

impl ToJson for DocumentHighlightKind {
    ghost stands = { λ it. number (unsigned it.0) };

    fn write_json<S: JsonSink>(&self, out: &mut S) -> Result<(), S::Error> {
        self.0.write_json(out)
    }
}

impl FromJson for DocumentHighlightKind {
    ghost reads = { λ json it. IsWithin 1 3 json it.0 };

    fn from_json(alloc: Global, value: &JsonRef<'_>) -> Result<DocumentHighlightKind, Misfit> {
        match number_within(alloc, value, 1, 3) {
            Ok(number) => Ok(DocumentHighlightKind(number)),
            Err(misfit) => Err(misfit),
        }
    }
}

/// The params of `textDocument/documentHighlight` (LSP 3.17, "Document Highlights Request"). The result is a list of
/// `DocumentHighlight` or null.
pub type DocumentHighlightParams = DefinitionParams;

/// The params of `textDocument/foldingRange` (LSP 3.17, "Folding Range Request"). The result is a list of
/// `FoldingRange` or null.
pub type FoldingRangeParams = DocumentSymbolParams;

/// A part of a document that a client can fold (LSP 3.17, "FoldingRange").
#[derive(Drop)]
pub struct FoldingRange {
    /// Its first line, from 0.
    pub start_line: u32,
    /// Where it begins in that line. `None` means at its end.
    pub start_character: Option<u32>,
    /// Its last line.
    pub end_line: u32,
    /// Where it ends in that line. `None` means at its end.
    pub end_character: Option<u32>,
    /// Its kind: `comment`, `imports`, `region` or another.
    pub kind: Option<String>,
    /// What is shown in its place.
    pub collapsed_text: Option<String>,
}

impl FoldingRange {
    ghost use Rattle.std.specs.Prelude.{◌≡◌, None};

    /// Makes one from the required members. The others are `None`.
    pub fn new(start_line: u32, end_line: u32) -> FoldingRange
        ensures { result ≡ record {
          start_line = start_line;
          start_character = None;
          end_line = end_line;
          end_character = None;
          kind = None;
          collapsed_text = None;
        } }
    {
        FoldingRange {
            start_line,
            start_character: None,
            end_line,
            end_character: None,
            kind: None,
            collapsed_text: None,
        }
    }
}

impl ToJson for FoldingRange {
    ghost stands = { λ it. object_of (
        (codes "collapsedText", option_map ⟦<String as ToJson>⟧.stands it.collapsed_text)
        ∷ (codes "endCharacter", option_map ⟦<u32 as ToJson>⟧.stands it.end_character)
        ∷ (codes "endLine", Some (⟦<u32 as ToJson>⟧.stands it.end_line))
        ∷ (codes "kind", option_map ⟦<String as ToJson>⟧.stands it.kind)
        ∷ (codes "startCharacter", option_map ⟦<u32 as ToJson>⟧.stands it.start_character)
        ∷ (codes "startLine", Some (⟦<u32 as ToJson>⟧.stands it.start_line)) ∷ []) };

    fn write_json<S: JsonSink>(&self, out: &mut S) -> Result<(), S::Error> {
        out.begin_object()?;
        write_some(out, "collapsedText", &self.collapsed_text)?;
        write_some(out, "endCharacter", &self.end_character)?;
        write_member(out, "endLine", &self.end_line)?;
        write_some(out, "kind", &self.kind)?;
        write_some(out, "startCharacter", &self.start_character)?;
        write_member(out, "startLine", &self.start_line)?;
        out.end_object()
    }
}

impl FromJson for FoldingRange {
    ghost reads = { λ json it. IsObject json
        and Required ⟦<u32 as FromJson>⟧.reads (codes "startLine") json it.start_line
        and Optional ⟦<u32 as FromJson>⟧.reads (codes "startCharacter") json it.start_character
        and Required ⟦<u32 as FromJson>⟧.reads (codes "endLine") json it.end_line
        and Optional ⟦<u32 as FromJson>⟧.reads (codes "endCharacter") json it.end_character
        and Optional ⟦<String as FromJson>⟧.reads (codes "kind") json it.kind
        and Optional ⟦<String as FromJson>⟧.reads (codes "collapsedText") json it.collapsed_text };

    fn from_json(alloc: Global, value: &JsonRef<'_>) -> Result<FoldingRange, Misfit> {
        match Members::new(alloc, value)
            .required("startLine")
            .optional("startCharacter")
            .required("endLine")
            .optional("endCharacter")
            .optional("kind")
            .optional("collapsedText")
            .end()
        {
            Ok(read) => {
                let (read, collapsed_text) = read;
                let (read, kind) = read;
                let (read, end_character) = read;
                let (read, end_line) = read;
                let (read, start_character) = read;
                let ((), start_line) = read;
                Ok(FoldingRange {
                    start_line,
                    start_character,
                    end_line,
                    end_character,
                    kind,
                    collapsed_text,
                })
            }
            Err(misfit) => Err(misfit),
        }
    }
}

/// The params of `textDocument/selectionRange` (LSP 3.17, "Selection Range Request"). The result is a list of
/// `SelectionRange`, one for each place, or null.
#[derive(Drop)]
pub struct SelectionRangeParams {
    /// The document.
    pub text_document: TextDocumentIdentifier,
    /// The places.
    pub positions: Vec<Position>,
    /// The token to report progress with. `None` means that no progress is requested, or that the token does not fit.
    pub work_done_token: Option<ProgressToken>,
    /// The token to send parts of the result with. `None` means that no parts are requested, or that the token does not
    /// fit.
    pub partial_result_token: Option<ProgressToken>,
}

impl ToJson for SelectionRangeParams {
    ghost stands = { λ it. object_of (
        (codes "partialResultToken", option_map ⟦<ProgressToken as ToJson>⟧.stands it.partial_result_token)
        ∷ (codes "positions", Some (⟦<Vec<Position> as ToJson>⟧.stands it.positions))
        ∷ (codes "textDocument", Some (⟦<TextDocumentIdentifier as ToJson>⟧.stands it.text_document))
        ∷ (codes "workDoneToken", option_map ⟦<ProgressToken as ToJson>⟧.stands it.work_done_token) ∷ []) };

    fn write_json<S: JsonSink>(&self, out: &mut S) -> Result<(), S::Error> {
        out.begin_object()?;
        write_some(out, "partialResultToken", &self.partial_result_token)?;
        write_member(out, "positions", &self.positions)?;
        write_member(out, "textDocument", &self.text_document)?;
        write_some(out, "workDoneToken", &self.work_done_token)?;
        out.end_object()
    }
}

impl FromJson for SelectionRangeParams {
    ghost reads = { λ json it. IsObject json
        and Required ⟦<TextDocumentIdentifier as FromJson>⟧.reads (codes "textDocument") json it.text_document
        and Required ⟦<Vec<Position> as FromJson>⟧.reads (codes "positions") json it.positions
        and IfFits ⟦<ProgressToken as FromJson>⟧.reads (codes "workDoneToken") json it.work_done_token
        and IfFits ⟦<ProgressToken as FromJson>⟧.reads (codes "partialResultToken") json it.partial_result_token };

    fn from_json(alloc: Global, value: &JsonRef<'_>) -> Result<SelectionRangeParams, Misfit> {
        match Members::new(alloc, value)
            .required("textDocument")
            .required("positions")
            .if_fits("workDoneToken")
            .if_fits("partialResultToken")
            .end()
        {
            Ok(read) => {
                let (read, partial_result_token) = read;
                let (read, work_done_token) = read;
                let (read, positions) = read;
                let ((), text_document) = read;
                Ok(SelectionRangeParams {
                    text_document,
                    positions,
                    work_done_token,
                    partial_result_token,
                })
            }
            Err(misfit) => Err(misfit),
        }
    }
}

/// A part that a user may select, and the parts around it (LSP 3.17, "SelectionRange"). When read, they nest at most
/// 128 levels, and a message has no room for deeper nesting.
#[derive(Drop)]
pub struct SelectionRange {
    /// The part.
    pub range: Range,
    /// The next larger part, which contains this one.
    pub parent: Option<Box<SelectionRange>>,
}

/// The params of `textDocument/linkedEditingRange` (LSP 3.17, "Linked Editing Range"). The result is a
/// `LinkedEditingRanges` or null.
pub type LinkedEditingRangeParams = HoverParams;

/// Places that are edited together (LSP 3.17, "Linked Editing Range").
#[derive(Drop)]
pub struct LinkedEditingRanges {
    /// The places. They have the same length and the same text, and none overlaps another.
    pub ranges: Vec<Range>,
    /// What may be typed there: a regular expression. `None` means the client's default.
    pub word_pattern: Option<String>,
}

impl LinkedEditingRanges {
    ghost use Rattle.std.specs.Prelude.{◌≡◌, None};

    /// Makes one from the required members. The others are `None`.
    pub fn new(ranges: Vec<Range>) -> LinkedEditingRanges
        ensures { result ≡ record {
          ranges = ranges;
          word_pattern = None;
        } }
    {
        LinkedEditingRanges {
            ranges,
            word_pattern: None,
        }
    }
}

impl ToJson for LinkedEditingRanges {
    ghost stands = { λ it. object_of (
        (codes "ranges", Some (⟦<Vec<Range> as ToJson>⟧.stands it.ranges))
        ∷ (codes "wordPattern", option_map ⟦<String as ToJson>⟧.stands it.word_pattern) ∷ []) };

    fn write_json<S: JsonSink>(&self, out: &mut S) -> Result<(), S::Error> {
        out.begin_object()?;
        write_member(out, "ranges", &self.ranges)?;
        write_some(out, "wordPattern", &self.word_pattern)?;
        out.end_object()
    }
}

impl FromJson for LinkedEditingRanges {
    ghost reads = { λ json it. IsObject json
        and Required ⟦<Vec<Range> as FromJson>⟧.reads (codes "ranges") json it.ranges
        and Optional ⟦<String as FromJson>⟧.reads (codes "wordPattern") json it.word_pattern };

    fn from_json(alloc: Global, value: &JsonRef<'_>) -> Result<LinkedEditingRanges, Misfit> {
        match Members::new(alloc, value)
            .required("ranges")
            .optional("wordPattern")
            .end()
        {
            Ok(read) => {
                let (((), ranges), word_pattern) = read;
                Ok(LinkedEditingRanges {
                    ranges,
                    word_pattern,
                })
            }
            Err(misfit) => Err(misfit),
        }
    }
}

/// The params of `textDocument/moniker` (LSP 3.17, "Monikers"). The result is a list of `Moniker` or null.
pub type MonikerParams = DefinitionParams;

/// A name that a symbol has in indexes of other projects (LSP 3.17, "Moniker").
#[derive(Drop)]
pub struct Moniker {
    /// The scheme of these names, such as `tsc`.
    pub scheme: String,
    /// The name.
    pub identifier: String,
    /// Where it is unique: `document`, `project`, `group`, `scheme` or `global`.
    pub unique: String,
    /// What it is for this project: `import`, `export` or `local`.
    pub kind: Option<String>,
}

impl Moniker {
    ghost use Rattle.std.specs.Prelude.{◌≡◌, None};

    /// Makes one from the required members. The others are `None`.
    pub fn new(scheme: String, identifier: String, unique: String) -> Moniker
        ensures { result ≡ record {
          scheme = scheme;
          identifier = identifier;
          unique = unique;
          kind = None;
        } }
    {
        Moniker {
            scheme,
            identifier,
            unique,
            kind: None,
        }
    }
}

impl ToJson for Moniker {
    ghost stands = { λ it. object_of (
        (codes "identifier", Some (⟦<String as ToJson>⟧.stands it.identifier))
        ∷ (codes "kind", option_map ⟦<String as ToJson>⟧.stands it.kind)
        ∷ (codes "scheme", Some (⟦<String as ToJson>⟧.stands it.scheme))
        ∷ (codes "unique", Some (⟦<String as ToJson>⟧.stands it.unique)) ∷ []) };

    fn write_json<S: JsonSink>(&self, out: &mut S) -> Result<(), S::Error> {
        out.begin_object()?;
        write_member(out, "identifier", &self.identifier)?;
        write_some(out, "kind", &self.kind)?;
        write_member(out, "scheme", &self.scheme)?;
        write_member(out, "unique", &self.unique)?;
        out.end_object()
    }
}

impl FromJson for Moniker {
    ghost reads = { λ json it. IsObject json
        and Required ⟦<String as FromJson>⟧.reads (codes "scheme") json it.scheme
        and Required ⟦<String as FromJson>⟧.reads (codes "identifier") json it.identifier
        and Required ⟦<String as FromJson>⟧.reads (codes "unique") json it.unique
        and Optional ⟦<String as FromJson>⟧.reads (codes "kind") json it.kind };

    fn from_json(alloc: Global, value: &JsonRef<'_>) -> Result<Moniker, Misfit> {
        match Members::new(alloc, value)
            .required("scheme")
            .required("identifier")
            .required("unique")
            .optional("kind")
            .end()
        {
            Ok(read) => {
                let (((((), scheme), identifier), unique), kind) = read;
                Ok(Moniker {
                    scheme,
                    identifier,
                    unique,
                    kind,
                })
            }
            Err(misfit) => Err(misfit),
        }
    }
}

/// The params of `textDocument/codeLens` (LSP 3.17, "Code Lens Request"). The result is a list of `CodeLens` or null.
pub type CodeLensParams = DocumentSymbolParams;

/// A command that is shown within a text (LSP 3.17, "CodeLens"). It is also the params and the result of
/// `codeLens/resolve`.
#[derive(Drop)]
pub struct CodeLens {
    /// Where it is shown. It is in one line.
    pub range: Range,
    /// The command. `None` means that `codeLens/resolve` returns it.
    pub command: Option<Command>,
    /// The client returns this value in `codeLens/resolve`.
    pub data: Option<Value>,
    /// An object with members that LSP 3.17 does not name, for example those of a newer client or server. They are
    /// written beside the members above. When read, it is `None` if there are none. If a field above has the same name,
    /// the member here counts.
    pub more: Option<Value>,
}

impl CodeLens {
    ghost use Rattle.std.specs.Prelude.{◌≡◌, None};

    /// Makes one from the required members. The others are `None`.
    pub fn new(range: Range) -> CodeLens
        ensures { result ≡ record {
          range = range;
          command = None;
          «data» = None;
          more = None;
        } }
    {
        CodeLens {
            range,
            command: None,
            data: None,
            more: None,
        }
    }
}

impl KnownMembers for CodeLens {
    ghost known = { λ it. (codes "command", option_map ⟦<Command as ToJson>⟧.stands it.command)
        ∷ (codes "data", option_map ⟦<Value as ToJson>⟧.stands it.«data»)
        ∷ (codes "range", Some (⟦<Range as ToJson>⟧.stands it.range)) ∷ [] };

    fn write_known<S: JsonSink>(&self, out: &mut S) -> Result<(), S::Error> {
        out.begin_object()?;
        write_some(out, "command", &self.command)?;
        write_some(out, "data", &self.data)?;
        write_member(out, "range", &self.range)?;
        out.end_object()
    }
}

impl ToJson for CodeLens {
    ghost stands = { λ it. object_with (⟦<CodeLens as KnownMembers>⟧.known it) (option_map view it.more) };

    fn write_json<S: JsonSink>(&self, out: &mut S) -> Result<(), S::Error> {
        write_with(out, self, &self.more)
    }
}

impl FromJson for CodeLens {
    ghost reads = { λ json it. IsObject json
        and Required ⟦<Range as FromJson>⟧.reads (codes "range") json it.range
        and Optional ⟦<Command as FromJson>⟧.reads (codes "command") json it.command
        and Optional ⟦<Value as FromJson>⟧.reads (codes "data") json it.«data»
        and Beside (codes "range" ∷ codes "command" ∷ codes "data" ∷ []) json it.more };

    fn from_json(alloc: Global, value: &JsonRef<'_>) -> Result<CodeLens, Misfit> {
        match Members::new(alloc, value)
            .required("range")
            .optional("command")
            .optional("data")
            .rest(&["range", "command", "data"])
            .end()
        {
            Ok(read) => {
                let (((((), range), command), data), more) = read;
                Ok(CodeLens {
                    range,
                    command,
                    data,
                    more,
                })
            }
            Err(misfit) => Err(misfit),
        }
    }
}

/// The params of `textDocument/documentLink` (LSP 3.17, "Document Link Request"). The result is a list of
/// `DocumentLink` or null.
pub type DocumentLinkParams = DocumentSymbolParams;

/// A part of a text that leads elsewhere (LSP 3.17, "DocumentLink"). It is also the params and the result of
/// `documentLink/resolve`.
#[derive(Drop)]
pub struct DocumentLink {
    /// The part.
    pub range: Range,
    /// The URI that it leads to. `None` means that `documentLink/resolve` returns it.
    pub target: Option<String>,
    /// What is shown while the mouse is over it.
    pub tooltip: Option<String>,
    /// The client returns this value in `documentLink/resolve`.
    pub data: Option<Value>,
    /// An object with members that LSP 3.17 does not name, for example those of a newer client or server. They are
    /// written beside the members above. When read, it is `None` if there are none. If a field above has the same name,
    /// the member here counts.
    pub more: Option<Value>,
}

impl DocumentLink {
    ghost use Rattle.std.specs.Prelude.{◌≡◌, None};

    /// Makes one from the required members. The others are `None`.
    pub fn new(range: Range) -> DocumentLink
        ensures { result ≡ record {
          range = range;
          target = None;
          tooltip = None;
          «data» = None;
          more = None;
        } }
    {
        DocumentLink {
            range,
            target: None,
            tooltip: None,
            data: None,
            more: None,
        }
    }
}

impl KnownMembers for DocumentLink {
    ghost known = { λ it. (codes "data", option_map ⟦<Value as ToJson>⟧.stands it.«data»)
        ∷ (codes "range", Some (⟦<Range as ToJson>⟧.stands it.range))
        ∷ (codes "target", option_map ⟦<String as ToJson>⟧.stands it.target)
        ∷ (codes "tooltip", option_map ⟦<String as ToJson>⟧.stands it.tooltip) ∷ [] };

    fn write_known<S: JsonSink>(&self, out: &mut S) -> Result<(), S::Error> {
        out.begin_object()?;
        write_some(out, "data", &self.data)?;
        write_member(out, "range", &self.range)?;
        write_some(out, "target", &self.target)?;
        write_some(out, "tooltip", &self.tooltip)?;
        out.end_object()
    }
}

impl ToJson for DocumentLink {
    ghost stands = { λ it. object_with (⟦<DocumentLink as KnownMembers>⟧.known it) (option_map view it.more) };

    fn write_json<S: JsonSink>(&self, out: &mut S) -> Result<(), S::Error> {
        write_with(out, self, &self.more)
    }
}

impl FromJson for DocumentLink {
    ghost reads = { λ json it. IsObject json
        and Required ⟦<Range as FromJson>⟧.reads (codes "range") json it.range
        and Optional ⟦<String as FromJson>⟧.reads (codes "target") json it.target
        and Optional ⟦<String as FromJson>⟧.reads (codes "tooltip") json it.tooltip
        and Optional ⟦<Value as FromJson>⟧.reads (codes "data") json it.«data»
        and Beside (codes "range" ∷ codes "target" ∷ codes "tooltip" ∷ codes "data" ∷ []) json it.more };

    fn from_json(alloc: Global, value: &JsonRef<'_>) -> Result<DocumentLink, Misfit> {
        match Members::new(alloc, value)
            .required("range")
            .optional("target")
            .optional("tooltip")
            .optional("data")
            .rest(&["range", "target", "tooltip", "data"])
            .end()
        {
            Ok(read) => {
                let ((((((), range), target), tooltip), data), more) = read;
                Ok(DocumentLink {
                    range,
                    target,
                    tooltip,
                    data,
                    more,
                })
            }
            Err(misfit) => Err(misfit),
        }
    }
}
