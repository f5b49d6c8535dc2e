//! Completions: what a client offers while a user types.
// `tools/types` wrote this file from `types.txt`: change that.
ghost use Rattle.std.specs.Prelude.{◌∷◌, [], Some, codes, option_map};
ghost use Rattle.serde_json.specs.Data.{number, unsigned};
ghost use Rattle.serde_json.specs.View.{view};
ghost use Rattle.lsp_types.specs.Json.{object_of, object_with};
ghost use Rattle.lsp_types.specs.Reads.{Beside, IfFits, IsObject, IsWithin, NoneReads, Optional, Required, ◌and◌};

use crate::documents::TextDocumentIdentifier;
use crate::edits::TextEdit;
use crate::hovers::Documentation;
use crate::json::{
    FromJson, KnownMembers, Members, Misfit, ToJson, fitting, number_within, write_member,
    write_some, write_with,
};
use crate::progress::ProgressToken;
use crate::workspace::Command;
use lsp_json::JsonRef;
use lsp_json_write::JsonSink;
use lsp_text::{Position, Range};
use serde_json::Value;
use std::alloc::Global;

/// What a completion inserts (LSP 3.17, "CompletionItemKind"). On reading, another number is refused.
#[derive(Clone, Copy, Drop)]
pub struct CompletionItemKind(pub u32);

impl CompletionItemKind {
    /// A text.
    pub const TEXT: CompletionItemKind = CompletionItemKind(1);
    /// A method.
    pub const METHOD: CompletionItemKind = CompletionItemKind(2);
    /// A function.
    pub const FUNCTION: CompletionItemKind = CompletionItemKind(3);
    /// A constructor.
    pub const CONSTRUCTOR: CompletionItemKind = CompletionItemKind(4);
    /// A field.
    pub const FIELD: CompletionItemKind = CompletionItemKind(5);
    /// A variable.
    pub const VARIABLE: CompletionItemKind = CompletionItemKind(6);
    /// A class.
    pub const CLASS: CompletionItemKind = CompletionItemKind(7);
    /// An interface.
    pub const INTERFACE: CompletionItemKind = CompletionItemKind(8);
    /// A module.
    pub const MODULE: CompletionItemKind = CompletionItemKind(9);
    /// A property.
    pub const PROPERTY: CompletionItemKind = CompletionItemKind(10);
    /// A unit.
    pub const UNIT: CompletionItemKind = CompletionItemKind(11);
    /// A value.
    pub const VALUE: CompletionItemKind = CompletionItemKind(12);
    /// An enumeration.
    pub const ENUM: CompletionItemKind = CompletionItemKind(13);
    /// A keyword.
    pub const KEYWORD: CompletionItemKind = CompletionItemKind(14);
    /// A snippet.
    pub const SNIPPET: CompletionItemKind = CompletionItemKind(15);
    /// A color.
    pub const COLOR: CompletionItemKind = CompletionItemKind(16);
    /// A file.
    pub const FILE: CompletionItemKind = CompletionItemKind(17);
    /// A reference.
    pub const REFERENCE: CompletionItemKind = CompletionItemKind(18);
    /// A folder.
    pub const FOLDER: CompletionItemKind = CompletionItemKind(19);
    /// A member of an enumeration.
    pub const ENUM_MEMBER: CompletionItemKind = CompletionItemKind(20);
    /// A constant.
    pub const CONSTANT: CompletionItemKind = CompletionItemKind(21);
    /// A struct.
    pub const STRUCT: CompletionItemKind = CompletionItemKind(22);
    /// An event.
    pub const EVENT: CompletionItemKind = CompletionItemKind(23);
    /// An operator.
    pub const OPERATOR: CompletionItemKind = CompletionItemKind(24);
    /// A type parameter.
    pub const TYPE_PARAMETER: CompletionItemKind = CompletionItemKind(25);
}

impl ToJson for CompletionItemKind {
    ghost stands = { λ it. number (unsigned it.0) };

    fn write_json<S: JsonSink>(&self, out: &mut S) -> Result<(), S::Error> {
        self.0.write_json(out)
    }
}

impl FromJson for CompletionItemKind {
    ghost reads = { λ json it. IsWithin 1 25 json it.0 };

    fn from_json(alloc: Global, value: &JsonRef<'_>) -> Result<CompletionItemKind, Misfit> {
        match number_within(alloc, value, 1, 25) {
            Ok(number) => Ok(CompletionItemKind(number)),
            Err(misfit) => Err(misfit),
        }
    }
}

/// The format of a completion's text (LSP 3.17, "InsertTextFormat"). On reading, another number is refused.
#[derive(Clone, Copy, Drop)]
pub struct InsertTextFormat(pub u32);

impl InsertTextFormat {
    /// Plain text.
    pub const PLAIN_TEXT: InsertTextFormat = InsertTextFormat(1);
    /// A snippet, with places to fill in.
    pub const SNIPPET: InsertTextFormat = InsertTextFormat(2);
}

impl ToJson for InsertTextFormat {
    ghost stands = { λ it. number (unsigned it.0) };

    fn write_json<S: JsonSink>(&self, out: &mut S) -> Result<(), S::Error> {
        self.0.write_json(out)
    }
}

impl FromJson for InsertTextFormat {
    ghost reads = { λ json it. IsWithin 1 2 json it.0 };

    fn from_json(alloc: Global, value: &JsonRef<'_>) -> Result<InsertTextFormat, Misfit> {
        match number_within(alloc, value, 1, 2) {
            Ok(number) => Ok(InsertTextFormat(number)),
            Err(misfit) => Err(misfit),
        }
    }
}

/// How a client may show a completion (LSP 3.17, "CompletionItemTag"). On reading, another number is refused.
#[derive(Clone, Copy, Drop)]
pub struct CompletionItemTag(pub u32);

impl CompletionItemTag {
    /// Struck through: deprecated code.
    pub const DEPRECATED: CompletionItemTag = CompletionItemTag(1);
}

impl ToJson for CompletionItemTag {
    ghost stands = { λ it. number (unsigned it.0) };

    fn write_json<S: JsonSink>(&self, out: &mut S) -> Result<(), S::Error> {
        self.0.write_json(out)
    }
}

impl FromJson for CompletionItemTag {
    ghost reads = { λ json it. IsWithin 1 1 json it.0 };

    fn from_json(alloc: Global, value: &JsonRef<'_>) -> Result<CompletionItemTag, Misfit> {
        match number_within(alloc, value, 1, 1) {
            Ok(number) => Ok(CompletionItemTag(number)),
            Err(misfit) => Err(misfit),
        }
    }
}

/// What happens to the whitespace of a completion with several lines (LSP 3.17, "InsertTextMode"). On reading, another
/// number is refused.
#[derive(Clone, Copy, Drop)]
pub struct InsertTextMode(pub u32);

impl InsertTextMode {
    /// It stays as it is.
    pub const AS_IS: InsertTextMode = InsertTextMode(1);
    /// Its lines are indented like the line of the cursor.
    pub const ADJUST_INDENTATION: InsertTextMode = InsertTextMode(2);
}

impl ToJson for InsertTextMode {
    ghost stands = { λ it. number (unsigned it.0) };

    fn write_json<S: JsonSink>(&self, out: &mut S) -> Result<(), S::Error> {
        self.0.write_json(out)
    }
}

impl FromJson for InsertTextMode {
    ghost reads = { λ json it. IsWithin 1 2 json it.0 };

    fn from_json(alloc: Global, value: &JsonRef<'_>) -> Result<InsertTextMode, Misfit> {
        match number_within(alloc, value, 1, 2) {
            Ok(number) => Ok(InsertTextMode(number)),
            Err(misfit) => Err(misfit),
        }
    }
}

/// What is shown beside a label (LSP 3.17, "CompletionItemLabelDetails").
#[derive(Drop)]
pub struct CompletionItemLabelDetails {
    /// Right after it, for example the parameters of a function.
    pub detail: Option<String>,
    /// After that, for example a path.
    pub description: Option<String>,
}

impl Default for CompletionItemLabelDetails {
    ghost use Rattle.std.specs.Prelude.{◌≡◌, None};

    /// Makes one in which no member is set.
    fn default() -> CompletionItemLabelDetails
        ensures { result ≡ record {
          detail = None;
          description = None;
        } }
    {
        CompletionItemLabelDetails {
            detail: None,
            description: None,
        }
    }
}

impl ToJson for CompletionItemLabelDetails {
    ghost stands = { λ it. object_of (
        (codes "description", option_map ⟦<String as ToJson>⟧.stands it.description)
        ∷ (codes "detail", option_map ⟦<String as ToJson>⟧.stands it.detail) ∷ []) };

    fn write_json<S: JsonSink>(&self, out: &mut S) -> Result<(), S::Error> {
        out.begin_object()?;
        write_some(out, "description", &self.description)?;
        write_some(out, "detail", &self.detail)?;
        out.end_object()
    }
}

impl FromJson for CompletionItemLabelDetails {
    ghost reads = { λ json it. IsObject json
        and Optional ⟦<String as FromJson>⟧.reads (codes "detail") json it.detail
        and Optional ⟦<String as FromJson>⟧.reads (codes "description") json it.description };

    fn from_json(alloc: Global, value: &JsonRef<'_>) -> Result<CompletionItemLabelDetails, Misfit> {
        match Members::new(alloc, value)
            .optional("detail")
            .optional("description")
            .end()
        {
            Ok(read) => {
                let (((), detail), description) = read;
                Ok(CompletionItemLabelDetails {
                    detail,
                    description,
                })
            }
            Err(misfit) => Err(misfit),
        }
    }
}

/// An edit of a completion whose user chooses what it replaces (LSP 3.17, "InsertReplaceEdit").
#[derive(Drop)]
pub struct InsertReplaceEdit {
    /// The text that is inserted.
    pub new_text: String,
    /// The part to replace if the text is inserted. It is a prefix of `replace`, and ends at the cursor.
    pub insert: Range,
    /// The part to replace if the text replaces the word.
    pub replace: Range,
}

impl ToJson for InsertReplaceEdit {
    ghost stands = { λ it. object_of (
        (codes "insert", Some (⟦<Range as ToJson>⟧.stands it.insert))
        ∷ (codes "newText", Some (⟦<String as ToJson>⟧.stands it.new_text))
        ∷ (codes "replace", Some (⟦<Range as ToJson>⟧.stands it.replace)) ∷ []) };

    fn write_json<S: JsonSink>(&self, out: &mut S) -> Result<(), S::Error> {
        out.begin_object()?;
        write_member(out, "insert", &self.insert)?;
        write_member(out, "newText", &self.new_text)?;
        write_member(out, "replace", &self.replace)?;
        out.end_object()
    }
}

impl FromJson for InsertReplaceEdit {
    ghost reads = { λ json it. IsObject json
        and Required ⟦<String as FromJson>⟧.reads (codes "newText") json it.new_text
        and Required ⟦<Range as FromJson>⟧.reads (codes "insert") json it.insert
        and Required ⟦<Range as FromJson>⟧.reads (codes "replace") json it.replace };

    fn from_json(alloc: Global, value: &JsonRef<'_>) -> Result<InsertReplaceEdit, Misfit> {
        match Members::new(alloc, value)
            .required("newText")
            .required("insert")
            .required("replace")
            .end()
        {
            Ok(read) => {
                let ((((), new_text), insert), replace) = read;
                Ok(InsertReplaceEdit {
                    new_text,
                    insert,
                    replace,
                })
            }
            Err(misfit) => Err(misfit),
        }
    }
}

/// The edit that inserts a completion (LSP 3.17, "CompletionItem"). The forms differ in their members.
#[derive(Drop)]
pub enum CompletionTextEdit {
    /// An edit whose user chooses what it replaces, for clients with `insertReplaceSupport`.
    InsertReplace(InsertReplaceEdit),
    /// An edit of one part. It is in one line, and the cursor is in it or at its end.
    Edit(TextEdit),
}

impl ToJson for CompletionTextEdit {
    ghost use Rattle.lsp_types.specs.declared.completions.CompletionTextEdit.TheVariants.{InsertReplace, Edit};

    ghost stands = { elim [
      | InsertReplace it ↦ ⟦<InsertReplaceEdit as ToJson>⟧.stands it
      | Edit it ↦ ⟦<TextEdit as ToJson>⟧.stands it
    ] };

    fn write_json<S: JsonSink>(&self, out: &mut S) -> Result<(), S::Error> {
        match self {
            CompletionTextEdit::InsertReplace(it) => it.write_json(out),
            CompletionTextEdit::Edit(it) => it.write_json(out),
        }
    }
}

impl FromJson for CompletionTextEdit {
    ghost use Rattle.lsp_types.specs.declared.completions.CompletionTextEdit.TheVariants.{InsertReplace, Edit};

    ghost reads = { λ json. elim [
      | InsertReplace it ↦ ⟦<InsertReplaceEdit as FromJson>⟧.reads json it
      | Edit it ↦ NoneReads ⟦<InsertReplaceEdit as FromJson>⟧.reads json × ⟦<TextEdit as FromJson>⟧.reads json it
    ] };

    fn from_json(alloc: Global, value: &JsonRef<'_>) -> Result<CompletionTextEdit, Misfit> {
        if let Some(it) = fitting(alloc, value)? {
            return Ok(CompletionTextEdit::InsertReplace(it));
        }
        match FromJson::from_json(alloc, value) {
            Ok(it) => Ok(CompletionTextEdit::Edit(it)),
            Err(misfit) => Err(misfit),
        }
    }
}

/// A completion (LSP 3.17, "CompletionItem"). It is also the params and the result of `completionItem/resolve`.
#[derive(Drop)]
pub struct CompletionItem {
    /// What is shown. It is also inserted, unless another member says otherwise.
    pub label: String,
    /// What is shown beside it.
    pub label_details: Option<CompletionItemLabelDetails>,
    /// What it is.
    pub kind: Option<CompletionItemKind>,
    /// How it may be shown.
    pub tags: Option<Vec<CompletionItemTag>>,
    /// More about it, such as its type.
    pub detail: Option<String>,
    /// Its documentation.
    pub documentation: Option<Documentation>,
    /// Whether it is deprecated. `tags` has replaced it.
    pub deprecated: Option<bool>,
    /// Whether it is selected first.
    pub preselect: Option<bool>,
    /// What it is sorted by, in place of its label.
    pub sort_text: Option<String>,
    /// What typed text is compared with, in place of its label.
    pub filter_text: Option<String>,
    /// What is inserted, in place of its label.
    pub insert_text: Option<String>,
    /// The format of the inserted text. `None` means plain text.
    pub insert_text_format: Option<InsertTextFormat>,
    /// What happens to its whitespace. `None` means the client's default.
    pub insert_text_mode: Option<InsertTextMode>,
    /// The edit that inserts it.
    pub text_edit: Option<CompletionTextEdit>,
    /// The text of that edit, if its range is that of the list.
    pub text_edit_text: Option<String>,
    /// Edits elsewhere in the document, for example an added import.
    pub additional_text_edits: Option<Vec<TextEdit>>,
    /// Which typed characters accept it.
    pub commit_characters: Option<Vec<String>>,
    /// The command that the client sends after it is inserted.
    pub command: Option<Command>,
    /// The client returns this value in `completionItem/resolve`.
    pub data: Option<Value>,
    /// An object with members that LSP 3.17 does not name, for example those of a newer client or server. They are
    /// written beside the members above. When read, it is `None` if there are none. If a field above has the same name,
    /// the member here counts.
    pub more: Option<Value>,
}

impl CompletionItem {
    ghost use Rattle.std.specs.Prelude.{◌≡◌, Some, None};

    /// Makes a completion with this label and this kind.
    pub fn new(label: String, kind: CompletionItemKind) -> CompletionItem
        ensures { result ≡ record {
          label = label;
          label_details = None;
          kind = Some kind;
          tags = None;
          detail = None;
          documentation = None;
          deprecated = None;
          preselect = None;
          sort_text = None;
          filter_text = None;
          insert_text = None;
          insert_text_format = None;
          insert_text_mode = None;
          text_edit = None;
          text_edit_text = None;
          additional_text_edits = None;
          commit_characters = None;
          command = None;
          «data» = None;
          more = None;
        } }
    {
        CompletionItem {
            label,
            label_details: None,
            kind: Some(kind),
            tags: None,
            detail: None,
            documentation: None,
            deprecated: None,
            preselect: None,
            sort_text: None,
            filter_text: None,
            insert_text: None,
            insert_text_format: None,
            insert_text_mode: None,
            text_edit: None,
            text_edit_text: None,
            additional_text_edits: None,
            commit_characters: None,
            command: None,
            data: None,
            more: None,
        }
    }
}

impl KnownMembers for CompletionItem {
    ghost known = { λ it. (codes "additionalTextEdits", option_map ⟦<Vec<TextEdit> as ToJson>⟧.stands it.additional_text_edits)
        ∷ (codes "command", option_map ⟦<Command as ToJson>⟧.stands it.command)
        ∷ (codes "commitCharacters", option_map ⟦<Vec<String> as ToJson>⟧.stands it.commit_characters)
        ∷ (codes "data", option_map ⟦<Value as ToJson>⟧.stands it.«data»)
        ∷ (codes "deprecated", option_map ⟦<bool as ToJson>⟧.stands it.deprecated)
        ∷ (codes "detail", option_map ⟦<String as ToJson>⟧.stands it.detail)
        ∷ (codes "documentation", option_map ⟦<Documentation as ToJson>⟧.stands it.documentation)
        ∷ (codes "filterText", option_map ⟦<String as ToJson>⟧.stands it.filter_text)
        ∷ (codes "insertText", option_map ⟦<String as ToJson>⟧.stands it.insert_text)
        ∷ (codes "insertTextFormat", option_map ⟦<InsertTextFormat as ToJson>⟧.stands it.insert_text_format)
        ∷ (codes "insertTextMode", option_map ⟦<InsertTextMode as ToJson>⟧.stands it.insert_text_mode)
        ∷ (codes "kind", option_map ⟦<CompletionItemKind as ToJson>⟧.stands it.kind)
        ∷ (codes "label", Some (⟦<String as ToJson>⟧.stands it.label))
        ∷ (codes "labelDetails", option_map ⟦<CompletionItemLabelDetails as ToJson>⟧.stands it.label_details)
        ∷ (codes "preselect", option_map ⟦<bool as ToJson>⟧.stands it.preselect)
        ∷ (codes "sortText", option_map ⟦<String as ToJson>⟧.stands it.sort_text)
        ∷ (codes "tags", option_map ⟦<Vec<CompletionItemTag> as ToJson>⟧.stands it.tags)
        ∷ (codes "textEdit", option_map ⟦<CompletionTextEdit as ToJson>⟧.stands it.text_edit)
        ∷ (codes "textEditText", option_map ⟦<String as ToJson>⟧.stands it.text_edit_text) ∷ [] };

    fn write_known<S: JsonSink>(&self, out: &mut S) -> Result<(), S::Error> {
        out.begin_object()?;
        write_some(out, "additionalTextEdits", &self.additional_text_edits)?;
        write_some(out, "command", &self.command)?;
        write_some(out, "commitCharacters", &self.commit_characters)?;
        write_some(out, "data", &self.data)?;
        write_some(out, "deprecated", &self.deprecated)?;
        write_some(out, "detail", &self.detail)?;
        write_some(out, "documentation", &self.documentation)?;
        write_some(out, "filterText", &self.filter_text)?;
        write_some(out, "insertText", &self.insert_text)?;
        write_some(out, "insertTextFormat", &self.insert_text_format)?;
        write_some(out, "insertTextMode", &self.insert_text_mode)?;
        write_some(out, "kind", &self.kind)?;
        write_member(out, "label", &self.label)?;
        write_some(out, "labelDetails", &self.label_details)?;
        write_some(out, "preselect", &self.preselect)?;
        write_some(out, "sortText", &self.sort_text)?;
        write_some(out, "tags", &self.tags)?;
        write_some(out, "textEdit", &self.text_edit)?;
        write_some(out, "textEditText", &self.text_edit_text)?;
        out.end_object()
    }
}

impl ToJson for CompletionItem {
    ghost stands = { λ it. object_with (⟦<CompletionItem as KnownMembers>⟧.known it) (option_map view it.more) };

    fn write_json<S: JsonSink>(&self, out: &mut S) -> Result<(), S::Error> {
        write_with(out, self, &self.more)
    }
}

impl FromJson for CompletionItem {
    ghost reads = { λ json it. IsObject json
        and Required ⟦<String as FromJson>⟧.reads (codes "label") json it.label
        and Optional ⟦<CompletionItemLabelDetails as FromJson>⟧.reads (codes "labelDetails") json it.label_details
        and Optional ⟦<CompletionItemKind as FromJson>⟧.reads (codes "kind") json it.kind
        and Optional ⟦<Vec<CompletionItemTag> as FromJson>⟧.reads (codes "tags") json it.tags
        and Optional ⟦<String as FromJson>⟧.reads (codes "detail") json it.detail
        and Optional ⟦<Documentation as FromJson>⟧.reads (codes "documentation") json it.documentation
        and Optional ⟦<bool as FromJson>⟧.reads (codes "deprecated") json it.deprecated
        and Optional ⟦<bool as FromJson>⟧.reads (codes "preselect") json it.preselect
        and Optional ⟦<String as FromJson>⟧.reads (codes "sortText") json it.sort_text
        and Optional ⟦<String as FromJson>⟧.reads (codes "filterText") json it.filter_text
        and Optional ⟦<String as FromJson>⟧.reads (codes "insertText") json it.insert_text
        and Optional ⟦<InsertTextFormat as FromJson>⟧.reads (codes "insertTextFormat") json it.insert_text_format
        and Optional ⟦<InsertTextMode as FromJson>⟧.reads (codes "insertTextMode") json it.insert_text_mode
        and Optional ⟦<CompletionTextEdit as FromJson>⟧.reads (codes "textEdit") json it.text_edit
        and Optional ⟦<String as FromJson>⟧.reads (codes "textEditText") json it.text_edit_text
        and Optional ⟦<Vec<TextEdit> as FromJson>⟧.reads (codes "additionalTextEdits") json it.additional_text_edits
        and Optional ⟦<Vec<String> as FromJson>⟧.reads (codes "commitCharacters") json it.commit_characters
        and Optional ⟦<Command as FromJson>⟧.reads (codes "command") json it.command
        and Optional ⟦<Value as FromJson>⟧.reads (codes "data") json it.«data»
        and Beside (codes "label" ∷ codes "labelDetails" ∷ codes "kind" ∷ codes "tags" ∷ codes "detail" ∷ codes "documentation" ∷ codes "deprecated" ∷ codes "preselect" ∷ codes "sortText" ∷ codes "filterText" ∷ codes "insertText" ∷ codes "insertTextFormat" ∷ codes "insertTextMode" ∷ codes "textEdit" ∷ codes "textEditText" ∷ codes "additionalTextEdits" ∷ codes "commitCharacters" ∷ codes "command" ∷ codes "data" ∷ []) json it.more };

    fn from_json(alloc: Global, value: &JsonRef<'_>) -> Result<CompletionItem, Misfit> {
        match Members::new(alloc, value)
            .required("label")
            .optional("labelDetails")
            .optional("kind")
            .optional("tags")
            .optional("detail")
            .optional("documentation")
            .optional("deprecated")
            .optional("preselect")
            .optional("sortText")
            .optional("filterText")
            .optional("insertText")
            .optional("insertTextFormat")
            .optional("insertTextMode")
            .optional("textEdit")
            .optional("textEditText")
            .optional("additionalTextEdits")
            .optional("commitCharacters")
            .optional("command")
            .optional("data")
            .rest(&[
                "label",
                "labelDetails",
                "kind",
                "tags",
                "detail",
                "documentation",
                "deprecated",
                "preselect",
                "sortText",
                "filterText",
                "insertText",
                "insertTextFormat",
                "insertTextMode",
                "textEdit",
                "textEditText",
                "additionalTextEdits",
                "commitCharacters",
                "command",
                "data",
            ])
            .end()
        {
            Ok(read) => {
                let (read, more) = read;
                let (read, data) = read;
                let (read, command) = read;
                let (read, commit_characters) = read;
                let (read, additional_text_edits) = read;
                let (read, text_edit_text) = read;
                let (read, text_edit) = read;
                let (read, insert_text_mode) = read;
                let (read, insert_text_format) = read;
                let (read, insert_text) = read;
                let (read, filter_text) = read;
                let (read, sort_text) = read;
                let (read, preselect) = read;
                let (read, deprecated) = read;
                let (read, documentation) = read;
                let (read, detail) = read;
                let (read, tags) = read;
                let (read, kind) = read;
                let (read, label_details) = read;
                let ((), label) = read;
                Ok(CompletionItem {
                    label,
                    label_details,
                    kind,
                    tags,
                    detail,
                    documentation,
                    deprecated,
                    preselect,
                    sort_text,
                    filter_text,
                    insert_text,
                    insert_text_format,
                    insert_text_mode,
                    text_edit,
                    text_edit_text,
                    additional_text_edits,
                    commit_characters,
                    command,
                    data,
                    more,
                })
            }
            Err(misfit) => Err(misfit),
        }
    }
}

/// Parts to replace, of which the user chooses (LSP 3.17, "CompletionList").
#[derive(Clone, Copy, Drop)]
pub struct EditRangeWithInsertReplace {
    /// The part to replace if an item is inserted.
    pub insert: Range,
    /// The part to replace if the text replaces the word.
    pub replace: Range,
}

impl ToJson for EditRangeWithInsertReplace {
    ghost stands = { λ it. object_of (
        (codes "insert", Some (⟦<Range as ToJson>⟧.stands it.insert))
        ∷ (codes "replace", Some (⟦<Range as ToJson>⟧.stands it.replace)) ∷ []) };

    fn write_json<S: JsonSink>(&self, out: &mut S) -> Result<(), S::Error> {
        out.begin_object()?;
        write_member(out, "insert", &self.insert)?;
        write_member(out, "replace", &self.replace)?;
        out.end_object()
    }
}

impl FromJson for EditRangeWithInsertReplace {
    ghost reads = { λ json it. IsObject json
        and Required ⟦<Range as FromJson>⟧.reads (codes "insert") json it.insert
        and Required ⟦<Range as FromJson>⟧.reads (codes "replace") json it.replace };

    fn from_json(alloc: Global, value: &JsonRef<'_>) -> Result<EditRangeWithInsertReplace, Misfit> {
        match Members::new(alloc, value)
            .required("insert")
            .required("replace")
            .end()
        {
            Ok(read) => {
                let (((), insert), replace) = read;
                Ok(EditRangeWithInsertReplace { insert, replace })
            }
            Err(misfit) => Err(misfit),
        }
    }
}

/// The part that completions replace (LSP 3.17, "CompletionList"). The forms differ in their members.
#[derive(Clone, Copy, Drop)]
pub enum CompletionEditRange {
    /// One that the user chooses.
    InsertReplace(EditRangeWithInsertReplace),
    /// One part.
    Range(Range),
}

impl ToJson for CompletionEditRange {
    ghost use Rattle.lsp_types.specs.declared.completions.CompletionEditRange.TheVariants.{InsertReplace, Range};

    ghost stands = { elim [
      | InsertReplace it ↦ ⟦<EditRangeWithInsertReplace as ToJson>⟧.stands it
      | Range it ↦ ⟦<Range as ToJson>⟧.stands it
    ] };

    fn write_json<S: JsonSink>(&self, out: &mut S) -> Result<(), S::Error> {
        match self {
            CompletionEditRange::InsertReplace(it) => it.write_json(out),
            CompletionEditRange::Range(it) => it.write_json(out),
        }
    }
}

impl FromJson for CompletionEditRange {
    ghost use Rattle.lsp_types.specs.declared.completions.CompletionEditRange.TheVariants.{InsertReplace, Range};

    ghost reads = { λ json. elim [
      | InsertReplace it ↦ ⟦<EditRangeWithInsertReplace as FromJson>⟧.reads json it
      | Range it ↦ NoneReads ⟦<EditRangeWithInsertReplace as FromJson>⟧.reads json × ⟦<Range as FromJson>⟧.reads json it
    ] };

    fn from_json(alloc: Global, value: &JsonRef<'_>) -> Result<CompletionEditRange, Misfit> {
        if let Some(it) = fitting(alloc, value)? {
            return Ok(CompletionEditRange::InsertReplace(it));
        }
        match FromJson::from_json(alloc, value) {
            Ok(it) => Ok(CompletionEditRange::Range(it)),
            Err(misfit) => Err(misfit),
        }
    }
}

/// Defaults for the items of a list (LSP 3.17, "CompletionList").
#[derive(Drop)]
pub struct CompletionItemDefaults {
    /// Which typed characters accept them.
    pub commit_characters: Option<Vec<String>>,
    /// The part that they replace.
    pub edit_range: Option<CompletionEditRange>,
    /// The format of their texts.
    pub insert_text_format: Option<InsertTextFormat>,
    /// What happens to their whitespace.
    pub insert_text_mode: Option<InsertTextMode>,
    /// The client returns this value in `completionItem/resolve`.
    pub data: Option<Value>,
}

impl Default for CompletionItemDefaults {
    ghost use Rattle.std.specs.Prelude.{◌≡◌, None};

    /// Makes one in which no member is set.
    fn default() -> CompletionItemDefaults
        ensures { result ≡ record {
          commit_characters = None;
          edit_range = None;
          insert_text_format = None;
          insert_text_mode = None;
          «data» = None;
        } }
    {
        CompletionItemDefaults {
            commit_characters: None,
            edit_range: None,
            insert_text_format: None,
            insert_text_mode: None,
            data: None,
        }
    }
}

impl ToJson for CompletionItemDefaults {
    ghost stands = { λ it. object_of (
        (codes "commitCharacters", option_map ⟦<Vec<String> as ToJson>⟧.stands it.commit_characters)
        ∷ (codes "data", option_map ⟦<Value as ToJson>⟧.stands it.«data»)
        ∷ (codes "editRange", option_map ⟦<CompletionEditRange as ToJson>⟧.stands it.edit_range)
        ∷ (codes "insertTextFormat", option_map ⟦<InsertTextFormat as ToJson>⟧.stands it.insert_text_format)
        ∷ (codes "insertTextMode", option_map ⟦<InsertTextMode as ToJson>⟧.stands it.insert_text_mode) ∷ []) };

    fn write_json<S: JsonSink>(&self, out: &mut S) -> Result<(), S::Error> {
        out.begin_object()?;
        write_some(out, "commitCharacters", &self.commit_characters)?;
        write_some(out, "data", &self.data)?;
        write_some(out, "editRange", &self.edit_range)?;
        write_some(out, "insertTextFormat", &self.insert_text_format)?;
        write_some(out, "insertTextMode", &self.insert_text_mode)?;
        out.end_object()
    }
}

impl FromJson for CompletionItemDefaults {
    ghost reads = { λ json it. IsObject json
        and Optional ⟦<Vec<String> as FromJson>⟧.reads (codes "commitCharacters") json it.commit_characters
        and Optional ⟦<CompletionEditRange as FromJson>⟧.reads (codes "editRange") json it.edit_range
        and Optional ⟦<InsertTextFormat as FromJson>⟧.reads (codes "insertTextFormat") json it.insert_text_format
        and Optional ⟦<InsertTextMode as FromJson>⟧.reads (codes "insertTextMode") json it.insert_text_mode
        and Optional ⟦<Value as FromJson>⟧.reads (codes "data") json it.«data» };

    fn from_json(alloc: Global, value: &JsonRef<'_>) -> Result<CompletionItemDefaults, Misfit> {
        match Members::new(alloc, value)
            .optional("commitCharacters")
            .optional("editRange")
            .optional("insertTextFormat")
            .optional("insertTextMode")
            .optional("data")
            .end()
        {
            Ok(read) => {
                let (read, data) = read;
                let (read, insert_text_mode) = read;
                let (read, insert_text_format) = read;
                let (read, edit_range) = read;
                let ((), commit_characters) = read;
                Ok(CompletionItemDefaults {
                    commit_characters,
                    edit_range,
                    insert_text_format,
                    insert_text_mode,
                    data,
                })
            }
            Err(misfit) => Err(misfit),
        }
    }
}

/// Why completions are requested (LSP 3.17, "CompletionTriggerKind"). On reading, another number is refused.
#[derive(Clone, Copy, Drop)]
pub struct CompletionTriggerKind(pub u32);

impl CompletionTriggerKind {
    /// The user asked, or typed a letter.
    pub const INVOKED: CompletionTriggerKind = CompletionTriggerKind(1);
    /// One of `trigger_characters` was typed.
    pub const TRIGGER_CHARACTER: CompletionTriggerKind = CompletionTriggerKind(2);
    /// More was typed, and the last list was not complete.
    pub const TRIGGER_FOR_INCOMPLETE_COMPLETIONS: CompletionTriggerKind = CompletionTriggerKind(3);
}

impl ToJson for CompletionTriggerKind {
    ghost stands = { λ it. number (unsigned it.0) };

    fn write_json<S: JsonSink>(&self, out: &mut S) -> Result<(), S::Error> {
        self.0.write_json(out)
    }
}

impl FromJson for CompletionTriggerKind {
    ghost reads = { λ json it. IsWithin 1 3 json it.0 };

    fn from_json(alloc: Global, value: &JsonRef<'_>) -> Result<CompletionTriggerKind, Misfit> {
        match number_within(alloc, value, 1, 3) {
            Ok(number) => Ok(CompletionTriggerKind(number)),
            Err(misfit) => Err(misfit),
        }
    }
}

/// Why completions are requested (LSP 3.17, "CompletionContext").
#[derive(Drop)]
pub struct CompletionContext {
    /// Why.
    pub trigger_kind: CompletionTriggerKind,
    /// The character that was typed, if it was one of `trigger_characters`.
    pub trigger_character: Option<String>,
}

impl ToJson for CompletionContext {
    ghost stands = { λ it. object_of (
        (codes "triggerCharacter", option_map ⟦<String as ToJson>⟧.stands it.trigger_character)
        ∷ (codes "triggerKind", Some (⟦<CompletionTriggerKind as ToJson>⟧.stands it.trigger_kind)) ∷ []) };

    fn write_json<S: JsonSink>(&self, out: &mut S) -> Result<(), S::Error> {
        out.begin_object()?;
        write_some(out, "triggerCharacter", &self.trigger_character)?;
        write_member(out, "triggerKind", &self.trigger_kind)?;
        out.end_object()
    }
}

impl FromJson for CompletionContext {
    ghost reads = { λ json it. IsObject json
        and Required ⟦<CompletionTriggerKind as FromJson>⟧.reads (codes "triggerKind") json it.trigger_kind
        and Optional ⟦<String as FromJson>⟧.reads (codes "triggerCharacter") json it.trigger_character };

    fn from_json(alloc: Global, value: &JsonRef<'_>) -> Result<CompletionContext, Misfit> {
        match Members::new(alloc, value)
            .required("triggerKind")
            .optional("triggerCharacter")
            .end()
        {
            Ok(read) => {
                let (((), trigger_kind), trigger_character) = read;
                Ok(CompletionContext {
                    trigger_kind,
                    trigger_character,
                })
            }
            Err(misfit) => Err(misfit),
        }
    }
}

/// The params of `textDocument/completion` (LSP 3.17, "Completion Request").
#[derive(Drop)]
pub struct CompletionParams {
    /// The document.
    pub text_document: TextDocumentIdentifier,
    /// The place in it.
    pub position: Position,
    /// Why. `None` means that the client does not say why, or that the value does not fit.
    pub context: Option<CompletionContext>,
    /// The token to report progress with. `None` means that no progress is requested, or that the token does not fit.
    pub work_done_token: Option<ProgressToken>,
    /// The token to send parts of the result with. `None` means that no parts are requested, or that the token does not
    /// fit.
    pub partial_result_token: Option<ProgressToken>,
}

impl ToJson for CompletionParams {
    ghost stands = { λ it. object_of (
        (codes "context", option_map ⟦<CompletionContext as ToJson>⟧.stands it.context)
        ∷ (codes "partialResultToken", option_map ⟦<ProgressToken as ToJson>⟧.stands it.partial_result_token)
        ∷ (codes "position", Some (⟦<Position as ToJson>⟧.stands it.position))
        ∷ (codes "textDocument", Some (⟦<TextDocumentIdentifier as ToJson>⟧.stands it.text_document))
        ∷ (codes "workDoneToken", option_map ⟦<ProgressToken as ToJson>⟧.stands it.work_done_token) ∷ []) };

    fn write_json<S: JsonSink>(&self, out: &mut S) -> Result<(), S::Error> {
        out.begin_object()?;
        write_some(out, "context", &self.context)?;
        write_some(out, "partialResultToken", &self.partial_result_token)?;
        write_member(out, "position", &self.position)?;
        write_member(out, "textDocument", &self.text_document)?;
        write_some(out, "workDoneToken", &self.work_done_token)?;
        out.end_object()
    }
}

impl FromJson for CompletionParams {
    ghost reads = { λ json it. IsObject json
        and Required ⟦<TextDocumentIdentifier as FromJson>⟧.reads (codes "textDocument") json it.text_document
        and Required ⟦<Position as FromJson>⟧.reads (codes "position") json it.position
        and IfFits ⟦<CompletionContext as FromJson>⟧.reads (codes "context") json it.context
        and IfFits ⟦<ProgressToken as FromJson>⟧.reads (codes "workDoneToken") json it.work_done_token
        and IfFits ⟦<ProgressToken as FromJson>⟧.reads (codes "partialResultToken") json it.partial_result_token };

    fn from_json(alloc: Global, value: &JsonRef<'_>) -> Result<CompletionParams, Misfit> {
        match Members::new(alloc, value)
            .required("textDocument")
            .required("position")
            .if_fits("context")
            .if_fits("workDoneToken")
            .if_fits("partialResultToken")
            .end()
        {
            Ok(read) => {
                let (read, partial_result_token) = read;
                let (read, work_done_token) = read;
                let (read, context) = read;
                let (read, position) = read;
                let ((), text_document) = read;
                Ok(CompletionParams {
                    text_document,
                    position,
                    context,
                    work_done_token,
                    partial_result_token,
                })
            }
            Err(misfit) => Err(misfit),
        }
    }
}

/// Completions, and what applies to all of them (LSP 3.17, "CompletionList").
#[derive(Drop)]
pub struct CompletionList {
    /// Whether further typing requests a new list.
    pub is_incomplete: bool,
    /// Defaults for the items.
    pub item_defaults: Option<CompletionItemDefaults>,
    /// The completions.
    pub items: Vec<CompletionItem>,
}

impl CompletionList {
    ghost use Rattle.std.specs.Prelude.{◌≡◌, None};

    /// Makes one from the required members. The others are `None`.
    pub fn new(is_incomplete: bool, items: Vec<CompletionItem>) -> CompletionList
        ensures { result ≡ record {
          is_incomplete = is_incomplete;
          item_defaults = None;
          items = items;
        } }
    {
        CompletionList {
            is_incomplete,
            item_defaults: None,
            items,
        }
    }
}

impl ToJson for CompletionList {
    ghost stands = { λ it. object_of (
        (codes "isIncomplete", Some (⟦<bool as ToJson>⟧.stands it.is_incomplete))
        ∷ (codes "itemDefaults", option_map ⟦<CompletionItemDefaults as ToJson>⟧.stands it.item_defaults)
        ∷ (codes "items", Some (⟦<Vec<CompletionItem> as ToJson>⟧.stands it.items)) ∷ []) };

    fn write_json<S: JsonSink>(&self, out: &mut S) -> Result<(), S::Error> {
        out.begin_object()?;
        write_member(out, "isIncomplete", &self.is_incomplete)?;
        write_some(out, "itemDefaults", &self.item_defaults)?;
        write_member(out, "items", &self.items)?;
        out.end_object()
    }
}

impl FromJson for CompletionList {
    ghost reads = { λ json it. IsObject json
        and Required ⟦<bool as FromJson>⟧.reads (codes "isIncomplete") json it.is_incomplete
        and Optional ⟦<CompletionItemDefaults as FromJson>⟧.reads (codes "itemDefaults") json it.item_defaults
        and Required ⟦<Vec<CompletionItem> as FromJson>⟧.reads (codes "items") json it.items };

    fn from_json(alloc: Global, value: &JsonRef<'_>) -> Result<CompletionList, Misfit> {
        match Members::new(alloc, value)
            .required("isIncomplete")
            .optional("itemDefaults")
            .required("items")
            .end()
        {
            Ok(read) => {
                let ((((), is_incomplete), item_defaults), items) = read;
                Ok(CompletionList {
                    is_incomplete,
                    item_defaults,
                    items,
                })
            }
            Err(misfit) => Err(misfit),
        }
    }
}

/// The result of `textDocument/completion`, or null: a list, or an object (LSP 3.17, "Completion Request").
#[derive(Drop)]
pub enum CompletionResult {
    /// All completions.
    Items(Vec<CompletionItem>),
    /// Completions, and what applies to all of them.
    List(CompletionList),
}

impl ToJson for CompletionResult {
    ghost use Rattle.lsp_types.specs.declared.completions.CompletionResult.TheVariants.{Items, List};

    ghost stands = { elim [
      | Items it ↦ ⟦<Vec<CompletionItem> as ToJson>⟧.stands it
      | List it ↦ ⟦<CompletionList as ToJson>⟧.stands it
    ] };

    fn write_json<S: JsonSink>(&self, out: &mut S) -> Result<(), S::Error> {
        match self {
            CompletionResult::Items(it) => it.write_json(out),
            CompletionResult::List(it) => it.write_json(out),
        }
    }
}

impl FromJson for CompletionResult {
    ghost use Rattle.lsp_types.specs.declared.completions.CompletionResult.TheVariants.{Items, List};

    ghost reads = { λ json. elim [
      | Items it ↦ ⟦<Vec<CompletionItem> as FromJson>⟧.reads json it
      | List it ↦ NoneReads ⟦<Vec<CompletionItem> as FromJson>⟧.reads json × ⟦<CompletionList as FromJson>⟧.reads json it
    ] };

    fn from_json(alloc: Global, value: &JsonRef<'_>) -> Result<CompletionResult, Misfit> {
        if let Some(it) = fitting(alloc, value)? {
            return Ok(CompletionResult::Items(it));
        }
        match FromJson::from_json(alloc, value) {
            Ok(it) => Ok(CompletionResult::List(it)),
            Err(misfit) => Err(misfit),
        }
    }
}
