//! Changes of texts that a server makes: edits, renames and formatting.
// `tools/types` wrote this file from `types.txt`: change that.
ghost use Rattle.std.specs.Prelude.{◌∷◌, [], Some, codes, option_map};
ghost use Rattle.serde_json.specs.Data.{string};
ghost use Rattle.lsp_types.specs.Json.{object_of};
ghost use Rattle.lsp_types.specs.Reads.{IfFits, IsObject, Named, NoneReads, Optional, Required, ◌and◌};

use crate::documents::TextDocumentIdentifier;
use crate::json::{
    FromJson, Members, Misfit, ToJson, fitting, write_member, write_some, write_text,
};
use crate::progress::ProgressToken;
use lsp_json::JsonRef;
use lsp_json_write::JsonSink;
use lsp_text::{Position, Range};
use std::alloc::Global;
use std::collections::BTreeMap;

/// A change of a text (LSP 3.17, "TextEdit").
#[derive(Drop)]
pub struct TextEdit {
    /// The part that is replaced.
    pub range: Range,
    /// The text in its place.
    pub new_text: String,
}

impl ToJson for TextEdit {
    ghost stands = { λ it. object_of (
        (codes "newText", Some (⟦<String as ToJson>⟧.stands it.new_text))
        ∷ (codes "range", Some (⟦<Range as ToJson>⟧.stands it.range)) ∷ []) };

    fn write_json<S: JsonSink>(&self, out: &mut S) -> Result<(), S::Error> {
        out.begin_object()?;
        write_member(out, "newText", &self.new_text)?;
        write_member(out, "range", &self.range)?;
        out.end_object()
    }
}

impl FromJson for TextEdit {
    ghost reads = { λ json it. IsObject json
        and Required ⟦<Range as FromJson>⟧.reads (codes "range") json it.range
        and Required ⟦<String as FromJson>⟧.reads (codes "newText") json it.new_text };

    fn from_json(alloc: Global, value: &JsonRef<'_>) -> Result<TextEdit, Misfit> {
        match Members::new(alloc, value)
            .required("range")
            .required("newText")
            .end()
        {
            Ok(read) => {
                let (((), range), new_text) = read;
                Ok(TextEdit { range, new_text })
            }
            Err(misfit) => Err(misfit),
        }
    }
}

/// A document, at a version or at its present one (LSP 3.17, "OptionalVersionedTextDocumentIdentifier").
#[derive(Drop)]
pub struct OptionalVersionedTextDocumentIdentifier {
    /// Its URI.
    pub uri: String,
    /// Its version. `None` means any version, for example of a file that is not open.
    pub version: Option<i32>,
}

impl ToJson for OptionalVersionedTextDocumentIdentifier {
    ghost stands = { λ it. object_of (
        (codes "uri", Some (⟦<String as ToJson>⟧.stands it.uri))
        ∷ (codes "version", Some (⟦<Option<i32> as ToJson>⟧.stands it.version)) ∷ []) };

    fn write_json<S: JsonSink>(&self, out: &mut S) -> Result<(), S::Error> {
        out.begin_object()?;
        write_member(out, "uri", &self.uri)?;
        write_member(out, "version", &self.version)?;
        out.end_object()
    }
}

impl FromJson for OptionalVersionedTextDocumentIdentifier {
    ghost reads = { λ json it. IsObject json
        and Required ⟦<String as FromJson>⟧.reads (codes "uri") json it.uri
        and Optional ⟦<i32 as FromJson>⟧.reads (codes "version") json it.version };

    fn from_json(
        alloc: Global,
        value: &JsonRef<'_>,
    ) -> Result<OptionalVersionedTextDocumentIdentifier, Misfit> {
        match Members::new(alloc, value)
            .required("uri")
            .optional("version")
            .end()
        {
            Ok(read) => {
                let (((), uri), version) = read;
                Ok(OptionalVersionedTextDocumentIdentifier { uri, version })
            }
            Err(misfit) => Err(misfit),
        }
    }
}

/// A change of a text with an annotation (LSP 3.17, "AnnotatedTextEdit").
#[derive(Drop)]
pub struct AnnotatedTextEdit {
    /// The part that is replaced.
    pub range: Range,
    /// The text in its place.
    pub new_text: String,
    /// The name of the annotation in `WorkspaceEdit::change_annotations`.
    pub annotation_id: String,
}

impl ToJson for AnnotatedTextEdit {
    ghost stands = { λ it. object_of (
        (codes "annotationId", Some (⟦<String as ToJson>⟧.stands it.annotation_id))
        ∷ (codes "newText", Some (⟦<String as ToJson>⟧.stands it.new_text))
        ∷ (codes "range", Some (⟦<Range as ToJson>⟧.stands it.range)) ∷ []) };

    fn write_json<S: JsonSink>(&self, out: &mut S) -> Result<(), S::Error> {
        out.begin_object()?;
        write_member(out, "annotationId", &self.annotation_id)?;
        write_member(out, "newText", &self.new_text)?;
        write_member(out, "range", &self.range)?;
        out.end_object()
    }
}

impl FromJson for AnnotatedTextEdit {
    ghost reads = { λ json it. IsObject json
        and Required ⟦<Range as FromJson>⟧.reads (codes "range") json it.range
        and Required ⟦<String as FromJson>⟧.reads (codes "newText") json it.new_text
        and Required ⟦<String as FromJson>⟧.reads (codes "annotationId") json it.annotation_id };

    fn from_json(alloc: Global, value: &JsonRef<'_>) -> Result<AnnotatedTextEdit, Misfit> {
        match Members::new(alloc, value)
            .required("range")
            .required("newText")
            .required("annotationId")
            .end()
        {
            Ok(read) => {
                let ((((), range), new_text), annotation_id) = read;
                Ok(AnnotatedTextEdit {
                    range,
                    new_text,
                    annotation_id,
                })
            }
            Err(misfit) => Err(misfit),
        }
    }
}

/// A change of a text (LSP 3.17, "TextDocumentEdit"). One with a member `annotationId` is the first.
#[derive(Drop)]
pub enum AnyTextEdit {
    /// One with an annotation, for clients with `workspace.workspaceEdit.changeAnnotationSupport`.
    Annotated(AnnotatedTextEdit),
    /// One without an annotation.
    Plain(TextEdit),
}

impl ToJson for AnyTextEdit {
    ghost use Rattle.lsp_types.specs.declared.edits.AnyTextEdit.TheVariants.{Annotated, Plain};

    ghost stands = { elim [
      | Annotated it ↦ ⟦<AnnotatedTextEdit as ToJson>⟧.stands it
      | Plain it ↦ ⟦<TextEdit as ToJson>⟧.stands it
    ] };

    fn write_json<S: JsonSink>(&self, out: &mut S) -> Result<(), S::Error> {
        match self {
            AnyTextEdit::Annotated(it) => it.write_json(out),
            AnyTextEdit::Plain(it) => it.write_json(out),
        }
    }
}

impl FromJson for AnyTextEdit {
    ghost use Rattle.lsp_types.specs.declared.edits.AnyTextEdit.TheVariants.{Annotated, Plain};

    ghost reads = { λ json. elim [
      | Annotated it ↦ ⟦<AnnotatedTextEdit as FromJson>⟧.reads json it
      | Plain it ↦ NoneReads ⟦<AnnotatedTextEdit as FromJson>⟧.reads json × ⟦<TextEdit as FromJson>⟧.reads json it
    ] };

    fn from_json(alloc: Global, value: &JsonRef<'_>) -> Result<AnyTextEdit, Misfit> {
        if let Some(it) = fitting(alloc, value)? {
            return Ok(AnyTextEdit::Annotated(it));
        }
        match FromJson::from_json(alloc, value) {
            Ok(it) => Ok(AnyTextEdit::Plain(it)),
            Err(misfit) => Err(misfit),
        }
    }
}

/// Changes of a document at a version (LSP 3.17, "TextDocumentEdit").
#[derive(Drop)]
pub struct TextDocumentEdit {
    /// The document.
    pub text_document: OptionalVersionedTextDocumentIdentifier,
    /// Its changes.
    pub edits: Vec<AnyTextEdit>,
}

impl ToJson for TextDocumentEdit {
    ghost stands = { λ it. object_of (
        (codes "edits", Some (⟦<Vec<AnyTextEdit> as ToJson>⟧.stands it.edits))
        ∷ (codes "textDocument", Some (⟦<OptionalVersionedTextDocumentIdentifier as ToJson>⟧.stands it.text_document)) ∷ []) };

    fn write_json<S: JsonSink>(&self, out: &mut S) -> Result<(), S::Error> {
        out.begin_object()?;
        write_member(out, "edits", &self.edits)?;
        write_member(out, "textDocument", &self.text_document)?;
        out.end_object()
    }
}

impl FromJson for TextDocumentEdit {
    ghost reads = { λ json it. IsObject json
        and Required ⟦<OptionalVersionedTextDocumentIdentifier as FromJson>⟧.reads (codes "textDocument") json it.text_document
        and Required ⟦<Vec<AnyTextEdit> as FromJson>⟧.reads (codes "edits") json it.edits };

    fn from_json(alloc: Global, value: &JsonRef<'_>) -> Result<TextDocumentEdit, Misfit> {
        match Members::new(alloc, value)
            .required("textDocument")
            .required("edits")
            .end()
        {
            Ok(read) => {
                let (((), text_document), edits) = read;
                Ok(TextDocumentEdit {
                    text_document,
                    edits,
                })
            }
            Err(misfit) => Err(misfit),
        }
    }
}

/// What happens if there is such a file already (LSP 3.17, "CreateFileOptions").
#[derive(Clone, Copy, Drop)]
pub struct CreateFileOptions {
    /// Whether that file is replaced. This has precedence over `ignore_if_exists`.
    pub overwrite: Option<bool>,
    /// Whether that file stays, and nothing is done.
    pub ignore_if_exists: Option<bool>,
}

impl Default for CreateFileOptions {
    ghost use Rattle.std.specs.Prelude.{◌≡◌, None};

    /// Makes one in which no member is set.
    fn default() -> CreateFileOptions
        ensures { result ≡ record {
          overwrite = None;
          ignore_if_exists = None;
        } }
    {
        CreateFileOptions {
            overwrite: None,
            ignore_if_exists: None,
        }
    }
}

impl ToJson for CreateFileOptions {
    ghost stands = { λ it. object_of (
        (codes "ignoreIfExists", option_map ⟦<bool as ToJson>⟧.stands it.ignore_if_exists)
        ∷ (codes "overwrite", option_map ⟦<bool as ToJson>⟧.stands it.overwrite) ∷ []) };

    fn write_json<S: JsonSink>(&self, out: &mut S) -> Result<(), S::Error> {
        out.begin_object()?;
        write_some(out, "ignoreIfExists", &self.ignore_if_exists)?;
        write_some(out, "overwrite", &self.overwrite)?;
        out.end_object()
    }
}

impl FromJson for CreateFileOptions {
    ghost reads = { λ json it. IsObject json
        and Optional ⟦<bool as FromJson>⟧.reads (codes "overwrite") json it.overwrite
        and Optional ⟦<bool as FromJson>⟧.reads (codes "ignoreIfExists") json it.ignore_if_exists };

    fn from_json(alloc: Global, value: &JsonRef<'_>) -> Result<CreateFileOptions, Misfit> {
        match Members::new(alloc, value)
            .optional("overwrite")
            .optional("ignoreIfExists")
            .end()
        {
            Ok(read) => {
                let (((), overwrite), ignore_if_exists) = read;
                Ok(CreateFileOptions {
                    overwrite,
                    ignore_if_exists,
                })
            }
            Err(misfit) => Err(misfit),
        }
    }
}

/// What happens if there is a file under the new URI already (LSP 3.17, "RenameFileOptions").
pub type RenameFileOptions = CreateFileOptions;

/// How a file is deleted (LSP 3.17, "DeleteFileOptions").
#[derive(Clone, Copy, Drop)]
pub struct DeleteFileOptions {
    /// Whether a folder is deleted with everything in it.
    pub recursive: Option<bool>,
    /// Whether it is no error if there is no such file.
    pub ignore_if_not_exists: Option<bool>,
}

impl Default for DeleteFileOptions {
    ghost use Rattle.std.specs.Prelude.{◌≡◌, None};

    /// Makes one in which no member is set.
    fn default() -> DeleteFileOptions
        ensures { result ≡ record {
          recursive = None;
          ignore_if_not_exists = None;
        } }
    {
        DeleteFileOptions {
            recursive: None,
            ignore_if_not_exists: None,
        }
    }
}

impl ToJson for DeleteFileOptions {
    ghost stands = { λ it. object_of (
        (codes "ignoreIfNotExists", option_map ⟦<bool as ToJson>⟧.stands it.ignore_if_not_exists)
        ∷ (codes "recursive", option_map ⟦<bool as ToJson>⟧.stands it.recursive) ∷ []) };

    fn write_json<S: JsonSink>(&self, out: &mut S) -> Result<(), S::Error> {
        out.begin_object()?;
        write_some(out, "ignoreIfNotExists", &self.ignore_if_not_exists)?;
        write_some(out, "recursive", &self.recursive)?;
        out.end_object()
    }
}

impl FromJson for DeleteFileOptions {
    ghost reads = { λ json it. IsObject json
        and Optional ⟦<bool as FromJson>⟧.reads (codes "recursive") json it.recursive
        and Optional ⟦<bool as FromJson>⟧.reads (codes "ignoreIfNotExists") json it.ignore_if_not_exists };

    fn from_json(alloc: Global, value: &JsonRef<'_>) -> Result<DeleteFileOptions, Misfit> {
        match Members::new(alloc, value)
            .optional("recursive")
            .optional("ignoreIfNotExists")
            .end()
        {
            Ok(read) => {
                let (((), recursive), ignore_if_not_exists) = read;
                Ok(DeleteFileOptions {
                    recursive,
                    ignore_if_not_exists,
                })
            }
            Err(misfit) => Err(misfit),
        }
    }
}

/// A file or a folder to make (LSP 3.17, "CreateFile").
#[derive(Drop)]
pub struct CreateFile {
    /// Its URI.
    pub uri: String,
    /// What happens if it exists already.
    pub options: Option<CreateFileOptions>,
    /// The name of its annotation in `WorkspaceEdit::change_annotations`.
    pub annotation_id: Option<String>,
}

impl CreateFile {
    ghost use Rattle.std.specs.Prelude.{◌≡◌, None};

    /// Makes one from the required members. The others are `None`.
    pub fn new(uri: String) -> CreateFile
        ensures { result ≡ record {
          uri = uri;
          options = None;
          annotation_id = None;
        } }
    {
        CreateFile {
            uri,
            options: None,
            annotation_id: None,
        }
    }
}

impl ToJson for CreateFile {
    ghost stands = { λ it. object_of (
        (codes "annotationId", option_map ⟦<String as ToJson>⟧.stands it.annotation_id)
        ∷ (codes "kind", Some (string (codes "create")))
        ∷ (codes "options", option_map ⟦<CreateFileOptions as ToJson>⟧.stands it.options)
        ∷ (codes "uri", Some (⟦<String as ToJson>⟧.stands it.uri)) ∷ []) };

    fn write_json<S: JsonSink>(&self, out: &mut S) -> Result<(), S::Error> {
        out.begin_object()?;
        write_some(out, "annotationId", &self.annotation_id)?;
        write_text(out, "kind", "create")?;
        write_some(out, "options", &self.options)?;
        write_member(out, "uri", &self.uri)?;
        out.end_object()
    }
}

impl FromJson for CreateFile {
    ghost reads = { λ json it. IsObject json
        and Named (codes "kind") (codes "create") json
        and Required ⟦<String as FromJson>⟧.reads (codes "uri") json it.uri
        and Optional ⟦<CreateFileOptions as FromJson>⟧.reads (codes "options") json it.options
        and Optional ⟦<String as FromJson>⟧.reads (codes "annotationId") json it.annotation_id };

    fn from_json(alloc: Global, value: &JsonRef<'_>) -> Result<CreateFile, Misfit> {
        match Members::new(alloc, value)
            .named("kind", "create")
            .required("uri")
            .optional("options")
            .optional("annotationId")
            .end()
        {
            Ok(read) => {
                let (((((), ()), uri), options), annotation_id) = read;
                Ok(CreateFile {
                    uri,
                    options,
                    annotation_id,
                })
            }
            Err(misfit) => Err(misfit),
        }
    }
}

/// A file or a folder to rename (LSP 3.17, "RenameFile").
#[derive(Drop)]
pub struct RenameFile {
    /// Its URI until now.
    pub old_uri: String,
    /// Its URI from now on.
    pub new_uri: String,
    /// What happens if there is one under the new URI.
    pub options: Option<RenameFileOptions>,
    /// The name of its annotation in `WorkspaceEdit::change_annotations`.
    pub annotation_id: Option<String>,
}

impl RenameFile {
    ghost use Rattle.std.specs.Prelude.{◌≡◌, None};

    /// Makes one from the required members. The others are `None`.
    pub fn new(old_uri: String, new_uri: String) -> RenameFile
        ensures { result ≡ record {
          old_uri = old_uri;
          new_uri = new_uri;
          options = None;
          annotation_id = None;
        } }
    {
        RenameFile {
            old_uri,
            new_uri,
            options: None,
            annotation_id: None,
        }
    }
}

impl ToJson for RenameFile {
    ghost stands = { λ it. object_of (
        (codes "annotationId", option_map ⟦<String as ToJson>⟧.stands it.annotation_id)
        ∷ (codes "kind", Some (string (codes "rename")))
        ∷ (codes "newUri", Some (⟦<String as ToJson>⟧.stands it.new_uri))
        ∷ (codes "oldUri", Some (⟦<String as ToJson>⟧.stands it.old_uri))
        ∷ (codes "options", option_map ⟦<RenameFileOptions as ToJson>⟧.stands it.options) ∷ []) };

    fn write_json<S: JsonSink>(&self, out: &mut S) -> Result<(), S::Error> {
        out.begin_object()?;
        write_some(out, "annotationId", &self.annotation_id)?;
        write_text(out, "kind", "rename")?;
        write_member(out, "newUri", &self.new_uri)?;
        write_member(out, "oldUri", &self.old_uri)?;
        write_some(out, "options", &self.options)?;
        out.end_object()
    }
}

impl FromJson for RenameFile {
    ghost reads = { λ json it. IsObject json
        and Named (codes "kind") (codes "rename") json
        and Required ⟦<String as FromJson>⟧.reads (codes "oldUri") json it.old_uri
        and Required ⟦<String as FromJson>⟧.reads (codes "newUri") json it.new_uri
        and Optional ⟦<RenameFileOptions as FromJson>⟧.reads (codes "options") json it.options
        and Optional ⟦<String as FromJson>⟧.reads (codes "annotationId") json it.annotation_id };

    fn from_json(alloc: Global, value: &JsonRef<'_>) -> Result<RenameFile, Misfit> {
        match Members::new(alloc, value)
            .named("kind", "rename")
            .required("oldUri")
            .required("newUri")
            .optional("options")
            .optional("annotationId")
            .end()
        {
            Ok(read) => {
                let ((((((), ()), old_uri), new_uri), options), annotation_id) = read;
                Ok(RenameFile {
                    old_uri,
                    new_uri,
                    options,
                    annotation_id,
                })
            }
            Err(misfit) => Err(misfit),
        }
    }
}

/// A file or a folder to delete (LSP 3.17, "DeleteFile").
#[derive(Drop)]
pub struct DeleteFile {
    /// Its URI.
    pub uri: String,
    /// How it is deleted.
    pub options: Option<DeleteFileOptions>,
    /// The name of its annotation in `WorkspaceEdit::change_annotations`.
    pub annotation_id: Option<String>,
}

impl DeleteFile {
    ghost use Rattle.std.specs.Prelude.{◌≡◌, None};

    /// Makes one from the required members. The others are `None`.
    pub fn new(uri: String) -> DeleteFile
        ensures { result ≡ record {
          uri = uri;
          options = None;
          annotation_id = None;
        } }
    {
        DeleteFile {
            uri,
            options: None,
            annotation_id: None,
        }
    }
}

impl ToJson for DeleteFile {
    ghost stands = { λ it. object_of (
        (codes "annotationId", option_map ⟦<String as ToJson>⟧.stands it.annotation_id)
        ∷ (codes "kind", Some (string (codes "delete")))
        ∷ (codes "options", option_map ⟦<DeleteFileOptions as ToJson>⟧.stands it.options)
        ∷ (codes "uri", Some (⟦<String as ToJson>⟧.stands it.uri)) ∷ []) };

    fn write_json<S: JsonSink>(&self, out: &mut S) -> Result<(), S::Error> {
        out.begin_object()?;
        write_some(out, "annotationId", &self.annotation_id)?;
        write_text(out, "kind", "delete")?;
        write_some(out, "options", &self.options)?;
        write_member(out, "uri", &self.uri)?;
        out.end_object()
    }
}

impl FromJson for DeleteFile {
    ghost reads = { λ json it. IsObject json
        and Named (codes "kind") (codes "delete") json
        and Required ⟦<String as FromJson>⟧.reads (codes "uri") json it.uri
        and Optional ⟦<DeleteFileOptions as FromJson>⟧.reads (codes "options") json it.options
        and Optional ⟦<String as FromJson>⟧.reads (codes "annotationId") json it.annotation_id };

    fn from_json(alloc: Global, value: &JsonRef<'_>) -> Result<DeleteFile, Misfit> {
        match Members::new(alloc, value)
            .named("kind", "delete")
            .required("uri")
            .optional("options")
            .optional("annotationId")
            .end()
        {
            Ok(read) => {
                let (((((), ()), uri), options), annotation_id) = read;
                Ok(DeleteFile {
                    uri,
                    options,
                    annotation_id,
                })
            }
            Err(misfit) => Err(misfit),
        }
    }
}

/// A change of a document or of a file (LSP 3.17, "WorkspaceEdit"). Changes of files differ in their `kind`, and an
/// edit has none.
#[derive(Drop)]
pub enum DocumentChange {
    /// A file to make, for clients with `create` among `workspace.workspaceEdit.resourceOperations`.
    Create(CreateFile),
    /// A file to rename, for clients with `rename` there.
    Rename(RenameFile),
    /// A file to delete, for clients with `delete` there.
    Delete(DeleteFile),
    /// Changes of a document's text.
    Edit(TextDocumentEdit),
}

impl ToJson for DocumentChange {
    ghost use Rattle.lsp_types.specs.declared.edits.DocumentChange.TheVariants.{Create, Rename, Delete, Edit};

    ghost stands = { elim [
      | Create it ↦ ⟦<CreateFile as ToJson>⟧.stands it
      | Rename it ↦ ⟦<RenameFile as ToJson>⟧.stands it
      | Delete it ↦ ⟦<DeleteFile as ToJson>⟧.stands it
      | Edit it ↦ ⟦<TextDocumentEdit as ToJson>⟧.stands it
    ] };

    fn write_json<S: JsonSink>(&self, out: &mut S) -> Result<(), S::Error> {
        match self {
            DocumentChange::Create(it) => it.write_json(out),
            DocumentChange::Rename(it) => it.write_json(out),
            DocumentChange::Delete(it) => it.write_json(out),
            DocumentChange::Edit(it) => it.write_json(out),
        }
    }
}

impl FromJson for DocumentChange {
    ghost use Rattle.lsp_types.specs.declared.edits.DocumentChange.TheVariants.{Create, Rename, Delete, Edit};

    ghost reads = { λ json. elim [
      | Create it ↦ ⟦<CreateFile as FromJson>⟧.reads json it
      | Rename it ↦ NoneReads ⟦<CreateFile as FromJson>⟧.reads json × ⟦<RenameFile as FromJson>⟧.reads json it
      | Delete it ↦ NoneReads ⟦<CreateFile as FromJson>⟧.reads json × NoneReads ⟦<RenameFile as FromJson>⟧.reads json × ⟦<DeleteFile as FromJson>⟧.reads json it
      | Edit it ↦ NoneReads ⟦<CreateFile as FromJson>⟧.reads json × NoneReads ⟦<RenameFile as FromJson>⟧.reads json × NoneReads ⟦<DeleteFile as FromJson>⟧.reads json × ⟦<TextDocumentEdit as FromJson>⟧.reads json it
    ] };

    fn from_json(alloc: Global, value: &JsonRef<'_>) -> Result<DocumentChange, Misfit> {
        if let Some(it) = fitting(alloc, value)? {
            return Ok(DocumentChange::Create(it));
        }
        if let Some(it) = fitting(alloc, value)? {
            return Ok(DocumentChange::Rename(it));
        }
        if let Some(it) = fitting(alloc, value)? {
            return Ok(DocumentChange::Delete(it));
        }
        match FromJson::from_json(alloc, value) {
            Ok(it) => Ok(DocumentChange::Edit(it)),
            Err(misfit) => Err(misfit),
        }
    }
}

/// Changes of documents (LSP 3.17, "WorkspaceEdit"). Fill in one of the two.
#[derive(Drop)]
pub struct WorkspaceEdit {
    /// The changes of each document, by its URI.
    pub changes: Option<BTreeMap<String, Vec<TextEdit>>>,
    /// Changes of documents with versions, and changes of files, made in this order, for clients with
    /// `workspace.workspaceEdit.documentChanges`. A client may use these and ignore `changes`.
    pub document_changes: Option<Vec<DocumentChange>>,
    /// The annotations of changes, by their names.
    pub change_annotations: Option<BTreeMap<String, ChangeAnnotation>>,
}

impl Default for WorkspaceEdit {
    ghost use Rattle.std.specs.Prelude.{◌≡◌, None};

    /// Makes one in which no member is set.
    fn default() -> WorkspaceEdit
        ensures { result ≡ record {
          changes = None;
          document_changes = None;
          change_annotations = None;
        } }
    {
        WorkspaceEdit {
            changes: None,
            document_changes: None,
            change_annotations: None,
        }
    }
}

impl ToJson for WorkspaceEdit {
    ghost stands = { λ it. object_of (
        (codes "changeAnnotations", option_map ⟦<BTreeMap<String, ChangeAnnotation> as ToJson>⟧.stands it.change_annotations)
        ∷ (codes "changes", option_map ⟦<BTreeMap<String, Vec<TextEdit>> as ToJson>⟧.stands it.changes)
        ∷ (codes "documentChanges", option_map ⟦<Vec<DocumentChange> as ToJson>⟧.stands it.document_changes) ∷ []) };

    fn write_json<S: JsonSink>(&self, out: &mut S) -> Result<(), S::Error> {
        out.begin_object()?;
        write_some(out, "changeAnnotations", &self.change_annotations)?;
        write_some(out, "changes", &self.changes)?;
        write_some(out, "documentChanges", &self.document_changes)?;
        out.end_object()
    }
}

impl FromJson for WorkspaceEdit {
    ghost reads = { λ json it. IsObject json
        and Optional ⟦<BTreeMap<String, Vec<TextEdit>> as FromJson>⟧.reads (codes "changes") json it.changes
        and Optional ⟦<Vec<DocumentChange> as FromJson>⟧.reads (codes "documentChanges") json it.document_changes
        and Optional ⟦<BTreeMap<String, ChangeAnnotation> as FromJson>⟧.reads (codes "changeAnnotations") json it.change_annotations };

    fn from_json(alloc: Global, value: &JsonRef<'_>) -> Result<WorkspaceEdit, Misfit> {
        match Members::new(alloc, value)
            .optional("changes")
            .optional("documentChanges")
            .optional("changeAnnotations")
            .end()
        {
            Ok(read) => {
                let ((((), changes), document_changes), change_annotations) = read;
                Ok(WorkspaceEdit {
                    changes,
                    document_changes,
                    change_annotations,
                })
            }
            Err(misfit) => Err(misfit),
        }
    }
}

/// An annotation of a change, which the user sees before agreeing to it (LSP 3.17, "ChangeAnnotation").
#[derive(Drop)]
pub struct ChangeAnnotation {
    /// What is shown.
    pub label: String,
    /// Whether the user has to agree.
    pub needs_confirmation: Option<bool>,
    /// More about it.
    pub description: Option<String>,
}

impl ChangeAnnotation {
    ghost use Rattle.std.specs.Prelude.{◌≡◌, None};

    /// Makes one from the required members. The others are `None`.
    pub fn new(label: String) -> ChangeAnnotation
        ensures { result ≡ record {
          label = label;
          needs_confirmation = None;
          description = None;
        } }
    {
        ChangeAnnotation {
            label,
            needs_confirmation: None,
            description: None,
        }
    }
}

impl ToJson for ChangeAnnotation {
    ghost stands = { λ it. object_of (
        (codes "description", option_map ⟦<String as ToJson>⟧.stands it.description)
        ∷ (codes "label", Some (⟦<String as ToJson>⟧.stands it.label))
        ∷ (codes "needsConfirmation", option_map ⟦<bool as ToJson>⟧.stands it.needs_confirmation) ∷ []) };

    fn write_json<S: JsonSink>(&self, out: &mut S) -> Result<(), S::Error> {
        out.begin_object()?;
        write_some(out, "description", &self.description)?;
        write_member(out, "label", &self.label)?;
        write_some(out, "needsConfirmation", &self.needs_confirmation)?;
        out.end_object()
    }
}

impl FromJson for ChangeAnnotation {
    ghost reads = { λ json it. IsObject json
        and Required ⟦<String as FromJson>⟧.reads (codes "label") json it.label
        and Optional ⟦<bool as FromJson>⟧.reads (codes "needsConfirmation") json it.needs_confirmation
        and Optional ⟦<String as FromJson>⟧.reads (codes "description") json it.description };

    fn from_json(alloc: Global, value: &JsonRef<'_>) -> Result<ChangeAnnotation, Misfit> {
        match Members::new(alloc, value)
            .required("label")
            .optional("needsConfirmation")
            .optional("description")
            .end()
        {
            Ok(read) => {
                let ((((), label), needs_confirmation), description) = read;
                Ok(ChangeAnnotation {
                    label,
                    needs_confirmation,
                    description,
                })
            }
            Err(misfit) => Err(misfit),
        }
    }
}

/// The params of `textDocument/rename` (LSP 3.17, "Rename Request"). The result is a `WorkspaceEdit` or null.
#[derive(Drop)]
pub struct RenameParams {
    /// The document.
    pub text_document: TextDocumentIdentifier,
    /// The place of what is renamed.
    pub position: Position,
    /// Its new name.
    pub new_name: String,
    /// The token to report progress with. `None` means that no progress is requested, or that the token does not fit.
    pub work_done_token: Option<ProgressToken>,
}

impl ToJson for RenameParams {
    ghost stands = { λ it. object_of (
        (codes "newName", Some (⟦<String as ToJson>⟧.stands it.new_name))
        ∷ (codes "position", Some (⟦<Position as ToJson>⟧.stands it.position))
        ∷ (codes "textDocument", Some (⟦<TextDocumentIdentifier as ToJson>⟧.stands it.text_document))
        ∷ (codes "workDoneToken", option_map ⟦<ProgressToken as ToJson>⟧.stands it.work_done_token) ∷ []) };

    fn write_json<S: JsonSink>(&self, out: &mut S) -> Result<(), S::Error> {
        out.begin_object()?;
        write_member(out, "newName", &self.new_name)?;
        write_member(out, "position", &self.position)?;
        write_member(out, "textDocument", &self.text_document)?;
        write_some(out, "workDoneToken", &self.work_done_token)?;
        out.end_object()
    }
}

impl FromJson for RenameParams {
    ghost reads = { λ json it. IsObject json
        and Required ⟦<TextDocumentIdentifier as FromJson>⟧.reads (codes "textDocument") json it.text_document
        and Required ⟦<Position as FromJson>⟧.reads (codes "position") json it.position
        and Required ⟦<String as FromJson>⟧.reads (codes "newName") json it.new_name
        and IfFits ⟦<ProgressToken as FromJson>⟧.reads (codes "workDoneToken") json it.work_done_token };

    fn from_json(alloc: Global, value: &JsonRef<'_>) -> Result<RenameParams, Misfit> {
        match Members::new(alloc, value)
            .required("textDocument")
            .required("position")
            .required("newName")
            .if_fits("workDoneToken")
            .end()
        {
            Ok(read) => {
                let (((((), text_document), position), new_name), work_done_token) = read;
                Ok(RenameParams {
                    text_document,
                    position,
                    new_name,
                    work_done_token,
                })
            }
            Err(misfit) => Err(misfit),
        }
    }
}

/// The part that is renamed, and its present name (LSP 3.17, "Prepare Rename Request").
#[derive(Drop)]
pub struct PrepareRenamePlaceholder {
    /// The part that is renamed.
    pub range: Range,
    /// The name that the user may change.
    pub placeholder: String,
}

impl ToJson for PrepareRenamePlaceholder {
    ghost stands = { λ it. object_of (
        (codes "placeholder", Some (⟦<String as ToJson>⟧.stands it.placeholder))
        ∷ (codes "range", Some (⟦<Range as ToJson>⟧.stands it.range)) ∷ []) };

    fn write_json<S: JsonSink>(&self, out: &mut S) -> Result<(), S::Error> {
        out.begin_object()?;
        write_member(out, "placeholder", &self.placeholder)?;
        write_member(out, "range", &self.range)?;
        out.end_object()
    }
}

impl FromJson for PrepareRenamePlaceholder {
    ghost reads = { λ json it. IsObject json
        and Required ⟦<Range as FromJson>⟧.reads (codes "range") json it.range
        and Required ⟦<String as FromJson>⟧.reads (codes "placeholder") json it.placeholder };

    fn from_json(alloc: Global, value: &JsonRef<'_>) -> Result<PrepareRenamePlaceholder, Misfit> {
        match Members::new(alloc, value)
            .required("range")
            .required("placeholder")
            .end()
        {
            Ok(read) => {
                let (((), range), placeholder) = read;
                Ok(PrepareRenamePlaceholder { range, placeholder })
            }
            Err(misfit) => Err(misfit),
        }
    }
}

/// The client finds the part that is renamed (LSP 3.17, "Prepare Rename Request").
#[derive(Clone, Copy, Drop)]
pub struct PrepareRenameDefaultBehavior {
    /// Whether the client uses its default behavior.
    pub default_behavior: bool,
}

impl ToJson for PrepareRenameDefaultBehavior {
    ghost stands = { λ it. object_of (
        (codes "defaultBehavior", Some (⟦<bool as ToJson>⟧.stands it.default_behavior)) ∷ []) };

    fn write_json<S: JsonSink>(&self, out: &mut S) -> Result<(), S::Error> {
        out.begin_object()?;
        write_member(out, "defaultBehavior", &self.default_behavior)?;
        out.end_object()
    }
}

impl FromJson for PrepareRenameDefaultBehavior {
    ghost reads = { λ json it. IsObject json
        and Required ⟦<bool as FromJson>⟧.reads (codes "defaultBehavior") json it.default_behavior };

    fn from_json(
        alloc: Global,
        value: &JsonRef<'_>,
    ) -> Result<PrepareRenameDefaultBehavior, Misfit> {
        match Members::new(alloc, value).required("defaultBehavior").end() {
            Ok(read) => {
                let ((), default_behavior) = read;
                Ok(PrepareRenameDefaultBehavior { default_behavior })
            }
            Err(misfit) => Err(misfit),
        }
    }
}

/// The result of `textDocument/prepareRename`, or null (LSP 3.17, "Prepare Rename Request"). The forms differ in their
/// members.
#[derive(Drop)]
pub enum PrepareRenameResult {
    /// The part that is renamed, and its present name.
    Placeholder(PrepareRenamePlaceholder),
    /// The client finds the part that is renamed, for clients with `prepareSupportDefaultBehavior`.
    Default(PrepareRenameDefaultBehavior),
    /// What is renamed.
    Range(Range),
}

impl ToJson for PrepareRenameResult {
    ghost use Rattle.lsp_types.specs.declared.edits.PrepareRenameResult.TheVariants.{Placeholder, Default, Range};

    ghost stands = { elim [
      | Placeholder it ↦ ⟦<PrepareRenamePlaceholder as ToJson>⟧.stands it
      | Default it ↦ ⟦<PrepareRenameDefaultBehavior as ToJson>⟧.stands it
      | Range it ↦ ⟦<Range as ToJson>⟧.stands it
    ] };

    fn write_json<S: JsonSink>(&self, out: &mut S) -> Result<(), S::Error> {
        match self {
            PrepareRenameResult::Placeholder(it) => it.write_json(out),
            PrepareRenameResult::Default(it) => it.write_json(out),
            PrepareRenameResult::Range(it) => it.write_json(out),
        }
    }
}

impl FromJson for PrepareRenameResult {
    ghost use Rattle.lsp_types.specs.declared.edits.PrepareRenameResult.TheVariants.{Placeholder, Default, Range};

    ghost reads = { λ json. elim [
      | Placeholder it ↦ ⟦<PrepareRenamePlaceholder as FromJson>⟧.reads json it
      | Default it ↦ NoneReads ⟦<PrepareRenamePlaceholder as FromJson>⟧.reads json × ⟦<PrepareRenameDefaultBehavior as FromJson>⟧.reads json it
      | Range it ↦ NoneReads ⟦<PrepareRenamePlaceholder as FromJson>⟧.reads json × NoneReads ⟦<PrepareRenameDefaultBehavior as FromJson>⟧.reads json × ⟦<Range as FromJson>⟧.reads json it
    ] };

    fn from_json(alloc: Global, value: &JsonRef<'_>) -> Result<PrepareRenameResult, Misfit> {
        if let Some(it) = fitting(alloc, value)? {
            return Ok(PrepareRenameResult::Placeholder(it));
        }
        if let Some(it) = fitting(alloc, value)? {
            return Ok(PrepareRenameResult::Default(it));
        }
        match FromJson::from_json(alloc, value) {
            Ok(it) => Ok(PrepareRenameResult::Range(it)),
            Err(misfit) => Err(misfit),
        }
    }
}

/// How a document is to be formatted (LSP 3.17, "FormattingOptions"). Other members are ignored.
#[derive(Clone, Copy, Drop)]
pub struct FormattingOptions {
    /// How many characters a tab is wide.
    pub tab_size: u32,
    /// Whether to write spaces in place of tabs.
    pub insert_spaces: bool,
    /// Whether to remove whitespace at the ends of lines.
    pub trim_trailing_whitespace: Option<bool>,
    /// Whether to end the last line, if it has no end.
    pub insert_final_newline: Option<bool>,
    /// Whether to remove line ends after the last line.
    pub trim_final_newlines: Option<bool>,
}

impl ToJson for FormattingOptions {
    ghost stands = { λ it. object_of (
        (codes "insertFinalNewline", option_map ⟦<bool as ToJson>⟧.stands it.insert_final_newline)
        ∷ (codes "insertSpaces", Some (⟦<bool as ToJson>⟧.stands it.insert_spaces))
        ∷ (codes "tabSize", Some (⟦<u32 as ToJson>⟧.stands it.tab_size))
        ∷ (codes "trimFinalNewlines", option_map ⟦<bool as ToJson>⟧.stands it.trim_final_newlines)
        ∷ (codes "trimTrailingWhitespace", option_map ⟦<bool as ToJson>⟧.stands it.trim_trailing_whitespace) ∷ []) };

    fn write_json<S: JsonSink>(&self, out: &mut S) -> Result<(), S::Error> {
        out.begin_object()?;
        write_some(out, "insertFinalNewline", &self.insert_final_newline)?;
        write_member(out, "insertSpaces", &self.insert_spaces)?;
        write_member(out, "tabSize", &self.tab_size)?;
        write_some(out, "trimFinalNewlines", &self.trim_final_newlines)?;
        write_some(
            out,
            "trimTrailingWhitespace",
            &self.trim_trailing_whitespace,
        )?;
        out.end_object()
    }
}

impl FromJson for FormattingOptions {
    ghost reads = { λ json it. IsObject json
        and Required ⟦<u32 as FromJson>⟧.reads (codes "tabSize") json it.tab_size
        and Required ⟦<bool as FromJson>⟧.reads (codes "insertSpaces") json it.insert_spaces
        and Optional ⟦<bool as FromJson>⟧.reads (codes "trimTrailingWhitespace") json it.trim_trailing_whitespace
        and Optional ⟦<bool as FromJson>⟧.reads (codes "insertFinalNewline") json it.insert_final_newline
        and Optional ⟦<bool as FromJson>⟧.reads (codes "trimFinalNewlines") json it.trim_final_newlines };

    fn from_json(alloc: Global, value: &JsonRef<'_>) -> Result<FormattingOptions, Misfit> {
        match Members::new(alloc, value)
            .required("tabSize")
            .required("insertSpaces")
            .optional("trimTrailingWhitespace")
            .optional("insertFinalNewline")
            .optional("trimFinalNewlines")
            .end()
        {
            Ok(read) => {
                let (read, trim_final_newlines) = read;
                let (read, insert_final_newline) = read;
                let (read, trim_trailing_whitespace) = read;
                let (read, insert_spaces) = read;
                let ((), tab_size) = read;
                Ok(FormattingOptions {
                    tab_size,
                    insert_spaces,
                    trim_trailing_whitespace,
                    insert_final_newline,
                    trim_final_newlines,
                })
            }
            Err(misfit) => Err(misfit),
        }
    }
}

/// The params of `textDocument/formatting` (LSP 3.17, "Document Formatting Request"). The result is a list of
/// `TextEdit` or null.
#[derive(Drop)]
pub struct DocumentFormattingParams {
    /// The document.
    pub text_document: TextDocumentIdentifier,
    /// How to format it.
    pub options: FormattingOptions,
    /// The token to report progress with. `None` means that no progress is requested, or that the token does not fit.
    pub work_done_token: Option<ProgressToken>,
}

impl ToJson for DocumentFormattingParams {
    ghost stands = { λ it. object_of (
        (codes "options", Some (⟦<FormattingOptions as ToJson>⟧.stands it.options))
        ∷ (codes "textDocument", Some (⟦<TextDocumentIdentifier as ToJson>⟧.stands it.text_document))
        ∷ (codes "workDoneToken", option_map ⟦<ProgressToken as ToJson>⟧.stands it.work_done_token) ∷ []) };

    fn write_json<S: JsonSink>(&self, out: &mut S) -> Result<(), S::Error> {
        out.begin_object()?;
        write_member(out, "options", &self.options)?;
        write_member(out, "textDocument", &self.text_document)?;
        write_some(out, "workDoneToken", &self.work_done_token)?;
        out.end_object()
    }
}

impl FromJson for DocumentFormattingParams {
    ghost reads = { λ json it. IsObject json
        and Required ⟦<TextDocumentIdentifier as FromJson>⟧.reads (codes "textDocument") json it.text_document
        and Required ⟦<FormattingOptions as FromJson>⟧.reads (codes "options") json it.options
        and IfFits ⟦<ProgressToken as FromJson>⟧.reads (codes "workDoneToken") json it.work_done_token };

    fn from_json(alloc: Global, value: &JsonRef<'_>) -> Result<DocumentFormattingParams, Misfit> {
        match Members::new(alloc, value)
            .required("textDocument")
            .required("options")
            .if_fits("workDoneToken")
            .end()
        {
            Ok(read) => {
                let ((((), text_document), options), work_done_token) = read;
                Ok(DocumentFormattingParams {
                    text_document,
                    options,
                    work_done_token,
                })
            }
            Err(misfit) => Err(misfit),
        }
    }
}

/// The params of `textDocument/rangeFormatting` (LSP 3.17, "Document Range Formatting Request"). The result is a list
/// of `TextEdit` or null.
#[derive(Drop)]
pub struct DocumentRangeFormattingParams {
    /// The document.
    pub text_document: TextDocumentIdentifier,
    /// The part to format.
    pub range: Range,
    /// How to format it.
    pub options: FormattingOptions,
    /// The token to report progress with. `None` means that no progress is requested, or that the token does not fit.
    pub work_done_token: Option<ProgressToken>,
}

impl ToJson for DocumentRangeFormattingParams {
    ghost stands = { λ it. object_of (
        (codes "options", Some (⟦<FormattingOptions as ToJson>⟧.stands it.options))
        ∷ (codes "range", Some (⟦<Range as ToJson>⟧.stands it.range))
        ∷ (codes "textDocument", Some (⟦<TextDocumentIdentifier as ToJson>⟧.stands it.text_document))
        ∷ (codes "workDoneToken", option_map ⟦<ProgressToken as ToJson>⟧.stands it.work_done_token) ∷ []) };

    fn write_json<S: JsonSink>(&self, out: &mut S) -> Result<(), S::Error> {
        out.begin_object()?;
        write_member(out, "options", &self.options)?;
        write_member(out, "range", &self.range)?;
        write_member(out, "textDocument", &self.text_document)?;
        write_some(out, "workDoneToken", &self.work_done_token)?;
        out.end_object()
    }
}

impl FromJson for DocumentRangeFormattingParams {
    ghost reads = { λ json it. IsObject json
        and Required ⟦<TextDocumentIdentifier as FromJson>⟧.reads (codes "textDocument") json it.text_document
        and Required ⟦<Range as FromJson>⟧.reads (codes "range") json it.range
        and Required ⟦<FormattingOptions as FromJson>⟧.reads (codes "options") json it.options
        and IfFits ⟦<ProgressToken as FromJson>⟧.reads (codes "workDoneToken") json it.work_done_token };

    fn from_json(
        alloc: Global,
        value: &JsonRef<'_>,
    ) -> Result<DocumentRangeFormattingParams, Misfit> {
        match Members::new(alloc, value)
            .required("textDocument")
            .required("range")
            .required("options")
            .if_fits("workDoneToken")
            .end()
        {
            Ok(read) => {
                let (((((), text_document), range), options), work_done_token) = read;
                Ok(DocumentRangeFormattingParams {
                    text_document,
                    range,
                    options,
                    work_done_token,
                })
            }
            Err(misfit) => Err(misfit),
        }
    }
}

/// The params of `textDocument/onTypeFormatting` (LSP 3.17, "Document on Type Formatting Request"). The result is a
/// list of `TextEdit` or null.
#[derive(Drop)]
pub struct DocumentOnTypeFormattingParams {
    /// The document.
    pub text_document: TextDocumentIdentifier,
    /// The place after the typed character.
    pub position: Position,
    /// The character that was typed.
    pub ch: String,
    /// How to format it.
    pub options: FormattingOptions,
}

impl ToJson for DocumentOnTypeFormattingParams {
    ghost stands = { λ it. object_of (
        (codes "ch", Some (⟦<String as ToJson>⟧.stands it.ch))
        ∷ (codes "options", Some (⟦<FormattingOptions as ToJson>⟧.stands it.options))
        ∷ (codes "position", Some (⟦<Position as ToJson>⟧.stands it.position))
        ∷ (codes "textDocument", Some (⟦<TextDocumentIdentifier as ToJson>⟧.stands it.text_document)) ∷ []) };

    fn write_json<S: JsonSink>(&self, out: &mut S) -> Result<(), S::Error> {
        out.begin_object()?;
        write_member(out, "ch", &self.ch)?;
        write_member(out, "options", &self.options)?;
        write_member(out, "position", &self.position)?;
        write_member(out, "textDocument", &self.text_document)?;
        out.end_object()
    }
}

impl FromJson for DocumentOnTypeFormattingParams {
    ghost reads = { λ json it. IsObject json
        and Required ⟦<TextDocumentIdentifier as FromJson>⟧.reads (codes "textDocument") json it.text_document
        and Required ⟦<Position as FromJson>⟧.reads (codes "position") json it.position
        and Required ⟦<String as FromJson>⟧.reads (codes "ch") json it.ch
        and Required ⟦<FormattingOptions as FromJson>⟧.reads (codes "options") json it.options };

    fn from_json(
        alloc: Global,
        value: &JsonRef<'_>,
    ) -> Result<DocumentOnTypeFormattingParams, Misfit> {
        match Members::new(alloc, value)
            .required("textDocument")
            .required("position")
            .required("ch")
            .required("options")
            .end()
        {
            Ok(read) => {
                let (((((), text_document), position), ch), options) = read;
                Ok(DocumentOnTypeFormattingParams {
                    text_document,
                    position,
                    ch,
                    options,
                })
            }
            Err(misfit) => Err(misfit),
        }
    }
}
