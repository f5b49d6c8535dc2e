//! Files that are created, renamed or deleted, and files that are watched.
// `tools/types` wrote this file from `types.txt`: change that.
ghost use Rattle.std.specs.Prelude.{◌∷◌, [], Some, codes, option_map};
ghost use Rattle.lsp_types.specs.Json.{object_of};
ghost use Rattle.lsp_types.specs.Reads.{IsObject, NoneReads, Optional, Required, ◌and◌};

use lsp_json::JsonRef;
use lsp_json_write::JsonSink;
use lsp_types::WorkspaceFolder;
use lsp_types::json::{FromJson, Members, Misfit, ToJson, fitting, write_member, write_some};
use std::alloc::Global;

/// A file or a folder that is created (LSP 3.17, "FileCreate").
#[derive(Drop)]
pub struct FileCreate {
    /// Its URI.
    pub uri: String,
}

impl ToJson for FileCreate {
    ghost stands = { λ it. object_of (
        (codes "uri", Some (⟦<String as ToJson>⟧.stands it.uri)) ∷ []) };

    fn write_json<S: JsonSink>(&self, out: &mut S) -> Result<(), S::Error> {
        out.begin_object()?;
        write_member(out, "uri", &self.uri)?;
        out.end_object()
    }
}

impl FromJson for FileCreate {
    ghost reads = { λ json it. IsObject json
        and Required ⟦<String as FromJson>⟧.reads (codes "uri") json it.uri };

    fn from_json(alloc: Global, value: &JsonRef<'_>) -> Result<FileCreate, Misfit> {
        match Members::new(alloc, value).required("uri").end() {
            Ok(read) => {
                let ((), uri) = read;
                Ok(FileCreate { uri })
            }
            Err(misfit) => Err(misfit),
        }
    }
}

/// The params of `workspace/willCreateFiles` and `didCreateFiles` (LSP 3.17, "WillCreateFiles Request"). The result of
/// the first is a `WorkspaceEdit` or null.
#[derive(Drop)]
pub struct CreateFilesParams {
    /// All that are created.
    pub files: Vec<FileCreate>,
}

impl ToJson for CreateFilesParams {
    ghost stands = { λ it. object_of (
        (codes "files", Some (⟦<Vec<FileCreate> as ToJson>⟧.stands it.files)) ∷ []) };

    fn write_json<S: JsonSink>(&self, out: &mut S) -> Result<(), S::Error> {
        out.begin_object()?;
        write_member(out, "files", &self.files)?;
        out.end_object()
    }
}

impl FromJson for CreateFilesParams {
    ghost reads = { λ json it. IsObject json
        and Required ⟦<Vec<FileCreate> as FromJson>⟧.reads (codes "files") json it.files };

    fn from_json(alloc: Global, value: &JsonRef<'_>) -> Result<CreateFilesParams, Misfit> {
        match Members::new(alloc, value).required("files").end() {
            Ok(read) => {
                let ((), files) = read;
                Ok(CreateFilesParams { files })
            }
            Err(misfit) => Err(misfit),
        }
    }
}

/// A file or a folder that is deleted (LSP 3.17, "FileDelete").
pub type FileDelete = FileCreate;

/// The params of `workspace/willDeleteFiles` and `didDeleteFiles` (LSP 3.17, "WillDeleteFiles Request"). The result of
/// the first is a `WorkspaceEdit` or null.
pub type DeleteFilesParams = CreateFilesParams;

/// A file or a folder that is renamed (LSP 3.17, "FileRename").
#[derive(Drop)]
pub struct FileRename {
    /// Its URI until now.
    pub old_uri: String,
    /// Its URI from now on.
    pub new_uri: String,
}

impl ToJson for FileRename {
    ghost stands = { λ it. object_of (
        (codes "newUri", Some (⟦<String as ToJson>⟧.stands it.new_uri))
        ∷ (codes "oldUri", Some (⟦<String as ToJson>⟧.stands it.old_uri)) ∷ []) };

    fn write_json<S: JsonSink>(&self, out: &mut S) -> Result<(), S::Error> {
        out.begin_object()?;
        write_member(out, "newUri", &self.new_uri)?;
        write_member(out, "oldUri", &self.old_uri)?;
        out.end_object()
    }
}

impl FromJson for FileRename {
    ghost reads = { λ json it. IsObject json
        and Required ⟦<String as FromJson>⟧.reads (codes "oldUri") json it.old_uri
        and Required ⟦<String as FromJson>⟧.reads (codes "newUri") json it.new_uri };

    fn from_json(alloc: Global, value: &JsonRef<'_>) -> Result<FileRename, Misfit> {
        match Members::new(alloc, value)
            .required("oldUri")
            .required("newUri")
            .end()
        {
            Ok(read) => {
                let (((), old_uri), new_uri) = read;
                Ok(FileRename { old_uri, new_uri })
            }
            Err(misfit) => Err(misfit),
        }
    }
}

/// The params of `workspace/willRenameFiles` and `didRenameFiles` (LSP 3.17, "WillRenameFiles Request"). The result of
/// the first is a `WorkspaceEdit` or null.
#[derive(Drop)]
pub struct RenameFilesParams {
    /// All that are renamed.
    pub files: Vec<FileRename>,
}

impl ToJson for RenameFilesParams {
    ghost stands = { λ it. object_of (
        (codes "files", Some (⟦<Vec<FileRename> as ToJson>⟧.stands it.files)) ∷ []) };

    fn write_json<S: JsonSink>(&self, out: &mut S) -> Result<(), S::Error> {
        out.begin_object()?;
        write_member(out, "files", &self.files)?;
        out.end_object()
    }
}

impl FromJson for RenameFilesParams {
    ghost reads = { λ json it. IsObject json
        and Required ⟦<Vec<FileRename> as FromJson>⟧.reads (codes "files") json it.files };

    fn from_json(alloc: Global, value: &JsonRef<'_>) -> Result<RenameFilesParams, Misfit> {
        match Members::new(alloc, value).required("files").end() {
            Ok(read) => {
                let ((), files) = read;
                Ok(RenameFilesParams { files })
            }
            Err(misfit) => Err(misfit),
        }
    }
}

/// How a pattern is compared (LSP 3.17, "FileOperationPatternOptions").
#[derive(Clone, Copy, Drop)]
pub struct FileOperationPatternOptions {
    /// Whether the case of letters is ignored.
    pub ignore_case: Option<bool>,
}

impl Default for FileOperationPatternOptions {
    ghost use Rattle.std.specs.Prelude.{◌≡◌, None};

    /// Makes one in which no member is set.
    fn default() -> FileOperationPatternOptions
        ensures { result ≡ record {
          ignore_case = None;
        } }
    {
        FileOperationPatternOptions { ignore_case: None }
    }
}

impl ToJson for FileOperationPatternOptions {
    ghost stands = { λ it. object_of (
        (codes "ignoreCase", option_map ⟦<bool as ToJson>⟧.stands it.ignore_case) ∷ []) };

    fn write_json<S: JsonSink>(&self, out: &mut S) -> Result<(), S::Error> {
        out.begin_object()?;
        write_some(out, "ignoreCase", &self.ignore_case)?;
        out.end_object()
    }
}

impl FromJson for FileOperationPatternOptions {
    ghost reads = { λ json it. IsObject json
        and Optional ⟦<bool as FromJson>⟧.reads (codes "ignoreCase") json it.ignore_case };

    fn from_json(
        alloc: Global,
        value: &JsonRef<'_>,
    ) -> Result<FileOperationPatternOptions, Misfit> {
        match Members::new(alloc, value).optional("ignoreCase").end() {
            Ok(read) => {
                let ((), ignore_case) = read;
                Ok(FileOperationPatternOptions { ignore_case })
            }
            Err(misfit) => Err(misfit),
        }
    }
}

/// Which files are meant (LSP 3.17, "FileOperationPattern").
#[derive(Drop)]
pub struct FileOperationPattern {
    /// A pattern of paths, such as `**/*.rs`.
    pub glob: String,
    /// `file` or `folder`. `None` means both.
    pub matches: Option<String>,
    /// How it is compared.
    pub options: Option<FileOperationPatternOptions>,
}

impl FileOperationPattern {
    ghost use Rattle.std.specs.Prelude.{◌≡◌, None};

    /// Makes one from the required members. The others are `None`.
    pub fn new(glob: String) -> FileOperationPattern
        ensures { result ≡ record {
          glob = glob;
          matches = None;
          options = None;
        } }
    {
        FileOperationPattern {
            glob,
            matches: None,
            options: None,
        }
    }
}

impl ToJson for FileOperationPattern {
    ghost stands = { λ it. object_of (
        (codes "glob", Some (⟦<String as ToJson>⟧.stands it.glob))
        ∷ (codes "matches", option_map ⟦<String as ToJson>⟧.stands it.matches)
        ∷ (codes "options", option_map ⟦<FileOperationPatternOptions as ToJson>⟧.stands it.options) ∷ []) };

    fn write_json<S: JsonSink>(&self, out: &mut S) -> Result<(), S::Error> {
        out.begin_object()?;
        write_member(out, "glob", &self.glob)?;
        write_some(out, "matches", &self.matches)?;
        write_some(out, "options", &self.options)?;
        out.end_object()
    }
}

impl FromJson for FileOperationPattern {
    ghost reads = { λ json it. IsObject json
        and Required ⟦<String as FromJson>⟧.reads (codes "glob") json it.glob
        and Optional ⟦<String as FromJson>⟧.reads (codes "matches") json it.matches
        and Optional ⟦<FileOperationPatternOptions as FromJson>⟧.reads (codes "options") json it.options };

    fn from_json(alloc: Global, value: &JsonRef<'_>) -> Result<FileOperationPattern, Misfit> {
        match Members::new(alloc, value)
            .required("glob")
            .optional("matches")
            .optional("options")
            .end()
        {
            Ok(read) => {
                let ((((), glob), matches), options) = read;
                Ok(FileOperationPattern {
                    glob,
                    matches,
                    options,
                })
            }
            Err(misfit) => Err(misfit),
        }
    }
}

/// Which files are meant, by their URIs (LSP 3.17, "FileOperationFilter").
#[derive(Drop)]
pub struct FileOperationFilter {
    /// The scheme, such as `file`. `None` means any.
    pub scheme: Option<String>,
    /// Which paths.
    pub pattern: FileOperationPattern,
}

impl FileOperationFilter {
    ghost use Rattle.std.specs.Prelude.{◌≡◌, None};

    /// Makes one from the required members. The others are `None`.
    pub fn new(pattern: FileOperationPattern) -> FileOperationFilter
        ensures { result ≡ record {
          scheme = None;
          pattern = pattern;
        } }
    {
        FileOperationFilter {
            scheme: None,
            pattern,
        }
    }
}

impl ToJson for FileOperationFilter {
    ghost stands = { λ it. object_of (
        (codes "pattern", Some (⟦<FileOperationPattern as ToJson>⟧.stands it.pattern))
        ∷ (codes "scheme", option_map ⟦<String as ToJson>⟧.stands it.scheme) ∷ []) };

    fn write_json<S: JsonSink>(&self, out: &mut S) -> Result<(), S::Error> {
        out.begin_object()?;
        write_member(out, "pattern", &self.pattern)?;
        write_some(out, "scheme", &self.scheme)?;
        out.end_object()
    }
}

impl FromJson for FileOperationFilter {
    ghost reads = { λ json it. IsObject json
        and Optional ⟦<String as FromJson>⟧.reads (codes "scheme") json it.scheme
        and Required ⟦<FileOperationPattern as FromJson>⟧.reads (codes "pattern") json it.pattern };

    fn from_json(alloc: Global, value: &JsonRef<'_>) -> Result<FileOperationFilter, Misfit> {
        match Members::new(alloc, value)
            .optional("scheme")
            .required("pattern")
            .end()
        {
            Ok(read) => {
                let (((), scheme), pattern) = read;
                Ok(FileOperationFilter { scheme, pattern })
            }
            Err(misfit) => Err(misfit),
        }
    }
}

/// The files for which a server wants notifications and requests (LSP 3.17, "FileOperationRegistrationOptions").
#[derive(Drop)]
pub struct FileOperationRegistrationOptions {
    /// Those that fit one of these.
    pub filters: Vec<FileOperationFilter>,
}

impl ToJson for FileOperationRegistrationOptions {
    ghost stands = { λ it. object_of (
        (codes "filters", Some (⟦<Vec<FileOperationFilter> as ToJson>⟧.stands it.filters)) ∷ []) };

    fn write_json<S: JsonSink>(&self, out: &mut S) -> Result<(), S::Error> {
        out.begin_object()?;
        write_member(out, "filters", &self.filters)?;
        out.end_object()
    }
}

impl FromJson for FileOperationRegistrationOptions {
    ghost reads = { λ json it. IsObject json
        and Required ⟦<Vec<FileOperationFilter> as FromJson>⟧.reads (codes "filters") json it.filters };

    fn from_json(
        alloc: Global,
        value: &JsonRef<'_>,
    ) -> Result<FileOperationRegistrationOptions, Misfit> {
        match Members::new(alloc, value).required("filters").end() {
            Ok(read) => {
                let ((), filters) = read;
                Ok(FileOperationRegistrationOptions { filters })
            }
            Err(misfit) => Err(misfit),
        }
    }
}

/// For which files a server wants notifications and requests, and when: the value of
/// `WorkspaceOptions::file_operations` (LSP 3.17, "ServerCapabilities").
#[derive(Drop)]
pub struct FileOperationOptions {
    /// `workspace/didCreateFiles`.
    pub did_create: Option<FileOperationRegistrationOptions>,
    /// `workspace/willCreateFiles`.
    pub will_create: Option<FileOperationRegistrationOptions>,
    /// `workspace/didRenameFiles`.
    pub did_rename: Option<FileOperationRegistrationOptions>,
    /// `workspace/willRenameFiles`.
    pub will_rename: Option<FileOperationRegistrationOptions>,
    /// `workspace/didDeleteFiles`.
    pub did_delete: Option<FileOperationRegistrationOptions>,
    /// `workspace/willDeleteFiles`.
    pub will_delete: Option<FileOperationRegistrationOptions>,
}

impl Default for FileOperationOptions {
    ghost use Rattle.std.specs.Prelude.{◌≡◌, None};

    /// Makes one in which no member is set.
    fn default() -> FileOperationOptions
        ensures { result ≡ record {
          did_create = None;
          will_create = None;
          did_rename = None;
          will_rename = None;
          did_delete = None;
          will_delete = None;
        } }
    {
        FileOperationOptions {
            did_create: None,
            will_create: None,
            did_rename: None,
            will_rename: None,
            did_delete: None,
            will_delete: None,
        }
    }
}

impl ToJson for FileOperationOptions {
    ghost stands = { λ it. object_of (
        (codes "didCreate", option_map ⟦<FileOperationRegistrationOptions as ToJson>⟧.stands it.did_create)
        ∷ (codes "didDelete", option_map ⟦<FileOperationRegistrationOptions as ToJson>⟧.stands it.did_delete)
        ∷ (codes "didRename", option_map ⟦<FileOperationRegistrationOptions as ToJson>⟧.stands it.did_rename)
        ∷ (codes "willCreate", option_map ⟦<FileOperationRegistrationOptions as ToJson>⟧.stands it.will_create)
        ∷ (codes "willDelete", option_map ⟦<FileOperationRegistrationOptions as ToJson>⟧.stands it.will_delete)
        ∷ (codes "willRename", option_map ⟦<FileOperationRegistrationOptions as ToJson>⟧.stands it.will_rename) ∷ []) };

    fn write_json<S: JsonSink>(&self, out: &mut S) -> Result<(), S::Error> {
        out.begin_object()?;
        write_some(out, "didCreate", &self.did_create)?;
        write_some(out, "didDelete", &self.did_delete)?;
        write_some(out, "didRename", &self.did_rename)?;
        write_some(out, "willCreate", &self.will_create)?;
        write_some(out, "willDelete", &self.will_delete)?;
        write_some(out, "willRename", &self.will_rename)?;
        out.end_object()
    }
}

impl FromJson for FileOperationOptions {
    ghost reads = { λ json it. IsObject json
        and Optional ⟦<FileOperationRegistrationOptions as FromJson>⟧.reads (codes "didCreate") json it.did_create
        and Optional ⟦<FileOperationRegistrationOptions as FromJson>⟧.reads (codes "willCreate") json it.will_create
        and Optional ⟦<FileOperationRegistrationOptions as FromJson>⟧.reads (codes "didRename") json it.did_rename
        and Optional ⟦<FileOperationRegistrationOptions as FromJson>⟧.reads (codes "willRename") json it.will_rename
        and Optional ⟦<FileOperationRegistrationOptions as FromJson>⟧.reads (codes "didDelete") json it.did_delete
        and Optional ⟦<FileOperationRegistrationOptions as FromJson>⟧.reads (codes "willDelete") json it.will_delete };

    fn from_json(alloc: Global, value: &JsonRef<'_>) -> Result<FileOperationOptions, Misfit> {
        match Members::new(alloc, value)
            .optional("didCreate")
            .optional("willCreate")
            .optional("didRename")
            .optional("willRename")
            .optional("didDelete")
            .optional("willDelete")
            .end()
        {
            Ok(read) => {
                let (read, will_delete) = read;
                let (read, did_delete) = read;
                let (read, will_rename) = read;
                let (read, did_rename) = read;
                let (read, will_create) = read;
                let ((), did_create) = read;
                Ok(FileOperationOptions {
                    did_create,
                    will_create,
                    did_rename,
                    will_rename,
                    did_delete,
                    will_delete,
                })
            }
            Err(misfit) => Err(misfit),
        }
    }
}

/// A folder: a string, or an object (LSP 3.17, "RelativePattern").
#[derive(Drop)]
pub enum BaseUri {
    /// Its URI.
    Uri(String),
    /// One that is open in the client.
    Folder(WorkspaceFolder),
}

impl ToJson for BaseUri {
    ghost use Rattle.lsp_types_workspace.specs.declared.files.BaseUri.TheVariants.{Uri, Folder};

    ghost stands = { elim [
      | Uri it ↦ ⟦<String as ToJson>⟧.stands it
      | Folder it ↦ ⟦<WorkspaceFolder as ToJson>⟧.stands it
    ] };

    fn write_json<S: JsonSink>(&self, out: &mut S) -> Result<(), S::Error> {
        match self {
            BaseUri::Uri(it) => it.write_json(out),
            BaseUri::Folder(it) => it.write_json(out),
        }
    }
}

impl FromJson for BaseUri {
    ghost use Rattle.lsp_types_workspace.specs.declared.files.BaseUri.TheVariants.{Uri, Folder};

    ghost reads = { λ json. elim [
      | Uri it ↦ ⟦<String as FromJson>⟧.reads json it
      | Folder it ↦ NoneReads ⟦<String as FromJson>⟧.reads json × ⟦<WorkspaceFolder as FromJson>⟧.reads json it
    ] };

    fn from_json(alloc: Global, value: &JsonRef<'_>) -> Result<BaseUri, Misfit> {
        if let Some(it) = fitting(alloc, value)? {
            return Ok(BaseUri::Uri(it));
        }
        match FromJson::from_json(alloc, value) {
            Ok(it) => Ok(BaseUri::Folder(it)),
            Err(misfit) => Err(misfit),
        }
    }
}

/// A pattern of paths below a folder (LSP 3.17, "RelativePattern").
#[derive(Drop)]
pub struct RelativePattern {
    /// The folder.
    pub base_uri: BaseUri,
    /// The pattern.
    pub pattern: String,
}

impl ToJson for RelativePattern {
    ghost stands = { λ it. object_of (
        (codes "baseUri", Some (⟦<BaseUri as ToJson>⟧.stands it.base_uri))
        ∷ (codes "pattern", Some (⟦<String as ToJson>⟧.stands it.pattern)) ∷ []) };

    fn write_json<S: JsonSink>(&self, out: &mut S) -> Result<(), S::Error> {
        out.begin_object()?;
        write_member(out, "baseUri", &self.base_uri)?;
        write_member(out, "pattern", &self.pattern)?;
        out.end_object()
    }
}

impl FromJson for RelativePattern {
    ghost reads = { λ json it. IsObject json
        and Required ⟦<BaseUri as FromJson>⟧.reads (codes "baseUri") json it.base_uri
        and Required ⟦<String as FromJson>⟧.reads (codes "pattern") json it.pattern };

    fn from_json(alloc: Global, value: &JsonRef<'_>) -> Result<RelativePattern, Misfit> {
        match Members::new(alloc, value)
            .required("baseUri")
            .required("pattern")
            .end()
        {
            Ok(read) => {
                let (((), base_uri), pattern) = read;
                Ok(RelativePattern { base_uri, pattern })
            }
            Err(misfit) => Err(misfit),
        }
    }
}

/// Which paths are meant (LSP 3.17, "GlobPattern").
#[derive(Drop)]
pub enum GlobPattern {
    /// A pattern, such as `**/*.rs`.
    Pattern(String),
    /// One below a folder, for clients with `relativePatternSupport`.
    Relative(RelativePattern),
}

impl ToJson for GlobPattern {
    ghost use Rattle.lsp_types_workspace.specs.declared.files.GlobPattern.TheVariants.{Pattern, Relative};

    ghost stands = { elim [
      | Pattern it ↦ ⟦<String as ToJson>⟧.stands it
      | Relative it ↦ ⟦<RelativePattern as ToJson>⟧.stands it
    ] };

    fn write_json<S: JsonSink>(&self, out: &mut S) -> Result<(), S::Error> {
        match self {
            GlobPattern::Pattern(it) => it.write_json(out),
            GlobPattern::Relative(it) => it.write_json(out),
        }
    }
}

impl FromJson for GlobPattern {
    ghost use Rattle.lsp_types_workspace.specs.declared.files.GlobPattern.TheVariants.{Pattern, Relative};

    ghost reads = { λ json. elim [
      | Pattern it ↦ ⟦<String as FromJson>⟧.reads json it
      | Relative it ↦ NoneReads ⟦<String as FromJson>⟧.reads json × ⟦<RelativePattern as FromJson>⟧.reads json it
    ] };

    fn from_json(alloc: Global, value: &JsonRef<'_>) -> Result<GlobPattern, Misfit> {
        if let Some(it) = fitting(alloc, value)? {
            return Ok(GlobPattern::Pattern(it));
        }
        match FromJson::from_json(alloc, value) {
            Ok(it) => Ok(GlobPattern::Relative(it)),
            Err(misfit) => Err(misfit),
        }
    }
}

/// Files that a client is to watch (LSP 3.17, "FileSystemWatcher").
#[derive(Drop)]
pub struct FileSystemWatcher {
    /// Which.
    pub glob_pattern: GlobPattern,
    /// Which events are sent: the sum of 1 for created files, 2 for changed ones and 4 for deleted ones. `None` means
    /// all three.
    pub kind: Option<u32>,
}

impl ToJson for FileSystemWatcher {
    ghost stands = { λ it. object_of (
        (codes "globPattern", Some (⟦<GlobPattern as ToJson>⟧.stands it.glob_pattern))
        ∷ (codes "kind", option_map ⟦<u32 as ToJson>⟧.stands it.kind) ∷ []) };

    fn write_json<S: JsonSink>(&self, out: &mut S) -> Result<(), S::Error> {
        out.begin_object()?;
        write_member(out, "globPattern", &self.glob_pattern)?;
        write_some(out, "kind", &self.kind)?;
        out.end_object()
    }
}

impl FromJson for FileSystemWatcher {
    ghost reads = { λ json it. IsObject json
        and Required ⟦<GlobPattern as FromJson>⟧.reads (codes "globPattern") json it.glob_pattern
        and Optional ⟦<u32 as FromJson>⟧.reads (codes "kind") json it.kind };

    fn from_json(alloc: Global, value: &JsonRef<'_>) -> Result<FileSystemWatcher, Misfit> {
        match Members::new(alloc, value)
            .required("globPattern")
            .optional("kind")
            .end()
        {
            Ok(read) => {
                let (((), glob_pattern), kind) = read;
                Ok(FileSystemWatcher { glob_pattern, kind })
            }
            Err(misfit) => Err(misfit),
        }
    }
}

/// The options of `workspace/didChangeWatchedFiles`, for `Registration::register_options` (LSP 3.17,
/// "DidChangeWatchedFilesRegistrationOptions").
#[derive(Drop)]
pub struct DidChangeWatchedFilesRegistrationOptions {
    /// The files.
    pub watchers: Vec<FileSystemWatcher>,
}

impl ToJson for DidChangeWatchedFilesRegistrationOptions {
    ghost stands = { λ it. object_of (
        (codes "watchers", Some (⟦<Vec<FileSystemWatcher> as ToJson>⟧.stands it.watchers)) ∷ []) };

    fn write_json<S: JsonSink>(&self, out: &mut S) -> Result<(), S::Error> {
        out.begin_object()?;
        write_member(out, "watchers", &self.watchers)?;
        out.end_object()
    }
}

impl FromJson for DidChangeWatchedFilesRegistrationOptions {
    ghost reads = { λ json it. IsObject json
        and Required ⟦<Vec<FileSystemWatcher> as FromJson>⟧.reads (codes "watchers") json it.watchers };

    fn from_json(
        alloc: Global,
        value: &JsonRef<'_>,
    ) -> Result<DidChangeWatchedFilesRegistrationOptions, Misfit> {
        match Members::new(alloc, value).required("watchers").end() {
            Ok(read) => {
                let ((), watchers) = read;
                Ok(DidChangeWatchedFilesRegistrationOptions { watchers })
            }
            Err(misfit) => Err(misfit),
        }
    }
}
