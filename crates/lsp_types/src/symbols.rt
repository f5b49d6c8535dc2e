//! Symbols of a document and of a workspace.
// `tools/types` wrote this file from `types.txt`: change that.
ghost use Rattle.std.specs.Prelude.{◌∷◌, [], Some, codes, option_map};
ghost use Rattle.serde_json.specs.Data.{number, unsigned};
ghost use Rattle.serde_json.specs.View.{view};
ghost use Rattle.lsp_types.specs.Json.{object_of, object_with};
ghost use Rattle.lsp_types.specs.Reads.{Beside, IfFits, IsObject, IsWithin, NoneReads, Optional, Required, ◌and◌};

use crate::documents::{Location, TextDocumentIdentifier};
use crate::json::{
    FromJson, KnownMembers, Members, Misfit, ToJson, fitting, number_within, write_member,
    write_some, write_with,
};
use crate::progress::ProgressToken;
use lsp_json::JsonRef;
use lsp_json_write::JsonSink;
use lsp_text::Range;
use serde_json::Value;
use std::alloc::Global;

/// What a symbol is (LSP 3.17, "SymbolKind"). On reading, another number is refused.
#[derive(Clone, Copy, Drop)]
pub struct SymbolKind(pub u32);

impl SymbolKind {
    /// A file.
    pub const FILE: SymbolKind = SymbolKind(1);
    /// A module.
    pub const MODULE: SymbolKind = SymbolKind(2);
    /// A namespace.
    pub const NAMESPACE: SymbolKind = SymbolKind(3);
    /// A package.
    pub const PACKAGE: SymbolKind = SymbolKind(4);
    /// A class.
    pub const CLASS: SymbolKind = SymbolKind(5);
    /// A method.
    pub const METHOD: SymbolKind = SymbolKind(6);
    /// A property.
    pub const PROPERTY: SymbolKind = SymbolKind(7);
    /// A field.
    pub const FIELD: SymbolKind = SymbolKind(8);
    /// A constructor.
    pub const CONSTRUCTOR: SymbolKind = SymbolKind(9);
    /// An enumeration.
    pub const ENUM: SymbolKind = SymbolKind(10);
    /// An interface.
    pub const INTERFACE: SymbolKind = SymbolKind(11);
    /// A function.
    pub const FUNCTION: SymbolKind = SymbolKind(12);
    /// A variable.
    pub const VARIABLE: SymbolKind = SymbolKind(13);
    /// A constant.
    pub const CONSTANT: SymbolKind = SymbolKind(14);
    /// A string.
    pub const STRING: SymbolKind = SymbolKind(15);
    /// A number.
    pub const NUMBER: SymbolKind = SymbolKind(16);
    /// A boolean.
    pub const BOOLEAN: SymbolKind = SymbolKind(17);
    /// An array.
    pub const ARRAY: SymbolKind = SymbolKind(18);
    /// An object.
    pub const OBJECT: SymbolKind = SymbolKind(19);
    /// A key.
    pub const KEY: SymbolKind = SymbolKind(20);
    /// Null.
    pub const NULL: SymbolKind = SymbolKind(21);
    /// A member of an enumeration.
    pub const ENUM_MEMBER: SymbolKind = SymbolKind(22);
    /// A struct.
    pub const STRUCT: SymbolKind = SymbolKind(23);
    /// An event.
    pub const EVENT: SymbolKind = SymbolKind(24);
    /// An operator.
    pub const OPERATOR: SymbolKind = SymbolKind(25);
    /// A type parameter.
    pub const TYPE_PARAMETER: SymbolKind = SymbolKind(26);
}

impl ToJson for SymbolKind {
    ghost stands = { λ it. number (unsigned it.0) };

    fn write_json<S: JsonSink>(&self, out: &mut S) -> Result<(), S::Error> {
        self.0.write_json(out)
    }
}

impl FromJson for SymbolKind {
    ghost reads = { λ json it. IsWithin 1 26 json it.0 };

    fn from_json(alloc: Global, value: &JsonRef<'_>) -> Result<SymbolKind, Misfit> {
        match number_within(alloc, value, 1, 26) {
            Ok(number) => Ok(SymbolKind(number)),
            Err(misfit) => Err(misfit),
        }
    }
}

/// How a client may show a symbol (LSP 3.17, "SymbolTag"). On reading, another number is refused.
#[derive(Clone, Copy, Drop)]
pub struct SymbolTag(pub u32);

impl SymbolTag {
    /// Struck through: deprecated code.
    pub const DEPRECATED: SymbolTag = SymbolTag(1);
}

impl ToJson for SymbolTag {
    ghost stands = { λ it. number (unsigned it.0) };

    fn write_json<S: JsonSink>(&self, out: &mut S) -> Result<(), S::Error> {
        self.0.write_json(out)
    }
}

impl FromJson for SymbolTag {
    ghost reads = { λ json it. IsWithin 1 1 json it.0 };

    fn from_json(alloc: Global, value: &JsonRef<'_>) -> Result<SymbolTag, Misfit> {
        match number_within(alloc, value, 1, 1) {
            Ok(number) => Ok(SymbolTag(number)),
            Err(misfit) => Err(misfit),
        }
    }
}

/// A symbol of a document, with those inside it (LSP 3.17, "DocumentSymbol"). When read, they nest at most 128 levels;
/// a message has room for half as many.
#[derive(Drop)]
pub struct DocumentSymbol {
    /// Its name.
    pub name: String,
    /// More about it, such as its type.
    pub detail: Option<String>,
    /// What it is.
    pub kind: SymbolKind,
    /// How it may be shown.
    pub tags: Option<Vec<SymbolTag>>,
    /// Whether it is deprecated. `tags` has replaced it.
    pub deprecated: Option<bool>,
    /// All of it.
    pub range: Range,
    /// The part to select, such as its name. It is within `range`.
    pub selection_range: Range,
    /// Those inside it. When read, there are none if they are missing.
    pub children: Vec<DocumentSymbol>,
}

impl DocumentSymbol {
    ghost use Rattle.std.specs.Prelude.{◌≡◌, None};
    ghost use Rattle.lsp_types.specs.declared.symbols.DocumentSymbol.{out-DocumentSymbol};

    /// Makes a symbol from its name, its kind, its place, and those inside it.
    pub fn new(
        name: String,
        kind: SymbolKind,
        range: Range,
        selection_range: Range,
        children: Vec<DocumentSymbol>,
    ) -> DocumentSymbol
        ensures { out-DocumentSymbol result ≡ record {
          name = name;
          detail = None;
          kind = kind;
          tags = None;
          deprecated = None;
          range = range;
          selection_range = selection_range;
          children = children;
        } }
    {
        DocumentSymbol {
            name,
            detail: None,
            kind,
            tags: None,
            deprecated: None,
            range,
            selection_range,
            children,
        }
    }
}

/// A symbol, and where it is (LSP 3.17, "Document Symbols Request").
#[derive(Drop)]
pub struct SymbolInformation {
    /// Its name.
    pub name: String,
    /// What it is.
    pub kind: SymbolKind,
    /// How it may be shown.
    pub tags: Option<Vec<SymbolTag>>,
    /// Whether it is deprecated. `tags` has replaced it.
    pub deprecated: Option<bool>,
    /// Where it is.
    pub location: Location,
    /// What contains it, for people.
    pub container_name: Option<String>,
}

impl SymbolInformation {
    ghost use Rattle.std.specs.Prelude.{◌≡◌, None};

    /// Makes one from the required members. The others are `None`.
    pub fn new(name: String, kind: SymbolKind, location: Location) -> SymbolInformation
        ensures { result ≡ record {
          name = name;
          kind = kind;
          tags = None;
          deprecated = None;
          location = location;
          container_name = None;
        } }
    {
        SymbolInformation {
            name,
            kind,
            tags: None,
            deprecated: None,
            location,
            container_name: None,
        }
    }
}

impl ToJson for SymbolInformation {
    ghost stands = { λ it. object_of (
        (codes "containerName", option_map ⟦<String as ToJson>⟧.stands it.container_name)
        ∷ (codes "deprecated", option_map ⟦<bool as ToJson>⟧.stands it.deprecated)
        ∷ (codes "kind", Some (⟦<SymbolKind as ToJson>⟧.stands it.kind))
        ∷ (codes "location", Some (⟦<Location as ToJson>⟧.stands it.location))
        ∷ (codes "name", Some (⟦<String as ToJson>⟧.stands it.name))
        ∷ (codes "tags", option_map ⟦<Vec<SymbolTag> as ToJson>⟧.stands it.tags) ∷ []) };

    fn write_json<S: JsonSink>(&self, out: &mut S) -> Result<(), S::Error> {
        out.begin_object()?;
        write_some(out, "containerName", &self.container_name)?;
        write_some(out, "deprecated", &self.deprecated)?;
        write_member(out, "kind", &self.kind)?;
        write_member(out, "location", &self.location)?;
        write_member(out, "name", &self.name)?;
        write_some(out, "tags", &self.tags)?;
        out.end_object()
    }
}

impl FromJson for SymbolInformation {
    ghost reads = { λ json it. IsObject json
        and Required ⟦<String as FromJson>⟧.reads (codes "name") json it.name
        and Required ⟦<SymbolKind as FromJson>⟧.reads (codes "kind") json it.kind
        and Optional ⟦<Vec<SymbolTag> as FromJson>⟧.reads (codes "tags") json it.tags
        and Optional ⟦<bool as FromJson>⟧.reads (codes "deprecated") json it.deprecated
        and Required ⟦<Location as FromJson>⟧.reads (codes "location") json it.location
        and Optional ⟦<String as FromJson>⟧.reads (codes "containerName") json it.container_name };

    fn from_json(alloc: Global, value: &JsonRef<'_>) -> Result<SymbolInformation, Misfit> {
        match Members::new(alloc, value)
            .required("name")
            .required("kind")
            .optional("tags")
            .optional("deprecated")
            .required("location")
            .optional("containerName")
            .end()
        {
            Ok(read) => {
                let (((((((), name), kind), tags), deprecated), location), container_name) = read;
                Ok(SymbolInformation {
                    name,
                    kind,
                    tags,
                    deprecated,
                    location,
                    container_name,
                })
            }
            Err(misfit) => Err(misfit),
        }
    }
}

/// The result of `textDocument/documentSymbol`, or null (LSP 3.17, "Document Symbols Request"). Symbols with a member
/// `location` are the second form.
#[derive(Drop)]
pub enum DocumentSymbolResult {
    /// Symbols with those inside them, for clients with `hierarchicalDocumentSymbolSupport`.
    Symbols(Vec<DocumentSymbol>),
    /// Symbols side by side.
    Information(Vec<SymbolInformation>),
}

impl ToJson for DocumentSymbolResult {
    ghost use Rattle.lsp_types.specs.declared.symbols.DocumentSymbolResult.TheVariants.{Symbols, Information};

    ghost stands = { elim [
      | Symbols it ↦ ⟦<Vec<DocumentSymbol> as ToJson>⟧.stands it
      | Information it ↦ ⟦<Vec<SymbolInformation> as ToJson>⟧.stands it
    ] };

    fn write_json<S: JsonSink>(&self, out: &mut S) -> Result<(), S::Error> {
        match self {
            DocumentSymbolResult::Symbols(it) => it.write_json(out),
            DocumentSymbolResult::Information(it) => it.write_json(out),
        }
    }
}

impl FromJson for DocumentSymbolResult {
    ghost use Rattle.lsp_types.specs.declared.symbols.DocumentSymbolResult.TheVariants.{Symbols, Information};

    ghost reads = { λ json. elim [
      | Symbols it ↦ ⟦<Vec<DocumentSymbol> as FromJson>⟧.reads json it
      | Information it ↦ NoneReads ⟦<Vec<DocumentSymbol> as FromJson>⟧.reads json × ⟦<Vec<SymbolInformation> as FromJson>⟧.reads json it
    ] };

    fn from_json(alloc: Global, value: &JsonRef<'_>) -> Result<DocumentSymbolResult, Misfit> {
        if let Some(it) = fitting(alloc, value)? {
            return Ok(DocumentSymbolResult::Symbols(it));
        }
        match FromJson::from_json(alloc, value) {
            Ok(it) => Ok(DocumentSymbolResult::Information(it)),
            Err(misfit) => Err(misfit),
        }
    }
}

/// The params of `workspace/symbol` (LSP 3.17, "Workspace Symbols Request"). The result is a list of `WorkspaceSymbol`
/// or null.
#[derive(Drop)]
pub struct WorkspaceSymbolParams {
    /// What the user typed. The empty text requests all symbols.
    pub query: String,
    /// The token to report progress with. `None` means that no progress is requested, or that the token does not fit.
    pub work_done_token: Option<ProgressToken>,
    /// The token to send parts of the result with. `None` means that no parts are requested, or that the token does not
    /// fit.
    pub partial_result_token: Option<ProgressToken>,
}

impl ToJson for WorkspaceSymbolParams {
    ghost stands = { λ it. object_of (
        (codes "partialResultToken", option_map ⟦<ProgressToken as ToJson>⟧.stands it.partial_result_token)
        ∷ (codes "query", Some (⟦<String as ToJson>⟧.stands it.query))
        ∷ (codes "workDoneToken", option_map ⟦<ProgressToken as ToJson>⟧.stands it.work_done_token) ∷ []) };

    fn write_json<S: JsonSink>(&self, out: &mut S) -> Result<(), S::Error> {
        out.begin_object()?;
        write_some(out, "partialResultToken", &self.partial_result_token)?;
        write_member(out, "query", &self.query)?;
        write_some(out, "workDoneToken", &self.work_done_token)?;
        out.end_object()
    }
}

impl FromJson for WorkspaceSymbolParams {
    ghost reads = { λ json it. IsObject json
        and Required ⟦<String as FromJson>⟧.reads (codes "query") json it.query
        and IfFits ⟦<ProgressToken as FromJson>⟧.reads (codes "workDoneToken") json it.work_done_token
        and IfFits ⟦<ProgressToken as FromJson>⟧.reads (codes "partialResultToken") json it.partial_result_token };

    fn from_json(alloc: Global, value: &JsonRef<'_>) -> Result<WorkspaceSymbolParams, Misfit> {
        match Members::new(alloc, value)
            .required("query")
            .if_fits("workDoneToken")
            .if_fits("partialResultToken")
            .end()
        {
            Ok(read) => {
                let ((((), query), work_done_token), partial_result_token) = read;
                Ok(WorkspaceSymbolParams {
                    query,
                    work_done_token,
                    partial_result_token,
                })
            }
            Err(misfit) => Err(misfit),
        }
    }
}

/// Where a symbol of a workspace is (LSP 3.17, "Workspace Symbols Request"). One with a member `range` is the first.
#[derive(Drop)]
pub enum WorkspaceSymbolLocation {
    /// The place.
    Place(Location),
    /// Its document without the place, for clients with `resolveSupport`: `workspaceSymbol/resolve` returns the place.
    Document(TextDocumentIdentifier),
}

impl ToJson for WorkspaceSymbolLocation {
    ghost use Rattle.lsp_types.specs.declared.symbols.WorkspaceSymbolLocation.TheVariants.{Place, Document};

    ghost stands = { elim [
      | Place it ↦ ⟦<Location as ToJson>⟧.stands it
      | Document it ↦ ⟦<TextDocumentIdentifier as ToJson>⟧.stands it
    ] };

    fn write_json<S: JsonSink>(&self, out: &mut S) -> Result<(), S::Error> {
        match self {
            WorkspaceSymbolLocation::Place(it) => it.write_json(out),
            WorkspaceSymbolLocation::Document(it) => it.write_json(out),
        }
    }
}

impl FromJson for WorkspaceSymbolLocation {
    ghost use Rattle.lsp_types.specs.declared.symbols.WorkspaceSymbolLocation.TheVariants.{Place, Document};

    ghost reads = { λ json. elim [
      | Place it ↦ ⟦<Location as FromJson>⟧.reads json it
      | Document it ↦ NoneReads ⟦<Location as FromJson>⟧.reads json × ⟦<TextDocumentIdentifier as FromJson>⟧.reads json it
    ] };

    fn from_json(alloc: Global, value: &JsonRef<'_>) -> Result<WorkspaceSymbolLocation, Misfit> {
        if let Some(it) = fitting(alloc, value)? {
            return Ok(WorkspaceSymbolLocation::Place(it));
        }
        match FromJson::from_json(alloc, value) {
            Ok(it) => Ok(WorkspaceSymbolLocation::Document(it)),
            Err(misfit) => Err(misfit),
        }
    }
}

/// A symbol of a workspace (LSP 3.17, "Workspace Symbols Request"). The result of `workspace/symbol` is a list of
/// these. It also has the members of the older `SymbolInformation`, so that lists of those are read too. It is also the
/// params and the result of `workspaceSymbol/resolve`.
#[derive(Drop)]
pub struct WorkspaceSymbol {
    /// Its name.
    pub name: String,
    /// What it is.
    pub kind: SymbolKind,
    /// How it may be shown.
    pub tags: Option<Vec<SymbolTag>>,
    /// Whether it is deprecated. Only a `SymbolInformation` has it. `tags` has replaced it.
    pub deprecated: Option<bool>,
    /// What contains it, for people.
    pub container_name: Option<String>,
    /// Where it is.
    pub location: WorkspaceSymbolLocation,
    /// The client returns this value in `workspaceSymbol/resolve`.
    pub data: Option<Value>,
    /// An object with members that LSP 3.17 does not name, for example those of a newer client or server. They are
    /// written beside the members above. When read, it is `None` if there are none. If a field above has the same name,
    /// the member here counts.
    pub more: Option<Value>,
}

impl WorkspaceSymbol {
    ghost use Rattle.std.specs.Prelude.{◌≡◌, None};
    ghost use Rattle.lsp_types.specs.declared.symbols.WorkspaceSymbolLocation.TheVariants.{Place};

    /// Makes a symbol with its place. The other members are `None`.
    pub fn new(name: String, kind: SymbolKind, location: Location) -> WorkspaceSymbol
        ensures { result ≡ record {
          name = name;
          kind = kind;
          tags = None;
          deprecated = None;
          container_name = None;
          location = Place location;
          «data» = None;
          more = None;
        } }
    {
        WorkspaceSymbol {
            name,
            kind,
            tags: None,
            deprecated: None,
            container_name: None,
            location: WorkspaceSymbolLocation::Place(location),
            data: None,
            more: None,
        }
    }
}

impl KnownMembers for WorkspaceSymbol {
    ghost known = { λ it. (codes "containerName", option_map ⟦<String as ToJson>⟧.stands it.container_name)
        ∷ (codes "data", option_map ⟦<Value as ToJson>⟧.stands it.«data»)
        ∷ (codes "deprecated", option_map ⟦<bool as ToJson>⟧.stands it.deprecated)
        ∷ (codes "kind", Some (⟦<SymbolKind as ToJson>⟧.stands it.kind))
        ∷ (codes "location", Some (⟦<WorkspaceSymbolLocation as ToJson>⟧.stands it.location))
        ∷ (codes "name", Some (⟦<String as ToJson>⟧.stands it.name))
        ∷ (codes "tags", option_map ⟦<Vec<SymbolTag> as ToJson>⟧.stands it.tags) ∷ [] };

    fn write_known<S: JsonSink>(&self, out: &mut S) -> Result<(), S::Error> {
        out.begin_object()?;
        write_some(out, "containerName", &self.container_name)?;
        write_some(out, "data", &self.data)?;
        write_some(out, "deprecated", &self.deprecated)?;
        write_member(out, "kind", &self.kind)?;
        write_member(out, "location", &self.location)?;
        write_member(out, "name", &self.name)?;
        write_some(out, "tags", &self.tags)?;
        out.end_object()
    }
}

impl ToJson for WorkspaceSymbol {
    ghost stands = { λ it. object_with (⟦<WorkspaceSymbol as KnownMembers>⟧.known it) (option_map view it.more) };

    fn write_json<S: JsonSink>(&self, out: &mut S) -> Result<(), S::Error> {
        write_with(out, self, &self.more)
    }
}

impl FromJson for WorkspaceSymbol {
    ghost reads = { λ json it. IsObject json
        and Required ⟦<String as FromJson>⟧.reads (codes "name") json it.name
        and Required ⟦<SymbolKind as FromJson>⟧.reads (codes "kind") json it.kind
        and Optional ⟦<Vec<SymbolTag> as FromJson>⟧.reads (codes "tags") json it.tags
        and Optional ⟦<bool as FromJson>⟧.reads (codes "deprecated") json it.deprecated
        and Optional ⟦<String as FromJson>⟧.reads (codes "containerName") json it.container_name
        and Required ⟦<WorkspaceSymbolLocation as FromJson>⟧.reads (codes "location") json it.location
        and Optional ⟦<Value as FromJson>⟧.reads (codes "data") json it.«data»
        and Beside (codes "name" ∷ codes "kind" ∷ codes "tags" ∷ codes "deprecated" ∷ codes "containerName" ∷ codes "location" ∷ codes "data" ∷ []) json it.more };

    fn from_json(alloc: Global, value: &JsonRef<'_>) -> Result<WorkspaceSymbol, Misfit> {
        match Members::new(alloc, value)
            .required("name")
            .required("kind")
            .optional("tags")
            .optional("deprecated")
            .optional("containerName")
            .required("location")
            .optional("data")
            .rest(&[
                "name",
                "kind",
                "tags",
                "deprecated",
                "containerName",
                "location",
                "data",
            ])
            .end()
        {
            Ok(read) => {
                let (read, more) = read;
                let (read, data) = read;
                let (read, location) = read;
                let (read, container_name) = read;
                let (read, deprecated) = read;
                let (read, tags) = read;
                let (read, kind) = read;
                let ((), name) = read;
                Ok(WorkspaceSymbol {
                    name,
                    kind,
                    tags,
                    deprecated,
                    container_name,
                    location,
                    data,
                    more,
                })
            }
            Err(misfit) => Err(misfit),
        }
    }
}
