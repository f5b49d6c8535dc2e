//! Callers and callees, and the supertypes and subtypes of a type.
// `tools/types` wrote this file from `types.txt`: change that.
ghost use Rattle.std.specs.Prelude.{◌∷◌, [], Some, codes, option_map};
ghost use Rattle.serde_json.specs.View.{view};
ghost use Rattle.lsp_types.specs.Json.{object_of, object_with};
ghost use Rattle.lsp_types.specs.Reads.{Beside, IfFits, IsObject, Optional, Required, ◌and◌};

use lsp_json::JsonRef;
use lsp_json_write::JsonSink;
use lsp_text::Range;
use lsp_types::json::{
    FromJson, KnownMembers, Members, Misfit, ToJson, write_member, write_some, write_with,
};
use lsp_types::{HoverParams, ProgressToken, SymbolKind, SymbolTag};
use serde_json::Value;
use std::alloc::Global;

/// The params of `textDocument/prepareCallHierarchy` (LSP 3.17, "Prepare Call Hierarchy Request"). The result is a list
/// of `CallHierarchyItem` or null.
pub type CallHierarchyPrepareParams = HoverParams;

/// A function, or another symbol that calls or is called (LSP 3.17, "CallHierarchyItem").
#[derive(Drop)]
pub struct CallHierarchyItem {
    /// Its name.
    pub name: String,
    /// What it is.
    pub kind: SymbolKind,
    /// How it may be shown.
    pub tags: Option<Vec<SymbolTag>>,
    /// More about it, such as its type.
    pub detail: Option<String>,
    /// The URI of its document.
    pub uri: String,
    /// All of it.
    pub range: Range,
    /// The part to select, such as its name. It is within `range`.
    pub selection_range: Range,
    /// The client returns this value when it requests calls.
    pub data: Option<Value>,
    /// An object with members that LSP 3.17 does not name, for example those of a newer client or server. They are
    /// written beside the members above. When read, it is `None` if there are none. If a field above has the same name,
    /// the member here counts.
    pub more: Option<Value>,
}

impl CallHierarchyItem {
    ghost use Rattle.std.specs.Prelude.{◌≡◌, None};

    /// Makes one from the required members. The others are `None`.
    pub fn new(
        name: String,
        kind: SymbolKind,
        uri: String,
        range: Range,
        selection_range: Range,
    ) -> CallHierarchyItem
        ensures { result ≡ record {
          name = name;
          kind = kind;
          tags = None;
          detail = None;
          uri = uri;
          range = range;
          selection_range = selection_range;
          «data» = None;
          more = None;
        } }
    {
        CallHierarchyItem {
            name,
            kind,
            tags: None,
            detail: None,
            uri,
            range,
            selection_range,
            data: None,
            more: None,
        }
    }
}

impl KnownMembers for CallHierarchyItem {
    ghost known = { λ it. (codes "data", option_map ⟦<Value as ToJson>⟧.stands it.«data»)
        ∷ (codes "detail", option_map ⟦<String as ToJson>⟧.stands it.detail)
        ∷ (codes "kind", Some (⟦<SymbolKind as ToJson>⟧.stands it.kind))
        ∷ (codes "name", Some (⟦<String as ToJson>⟧.stands it.name))
        ∷ (codes "range", Some (⟦<Range as ToJson>⟧.stands it.range))
        ∷ (codes "selectionRange", Some (⟦<Range as ToJson>⟧.stands it.selection_range))
        ∷ (codes "tags", option_map ⟦<Vec<SymbolTag> as ToJson>⟧.stands it.tags)
        ∷ (codes "uri", Some (⟦<String as ToJson>⟧.stands it.uri)) ∷ [] };

    fn write_known<S: JsonSink>(&self, out: &mut S) -> Result<(), S::Error> {
        out.begin_object()?;
        write_some(out, "data", &self.data)?;
        write_some(out, "detail", &self.detail)?;
        write_member(out, "kind", &self.kind)?;
        write_member(out, "name", &self.name)?;
        write_member(out, "range", &self.range)?;
        write_member(out, "selectionRange", &self.selection_range)?;
        write_some(out, "tags", &self.tags)?;
        write_member(out, "uri", &self.uri)?;
        out.end_object()
    }
}

impl ToJson for CallHierarchyItem {
    ghost stands = { λ it. object_with (⟦<CallHierarchyItem as KnownMembers>⟧.known it) (option_map view it.more) };

    fn write_json<S: JsonSink>(&self, out: &mut S) -> Result<(), S::Error> {
        write_with(out, self, &self.more)
    }
}

impl FromJson for CallHierarchyItem {
    ghost reads = { λ json it. IsObject json
        and Required ⟦<String as FromJson>⟧.reads (codes "name") json it.name
        and Required ⟦<SymbolKind as FromJson>⟧.reads (codes "kind") json it.kind
        and Optional ⟦<Vec<SymbolTag> as FromJson>⟧.reads (codes "tags") json it.tags
        and Optional ⟦<String as FromJson>⟧.reads (codes "detail") json it.detail
        and Required ⟦<String as FromJson>⟧.reads (codes "uri") json it.uri
        and Required ⟦<Range as FromJson>⟧.reads (codes "range") json it.range
        and Required ⟦<Range as FromJson>⟧.reads (codes "selectionRange") json it.selection_range
        and Optional ⟦<Value as FromJson>⟧.reads (codes "data") json it.«data»
        and Beside (codes "name" ∷ codes "kind" ∷ codes "tags" ∷ codes "detail" ∷ codes "uri" ∷ codes "range" ∷ codes "selectionRange" ∷ codes "data" ∷ []) json it.more };

    fn from_json(alloc: Global, value: &JsonRef<'_>) -> Result<CallHierarchyItem, Misfit> {
        match Members::new(alloc, value)
            .required("name")
            .required("kind")
            .optional("tags")
            .optional("detail")
            .required("uri")
            .required("range")
            .required("selectionRange")
            .optional("data")
            .rest(&[
                "name",
                "kind",
                "tags",
                "detail",
                "uri",
                "range",
                "selectionRange",
                "data",
            ])
            .end()
        {
            Ok(read) => {
                let (read, more) = read;
                let (read, data) = read;
                let (read, selection_range) = read;
                let (read, range) = read;
                let (read, uri) = read;
                let (read, detail) = read;
                let (read, tags) = read;
                let (read, kind) = read;
                let ((), name) = read;
                Ok(CallHierarchyItem {
                    name,
                    kind,
                    tags,
                    detail,
                    uri,
                    range,
                    selection_range,
                    data,
                    more,
                })
            }
            Err(misfit) => Err(misfit),
        }
    }
}

/// The params of `callHierarchy/incomingCalls` (LSP 3.17, "Call Hierarchy Incoming Calls"). The result is a list of
/// `CallHierarchyIncomingCall` or null.
#[derive(Drop)]
pub struct CallHierarchyIncomingCallsParams {
    /// The one that is called.
    pub item: CallHierarchyItem,
    /// The token to report progress with. `None` means that no progress is requested, or that the token does not fit.
    pub work_done_token: Option<ProgressToken>,
    /// The token to send parts of the result with. `None` means that no parts are requested, or that the token does not
    /// fit.
    pub partial_result_token: Option<ProgressToken>,
}

impl ToJson for CallHierarchyIncomingCallsParams {
    ghost stands = { λ it. object_of (
        (codes "item", Some (⟦<CallHierarchyItem as ToJson>⟧.stands it.item))
        ∷ (codes "partialResultToken", option_map ⟦<ProgressToken as ToJson>⟧.stands it.partial_result_token)
        ∷ (codes "workDoneToken", option_map ⟦<ProgressToken as ToJson>⟧.stands it.work_done_token) ∷ []) };

    fn write_json<S: JsonSink>(&self, out: &mut S) -> Result<(), S::Error> {
        out.begin_object()?;
        write_member(out, "item", &self.item)?;
        write_some(out, "partialResultToken", &self.partial_result_token)?;
        write_some(out, "workDoneToken", &self.work_done_token)?;
        out.end_object()
    }
}

impl FromJson for CallHierarchyIncomingCallsParams {
    ghost reads = { λ json it. IsObject json
        and Required ⟦<CallHierarchyItem as FromJson>⟧.reads (codes "item") json it.item
        and IfFits ⟦<ProgressToken as FromJson>⟧.reads (codes "workDoneToken") json it.work_done_token
        and IfFits ⟦<ProgressToken as FromJson>⟧.reads (codes "partialResultToken") json it.partial_result_token };

    fn from_json(
        alloc: Global,
        value: &JsonRef<'_>,
    ) -> Result<CallHierarchyIncomingCallsParams, Misfit> {
        match Members::new(alloc, value)
            .required("item")
            .if_fits("workDoneToken")
            .if_fits("partialResultToken")
            .end()
        {
            Ok(read) => {
                let ((((), item), work_done_token), partial_result_token) = read;
                Ok(CallHierarchyIncomingCallsParams {
                    item,
                    work_done_token,
                    partial_result_token,
                })
            }
            Err(misfit) => Err(misfit),
        }
    }
}

/// One that calls (LSP 3.17, "Call Hierarchy Incoming Calls").
#[derive(Drop)]
pub struct CallHierarchyIncomingCall {
    /// Who calls.
    pub from: CallHierarchyItem,
    /// Where it does, in its own document.
    pub from_ranges: Vec<Range>,
}

impl ToJson for CallHierarchyIncomingCall {
    ghost stands = { λ it. object_of (
        (codes "from", Some (⟦<CallHierarchyItem as ToJson>⟧.stands it.from))
        ∷ (codes "fromRanges", Some (⟦<Vec<Range> as ToJson>⟧.stands it.from_ranges)) ∷ []) };

    fn write_json<S: JsonSink>(&self, out: &mut S) -> Result<(), S::Error> {
        out.begin_object()?;
        write_member(out, "from", &self.from)?;
        write_member(out, "fromRanges", &self.from_ranges)?;
        out.end_object()
    }
}

impl FromJson for CallHierarchyIncomingCall {
    ghost reads = { λ json it. IsObject json
        and Required ⟦<CallHierarchyItem as FromJson>⟧.reads (codes "from") json it.from
        and Required ⟦<Vec<Range> as FromJson>⟧.reads (codes "fromRanges") json it.from_ranges };

    fn from_json(alloc: Global, value: &JsonRef<'_>) -> Result<CallHierarchyIncomingCall, Misfit> {
        match Members::new(alloc, value)
            .required("from")
            .required("fromRanges")
            .end()
        {
            Ok(read) => {
                let (((), from), from_ranges) = read;
                Ok(CallHierarchyIncomingCall { from, from_ranges })
            }
            Err(misfit) => Err(misfit),
        }
    }
}

/// The params of `callHierarchy/outgoingCalls`, where `item` is the one that calls (LSP 3.17, "Call Hierarchy Outgoing
/// Calls"). The result is a list of `CallHierarchyOutgoingCall` or null.
pub type CallHierarchyOutgoingCallsParams = CallHierarchyIncomingCallsParams;

/// One that is called (LSP 3.17, "Call Hierarchy Outgoing Calls").
#[derive(Drop)]
pub struct CallHierarchyOutgoingCall {
    /// Who is called.
    pub to: CallHierarchyItem,
    /// Where it is, in the document of the one that calls.
    pub from_ranges: Vec<Range>,
}

impl ToJson for CallHierarchyOutgoingCall {
    ghost stands = { λ it. object_of (
        (codes "fromRanges", Some (⟦<Vec<Range> as ToJson>⟧.stands it.from_ranges))
        ∷ (codes "to", Some (⟦<CallHierarchyItem as ToJson>⟧.stands it.to)) ∷ []) };

    fn write_json<S: JsonSink>(&self, out: &mut S) -> Result<(), S::Error> {
        out.begin_object()?;
        write_member(out, "fromRanges", &self.from_ranges)?;
        write_member(out, "to", &self.to)?;
        out.end_object()
    }
}

impl FromJson for CallHierarchyOutgoingCall {
    ghost reads = { λ json it. IsObject json
        and Required ⟦<CallHierarchyItem as FromJson>⟧.reads (codes "to") json it.to
        and Required ⟦<Vec<Range> as FromJson>⟧.reads (codes "fromRanges") json it.from_ranges };

    fn from_json(alloc: Global, value: &JsonRef<'_>) -> Result<CallHierarchyOutgoingCall, Misfit> {
        match Members::new(alloc, value)
            .required("to")
            .required("fromRanges")
            .end()
        {
            Ok(read) => {
                let (((), to), from_ranges) = read;
                Ok(CallHierarchyOutgoingCall { to, from_ranges })
            }
            Err(misfit) => Err(misfit),
        }
    }
}

/// The params of `textDocument/prepareTypeHierarchy` (LSP 3.17, "Prepare Type Hierarchy Request"). The result is a list
/// of `TypeHierarchyItem` or null.
pub type TypeHierarchyPrepareParams = HoverParams;

/// A type (LSP 3.17, "TypeHierarchyItem").
pub type TypeHierarchyItem = CallHierarchyItem;

/// The params of `typeHierarchy/supertypes`, where `item` is a type (LSP 3.17, "Type Hierarchy Supertypes"). The result
/// is a list of `TypeHierarchyItem` or null.
pub type TypeHierarchySupertypesParams = CallHierarchyIncomingCallsParams;

/// The params of `typeHierarchy/subtypes`, where `item` is a type (LSP 3.17, "Type Hierarchy Subtypes"). The result is
/// a list of `TypeHierarchyItem` or null.
pub type TypeHierarchySubtypesParams = CallHierarchyIncomingCallsParams;
