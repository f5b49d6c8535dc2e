// How symbols are read and written that have others in them.
ghost use Rattle.std.specs.Prelude.{OnOk, codes};
ghost use Rattle.serde_json.specs.Find.{get};
ghost use Rattle.lsp_json.specs.JsonRef.{json_data};
ghost use Rattle.lsp_json_write.specs.Taken.{Steps, with_value};
ghost use Rattle.lsp_types.specs.Reads.{EachItem, InSome, ReadsAs, but_null};
ghost use Rattle.lsp_types.specs.Symbols.{IsSymbolWithin, items_or_none};
ghost use Rattle.lsp_types.specs.Written.{document_symbol};

use crate::json::{FromJson, Members, Misfit, ToJson, present, write_member, write_some};
use crate::symbols::DocumentSymbol;
use lsp_json::JsonRef;
use lsp_json_write::JsonSink;
use std::alloc::Global;

impl ToJson for DocumentSymbol {
    ghost stands = { document_symbol };

    fn write_json<S: JsonSink>(&self, out: &mut S) -> Result<(), S::Error> {
        write_symbol(out, self)
    }
}

/// Writes a symbol, with those inside it. The error is that of the sink.
fn write_symbol<S: JsonSink>(out: &mut S, symbol: &DocumentSymbol) -> Result<(), S::Error>
    ensures { OnOk result (Steps S.holds (with_value (document_symbol symbol.now)) out.old out.new) }
{
    out.begin_object()?;
    out.key("children")?;
    out.begin_array()?;
    for child in &symbol.children {
        write_symbol(out, child)?;
    }
    out.end_array()?;
    write_some(out, "deprecated", &symbol.deprecated)?;
    write_some(out, "detail", &symbol.detail)?;
    write_member(out, "kind", &symbol.kind)?;
    write_member(out, "name", &symbol.name)?;
    write_member(out, "range", &symbol.range)?;
    write_member(out, "selectionRange", &symbol.selection_range)?;
    write_some(out, "tags", &symbol.tags)?;
    out.end_object()
}

impl FromJson for DocumentSymbol {
    ghost reads = { IsSymbolWithin 128 };

    fn from_json(alloc: Global, value: &JsonRef<'_>) -> Result<DocumentSymbol, Misfit> {
        symbol_within(alloc, value, 128)
    }
}

/// Reads a symbol, with those inside it up to this many levels.
#[cycle(symbols_within)]
fn symbol_within(alloc: Global, value: &JsonRef<'_>, levels: u32) -> Result<DocumentSymbol, Misfit>
    ensures { ReadsAs (IsSymbolWithin levels (json_data value.now)) result }
{
    if levels == 0 {
        return Err(Misfit::Wanted("symbols that nest less deep"));
    }
    let children = children_within(alloc, value, levels - 1)?;
    match Members::new(alloc, value)
        .required("name")
        .optional("detail")
        .required("kind")
        .optional("tags")
        .optional("deprecated")
        .required("range")
        .required("selectionRange")
        .end()
    {
        Ok(read) => {
            let ((((((((), name), detail), kind), tags), deprecated), range), selection_range) =
                read;
            Ok(DocumentSymbol {
                name,
                detail,
                kind,
                tags,
                deprecated,
                range,
                selection_range,
                children,
            })
        }
        Err(misfit) => {
            drop(children);
            Err(misfit)
        }
    }
}

/// Reads the symbols inside one, with those inside them up to this many levels.
#[cycle(symbols_within)]
fn children_within(
    alloc: Global,
    value: &JsonRef<'_>,
    levels: u32,
) -> Result<Vec<DocumentSymbol>, Misfit>
    ensures { ReadsAs (λ children. InSome (λ items. EachItem (IsSymbolWithin levels) items children.items)
        (items_or_none (but_null (get (codes "children") (json_data value.now))))) result }
{
    let mut children = Vec::new(alloc);
    let Some(member) = present(value, "children") else {
        return Ok(children);
    };
    let Some(mut items) = member.items() else {
        return Err(Misfit::WantedAt("children", "a list"));
    };
    while let Some(item) = items.next() {
        let child = symbol_within(alloc, &item, levels)?;
        if children.push(child).is_err() {
            return Err(Misfit::Memory);
        }
    }
    Ok(children)
}
