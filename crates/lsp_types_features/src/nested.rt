// How parts are read and written that stand in others.
ghost use Rattle.std.specs.Prelude.{OnOk};
ghost use Rattle.lsp_json.specs.JsonRef.{json_data};
ghost use Rattle.lsp_json_write.specs.Taken.{Steps, with_value};
ghost use Rattle.lsp_types.specs.Reads.{ReadsAs};
ghost use Rattle.lsp_types_features.specs.Selections.{IsSelectionWithin};
ghost use Rattle.lsp_types_features.specs.Written.{selection_range};

use crate::places::SelectionRange;
use lsp_json::JsonRef;
use lsp_json_write::JsonSink;
use lsp_types::json::{FromJson, Misfit, ToJson, present, required, write_member};
use std::alloc::Global;

impl ToJson for SelectionRange {
    ghost stands = { selection_range };

    fn write_json<S: JsonSink>(&self, out: &mut S) -> Result<(), S::Error> {
        write_selection(out, self)
    }
}

/// Writes a part, with those around it. The error is that of the sink.
fn write_selection<S: JsonSink>(out: &mut S, selection: &SelectionRange) -> Result<(), S::Error>
    ensures { OnOk result (Steps S.holds (with_value (selection_range selection.now)) out.old out.new) }
{
    out.begin_object()?;
    match &selection.parent {
        Some(parent) => {
            out.key("parent")?;
            write_selection(out, &**parent)?;
            write_member(out, "range", &selection.range)?;
            out.end_object()
        }
        None => {
            write_member(out, "range", &selection.range)?;
            out.end_object()
        }
    }
}

impl FromJson for SelectionRange {
    ghost reads = { IsSelectionWithin 128 };

    fn from_json(alloc: Global, value: &JsonRef<'_>) -> Result<SelectionRange, Misfit> {
        selection_within(alloc, value, 128)
    }
}

/// Reads a part, with those around it up to this many levels.
#[tactic(auto, using(crate::proofs::SelectionLemmas::none_within, crate::proofs::SelectionLemmas::made, crate::proofs::SelectionLemmas::unfit_range, crate::proofs::SelectionLemmas::unfit_around))]
fn selection_within(
    alloc: Global,
    value: &JsonRef<'_>,
    levels: u32,
) -> Result<SelectionRange, Misfit>
    ensures { ReadsAs (IsSelectionWithin levels (json_data value.now)) result }
{
    if levels == 0 {
        return Err(Misfit::Wanted("parts that nest less deep"));
    }
    let range = match required(alloc, value, "range") {
        Ok(range) => range,
        Err(misfit) => return Err(misfit),
    };
    let Some(around) = present(value, "parent") else {
        return Ok(SelectionRange {
            range,
            parent: None,
        });
    };
    match selection_within(alloc, &around, levels - 1) {
        Ok(parent) => match Box::new(alloc, parent) {
            Ok(parent) => Ok(SelectionRange {
                range,
                parent: Some(parent),
            }),
            Err(failed) => {
                drop(failed);
                Err(Misfit::Memory)
            }
        },
        Err(misfit) => Err(misfit),
    }
}
