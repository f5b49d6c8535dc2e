// Two numbers that JSON has in a list.
ghost use Rattle.std.specs.Prelude.{◌∷◌, [], ◌≡◌, ◌≢◌, MatchOption, Some};
ghost use Rattle.serde_json.specs.Data.{Data, array, item, no_items, number, unsigned};
ghost use Rattle.serde_json.specs.Find.{as_array};
ghost use Rattle.lsp_json.specs.JsonRef.{json_data};
ghost use Rattle.lsp_types.specs.Reads.{EachItem, InSome, IsWhole};

use crate::json::{FromJson, Misfit, ToJson};
use lsp_json::JsonRef;
use lsp_json_write::JsonSink;
use std::alloc::Global;

/// The place of a part of a text in it, in units of UTF-16 from 0 (LSP 3.17, "ParameterInformation"). It is a list of
/// two numbers.
#[derive(Clone, Copy, Drop)]
pub struct LabelOffsets {
    /// Its first unit.
    pub start: u32,
    /// The first unit after it.
    pub end: u32,
}

impl FromJson for LabelOffsets {
    ghost reads = { λ json it. InSome (λ items. EachItem IsWhole items (it.start ∷ it.end ∷ [])) (as_array json) };

    fn from_json(alloc: Global, value: &JsonRef<'_>) -> Result<LabelOffsets, Misfit> {
        match two_items(value) {
            Some((start, end)) => Ok(LabelOffsets {
                start: u32::from_json(alloc, &start)?,
                end: u32::from_json(alloc, &end)?,
            }),
            None => Err(Misfit::Wanted("a list of two numbers")),
        }
    }
}

/// Returns the items of a list of two, or `None` if this is no such list.
fn two_items<'v>(value: &JsonRef<'v>) -> Option<(JsonRef<'v>, JsonRef<'v>)>
    ensures { MatchOption result
        ((one other : Data) → as_array (json_data value.now) ≢ Some (item one (item other no_items)))
        (λ two. as_array (json_data value.now) ≡ Some (item (json_data two.0) (item (json_data two.1) no_items))) }
{
    let mut items = value.items()?;
    let start = items.next()?;
    let end = items.next()?;
    match items.next() {
        Some(_) => None,
        None => Some((start, end)),
    }
}

impl ToJson for LabelOffsets {
    ghost stands = { λ it. array (item (number (unsigned it.start)) (item (number (unsigned it.end)) no_items)) };

    fn write_json<S: JsonSink>(&self, out: &mut S) -> Result<(), S::Error> {
        out.begin_array()?;
        self.start.write_json(out)?;
        self.end.write_json(out)?;
        out.end_array()
    }
}
