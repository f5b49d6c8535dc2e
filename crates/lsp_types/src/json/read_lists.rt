// Lists and maps, as they are read.
ghost use Rattle.std.specs.Prelude.{◌≡◌, IfErr, OnOk};
ghost use Rattle.lsp_types.specs.declared.json.reading.Misfit.TheVariants.{Memory};
ghost use Rattle.serde_json.specs.Find.{as_array, as_object};
ghost use Rattle.serde_json.specs.View.{members_view, view};
ghost use Rattle.lsp_json.specs.JsonRef.{items_data, json_data};
ghost use Rattle.lsp_types.specs.Reads.{EachItem, EachMember, FittingItems, InSome, Puts, ReadsAs, ThoseThatFit};

use crate::json::{FromJson, Misfit, fitting};
use lsp_json::{JsonItems, JsonRef};
use serde_json::{Map, Value};
use std::alloc::Global;
use std::collections::BTreeMap;

impl<T: FromJson> FromJson for Vec<T> {
    ghost reads = { λ json values. InSome (λ items. EachItem T.reads items values.items) (as_array json) };

    fn from_json(alloc: Global, value: &JsonRef<'_>) -> Result<Vec<T>, Misfit> {
        match value.items() {
            Some(items) => each_item(alloc, items),
            None => Err(Misfit::Wanted("a list")),
        }
    }
}

/// Reads the values of items.
#[tactic(auto, using(crate::proofs::ItemLemmas::before_all, crate::proofs::ItemLemmas::all_before, crate::proofs::ItemLemmas::before_more, crate::proofs::ItemLemmas::next_fits, crate::proofs::ItemLemmas::fewer))]
fn each_item<T: FromJson>(alloc: Global, mut items: JsonItems<'_>) -> Result<Vec<T>, Misfit>
    ensures { ReadsAs (λ values. EachItem T.reads (items_data items.entry) values.items) result }
{
    let mut values = Vec::new(alloc);
    while let Some(item) = items.next() {
        let value = T::from_json(alloc, &item)?;
        if values.push(value).is_err() {
            return Err(Misfit::Memory);
        }
    }
    Ok(values)
}

/// Reads a required list, without the items that do not fit.
#[tactic(auto, unfolding(crate::specs::Reads::ThoseThatFit))]
pub fn those_that_fit<T: FromJson>(
    alloc: Global,
    value: &JsonRef<'_>,
    key: &'static str,
) -> Result<Vec<T>, Misfit>
    ensures { ReadsAs (ThoseThatFit T.reads key.now (json_data value.now)) result }
{
    let Some(member) = value.get(key) else {
        return Err(Misfit::Missing(key));
    };
    match member.items() {
        Some(items) => fitting_items(alloc, items),
        None => Err(Misfit::WantedAt(key, "a list")),
    }
}

/// Reads the values of the items that fit.
#[tactic(auto, using(crate::proofs::ItemLemmas::fit_before_all, crate::proofs::ItemLemmas::all_fit, crate::proofs::ItemLemmas::fewer))]
fn fitting_items<T: FromJson>(alloc: Global, mut items: JsonItems<'_>) -> Result<Vec<T>, Misfit>
    ensures { ReadsAs (λ values. FittingItems T.reads (items_data items.entry) values.items) result }
{
    let mut values = Vec::new(alloc);
    while let Some(item) = items.next() {
        if let Some(value) = fitting(alloc, &item)? {
            if values.push(value).is_err() {
                return Err(Misfit::Memory);
            }
        }
    }
    Ok(values)
}

impl<T: FromJson> FromJson for BTreeMap<String, T> {
    ghost reads = { λ json values. InSome (λ members. EachMember T.reads members values.entries) (as_object json) };

    fn from_json(alloc: Global, value: &JsonRef<'_>) -> Result<BTreeMap<String, T>, Misfit> {
        if let Some(tree) = value.as_tree() {
            return map_of(alloc, tree);
        }
        match value.to_value(alloc) {
            Ok(tree) => {
                let map = map_of(alloc, &tree);
                drop(tree);
                map
            }
            Err(_) => Err(Misfit::Memory),
        }
    }
}

/// Reads the map that a tree is.
fn map_of<T: FromJson>(alloc: Global, tree: &Value) -> Result<BTreeMap<String, T>, Misfit>
    ensures { ReadsAs (λ values. InSome (λ members. EachMember T.reads members values.entries)
        (as_object (view tree.now))) result }
{
    match tree.as_object() {
        Some(members) => each_member(alloc, members),
        None => Err(Misfit::Wanted("an object")),
    }
}

/// Reads the values of members, by their keys.
fn each_member<T: FromJson>(
    alloc: Global,
    members: &Map<String, Value>,
) -> Result<BTreeMap<String, T>, Misfit>
    ensures { ReadsAs (λ values. EachMember T.reads (members_view members.now.entries) values.entries) result }
{
    let mut values = BTreeMap::new(alloc);
    for (key, member) in members {
        match T::from_json(alloc, &JsonRef::of_tree(member)) {
            Ok(value) => put(alloc, &mut values, key.as_str(), value)?,
            Err(misfit) => return Err(misfit),
        }
    }
    Ok(values)
}

/// Puts a value at a key.
fn put<T: Drop>(
    alloc: Global,
    values: &mut BTreeMap<String, T>,
    key: &str,
    value: T,
) -> Result<(), Misfit>
    ensures ok { OnOk result (Puts key.now value values.old.entries values.new.entries) }
    ensures memory { IfErr result (λ misfit. misfit ≡ Memory) }
{
    let name = match String::from_str(alloc, key) {
        Ok(name) => name,
        Err(_) => {
            drop(value);
            return Err(Misfit::Memory);
        }
    };
    match values.insert(name, value) {
        Ok(before) => {
            drop(before);
            Ok(())
        }
        Err(refused) => {
            drop(refused);
            Err(Misfit::Memory)
        }
    }
}
