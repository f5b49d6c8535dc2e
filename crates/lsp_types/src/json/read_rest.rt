// What an object has beside members of known keys, as it is read.
ghost use Rattle.std.specs.Prelude.{◌≡◌, IfOk, OnOk, map, option_map};
ghost use Rattle.serde_json.specs.Data.{object};
ghost use Rattle.serde_json.specs.Find.{as_object};
ghost use Rattle.serde_json.specs.View.{members_view, view};
ghost use Rattle.lsp_json.specs.JsonRef.{json_data};
ghost use Rattle.lsp_types.specs.Reads.{Beside, ReadsAs, object_if, others, with_other};

use crate::json::Misfit;
use lsp_json::JsonRef;
use serde_json::{Map, Value};
use std::alloc::{AllocError, Global};

/// Returns the members with other keys than these, as an object, or `None` if there are none.
pub fn beside(
    alloc: Global,
    value: &JsonRef<'_>,
    keys: &[&'static str],
) -> Result<Option<Value>, Misfit>
    ensures { ReadsAs (Beside (map (λ key. key.now) keys.now) (json_data value.now)) result }
{
    if value.is_object() && !value.has_others(keys) {
        return Ok(None);
    }
    if let Some(tree) = value.as_tree() {
        return tree_beside(alloc, tree, keys);
    }
    match value.to_value(alloc) {
        Ok(tree) => {
            let rest = tree_beside(alloc, &tree, keys);
            drop(tree);
            rest
        }
        Err(_) => Err(Misfit::Memory),
    }
}

/// Returns the same for a tree.
#[tactic(auto, unfolding(crate::specs::Reads::Beside))]
fn tree_beside(alloc: Global, tree: &Value, keys: &[&'static str]) -> Result<Option<Value>, Misfit>
    ensures { ReadsAs (Beside (map (λ key. key.now) keys.now) (view tree.now)) result }
{
    match tree.as_object() {
        Some(members) => object_beside(alloc, members, keys),
        None => Err(Misfit::Wanted("an object")),
    }
}

/// Returns the same for the members of an object.
fn object_beside(
    alloc: Global,
    members: &Map<String, Value>,
    keys: &[&'static str],
) -> Result<Option<Value>, Misfit>
    ensures { ReadsAs (λ it. option_map view it
        ≡ object_if (others (map (λ key. key.now) keys.now) (members_view members.now.entries))) result }
{
    match members_beside(alloc, members, keys) {
        Ok(rest) => Ok(object_of(rest)),
        Err(_) => Err(Misfit::Memory),
    }
}

/// Makes an object of these members, or returns `None` if there are none.
#[tactic(auto, using(crate::proofs::RestLemmas::none_if))]
fn object_of(members: Map<String, Value>) -> Option<Value>
    ensures { option_map view result ≡ object_if (members_view members.entries) }
{
    if members.is_empty() {
        drop(members);
        return None;
    }
    Some(object(members))
}

/// The object with these members.
fn object(members: Map<String, Value>) -> Value
    ensures { view result ≡ object (members_view members.entries) }
{
    Value::Object(members)
}

/// Returns the members with other keys than these.
fn members_beside(
    alloc: Global,
    members: &Map<String, Value>,
    keys: &[&'static str],
) -> Result<Map<String, Value>, AllocError>
    ensures { IfOk result (λ rest. members_view rest.entries
        ≡ others (map (λ key. key.now) keys.now) (members_view members.now.entries)) }
{
    let mut rest = Map::new(alloc);
    for (key, member) in members {
        put_other(alloc, &mut rest, keys, key.as_str(), member)?;
    }
    Ok(rest)
}

/// Adds a member, if its key is none of these.
#[tactic(auto, using(crate::proofs::RestLemmas::with_named, crate::proofs::RestLemmas::with_new))]
fn put_other(
    alloc: Global,
    rest: &mut Map<String, Value>,
    keys: &[&'static str],
    key: &str,
    member: &Value,
) -> Result<(), AllocError>
    ensures { OnOk result (members_view rest.new.entries
        ≡ with_other (map (λ key. key.now) keys.now) key.now (view member.now) (members_view rest.old.entries)) }
{
    if keys.contains(&key) {
        return Ok(());
    }
    let value = member.clone()?;
    serde_json::put(rest, alloc, key, value)
}
