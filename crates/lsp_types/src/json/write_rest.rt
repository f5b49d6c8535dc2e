// How an object is written that has members beside those of known keys.
ghost use Rattle.std.specs.Prelude.{◌≡◌, IfOk, List, OnOk, Option, Some, map, option_map, string_bytes, ℕ};
ghost use Rattle.serde_json.specs.Data.{Data, Members, object};
ghost use Rattle.serde_json.specs.Find.{as_object};
ghost use Rattle.serde_json.specs.View.{members_view, view};
ghost use Rattle.lsp_json_write.specs.Taken.{Steps, with_value};
ghost use Rattle.lsp_types.specs.Json.{object_of, object_with, with_member, with_members, with_object};

use lsp_json_write::{JsonSink, TreeWriter};
use serde_json::{Map, Value};
use std::alloc::{AllocError, Global};

/// A type whose values may have members that it has no field for.
pub trait KnownMembers {
    // The members that it has fields for.
    ghost known: { Self → List (List ℕ × Option Data) };

    /// Writes an object of the members that the type has fields for. The error is that of the sink.
    fn write_known<S: JsonSink>(&self, out: &mut S) -> Result<(), S::Error>
        ensures { OnOk result (Steps S.holds (with_value (object_of (known self.now))) out.old out.new) };
}

/// Writes the members that a type has fields for, and those of `more` beside them. Of two members with one key it
/// writes that of `more`. A `more` that is no object has no members. If there is a `more`, it makes a tree first. The
/// error is that of the sink.
pub fn write_with<T: KnownMembers, S: JsonSink>(
    out: &mut S,
    value: &T,
    more: &Option<Value>,
) -> Result<(), S::Error>
    ensures { OnOk result (Steps S.holds
        (with_value (object_with (T.known value.now) (option_map view more.now))) out.old out.new) }
{
    match more {
        Some(more) => {
            let tree = tree_with(out.alloc(), value, more)?;
            out.value(&tree)
        }
        None => value.write_known(out),
    }
}

/// Returns the tree of an object with more members. The error means that an allocation failed.
fn tree_with<T: KnownMembers>(alloc: Global, value: &T, more: &Value) -> Result<Value, AllocError>
    ensures { IfOk result (λ tree. view tree ≡ object_with (T.known value.now) (Some (view more.now))) }
{
    let mut out = TreeWriter::new(alloc);
    value.write_known(&mut out)?;
    with_more(alloc, out.into_value(), more)
}

/// Adds the members of `more` to an object. The error means that an allocation failed.
fn with_more(alloc: Global, tree: Value, more: &Value) -> Result<Value, AllocError>
    ensures { (members : Members) → view tree ≡ object members
        → IfOk result (λ whole. view whole ≡ object (with_object members (as_object (view more.now)))) }
{
    let Some(more) = more.as_object() else {
        return Ok(tree);
    };
    match tree {
        Value::Object(mut members) => {
            put_each(alloc, &mut members, more)?;
            Ok(Value::Object(members))
        }
        other => Ok(other),
    }
}

/// Puts a copy of each of these members among the others. The error means that an allocation failed.
fn put_each(
    alloc: Global,
    members: &mut Map<String, Value>,
    more: &Map<String, Value>,
) -> Result<(), AllocError>
    ensures { OnOk result (members_view members.new.entries ≡ with_members (members_view members.old.entries)
        (map (λ entry. (string_bytes entry.0, Some (view entry.1))) more.now.entries)) }
{
    for (key, value) in more {
        put_copy(alloc, members, key.as_str(), value)?;
    }
    Ok(())
}

/// Puts a copy of a value among the members. The error means that an allocation failed.
#[tactic(auto, unfolding(crate::specs::Json::with_member))]
fn put_copy(
    alloc: Global,
    members: &mut Map<String, Value>,
    key: &str,
    value: &Value,
) -> Result<(), AllocError>
    ensures { OnOk result (members_view members.new.entries
        ≡ with_member (members_view members.old.entries) (key.now, Some (view value.now))) }
{
    let value = value.clone()?;
    serde_json::put(members, alloc, key, value)
}
