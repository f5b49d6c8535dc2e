//! The tree of a value in a text.

ghost use Rattle.std.specs.Prelude.{IfOk, None, Some, ◌≡◌};
ghost use Rattle.serde_json.specs.Data.{no_members};
ghost use Rattle.serde_json.specs.Find.{as_array, as_object};
ghost use Rattle.serde_json.specs.View.{items_view, members_view, view};
ghost use Rattle.lsp_json.specs.Text.{text_data, text_items, text_members};

use crate::text_ref::{TextItems, TextMembers, TextRef};
use serde_json::{Map, Value};
use std::alloc::{AllocError, Global};

/// Makes the tree of a value. The error means that an allocation failed.
#[cycle(tree)]
pub(crate) fn tree(alloc: Global, text: &TextRef<'_>) -> Result<Value, AllocError>
    ensures { IfOk result (λ tree. view tree ≡ text_data text.now.element) }
{
    if let Some(items) = text.items() {
        return Ok(Value::Array(array(alloc, items)?));
    }
    if let Some(members) = text.members() {
        return Ok(Value::Object(object(alloc, members)?));
    }
    leaf(alloc, text)
}

/// Makes the trees of the items of a list.
#[cycle(tree)]
fn array(alloc: Global, mut items: TextItems<'_>) -> Result<Vec<Value>, AllocError>
    ensures { IfOk result (λ trees. items_view trees.items ≡ text_items items.entry.items) }
{
    let mut trees = Vec::new(alloc);
    'items: while let Some(item) = items.next() {
        trees.push(tree(alloc, &item)?)?;
    }
    Ok(trees)
}

/// Makes the trees of the members of an object.
#[cycle(tree)]
fn object(alloc: Global, mut members: TextMembers<'_>) -> Result<Map<String, Value>, AllocError>
    ensures { IfOk result (λ trees. text_members members.entry.members no_members
        ≡ Some (members_view trees.entries)) }
{
    let mut trees = Map::new(alloc);
    'members: while let Some((key, member)) = members.next() {
        let name = String::from_str(alloc, key)?;
        let value = tree(alloc, &member)?;
        drop(trees.insert(name, value)?);
    }
    Ok(trees)
}

/// Makes the tree of a value that is neither a list nor an object.
fn leaf(alloc: Global, text: &TextRef<'_>) -> Result<Value, AllocError>
    requires { (None ≡ as_array (text_data text.now.element)) × (None ≡ as_object (text_data text.now.element)) }
    ensures { IfOk result (λ tree. view tree ≡ text_data text.now.element) }
{
    if let Some(string) = text.as_str() {
        return Ok(Value::String(String::from_str(alloc, string)?));
    }
    if let Some(number) = text.as_number() {
        return Ok(Value::Number(number));
    }
    if let Some(boolean) = text.as_bool() {
        return Ok(Value::Bool(boolean));
    }
    Ok(Value::Null)
}
