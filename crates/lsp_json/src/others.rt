//! Whether an object has members with other keys than those that a reader knows.

ghost use Rattle.std.specs.Prelude.{◌≡◌, Some, map};
ghost use Rattle.serde_json.specs.Data.{Members as MembersData, no_members};
ghost use Rattle.serde_json.specs.View.{members_view, view};
ghost use Rattle.lsp_json.specs.JsonRef.{has_others, is_other, others_within};
ghost use Rattle.lsp_json.specs.Text.{text_data, text_members};

use crate::text_ref::{TextMembers, TextRef};
use serde_json::{Map, Value};

/// Returns whether a tree is an object that has a member with another key than these.
pub(crate) fn tree_has_others(tree: &Value, keys: &[&'static str]) -> bool
    ensures { result ≡ has_others (map (λ key. key.now) keys.now) (view tree.now) }
{
    match tree.as_object() {
        Some(members) => members_have_others(members, keys),
        None => false,
    }
}

/// Returns whether one of the members of a tree has another key than these.
fn members_have_others(members: &Map<String, Value>, keys: &[&'static str]) -> bool
    ensures { result ≡ others_within (map (λ key. key.now) keys.now) (members_view members.now.entries) }
{
    for (key, _) in members {
        if is_other(keys, key.as_str()) {
            return true;
        }
    }
    false
}

/// Returns whether a value in a text is an object that has a member with another key than these.
pub(crate) fn text_has_others(text: &TextRef<'_>, keys: &[&'static str]) -> bool
    ensures { result ≡ has_others (map (λ key. key.now) keys.now) (text_data text.now.element) }
{
    match text.members() {
        Some(members) => text_members_have_others(members, keys),
        None => false,
    }
}

/// Returns whether one of the members of an object in a text has another key than these.
fn text_members_have_others(mut members: TextMembers<'_>, keys: &[&'static str]) -> bool
    ensures { (all : MembersData) → text_members members.entry.members no_members ≡ Some all
        → result ≡ others_within (map (λ key. key.now) keys.now) all }
{
    'members: while let Some((key, _)) = members.next() {
        if is_other(keys, key) {
            return true;
        }
    }
    false
}

/// Returns whether a key is none of these.
fn is_other(keys: &[&'static str], key: &str) -> bool
    ensures { result ≡ is_other (map (λ key. key.now) keys.now) key.now }
{
    !keys.contains(&key)
}
