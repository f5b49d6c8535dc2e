// How deep a JSON value nests.
ghost use Rattle.std.specs.Prelude.{◌≡◌, nat_le};
ghost use Rattle.serde_json.specs.Data.{depth, items_depth, members_depth};
ghost use Rattle.serde_json.specs.View.{view, items_view, members_view};

use serde_json::{Map, Value};

/// Returns whether arrays and objects nest at most `levels` levels. `serde_json` reads a text back that nests at most
/// 127.
#[cycle(nests_within)]
pub fn nests_within(value: &Value, levels: u32) -> bool
    ensures { result ≡ nat_le (depth (view value.now)) levels }
{
    match value {
        Value::Array(items) => levels > 0 && items_nest_within(items, levels - 1),
        Value::Object(members) => levels > 0 && members_nest_within(members, levels - 1),
        _ => true,
    }
}

#[cycle(nests_within)]
fn items_nest_within(items: &Vec<Value>, levels: u32) -> bool
    ensures { result ≡ nat_le (items_depth (items_view items.now.items)) levels }
{
    for item in items {
        if !nests_within(item, levels) {
            return false;
        }
    }
    true
}

#[cycle(nests_within)]
fn members_nest_within(members: &Map<String, Value>, levels: u32) -> bool
    ensures { result ≡ nat_le (members_depth (members_view members.now.entries)) levels }
{
    for (_, member) in members.iter() {
        if !nests_within(member, levels) {
            return false;
        }
    }
    true
}
