// Texts of JSON that are read where they stand, beside their trees.
use crate::messages::{text_in, value_in};
use crate::said::{Said, ended};
use json::Scratch;
use lsp_json::{JsonItems, JsonRef, JsonText};
use serde_json::{Number, Value};
use std::alloc::AllocError;

/// No list of a row is longer.
const MOST: usize = 20;

/// Says the value of a text, and what each of its readers says of it.
pub fn whole(said: &mut Said, text: &str) {
    compare(said, text, None)
}

/// The same of a text that is given as JSON.
pub fn quoted(said: &mut Said, row: &str) {
    match value_in(said.alloc, row) {
        Ok(text) => {
            compare(said, text_in(Some(&text)), None);
            drop(text);
        }
        Err(_) => said.is_short = true,
    }
}

/// `KEY TEXT`: the same of a member of the value, or of null if there is none.
pub fn member(said: &mut Said, row: &str) {
    let (key, text) = said.cut(row, " ");
    compare(said, text, Some(key))
}

/// Says what the text has, and also what its tree has, if that is something else. A text that is read at the second
/// time alone had no memory at the first.
fn compare(said: &mut Said, text: &str, key: Option<&str>) {
    let in_place = in_text(said, text, key);
    let again = in_text(said, text, key);
    said.is_short = said.is_short || in_place != again;
    drop(again);
    let by_tree = in_tree(said, text, key);
    said.push(in_place.as_str());
    if in_place != by_tree {
        said.push("; but in its tree ");
        said.push(by_tree.as_str());
    }
    drop(in_place);
    drop(by_tree);
}

/// Says what a text has.
fn in_text(said: &mut Said, text: &str, key: Option<&str>) -> String {
    let mut found = Said::new(said.alloc);
    let mut scratch = Scratch::new(said.alloc);
    match JsonText::read(said.alloc, text, &mut scratch) {
        Some(text) => {
            let root = text.root();
            if root.as_tree().is_some() {
                found.push("in a tree: ");
            }
            say_at(&mut found, &root, key);
            drop(root);
            drop(text);
        }
        None => found.push("refused"),
    }
    drop(scratch);
    ended(said, found)
}

/// Says what the tree of a text has.
fn in_tree(said: &mut Said, text: &str, key: Option<&str>) -> String {
    let mut found = Said::new(said.alloc);
    match Value::from_str(said.alloc, text) {
        Ok(tree) => {
            let root = JsonRef::of_tree(&tree);
            if root.as_tree() != Some(&tree) {
                found.push("in no tree: ");
            }
            say_at(&mut found, &root, key);
            drop(root);
            drop(tree);
        }
        Err(error) => {
            found.refuse(error);
            found.push("refused");
        }
    }
    ended(said, found)
}

fn say_at(said: &mut Said, root: &JsonRef<'_>, key: Option<&str>) {
    let Some(key) = key else {
        return say(said, root);
    };
    match root.get(key) {
        Some(member) => {
            say(said, &member);
            drop(member);
        }
        None => {
            said.push("no member, ");
            say(said, &JsonRef::null());
        }
    }
}

/// Says a value, and what it is.
fn say(said: &mut Said, json: &JsonRef<'_>) {
    say_value(said, json);
    said.push(":");
    if json.is_null() {
        said.push(" null");
    }
    if json.is_object() {
        said.push(" object");
    }
    if json.has_others(&["a", "b"]) {
        said.push(" others");
    }
    if let Some(found) = json.as_bool() {
        said.push(" bool ");
        said.show(found);
    }
    if let Some(text) = json.as_str() {
        said.push(" text ");
        said.debug(text);
    }
    say_numbers(said, json);
    if let Some(items) = json.items() {
        said.push(" list");
        say_items(said, items);
    }
}

fn say_value(said: &mut Said, json: &JsonRef<'_>) {
    let made: Result<Value, AllocError> = json.to_value(said.alloc);
    match made {
        Ok(tree) => said.show(tree),
        Err(_) => said.is_short = true,
    }
}

fn say_numbers(said: &mut Said, json: &JsonRef<'_>) {
    if let Some(number) = json.as_number() {
        said.push(" number ");
        said.show(number);
    }
    if let Some(number) = json.as_u64() {
        said.push(" u64 ");
        said.show(number);
    }
    if let Some(number) = json.as_i64() {
        said.push(" i64 ");
        said.show(number);
    }
    if let Some(float) = json.as_f64().and_then(Number::from_f64) {
        said.push(" f64 ");
        said.show(float);
    }
}

/// Says the items, one after another.
fn say_items(said: &mut Said, mut items: JsonItems<'_>) {
    for _ in 0..MOST {
        let Some(item) = items.next() else {
            return said.push(" end");
        };
        said.push(" ");
        say_value(said, &item);
        drop(item);
    }
    drop(items);
}
