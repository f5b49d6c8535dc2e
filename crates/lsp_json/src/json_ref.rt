//! A JSON value that is read where it stands.

use crate::others::{text_has_others, tree_has_others};
use crate::text_ref::{TextItems, TextRef};
use crate::tree::tree as tree_of;
use serde_json::{Number, Value};
use std::alloc::{AllocError, Global};

/// Where the items of a list stand.
#[derive(Drop)]
enum ItemsSource<'a> {
    Tree(&'a [Value]),
    Text(TextItems<'a>),
}

/// The items of a list, one after another.
#[derive(Drop)]
pub struct JsonItems<'a> {
    source: ItemsSource<'a>,
}

impl<'a> JsonItems<'a> {
    ghost use Rattle.std.specs.Prelude.{◌≡◌, MatchOption};
    ghost use Rattle.serde_json.specs.Data.{item, no_items};
    ghost use Rattle.lsp_json.specs.JsonRef.{items_data, json_data};

    /// Returns the next item, or `None` if none is left.
    #[tactic(auto, unfolding(crate::specs::JsonRef::json_data, crate::specs::JsonRef::items_data))]
    pub fn next(&mut self) -> Option<JsonRef<'a>>
        ensures { MatchOption result ((items_data self.old ≡ no_items) × (items_data self.new ≡ no_items))
            (λ json. items_data self.old ≡ item (json_data json) (items_data self.new)) }
    {
        match &mut self.source {
            ItemsSource::Tree(items) => {
                let (tree, rest) = items.split_first()?;
                *items = rest;
                Some(JsonRef {
                    source: Source::Tree(tree),
                })
            }
            ItemsSource::Text(items) => {
                let text = items.next()?;
                Some(JsonRef {
                    source: Source::Text(text),
                })
            }
        }
    }
}

/// Where a value stands.
#[derive(Drop)]
enum Source<'a> {
    Tree(&'a Value),
    Text(TextRef<'a>),
    Null,
}

/// A JSON value in a tree or in a text. To read it copies nothing.
#[derive(Drop)]
pub struct JsonRef<'a> {
    source: Source<'a>,
}

impl<'a> JsonRef<'a> {
    ghost use Rattle.std.specs.Prelude.{◌≡◌, is_some, map, option_map, option_and_then, IfOk, IfSome};
    ghost use Rattle.serde_json.specs.Data.{null};
    ghost use Rattle.serde_json.specs.Find.{as_array, as_bool, as_i64, as_null, as_number, as_object, as_str, as_u64};
    ghost use Rattle.serde_json.specs.Find.{get, to_float};
    ghost use Rattle.serde_json.specs.View.{number_view, view};
    ghost use Rattle.lsp_json.specs.JsonRef.{has_others, items_data, json_data};
    ghost use Rattle.lsp_json.specs.Text.{text_data};

    /// Refers to a tree.
    #[tactic(auto, unfolding(crate::specs::JsonRef::json_data))]
    pub fn of_tree(tree: &'a Value) -> JsonRef<'a>
        ensures { json_data result ≡ view tree.now }
    {
        JsonRef {
            source: Source::Tree(tree),
        }
    }

    /// Refers to a value in a text.
    #[tactic(auto, unfolding(crate::specs::JsonRef::json_data))]
    pub(crate) fn of_text(text: TextRef<'a>) -> JsonRef<'a>
        ensures { json_data result ≡ text_data text.entry.element }
    {
        JsonRef {
            source: Source::Text(text),
        }
    }

    /// Returns null, which stands nowhere.
    #[tactic(auto, unfolding(crate::specs::JsonRef::json_data))]
    pub fn null() -> JsonRef<'a>
        ensures { json_data result ≡ null }
    {
        JsonRef {
            source: Source::Null,
        }
    }

    /// Returns whether this is null.
    #[tactic(auto, unfolding(crate::specs::JsonRef::json_data))]
    pub fn is_null(&self) -> bool
        ensures { result ≡ is_some (as_null (json_data self.now)) }
    {
        match &self.source {
            Source::Tree(tree) => tree.is_null(),
            Source::Text(text) => text.is_null(),
            Source::Null => true,
        }
    }

    /// Returns whether this is an object.
    #[tactic(auto, unfolding(crate::specs::JsonRef::json_data))]
    pub fn is_object(&self) -> bool
        ensures { result ≡ is_some (as_object (json_data self.now)) }
    {
        match &self.source {
            Source::Tree(tree) => tree.is_object(),
            Source::Text(text) => text.is_object(),
            Source::Null => false,
        }
    }

    /// Returns the boolean that this is, if it is one.
    #[tactic(auto, unfolding(crate::specs::JsonRef::json_data))]
    pub fn as_bool(&self) -> Option<bool>
        ensures { result ≡ as_bool (json_data self.now) }
    {
        match &self.source {
            Source::Tree(tree) => tree.as_bool(),
            Source::Text(text) => text.as_bool(),
            Source::Null => None,
        }
    }

    /// Returns the text that this is, if it is one.
    #[tactic(auto, unfolding(crate::specs::JsonRef::json_data))]
    pub fn as_str(&self) -> Option<&'a str>
        ensures { option_map (λ text. text.now) result ≡ as_str (json_data self.now) }
    {
        match &self.source {
            Source::Tree(tree) => tree.as_str(),
            Source::Text(text) => text.as_str(),
            Source::Null => None,
        }
    }

    /// Returns the number that this is, if it is one.
    #[tactic(auto, unfolding(crate::specs::JsonRef::json_data))]
    pub fn as_number(&self) -> Option<Number>
        ensures { option_map number_view result ≡ as_number (json_data self.now) }
    {
        match &self.source {
            Source::Tree(tree) => tree.as_number().copied(),
            Source::Text(text) => text.as_number(),
            Source::Null => None,
        }
    }

    /// Returns the whole number from 0 to 2^64 - 1 that this is, if it is one.
    #[tactic(auto, unfolding(crate::specs::JsonRef::json_data))]
    pub fn as_u64(&self) -> Option<u64>
        ensures { result ≡ option_and_then as_u64 (as_number (json_data self.now)) }
    {
        match &self.source {
            Source::Tree(tree) => tree.as_u64(),
            Source::Text(text) => text.as_number()?.as_u64(),
            Source::Null => None,
        }
    }

    /// Returns the whole number from -2^63 to 2^63 - 1 that this is, if it is one.
    #[tactic(auto, unfolding(crate::specs::JsonRef::json_data))]
    pub fn as_i64(&self) -> Option<i64>
        ensures { result ≡ option_and_then as_i64 (as_number (json_data self.now)) }
    {
        match &self.source {
            Source::Tree(tree) => tree.as_i64(),
            Source::Text(text) => text.as_number()?.as_i64(),
            Source::Null => None,
        }
    }

    /// Returns the float that is nearest to this number, if this is one.
    #[tactic(auto, unfolding(crate::specs::JsonRef::json_data))]
    pub fn as_f64(&self) -> Option<f64>
        ensures { result ≡ option_map to_float (as_number (json_data self.now)) }
    {
        match &self.source {
            Source::Tree(tree) => tree.as_f64(),
            Source::Text(text) => text.as_number()?.as_f64(),
            Source::Null => None,
        }
    }

    /// Returns the member with this key, if this is an object that has one. Of several members with one key it is the
    /// last.
    #[tactic(auto, unfolding(crate::specs::JsonRef::json_data))]
    pub fn get(&self, key: &str) -> Option<JsonRef<'a>>
        ensures { option_map json_data result ≡ get key.now (json_data self.now) }
    {
        match &self.source {
            Source::Tree(tree) => Some(JsonRef::of_tree(tree.get(key)?)),
            Source::Text(text) => Some(JsonRef::of_text(text.get(key)?)),
            Source::Null => None,
        }
    }

    /// Returns whether this is an object that has a member with another key than these.
    #[tactic(auto, unfolding(crate::specs::JsonRef::json_data))]
    pub fn has_others(&self, keys: &[&'static str]) -> bool
        ensures { result ≡ has_others (map (λ key. key.now) keys.now) (json_data self.now) }
    {
        match &self.source {
            Source::Tree(tree) => tree_has_others(tree, keys),
            Source::Text(text) => text_has_others(text, keys),
            Source::Null => false,
        }
    }

    /// Returns the items of the list that this is, if it is one.
    #[tactic(auto, unfolding(crate::specs::JsonRef::json_data, crate::specs::JsonRef::items_data))]
    pub fn items(&self) -> Option<JsonItems<'a>>
        ensures { option_map items_data result ≡ as_array (json_data self.now) }
    {
        let source = match &self.source {
            Source::Tree(tree) => ItemsSource::Tree(tree.as_array()?.as_slice()),
            Source::Text(text) => ItemsSource::Text(text.items()?),
            Source::Null => return None,
        };
        Some(JsonItems { source })
    }

    /// Returns the tree that this refers to, or `None` if it stands in a text.
    #[tactic(auto, unfolding(crate::specs::JsonRef::json_data))]
    pub fn as_tree(&self) -> Option<&'a Value>
        ensures { IfSome result (λ tree. view tree.now ≡ json_data self.now) }
    {
        match &self.source {
            Source::Tree(tree) => Some(tree),
            Source::Text(_) | Source::Null => None,
        }
    }

    /// Returns a tree with the same value. The error means that an allocation failed.
    #[tactic(auto, unfolding(crate::specs::JsonRef::json_data))]
    pub fn to_value(&self, alloc: Global) -> Result<Value, AllocError>
        ensures { IfOk result (λ tree. view tree ≡ json_data self.now) }
    {
        match &self.source {
            Source::Tree(tree) => (*tree).clone(),
            Source::Text(text) => tree_of(alloc, text),
            Source::Null => Ok(Value::Null),
        }
    }
}
