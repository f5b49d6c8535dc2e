// How values are written as JSON.
ghost use Rattle.std.specs.Prelude.{◌≡◌, IfOk, OnOk, Some, map, option_map, string_bytes};
ghost use Rattle.serde_json.specs.Data.{Data, array, string};
ghost use Rattle.serde_json.specs.View.{items_of, view};
ghost use Rattle.lsp_json_write.specs.Taken.{Steps, with_value};
ghost use Rattle.lsp_types.specs.Json.{object_of};
ghost use Rattle.lsp_types.specs.Writes.{WritesMember};

use lsp_json_write::{JsonSink, TreeWriter};
use serde_json::Value;
use std::alloc::{AllocError, Global};
use std::collections::BTreeMap;

/// A type that can be written as JSON. `stands` says which JSON a value is.
pub trait ToJson {
    // The JSON that a value stands for.
    ghost stands: { Self → Data };

    /// Writes the value to a text or a tree. The error is that of the sink.
    fn write_json<S: JsonSink>(&self, out: &mut S) -> Result<(), S::Error>
        ensures { OnOk result (Steps S.holds (with_value (stands self.now)) out.old out.new) };

    /// Returns the value as a tree. The error means that an allocation failed.
    final fn to_json(&self, alloc: Global) -> Result<Value, AllocError>
        ensures { IfOk result (λ tree. view tree ≡ stands self.now) }
    {
        let mut tree = TreeWriter::new(alloc);
        self.write_json(&mut tree)?;
        Ok(tree.into_value())
    }
}

/// Writes a member of an object that was begun. Write the members in the order of their keys. The error is that of the
/// sink.
pub fn write_member<T: ToJson, S: JsonSink>(
    out: &mut S,
    key: &str,
    value: &T,
) -> Result<(), S::Error>
    ensures { OnOk result (WritesMember S.holds key.now (Some (T.stands value.now)) out.old out.new) }
{
    out.key(key)?;
    value.write_json(out)
}

/// Writes a member of an object that was begun, if it has a value. Write the members in the order of their keys. The
/// error is that of the sink.
pub fn write_some<T: ToJson, S: JsonSink>(
    out: &mut S,
    key: &str,
    value: &Option<T>,
) -> Result<(), S::Error>
    ensures { OnOk result (WritesMember S.holds key.now (option_map T.stands value.now) out.old out.new) }
{
    match value {
        Some(value) => write_member(out, key, value),
        None => Ok(()),
    }
}

/// Writes a member that is this text, of an object that was begun. Write the members in the order of their keys. The
/// error is that of the sink.
pub fn write_text<S: JsonSink>(out: &mut S, key: &str, text: &str) -> Result<(), S::Error>
    ensures { OnOk result (WritesMember S.holds key.now (Some (string text.now)) out.old out.new) }
{
    out.key(key)?;
    out.str(text)
}

/// Writes a list of these values. The error is that of the sink.
pub(crate) fn write_items<T: ToJson, S: JsonSink>(out: &mut S, values: &[T]) -> Result<(), S::Error>
    ensures { OnOk result
        (Steps S.holds (with_value (array (items_of (map T.stands values.now)))) out.old out.new) }
{
    out.begin_array()?;
    for value in values {
        value.write_json(out)?;
    }
    out.end_array()
}

/// Writes an object with a member for each entry of a map. The error is that of the sink.
pub(crate) fn write_map<T: ToJson, S: JsonSink>(
    out: &mut S,
    values: &BTreeMap<String, T>,
) -> Result<(), S::Error>
    ensures { OnOk result (Steps S.holds (with_value (object_of
        (map (λ entry. (string_bytes entry.0, Some (T.stands entry.1))) values.now.entries))) out.old out.new) }
{
    out.begin_object()?;
    for (key, value) in values.iter() {
        out.key(key.as_str())?;
        value.write_json(out)?;
    }
    out.end_object()
}
