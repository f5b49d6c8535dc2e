// Plain values, as they are read.
ghost use Rattle.std.specs.Prelude.{◌≡◌, codes, string_bytes, Some, option_and_then, option_map};
ghost use Rattle.serde_json.specs.Data.{null};
ghost use Rattle.serde_json.specs.Find.{as_bool, as_number, as_str, get, to_float};
ghost use Rattle.serde_json.specs.View.{view};
ghost use Rattle.lsp_json.specs.JsonRef.{json_data};
ghost use Rattle.lsp_types.specs.Reads.{IsChange, IsInt, IsLine, IsPosition, IsRange, IsWhole, ReadsAs, ReadsOrNull, Required, TextAs, TextOrEmpty};

use crate::json::{FromJson, Misfit, optional, required};
use lsp_json::JsonRef;
use lsp_text::{ContentChange, Position, Range};
use serde_json::Value;
use std::alloc::Global;

impl FromJson for bool {
    ghost reads = { λ json it. as_bool json ≡ Some it };

    fn from_json(_alloc: Global, value: &JsonRef<'_>) -> Result<bool, Misfit> {
        match value.as_bool() {
            Some(it) => Ok(it),
            None => Err(Misfit::Wanted("true or false")),
        }
    }
}

impl FromJson for u32 {
    ghost reads = { IsWhole };

    fn from_json(_alloc: Global, value: &JsonRef<'_>) -> Result<u32, Misfit> {
        match value.as_u64() {
            Some(n) if n <= u32::MAX as u64 => Ok(n as u32),
            _ => Err(Misfit::Wanted("a whole number from 0 to 2^32 - 1")),
        }
    }
}

impl FromJson for i32 {
    ghost reads = { IsInt };

    fn from_json(_alloc: Global, value: &JsonRef<'_>) -> Result<i32, Misfit> {
        let Some(number) = value.as_i64() else {
            return Err(Misfit::Wanted("a whole number of 32 bits"));
        };
        match i32::try_from(number) {
            Ok(it) => Ok(it),
            Err(_) => Err(Misfit::Wanted("a whole number of 32 bits")),
        }
    }
}

impl FromJson for f64 {
    ghost reads = { λ json x. option_map to_float (as_number json) ≡ Some x };

    fn from_json(_alloc: Global, value: &JsonRef<'_>) -> Result<f64, Misfit> {
        match value.as_f64() {
            Some(x) => Ok(x),
            None => Err(Misfit::Wanted("a number")),
        }
    }
}

impl FromJson for () {
    ghost reads = { λ json _. json ≡ null };

    fn from_json(_alloc: Global, value: &JsonRef<'_>) -> Result<(), Misfit> {
        if value.is_null() {
            return Ok(());
        }
        Err(Misfit::Wanted("null"))
    }
}

impl FromJson for String {
    ghost reads = { λ json text. as_str json ≡ Some (string_bytes text) };

    fn from_json(alloc: Global, value: &JsonRef<'_>) -> Result<String, Misfit> {
        let Some(text) = value.as_str() else {
            return Err(Misfit::Wanted("a string"));
        };
        match String::from_str(alloc, text) {
            Ok(text) => Ok(text),
            Err(_) => Err(Misfit::Memory),
        }
    }
}

impl FromJson for Value {
    ghost reads = { λ json it. view it ≡ json };

    fn from_json(alloc: Global, value: &JsonRef<'_>) -> Result<Value, Misfit> {
        match value.to_value(alloc) {
            Ok(it) => Ok(it),
            Err(_) => Err(Misfit::Memory),
        }
    }
}

impl<T: FromJson> FromJson for Option<T> {
    ghost reads = { λ json it. ReadsOrNull T.reads json it };

    fn from_json(alloc: Global, value: &JsonRef<'_>) -> Result<Option<T>, Misfit> {
        if value.is_null() {
            return Ok(None);
        }
        match T::from_json(alloc, value) {
            Ok(it) => Ok(Some(it)),
            Err(misfit) => Err(misfit),
        }
    }
}

/// Reads a text that only informs. It is empty if it is missing, null or no text.
#[tactic(auto, unfolding(crate::specs::Reads::TextOrEmpty))]
pub fn text_or_empty(
    alloc: Global,
    value: &JsonRef<'_>,
    key: &'static str,
) -> Result<String, Misfit>
    ensures { ReadsAs (TextOrEmpty key.now (json_data value.now)) result }
{
    if !value.is_object() {
        return Err(Misfit::Wanted("an object"));
    }
    let text = match value.get(key) {
        Some(member) => member.as_str(),
        None => None,
    };
    match String::from_str(alloc, text.unwrap_or("")) {
        Ok(text) => Ok(text),
        Err(_) => Err(Misfit::Memory),
    }
}

impl FromJson for Position {
    ghost reads = { IsPosition };

    fn from_json(alloc: Global, value: &JsonRef<'_>) -> Result<Position, Misfit> {
        Ok(Position {
            line: line(value)?,
            character: required(alloc, value, "character")?,
        })
    }
}

/// Reads the line of a position. A negative one counts as 0.
#[tactic(auto, using(crate::proofs::ReadLemmas::whole_line, crate::proofs::ReadLemmas::negative_line, crate::proofs::ReadLemmas::no_line), unfolding(crate::specs::Reads::Required))]
fn line(value: &JsonRef<'_>) -> Result<u32, Misfit>
    ensures { ReadsAs (Required IsLine (codes "line") (json_data value.now)) result }
{
    if !value.is_object() {
        return Err(Misfit::Wanted("an object"));
    }
    let Some(line) = value.get("line") else {
        return Err(Misfit::Missing("line"));
    };
    match line.as_u64() {
        Some(n) if n <= u32::MAX as u64 => Ok(n as u32),
        Some(_) => Err(Misfit::WantedAt("line", "a whole number")),
        None => match line.as_i64() {
            Some(_) => Ok(0),
            None => Err(Misfit::WantedAt("line", "a whole number")),
        },
    }
}

impl FromJson for Range {
    ghost reads = { IsRange };

    fn from_json(alloc: Global, value: &JsonRef<'_>) -> Result<Range, Misfit> {
        Ok(Range {
            start: required(alloc, value, "start")?,
            end: required(alloc, value, "end")?,
        })
    }
}

impl FromJson for ContentChange {
    ghost reads = { IsChange };

    fn from_json(alloc: Global, value: &JsonRef<'_>) -> Result<ContentChange, Misfit> {
        Ok(ContentChange {
            range: optional(alloc, value, "range")?,
            text: text_of(alloc, value)?,
        })
    }
}

/// Reads the text of a change.
fn text_of(alloc: Global, change: &JsonRef<'_>) -> Result<String, Misfit>
    ensures { TextAs (option_and_then as_str (get (codes "text") (json_data change.now))) result }
{
    let Some(member) = change.get("text") else {
        return Err(Misfit::Missing("text"));
    };
    match member.as_str() {
        Some(text) => match String::from_str(alloc, text) {
            Ok(text) => Ok(text),
            Err(_) => Err(Misfit::Memory),
        },
        None => Err(Misfit::WantedAt("text", "a string")),
    }
}
