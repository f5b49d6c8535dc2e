// Plain values, lists and maps, as they are written.
ghost use Rattle.std.specs.Prelude.{map, option_map, string_bytes, unwrap_or, Some};
ghost use Rattle.serde_json.specs.Data.{array, boolean, null, number, string, unsigned};
ghost use Rattle.serde_json.specs.Find.{of_float, of_integer};
ghost use Rattle.serde_json.specs.View.{items_of, view};
ghost use Rattle.lsp_types.specs.Json.{object_of};
ghost use Rattle.lsp_types.specs.Written.{content_change, position, range};

use crate::json::writing::{write_items, write_map};
use crate::json::{ToJson, write_member, write_some};
use lsp_json_write::JsonSink;
use lsp_text::{ContentChange, Position, Range};
use serde_json::Value;
use std::collections::BTreeMap;

impl ToJson for bool {
    ghost stands = { boolean };

    fn write_json<S: JsonSink>(&self, out: &mut S) -> Result<(), S::Error> {
        out.bool(*self)
    }
}

impl ToJson for u32 {
    ghost stands = { λ n. number (unsigned n) };

    fn write_json<S: JsonSink>(&self, out: &mut S) -> Result<(), S::Error> {
        out.u64(u64::from(*self))
    }
}

impl ToJson for i32 {
    ghost stands = { λ z. number (of_integer z) };

    fn write_json<S: JsonSink>(&self, out: &mut S) -> Result<(), S::Error> {
        out.i64(i64::from(*self))
    }
}

// What is no number of JSON is null.
impl ToJson for f64 {
    ghost stands = { λ x. unwrap_or (option_map number (of_float x)) null };

    fn write_json<S: JsonSink>(&self, out: &mut S) -> Result<(), S::Error> {
        out.f64(*self)
    }
}

impl ToJson for () {
    ghost stands = { λ _. null };

    fn write_json<S: JsonSink>(&self, out: &mut S) -> Result<(), S::Error> {
        out.null()
    }
}

impl ToJson for String {
    ghost stands = { λ text. string (string_bytes text) };

    fn write_json<S: JsonSink>(&self, out: &mut S) -> Result<(), S::Error> {
        out.str(self.as_str())
    }
}

impl ToJson for Value {
    ghost stands = { view };

    fn write_json<S: JsonSink>(&self, out: &mut S) -> Result<(), S::Error> {
        out.value(self)
    }
}

impl<T: ToJson> ToJson for Option<T> {
    ghost stands = { λ value. unwrap_or (option_map T.stands value) null };

    fn write_json<S: JsonSink>(&self, out: &mut S) -> Result<(), S::Error> {
        match self {
            Some(value) => value.write_json(out),
            None => out.null(),
        }
    }
}

impl<T: ToJson> ToJson for Vec<T> {
    ghost stands = { λ values. array (items_of (map T.stands values.items)) };

    fn write_json<S: JsonSink>(&self, out: &mut S) -> Result<(), S::Error> {
        write_items(out, self.as_slice())
    }
}

impl<T: ToJson> ToJson for BTreeMap<String, T> {
    ghost stands = { λ values. object_of
        (map (λ entry. (string_bytes entry.0, Some (T.stands entry.1))) values.entries) };

    fn write_json<S: JsonSink>(&self, out: &mut S) -> Result<(), S::Error> {
        write_map(out, self)
    }
}

impl ToJson for Position {
    ghost stands = { position };

    fn write_json<S: JsonSink>(&self, out: &mut S) -> Result<(), S::Error> {
        out.begin_object()?;
        write_member(out, "character", &self.character)?;
        write_member(out, "line", &self.line)?;
        out.end_object()
    }
}

impl ToJson for Range {
    ghost stands = { range };

    fn write_json<S: JsonSink>(&self, out: &mut S) -> Result<(), S::Error> {
        out.begin_object()?;
        write_member(out, "end", &self.end)?;
        write_member(out, "start", &self.start)?;
        out.end_object()
    }
}

impl ToJson for ContentChange {
    ghost stands = { content_change };

    fn write_json<S: JsonSink>(&self, out: &mut S) -> Result<(), S::Error> {
        out.begin_object()?;
        write_some(out, "range", &self.range)?;
        write_member(out, "text", &self.text)?;
        out.end_object()
    }
}
