//! Writing a JSON text, value after value.

ghost use Rattle.std.specs.Prelude.{◌≡◌, ◌+◌, OnOk, IfOk, string_bytes};
ghost use Rattle.serde_json.specs.Data.{Data, Items, Members, no_items, no_members, number};
ghost use Rattle.serde_json.specs.View.{items_view, members_view, number_view, view};
ghost use Rattle.lsp_json_write.specs.Taken.{Steps, Taken, nothing, open_array, open_object, whole, with_value};
ghost use Rattle.lsp_json_write.specs.Text.{HasWritten, IsWrittenText};

use crate::sink::JsonSink;
use json::Writer;
use serde_json::{Map, Number, Value};
use std::alloc::{AllocError, Global};
use std::error::Error;
use std::fmt;

/// How deep the arrays and the objects of a text may nest.
const MAX_DEPTH: u32 = 127;

/// Room for a short text, which is then written with one allocation.
const USUAL_LENGTH: usize = 128;

/// Why a JSON text could not be written.
#[derive(Clone, Copy, Debug, Drop, PartialEq)]
pub enum JsonWriteError {
    /// An allocation failed.
    OutOfMemory,
    /// The value nests more than 127 levels, so `serde_json` would not read its text.
    TooDeep,
}

impl fmt::Display for JsonWriteError {
    fn fmt<W: fmt::Write>(&self, f: &mut fmt::Formatter<W>) -> fmt::Result {
        match self {
            JsonWriteError::OutOfMemory => f.write_str("out of memory"),
            JsonWriteError::TooDeep => f.write_str("more than 127 levels of JSON"),
        }
    }
}

impl Error for JsonWriteError {}

impl From<AllocError> for JsonWriteError {
    ghost use Rattle.std.specs.Prelude.{◌≡◌};
    ghost use Rattle.lsp_json_write.specs.declared.json_writer.JsonWriteError.TheVariants.{OutOfMemory};

    ghost from_gives = { λ _ error. error ≡ OutOfMemory };

    /// Makes the error `OutOfMemory`.
    fn from(_: AllocError) -> JsonWriteError {
        JsonWriteError::OutOfMemory
    }
}

/// Writes a JSON text, value after value, and makes no tree. The text has no space.
///
/// The error is `TooDeep` if an array or an object begins where 127 are open, also inside a tree that `value` writes. All
/// other errors are `OutOfMemory`.
#[derive(Drop)]
pub struct JsonWriter {
    alloc: Global,
    out: Writer,
    /// How many levels may still be opened.
    levels: u32,
}

impl JsonWriter {
    /// Makes a writer that has written nothing. The error means that an allocation failed.
    pub fn new(alloc: Global) -> Result<JsonWriter, AllocError>
        ensures { IfOk result (λ writer. HasWritten writer nothing) }
    {
        Ok(JsonWriter {
            alloc,
            out: Writer::new(Vec::with_capacity(alloc, USUAL_LENGTH)?),
            levels: MAX_DEPTH,
        })
    }

    /// Returns the text, and does not copy it. The error would mean that the text is not UTF-8. The writer writes UTF-8
    /// only, so a caller may pass the error on as it is.
    pub fn into_string(self) -> Result<String, AllocError>
        ensures { (d : Data) → HasWritten self (whole d) → IfOk result (λ text. IsWrittenText d (string_bytes text)) }
    {
        text_of(self.out.into_inner())
    }

    /// Returns how many levels may be opened after one more. The error is `TooDeep` if none may be opened.
    fn one_less(&self) -> Result<u32, JsonWriteError>
        ensures { IfOk result (λ left. self.now.levels ≡ left + 1) }
    {
        self.levels.checked_sub(1).ok_or(JsonWriteError::TooDeep)
    }

    /// Writes a number of a tree.
    fn number(&mut self, value: &Number) -> Result<(), JsonWriteError>
        ensures { OnOk result (Steps HasWritten (with_value (number (number_view value.now))) self.old self.new) }
    {
        if let Some(value) = value.as_u64() {
            return self.u64(value);
        }
        if let Some(value) = value.as_i64() {
            return self.i64(value);
        }
        match value.as_f64() {
            Some(value) => self.f64(value),
            None => self.null(),
        }
    }

    /// Writes a whole tree.
    #[cycle(tree)]
    fn tree(&mut self, value: &Value) -> Result<(), JsonWriteError>
        ensures { OnOk result (Steps HasWritten (with_value (view value.now)) self.old self.new) }
    {
        match value {
            Value::Null => self.null(),
            Value::Bool(value) => self.bool(*value),
            Value::Number(value) => self.number(value),
            Value::String(value) => self.str(value.as_str()),
            Value::Array(items) => {
                self.begin_array()?;
                self.items(items)?;
                self.end_array()
            }
            Value::Object(members) => {
                self.begin_object()?;
                self.members(members)?;
                self.end_object()
            }
        }
    }

    /// Writes the items of an array that was begun.
    #[cycle(tree)]
    fn items(&mut self, items: &Vec<Value>) -> Result<(), JsonWriteError>
        ensures { OnOk result ((outer : Taken) → HasWritten self.old (open_array no_items outer)
            → HasWritten self.new (open_array (items_view items.now.items) outer)) }
    {
        for item in items {
            self.tree(item)?;
        }
        Ok(())
    }

    /// Writes the members of an object that was begun.
    #[cycle(tree)]
    fn members(&mut self, members: &Map<String, Value>) -> Result<(), JsonWriteError>
        ensures { OnOk result ((outer : Taken) → HasWritten self.old (open_object no_members outer)
            → HasWritten self.new (open_object (members_view members.now.entries) outer)) }
    {
        for (key, member) in members.iter() {
            self.key(key.as_str())?;
            self.tree(member)?;
        }
        Ok(())
    }
}

impl JsonSink for JsonWriter {
    type Error = JsonWriteError;

    ghost holds = { HasWritten };

    fn alloc(&self) -> Global {
        self.alloc
    }

    fn null(&mut self) -> Result<(), JsonWriteError> {
        Ok(self.out.null()?)
    }

    fn bool(&mut self, value: bool) -> Result<(), JsonWriteError> {
        Ok(self.out.boolean(value)?)
    }

    fn u64(&mut self, value: u64) -> Result<(), JsonWriteError> {
        Ok(self.out.u64(value)?)
    }

    fn i64(&mut self, value: i64) -> Result<(), JsonWriteError> {
        Ok(self.out.i64(value)?)
    }

    fn f64(&mut self, value: f64) -> Result<(), JsonWriteError> {
        if !value.is_finite() {
            return self.null();
        }
        Ok(self.out.float_with_plus(value)?)
    }

    fn str(&mut self, text: &str) -> Result<(), JsonWriteError> {
        Ok(self.out.string(text)?)
    }

    fn value(&mut self, value: &Value) -> Result<(), JsonWriteError> {
        self.tree(value)
    }

    fn begin_array(&mut self) -> Result<(), JsonWriteError> {
        self.levels = self.one_less()?;
        Ok(self.out.begin_array()?)
    }

    fn end_array(&mut self) -> Result<(), JsonWriteError> {
        self.levels = self.levels.saturating_add(1);
        Ok(self.out.end_array()?)
    }

    fn begin_object(&mut self) -> Result<(), JsonWriteError> {
        self.levels = self.one_less()?;
        Ok(self.out.begin_object()?)
    }

    fn key(&mut self, key: &str) -> Result<(), JsonWriteError> {
        Ok(self.out.key(key)?)
    }

    fn end_object(&mut self) -> Result<(), JsonWriteError> {
        self.levels = self.levels.saturating_add(1);
        Ok(self.out.end_object()?)
    }
}

/// Makes a string of these bytes. The error means that they are not UTF-8.
fn text_of(bytes: Vec<u8>) -> Result<String, AllocError>
    ensures { IfOk result (λ text. string_bytes text ≡ bytes.items) }
{
    String::from_utf8(bytes).map_err(|_| AllocError)
}
