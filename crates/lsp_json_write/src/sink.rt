//! What JSON is written to.

ghost use Rattle.std.specs.Prelude.{OnOk, option_map, unwrap_or};
ghost use Rattle.serde_json.specs.Data.{boolean, null, number, string, unsigned};
ghost use Rattle.serde_json.specs.Find.{of_float, of_integer};
ghost use Rattle.serde_json.specs.View.{view};
ghost use Rattle.lsp_json_write.specs.Taken.{Steps, Taken, array_ended, object_ended, with_array, with_key, with_object};
ghost use Rattle.lsp_json_write.specs.Taken.{with_value};

use serde_json::Value;
use std::alloc::{AllocError, Global};

/// What a JSON value is written to, part by part: a text or a tree.
///
/// To write an array, call `begin_array`, write each item, and call `end_array`. To write an object, call
/// `begin_object`, then `key` and a value for each member, and `end_object`. Write the members in the order of their
/// keys, and each key once: `serde_json` writes them in this order. A sink does not check the order of the calls.
///
/// Drop the sink after an error. What it has taken is incomplete.
pub trait JsonSink {
    /// Why a value could not be written.
    type Error: Drop + From<AllocError>;

    // Whether the sink has taken this.
    ghost holds: { Self → Taken → Type 0 };

    /// Returns the allocator of the sink.
    fn alloc(&self) -> Global;

    /// Writes null.
    fn null(&mut self) -> Result<(), Self::Error>
        ensures { OnOk result (Steps holds (with_value null) self.old self.new) };

    /// Writes a boolean.
    fn bool(&mut self, value: bool) -> Result<(), Self::Error>
        ensures { OnOk result (Steps holds (with_value (boolean value)) self.old self.new) };

    /// Writes a number that is not below zero.
    fn u64(&mut self, value: u64) -> Result<(), Self::Error>
        ensures { OnOk result (Steps holds (with_value (number (unsigned value))) self.old self.new) };

    /// Writes a whole number.
    fn i64(&mut self, value: i64) -> Result<(), Self::Error>
        ensures { OnOk result (Steps holds (with_value (number (of_integer value))) self.old self.new) };

    /// Writes a float, or null if it is not finite.
    fn f64(&mut self, value: f64) -> Result<(), Self::Error>
        ensures { OnOk result (Steps holds
            (with_value (unwrap_or (option_map number (of_float value)) null)) self.old self.new) };

    /// Writes a string.
    fn str(&mut self, text: &str) -> Result<(), Self::Error>
        ensures { OnOk result (Steps holds (with_value (string text.now)) self.old self.new) };

    /// Writes a whole tree.
    fn value(&mut self, value: &Value) -> Result<(), Self::Error>
        ensures { OnOk result (Steps holds (with_value (view value.now)) self.old self.new) };

    /// Begins an array. Its items follow, and then `end_array`.
    fn begin_array(&mut self) -> Result<(), Self::Error>
        ensures { OnOk result (Steps holds with_array self.old self.new) };

    /// Ends an array.
    fn end_array(&mut self) -> Result<(), Self::Error>
        ensures { OnOk result (Steps holds array_ended self.old self.new) };

    /// Begins an object. Its members follow, and then `end_object`.
    fn begin_object(&mut self) -> Result<(), Self::Error>
        ensures { OnOk result (Steps holds with_object self.old self.new) };

    /// Writes the key of a member. The member's value follows.
    fn key(&mut self, key: &str) -> Result<(), Self::Error>
        ensures { OnOk result (Steps holds (with_key key.now) self.old self.new) };

    /// Ends an object.
    fn end_object(&mut self) -> Result<(), Self::Error>
        ensures { OnOk result (Steps holds object_ended self.old self.new) };
}
