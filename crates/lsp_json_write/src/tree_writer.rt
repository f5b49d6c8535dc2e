//! Making a JSON tree, value after value.

ghost use Rattle.std.specs.Prelude.{IfOk, OnOk, ◌≡◌};
ghost use Rattle.serde_json.specs.Data.{Data};
ghost use Rattle.serde_json.specs.View.{view};
ghost use Rattle.lsp_json_write.specs.Taken.{Steps, nothing, whole, with_value};
ghost use Rattle.lsp_json_write.specs.Tree.{HasMade};

use crate::sink::JsonSink;
use serde_json::{Map, Value};
use std::alloc::{AllocError, Global};

/// An array or an object that is open.
#[derive(Drop)]
enum Level {
    Array(Vec<Value>),
    Object(Map<String, Value>),
    /// The value of the key comes next.
    Member(Map<String, Value>, String),
}

/// Makes a JSON tree, value after value. Each error means that an allocation failed.
#[derive(Drop)]
pub struct TreeWriter {
    alloc: Global,
    root: Option<Value>,
    /// The innermost is last.
    levels: Vec<Level>,
}

impl TreeWriter {
    /// Makes a writer that has taken nothing.
    pub fn new(alloc: Global) -> TreeWriter
        ensures { HasMade result nothing }
    {
        TreeWriter {
            alloc,
            root: None,
            levels: Vec::new(alloc),
        }
    }

    /// Adds a value where the writer stands.
    fn put(&mut self, value: Value) -> Result<(), AllocError>
        ensures { OnOk result (Steps HasMade (with_value (view value)) self.old self.new) }
    {
        match self.levels.pop() {
            None => {
                self.root = Some(value);
                Ok(())
            }
            Some(Level::Array(mut items)) => {
                items.push(value)?;
                Ok(self.levels.push(Level::Array(items))?)
            }
            Some(Level::Member(mut members, key)) => {
                drop(members.insert(key, value)?);
                Ok(self.levels.push(Level::Object(members))?)
            }
            Some(Level::Object(_)) => Ok(()),
        }
    }

    /// Returns the tree, or null if the writer has taken no whole value.
    pub fn into_value(self) -> Value
        ensures { (d : Data) → HasMade self (whole d) → view result ≡ d }
    {
        self.root.unwrap_or(Value::Null)
    }
}

impl JsonSink for TreeWriter {
    type Error = AllocError;

    ghost holds = { HasMade };

    fn alloc(&self) -> Global {
        self.alloc
    }

    fn null(&mut self) -> Result<(), AllocError> {
        self.put(Value::Null)
    }

    fn bool(&mut self, value: bool) -> Result<(), AllocError> {
        self.put(Value::Bool(value))
    }

    fn u64(&mut self, value: u64) -> Result<(), AllocError> {
        self.put(Value::from(value))
    }

    fn i64(&mut self, value: i64) -> Result<(), AllocError> {
        self.put(Value::from(value))
    }

    fn f64(&mut self, value: f64) -> Result<(), AllocError> {
        self.put(Value::from(value))
    }

    fn str(&mut self, text: &str) -> Result<(), AllocError> {
        let value = Value::try_from_str(self.alloc, text)?;
        self.put(value)
    }

    fn value(&mut self, value: &Value) -> Result<(), AllocError> {
        let value = value.clone()?;
        self.put(value)
    }

    fn begin_array(&mut self) -> Result<(), AllocError> {
        let items = Vec::new(self.alloc);
        Ok(self.levels.push(Level::Array(items))?)
    }

    fn end_array(&mut self) -> Result<(), AllocError> {
        match self.levels.pop() {
            Some(Level::Array(items)) => self.put(Value::Array(items)),
            _ => Ok(()),
        }
    }

    fn begin_object(&mut self) -> Result<(), AllocError> {
        let members = Map::new(self.alloc);
        Ok(self.levels.push(Level::Object(members))?)
    }

    fn key(&mut self, key: &str) -> Result<(), AllocError> {
        let name = String::from_str(self.alloc, key)?;
        match self.levels.pop() {
            Some(Level::Object(members)) => Ok(self.levels.push(Level::Member(members, name))?),
            _ => Ok(()),
        }
    }

    fn end_object(&mut self) -> Result<(), AllocError> {
        match self.levels.pop() {
            Some(Level::Object(members)) => self.put(Value::Object(members)),
            _ => Ok(()),
        }
    }
}
