// Texts of JSON that are written piece by piece.
use crate::messages::{nested, text_in, value_in};
use crate::said::Said;
use lsp_json_write::{JsonSink, JsonWriteError, JsonWriter, TreeWriter};
use lsp_methods::result_text;
use serde_json::Value;
use std::alloc::{AllocError, Global};

/// Says the text that the steps of a row write, or a result that is so many lists, each in the next.
pub fn made(said: &mut Said, word: &str, row: &str) {
    match word {
        "text" => steps(said, row),
        _ => deep(said, row),
    }
}

/// Says the text that the steps write, and also that of the tree that they make, if it is another one.
fn steps(said: &mut Said, row: &str) {
    match text_of(said, row) {
        Ok(text) => {
            say_both(said, row, text.as_str());
            drop(text);
        }
        Err(error) => say_text(said, Err(error)),
    }
}

fn say_both(said: &mut Said, row: &str, text: &str) {
    said.push(text);
    match tree_text(said, row) {
        Ok(tree) => {
            if tree.as_str() != text {
                said.push("; but its tree is ");
                said.push(tree.as_str());
            }
            drop(tree);
        }
        Err(_) => said.is_short = true,
    }
}

/// Says a text that was written.
pub fn say_text(said: &mut Said, written: Result<String, JsonWriteError>) {
    match written {
        Ok(text) => {
            said.push(text.as_str());
            drop(text);
        }
        Err(JsonWriteError::OutOfMemory) => said.is_short = true,
        Err(error) => said.show(error),
    }
}

fn deep(said: &mut Said, row: &str) {
    let levels = said.count_in(row);
    match nested(said.alloc, levels) {
        Ok(value) => {
            say_result(said, &value);
            drop(value);
        }
        Err(_) => said.is_short = true,
    }
}

/// Says the tree of the text of a result.
fn say_result(said: &mut Said, value: &Value) {
    match tree_of(said.alloc, value) {
        Ok(tree) => said.show(tree),
        Err(_) => said.is_short = true,
    }
}

fn tree_of(alloc: Global, value: &Value) -> Result<Value, AllocError> {
    result_text(alloc, value)?.into_value(alloc)
}

/// Takes the steps on a new writer of text, up to one that fails.
fn text_of(said: &mut Said, steps: &str) -> Result<String, JsonWriteError> {
    let mut out = JsonWriter::new(said.alloc)?;
    take_each(said, &mut out, steps)?;
    Ok(out.into_string()?)
}

/// Takes the steps on a new writer of a tree, up to one that fails, and returns the text of the tree.
fn tree_text(said: &mut Said, steps: &str) -> Result<String, AllocError> {
    let mut out = TreeWriter::new(said.alloc);
    take_each(said, &mut out, steps)?;
    let tree = out.into_value();
    tree.to_string(said.alloc)
}

fn take_each<S: JsonSink>(said: &mut Said, out: &mut S, steps: &str) -> Result<(), S::Error> {
    for step in steps.split("; ") {
        take(said, out, step)?;
    }
    Ok(())
}

fn take<S: JsonSink>(said: &mut Said, out: &mut S, step: &str) -> Result<(), S::Error> {
    match step {
        "null" => out.null(),
        "true" => out.bool(true),
        "false" => out.bool(false),
        "[" => out.begin_array(),
        "]" => out.end_array(),
        "{" => out.begin_object(),
        "}" => out.end_object(),
        _ => take_value(said, out, step),
    }
}

/// A step with a value: a word, and the value as JSON.
fn take_value<S: JsonSink>(said: &mut Said, out: &mut S, step: &str) -> Result<(), S::Error> {
    let (word, text) = said.cut(step, " ");
    let value = value_in(said.alloc, text)?;
    let taken = write_as(said, out, word, &value);
    drop(value);
    taken
}

fn write_as<S: JsonSink>(
    said: &mut Said,
    out: &mut S,
    word: &str,
    value: &Value,
) -> Result<(), S::Error> {
    match word {
        "key" => out.key(text_in(Some(value))),
        "str" => out.str(text_in(Some(value))),
        "u64" => out.u64(value.as_u64().unwrap_or(0)),
        "i64" => out.i64(value.as_i64().unwrap_or(0)),
        "f64" => out.f64(value.as_f64().unwrap_or(0.0)),
        "value" => out.value(value),
        "open" => open(out, value.as_u64().unwrap_or(0)),
        "close" => close(out, value.as_u64().unwrap_or(0)),
        _ => {
            said.unknown();
            Ok(())
        }
    }
}

/// Begins so many lists, each in the next.
fn open<S: JsonSink>(out: &mut S, levels: u64) -> Result<(), S::Error> {
    for _ in 0..levels {
        out.begin_array()?;
    }
    Ok(())
}

/// Ends so many lists.
fn close<S: JsonSink>(out: &mut S, levels: u64) -> Result<(), S::Error> {
    for _ in 0..levels {
        out.end_array()?;
    }
    Ok(())
}
