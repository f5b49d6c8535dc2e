// From a tree to a message. The parts of the tree are moved into the message, so that no memory is needed.
ghost use Rattle.std.specs.Str.{bytes_eq};
ghost use Rattle.std.specs.Prelude.{◌≡◌, ℕ, List, false, is_some, Some, None, option_map, option_and_then, unwrap_or, string_bytes, codes, IfOk};
ghost use Rattle.serde_json.specs.Data.{null, object, array};
ghost use Rattle.serde_json.specs.Find.{as_str, get_member};
ghost use Rattle.serde_json.specs.View.{view, number_view, items_view, members_view};
ghost use Rattle.lsp_message.specs.Meaning.{as_i32, as_id, code_of as code_in, unless_null, as_error, listed_error as error_in_list, outcome_of as outcome_in, meaning};
ghost use Rattle.lsp_message.specs.Listed.{Lists};
ghost use Rattle.lsp_message.specs.View.{error_view, outcome_view, message_view};

use crate::msg::{Message, Notification, Request, RequestId, Response, ResponseError};
use serde_json::{Map, Number, Value};
use std::alloc::{AllocError, Global};

fn whole_number(number: &Number) -> Option<i32>
    ensures { result ≡ as_i32 (number_view number.now) }
{
    i32::try_from(number.as_i128()?).ok()
}

fn text_of(value: Value) -> Option<String>
    ensures { option_map string_bytes result ≡ as_str (view value) }
{
    match value {
        Value::String(text) => Some(text),
        _ => None,
    }
}

fn id_of(value: Value) -> Option<RequestId>
    ensures { result ≡ as_id (view value) }
{
    match value {
        Value::String(text) => Some(RequestId::from(text)),
        Value::Number(number) => whole_number(&number).map(RequestId::from),
        _ => None,
    }
}

// Takes the value of a member out of an object.
fn take_member(members: &mut Map<String, Value>, name: &str) -> Option<Value>
    ensures value { option_map view result
        ≡ get_member name.now (members_view members.old.entries) }
    ensures others { (q : List ℕ) → bytes_eq q name.now ≡ false
        → get_member q (members_view members.new.entries)
        ≡ get_member q (members_view members.old.entries) }
{
    members.remove(name)
}

// An error in the form of an object.
fn object_error(mut members: Map<String, Value>) -> Option<ResponseError>
    ensures { option_map error_view result ≡ as_error (object (members_view members.entries)) }
{
    let code = take_member(&mut members, "code").and_then(code_of)?;
    let message = take_member(&mut members, "message").and_then(text_of)?;
    let data = take_member(&mut members, "data").filter(|value| !value.is_null());
    Some(ResponseError {
        code,
        message,
        data,
    })
}

fn code_of(value: Value) -> Option<i32>
    ensures { result ≡ code_in (view value) }
{
    match value {
        Value::Number(number) => whole_number(&number),
        _ => None,
    }
}

// The items of a list that is read by position.
#[derive(Drop)]
enum Listed {
    One(Value),
    Two(Value, Value),
    Three(Value, Value, Value),
    // None, or more than three.
    Other,
}

fn by_position(items: Vec<Value>) -> Listed
    ensures { Lists result (items_view items.items) }
{
    let mut items = items.into_iter();
    let Some(first) = items.next() else {
        return Listed::Other;
    };
    let Some(second) = items.next() else {
        return Listed::One(first);
    };
    let Some(third) = items.next() else {
        return Listed::Two(first, second);
    };
    match items.next() {
        Some(_) => Listed::Other,
        None => Listed::Three(first, second, third),
    }
}

// An error in the form of a list.
fn listed_error(items: Vec<Value>) -> Option<ResponseError>
    ensures { option_map error_view result ≡ error_in_list (items_view items.items) }
{
    let (code, message, data) = match by_position(items) {
        Listed::Two(code, message) => (code, message, None),
        Listed::Three(code, message, data) => (code, message, Some(data)),
        Listed::One(_) | Listed::Other => return None,
    };
    let code = code_of(code)?;
    let message = text_of(message)?;
    Some(ResponseError {
        code,
        message,
        data: data.filter(|value| !value.is_null()),
    })
}

fn error_of(value: Value) -> Option<ResponseError>
    ensures { option_map error_view result ≡ as_error (view value) }
{
    match value {
        Value::Object(members) => object_error(members),
        Value::Array(items) => listed_error(items),
        _ => None,
    }
}

// What came of a request, by the members `result` and `error`.
fn outcome_of(value: Option<Value>, error: Option<Value>) -> Option<Result<Value, ResponseError>>
    ensures { option_map outcome_view result
        ≡ outcome_in (option_map view value) (unless_null (option_map view error)) }
{
    match error {
        None | Some(Value::Null) => value.map(Ok),
        Some(error) => match value {
            None | Some(Value::Null) => error_of(error).map(Err),
            Some(_) => None,
        },
    }
}

fn object_message(mut members: Map<String, Value>) -> Option<Message>
    ensures { option_map message_view result ≡ meaning (object (members_view members.entries)) }
{
    let method = take_member(&mut members, "method").and_then(text_of);
    let id = take_member(&mut members, "id").and_then(id_of);
    match (method, id) {
        (Some(method), Some(id)) => {
            let params = take_member(&mut members, "params").unwrap_or(Value::Null);
            Some(Message::Request(Request { id, method, params }))
        }
        (Some(method), None) => {
            let params = take_member(&mut members, "params").unwrap_or(Value::Null);
            Some(Message::Notification(Notification { method, params }))
        }
        (None, Some(id)) => {
            let result = take_member(&mut members, "result");
            let error = take_member(&mut members, "error");
            let response_result = outcome_of(result, error)?;
            Some(Message::Response(Response {
                id,
                response_result,
            }))
        }
        (None, None) => None,
    }
}

impl RequestId {
    /// Reads an id from a JSON value: a text, or a whole number that fits an `i32` (JSON-RPC 2.0, section 4).
    /// `Ok(None)` means that the value is no such id.
    ///
    /// Use it for an id in params, such as those of `$/cancelRequest`. `Err` means that the allocation for a text
    /// failed.
    pub fn from_value(value: &Value) -> Result<Option<RequestId>, AllocError>
        ensures { IfOk result (λ id. id ≡ as_id (view value.now)) }
    {
        match value {
            Value::String(text) => Ok(Some(RequestId::from(text.clone()?))),
            Value::Number(number) => Ok(whole_number(number).map(RequestId::from)),
            _ => Ok(None),
        }
    }
}

impl Message {
    /// Makes a message from a JSON value, or returns `None` if the value is no message (JSON-RPC 2.0, sections 4 and
    /// 5). It moves the value's parts, so it does not allocate.
    ///
    /// - A good id is a text, or a whole number that fits an `i32`.
    /// - A readable error is an object with `code` (a whole number that fits an `i32`), `message` (a text) and perhaps
    ///   `data`; or a list of these two or three. `data` that is null is read as `None`.
    /// - Other members are ignored, including `jsonrpc`.
    ///
    /// | Tree | Message |
    /// |---|---|
    /// | object with a textual `method` and a good `id` | request |
    /// | object with a textual `method` and no good `id` | notification |
    /// | object with no textual `method`, a good `id`, a `result`, and `error` absent or null | response with a result |
    /// | object with no textual `method`, a good `id`, a readable `error`, and `result` absent or null | response with an error |
    /// | anything else, also a list | none |
    ///
    /// Params that are missing are read as null.
    pub fn from_tree(tree: Value) -> Option<Message>
        ensures { option_map message_view result ≡ meaning (view tree) }
    {
        match tree {
            Value::Object(members) => object_message(members),
            _ => None,
        }
    }

    /// Does what `from_tree` does with a copy of the value. `Err` means that the allocation for the copy failed.
    pub fn from_value(alloc: Global, value: &Value) -> Result<Option<Message>, AllocError>
        ensures { IfOk result (λ m. option_map message_view m ≡ meaning (view value.now)) }
    {
        let _ = alloc;
        Ok(Message::from_tree(value.clone()?))
    }
}
