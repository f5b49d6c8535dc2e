// From a message to text, in the order in which JSON-RPC 2.0 shows the members.
ghost use Rattle.std.specs.Prelude.{◌≡◌, ◌≤◌, ◌++◌, ℕ, List, true, Some, Ok, IfOk, OnOk, option_map, string_bytes, codes};
ghost use Rattle.std.specs.List.{list_all};
ghost use Rattle.serde_json.specs.Data.{Data, string, number as json_number};
ghost use Rattle.serde_json.specs.Find.{of_integer};
ghost use Rattle.serde_json.specs.Read.{max_depth};
ghost use Rattle.serde_json.specs.View.{view};
ghost use Rattle.serde_json.specs.Written.{compact_text};
ghost use Rattle.lsp_message.specs.Frame.{body_means};
ghost use Rattle.lsp_message.specs.Composing.{is_plain_byte, Adds};
ghost use Rattle.lsp_message.specs.Meaning.{is_i32, unless_null};
ghost use Rattle.lsp_message.specs.Message.{response};
ghost use Rattle.lsp_message.specs.Ranges.{IsIdInRange, IsInRange, nesting};
ghost use Rattle.lsp_message.specs.Tree.{id_tree, without_null_details};
ghost use Rattle.lsp_message.specs.Text.{IsValueText, named, IsLaterMember, IsErrorText, IsTextFrom, IsMemberText, IsBodyOf};
ghost use Rattle.lsp_message.specs.Written.{MeansAgain};
ghost use Rattle.lsp_message.specs.View.{error_view, request_view, notification_view, response_view, message_view};

use crate::frame::write::HEADER_ROOM;
use crate::msg::{Message, Notification, Request, RequestId, Response, ResponseError};
use serde_json::Value;
use std::alloc::{AllocError, Global};
use std::fmt::Write as _;

// Room for the text of a message with few params, which then grows in no step.
const USUAL_LENGTH: usize = 256;

// Room for what a frame has around a value and the members before it: its header part and the braces at its end.
const ROOM_AROUND: usize = HEADER_ROOM + 2;

fn value_text(alloc: Global, value: &Value) -> Result<String, AllocError>
    ensures { IfOk result (λ s. IsValueText (view value.now) (string_bytes s)) }
{
    value.to_string(alloc)
}

// Whether a text stands in JSON as it is (RFC 8259, section 7).
fn is_plain(text: &str) -> bool
    ensures { result ≡ list_all is_plain_byte text.now }
{
    text.as_bytes()
        .iter()
        .all(|&byte| byte >= b' ' && byte != b'"' && byte != b'\\')
}

// Adds a text in quotes, with JSON's escapes. If there are none, it is copied once.
pub(super) fn push_quoted(out: &mut String, alloc: Global, text: &str) -> Result<(), AllocError>
    ensures { OnOk result (string_bytes out.new ≡ string_bytes out.old
        ++ compact_text (string text.now)) }
{
    if is_plain(text) {
        out.push_str("\"")?;
        out.push_str(text)?;
        return out.push_str("\"");
    }
    let quoted = Value::try_from_str(alloc, text)?.to_string(alloc)?;
    out.push_str(quoted.as_str())
}

// Adds a whole number.
pub(super) fn push_decimal(out: &mut String, number: i32) -> Result<(), AllocError>
    ensures text { OnOk result (string_bytes out.new
        ≡ string_bytes out.old ++ compact_text (json_number (of_integer number))) }
    ensures range { is_i32 number ≡ true }
{
    write!(out, "{number}").map_err(|_| AllocError)
}

// Adds the name of a member, which needs no escape.
fn push_name(out: &mut String, before: &str, name: &str) -> Result<(), AllocError>
    ensures { OnOk result (string_bytes out.new
        ≡ string_bytes out.old ++ (before.now ++ codes "\"" ++ name.now ++ codes "\":")) }
{
    out.push_str(before)?;
    out.push_str("\"")?;
    out.push_str(name)?;
    out.push_str("\":")
}

// Adds a member whose value has this text. If there is no room for it, what stands before it is inserted into the text.
// So a long text is not copied.
fn push_named(out: &mut String, before: &str, name: &str, value: String) -> Result<(), AllocError>
    ensures { OnOk result (string_bytes out.new
        ≡ string_bytes out.old ++ named before.now name.now (string_bytes value)) }
{
    push_name(out, before, name)?;
    let room = out.capacity().saturating_sub(out.len());
    if value.len().saturating_add(ROOM_AROUND) <= room {
        return out.push_str(value.as_str());
    }
    let mut text = value;
    text.reserve_exact(out.len().saturating_add(ROOM_AROUND))?;
    text.insert_str(0, out.as_str())?;
    *out = text;
    Ok(())
}

fn push_number(out: &mut String, before: &str, name: &str, number: i32) -> Result<(), AllocError>
    ensures text { OnOk result (string_bytes out.new ≡ string_bytes out.old
        ++ named before.now name.now (compact_text (json_number (of_integer number)))) }
    ensures range { OnOk result (is_i32 number ≡ true) }
{
    push_name(out, before, name)?;
    push_decimal(out, number)
}

fn push_text(
    out: &mut String,
    alloc: Global,
    before: &str,
    name: &str,
    value: &str,
) -> Result<(), AllocError>
    ensures { OnOk result (string_bytes out.new ≡ string_bytes out.old
        ++ named before.now name.now (compact_text (string value.now))) }
{
    push_name(out, before, name)?;
    push_quoted(out, alloc, value)
}

fn push_id(out: &mut String, alloc: Global, before: &str, id: &RequestId) -> Result<(), AllocError>
    ensures text { OnOk result (string_bytes out.new ≡ string_bytes out.old
        ++ named before.now (codes "id") (compact_text (id_tree id.now))) }
    ensures range { OnOk result (IsIdInRange id.now) }
{
    push_name(out, before, "id")?;
    id.push_text(out, alloc)
}

// Adds a member after others, if there is a value.
fn push_later_member(
    out: &mut String,
    alloc: Global,
    name: &str,
    value: Option<&Value>,
) -> Result<(), AllocError>
    ensures { OnOk result (Adds (IsLaterMember name.now (option_map (λ v. view v.now) value.entry))
        (string_bytes out.old) (string_bytes out.new)) }
{
    if let Some(value) = value {
        let text = value_text(alloc, value)?;
        push_named(out, ",", name, text)?;
    }
    Ok(())
}

// Adds the params of a message, which are not written if they are null.
fn push_params(out: &mut String, alloc: Global, params: &Value) -> Result<(), AllocError>
    ensures { OnOk result
        (Adds (IsLaterMember (codes "params") (unless_null (Some (view params.now))))
        (string_bytes out.old) (string_bytes out.new)) }
{
    match params {
        Value::Null => push_later_member(out, alloc, "params", None),
        params => push_later_member(out, alloc, "params", Some(params)),
    }
}

fn push_error(out: &mut String, alloc: Global, error: &ResponseError) -> Result<(), AllocError>
    ensures text { OnOk result (Adds (IsErrorText (error_view error.now))
        (string_bytes out.old) (string_bytes out.new)) }
    ensures range { OnOk result (is_i32 error.now.code ≡ true) }
{
    push_number(out, "{", "code", error.code)?;
    push_text(out, alloc, ",", "message", error.message.as_str())?;
    push_later_member(out, alloc, "data", error.data.as_ref())?;
    out.push_str("}")?;
    Ok(())
}

fn push_request(
    out: &mut String,
    alloc: Global,
    before: &str,
    request: &Request,
) -> Result<(), AllocError>
    ensures text { OnOk result (Adds (IsTextFrom before.now (request_view request.now))
        (string_bytes out.old) (string_bytes out.new)) }
    ensures range { OnOk result (IsInRange (request_view request.now)) }
{
    push_id(out, alloc, before, &request.id)?;
    push_text(out, alloc, ",", "method", request.method.as_str())?;
    push_params(out, alloc, &request.params)?;
    out.push_str("}")?;
    Ok(())
}

fn push_notification(
    out: &mut String,
    alloc: Global,
    before: &str,
    notification: &Notification,
) -> Result<(), AllocError>
    ensures { OnOk result (Adds (IsTextFrom before.now (notification_view notification.now))
        (string_bytes out.old) (string_bytes out.new)) }
{
    push_text(out, alloc, before, "method", notification.method.as_str())?;
    push_params(out, alloc, &notification.params)?;
    out.push_str("}")?;
    Ok(())
}

fn push_result(
    out: &mut String,
    alloc: Global,
    before: &str,
    id: &RequestId,
    value: &Value,
) -> Result<(), AllocError>
    ensures text { OnOk result (Adds (IsTextFrom before.now (response id.now (Ok (view value.now))))
        (string_bytes out.old) (string_bytes out.new)) }
    ensures range { OnOk result (IsIdInRange id.now) }
{
    let text = value_text(alloc, value)?;
    push_result_text(out, alloc, before, id, text)
}

// Adds a response whose result has this text.
fn push_result_text(
    out: &mut String,
    alloc: Global,
    before: &str,
    id: &RequestId,
    text: String,
) -> Result<(), AllocError>
    ensures text { OnOk result ((tree : Data) → IsValueText tree (string_bytes text)
        → Adds (IsTextFrom before.now (response id.now (Ok tree)))
        (string_bytes out.old) (string_bytes out.new)) }
    ensures range { OnOk result (IsIdInRange id.now) }
{
    push_id(out, alloc, before, id)?;
    push_named(out, ",", "result", text)?;
    out.push_str("}")?;
    Ok(())
}

// The content part of a response whose result has this text.
pub(super) fn result_body(alloc: Global, id: &RequestId, text: String) -> Result<String, AllocError>
    ensures text { IfOk result (λ s. (tree : Data) → IsValueText tree (string_bytes text)
        → IsBodyOf (response id.now (Ok tree)) (string_bytes s)) }
    ensures reads_back { IfOk result (λ s. (tree : Data) → IsValueText tree (string_bytes text)
        → MeansAgain (response id.now (Ok tree)) (string_bytes s)) }
{
    let mut out = String::with_capacity(alloc, USUAL_LENGTH)?;
    push_result_text(&mut out, alloc, "{\"jsonrpc\":\"2.0\",", id, text)?;
    Ok(out)
}

fn push_failure(
    out: &mut String,
    alloc: Global,
    before: &str,
    id: &RequestId,
    error: &ResponseError,
) -> Result<(), AllocError>
    ensures text { OnOk result
        (Adds (IsTextFrom before.now (response id.now (Err (error_view error.now))))
        (string_bytes out.old) (string_bytes out.new)) }
    ensures range { OnOk result (IsIdInRange id.now × (is_i32 error.now.code ≡ true)) }
{
    push_id(out, alloc, before, id)?;
    out.push_str(",\"error\":")?;
    push_error(out, alloc, error)?;
    out.push_str("}")?;
    Ok(())
}

impl Message {
    /// Returns the message as JSON without spaces and without `jsonrpc` (JSON-RPC 2.0, sections 4 and 5). The members
    /// are in the order `id`, `method`, `params`, or `id` and then `result` or `error`. Null params are left out, and a
    /// null result is written. The error means that an allocation failed.
    pub fn member_text(&self, alloc: Global) -> Result<String, AllocError>
        ensures { IfOk result (λ s. IsMemberText (message_view self.now) (string_bytes s)) }
    {
        self.text_from(alloc, "{")
    }

    /// Returns the content part of the message's frame (LSP 3.17, "Content Part"): the text of `member_text` with
    /// `jsonrpc` as its first member. Print it to log a message. The error means that an allocation failed.
    pub fn body_text(&self, alloc: Global) -> Result<String, AllocError>
        ensures text { IfOk result (λ s. IsBodyOf (message_view self.now) (string_bytes s)) }
        ensures reads_back { IfOk result (λ s. nesting (message_view self.now) ≤ max_depth
            → body_means (string_bytes s) ≡ Ok (without_null_details (message_view self.now))) }
    {
        self.text_from(alloc, "{\"jsonrpc\":\"2.0\",")
    }

    fn text_from(&self, alloc: Global, before: &str) -> Result<String, AllocError>
        ensures text { IfOk result (λ s.
            IsTextFrom before.now (message_view self.now) (string_bytes s)) }
        ensures range { OnOk result (IsInRange (message_view self.now)) }
    {
        let mut out = String::with_capacity(alloc, USUAL_LENGTH)?;
        self.push_to(&mut out, alloc, before)?;
        Ok(out)
    }

    fn push_to(&self, out: &mut String, alloc: Global, before: &str) -> Result<(), AllocError>
        ensures text { OnOk result (Adds (IsTextFrom before.now (message_view self.now))
            (string_bytes out.old) (string_bytes out.new)) }
        ensures range { OnOk result (IsInRange (message_view self.now)) }
    {
        match self {
            Message::Request(request) => push_request(out, alloc, before, request),
            Message::Notification(notification) => {
                push_notification(out, alloc, before, notification)
            }
            Message::Response(response) => match &response.response_result {
                Ok(value) => push_result(out, alloc, before, &response.id, value),
                Err(error) => push_failure(out, alloc, before, &response.id, error),
            },
        }
    }
}
