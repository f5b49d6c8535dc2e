// From a message to a tree and to text.
ghost use Rattle.std.specs.Prelude.{◌≡◌, Some, IfOk, OnOk, option_map, string_bytes, codes};
ghost use Rattle.serde_json.specs.Data.{number, object, member, no_members, put as with_member};
ghost use Rattle.serde_json.specs.Find.{of_integer};
ghost use Rattle.serde_json.specs.View.{view, members_view};
ghost use Rattle.lsp_message.specs.Composing.{with_params};
ghost use Rattle.lsp_message.specs.Meaning.{as_id, code_of, meaning};
ghost use Rattle.lsp_message.specs.Tree.{id_tree, tree_of, error_tree as error_tree_of, without_null_details};
ghost use Rattle.lsp_message.specs.View.{error_view, request_view, notification_view, response_view, message_view};

use crate::msg::{Message, Notification, Request, RequestId, Response, ResponseError};
use serde_json::{Map, Value, put};
use std::alloc::{AllocError, Global};

fn error_tree(alloc: Global, error: &ResponseError) -> Result<Value, AllocError>
    ensures tree { IfOk result (λ v. view v ≡ error_tree_of (error_view error.now)) }
    ensures good { OnOk result (code_of (number (of_integer error.now.code))
        ≡ Some error.now.code) }
{
    let mut members = Map::new(alloc);
    put(&mut members, alloc, "code", Value::from(error.code))?;
    put(
        &mut members,
        alloc,
        "message",
        Value::try_from_str(alloc, error.message.as_str())?,
    )?;
    if let Some(data) = &error.data {
        put(&mut members, alloc, "data", data.clone()?)?;
    }
    Ok(Value::Object(members))
}

// Adds the params, unless they are null.
fn put_params(
    members: &mut Map<String, Value>,
    alloc: Global,
    params: &Value,
) -> Result<(), AllocError>
    ensures { OnOk result (members_view members.new.entries
        ≡ with_params (view params.now) (members_view members.old.entries)) }
{
    if !params.is_null() {
        put(members, alloc, "params", params.clone()?)?;
    }
    Ok(())
}

#[tactic(auto, using(crate::proofs::TreeLaws::tree_laws))]
fn request_tree(alloc: Global, request: &Request) -> Result<Value, AllocError>
    ensures tree { IfOk result (λ v. view v ≡ tree_of (request_view request.now)) }
    ensures back { OnOk result (meaning (tree_of (request_view request.now))
        ≡ Some (without_null_details (request_view request.now))) }
{
    let mut members = Map::new(alloc);
    put(&mut members, alloc, "id", request.id.to_value(alloc)?)?;
    let method = Value::try_from_str(alloc, request.method.as_str())?;
    put(&mut members, alloc, "method", method)?;
    put_params(&mut members, alloc, &request.params)?;
    Ok(Value::Object(members))
}

#[tactic(auto, using(crate::proofs::TreeLaws::tree_laws))]
fn notification_tree(alloc: Global, notification: &Notification) -> Result<Value, AllocError>
    ensures tree { IfOk result (λ v. view v ≡ tree_of (notification_view notification.now)) }
    ensures back { OnOk result (meaning (tree_of (notification_view notification.now))
        ≡ Some (without_null_details (notification_view notification.now))) }
{
    let mut members = Map::new(alloc);
    let method = Value::try_from_str(alloc, notification.method.as_str())?;
    put(&mut members, alloc, "method", method)?;
    put_params(&mut members, alloc, &notification.params)?;
    Ok(Value::Object(members))
}

// The id, and what came of the request.
fn outcome_tree(
    alloc: Global,
    id: &RequestId,
    name: &str,
    outcome: Value,
) -> Result<Value, AllocError>
    ensures tree { IfOk result (λ v. view v
        ≡ object (with_member name.now (view outcome)
        (member (codes "id") (id_tree id.now) no_members))) }
    ensures good { OnOk result (as_id (id_tree id.now) ≡ Some id.now) }
{
    let mut members = Map::new(alloc);
    put(&mut members, alloc, "id", id.to_value(alloc)?)?;
    put(&mut members, alloc, name, outcome)?;
    Ok(Value::Object(members))
}

#[tactic(auto, using(crate::proofs::TreeLaws::tree_laws))]
fn response_tree(alloc: Global, response: &Response) -> Result<Value, AllocError>
    ensures tree { IfOk result (λ v. view v ≡ tree_of (response_view response.now)) }
    ensures back { OnOk result (meaning (tree_of (response_view response.now))
        ≡ Some (without_null_details (response_view response.now))) }
{
    match &response.response_result {
        Ok(value) => outcome_tree(alloc, &response.id, "result", value.clone()?),
        Err(error) => outcome_tree(alloc, &response.id, "error", error_tree(alloc, error)?),
    }
}

impl Message {
    /// Returns the message as a JSON value, without `jsonrpc` (JSON-RPC 2.0, sections 4 and 5). Null params are left
    /// out, and `data` is there exactly if it is `Some`. `Err` means that an allocation failed.
    pub fn to_value(&self, alloc: Global) -> Result<Value, AllocError>
        ensures tree { IfOk result (λ v. view v ≡ tree_of (message_view self.now)) }

        // The tree means the message, but for an error's data that is null, which reads back as absent.
        ensures back { IfOk result (λ v. meaning (view v)
            ≡ Some (without_null_details (message_view self.now))) }
    {
        match self {
            Message::Request(request) => request_tree(alloc, request),
            Message::Notification(notification) => notification_tree(alloc, notification),
            Message::Response(response) => response_tree(alloc, response),
        }
    }
}
