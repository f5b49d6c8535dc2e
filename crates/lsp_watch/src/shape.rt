// The rules of the shape of one message (JSON-RPC 2.0, sections 4 and 5).
ghost use Rattle.std.specs.Prelude.{◌≡◌, ◌++◌, ◌&&◌, OnOk, IfOk, not, is_some, codes, option_map};
ghost use Rattle.serde_json.specs.View.{view};
ghost use Rattle.serde_json.specs.Find.{get, as_str, as_null};
ghost use Rattle.lsp_message.specs.Meaning.{unless_null};
ghost use Rattle.lsp_watch.specs.Methods.{is_request as is_request_method, is_notification as is_notification_method};
ghost use Rattle.lsp_watch.specs.Shape.{when, faults_of, object_faults, call_faults, reply_faults, outcome_faults, method_faults, known_faults, has, is_version as version_is_good, is_id as is_an_id, is_wide as is_wide_id, is_error, is_structure as is_structured};

use crate::logged::whole_number;
use crate::methods::{is_notification, is_request};
use crate::rule::Rule;
use serde_json::Value;
use std::alloc::{AllocError, Global};

/// The rules that a message breaks by itself.
pub fn faults_in(alloc: Global, tree: &Value) -> Result<Vec<Rule>, AllocError>
    ensures { IfOk result (λ faults. faults.items ≡ faults_of (view tree.now)) }
{
    let mut faults = Vec::new(alloc);
    push_faults(&mut faults, tree)?;
    Ok(faults)
}

fn push_faults(faults: &mut Vec<Rule>, tree: &Value) -> Result<(), AllocError>
    ensures { OnOk result (faults.new.items ≡ faults.old.items ++ faults_of (view tree.now)) }
{
    match tree {
        Value::Object(_) => push_object_faults(faults, tree),
        Value::Array(_) => push_if(faults, Rule::Batch, true),
        _ => push_if(faults, Rule::NoObject, true),
    }
}

fn push_if(faults: &mut Vec<Rule>, rule: Rule, is_broken: bool) -> Result<(), AllocError>
    ensures { OnOk result (faults.new.items ≡ faults.old.items ++ when is_broken rule) }
{
    if is_broken {
        faults.push(rule)?;
    }
    Ok(())
}

fn push_object_faults(faults: &mut Vec<Rule>, tree: &Value) -> Result<(), AllocError>
    ensures { OnOk result (faults.new.items ≡ faults.old.items ++ object_faults (view tree.now)) }
{
    push_if(faults, Rule::BadVersion, !is_version(tree))?;
    match tree.get("method") {
        Some(method) => push_call_faults(faults, tree, method),
        None => push_reply_faults(faults, tree),
    }
}

/// Whether `jsonrpc` is "2.0".
fn is_version(tree: &Value) -> bool
    ensures { result ≡ version_is_good (view tree.now) }
{
    match tree.get("jsonrpc") {
        Some(version) => match version.as_str() {
            Some(version) => version == "2.0",
            None => false,
        },
        None => false,
    }
}

fn push_call_faults(faults: &mut Vec<Rule>, tree: &Value, method: &Value) -> Result<(), AllocError>
    ensures { OnOk result (faults.new.items ≡ faults.old.items ++ call_faults (view tree.now) (view method.now)) }
{
    let id = tree.get("id");
    push_if(faults, Rule::BadId, has_bad_id(id))?;
    push_if(faults, Rule::WideId, has_wide_id(id))?;
    push_if(faults, Rule::BadParams, has_bad_params(tree.get("params")))?;
    push_method_faults(faults, id, method)
}

fn push_method_faults(
    faults: &mut Vec<Rule>,
    id: Option<&Value>,
    method: &Value,
) -> Result<(), AllocError>
    ensures { OnOk result (faults.new.items ≡ faults.old.items
        ++ method_faults (option_map (λ v. view v.now) id.entry) (as_str (view method.now))) }
{
    match method.as_str() {
        Some(method) => push_known_faults(faults, id.is_some(), method),
        None => push_if(faults, Rule::BadMethod, true),
    }
}

fn push_known_faults(faults: &mut Vec<Rule>, has_id: bool, method: &str) -> Result<(), AllocError>
    ensures { OnOk result (faults.new.items ≡ faults.old.items ++ known_faults has_id method.now) }
{
    push_if(faults, Rule::NeedsId, lacks_id(has_id, method))?;
    push_if(faults, Rule::TakesNoId, has_id_too_many(has_id, method))
}

fn lacks_id(has_id: bool, method: &str) -> bool
    ensures { result ≡ (not has_id && is_request_method method.now) }
{
    !has_id && is_request(method)
}

fn has_id_too_many(has_id: bool, method: &str) -> bool
    ensures { result ≡ (has_id && is_notification_method method.now) }
{
    has_id && is_notification(method)
}

fn has_bad_id(id: Option<&Value>) -> bool
    ensures { result ≡ has (λ i. not (is_an_id i)) (option_map (λ v. view v.now) id.entry) }
{
    match id {
        Some(id) => !is_id(id),
        None => false,
    }
}

fn has_wide_id(id: Option<&Value>) -> bool
    ensures { result ≡ has is_wide_id (option_map (λ v. view v.now) id.entry) }
{
    match id {
        Some(id) => is_wide(id),
        None => false,
    }
}

fn has_bad_params(params: Option<&Value>) -> bool
    ensures { result ≡ has (λ p. not (is_structured p)) (option_map (λ v. view v.now) params.entry) }
{
    match params {
        Some(params) => !is_structure(params),
        None => false,
    }
}

fn push_reply_faults(faults: &mut Vec<Rule>, tree: &Value) -> Result<(), AllocError>
    ensures { OnOk result (faults.new.items
        ≡ faults.old.items ++ reply_faults (view tree.now) (get (codes "id") (view tree.now))) }
{
    match tree.get("id") {
        Some(id) => push_outcome_faults(faults, id, tree.get("result"), tree.get("error")),
        None => push_if(faults, Rule::NoMessage, true),
    }
}

fn push_outcome_faults(
    faults: &mut Vec<Rule>,
    id: &Value,
    outcome: Option<&Value>,
    error: Option<&Value>,
) -> Result<(), AllocError>
    ensures { OnOk result (faults.new.items ≡ faults.old.items
        ++ outcome_faults (view id.now) (option_map (λ v. view v.now) outcome.entry) (option_map (λ v. view v.now) error.entry)) }
{
    let has_result = is_there(outcome);
    let failure = failure_in(error);
    let has_failed = is_there(failure);
    push_if(faults, Rule::BadId, is_no_id(id, has_failed, has_result))?;
    push_if(faults, Rule::WideId, is_wide(id))?;
    push_if(
        faults,
        Rule::BothOutcomes,
        has_both(has_result, is_there(error)),
    )?;
    push_if(faults, Rule::NoOutcome, has_neither(has_result, has_failed))?;
    push_if(faults, Rule::BadError, has_bad_error(failure))
}

fn is_there(value: Option<&Value>) -> bool
    ensures { result ≡ is_some (option_map (λ v. view v.now) value.entry) }
{
    match value {
        Some(_) => true,
        None => false,
    }
}

/// The `error`, unless it is null.
fn failure_in<'v>(error: Option<&'v Value>) -> Option<&'v Value>
    ensures { option_map (λ v. view v.now) result ≡ unless_null (option_map (λ v. view v.now) error.entry) }
{
    match error {
        Some(error) => { if error.is_null() { None } else { Some(error) } }
        None => None,
    }
}

/// Whether the id of a reply is bad. It may be null in an error.
fn is_no_id(id: &Value, has_failed: bool, has_result: bool) -> bool
    ensures { result ≡ (not (is_some (as_null (view id.now)) && (has_failed && not has_result)) && not (is_an_id (view id.now))) }
{
    !(id.is_null() && (has_failed && !has_result)) && !is_id(id)
}

fn has_both(a: bool, b: bool) -> bool
    ensures { result ≡ (a && b) }
{
    a && b
}

fn has_neither(a: bool, b: bool) -> bool
    ensures { result ≡ (not a && not b) }
{
    !a && !b
}

fn has_bad_error(failure: Option<&Value>) -> bool
    ensures { result ≡ has (λ e. not (is_error e)) (option_map (λ v. view v.now) failure.entry) }
{
    match failure {
        Some(error) => is_bad(error),
        None => false,
    }
}

/// Whether it is a text or a number that is whole.
fn is_id(value: &Value) -> bool
    ensures { result ≡ is_an_id (view value.now) }
{
    match value {
        Value::String(_) => true,
        Value::Number(number) => whole_number(number).is_some(),
        _ => false,
    }
}

/// Whether it is a number that is whole, and no integer of 32 bits.
fn is_wide(value: &Value) -> bool
    ensures { result ≡ is_wide_id (view value.now) }
{
    match value {
        Value::Number(number) => match whole_number(number) {
            Some(number) => i32::try_from(number).is_err(),
            None => false,
        },
        _ => false,
    }
}

fn is_structure(value: &Value) -> bool
    ensures { result ≡ is_structured (view value.now) }
{
    value.is_object() || value.is_array()
}

/// Whether an `error` is no object with an integer `code` and a text `message`.
fn is_bad(error: &Value) -> bool
    ensures { result ≡ not (is_error (view error.now)) }
{
    let code_is_good = match error.get("code") {
        Some(Value::Number(code)) => code.as_i128().is_some(),
        _ => false,
    };
    let message_is_good = match error.get("message") {
        Some(message) => message.is_string(),
        None => false,
    };
    !(code_is_good && message_is_good)
}
