// What the params and results of messages say of capabilities.
ghost use Rattle.std.specs.Prelude.{◌≡◌, IfOk, option_map, unwrap_or};
ghost use Rattle.serde_json.specs.Data.{null};
ghost use Rattle.serde_json.specs.Find.{as_str as as_text};
ghost use Rattle.serde_json.specs.View.{view, items_view};
ghost use Rattle.lsp_watch.specs.Documents.{text_in as text_of, is_text as is_the_text};
ghost use Rattle.lsp_capabilities.specs.Announced.{code_in as code_of, says_unknown as is_unknown, capabilities_in as capabilities_of};
ghost use Rattle.lsp_capabilities.specs.Registrations.{any_item, items_of, lists as lists_text, is_offered as offers};

use serde_json::Value;
use std::alloc::AllocError;

/// Returns whether a capability is announced: by true or by options, and not by false or null.
pub fn is_offered(capability: Option<&Value>) -> bool
    ensures { result ≡ offers (option_map (λ v. view v.now) capability.entry) }
{
    match capability {
        None | Some(Value::Null) => false,
        Some(Value::Bool(is_offered)) => *is_offered,
        Some(_) => true,
    }
}

/// Copies the member `capabilities`. It is null if there is none. The error means that an allocation failed.
pub fn capabilities_in(tree: Option<&Value>) -> Result<Value, AllocError>
    ensures { IfOk result (λ c. view c ≡ capabilities_of (unwrap_or (option_map (λ v. view v.now) tree.entry) null)) }
{
    match tree.and_then(|it| it.get("capabilities")) {
        Some(capabilities) => capabilities.clone(),
        None => Ok(Value::Null),
    }
}

/// Returns the items of a list. What is no list has none.
pub fn items_in(list: Option<&Value>) -> &[Value]
    ensures { items_view result.now ≡ items_of (option_map (λ v. view v.now) list.entry) }
{
    match list.and_then(Value::as_array) {
        Some(items) => items.as_slice(),
        None => &[],
    }
}

/// Returns whether a list has this text.
pub fn lists(list: Option<&Value>, text: &str) -> bool
    ensures { result ≡ lists_text text.now (option_map (λ v. view v.now) list.entry) }
{
    any_text(items_in(list), text)
}

fn any_text(items: &[Value], text: &str) -> bool
    ensures { result ≡ any_item (λ it. is_the_text text.now (as_text it)) (items_view items.now) }
{
    for item in items {
        if is_text(item, text) {
            return true;
        }
    }
    false
}

fn is_text(item: &Value, text: &str) -> bool
    ensures { result ≡ is_the_text text.now (as_text (view item.now)) }
{
    match item.as_str() {
        Some(it) => it == text,
        None => false,
    }
}

/// Returns a member that is a text.
pub fn text_in<'a>(tree: &'a Value, name: &str) -> Option<&'a str>
    ensures { option_map (λ s. s.now) result ≡ text_of name.now (view tree.now) }
{
    tree.get(name)?.as_str()
}

/// Returns whether a member is this text.
pub fn has_text(tree: &Value, name: &str, text: &str) -> bool
    ensures { result ≡ is_the_text text.now (text_of name.now (view tree.now)) }
{
    match text_in(tree, name) {
        Some(it) => it == text,
        None => false,
    }
}

/// Returns whether a reply says that its sender does not know the method (JSON-RPC 2.0, section 5.1).
pub fn says_unknown(reply: &Value) -> bool
    ensures { result ≡ is_unknown (view reply.now) }
{
    match code_in(reply) {
        Some(code) => code == -32601,
        None => false,
    }
}

fn code_in(reply: &Value) -> Option<i64>
    ensures { result ≡ code_of (view reply.now) }
{
    reply.get("error")?.get("code")?.as_i64()
}
