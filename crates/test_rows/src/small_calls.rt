// What small calls make: a code action, the change from one result of semantic tokens to a later one, the report for a
// client that has one, traces, and registrations. Each row has an object of JSON.
use crate::by_method::say;
use crate::messages::{text_in, value_in};
use crate::said::Said;
use crate::types::{get, say_json};
use lsp_acts::Act;
use lsp_methods::{TraceValue, can_watch_files, register, unregister};
use lsp_types::{CodeAction, InitializeParams, SetTraceParams, WorkspaceEdit};
use lsp_types_features::{DocumentDiagnosticReport, SemanticTokensDelta};
use lsp_types_workspace::DidChangeWatchedFilesRegistrationOptions;
use serde_json::Value;
use std::alloc::AllocError;

/// Says what a call makes of a row: `action`, `change`, `report`, `trace` or `register`.
pub fn made(said: &mut Said, word: &str, text: &str) {
    match value_in(said.alloc, text) {
        Ok(found) => {
            made_of(said, word, &found);
            drop(found);
        }
        Err(_) => said.is_short = true,
    }
}

fn made_of(said: &mut Said, word: &str, found: &Value) {
    match word {
        "action" => action(said, found),
        "change" => change(said, found),
        "report" => report(said, found),
        "trace" => trace(said, found),
        _ => registration(said, found),
    }
}

/// Says the code action with this title, this kind and this edit.
fn action(said: &mut Said, found: &Value) {
    let title = get(said, found, "title", String::new(said.alloc));
    let kind = get(said, found, "kind", String::new(said.alloc));
    let edit = get(said, found, "edit", WorkspaceEdit::default());
    let action = CodeAction::with_edit(title, kind, edit);
    say_json(said, &action);
    drop(action);
}

/// Says the change from the numbers `before` to those `after`.
fn change(said: &mut Said, found: &Value) {
    let before: Vec<u32> = get(said, found, "before", Vec::new(said.alloc));
    let after: Vec<u32> = get(said, found, "after", Vec::new(said.alloc));
    let delta = SemanticTokensDelta::between(said.alloc, before.as_slice(), after.as_slice());
    drop(before);
    drop(after);
    match delta {
        Ok(Some(delta)) => {
            say_json(said, &delta);
            drop(delta);
        }
        Ok(None) => said.push("too many numbers"),
        Err(_) => said.is_short = true,
    }
}

/// Says the report with an id and items, for a client that has the report `previous`, if there is one.
fn report(said: &mut Said, found: &Value) {
    let id: String = get(said, found, "id", String::new(said.alloc));
    let items = get(said, found, "items", Vec::new(said.alloc));
    let previous = match found.get("previous") {
        Some(previous) => previous.as_str(),
        None => None,
    };
    let report = DocumentDiagnosticReport::since(previous, id, items);
    say_json(said, &report);
    drop(report);
}

/// Says the trace that a client wants at the start, and the message of a server then, and the same after `$/setTrace`.
fn trace(said: &mut Said, found: &Value) {
    let mut wanted = TraceValue::Off;
    let started: Option<InitializeParams> = get(said, found, "initialize", None);
    if let Some(params) = started {
        wanted = TraceValue::from_initialize(&params);
        drop(params);
    }
    traced(said, found, wanted);
    let set: Option<SetTraceParams> = get(said, found, "set", None);
    if let Some(params) = set {
        let value = TraceValue::from_params(&params);
        drop(params);
        said.push(", ");
        match value {
            Some(value) => traced(said, found, value),
            None => said.push("no such trace"),
        }
    }
}

fn traced(said: &mut Said, found: &Value, wanted: TraceValue) {
    let verbose = match found.get("verbose") {
        Some(verbose) => verbose.as_str(),
        None => None,
    };
    said.debug(wanted);
    said.push(" ");
    match wanted.log::<u32>(said.alloc, text_in(found.get("message")), verbose) {
        Ok(Some(act)) => say(said, act),
        Ok(None) => said.push("nothing"),
        Err(_) => said.is_short = true,
    }
}

/// Says what registers the watchers of files with a client that can watch some, and what ends that.
fn registration(said: &mut Said, found: &Value) {
    let none = Value::Null;
    if !can_watch_files(found.get("client").unwrap_or(&none)) {
        drop(none);
        said.push("nothing");
        return;
    }
    drop(none);
    let options: Option<DidChangeWatchedFilesRegistrationOptions> = get(
        said, found, "options", None,
    );
    let id = text_in(found.get("id"));
    let method = "workspace/didChangeWatchedFiles";
    if let Some(options) = options {
        let asked = register(said.alloc, id, method, &options, 7);
        drop(options);
        say_asked(said, asked);
    }
    said.push(", ");
    say_asked(said, unregister(said.alloc, id, method, 8));
}

fn say_asked(said: &mut Said, asked: Result<Act<u32>, AllocError>) {
    match asked {
        Ok(act) => say(said, act),
        Err(_) => said.is_short = true,
    }
}
