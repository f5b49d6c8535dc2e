// Which documents a client opens (LSP 3.17, "Text Document Synchronization" and "Notebook Document Synchronization").
ghost use Rattle.std.specs.BTreeSet.{contains_text};
ghost use Rattle.std.specs.Str.{bytes_eq};
ghost use Rattle.std.specs.Prelude.{◌≡◌, ◌||◌, ℕ, List, OnOk, option_map, option_and_then, unwrap_or, codes};
ghost use Rattle.serde_json.specs.Data.{null};
ghost use Rattle.serde_json.specs.View.{view, items_view};
ghost use Rattle.lsp_watch.specs.Documents.{is_text, text_in as text_of};
ghost use Rattle.lsp_watch.specs.Entries.{entry_view};
ghost use Rattle.lsp_capabilities.specs.Announced.{opens as opens_it, opens_in, added_in as are_added_in};
ghost use Rattle.lsp_capabilities.specs.Registrations.{any_item};

use crate::params::{items_in, text_in};
use lsp_watch::{Direction, Entry, Kind};
use serde_json::Value;
use std::alloc::{AllocError, Global};
use std::collections::BTreeSet;

/// Adds the URIs of the documents that a message of the client opens.
///
/// The error means that an allocation failed. Do not use the set after that: it may be incomplete.
pub fn keep_opened(
    alloc: Global,
    opened: &mut BTreeSet<String>,
    direction: Direction,
    message: &Entry,
) -> Result<(), AllocError>
    ensures { OnOk result ((uri : List ℕ) → contains_text opened.new uri
        ≡ (opens_it uri direction (entry_view message.now) || contains_text opened.old uri)) }
{
    match (direction, message.kind()) {
        (Direction::ToServer, Kind::Notification) => {
            open_any(alloc, opened, message.method(), message.params())
        }
        _ => Ok(()),
    }
}

#[tactic(auto, using(crate::proofs::Items::null_opens_nothing))]
fn open_any(
    alloc: Global,
    opened: &mut BTreeSet<String>,
    method: &str,
    params: Option<&Value>,
) -> Result<(), AllocError>
    ensures { OnOk result ((uri : List ℕ) → contains_text opened.new uri
        ≡ (opens_in uri method.now (unwrap_or (option_map (λ v. view v.now) params.entry) null) || contains_text opened.old uri)) }
{
    match params {
        Some(params) => open_in(alloc, opened, method, params),
        None => Ok(()),
    }
}

/// Adds what the params of a notification open: a text document, a notebook with the texts of its cells, or cells that are added to it.
fn open_in(
    alloc: Global,
    opened: &mut BTreeSet<String>,
    method: &str,
    params: &Value,
) -> Result<(), AllocError>
    ensures { OnOk result ((uri : List ℕ) → contains_text opened.new uri
        ≡ (opens_in uri method.now (view params.now) || contains_text opened.old uri)) }
{
    match method {
        "textDocument/didOpen" => open(alloc, opened, params.get("textDocument")),
        "notebookDocument/didOpen" => {
            open(alloc, opened, params.get("notebookDocument"))?;
            open_all(alloc, opened, items_in(params.get("cellTextDocuments")))
        }
        "notebookDocument/didChange" => open_all(alloc, opened, items_in(added_in(params))),
        _ => Ok(()),
    }
}

/// Returns the texts of the cells that are added to a notebook.
fn added_in(params: &Value) -> Option<&Value>
    ensures { option_map (λ v. view v.now) result ≡ are_added_in (view params.now) }
{
    params
        .get("change")?
        .get("cells")?
        .get("structure")?
        .get("didOpen")
}

fn open_all(
    alloc: Global,
    opened: &mut BTreeSet<String>,
    documents: &[Value],
) -> Result<(), AllocError>
    ensures { OnOk result ((uri : List ℕ) → contains_text opened.new uri
        ≡ (any_item (λ it. is_text uri (text_of (codes "uri") it)) (items_view documents.now) || contains_text opened.old uri)) }
{
    for document in documents {
        open(alloc, opened, Some(document))?;
    }
    Ok(())
}

fn open(
    alloc: Global,
    opened: &mut BTreeSet<String>,
    document: Option<&Value>,
) -> Result<(), AllocError>
    ensures { OnOk result ((uri : List ℕ) → contains_text opened.new uri
        ≡ (is_text uri (option_and_then (text_of (codes "uri")) (option_map (λ v. view v.now) document.entry))
        || contains_text opened.old uri)) }
{
    match document.and_then(|it| text_in(it, "uri")) {
        Some(uri) => add(alloc, opened, uri),
        None => Ok(()),
    }
}

fn add(alloc: Global, opened: &mut BTreeSet<String>, uri: &str) -> Result<(), AllocError>
    ensures { OnOk result ((other : List ℕ) → contains_text opened.new other
        ≡ (bytes_eq uri.now other || contains_text opened.old other)) }
{
    let uri = String::from_str(alloc, uri)?;
    opened.insert(uri)?;
    Ok(())
}
