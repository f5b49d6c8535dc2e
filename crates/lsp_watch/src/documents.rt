// The documents that are open (LSP 3.17, "Text Document Synchronization").
ghost use Rattle.std.specs.Prelude.{◌≡◌, ◌∷◌, [], ℕ, List, Option, Some, None, false, option_map, OnOk, OnErr, MatchOption};
ghost use Rattle.std.specs.Option.{option_copied};
ghost use Rattle.std.specs.Str.{bytes_eq};
ghost use Rattle.serde_json.specs.Data.{null};
ghost use Rattle.serde_json.specs.View.{view};
ghost use Rattle.lsp_watch.specs.Entries.{entry_view};
ghost use Rattle.lsp_watch.specs.Held.{held, Opened};
ghost use Rattle.lsp_watch.specs.Documents.{uri_in as uri_of, version_in as version_of, deed_named as named, deed_in as deed_of, params_in, changed as changed_at, after_deed, is_not_higher as is_below, deed_finding, document_finding};
ghost use Rattle.lsp_watch.specs.Log.{Log, passed};

use crate::direction::Direction;
use crate::logged::{Entry, Kind};
use crate::rule::Rule;
use serde_json::Value;
use std::alloc::{AllocError, Global};
use std::collections::BTreeMap;

/// What a client does with a document.
#[derive(Clone, Copy, Debug)]
pub enum Deed {
    Opens,
    Changes,
    Closes,
}

/// What is kept of a document that is open.
#[derive(Clone, Copy, Debug)]
pub struct Document {
    /// The place of its `didOpen`.
    pub opened: u64,
    /// Its version, if one was given.
    pub version: Option<i64>,
    /// The place of the message that gave it, or of the `didOpen`.
    pub reported: u64,
}

/// The documents that are open, by their URIs.
#[derive(Debug, Drop)]
pub struct Documents {
    alloc: Global,
    open: BTreeMap<String, Document>,
}

impl Documents {
    /// Makes a memory of no open documents. It does not allocate.
    pub fn new(alloc: Global) -> Documents
        ensures { Opened result [] }
    {
        Documents {
            alloc,
            open: BTreeMap::new(alloc),
        }
    }

    /// The document of a URI.
    fn get(&self, uri: &str) -> Option<Document>
        ensures { result ≡ held self.now uri.now }
    {
        self.open.get(uri).copied()
    }

    /// What a message breaks.
    pub fn breaks(&self, direction: Direction, message: &Entry) -> Option<(Rule, Option<u64>)>
        ensures { (log : Log) → Opened self.now log
            → result ≡ document_finding log direction (entry_view message.now) }
    {
        let deed = deed_in(direction, message)?;
        let params = message.params()?;
        let uri = uri_in(params)?;
        deed_breaks(deed, version_in(params), self.get(uri))
    }

    /// Keeps what a message does. If the allocation fails, nothing is changed.
    pub fn keep(
        &mut self,
        place: u64,
        direction: Direction,
        message: &Entry,
    ) -> Result<(), AllocError>
        ensures ok { (log : Log) → Opened self.old log
            → OnOk result (Opened self.new (passed direction place (entry_view message.now) ∷ log)) }
        ensures err { OnErr result ((q : List ℕ) → held self.new q ≡ held self.old q) }
    {
        let Some(deed) = deed_in(direction, message) else {
            return Ok(());
        };
        let Some(params) = message.params() else {
            return Ok(());
        };
        let Some(uri) = uri_in(params) else {
            return Ok(());
        };
        self.keep_deed(deed, place, version_in(params), uri)
    }

    fn keep_deed(
        &mut self,
        deed: Deed,
        place: u64,
        version: Option<i64>,
        uri: &str,
    ) -> Result<(), AllocError>
        ensures own { OnOk result (held self.new uri.now
            ≡ after_deed deed place version (held self.old uri.now)) }
        ensures others { OnOk result ((q : List ℕ) → bytes_eq q uri.now ≡ false → held self.new q ≡ held self.old q) }
        ensures err { OnErr result ((q : List ℕ) → held self.new q ≡ held self.old q) }
    {
        match deed {
            Deed::Opens => {
                let document = Document {
                    opened: place,
                    version,
                    reported: place,
                };
                self.put(uri, document)
            }
            Deed::Changes => {
                self.change(uri, place, version);
                Ok(())
            }
            Deed::Closes => {
                self.remove(uri);
                Ok(())
            }
        }
    }

    fn put(&mut self, uri: &str, document: Document) -> Result<(), AllocError>
        ensures own { OnOk result (held self.new uri.now ≡ Some document) }
        ensures others { OnOk result ((q : List ℕ) → bytes_eq q uri.now ≡ false → held self.new q ≡ held self.old q) }
        ensures err { OnErr result ((q : List ℕ) → held self.new q ≡ held self.old q) }
    {
        let uri = String::from_str(self.alloc, uri)?;
        self.open.insert(uri, document)?;
        Ok(())
    }

    fn change(&mut self, uri: &str, place: u64, version: Option<i64>)
        ensures own { held self.new uri.now ≡ option_map (changed_at place version) (held self.old uri.now) }
        ensures others { (q : List ℕ) → bytes_eq q uri.now ≡ false → held self.new q ≡ held self.old q }
    {
        if let Some(document) = self.open.get_mut(uri) {
            *document = changed(place, version, *document);
        }
    }

    fn remove(&mut self, uri: &str)
        ensures own { held self.new uri.now ≡ None }
        ensures others { (q : List ℕ) → bytes_eq q uri.now ≡ false → held self.new q ≡ held self.old q }
    {
        self.open.remove(uri);
    }
}

/// A document after a change.
fn changed(place: u64, version: Option<i64>, document: Document) -> Document
    ensures { result ≡ changed_at place version document }
{
    match version {
        Some(_) => Document {
            opened: document.opened,
            version,
            reported: place,
        },
        None => document,
    }
}

/// What a client breaks that does this with a document.
fn deed_breaks(
    deed: Deed,
    version: Option<i64>,
    document: Option<Document>,
) -> Option<(Rule, Option<u64>)>
    ensures { result ≡ deed_finding deed version document }
{
    match (deed, document) {
        (Deed::Opens, None) | (Deed::Closes, Some(_)) => None,
        (Deed::Opens, Some(document)) => Some((Rule::AlreadyOpen, Some(document.opened))),
        (Deed::Changes | Deed::Closes, None) => Some((Rule::NotOpen, None)),
        (Deed::Changes, Some(document)) if is_not_higher(version, document.version) => {
            Some((Rule::VersionNotHigher, Some(document.reported)))
        }
        (Deed::Changes, Some(_)) => None,
    }
}

fn is_not_higher(version: Option<i64>, before: Option<i64>) -> bool
    ensures { result ≡ is_below version before }
{
    match (version, before) {
        (Some(version), Some(before)) => version <= before,
        _ => false,
    }
}

/// What the client does by a message with a document.
fn deed_in(direction: Direction, message: &Entry) -> Option<Deed>
    ensures { result ≡ deed_of direction (entry_view message.now) }
{
    match (direction, message.kind()) {
        (Direction::ToServer, Kind::Notification) => deed_named(message.method()),
        _ => None,
    }
}

fn deed_named(method: &str) -> Option<Deed>
    ensures { result ≡ named method.now }
{
    match method {
        "textDocument/didOpen" => Some(Deed::Opens),
        "textDocument/didChange" => Some(Deed::Changes),
        "textDocument/didClose" => Some(Deed::Closes),
        _ => None,
    }
}

/// The URI of the document that a message is about, if it names one: `textDocument.uri` in its params (LSP 3.17,
/// `TextDocumentIdentifier`).
pub fn document_uri(message: &Entry) -> Option<&str>
    ensures { option_map (λ s. s.now) result ≡ uri_of (params_in (entry_view message.now)) }
{
    uri_in(message.params()?)
}

fn uri_in(params: &Value) -> Option<&str>
    ensures { option_map (λ s. s.now) result ≡ uri_of (view params.now) }
{
    params.get("textDocument")?.get("uri")?.as_str()
}

fn version_in(params: &Value) -> Option<i64>
    ensures { result ≡ version_of (view params.now) }
{
    params.get("textDocument")?.get("version")?.as_i64()
}
