// How many lines the open documents have, and whether folding ranges are within them (LSP 3.17, "FoldingRange").
ghost use Rattle.std.specs.Prelude.{◌≡◌, ◌∷◌, [], ℕ, List, Some, None, false, option_and_then, option_map, OnOk};
ghost use Rattle.std.specs.Str.{bytes_eq};
ghost use Rattle.serde_json.specs.View.{view};
ghost use Rattle.lsp_watch.specs.Documents.{deed_in, deed_named, document_in};
ghost use Rattle.lsp_watch.specs.Entries.{entry_view};
ghost use Rattle.lsp_watch.specs.Log.{Log, passed};
ghost use Rattle.lsp_model.specs.LineCounts.{Counts, counted_in, after_deed, changed_at, opened_lines as lines_opened, changed_lines as lines_changed};

use crate::lines::{after_changes, is_outside, line_outside, lines_of};
use crate::misfit::Misfit;
use crate::mode::Mode;
use crate::model::Model;
use lsp_watch::{Direction, Entry, Kind, Watch, document_uri};
use serde_json::Value;
use std::alloc::{AllocError, Global};
use std::collections::BTreeMap;

/// Where a result of `initialize` says how documents are synchronised.
const SYNC: &str = "/result/capabilities/textDocumentSync";

/// Keeps how many lines each open document has, without its text.
///
/// It stands beside a `Watch`, which sees the same messages. Memory follows the documents that are open, and the requests for folding
/// ranges that have no reply. A message of the client that can't be read may have changed any document: begin again with `new` after it.
#[derive(Debug, Drop)]
pub struct LineCounts {
    alloc: Global,
    documents: BTreeMap<String, Counted>,
    /// The requests for folding ranges that have no reply, by their places.
    requests: BTreeMap<u64, Request>,
    /// Whether the client notifies the server of changes: the server announced that it wants them, or the client sent one.
    is_synced: bool,
}

/// What is kept of a document that is open.
#[derive(Clone, Copy, Debug)]
struct Counted {
    /// The number of its lines, if it is known.
    lines: Option<u64>,
    /// The place of the message that opened it, or of its last change.
    changed: u64,
}

/// A request for the folding ranges of a document that is open.
#[derive(Debug, Drop)]
struct Request {
    uri: String,
    /// The place of the last change of the document before the request.
    changed: u64,
}

impl LineCounts {
    /// Begins with a session in which no document is open. It does not allocate.
    pub fn new(alloc: Global) -> LineCounts
        ensures { Counts result [] }
    {
        LineCounts {
            alloc,
            documents: BTreeMap::new(alloc),
            requests: BTreeMap::new(alloc),
            is_synced: false,
        }
    }

    /// Returns whether a reply would have folding ranges with a line that their document does not have, if it passed now. The watch saw
    /// the messages before it.
    ///
    /// A result that has another type is not judged. A result is also not judged if the number of lines is not known, if the document was
    /// changed or closed after the request, or if the client does not notify the server of changes.
    pub fn is_outside(
        &self,
        alloc: Global,
        model: &Model,
        watch: &Watch,
        direction: Direction,
        message: &Entry,
    ) -> bool {
        let Some(lines) = self.lines_for(watch, direction, message) else {
            return false;
        };
        match message.tree().get("result") {
            Some(result) => {
                is_outside(lines, result)
                    && !model.is_unfit(alloc, Mode::Loose, watch, direction, message)
            }
            None => false,
        }
    }

    /// Returns the first member of a reply's folding ranges that is no line of their document, if `is_outside` returns true.
    ///
    /// The error means that an allocation failed.
    pub fn misfit(
        &self,
        alloc: Global,
        watch: &Watch,
        direction: Direction,
        message: &Entry,
    ) -> Result<Option<Misfit>, AllocError> {
        let Some(lines) = self.lines_for(watch, direction, message) else {
            return Ok(None);
        };
        match message.tree().get("result").and_then(Value::as_array) {
            Some(folds) => first_outside(alloc, lines, folds.as_slice()),
            None => Ok(None),
        }
    }

    /// Returns the number of lines of the document whose folding ranges a reply has.
    fn lines_for(&self, watch: &Watch, direction: Direction, message: &Entry) -> Option<u64> {
        let Kind::Reply(id, true) = message.kind() else {
            return None;
        };
        let request = self
            .requests
            .get(&watch.waiting(direction.other(), id)?.place)?;
        let counted = self.documents.get(request.uri.as_str())?;
        if self.is_synced && counted.changed == request.changed {
            counted.lines
        } else {
            None
        }
    }

    /// Keeps what a message does. The watch saw the messages before it. No two messages have the same place.
    ///
    /// The error means that an allocation failed. Do not use the value after that: it may be incomplete.
    pub fn keep(
        &mut self,
        place: u64,
        watch: &Watch,
        direction: Direction,
        message: &Entry,
    ) -> Result<(), AllocError>
        ensures { (log : Log) → Counts self.old log
            → OnOk result (Counts self.new (passed direction place (entry_view message.now) ∷ log)) }
    {
        self.keep_request(place, direction, message)?;
        self.keep_reply(watch, direction, message);
        self.keep_change(place, direction, message)
    }

    fn keep_change(
        &mut self,
        place: u64,
        direction: Direction,
        message: &Entry,
    ) -> Result<(), AllocError>
        ensures { (log : Log) → Counts self.old log
            → OnOk result (Counts self.new (passed direction place (entry_view message.now) ∷ log)) }
    {
        let Some(method) = notified(direction, message) else {
            return Ok(());
        };
        let Some(params) = message.params() else {
            return Ok(());
        };
        let Some(uri) = document_uri(message) else {
            return Ok(());
        };
        self.keep_named(method, place, params, uri)
    }

    fn keep_named(
        &mut self,
        method: &str,
        place: u64,
        params: &Value,
        uri: &str,
    ) -> Result<(), AllocError>
        ensures own { OnOk result (counted_in self.new uri.now
            ≡ after_deed (deed_named method.now) place (view params.now) (counted_in self.old uri.now)) }
        ensures others { OnOk result ((q : List ℕ) → bytes_eq q uri.now ≡ false → counted_in self.new q ≡ counted_in self.old q) }
    {
        match method {
            "textDocument/didOpen" => self.open(place, params, uri),
            "textDocument/didChange" => {
                self.change(place, params, uri);
                Ok(())
            }
            "textDocument/didClose" => {
                self.close(uri);
                Ok(())
            }
            _ => Ok(()),
        }
    }

    fn open(&mut self, place: u64, params: &Value, uri: &str) -> Result<(), AllocError>
        ensures own { OnOk result (counted_in self.new uri.now
            ≡ Some (record { lines = lines_opened (view params.now); changed = place })) }
        ensures others { OnOk result ((q : List ℕ) → bytes_eq q uri.now ≡ false → counted_in self.new q ≡ counted_in self.old q) }
    {
        let counted = Counted {
            lines: opened_lines(params),
            changed: place,
        };
        let uri = String::from_str(self.alloc, uri)?;
        self.documents.insert(uri, counted)?;
        Ok(())
    }

    fn change(&mut self, place: u64, params: &Value, uri: &str)
        ensures own { counted_in self.new uri.now ≡ option_map (changed_at place (view params.now)) (counted_in self.old uri.now) }
        ensures others { (q : List ℕ) → bytes_eq q uri.now ≡ false → counted_in self.new q ≡ counted_in self.old q }
    {
        self.is_synced = true;
        if let Some(counted) = self.documents.get_mut(uri) {
            *counted = Counted {
                lines: changed_lines(counted.lines, params),
                changed: place,
            };
        }
    }

    fn close(&mut self, uri: &str)
        ensures own { counted_in self.new uri.now ≡ None }
        ensures others { (q : List ℕ) → bytes_eq q uri.now ≡ false → counted_in self.new q ≡ counted_in self.old q }
    {
        self.documents.remove(uri);
    }

    fn keep_request(
        &mut self,
        place: u64,
        direction: Direction,
        message: &Entry,
    ) -> Result<(), AllocError>
        ensures { self.new.documents ≡ self.old.documents }
    {
        if !asks_for_folds(direction, message) {
            return Ok(());
        }
        let Some(uri) = document_uri(message) else {
            return Ok(());
        };
        let Some(counted) = self.documents.get(uri).copied() else {
            return Ok(());
        };
        let request = Request {
            uri: String::from_str(self.alloc, uri)?,
            changed: counted.changed,
        };
        self.requests.insert(place, request)?;
        Ok(())
    }

    fn keep_reply(&mut self, watch: &Watch, direction: Direction, message: &Entry)
        ensures { self.new.documents ≡ self.old.documents }
    {
        let Kind::Reply(id, _) = message.kind() else {
            return;
        };
        let Some(asked) = watch.waiting(direction.other(), id) else {
            return;
        };
        if asked.opens_session() {
            self.is_synced = wants_changes(message.tree().pointer(SYNC));
        }
        self.requests.remove(&asked.place);
    }
}

/// Returns the method of a client's notification.
fn notified(direction: Direction, message: &Entry) -> Option<&str>
    ensures { option_and_then deed_named (option_map (λ s. s.now) result) ≡ deed_in direction (entry_view message.now) }
{
    match (direction, message.kind()) {
        (Direction::ToServer, Kind::Notification) => Some(message.method()),
        _ => None,
    }
}

fn asks_for_folds(direction: Direction, message: &Entry) -> bool {
    match (direction, message.kind()) {
        (Direction::ToServer, Kind::Request(_)) => {
            message.method() == "textDocument/foldingRange"
        }
        _ => false,
    }
}

/// Returns whether a server wants to be notified of changes (LSP 3.17, "TextDocumentSyncKind").
fn wants_changes(sync: Option<&Value>) -> bool {
    let Some(sync) = sync else {
        return false;
    };
    let kind = sync.get("change").unwrap_or(sync);
    kind.as_u64().is_some_and(|it| it > 0)
}

/// Returns the number of lines of a document that a client opens.
fn opened_lines(params: &Value) -> Option<u64>
    ensures { result ≡ lines_opened (view params.now) }
{
    lines_of(params.get("textDocument")?.get("text")?.as_str()?)
}

/// Returns the number of lines of a document that a client changes.
fn changed_lines(lines: Option<u64>, params: &Value) -> Option<u64>
    ensures { result ≡ lines_changed lines (view params.now) }
{
    after_changes(lines, params.get("contentChanges")?.as_array()?.as_slice())
}

/// Returns the first member of folding ranges that is none of so many lines.
fn first_outside(alloc: Global, lines: u64, folds: &[Value]) -> Result<Option<Misfit>, AllocError> {
    for (index, fold) in folds.iter().enumerate() {
        if let Some(key) = line_outside(lines, fold) {
            let path = format!(in alloc; "/result/{index}/{key}")?;
            return Ok(Some(Misfit::at(path)));
        }
    }
    Ok(None)
}
