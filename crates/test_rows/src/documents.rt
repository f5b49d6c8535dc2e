// Open documents, as rows of notifications tell of them: a message with a method and params.
//
// `initialize` begins anew, in the encoding that its params agree on. The text of a save is asked for unless `includeText` of the
// params says no. Lines end by the standard if `standard` says so, and late changes are made if `makesLate` does. For a notification the line has `made`, its URI and what is to be said of it, or what is wrong, and whether a text
// is lost by it, and then each document that was open once: its URI, its version, its language, its text, and how many lines it has
// and the position of each place where a character begins. One that is closed shows `-`, and one whose text is lost `?`. A body that
// is no message has `unread`: it may have told of any document, so each text is lost. `known` has each URI whose text is known, with
// its version, and then with a copy of the document. `place` has where a position of a document is, in bytes, the range from there
// to the text's end, the position's line, and the same range as a copy of the document has it. `path` has the URI and the version of the document of a path. `doubtful` has the URIs whose text is known and doubtful. `keep` keeps copies of the documents, and
// `kept` has these. `long` opens a document of a text so many times over, and `often` puts a text before one so many times in one
// call: what comes is how long it is then, in bytes and in lines.
use crate::messages::text_in;
use crate::said::Said;
use crate::types::say_written;
use lsp_documents::{
    DocumentFault, DocumentOptions, DocumentSnapshot, DocumentUpdate, SyncOptions, SyncWarning,
    TextDocuments, UpdateFault, position_from,
};
use lsp_json::JsonRef;
use lsp_message::Notification;
use lsp_text::{ContentChange, LineEnds, Position, Range, Text, TextDocument};
use serde_json::Value;
use std::alloc::{AllocError, Global};
use std::fmt::Write;
use std::mem;

/// The documents of a server, and as lines the URIs of its notifications, each after a tab, and its notifications since
/// `initialize`.
#[derive(Drop)]
pub struct Documents {
    alloc: Global,
    documents: TextDocuments,
    copies: Vec<DocumentSnapshot>,
    seen: String,
    told: String,
}

impl Documents {
    /// Starts with no open document.
    pub fn new(alloc: Global) -> Documents {
        Documents {
            alloc,
            documents: TextDocuments::new(alloc, SyncOptions::defaults()),
            copies: Vec::new(alloc),
            seen: String::new(alloc),
            told: String::new(alloc),
        }
    }

    /// Says the result of a message. A message for which there was no memory is missed, so all messages before it are
    /// sent again.
    pub fn answer(&mut self, said: &mut Said, text: &str) {
        self.hear(said, text);
        if said.is_short {
            self.hear_again();
        }
    }

    /// Sends all notifications again to new documents.
    fn hear_again(&mut self) {
        let told = mem::replace(&mut self.told, String::new(self.alloc));
        let sync = self.documents.sync_options();
        self.begin(sync);
        let mut said = Said::new(self.alloc);
        for text in told.lines() {
            self.hear(&mut said, text);
        }
        drop(said);
    }

    /// Starts again, with what was agreed on.
    fn begin(&mut self, sync: SyncOptions) {
        self.documents = TextDocuments::new(self.alloc, sync);
        self.copies.clear();
        self.seen.clear();
        self.told.clear();
    }

    fn hear(&mut self, said: &mut Said, text: &str) {
        match Value::from_str(self.alloc, text) {
            Ok(message) => {
                self.hear_message(said, &message);
                drop(message);
            }
            Err(fault) if fault.is_memory() => said.is_short = true,
            Err(_) => {
                self.documents.invalidate_all();
                said.push("unread");
                self.show(said);
            }
        }
        if !said.is_short {
            let kept = write!(self.told, "{text}\n");
            said.note(kept);
        }
    }

    fn hear_message(&mut self, said: &mut Said, message: &Value) {
        let method = text_in(message.get("method"));
        let none = Value::Null;
        let params = message.get("params").unwrap_or(&none);
        match method {
            "initialize" => self.initialize(said, params),
            "path" => self.show_path(said, text_in(Some(params))),
            "known" => self.show_known(said),
            "keep" => self.keep(said),
            "kept" => show_copies(said, self.copies.as_slice()),
            "place" => self.show_place(said, params),
            "doubtful" => self.show_doubtful(said),
            "long" => self.open_long(said, params),
            "often" => self.change_often(said, params),
            _ => self.hear_params(said, method, params),
        }
        drop(none);
    }

    /// Agrees with a client, and starts again.
    fn initialize(&mut self, said: &mut Said, params: &Value) {
        let includes_text = flag_in(params, "includeText") != Some(false);
        let mut can = Value::Null;
        let sync = SyncOptions::negotiate(self.alloc, params, includes_text, &mut can);
        drop(can);
        match sync {
            Ok(sync) => {
                self.begin(sync.with_options(options_in(params)));
                said.push(sync.encoding().name());
            }
            Err(_) => said.is_short = true,
        }
    }

    /// Says the URIs whose text is doubtful, in the order in which they were named.
    fn show_doubtful(&self, said: &mut Said) {
        said.push("doubtful");
        for line in self.seen.lines() {
            let uri = line.strip_prefix("\t").unwrap_or(line);
            if self.documents.is_doubtful(uri) {
                said.push(" ");
                said.push(uri);
            }
        }
    }

    /// Says the URI and the version of the document of a path.
    fn show_path(&self, said: &mut Said, path: &str) {
        match self.documents.get_by_path(path) {
            Some((uri, document)) => {
                said.push(uri);
                said.push(" ");
                said.debug(document.version());
            }
            None => said.push("no document"),
        }
    }

    /// Opens a document whose text is a given one, repeated.
    fn open_long(&mut self, said: &mut Said, params: &Value) {
        let uri = text_in(params.get("uri"));
        let given = text_in(params.get("text"));
        let mut text = String::new(self.alloc);
        for _ in 0..count_in(params) {
            said.note(text.push_str(given));
        }
        if !said.is_short {
            let opened = self.documents.open(uri, "", None, text.as_str());
            self.say_length(said, uri, opened);
        }
    }

    /// Makes many changes of a document at once, each of which adds a text at the start.
    fn change_often(&mut self, said: &mut Said, params: &Value) {
        let uri = text_in(params.get("uri"));
        let start = Position::new(0, 0);
        let mut changes = Vec::new(self.alloc);
        for _ in 0..count_in(params) {
            let change = ContentChange {
                range: Some(Range::new(start, start)),
                text: said.text_of(text_in(params.get("text"))),
            };
            said.kept(changes.push(change));
        }
        if !said.is_short {
            let changed = self.documents.change(uri, None, changes.as_slice());
            self.say_length(said, uri, changed);
        }
        drop(changes);
    }

    /// Says the result of a call, and how long the document is then, in bytes and in lines.
    fn say_length(
        &self,
        said: &mut Said,
        uri: &str,
        outcome: Result<Option<SyncWarning>, DocumentFault>,
    ) {
        match outcome {
            Ok(warning) => said.debug(warning),
            Err(DocumentFault::Memory) => said.is_short = true,
            Err(fault) => said.show(fault),
        }
        if let Some(document) = self.documents.get(uri) {
            let text = document.text();
            said.push(" ");
            said.show(text.as_str().len());
            said.push(" ");
            said.show(text.line_count());
        }
    }

    fn hear_params(&mut self, said: &mut Said, method: &str, params: &Value) {
        let copy: Result<Value, AllocError> = params.clone();
        let notification = Notification {
            method: said.text_of(method),
            params: said.made(copy, Value::Null),
        };
        if !said.is_short {
            let heard = self.documents.apply(&notification);
            self.say(said, heard);
            self.show(said);
        }
        drop(notification);
    }

    /// Says the result of a notification.
    fn say(&mut self, said: &mut Said, heard: Option<Result<DocumentUpdate<'_>, UpdateFault<'_>>>) {
        match heard {
            None => said.push("no notification of documents"),
            Some(Ok(made)) => {
                said.push("made ");
                said.show(made);
                let seen = self.see(made.uri);
                said.note(seen);
            }
            Some(Err(missed)) => match missed.or_out_of_memory() {
                Ok(missed) => {
                    said.show(missed);
                    if missed.lost {
                        said.push(", its text is lost");
                    }
                }
                Err(_) => said.is_short = true,
            },
        }
    }

    /// Remembers a URI.
    fn see(&mut self, uri: &str) -> Result<(), AllocError> {
        let line = format!(in self.alloc; "\t{uri}\n")?;
        if self.seen.contains(line.as_str()) {
            return Ok(());
        }
        self.seen.push_str(line.as_str())
    }

    /// Each document that was open once.
    fn show(&self, said: &mut Said) {
        for line in self.seen.lines() {
            said.push(line);
            said.push(" ");
            self.show_document(said, line.strip_prefix("\t").unwrap_or(line));
        }
    }

    fn show_document(&self, said: &mut Said, uri: &str) {
        match self.documents.get(uri) {
            Some(document) => self.show_open(said, document),
            None if self.documents.is_open(uri) => said.push("?"),
            None => said.push("-"),
        }
    }

    fn show_open(&self, said: &mut Said, document: &TextDocument) {
        let text = document.text();
        said.debug(document.version());
        said.push(" ");
        said.push(document.language_id());
        said.push(" ");
        say_written(said, &text.as_str());
        said.push(" ");
        said.show(text.line_count());
        self.show_places(said, text);
    }

    /// Each URI whose text is known with its version, and then with a copy of the document.
    fn show_known(&self, said: &mut Said) {
        said.push("known");
        for (uri, document) in self.documents.in_sync() {
            said.push(" ");
            said.push(uri);
            said.push(" ");
            said.debug(document.version());
        }
        match self.documents.snapshot() {
            Ok(copies) => show_copies(said, copies.as_slice()),
            Err(_) => said.is_short = true,
        }
    }

    /// Keeps copies of the documents as they are.
    fn keep(&mut self, said: &mut Said) {
        match self.documents.snapshot() {
            Ok(copies) => self.copies = copies,
            Err(_) => said.is_short = true,
        }
        said.show(self.copies.len());
    }

    /// Where a position is in a document, in bytes, and the range from there to the text's end.
    fn show_place(&self, said: &mut Said, params: &Value) {
        match self.place_in(params) {
            Some((document, offset)) => {
                let text = document.text();
                let part = offset..text.as_str().len();
                said.show(offset);
                said.push(" ");
                say_written(said, &self.documents.range_of(text, part));
                said.push(" ");
                say_written(said, &line_of(text, params));
                said.push(" ");
                self.show_in_copy(said, document, offset);
            }
            None => said.push("no place"),
        }
    }

    /// Says the range from a place of a document to its end, as a copy of the document has it.
    fn show_in_copy(&self, said: &mut Said, document: &TextDocument, offset: usize) {
        match DocumentSnapshot::new(self.alloc, "", document) {
            Ok(copy) => {
                let part = offset..copy.text.as_str().len();
                say_written(said, &copy.range_of(part, self.documents.encoding()));
                drop(copy);
            }
            Err(_) => said.is_short = true,
        }
    }

    /// The document that params name, if its text is known, and where their position is in it.
    fn place_in(&self, params: &Value) -> Option<(&TextDocument, usize)> {
        let position = position_from(&JsonRef::of_tree(params.get("position")?))?;
        self.documents.resolve(text_in(params.get("uri")), position)
    }

    fn show_places(&self, said: &mut Said, text: &Text) {
        match self.places_of(text) {
            Ok(places) => {
                for place in places {
                    said.push(" ");
                    said.show(place.line);
                    said.push(":");
                    said.show(place.character);
                }
            }
            Err(_) => said.is_short = true,
        }
    }

    /// The position of each place where a character begins.
    fn places_of(&self, text: &Text) -> Result<Vec<Position>, AllocError> {
        let mut offsets = Vec::new(self.alloc);
        for offset in 0..=text.as_str().len() {
            if text.as_str().is_char_boundary(offset) {
                offsets.push(offset)?;
            }
        }
        self.documents.positions_of(text, offsets.as_slice())
    }
}

/// Says copies of documents, each after a tab.
fn show_copies(said: &mut Said, copies: &[DocumentSnapshot]) {
    for copy in copies {
        said.push("\t");
        said.push(copy.uri.as_str());
        said.push(" ");
        said.push(copy.language_id.as_str());
        said.push(" ");
        said.debug(copy.version);
        said.push(" ");
        say_written(said, &copy.text.as_str());
    }
}

/// The line of a position that params have.
fn line_of<'t>(text: &'t Text, params: &Value) -> Option<&'t str> {
    text.line(position_from(&JsonRef::of_tree(params.get("position")?))?.line)
}

fn flag_in(params: &Value, name: &str) -> Option<bool> {
    params.get(name)?.as_bool()
}

/// Returns the options with which a row has its client read.
fn options_in(params: &Value) -> DocumentOptions {
    let mut options = DocumentOptions::new();
    if flag_in(params, "standard") == Some(true) {
        options.line_ends = LineEnds::Standard;
    }
    if flag_in(params, "makesLate") == Some(true) {
        options.applies_late = true;
    }
    options
}

/// How many times a row asks for.
fn count_in(params: &Value) -> u64 {
    let count = params.get("count").and_then(|count| count.as_u64());
    count.unwrap_or(0)
}
