// The documents that a client has opened, by their URIs.
ghost use Rattle.std.specs.Prelude.{◌≡◌, ℕ, ◌<◌, ◌^◌, List, [], length, map, Option, Some, None, true, false, not, ◌&&◌, is_some, option_map, option_and_then, string_bytes, OnOk, OnErr, IfOk, IfErr, IfSome, IsSomeAnd, MatchOption};
ghost use Rattle.std.specs.Option.{option_copied};
ghost use Rattle.std.specs.Str.{bytes_eq};
ghost use Rattle.std.specs.String.Boundary.{IsSplitPoint};
ghost use Rattle.serde_json.specs.View.{view};
ghost use Rattle.lsp_json.specs.JsonRef.{json_data};
ghost use Rattle.lsp_text.specs.Columns.{offset_of, IsPlace};
ghost use Rattle.lsp_documents.specs.Heard.{Answers};
ghost use Rattle.lsp_documents.specs.Held.{documents_of, known_of, texts_of, has_known, loses};
ghost use Rattle.lsp_documents.specs.Known.{copied, copied_whole, NoneNames, IsFirstOf};
ghost use Rattle.lsp_documents.specs.Methods.{method_named};
ghost use Rattle.lsp_documents.specs.Notices.{document, told_whole, text_item, text_by, begun_by, opens, edits, closes, saves, shown, lost, lost_at, missed, left_by, is_late as late, has_doubt, is_needed, changes_remark, save_remark as remark_of_save, changed_or_late, saved_in, step_fault as fault_in, change_fault, has_whole as has_whole_text, has_changes, is_known, MissesAll, Took, Refused, Failed, FailedSave};
ghost use Rattle.lsp_documents.specs.declared.kept.DocumentState.TheVariants.{Known};
ghost use Rattle.lsp_documents.specs.declared.fault.DocumentFault.TheVariants.{Params};
ghost use Rattle.lsp_documents.specs.Params.{uri_from, did_open_in, did_change_in, did_save_in, did_close_in};
ghost use Rattle.lsp_text.specs.Places.{position_of};

use crate::changes::{change_remark, has_whole, is_not_higher};
use crate::fault::{DocumentFault, DocumentUpdate, SyncWarning, UpdateFault};
use crate::kept::DocumentState;
use crate::kept_document::KeptDocument;
use crate::known::{DocumentSnapshot, KnownDocuments};
use crate::lost::LostDocument;
use crate::method::DocumentMethod;
use crate::negotiation::SyncOptions;
use crate::params;
use lsp_calls::NotificationRef;
use lsp_json::JsonRef;
use lsp_message::Notification;
use lsp_text::{ContentChange, Position, PositionEncoding, Range, Text, TextDocument};
use lsp_types::names_path;
use std::alloc::{AllocError, Global};
use std::collections::BTreeMap;
use std::collections::btree_map::Iter;
use std::{mem, ops};

/// The documents that a client has opened, by their URIs. Two URIs are the same if they are the same text.
///
/// If a notification about a document was missed, its text is *lost*: no call returns it until the client sends it
/// whole. Contracts see what was agreed on, and what is kept for each URI.
///
/// A call that fails with `Memory` has missed its notification. Don't call it again: the text is lost already.
#[derive(Drop)]
pub struct TextDocuments {
    alloc: Global,
    sync: SyncOptions,
    documents: BTreeMap<String, DocumentState>,
}

impl TextDocuments {
    /// Makes documents of a client with which this was agreed on. None is open.
    pub fn new(alloc: Global, sync: SyncOptions) -> TextDocuments
        ensures sync { result.sync ≡ sync }
        ensures none { (uri : List ℕ) → (documents_of result).held uri ≡ None }
    {
        TextDocuments {
            alloc,
            sync,
            documents: BTreeMap::new(alloc),
        }
    }

    /// Returns what was agreed on with the client.
    pub fn sync_options(&self) -> SyncOptions
        ensures { result ≡ self.now.sync }
    {
        self.sync
    }

    /// Returns the encoding that was agreed on.
    pub fn encoding(&self) -> PositionEncoding
        ensures { result ≡ self.now.sync.encoding }
    {
        self.sync.encoding()
    }

    /// Returns the document of a URI, if it is open and its text is known.
    pub fn get(&self, uri: &str) -> Option<&TextDocument>
        ensures { option_copied result
            ≡ option_and_then shown ((documents_of self.now).held uri.now) }
    {
        self.documents.get(uri)?.document()
    }

    /// Returns whether a document of the URI is open, whether its text is known or lost.
    pub fn is_open(&self, uri: &str) -> bool
        ensures { result ≡ is_some ((documents_of self.now).held uri.now) }
    {
        self.documents.contains_key(uri)
    }

    /// Goes over all open documents in the order of their URIs: the URI, and what is kept of the document.
    pub fn iter(&self) -> Iter<'_, String, DocumentState>
        ensures { result ≡ self.now.documents.entries }
    {
        self.documents.iter()
    }

    /// Goes over the documents whose text is known in the order of their URIs: the URI and the document.
    pub fn in_sync(&self) -> KnownDocuments<'_>
        ensures { result ≡ known_of self.now }
    {
        KnownDocuments { open: self.iter() }
    }

    /// Returns the document of a path, if its text is known: the first, in the order of the URIs, whose URI names the
    /// path, as `lsp_types::names_path` decides. Editors spell the URI of a path in several ways, so
    /// `get(uri_of_path(path))` misses some.
    pub fn get_by_path(&self, path: &str) -> Option<(&str, &TextDocument)>
        ensures { MatchOption result (NoneNames path.now (known_of self.now))
            (λ found. IsFirstOf path.now (known_of self.now) (found.0.now, found.1.now)) }
    {
        for (uri, document) in self.in_sync() {
            if names_path(uri, path) {
                return Some((uri, document));
            }
        }
        None
    }

    /// Copies each document whose text is known, with its URI, in the order of the URIs. Use it for a job, which goes
    /// on while the documents change. The texts are shared: a document's next change copies its text, if the copy still
    /// exists then.
    pub fn snapshot(&self) -> Result<Vec<DocumentSnapshot>, AllocError>
        ensures texts { IfOk result (λ texts. copied texts.items ≡ texts_of self.now) }
        ensures whole { IfOk result (λ texts. copied_whole texts.items ≡ known_of self.now) }
    {
        let mut texts = Vec::new(self.alloc);
        for (uri, document) in self.in_sync() {
            texts.push(DocumentSnapshot::new(self.alloc, uri, document)?)?;
        }
        Ok(texts)
    }

    /// Returns the document of a URI, if its text is known, and the offset of a position in its text, in bytes of
    /// UTF-8. The position is in the encoding that was agreed on. A position past an end counts as `Text::offset_at`
    /// says.
    pub fn resolve(&self, uri: &str, position: Position) -> Option<(&TextDocument, usize)>
        ensures document { option_map (λ found. found.0.now) result
            ≡ option_and_then shown ((documents_of self.now).held uri.now) }
        ensures offset { IfSome result (λ found. found.1
            ≡ offset_of self.now.sync.encoding found.0.now.text position.line position.character) }
        ensures boundary { IfSome result (λ found. IsSplitPoint found.0.now.text.bytes found.1) }
    {
        let document = self.get(uri)?;
        Some((
            document,
            document.text().offset_at(position, self.encoding()),
        ))
    }

    /// Returns the range of a part of a text. The part is given in bytes of UTF-8, and the range is in the encoding
    /// that was agreed on. An end past the end of the text counts as that end.
    pub fn range_of(&self, text: &Text, part: ops::Range<usize>) -> Range
        ensures start { result.start ≡ position_of self.now.sync.encoding text.now part.start }
        ensures end { result.end ≡ position_of self.now.sync.encoding text.now part.end }
        ensures start_again { IsPlace text.now part.start → length text.now.bytes < 2 ^ 30
            → offset_of self.now.sync.encoding text.now result.start.line result.start.character
            ≡ part.start }
        ensures end_again { IsPlace text.now part.end → length text.now.bytes < 2 ^ 30
            → offset_of self.now.sync.encoding text.now result.end.line result.end.character
            ≡ part.end }
    {
        Range {
            start: text.position_at(part.start, self.encoding()),
            end: text.position_at(part.end, self.encoding()),
        }
    }

    /// Returns the positions of several places of a text. The places are given in bytes of UTF-8, and the positions are
    /// in the encoding that was agreed on. If the places are in ascending order, each line is read once, as
    /// `Text::positions_at` says.
    pub fn positions_of(&self, text: &Text, offsets: &[usize]) -> Result<Vec<Position>, AllocError>
        ensures { IfOk result (λ found.
            found.items ≡ map (position_of self.now.sync.encoding text.now) offsets.now) }
    {
        text.positions_at(self.alloc, offsets, self.encoding())
    }

    /// Returns whether the text of a URI is known and doubtful: a save brought it back, and the client has not sent it
    /// whole since.
    pub fn is_doubtful(&self, uri: &str) -> bool
        ensures { result ≡ has_doubt ((documents_of self.now).held uri.now) }
    {
        match self.documents.get(uri) {
            Some(open) => open.is_doubtful(),
            None => false,
        }
    }

    /// Returns whether the text of a URI is known.
    fn knows(&self, uri: &str) -> bool
        ensures { result ≡ is_known (documents_of self.now) uri.now }
    {
        self.get(uri).is_some()
    }

    /// Returns whether the text of some document is known.
    fn knows_any(&self) -> bool
        ensures { result ≡ has_known self.now }
    {
        self.documents
            .values()
            .any(|open| open.document().is_some())
    }

    /// Opens a document. If the URI has one already, this one replaces it, and the warning is `OpenAlready`. If memory
    /// runs out, the fault is `Memory`, and the text of the old document is lost.
    pub fn open(
        &mut self,
        uri: &str,
        language_id: &str,
        version: Option<i32>,
        text: &str,
    ) -> Result<Option<SyncWarning>, DocumentFault>
        ensures ok { IfOk result (λ warning.
            Took (documents_of self.old) (opens uri.now language_id.now version text.now) warning
            (documents_of self.new)) }
        ensures err { IfErr result (λ fault.
            Refused (documents_of self.old) (opens uri.now language_id.now version text.now) fault
            (documents_of self.new)) }
    {
        let warning = if self.documents.contains_key(uri) {
            Some(SyncWarning::OpenAlready)
        } else {
            None
        };
        match self.insert(uri, language_id, version, text) {
            Ok(()) => Ok(warning),
            Err(_) => {
                self.invalidate(uri);
                Err(DocumentFault::Memory)
            }
        }
    }

    /// Inserts the document of a URI. If memory runs out, nothing is changed.
    fn insert(
        &mut self,
        uri: &str,
        language_id: &str,
        version: Option<i32>,
        text: &str,
    ) -> Result<(), AllocError>
        ensures own { OnOk result ((documents_of self.new).held uri.now
            ≡ Some (told_whole (document language_id.now version
            (text_by self.old.sync text.now)))) }
        ensures others { OnOk result ((q : List ℕ) → bytes_eq q uri.now ≡ false
            → (documents_of self.new).held q ≡ (documents_of self.old).held q) }
        ensures err { OnErr result ((q : List ℕ)
            → (documents_of self.new).held q ≡ (documents_of self.old).held q) }
        ensures sync { self.new.sync ≡ self.old.sync }
    {
        let document = TextDocument::new(
            self.alloc,
            language_id,
            version,
            text,
            self.sync.options().line_ends,
        )?;
        self.put(uri, document)
    }

    /// Inserts a document that changes open, one of which is a whole text. If memory runs out, nothing is changed.
    fn insert_changed(
        &mut self,
        uri: &str,
        version: Option<i32>,
        changes: &[ContentChange],
    ) -> Result<(), AllocError>
        ensures own { OnOk result ((documents_of self.new).held uri.now
            ≡ Some (told_whole (begun_by self.old.sync [] version changes.now))) }
        ensures others { OnOk result ((q : List ℕ) → bytes_eq q uri.now ≡ false
            → (documents_of self.new).held q ≡ (documents_of self.old).held q) }
        ensures err { OnErr result ((q : List ℕ)
            → (documents_of self.new).held q ≡ (documents_of self.old).held q) }
        ensures sync { self.new.sync ≡ self.old.sync }
    {
        let document = begun(self.alloc, self.sync, "", version, changes)?;
        self.put(uri, document)
    }

    /// Inserts a document under a URI. If memory runs out, nothing is changed.
    fn put(&mut self, uri: &str, document: TextDocument) -> Result<(), AllocError>
        ensures own { OnOk result ((documents_of self.new).held uri.now ≡ Some (told_whole document)) }
        ensures others { OnOk result ((q : List ℕ) → bytes_eq q uri.now ≡ false
            → (documents_of self.new).held q ≡ (documents_of self.old).held q) }
        ensures err { OnErr result ((q : List ℕ)
            → (documents_of self.new).held q ≡ (documents_of self.old).held q) }
        ensures sync { self.new.sync ≡ self.old.sync }
    {
        let uri = String::from_str(self.alloc, uri)?;
        let kept = KeptDocument::told(document);
        self.documents.insert(uri, DocumentState::Known(kept))?;
        Ok(())
    }

    /// Returns why changes to a version of a document are refused. `whole` says whether a whole text is among them.
    fn refusal(&self, uri: &str, version: Option<i32>, whole: bool) -> Option<DocumentFault>
        ensures { result
            ≡ change_fault self.now.sync ((documents_of self.now).held uri.now) version whole }
    {
        match self.documents.get(uri) {
            Some(open) if is_late(self.sync, version, whole, open.version()) => {
                Some(DocumentFault::OutOfOrder)
            }
            Some(open) => step_fault(open, whole),
            None if whole => None,
            None => Some(DocumentFault::NotOpen),
        }
    }

    /// Does what a refusal of changes does to a document: changes that come late make its text lost.
    fn refuse(&mut self, uri: &str, fault: DocumentFault)
        ensures own { (documents_of self.new).held uri.now
            ≡ left_by fault ((documents_of self.old).held uri.now) }
        ensures others { (q : List ℕ) → bytes_eq q uri.now ≡ false
            → (documents_of self.new).held q ≡ (documents_of self.old).held q }
        ensures sync { self.new.sync ≡ self.old.sync }
    {
        if let DocumentFault::OutOfOrder = fault
            && let Some(open) = self.documents.get_mut(uri)
        {
            let version = open.version();
            lose_text(self.alloc, open, version);
        }
    }

    /// Applies the changes of one notification to a document, each to the text that the one before it left. A whole
    /// text replaces everything before it.
    ///
    /// The warning is the first of these that applies:
    ///
    /// - `WasNotOpen`: there was no document of the URI, and a change of the whole text opened it.
    /// - `PastEnd`: a position of a change after the last whole text is past its line's end, or past the place after
    ///   the last line.
    /// - `BroughtBackBySave`, `SavedTextDiffers`: no change is a whole text, and a save before them left a doubt
    ///   (`save`).
    /// - `VersionNotHigher`: the version is the document's or a lower one.
    ///
    /// If no change is a whole text, the fault is the first of these that applies:
    ///
    /// - `NotOpen`: there is no document of the URI. Nothing is changed.
    /// - `OutOfOrder`: the version is lower than the document's, and the author did not choose to apply late changes
    ///   (`DocumentOptions`). The text is lost.
    /// - `OutOfStep`: the text is lost. Nothing is changed.
    ///
    /// If memory runs out, the fault is `Memory`, and the text is lost. An empty list of changes needs no memory.
    pub fn change(
        &mut self,
        uri: &str,
        version: Option<i32>,
        changes: &[ContentChange],
    ) -> Result<Option<SyncWarning>, DocumentFault>
        ensures ok { IfOk result (λ warning.
            Took (documents_of self.old) (edits uri.now version changes.now) warning
            (documents_of self.new)) }
        ensures err { IfErr result (λ fault.
            Refused (documents_of self.old) (edits uri.now version changes.now) fault
            (documents_of self.new)) }
    {
        if let Some(fault) = self.refusal(uri, version, has_whole(changes)) {
            self.refuse(uri, fault);
            return Err(fault);
        }
        if !self.documents.contains_key(uri) {
            self.insert_changed(uri, version, changes)?;
            return Ok(Some(SyncWarning::WasNotOpen));
        }
        Ok(self.edit(uri, version, changes)?)
    }

    /// Applies changes to the document of a URI, if there is one: to the text that is known, or from the whole text on
    /// that is among them. It returns the warning about them.
    fn edit(
        &mut self,
        uri: &str,
        version: Option<i32>,
        changes: &[ContentChange],
    ) -> Result<Option<SyncWarning>, AllocError>
        requires { change_fault self.old.sync ((documents_of self.old).held uri.now) version
            (has_whole_text changes.now) ≡ None }
        ensures warning { IfOk result (λ warning. IfSome ((documents_of self.old).held uri.now)
            (λ o. warning ≡ changes_remark self.old.sync o version changes.now)) }
        ensures own { OnOk result ((documents_of self.new).held uri.now
            ≡ option_map (λ o. changed_or_late self.old.sync o version changes.now)
            ((documents_of self.old).held uri.now)) }
        ensures err { OnErr result ((documents_of self.new).held uri.now
            ≡ missed ((documents_of self.old).held uri.now)) }
        ensures needed { OnErr result (has_changes changes.now ≡ true) }
        ensures others { (q : List ℕ) → bytes_eq q uri.now ≡ false
            → (documents_of self.new).held q ≡ (documents_of self.old).held q }
        ensures sync { self.new.sync ≡ self.old.sync }
    {
        match self.documents.get_mut(uri) {
            Some(open) => change_open(self.alloc, open, version, self.sync, changes),
            None => Ok(None),
        }
    }

    /// Makes the text of a URI's document lost, if there is one, because a notification about it was missed. A
    /// `didOpen`, a change of the whole text or the text of a `didSave` brings it back.
    pub fn invalidate(&mut self, uri: &str)
        ensures own { (documents_of self.new).held uri.now
            ≡ missed ((documents_of self.old).held uri.now) }
        ensures others { (q : List ℕ) → bytes_eq q uri.now ≡ false
            → (documents_of self.new).held q ≡ (documents_of self.old).held q }
        ensures sync { self.new.sync ≡ self.old.sync }
    {
        if let Some(open) = self.documents.get_mut(uri) {
            lose_text(self.alloc, open, None);
        }
    }

    /// Makes the text of each document lost, because a notification was missed that may have been about any of them. In
    /// a session that reads on after a content part which is no message, the server is woken for each such part, and
    /// its `woken` calls this: nobody knows which document that part named.
    pub fn invalidate_all(&mut self)
        ensures held { (q : List ℕ)
            → (documents_of self.new).held q ≡ missed ((documents_of self.old).held q) }
        ensures sync { self.new.sync ≡ self.old.sync }
    {
        let alloc = self.alloc;
        self.documents.retain(|_, open| {
            lose_text(alloc, open, None);
            true
        });
    }

    /// Notes that a document was saved. A text is used only if the client was asked for it (`SyncOptions`), since some
    /// clients send a part of it unasked. It replaces a text that is lost, and is doubtful then (`is_doubtful`).
    ///
    /// If it differs from a text that is known, the two are compared again after the next notification about the
    /// document: some clients save before they send their last changes. If they still differ then, the warning of that
    /// notification is `SavedTextDiffers`. This has three exceptions: changes with a whole text among them, a save with
    /// the same text again, and a second `didOpen`. A `didClose` drops the saved text.
    ///
    /// Without a document of the URI the fault is `NotOpen`. If memory runs out, the fault is `Memory`. Nothing is
    /// changed in either case.
    pub fn save(
        &mut self,
        uri: &str,
        text: Option<&str>,
    ) -> Result<Option<SyncWarning>, DocumentFault>
        ensures ok { IfOk result (λ warning.
            Took (documents_of self.old) (saves uri.now (option_map (λ s. s.now) text.entry)) warning
            (documents_of self.new)) }
        ensures err { IfErr result (λ fault.
            Refused (documents_of self.old) (saves uri.now (option_map (λ s. s.now) text.entry))
            fault (documents_of self.new)) }
    {
        let Some(open) = self.documents.get(uri) else {
            return Err(DocumentFault::NotOpen);
        };
        let Some(text) = text else {
            return Ok(None);
        };
        if !self.sync.include_text() {
            return Ok(None);
        }
        let warning = save_remark(open, text);
        self.renew(uri, text)?;
        Ok(warning)
    }

    /// Puts a text into the document of a URI, if there is one whose text is lost. A text that is known is to be
    /// compared with it.
    fn renew(&mut self, uri: &str, text: &str) -> Result<(), AllocError>
        ensures own { OnOk result ((documents_of self.new).held uri.now
            ≡ option_map (λ o. saved_in self.old.sync o text.now)
            ((documents_of self.old).held uri.now)) }
        ensures err { OnErr result ((documents_of self.new).held uri.now
            ≡ (documents_of self.old).held uri.now) }
        ensures needed { OnErr result (IfSome ((documents_of self.old).held uri.now)
            (λ o. is_needed o text.now ≡ true)) }
        ensures others { (q : List ℕ) → bytes_eq q uri.now ≡ false
            → (documents_of self.new).held q ≡ (documents_of self.old).held q }
        ensures sync { self.new.sync ≡ self.old.sync }
    {
        if let Some(open) = self.documents.get_mut(uri) {
            renew_open(self.alloc, self.sync, open, text)?;
        }
        Ok(())
    }

    /// Closes a document. Without one of the URI the fault is `NotOpen`, and nothing is changed.
    pub fn close(&mut self, uri: &str) -> Result<(), DocumentFault>
        ensures ok { OnOk result
            (Took (documents_of self.old) (closes uri.now) None (documents_of self.new)) }
        ensures err { IfErr result (λ fault.
            Refused (documents_of self.old) (closes uri.now) fault (documents_of self.new)) }
    {
        match self.remove(uri) {
            Some(_) => Ok(()),
            None => Err(DocumentFault::NotOpen),
        }
    }

    /// Takes out the document of a URI.
    fn remove(&mut self, uri: &str) -> Option<DocumentState>
        ensures value { result ≡ (documents_of self.old).held uri.now }
        ensures own { (documents_of self.new).held uri.now ≡ None }
        ensures others { (q : List ℕ) → bytes_eq q uri.now ≡ false
            → (documents_of self.new).held q ≡ (documents_of self.old).held q }
        ensures sync { self.new.sync ≡ self.old.sync }
    {
        self.documents.remove(uri)
    }

    /// Applies a notification about a document: `did_open`, `did_change`, `did_save` or `did_close`, as its method says
    /// (`textDocument/didOpen` and so on). For another method it returns `None`, and nothing is changed.
    pub fn apply<'v>(
        &mut self,
        notification: &'v Notification,
    ) -> Option<Result<DocumentUpdate<'v>, UpdateFault<'v>>>
        ensures { MatchOption (method_named (string_bytes notification.now.method))
            ((result ≡ None) × (self.new ≡ self.old))
            (λ method. IsSomeAnd result (λ heard.
            Answers method self.old (view notification.now.params) heard self.new)) }
    {
        self.apply_ref(&NotificationRef::of(notification))
    }

    /// Does what `apply` does for a notification whose params are read where they stand. The texts of the result last
    /// as long as what the params are read from.
    pub fn apply_ref<'v>(
        &mut self,
        notification: &NotificationRef<'v>,
    ) -> Option<Result<DocumentUpdate<'v>, UpdateFault<'v>>>
        ensures { MatchOption (method_named notification.now.method.now)
            ((result ≡ None) × (self.new ≡ self.old))
            (λ method. IsSomeAnd result (λ heard.
            Answers method self.old (json_data notification.now.params) heard self.new)) }
    {
        let method = DocumentMethod::named(notification.method)?;
        Some(self.apply_as(method, &notification.params))
    }

    /// Applies a notification of this method, by its params.
    fn apply_as<'v>(
        &mut self,
        method: DocumentMethod,
        params: &JsonRef<'v>,
    ) -> Result<DocumentUpdate<'v>, UpdateFault<'v>>
        ensures { Answers method self.old (json_data params.now) result self.new }
    {
        match method {
            DocumentMethod::DidOpen => self.did_open(params),
            DocumentMethod::DidChange => self.did_change(params),
            DocumentMethod::DidSave => self.did_save(params),
            DocumentMethod::DidClose => self.did_close(params),
        }
    }

    /// Opens the document in the params of `textDocument/didOpen` (LSP 3.17, `DidOpenTextDocumentParams`), as `open`
    /// does. If the params have another shape, the fault is `Params`, and the text of the URI that they name is lost.
    /// If they name none, each text is lost.
    pub fn did_open<'v>(
        &mut self,
        params: &JsonRef<'v>,
    ) -> Result<DocumentUpdate<'v>, UpdateFault<'v>>
        ensures ok { IfOk result (λ m.
            IsSomeAnd (did_open_in (json_data params.now)) (λ n. (m.uri.now ≡ n.uri)
            × Took (documents_of self.old) n m.warning (documents_of self.new))) }
        ensures err { IfErr result (λ m.
            Failed (documents_of self.old) (did_open_in (json_data params.now))
            (uri_from (json_data params.now)) m.fault (documents_of self.new)) }
        ensures named { IfErr result (λ m.
            option_map (λ s. s.now) m.uri ≡ uri_from (json_data params.now)) }
        ensures lost { IfErr result (λ m.
            m.lost ≡ loses self.old (uri_from (json_data params.now)) self.new) }
    {
        let Some(uri) = params::uri_from(params) else {
            return Err(self.missed_all());
        };
        let known = self.knows(uri);
        let Some(item) = params::item_in(params) else {
            return Err(self.missed(uri, known, DocumentFault::Params));
        };
        match self.open(uri, item.language_id, item.version, item.text) {
            Ok(warning) => Ok(DocumentUpdate { uri, warning }),
            Err(fault) => Err(self.unmade(uri, known, fault)),
        }
    }

    /// Applies the changes in the params of `textDocument/didChange` (LSP 3.17, `DidChangeTextDocumentParams`), as
    /// `change` does. If the params have another shape, the fault is `Params`, and the text of the URI that they name
    /// is lost. If they name none, each text is lost.
    pub fn did_change<'v>(
        &mut self,
        params: &JsonRef<'v>,
    ) -> Result<DocumentUpdate<'v>, UpdateFault<'v>>
        ensures ok { IfOk result (λ m.
            IsSomeAnd (did_change_in (json_data params.now)) (λ n. (m.uri.now ≡ n.uri)
            × Took (documents_of self.old) n m.warning (documents_of self.new))) }
        ensures err { IfErr result (λ m.
            Failed (documents_of self.old) (did_change_in (json_data params.now))
            (uri_from (json_data params.now)) m.fault (documents_of self.new)) }
        ensures named { IfErr result (λ m.
            option_map (λ s. s.now) m.uri ≡ uri_from (json_data params.now)) }
        ensures lost { IfErr result (λ m.
            m.lost ≡ loses self.old (uri_from (json_data params.now)) self.new) }
    {
        let Some(uri) = params::uri_from(params) else {
            return Err(self.missed_all());
        };
        let known = self.knows(uri);
        let version = params::version_of(params);
        let Some(whole) = params::whole_in(params) else {
            return Err(self.missed(uri, known, DocumentFault::Params));
        };
        if let Some(fault) = self.refusal(uri, version, whole) {
            self.refuse(uri, fault);
            return Err(self.unmade(uri, known, fault));
        }
        match params::content_changes(self.alloc, params) {
            Ok(Some(changes)) => match self.change(uri, version, changes.as_slice()) {
                Ok(warning) => Ok(DocumentUpdate { uri, warning }),
                Err(fault) => Err(self.unmade(uri, known, fault)),
            },
            Ok(None) => Err(self.missed(uri, known, DocumentFault::Params)),
            Err(_) => Err(self.missed(uri, known, DocumentFault::Memory)),
        }
    }

    /// Notes that the document in the params of `textDocument/didSave` was saved (LSP 3.17,
    /// `DidSaveTextDocumentParams`), as `save` does. A text that is no string counts as missing. If the params name no
    /// URI, the fault is `Params`, and nothing is changed, since a save changes no text.
    pub fn did_save<'v>(
        &mut self,
        params: &JsonRef<'v>,
    ) -> Result<DocumentUpdate<'v>, UpdateFault<'v>>
        ensures ok { IfOk result (λ m.
            IsSomeAnd (did_save_in (json_data params.now)) (λ n. (m.uri.now ≡ n.uri)
            × Took (documents_of self.old) n m.warning (documents_of self.new))) }
        ensures err { IfErr result (λ m.
            FailedSave (documents_of self.old) (did_save_in (json_data params.now)) m.fault
            (documents_of self.new)) }
        ensures named { IfErr result (λ m.
            option_map (λ s. s.now) m.uri ≡ uri_from (json_data params.now)) }
        ensures lost { IfErr result (λ m. m.lost ≡ false) }
    {
        let Some(uri) = params::uri_from(params) else {
            return Err(update_fault(None, DocumentFault::Params, false));
        };
        match self.save(uri, params::saved_text(params)) {
            Ok(warning) => Ok(DocumentUpdate { uri, warning }),
            Err(fault) => Err(update_fault(Some(uri), fault, false)),
        }
    }

    /// Closes the document in the params of `textDocument/didClose` (LSP 3.17, `DidCloseTextDocumentParams`), as
    /// `close` does. If the params name no URI, the fault is `Params`, and each text is lost, since one of the
    /// documents is closed.
    pub fn did_close<'v>(
        &mut self,
        params: &JsonRef<'v>,
    ) -> Result<DocumentUpdate<'v>, UpdateFault<'v>>
        ensures ok { IfOk result (λ m.
            IsSomeAnd (did_close_in (json_data params.now)) (λ n. (m.uri.now ≡ n.uri)
            × Took (documents_of self.old) n m.warning (documents_of self.new))) }
        ensures err { IfErr result (λ m.
            Failed (documents_of self.old) (did_close_in (json_data params.now))
            (uri_from (json_data params.now)) m.fault (documents_of self.new)) }
        ensures named { IfErr result (λ m.
            option_map (λ s. s.now) m.uri ≡ uri_from (json_data params.now)) }
        ensures lost { IfErr result (λ m.
            m.lost ≡ loses self.old (uri_from (json_data params.now)) self.new) }
    {
        let Some(uri) = params::uri_from(params) else {
            return Err(self.missed_all());
        };
        let known = self.knows(uri);
        match self.close(uri) {
            Ok(()) => Ok(DocumentUpdate { uri, warning: None }),
            Err(fault) => Err(self.unmade(uri, known, fault)),
        }
    }

    /// Makes the text of a URI lost, and returns why. `in_sync` says whether it was known before.
    fn missed<'v>(&mut self, uri: &'v str, known: bool, fault: DocumentFault) -> UpdateFault<'v>
        requires { known ≡ is_known (documents_of self.old) uri.now }
        ensures named { option_map (λ s. s.now) result.uri ≡ Some uri.now }
        ensures why { result.fault ≡ fault }
        ensures lost { result.lost ≡ loses self.old (Some uri.now) self.new }
        ensures own { (documents_of self.new).held uri.now
            ≡ missed ((documents_of self.old).held uri.now) }
        ensures others { (q : List ℕ) → bytes_eq q uri.now ≡ false
            → (documents_of self.new).held q ≡ (documents_of self.old).held q }
        ensures sync { self.new.sync ≡ self.old.sync }
    {
        self.invalidate(uri);
        update_fault(Some(uri), fault, known)
    }

    /// Makes each text lost, since the params name no document.
    fn missed_all<'v>(&mut self) -> UpdateFault<'v>
        ensures named { result.uri ≡ None }
        ensures why { result.fault ≡ Params }
        ensures lost { result.lost ≡ has_known self.old }
        ensures misses { MissesAll (documents_of self.old) (documents_of self.new) }
    {
        let known = self.knows_any();
        self.invalidate_all();
        update_fault(None, DocumentFault::Params, known)
    }

    /// Returns that a notification about a document was not applied. `in_sync` says whether its text was known before.
    fn unmade<'v>(&self, uri: &'v str, known: bool, fault: DocumentFault) -> UpdateFault<'v>
        ensures named { option_map (λ s. s.now) result.uri ≡ Some uri.now }
        ensures why { result.fault ≡ fault }
        ensures lost { result.lost ≡ (known && not (is_known (documents_of self.now) uri.now)) }
    {
        update_fault(Some(uri), fault, known && !self.knows(uri))
    }
}

/// Makes the text of a document lost, if it is not yet, and keeps this version.
fn lose_text(alloc: Global, kept: &mut DocumentState, version: Option<i32>)
    ensures { kept.new ≡ lost_at version kept.old }
{
    let gone = LostDocument {
        language_id: String::new(alloc),
        version: None,
    };
    let before = mem::replace(kept, DocumentState::Lost(gone));
    *kept = before.into_lost(version);
}

/// Makes a document from changes, one of which is a whole text.
fn begun(
    alloc: Global,
    sync: SyncOptions,
    language_id: &str,
    version: Option<i32>,
    changes: &[ContentChange],
) -> Result<TextDocument, AllocError>
    ensures { IfOk result (λ d. d ≡ begun_by sync language_id.now version changes.now) }
{
    let ends = sync.options().line_ends;
    let mut document = TextDocument::new(alloc, language_id, None, "", ends)?;
    document.change_in_place(alloc, version, sync.encoding(), changes)?;
    Ok(document)
}

/// Applies changes to what is kept of a document, and returns the warning about them. If memory runs out, its text is
/// lost.
fn change_open(
    alloc: Global,
    kept: &mut DocumentState,
    version: Option<i32>,
    sync: SyncOptions,
    changes: &[ContentChange],
) -> Result<Option<SyncWarning>, AllocError>
    requires { change_fault sync (Some kept.old) version (has_whole_text changes.now) ≡ None }
    ensures warning { IfOk result (λ warning.
        warning ≡ changes_remark sync kept.old version changes.now) }
    ensures ok { OnOk result (kept.new ≡ changed_or_late sync kept.old version changes.now) }
    ensures err { OnErr result (kept.new ≡ lost kept.old) }
    ensures needed { OnErr result (has_changes changes.now ≡ true) }
{
    match kept {
        DocumentState::Known(known) => {
            let changed = known.change(alloc, version, sync, changes);
            if changed.is_err() {
                lose_text(alloc, kept, None);
            }
            changed
        }
        DocumentState::Lost(document) => {
            let not_higher = is_not_higher(version, document.version());
            let whole = begun(alloc, sync, document.language_id(), version, changes)?;
            *kept = DocumentState::Known(KeptDocument::told(whole));
            Ok(change_remark(false, None, not_higher))
        }
    }
}

/// Puts a text into what is kept of a document, if its own is lost. A text that is known is to be compared with it. If
/// memory runs out, nothing is changed.
fn renew_open(
    alloc: Global,
    sync: SyncOptions,
    kept: &mut DocumentState,
    text: &str,
) -> Result<(), AllocError>
    ensures ok { OnOk result (kept.new ≡ saved_in sync kept.old text.now) }
    ensures err { OnErr result (kept.new ≡ kept.old) }
    ensures needed { OnErr result (is_needed kept.old text.now ≡ true) }
{
    match kept {
        DocumentState::Known(known) => known.save(alloc, text),
        DocumentState::Lost(document) => {
            let ends = sync.options().line_ends;
            let saved = TextDocument::new(alloc, document.language_id(), None, text, ends)?;
            *kept = DocumentState::Known(KeptDocument::by_save(saved));
            Ok(())
        }
    }
}

/// Returns whether changes to a version come late: they are ranges, and the document's version is higher. `whole` says
/// whether a whole text is among them.
fn is_late(sync: SyncOptions, version: Option<i32>, whole: bool, before: Option<i32>) -> bool
    ensures { result ≡ late sync version whole before }
{
    match (version, before) {
        (Some(version), Some(before)) => {
            !whole && !sync.options().applies_late && version < before
        }
        _ => false,
    }
}

/// Returns why changes are refused for a document. `whole` says whether a whole text is among them.
fn step_fault(kept: &DocumentState, whole: bool) -> Option<DocumentFault>
    ensures { result ≡ fault_in kept.now whole }
{
    match kept {
        DocumentState::Lost(_) if !whole => Some(DocumentFault::OutOfStep),
        _ => None,
    }
}

/// Returns the warning about the text that came with a save.
fn save_remark(kept: &DocumentState, text: &str) -> Option<SyncWarning>
    ensures { result ≡ remark_of_save kept.now text.now }
{
    match kept {
        DocumentState::Known(known) => known.save_remark(text),
        DocumentState::Lost(_) => None,
    }
}

/// Makes the value for a notification that was not applied.
fn update_fault<'v>(uri: Option<&'v str>, fault: DocumentFault, lost: bool) -> UpdateFault<'v>
    ensures named { option_map (λ s. s.now) result.uri ≡ option_map (λ s. s.now) uri.entry }
    ensures why { result.fault ≡ fault }
    ensures lost { result.lost ≡ lost }
{
    UpdateFault { uri, fault, lost }
}
