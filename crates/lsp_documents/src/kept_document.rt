// A document whose text is known, and what saves said of it.
ghost use Rattle.std.specs.Prelude.{◌≡◌, None, true, is_some, IfOk, OnOk, OnErr};
ghost use Rattle.lsp_documents.specs.Notices.{changed_kept, compared, doubt_in, has_changes, has_whole as has_whole_text, is_by_save, changes_remark, save_remark as remark_of_save, to_compare, origin_after};
ghost use Rattle.lsp_documents.specs.Remains.{kept_as};
ghost use Rattle.lsp_documents.specs.declared.kept.DocumentState.TheVariants.{Known};

use crate::changes::{change_remark, has_whole, is_not_higher, since_whole};
use crate::fault::SyncWarning;
use crate::negotiation::SyncOptions;
use lsp_text::{ContentChange, TextDocument};
use std::alloc::{AllocError, Global};
use std::marker::Model;

/// Where a text comes from.
#[derive(Clone, Copy)]
pub enum Origin {
    /// The client sent it whole.
    Told,
    /// A save brought it back.
    BySave,
    /// A save brought it back, and the client sent changes since.
    BySaveChanged,
}

impl Origin {
    ghost use Rattle.lsp_documents.specs.declared.kept_document.Origin.TheVariants.{Told};

    /// Returns where the text comes from after changes. `whole` says whether a whole text is among them.
    fn after(self, whole: bool) -> Origin
        ensures { result ≡ origin_after whole self }
    {
        match self {
            Origin::Told => Origin::Told,
            _ if whole => Origin::Told,
            _ => Origin::BySaveChanged,
        }
    }
}

/// A document whose text is known. Contracts see the document, the text of a save that is to be compared after the next
/// notification, and where the text comes from.
#[derive(Drop)]
pub struct KeptDocument {
    document: TextDocument,
    saved: Option<String>,
    origin: Origin,
}

impl Model for KeptDocument {
    ghost use Rattle.std.specs.Prelude.{option_map};
    ghost use Rattle.std.specs.String.{string_bytes};
    ghost use Rattle.lsp_documents.specs.Remains.{Kept, kept_as};

    ghost Value = { Kept };

    ghost view = { λ d. kept_as d.document (option_map string_bytes d.saved) d.origin };
}

impl KeptDocument {
    ghost use Rattle.lsp_documents.specs.declared.kept_document.Origin.TheVariants.{Told, BySave};

    /// Makes a document that the client sent whole.
    pub(crate) fn told(document: TextDocument) -> KeptDocument
        ensures { result ≡ kept_as document None Told }
    {
        KeptDocument {
            document,
            saved: None,
            origin: Origin::Told,
        }
    }

    /// Makes a document whose text a save brought back.
    pub(crate) fn by_save(document: TextDocument) -> KeptDocument
        ensures { result ≡ kept_as document None BySave }
    {
        KeptDocument {
            document,
            saved: None,
            origin: Origin::BySave,
        }
    }

    /// Returns the document.
    pub fn document(&self) -> &TextDocument
        ensures { result.now ≡ self.now.document }
    {
        &self.document
    }

    /// Returns whether a save brought the text back, and the client has not sent it whole since.
    pub fn is_doubtful(&self) -> bool
        ensures { result ≡ is_by_save self.now.origin }
    {
        match self.origin {
            Origin::Told => false,
            _ => true,
        }
    }

    /// Returns the document, without what is kept with it.
    pub(crate) fn into_document(self) -> TextDocument
        ensures { result ≡ self.document }
    {
        let KeptDocument { document, .. } = self;
        document
    }

    /// Applies changes, and returns the warning about them. If memory runs out, only the language is as it was.
    #[tactic(auto, using(crate::proofs::NoticeLemmas::since_edited, crate::proofs::NoticeLemmas::since_none))]
    pub(crate) fn change(
        &mut self,
        alloc: Global,
        version: Option<i32>,
        sync: SyncOptions,
        changes: &[ContentChange],
    ) -> Result<Option<SyncWarning>, AllocError>
        ensures warning { IfOk result (λ warning.
            warning ≡ changes_remark sync (Known self.old) version changes.now) }
        ensures ok { OnOk result (self.new ≡ changed_kept sync self.old version changes.now) }
        ensures err { OnErr result (self.new.document.language_id ≡ self.old.document.language_id) }
        ensures needed { OnErr result (has_changes changes.now ≡ true) }
    {
        let whole = has_whole(changes);
        let not_higher = is_not_higher(version, self.document.version());
        let encoding = sync.encoding();
        let deciding = since_whole(changes);
        let past = self
            .document
            .change_in_place(alloc, version, encoding, deciding)?;
        let doubt = if whole { None } else { self.doubt() };
        self.saved = None;
        self.origin = self.origin.after(whole);
        Ok(change_remark(past, doubt, not_higher))
    }

    /// Returns the doubt about changes without a whole text.
    fn doubt(&self) -> Option<SyncWarning>
        ensures { result ≡ doubt_in self.now.origin self.now.saved self.now.document.text }
    {
        match self.origin {
            Origin::BySave => Some(SyncWarning::BroughtBackBySave),
            _ => self.comparison(),
        }
    }

    /// Returns the warning about the saved text that is to be compared, if there is one.
    fn comparison(&self) -> Option<SyncWarning>
        ensures { result ≡ compared self.now.saved self.now.document.text }
    {
        match &self.saved {
            Some(saved) if self.document.text().as_str() != saved.as_str() => {
                Some(SyncWarning::SavedTextDiffers)
            }
            _ => None,
        }
    }

    /// Returns the warning about the text that came with a save.
    pub(crate) fn save_remark(&self, text: &str) -> Option<SyncWarning>
        ensures { result ≡ remark_of_save (Known self.now) text.now }
    {
        match &self.saved {
            Some(saved) if saved.as_str() == text => None,
            _ => self.comparison(),
        }
    }

    /// Keeps the text that came with a save, if it differs. If memory runs out, nothing is changed.
    pub(crate) fn save(&mut self, alloc: Global, text: &str) -> Result<(), AllocError>
        ensures ok { OnOk result (self.new ≡ kept_as self.old.document
            (to_compare self.old.document.text text.now) self.old.origin) }
        ensures err { OnErr result (self.new ≡ self.old) }
        ensures needed { OnErr result
            (is_some (to_compare self.old.document.text text.now) ≡ true) }
    {
        if self.document.text().as_str() == text {
            self.saved = None;
        } else {
            self.saved = Some(String::from_str(alloc, text)?);
        }
        Ok(())
    }
}
