// Why a notification of a document was not applied, and what is to be said of one that was.
use std::alloc::AllocError;
use std::error::Error;
use std::fmt;

/// Why a notification about a document was not applied.
///
/// It prints `params of another shape`, `the document is not open`, `the document is out of step`, `changes came out of
/// order` or `out of memory`.
#[derive(Clone, Copy, Debug, PartialEq, Eq)]
pub enum DocumentFault {
    /// The params lack a member that is needed, or it has another type.
    Params,
    /// No document of the URI is open, and no change is a whole text.
    NotOpen,
    /// The document's text is lost, since a notification about it was missed, and none of the changes is a whole text.
    OutOfStep,
    /// The changes are ranges, and have a lower version than the document. So the text is lost: changes with the higher
    /// version were applied without them. With `DocumentOptions::applies_late` they are applied.
    ///
    /// Helix 25 sends the changes of a burst in this manner, and goes on with ranges. Its text comes back when it is
    /// saved, if the text is asked for (`SyncOptions`), or opened again. Neovim 0.10, Emacs 30 and the library of VS Code
    /// keep the order. Changes with a whole text among them never come late.
    OutOfOrder,
    /// An allocation failed.
    Memory,
}

impl fmt::Display for DocumentFault {
    ghost use Rattle.lsp_documents.specs.Fault.{fault_text};

    ghost output = { fault_text };

    fn fmt<W: fmt::Write>(&self, f: &mut fmt::Formatter<W>) -> fmt::Result {
        match self {
            DocumentFault::Params => write!(f, "params of another shape"),
            DocumentFault::NotOpen => write!(f, "the document is not open"),
            DocumentFault::OutOfStep => write!(f, "the document is out of step"),
            DocumentFault::OutOfOrder => write!(f, "changes came out of order"),
            DocumentFault::Memory => write!(f, "out of memory"),
        }
    }
}

impl Error for DocumentFault {}

impl From<AllocError> for DocumentFault {
    ghost use Rattle.std.specs.Prelude.{◌≡◌};
    ghost use Rattle.lsp_documents.specs.declared.fault.DocumentFault.TheVariants.{Memory};

    ghost from_gives = { λ _ fault. fault ≡ Memory };

    fn from(_: AllocError) -> DocumentFault {
        DocumentFault::Memory
    }
}

/// A warning about a notification that was applied: LSP 3.17 forbids it, or it shows that the client's text differs
/// from the text that is kept, or may differ. After `PastEnd` it differs: call `TextDocuments::invalidate` to keep the
/// server from using it.
///
/// It prints `the document was open already`, `the document was not open`, `the version is not higher`, `a position is
/// past the end`, `the saved text is another one` or `a save brought the text back`.
#[derive(Clone, Copy, Debug, PartialEq, Eq)]
pub enum SyncWarning {
    /// The document was open already. The new one replaced it.
    OpenAlready,
    /// The document was not open, and a change of the whole text opened it. Its language is not known, and is the empty
    /// text.
    WasNotOpen,
    /// The version is the document's or a lower one. A lower one is applied if a whole text is among the changes, or if
    /// the author chose to apply late changes.
    VersionNotHigher,
    /// A position of a change is past its line's end, or past the place after the last line, in the text that is kept.
    /// LSP 3.17 takes it for that end (`Position`). But a client with the same text that counts in the same units has
    /// no such place. It may end lines elsewhere, or count in another encoding.
    PastEnd,
    /// The text that came with a `didSave` differs from the text that is kept, and still does after the next
    /// notification about the document. The kept text stays. The two are compared then, since Kate and CodeLite save
    /// before they send their last changes.
    SavedTextDiffers,
    /// This is the first change since a `didSave` brought the text back, and not of the whole text. If the client saved
    /// before it sent its last changes, the saved text already has this change, and now it is made twice.
    BroughtBackBySave,
}

impl fmt::Display for SyncWarning {
    ghost use Rattle.lsp_documents.specs.Fault.{remark_text};

    ghost output = { remark_text };

    fn fmt<W: fmt::Write>(&self, f: &mut fmt::Formatter<W>) -> fmt::Result {
        match self {
            SyncWarning::OpenAlready => write!(f, "the document was open already"),
            SyncWarning::WasNotOpen => write!(f, "the document was not open"),
            SyncWarning::VersionNotHigher => write!(f, "the version is not higher"),
            SyncWarning::PastEnd => write!(f, "a position is past the end"),
            SyncWarning::SavedTextDiffers => write!(f, "the saved text is another one"),
            SyncWarning::BroughtBackBySave => write!(f, "a save brought the text back"),
        }
    }
}

/// A notification that was applied.
///
/// It prints its URI and the warning, for example `file:///a: the version is not higher`, or only the URI.
#[derive(Clone, Copy, Debug, PartialEq, Eq, Drop)]
pub struct DocumentUpdate<'v> {
    /// The document's URI.
    pub uri: &'v str,
    /// The warning about it, if there is one.
    pub warning: Option<SyncWarning>,
}

impl fmt::Display for DocumentUpdate<'_> {
    ghost use Rattle.lsp_documents.specs.Fault.{update_text};

    ghost output = { update_text };

    fn fmt<W: fmt::Write>(&self, f: &mut fmt::Formatter<W>) -> fmt::Result {
        let uri = self.uri;
        match self.warning {
            Some(warning) => write!(f, "{uri}: {warning}"),
            None => write!(f, "{uri}"),
        }
    }
}

/// A notification that was not applied.
///
/// It prints its URI and the fault, for example `file:///a: the document is not open`, or only the fault if no URI is
/// named.
#[derive(Clone, Copy, Debug, PartialEq, Eq, Drop)]
pub struct UpdateFault<'v> {
    /// The document's URI, if the params name one.
    pub uri: Option<&'v str>,
    /// Why it was not applied.
    pub fault: DocumentFault,
    /// Whether the text was known and is lost now. If no URI is named, this may be the text of each document.
    pub lost: bool,
}

impl<'v> UpdateFault<'v> {
    ghost use Rattle.std.specs.Prelude.{◌≡◌, IfOk, OnOk, OnErr};
    ghost use Rattle.lsp_documents.specs.declared.fault.DocumentFault.TheVariants.{Memory};

    /// Returns the same value, or an error if memory ran out. So `missed.or_out_of_memory()?` ends the server's method
    /// then.
    pub fn or_out_of_memory(self) -> Result<UpdateFault<'v>, AllocError>
        ensures same { IfOk result (λ missed. missed ≡ self.entry) }
        ensures ok { OnOk result (¬ (self.entry.fault ≡ Memory)) }
        ensures err { OnErr result (self.entry.fault ≡ Memory) }
    {
        match self.fault {
            DocumentFault::Memory => Err(AllocError),
            _ => Ok(self),
        }
    }
}

impl fmt::Display for UpdateFault<'_> {
    ghost use Rattle.lsp_documents.specs.Fault.{update_fault_text};

    ghost output = { update_fault_text };

    fn fmt<W: fmt::Write>(&self, f: &mut fmt::Formatter<W>) -> fmt::Result {
        let fault = self.fault;
        match self.uri {
            Some(uri) => write!(f, "{uri}: {fault}"),
            None => write!(f, "{fault}"),
        }
    }
}
