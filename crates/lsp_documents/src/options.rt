// How a server reads what its client tells of documents.
use lsp_text::LineEnds;

/// How a server reads a client's notifications about documents. LSP 3.17 has no means to agree on this, so the author
/// chooses.
#[derive(Clone, Copy, Drop)]
pub struct DocumentOptions {
    /// What ends a line.
    pub line_ends: LineEnds,
    /// Whether ranges with a lower version than the document's are applied, with the warning `VersionNotHigher`. If not,
    /// the text is lost, since changes with the higher version were applied without them. A whole text is always
    /// applied.
    pub applies_late: bool,
}

impl DocumentOptions {
    ghost use Rattle.std.specs.Prelude.{◌≡◌};
    ghost use Rattle.lsp_documents.specs.Announced.{usual};

    /// Returns the default options: lines end as in editors (`LineEnds::LineFeed`), and late changes are not applied.
    pub fn new() -> DocumentOptions
        ensures { result ≡ usual }
    {
        DocumentOptions {
            line_ends: LineEnds::LineFeed,
            applies_late: false,
        }
    }
}
