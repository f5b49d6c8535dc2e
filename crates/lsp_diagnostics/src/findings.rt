// What an analysis found.
ghost use Rattle.std.specs.Prelude.{IfOk, map};
ghost use Rattle.lsp_acts.specs.View.{act_view};
ghost use Rattle.lsp_diagnostics.specs.Shown.{Shows};

use lsp_acts::Act;
use lsp_documents::DocumentSnapshot;
use lsp_methods::publish;
use lsp_types::{Diagnostic, ToJson};
use std::alloc::{AllocError, Global};

/// The diagnostics of a text.
#[derive(Drop)]
pub struct Findings {
    /// The text, with its URI and its version.
    pub source: DocumentSnapshot,
    /// Its diagnostics.
    pub diagnostics: Vec<Diagnostic>,
}

impl Findings {
    /// Shows the diagnostics at the client, with the URI and the version of their text (LSP 3.17, "PublishDiagnostics
    /// Notification"). `Err` means that an allocation failed.
    pub fn publish<P: Drop + PartialEq>(self, alloc: Global) -> Result<Vec<Act<P>>, AllocError>
        ensures { IfOk result (λ acts.
            Shows ⟦<Diagnostic as ToJson>⟧.stands «self» (map (act_view P.eq) acts.items)) }
    {
        let Findings {
            source,
            diagnostics,
        } = self;
        let shows = publish(alloc, source.uri.as_str(), source.version, diagnostics)?;
        Act::one(alloc, shows)
    }
}
