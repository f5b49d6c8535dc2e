// What is wrong with a document.
ghost use Rattle.std.specs.Prelude.{◌≡◌, IfOk, string_bytes};
ghost use Rattle.lsp_methods.specs.Publishing.{publishes};
ghost use Rattle.lsp_acts.specs.View.{act_view};

use crate::sending::send_notification;
use lsp_acts::Act;
use lsp_types::methods::PublishDiagnosticsNotification;
use lsp_types::{Diagnostic, PublishDiagnosticsParams, ToJson};
use std::alloc::{AllocError, Global};

/// Makes the notification that shows the diagnostics of a document: `textDocument/publishDiagnostics` (LSP 3.17,
/// "PublishDiagnostics Notification"). They replace those that the client shows for this document; an empty list
/// removes them. `version` is the version of the text that was analysed, if it is known. The contract has each member,
/// so a server can promise what it shows, and for which document.
///
/// `Err` means that an allocation failed.
pub fn publish<P: Drop + PartialEq>(
    alloc: Global,
    uri: &str,
    version: Option<i32>,
    diagnostics: Vec<Diagnostic>,
) -> Result<Act<P>, AllocError>
    ensures { IfOk result (λ act. act_view P.eq act
        ≡ publishes uri.now version (⟦<Vec<Diagnostic> as ToJson>⟧.stands diagnostics)) }
{
    match String::from_str(alloc, uri) {
        Ok(uri) => {
            let params = PublishDiagnosticsParams {
                uri,
                version,
                diagnostics,
            };
            let told = send_notification::<PublishDiagnosticsNotification, P>(alloc, &params);
            drop(params);
            told
        }
        Err(failed) => {
            drop(diagnostics);
            Err(failed)
        }
    }
}
