//! Sessions in threads.
ghost use Rattle.serde_json.specs.View.{view};
ghost use Rattle.std.specs.Prelude.{◌≡◌, ℕ, List, Ok, Some};
ghost use Rattle.lsp_message.specs.Frame.{no_limit};
ghost use Rattle.lsp_session.specs.HandlerSession.{of_handler};
ghost use Rattle.lsp_session.specs.Session.{SessionOut};
ghost use Rattle.lsp_threads.specs.Threads.{ThreadsGive};
ghost use Rattle.lsp_threads.specs.declared.run.ThreadsOutcome.{ThreadsOutcome as Done};

use crate::sessions::Quiet;
use lsp_session::{EndOnBadContent, Handler, HandlerApplication};
use lsp_threads::laws::nothing_is_skipped_in_threads;
use lsp_threads::{StartFault, ThreadOptions, ThreadsOutcome, run_in_threads};
use std::alloc::Global;
use std::io::{BufRead, Write};
use std::sync::Wait;
use std::thread::Threads;

/// Serves a client in threads, up to the first content that is no message. If the reader's bytes are known, each of
/// their frames that the session took is a message.
pub fn serve_in_threads<T, R, W>(
    rt: &T,
    alloc: Global,
    reader: R,
    writer: W,
    application: &mut HandlerApplication<Quiet>,
) -> Result<ThreadsOutcome<W>, StartFault>
where
    T: Threads + Wait + Copy + Drop + Send + 'static,
    R: BufRead + Drop + Send + 'static,
    W: Write + Drop + Send + 'static,
    ensures { (text : List ℕ) (done : Done W) → R.remaining reader ≡ Some text → result ≡ Ok done
        → ThreadsGive no_limit (SessionOut (of_handler ⟦<Quiet as Handler>⟧.answer_post
        ⟦<Quiet as Handler>⟧.note_post (view application.old.capabilities)) application.old.handler
        application.new.handler) text (W.contents writer) (W.contents done.writer) done.answer }
{
    nothing_is_skipped_in_threads::<EndOnBadContent, HandlerApplication<Quiet>>();
    let options = ThreadOptions::new();
    let mut policy = EndOnBadContent;
    run_in_threads(rt, alloc, reader, writer, application, &mut policy, options)
}
