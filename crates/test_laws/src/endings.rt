//! What sessions did that ended well, by their bytes.
ghost use Rattle.serde_json.specs.View.{view};
ghost use Rattle.std.specs.Prelude.{[], IfOk};
ghost use Rattle.lsp_acts.specs.ServerEndsWell.{ServerEndsWell};
ghost use Rattle.lsp_message.specs.Frame.{no_limit};
ghost use Rattle.lsp_message.specs.declared.frame.byte_trace.ByteTrace.{ByteTrace};
ghost use Rattle.lsp_session.specs.EndsWell.{EndsWell, all_given, all_taken};
ghost use Rattle.lsp_session.specs.StreamTransports.{IsUnused};
ghost use Rattle.lsp_threads.specs.InThreads.{EndsWellInThreads};
ghost use Rattle.lsp_threads.specs.Passing.{GivenTo, TakenFrom};

use crate::acts::Keeper;
use crate::sessions::Quiet;
use lsp_acts::ServerApplication;
use lsp_acts::laws::server_session_ends_well;
use lsp_session::laws::endings::transport_session_ends_well;
use lsp_session::laws::policies::nothing_is_skipped;
use lsp_session::{
    EndOnBadContent, Handler, HandlerApplication, SessionEnd, SessionFault, StreamTransport,
};
use lsp_threads::laws::{handler_in_threads_ends_well, session_in_threads_ends_well};
use lsp_threads::{
    StartFault, ThreadOptions, Threaded, ThreadsOutcome, run_in_threads, run_threads,
};
use serde_json::Value;
use std::alloc::Global;
use std::io::{BufRead, Write};
use std::sync::Wait;
use std::thread::Threads;

/// Serves a client with a handler on one thread. If the session ends well, each request has its reply.
pub fn serve_quiet<R: BufRead, W: Write>(
    transport: &mut StreamTransport<'_, R, W, EndOnBadContent>,
    application: &mut HandlerApplication<Quiet>,
) -> Result<SessionEnd, SessionFault>
    requires { IsUnused transport.old }
    ensures { IfOk result (λ end. EndsWell ⟦<Quiet as Handler>⟧.answer_post ⟦<Quiet as Handler>⟧.note_post
        transport.old.limits (view application.old.capabilities) application.old.handler
        (all_taken transport.new.transcript.now) [] (all_given transport.new.transcript.now) end
        application.new.handler) }
{
    transport_session_ends_well::<R, W, EndOnBadContent, Quiet>();
    nothing_is_skipped::<R, W, EndOnBadContent, HandlerApplication<Quiet>>();
    transport.serve(application)
}

/// Serves a client with a server that answers at `shutdown`. If the session ends well after a `shutdown`, each request
/// whose id was used once has its reply.
pub fn serve_keeper<R: BufRead, W: Write>(
    transport: &mut StreamTransport<'_, R, W, EndOnBadContent>,
    application: &mut ServerApplication<Keeper, ()>,
) -> Result<SessionEnd, SessionFault>
    requires { IsUnused transport.old }
    ensures { IfOk result (λ end. ServerEndsWell transport.old.limits (all_taken transport.new.transcript.now) []
        (all_given transport.new.transcript.now) end) }
{
    server_session_ends_well::<R, W, EndOnBadContent, Keeper>();
    nothing_is_skipped::<R, W, EndOnBadContent, ServerApplication<Keeper, ()>>();
    transport.serve(application)
}

/// Serves a client with an application in threads. The same follows from the bytes that were taken and given.
pub fn serve_in_threads<T, R, W>(
    rt: &T,
    alloc: Global,
    reader: R,
    writer: W,
    application: &mut HandlerApplication<Quiet>,
) -> Result<ThreadsOutcome<W>, StartFault>
where
    T: Threads + Wait + Copy + Drop + Send + 'static,
    R: BufRead + Drop + Send + 'static,
    W: Write + Drop + Send + 'static,
    ensures { IfOk result (λ done. EndsWellInThreads ⟦<Quiet as Handler>⟧.answer_post ⟦<Quiet as Handler>⟧.note_post
        no_limit (view application.old.capabilities) application.old.handler done.taken done.given done.answer
        application.new.handler) }
{
    session_in_threads_ends_well::<EndOnBadContent, Quiet>();
    let options = ThreadOptions::new();
    let mut policy = EndOnBadContent;
    run_in_threads(rt, alloc, reader, writer, application, &mut policy, options)
}

/// Serves a client with a handler in threads.
pub fn answer_in_threads<T, R, W>(
    rt: &T,
    alloc: Global,
    reader: R,
    writer: W,
    handler: &mut Quiet,
) -> Result<Threaded<W>, StartFault>
where
    T: Threads + Wait + Copy + Drop + Send + 'static,
    R: BufRead + Drop + Send + 'static,
    W: Write + Drop + Send + 'static,
    ensures { IfOk result (λ done. (taken : ByteTrace) × (given : ByteTrace)
        × TakenFrom (R.remaining reader) taken.parts
        × GivenTo (W.contents writer) given.parts (W.contents done.writer)
        × EndsWellInThreads ⟦<Quiet as Handler>⟧.answer_post ⟦<Quiet as Handler>⟧.note_post no_limit
        (view Value.Null) handler.old taken given done.answer handler.new) }
{
    handler_in_threads_ends_well::<Quiet>();
    run_threads(rt, alloc, reader, writer, Value::Null, handler)
}
