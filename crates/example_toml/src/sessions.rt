// A session of the server: with threads that run jobs, on one thread, and with a thread that reads and one that writes.
ghost use Rattle.std.specs.Prelude.{◌≡◌, [], List, IfOk, false, true};
ghost use Rattle.lsp_diagnostics.specs.Answered.{AnswersFromOpenTexts};
ghost use Rattle.lsp_diagnostics.specs.Shown.{ShowsOpenTexts};
ghost use Rattle.lsp_documents.specs.Sessions.{HasNone};
ghost use Rattle.lsp_jobs.specs.JobLaw.{LawfulJobSession};
ghost use Rattle.lsp_session.specs.Session.{Exchange, SessionAnswer, Stop};
ghost use Rattle.lsp_session.specs.StreamTransports.{IsUnused, Serves};
ghost use Rattle.lsp_threads.specs.InThreads.{ServesInThreads};
ghost use Rattle.example_toml.specs.Sessions.{AnswersOnce, TomlSession};

use crate::server::TomlServer;
use crate::work::Work;
use lsp_diagnostics::laws::{diagnostics_are_of_held_texts, jobs_answer_from_open_texts};
use lsp_diagnostics::{Analysis, TextQuery};
use lsp_jobs::laws::session_with_jobs_keeps_laws;
use lsp_jobs::{InlineJobs, JobOptions, PoolSize, StatesJobs, run_jobs};
use lsp_server::laws::server_keeps_laws;
use lsp_server::policies::{BadContentPolicy, SkipAndFlag};
use lsp_server::transports::ClientStreams;
use lsp_server::{
    Server, ServerApplication, SessionEnd, SessionFault, StartFault, StreamTransport,
    ThreadOptions, ThreadsOutcome, run_in_threads,
};
use std::alloc::Global;
use std::io::{BufRead, Write};
use std::sync::Wait;
use std::thread::Threads;
use std::time::Clock;

/// Two jobs run at a time. At most one check waits for each open document, so the pool needs no bound: a check
/// is never refused.
const SIZE: PoolSize = PoolSize {
    workers: 2,
    waiting: None,
    stack: None,
};

/// Serves a client, with a thread that reads, one that writes, and a pool of threads that run the jobs. It returns the
/// server.
///
/// The session keeps the laws of a session without jobs, whatever the jobs find and when. The problems that the client
/// gets at a wake-up are those of its text: see `problems_are_of_held_texts`. A search is about the texts that were
/// open when its request arrived: see `searches_are_of_open_texts`.
///
/// This holds for every reader and writer, also for standard input and output or a socket: the result lists the bytes
/// that were taken and given. Content that is no message is skipped, and the server loses all texts then.
pub fn serve<T, R, W>(
    rt: &T,
    alloc: Global,
    client: ClientStreams<R, W>,
    server: TomlServer,
    skipped: &mut SkipAndFlag,
) -> (TomlServer, Result<ThreadsOutcome<W>, StartFault>)
where
    T: Threads + Wait + Clock + Copy + Drop + Send + 'static,
    R: BufRead + Drop + Send + 'static,
    W: Write + Drop + Send + 'static,
    requires commands { server.texts.commands.items ≡ [] }
    requires documents { HasNone server.texts.documents }
    ensures session { IfOk result.1 (λ done. ServesInThreads true ⟦<SkipAndFlag as BadContentPolicy>⟧.passes
        client.limits skipped.old skipped.new (TomlSession T
        ⟦<Work as Analysis>⟧.are ⟦<Work as TextQuery>⟧.answers ⟦<TomlServer as Server>⟧
        ⟦<TomlServer as StatesJobs<Work>>⟧.jobs server result.0) (R.remaining client.reader)
        (W.contents client.writer) (W.contents done.writer) done.taken done.given done.order done.answer) }
{
    session_with_jobs_keeps_laws::<T, TomlServer, Work>();
    problems_are_of_held_texts::<T>();
    searches_are_of_open_texts::<T>();
    let mut options = JobOptions::new(SIZE);
    options.threads.limits = client.limits;
    let (reader, writer) = (client.reader, client.writer);
    run_jobs(rt, alloc, reader, writer, server, skipped, options)
}

/// In a session with jobs, which begins with no documents, the diagnostics that are published at a wake-up are all the
/// problems of the text that the server holds at that moment for the document, under its URI and with its version. They
/// are never those of an older text, nor of a document that was closed or whose text is lost. The notifications of the
/// client since the result of `initialize` made this text. All texts were lost before a message only if the server
/// logged that at the client.
fn problems_are_of_held_texts<T: Wait + Drop>()
    ensures { (first last : TomlServer) (exchanges : List Exchange) (stop : Stop)
        (answer : SessionAnswer) → first.texts.commands.items ≡ [] → HasNone first.texts.documents
        → LawfulJobSession T ⟦<TomlServer as Server>⟧ ⟦<TomlServer as StatesJobs<Work>>⟧.jobs first last exchanges stop
        answer
        → ShowsOpenTexts ⟦<Work as Analysis>⟧.are exchanges }
{
    diagnostics_are_of_held_texts::<TomlServer, Work>();
}

/// In a session with jobs, which begins with no documents, each reply at a wake-up is to the last request under its id,
/// which is a search. The reply has a symbol for each key whose name contains the request's word, in the texts that
/// were open when the request arrived. It has each once, at its key, under the URI of the text, and no others. Or the
/// reply is the error of a failed allocation, or of a cancellation.
fn searches_are_of_open_texts<T: Wait + Drop>()
    ensures { (first last : TomlServer) (exchanges : List Exchange) (stop : Stop)
        (answer : SessionAnswer) → HasNone first.texts.documents
        → LawfulJobSession T ⟦<TomlServer as Server>⟧ ⟦<TomlServer as StatesJobs<Work>>⟧.jobs first last exchanges stop
        answer
        → AnswersFromOpenTexts ⟦<Work as TextQuery>⟧.answers exchanges }
{
    jobs_answer_from_open_texts::<TomlServer, Work>();
}

/// A server whose jobs run on the session's own thread, each at the message that starts it.
pub type InlineServer = InlineJobs<TomlServer, Work>;

/// Serves a client on one thread, and returns the server.
///
/// In no prefix of the session does a client get more replies under an id than it sent requests. A request whose id it
/// used once has exactly one reply, unless the session ended at the request, since the lifecycle does not allow it, or
/// the server holds it. If a write or an allocation failed, replies may be missing.
pub fn serve_inline<R: BufRead, W: Write>(
    alloc: Global,
    transport: &mut StreamTransport<'_, R, W, SkipAndFlag>,
    server: InlineServer,
) -> (InlineServer, Result<SessionEnd, SessionFault>)
    requires { IsUnused transport.old }
    ensures { Serves ⟦<SkipAndFlag as BadContentPolicy>⟧.passes (AnswersOnce ⟦<InlineServer as Server>⟧ server result.0)
        transport.old result.1 transport.new }
{
    server_keeps_laws::<InlineServer>();
    let mut application = ServerApplication::new(alloc, server);
    let answer = transport.serve(&mut application);
    (application.server, answer)
}

/// Does what `serve_inline` does, with a thread that reads and one that writes. The same holds for it, except the order
/// between reads and writes.
pub fn serve_in_threads<T, R, W>(
    rt: &T,
    alloc: Global,
    client: ClientStreams<R, W>,
    server: InlineServer,
    skipped: &mut SkipAndFlag,
) -> (InlineServer, Result<ThreadsOutcome<W>, StartFault>)
where
    T: Threads + Wait + Copy + Drop + Send + 'static,
    R: BufRead + Drop + Send + 'static,
    W: Write + Drop + Send + 'static,
    ensures session { IfOk result.1 (λ done. ServesInThreads false ⟦<SkipAndFlag as BadContentPolicy>⟧.passes
        client.limits skipped.old skipped.new (AnswersOnce ⟦<InlineServer as Server>⟧ server result.0)
        (R.remaining client.reader) (W.contents client.writer) (W.contents done.writer)
        done.taken done.given done.order done.answer) }
{
    server_keeps_laws::<InlineServer>();
    let mut options = ThreadOptions::new();
    options.limits = client.limits;
    let (reader, writer) = (client.reader, client.writer);
    let mut application = ServerApplication::new(alloc, server);
    let done = run_in_threads(
        rt,
        alloc,
        reader,
        writer,
        &mut application,
        skipped,
        options,
    );
    (application.server, done)
}
