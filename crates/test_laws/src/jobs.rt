//! Sessions of servers whose long requests are jobs.
ghost use Rattle.std.specs.Prelude.{◌≡◌, ℕ, List, Ok, Some, true};
ghost use Rattle.lsp_jobs.specs.JobLaw.{LawfulJobSession};
ghost use Rattle.lsp_session.specs.Session.{Exchange, SessionAnswer, Stop};
ghost use Rattle.lsp_threads.specs.Threads.{ThreadsGiveOver};
ghost use Rattle.lsp_threads.specs.declared.run.ThreadsOutcome.{ThreadsOutcome as Done};
ghost use Rattle.test_laws.specs.Turns.{HasTurns};

use lsp_acts::Server;
use lsp_jobs::laws::{
    each_key_reports_its_last_job, session_with_jobs_keeps_laws,
    session_with_jobs_that_asks_keeps_laws,
};
use lsp_jobs::{Job, JobOptions, JobServer, StatesJobs, run_jobs};
use lsp_session::EndOnBadContent;
use lsp_threads::{StartFault, ThreadsOutcome};
use std::alloc::Global;
use std::io::{BufRead, Write};
use std::sync::Wait;
use std::thread::Threads;
use std::time::Clock;

/// Serves a client, up to the first content that is no message. If the reader's bytes are known, they and the bytes
/// that were written are those of a session with jobs that keeps the laws.
pub fn serve_with_jobs<T, R, W, S, J>(
    rt: &T,
    alloc: Global,
    reader: R,
    writer: W,
    server: S,
    options: JobOptions,
) -> (S, Result<ThreadsOutcome<W>, StartFault>)
where
    T: Threads + Wait + Clock + Copy + Drop + Send + 'static,
    R: BufRead + Drop + Send + 'static,
    W: Write + Drop + Send + 'static,
    S: JobServer<J> + Drop,
    J: Job + Send + 'static,
    J::Found: Send + 'static,
    ensures { (text : List ℕ) (done : Done W) → R.remaining reader ≡ Some text → result.1 ≡ Ok done
        → ThreadsGiveOver true options.threads.limits
        (LawfulJobSession T S.Server ⟦<S as StatesJobs<J>>⟧.jobs server result.0) text
        (W.contents writer) (W.contents done.writer) done.answer }
{
    session_with_jobs_that_asks_keeps_laws::<T, S, J, EndOnBadContent>();
    session_with_jobs_keeps_laws::<T, S, J>();
    let mut policy = EndOnBadContent;
    run_jobs(rt, alloc, reader, writer, server, &mut policy, options)
}

/// In a session with jobs, what each wake-up sends comes from the last job under its key, or from the job for the last
/// request under its id. The server is notified of one end of each job at most.
pub fn keys_report_their_last_jobs<T: Wait + Drop, S: JobServer<J>, J: Job>()
    ensures { (first last : S) (exchanges : List Exchange) (stop : Stop) (answer : SessionAnswer)
        → (session : LawfulJobSession T S.Server ⟦<S as StatesJobs<J>>⟧.jobs first last exchanges stop answer)
        → HasTurns S.Server ⟦<S as StatesJobs<J>>⟧.jobs session.laws.all }
{
    each_key_reports_its_last_job::<T, S, J>();
}
