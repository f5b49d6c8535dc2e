// A session of a server whose long requests are jobs, in threads.
ghost use Rattle.std.specs.Prelude.{◌≡◌, true, IfOk, OnErr};
ghost use Rattle.lsp_message.specs.Frame.{no_limit};
ghost use Rattle.lsp_threads.specs.InThreads.{ServesInThreads};
ghost use Rattle.lsp_jobs.specs.JobSession.{JobSession};

use crate::job::Job;
use crate::job_server::{JobServer, StatesJobs};
use crate::pool::{PoolSize, start_pool};
use crate::pooled_server::PooledServer;
use lsp_acts::ServerApplication;
use lsp_relay::{StartFault, relay};
use lsp_session::BadContentPolicy;
use lsp_threads::{Contents, ContentsPlan, ThreadOptions, ThreadsOutcome, run_in_threads_over};
use std::alloc::Global;
use std::io::{BufRead, Write};
use std::sync::Wait;
use std::thread::Threads;
use std::time::Clock;

/// How many parcels of read messages, and wake-ups, may wait for the session. It changes speed and memory only, and no
/// answer.
const ROOM: usize = 256;

/// How a session with jobs runs. Two things change its answers: `threads.limits`, and requests and jobs that find no
/// room. The rest changes only speed and memory.
#[derive(Drop)]
pub struct JobOptions {
    /// How many threads run jobs, and how many jobs may wait for one.
    pub pool: PoolSize,
    /// The threads that read and write: how far they go ahead, and how long a message may be.
    pub threads: ThreadOptions,
}

impl JobOptions {
    /// Makes options with this pool. The threads that read and write are those of `ThreadOptions::new`, with no limit
    /// on the length of a message.
    pub fn new(pool: PoolSize) -> JobOptions
        ensures pool { result.pool ≡ «pool» }
        ensures limits { result.threads.limits ≡ no_limit }
        ensures unread { result.threads.unread ≡ 1048576 }
        ensures unwritten { result.threads.unwritten ≡ 1048576 }
    {
        JobOptions {
            pool,
            threads: ThreadOptions::new(),
        }
    }
}

/// Runs a session of a server whose long requests are jobs, and returns the server. The threads of a pool run jobs, one
/// thread reads, one writes, and the server is on the caller's thread, which goes on while jobs run.
///
/// Starts, faults and the end are those of `run_in_threads`. The outer fault means that a thread was not started, or
/// that an allocation failed. Then nothing was read or written, and the server and the policy are as they were.
///
/// - A `$/cancelRequest` for a request that waits for its job is answered at once: by the server's acts at it,
///   otherwise with the error -32800. The job is to end, and its result is dropped (LSP 3.17, "Cancellation Support").
/// - A long request for whose job there is no room gets the error -32803, `too many requests are waiting`, and
///   `JobServer::job` is not called.
/// - If an allocation fails in a job, or while it is made or started, its request gets the error -32603, `out of
///   memory`, and the session goes on. It ends only if memory for that text is missing too.
/// - `window/workDoneProgress/cancel` makes the job end that shows this progress, if it began it with
///   `WorkDone::begin_cancellable`. If the job ends because `JobContext::check` returns an error, its request gets the error
///   -32800, `canceled by client`, and the server is notified.
/// - Reports and outcomes are sent up to `shutdown`. At `shutdown` all jobs are cancelled: their later messages are
///   dropped, and their requests get the error -32800, `canceled by shutdown`, before the reply to `shutdown`.
/// - At a content part that is no message (see `lsp_session::is_bad_content`) `policy` is asked, at once and on your
///   thread, from `initialized` up to `shutdown`. If it says to read on, nothing is answered, the server is not
///   notified, and the next frame follows. If it ends the session, such a part is `SessionFault::Read`. Before
///   `initialized` and after `shutdown` it is so in any case.
/// - At the end all jobs are to end, and all threads are joined. So the call returns only when the running jobs have
///   ended.
///
/// The clause `session` holds for every reader and writer, also for standard input and output or a socket. It is about
/// the bytes that the session took, with any bytes after them, and about those that it gave, as that of
/// `run_in_threads`.
pub fn run_jobs<T, R, W, S, J, L>(
    rt: &T,
    alloc: Global,
    reader: R,
    writer: W,
    server: S,
    policy: &mut L,
    options: JobOptions,
) -> (S, Result<ThreadsOutcome<W>, StartFault>)
where
    T: Threads + Wait + Clock + Copy + Drop + Send + 'static,
    R: BufRead + Drop + Send + 'static,
    W: Write + Drop + Send + 'static,
    S: JobServer<J> + Drop,
    J: Job + Send + 'static,
    J::Found: Send + 'static,
    L: BadContentPolicy,
    ensures unstarted { OnErr result.1 ((result.0 ≡ server) × (policy.new ≡ policy.old)) }
    ensures session { IfOk result.1 (λ done. ServesInThreads true L.passes options.threads.limits policy.old policy.new
        (JobSession T S.Server ⟦<S as StatesJobs<J>>⟧.jobs server result.0) (R.remaining reader)
        (W.contents writer) (W.contents done.writer) done.taken done.given done.order done.answer) }
{
    let Ok((mut tx, rx)) = relay::<Contents, ContentsPlan>(alloc, ROOM) else {
        return (server, Err(StartFault::Memory));
    };
    let Ok(waker) = tx.waker() else {
        return (server, Err(StartFault::Memory));
    };
    let pool = match start_pool(rt, alloc, options.pool, waker) {
        Ok(pool) => pool,
        Err(fault) => return (server, Err(fault)),
    };
    let pooled = PooledServer::new(alloc, server, pool);
    let mut queued = ServerApplication::new(alloc, pooled);
    let ends = (tx, rx);
    let done = run_in_threads_over(
        rt,
        alloc,
        ends,
        reader,
        writer,
        &mut queued,
        policy,
        options.threads,
    );
    let (server, pool) = queued.into_server().into_parts();
    pool.end();
    (server, done)
}
