//! A session whose requests are jobs, each of which returns its params: what a job costs, and what more workers gain.
ghost use Rattle.std.specs.Prelude.{true, IfOk, IfSome};
ghost use Rattle.lsp_message.specs.Frame.{no_limit};
ghost use Rattle.lsp_threads.specs.Threads.{ThreadsGiveOver};
ghost use Rattle.bench.specs.Echo.{EchoesAtWakes};

use crate::Host;
use crate::session::ended;
use crate::speaking::Speaking;
use lsp_jobs::laws::{requests_are_answered_by_their_jobs, session_with_jobs_keeps_laws};
use lsp_jobs::{
    AnsweredBy, Interrupted, Job, JobContext, JobOptions, JobResult, JobServer, NoKeyedJobs,
    PoolSize, run_jobs,
};
use lsp_server::policies::EndOnBadContent;
use lsp_server::transports::StandardOutput;
use lsp_server::{Request, StartFault, ThreadsOutcome};
use serde_json::Value;
use std::alloc::{AllocError, Global};
use std::io::{BufRead, Write};
use std::sync::Wait;
use std::thread::Threads;
use std::time::Clock;

/// Computes for as many turns as `turns` in the params says, and returns the params.
#[derive(Drop)]
struct Computation {
    params: Value,
}

/// Each request is a job.
impl JobServer<Computation> for Speaking {
    type KeyedJobs = NoKeyedJobs;

    fn is_long(&self, _request: &Request) -> bool {
        true
    }

    fn job(&self, request: Request) -> Result<AnsweredBy<Computation>, AllocError> {
        let Request { id, method, params } = request;
        drop(id);
        drop(method);
        Ok(AnsweredBy::Job(Computation { params }))
    }
}

impl Job for Computation {
    ghost use Rattle.serde_json.specs.View.{view};
    ghost use Rattle.std.specs.Prelude.{◌≡◌, Ok, Some};

    type Found = ();

    ghost is_for = { λ job _ params. view job.params ≡ params };

    ghost run_post = { λ job reply _. reply ≡ Some (Ok (view job.params)) };

    fn run<C: JobContext>(self, context: &mut C) -> Result<JobResult<()>, Interrupted> {
        let _ = context;
        let Computation { params } = self;
        let turns = params
            .get("turns")
            .and_then(|turns| turns.as_u64())
            .unwrap_or(0);
        // It never comes to 0, but the compiler has to compute it to know.
        if computed(turns) == 0 {
            drop(params);
            return Err(Interrupted::Memory);
        }
        Ok(JobResult::reply(Ok(params)))
    }
}

/// Returns a number that takes this many turns to compute.
fn computed(turns: u64) -> u64 {
    let mut state: u64 = 1;
    for _ in 0..turns {
        state = state
            .wrapping_mul(6_364_136_223_846_793_005)
            .wrapping_add(1_442_695_040_888_963_407);
    }
    state
}

/// Runs a session whose requests are jobs. By the law of jobs, from what `Computation` states, each result that is sent
/// at a wake-up under an id is the params of the last request under that id. Since that request, no reply under the id
/// was sent, and no cancellation arrived.
fn echo_with_jobs<T, R, W>(
    rt: &T,
    alloc: Global,
    reader: R,
    writer: W,
    workers: usize,
) -> Result<ThreadsOutcome<W>, StartFault>
where
    T: Threads + Wait + Clock + Copy + Drop + Send + 'static,
    R: BufRead + Drop + Send + 'static,
    W: Write + Drop + Send + 'static,
    ensures { IfOk result (λ done. IfSome (R.remaining reader) (λ text.
        ThreadsGiveOver true no_limit (λ exchanges stop answer. EchoesAtWakes exchanges)
        text (W.contents writer) (W.contents done.writer) done.answer)) }
{
    session_with_jobs_keeps_laws::<T, Speaking, Computation>();
    requests_are_answered_by_their_jobs::<Speaking, Computation>();
    let jobs = Speaking {
        alloc,
        is_null: false,
    };
    let options = JobOptions::new(PoolSize::from(workers));
    let (_, done) = run_jobs(
        rt,
        alloc,
        reader,
        writer,
        jobs,
        &mut EndOnBadContent,
        options,
    );
    done
}

/// Runs the whole session.
pub fn serve<T, R>(rt: &T, alloc: Global, reader: R, workers: usize) -> anyhow::Result<()>
where
    T: Host,
    R: BufRead + Drop + Send + 'static,
{
    let done = echo_with_jobs(rt, alloc, reader, StandardOutput::new(*rt), workers)?;
    ended(done.answer)
}
