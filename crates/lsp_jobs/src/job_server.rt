// A server whose long requests are jobs, and that may start jobs of its own.
ghost use Rattle.serde_json.specs.View.{view};
ghost use Rattle.std.specs.Prelude.{◌≡◌, map, Err, IfOk, MatchResult, Ok, Result, string_bytes};
ghost use Rattle.lsp_message.specs.View.{outcome_view};
ghost use Rattle.lsp_message.specs.declared.msg.ResponseError.{ResponseError as ReadError};
ghost use Rattle.lsp_acts.specs.Answering.{IsRead};
ghost use Rattle.lsp_acts.specs.View.{act_view};
ghost use Rattle.lsp_jobs.specs.ServerView.{AnsweredSo};
ghost use Rattle.lsp_jobs.specs.declared.job_server.AnsweredBy.TheVariants.{Job as ByJob, Reply as AtOnce};

use crate::job::Job;
use crate::names::{JobKey, JobName};
use lsp_acts::{Act, Server};
use lsp_message::{Request, ResponseError};
use serde::DeserializeOwned;
use serde_json::Value;
use std::alloc::{AllocError, Global};
use std::time::Duration;

/// What answers a long request.
#[derive(Drop)]
pub enum AnsweredBy<J> {
    /// This job answers it.
    Job(J),
    /// This reply answers it at once: the params do not fit, or the result is known.
    Reply(Result<Value, ResponseError>),
}

impl<J: Drop> AnsweredBy<J> {
    /// Reads a long request's params as a type of your own, and returns the job that `make` makes from them. Params
    /// that do not fit are refused at once with the error -32602. Its text names a missing key, as that of
    /// `lsp_acts::Act::answer` does (JSON-RPC 2.0, section 5.1).
    ///
    /// `Err` means that an allocation failed. No contract says which params fit, so test it.
    pub fn with_params<T, F>(
        alloc: Global,
        request: Request,
        make: F,
    ) -> Result<AnsweredBy<J>, AllocError>
    where
        T: DeserializeOwned,
        F: FnOnce(T) -> Result<J, AllocError>,
        requires { (params : T) → F.pre make params }
        ensures { IfOk result (λ by. (read : Result T ReadError) × IsRead read
            × MatchResult read (λ params. (job : J) × F.post make params (Ok job) × (by ≡ ByJob job))
            (λ e. by ≡ AtOnce (Err e))) }
    {
        let (id, read) = request.params_as(alloc)?;
        drop(id);
        match read {
            Ok(params) => Ok(AnsweredBy::Job(make(params)?)),
            Err(error) => Ok(AnsweredBy::Reply(Err(error))),
        }
    }
}

/// A server whose long requests are jobs, and that may start jobs of its own. It goes on while they run. `run_jobs`
/// runs it.
///
/// A server that has only long requests writes `is_long` and `job`, and says `type KeyedJobs = NoKeyedJobs`. The ghost members
/// say what it promises. In such a session only jobs wake the server, and `KeyedJobs` reports their ends to it, so
/// `Server::woken` is not called.
pub trait JobServer<J: Job>: Server {
    ghost use Rattle.serde_json.specs.Data.{Data};
    ghost use Rattle.std.specs.Prelude.{ℕ, Bool, List, ⊤};
    ghost use Rattle.lsp_message.specs.Id.{Id};
    ghost use Rattle.lsp_jobs.specs.Ends.{Outcome};

    /// The server's jobs under keys, and its reactions to the ends of jobs. Take `NoKeyedJobs` if it has neither.
    type KeyedJobs: KeyedJobs<Self, J>;

    /// For a request with this method and these params it may return this: whether the request is long. If an `impl`
    /// leaves this out, it may return either for any request.
    ghost is_long_post: { Self → List ℕ → Data → Bool → Type 0 } = { λ _ _ _ _. ⊤ };

    /// For a long request with this id, method and params it may return this job. If an `impl` leaves this out, it may
    /// return any job that is for the request.
    ghost job_post: { Self → Id → List ℕ → Data → J → Type 0 } = { λ _ _ _ _ _. ⊤ };

    /// For a long request with this id, method and params it may return this reply in place of a job. If an `impl`
    /// leaves this out, it may return any.
    ghost job_reply_post: { Self → Id → List ℕ → Data → Outcome → Type 0 } = { λ _ _ _ _ _. ⊤ };

    /// Returns whether a request is long. If so, `job` decides how it is answered, and `Server::request` does not get
    /// it. It is called at each request.
    fn is_long(&self, request: &Request) -> bool
        ensures { is_long_post self.now (string_bytes request.now.method) (view request.now.params)
            result };

    /// Returns how a long request is answered. It is called right after `is_long`, and only if there is room for one
    /// more job. If there is none, the reply is the error -32803, `too many requests are waiting`, and this method is
    /// not called.
    ///
    /// The error means that an allocation failed. It affects this request alone: the reply is -32603, `out of memory`,
    /// and the session goes on.
    fn job(&self, request: Request) -> Result<AnsweredBy<J>, AllocError>
        ensures { IfOk result (λ by. AnsweredSo by
            (λ job. J.is_for job (string_bytes request.method) (view request.params)
            × job_post self.now request.id (string_bytes request.method) (view request.params) job)
            (λ outcome. job_reply_post self.now request.id (string_bytes request.method)
            (view request.params) outcome)) };
}

/// Starts or stops the job under a key.
#[derive(Drop)]
pub enum JobCommand<J> {
    /// Starts this job under the key. A job that is there ends as `JobEnd::Replaced`.
    Start(JobKey, J),
    /// Starts this job under the key once this time has passed and a thread is free. It is the key's job at once: a job
    /// that is there ends as `JobEnd::Replaced`, and a later command for the key replaces or stops this one, also before
    /// it runs. So it does no work if another soon replaces it (a debounce).
    ///
    /// Until it runs, it holds no thread, and counts as a job that waits (`PoolSize::waiting`). When a thread is free,
    /// jobs whose time has passed go before those of `Start`, and the last command goes first. The time may have any
    /// length. Zero does the same as `Start`. If the clock can't be read, no time is waited for.
    StartAfter(JobKey, Duration, J),
    /// Ends the job under the key as `JobEnd::Stopped`. If there is none, nothing is done.
    Stop(JobKey),
}

/// How a job ended that has no result for its server.
#[derive(Clone, Copy, Debug, PartialEq, Eq)]
pub enum JobEnd {
    /// Its work is done. If it is for a request, the reply follows.
    Done,
    /// An allocation failed in it. If it is for a request, the reply follows: the error -32603, `out of memory`.
    Failed,
    /// It ended with `Interrupted::Cancelled` while somebody waited for it: its client cancelled the progress that it
    /// shows. If it is for a request, the reply follows: the error -32800, `canceled by client`.
    Cancelled,
    /// It was for a key, found no room, and never ran.
    Refused,
    /// Another job was started under its key. Its result is dropped.
    Replaced,
    /// The server stopped it. Its result is dropped.
    Stopped,
}

/// The jobs of a server under keys, and its reactions to the ends of jobs. Such a server writes `type KeyedJobs` as
/// itself, and has an `impl` of this trait for itself.
///
/// The server is notified once of each job that was started under a key, by `found` or `ended`. The exceptions are jobs
/// that `shutdown` or the end of the session forgets. For the job of a request it is notified before the reply is sent.
/// It is not notified if the request was cancelled, answered otherwise, or its id used again.
pub trait KeyedJobs<S: Server, J: Job> {
    ghost use Rattle.std.specs.Prelude.{List};
    ghost use Rattle.lsp_acts.specs.Acts.{Act as PlainAct};
    ghost use Rattle.lsp_jobs.specs.declared.job_server.JobEnd.{JobEnd as HowEnded};
    ghost use Rattle.lsp_jobs.specs.declared.job_server.JobCommand.{JobCommand as Change};
    ghost use Rattle.lsp_jobs.specs.declared.names.JobName.{JobName as Name};

    /// It may start and stop jobs as this list says, in this order, and change itself in this manner.
    ghost take_commands_post: { S → List (Change J) → S → Type 0 };

    /// When the job with this name found this result, it may return these acts, and change in this manner.
    ghost found_post: { S → Name → J.Found → List (PlainAct S.PendingData) → S → Type 0 };

    /// When the job with this name ended as this says and found nothing, it may return these acts, and change in this
    /// manner.
    ghost ended_post: { S → Name → HowEnded → List (PlainAct S.PendingData) → S → Type 0 };

    /// Returns which jobs to start and to stop. It is called after `initialized`, `request`, `notification`, `response`, and
    /// `found` or `ended` for a job that ran to its end. It is not called after an `ended` for a job that was refused,
    /// replaced or stopped, nor at `shutdown`, where all jobs are forgotten, nor at a long request.
    fn take_commands(server: &mut S, alloc: Global) -> Result<Vec<JobCommand<J>>, AllocError>
        ensures { IfOk result (λ all. take_commands_post server.old all.items server.new) };

    /// Gets the result of a job whose work is done. The server may keep it, or send messages to the client.
    fn found(
        server: &mut S,
        name: &JobName,
        found: J::Found,
        alloc: Global,
    ) -> Result<Vec<Act<S::PendingData>>, AllocError>
        ensures { IfOk result (λ acts.
            found_post server.old name.now «found» (map (act_view S.PendingData.eq) acts.items) server.new) };

    /// Gets how a job ended that found nothing.
    fn ended(
        server: &mut S,
        name: &JobName,
        end: JobEnd,
        alloc: Global,
    ) -> Result<Vec<Act<S::PendingData>>, AllocError>
        ensures { IfOk result (λ acts.
            ended_post server.old name.now end (map (act_view S.PendingData.eq) acts.items) server.new) };
}

/// What a `JobServer`, its `KeyedJobs` and its `Job` promise, as one value for contracts. Each `JobServer` has it.
pub trait StatesJobs<J: Job>: Server {
    ghost use Rattle.lsp_jobs.specs.Stated.{StatedJobs};

    /// Their ghost members, by name.
    ghost jobs: { StatedJobs Self J J.Found Self.PendingData };
}

impl<S: JobServer<J>, J: Job> StatesJobs<J> for S {
    ghost use Rattle.lsp_jobs.specs.Stated.{stated_jobs};

    ghost jobs = { stated_jobs S.JobServer.own ⟦<S::KeyedJobs as KeyedJobs<S, J>>⟧ J.Job };
}

/// The server has no jobs under keys, and does nothing when a job ended.
pub struct NoKeyedJobs;

impl<S: Server, J: Job> KeyedJobs<S, J> for NoKeyedJobs {
    ghost use Rattle.std.specs.Prelude.{◌≡◌, []};

    ghost take_commands_post = { λ old changes new. (changes ≡ []) × (new ≡ old) };

    ghost found_post = { λ old _ _ acts new. (acts ≡ []) × (new ≡ old) };

    ghost ended_post = { λ old _ _ acts new. (acts ≡ []) × (new ≡ old) };

    fn take_commands(server: &mut S, alloc: Global) -> Result<Vec<JobCommand<J>>, AllocError> {
        let _ = server;
        Ok(Vec::new(alloc))
    }

    fn found(
        server: &mut S,
        name: &JobName,
        found: J::Found,
        alloc: Global,
    ) -> Result<Vec<Act<S::PendingData>>, AllocError> {
        let _ = server;
        let _ = name;
        drop(found);
        Ok(Vec::new(alloc))
    }

    fn ended(
        server: &mut S,
        name: &JobName,
        end: JobEnd,
        alloc: Global,
    ) -> Result<Vec<Act<S::PendingData>>, AllocError> {
        let _ = server;
        let _ = name;
        let _ = end;
        Ok(Vec::new(alloc))
    }
}
