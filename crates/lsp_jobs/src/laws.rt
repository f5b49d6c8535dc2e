//! Laws about the session of a server with jobs, in terms of what a user sees.
ghost use Rattle.std.specs.Prelude.{◌≡◌, ◌⊎◌, ◌∷◌, ◌++◌, true, None, Some, ℕ, List, Option, Result};
ghost use Rattle.lsp_message.specs.Id.{Id};
ghost use Rattle.lsp_message.specs.Message.{Message, response};
ghost use Rattle.lsp_message.specs.Methods.{is_initialized};
ghost use Rattle.lsp_message.specs.declared.frame.limits.Limits.{Limits};
ghost use Rattle.lsp_acts.specs.Law.{AnswersInitialize, TakesPart};
ghost use Rattle.lsp_session.specs.PassingBytes.{SkipsNoContent};
ghost use Rattle.lsp_session.specs.Session.{Exchange, offered, SessionAnswer, Stop};
ghost use Rattle.lsp_session.specs.declared.loops.handler.SessionEnd.{SessionEnd as EndOfSession};
ghost use Rattle.lsp_session.specs.declared.loops.stream_session.SessionFault.{SessionFault as FaultOfSession};
ghost use Rattle.lsp_threads.specs.Threads.{ThreadsGiveOver, ThreadsTellOver};
ghost use Rattle.lsp_jobs.specs.Ends.{Outcome};
ghost use Rattle.lsp_jobs.specs.JobLaw.{AnswersByJobs, AnswersRequest, LawfulJobSession, RepliesItself};
ghost use Rattle.lsp_jobs.specs.JobSession.{JobSession, seen_with_jobs};
ghost use Rattle.lsp_jobs.specs.PendingJobs.{no_jobs};
ghost use Rattle.lsp_jobs.specs.PoolView.{pending_jobs};
ghost use Rattle.lsp_jobs.specs.KeyedJobLaw.{KeyHistory};
ghost use Rattle.lsp_jobs.specs.declared.pooled_server.PooledServer.{PooledServer as Pooled};

use crate::job::Job;
use crate::job_server::{JobServer, StatesJobs};
use lsp_session::BadContentPolicy;
use std::sync::Wait;

/// What holds for a session that `run_jobs` ran, with a limit or without one, and that skips nothing. At each exchange
/// since the result of `initialize` the server took a turn. At each wake-up the session sends nothing, or one
/// notification or request of a pending job, or the messages at its outcome, or the cancellation of one job's request.
/// A job that is pending for a request is the one that was given for it; one under a key is the last that was started
/// there (see `AnswersByJobs`).
///
/// The session also keeps the laws of `lsp_acts::laws::server_keeps_laws`, whatever jobs return and when:
///
/// - Under no id there are more replies than requests.
/// - The last request under an id has one reply, unless it is still held or the session ended at it. Each request that
///   was cancelled has one.
/// - Before `initialized` only errors and the result of `initialize` are sent. Nothing follows the reply to `shutdown`.
pub fn session_with_jobs_keeps_laws<T: Wait + Drop, S: JobServer<J>, J: Job>()
    ensures exchanges { (first last : S) (exchanges : List Exchange) (stop : Stop)
        (answer : SessionAnswer)
        → JobSession T S.Server ⟦<S as StatesJobs<J>>⟧.jobs first last exchanges stop answer
        → LawfulJobSession T S.Server ⟦<S as StatesJobs<J>>⟧.jobs first last exchanges stop answer }
    ensures bytes { (limit : Limits) (first last : S) (text : List ℕ) (before after : Option (List ℕ))
        (answer : Result EndOfSession FaultOfSession)
        → ThreadsGiveOver true limit (JobSession T S.Server ⟦<S as StatesJobs<J>>⟧.jobs first last) text
        before after answer
        → ThreadsGiveOver true limit (LawfulJobSession T S.Server ⟦<S as StatesJobs<J>>⟧.jobs first last)
        text before after answer }
{}

/// States `session_with_jobs_keeps_laws` for a session with a policy. It applies to each session that `run_jobs` ran.
/// At a wake-up for a content part that was skipped, the laws say the same as at each other wake-up. With a policy that
/// never skips anything, such as `EndOnBadContent`, each frame is a message (`nothing_passed`).
pub fn session_with_jobs_that_asks_keeps_laws<
    T: Wait + Drop,
    S: JobServer<J>,
    J: Job,
    L: BadContentPolicy,
>()
    ensures bytes { (limit : Limits) (first last : S) (text : List ℕ) (policy policy_last : L)
        (before after : Option (List ℕ)) (answer : Result EndOfSession FaultOfSession)
        → ThreadsTellOver true L.passes limit
        (JobSession T S.Server ⟦<S as StatesJobs<J>>⟧.jobs first last) text policy policy_last before
        after answer
        → ThreadsTellOver true L.passes limit
        (LawfulJobSession T S.Server ⟦<S as StatesJobs<J>>⟧.jobs first last) text policy policy_last
        before after answer }
    ensures nothing_passed { (limit : Limits) (first last : S) (text : List ℕ) (policy policy_last : L)
        (before after : Option (List ℕ)) (answer : Result EndOfSession FaultOfSession)
        → SkipsNoContent L.passes
        → ThreadsTellOver true L.passes limit
        (JobSession T S.Server ⟦<S as StatesJobs<J>>⟧.jobs first last) text policy policy_last before
        after answer
        → ThreadsGiveOver true limit (JobSession T S.Server ⟦<S as StatesJobs<J>>⟧.jobs first last) text
        before after answer }
{}

/// Says where each reply comes from that is sent at a wake-up, in a session that began in the state `first`. The last
/// request under its id arrived before. Since then no reply under the id was sent, and no cancellation of it arrived.
/// The reply is one of two:
///
/// - A job's. The exchanges before the request had taken the server to a state in which it called the request long and
///   gave a job for it (`job_post`). The outcome is one that this job may have, or one of three errors: the job gave no
///   reply, an allocation failed, or it ended with `Interrupted::Cancelled`, for whatever reason.
/// - The server's own. At this wake-up the server was notified how a job ended, and then answered the request itself.
///   That job is one that stands there (see `each_key_reports_its_last_job`), or one under a key that the server changes at
///   this wake-up. A server that does nothing at the end of a job, such as one with `NoKeyedJobs`, never answers in this
///   manner.
pub fn requests_are_answered_by_their_jobs<S: JobServer<J>, J: Job>()
    ensures { (first : S) (stop : Stop) (exchanges : List Exchange)
        → AnswersByJobs S.Server ⟦<S as StatesJobs<J>>⟧.jobs first stop exchanges
        → (earlier later : List Exchange) (x : Exchange) (before after : List Message) (id : Id)
        (outcome : Outcome) → exchanges ≡ earlier ++ x ∷ later → x.came ≡ None
        → offered x ≡ before ++ response id outcome ∷ after
        → AnswersRequest S.Server ⟦<S as StatesJobs<J>>⟧.jobs first earlier id outcome
        ⊎ RepliesItself S.Server ⟦<S as StatesJobs<J>>⟧.jobs first earlier (offered x) id outcome }
{}

/// Describes the turns of a server with jobs, from its state at the result of `initialize` on (`GoesOn` in
/// `lsp_acts::laws`). Its turns are `initialized` and its calls, each from the state that the one before left.
///
/// - At a request that it calls long, the server stays as it is. Nothing is sent, since it gave a job for the request;
///   or one reply is sent: what it knows (`job_reply_post`), the error -32803, `too many requests are waiting`, or the error
///   -32603, `out of memory`.
/// - At each wake-up one of three things happens. The server stays as it is and nothing is done; or a request of a job
///   is cancelled; or one pending job reports, sends a request, or ends with a result that it may have. The server
///   changes at a wake-up only by being notified about that job.
/// - If that job has a key, it is the last that was started there: it was started in an earlier turn, and since then
///   the key got no other job and the job did not end. So the result for an earlier text never arrives after the start
///   for a later one.
/// - Under each key, starts and ends alternate (`once`): the server is notified of at most one end of each job, and of
///   none of a job that was not started.
/// - A job for a request is one that the server may give for the last request under the id. This request is long, was
///   not cancelled, and has no reply.
///
/// Up to the result of `initialize` no job is pending (`first`).
pub fn each_key_reports_its_last_job<T: Wait + Drop, S: JobServer<J>, J: Job>()
    ensures turns { (start last : Pooled T S J J.Found) (opening : Exchange)
        (later : List Exchange) (m : Message) → pending_jobs start.pool ≡ no_jobs
        → opening.came ≡ Some m → is_initialized m ≡ true
        → (part : TakesPart (seen_with_jobs T S.Server ⟦<S as StatesJobs<J>>⟧.jobs) start last opening later)
        → KeyHistory S.Server ⟦<S as StatesJobs<J>>⟧.jobs start.server opening part.begun part.calls }
    ensures first { (early : List Exchange) (old start : Pooled T S J J.Found)
        → AnswersInitialize (seen_with_jobs T S.Server ⟦<S as StatesJobs<J>>⟧.jobs) old early start
        → pending_jobs start.pool ≡ pending_jobs old.pool }
{}
