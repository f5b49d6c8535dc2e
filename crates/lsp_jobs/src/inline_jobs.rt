// A server whose jobs run on the session's own thread.
ghost use Rattle.serde_json.specs.View.{view};
ghost use Rattle.std.specs.List.{All, FoldsTo};
ghost use Rattle.std.specs.Prelude.{◌≡◌, ◌++◌, [], ◌∷◌, List, IfOk, Some, false, map, option_map, string_bytes};
ghost use Rattle.lsp_message.specs.View.{outcome_view};
ghost use Rattle.lsp_acts.specs.View.{act_view};
ghost use Rattle.lsp_jobs.specs.Inline.{told, AnswersLong, Carries, EndsAfter, Round, RunsThen, Settles};
ghost use Rattle.lsp_jobs.specs.Outcomes.{MayAsk, MayReport};
ghost use Rattle.lsp_jobs.specs.PoolView.{came_view};
ghost use Rattle.lsp_jobs.specs.declared.job_server.JobCommand.{JobCommand as Command};

use crate::job::{DoneJob, Interrupted, Job, JobContext, run_as_text};
use crate::job_server::{AnsweredBy, JobCommand, JobServer, KeyedJobs, StatesJobs};
use crate::names::JobName;
use crate::pooled_server::{end_job, out_of_memory};
use crate::reporter::Picked;
use lsp_acts::{Act, Server};
use lsp_message::{Notification, Request, ResponseError};
use serde_json::Value;
use std::alloc::{AllocError, Global};
use std::marker::{Brand, Model, PhantomData};

/// How often, for one message, a server may name further jobs when its jobs have ended.
const MOST_ROUNDS: u32 = 100;

/// A server whose jobs run on the session's own thread, each at the message that starts it. It needs no threads and no
/// clock, and its output depends on its input alone. So it is for a test in memory (`lsp_testing::TestClient`), for a
/// session that is stored with its output, and for a program that has no threads. `run_jobs` is for all others: here
/// nobody is answered while a job runs.
///
/// It is a `Server` as any other one: make a `ServerApplication` of it.
///
/// - A long request gets its reply at once, after the notifications that its job sent.
/// - A job under a key runs at once, also one of `JobCommand::StartAfter`. So no job is replaced, stopped, refused or
///   cancelled.
/// - When a job has ended, the server names further jobs (`KeyedJobs::take_commands`). After 100 rounds of them the
///   session goes on, and the rest starts at the next message.
/// - A job that sends the client a request gets `None` in place of a reply (`JobContext::send_request`).
#[derive(Drop)]
pub struct InlineJobs<S: Drop, J: Job> {
    alloc: Global,
    server: S,
    jobs: PhantomData<J>,
}

impl<S: Drop, J: Job> InlineJobs<S, J> {
    /// Makes a server that runs the jobs of this one. It does not allocate.
    pub fn new(alloc: Global, server: S) -> InlineJobs<S, J>
        ensures { result.server ≡ server }
    {
        InlineJobs {
            alloc,
            server,
            jobs: PhantomData,
        }
    }

    /// Returns the server whose jobs were run.
    pub fn into_server(self) -> S
        ensures { result ≡ self.server }
    {
        self.server
    }
}

impl<S: JobServer<J> + Drop, J: Job> InlineJobs<S, J> {
    /// Runs a job, and adds its notifications, the acts at its end and its reply to these acts.
    fn run_job(
        &mut self,
        name: JobName,
        job: J,
        acts: &mut Vec<Act<S::PendingData>>,
    ) -> Result<(), AllocError>
        ensures { IfOk result (λ _. RunsThen ⟦<S as StatesJobs<J>>⟧.jobs name «job»
            (self.old.server, map (act_view S.PendingData.eq) acts.old.items)
            (self.new.server, map (act_view S.PendingData.eq) acts.new.items)) }
    {
        let (ran, sent) = perform::<Brand, J>(self.alloc, job)?;
        self.add_run(name, ran, sent, acts)
    }

    /// Adds to these acts what a job sent, in order, then the acts at its end, and its reply.
    fn add_run(
        &mut self,
        name: JobName,
        ran: Result<DoneJob<J::Found>, Interrupted>,
        sent: Vec<Notification>,
        acts: &mut Vec<Act<S::PendingData>>,
    ) -> Result<(), AllocError>
        ensures { IfOk result (λ _. EndsAfter ⟦<S as StatesJobs<J>>⟧.jobs name (came_view «ran») (map told sent.items)
            (self.old.server, map (act_view S.PendingData.eq) acts.old.items)
            (self.new.server, map (act_view S.PendingData.eq) acts.new.items)) }
    {
        push_notifications(acts, sent)?;
        let last = end_job(&mut self.server, name, ran, self.alloc)?;
        append_acts(acts, last)
    }

    /// Carries out a command of the server.
    fn carry_out(
        &mut self,
        command: JobCommand<J>,
        acts: &mut Vec<Act<S::PendingData>>,
    ) -> Result<(), AllocError>
        ensures { IfOk result (λ _. Carries ⟦<S as StatesJobs<J>>⟧.jobs
            (self.old.server, map (act_view S.PendingData.eq) acts.old.items) «command»
            (self.new.server, map (act_view S.PendingData.eq) acts.new.items)) }
    {
        match command {
            JobCommand::Start(key, job) => self.run_job(JobName::Keyed(key), job, acts),
            JobCommand::StartAfter(key, _, job) => self.run_job(JobName::Keyed(key), job, acts),
            JobCommand::Stop(key) => {
                drop(key);
                Ok(())
            }
        }
    }

    /// Carries out commands of the server, in order.
    fn carry_out_all(
        &mut self,
        commands: Vec<JobCommand<J>>,
        acts: &mut Vec<Act<S::PendingData>>,
    ) -> Result<(), AllocError>
        ensures { IfOk result (λ _. FoldsTo (Carries ⟦<S as StatesJobs<J>>⟧.jobs)
            (self.old.server, map (act_view S.PendingData.eq) acts.old.items) commands.items
            (self.new.server, map (act_view S.PendingData.eq) acts.new.items)) }
    {
        for command in commands {
            self.carry_out(command, acts)?;
        }
        Ok(())
    }

    /// Asks the server for commands and carries them out. Returns whether there were any.
    fn run_round(&mut self, acts: &mut Vec<Act<S::PendingData>>) -> Result<bool, AllocError>
        ensures { IfOk result (λ is_any. (commands : List (Command J)) × Round ⟦<S as StatesJobs<J>>⟧.jobs
            (self.old.server, map (act_view S.PendingData.eq) acts.old.items) commands
            (self.new.server, map (act_view S.PendingData.eq) acts.new.items)
            × (is_any ≡ false → commands ≡ [])) }
    {
        let commands = S::KeyedJobs::take_commands(&mut self.server, self.alloc)?;
        let is_any = !commands.is_empty();
        self.carry_out_all(commands, acts)?;
        Ok(is_any)
    }

    /// Carries out the commands of the server after these acts, until it names none or was asked a hundred times.
    fn settle(
        &mut self,
        acts: Vec<Act<S::PendingData>>,
    ) -> Result<Vec<Act<S::PendingData>>, AllocError>
        ensures { IfOk result (λ all. Settles ⟦<S as StatesJobs<J>>⟧.jobs
            (self.old.server, map (act_view S.PendingData.eq) acts.items)
            (self.new.server, map (act_view S.PendingData.eq) all.items)) }
    {
        let mut acts = acts;
        for _round in 0..MOST_ROUNDS {
            if !self.run_round(&mut acts)? {
                return Ok(acts);
            }
        }
        Ok(acts)
    }

    /// Answers a long request: its job runs, or the server gives the reply in place of a job.
    fn answer_long(&mut self, request: Request) -> Result<Vec<Act<S::PendingData>>, AllocError>
        ensures { IfOk result (λ all. AnswersLong ⟦<S as StatesJobs<J>>⟧.jobs self.old.server request.id
            (string_bytes request.method) (view request.params) (map (act_view S.PendingData.eq) all.items)
            self.new.server) }
    {
        let id = request.id.clone()?;
        match self.server.job(request) {
            Ok(AnsweredBy::Job(job)) => {
                let mut acts = Vec::new(self.alloc);
                self.run_job(JobName::Request(id), job, &mut acts)?;
                self.settle(acts)
            }
            Ok(AnsweredBy::Reply(outcome)) => Act::one(self.alloc, Act::Reply(id, outcome)),
            Err(_) => { Act::one(self.alloc, Act::Reply(id, Err(out_of_memory(self.alloc)?))) }
        }
    }
}

impl<S: JobServer<J> + Drop, J: Job> Server for InlineJobs<S, J> {
    ghost use Rattle.lsp_jobs.specs.Inline.{with_inline_jobs};

    type PendingData = S::PendingData;

    ghost initialize_post = { (with_inline_jobs S.Server ⟦<S as StatesJobs<J>>⟧.jobs).initialize_post };

    ghost initialized_post = { (with_inline_jobs S.Server ⟦<S as StatesJobs<J>>⟧.jobs).initialized_post };

    ghost request_post = { (with_inline_jobs S.Server ⟦<S as StatesJobs<J>>⟧.jobs).request_post };

    ghost notification_post = { (with_inline_jobs S.Server ⟦<S as StatesJobs<J>>⟧.jobs).notification_post };

    ghost response_post = { (with_inline_jobs S.Server ⟦<S as StatesJobs<J>>⟧.jobs).response_post };

    ghost woken_post = { (with_inline_jobs S.Server ⟦<S as StatesJobs<J>>⟧.jobs).woken_post };

    ghost shutdown_post = { (with_inline_jobs S.Server ⟦<S as StatesJobs<J>>⟧.jobs).shutdown_post };

    ghost ids_exhausted_post = { (with_inline_jobs S.Server ⟦<S as StatesJobs<J>>⟧.jobs).ids_exhausted_post };

    fn initialize(&mut self, params: Value) -> Result<Result<Value, ResponseError>, AllocError> {
        self.server.initialize(params)
    }

    fn initialized(&mut self) -> Result<Vec<Act<S::PendingData>>, AllocError> {
        let acts = self.server.initialized()?;
        self.settle(acts)
    }

    fn request(&mut self, request: Request) -> Result<Vec<Act<S::PendingData>>, AllocError> {
        if self.server.is_long(&request) {
            return self.answer_long(request);
        }
        let acts = self.server.request(request)?;
        self.settle(acts)
    }

    fn notification(
        &mut self,
        notification: Notification,
    ) -> Result<Vec<Act<S::PendingData>>, AllocError> {
        let acts = self.server.notification(notification)?;
        self.settle(acts)
    }

    fn response(
        &mut self,
        payload: S::PendingData,
        outcome: Result<Value, ResponseError>,
    ) -> Result<Vec<Act<S::PendingData>>, AllocError> {
        let acts = self.server.response(payload, outcome)?;
        self.settle(acts)
    }

    fn woken(&mut self, alloc: Global) -> Result<Vec<Act<S::PendingData>>, AllocError> {
        Ok(Vec::new(alloc))
    }

    fn shutdown(&mut self, alloc: Global) -> Result<Vec<Act<S::PendingData>>, AllocError> {
        self.server.shutdown(alloc)
    }

    fn ids_exhausted(&mut self, payload: S::PendingData) -> Result<(), AllocError> {
        self.server.ids_exhausted(payload)
    }
}

/// Runs a job. Returns its result, and the notifications that it sent, in order. If one was lost for want of memory, the
/// job ends with `Interrupted::Memory`.
fn perform<W: Picked<J>, J: Job>(
    alloc: Global,
    job: J,
) -> Result<(Result<DoneJob<J::Found>, Interrupted>, Vec<Notification>), AllocError>
    requires { W.job ≡ Some «job» }
    ensures ran { IfOk result (λ done. IfOk done.0 (λ ran.
        J.run_post «job» (option_map outcome_view ran.reply) ran.found)) }
    ensures sent { IfOk result (λ done.
        All (λ n. MayReport J.Job W.job (string_bytes n.method) (view n.params)) done.1.items) }
{
    let mut context: InlineContext<W, J> = InlineContext::new(alloc);
    let (ran, tree) = run_as_text(job, alloc, &mut context);
    drop(tree);
    let has_lost = context.has_lost;
    let sent = context.into_sent()?;
    if has_lost {
        drop(ran);
        return Ok((Err(Interrupted::Memory), sent));
    }
    Ok((ran, sent))
}

/// Adds notifications to the acts of a server, in order.
fn push_notifications<P: Drop + PartialEq>(
    acts: &mut Vec<Act<P>>,
    sent: Vec<Notification>,
) -> Result<(), AllocError>
    ensures { IfOk result (λ _. map (act_view P.eq) acts.new.items
        ≡ map (act_view P.eq) acts.old.items ++ map told sent.items) }
{
    for notification in sent {
        push_notification(acts, notification)?;
    }
    Ok(())
}

/// Adds acts of a server to others, in order.
fn append_acts<P: Drop + PartialEq>(
    acts: &mut Vec<Act<P>>,
    more: Vec<Act<P>>,
) -> Result<(), AllocError>
    ensures { IfOk result (λ _. map (act_view P.eq) acts.new.items
        ≡ map (act_view P.eq) acts.old.items ++ map (act_view P.eq) more.items) }
{
    let mut more = more;
    acts.append(&mut more)
}

/// Adds a notification to the acts of a server.
fn push_notification<P: Drop + PartialEq>(
    acts: &mut Vec<Act<P>>,
    notification: Notification,
) -> Result<(), AllocError>
    ensures { IfOk result (λ _. map (act_view P.eq) acts.new.items
        ≡ map (act_view P.eq) acts.old.items ++ told notification ∷ []) }
{
    acts.push(Act::SendNotification(notification))?;
    Ok(())
}

/// The context of a job that runs on the session's thread: it keeps what the job sends. Contracts see how many
/// notifications these are, and that the job may send each.
#[derive(Drop)]
struct InlineContext<W: Picked<J>, J: Job> {
    of: PhantomData<(W, J)>,
    sent: Vec<Notification>,
    /// What is sent when the job ends.
    last: Option<Notification>,
    /// Whether a notification was lost that the job had to send, since an allocation failed. Then it sends no other.
    has_lost: bool,
}

impl<W: Picked<J>, J: Job> Model for InlineContext<W, J> {
    ghost use Rattle.serde_json.specs.View.{view as tree_of};
    ghost use Rattle.std.specs.List.{All};
    ghost use Rattle.std.specs.Prelude.{IfSome, ℕ, length, string_bytes};
    ghost use Rattle.lsp_jobs.specs.Outcomes.{MayReport};

    ghost Value = { ℕ };

    ghost view = { λ c. length c.sent.items };

    ghost invariant = { λ c. All (λ n. MayReport J.Job W.job (string_bytes n.method) (tree_of n.params)) c.sent.items
        × IfSome c.last (λ n. MayReport J.Job W.job (string_bytes n.method) (tree_of n.params)) };
}

impl<W: Picked<J>, J: Job> InlineContext<W, J> {
    /// Makes a context in which nothing was sent. It does not allocate.
    fn new(alloc: Global) -> InlineContext<W, J> {
        InlineContext {
            of: PhantomData,
            sent: Vec::new(alloc),
            last: None,
            has_lost: false,
        }
    }

    /// Returns what the job sent, and after it the notification that was kept for its end.
    fn into_sent(self) -> Result<Vec<Notification>, AllocError>
        ensures { IfOk result (λ all. All (λ n. MayReport J.Job W.job (string_bytes n.method) (view n.params)) all.items) }
    {
        let InlineContext { sent, last, .. } = self;
        let mut sent = sent;
        if let Some(last) = last {
            sent.push(last)?;
        }
        Ok(sent)
    }
}

impl<W: Picked<J>, J: Job> JobContext for InlineContext<W, J> {
    ghost may = { MayReport J.Job W.job };

    ghost may_send_request = { MayAsk J.Job W.job };

    fn is_cancelled(&self) -> bool {
        false
    }

    fn report(&mut self, notification: Notification) -> bool {
        !self.has_lost && self.sent.push(notification).is_ok()
    }

    fn send(&mut self, notification: Notification) -> bool {
        let is_sent = self.report(notification);
        if !is_sent {
            self.has_lost = true;
            self.last = None;
        }
        is_sent
    }

    fn at_end(&mut self, last: Option<Notification>) {
        self.last = last;
    }
}
