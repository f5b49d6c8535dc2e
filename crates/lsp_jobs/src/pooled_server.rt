// A server at its pool of jobs: what it does when a message or the message of a job comes.
ghost use Rattle.std.specs.Prelude.{◌≡◌, ◌⊎◌, ◌∷◌, ◌++◌, [], ℕ, List, None, Err, Ok, map, IfOk, string_bytes};
ghost use Rattle.serde_json.specs.Data.{Data};
ghost use Rattle.serde_json.specs.View.{view};
ghost use Rattle.std.specs.List.{FoldsTo};
ghost use Rattle.lsp_message.specs.ErrorCode.{number_of};
ghost use Rattle.lsp_message.specs.View.{error_view, outcome_view};
ghost use Rattle.lsp_message.specs.declared.msg.code.ErrorCode.TheVariants.{InternalError as CodeOfInternal};
ghost use Rattle.lsp_acts.specs.Acts.{canceled, cancelled_by, replies};
ghost use Rattle.lsp_acts.specs.View.{act_view};
ghost use Rattle.lsp_jobs.specs.Asking.{by_server, same_origin, ByServers};
ghost use Rattle.lsp_jobs.specs.Ends.{end_of, ended, no_memory, too_many};
ghost use Rattle.lsp_jobs.specs.PendingJobs.{with_job, without};
ghost use Rattle.lsp_jobs.specs.PoolView.{came_view, pending_jobs};
ghost use Rattle.lsp_jobs.specs.Pooled.{reply_at, reply_with, unanswered, without_cancelled, Changes, ChangesJobs, Ends, EndsThen, EndsWithReply, Frees, IsAtOnce, Replaces, StartsOne, TakesLong};
ghost use Rattle.lsp_jobs.specs.ServerView.{AnsweredSo};
ghost use Rattle.lsp_jobs.specs.declared.names.JobName.TheVariants.{Request as OfRequest};
ghost use Rattle.lsp_jobs.specs.Seen.{seen, seen_with};
ghost use Rattle.lsp_jobs.specs.Stated.{SeesEnd};

use crate::asking::RequestOrigin;
use crate::job::{DoneJob, Interrupted, Job};
use crate::job_server::{AnsweredBy, JobCommand, JobEnd, JobServer, KeyedJobs, StatesJobs};
use crate::names::{JobKey, JobName};
use crate::pool::{JobMessage, JobPool};
use lsp_acts::{Act, Server, cancelled_id};
use lsp_message::{ErrorCode, Notification, Request, RequestId, ResponseError, ResultText};
use serde_json::Value;
use std::alloc::{AllocError, Global};
use std::sync::Wait;
use std::time::{Clock, Duration};

/// A server with the pool that runs its jobs. Contracts see the server, and the pending job under each name.
#[derive(Drop)]
pub struct PooledServer<T: Wait + Drop, S: Drop, J: Job> {
    alloc: Global,
    server: S,
    pool: JobPool<T, J>,
}

impl<T: Wait + Drop, S: Drop, J: Job> PooledServer<T, S, J> {
    /// Makes a server with a pool that was started.
    pub(crate) fn new(alloc: Global, server: S, pool: JobPool<T, J>) -> Self
        ensures { seen result ≡ (server, pending_jobs pool) }
    {
        PooledServer {
            alloc,
            server,
            pool,
        }
    }

    /// Returns the server and its pool.
    pub(crate) fn into_parts(self) -> (S, JobPool<T, J>)
        ensures { result.0 ≡ self.server }
    {
        let PooledServer { server, pool, .. } = self;
        (server, pool)
    }

    /// Forgets the job of a request that a notification cancels.
    fn forget_cancelled(&mut self, notification: &Notification) -> Result<(), AllocError>
        ensures { IfOk result (λ _. seen self.new ≡ (
          self.old.server,
          without_cancelled
              (cancelled_by (string_bytes notification.now.method) (view notification.now.params))
              (pending_jobs self.old.pool),
        )) }
    {
        if let Some(id) = cancelled_id(notification)? {
            self.pool.cancel_request(&id);
        }
        Ok(())
    }

    /// Makes the job end whose progress a notification cancels (LSP 3.17, "Canceling Work Done Progress"). The job
    /// decides its result.
    fn stop_progress(&self, notification: &Notification) -> Result<(), AllocError> {
        if notification.method.as_str() != "window/workDoneProgress/cancel" {
            return Ok(());
        }
        if let Some(token) = notification.params.get("token") {
            if let Some(token) = RequestId::from_value(token)? {
                self.pool.cancel_progress(&token);
            }
        }
        Ok(())
    }

    /// Forgets the jobs of requests that the server answers itself.
    fn forget_answered<P: Drop + PartialEq>(&mut self, acts: &[Act<P>])
        ensures { seen self.new
            ≡ (self.old.server, unanswered (map (act_view P.eq) acts.now) (pending_jobs self.old.pool)) }
    {
        for act in acts {
            self.forget_if_answered(act);
        }
    }

    /// Forgets the job of a request that this act answers.
    fn forget_if_answered<P: Drop + PartialEq>(&mut self, act: &Act<P>)
        ensures { seen self.new
            ≡ (self.old.server, unanswered (act_view P.eq act.now ∷ []) (pending_jobs self.old.pool)) }
    {
        match act {
            Act::Reply(id, _) => self.pool.cancel_request(id),
            Act::ReplyText(id, _) => self.pool.cancel_request(id),
            _ => (),
        }
    }
}

impl<T, S, J> PooledServer<T, S, J>
where
    T: Wait + Clock + Drop,
    S: JobServer<J> + Drop,
    J: Job,
{
    /// Ends the job with this name, which has this result. If it is for a request, that is answered after the acts of
    /// the server at the job's end.
    fn end_run(
        &mut self,
        name: JobName,
        ran: Result<DoneJob<J::Found>, Interrupted>,
    ) -> Result<Vec<Act<S::PendingData>>, AllocError>
        ensures { IfOk result (λ acts.
            Ends ⟦<S as StatesJobs<J>>⟧.jobs name (end_of (came_view «ran»)) (reply_at name (came_view «ran»))
            (seen self.old) (map (act_view S.PendingData.eq) acts.items) (seen self.new)) }
    {
        let acts = end_job(&mut self.server, name, ran, self.alloc)?;
        self.forget_answered(&acts);
        Ok(acts)
    }

    /// Ends the job with this name, after these acts.
    fn end_then(
        &mut self,
        name: &JobName,
        end: JobEnd,
        acts: &mut Vec<Act<S::PendingData>>,
    ) -> Result<(), AllocError>
        ensures { IfOk result (λ _. EndsThen ⟦<S as StatesJobs<J>>⟧.jobs name.now (ended end)
            (seen_with S.PendingData.eq self.old acts.old.items) (seen_with S.PendingData.eq self.new acts.new.items)) }
    {
        let mut more = S::KeyedJobs::ended(&mut self.server, name, end, self.alloc)?;
        self.forget_answered(&more);
        acts.append(&mut more)
    }

    /// Starts the job of a long request, or answers it at once.
    fn take_long(
        &mut self,
        request: Request,
    ) -> Result<Vec<Act<RequestOrigin<S::PendingData>>>, AllocError>
        requires { pending_jobs self.old.pool (OfRequest request.id) ≡ None }
        ensures { IfOk result (λ all. TakesLong ⟦<S as StatesJobs<J>>⟧.jobs (seen self.old) request.id
            (string_bytes request.method) (view request.params)
            (map (act_view (same_origin S.PendingData.eq)) all.items) (seen self.new)) }
    {
        let id = request.id.clone()?;
        match self.answer_to(request)? {
            AnsweredBy::Job(job) => self.start_for(id, job),
            AnsweredBy::Reply(outcome) => Act::one(self.alloc, Act::Reply(id, outcome)),
        }
    }

    /// Returns how a long request is answered, if there is room for a job and memory to make it. Otherwise the reply
    /// says which is missing.
    fn answer_to(&self, request: Request) -> Result<AnsweredBy<J>, AllocError>
        ensures { IfOk result (λ by. AnsweredSo by
            (λ job. J.is_for job (string_bytes request.method) (view request.params)
            × S.JobServer.job_post self.now.server request.id (string_bytes request.method)
            (view request.params) job)
            (λ outcome. IsAtOnce ⟦<S as StatesJobs<J>>⟧.jobs self.now.server request.id
            (string_bytes request.method) (view request.params) outcome)) }
    {
        if !self.pool.has_room() {
            drop(request);
            return Ok(AnsweredBy::Reply(Err(refusal(self.alloc)?)));
        }
        self.pool.record_params(&request.params);
        match self.server.job(request) {
            Ok(by) => Ok(by),
            Err(_) => Ok(AnsweredBy::Reply(Err(out_of_memory(self.alloc)?))),
        }
    }

    /// Starts the job of a request. If an allocation fails, the reply says so.
    fn start_for(
        &mut self,
        id: RequestId,
        job: J,
    ) -> Result<Vec<Act<RequestOrigin<S::PendingData>>>, AllocError>
        ensures { IfOk result (λ all.
            ((map (act_view (same_origin S.PendingData.eq)) all.items ≡ []) × (seen self.new ≡ (
              self.old.server,
              with_job (OfRequest id) «job» (pending_jobs self.old.pool),
            )))
            ⊎ ((map (act_view (same_origin S.PendingData.eq)) all.items ≡ replies id (Err no_memory) ∷ []) × (seen self.new ≡ (
              self.old.server,
              without (OfRequest id) (pending_jobs self.old.pool),
            )))) }
    {
        let mut acts = Vec::new(self.alloc);
        match self
            .pool
            .hand_over(JobName::Request(id), job, Duration::ZERO)
        {
            Ok(()) => Ok(acts),
            Err(name) => {
                push_reply(&mut acts, name, Err(out_of_memory(self.alloc)?))?;
                Ok(acts)
            }
        }
    }

    /// Returns the acts of the server, and after them those of `change_jobs`.
    fn acts_with_changes(
        &mut self,
        acts: Vec<Act<S::PendingData>>,
    ) -> Result<Vec<Act<RequestOrigin<S::PendingData>>>, AllocError>
        ensures { IfOk result (λ all. ByServers (λ own.
            ChangesJobs ⟦<S as StatesJobs<J>>⟧.jobs (seen self.old) (map (act_view S.PendingData.eq) acts.items) own
            (seen self.new)) (map (act_view (same_origin S.PendingData.eq)) all.items)) }
    {
        let all = self.change_jobs(acts)?;
        acts_by_server(self.alloc, all)
    }

    /// Starts and stops the jobs that the server names now, after these acts. The acts at the end of a job follow them.
    fn change_jobs(
        &mut self,
        acts: Vec<Act<S::PendingData>>,
    ) -> Result<Vec<Act<S::PendingData>>, AllocError>
        ensures { IfOk result (λ all.
            ChangesJobs ⟦<S as StatesJobs<J>>⟧.jobs (seen self.old) (map (act_view S.PendingData.eq) acts.items)
            (map (act_view S.PendingData.eq) all.items) (seen self.new)) }
    {
        self.forget_answered(&acts);
        let changes = S::KeyedJobs::take_commands(&mut self.server, self.alloc)?;
        self.change_all(changes, acts)
    }

    /// Starts and stops jobs under keys, in order.
    fn change_all(
        &mut self,
        changes: Vec<JobCommand<J>>,
        acts: Vec<Act<S::PendingData>>,
    ) -> Result<Vec<Act<S::PendingData>>, AllocError>
        ensures { IfOk result (λ all.
            FoldsTo (Changes ⟦<S as StatesJobs<J>>⟧.jobs)
            (seen_with S.PendingData.eq self.old acts.items) changes.items (seen_with S.PendingData.eq self.new all.items)) }
    {
        let mut acts = acts;
        for change in changes {
            self.change(change, &mut acts)?;
        }
        Ok(acts)
    }

    /// Starts or stops the job under a key.
    fn change(
        &mut self,
        change: JobCommand<J>,
        acts: &mut Vec<Act<S::PendingData>>,
    ) -> Result<(), AllocError>
        ensures { IfOk result (λ _. Changes ⟦<S as StatesJobs<J>>⟧.jobs
            (seen_with S.PendingData.eq self.old acts.old.items) «change»
            (seen_with S.PendingData.eq self.new acts.new.items)) }
    {
        match change {
            JobCommand::Start(key, job) => self.replace(key, job, Duration::ZERO, acts),
            JobCommand::StartAfter(key, time, job) => self.replace(key, job, time, acts),
            JobCommand::Stop(key) => self.free(&JobName::Keyed(key), JobEnd::Stopped, acts),
        }
    }

    /// Starts a job under a key after this time, in place of the one that is there.
    fn replace(
        &mut self,
        key: JobKey,
        job: J,
        time: Duration,
        acts: &mut Vec<Act<S::PendingData>>,
    ) -> Result<(), AllocError>
        ensures { IfOk result (λ _. Replaces ⟦<S as StatesJobs<J>>⟧.jobs key «job»
            (seen_with S.PendingData.eq self.old acts.old.items) (seen_with S.PendingData.eq self.new acts.new.items)) }
    {
        let name = JobName::Keyed(key);
        self.free(&name, JobEnd::Replaced, acts)?;
        self.start_one(name, job, time, acts)
    }

    /// Ends the job with this name, if there is one.
    fn free(
        &mut self,
        name: &JobName,
        end: JobEnd,
        acts: &mut Vec<Act<S::PendingData>>,
    ) -> Result<(), AllocError>
        ensures { IfOk result (λ _. Frees ⟦<S as StatesJobs<J>>⟧.jobs name.now (ended end)
            (seen_with S.PendingData.eq self.old acts.old.items) (seen_with S.PendingData.eq self.new acts.new.items)) }
    {
        if self.pool.cancel(name) {
            return self.end_then(name, end, acts);
        }
        Ok(())
    }

    /// Starts a job under a name that none has, after this time. If too many wait and run, it ends.
    fn start_one(
        &mut self,
        name: JobName,
        job: J,
        time: Duration,
        acts: &mut Vec<Act<S::PendingData>>,
    ) -> Result<(), AllocError>
        ensures { IfOk result (λ _.
            StartsOne ⟦<S as StatesJobs<J>>⟧.jobs name «job»
            (seen_with S.PendingData.eq self.old acts.old.items) (seen_with S.PendingData.eq self.new acts.new.items)) }
    {
        self.pool.cancel(&name);
        if !self.pool.has_room_for(&name) {
            drop(job);
            return self.end_then(&name, JobEnd::Refused, acts);
        }
        match self.pool.hand_over(name, job, time) {
            Ok(()) => Ok(()),
            Err(name) => {
                drop(name);
                Err(AllocError)
            }
        }
    }
}

/// Notifies a server how the job with this name ended, which has this result. Returns the acts of the server, and after
/// them the reply to the job's request.
pub(crate) fn end_job<S: JobServer<J>, J: Job>(
    server: &mut S,
    name: JobName,
    ran: Result<DoneJob<J::Found>, Interrupted>,
    alloc: Global,
) -> Result<Vec<Act<S::PendingData>>, AllocError>
    ensures { IfOk result (λ acts. EndsWithReply ⟦<S as StatesJobs<J>>⟧.jobs name (came_view «ran») server.old
        (map (act_view S.PendingData.eq) acts.items) server.new) }
{
    match ran {
        Ok(done) => end_done(server, name, done, alloc),
        Err(Interrupted::Memory) => {
            let error = out_of_memory(alloc)?;
            end_failed(server, name, JobEnd::Failed, error, alloc)
        }
        Err(Interrupted::Cancelled) => {
            let error = canceled_error(alloc)?;
            end_failed(server, name, JobEnd::Cancelled, error, alloc)
        }
    }
}

/// Does what `end_job` does for a job whose work is done.
fn end_done<S: JobServer<J>, J: Job>(
    server: &mut S,
    name: JobName,
    done: DoneJob<J::Found>,
    alloc: Global,
) -> Result<Vec<Act<S::PendingData>>, AllocError>
    ensures { IfOk result (λ acts. EndsWithReply ⟦<S as StatesJobs<J>>⟧.jobs name (came_view (Ok «done»)) server.old
        (map (act_view S.PendingData.eq) acts.items) server.new) }
{
    let DoneJob { reply, found } = done;
    let outcome = match reply {
        Some(outcome) => outcome,
        None => Err(internal_error(alloc, "no result")?),
    };
    let mut acts = match found {
        Some(found) => S::KeyedJobs::found(server, &name, found, alloc)?,
        None => S::KeyedJobs::ended(server, &name, JobEnd::Done, alloc)?,
    };
    push_reply(&mut acts, name, outcome)?;
    Ok(acts)
}

/// Does what `end_job` does for a job that has no result, and whose request gets this error.
fn end_failed<S: JobServer<J>, J: Job>(
    server: &mut S,
    name: JobName,
    end: JobEnd,
    error: ResponseError,
    alloc: Global,
) -> Result<Vec<Act<S::PendingData>>, AllocError>
    ensures { IfOk result (λ acts. (first : List _)
        × SeesEnd ⟦<S as StatesJobs<J>>⟧.jobs server.old name (ended end) first server.new
        × (map (act_view S.PendingData.eq) acts.items ≡ first ++ reply_with name (Err (error_view error)))) }
{
    let mut acts = S::KeyedJobs::ended(server, &name, end, alloc)?;
    push_reply(&mut acts, name, Err(error))?;
    Ok(acts)
}

/// Adds the reply to the request of a job. A job under a key has none.
pub(crate) fn push_reply<P: Drop + PartialEq>(
    acts: &mut Vec<Act<P>>,
    name: JobName,
    outcome: Result<ResultText, ResponseError>,
) -> Result<(), AllocError>
    ensures { IfOk result (λ _. map (act_view P.eq) acts.new.items
        ≡ map (act_view P.eq) acts.old.items ++ reply_with name (outcome_view outcome)) }
{
    match name {
        JobName::Request(id) => {
            acts.push(Act::reply_outcome(id, outcome))?;
            Ok(())
        }
        JobName::Keyed(key) => {
            drop((key, outcome));
            Ok(())
        }
    }
}

/// Makes the error for a request for whose job there is no room.
fn refusal(alloc: Global) -> Result<ResponseError, AllocError>
    ensures { IfOk result (λ error. error_view error ≡ too_many) }
{
    ResponseError::new(
        alloc,
        ErrorCode::RequestFailed,
        "too many requests are waiting",
    )
}

/// Makes the error for a request where an allocation failed.
pub(crate) fn out_of_memory(alloc: Global) -> Result<ResponseError, AllocError>
    ensures { IfOk result (λ error. error_view error ≡ no_memory) }
{
    internal_error(alloc, "out of memory")
}

/// Makes an internal error of the server.
fn internal_error(alloc: Global, message: &str) -> Result<ResponseError, AllocError>
    ensures { IfOk result (λ error. error_view error
        ≡ record { code = number_of CodeOfInternal; message = message.now; details = None }) }
{
    ResponseError::new(alloc, ErrorCode::InternalError, message)
}

/// Makes the error for a request that its client cancelled.
fn canceled_error(alloc: Global) -> Result<ResponseError, AllocError>
    ensures { IfOk result (λ error. error_view error ≡ canceled) }
{
    ResponseError::new(alloc, ErrorCode::RequestCanceled, "canceled by client")
}

/// Turns acts of the server into acts of the session, which keeps the server's payloads for the replies.
fn acts_by_server<P: Drop + PartialEq>(
    alloc: Global,
    acts: Vec<Act<P>>,
) -> Result<Vec<Act<RequestOrigin<P>>>, AllocError>
    ensures { IfOk result (λ all.
        map (act_view (same_origin P.eq)) all.items
        ≡ map by_server (map (act_view P.eq) acts.items)) }
{
    acts.into_iter().map(act_by_server).collect(alloc)
}

/// Turns an act of the server into one of the session.
fn act_by_server<P: Drop + PartialEq>(act: Act<P>) -> Act<RequestOrigin<P>>
    ensures { act_view (same_origin P.eq) result ≡ by_server (act_view P.eq «act») }
{
    match act {
        Act::SendNotification(notification) => Act::SendNotification(notification),
        Act::SendRequest(method, params, payload) => Act::SendRequest(
            method,
            params,
            RequestOrigin::ByServer(payload),
        ),
        Act::Reply(id, outcome) => Act::Reply(id, outcome),
        Act::ReplyText(id, text) => Act::ReplyText(id, text),
        Act::Cancel(payload) => Act::Cancel(RequestOrigin::ByServer(payload)),
    }
}

impl<T, S, J> Server for PooledServer<T, S, J>
where
    T: Wait + Clock + Drop,
    S: JobServer<J> + Drop,
    J: Job,
{
    ghost use Rattle.lsp_jobs.specs.JobSession.{seen_with_jobs};

    type PendingData = RequestOrigin<S::PendingData>;

    ghost initialize_post = { (seen_with_jobs T S.Server ⟦<S as StatesJobs<J>>⟧.jobs).initialize_post };

    ghost initialized_post = { (seen_with_jobs T S.Server ⟦<S as StatesJobs<J>>⟧.jobs).initialized_post };

    ghost request_post = { (seen_with_jobs T S.Server ⟦<S as StatesJobs<J>>⟧.jobs).request_post };

    ghost notification_post = { (seen_with_jobs T S.Server ⟦<S as StatesJobs<J>>⟧.jobs).notification_post };

    ghost response_post = { (seen_with_jobs T S.Server ⟦<S as StatesJobs<J>>⟧.jobs).response_post };

    ghost woken_post = { (seen_with_jobs T S.Server ⟦<S as StatesJobs<J>>⟧.jobs).woken_post };

    ghost shutdown_post = { (seen_with_jobs T S.Server ⟦<S as StatesJobs<J>>⟧.jobs).shutdown_post };

    ghost ids_exhausted_post = { (seen_with_jobs T S.Server ⟦<S as StatesJobs<J>>⟧.jobs).ids_exhausted_post };

    fn initialize(&mut self, params: Value) -> Result<Result<Value, ResponseError>, AllocError> {
        self.server.initialize(params)
    }

    fn initialized(&mut self) -> Result<Vec<Act<RequestOrigin<S::PendingData>>>, AllocError> {
        let acts = self.server.initialized()?;
        self.acts_with_changes(acts)
    }

    fn request(
        &mut self,
        request: Request,
    ) -> Result<Vec<Act<RequestOrigin<S::PendingData>>>, AllocError> {
        self.pool.cancel_request(&request.id);
        if self.server.is_long(&request) {
            return self.take_long(request);
        }
        let acts = self.server.request(request)?;
        self.acts_with_changes(acts)
    }

    fn notification(
        &mut self,
        notification: Notification,
    ) -> Result<Vec<Act<RequestOrigin<S::PendingData>>>, AllocError> {
        self.forget_cancelled(&notification)?;
        self.stop_progress(&notification)?;
        let acts = self.server.notification(notification)?;
        self.acts_with_changes(acts)
    }

    fn response(
        &mut self,
        payload: RequestOrigin<S::PendingData>,
        outcome: Result<Value, ResponseError>,
    ) -> Result<Vec<Act<RequestOrigin<S::PendingData>>>, AllocError> {
        match payload {
            RequestOrigin::ByServer(payload) => {
                let acts = self.server.response(payload, outcome)?;
                self.acts_with_changes(acts)
            }
            RequestOrigin::ByJob(number) => {
                self.pool.reply(number, outcome);
                Ok(Vec::new(self.alloc))
            }
        }
    }

    fn woken(
        &mut self,
        alloc: Global,
    ) -> Result<Vec<Act<RequestOrigin<S::PendingData>>>, AllocError> {
        if let Some(number) = self.pool.take_request_to_cancel() {
            return Act::one(alloc, Act::Cancel(RequestOrigin::ByJob(number)));
        }
        let Some(said) = self.pool.take_message() else {
            return Ok(Vec::new(alloc));
        };
        let (name, message) = said;
        match message {
            JobMessage::Report(notification) => Act::one(
                alloc,
                Act::SendNotification(notification),
            ),
            JobMessage::Ask(method, params, number) => {
                Act::one(
                    alloc,
                    Act::SendRequest(method, params, RequestOrigin::ByJob(number)),
                )
            }
            JobMessage::Ran(ran) => {
                let acts = self.end_run(name, ran)?;
                self.acts_with_changes(acts)
            }
        }
    }

    fn shutdown(
        &mut self,
        alloc: Global,
    ) -> Result<Vec<Act<RequestOrigin<S::PendingData>>>, AllocError> {
        self.pool.cancel_all();
        let acts = self.server.shutdown(alloc)?;
        acts_by_server(self.alloc, acts)
    }

    fn ids_exhausted(&mut self, payload: RequestOrigin<S::PendingData>) -> Result<(), AllocError> {
        match payload {
            RequestOrigin::ByServer(payload) => self.server.ids_exhausted(payload),
            RequestOrigin::ByJob(number) => {
                self.pool.abandon(number);
                Ok(())
            }
        }
    }
}
