// The handler of all rows, and their server: it speaks, asks, and starts jobs.
use crate::jobs::{Found, Means, Scripted, list_of, own_key};
use crate::signals::{Signal, Signals};
use lsp_acts::{Act, Server};
use lsp_jobs::{AnsweredBy, JobCommand, JobEnd, JobKey, JobName, JobServer, KeyedJobs};
use lsp_message::{Notification, Request, RequestId, ResponseError};
use lsp_session::{Handler, initialize_result};
use serde_json::{Map, Value};
use std::alloc::{AllocError, Global};
use std::fmt::Write;
use std::mem;
use std::sync::Arc;
use std::sync::atomic::{AtomicU64, Ordering};
use std::time::Duration;

/// Answers `demo/echo` with its params, and knows no other method.
#[derive(Drop)]
pub struct Echo {
    pub alloc: Global,
    pub signals: Arc<Signals>,
    /// Whether it waits with an answer until the reader reached its second pause.
    pub is_gated: bool,
    /// How many messages have to be written before it refuses a request.
    pub awaited: u64,
}

impl Handler for Echo {
    fn answer(&mut self, request: &Request) -> Result<Result<Value, ResponseError>, AllocError> {
        self.signals.tell(Signal::Requests);
        if self.is_gated && self.signals.wait(Signal::Pauses, 2).is_err() {
            return Ok(Ok(Value::Null));
        }
        if request.method.as_str() != "demo/echo" {
            let _ = self.signals.wait(Signal::Messages, self.awaited);
            return Ok(Err(ResponseError::method_not_found(self.alloc)?));
        }
        match request.params.clone() {
            Ok(params) => Ok(Ok(params)),
            Err(error) => Err(error),
        }
    }

    fn note(&mut self, _notification: &Notification) -> Result<(), AllocError> {
        Ok(())
    }
}

/// Why the server sent its client a request.
#[derive(Drop, PartialEq)]
pub enum Asked {
    /// To answer this request with the reply.
    For(RequestId),
    /// For the configuration, the number of this question, from 1.
    Configuration(u64),
}

/// Notifies its client, sends it requests, answers late, and starts jobs.
///
/// - It sends `demo/hello` first, and asks for the configuration.
/// - It answers `demo/echo` with its params. At `demo/ask` it sends its client `demo/asked`, and answers with the
///   reply. It keeps `demo/hold` until the next notification. It knows no other method except two:
/// - `job SCRIPT` gives a job with this script (`jobs.rt`), whose value is the params. `later SCRIPT` is one that it
///   starts under a key at the notification `start`, and whose result it returns as the reply. Jobs have numbers, from 1.
/// - `long known` is answered at once with its params, where a job might run. For the job of `long unmade` there is no
///   memory.
/// - The notification `job SCRIPT` starts a job under the key `own`, whose result it publishes; `stop` stops it. With
///   `soon SCRIPT` the job starts after a millisecond, and with `hour SCRIPT` after an hour. At `answer`
///   it answers the request whose id is the first of the params itself. At `withdraw` it cancels the request that it
///   sent for that request. At one whose method begins with `$/` or `window/` it does nothing.
/// - At another notification it sends its params to the client, asks for the configuration, and answers the requests
///   that it keeps. At a wake-up it sends `demo/woken`, and answers these too, if `tells_wakes` is set.
/// - At a reply with the configuration it sends the number of the question.
/// - If a job under a key found no room, it sends the key's name.
#[derive(Drop)]
pub struct Talker {
    alloc: Global,
    signals: Arc<Signals>,
    questions: u64,
    held: Vec<RequestId>,
    /// Whether it does something at a wake-up.
    pub tells_wakes: bool,
    numbered: AtomicU64,
    changes: Vec<Change>,
    later: Vec<Change>,
    /// The requests that jobs under keys answer, each with the number of its job.
    kept: Vec<(RequestId, u64)>,
    /// The names of the jobs whose end it saw, each after a space, with the number that the job found or how it ended.
    pub finished: String,
}

/// Returns the first id in these params.
fn first_of(params: &Value) -> Result<Option<RequestId>, AllocError> {
    match params.get(0) {
        Some(value) => RequestId::from_value(value),
        None => Ok(None),
    }
}

type Acts = Vec<Act<Asked>>;

type Change = JobCommand<Scripted>;

impl Talker {
    /// Makes a server that has received nothing.
    pub fn new(alloc: Global, signals: Arc<Signals>) -> Talker {
        Talker {
            alloc,
            signals,
            questions: 0,
            held: Vec::new(alloc),
            tells_wakes: false,
            numbered: AtomicU64::new(0),
            changes: Vec::new(alloc),
            later: Vec::new(alloc),
            kept: Vec::new(alloc),
            finished: String::new(alloc),
        }
    }

    fn one(&self, act: Act<Asked>) -> Result<Acts, AllocError> {
        let mut acts = Vec::new(self.alloc);
        acts.push(act)?;
        Ok(acts)
    }

    fn tell(&self, method: &str, params: Value) -> Result<Acts, AllocError> {
        match String::from_str(self.alloc, method) {
            Ok(method) => self.one(Act::SendNotification(Notification { method, params })),
            Err(error) => {
                drop(params);
                Err(error)
            }
        }
    }

    /// Adds the question for the configuration after these acts.
    fn ask_configuration(&mut self, acts: &mut Acts) -> Result<(), AllocError> {
        self.questions = self.questions.saturating_add(1);
        let method = String::from_str(self.alloc, "workspace/configuration")?;
        acts.push(Act::SendRequest(method, Value::Null, Asked::Configuration(self.questions)))?;
        Ok(())
    }

    /// Sends its client a request, to answer this request with the reply.
    fn ask(&self, id: RequestId, params: Value) -> Result<Acts, AllocError> {
        match String::from_str(self.alloc, "demo/asked") {
            Ok(method) => self.one(Act::SendRequest(method, params, Asked::For(id))),
            Err(error) => {
                drop(params);
                drop(id);
                Err(error)
            }
        }
    }

    fn refuse(&self, id: RequestId) -> Result<Acts, AllocError> {
        match Act::method_not_found(self.alloc, id) {
            Ok(act) => self.one(act),
            Err(error) => Err(error),
        }
    }

    /// A job with this script and the next number.
    fn job_of(&self, script: &str, value: Value, is_keyed: bool) -> Result<Scripted, AllocError> {
        let number = self.numbered.fetch_add(1, Ordering::SeqCst).wrapping_add(1);
        match Means::of(self.alloc, &self.signals, script, &value) {
            Ok(means) => Ok(Scripted {
                alloc: self.alloc,
                means,
                value,
                number,
                is_keyed,
            }),
            Err(error) => {
                drop(value);
                Err(error)
            }
        }
    }

    /// Keeps the job of a request `later SCRIPT`.
    fn keep_job(&mut self, id: RequestId, script: &str, params: Value) -> Result<Acts, AllocError> {
        let job = match self.job_of(script, params, true) {
            Ok(job) => job,
            Err(error) => {
                drop(id);
                return Err(error);
            }
        };
        let name = format!(in self.alloc; "later {id}")?;
        let number = job.number;
        self.later.push(JobCommand::Start(JobKey::from(name), job))?;
        self.kept.push((id, number))?;
        Ok(Vec::new(self.alloc))
    }

    /// Starts a job under the key `own`.
    fn start_job(&mut self, script: &str, params: Value) -> Result<Acts, AllocError> {
        let job = self.job_of(script, params, true)?;
        self.changes
            .push(JobCommand::Start(own_key(self.alloc)?, job))?;
        Ok(Vec::new(self.alloc))
    }

    /// Starts a job under the key `own` after this time.
    fn start_later(
        &mut self,
        script: &str,
        time: Duration,
        params: Value,
    ) -> Result<Acts, AllocError> {
        let job = self.job_of(script, params, true)?;
        self.changes
            .push(JobCommand::StartAfter(own_key(self.alloc)?, time, job))?;
        Ok(Vec::new(self.alloc))
    }

    /// Handles a notification whose name says nothing else: it may start a job, and otherwise sends the params.
    fn note(&mut self, method: &str, params: Value) -> Result<Acts, AllocError> {
        if let Some(script) = method.strip_prefix("job ") {
            return self.start_job(script, params);
        }
        if let Some(script) = method.strip_prefix("soon ") {
            return self.start_later(script, Duration::from_millis(1), params);
        }
        if let Some(script) = method.strip_prefix("hour ") {
            return self.start_later(script, Duration::from_secs(3600), params);
        }
        if method.starts_with("$/") || method.starts_with("window/") {
            drop(params);
            return Ok(Vec::new(self.alloc));
        }
        self.push(params)
    }

    /// Cancels the request that it sent for the request whose id is the first in these params.
    fn withdraw_first(&self, params: &Value) -> Result<Acts, AllocError> {
        match first_of(params)? {
            Some(id) => self.one(Act::Cancel(Asked::For(id))),
            None => Ok(Vec::new(self.alloc)),
        }
    }

    /// Answers the request whose id is the first in these params.
    fn answer_first(&self, params: &Value) -> Result<Acts, AllocError> {
        match first_of(params)? {
            Some(id) => {
                let text = String::from_str(self.alloc, "by the server")?;
                self.one(Act::Reply(id, Ok(Value::String(text))))
            }
            None => Ok(Vec::new(self.alloc)),
        }
    }

    /// Handles what a job under a key found: it answers the request for which it kept the job, or publishes it.
    fn show(&mut self, number: u64, value: Value) -> Result<Acts, AllocError> {
        match self.kept_for(number) {
            Some(id) => self.one(Act::Reply(id, Ok(value))),
            None => self.tell("published", value),
        }
    }

    /// The request that this job answers, if it is one that was kept.
    fn kept_for(&mut self, number: u64) -> Option<RequestId> {
        let at = self.kept.iter().position(|kept| kept.1 == number)?;
        let (id, _) = self.kept.swap_remove(at);
        Some(id)
    }

    /// Sends these params, asks for the configuration, and answers the requests that it keeps.
    fn push(&mut self, params: Value) -> Result<Acts, AllocError> {
        let mut acts = self.tell("demo/pushed", params)?;
        self.ask_configuration(&mut acts)?;
        self.release(acts)
    }

    /// Returns these acts, and the answers to the requests that it keeps.
    fn release(&mut self, mut acts: Acts) -> Result<Acts, AllocError> {
        for id in mem::replace(&mut self.held, Vec::new(self.alloc)) {
            acts.push(Act::Reply(id, Ok(Value::Null)))?;
        }
        Ok(acts)
    }
}

impl Server for Talker {
    ghost use Rattle.std.specs.Prelude.{⊤};

    ghost woken_post = { λ _ _ _. ⊤ };

    type PendingData = Asked;

    fn initialize(&mut self, params: Value) -> Result<Result<Value, ResponseError>, AllocError> {
        drop(params);
        let none = Value::Object(Map::new(self.alloc));
        Ok(Ok(initialize_result(self.alloc, none)?))
    }

    fn initialized(&mut self) -> Result<Acts, AllocError> {
        let mut acts = self.tell("demo/hello", Value::Object(Map::new(self.alloc)))?;
        self.ask_configuration(&mut acts)?;
        Ok(acts)
    }

    fn request(&mut self, request: Request) -> Result<Acts, AllocError> {
        let Request { id, method, params } = request;
        if let Some(script) = method.as_str().strip_prefix("later ") {
            return self.keep_job(id, script, params);
        }
        match method.as_str() {
            "demo/echo" => self.one(Act::Reply(id, Ok(params))),
            "demo/ask" => self.ask(id, params),
            "demo/hold" => {
                drop(params);
                self.held.push(id)?;
                Ok(Vec::new(self.alloc))
            }
            _ => {
                drop(params);
                self.refuse(id)
            }
        }
    }

    fn notification(&mut self, notification: Notification) -> Result<Acts, AllocError> {
        let Notification { method, params } = notification;
        match method.as_str() {
            "start" => {
                drop(params);
                self.changes = mem::replace(&mut self.later, Vec::new(self.alloc));
                Ok(Vec::new(self.alloc))
            }
            "stop" => {
                drop(params);
                self.changes.push(JobCommand::Stop(own_key(self.alloc)?))?;
                Ok(Vec::new(self.alloc))
            }
            "answer" => {
                let acts = self.answer_first(&params);
                drop(params);
                acts
            }
            "withdraw" => {
                let acts = self.withdraw_first(&params);
                drop(params);
                acts
            }
            method => self.note(method, params),
        }
    }

    fn response(
        &mut self,
        asked: Asked,
        outcome: Result<Value, ResponseError>,
    ) -> Result<Acts, AllocError> {
        match asked {
            Asked::For(id) => self.one(Act::Reply(id, outcome)),
            Asked::Configuration(number) => {
                drop(outcome);
                self.tell("demo/pushed", Value::from(number))
            }
        }
    }

    fn woken(&mut self, _alloc: Global) -> Result<Acts, AllocError> {
        if !self.tells_wakes {
            return Ok(Vec::new(self.alloc));
        }
        let acts = self.tell("demo/woken", Value::Null)?;
        self.release(acts)
    }

    fn shutdown(&mut self, alloc: Global) -> Result<Acts, AllocError> {
        if self.held.is_empty() {
            return Ok(Vec::new(alloc));
        }
        self.tell("demo/bye", Value::Null)
    }

    fn ids_exhausted(&mut self, asked: Asked) -> Result<(), AllocError> {
        drop(asked);
        Ok(())
    }
}

impl JobServer<Scripted> for Talker {
    type KeyedJobs = Talker;

    fn is_long(&self, request: &Request) -> bool {
        let method = request.method.as_str();
        method.starts_with("job ") || method.starts_with("long ")
    }

    fn job(&self, request: Request) -> Result<AnsweredBy<Scripted>, AllocError> {
        let Request { id, method, params } = request;
        drop(id);
        match method.as_str() {
            "long known" => Ok(AnsweredBy::Reply(Ok(params))),
            "long unmade" => {
                drop(params);
                Err(AllocError)
            }
            method => self.job_named(method, params),
        }
    }
}

impl KeyedJobs<Talker, Scripted> for Talker {
    ghost use Rattle.std.specs.Prelude.{⊤};

    ghost take_commands_post = { λ _ _ _. ⊤ };

    ghost found_post = { λ _ _ _ _ _. ⊤ };

    ghost ended_post = { λ _ _ _ _ _. ⊤ };

    fn take_commands(server: &mut Talker, alloc: Global) -> Result<Vec<Change>, AllocError> {
        Ok(mem::replace(&mut server.changes, Vec::new(alloc)))
    }

    fn found(
        server: &mut Talker,
        name: &JobName,
        found: Found,
        alloc: Global,
    ) -> Result<Acts, AllocError> {
        let Found { number, value } = found;
        match name {
            JobName::Request(id) => write!(server.finished, " {id}:{number}")?,
            JobName::Keyed(key) => write!(server.finished, " {key}:{number}")?,
        }
        match value {
            Some(value) => server.show(number, value),
            None => Ok(Vec::new(alloc)),
        }
    }

    fn ended(
        server: &mut Talker,
        name: &JobName,
        end: JobEnd,
        alloc: Global,
    ) -> Result<Acts, AllocError> {
        let how = match end {
            JobEnd::Done => "done",
            JobEnd::Failed => "failed",
            JobEnd::Cancelled => "cancelled",
            JobEnd::Refused => "refused",
            JobEnd::Replaced => "replaced",
            JobEnd::Stopped => "stopped",
        };
        match name {
            JobName::Request(id) => write!(server.finished, " {id} {how}")?,
            JobName::Keyed(key) => write!(server.finished, " {key} {how}")?,
        }
        match name {
            JobName::Keyed(key) if end == JobEnd::Refused => server.tell_refused(key),
            _ => Ok(Vec::new(alloc)),
        }
    }
}

impl Talker {
    fn job_named(&self, method: &str, params: Value) -> Result<AnsweredBy<Scripted>, AllocError> {
        match self.job_of(method.strip_prefix("job ").unwrap_or(""), params, false) {
            Ok(job) => Ok(AnsweredBy::Job(job)),
            Err(error) => Err(error),
        }
    }

    /// Sends the name of a key for whose job there was no room.
    fn tell_refused(&self, key: &JobKey) -> Result<Acts, AllocError> {
        let printed = format!(in self.alloc; "{key}")?;
        match Value::from_str(self.alloc, printed.as_str()) {
            Ok(name) => self.tell("refused", list_of(self.alloc, name)?),
            Err(_) => Err(AllocError),
        }
    }
}
