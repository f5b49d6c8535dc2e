// The jobs of all rows.
ghost use Rattle.serde_json.specs.Data.{Data};
ghost use Rattle.std.specs.Prelude.{ℕ, List};

use crate::signals::{Signal, Signals};
use lsp_jobs::{Interrupted, Job, JobContext, JobKey, JobResult, PartialResults, WorkDone};
use lsp_message::{ErrorCode, Notification, ResponseError};
use serde_json::Value;
use std::alloc::{AllocError, Global};
use std::sync::Arc;
use std::time::Duration;
use std::{mem, thread};

/// Does what its script says, and ends with its value, which it replies or, under a key, finds. It finds its number in
/// any case. A script has words, with `, ` between them:
///
/// - `soon`: nothing. `after N`: waits until N messages were written. `cancelled`: waits until it is to end, and goes
///   on. `rests`: sleeps for an hour, and ends at once if it is to end. `checks`: ends if it is to end.
/// - `reports N`: makes N reports, numbered on from those before. `sends N`: sends N notifications that must not be
///   dropped.
/// - `begins`, `steps N`, `ends`: reports its progress, if the client gave a token for that. `offers`: begins, and its
///   client may cancel it. `parts N`: sends N partial results, if the client gave a token for those.
/// - `asks`: sends its client `demo/asked` with its value, and ends with the reply. If there is none, it counts as
///   stopped.
/// - `creates TOKEN`: from now on it reports its progress under this token, if the client agrees.
/// - `counted`: ends with the count of reports that were taken. `fails`: ends with an error. `starves`: finds no
///   memory.
/// - `replies nothing`: gives no reply. `finds nothing`: not its number either.
#[derive(Drop)]
pub struct Scripted {
    pub alloc: Global,
    pub means: Means,
    pub value: Value,
    pub number: u64,
    pub is_keyed: bool,
}

/// The result of a job: its number and, under a key, its value, if that is no error.
#[derive(Debug, Drop)]
pub struct Found {
    pub number: u64,
    pub value: Option<Value>,
}

/// What a job has beside its value.
#[derive(Drop)]
pub struct Means {
    signals: Arc<Signals>,
    script: String,
    work: WorkDone,
    parts: PartialResults,
}

impl Means {
    /// Makes those of a job with this script, whose client gave the tokens in these params.
    pub fn of(
        alloc: Global,
        signals: &Arc<Signals>,
        script: &str,
        params: &Value,
    ) -> Result<Means, AllocError> {
        let signals = Arc::try_clone(signals)?;
        let script = String::from_str(alloc, script)?;
        let work = WorkDone::from_params(alloc, params)?;
        match PartialResults::from_params(alloc, params) {
            Ok(parts) => Ok(Means {
                signals,
                script,
                work,
                parts,
            }),
            Err(error) => {
                drop(work);
                Err(error)
            }
        }
    }
}

/// How a job ends.
#[derive(Clone, Copy)]
enum Ending {
    Value,
    Count,
    Error,
    NoMemory,
}

/// The state of a job: the reports that it made, those of them that were taken, its progress under a token, how it will
/// end, and whether it will give a reply and find something.
#[derive(Drop)]
struct Course {
    alloc: Global,
    signals: Arc<Signals>,
    work: Option<WorkDone>,
    parts: PartialResults,
    made: u64,
    taken: u64,
    told: u32,
    ending: Ending,
    value: Value,
    reply: Option<Result<Value, ResponseError>>,
    replies: bool,
    finds: bool,
}

impl Course {
    fn act<C: JobContext>(&mut self, word: &str, context: &mut C) -> Result<(), Interrupted>
        requires reporting { (method : List ℕ) (params : Data) → C.may method params }
        requires asking { (method : List ℕ) (params : Data) → C.may_send_request method params }
    {
        let (name, rest) = word.split_once(" ").unwrap_or((word, "0"));
        let number = rest.parse::<u64>().unwrap_or(0);
        match name {
            "asks" => self.ask(context)?,
            "creates" => self.create(rest, context)?,
            "reports" => self.report(number, context)?,
            "sends" => self.send(number, context)?,
            "begins" | "offers" | "steps" | "ends" => self.tell_work(name, number, context)?,
            "parts" => self.send_parts(number, context)?,
            "rests" | "checks" => return self.stop_if_told(name, context),
            "cancelled" => self.await_cancelled(context),
            _ => self.act_alone(name, number),
        }
        Ok(())
    }

    /// Does a step that needs no client.
    fn act_alone(&mut self, name: &str, number: u64) {
        match name {
            "after" => self.await_written(number),
            "counted" => self.ending = Ending::Count,
            "fails" => self.ending = Ending::Error,
            "starves" => self.ending = Ending::NoMemory,
            "replies" => self.replies = false,
            "finds" => self.finds = false,
            _ => {}
        }
    }

    /// Sleeps or checks. If the job is to end, that counts as stopped.
    fn stop_if_told<C: JobContext>(&self, name: &str, context: &mut C) -> Result<(), Interrupted> {
        let outcome = match name {
            "rests" => context.sleep(Duration::from_secs(3600)),
            _ => context.check(),
        };
        if outcome.is_err() {
            self.signals.tell(Signal::Stopped);
        }
        outcome
    }

    fn await_written(&self, count: u64) {
        let _ = self.signals.wait(Signal::Messages, count);
    }

    fn await_cancelled<C: JobContext>(&self, context: &C) {
        for _ in 0..u64::MAX {
            if context.is_cancelled() {
                self.signals.tell(Signal::Stopped);
                return;
            }
            thread::yield_now();
        }
    }

    fn ask<C: JobContext>(&mut self, context: &mut C) -> Result<(), AllocError>
        requires { (method : List ℕ) (params : Data) → C.may_send_request method params }
    {
        let method = String::from_str(self.alloc, "demo/asked")?;
        let reply = context.send_request(method, self.value.clone()?)?;
        if reply.is_none() {
            self.signals.tell(Signal::Stopped);
        }
        drop(mem::replace(&mut self.reply, reply));
        Ok(())
    }

    fn create<C: JobContext>(&mut self, token: &str, context: &mut C) -> Result<(), AllocError>
        requires { (method : List ℕ) (params : Data) → C.may_send_request method params }
    {
        let token = Value::String(String::from_str(self.alloc, token)?);
        let work = WorkDone::create(self.alloc, context, token)?;
        drop(mem::replace(&mut self.work, Some(work)));
        Ok(())
    }

    fn report<C: JobContext>(&mut self, number: u64, context: &mut C) -> Result<(), AllocError>
        requires { (method : List ℕ) (params : Data) → C.may method params }
    {
        for _ in 0..number {
            self.made = self.made.saturating_add(1);
            if context.report(progress_of(self.alloc, self.made)?) {
                self.taken = self.taken.saturating_add(1);
            }
        }
        self.signals.tell(Signal::Reported);
        Ok(())
    }

    fn send<C: JobContext>(&mut self, number: u64, context: &mut C) -> Result<(), AllocError>
        requires { (method : List ℕ) (params : Data) → C.may method params }
    {
        for _ in 0..number {
            self.made = self.made.saturating_add(1);
            if context.send(progress_of(self.alloc, self.made)?) {
                self.taken = self.taken.saturating_add(1);
            }
        }
        Ok(())
    }

    fn tell_work<C: JobContext>(
        &mut self,
        name: &str,
        number: u64,
        context: &mut C,
    ) -> Result<(), AllocError>
        requires { (method : List ℕ) (params : Data) → C.may method params }
    {
        match name {
            "begins" => match &self.work {
                Some(work) => work.begin(context, "Working", None, Some(0)),
                None => Ok(()),
            },
            "offers" => match &self.work {
                Some(work) => work.begin_cancellable(context, "Working", None, Some(0)),
                None => Ok(()),
            },
            "steps" => self.tell_steps(number, context),
            _ => match self.work.take() {
                Some(work) => work.end(context, Some("done")),
                None => Ok(()),
            },
        }
    }

    fn tell_steps<C: JobContext>(&mut self, number: u64, context: &mut C) -> Result<(), AllocError>
        requires { (method : List ℕ) (params : Data) → C.may method params }
    {
        let Some(work) = &self.work else {
            return Ok(());
        };
        for _ in 0..number {
            self.told = self.told.saturating_add(1);
            let told = self.told;
            let message = format!(in self.alloc; "step {told}")?;
            let reported = work.report(context, Some(message.as_str()), Some(told));
            drop(message);
            reported?;
        }
        self.signals.tell(Signal::Reported);
        Ok(())
    }

    fn send_parts<C: JobContext>(&mut self, number: u64, context: &mut C) -> Result<(), AllocError>
        requires { (method : List ℕ) (params : Data) → C.may method params }
    {
        for _ in 0..number {
            self.told = self.told.saturating_add(1);
            let part = list_of(self.alloc, Value::from(self.told))?;
            self.parts.send(context, part)?;
        }
        Ok(())
    }
}

/// The list with this value alone.
pub fn list_of(alloc: Global, value: Value) -> Result<Value, AllocError> {
    let mut list = Vec::new(alloc);
    list.push(value)?;
    Ok(Value::Array(list))
}

/// The notification of a report (LSP 3.17, "Progress Support").
fn progress_of(alloc: Global, number: u64) -> Result<Notification, AllocError> {
    let method = String::from_str(alloc, "$/progress")?;
    let text = format!(in alloc; "{{\"token\":\"job\",\"value\":{number}}}")?;
    match Value::from_str(alloc, text.as_str()) {
        Ok(params) => Ok(Notification { method, params }),
        Err(_) => Err(AllocError),
    }
}

impl Job for Scripted {
    type Found = Found;

    fn run<C: JobContext>(self, context: &mut C) -> Result<JobResult<Found>, Interrupted> {
        let Scripted {
            alloc,
            means,
            value,
            number,
            is_keyed,
        } = self;
        let Means {
            signals,
            script,
            work,
            parts,
        } = means;
        signals.tell(Signal::Begun);
        let mut course = Course {
            alloc,
            signals,
            work: Some(work),
            parts,
            made: 0,
            taken: 0,
            told: 0,
            ending: Ending::Value,
            value,
            reply: None,
            replies: !is_keyed,
            finds: true,
        };
        let outcome = course.go(script.as_str(), context);
        let (replies, finds) = (course.replies, course.finds);
        drop(course);
        let outcome = outcome?;
        if is_keyed {
            return Ok(keyed_result(number, finds, outcome));
        }
        Ok(request_result(number, replies, finds, outcome))
    }
}

/// Returns the result of a request's job.
fn request_result(
    number: u64,
    replies: bool,
    finds: bool,
    outcome: Result<Value, ResponseError>,
) -> JobResult<Found> {
    let found = finds.then_some(number).map(|number| Found {
        number,
        value: None,
    });
    if replies {
        return JobResult {
            reply: Some(outcome),
            found,
        };
    }
    drop(outcome);
    JobResult { reply: None, found }
}

/// Returns the result of a job under a key.
fn keyed_result(
    number: u64,
    finds: bool,
    outcome: Result<Value, ResponseError>,
) -> JobResult<Found> {
    let value = match outcome {
        Ok(value) => Some(value),
        Err(error) => {
            drop(error);
            None
        }
    };
    if finds {
        return JobResult::found(Found { number, value });
    }
    drop(value);
    JobResult {
        reply: None,
        found: None,
    }
}

impl Course {
    /// Runs the script, and returns how it ends.
    fn go<C: JobContext>(
        &mut self,
        script: &str,
        context: &mut C,
    ) -> Result<Result<Value, ResponseError>, Interrupted>
        requires reporting { (method : List ℕ) (params : Data) → C.may method params }
        requires asking { (method : List ℕ) (params : Data) → C.may_send_request method params }
    {
        let acted = self.act_all(script, context);
        self.signals.tell(Signal::Ended);
        acted?;
        match self.reply.take() {
            Some(reply) => Ok(reply),
            None => self.outcome(),
        }
    }

    fn act_all<C: JobContext>(&mut self, script: &str, context: &mut C) -> Result<(), Interrupted>
        requires reporting { (method : List ℕ) (params : Data) → C.may method params }
        requires asking { (method : List ℕ) (params : Data) → C.may_send_request method params }
    {
        for word in script.split(", ") {
            self.act(word, context)?;
        }
        Ok(())
    }

    fn outcome(&mut self) -> Result<Result<Value, ResponseError>, Interrupted> {
        match self.ending {
            Ending::Value => Ok(Ok(mem::replace(&mut self.value, Value::Null))),
            Ending::Count => Ok(Ok(Value::from(self.taken))),
            Ending::Error => Ok(Err(ResponseError::new(
                self.alloc,
                ErrorCode::RequestFailed,
                "it failed",
            )?)),
            Ending::NoMemory => Err(Interrupted::Memory),
        }
    }
}

/// The key of a job that answers no request.
pub fn own_key(alloc: Global) -> Result<JobKey, AllocError> {
    Ok(JobKey::from(String::from_str(alloc, "own")?))
}
