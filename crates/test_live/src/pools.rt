// A pool by hand: `pool WORKERS STEP; STEP ..`, or `WORKERS:WAITING` if only so many jobs may wait. A step is one of these, with what is
// told of it:
//
// - `submit NAME NUMBER SCRIPT`: gives the pool a job (`jobs.rt`), which comes to the list of the number: `taken`, `full` or `no memory`.
//   The name is a request's number, or that of a key behind an `s`.
// - `begun N`, `ended N`, `reported N`: waits until N jobs began, ended or were done with their reports; nothing is told.
// - `hear`: waits for a signal: `heard`, or `closed`.
// - `message`: takes the next message: `ID report PARAMS`, `ID ask NUMBER METHOD PARAMS`, `ID outcome VALUE`, `ID error CODE`, `ID no reply`;
//   under a key `ID found VALUE`; `ID cancelled` or `ID no memory` if the job came to nothing; or `nothing`.
// - `listen N`: takes N messages, and waits for a signal where there is none.
// - `rounds N M`: N times, submits M jobs at once, and takes the outcomes of those that were taken. `R refused`.
// - `reply N`, `give_up N`: the request number N of a job gets the reply `true`, or none; nothing is told.
// - `cancel TOKEN`: the client cancels the progress with this token. Nothing is told.
// - `unneeded`: the request of a job that is to be cancelled at the client: `unneeded NUMBER`, or `all needed`.
// - `waits ID`: `waits` or `free`. `forget ID`: nothing is told.
//
// The client of such a job gave the tokens `w` and 7. At the end the pool is ended, nothing more may be heard then, and it is told how many jobs began and how many saw their cancellation.
use crate::attempt::{Attempt, Stop};
use crate::jobs::{Found, Means, Scripted, list_of};
use crate::signals::{Signal, Signals};
use crate::table::pool_of;
use crossbeam_channel::Receiver;
use lsp_jobs::{DoneJob, Interrupted, JobKey, JobMessage, JobName, JobPool, SubmitFault};
use lsp_message::RequestId;
use serde_json::Value;
use std::alloc::{AllocError, Global};
use std::fmt::Write;
use std::mem;
use std::sync::{Arc, Wait};
use std::thread::Threads;
use std::time::Clock;

/// A pool, and the report about it. It has to be ended.
struct Bench<R: Wait + Drop> {
    rt: R,
    alloc: Global,
    signals: Arc<Signals>,
    pool: JobPool<R, Scripted>,
    woken: Receiver<()>,
    told: String,
}

/// Returns the result of these steps.
pub fn came_of<R>(rt: &R, alloc: Global, row: &str) -> Result<Attempt, Stop>
where
    R: Threads + Wait + Clock + Copy + Drop + Send + 'static,
{
    let (size, steps) = row.split_once(" ").ok_or(Stop::Table)?;
    let size = pool_of(size).ok_or(Stop::Table)?;
    let signals = Arc::new(alloc, Signals::new())?;
    let (pool, woken) = match JobPool::start(rt, alloc, size) {
        Ok(started) => started,
        Err(_) => return Ok(Attempt::refused(String::from_str(alloc, "start")?)),
    };
    let mut bench = Bench {
        rt: *rt,
        alloc,
        signals,
        pool,
        woken,
        told: String::new(alloc),
    };
    let went = bench.go_on(steps);
    let told = bench.end();
    went?;
    Ok(Attempt::came(told?))
}

/// Returns the number of an id. An id that is no such number is 0.
fn small_of(text: &str) -> i32 {
    text.parse::<i32>().unwrap_or(0)
}

/// Returns the request with this number as its id, or the key of this number after an `s`.
fn name_of(word: &str) -> JobName {
    match word.strip_prefix("s") {
        Some(number) => JobName::Keyed(JobKey::from(small_of(number))),
        None => JobName::Request(RequestId::from(small_of(word))),
    }
}

/// Writes a name: a key's number after an `s`.
fn tell_name(told: &mut String, name: &JobName) -> Result<(), AllocError> {
    match name {
        JobName::Request(id) => write!(told, "{id}"),
        JobName::Keyed(key) => write!(told, "s{key}"),
    }
}

/// Returns a count. A text that is no number is 0.
fn count_of(text: &str) -> u64 {
    text.parse::<u64>().unwrap_or(0)
}

impl<R> Bench<R>
where
    R: Threads + Wait + Clock + Copy + Drop + Send + 'static,
{
    /// Ends the pool, and returns the report, and what its jobs did.
    fn end(self) -> Result<String, AllocError> {
        let Bench {
            rt,
            alloc: _,
            signals,
            pool,
            woken,
            mut told,
        } = self;
        pool.end();
        // This would wait for ever if the pool still held its end.
        for signal in woken.iter(&rt) {
            drop(signal);
        }
        let (begun, stopped) = (signals.count(Signal::Begun), signals.count(Signal::Stopped));
        write!(told, "{begun} begun, {stopped} stopped")?;
        Ok(told)
    }
}

impl<R: Wait + Clock + Drop> Bench<R> {
    fn go_on(&mut self, steps: &str) -> Result<(), Stop> {
        for step in steps.split("; ") {
            self.go(step)?;
        }
        Ok(())
    }

    fn go(&mut self, step: &str) -> Result<(), Stop> {
        let (name, rest) = step.split_once(" ").unwrap_or((step, ""));
        match name {
            "begun" => self.await_signal(Signal::Begun, rest),
            "ended" => self.await_signal(Signal::Ended, rest),
            "reported" => self.await_signal(Signal::Reported, rest),
            "forget" | "reply" | "give_up" => {
                self.go_silently(name, rest);
                Ok(())
            }
            "submit" | "hear" | "listen" | "message" | "rounds" | "waits" | "cancel" | "unneeded" =>
                Ok(self.tell(name, rest)?),
            _ => Err(Stop::Table),
        }
    }

    fn await_signal(&self, signal: Signal, count: &str) -> Result<(), Stop> {
        Ok(self.signals.wait(signal, count_of(count))?)
    }

    /// Takes a step that is not reported.
    fn go_silently(&mut self, name: &str, rest: &str) {
        match name {
            "forget" => {
                let _ = self.pool.cancel(&name_of(rest));
            }
            "reply" => self.pool.reply(count_of(rest), Ok(Value::Bool(true))),
            _ => self.pool.abandon(count_of(rest)),
        }
    }

    /// Takes a step, and reports its result.
    fn tell(&mut self, name: &str, rest: &str) -> Result<(), AllocError> {
        match name {
            "submit" => self.submit(rest),
            "hear" => self.hear(),
            "listen" => self.listen(count_of(rest)),
            "rounds" => self.run_rounds(rest),
            "cancel" => self.cancel(rest),
            "waits" => self.tell_waiting(name_of(rest)),
            "unneeded" => self.tell_unneeded(),
            _ => match self.take_message(true) {
                Ok(_) => Ok(()),
                Err(error) => Err(error),
            },
        }
    }

    fn tell_unneeded(&mut self) -> Result<(), AllocError> {
        match self.pool.take_request_to_cancel() {
            Some(number) => write!(self.told, "unneeded {number}, "),
            None => self.told.push_str("all needed, "),
        }
    }

    /// Cancels the progress with this token, as the client.
    fn cancel(&self, token: &str) -> Result<(), AllocError> {
        let token = String::from_str(self.alloc, token)?;
        self.pool.cancel_progress(&RequestId::from(token));
        Ok(())
    }

    fn submit(&mut self, words: &str) -> Result<(), AllocError> {
        let (id, words) = words.split_once(" ").unwrap_or(("", words));
        let (number, script) = words.split_once(" ").unwrap_or(("", words));
        let name = name_of(id);
        let is_keyed = matches!(name, JobName::Keyed(_));
        let job = job_of(
            self.alloc,
            &self.signals,
            script,
            count_of(number),
            is_keyed,
        )?;
        match self.pool.submit(name, job) {
            Ok(()) => self.told.push_str("taken, "),
            Err(SubmitFault::Full) => self.told.push_str("full, "),
            Err(SubmitFault::Memory) => self.told.push_str("no memory, "),
        }
    }

    fn hear(&mut self) -> Result<(), AllocError> {
        match self.woken.recv(&self.rt) {
            Ok(()) => self.told.push_str("heard, "),
            Err(_) => self.told.push_str("closed, "),
        }
    }

    fn listen(&mut self, times: u64) -> Result<(), AllocError> {
        for _ in 0..times {
            self.await_message()?;
        }
        Ok(())
    }

    /// Runs rounds of jobs, and reports how many were refused in all.
    fn run_rounds(&mut self, words: &str) -> Result<(), AllocError> {
        let (rounds, jobs) = words.split_once(" ").unwrap_or((words, "0"));
        let told = mem::replace(&mut self.told, String::new(self.alloc));
        let mut refused: u64 = 0;
        for _ in 0..count_of(rounds) {
            refused = refused.saturating_add(self.run_round(count_of(jobs))?);
        }
        self.told = told;
        write!(self.told, "{refused} refused, ")
    }

    /// Runs this many jobs at once, and returns how many were refused.
    fn run_round(&mut self, jobs: u64) -> Result<u64, AllocError> {
        let mut refused: u64 = 0;
        for name in 0..jobs {
            self.told.clear();
            let words = format!(in self.alloc; "{name} {name} soon")?;
            self.submit(words.as_str())?;
            if self.told.as_str() != "taken, " {
                refused = refused.saturating_add(1);
            }
        }
        self.listen(jobs.saturating_sub(refused))?;
        Ok(refused)
    }

    /// Takes the next message, and waits for a signal as long as there is none.
    fn await_message(&mut self) -> Result<(), AllocError> {
        for _ in 0..u64::MAX {
            if self.take_message(false)? {
                return Ok(());
            }
            if self.woken.recv(&self.rt).is_err() {
                return self.told.push_str("closed, ");
            }
        }
        Ok(())
    }

    /// Takes the next message. Returns false if there is none, which is reported if `tells` is set.
    fn take_message(&mut self, tells: bool) -> Result<bool, AllocError> {
        match self.pool.take_message() {
            Some((name, message)) => {
                let told = match tell_name(&mut self.told, &name) {
                    Ok(()) => self.tell_message(&message),
                    Err(error) => Err(error),
                };
                drop(message);
                drop(name);
                told?;
                Ok(true)
            }
            None => {
                if tells {
                    self.told.push_str("nothing, ")?;
                }
                Ok(false)
            }
        }
    }

    fn tell_message(&mut self, message: &JobMessage<Found>) -> Result<(), AllocError> {
        match message {
            JobMessage::Report(report) => write!(self.told, " report {}, ", report.params),
            JobMessage::Ask(method, params, number) => {
                write!(self.told, " ask {number} {method} {params}, ")
            }
            JobMessage::Ran(Ok(done)) => self.tell_result(done),
            JobMessage::Ran(Err(Interrupted::Cancelled)) => self.told.push_str(" cancelled, "),
            JobMessage::Ran(Err(Interrupted::Memory)) => self.told.push_str(" no memory, "),
        }
    }

    /// Reports the result of a job.
    fn tell_result(&mut self, done: &DoneJob<Found>) -> Result<(), AllocError> {
        match &done.reply {
            Some(Ok(text)) => return write!(self.told, " outcome {text:?}, "),
            Some(Err(error)) => return write!(self.told, " error {}, ", error.code),
            None => {}
        }
        match &done.found {
            Some(
                Found {
                    value: Some(value),
                    ..
                },
            ) => write!(self.told, " found {value}, "),
            _ => self.told.push_str(" no reply, "),
        }
    }

    fn tell_waiting(&mut self, name: JobName) -> Result<(), AllocError> {
        let is_waiting = self.pool.is_waiting(&name);
        drop(name);
        if is_waiting {
            self.told.push_str("waits, ")
        } else {
            self.told.push_str("free, ")
        }
    }
}

fn job_of(
    alloc: Global,
    signals: &Arc<Signals>,
    script: &str,
    number: u64,
    is_keyed: bool,
) -> Result<Scripted, AllocError> {
    let value = list_of(alloc, Value::from(number))?;
    match means_of(alloc, signals, script) {
        Ok(means) => Ok(Scripted {
            alloc,
            means,
            value,
            number,
            is_keyed,
        }),
        Err(error) => {
            drop(value);
            Err(error)
        }
    }
}

/// The tokens of its client.
const TOKENS: &str = "{\"workDoneToken\":\"w\",\"partialResultToken\":7}";

fn means_of(alloc: Global, signals: &Arc<Signals>, script: &str) -> Result<Means, AllocError> {
    let Ok(params) = Value::from_str(alloc, TOKENS) else {
        return Err(AllocError);
    };
    let means = Means::of(alloc, signals, script, &params);
    drop(params);
    means
}
