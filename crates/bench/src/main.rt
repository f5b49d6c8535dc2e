//! What reading, writing and sessions cost: a measure for each word.
//!
//!     bench json                                  each message once more, by `serde_json` alone: the least cost
//!     bench session [speaking] [null]             a session on one thread: each request gets its params back, or null
//!     bench typed                                 the same of reports of diagnostics, which are read and written by their type
//!     bench threads pass | pump | run_threads | run_in_threads
//!                                                 messages passed on by one thread and by two; the sessions on three threads
//!     bench drops session | run_threads | connection COUNT
//!                                                 a server that drops its params, and answers with a list of COUNT places, or for 0 null
//!     bench jobs WORKERS                          a session on three threads, whose requests are jobs of so many workers
//!     bench queues [N ..]                         a call on the request queues, with N requests pending
//!     bench texts [N ..]                          N edits at the start, in the middle and at the end of a large text
//!     bench all                                   each of these on the same input, under its name
//!
//! All but `queues` and `texts` read frames from standard input, and write frames to standard output. `speaking` is a server that speaks
//! (`ServerApplication`), which gives the same replies. `all` leaves out `drops`, `typed`, and `jobs`, whose replies come in the order in which
//! they are ready.
#![tactic(auto)]

mod drops;
mod jobs;
mod json;
mod queues;
mod session;
mod speaking;
mod texts;
mod threads;
mod typed;

use anyhow::{Error, Result};
use lsp_server::running::keep_freed_memory;
use session::Echo;
use std::alloc::Global;
use std::io::{BufRead, BufReader, Cursor, Read, Write};
use std::sync::Wait;
use std::thread::Threads;
use std::time::Clock;
use std::{env, io};

/// What the measures need of the runtime.
pub trait Host: Threads + Wait + Print + Clock + AllocGlobal + Copy + Drop + Send + 'static {}

impl<T> Host for T
where
    T: Threads + Wait + Print + Clock + AllocGlobal + Copy + Drop + Send + 'static,
{}

/// How many bytes of standard input are asked for at once.
const READ_AHEAD: usize = 65536;

const USAGE: &str =
    "usage: bench json | session [speaking] [null] | typed | threads WAY | drops WAY COUNT | jobs WORKERS | queues [N ..] | texts [N ..] | all";

/// The measures that `all` takes.
static ALL: [&str; 10] = [
    "json",
    "session",
    "session null",
    "session speaking",
    "threads pass",
    "threads pump",
    "threads run_threads",
    "threads run_in_threads",
    "queues",
    "texts",
];

fn main(rt: HostRuntime) -> Result<()> {
    let alloc = rt.alloc();
    keep_freed_memory(alloc);
    let words: Vec<String> = env::args(&rt)?.skip(1).collect(alloc)?;
    let words = words.as_slice().join(alloc, " ")?;
    let reader = BufReader::with_capacity(alloc, READ_AHEAD, rt.reader())?;
    measure(&rt, alloc, words.as_str(), reader)
}

/// Takes the measure that these arguments name.
fn measure<T, R>(rt: &T, alloc: Global, words: &str, reader: R) -> Result<()>
where
    T: Host,
    R: BufRead + Drop + Send + 'static,
{
    let (name, rest) = words.split_once(" ").unwrap_or((words, ""));
    match name {
        "jobs" => match rest.parse::<usize>() {
            Ok(workers) => jobs::serve(rt, alloc, reader, workers),
            Err(error) => {
                drop(reader);
                Err(Error::from(error))
            }
        },
        "drops" => run_drops(rt, alloc, rest, reader),
        "all" => run_all(rt, alloc, reader),
        "queues" | "texts" if !rest.is_empty() => time_each(rt, alloc, rest, name == "queues"),
        _ => run(rt, alloc, words, reader),
    }
}

/// Runs the session of a server that drops its params.
fn run_drops<T, R>(rt: &T, alloc: Global, words: &str, reader: R) -> Result<()>
where
    T: Host,
    R: BufRead + Drop + Send + 'static,
{
    let (way, count) = words.split_once(" ").unwrap_or((words, ""));
    match drops::server(alloc, count) {
        Ok(echo) => run_way(rt, alloc, way, reader, echo),
        Err(error) => {
            drop(reader);
            Err(error)
        }
    }
}

/// Runs the session of this name with that server.
fn run_way<T, R>(rt: &T, alloc: Global, way: &str, reader: R, echo: Echo) -> Result<()>
where
    T: Host,
    R: BufRead + Drop + Send + 'static,
{
    let mut reader = reader;
    match way {
        "session" => session::serve(alloc, &mut reader, &mut io::writer(rt), echo),
        "run_threads" => threads::serve(rt, alloc, reader, echo),
        "connection" => drops::serve_connection(rt, reader, echo),
        _ => {
            drop(echo);
            Err(Error::msg(USAGE))
        }
    }
}

/// Takes each measure with these bytes, under its name.
fn run_all<T, R>(rt: &T, alloc: Global, reader: R) -> Result<()>
where
    T: Host,
    R: BufRead + Drop,
{
    let mut reader = reader;
    let mut text = Vec::new(alloc);
    reader.read_to_end(&mut text)?;
    run_over(rt, alloc, text.as_slice())
}

fn run_over<T: Host>(rt: &T, alloc: Global, text: &[u8]) -> Result<()> {
    let mut gap = "";
    for measure in &ALL {
        println!(rt; "{gap}{measure}")?;
        let bytes = Vec::from_slice(alloc, text)?;
        run(rt, alloc, measure, Cursor::new(bytes))?;
        gap = "\n";
    }
    Ok(())
}

/// Takes the measure of this name.
fn run<T, R>(rt: &T, alloc: Global, measure: &str, reader: R) -> Result<()>
where
    T: Host,
    R: BufRead + Drop + Send + 'static,
{
    let mut reader = reader;
    match measure {
        "threads pump" => threads::pump_on(rt, alloc, reader),
        "threads run_threads" => threads::serve(rt, alloc, reader, Echo::new(false)),
        "threads run_in_threads" => threads::serve_speaking(rt, alloc, reader),
        "queues" => queues::tell_found(rt, alloc),
        "texts" => texts::tell_length(rt, alloc),
        _ => run_alone(alloc, measure, &mut reader, &mut io::writer(rt)),
    }
}

/// Takes the measure of this name, on one thread.
fn run_alone<R, W>(alloc: Global, measure: &str, reader: &mut R, writer: &mut W) -> Result<()>
where
    R: BufRead,
    W: Write,
{
    match measure {
        "json" => json::write_again(alloc, reader, writer),
        "session" => session::serve(alloc, reader, writer, Echo::new(false)),
        "session null" => session::serve(alloc, reader, writer, Echo::new(true)),
        "session speaking" => speaking::serve(alloc, reader, writer, false),
        "session speaking null" => speaking::serve(alloc, reader, writer, true),
        "typed" => typed::serve(alloc, reader, writer),
        "threads pass" => threads::pass_on(alloc, reader, writer),
        _ => Err(Error::msg(USAGE)),
    }
}

/// Measures the queues or the texts, for each of these numbers.
fn time_each<T: Host>(rt: &T, alloc: Global, numbers: &str, is_of_queues: bool) -> Result<()> {
    for number in numbers.split(' ') {
        let count = number.parse::<u32>()?;
        let timed = if is_of_queues {
            queues::time_calls(rt, alloc, count)
        } else {
            texts::time_all(rt, alloc, count)
        };
        timed?;
    }
    Ok(())
}
