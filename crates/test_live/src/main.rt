//! Calls on a reader and a writer, on one thread and in threads. The program reads a table of rows from standard input,
//! and prints below each row its result. `tools/rows/make` writes the table, and the expected output. No row depends on
//! the clock: each wait is for an event. A row begins with a word:
//!
//! - `#`: a remark.
//! - `=`: the bytes that the next cases are about, with the escapes `\r`, `\n` and `\x` with two digits. `+` adds a
//!   text a number of times, and `pauses` says where a reader waits (`table.rt`).
//! - `body`: the meaning of a content part (`calls.rt`).
//! - The name of a call on a reader and a writer: a case (`table.rt`). Its server and its jobs do what methods say
//!   (`servers.rt`, `jobs.rt`).
//! - `pool`: a pool of jobs, used directly (`pools.rt`). `relay`, `waker`: a relay alone.
//! - `call`, `turns`, `called_off`, `nobody`: the calls of a connection (`connections.rt`).
//! - `explained`: what a fault prints for a person (`explained.rt`).
//! - `exit`, the last row: a server that waits for an `exit` which never arrives. It takes 30 seconds, and began when
//!   the program did.
//!
//! If an allocation or the start of a thread fails in a call, its line is `refused: ..`, and the call is made again.
//! The program ends with status 1 if that is refused too, or if the program itself has no memory; and with status 2 if
//! a call breaks a promise, or if a wait is given up.
#![tactic(auto)]

mod attempt;
mod calls;
mod connections;
mod devices;
mod escapes;
mod explained;
mod jobs;
mod listening;
mod owners;
mod pools;
mod relays;
mod servers;
mod sessions;
mod signals;
mod table;

use attempt::{Attempt, Stop, print_below};
use calls::attempt_alone;
use sessions::{Run, attempt_of};
use std::alloc::Global;
use std::io::Write;
use std::net::{Net, TcpListener, TcpStream};
use std::process::ExitCode;
use std::sync::Wait;
use std::thread::{JoinHandle, Threads};
use std::time::Clock;
use std::{io, thread};
use table::{Case, Given, case_of};

/// What rows need of the runtime, except sockets.
pub trait Live: Threads + Wait + Clock + Print + AllocGlobal + Copy + Drop + Send + 'static {}

impl<R> Live for R
where
    R: Threads + Wait + Clock + Print + AllocGlobal + Copy + Drop + Send + 'static,
{}

fn main(rt: HostRuntime) -> ExitCode {
    match run(&rt) {
        Ok(()) => ExitCode::SUCCESS,
        Err(stop) => {
            let _ = writeln!(rt.stderr(), "test_live: {stop}");
            ExitCode::from(stop.status())
        }
    }
}

fn run<R>(rt: &R) -> Result<(), Stop>
where
    R: Live + Input + Net<Listener = TcpListener, Stream = TcpStream>,
{
    let alloc = rt.alloc();
    let table = io::read_to_string(alloc, rt.reader())?;
    let silent = silent_client(rt, table.as_str())?;
    if let Err(stop) = run_lines(rt, alloc, table.as_str()) {
        drop(silent);
        return Err(stop);
    }
    match silent {
        Some(thread) => print_below(rt, alloc, "", thread.join(rt)?.said.as_str()),
        None => Ok(()),
    }
}

fn run_lines<R>(rt: &R, alloc: Global, table: &str) -> Result<(), Stop>
where
    R: Live + Net<Listener = TcpListener, Stream = TcpStream>,
{
    let mut given = Given::new(alloc, "")?;
    for line in table.lines() {
        run_line(rt, alloc, line, &mut given)?;
    }
    Ok(())
}

fn run_line<R>(rt: &R, alloc: Global, line: &str, given: &mut Given) -> Result<(), Stop>
where
    R: Live + Net<Listener = TcpListener, Stream = TcpStream>,
{
    rt.println(line)?;
    let (word, rest) = line.split_once(" ").unwrap_or((line, ""));
    match word {
        "#" | "exit" => Ok(()),
        "=" => {
            *given = Given::new(alloc, rest)?;
            Ok(())
        }
        "+" => given.repeat(alloc, rest),
        "pauses" => given.pause(rest),
        _ => run_row(rt, alloc, word, rest, given),
    }
}

/// Starts a thread whose server waits for an `exit`, if the last row of the table is about it.
fn silent_client<R>(rt: &R, table: &str) -> Result<Option<JoinHandle<Result<Attempt, Stop>>>, Stop>
where
    R: Live,
{
    if !table.ends_with("\nexit\n") {
        return Ok(None);
    }
    let theirs = *rt;
    match thread::spawn(rt, move || connections::awaits_exit(&theirs)) {
        Ok(thread) => Ok(Some(thread)),
        Err(_) => Err(Stop::Memory),
    }
}

/// A row that makes a call.
#[derive(Clone, Copy)]
enum Row<'a> {
    /// A case at one of its places.
    Case(Run),
    /// A row that is no case: its word and the rest.
    Whole(&'a str, &'a str),
}

fn run_row<R>(rt: &R, alloc: Global, word: &str, rest: &str, given: &Given) -> Result<(), Stop>
where
    R: Live + Net<Listener = TcpListener, Stream = TcpStream>,
{
    if let Some(case) = case_of(word, rest) {
        return run_case(rt, alloc, case, given);
    }
    let came = run_once(rt, alloc, Row::Whole(word, rest), given)?;
    print_below(rt, alloc, "", came.as_str())
}

/// Returns the result of a row, whose call is made again if it is refused.
fn run_once<R>(rt: &R, alloc: Global, row: Row<'_>, given: &Given) -> Result<String, Stop>
where
    R: Live + Net<Listener = TcpListener, Stream = TcpStream>,
{
    let first = tried(rt, alloc, row, given)?;
    if !first.is_refused {
        return Ok(first.said);
    }
    print_below(rt, alloc, "refused: ", first.said.as_str())?;
    let again = tried(rt, alloc, row, given)?;
    if again.is_refused {
        return Err(Stop::Again);
    }
    Ok(again.said)
}

fn tried<R>(rt: &R, alloc: Global, row: Row<'_>, given: &Given) -> Result<Attempt, Stop>
where
    R: Live + Net<Listener = TcpListener, Stream = TcpStream>,
{
    match row {
        Row::Case(run) if run.is_alone => attempt_alone(alloc, run, given),
        Row::Case(run) => attempt_of(rt, alloc, run, given),
        Row::Whole("body", rest) => calls::meaning(alloc, rest),
        Row::Whole("relay", rest) => relays::relayed(rt, alloc, rest),
        Row::Whole("waker", rest) => relays::woken(rt, alloc, rest),
        Row::Whole("pool", rest) => pools::came_of(rt, alloc, rest),
        Row::Whole("call", rest) => connections::called(rt, alloc, rest),
        Row::Whole("called_off", _) => connections::called_off(rt, alloc),
        Row::Whole("turns", _) => connections::turns(rt, alloc),
        Row::Whole("nobody", _) => connections::nobody(rt, alloc),
        Row::Whole("explained", rest) => explained::explained(alloc, rest),
        Row::Whole(..) => Err(Stop::Table),
    }
}

/// Runs a case at each of its places. The result is printed if it differs from the one at the place before.
fn run_case<R>(rt: &R, alloc: Global, case: Case<'_>, given: &Given) -> Result<(), Stop>
where
    R: Live + Net<Listener = TcpListener, Stream = TcpStream>,
{
    let mut last = String::new(alloc);
    for count in case.from..=case.to {
        let came = run_at(rt, alloc, case, given, count)?;
        if came != last {
            let place = format!(in alloc; "{count}: ")?;
            print_below(rt, alloc, place.as_str(), came.as_str())?;
        }
        last = came;
    }
    Ok(())
}

/// Returns the result of a case at one of its places. If the results for the sizes of pieces and the modes differ, it
/// returns all of them.
fn run_at<R>(
    rt: &R,
    alloc: Global,
    case: Case<'_>,
    given: &Given,
    count: usize,
) -> Result<String, Stop>
where
    R: Live + Net<Listener = TcpListener, Stream = TcpStream>,
{
    let mut all = String::new(alloc);
    for word in case.steps.split(',') {
        let step: usize = word.parse()?;
        for way in case.ways.split(',') {
            let came = run_once(rt, alloc, Row::Case(run_of(case, way, step, count)), given)?;
            if all.is_empty() {
                all = came;
            } else if all != came {
                all = format!(in alloc; "{all}, but {way} by {step}: {came}")?;
            }
        }
    }
    Ok(all)
}

fn run_of(case: Case<'_>, way: &str, step: usize, count: usize) -> Run {
    Run {
        call: case.call,
        pool: case.pool,
        device: case.device,
        step,
        count,
        written: case.written,
        kind: case.kind,
        is_alone: way == "alone",
    }
}
