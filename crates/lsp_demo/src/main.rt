//! A server on standard input and output or on a socket, and a program that passes messages on.
#![tactic(auto)]

ghost use Rattle.std.specs.Prelude.{◌≡◌, option_map};
ghost use Rattle.lsp_demo.specs.Program.{asks_serve, asked_address};

mod pump;
mod report;
mod serve;
mod work;

use lsp_server::running::keep_freed_memory;
use pump::pump_words;
use report::{report, report_usage};
use serve::{serve_stdio, tcp_on};
use std::io::{BufReader, ErrorKind, Write};
use std::net::Net;
use std::process::ExitCode;
use std::rt::Env;
use std::sync::Wait;
use std::thread::Threads;
use std::time::Clock;
use std::{env, io};

/// How many bytes of standard input are asked for at once.
const READ_AHEAD: usize = 65536;

fn main(rt: HostRuntime) -> ExitCode {
    keep_freed_memory(rt.alloc());
    let mut errors = rt.stderr();
    ExitCode::from(match status(&rt, &mut errors) {
        Ok(status) => status,
        Err(error) => refused(error.kind(), &mut errors),
    })
}

/// Returns the exit status of the program, or why it did not begin. Without an argument it is `serve`.
fn status<R, E: Write>(rt: &R, errors: &mut E) -> io::Result<u8>
where
    R: Env
        + Input
        + Print
        + Net
        + AllocGlobal
        + Threads
        + Wait
        + Clock
        + Copy
        + Drop
        + Send
        + 'static,
    R::Reader: Send + 'static,
    R::Stream: Send + 'static,
{
    let words: Vec<String> = env::args(rt)?.skip(1).collect(rt.alloc())?;
    if is_serve(words.as_slice()) {
        return Ok(serve_stdio(rt, errors));
    }
    if let Some(addr) = tcp_address(words.as_slice()) {
        return Ok(tcp_on(rt, addr, errors));
    }
    let reader = BufReader::with_capacity(rt.alloc(), READ_AHEAD, rt.reader())?;
    let pumped = pump_words(
        rt,
        rt.alloc(),
        words.as_slice(),
        reader,
        &mut io::writer(rt),
        errors,
    );
    Ok(pumped.status)
}

/// Returns whether the arguments ask for the server on standard input and output.
fn is_serve(words: &[String]) -> bool
    ensures { result ≡ asks_serve words.now }
{
    match words {
        [] => true,
        [word] => word.as_str() == "serve",
        _ => false,
    }
}

/// Returns the address at which the arguments ask for the server.
fn tcp_address(words: &[String]) -> Option<&str>
    ensures { option_map (λ addr. addr.now) result ≡ asked_address words.now }
{
    match words {
        [word, addr] if word.as_str() == "tcp" => Some(addr.as_str()),
        _ => None,
    }
}

/// Prints why the program did not begin. An argument that is no text is a wrong one; everything else is a lack of
/// memory.
fn refused<E: Write>(kind: ErrorKind, errors: &mut E) -> u8
    ensures { result ≡ 1 }
{
    match kind {
        ErrorKind::InvalidData => report_usage(errors),
        _ => report(errors, "out of memory"),
    }
}
