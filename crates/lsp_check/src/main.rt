//! Judges what passed between a client and a server, by the rules of `lsp_watch`. `lsp_check --help` says how it is
//! called.
#![tactic(auto)]

mod between;
mod command_line;
mod files;
mod frames;
mod html;
mod merged;
mod pairs;
mod shown;
mod stats;

use anyhow::{Error, Result};
use between::judge_between;
use clap::ArgMatches;
use command_line::{choice_of, command, form_of};
use files::{judge_files, report_of};
use lsp_judge::choice::Choice;
use lsp_judge::report::{Form, Places};
use lsp_judge::rules_list::tell_rules;
use shown::{show_html, show_stats};
use std::cell::Cell;
use std::io::{BufWriter, Write};
use std::net::{Net, OpenListener, TcpListener, TcpStream};
use std::process::ExitCode;
use std::rt::{Env, Files};
use std::sync::Wait;
use std::thread::Threads;
use std::{env, io};

fn main(rt: HostRuntime) -> ExitCode {
    let mut errors = rt.stderr();
    ExitCode::from(match status(&rt, &mut errors) {
        Ok(status) => status,
        Err(error) => refuse(&mut errors, "lsp_check", error),
    })
}

/// Says why nothing more is judged, and gives the exit status.
pub fn refuse<E: Write>(errors: &mut E, what: &str, error: Error) -> u8 {
    drop(writeln!(errors, "{what}: {error}"));
    3
}

/// Judges what the arguments name, and gives the exit status.
fn status<R, E: Write>(rt: &R, errors: &mut E) -> Result<u8>
where
    R: Env
        + Files
        + Net
        + Threads
        + Wait
        + AllocGlobal
        + Print
        + Eprint
        + Input
        + Copy
        + Drop
        + Send
        + 'static,
    R::Stream: Send + 'static,
{
    let arguments: Vec<String> = env::args(rt)?.collect(rt.alloc())?;
    match command(rt.alloc())?.try_get_matches_from(arguments.as_slice()) {
        Ok(matches) => {
            let mut out = BufWriter::new(rt.alloc(), io::writer(rt))?;
            let status = run(rt, &matches, errors, &mut out)?;
            out.flush()?;
            Ok(status)
        }
        Err(error) => {
            error.print(rt)?;
            Ok(u8::try_from(error.exit_code()).unwrap_or(2))
        }
    }
}

/// Does what the arguments say, and gives the exit status.
fn run<R, E: Write, W: Write>(
    rt: &R,
    matches: &ArgMatches<'_>,
    errors: &mut E,
    out: &mut W,
) -> Result<u8>
where
    R: Files + Net + Threads + Wait + AllocGlobal + Input + Copy + Drop + Send + 'static,
    R::Stream: Send + 'static,
{
    if let Some(matches) = matches.subcommand_matches("rules") {
        tell_rules(rt.alloc(), form_of(matches), out)?;
        return Ok(0);
    }
    if let Some(matches) = matches.subcommand_matches("stats") {
        return show_stats(rt, matches, errors, out);
    }
    if let Some(matches) = matches.subcommand_matches("html") {
        return show_html(rt, matches, errors, out);
    }
    let between = matches.subcommand_matches("between");
    let choice = match choice_of(rt.alloc(), between.unwrap_or(matches)) {
        Ok(choice) => choice,
        Err(error) => {
            refuse(errors, "lsp_check", error);
            return Ok(2);
        }
    };
    match between {
        Some(matches) => serve(rt, matches, &choice, errors, out),
        None => Ok(judge_files(rt, matches, &choice, errors, out)?.status()),
    }
}

/// Judges the sessions of clients with a server, one after another, and gives the status of the only one.
fn serve<R, E: Write, W: Write>(
    rt: &R,
    matches: &ArgMatches<'_>,
    choice: &Choice,
    errors: &mut E,
    out: &mut W,
) -> Result<u8>
where
    R: Net + Threads + Wait + AllocGlobal + Copy + Drop + Send + 'static,
    R::Stream: Send + 'static,
{
    let (Some(listen), Some(server)) = (matches.get_str("LISTEN"), matches.get_str("SERVER")) else {
        return Ok(2);
    };
    let form = form_of(matches);
    let listener = TcpListener::bind(rt, listen)?;
    for _ in rt.forever() {
        let (client, _peer) = listener.accept()?;
        let status = judge_client(rt, form, choice, client, server, errors, out)?;
        if matches.get_flag("once") {
            return Ok(status);
        }
    }
    Ok(0)
}

/// Judges the session of a client with a server, and gives its status: 2 if the server can't be reached.
fn judge_client<R, E: Write, W: Write>(
    rt: &R,
    form: Form,
    choice: &Choice,
    client: R::Stream,
    address: &str,
    errors: &mut E,
    out: &mut W,
) -> Result<u8>
where
    R: Net + Threads + Wait + AllocGlobal + Copy + Drop + Send + 'static,
    R::Stream: Send + 'static,
{
    let server = match TcpStream::connect(rt, address) {
        Ok(server) => server,
        Err(error) => {
            writeln!(
                errors,
                "lsp_check: no connection to the server at {address}: {error}"
            )?;
            return Ok(2);
        }
    };
    let has_reported = Cell::new(false);
    let places = Places {
        first: "client",
        second: Some("server"),
    };
    let report = report_of(rt.alloc(), form, places, choice, &has_reported);
    let judged = match form {
        Form::Json => judge_between(rt, client, server, &report, out),
        _ => judge_between(rt, client, server, &report, errors),
    };
    match judged {
        Ok(outcome) => Ok(outcome.status()),
        Err(error) => Ok(refuse(errors, address, error)),
    }
}
