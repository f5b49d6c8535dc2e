// The judgement of files.
use crate::command_line::form_of;
use crate::frames::Frames;
use crate::merged::{Side, judge_frames};
use crate::refuse;
use anyhow::Result;
use clap::ArgMatches;
use lsp_judge::choice::Choice;
use lsp_judge::format::KNOWN;
use lsp_judge::lines::judge_lines;
use lsp_judge::outcome::Outcome;
use lsp_judge::report::{Form, Places, Report, SECOND};
use std::alloc::Global;
use std::cell::Cell;
use std::fs;
use std::io::{BufRead, BufReader, Write};
use std::rt::Files;

/// Judges each file that the arguments name, and returns the outcome of all. A file that can't be read is reported.
pub fn judge_files<R: Files + Input + AllocGlobal, E: Write, W: Write>(
    rt: &R,
    matches: &ArgMatches<'_>,
    choice: &Choice,
    errors: &mut E,
    out: &mut W,
) -> Result<Outcome> {
    let form = form_of(matches);
    if matches.get_flag("log") {
        writeln!(
            errors,
            "lsp_check: --log is not needed: the log is recognised"
        )?;
    }
    let has_reported = Cell::new(false);
    Report::begin(rt.alloc(), form, out)?;
    let mut outcome = Outcome::new();
    match (matches.get_str("to-server"), matches.get_str("to-client")) {
        (Some(first), Some(second)) => {
            let places = Places {
                first,
                second: Some(second),
            };
            let report = report_of(rt.alloc(), form, places, choice, &has_reported);
            outcome = judge_pair(rt, &report, first, second, errors, out)?;
        }
        _ => {
            for file in matches.get_strs("FILE").unwrap_or(&[]) {
                let places = Places {
                    first: file,
                    second: None,
                };
                let report = report_of(rt.alloc(), form, places, choice, &has_reported);
                outcome = outcome.and(judge_file(rt, &report, file, errors, out)?);
            }
        }
    }
    Report::end(form, out)?;
    Ok(outcome)
}

/// The report on what stands at these places.
pub fn report_of<'a>(
    alloc: Global,
    form: Form,
    places: Places<'a>,
    choice: &'a Choice,
    has_reported: &'a Cell<bool>,
) -> Report<'a> {
    Report {
        alloc,
        form,
        places,
        server: "",
        choice,
        may_begin_late: places.second.is_none(),
        has_reported,
    }
}

/// Judges a file. One that can't be opened is not judged.
fn judge_file<R: Files + Input + AllocGlobal, E: Write, W: Write>(
    rt: &R,
    report: &Report<'_>,
    file: &str,
    errors: &mut E,
    out: &mut W,
) -> Result<Outcome> {
    if file == "-" {
        let mut reader = BufReader::new(rt.alloc(), rt.reader())?;
        return judge_reader(report, &mut reader, errors, out);
    }
    match fs::open(rt, file) {
        Ok(opened) => {
            let mut reader = BufReader::new(rt.alloc(), opened)?;
            judge_reader(report, &mut reader, errors, out)
        }
        Err(error) => {
            drop(out.flush());
            refuse(errors, file, error.into());
            Ok(Outcome::unjudged())
        }
    }
}

/// Judges what a reader has. If it can't be read on, not all was read.
fn judge_reader<B: BufRead, E: Write, W: Write>(
    report: &Report<'_>,
    reader: &mut B,
    errors: &mut E,
    out: &mut W,
) -> Result<Outcome> {
    let file = report.places.first;
    report.begin_file(out)?;
    let outcome = match judge_lines(report, reader, out) {
        Ok(outcome) => say_if_empty(outcome, file, errors)?,
        Err(error) => {
            drop(out.flush());
            refuse(errors, file, error);
            Outcome::unread()
        }
    };
    report.end_file(out)?;
    Ok(outcome)
}

/// Tells if there was no message.
fn say_if_empty<E: Write>(outcome: Outcome, file: &str, errors: &mut E) -> Result<Outcome> {
    if !outcome.is_judged {
        writeln!(errors, "{file}: {KNOWN}")?;
    }
    Ok(outcome)
}

fn judge_pair<R: Files + AllocGlobal, E: Write, W: Write>(
    rt: &R,
    report: &Report<'_>,
    to_server: &str,
    to_client: &str,
    errors: &mut E,
    out: &mut W,
) -> Result<Outcome> {
    let alloc = rt.alloc();
    let (sent, came) = match (fs::open(rt, to_server), fs::open(rt, to_client)) {
        (Ok(sent), Ok(came)) => (sent, came),
        (Err(error), _) => {
            refuse(errors, to_server, error.into());
            return Ok(Outcome::unjudged());
        }
        (_, Err(error)) => {
            refuse(errors, to_client, error.into());
            return Ok(Outcome::unjudged());
        }
    };
    let mut client = Side {
        reader: BufReader::new(alloc, sent)?,
        frames: Frames::new(alloc),
        begin: 0,
    };
    let mut server = Side {
        reader: BufReader::new(alloc, came)?,
        frames: Frames::new(alloc),
        begin: SECOND,
    };
    report.begin_file(out)?;
    let outcome = judge_frames(report, &mut client, &mut server, out)?;
    report.end_file(out)?;
    say_if_empty(outcome, to_server, errors)
}
