// What is shown of logs: statistics, and a page.
use crate::command_line::form_of;
use crate::html::Page;
use crate::refuse;
use crate::stats::Stats;
use anyhow::Result;
use clap::ArgMatches;
use lsp_judge::choice::{Choice, FailOn};
use lsp_judge::format::KNOWN;
use lsp_watch::Level;
use std::fs;
use std::io::{BufReader, Write};
use std::rt::Files;

/// Counts the requests of all files, and gives the exit status: 2 if a file can't be opened or has no message, and 3 if one can't be read
/// to its end.
pub fn show_stats<R: Files + Input + AllocGlobal, E: Write, W: Write>(
    rt: &R,
    matches: &ArgMatches<'_>,
    errors: &mut E,
    out: &mut W,
) -> Result<u8> {
    let mut stats = Stats::new(rt.alloc());
    let mut status = 0;
    for file in matches.get_strs("FILE").unwrap_or(&[]) {
        if !read_stats(rt, &mut stats, file, errors)? {
            status = 2;
        }
    }
    stats.tell(form_of(matches), out)?;
    Ok(status)
}

/// Counts the requests of a file, and returns whether it had a message. If it had none, that is reported.
fn read_stats<R: Files + Input + AllocGlobal, E: Write>(
    rt: &R,
    stats: &mut Stats,
    file: &str,
    errors: &mut E,
) -> Result<bool> {
    let has_message = if file == "-" {
        let mut reader = BufReader::new(rt.alloc(), rt.reader())?;
        stats.read(&mut reader)?
    } else {
        match fs::open(rt, file) {
            Ok(opened) => {
                let mut reader = BufReader::new(rt.alloc(), opened)?;
                stats.read(&mut reader)?
            }
            Err(error) => {
                refuse(errors, file, error.into());
                return Ok(false);
            }
        }
    };
    if !has_message {
        writeln!(errors, "{file}: {KNOWN}")?;
    }
    Ok(has_message)
}

/// Writes a page that shows the first file, and gives the exit status.
pub fn show_html<R: Files + Input + AllocGlobal, E: Write, W: Write>(
    rt: &R,
    matches: &ArgMatches<'_>,
    errors: &mut E,
    out: &mut W,
) -> Result<u8> {
    let Some([file]) = matches.get_strs("FILE") else {
        writeln!(errors, "lsp_check: html takes one file")?;
        return Ok(2);
    };
    let choice = Choice {
        fail_on: FailOn::Both,
        level: Level::Implied,
        ignored: Vec::new(rt.alloc()),
        capabilities: false,
        types: Vec::new(rt.alloc()),
    };
    let mut page = Page::new(rt.alloc());
    let has_message = if *file == "-" {
        let mut reader = BufReader::new(rt.alloc(), rt.reader())?;
        page.read(file, &choice, &mut reader)?
    } else {
        let mut reader = BufReader::new(rt.alloc(), fs::open(rt, file)?)?;
        page.read(file, &choice, &mut reader)?
    };
    if !has_message {
        writeln!(errors, "{file}: {KNOWN}")?;
        return Ok(2);
    }
    page.write(file, out)?;
    Ok(0)
}
