// What there is to tell, as lines of JSON.
use crate::choice::culprit;
use crate::report::Report;
use crate::reported::{About, Counts, Reported};
use anyhow::Result;
use lsp_watch::Direction;
use serde_json::Value;
use std::alloc::{AllocError, Global};
use std::io::Write;

/// One thing.
pub fn tell<W: Write>(report: &Report<'_>, reported: &Reported<'_>, out: &mut W) -> Result<()> {
    write!(out, "{{\"kind\":\"{}\",", reported.kind.name())?;
    put_place(report, reported.place, out)?;
    if let Some(direction) = reported.direction {
        write!(out, ",\"way\":\"{direction}\"")?;
    }
    put_rule(reported, out)?;
    if let Some(method) = reported.method {
        put_text(report.alloc, "method", method, out)?;
    }
    put_text(report.alloc, "text", reported.text, out)?;
    match reported.about {
        About::Nothing => {}
        About::Id(id) => write!(out, ",\"id\":{id}")?,
        About::Uri(uri) => put_text(report.alloc, "uri", uri, out)?,
        About::Token(id) => write!(out, ",\"token\":{id}")?,
    }
    if let Some(against) = reported.against {
        write!(out, ",\"against\":{{")?;
        put_place(report, against, out)?;
        write!(out, "}}")?;
    }
    Ok(writeln!(out, "}}")?)
}

/// The rule, its level, whose breach it is, and whether that makes the status 1.
fn put_rule<W: Write>(reported: &Reported<'_>, out: &mut W) -> Result<()> {
    let (Some(rule), Some(direction)) = (reported.rule, reported.direction) else {
        return Ok(());
    };
    let name = rule.name();
    let level = rule.level();
    let side = side_name(culprit(rule, direction));
    let fails = reported.fails;
    Ok(write!(
        out,
        ",\"rule\":\"{name}\",\"level\":\"{level}\",\"side\":\"{side}\",\"fails\":{fails}"
    )?)
}

/// The side that sends in this direction.
pub fn side_name(direction: Direction) -> &'static str {
    match direction {
        Direction::ToServer => "client",
        Direction::ToClient => "server",
    }
}

fn put_place<W: Write>(report: &Report<'_>, place: u64, out: &mut W) -> Result<()> {
    let (file, at) = report.places.at(place);
    let file = quoted(report.alloc, file)?;
    let unit = report.places.unit();
    Ok(write!(out, "\"file\":{file},\"{unit}\":{at}")?)
}

fn put_text<W: Write>(alloc: Global, name: &str, text: &str, out: &mut W) -> Result<()> {
    let text = quoted(alloc, text)?;
    Ok(write!(out, ",\"{name}\":{text}")?)
}

/// A text as JSON has it.
pub fn quoted(alloc: Global, text: &str) -> Result<String, AllocError> {
    Value::String(String::from_str(alloc, text)?).to_string(alloc)
}

/// What is true of the whole file.
pub fn note<W: Write>(report: &Report<'_>, text: &str, out: &mut W) -> Result<()> {
    write!(out, "{{\"kind\":\"note\"")?;
    put_text(report.alloc, "file", report.places.first, out)?;
    put_text(report.alloc, "text", text, out)?;
    Ok(writeln!(out, "}}")?)
}

/// How many there were of each.
pub fn counts<W: Write>(report: &Report<'_>, counts: &Counts, out: &mut W) -> Result<()> {
    write!(out, "{{\"kind\":\"summary\"")?;
    put_text(report.alloc, "file", report.places.first, out)?;
    if let Some(second) = report.places.second {
        put_text(report.alloc, "second", second, out)?;
    }
    if !report.server.is_empty() {
        put_text(report.alloc, "server", report.server, out)?;
    }
    for (name, count) in &counts.named() {
        write!(out, ",\"{name}\":{count}")?;
    }
    if let Some(slowest) = counts.slowest {
        let milliseconds = slowest.milliseconds;
        write!(out, ",\"slowest\":{{\"milliseconds\":{milliseconds},")?;
        put_place(report, slowest.request, out)?;
        write!(out, "}}")?;
    }
    Ok(writeln!(out, "}}")?)
}
