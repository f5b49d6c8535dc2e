// What there is to tell, as lines that a person, an editor and a CI can read.
use crate::report::Report;
use crate::reported::{About, Counts, Kind, Reported};
use anyhow::Result;
use std::io::Write;

/// `file:line: direction method id: rule; see line N`.
pub fn tell<W: Write>(report: &Report<'_>, reported: &Reported<'_>, out: &mut W) -> Result<()> {
    print(report, reported, out)?;
    Ok(writeln!(out)?)
}

/// The same without the end of the line.
pub fn print<W: Write>(report: &Report<'_>, reported: &Reported<'_>, out: &mut W) -> Result<()> {
    let (file, at) = report.places.at(reported.place);
    write!(out, "{file}:{at}: ")?;
    if let Some(direction) = reported.direction {
        write!(out, "{direction}")?;
        if let Some(method) = reported.method {
            write!(out, " {method}")?;
        }
        match reported.about {
            About::Nothing => {}
            About::Id(it) | About::Token(it) | About::Uri(it) => write!(out, " {it}")?,
        }
        write!(out, ": ")?;
    }
    if reported.kind == Kind::CannotTell {
        write!(out, "perhaps ")?;
    }
    write!(out, "{}", reported.text)?;
    match reported.against {
        Some(against) => print_see(report, file, against, out),
        None => Ok(()),
    }
}

/// Where another message stands.
fn print_see<W: Write>(report: &Report<'_>, beside: &str, place: u64, out: &mut W) -> Result<()> {
    let (file, at) = report.places.at(place);
    let unit = report.places.unit();
    write!(out, "; see {unit} {at}")?;
    if file != beside {
        write!(out, " of {file}")?;
    }
    Ok(())
}

/// How many there were of each.
pub fn counts<W: Write>(report: &Report<'_>, counts: &Counts, out: &mut W) -> Result<()> {
    write!(out, "{}", report.places.first)?;
    if let Some(second) = report.places.second {
        write!(out, ", {second}")?;
    }
    if !report.server.is_empty() {
        write!(out, ": {}", report.server)?;
    }
    print_counts(counts, out)?;
    if let Some(slowest) = counts.slowest {
        write!(out, ", slowest reply {} ms", slowest.milliseconds)?;
        print_see(report, report.places.first, slowest.request, out)?;
    }
    Ok(writeln!(out)?)
}

fn print_counts<W: Write>(counts: &Counts, out: &mut W) -> Result<()> {
    let mut mark = ":";
    for (name, count) in &counts.named() {
        write!(out, "{mark} {name} {count}")?;
        mark = ",";
    }
    Ok(())
}
