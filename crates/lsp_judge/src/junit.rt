// What there is to tell, as a document of JUnit's XML, which CI servers show as tests.
use crate::report::Report;
use crate::reported::{Counts, Kind, Reported};
use crate::text::print;
use anyhow::Result;
use std::io::Write;

/// Writes what stands before the first file.
pub fn begin<W: Write>(out: &mut W) -> Result<()> {
    writeln!(out, "<?xml version=\"1.0\" encoding=\"UTF-8\"?>")?;
    Ok(writeln!(out, "<testsuites name=\"lsp_check\">")?)
}

/// Writes what stands after the last file.
pub fn end<W: Write>(out: &mut W) -> Result<()> {
    Ok(writeln!(out, "</testsuites>")?)
}

/// Writes what stands before the cases of a file.
pub fn begin_file<W: Write>(report: &Report<'_>, out: &mut W) -> Result<()> {
    write!(out, "<testsuite name=\"")?;
    put_escaped(report.places.first, out)?;
    Ok(writeln!(out, "\">")?)
}

/// Writes what stands after the cases of a file.
pub fn end_file<W: Write>(out: &mut W) -> Result<()> {
    Ok(writeln!(out, "</testsuite>")?)
}

/// A breach is a test that failed if it makes the status 1. Each other thing is a test that was skipped.
pub fn tell<W: Write>(report: &Report<'_>, reported: &Reported<'_>, out: &mut W) -> Result<()> {
    let rule = reported.rule.map_or(reported.kind.name(), |it| it.name());
    let (_, at) = report.places.at(reported.place);
    write!(out, "<testcase classname=\"")?;
    put_escaped(report.places.first, out)?;
    write!(out, "\" name=\"{rule}, {} {at}\">", report.places.unit())?;
    let element = if reported.kind == Kind::Breach && reported.fails {
        "failure"
    } else {
        "skipped"
    };
    write!(out, "<{element} message=\"")?;
    let mut text = Vec::new(report.alloc);
    print(report, reported, &mut text)?;
    put_escaped(std::str::from_utf8(text.as_slice()).unwrap_or(""), out)?;
    Ok(writeln!(out, "\"/></testcase>")?)
}

/// That the session was judged is a test that passed.
pub fn counts<W: Write>(report: &Report<'_>, counts: &Counts, out: &mut W) -> Result<()> {
    write!(out, "<testcase classname=\"")?;
    put_escaped(report.places.first, out)?;
    write!(out, "\" name=\"judged ")?;
    put_escaped(report.server, out)?;
    for (name, count) in &counts.named() {
        write!(out, " {name} {count}")?;
    }
    Ok(writeln!(out, "\"/>")?)
}

/// A text as XML has it. Characters that XML does not have are question marks.
pub fn put_escaped<W: Write>(text: &str, out: &mut W) -> Result<()> {
    for character in text.chars() {
        match character {
            '&' => write!(out, "&amp;")?,
            '<' => write!(out, "&lt;")?,
            '>' => write!(out, "&gt;")?,
            '"' => write!(out, "&quot;")?,
            '\'' => write!(out, "&#39;")?,
            '\t' | '\n' | '\r' => write!(out, " ")?,
            '\0'..='\u{1f}' | '\u{fffe}' | '\u{ffff}' => write!(out, "?")?,
            character => write!(out, "{character}")?,
        }
    }
    Ok(())
}
