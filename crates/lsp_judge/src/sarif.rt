// What there is to tell, as one object of SARIF 2.1.0, which code hosts show beside the lines.
use crate::json::quoted;
use crate::report::Report;
use crate::reported::{Kind, Reported};
use anyhow::Result;
use lsp_watch::{Level, Rule, rules};
use std::alloc::Global;
use std::io::Write;

/// The tool and its rules, up to the first result.
pub fn begin<W: Write>(alloc: Global, out: &mut W) -> Result<()> {
    write!(
        out,
        "{{\"$schema\":\"https://json.schemastore.org/sarif-2.1.0.json\",\"version\":\"2.1.0\",\"runs\":[{{\"tool\":{{\"driver\":"
    )?;
    write!(out, "{{\"name\":\"lsp_check\",\"rules\":[")?;
    let mut mark = "";
    for rule in rules(alloc)?.iter() {
        write!(out, "{mark}")?;
        put_rule(alloc, *rule, out)?;
        mark = ",";
    }
    Ok(write!(out, "]}}}},\"results\":[")?)
}

/// What stands after the last result.
pub fn end<W: Write>(out: &mut W) -> Result<()> {
    Ok(writeln!(out, "]}}]}}")?)
}

fn put_rule<W: Write>(alloc: Global, rule: Rule, out: &mut W) -> Result<()> {
    let name = rule.name();
    let sentence = quoted(alloc, rule.sentence())?;
    let section = quoted(alloc, rule.section())?;
    let level = match rule.level() {
        Level::Must => "error",
        Level::Should => "warning",
        Level::Implied => "note",
    };
    Ok(write!(
        out,
        "{{\"id\":\"{name}\",\"shortDescription\":{{\"text\":{sentence}}},\"help\":{{\"text\":{section}}},\"defaultConfiguration\":{{\"level\":\"{level}\"}}}}"
    )?)
}

/// A breach is an error if it makes the status 1, and otherwise a warning. Everything else is a note.
pub fn tell<W: Write>(report: &Report<'_>, reported: &Reported<'_>, out: &mut W) -> Result<()> {
    let level = match reported.kind {
        Kind::Breach if reported.fails => "error",
        Kind::Breach => "warning",
        Kind::CannotTell | Kind::Open | Kind::Stop => "note",
    };
    let mark = if report.has_reported.replace(true) {
        ","
    } else {
        ""
    };
    write!(out, "{mark}\n{{")?;
    if let Some(rule) = reported.rule {
        write!(out, "\"ruleId\":\"{}\",", rule.name())?;
    }
    let text = format!(in report.alloc; "{} {}", reported.method.unwrap_or(""), reported.text)?;
    let text = quoted(report.alloc, text.as_str().trim_start())?;
    write!(
        out,
        "\"level\":\"{level}\",\"message\":{{\"text\":{text}}},\"locations\":["
    )?;
    put_location(report, reported.place, out)?;
    write!(out, "]")?;
    if let Some(against) = reported.against {
        write!(out, ",\"relatedLocations\":[")?;
        put_location(report, against, out)?;
        write!(out, "]")?;
    }
    Ok(write!(out, "}}")?)
}

fn put_location<W: Write>(report: &Report<'_>, place: u64, out: &mut W) -> Result<()> {
    let (file, at) = report.places.at(place);
    write!(
        out,
        "{{\"physicalLocation\":{{\"artifactLocation\":{{\"uri\":\""
    )?;
    put_uri(file, out)?;
    let unit = match report.places.second {
        Some(_) => "byteOffset",
        None => "startLine",
    };
    Ok(write!(out, "\"}},\"region\":{{\"{unit}\":{at}}}}}}}")?)
}

/// A path as a relative reference (RFC 3986): each byte that may not stand there is escaped.
fn put_uri<W: Write>(path: &str, out: &mut W) -> Result<()> {
    for byte in path.as_bytes() {
        if byte.is_ascii_alphanumeric() || matches!(byte, b'/' | b'.' | b'-' | b'_' | b'~') {
            out.write_all(&[*byte])?;
        } else {
            write!(out, "%{byte:02X}")?;
        }
    }
    Ok(())
}
