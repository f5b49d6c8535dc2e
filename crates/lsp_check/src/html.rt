// A page that shows the session of a log: a bar for each request, and what breaks a rule. It has nothing from elsewhere.
use crate::pairs::{Pair, Pairs};
use anyhow::Result;
use lsp_judge::choice::Choice;
use lsp_judge::junit::put_escaped;
use lsp_judge::log::{Log, Step};
use lsp_judge::passed::Passing;
use lsp_judge::reader::Found;
use lsp_judge::report::{Form, Places, Report};
use lsp_judge::sessions::Sessions;
use lsp_watch::{Direction, LoggedMessage};
use std::alloc::{AllocError, Global};
use std::cell::Cell;
use std::collections::BTreeMap;
use std::io::{BufRead, Write};

/// How many requests have a bar of their own.
const MOST_BARS: usize = 2000;

/// Where the last bar begins, in parts of ten thousand, so that it is seen.
const MOST_LEFT: u64 = 9970;

/// How many breaches are shown.
const MOST_BREACHES: usize = 1000;

const STYLE: &str = "\
body{font:14px/1.4 system-ui,sans-serif;margin:1.5em;color:#222;background:#fff}\
h1{font-size:20px;margin:0 0 .3em}h2{font-size:16px;margin:1.2em 0 .4em}\
.row{display:grid;grid-template-columns:5em 22em 7em 1fr;gap:.6em;align-items:center;border-bottom:1px solid #eee}\
.row:hover{background:#f4f8ff}.row span{overflow:hidden;text-overflow:ellipsis;white-space:nowrap}\
.n{text-align:right;color:#666;font-variant-numeric:tabular-nums}\
.t{position:relative;height:14px;background:#fafafa}\
.b{position:absolute;top:2px;height:10px;min-width:3px;border-radius:2px;background:#4a84c4}\
.s{background:#8a63b8}.e{background:#d08a2e}.c{background:#aaa}\
.o{background:repeating-linear-gradient(45deg,#c33,#c33 4px,#f3b0b0 4px,#f3b0b0 8px)}\
.x{color:#b00}ul{padding-left:1.2em;margin:.3em 0}li{overflow-wrap:anywhere}\
.k{display:inline-block;width:12px;height:10px;border-radius:2px;margin:0 .3em 0 1em}\
.k.b{position:static}table{border-collapse:collapse}td,th{padding:.1em .8em .1em 0;text-align:left}";

/// What is shown of a log.
#[derive(Drop)]
pub struct Page {
    alloc: Global,
    bars: Vec<Pair>,
    /// How many requests of a method have no bar.
    others: BTreeMap<String, u64>,
    reported: Vec<u8>,
    breaches: Vec<String>,
    more_breaches: u64,
    first: Option<u64>,
    last: Option<u64>,
    lines: u64,
}

impl Page {
    pub fn new(alloc: Global) -> Page {
        Page {
            alloc,
            bars: Vec::new(alloc),
            others: BTreeMap::new(alloc),
            reported: Vec::new(alloc),
            breaches: Vec::new(alloc),
            more_breaches: 0,
            first: None,
            last: None,
            lines: 1,
        }
    }

    /// Takes in a log, and says whether it had a message.
    pub fn read<B: BufRead>(
        &mut self,
        file: &str,
        choice: &Choice,
        reader: &mut B,
    ) -> Result<bool> {
        let has_reported = Cell::new(false);
        let report = Report {
            alloc: self.alloc,
            form: Form::Text,
            places: Places {
                first: file,
                second: None,
            },
            server: "",
            choice,
            may_begin_late: true,
            has_reported: &has_reported,
        };
        let mut log = Log::new(self.alloc);
        let mut pairs = Pairs::new(self.alloc);
        let mut sessions = Sessions::new(self.alloc);
        for _ in 0..u64::MAX {
            match log.next(reader)? {
                Step::Found(found) => {
                    self.see(&found, &log, &mut pairs, &mut sessions, &report)?;
                }
                Step::Skipped(..) | Step::Cut(..) => {}
                Step::End => break,
            }
        }
        self.end(&mut pairs, &mut sessions, &report)?;
        Ok(pairs.has_seen())
    }

    fn see(
        &mut self,
        found: &Found,
        log: &Log,
        pairs: &mut Pairs,
        sessions: &mut Sessions,
        report: &Report<'_>,
    ) -> Result<()> {
        self.lines = found.line;
        self.first = self.first.or(found.time);
        self.last = found.time.or(self.last);
        if let Some(pair) = pairs.see(found, log)? {
            self.add(pair)?;
        }
        let message = LoggedMessage::from_content(self.alloc, log.body())?;
        if log.skips(&message) {
            drop(message);
            return Ok(());
        }
        let mut passing = Passing::new(found.direction, message);
        passing.time = found.time;
        passing.took = found.took;
        let seen = sessions.see(log, found.line, &passing, report, &mut self.reported);
        drop(passing);
        seen?;
        Ok(self.keep_reported()?)
    }

    /// What is open, and what that breaks.
    fn end(
        &mut self,
        pairs: &mut Pairs,
        sessions: &mut Sessions,
        report: &Report<'_>,
    ) -> Result<()> {
        sessions.end(report, &mut self.reported)?;
        self.keep_reported()?;
        for _ in 0..u64::MAX {
            match pairs.take_open() {
                Some(pair) => self.add(pair)?,
                None => break,
            }
        }
        Ok(self.bars.sort_by_key(|it| it.line)?)
    }

    /// A bar, or one more of those that have none.
    fn add(&mut self, pair: Pair) -> Result<(), AllocError> {
        if self.bars.len() < MOST_BARS {
            return Ok(self.bars.push(pair)?);
        }
        let name = format!(in self.alloc; "{} {}", pair.direction, pair.method);
        drop(pair);
        let name = name?;
        if self.others.len() < MOST_BARS || self.others.contains_key(name.as_str()) {
            let count = self.others.entry(name)?.or_insert(0);
            *count = count.saturating_add(1);
        }
        Ok(())
    }

    /// Takes the lines that were reported.
    fn keep_reported(&mut self) -> Result<(), AllocError> {
        let reported = std::str::from_utf8(self.reported.as_slice()).unwrap_or("");
        for line in reported.lines() {
            if self.breaches.len() < MOST_BREACHES {
                self.breaches.push(String::from_str(self.alloc, line)?)?;
            } else {
                self.more_breaches = self.more_breaches.saturating_add(1);
            }
        }
        self.reported.clear();
        Ok(())
    }

    /// Writes the page.
    pub fn write<W: Write>(&self, file: &str, out: &mut W) -> Result<()> {
        write!(
            out,
            "<!DOCTYPE html>\n<html lang=\"en\"><head><meta charset=\"utf-8\"><title>"
        )?;
        put_escaped(file, out)?;
        write!(out, "</title><style>{STYLE}</style></head><body>\n<h1>")?;
        put_escaped(file, out)?;
        writeln!(out, "</h1>")?;
        self.write_breaches(out)?;
        self.write_legend(out)?;
        for bar in self.bars.iter() {
            self.write_bar(bar, out)?;
        }
        self.write_others(out)?;
        Ok(writeln!(out, "</body></html>")?)
    }

    fn write_breaches<W: Write>(&self, out: &mut W) -> Result<()> {
        writeln!(out, "<h2>What was found</h2>\n<ul>")?;
        for breach in self.breaches.iter() {
            write!(out, "<li>")?;
            put_escaped(breach.as_str(), out)?;
            writeln!(out, "</li>")?;
        }
        if self.more_breaches > 0 {
            writeln!(out, "<li>and {} more</li>", self.more_breaches)?;
        }
        Ok(writeln!(out, "</ul>")?)
    }

    fn write_legend<W: Write>(&self, out: &mut W) -> Result<()> {
        let scale = match (self.first, self.last) {
            (Some(first), Some(last)) => {
                format!(in self.alloc; "The time line is {} ms wide.", last.saturating_sub(first))?
            }
            _ => {
                format!(in self.alloc;
                    "The time line is {} lines wide, since the log has no times.",
                    self.lines
                )?
            }
        };
        writeln!(out, "<h2>Requests</h2>\n<p>{scale}")?;
        for (class, what) in [
            ("b", "the client asked"),
            ("b s", "the server asked"),
            ("b e", "an error came"),
            ("b c", "cancelled"),
            ("b o", "no reply"),
        ] {
            write!(out, "<span class=\"k {class}\"></span>{what}")?;
        }
        Ok(writeln!(out, "</p>")?)
    }

    fn write_bar<W: Write>(&self, bar: &Pair, out: &mut W) -> Result<()> {
        let (begin, end) = self.ends_of(bar);
        let class = match bar.direction {
            _ if bar.end.is_none() => "b o",
            _ if bar.is_cancelled => "b c",
            _ if bar.is_error => "b e",
            Direction::ToServer => "b",
            Direction::ToClient => "b s",
        };
        write!(
            out,
            "<div class=\"row\"><span class=\"n\">{}</span><span title=\"",
            bar.line
        )?;
        put_escaped(bar.method.as_str(), out)?;
        write!(out, "\">")?;
        put_escaped(bar.method.as_str(), out)?;
        write!(out, "</span><span class=\"n\">")?;
        match bar.took {
            Some(time) => write!(out, "{time} ms")?,
            None if bar.end.is_none() => write!(out, "<b class=\"x\">no reply</b>")?,
            None => {}
        }
        let (left, width) = (begin.min(MOST_LEFT), end.saturating_sub(begin));
        Ok(writeln!(
            out,
            "</span><span class=\"t\"><i class=\"{class}\" style=\"left:{}.{:02}%;width:{}.{:02}%\"></i></span></div>",
            left / 100,
            left % 100,
            width / 100,
            width % 100
        )?)
    }

    /// Where a bar begins and ends, in parts of ten thousand.
    fn ends_of(&self, bar: &Pair) -> (u64, u64) {
        match (self.first, self.last, bar.time) {
            (Some(first), Some(last), Some(begun)) => {
                let all = last.saturating_sub(first);
                let begun = begun.saturating_sub(first);
                let ended = match bar.took {
                    Some(took) => begun.saturating_add(took),
                    None => all,
                };
                (share(begun, all), share(ended, all))
            }
            _ => (
                share(bar.line, self.lines),
                share(bar.end.unwrap_or(self.lines), self.lines),
            ),
        }
    }

    fn write_others<W: Write>(&self, out: &mut W) -> Result<()> {
        if self.others.is_empty() {
            return Ok(());
        }
        writeln!(
            out,
            "<h2>More requests</h2>\n<table><tr><th>count</th><th>method</th></tr>"
        )?;
        for (name, count) in self.others.iter() {
            write!(out, "<tr><td class=\"n\">{count}</td><td>")?;
            put_escaped(name.as_str(), out)?;
            writeln!(out, "</td></tr>")?;
        }
        Ok(writeln!(out, "</table>")?)
    }
}

/// A part of all, in parts of ten thousand.
fn share(part: u64, all: u64) -> u64 {
    match part.min(all).saturating_mul(10_000).checked_div(all) {
        Some(share) => share,
        None => 0,
    }
}
