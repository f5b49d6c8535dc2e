// The judgement of a log.
use crate::log::{Log, Step};
use crate::outcome::Outcome;
use crate::passed::Passing;
use crate::reader::Found;
use crate::report::Report;
use crate::sessions::Sessions;
use anyhow::Result;
use lsp_watch::LoggedMessage;
use std::io::{BufRead, Write};

const SHORT: &str =
    "the messages of this log have no params: only ids and the lifecycle are judged (:format full has all)";

/// Judges a log, reports what it finds, and returns the outcome.
pub fn judge_lines<B: BufRead, W: Write>(
    report: &Report<'_>,
    reader: &mut B,
    out: &mut W,
) -> Result<Outcome> {
    let mut lines = Lines {
        log: Log::new(report.alloc),
        sessions: Sessions::new(report.alloc),
        is_whole: true,
    };
    let outcome = lines.judge(report, reader, out);
    drop(lines);
    outcome
}

/// What is judged of a log.
#[derive(Drop)]
struct Lines {
    log: Log,
    sessions: Sessions,
    is_whole: bool,
}

impl Lines {
    fn judge<B: BufRead, W: Write>(
        &mut self,
        report: &Report<'_>,
        reader: &mut B,
        out: &mut W,
    ) -> Result<Outcome> {
        for _ in 0..u64::MAX {
            match self.log.next(reader)? {
                Step::Found(found) => self.see(&found, report, out)?,
                Step::End => break,
                step => self.skip(step, report, out)?,
            }
        }
        if self.log.is_short() {
            report.note(SHORT, out)?;
        }
        Ok(Outcome {
            is_broken: self.sessions.end(report, out)?,
            is_judged: !self.sessions.is_empty(),
            is_whole: self.is_whole,
        })
    }

    /// Judges a message, unless it is to be skipped.
    fn see<W: Write>(&mut self, found: &Found, report: &Report<'_>, out: &mut W) -> Result<()> {
        let message = LoggedMessage::from_content(report.alloc, self.log.body())?;
        if self.log.skips(&message) {
            drop(message);
            let step = self.log.unread(found.line);
            return self.skip(step, report, out);
        }
        let mut passing = Passing::new(found.direction, message);
        passing.time = found.time;
        passing.took = found.took;
        passing.types = self.log.shows_types();
        let seen = self
            .sessions
            .see(&self.log, found.line, &passing, report, out);
        drop(passing);
        seen
    }

    /// Tells what is skipped.
    fn skip<W: Write>(&mut self, step: Step, report: &Report<'_>, out: &mut W) -> Result<()> {
        match step {
            Step::Skipped(line, why) => {
                self.is_whole = false;
                report.stop(line, why, out)
            }
            Step::Cut(line, why) => report.stop(line, why, out),
            Step::Found(_) | Step::End => Ok(()),
        }
    }
}
