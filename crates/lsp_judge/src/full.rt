// The judgement of a session by each rule.
ghost use Rattle.std.specs.Prelude.{◌≡◌, ◌||◌};
ghost use Rattle.lsp_judge.specs.Judged.{Judges, nothing};

use crate::choice::Choice;
use crate::judgement::{Ends, Judgement};
use crate::passed::Passing;
use crate::report::Report;
use crate::types::asked_at;
use anyhow::Result;
use lsp_model::{LineCounts, Misfit, Model};
use lsp_watch::{Breach, Rule};
use std::alloc::{AllocError, Global};
use std::io::Write;

/// The judgement of a session by each rule: by `LineOutside` too, which needs how many lines each open document has.
#[derive(Drop)]
pub struct FullJudgement {
    alloc: Global,
    judged: Judgement,
    lines: LineCounts,
    /// Whether a line is outside its document, so that the status is 1.
    is_outside: bool,
}

/// A breach of `LineOutside`, and where it is.
#[derive(Drop)]
struct Outside {
    breach: Breach,
    misfit: Option<Misfit>,
}

impl FullJudgement {
    /// Begins with a session that is seen from its first message on. `announces` says whether the rules of capabilities are judged too.
    /// Without a model no rule of types or texts is judged.
    pub fn new(alloc: Global, announces: bool, model: Option<Model>) -> FullJudgement
        ensures { Judges result.judged (nothing announces model) }
    {
        FullJudgement {
            alloc,
            judged: Judgement::new(alloc, announces, model),
            lines: LineCounts::new(alloc),
            is_outside: false,
        }
    }

    /// Sees one more message, and reports the rules that it breaks, as `Judgement::see` does.
    pub fn see<W: Write>(
        &mut self,
        place: u64,
        passing: &Passing,
        report: &Report<'_>,
        out: &mut W,
    ) -> Result<()> {
        if !is_judged(report.choice) {
            return self.judged.see(place, passing, report, out);
        }
        let outside = self.find_outside(passing, report)?;
        let reported = self.see_with(place, passing, &outside, report, out);
        drop(outside);
        reported
    }

    fn see_with<W: Write>(
        &mut self,
        place: u64,
        passing: &Passing,
        outside: &Option<Outside>,
        report: &Report<'_>,
        out: &mut W,
    ) -> Result<()> {
        self.count_lines(place, passing)?;
        self.judged.see(place, passing, report, out)?;
        match outside {
            Some(outside) => self.tell(place, passing, outside, report, out),
            None => Ok(()),
        }
    }

    /// Reports a line that is outside its document.
    fn tell<W: Write>(
        &mut self,
        place: u64,
        passing: &Passing,
        outside: &Outside,
        report: &Report<'_>,
        out: &mut W,
    ) -> Result<()> {
        let breach = &outside.breach;
        let fails = report
            .choice
            .fails(passing.order, passing.direction, breach);
        self.is_outside = self.is_outside || fails;
        let text = match &outside.misfit {
            Some(misfit) => {
                let (sentence, section) = (breach.rule.sentence(), breach.rule.section());
                format!(in report.alloc; "{sentence}: {misfit} ({section})")?
            }
            None => format!(in report.alloc; "{}", breach.rule)?,
        };
        self.judged
            .tell(place, passing, breach, text.as_str(), report, out)
    }

    /// Finds whether a message has folding ranges with a line that their document does not have.
    fn find_outside(
        &self,
        passing: &Passing,
        report: &Report<'_>,
    ) -> Result<Option<Outside>, AllocError> {
        let (Some(entry), Some(verdict)) = (&passing.message.entry, passing.types) else {
            return Ok(None);
        };
        let Some(model) = self.judged.model() else {
            return Ok(None);
        };
        let (watch, direction) = (self.judged.watch(), passing.direction);
        let is_ignored = report.choice.ignores(Rule::LineOutside, passing.method());
        if is_ignored
            || !self
                .lines
                .is_outside(report.alloc, model, watch, direction, entry)
        {
            return Ok(None);
        }
        let misfit = self.lines.misfit(report.alloc, watch, direction, entry)?;
        let breach = Breach {
            rule: Rule::LineOutside,
            verdict,
            against: asked_at(watch, passing),
        };
        Ok(Some(Outside { breach, misfit }))
    }

    /// Keeps what a message does with documents. A new session has none, and a message of the client that can't be read may have changed
    /// any.
    fn count_lines(&mut self, place: u64, passing: &Passing) -> Result<(), AllocError> {
        let watch = self.judged.watch();
        let begins = watch.begins_session(passing.direction, &passing.message);
        match &passing.message.entry {
            Some(entry) if !begins => self.lines.keep(place, watch, passing.direction, entry),
            None if !passing.direction.is_from_client() => Ok(()),
            _ => {
                self.lines = LineCounts::new(self.alloc);
                Ok(())
            }
        }
    }

    /// Tells the requests that have no reply, and how much there was.
    pub fn end<W: Write>(&mut self, ends: Ends, report: &Report<'_>, out: &mut W) -> Result<()> {
        self.judged.end(ends, report, out)
    }

    /// Whether a rule is broken so that the status is 1.
    pub fn is_broken(&self) -> bool
        ensures { result ≡ (self.now.judged.is_broken || self.now.is_outside) }
    {
        self.judged.is_broken() || self.is_outside
    }

    /// Whether there was a message.
    pub fn is_judged(&self) -> bool
        ensures { result ≡ self.now.judged.is_begun }
    {
        self.judged.is_judged()
    }
}

/// Whether `LineOutside` is judged.
fn is_judged(choice: &Choice) -> bool {
    choice.types.iter().any(|it| *it == Rule::LineOutside)
}
