// A session that is judged one message at a time.
ghost use Rattle.std.specs.List.{list_any};
ghost use Rattle.std.specs.Prelude.{◌≡◌, ◌<◌, [], ◌==◌, ◌&&◌, if◌then◌else◌, IfOk, OnOk, true, option_map};
ghost use Rattle.serde_json.specs.View.{view};
ghost use Rattle.lsp_watch.specs.Entries.{entry_view};
ghost use Rattle.lsp_judge.specs.Judged.{Judged as JudgedSoFar, Judges, seen as seen_in, left};
ghost use Rattle.lsp_judge.specs.Recording.{says_unread as says_unread_in};
ghost use Rattle.lsp_judge_c.specs.Messages.{Begins, Passes, status_of, status_after};
ghost use Rattle.lsp_judge_c.specs.Statuses.{is_late as may_lack_its_start};

use crate::{FAILED, LspJudgeOptions, choice_of, report_of};
use anyhow::Result;
use lsp_judge::choice::Choice;
use lsp_judge::judgement::{Ends, Judgement};
use lsp_judge::outcome::Outcome;
use lsp_judge::passed::Passing;
use lsp_watch::{Direction, LoggedMessage, Rule};
use std::alloc::Global;
use std::cell::Cell;

/// What is kept between two messages.
#[derive(Drop)]
pub struct Session {
    pub judgement: Judgement,
    pub choice: Choice,
    pub options: LspJudgeOptions,
    /// The place of the first message that was not read; 0 if each was read.
    pub unread: u64,
}

/// What is said of a message, or of a session that is over.
#[derive(Drop)]
pub struct Reported {
    pub status: u8,
    /// Lines of JSON.
    pub report: Vec<u8>,
}

impl Session {
    /// Returns a session in which no message passed.
    pub fn new(alloc: Global, options: &LspJudgeOptions) -> Session
        ensures { Begins options.now result }
    {
        let choice = choice_of(alloc, options);
        let judgement = Judgement::new(alloc, choice.capabilities, None);
        Session {
            judgement,
            choice,
            options: *options,
            unread: 0,
        }
    }

    /// Judges one more message, and tells the rules that it breaks.
    ///
    /// The error means that an allocation failed. It is not known then what was judged.
    pub fn see(
        &mut self,
        alloc: Global,
        direction: Direction,
        place: u64,
        content: &[u8],
    ) -> Result<Reported>
        ensures seen { OnOk result (Passes self.old self.new direction place content.now) }
        ensures status { IfOk result (λ it. it.status ≡ status_after self.new) }
        ensures known { IfOk result (λ it. it.status < FAILED) }
    {
        let message = LoggedMessage::from_content(alloc, content)?;
        self.unread = first_unread(self.unread, place, &message);
        let passing = Passing::new(direction, message);
        let report = self.pass(alloc, place, &passing);
        drop(passing);
        let report = report?;
        Ok(Reported {
            status: self.status(true),
            report,
        })
    }

    /// Passes a message to the judgement, and returns the report.
    fn pass(&mut self, alloc: Global, place: u64, passing: &Passing) -> Result<Vec<u8>>
        ensures seen { (j : JudgedSoFar) → Judges self.old.judgement j → self.old.choice.ignored.items ≡ [] → OnOk result
            (Judges self.new.judgement (seen_in self.old.choice (may_lack_its_start self.old.options) passing.now.order
            passing.now.types j place passing.now.direction passing.now.message.faults.items
            (option_map entry_view passing.now.message.entry) (option_map (λ e. view e.tree) passing.now.message.entry))) }
        ensures choice { self.new.choice ≡ self.old.choice }
        ensures options { self.new.options ≡ self.old.options }
        ensures unread { self.new.unread ≡ self.old.unread }
    {
        let mut reported = Vec::new(alloc);
        let has_reported = Cell::new(false);
        let report = report_of(alloc, &self.options, &self.choice, &has_reported);
        self.judgement.see(place, passing, &report, &mut reported)?;
        Ok(reported)
    }

    /// Tells the requests that have no reply, and how much there was. The error means that an allocation failed.
    pub fn end(&mut self, alloc: Global, ends: Ends) -> Result<Reported>
        ensures status { (j : JudgedSoFar) → Judges self.old.judgement j → self.old.choice.ignored.items ≡ []
            → IfOk result (λ it. it.status
            ≡ status_of (left self.old.choice ends.server ends.client j) j.is_begun self.old.unread) }
        ensures known { IfOk result (λ it. it.status < FAILED) }
        ensures same { self.new.unread ≡ self.old.unread }
    {
        let is_judged = self.judgement.is_judged();
        let report = self.leave(alloc, ends)?;
        Ok(Reported {
            status: self.status(is_judged),
            report,
        })
    }

    /// Ends the judgement, and returns the report.
    fn leave(&mut self, alloc: Global, ends: Ends) -> Result<Vec<u8>>
        ensures broken { (j : JudgedSoFar) → Judges self.old.judgement j → self.old.choice.ignored.items ≡ []
            → OnOk result (self.new.judgement.is_broken ≡ left self.old.choice ends.server ends.client j) }
        ensures same { self.new.unread ≡ self.old.unread }
    {
        let mut reported = Vec::new(alloc);
        let has_reported = Cell::new(false);
        let report = report_of(alloc, &self.options, &self.choice, &has_reported);
        self.judgement.end(ends, &report, &mut reported)?;
        Ok(reported)
    }

    /// Returns the status, by whether there was a message.
    fn status(&self, is_judged: bool) -> u8
        ensures status { result ≡ status_of self.now.judgement.is_broken is_judged self.now.unread }
        ensures known { result < FAILED }
    {
        let outcome = Outcome {
            is_broken: self.judgement.is_broken(),
            is_judged,
            is_whole: self.unread == 0,
        };
        outcome.status()
    }
}

/// Returns the place of the first message that was not read, after one more at this place.
fn first_unread(unread: u64, place: u64, message: &LoggedMessage) -> u64
    ensures { result ≡ (if unread == 0 && list_any says_unread_in message.now.faults.items then place else unread) }
{
    if unread == 0 && is_unread(message) {
        place
    } else {
        unread
    }
}

/// Whether the content of a message is no JSON in UTF-8, as far as this reader reads it.
fn is_unread(message: &LoggedMessage) -> bool
    ensures { result ≡ list_any says_unread_in message.now.faults.items }
{
    message.faults.iter().any(|it| says_unread(*it))
}

/// Whether a rule says that a content could not be read.
fn says_unread(rule: Rule) -> bool
    ensures { result ≡ says_unread_in rule }
{
    matches!(rule, Rule::NotUtf8 | Rule::NotJson | Rule::Unreadable)
}
