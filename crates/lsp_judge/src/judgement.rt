// The judgement of what passed between two ends.
ghost use Rattle.std.specs.List.{list_any};
ghost use Rattle.std.specs.Prelude.{◌≡◌, ◌==◌, ◌++◌, ℕ, [], true, false, not, ◌&&◌, ◌||◌, length, map, OnOk, IfOk, option_map, option_to_list};
ghost use Rattle.serde_json.specs.View.{view};
ghost use Rattle.lsp_capabilities.specs.Knows.{Knows};
ghost use Rattle.lsp_watch.specs.Entries.{entry_view};
ghost use Rattle.lsp_watch.specs.Log.{asks as has_request};
ghost use Rattle.lsp_watch.specs.Orders.{says_unasked as is_of_unasked};
ghost use Rattle.lsp_watch.specs.Verdicts.{breaches_of, as_breach, entered};
ghost use Rattle.lsp_judge.specs.Choice.{is_known as is_all_known, fails as fails_for, fails_shown as fails_if_shown, leaves as leaves_for};
ghost use Rattle.lsp_judge.specs.Judged.{Judged, Judges, nothing, begins, begins_late as begins_late_in, begun, seen, passed_on, goes_in, against, broken_of, is_unasked, left, is_initialize as opens};
ghost use Rattle.lsp_judge.specs.Types.{unfit as unfit_of};

use crate::choice::Choice;
use crate::passed::{Order, Passing};
use crate::report::Report;
use crate::reported::{About, Counts, Kind, Reported, Slowest};
use crate::types::Unfit;
use anyhow::Result;
use lsp_capabilities::Announced;
use lsp_model::Model;
use lsp_watch::{
    Asked, Breach, Direction, Entry, Kind as MessageKind, LoggedId, LoggedMessage, Rule,
    Unanswered, Verdict, Watch,
};
use serde_json::Value;
use std::alloc::{AllocError, Global};
use std::collections::BTreeMap;
use std::collections::btree_map::Values;
use std::io::Write;

/// Which sides have ended.
#[derive(Clone, Copy, Debug)]
pub struct Ends {
    pub server: bool,
    pub client: bool,
}

/// What was seen so far. Its memory follows what is open.
#[derive(Drop)]
pub struct Judgement {
    alloc: Global,
    watch: Watch,
    announced: Announced,
    /// Whether it is judged what goes against what both sides announced.
    announces: bool,
    /// The methods and types of LSP, if messages are judged by them.
    model: Option<Model>,
    /// Whether there was a message.
    is_begun: bool,
    /// Whether a rule is broken so that the status is 1.
    is_broken: bool,
    /// Whether each reply had its request, wherever the order is not known.
    is_matched: bool,
    tally: Tally,
}

/// What is counted.
#[derive(Drop)]
struct Tally {
    counts: Counts,
    /// When the requests passed that wait, by their places.
    times: BTreeMap<u64, u64>,
}

impl Judgement {
    /// Begins with a session that is seen from its first message on. `announces` says whether the rules of capabilities are judged too:
    /// then the memory also follows the documents that were opened, and the registrations. Without a model no rule of types or texts is
    /// judged.
    pub fn new(alloc: Global, announces: bool, model: Option<Model>) -> Judgement
        ensures { Judges result (nothing announces model) }
    {
        Judgement {
            alloc,
            watch: Watch::new(alloc),
            announced: Announced::new(alloc),
            announces,
            model,
            is_begun: false,
            is_broken: false,
            is_matched: true,
            tally: Tally {
                counts: Counts::new(),
                times: BTreeMap::new(alloc),
            },
        }
    }

    /// Whether a message would break no rule if it passed now.
    pub fn fits(&self, direction: Direction, message: &LoggedMessage) -> Result<bool, AllocError>
        ensures { (j : Judged) → Judges self.now j → IfOk result (λ fits. fits ≡ (length
            (breaches_of j.is_whole j.log direction message.now.faults.items (option_map entry_view message.now.entry)) == 0)) }
    {
        let breaches = self.watch.breaches(direction, message)?;
        Ok(breaches.is_empty())
    }

    /// Sees one more message, and reports the rules that it breaks. If a log does not begin with `initialize`, and the report says that it may
    /// begin late, the start of its session is unknown. An `initialize` after `exit` begins a new session.
    pub fn see<W: Write>(
        &mut self,
        place: u64,
        passing: &Passing,
        report: &Report<'_>,
        out: &mut W,
    ) -> Result<()>
        ensures { (j : Judged) → Judges self.old j → report.now.choice.now.ignored.items ≡ [] → OnOk result (Judges self.new
            (seen report.now.choice.now report.now.may_begin_late passing.now.order passing.now.types j place passing.now.direction
            passing.now.message.faults.items (option_map entry_view passing.now.message.entry)
            (option_map (λ e. view e.tree) passing.now.message.entry))) }
    {
        self.begin(passing, report, out)?;
        self.tally.count(&self.watch, passing);
        self.pass(place, passing, report, out)?;
        self.tally.time_request(place, passing)
    }

    /// Begins the judgement of a session, if the message does.
    fn begin<W: Write>(&mut self, passing: &Passing, report: &Report<'_>, out: &mut W) -> Result<()>
        ensures { (j : Judged) → Judges self.old j → report.now.choice.now.ignored.items ≡ [] → OnOk result (Judges self.new
            (begun report.now.choice.now report.now.may_begin_late passing.now.order j passing.now.direction
            (option_map entry_view passing.now.message.entry))) }
    {
        if self.begins_late(passing, report) {
            self.begin_late();
            return Ok(());
        }
        if self
            .watch
            .begins_session(passing.direction, &passing.message)
        {
            return self.begin_next(passing.order, report, out);
        }
        self.is_begun = true;
        Ok(())
    }

    /// Whether a message is the first one of a session that is seen from its middle on.
    fn begins_late(&self, passing: &Passing, report: &Report<'_>) -> bool
        ensures { (j : Judged) → Judges self.now j → result
            ≡ begins_late_in report.now.may_begin_late j passing.now.direction
            (option_map entry_view passing.now.message.entry) }
    {
        !self.is_begun && report.may_begin_late && !is_initialize(passing)
    }

    /// Begins the judgement of a session that is seen from its middle on.
    fn begin_late(&mut self)
        ensures { (j : Judged) → Judges self.old j → Judges self.new (begins false j.is_broken j.is_matched j) }
    {
        self.watch = Watch::from_the_middle(self.alloc);
        self.announced = Announced::new(self.alloc);
        self.is_begun = true;
    }

    /// Ends the judgement of a session, and begins that of the next one.
    fn begin_next<W: Write>(&mut self, order: Order, report: &Report<'_>, out: &mut W) -> Result<()>
        ensures { (j : Judged) → Judges self.old j → report.now.choice.now.ignored.items ≡ [] → OnOk result (Judges self.new
            (begins true (left report.now.choice.now true true j) (j.is_matched && is_all_known order) j)) }
    {
        let ends = Ends {
            server: true,
            client: true,
        };
        self.leave(ends, report, out)?;
        self.watch = Watch::new(self.alloc);
        self.announced = Announced::new(self.alloc);
        self.is_begun = true;
        self.is_matched = self.is_matched && order.is_known();
        Ok(())
    }

    fn pass<W: Write>(
        &mut self,
        place: u64,
        passing: &Passing,
        report: &Report<'_>,
        out: &mut W,
    ) -> Result<()>
        ensures { (j : Judged) → Judges self.old j → report.now.choice.now.ignored.items ≡ [] → OnOk result (Judges self.new
            (passed_on report.now.choice.now passing.now.order passing.now.types j place passing.now.direction
            passing.now.message.faults.items (option_map entry_view passing.now.message.entry)
            (option_map (λ e. view e.tree) passing.now.message.entry))) }
    {
        let unfit = Unfit::find(&self.model, &self.watch, passing, report)?;
        let passed = self.pass_with(place, passing, &unfit, report, out);
        drop(unfit);
        passed
    }

    /// Passes a message that breaks these rules of types and texts.
    fn pass_with<W: Write>(
        &mut self,
        place: u64,
        passing: &Passing,
        unfit: &Unfit,
        report: &Report<'_>,
        out: &mut W,
    ) -> Result<()>
        ensures { (j : Judged) → Judges self.old j → report.now.choice.now.ignored.items ≡ []
            → unfit.now.rules.items
            ≡ unfit_of j.model report.now.choice.now passing.now.types j.log passing.now.direction
            (option_map entry_view passing.now.message.entry) (option_map (λ e. view e.tree) passing.now.message.entry)
            → OnOk result (Judges self.new
            (passed_on report.now.choice.now passing.now.order passing.now.types j place passing.now.direction
            passing.now.message.faults.items (option_map entry_view passing.now.message.entry)
            (option_map (λ e. view e.tree) passing.now.message.entry))) }
    {
        let order = passing.order.narrowed(self.is_matched);
        let mut breaches = self.observe(place, passing)?;
        self.is_matched = stays_matched(self.is_matched, passing.order, breaches.as_slice());
        remove_ignored(report.choice, passing, &mut breaches);
        self.is_broken = breaks_by(
            self.is_broken,
            report.choice,
            order,
            passing,
            breaches.as_slice(),
            unfit,
        );
        self.is_begun = true;
        let reported = self.tally.tell_all(
            place,
            order,
            passing,
            breaches.as_slice(),
            unfit,
            report,
            out,
        );
        drop(breaches);
        reported
    }

    /// Sees a message, and returns what it breaks: the rules of the watch, and then what it goes against of what was announced.
    fn observe(&mut self, place: u64, passing: &Passing) -> Result<Vec<Breach>, AllocError>
        ensures { (j : Judged) → Judges self.old j → IfOk result (λ found.
            (found.items ≡ broken_of j passing.now.direction passing.now.message.faults.items
            (option_map entry_view passing.now.message.entry) (option_map (λ e. view e.tree) passing.now.message.entry))
            × Judges self.new
            (goes_in j place passing.now.direction (option_map entry_view passing.now.message.entry))) }
    {
        let against = self.announce(place, passing)?;
        let breaches = self
            .watch
            .observe(place, passing.direction, &passing.message)?;
        with_breach(breaches, against)
    }

    /// Returns what a message goes against, of what was announced before it, and keeps what it announces.
    fn announce(
        &mut self,
        place: u64,
        passing: &Passing,
    ) -> Result<Option<(Rule, Option<u64>)>, AllocError>
        ensures found { (j : Judged) → Judges self.old j → IfOk result (λ found. map (as_breach true) (option_to_list found)
            ≡ against j.announces j.log passing.now.direction (option_map entry_view passing.now.message.entry)
            (option_map (λ e. view e.tree) passing.now.message.entry)) }
        ensures knows { (j : Judged) → Judges self.old j → OnOk result (j.announces ≡ true → Knows self.new.announced
            (entered passing.now.direction place (option_map entry_view passing.now.message.entry) j.log)) }
        ensures same { (self.new.watch ≡ self.old.watch) × (self.new.is_begun ≡ self.old.is_begun)
            × (self.new.is_broken ≡ self.old.is_broken) × (self.new.is_matched ≡ self.old.is_matched)
            × (self.new.announces ≡ self.old.announces) × (self.new.model ≡ self.old.model) }
    {
        if !self.announces {
            return Ok(None);
        }
        let Some(entry) = &passing.message.entry else {
            return Ok(None);
        };
        let found = self.announced.breaks(&self.watch, passing.direction, entry);
        self.announced
            .keep(place, &self.watch, passing.direction, entry)?;
        Ok(found)
    }

    /// Tells the requests that have no reply, and how much there was.
    pub fn end<W: Write>(&mut self, ends: Ends, report: &Report<'_>, out: &mut W) -> Result<()>
        ensures { (j : Judged) → Judges self.old j → report.now.choice.now.ignored.items ≡ []
            → OnOk result (self.new.is_broken ≡ left report.now.choice.now ends.server ends.client j) }
    {
        self.leave(ends, report, out)?;
        report.counts(&self.tally.counts, out)
    }

    /// Tells the requests that have no reply: that is a breach where the session is over.
    fn leave<W: Write>(&mut self, ends: Ends, report: &Report<'_>, out: &mut W) -> Result<()>
        ensures broken { (j : Judged) → Judges self.old j → report.now.choice.now.ignored.items ≡ []
            → OnOk result (self.new.is_broken ≡ left report.now.choice.now ends.server ends.client j) }
        ensures same { (self.new.watch ≡ self.old.watch) × (self.new.is_begun ≡ self.old.is_begun)
            × (self.new.is_matched ≡ self.old.is_matched) × (self.new.announces ≡ self.old.announces)
            × (self.new.announced ≡ self.old.announced) × (self.new.model ≡ self.old.model) }
    {
        let unanswered = self.watch.finish(ends.server, ends.client)?;
        let fails = any_left(report.choice, self.watch.asked(), unanswered.as_slice());
        self.is_broken = self.is_broken || (self.is_matched && fails);
        let reported = self.tally.tell_open(
            self.watch.asked(),
            unanswered.as_slice(),
            self.is_matched,
            report,
            out,
        );
        drop(unanswered);
        reported
    }

    /// Reports a breach that was found beside this judgement, in these words. Only what is counted changes.
    pub fn tell<'a, W: Write>(
        &mut self,
        place: u64,
        passing: &'a Passing,
        breach: &Breach,
        text: &'a str,
        report: &Report<'_>,
        out: &mut W,
    ) -> Result<()>
        ensures { (j : Judged) → Judges self.old j → Judges self.new j }
    {
        let order = passing.order.narrowed(self.is_matched);
        self.tally
            .tell_breach(place, order, passing, breach, text, report, out)
    }

    /// The methods and types of LSP, if messages are judged by them.
    pub fn model(&self) -> &Option<Model>
        ensures { result.now ≡ self.now.model }
    {
        &self.model
    }

    /// What was seen of the session that goes on.
    pub fn watch(&self) -> &Watch
        ensures { result.now ≡ self.now.watch }
    {
        &self.watch
    }

    /// Whether a rule is broken so that the status is 1.
    pub fn is_broken(&self) -> bool
        ensures { result ≡ self.now.is_broken }
    {
        self.is_broken
    }

    /// Whether there was a message.
    pub fn is_judged(&self) -> bool
        ensures { result ≡ self.now.is_begun }
    {
        self.is_begun
    }
}

/// Adds a finding to breaches, if there is one.
fn with_breach(
    breaches: Vec<Breach>,
    found: Option<(Rule, Option<u64>)>,
) -> Result<Vec<Breach>, AllocError>
    ensures { IfOk result (λ all. all.items ≡ breaches.items ++ map (as_breach true) (option_to_list found)) }
{
    let mut breaches = breaches;
    let Some((rule, against)) = found else {
        return Ok(breaches);
    };
    let pushed = breaches.push(Breach {
        rule,
        verdict: Verdict::Breach,
        against,
    });
    match pushed {
        Ok(()) => Ok(breaches),
        Err(_) => {
            drop(breaches);
            Err(AllocError)
        }
    }
}

/// Whether one of the breaches is a reply that no request waits for.
fn any_unasked(breaches: &[Breach]) -> bool
    ensures { result ≡ list_any is_unasked breaches.now }
{
    breaches.iter().any(|it| says_unasked(it.rule))
}

fn says_unasked(rule: Rule) -> bool
    ensures { result ≡ is_of_unasked rule }
{
    matches!(rule, Rule::NobodyAsked)
}

/// Removes the breaches that are ignored.
fn remove_ignored(choice: &Choice, passing: &Passing, breaches: &mut Vec<Breach>)
    ensures { choice.now.ignored.items ≡ [] → breaches.new.items ≡ breaches.old.items }
{
    if !choice.ignored.is_empty() {
        breaches.retain(|it| !choice.ignores(it.rule, passing.method()));
    }
}

/// Whether each reply had its request wherever the order is not known, after a message with these breaches.
fn stays_matched(is_matched: bool, order: Order, breaches: &[Breach]) -> bool
    ensures { result ≡ (is_matched && (is_all_known order || not (list_any is_unasked breaches.now))) }
{
    is_matched && (order.is_known() || !any_unasked(breaches))
}

/// Whether the status is 1 after a message with these breaches, which breaks these rules of types and texts.
fn breaks_by(
    is_broken: bool,
    choice: &Choice,
    order: Order,
    passing: &Passing,
    breaches: &[Breach],
    unfit: &Unfit,
) -> bool
    ensures { result ≡ (is_broken || (list_any (fails_for choice.now order passing.now.direction) breaches.now
        || list_any (fails_if_shown choice.now order passing.now.types passing.now.direction) unfit.now.rules.items)) }
{
    is_broken
        || any_fails(choice, order, passing.direction, breaches)
        || unfit.fails(order, passing, choice)
}

/// Whether one of the breaches makes the status 1 that a message of this direction has.
fn any_fails(choice: &Choice, order: Order, direction: Direction, breaches: &[Breach]) -> bool
    ensures { result ≡ list_any (fails_for choice.now order direction) breaches.now }
{
    breaches.iter().any(|it| choice.fails(order, direction, it))
}

/// Whether one of the requests without a reply makes the status 1, and is not ignored.
fn any_left(choice: &Choice, asked: Values<'_, u64, Asked>, unanswered: &[Unanswered]) -> bool
    ensures { choice.now.ignored.items ≡ [] → result ≡ list_any (leaves_for choice.now) unanswered.now }
{
    if choice.ignored.is_empty() {
        any_leaves(choice, unanswered)
    } else {
        any_reported(asked, unanswered, choice)
    }
}

/// Whether one of the requests without a reply makes the status 1.
fn any_leaves(choice: &Choice, unanswered: &[Unanswered]) -> bool
    ensures { result ≡ list_any (leaves_for choice.now) unanswered.now }
{
    unanswered.iter().any(|it| choice.leaves(it))
}

/// The same, if some are ignored.
fn any_reported(asked: Values<'_, u64, Asked>, unanswered: &[Unanswered], choice: &Choice) -> bool {
    let mut rest = unanswered;
    for asked in asked {
        if let Some(over) = over_of(asked, &mut rest)
            && choice.leaves(&over)
            && !choice.ignores(Rule::NoReply, asked.method.as_str())
        {
            return true;
        }
    }
    false
}

/// What is said of a request where the session is over, if it is over for it: both lists are in the same order.
fn over_of(asked: &Asked, rest: &mut &[Unanswered]) -> Option<Unanswered> {
    match *rest {
        [first, others @ ..] if first.place == asked.place && first.direction == asked.direction =>
            {
                *rest = others;
                Some(*first)
            }
        _ => None,
    }
}

/// What is said of a request where the session is over, by whether that is known.
fn reported_as(over: Option<Unanswered>, is_sure: bool) -> Option<Unanswered> {
    match over {
        Some(over) if !is_sure => Some(Unanswered {
            verdict: Verdict::CannotTell,
            ..over
        }),
        over => over,
    }
}

impl Tally {
    fn count(&mut self, watch: &Watch, passing: &Passing) {
        self.counts.messages = self.counts.messages.saturating_add(1);
        let Some(entry) = &passing.message.entry else {
            return;
        };
        match entry.kind() {
            MessageKind::Request(_) => {
                self.counts.requests = self.counts.requests.saturating_add(1);
            }
            MessageKind::Reply(id, _) => {
                self.counts.replies = self.counts.replies.saturating_add(1);
                self.time_reply(watch, id, passing);
            }
            MessageKind::Notification => {}
        }
    }

    /// Keeps when a request passed.
    fn time_request(&mut self, place: u64, passing: &Passing) -> Result<()> {
        let (Some(entry), Some(time)) = (&passing.message.entry, passing.time) else {
            return Ok(());
        };
        if let MessageKind::Request(_) = entry.kind() {
            self.times.insert(place, time)?;
        }
        Ok(())
    }

    /// Takes the time of a reply, before the watch sees it.
    fn time_reply(&mut self, watch: &Watch, id: &LoggedId, passing: &Passing) {
        let Some(asked) = watch.waiting(passing.direction.other(), id) else {
            return;
        };
        let request = asked.place;
        let begun = self.times.remove(&request);
        let milliseconds = match (passing.took, begun, passing.time) {
            (Some(took), _, _) => took,
            (None, Some(begun), Some(ended)) => ended.saturating_sub(begun),
            _ => return,
        };
        if self
            .counts
            .slowest
            .is_none_or(|it| it.milliseconds < milliseconds)
        {
            self.counts.slowest = Some(Slowest {
                milliseconds,
                request,
            });
        }
    }

    /// Tells the requests that have no reply: that is a breach where the session is over.
    fn tell_open<W: Write>(
        &mut self,
        asked: Values<'_, u64, Asked>,
        unanswered: &[Unanswered],
        is_sure: bool,
        report: &Report<'_>,
        out: &mut W,
    ) -> Result<()> {
        let mut rest = unanswered;
        for asked in asked {
            let over = reported_as(over_of(asked, &mut rest), is_sure);
            self.counts.open = self.counts.open.saturating_add(1);
            if tell_asked(asked, over, report, out)? {
                self.counts.breaches = self.counts.breaches.saturating_add(1);
                if report.choice.counts(Rule::NoReply, asked.direction) {
                    self.counts.failing = self.counts.failing.saturating_add(1);
                }
            }
        }
        Ok(())
    }

    fn tell_all<W: Write>(
        &mut self,
        place: u64,
        order: Order,
        passing: &Passing,
        breaches: &[Breach],
        unfit: &Unfit,
        report: &Report<'_>,
        out: &mut W,
    ) -> Result<()> {
        self.tell_breaches(place, order, passing, breaches, report, out)?;
        self.tell_unfit(place, order, passing, unfit, report, out)
    }

    fn tell_breaches<W: Write>(
        &mut self,
        place: u64,
        order: Order,
        passing: &Passing,
        breaches: &[Breach],
        report: &Report<'_>,
        out: &mut W,
    ) -> Result<()> {
        for breach in breaches.iter() {
            let text = format!(in report.alloc; "{}", breach.rule)?;
            self.tell_breach(place, order, passing, breach, text.as_str(), report, out)?;
        }
        Ok(())
    }

    /// Tells the rules of types and texts that a message breaks, and where.
    fn tell_unfit<W: Write>(
        &mut self,
        place: u64,
        order: Order,
        passing: &Passing,
        unfit: &Unfit,
        report: &Report<'_>,
        out: &mut W,
    ) -> Result<()> {
        for at in 0..unfit.len() {
            if let Some(breach) = unfit.breach(at, passing) {
                let text = unfit.text(at, report.alloc)?;
                self.tell_breach(place, order, passing, &breach, text.as_str(), report, out)?;
            }
        }
        Ok(())
    }

    /// Tells a breach in these words.
    fn tell_breach<'a, W: Write>(
        &mut self,
        place: u64,
        order: Order,
        passing: &'a Passing,
        breach: &Breach,
        text: &'a str,
        report: &Report<'_>,
        out: &mut W,
    ) -> Result<()> {
        let is_sure = breach.verdict == Verdict::Breach && order.decides(breach.rule);
        let fails = report.choice.fails(order, passing.direction, breach);
        if is_sure {
            self.counts.breaches = self.counts.breaches.saturating_add(1);
        }
        if fails {
            self.counts.failing = self.counts.failing.saturating_add(1);
        }
        let subject = subject_of(report.alloc, breach.rule, passing)?;
        let reported = Reported {
            kind: if is_sure {
                Kind::Breach
            } else {
                Kind::CannotTell
            },
            place,
            direction: Some(passing.direction),
            rule: Some(breach.rule),
            fails,
            method: Some(passing.method()),
            about: subject.about(),
            text,
            against: breach.against,
        };
        report.tell(&reported, out)
    }
}

fn is_initialize(passing: &Passing) -> bool
    ensures { result ≡ opens passing.now.direction (option_map entry_view passing.now.message.entry) }
{
    match &passing.message.entry {
        Some(entry) => passing.direction.is_from_client() && asks(entry, "initialize"),
        None => false,
    }
}

/// Whether it is a request of this method.
fn asks(entry: &Entry, method: &str) -> bool
    ensures { result ≡ has_request method.now (entry_view entry.now) }
{
    match entry.kind() {
        MessageKind::Request(_) => entry.method() == method,
        MessageKind::Notification | MessageKind::Reply(_, _) => false,
    }
}

/// Reports a request that has no reply, and returns whether that is a breach which is reported.
fn tell_asked<W: Write>(
    asked: &Asked,
    over: Option<Unanswered>,
    report: &Report<'_>,
    out: &mut W,
) -> Result<bool> {
    let id = format!(in report.alloc; "{}", asked.id)?;
    let (kind, rule) = match over {
        Some(over) if !report.choice.ignores(Rule::NoReply, asked.method.as_str()) => {
            match over.verdict {
                Verdict::Breach => (Kind::Breach, Some(Rule::NoReply)),
                Verdict::CannotTell => (Kind::CannotTell, Some(Rule::NoReply)),
            }
        }
        _ => (Kind::Open, None),
    };
    let text = match rule {
        Some(rule) => format!(in report.alloc; "{rule}")?,
        None => String::from_str(report.alloc, "has no reply")?,
    };
    let reported = Reported {
        kind,
        place: asked.place,
        direction: Some(asked.direction),
        rule,
        fails: kind == Kind::Breach && report.choice.counts(Rule::NoReply, asked.direction),
        method: Some(asked.method.as_str()),
        about: About::Id(id.as_str()),
        text: text.as_str(),
        against: None,
    };
    report.tell(&reported, out)?;
    Ok(kind == Kind::Breach)
}

/// The subject of a breach, with its own copy of the text.
#[derive(Drop)]
enum Subject {
    Nothing,
    Id(String),
    Uri(String),
    Token(String),
}

impl Subject {
    fn about(&self) -> About<'_> {
        match self {
            Subject::Nothing => About::Nothing,
            Subject::Id(id) => About::Id(id.as_str()),
            Subject::Uri(uri) => About::Uri(uri.as_str()),
            Subject::Token(token) => About::Token(token.as_str()),
        }
    }
}

/// What a breach is about: the document, the token, or the id of the message.
fn subject_of(alloc: Global, rule: Rule, passing: &Passing) -> Result<Subject> {
    let Some(entry) = &passing.message.entry else {
        return Ok(Subject::Nothing);
    };
    let params = entry.params();
    match rule {
        Rule::AlreadyOpen | Rule::NotOpen | Rule::VersionNotHigher => {
            let document = params.and_then(|it| it.get("textDocument"));
            match document
                .and_then(|it| it.get("uri"))
                .and_then(Value::as_str)
            {
                Some(uri) => Ok(Subject::Uri(String::from_str(alloc, uri)?)),
                None => Ok(Subject::Nothing),
            }
        }
        Rule::NeverOpened => match params.and_then(|it| it.get("uri")).and_then(Value::as_str) {
            Some(uri) => Ok(Subject::Uri(String::from_str(alloc, uri)?)),
            None => Ok(Subject::Nothing),
        },
        Rule::NoSuchToken | Rule::TokenEnded => match params.and_then(|it| it.get("token")) {
            Some(token) => Ok(Subject::Token(token.to_string(alloc)?)),
            None => Ok(Subject::Nothing),
        },
        _ => match (entry.tree().get("id"), entry.id()) {
            (Some(id @ Value::String(_)), _) => Ok(Subject::Id(id.to_string(alloc)?)),
            (_, None) => Ok(Subject::Nothing),
            (_, Some(id)) => Ok(Subject::Id(format!(in alloc; "{id}")?)),
        },
    }
}
