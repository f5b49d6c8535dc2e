// The rules of types and texts: whether what a message carries fits the types of LSP's meta model.
ghost use Rattle.std.specs.List.{list_any};
ghost use Rattle.std.specs.Prelude.{◌≡◌, [], IfOk, filter, option_map};
ghost use Rattle.serde_json.specs.View.{view};
ghost use Rattle.lsp_watch.specs.Entries.{entry_view};
ghost use Rattle.lsp_watch.specs.Log.{Log};
ghost use Rattle.lsp_watch.specs.Saw.{Saw};
ghost use Rattle.lsp_judge.specs.Choice.{fails_shown as fails_if_shown};
ghost use Rattle.lsp_judge.specs.Types.{mode_of as mode_for, breaks_type as breaks_type_in, unfit as unfit_of};

use crate::choice::Choice;
use crate::passed::{Order, Passing};
use crate::report::Report;
use anyhow::Result;
use lsp_model::{Misfit, Mode, Model};
use lsp_watch::{Breach, Direction, Entry, Kind, Rule, Watch};
use std::alloc::{AllocError, Global};

/// The rules of types and texts that a message breaks, and where.
#[derive(Drop)]
pub struct Unfit {
    pub rules: Vec<Rule>,
    /// Where each rule is broken, as far as that is known.
    misfits: Vec<Option<Misfit>>,
    /// The place of the request that a reply answers.
    against: Option<u64>,
}

impl Unfit {
    /// Finds the rules of types and texts that a message breaks, of those that are judged. Without a model no rule is. The watch saw the
    /// messages before it.
    pub fn find(
        model: &Option<Model>,
        watch: &Watch,
        passing: &Passing,
        report: &Report<'_>,
    ) -> Result<Unfit, AllocError>
        ensures { (log : Log) → Saw watch.now log → report.now.choice.now.ignored.items ≡ []
            → IfOk result (λ found. found.rules.items ≡ unfit_of model.now report.now.choice.now passing.now.types log passing.now.direction
            (option_map entry_view passing.now.message.entry) (option_map (λ e. view e.tree) passing.now.message.entry)) }
    {
        let rules = unfit_rules(model, watch, passing, report)?;
        match misfits(model, watch, passing, rules.as_slice(), report.alloc) {
            Ok(misfits) => Ok(Unfit {
                rules,
                misfits,
                against: asked_at(watch, passing),
            }),
            Err(error) => {
                drop(rules);
                Err(error)
            }
        }
    }

    /// Whether one of the rules makes the status 1.
    pub fn fails(&self, order: Order, passing: &Passing, choice: &Choice) -> bool
        ensures { result ≡ list_any (fails_if_shown choice.now order passing.now.types passing.now.direction) self.now.rules.items }
    {
        self.rules.iter().any(|it| choice.fails_shown(order, passing.types, passing.direction, *it))
    }

    /// How many rules are broken.
    pub fn len(&self) -> usize {
        self.rules.len()
    }

    /// A breach, by its place in the list.
    pub fn breach(&self, at: usize, passing: &Passing) -> Option<Breach> {
        Some(Breach {
            rule: *self.rules.get(at)?,
            verdict: passing.types?,
            against: self.against,
        })
    }

    /// What is said of a breach, by its place in the list.
    pub fn text(&self, at: usize, alloc: Global) -> Result<String> {
        let Some(rule) = self.rules.get(at) else {
            return Ok(String::new(alloc));
        };
        let (sentence, section) = (rule.sentence(), rule.section());
        match self.misfits.get(at) {
            Some(Some(misfit)) => Ok(format!(in alloc; "{sentence}: {misfit} ({section})")?),
            _ => Ok(format!(in alloc; "{rule}")?),
        }
    }
}

/// The rules of types and texts that a message breaks, of those that are judged.
fn unfit_rules(
    model: &Option<Model>,
    watch: &Watch,
    passing: &Passing,
    report: &Report<'_>,
) -> Result<Vec<Rule>, AllocError>
    ensures { (log : Log) → Saw watch.now log → report.now.choice.now.ignored.items ≡ []
        → IfOk result (λ found. found.items ≡ unfit_of model.now report.now.choice.now passing.now.types log passing.now.direction
        (option_map entry_view passing.now.message.entry) (option_map (λ e. view e.tree) passing.now.message.entry)) }
{
    let Some(model) = model else {
        return Ok(Vec::new(report.alloc));
    };
    let (Some(entry), Some(_)) = (&passing.message.entry, passing.types) else {
        return Ok(Vec::new(report.alloc));
    };
    let mut rules = Vec::from_slice(report.alloc, report.choice.types.as_slice())?;
    keep_broken(
        model,
        report.alloc,
        watch,
        passing.direction,
        entry,
        &mut rules,
    );
    remove_ignored(report.choice, passing, &mut rules);
    Ok(rules)
}

/// Keeps the rules that a message breaks.
fn keep_broken(
    model: &Model,
    alloc: Global,
    watch: &Watch,
    direction: Direction,
    entry: &Entry,
    rules: &mut Vec<Rule>,
)
    ensures { (log : Log) → Saw watch.now log → rules.new.items ≡ filter
        (λ rule. breaks_type_in model.now log direction (entry_view entry.now) (view entry.now.tree) rule)
        rules.old.items }
{
    rules.retain(|it| breaks_type(model, alloc, watch, direction, entry, *it));
}

/// Removes the rules that are ignored.
fn remove_ignored(choice: &Choice, passing: &Passing, rules: &mut Vec<Rule>)
    ensures { choice.now.ignored.items ≡ [] → rules.new.items ≡ rules.old.items }
{
    if !choice.ignored.is_empty() {
        rules.retain(|it| !choice.ignores(*it, passing.method()));
    }
}

/// Whether a message breaks a rule of types or texts.
fn breaks_type(
    model: &Model,
    alloc: Global,
    watch: &Watch,
    direction: Direction,
    entry: &Entry,
    rule: Rule,
) -> bool
    ensures { (log : Log) → Saw watch.now log → result ≡ breaks_type_in model.now log direction
        (entry_view entry.now) (view entry.now.tree) rule }
{
    match mode_of(rule) {
        Some(mode) => model.is_unfit(alloc, mode, watch, direction, entry),
        None => false,
    }
}

/// Where a message breaks each of these rules.
fn misfits(
    model: &Option<Model>,
    watch: &Watch,
    passing: &Passing,
    rules: &[Rule],
    alloc: Global,
) -> Result<Vec<Option<Misfit>>, AllocError> {
    let mut found = Vec::new(alloc);
    for rule in rules {
        let misfit = misfit(model, watch, passing, *rule, alloc)?;
        found.push(misfit)?;
    }
    Ok(found)
}

fn misfit(
    model: &Option<Model>,
    watch: &Watch,
    passing: &Passing,
    rule: Rule,
    alloc: Global,
) -> Result<Option<Misfit>, AllocError> {
    match (model, &passing.message.entry, mode_of(rule)) {
        (Some(model), Some(entry), Some(mode)) => {
            model.misfit(alloc, mode, watch, passing.direction, entry)
        }
        _ => Ok(None),
    }
}

/// The place of the request that a reply answers.
pub fn asked_at(watch: &Watch, passing: &Passing) -> Option<u64> {
    match passing.message.entry.as_ref()?.kind() {
        Kind::Reply(id, _) => Some(watch.waiting(passing.direction.other(), id)?.place),
        Kind::Request(_) | Kind::Notification => None,
    }
}

/// The mode in which a message is unfit if it breaks a rule. `None` means that the rule looks at no single message.
fn mode_of(rule: Rule) -> Option<Mode>
    ensures { result ≡ mode_for rule }
{
    match rule {
        Rule::WrongType => Some(Mode::Loose),
        Rule::LooseType => Some(Mode::Strict),
        Rule::EditsOverlap => Some(Mode::Edits),
        Rule::TokensNotInFives => Some(Mode::Tokens),
        Rule::SelectionOutside => Some(Mode::Selection),
        Rule::RangeReversed => Some(Mode::Ranges),
        _ => None,
    }
}
