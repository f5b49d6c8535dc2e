// Which breaches make the status 1.
ghost use Rattle.std.specs.Prelude.{◌≡◌, ◌≢◌, [], IfOk, MatchOption};
ghost use Rattle.lsp_watch.specs.RuleData.{side_of};
ghost use Rattle.lsp_judge.specs.Choice.{counts as counts_for, culprit as culprit_of, is_at_least as is_as_strong, fails as fails_for, fails_shown as fails_if_shown, leaves as leaves_for};

use crate::passed::Order;
use lsp_model::Model;
use lsp_watch::{Breach, Direction, Level, Rule, Side, Unanswered, Verdict};
use std::alloc::{AllocError, Global};

/// Whose breaches count.
#[derive(Clone, Copy, Debug, PartialEq, Eq)]
pub enum FailOn {
    Servers,
    Clients,
    Both,
}

/// A rule that is ignored: everywhere, or in the messages of a method.
#[derive(Debug, Drop)]
pub struct Ignored {
    pub rule: Rule,
    pub method: Option<String>,
}

/// Which breaches count: those of a side, of a level or a stronger one, and not those that are ignored.
#[derive(Debug, Drop)]
pub struct Choice {
    pub fail_on: FailOn,
    pub level: Level,
    pub ignored: Vec<Ignored>,
    /// Whether the rules of capabilities are judged too.
    pub capabilities: bool,
    /// The rules of types and texts that are judged too. Those of other groups are not looked at here.
    pub types: Vec<Rule>,
}

impl Choice {
    /// Returns the methods and types of LSP if rules of types or texts are judged, and otherwise `None`. The error means
    /// that an allocation failed.
    pub fn model(&self, alloc: Global) -> Result<Option<Model>, AllocError>
        ensures { IfOk result (λ model. MatchOption model (self.now.types.items ≡ []) (λ _. self.now.types.items ≢ [])) }
    {
        if self.types.is_empty() {
            return Ok(None);
        }
        Ok(Some(Model::lsp(alloc)?))
    }

    /// Returns whether a breach of a rule by a message of this method is left out of the report.
    pub fn ignores(&self, rule: Rule, method: &str) -> bool {
        self.ignored.iter().any(|it| it.is_for(rule, method))
    }

    /// Whether a breach counts that a message of this direction has.
    pub fn counts(&self, rule: Rule, direction: Direction) -> bool
        ensures { result ≡ counts_for self.now rule direction }
    {
        let is_of_side = match self.fail_on {
            FailOn::Servers => !culprit(rule, direction).is_from_client(),
            FailOn::Clients => culprit(rule, direction).is_from_client(),
            FailOn::Both => true,
        };
        is_of_side && is_at_least(rule.level(), self.level)
    }

    /// Whether a breach makes the status 1 that a message of this direction has.
    pub fn fails(&self, order: Order, direction: Direction, breach: &Breach) -> bool
        ensures { result ≡ fails_for self.now order direction breach.now }
    {
        match breach.verdict {
            Verdict::Breach => order.decides(breach.rule) && self.counts(breach.rule, direction),
            Verdict::CannotTell => false,
        }
    }

    /// Whether a breach of a rule of types or texts does so, by how sure that is.
    pub fn fails_shown(
        &self,
        order: Order,
        verdict: Option<Verdict>,
        direction: Direction,
        rule: Rule,
    ) -> bool
        ensures { result ≡ fails_if_shown self.now order verdict direction rule }
    {
        match verdict {
            Some(Verdict::Breach) => order.decides(rule) && self.counts(rule, direction),
            Some(Verdict::CannotTell) | None => false,
        }
    }

    /// Whether a request does so that has no reply.
    pub fn leaves(&self, unanswered: &Unanswered) -> bool
        ensures { result ≡ leaves_for self.now unanswered.now }
    {
        match unanswered.verdict {
            Verdict::Breach => self.counts(Rule::NoReply, unanswered.direction),
            Verdict::CannotTell => false,
        }
    }
}

impl Ignored {
    fn is_for(&self, rule: Rule, method: &str) -> bool {
        rule == self.rule
            && match &self.method {
                Some(of) => of.as_str() == method,
                None => true,
            }
    }
}

/// The direction in which that side sends which breaks a rule by a message of this direction.
pub fn culprit(rule: Rule, direction: Direction) -> Direction
    ensures { result ≡ culprit_of (side_of rule) direction }
{
    match rule.side() {
        Side::Sender => direction,
        Side::Receiver => direction.other(),
        Side::Client => Direction::ToServer,
    }
}

/// Whether a level is as strong as another one, or stronger.
fn is_at_least(level: Level, wanted: Level) -> bool
    ensures { result ≡ is_as_strong level wanted }
{
    match (level, wanted) {
        (Level::Must, _) => true,
        (Level::Should, Level::Must) => false,
        (Level::Should, _) => true,
        (Level::Implied, Level::Implied) => true,
        (Level::Implied, _) => false,
    }
}
