// What a message breaks.
ghost use Rattle.std.specs.Prelude.{◌≡◌};
ghost use Rattle.lsp_watch.specs.Verdicts.{as_breach, shape_breach as breach_of_shape, as_unanswered, is_over as is_over_for};

use crate::direction::Direction;
use crate::open::Asked;
use crate::rule::Rule;
use std::fmt;

/// Whether a rule is broken.
#[derive(Clone, Copy, Debug, PartialEq, Eq)]
pub enum Verdict {
    /// It is.
    Breach,
    /// It is, unless something passed that was not seen.
    CannotTell,
}

/// A rule that a message breaks. It prints the rule, and the place as that of a line.
#[derive(Clone, Copy, Debug)]
pub struct Breach {
    /// The rule.
    pub rule: Rule,
    /// Whether it is surely broken.
    pub verdict: Verdict,
    /// The place of the message that it goes against, if there is one.
    pub against: Option<u64>,
}

/// A request that has no reply when the session is over: `Rule::NoReply`.
#[derive(Clone, Copy, Debug)]
pub struct Unanswered {
    /// The direction in which the request went.
    pub direction: Direction,
    /// The place of the request.
    pub place: u64,
    /// A breach if the server was asked. A client may end before its user has answered, so this is not known of a client.
    pub verdict: Verdict,
}

/// A rule and the place of the message that it is broken against, as a breach. In a log that begins in the middle of a session only what
/// goes against a message that was seen is surely one.
pub fn breach_of(finding: (Rule, Option<u64>), is_whole: bool) -> Breach
    ensures { result ≡ as_breach is_whole finding }
{
    let (rule, against) = finding;
    let verdict = if is_whole || against.is_some() {
        Verdict::Breach
    } else {
        Verdict::CannotTell
    };
    Breach {
        rule,
        verdict,
        against,
    }
}

/// A rule of its shape that a message breaks, as a breach. What could not be read may be right.
pub fn shape_breach(rule: Rule) -> Breach
    ensures { result ≡ breach_of_shape rule }
{
    let verdict = match rule {
        Rule::Unreadable => Verdict::CannotTell,
        _ => Verdict::Breach,
    };
    Breach {
        rule,
        verdict,
        against: None,
    }
}

/// A request that has no reply, where the session is over.
pub fn unanswered_from(asked: &Asked) -> Unanswered
    ensures { result ≡ as_unanswered asked.now }
{
    let verdict = if asked.direction.is_from_client() {
        Verdict::Breach
    } else {
        Verdict::CannotTell
    };
    Unanswered {
        direction: asked.direction,
        place: asked.place,
        verdict,
    }
}

/// Whether the side has ended that was asked.
pub fn is_over(server_ended: bool, client_ended: bool, asked: &Asked) -> bool
    ensures { result ≡ is_over_for server_ended client_ended asked.now }
{
    if asked.direction.is_from_client() {
        server_ended
    } else {
        client_ended
    }
}

impl fmt::Display for Breach {
    fn fmt<W: fmt::Write>(&self, f: &mut fmt::Formatter<W>) -> fmt::Result {
        let rule = self.rule;
        match self.against {
            Some(place) => write!(f, "{rule}; see line {place}"),
            None => write!(f, "{rule}"),
        }
    }
}
