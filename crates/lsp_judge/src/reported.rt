// What there is to report about a session. Each form prints this description.
use lsp_watch::{Direction, Rule};

/// What a breach is about, or an open request. Ids and tokens are JSON.
#[derive(Clone, Copy)]
pub enum About<'t> {
    Nothing,
    /// A request of this id, or its reply.
    Id(&'t str),
    /// The document of this URI.
    Uri(&'t str),
    /// Progress under this token.
    Token(&'t str),
}

/// What kind of thing there is to tell.
#[derive(Clone, Copy, PartialEq, Eq)]
pub enum Kind {
    /// A rule is broken.
    Breach,
    /// It is not known whether a rule is broken.
    CannotTell,
    /// A request has no reply yet.
    Open,
    /// Something was not read.
    Stop,
}

impl Kind {
    /// Its name in JSON.
    pub fn name(self) -> &'static str {
        match self {
            Kind::Breach => "breach",
            Kind::CannotTell => "cannot_tell",
            Kind::Open => "open",
            Kind::Stop => "stop",
        }
    }
}

/// One thing to tell.
#[derive(Clone, Copy)]
pub struct Reported<'t> {
    pub kind: Kind,
    /// Where it is.
    pub place: u64,
    /// The direction of a message.
    pub direction: Option<Direction>,
    /// The rule that it breaks.
    pub rule: Option<Rule>,
    /// Whether that makes the status 1.
    pub fails: bool,
    /// Its method, or that it is a reply.
    pub method: Option<&'t str>,
    pub about: About<'t>,
    /// What a person reads.
    pub text: &'t str,
    /// The place of the message that it goes against.
    pub against: Option<u64>,
}

impl<'t> Reported<'t> {
    /// Why something was not read at a place.
    pub fn stop(place: u64, text: &'t str) -> Reported<'t> {
        Reported {
            kind: Kind::Stop,
            place,
            direction: None,
            rule: None,
            fails: false,
            method: None,
            about: About::Nothing,
            text,
            against: None,
        }
    }
}

/// How much passed, how much is open, how often a rule was broken, and the slowest reply where times are known.
#[derive(Clone, Copy, Debug)]
pub struct Counts {
    pub messages: u64,
    pub requests: u64,
    pub replies: u64,
    pub open: u64,
    pub breaches: u64,
    /// Of these, how many make the status 1.
    pub failing: u64,
    pub slowest: Option<Slowest>,
}

impl Counts {
    /// Makes counts of nothing.
    pub fn new() -> Counts {
        Counts {
            messages: 0,
            requests: 0,
            replies: 0,
            open: 0,
            breaches: 0,
            failing: 0,
            slowest: None,
        }
    }

    /// The counts with their names.
    pub fn named(&self) -> [(&'static str, u64); 5] {
        [
            ("requests", self.requests),
            ("replies", self.replies),
            ("open", self.open),
            ("breaches", self.breaches),
            ("failing", self.failing),
        ]
    }
}

/// The reply that took longest, in milliseconds, and the place of its request.
#[derive(Clone, Copy, Debug)]
pub struct Slowest {
    pub milliseconds: u64,
    pub request: u64,
}
