// Where the lifecycle stands (LSP 3.17, "Server lifecycle").
ghost use Rattle.std.specs.Prelude.{◌≡◌, ◌∷◌, [], Some, if◌then◌else◌};
ghost use Rattle.lsp_watch.specs.Entries.{entry_view};
ghost use Rattle.lsp_watch.specs.Log.{Log, asks as has_request, tells as has_notification, is_success as has_result, passed, answers_initialize};
ghost use Rattle.lsp_watch.specs.Rules.{lifecycle_of, is_early as early_spec, broken_by, server_finding, client_finding, opening_finding};

use crate::direction::Direction;
use crate::logged::{Entry, Kind};
use crate::rule::Rule;

/// The places of the messages by which the lifecycle goes on.
#[derive(Clone, Copy, Debug)]
pub struct Lifecycle {
    /// The last result of `initialize`.
    pub result: Option<u64>,
    /// The last `initialized`.
    pub initialized: Option<u64>,
    /// The last `shutdown`.
    pub shutdown: Option<u64>,
    /// The last `exit`.
    pub exit: Option<u64>,
}

impl Lifecycle {
    /// Begins before the first message of a session.
    pub fn new() -> Lifecycle
        ensures { result ≡ lifecycle_of [] }
    {
        Lifecycle {
            result: None,
            initialized: None,
            shutdown: None,
            exit: None,
        }
    }

    /// After one more message. `answers` says whether it is a reply to `initialize`.
    pub fn after(
        self,
        place: u64,
        direction: Direction,
        message: &Entry,
        answers: bool,
    ) -> Lifecycle
        ensures { (log : Log) → self ≡ lifecycle_of log
            → answers ≡ answers_initialize log (passed direction place (entry_view message.now))
            → result ≡ lifecycle_of (passed direction place (entry_view message.now) ∷ log) }
    {
        let by_client = direction.is_from_client();
        Lifecycle {
            result: place_or(answers && is_success(message), place, self.result),
            initialized: place_or(
                by_client && tells(message, "initialized"),
                place,
                self.initialized,
            ),
            shutdown: place_or(by_client && asks(message, "shutdown"), place, self.shutdown),
            exit: place_or(by_client && tells(message, "exit"), place, self.exit),
        }
    }

    /// What a request or a notification of the client breaks.
    pub fn client_breaks(
        &self,
        waiting: Option<u64>,
        message: &Entry,
    ) -> Option<(Rule, Option<u64>)>
        ensures { result ≡ client_finding self.now waiting (entry_view message.now) }
    {
        if tells(message, "exit") {
            return breaks(Rule::AfterExit, self.exit);
        }
        breaks(Rule::AfterExit, self.exit)
            .or(breaks(Rule::AfterShutdown, self.shutdown))
            .or(self.opening_breaks(waiting, message))
    }

    /// What one that comes before `shutdown` breaks.
    fn opening_breaks(&self, waiting: Option<u64>, message: &Entry) -> Option<(Rule, Option<u64>)>
        ensures { result ≡ opening_finding self.now waiting (entry_view message.now) }
    {
        if asks(message, "initialize") {
            return breaks(Rule::SentAgain, self.result).or(breaks(Rule::BeforeResult, waiting));
        }
        let Some(place) = self.result else {
            return Some((Rule::BeforeResult, waiting));
        };
        if tells(message, "initialized") {
            return breaks(Rule::SentAgain, self.initialized);
        }
        match self.initialized {
            Some(_) => None,
            None => Some((Rule::BeforeInitialized, Some(place))),
        }
    }

    /// What a request or a notification of the server breaks. `may_tell` says whether it is progress under the token of an `initialize`
    /// that waits.
    pub fn server_breaks(
        &self,
        waiting: Option<u64>,
        may_tell: bool,
        message: &Entry,
    ) -> Option<(Rule, Option<u64>)>
        ensures { result ≡ server_finding self.now waiting may_tell (entry_view message.now) }
    {
        if self.result.is_some() || (waiting.is_some() && (may_tell || is_early(message))) {
            return None;
        }
        Some((Rule::BeforeResult, waiting))
    }
}

/// The rule is broken if a message passed, and the message goes against that one.
fn breaks(rule: Rule, passed: Option<u64>) -> Option<(Rule, Option<u64>)>
    ensures { result ≡ broken_by rule passed }
{
    match passed {
        Some(place) => Some((rule, Some(place))),
        None => None,
    }
}

fn place_or(is_such: bool, place: u64, before: Option<u64>) -> Option<u64>
    ensures { result ≡ (if is_such then Some place else before) }
{
    if is_such { Some(place) } else { before }
}

/// Whether a server may send it while `initialize` waits (LSP 3.17, "Initialize Request").
fn is_early(message: &Entry) -> bool
    ensures { result ≡ early_spec (entry_view message.now) }
{
    tells(message, "window/showMessage")
        || tells(message, "window/logMessage")
        || tells(message, "telemetry/event")
        || asks(message, "window/showMessageRequest")
}

/// Whether it is a request of this method.
pub fn asks(message: &Entry, method: &str) -> bool
    ensures { result ≡ has_request method.now (entry_view message.now) }
{
    match message.kind() {
        Kind::Request(_) => message.method() == method,
        Kind::Notification | Kind::Reply(_, _) => false,
    }
}

/// Whether it is a notification of this method.
pub fn tells(message: &Entry, method: &str) -> bool
    ensures { result ≡ has_notification method.now (entry_view message.now) }
{
    match message.kind() {
        Kind::Notification => message.method() == method,
        Kind::Request(_) | Kind::Reply(_, _) => false,
    }
}

/// Whether it is a reply with a result.
pub fn is_success(message: &Entry) -> bool
    ensures { result ≡ has_result (entry_view message.now) }
{
    match message.kind() {
        Kind::Reply(_, succeeds) => *succeeds,
        Kind::Request(_) | Kind::Notification => false,
    }
}
