// What the two sides announced, and what goes against it.
ghost use Rattle.std.specs.BTreeSet.{contains};
ghost use Rattle.std.specs.Ordering.{nat_cmp};
ghost use Rattle.std.specs.Prelude.{◌≡◌, ◌∷◌, ◌||◌, ◌&&◌, ◌==◌, [], ℕ, OnOk, option_map, unwrap_or, if◌then◌else◌};
ghost use Rattle.serde_json.specs.Data.{null};
ghost use Rattle.serde_json.specs.View.{view};
ghost use Rattle.lsp_watch.specs.Documents.{params_in};
ghost use Rattle.lsp_watch.specs.Entries.{entry_view};
ghost use Rattle.lsp_watch.specs.Log.{Log, passed, answers_initialize as replies_to_it, is_success as has_result, asks as is_request, tells as is_notification, is_initialize as begins};
ghost use Rattle.lsp_watch.specs.Saw.{Saw};
ghost use Rattle.lsp_capabilities.specs.Announced.{is_announced as announced_before, is_command_announced as command_announced_before, is_announced_for as announced_for, asks_unannounced as unannounced_before, capabilities_in as capabilities_of, result_in, capability_finding, known_finding, reply_finding, request_finding, diagnostics_finding, answer_finding as finding_of};
ghost use Rattle.lsp_capabilities.specs.Knows.{Knows};

use crate::methods::{needed, provider};
use crate::opened::keep_opened;
use crate::params::{capabilities_in, is_offered, lists, says_unknown, text_in};
use crate::registrations::Registrations;
use lsp_watch::{Asked, Direction, Entry, Kind, Rule, Watch};
use serde_json::Value;
use std::alloc::{AllocError, Global};
use std::collections::BTreeSet;

/// Keeps what a client and a server announce to each other in one session, and says which messages do not fit it.
///
/// It stands beside a `Watch`, which sees the same messages. It keeps the capabilities of both sides, the registrations, the URIs
/// that the client opened, and the places of the requests for what was not announced. So memory follows these, and not what passed.
#[derive(Debug, Drop)]
pub struct Announced {
    alloc: Global,
    server: Value,
    client: Value,
    registrations: Registrations,
    /// The places of the client's requests for what the server neither announced nor registered.
    unannounced: BTreeSet<u64>,
    opened: BTreeSet<String>,
    /// Whether an `initialize` passed.
    is_known: bool,
}

impl Announced {
    /// Begins with a session of which nothing has passed. It does not allocate.
    pub fn new(alloc: Global) -> Announced
        ensures { Knows result [] }
    {
        Announced {
            alloc,
            server: Value::Null,
            client: Value::Null,
            registrations: Registrations::new(alloc),
            unannounced: BTreeSet::new(alloc),
            opened: BTreeSet::new(alloc),
            is_known: false,
        }
    }

    /// Returns what a message would go against if it passed now. The watch saw the messages before it. Before the first `initialize`
    /// nothing is known, and nothing is returned.
    pub fn breaks(
        &self,
        watch: &Watch,
        direction: Direction,
        message: &Entry,
    ) -> Option<(Rule, Option<u64>)>
        ensures { (log : Log) → Saw watch.now log → Knows self.now log
            → result ≡ known_finding log direction (entry_view message.now) (view message.now.tree) }
    {
        if self.is_known {
            self.known_breaks(watch, direction, message)
        } else {
            None
        }
    }

    fn known_breaks(
        &self,
        watch: &Watch,
        direction: Direction,
        message: &Entry,
    ) -> Option<(Rule, Option<u64>)>
        ensures { (log : Log) → Saw watch.now log → Knows self.now log
            → result ≡ capability_finding log direction (entry_view message.now) (view message.now.tree) }
    {
        match (direction, message.kind()) {
            (Direction::ToServer, _) => None,
            (Direction::ToClient, Kind::Request(_)) => self.request_breaks(message.method()),
            (Direction::ToClient, Kind::Notification) => self.diagnostics_break(message),
            (Direction::ToClient, Kind::Reply(id, succeeds)) => {
                let asked = watch.waiting(Direction::ToServer, id)?;
                self.reply_breaks(*succeeds, message.tree(), asked)
            }
        }
    }

    fn request_breaks(&self, method: &str) -> Option<(Rule, Option<u64>)>
        ensures { (log : Log) → Knows self.now log → result ≡ request_finding log method.now }
    {
        let path = needed(method)?;
        if is_offered(self.client.pointer(path)) {
            None
        } else {
            Some((Rule::ClientCannot, None))
        }
    }

    fn diagnostics_break(&self, message: &Entry) -> Option<(Rule, Option<u64>)>
        ensures { (log : Log) → Knows self.now log
            → result ≡ diagnostics_finding log (entry_view message.now) }
    {
        if !tells(message, "textDocument/publishDiagnostics") {
            return None;
        }
        let uri = text_in(message.params()?, "uri")?;
        if self.opened.contains(uri) {
            None
        } else {
            Some((Rule::NeverOpened, None))
        }
    }

    fn reply_breaks(
        &self,
        succeeds: bool,
        reply: &Value,
        asked: &Asked,
    ) -> Option<(Rule, Option<u64>)>
        ensures { (log : Log) → Knows self.now log → result ≡ reply_finding log succeeds (view reply.now) asked.now }
    {
        let path = provider(asked.method.as_str())?;
        let standing = Standing {
            is_announced: self.is_announced(asked.method.as_str(), path),
            was_unannounced: self.unannounced.contains(&asked.place),
            is_certain: self.registrations.is_certain(),
        };
        standing.breaks(succeeds, reply, asked.place)
    }

    fn is_announced(&self, method: &str, path: &str) -> bool
        ensures { (log : Log) → Knows self.now log → result ≡ announced_before log method.now path.now }
    {
        is_offered(self.server.pointer(path)) || self.registrations.has_method(method)
    }

    fn is_command_announced(&self, command: &str) -> bool
        ensures { (log : Log) → Knows self.now log → result ≡ command_announced_before log command.now }
    {
        lists(
            self.server.pointer("/executeCommandProvider/commands"),
            command,
        ) || self.registrations.has_command(command)
    }

    /// Returns whether a request is for what the server announced or registered. A command is announced by its name.
    fn is_announced_for(&self, method: &str, params: Option<&Value>, path: &str) -> bool
        ensures { (log : Log) → Knows self.now log → result ≡ announced_for log method.now
            (unwrap_or (option_map (λ v. view v.now) params.entry) null) path.now }
    {
        if method != "workspace/executeCommand" {
            return self.is_announced(method, path);
        }
        match params.and_then(|it| text_in(it, "command")) {
            Some(command) => self.is_command_announced(command),
            None => false,
        }
    }

    /// Returns whether the client asks for what the server neither announced nor registered.
    fn asks_unannounced(&self, direction: Direction, message: &Entry) -> bool
        ensures { (log : Log) → Knows self.now log
            → result ≡ unannounced_before log direction (entry_view message.now) }
    {
        let (Direction::ToServer, Kind::Request(_)) = (direction, message.kind()) else {
            return false;
        };
        match provider(message.method()) {
            Some(path) => !self.is_announced_for(message.method(), message.params(), path),
            None => false,
        }
    }

    /// Keeps what a message announces. The watch saw the messages before it.
    ///
    /// The error means that an allocation failed. Do not use the value after that: it may be incomplete.
    pub fn keep(
        &mut self,
        place: u64,
        watch: &Watch,
        direction: Direction,
        message: &Entry,
    ) -> Result<(), AllocError>
        ensures { (log : Log) → Saw watch.now log → Knows self.old log
            → OnOk result (Knows self.new (passed direction place (entry_view message.now) ∷ log)) }
    {
        let asks = self.asks_unannounced(direction, message);
        add_if(asks, &mut self.unannounced, place)?;
        self.keep_server(watch, direction, message)?;
        self.keep_client(direction, message)?;
        self.registrations.keep(place, watch, direction, message)?;
        keep_opened(self.alloc, &mut self.opened, direction, message)?;
        Ok(())
    }

    fn keep_server(
        &mut self,
        watch: &Watch,
        direction: Direction,
        message: &Entry,
    ) -> Result<(), AllocError>
        ensures server { (log : Log) (place : ℕ) → Saw watch.now log → OnOk result (view self.new.server
            ≡ (if replies_to_it log (passed direction place (entry_view message.now))
            && has_result (entry_view message.now)
            then capabilities_of (result_in (entry_view message.now)) else view self.old.server)) }
        ensures same { (self.new.client ≡ self.old.client) × (self.new.registrations ≡ self.old.registrations)
            × (self.new.unannounced ≡ self.old.unannounced) × (self.new.opened ≡ self.old.opened) × (self.new.is_known ≡ self.old.is_known) }
    {
        if answers_initialize(watch, direction, message) {
            self.server = capabilities_in(message.tree().get("result"))?;
        }
        Ok(())
    }

    fn keep_client(&mut self, direction: Direction, message: &Entry) -> Result<(), AllocError>
        ensures client { (place : ℕ) → OnOk result (view self.new.client
            ≡ (if begins (passed direction place (entry_view message.now))
            then capabilities_of (params_in (entry_view message.now)) else view self.old.client)) }
        ensures known { (place : ℕ) → OnOk result (self.new.is_known
            ≡ (begins (passed direction place (entry_view message.now)) || self.old.is_known)) }
        ensures same { (self.new.server ≡ self.old.server) × (self.new.registrations ≡ self.old.registrations)
            × (self.new.unannounced ≡ self.old.unannounced) × (self.new.opened ≡ self.old.opened) }
    {
        if direction.is_from_client() && asks(message, "initialize") {
            self.client = capabilities_in(message.params())?;
            self.is_known = true;
        }
        Ok(())
    }
}

/// How the server stands to what the client asked for.
#[derive(Clone, Copy)]
struct Standing {
    /// Whether it is announced or registered now.
    is_announced: bool,
    /// Whether it was neither when the client asked.
    was_unannounced: bool,
    /// Whether no registration is about to end.
    is_certain: bool,
}

impl Standing {
    /// Returns what a reply goes against, by whether it has a result.
    fn breaks(self, succeeds: bool, reply: &Value, place: u64) -> Option<(Rule, Option<u64>)>
        ensures { result ≡ finding_of self.is_announced self.was_unannounced self.is_certain succeeds (view reply.now) place }
    {
        match (self.is_announced, self.was_unannounced, succeeds) {
            (true, false, false) if self.is_certain && says_unknown(reply) => {
                Some((Rule::AnnouncedUnknown, Some(place)))
            }
            (false, true, true) => Some((Rule::NotAnnounced, Some(place))),
            _ => None,
        }
    }
}

/// Adds a place to a set, if a message is to be kept.
fn add_if(is_kept: bool, places: &mut BTreeSet<u64>, place: u64) -> Result<(), AllocError>
    ensures { OnOk result ((other : ℕ) → contains nat_cmp places.new other
        ≡ ((place == other && is_kept) || contains nat_cmp places.old other)) }
{
    if is_kept {
        places.insert(place)?;
    }
    Ok(())
}

/// Returns whether a message is a result of `initialize`.
fn answers_initialize(watch: &Watch, direction: Direction, message: &Entry) -> bool
    ensures { (log : Log) (place : ℕ) → Saw watch.now log
        → result ≡ (replies_to_it log (passed direction place (entry_view message.now)) && has_result (entry_view message.now)) }
{
    let Kind::Reply(id, succeeds) = message.kind() else {
        return false;
    };
    match watch.waiting(direction.other(), id) {
        Some(asked) => asked.opens_session() && *succeeds,
        None => false,
    }
}

/// Returns whether a message is a notification of this method.
fn tells(message: &Entry, method: &str) -> bool
    ensures { result ≡ is_notification method.now (entry_view message.now) }
{
    match message.kind() {
        Kind::Notification => message.method() == method,
        Kind::Request(_) | Kind::Reply(_, _) => false,
    }
}

/// Returns whether a message is a request of this method.
fn asks(message: &Entry, method: &str) -> bool
    ensures { result ≡ is_request method.now (entry_view message.now) }
{
    match message.kind() {
        Kind::Request(_) => message.method() == method,
        Kind::Notification | Kind::Reply(_, _) => false,
    }
}
