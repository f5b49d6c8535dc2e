// What a watch keeps, and what it finds.
ghost use Rattle.std.specs.Prelude.{◌≡◌, ◌∷◌, [], ◌++◌, ℕ, false, true, IfOk, OnOk, OnErr, option_map, option_to_list, unwrap_or, map, filter};
ghost use Rattle.std.specs.List.{list_any};
ghost use Rattle.serde_json.specs.View.{view};
ghost use Rattle.lsp_message.specs.Id.{Id};
ghost use Rattle.lsp_message.specs.Message.{Message};
ghost use Rattle.lsp_watch.specs.Entries.{entry_view, method_in, params_in};
ghost use Rattle.lsp_watch.specs.Held.{Opened, token_held};
ghost use Rattle.lsp_watch.specs.Indexed.{IsIndexed, asked_in};
ghost use Rattle.lsp_watch.specs.Log.{Log, passed, waiting, open_of, answered, request_of, is_some_such, progress_token as token_named, answers_initialize as replies_to_it};
ghost use Rattle.lsp_watch.specs.Progress.{progress_finding, after_end, after_accept, ended_by, accepted_in};
ghost use Rattle.lsp_watch.specs.Rules.{session_finding, lifecycle_finding, id_finding, opens_under};
ghost use Rattle.lsp_watch.specs.Saw.{Saw, KeepsSame};
ghost use Rattle.lsp_watch.specs.Verdicts.{breaches_of, findings_of, as_breach, shape_breach as breach_of_shape, entered, unanswered_of, begins_in, as_unanswered, is_over as is_over_for};

use crate::breach::{Breach, Unanswered, breach_of, is_over, shape_breach, unanswered_from};
use crate::direction::Direction;
use crate::documents::Documents;
use crate::lifecycle::{Lifecycle, asks};
use crate::logged::{Entry, Kind, LoggedId, LoggedMessage};
use crate::open::{Asked, kept_of};
use crate::progress::{Created, progress_token};
use crate::requests::OpenRequests;
use crate::rule::Rule;
use std::alloc::{AllocError, Global};
use std::collections::btree_map::Values;

/// Sees each message that passes between a client and a server in one session, and says which rules it breaks.
///
/// It keeps the requests that have no reply, the documents that are open, the tokens that the client let the server create, and four places.
/// So memory follows what is open, and not what passed; but a created token is kept up to the end.
#[derive(Debug, Drop)]
pub struct Watch {
    alloc: Global,
    is_whole: bool,
    asked: OpenRequests,
    created: Created,
    stands: Lifecycle,
    documents: Documents,
}

impl Watch {
    /// Makes a watch that sees a session from its first message on. It does not allocate.
    pub fn new(alloc: Global) -> Watch
        ensures saw { Saw result [] }
        ensures whole { result.is_whole ≡ true }
    {
        Watch::starting(alloc, true)
    }

    /// Makes a watch that sees a session from its middle on: what passed before is not known. What would be a breach only if nothing
    /// had passed before has the verdict `CannotTell`. It does not allocate.
    pub fn from_the_middle(alloc: Global) -> Watch
        ensures saw { Saw result [] }
        ensures part { result.is_whole ≡ false }
    {
        Watch::starting(alloc, false)
    }

    fn starting(alloc: Global, is_whole: bool) -> Watch
        ensures saw { Saw result [] }
        ensures whole { result.is_whole ≡ is_whole }
    {
        Watch {
            alloc,
            is_whole,
            asked: OpenRequests::new(alloc),
            created: Created::new(alloc),
            stands: Lifecycle::new(),
            documents: Documents::new(alloc),
        }
    }

    /// Sees one more message, and gives the rules that it breaks: those of its shape, then one of the lifecycle or of ids, one of
    /// documents, and one of progress. The place is a number by which you find it again, such as its line.
    ///
    /// A message that breaks a rule counts all the same: a `shutdown` was sent, also where it came too early. The error means that
    /// an allocation failed, and nothing has changed.
    pub fn observe(
        &mut self,
        place: u64,
        direction: Direction,
        message: &LoggedMessage,
    ) -> Result<Vec<Breach>, AllocError>
        ensures ok { (log : Log) → Saw self.old log → IfOk result (λ found.
            (found.items ≡ breaches_of self.old.is_whole log direction message.now.faults.items (option_map entry_view message.now.entry))
            × Saw self.new (entered direction place (option_map entry_view message.now.entry) log)) }
        ensures whole { self.new.is_whole ≡ self.old.is_whole }
        ensures err { OnErr result (KeepsSame self.old self.new) }
    {
        let found = self.breaches(direction, message)?;
        let kept = self.enter(place, direction, message);
        match kept {
            Ok(()) => Ok(found),
            Err(error) => {
                drop(found);
                Err(error)
            }
        }
    }

    /// The rules that a message would break if it passed now. The error means that an allocation failed.
    pub fn breaches(
        &self,
        direction: Direction,
        message: &LoggedMessage,
    ) -> Result<Vec<Breach>, AllocError>
        ensures { (log : Log) → Saw self.now log → IfOk result (λ found.
            found.items ≡ breaches_of self.now.is_whole log direction message.now.faults.items (option_map entry_view message.now.entry)) }
    {
        let mut found = shape_breaches(self.alloc, &message.faults)?;
        if let Some(entry) = &message.entry {
            self.push_breaches(&mut found, direction, entry)?;
        }
        Ok(found)
    }

    fn push_breaches(
        &self,
        found: &mut Vec<Breach>,
        direction: Direction,
        message: &Entry,
    ) -> Result<(), AllocError>
        ensures { (log : Log) → Saw self.now log → OnOk result (found.new.items ≡ found.old.items
            ++ map (as_breach self.now.is_whole) (findings_of log direction (entry_view message.now))) }
    {
        let token = progress_token(message)?;
        let session = self.session_breaks(direction, message, token.as_ref());
        let progress = self.progress_breaks(direction, token.as_ref());
        drop(token);
        self.push(found, session)?;
        self.push(found, self.documents.breaks(direction, message))?;
        self.push(found, progress)
    }

    fn push(
        &self,
        found: &mut Vec<Breach>,
        finding: Option<(Rule, Option<u64>)>,
    ) -> Result<(), AllocError>
        ensures { OnOk result (found.new.items
            ≡ found.old.items ++ map (as_breach self.now.is_whole) (option_to_list finding)) }
    {
        if let Some(finding) = finding {
            found.push(breach_of(finding, self.is_whole))?;
        }
        Ok(())
    }

    fn progress_breaks(
        &self,
        direction: Direction,
        token: Option<&LoggedId>,
    ) -> Option<(Rule, Option<u64>)>
        ensures { (log : Log) → Saw self.now log → (m : Message) → option_map (λ t. t.now) token.entry ≡ token_named m
            → result ≡ progress_finding log direction m }
    {
        self.created.breaks(&self.asked, direction, token?)
    }

    fn session_breaks(
        &self,
        direction: Direction,
        message: &Entry,
        token: Option<&LoggedId>,
    ) -> Option<(Rule, Option<u64>)>
        ensures { (log : Log) → Saw self.now log → option_map (λ t. t.now) token.entry ≡ token_named (entry_view message.now)
            → result ≡ session_finding log direction (entry_view message.now) }
    {
        self.lifecycle_breaks(direction, message, token)
            .or(self.id_breaks(direction, message))
    }

    fn lifecycle_breaks(
        &self,
        direction: Direction,
        message: &Entry,
        token: Option<&LoggedId>,
    ) -> Option<(Rule, Option<u64>)>
        ensures { (log : Log) → Saw self.now log → option_map (λ t. t.now) token.entry ≡ token_named (entry_view message.now)
            → result ≡ lifecycle_finding log direction (entry_view message.now) }
    {
        let waiting = self.asked.place_of_opening();
        match (direction, message.kind()) {
            (_, Kind::Reply(_, _)) => None,
            (Direction::ToServer, _) => self.stands.client_breaks(waiting, message),
            (Direction::ToClient, _) => {
                let tells = self.tells_opening(token);
                self.stands.server_breaks(waiting, tells, message)
            }
        }
    }

    fn tells_opening(&self, token: Option<&LoggedId>) -> bool
        ensures { IsIndexed self.now.asked → result
            ≡ is_some_such (λ name. list_any (opens_under name) (asked_in self.now.asked)) (option_map (λ t. t.now) token.entry) }
    {
        match token {
            Some(token) => self.asked.may_tell(token),
            None => false,
        }
    }

    fn id_breaks(&self, direction: Direction, message: &Entry) -> Option<(Rule, Option<u64>)>
        ensures { (log : Log) → Saw self.now log
            → result ≡ id_finding log direction (entry_view message.now) }
    {
        match message.kind() {
            Kind::Request(id) => {
                let asked = self.waiting(direction, id)?;
                Some((Rule::IdStillOpen, Some(asked.place)))
            }
            Kind::Notification => None,
            Kind::Reply(id, _) => match self.waiting(direction.other(), id) {
                Some(_) => None,
                None => Some((Rule::NobodyAsked, None)),
            },
        }
    }

    /// Whether the message begins a new session: an `initialize` after `exit`, or any `initialize` if the session was seen from its middle
    /// on. Call `finish` then, and go on with a new watch.
    pub fn begins_session(&self, direction: Direction, message: &LoggedMessage) -> bool
        ensures { (log : Log) → Saw self.now log
            → result ≡ begins_in self.now.is_whole log direction (option_map entry_view message.now.entry) }
    {
        match &message.entry {
            Some(entry) => {
                direction.is_from_client()
                    && asks(entry, "initialize")
                    && (!self.is_whole || self.stands.exit.is_some())
            }
            None => false,
        }
    }

    /// The requests that have no reply, where the session is over (`Rule::NoReply`): those to the server, if it has ended or `exit` passed,
    /// and those to the client, if it has ended or `exit` passed. They stand in the order in which they passed. The error means that
    /// an allocation failed.
    pub fn finish(
        &self,
        server_ended: bool,
        client_ended: bool,
    ) -> Result<Vec<Unanswered>, AllocError>
        ensures { (log : Log) → Saw self.now log → IfOk result (λ found.
            found.items ≡ unanswered_of server_ended client_ended log) }
    {
        let left = self.stands.exit.is_some();
        all_unanswered(
            self.alloc,
            self.asked.iter(),
            server_ended || left,
            client_ended || left,
        )
    }

    /// The requests that have no reply, in the order in which they passed.
    pub fn asked(&self) -> Values<'_, u64, Asked>
        ensures { (log : Log) → Saw self.now log → result ≡ open_of log }
    {
        self.asked.iter()
    }

    /// The request that the next reply of this id answers, if a request of this direction waits under it.
    pub fn waiting(&self, direction: Direction, id: &LoggedId) -> Option<&Asked>
        ensures { (log : Log) → Saw self.now log
            → option_map (λ a. a.now) result ≡ waiting direction id.now log }
    {
        self.asked.first_for(direction, id)
    }

    fn enter(
        &mut self,
        place: u64,
        direction: Direction,
        message: &LoggedMessage,
    ) -> Result<(), AllocError>
        ensures ok { (log : Log) → Saw self.old log
            → OnOk result (Saw self.new (entered direction place (option_map entry_view message.now.entry) log)) }
        ensures whole { self.new.is_whole ≡ self.old.is_whole }
        ensures err { OnErr result (KeepsSame self.old self.new) }
    {
        match &message.entry {
            Some(entry) => self.keep(place, direction, entry),
            None => Ok(()),
        }
    }

    fn keep(&mut self, place: u64, direction: Direction, message: &Entry) -> Result<(), AllocError>
        ensures ok { (log : Log) → Saw self.old log
            → OnOk result (Saw self.new (passed direction place (entry_view message.now) ∷ log)) }
        ensures whole { self.new.is_whole ≡ self.old.is_whole }
        ensures err { OnErr result (KeepsSame self.old self.new) }
    {
        let answers = self.answers_initialize(direction, message);
        let stands = self.stands.after(place, direction, message, answers);
        match message.kind() {
            Kind::Request(id) => self.keep_request(place, direction, id, message)?,
            Kind::Notification => self.keep_notification(place, direction, message)?,
            Kind::Reply(id, succeeds) => self.keep_reply(direction, id, *succeeds)?,
        }
        self.stands = stands;
        Ok(())
    }

    fn answers_initialize(&self, direction: Direction, message: &Entry) -> bool
        ensures { (log : Log) (place : ℕ) → Saw self.now log
            → result ≡ replies_to_it log (passed direction place (entry_view message.now)) }
    {
        let Kind::Reply(id, _) = message.kind() else {
            return false;
        };
        match self.waiting(direction.other(), id) {
            Some(asked) => asked.opens_session(),
            None => false,
        }
    }

    fn keep_request(
        &mut self,
        place: u64,
        direction: Direction,
        id: &LoggedId,
        message: &Entry,
    ) -> Result<(), AllocError>
        ensures asked { IsIndexed self.old.asked → OnOk result (asked_in self.new.asked ≡ asked_in self.old.asked
            ++ request_of direction place id.now (unwrap_or (method_in (view message.now.tree)) []) (params_in (view message.now.tree)) ∷ []) }
        ensures indexed { IsIndexed self.old.asked → IsIndexed self.new.asked }
        ensures same { (self.new.created ≡ self.old.created) × (self.new.documents ≡ self.old.documents)
            × (self.new.stands ≡ self.old.stands) × (self.new.is_whole ≡ self.old.is_whole) }
        ensures err { OnErr result (asked_in self.new.asked ≡ asked_in self.old.asked) }
    {
        let kept = kept_of(self.alloc, direction, place, id, message)?;
        self.asked.push(kept)?;
        Ok(())
    }

    /// Keeps what a notification does: a client's with a document, a server's with a token.
    fn keep_notification(
        &mut self,
        place: u64,
        direction: Direction,
        message: &Entry,
    ) -> Result<(), AllocError>
        ensures documents { (log : Log) → Opened self.old.documents log → OnOk result (Opened self.new.documents
            (passed direction place (entry_view message.now) ∷ log)) }
        ensures tokens { OnOk result ((name : Id) → token_held self.new.created name
            ≡ after_end name place (ended_by direction (entry_view message.now)) (token_held self.old.created name)) }
        ensures same { (self.new.asked ≡ self.old.asked) × (self.new.stands ≡ self.old.stands)
            × (self.new.is_whole ≡ self.old.is_whole) }
        ensures err { OnErr result (KeepsSame self.old self.new) }
    {
        match direction {
            Direction::ToServer => self.documents.keep(place, direction, message),
            Direction::ToClient => self.created.end(place, message),
        }
    }

    /// Keeps what a reply does: it answers a request, and may let a token be created.
    fn keep_reply(
        &mut self,
        direction: Direction,
        id: &LoggedId,
        succeeds: bool,
    ) -> Result<(), AllocError>
        ensures asked { IsIndexed self.old.asked → OnOk result (asked_in self.new.asked ≡ answered direction id.now (asked_in self.old.asked)) }
        ensures indexed { IsIndexed self.old.asked → IsIndexed self.new.asked }
        ensures tokens { IsIndexed self.old.asked → OnOk result ((name : Id) → token_held self.new.created name
            ≡ after_accept name (accepted_in succeeds direction id.now (asked_in self.old.asked)) (token_held self.old.created name)) }
        ensures same { (self.new.documents ≡ self.old.documents) × (self.new.stands ≡ self.old.stands)
            × (self.new.is_whole ≡ self.old.is_whole) }
        ensures err { OnErr result (KeepsSame self.old self.new) }
    {
        let name = self.accepted(direction, id, succeeds)?;
        self.created.accept(name)?;
        self.asked.answer(direction.other(), id);
        Ok(())
    }

    /// The token that a reply lets be created.
    fn accepted(
        &self,
        direction: Direction,
        id: &LoggedId,
        succeeds: bool,
    ) -> Result<Option<LoggedId>, AllocError>
        ensures { IsIndexed self.now.asked → IfOk result (λ name. name ≡ accepted_in succeeds direction id.now (asked_in self.now.asked)) }
    {
        if !succeeds {
            return Ok(None);
        }
        let Some(asked) = self.asked.first_for(direction.other(), id) else {
            return Ok(None);
        };
        match &asked.created {
            Some(name) => Ok(Some(name.clone()?)),
            None => Ok(None),
        }
    }
}

/// What a message breaks of the rules of its shape.
fn shape_breaches(alloc: Global, faults: &[Rule]) -> Result<Vec<Breach>, AllocError>
    ensures { IfOk result (λ found. found.items ≡ map breach_of_shape faults.now) }
{
    faults.iter().map(|rule| shape_breach(*rule)).collect(alloc)
}

/// The requests that have no reply, of those sides that have ended.
fn all_unanswered(
    alloc: Global,
    asked: Values<'_, u64, Asked>,
    server_ended: bool,
    client_ended: bool,
) -> Result<Vec<Unanswered>, AllocError>
    ensures { IfOk result (λ found. found.items
        ≡ map as_unanswered (filter (is_over_for server_ended client_ended) asked.entry)) }
{
    asked
        .filter(|it| is_over(server_ended, client_ended, it))
        .map(unanswered_from)
        .collect(alloc)
}
