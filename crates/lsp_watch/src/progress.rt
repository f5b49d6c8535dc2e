// The tokens of progress (LSP 3.17, "Work Done Progress", "Partial Result Progress" and "Creating Work Done Progress").
ghost use Rattle.std.specs.Prelude.{◌≡◌, ℕ, true, false, [], Some, IfOk, OnOk, OnErr, if◌then◌else◌, option_map, option_and_then, codes};
ghost use Rattle.serde_json.specs.Find.{get};
ghost use Rattle.serde_json.specs.View.{view};
ghost use Rattle.lsp_watch.specs.Documents.{text_in};
ghost use Rattle.lsp_message.specs.Id.{Id, same_id};
ghost use Rattle.lsp_watch.specs.Entries.{entry_view};
ghost use Rattle.lsp_watch.specs.Log.{progress_token as token_named};
ghost use Rattle.lsp_watch.specs.Held.{token_held, Accepted};
ghost use Rattle.lsp_watch.specs.Indexed.{IsIndexed, asked_in};
ghost use Rattle.lsp_watch.specs.Progress.{token_finding, created_finding, is_end as says_end, ended_name, after_accept, after_end, once_ended};

use crate::direction::Direction;
use crate::logged::{Entry, Kind, LoggedId};
use crate::open::key_in;
use crate::requests::OpenRequests;
use crate::rule::Rule;
use serde_json::Value;
use std::alloc::{AllocError, Global};
use std::collections::BTreeMap;

/// What is kept of a token that the client let the server create.
#[derive(Clone, Copy, Debug)]
pub enum Token {
    /// Its progress has not ended.
    Live,
    /// Its progress has ended, by the message at this place.
    Ended(u64),
}

/// The tokens that the client has let the server create.
#[derive(Debug, Drop)]
pub struct Created {
    tokens: BTreeMap<LoggedId, Token>,
}

impl Created {
    /// Makes a memory of no tokens. It does not allocate.
    pub fn new(alloc: Global) -> Created
        ensures { Accepted result [] }
    {
        Created {
            tokens: BTreeMap::new(alloc),
        }
    }

    /// Returns the rule that progress of this direction under a token breaks.
    pub fn breaks(
        &self,
        asked: &OpenRequests,
        direction: Direction,
        name: &LoggedId,
    ) -> Option<(Rule, Option<u64>)>
        ensures { IsIndexed asked.now
            → result ≡ token_finding (asked_in asked.now) (token_held self.now name.now) direction name.now }
    {
        if asked.is_given(direction, name) {
            return None;
        }
        created_breaks(direction, self.get(name))
    }

    fn get(&self, name: &LoggedId) -> Option<Token>
        ensures { result ≡ token_held self.now name.now }
    {
        self.tokens.get(name).copied()
    }

    fn put(&mut self, name: LoggedId, token: Token) -> Result<(), AllocError>
        ensures ok { OnOk result ((other : Id) → token_held self.new other
            ≡ (if same_id name other then Some token else token_held self.old other)) }
        ensures err { OnErr result ((other : Id) → token_held self.new other ≡ token_held self.old other) }
    {
        self.tokens.insert(name, token)?;
        Ok(())
    }

    /// Keeps that the client let a token be created, if it did.
    pub fn accept(&mut self, name: Option<LoggedId>) -> Result<(), AllocError>
        ensures ok { OnOk result ((other : Id) → token_held self.new other
            ≡ after_accept other name (token_held self.old other)) }
        ensures err { OnErr result ((other : Id) → token_held self.new other ≡ token_held self.old other) }
    {
        match name {
            Some(name) => self.put(name, Token::Live),
            None => Ok(()),
        }
    }

    /// Keeps that progress under a token has ended, if a message of the server says so.
    pub fn end(&mut self, place: u64, message: &Entry) -> Result<(), AllocError>
        ensures ok { OnOk result ((other : Id) → token_held self.new other
            ≡ after_end other place (ended_name (entry_view message.now)) (token_held self.old other)) }
        ensures err { OnErr result ((other : Id) → token_held self.new other ≡ token_held self.old other) }
    {
        match name_ended(message)? {
            Some(name) => self.end_under(place, name),
            None => Ok(()),
        }
    }

    fn end_under(&mut self, place: u64, name: LoggedId) -> Result<(), AllocError>
        ensures ok { OnOk result ((other : Id) → token_held self.new other
            ≡ after_end other place (Some name) (token_held self.old other)) }
        ensures err { OnErr result ((other : Id) → token_held self.new other ≡ token_held self.old other) }
    {
        if !self.is_live(&name) {
            return Ok(());
        }
        self.put(name, Token::Ended(place))?;
        Ok(())
    }

    fn is_live(&self, name: &LoggedId) -> bool
        ensures live { result ≡ true → token_held self.now name.now ≡ Some Token.Live }
        ensures other { result ≡ false → (place : ℕ)
            → once_ended place (token_held self.now name.now) ≡ token_held self.now name.now }
    {
        match self.get(name) {
            Some(Token::Live) => true,
            Some(Token::Ended(_)) | None => false,
        }
    }
}

/// Returns the rule that progress breaks if no request gives its token.
fn created_breaks(direction: Direction, token: Option<Token>) -> Option<(Rule, Option<u64>)>
    ensures { result ≡ created_finding direction token }
{
    match (direction, token) {
        (Direction::ToServer, _) | (Direction::ToClient, None) => Some((Rule::NoSuchToken, None)),
        (Direction::ToClient, Some(Token::Live)) => None,
        (Direction::ToClient, Some(Token::Ended(place))) => Some((Rule::TokenEnded, Some(place))),
    }
}

/// The token of which a message says that its work ended.
fn name_ended(message: &Entry) -> Result<Option<LoggedId>, AllocError>
    ensures { IfOk result (λ name. name ≡ ended_name (entry_view message.now)) }
{
    if is_end(message) {
        progress_token(message)
    } else {
        Ok(None)
    }
}

/// The token under which a message tells progress.
pub fn progress_token(message: &Entry) -> Result<Option<LoggedId>, AllocError>
    ensures { IfOk result (λ name. name ≡ token_named (entry_view message.now)) }
{
    match message.kind() {
        Kind::Notification if message.method() == "$/progress" => {
            key_in(message.tree().get("params"), "token")
        }
        Kind::Request(_) | Kind::Notification | Kind::Reply(_, _) => Ok(None),
    }
}

/// Whether it says that the work ended (LSP 3.17, "Work Done Progress End").
fn is_end(message: &Entry) -> bool
    ensures { result ≡ says_end (entry_view message.now) }
{
    let Some(params) = message.params() else {
        return false;
    };
    match kind_in(params) {
        Some(kind) => kind == "end",
        None => false,
    }
}

fn kind_in(params: &Value) -> Option<&str>
    ensures { option_map (λ s. s.now) result
        ≡ option_and_then (text_in (codes "kind")) (get (codes "value") (view params.now)) }
{
    params.get("value")?.get("kind")?.as_str()
}
