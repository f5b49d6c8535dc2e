// The requests that have no reply yet, found by their ids and tokens (JSON-RPC 2.0, section 5).
ghost use Rattle.std.specs.BTreeMap.{get, insert_entry};
ghost use Rattle.std.specs.List.{list_any};
ghost use Rattle.std.specs.Ordering.{nat_cmp};
ghost use Rattle.std.specs.Prelude.{◌≡◌, ◌∷◌, ◌++◌, [], OnOk, OnErr, find, option_map, option_and_then};
ghost use Rattle.lsp_message.specs.Id.{Id};
ghost use Rattle.lsp_watch.specs.Indexed.{Use, IsIndexed, IsFresh, MayAdd, numbers, numbers_at, is_found, added, removed, asked_in};
ghost use Rattle.lsp_watch.specs.Log.{is_for, opens_session, without_first};
ghost use Rattle.lsp_watch.specs.Progress.{gives};
ghost use Rattle.lsp_watch.specs.Rules.{opens_under};

use crate::direction::Direction;
use crate::logged::LoggedId;
use crate::open::Asked;
use crate::uses::{ByDirection, Uses, first_in};
use std::alloc::{AllocError, Global};
use std::collections::btree_map::Values;
use std::collections::{BTreeMap, BTreeSet};

/// The requests that have no reply yet. What is looked up takes logarithmic time, and memory follows the number of the requests.
///
/// Each request has a number. The numbers rise in the order in which the requests passed, and `Numbers` has them for each id and
/// token.
#[derive(Debug, Drop)]
pub struct OpenRequests {
    requests: BTreeMap<u64, Asked>,
    numbers: Numbers,
    next: u64,
}

impl OpenRequests {
    /// Makes a memory of no open requests. It does not allocate.
    pub fn new(alloc: Global) -> OpenRequests
        ensures none { asked_in result ≡ [] }
        ensures indexed { IsIndexed result }
    {
        OpenRequests {
            requests: BTreeMap::new(alloc),
            numbers: Numbers::new(alloc),
            next: 0,
        }
    }

    /// The requests, in the order in which they passed.
    pub fn iter(&self) -> Values<'_, u64, Asked>
        ensures { result ≡ asked_in self.now }
    {
        self.requests.values()
    }

    /// The first request of this direction and id.
    pub fn first_for(&self, direction: Direction, id: &LoggedId) -> Option<&Asked>
        ensures { IsIndexed self.now → option_map (λ a. a.now) result
            ≡ find (is_for direction id.now) (asked_in self.now) }
    {
        self.at(self.numbers.ids.first(direction, id))
    }

    fn at(&self, number: Option<u64>) -> Option<&Asked>
        ensures { option_map (λ a. a.now) result ≡ option_and_then (λ n. get nat_cmp self.now.requests n) number }
    {
        self.requests.get(&number?)
    }

    /// The place of the first `initialize`.
    pub fn place_of_opening(&self) -> Option<u64>
        ensures { IsIndexed self.now → result ≡ option_map (λ o. o.place) (find opens_session (asked_in self.now)) }
    {
        place_in(self.at(first_in(&self.numbers.openings)))
    }

    /// Returns whether a request lets its receiver or its sender report progress in this direction under a token.
    #[tactic(auto, using(crate::proofs::Indexing::given))]
    pub fn is_given(&self, direction: Direction, name: &LoggedId) -> bool
        ensures { IsIndexed self.now → result ≡ list_any (gives direction name.now) (asked_in self.now) }
    {
        self.numbers.created.first(direction, name).is_some()
            || self.numbers.work.first(direction.other(), name).is_some()
            || self.numbers.part.first(direction.other(), name).is_some()
    }

    /// Returns whether progress under a token may be sent while an `initialize` waits (LSP 3.17, "Initialize Request"): it is that of
    /// the request.
    pub fn may_tell(&self, name: &LoggedId) -> bool
        ensures { IsIndexed self.now → result ≡ list_any (opens_under name.now) (asked_in self.now) }
    {
        self.numbers.opening_tokens.first(name).is_some()
    }

    /// Adds a request. The error means that an allocation failed, and the requests are the same as before: what was noted of the
    /// request by then is removed again, which does not allocate.
    pub fn push(&mut self, asked: Asked) -> Result<(), AllocError>
        ensures ok { IsIndexed self.old → OnOk result (asked_in self.new ≡ asked_in self.old ++ asked ∷ []) }
        ensures err { OnErr result (asked_in self.new ≡ asked_in self.old) }
        ensures indexed { IsIndexed self.old → IsIndexed self.new }
    {
        // There is no log of 2^64 requests.
        let Some(next) = self.next.checked_add(1) else {
            drop(asked);
            return Err(AllocError);
        };
        self.put(asked)?;
        self.next = next;
        Ok(())
    }

    /// Keeps a request under the next number.
    fn put(&mut self, asked: Asked) -> Result<(), AllocError>
        ensures ok { IsIndexed self.old → OnOk result (self.new.requests.entries
            ≡ self.old.requests.entries ++ (self.old.next, asked) ∷ []) }
        ensures noted { OnOk result ((by : Use) → numbers self.new.numbers by
            ≡ added (is_found by asked) self.old.next (numbers self.old.numbers by)) }
        ensures err { OnErr result (self.new.requests.entries ≡ self.old.requests.entries) }
        ensures undone { IsIndexed self.old → OnErr result ((by : Use) → numbers self.new.numbers by ≡ numbers self.old.numbers by) }
        ensures next { self.new.next ≡ self.old.next }
    {
        let number = self.next;
        match self.numbers.note(&asked, number) {
            Ok(()) => self.insert(number, asked),
            Err(error) => {
                drop(asked);
                Err(error)
            }
        }
    }

    /// Keeps a request whose number is noted. The error means that an allocation failed, and the number is not noted any more.
    fn insert(&mut self, number: u64, asked: Asked) -> Result<(), AllocError>
        ensures ok { OnOk result (self.new.requests.entries ≡ insert_entry nat_cmp self.old.requests.entries number asked) }
        ensures noted { OnOk result (self.new.numbers ≡ self.old.numbers) }
        ensures err { OnErr result (self.new.requests.entries ≡ self.old.requests.entries) }
        ensures undone { OnErr result ((by : Use) → numbers self.new.numbers by
            ≡ removed (is_found by asked) number (numbers self.old.numbers by)) }
        ensures next { self.new.next ≡ self.old.next }
    {
        match self.requests.insert(number, asked) {
            Ok(_) => Ok(()),
            Err(refused) => {
                let (_, asked) = refused.value;
                self.numbers.remove(&asked, number);
                drop(asked);
                Err(AllocError)
            }
        }
    }

    /// Takes out the first request of this direction and id.
    pub fn answer(&mut self, direction: Direction, id: &LoggedId)
        ensures is { IsIndexed self.old → asked_in self.new
            ≡ without_first (is_for direction id.now) (asked_in self.old) }
        ensures indexed { IsIndexed self.old → IsIndexed self.new }
    {
        let Some(number) = self.numbers.ids.first(direction, id) else {
            return;
        };
        let Some(asked) = self.requests.remove(&number) else {
            return;
        };
        self.numbers.remove(&asked, number);
        drop(asked);
    }
}

fn place_in(asked: Option<&Asked>) -> Option<u64>
    ensures { result ≡ option_map (λ o. o.place) (option_map (λ a. a.now) asked.entry) }
{
    asked.map(|it| it.place)
}

/// The numbers of requests, by all that a request is found by.
#[derive(Debug, Drop)]
pub struct Numbers {
    /// By their own ids.
    ids: ByDirection,
    /// By the tokens `workDoneToken`.
    work: ByDirection,
    /// By the tokens `partialResultToken`.
    part: ByDirection,
    /// By the tokens that they create.
    created: ByDirection,
    /// Those of `initialize`, by the token `workDoneToken`.
    opening_tokens: Uses,
    /// Those of `initialize`.
    openings: BTreeSet<u64>,
}

impl Numbers {
    /// Makes a set of no numbers. It does not allocate.
    pub fn new(alloc: Global) -> Numbers
        ensures { (by : Use) → numbers result by ≡ [] }
    {
        Numbers {
            ids: ByDirection::new(alloc),
            work: ByDirection::new(alloc),
            part: ByDirection::new(alloc),
            created: ByDirection::new(alloc),
            opening_tokens: Uses::new(alloc),
            openings: BTreeSet::new(alloc),
        }
    }

    /// Notes the number of a request under all that it is found by. The error means that an allocation failed, and nothing has changed
    /// if the number is a new one.
    fn note(&mut self, asked: &Asked, number: u64) -> Result<(), AllocError>
        ensures ok { OnOk result ((by : Use) → numbers self.new by ≡ added (is_found by asked.now) number (numbers self.old by)) }
        ensures err { ((by : Use) → IsFresh number (numbers self.old by))
            → OnErr result ((by : Use) → numbers self.new by ≡ numbers self.old by) }
    {
        let noted = self.add(asked, number);
        if noted.is_err() {
            self.remove(asked, number);
        }
        noted
    }

    /// Notes a number. The error means that an allocation failed: the number may be noted under some.
    fn add(&mut self, asked: &Asked, number: u64) -> Result<(), AllocError>
        ensures ok { OnOk result ((by : Use) → numbers self.new by ≡ added (is_found by asked.now) number (numbers self.old by)) }
        ensures err { OnErr result ((by : Use) → MayAdd (is_found by asked.now) number (numbers self.old by) (numbers self.new by)) }
    {
        let direction = asked.direction;
        self.ids.add(direction, Some(&asked.id), number)?;
        self.work.add(direction, asked.work.as_ref(), number)?;
        self.part.add(direction, asked.part.as_ref(), number)?;
        self.created.add(direction, asked.created.as_ref(), number)?;
        self.add_opening(asked, number)
    }

    fn add_opening(&mut self, asked: &Asked, number: u64) -> Result<(), AllocError>
        ensures tokens { OnOk result ((q : Id) → numbers_at self.new.opening_tokens q
            ≡ added (opens_under q asked.now) number (numbers_at self.old.opening_tokens q)) }
        ensures openings { OnOk result (self.new.openings.keys ≡ added (opens_session asked.now) number self.old.openings.keys) }
        ensures tokens_err { OnErr result ((q : Id) → MayAdd (opens_under q asked.now) number
            (numbers_at self.old.opening_tokens q) (numbers_at self.new.opening_tokens q)) }
        ensures openings_err { OnErr result (self.new.openings.keys ≡ self.old.openings.keys) }
        ensures same { (self.new.ids ≡ self.old.ids) × (self.new.work ≡ self.old.work) × (self.new.part ≡ self.old.part)
            × (self.new.created ≡ self.old.created) }
    {
        if !asked.opens_session() {
            return Ok(());
        }
        self.opening_tokens.add(asked.work.as_ref(), number)?;
        self.openings.insert(number)?;
        Ok(())
    }

    /// Removes the number of a request from all that it is found by.
    fn remove(&mut self, asked: &Asked, number: u64)
        ensures { (by : Use) → numbers self.new by ≡ removed (is_found by asked.now) number (numbers self.old by) }
    {
        let direction = asked.direction;
        self.ids.remove(direction, Some(&asked.id), number);
        self.work.remove(direction, asked.work.as_ref(), number);
        self.part.remove(direction, asked.part.as_ref(), number);
        self.created
            .remove(direction, asked.created.as_ref(), number);
        self.remove_opening(asked, number);
    }

    fn remove_opening(&mut self, asked: &Asked, number: u64)
        ensures tokens { (q : Id) → numbers_at self.new.opening_tokens q
            ≡ removed (opens_under q asked.now) number (numbers_at self.old.opening_tokens q) }
        ensures openings { self.new.openings.keys ≡ removed (opens_session asked.now) number self.old.openings.keys }
        ensures same { (self.new.ids ≡ self.old.ids) × (self.new.work ≡ self.old.work) × (self.new.part ≡ self.old.part)
            × (self.new.created ≡ self.old.created) }
    {
        if asked.opens_session() {
            self.opening_tokens.remove(asked.work.as_ref(), number);
            self.openings.remove(&number);
        }
    }
}
