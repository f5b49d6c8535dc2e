// Which open requests use an id: as their own, or as a token.
ghost use Rattle.std.specs.Prelude.{◌≡◌, ◌&&◌, [], true, false, IfOk, OnOk, OnErr, option_map};
ghost use Rattle.lsp_message.specs.Id.{Id, same_id};
ghost use Rattle.lsp_watch.specs.Indexed.{numbers_at, numbers_by, first_of, added, removed};
ghost use Rattle.lsp_watch.specs.Log.{is_id, same_direction};

use crate::direction::Direction;
use crate::logged::LoggedId;
use std::alloc::{AllocError, Global};
use std::collections::{BTreeMap, BTreeSet};

/// The numbers of the requests that use an id. An id that none uses takes no memory.
#[derive(Debug, Drop)]
pub struct Uses {
    alloc: Global,
    numbers: BTreeMap<LoggedId, BTreeSet<u64>>,
}

impl Uses {
    /// Makes a memory of no uses. It does not allocate.
    pub fn new(alloc: Global) -> Uses
        ensures { (id : Id) → numbers_at result id ≡ [] }
    {
        Uses {
            alloc,
            numbers: BTreeMap::new(alloc),
        }
    }

    /// Returns the first number of an id.
    pub fn first(&self, id: &LoggedId) -> Option<u64>
        ensures { result ≡ first_of (numbers_at self.now id.now) }
    {
        match self.numbers.get(id) {
            Some(numbers) => first_in(numbers),
            None => None,
        }
    }

    /// Adds a number to those of an id, if there is an id. The error means that an allocation failed, and nothing has changed.
    pub fn add(&mut self, id: Option<&LoggedId>, number: u64) -> Result<(), AllocError>
        ensures ok { OnOk result ((q : Id) → numbers_at self.new q
            ≡ added (is_id q (option_map (λ i. i.now) id.entry)) number (numbers_at self.old q)) }
        ensures err { OnErr result ((q : Id) → numbers_at self.new q ≡ numbers_at self.old q) }
    {
        match id {
            Some(id) => self.add_under(id, number),
            None => Ok(()),
        }
    }

    fn add_under(&mut self, id: &LoggedId, number: u64) -> Result<(), AllocError>
        ensures ok { OnOk result ((q : Id) → numbers_at self.new q ≡ added (same_id q id.now) number (numbers_at self.old q)) }
        ensures err { OnErr result ((q : Id) → numbers_at self.new q ≡ numbers_at self.old q) }
    {
        if self.add_to_old(id, number)? {
            return Ok(());
        }
        self.add_new(id, number)?;
        Ok(())
    }

    /// Adds a number to those of an id, and returns whether the id had some.
    fn add_to_old(&mut self, id: &LoggedId, number: u64) -> Result<bool, AllocError>
        ensures had { IfOk result (λ had. had ≡ true → (q : Id) → numbers_at self.new q
            ≡ added (same_id q id.now) number (numbers_at self.old q)) }
        ensures none { IfOk result (λ had. had ≡ false → numbers_at self.new id.now ≡ []) }
        ensures same { IfOk result (λ had. had ≡ false → (q : Id) → numbers_at self.new q ≡ numbers_at self.old q) }
        ensures err { OnErr result ((q : Id) → numbers_at self.new q ≡ numbers_at self.old q) }
    {
        let Some(numbers) = self.numbers.get_mut(id) else {
            return Ok(false);
        };
        numbers.insert(number)?;
        Ok(true)
    }

    fn add_new(&mut self, id: &LoggedId, number: u64) -> Result<(), AllocError>
        requires { numbers_at self.old id.now ≡ [] }
        ensures ok { OnOk result ((q : Id) → numbers_at self.new q ≡ added (same_id q id.now) number (numbers_at self.old q)) }
        ensures err { OnErr result ((q : Id) → numbers_at self.new q ≡ numbers_at self.old q) }
    {
        let id = id.clone()?;
        let mut numbers = BTreeSet::new(self.alloc);
        numbers.insert(number)?;
        self.numbers.insert(id, numbers)?;
        Ok(())
    }

    /// Removes a number from those of an id, if there is an id.
    pub fn remove(&mut self, id: Option<&LoggedId>, number: u64)
        ensures { (q : Id) → numbers_at self.new q
            ≡ removed (is_id q (option_map (λ i. i.now) id.entry)) number (numbers_at self.old q) }
    {
        if let Some(id) = id {
            self.remove_under(id, number);
        }
    }

    fn remove_under(&mut self, id: &LoggedId, number: u64)
        ensures { (q : Id) → numbers_at self.new q ≡ removed (same_id q id.now) number (numbers_at self.old q) }
    {
        if self.take_out(id, number) {
            self.numbers.remove(id);
        }
    }

    /// Takes a number out of those of an id, and returns whether none is left.
    fn take_out(&mut self, id: &LoggedId, number: u64) -> bool
        ensures is { (q : Id) → numbers_at self.new q ≡ removed (same_id q id.now) number (numbers_at self.old q) }
        ensures none { result ≡ true → numbers_at self.new id.now ≡ [] }
    {
        let Some(numbers) = self.numbers.get_mut(id) else {
            return true;
        };
        numbers.remove(&number);
        numbers.is_empty()
    }
}

/// The first of numbers.
pub fn first_in(numbers: &BTreeSet<u64>) -> Option<u64>
    ensures { result ≡ first_of numbers.now.keys }
{
    numbers.first().copied()
}

/// The numbers of the requests that use an id, by the direction in which they go.
#[derive(Debug, Drop)]
pub struct ByDirection {
    to_server: Uses,
    to_client: Uses,
}

impl ByDirection {
    /// Makes a memory of no uses in either direction. It does not allocate.
    pub fn new(alloc: Global) -> ByDirection
        ensures { (direction : Direction) (id : Id) → numbers_by result direction id ≡ [] }
    {
        ByDirection {
            to_server: Uses::new(alloc),
            to_client: Uses::new(alloc),
        }
    }

    /// Returns the first number of a direction and an id.
    pub fn first(&self, direction: Direction, id: &LoggedId) -> Option<u64>
        ensures { result ≡ first_of (numbers_by self.now direction id.now) }
    {
        match direction {
            Direction::ToServer => self.to_server.first(id),
            Direction::ToClient => self.to_client.first(id),
        }
    }

    /// Adds a number to those of a direction and an id, if there is an id. The error means that an allocation failed, and nothing has
    /// changed.
    pub fn add(
        &mut self,
        direction: Direction,
        id: Option<&LoggedId>,
        number: u64,
    ) -> Result<(), AllocError>
        ensures ok { OnOk result ((w : Direction) (q : Id) → numbers_by self.new w q
            ≡ added (same_direction w direction && is_id q (option_map (λ i. i.now) id.entry)) number
            (numbers_by self.old w q)) }
        ensures err { OnErr result ((w : Direction) (q : Id) → numbers_by self.new w q ≡ numbers_by self.old w q) }
    {
        match direction {
            Direction::ToServer => self.to_server.add(id, number),
            Direction::ToClient => self.to_client.add(id, number),
        }
    }

    /// Removes a number from those of a direction and an id, if there is an id.
    pub fn remove(&mut self, direction: Direction, id: Option<&LoggedId>, number: u64)
        ensures { (w : Direction) (q : Id) → numbers_by self.new w q
            ≡ removed (same_direction w direction && is_id q (option_map (λ i. i.now) id.entry)) number
            (numbers_by self.old w q) }
    {
        match direction {
            Direction::ToServer => self.to_server.remove(id, number),
            Direction::ToClient => self.to_client.remove(id, number),
        }
    }
}
