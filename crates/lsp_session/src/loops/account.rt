// A list that clauses alone see.
ghost use Rattle.std.specs.Prelude.{◌≡◌, [], ◌∷◌, ◌++◌};

use std::marker::Model;
use std::snapshot::Snapshot;

/// The last item of an account, and those before it, while it is added.
#[derive(Drop)]
#[cycle(account)]
struct Last<E> {
    before: Option<Snapshot<Last<E>>>,
    item: E,
}

impl<E> Model for Last<E> {
    ghost use Rattle.std.specs.Prelude.{◌≡◌, List, ℕ, length};

    ghost Value = { List E };

    ghost use Rattle.lsp_session.specs.AccountItems.{with_last};

    ghost view = { λ last. with_last last.before last.item };

    ghost size = { length };

    ghost use Rattle.std.proofs.Common.{arith, length-append};

    ghost size_decreases = { λ last h. Prim.grind (arith, length-append) };
}

/// A list that only clauses see. Nothing of its items is kept when a program runs.
#[derive(Drop)]
pub(crate) struct Account<E> {
    last: Option<Snapshot<Last<E>>>,
}

impl<E> Model for Account<E> {
    ghost use Rattle.std.specs.Prelude.{List};

    ghost Value = { List E };

    ghost use Rattle.lsp_session.specs.AccountItems.{items};

    ghost view = { λ account. items account.last };
}

impl<E: Drop> Account<E> {
    /// Makes an empty account.
    pub(crate) fn new() -> Self
        ensures { result ≡ [] }
    {
        Account { last: None }
    }

    /// Adds an item at the end.
    pub(crate) fn add(&mut self, item: E)
        ensures { self.new ≡ self.old ++ item ∷ [] }
    {
        let last = Last {
            before: self.last.take(),
            item,
        };
        self.last = Some(Snapshot::of(&last));
    }
}
