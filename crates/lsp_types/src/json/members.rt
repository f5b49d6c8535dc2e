// The members of an object, as they are read.
ghost use Rattle.std.specs.Prelude.{◌≡◌, map};
ghost use Rattle.lsp_json.specs.JsonRef.{json_data};
ghost use Rattle.lsp_types.specs.Offers.{NumberOr, Offered, Options};
ghost use Rattle.lsp_types.specs.Reads.{
  Beside,
  Both,
  IfFits,
  IsObject,
  Named,
  Optional,
  ReadSoFar,
  ReadsMore,
  Required,
  TextOrEmpty,
  ThoseThatFit,
};

use crate::json::offers::{number_or, offered, options};
use crate::json::read_lists::those_that_fit;
use crate::json::read_rest::beside;
use crate::json::read_values::text_or_empty;
use crate::json::reading::{if_fits, named};
use crate::json::{FromJson, Misfit, optional, required};
use lsp_json::JsonRef;
use serde_json::Value;
use std::alloc::Global;

/// The members of an object, which are read one after another. The first misfit is kept until the end, so no step
/// returns an error.
#[derive(Drop)]
pub struct Members<'v, 'a, A: Drop> {
    alloc: Global,
    value: &'v JsonRef<'a>,
    read: Result<A, Misfit>,
}

impl<'v, 'a> Members<'v, 'a, ()> {
    /// Starts with no member read.
    pub fn new(alloc: Global, value: &'v JsonRef<'a>) -> Members<'v, 'a, ()>
        ensures { ReadSoFar (json_data value.now) (λ _. IsObject (json_data value.now)) (json_data result.value.now) result.read }
    {
        let read = if value.is_object() {
            Ok(())
        } else {
            Err(Misfit::Wanted("an object"))
        };
        Members { alloc, value, read }
    }
}

impl<'v, 'a, A: Drop> Members<'v, 'a, A> {
    /// Reads a required member.
    pub fn required<T: FromJson>(self, key: &'static str) -> Members<'v, 'a, (A, T)>
        ensures { ReadsMore (Required T.reads key.now)
            (json_data self.entry.value.now) self.entry.read (json_data result.value.now) result.read }
    {
        let Members { alloc, value, read } = self;
        let more = required(alloc, value, key);
        Members {
            alloc,
            value,
            read: and(read, more),
        }
    }

    /// Reads a member that may be missing or null.
    pub fn optional<T: FromJson>(self, key: &'static str) -> Members<'v, 'a, (A, Option<T>)>
        ensures { ReadsMore (Optional T.reads key.now)
            (json_data self.entry.value.now) self.entry.read (json_data result.value.now) result.read }
    {
        let Members { alloc, value, read } = self;
        let more = optional(alloc, value, key);
        Members {
            alloc,
            value,
            read: and(read, more),
        }
    }

    /// Reads a member that only informs. It is `None` if it is missing, null or does not fit.
    pub fn if_fits<T: FromJson>(self, key: &'static str) -> Members<'v, 'a, (A, Option<T>)>
        ensures { ReadsMore (IfFits T.reads key.now)
            (json_data self.entry.value.now) self.entry.read (json_data result.value.now) result.read }
    {
        let Members { alloc, value, read } = self;
        let more = if_fits(alloc, value, key);
        Members {
            alloc,
            value,
            read: and(read, more),
        }
    }

    /// Reads a required list, without the items that do not fit.
    pub fn those_that_fit<T: FromJson>(self, key: &'static str) -> Members<'v, 'a, (A, Vec<T>)>
        ensures { ReadsMore (ThoseThatFit T.reads key.now)
            (json_data self.entry.value.now) self.entry.read (json_data result.value.now) result.read }
    {
        let Members { alloc, value, read } = self;
        let more = those_that_fit(alloc, value, key);
        Members {
            alloc,
            value,
            read: and(read, more),
        }
    }

    /// Reads a text that only informs. It is empty if it is missing, null or no text.
    pub fn text_or_empty(self, key: &'static str) -> Members<'v, 'a, (A, String)>
        ensures { ReadsMore (TextOrEmpty key.now)
            (json_data self.entry.value.now) self.entry.read (json_data result.value.now) result.read }
    {
        let Members { alloc, value, read } = self;
        let more = text_or_empty(alloc, value, key);
        Members {
            alloc,
            value,
            read: and(read, more),
        }
    }

    /// Reads the members with other keys than these, as an object. It is `None` if there are none.
    pub fn rest(self, keys: &[&'static str]) -> Members<'v, 'a, (A, Option<Value>)>
        ensures { ReadsMore (Beside (map (λ key. key.now) keys.now))
            (json_data self.entry.value.now) self.entry.read (json_data result.value.now) result.read }
    {
        let Members { alloc, value, read } = self;
        let more = beside(alloc, value, keys);
        Members {
            alloc,
            value,
            read: and(read, more),
        }
    }

    /// Reads a member that offers something: a boolean, or options, which mean true. It is `None` if it is missing or
    /// null.
    pub fn offered(self, key: &'static str) -> Members<'v, 'a, (A, Option<bool>)>
        ensures { ReadsMore (Offered key.now)
            (json_data self.entry.value.now) self.entry.read (json_data result.value.now) result.read }
    {
        let Members { alloc, value, read } = self;
        let more = offered(value, key);
        Members {
            alloc,
            value,
            read: and(read, more),
        }
    }

    /// Reads options. `true` means options of which none is set. They are `None` if they are missing, null or `false`.
    pub fn options<T: FromJson>(self, key: &'static str) -> Members<'v, 'a, (A, Option<T>)>
        ensures { ReadsMore (Options T.reads key.now)
            (json_data self.entry.value.now) self.entry.read (json_data result.value.now) result.read }
    {
        let Members { alloc, value, read } = self;
        let more = options(alloc, value, key);
        Members {
            alloc,
            value,
            read: and(read, more),
        }
    }

    /// Reads options in whose place a number may be. The number means options with only the member `inside`. They are
    /// `None` if they are missing or null.
    pub fn number_or<T: FromJson>(
        self,
        key: &'static str,
        inside: &'static str,
    ) -> Members<'v, 'a, (A, Option<T>)>
        ensures { ReadsMore (NumberOr T.reads inside.now key.now)
            (json_data self.entry.value.now) self.entry.read (json_data result.value.now) result.read }
    {
        let Members { alloc, value, read } = self;
        let more = number_or(alloc, value, key, inside);
        Members {
            alloc,
            value,
            read: and(read, more),
        }
    }

    /// Reads a member that has to be this text.
    pub fn named(self, key: &'static str, name: &'static str) -> Members<'v, 'a, (A, ())>
        ensures { ReadsMore (λ json _. Named key.now name.now json)
            (json_data self.entry.value.now) self.entry.read (json_data result.value.now) result.read }
    {
        let Members { alloc, value, read } = self;
        let more = named(value, key, name);
        Members {
            alloc,
            value,
            read: and(read, more),
        }
    }

    /// Returns all members that were read, or the first misfit.
    pub fn end(self) -> Result<A, Misfit>
        ensures { result ≡ self.entry.read }
    {
        self.read
    }
}

/// Returns both, or the first misfit.
fn and<A: Drop, T: Drop>(read: Result<A, Misfit>, more: Result<T, Misfit>) -> Result<(A, T), Misfit>
    ensures { Both read more result }
{
    match read {
        Ok(read) => match more {
            Ok(more) => Ok((read, more)),
            Err(misfit) => {
                drop(read);
                Err(misfit)
            }
        },
        Err(misfit) => {
            drop(more);
            Err(misfit)
        }
    }
}
