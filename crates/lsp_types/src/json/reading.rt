// How values are read from JSON.
ghost use Rattle.std.specs.Prelude.{◌≡◌, IfErr, Some, option_map};
ghost use Rattle.serde_json.specs.Data.{Data};
ghost use Rattle.serde_json.specs.Find.{get};
ghost use Rattle.lsp_json.specs.JsonRef.{json_data};
ghost use Rattle.lsp_types.specs.Reads.{Fits, IfFits, IsWithin, Named, Optional, ReadsAs, ReadsSome, Required, but_null};
ghost use Rattle.lsp_types.specs.declared.json.reading.Misfit.TheVariants.{Memory};

use lsp_json::JsonRef;
use std::alloc::Global;
use std::fmt;

/// Why a value was not read.
#[derive(Clone, Copy, Debug, Drop, PartialEq, Eq)]
pub enum Misfit {
    /// An allocation failed.
    Memory,
    /// The required member with this key is missing.
    Missing(&'static str),
    /// A value of this kind was expected, and another was found.
    Wanted(&'static str),
    /// In the member with the first text as its key, a value of the second kind was expected, and another was found.
    WantedAt(&'static str, &'static str),
}

impl Misfit {
    ghost use Rattle.std.specs.Prelude.{◌≢◌};
    ghost use Rattle.lsp_types.specs.declared.json.reading.Misfit.TheVariants.{Memory};

    /// Returns the same misfit inside the member with this key. If a key is named already, it stays, since it is
    /// further inside.
    pub fn at(self, key: &'static str) -> Misfit
        ensures { result ≢ Memory → self ≢ Memory }
    {
        match self {
            Misfit::Wanted(wanted) => Misfit::WantedAt(key, wanted),
            other => other,
        }
    }
}

impl fmt::Display for Misfit {
    fn fmt<W: fmt::Write>(&self, f: &mut fmt::Formatter<W>) -> fmt::Result {
        match self {
            Misfit::Memory => f.write_str("out of memory"),
            Misfit::Missing(key) => write!(f, "missing field `{key}`"),
            Misfit::Wanted(wanted) => write!(f, "expected {wanted}"),
            Misfit::WantedAt(key, wanted) => write!(f, "invalid `{key}`, expected {wanted}"),
        }
    }
}

/// A type that can be read from JSON. `reads` says which value a tree is read as.
pub trait FromJson: Sized + Drop {
    // Whether a value is what this JSON is read as.
    ghost reads: { Data → Self → Type 0 };

    /// Reads this JSON. It is an error if it is no value of this type, or if an allocation failed.
    fn from_json(alloc: Global, value: &JsonRef<'_>) -> Result<Self, Misfit>
        ensures { ReadsAs (reads (json_data value.now)) result };
}

/// Reads this JSON, or returns `None` if it does not fit.
///
/// `Err` means that an allocation failed.
#[tactic(auto, unfolding(crate::specs::Reads::NoneReads))]
pub fn fitting<T: FromJson>(alloc: Global, value: &JsonRef<'_>) -> Result<Option<T>, Misfit>
    ensures read { ReadsAs (Fits T.reads (json_data value.now)) result }
    ensures memory { IfErr result (λ misfit. misfit ≡ Memory) }
{
    match T::from_json(alloc, value) {
        Ok(it) => Ok(Some(it)),
        Err(Misfit::Memory) => Err(Misfit::Memory),
        Err(_) => Ok(None),
    }
}

/// Returns the member with this key. A member that is null counts as missing.
#[tactic(auto, using(crate::proofs::ReadLemmas::null_is_missing, crate::proofs::ReadLemmas::other_is_present))]
pub fn present<'v>(value: &JsonRef<'v>, key: &str) -> Option<JsonRef<'v>>
    ensures { option_map json_data result ≡ but_null (get key.now (json_data value.now)) }
{
    let member = value.get(key)?;
    if member.is_null() {
        return None;
    }
    Some(member)
}

/// Reads the member with this key.
pub fn of_member<T: FromJson>(
    alloc: Global,
    key: &'static str,
    member: &JsonRef<'_>,
) -> Result<T, Misfit>
    ensures { ReadsAs (T.reads (json_data member.now)) result }
{
    match T::from_json(alloc, member) {
        Ok(it) => Ok(it),
        Err(misfit) => Err(misfit.at(key)),
    }
}

/// Reads the member with this key, as one that may be missing.
pub fn of_some<T: FromJson>(
    alloc: Global,
    key: &'static str,
    member: &JsonRef<'_>,
) -> Result<Option<T>, Misfit>
    ensures { ReadsAs (ReadsSome T.reads (Some (json_data member.now))) result }
{
    match T::from_json(alloc, member) {
        Ok(it) => Ok(Some(it)),
        Err(misfit) => Err(misfit.at(key)),
    }
}

/// Reads a required member.
#[tactic(auto, unfolding(crate::specs::Reads::Required))]
pub fn required<T: FromJson>(
    alloc: Global,
    value: &JsonRef<'_>,
    key: &'static str,
) -> Result<T, Misfit>
    ensures { ReadsAs (Required T.reads key.now (json_data value.now)) result }
{
    if !value.is_object() {
        return Err(Misfit::Wanted("an object"));
    }
    match value.get(key) {
        Some(member) => of_member(alloc, key, &member),
        None => Err(Misfit::Missing(key)),
    }
}

/// Reads a member that may be missing or null.
#[tactic(auto, unfolding(crate::specs::Reads::Optional))]
pub fn optional<T: FromJson>(
    alloc: Global,
    value: &JsonRef<'_>,
    key: &'static str,
) -> Result<Option<T>, Misfit>
    ensures { ReadsAs (Optional T.reads key.now (json_data value.now)) result }
{
    if !value.is_object() {
        return Err(Misfit::Wanted("an object"));
    }
    match present(value, key) {
        Some(member) => of_some(alloc, key, &member),
        None => Ok(None),
    }
}

/// Reads a member that only informs. It is `None` if it is missing, null or does not fit.
#[tactic(auto, unfolding(crate::specs::Reads::IfFits))]
pub fn if_fits<T: FromJson>(
    alloc: Global,
    value: &JsonRef<'_>,
    key: &'static str,
) -> Result<Option<T>, Misfit>
    ensures { ReadsAs (IfFits T.reads key.now (json_data value.now)) result }
{
    if !value.is_object() {
        return Err(Misfit::Wanted("an object"));
    }
    match present(value, key) {
        Some(member) => fitting(alloc, &member),
        None => Ok(None),
    }
}

/// Checks that a member is this text.
#[tactic(auto, unfolding(crate::specs::Reads::Named))]
pub fn named(value: &JsonRef<'_>, key: &'static str, name: &'static str) -> Result<(), Misfit>
    ensures { ReadsAs (λ _. Named key.now name.now (json_data value.now)) result }
{
    let Some(member) = value.get(key) else {
        return Err(Misfit::Missing(key));
    };
    match member.as_str() {
        Some(text) if text == name => Ok(()),
        _ => Err(Misfit::WantedAt(key, name)),
    }
}

/// Reads a number from `least` to `most`. Another value is refused.
pub fn number_within(
    alloc: Global,
    value: &JsonRef<'_>,
    least: u32,
    most: u32,
) -> Result<u32, Misfit>
    ensures { ReadsAs (IsWithin least most (json_data value.now)) result }
{
    let number = u32::from_json(alloc, value)?;
    if least <= number && number <= most {
        Ok(number)
    } else {
        Err(Misfit::Wanted("a number that is listed"))
    }
}
