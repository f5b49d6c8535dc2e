// What a server offers, as it is read.
ghost use Rattle.std.specs.Prelude.{◌≡◌, IfOk, Some};
ghost use Rattle.serde_json.specs.Data.{no_members, object, put};
ghost use Rattle.serde_json.specs.View.{view};
ghost use Rattle.lsp_json.specs.JsonRef.{json_data};
ghost use Rattle.lsp_types.specs.Offers.{NumberOr, Offered, Options};
ghost use Rattle.lsp_types.specs.Reads.{ReadsAs, ReadsSome};

use crate::json::reading::{of_some, present};
use crate::json::{FromJson, Misfit};
use lsp_json::JsonRef;
use serde_json::{Map, Value};
use std::alloc::{AllocError, Global};

/// Reads a member that offers something: a boolean, or options, which mean true.
#[tactic(auto, using(crate::proofs::OfferLemmas::object_offers, crate::proofs::OfferLemmas::other_offers), unfolding(crate::specs::Offers::Offered))]
pub fn offered(value: &JsonRef<'_>, key: &'static str) -> Result<Option<bool>, Misfit>
    ensures { ReadsAs (Offered key.now (json_data value.now)) result }
{
    if !value.is_object() {
        return Err(Misfit::Wanted("an object"));
    }
    let Some(member) = present(value, key) else {
        return Ok(None);
    };
    if member.is_object() {
        return Ok(Some(true));
    }
    match member.as_bool() {
        Some(it) => Ok(Some(it)),
        None => Err(Misfit::WantedAt(key, "true, false or an object")),
    }
}

/// Reads a member with options. `true` means options of which none is set, and `false` means none.
#[tactic(auto, using(crate::proofs::OfferLemmas::true_options, crate::proofs::OfferLemmas::false_options, crate::proofs::OfferLemmas::other_options), unfolding(crate::specs::Offers::Options))]
pub fn options<T: FromJson>(
    alloc: Global,
    value: &JsonRef<'_>,
    key: &'static str,
) -> Result<Option<T>, Misfit>
    ensures { ReadsAs (Options T.reads key.now (json_data value.now)) result }
{
    if !value.is_object() {
        return Err(Misfit::Wanted("an object"));
    }
    let Some(member) = present(value, key) else {
        return Ok(None);
    };
    match member.as_bool() {
        Some(true) => none_set(alloc, key),
        Some(false) => Ok(None),
        None => of_some(alloc, key, &member),
    }
}

/// Returns options of which none is set.
fn none_set<T: FromJson>(alloc: Global, key: &'static str) -> Result<Option<T>, Misfit>
    ensures { ReadsAs (ReadsSome T.reads (Some (object no_members))) result }
{
    let none = nothing(alloc);
    let options = of_some(alloc, key, &JsonRef::of_tree(&none));
    drop(none);
    options
}

/// An object without members.
fn nothing(alloc: Global) -> Value
    ensures { view result ≡ object no_members }
{
    Value::Object(Map::new(alloc))
}

/// Reads a member with options in whose place a number may be. The number means options with only the member `inside`.
#[tactic(auto, using(crate::proofs::OfferLemmas::number_whole, crate::proofs::OfferLemmas::other_whole), unfolding(crate::specs::Offers::NumberOr))]
pub fn number_or<T: FromJson>(
    alloc: Global,
    value: &JsonRef<'_>,
    key: &'static str,
    inside: &'static str,
) -> Result<Option<T>, Misfit>
    ensures { ReadsAs (NumberOr T.reads inside.now key.now (json_data value.now)) result }
{
    if !value.is_object() {
        return Err(Misfit::Wanted("an object"));
    }
    let Some(member) = present(value, key) else {
        return Ok(None);
    };
    match member.as_f64() {
        Some(_) => number_inside(alloc, &member, key, inside),
        None => of_some(alloc, key, &member),
    }
}

/// Returns options with only this number, under this key.
fn number_inside<T: FromJson>(
    alloc: Global,
    number: &JsonRef<'_>,
    key: &'static str,
    inside: &'static str,
) -> Result<Option<T>, Misfit>
    ensures { ReadsAs (ReadsSome T.reads (Some (object (put inside.now (json_data number.now) no_members)))) result }
{
    match object_with(alloc, inside, number) {
        Ok(whole) => {
            let options = of_some(alloc, key, &JsonRef::of_tree(&whole));
            drop(whole);
            options
        }
        Err(_) => Err(Misfit::Memory),
    }
}

/// An object with one member.
fn object_with(alloc: Global, key: &str, value: &JsonRef<'_>) -> Result<Value, AllocError>
    ensures { IfOk result (λ made. view made ≡ object (put key.now (json_data value.now) no_members)) }
{
    let mut members = Map::new(alloc);
    serde_json::put(&mut members, alloc, key, value.to_value(alloc)?)?;
    Ok(Value::Object(members))
}
