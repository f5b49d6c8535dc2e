// Whether JSON fits a type.
ghost use Rattle.std.specs.List.{list_all, list_any};
ghost use Rattle.std.specs.Prelude.{◌≡◌};
ghost use Rattle.serde_json.specs.View.{view, items_view, members_view};
ghost use Rattle.lsp_model.specs.Fits.{fits as fits_type, fits_parts, fits_member, is_strict, member_in, each_item, each_member};

use crate::form::{Form, Member};
use crate::mode::Mode;
use crate::plain::{is_plain, value_of};
use crate::texts::keeps;
use serde_json::{Map, Value};

/// Returns whether JSON fits the type at a place of the list. What nests deeper than `levels` is taken to fit.
#[cycle(fits)]
pub fn fits(types: &[Form], mode: Mode, levels: u32, at: usize, value: &Value) -> bool
    ensures { result ≡ fits_type types.now mode levels at (view value.now) }
{
    if levels == 0 {
        return true;
    }
    match types.get(at) {
        Some(form) => {
            parts_fit(types, mode, levels - 1, *form, value) && keeps(*form, mode, value)
        }
        None => true,
    }
}

/// Returns whether the parts of a value fit the types of the parts of a type.
#[cycle(fits)]
fn parts_fit(types: &[Form], mode: Mode, levels: u32, form: Form, value: &Value) -> bool
    ensures { result ≡ fits_parts (fits_type types.now mode levels) (is_strict mode) form (view value.now) }
{
    match form {
        Form::List(at) | Form::Edits(at) | Form::Tokens(at) => match value.as_array() {
            Some(items) => each_fits(types, mode, levels, at, items.as_slice()),
            None => false,
        },
        Form::Map(at) => match value.as_object() {
            Some(members) => each_member_fits(types, mode, levels, at, members),
            None => false,
        },
        Form::OneOf(cases) => fits_any(types, mode, levels, cases, value),
        Form::Object(members)
        | Form::Around(members, _, _)
        | Form::Range(members)
        | Form::Folding(members) => {
            value.is_object() && members_fit(types, mode, levels, members, value)
        }
        plain => is_plain(plain, mode.is_strict(), value),
    }
}

/// Returns whether each item of a list fits a type.
#[cycle(fits)]
fn each_fits(types: &[Form], mode: Mode, levels: u32, at: usize, items: &[Value]) -> bool
    ensures { result ≡ each_item (fits_type types.now mode levels at) (items_view items.now) }
{
    for item in items {
        if !fits(types, mode, levels, at, item) {
            return false;
        }
    }
    true
}

/// Returns whether each value of an object fits a type.
#[cycle(fits)]
fn each_member_fits(
    types: &[Form],
    mode: Mode,
    levels: u32,
    at: usize,
    members: &Map<String, Value>,
) -> bool
    ensures { result ≡ each_member (fits_type types.now mode levels at) (members_view members.now.entries) }
{
    for (_, member) in members.iter() {
        if !fits(types, mode, levels, at, member) {
            return false;
        }
    }
    true
}

/// Returns whether a value fits one of several types.
#[cycle(fits)]
fn fits_any(types: &[Form], mode: Mode, levels: u32, cases: &[usize], value: &Value) -> bool
    ensures { result ≡ list_any (λ at. fits_type types.now mode levels at (view value.now)) cases.now }
{
    for case in cases {
        if fits(types, mode, levels, *case, value) {
            return true;
        }
    }
    false
}

/// Returns whether an object has its members.
#[cycle(fits)]
fn members_fit(types: &[Form], mode: Mode, levels: u32, members: &[Member], value: &Value) -> bool
    ensures { result ≡ list_all (λ m. fits_member (fits_type types.now mode levels) m
        (member_in (is_strict mode) m (view value.now))) members.now }
{
    for member in members {
        let does_fit = match value_of(*member, mode.is_strict(), value) {
            Some(found) => fits(types, mode, levels, member.form(), found),
            None => !member.is_required(),
        };
        if !does_fit {
            return false;
        }
    }
    true
}
