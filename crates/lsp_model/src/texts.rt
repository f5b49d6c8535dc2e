// What a type demands of texts, beside the types of its parts.
ghost use Rattle.std.specs.Prelude.{◌≡◌, codes};
ghost use Rattle.serde_json.specs.View.{view, items_view};
ghost use Rattle.lsp_model.specs.Fits.{keeps as keeps_form, has_no_overlap, is_in_fives};
ghost use Rattle.lsp_model.specs.Spans.{any_overlap as any_overlaps, overlaps_one as overlaps_some};

use crate::form::Form;
use crate::mode::Mode;
use crate::spans::{Span, hull, is_fold_reversed, is_reversed, is_within, overlap};
use serde_json::Value;

/// Returns whether a value keeps what its type demands of texts, as far as this mode looks at it.
pub fn keeps(form: Form, mode: Mode, value: &Value) -> bool
    ensures { result ≡ keeps_form form mode (view value.now) }
{
    match (mode, form) {
        (Mode::Edits, Form::Edits(_)) => are_apart(value),
        (Mode::Tokens, Form::Tokens(_)) => are_fives(value),
        (Mode::Selection, Form::Around(_, whole, part)) => {
            is_within(Span::of(value, whole), Span::of(value, part))
        }
        (Mode::Ranges, Form::Range(_)) => !is_reversed(value),
        (Mode::Ranges, Form::Folding(_)) => !is_fold_reversed(value),
        _ => true,
    }
}

/// Returns whether no two edits of a list overlap.
fn are_apart(edits: &Value) -> bool
    ensures { result ≡ has_no_overlap (view edits.now) }
{
    match edits.as_array() {
        Some(edits) => !any_overlap(edits.as_slice()),
        None => true,
    }
}

/// Returns whether a list has five numbers for each token.
#[tactic(auto, using(crate::proofs::FitsLemmas::counted))]
fn are_fives(numbers: &Value) -> bool
    ensures { result ≡ is_in_fives (view numbers.now) }
{
    match numbers.as_array() {
        Some(numbers) => numbers.len() % 5 == 0,
        None => true,
    }
}

/// Returns whether two edits overlap.
///
/// Each edit is compared with the range from the first start to the last end of the edits before it. If it does not overlap this range, it
/// overlaps none of them. So a list in order, or in the reverse order, takes one pass.
fn any_overlap(edits: &[Value]) -> bool
    ensures { result ≡ any_overlaps (items_view edits.now) }
{
    let mut before = None;
    for (at, edit) in edits.iter().enumerate() {
        let range = Span::of(edit, "range");
        if overlap(range, before) && overlaps_one(edit, &edits[..at]) {
            return true;
        }
        before = hull(range, before);
    }
    false
}

/// Returns whether an edit overlaps one of others.
fn overlaps_one(edit: &Value, others: &[Value]) -> bool
    ensures { result ≡ overlaps_some (view edit.now) (items_view others.now) }
{
    for other in others {
        if overlap(Span::of(edit, "range"), Span::of(other, "range")) {
            return true;
        }
    }
    false
}
