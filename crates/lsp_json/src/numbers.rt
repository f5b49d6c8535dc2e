//! The numbers of a text.

ghost use Rattle.std.specs.Prelude.{◌≡◌, IfSome, Some, false, option_map, true};
ghost use Rattle.serde_json.specs.Data.{unsigned};
ghost use Rattle.serde_json.specs.Read.{float_of, number_from, number_of};
ghost use Rattle.serde_json.specs.View.{number_view};

use fast_float::{Numeral, parse_u64};
use serde_json::Number;

/// Reads the text of a number. It gives `None` where the number is too large for a float.
#[tactic(auto, unfolding(serde_json::specs::Read::number_of))]
pub(crate) fn number(text: &str) -> Option<Number>
    ensures { option_map number_view result ≡ number_of text.now }
{
    if let Some(number) = from_digits(text.as_bytes()) {
        return Some(Number::from(number));
    }
    match text.as_bytes().split_first() {
        Some((b'-', digits)) => below_zero(&Numeral::scan(digits)),
        _ => not_below_zero(&Numeral::scan(text.as_bytes())),
    }
}

/// Reads a text that is digits alone. It gives `None` where it is another text, and where the number needs more than 64
/// bits.
fn from_digits(text: &[u8]) -> Option<u64>
    ensures { IfSome result (λ number. number_of text.now ≡ Some (unsigned number)) }
{
    match text.first() {
        Some(b'0'..=b'9') => parse_u64(text).ok(),
        _ => None,
    }
}

/// Reads a number that has no sign.
fn not_below_zero(numeral: &Numeral<'_>) -> Option<Number>
    ensures { option_map number_view result ≡ number_from false numeral.now }
{
    match numeral.to_u64() {
        Some(number) => Some(Number::from(number)),
        None => nearest(false, numeral),
    }
}

/// Reads a number after its minus sign. A zero is a float, since no integer has the sign.
fn below_zero(numeral: &Numeral<'_>) -> Option<Number>
    ensures { option_map number_view result ≡ number_from true numeral.now }
{
    match numeral.to_i64(true) {
        Some(number) if number < 0 => Some(Number::from(number)),
        _ => nearest(true, numeral),
    }
}

/// Reads a number as the nearest float, unless it is too large for one.
fn nearest(is_negative: bool, numeral: &Numeral<'_>) -> Option<Number>
    ensures { option_map number_view result ≡ float_of is_negative numeral.now }
{
    Number::from_f64(numeral.to_float::<f64>(is_negative))
}
