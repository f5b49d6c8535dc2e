// Whether JSON fits a type that has no others in it.
ghost use Rattle.std.specs.List.{list_any};
ghost use Rattle.std.specs.Prelude.{◌≡◌, option_map};
ghost use Rattle.std.specs.Str.{bytes_eq};
ghost use Rattle.serde_json.specs.View.{view};
ghost use Rattle.lsp_model.specs.Fits.{fits_plain, fits_whole, fits_word, fits_words, member_in};

use crate::form::{Form, Member};
use serde_json::Value;

const LEAST: i64 = -2147483648;

const GREATEST: i64 = 2147483647;

/// Returns whether JSON fits a type that has no others in it. Every value fits another type.
pub fn is_plain(form: Form, is_strict: bool, value: &Value) -> bool
    ensures { result ≡ fits_plain form is_strict (view value.now) }
{
    match form {
        Form::Nothing => !is_strict || value.is_null(),
        Form::Null => value.is_null(),
        Form::Boolean => value.is_boolean(),
        Form::String => value.is_string(),
        Form::Integer => is_whole(is_strict, value, LEAST, GREATEST),
        Form::Unsigned => is_whole(is_strict, value, 0, GREATEST),
        Form::Decimal => value.is_number(),
        Form::Listed(least, most) if is_strict => {
            is_whole(true, value, i64::from(least), i64::from(most))
        }
        Form::Listed(_, _) => is_whole(false, value, LEAST, GREATEST),
        Form::Word(word) => is_word(word, value),
        Form::Words(words) => is_one_of(words, is_strict, value),
        _ => true,
    }
}

/// Returns whether a value is a whole number between two others. If it is not strict, each number with a fraction or an exponent is
/// taken for one.
fn is_whole(is_strict: bool, value: &Value, least: i64, most: i64) -> bool
    ensures { result ≡ fits_whole is_strict least most (view value.now) }
{
    match value.as_i64() {
        Some(number) => least <= number && number <= most,
        None => !is_strict && value.is_f64(),
    }
}

/// Returns whether a value is this string.
fn is_word(word: &str, value: &Value) -> bool
    ensures { result ≡ fits_word word.now (view value.now) }
{
    match value.as_str() {
        Some(text) => text == word,
        None => false,
    }
}

/// Returns whether a value is one of these strings, or, if it is not strict, a string.
fn is_one_of(words: &[&str], is_strict: bool, value: &Value) -> bool
    ensures { result ≡ fits_words is_strict (λ text. list_any (λ word. bytes_eq word.now text) words.now) (view value.now) }
{
    match value.as_str() {
        Some(text) => !is_strict || is_listed(words, text),
        None => false,
    }
}

fn is_listed(words: &[&str], text: &str) -> bool
    ensures { result ≡ list_any (λ word. bytes_eq word.now text.now) words.now }
{
    words.iter().any(|it| *it == text)
}

/// Returns the value of a member. If it is not strict, null counts as missing where the member may be missing.
pub fn value_of<'v>(member: Member, is_strict: bool, object: &'v Value) -> Option<&'v Value>
    ensures { option_map (λ v. view v.now) result ≡ member_in is_strict member (view object.now) }
{
    let found = object.get(member.key())?;
    if !is_strict && !member.is_required() && found.is_null() {
        None
    } else {
        Some(found)
    }
}
