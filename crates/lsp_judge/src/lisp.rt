// Messages as Emacs prints them: lists of keywords and values.
use crate::bytes::{is_blank, is_whole_number, while_first};
use crate::message_text::MessageText;
use std::alloc::AllocError;

/// Writes the list as JSON, and says whether it was one.
pub fn read_list(
    list: &[u8],
    text: &mut Vec<u8>,
    out: &mut MessageText,
) -> Result<bool, AllocError> {
    let mut rest = list;
    for _ in 0..list.len() {
        match read_token(rest, text, out)? {
            Some(others) => rest = others,
            None => return Ok(false),
        }
        if out.is_whole() {
            return Ok(true);
        }
    }
    Ok(false)
}

/// Takes one token, and returns what stands after it, or `None` if there is no token.
fn read_token<'t>(
    list: &'t [u8],
    text: &mut Vec<u8>,
    out: &mut MessageText,
) -> Result<Option<&'t [u8]>, AllocError> {
    match list {
        [b'(' | b'[', rest @ ..] => {
            out.open()?;
            Ok(Some(rest))
        }
        [b')', rest @ ..] => {
            out.close(b"{}")?;
            Ok(Some(rest))
        }
        [b']', rest @ ..] => {
            out.close(b"[]")?;
            Ok(Some(rest))
        }
        [b' ' | b'\t' | b'\r' | b'\n', rest @ ..] => Ok(Some(rest)),
        // A hash table: Emacs has an empty object as such.
        [b'#', b's', b'(', rest @ ..] => {
            out.word(b"{}")?;
            out.skip();
            out.open()?;
            Ok(Some(rest))
        }
        [b'"', rest @ ..] => {
            let rest = read_text(rest, text)?;
            if rest.is_some() {
                out.text(text.as_slice())?;
            }
            Ok(rest)
        }
        _ => read_word(list, out),
    }
}

/// A text after its quote, without its escapes, and what stands after it.
fn read_text<'t>(list: &'t [u8], text: &mut Vec<u8>) -> Result<Option<&'t [u8]>, AllocError> {
    text.clear();
    let mut rest = list;
    for _ in 0..list.len() {
        let (byte, others) = match rest {
            [b'"', others @ ..] => return Ok(Some(others)),
            [b'\\', b'n', others @ ..] => (b'\n', others),
            [b'\\', b'f', others @ ..] => (12, others),
            [b'\\', byte, others @ ..] => (*byte, others),
            [byte, others @ ..] => (*byte, others),
            [] => break,
        };
        text.push(byte)?;
        rest = others;
    }
    Ok(None)
}

/// A keyword, or a value.
fn read_word<'t>(list: &'t [u8], out: &mut MessageText) -> Result<Option<&'t [u8]>, AllocError> {
    let (word, rest) = while_first(
        list,
        |it| !is_blank(it) && it != b'(' && it != b')' && it != b'[' && it != b']',
    );
    match word {
        [] => return Ok(None),
        b":json-false" => out.word(b"false")?,
        b":json-null" => out.word(b"null")?,
        b"t" => out.word(b"true")?,
        // It stands for null and for an empty object: the params are taken for what they may be.
        b"nil" if out.is_at_params() => out.word(b"{}")?,
        b"nil" => out.word(b"null")?,
        [b':', key @ ..] if out.takes_key() => out.key(key)?,
        word if is_number(word) => out.word(word)?,
        word => out.text(word)?,
    }
    Ok(Some(rest))
}

/// Whether it is a number as JSON has it.
fn is_number(word: &[u8]) -> bool {
    let (whole, rest) = while_first(word, |it| it == b'-' || it.is_ascii_digit());
    is_whole_number(whole)
        && rest
            .iter()
            .all(|it| matches!(it, b'0'..=b'9' | b'.' | b'e' | b'+' | b'-'))
}
