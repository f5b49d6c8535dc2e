// Tables as Neovim's `vim.inspect` prints them in one line.
use crate::bytes::{cut, is_blank, is_whole_number, while_first};
use crate::message_text::MessageText;
use std::alloc::AllocError;

/// Writes the table as JSON, and says whether it was one.
pub fn read_table(
    table: &[u8],
    text: &mut Vec<u8>,
    out: &mut MessageText,
) -> Result<bool, AllocError> {
    let mut rest = table;
    for _ in 0..table.len() {
        match read_token(rest, text, out)? {
            Some(others) => rest = others,
            None => return Ok(false),
        }
        if out.is_whole() {
            return Ok(true);
        }
    }
    Ok(false)
}

/// Takes one token, and returns what stands after it, or `None` if there is no token.
fn read_token<'t>(
    table: &'t [u8],
    text: &mut Vec<u8>,
    out: &mut MessageText,
) -> Result<Option<&'t [u8]>, AllocError> {
    match table {
        [b'{', rest @ ..] => {
            out.open()?;
            Ok(Some(rest))
        }
        [b'}', rest @ ..] => {
            out.close(b"[]")?;
            Ok(Some(rest))
        }
        [b',' | b' ' | b'=' | b']', rest @ ..] => Ok(Some(rest)),
        [b'[', rest @ ..] => read_key(rest, text, out),
        [b'<', rest @ ..] => read_angle(rest, out),
        [b'"' | b'\'', ..] => {
            let rest = read_text(table, text)?;
            if rest.is_some() {
                out.text(text.as_slice())?;
            }
            Ok(rest)
        }
        _ => read_word(table, out),
    }
}

/// A key in brackets: a text or a number.
fn read_key<'t>(
    table: &'t [u8],
    text: &mut Vec<u8>,
    out: &mut MessageText,
) -> Result<Option<&'t [u8]>, AllocError> {
    if let [b'"' | b'\'', ..] = table {
        let rest = read_text(table, text)?;
        if rest.is_some() {
            out.key(text.as_slice())?;
        }
        return Ok(rest);
    }
    let (number, rest) = while_first(table, |it| it != b']');
    out.key(number)?;
    Ok(Some(rest))
}

/// A word in angles: the mark of a table that is printed again, which table that was, something that is no data, or a metatable,
/// which is skipped.
fn read_angle<'t>(table: &'t [u8], out: &mut MessageText) -> Result<Option<&'t [u8]>, AllocError> {
    let Some((word, rest)) = cut(table, b">") else {
        return Ok(None);
    };
    if word == b"metatable".as_slice() {
        out.skip();
    } else if word.starts_with(b"table ") {
        out.word(b"{}")?;
    } else if !is_whole_number(word) {
        out.word(b"null")?;
    }
    Ok(Some(rest))
}

/// A text in quotes, without its escapes, and what stands after it.
fn read_text<'t>(table: &'t [u8], text: &mut Vec<u8>) -> Result<Option<&'t [u8]>, AllocError> {
    text.clear();
    let Some((quote, mut rest)) = table.split_first() else {
        return Ok(None);
    };
    for _ in 0..table.len() {
        match rest {
            [byte, others @ ..] if byte == quote => return Ok(Some(others)),
            [b'\\', escaped @ ..] => rest = read_escape(escaped, text)?,
            [byte, others @ ..] => {
                text.push(*byte)?;
                rest = others;
            }
            [] => break,
        }
    }
    Ok(None)
}

/// An escape after its backslash: a letter, up to three digits, or the character itself.
fn read_escape<'t>(escaped: &'t [u8], text: &mut Vec<u8>) -> Result<&'t [u8], AllocError> {
    let (byte, rest) = match escaped {
        [a @ b'0'..=b'9', b @ b'0'..=b'9', c @ b'0'..=b'9', rest @ ..] => {
            (digits(&[*a, *b, *c]), rest)
        }
        [a @ b'0'..=b'9', b @ b'0'..=b'9', rest @ ..] => (digits(&[*a, *b]), rest),
        [a @ b'0'..=b'9', rest @ ..] => (digits(&[*a]), rest),
        [b'n', rest @ ..] => (b'\n', rest),
        [b't', rest @ ..] => (b'\t', rest),
        [b'r', rest @ ..] => (b'\r', rest),
        [b'a', rest @ ..] => (7, rest),
        [b'b', rest @ ..] => (8, rest),
        [b'v', rest @ ..] => (11, rest),
        [b'f', rest @ ..] => (12, rest),
        [byte, rest @ ..] => (*byte, rest),
        [] => return Ok(escaped),
    };
    text.push(byte)?;
    Ok(rest)
}

/// The byte of this number.
fn digits(digits: &[u8]) -> u8 {
    let mut value: u8 = 0;
    for digit in digits {
        value = value
            .wrapping_mul(10)
            .wrapping_add(digit.saturating_sub(b'0'));
    }
    value
}

/// A key if an equals sign stands after the word, and otherwise a value.
fn read_word<'t>(table: &'t [u8], out: &mut MessageText) -> Result<Option<&'t [u8]>, AllocError> {
    let (word, rest) = while_first(
        table,
        |it| !is_blank(it) && it != b',' && it != b'}' && it != b'{',
    );
    if word.is_empty() {
        return Ok(None);
    }
    if let Some(value) = rest.strip_prefix(b" = ")
        && out.takes_key()
    {
        out.key(word)?;
        return Ok(Some(value));
    }
    out.word(json_of(word))?;
    Ok(Some(rest))
}

/// A word as JSON has it. What JSON does not have is null.
fn json_of(word: &[u8]) -> &[u8] {
    if word == b"true".as_slice() || word == b"false".as_slice() {
        word
    } else if word == b"vim.empty_dict()".as_slice() {
        b"{}"
    } else if is_number(word) {
        word
    } else {
        b"null"
    }
}

/// Whether it is a number as JSON has it.
fn is_number(word: &[u8]) -> bool {
    let (whole, rest) = while_first(word, |it| it == b'-' || it.is_ascii_digit());
    is_whole_number(whole)
        && rest
            .iter()
            .all(|it| matches!(it, b'0'..=b'9' | b'.' | b'e' | b'+' | b'-'))
}
