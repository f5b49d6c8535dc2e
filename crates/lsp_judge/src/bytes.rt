// Pieces of a line, and text as JSON has it.
use memchr::memmem;
use std::alloc::AllocError;

/// What stands before the first place of a mark, and what stands after it.
pub fn cut<'b>(bytes: &'b [u8], mark: &[u8]) -> Option<(&'b [u8], &'b [u8])> {
    let at = memmem::find(bytes, mark)?;
    let (before, rest) = bytes.split_at_checked(at)?;
    Some((before, rest.strip_prefix(mark)?))
}

/// The same of the last place of a mark.
pub fn cut_last<'b>(bytes: &'b [u8], mark: &[u8]) -> Option<(&'b [u8], &'b [u8])> {
    let at = memmem::rfind(bytes, mark)?;
    let (before, rest) = bytes.split_at_checked(at)?;
    Some((before, rest.strip_prefix(mark)?))
}

/// The first bytes that pass a test, and the others.
pub fn while_first<P: FnMut(u8) -> bool + Drop>(bytes: &[u8], mut test: P) -> (&[u8], &[u8])
    requires { P.IsAlwaysCallable test }
{
    for (count, byte) in bytes.iter().enumerate() {
        if !test(*byte) {
            return bytes.split_at_checked(count).unwrap_or((bytes, &[]));
        }
    }
    (bytes, &[])
}

/// Returns whether the byte is a space, a tab or a line end.
pub fn is_blank(byte: u8) -> bool {
    matches!(byte, b' ' | b'\t' | b'\r' | b'\n')
}

/// The bytes without blanks at their end.
pub fn trim_end(bytes: &[u8]) -> &[u8] {
    let mut rest = bytes;
    for _ in 0..bytes.len() {
        match rest {
            [before @ .., last] if is_blank(*last) => rest = before,
            _ => break,
        }
    }
    rest
}

/// The bytes without blanks at their start.
pub fn trim_start(bytes: &[u8]) -> &[u8] {
    while_first(bytes, is_blank).1
}

/// The number that these digits write, with a sign or without, as JSON has it.
pub fn is_whole_number(bytes: &[u8]) -> bool {
    let digits = bytes.strip_prefix(b"-").unwrap_or(bytes);
    match digits {
        [b'0'] => true,
        [b'1'..=b'9', rest @ ..] => rest.iter().all(|it| it.is_ascii_digit()),
        _ => false,
    }
}

/// Writes a text as JSON has it. What is not UTF-8 stays as it is.
pub fn push_quoted(out: &mut Vec<u8>, text: &[u8]) -> Result<(), AllocError> {
    out.push(b'"')?;
    for byte in text {
        push_in_quotes(out, *byte)?;
    }
    Ok(out.push(b'"')?)
}

/// Writes a byte of a text.
pub fn push_in_quotes(out: &mut Vec<u8>, byte: u8) -> Result<(), AllocError> {
    match byte {
        b'"' => out.extend_from_slice(b"\\\""),
        b'\\' => out.extend_from_slice(b"\\\\"),
        b'\n' => out.extend_from_slice(b"\\n"),
        0..32 => {
            out.extend_from_slice(b"\\u00")?;
            out.push(hex(byte >> 4))?;
            Ok(out.push(hex(byte & 15))?)
        }
        byte => Ok(out.push(byte)?),
    }
}

fn hex(digit: u8) -> u8 {
    *b"0123456789abcdef".get(usize::from(digit)).unwrap_or(&b'0')
}
