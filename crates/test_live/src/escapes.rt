// Bytes as a line of text: what is no visible ASCII character is `\r`, `\n` or `\x` and two digits.
use crate::attempt::Stop;
use std::alloc::{AllocError, Global};
use std::fmt::Write;
use std::str::Bytes;

/// The bytes of a text with escapes.
pub fn unescape(alloc: Global, text: &str) -> Result<Vec<u8>, Stop> {
    let mut bytes = Vec::with_capacity(alloc, text.len())?;
    let mut rest = text.bytes();
    for _ in 0..text.len() {
        match rest.next() {
            Some(b'\\') => bytes.push(escaped(&mut rest).ok_or(Stop::Table)?)?,
            Some(byte) => bytes.push(byte)?,
            None => break,
        }
    }
    Ok(bytes)
}

/// Returns the byte of the escape whose backslash was read.
fn escaped(rest: &mut Bytes<'_>) -> Option<u8> {
    match rest.next()? {
        b'r' => Some(b'\r'),
        b'n' => Some(b'\n'),
        b'x' => {
            let high = digit(rest.next()?)?;
            let low = digit(rest.next()?)?;
            Some(high.wrapping_mul(16).wrapping_add(low))
        }
        _ => None,
    }
}

/// Returns the value of a digit of base 16.
fn digit(byte: u8) -> Option<u8> {
    match byte {
        b'0'..=b'9' => Some(byte.wrapping_sub(b'0')),
        b'a'..=b'f' => Some(byte.wrapping_sub(b'a' - 10)),
        _ => None,
    }
}

/// How many bytes are shown at most.
const SHOWN: usize = 1000;

/// Returns the text of these bytes. For many bytes it is their count and their value as digits of base 31, modulo 2^32.
pub fn escape(alloc: Global, bytes: &[u8]) -> Result<String, AllocError> {
    if bytes.len() > SHOWN {
        return format!(in alloc; "{} bytes of sum {}", bytes.len(), sum(bytes));
    }
    let mut text = String::new(alloc);
    for byte in bytes {
        push_escaped(&mut text, *byte)?;
    }
    Ok(text)
}

fn sum(bytes: &[u8]) -> u32 {
    let mut sum: u32 = 0;
    for byte in bytes {
        sum = sum.wrapping_mul(31).wrapping_add(u32::from(*byte));
    }
    sum
}

fn push_escaped(text: &mut String, byte: u8) -> Result<(), AllocError> {
    match byte {
        b'\r' => text.push_str("\\r"),
        b'\n' => text.push_str("\\n"),
        b'\\' | 0..=31 | 127..=255 => write!(text, "\\x{byte:02x}"),
        _ => text.push(char::from(byte)),
    }
}
