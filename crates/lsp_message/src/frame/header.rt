// One line of the header part, and its test.
ghost use Rattle.std.specs.Prelude.{◌≡◌};
ghost use Rattle.lsp_message.specs.HeaderPart.{header_line as line_spec, header_text as text_spec, number as number_spec, field as field_spec};

use crate::frame::ReadFault;
use memchr::memmem;

/// A good line of the header part (LSP 3.17, "Header Part").
#[derive(Clone, Copy)]
pub enum HeaderLine {
    /// The empty line, which ends the header part.
    Blank,
    /// The field `Content-Length`, with its value in bytes.
    Length(u64),
    /// Another field.
    Other,
}

/// Returns what a line of the header part is (LSP 3.17, "Header Part"). The line includes its end, `\r\n`.
///
/// The fault is `LineNotText`, `LineEnd`, `NoSeparator` or `BadLength`, which `ReadFault` describes.
pub fn header_line(line: &[u8]) -> Result<HeaderLine, ReadFault>
    ensures { result ≡ line_spec line.now }
{
    if std::str::from_utf8(line).is_err() {
        return Err(ReadFault::LineNotText);
    }
    if !line.ends_with(b"\r\n") {
        return Err(ReadFault::LineEnd);
    }
    header_text(&line[..line.len() - 2])
}

/// Returns what a line of the header part is, by the text before its end.
fn header_text(text: &[u8]) -> Result<HeaderLine, ReadFault>
    ensures { result ≡ text_spec text.now }
{
    if text.is_empty() {
        return Ok(HeaderLine::Blank);
    }
    match memmem::find(text, b": ") {
        Some(at) => field(&text[..at], &text[at + 2..]),
        None => Err(ReadFault::NoSeparator),
    }
}

fn field(name: &[u8], value: &[u8]) -> Result<HeaderLine, ReadFault>
    ensures { result ≡ field_spec name.now value.now }
{
    if !name.eq_ignore_ascii_case(b"Content-Length") {
        return Ok(HeaderLine::Other);
    }
    match number(value) {
        Some(length) => Ok(HeaderLine::Length(length)),
        None => Err(ReadFault::BadLength),
    }
}

/// Returns the number in the value of a field: digits, with or without a `+` before them.
pub(crate) fn number(value: &[u8]) -> Option<u64>
    ensures { result ≡ number_spec value.now }
{
    match std::str::from_utf8(value) {
        Ok(text) => text.parse().ok(),
        Err(_) => None,
    }
}
