// The lines of a recording.
use anyhow::{Result, bail};
use lsp_server::Message;
use lsp_watch::Direction;
use memchr::memchr2;
use std::alloc::Global;
use std::io::{self, BufRead, Write};

/// What stands for a line end in content that is no JSON, so that it is none in its line either. In JSON a line end is a blank, so a
/// space stands for it.
const NO_BLANK: u8 = 0x0b;

/// Writes a content part as a line.
pub fn write_line<W: Write>(
    log: &mut W,
    direction: Direction,
    content: &[u8],
    is_json: bool,
) -> io::Result<()> {
    write!(log, "{direction} ")?;
    write_body(log, content, if is_json { b' ' } else { NO_BLANK })?;
    if content.iter().all(|it| it.is_ascii_whitespace()) {
        log.write_all(&[NO_BLANK])?;
    }
    log.write_all(b"\n")?;
    log.flush()
}

/// Writes content with this byte in the place of each line end.
fn write_body<W: Write>(log: &mut W, content: &[u8], line_end: u8) -> io::Result<()> {
    if memchr2(b'\n', b'\r', content).is_none() {
        return log.write_all(content);
    }
    for byte in content {
        match *byte {
            b'\n' | b'\r' => log.write_all(&[line_end])?,
            other => log.write_all(&[other])?,
        }
    }
    Ok(())
}

/// Reads the next line into `line`, in place of the last one, and returns its direction and its content. There is none at the end.
pub fn read_line<'l, B: BufRead>(
    alloc: Global,
    reader: &mut B,
    line: &'l mut Vec<u8>,
) -> Result<Option<(Direction, &'l [u8])>> {
    line.clear();
    if reader.read_until(b'\n', line)? == 0 {
        return Ok(None);
    }
    let line = line.as_slice();
    let line = line.strip_suffix(b"\n").unwrap_or(line);
    if let Some(body) = line.strip_prefix(b"-> ") {
        return Ok(Some((Direction::ToServer, body)));
    }
    match line.strip_prefix(b"<- ") {
        Some(body) => Ok(Some((Direction::ToClient, body))),
        None => bail!(
            "no line of a recording: {}",
            String::from_utf8_lossy(alloc, line)?
        ),
    }
}

/// The message of a body.
pub fn message_of(alloc: Global, body: &[u8]) -> Result<Message> {
    match Message::from_content(alloc, body) {
        Ok(message) => Ok(message),
        Err(fault) => bail!(
            "no message ({fault}): {}",
            String::from_utf8_lossy(alloc, body)?
        ),
    }
}
