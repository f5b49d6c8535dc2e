//! Writes each message of the input again, with `serde_json` alone, as a measure of the least cost. It trusts its
//! input: a line with the length, an empty line and the body, over and over.
use anyhow::Result;
use serde_json::Value;
use std::alloc::Global;
use std::fmt::Write as _;
use std::io;
use std::io::{BufRead, ErrorKind, Write};

/// The memory that is kept from one message to the next, so that each takes the same room.
#[derive(Drop)]
struct Buffers {
    line: Vec<u8>,
    body: Vec<u8>,
    frame: String,
}

impl Buffers {
    /// Reads the number in a header. It is 0 at the end of the input.
    fn read_header<R: BufRead>(&mut self, reader: &mut R) -> io::Result<usize> {
        self.line.clear();
        reader.read_until(b'\n', &mut self.line)?;
        reader.skip_until(b'\n')?;
        Ok(number_in(self.line.as_slice()))
    }

    /// Reads the next body. Returns false at the end of the input.
    fn read_body<R: BufRead>(&mut self, reader: &mut R) -> io::Result<bool> {
        let length = self.read_header(reader)?;
        if length == 0 {
            return Ok(false);
        }
        self.body.resize(length, 0)?;
        reader.read_exact(self.body.as_mut_slice())?;
        Ok(true)
    }

    /// Makes the frame of the value in the body.
    fn make_frame(&mut self, alloc: Global) -> io::Result<()> {
        let text = text_of(alloc, self.body.as_slice())?;
        self.frame.clear();
        let length = text.len();
        write!(self.frame, "Content-Length: {length}\r\n\r\n")?;
        Ok(self.frame.push_str(text.as_str())?)
    }

    fn write_each<R, W>(&mut self, alloc: Global, reader: &mut R, writer: &mut W) -> io::Result<()>
    where
        R: BufRead,
        W: Write,
    {
        for _ in 0..u64::MAX {
            if !self.read_body(reader)? {
                return Ok(());
            }
            self.make_frame(alloc)?;
            writer.write_all(self.frame.as_bytes())?;
            writer.flush()?;
        }
        Ok(())
    }
}

/// Returns the number of a line's digits.
fn number_in(line: &[u8]) -> usize {
    let mut number = 0usize;
    for byte in line {
        if byte.is_ascii_digit() {
            let digit = usize::from(*byte - b'0');
            number = number.saturating_mul(10).saturating_add(digit);
        }
    }
    number
}

/// Returns the text of the value in a body.
fn text_of(alloc: Global, body: &[u8]) -> io::Result<String> {
    match Value::from_slice(alloc, body) {
        Ok(value) => {
            let text = value.to_string(alloc);
            drop(value);
            Ok(text?)
        }
        Err(fault) if fault.is_memory() => Err(io::Error::from(ErrorKind::OutOfMemory)),
        Err(_) => Err(io::Error::from(ErrorKind::InvalidData)),
    }
}

/// Reads each body as a `Value`, and writes that value's text.
pub fn write_again<R: BufRead, W: Write>(
    alloc: Global,
    reader: &mut R,
    writer: &mut W,
) -> Result<()> {
    let mut buffers = Buffers {
        line: Vec::new(alloc),
        body: Vec::new(alloc),
        frame: String::new(alloc),
    };
    let written = buffers.write_each(alloc, reader, writer);
    drop(buffers);
    Ok(written?)
}
