// A frame, written to a writer.
ghost use Rattle.std.specs.Prelude.{◌≡◌, ◌<◌, ◌^◌, [], ◌∷◌, ◌++◌, length, Err, IfOk, IfErr, OnOk, codes, decimal, string_bytes};
ghost use Rattle.std.specs.Result.{result_err};
ghost use Rattle.std.specs.Io.KnownBytes.{Appends};
ghost use Rattle.lsp_message.specs.Failures.{WriterFails};
ghost use Rattle.lsp_message.specs.Told.{Given, GivesText, WritesText};
ghost use Rattle.lsp_message.specs.Written.{frame_text, AppendsBeginning, IsOutput};

use crate::frame::WriteFault;
use crate::frame::byte_trace::ByteTrace;
use arrayvec::ArrayString;
use std::alloc::AllocError;
use std::fmt::Write as _;
use std::io::{ErrorKind, Write};

/// Room for the header part of a frame: the name, at most 20 digits and the ends of two lines.
pub(crate) const HEADER_ROOM: usize = 40;

/// Writes the frame of a body, and flushes once.
pub(crate) fn write_body<W: Write>(
    writer: &mut W,
    body: String,
    given: &mut ByteTrace,
) -> Result<(), WriteFault>
    ensures ok { OnOk result
        (Appends (W.contents writer.old) (W.contents writer.new) (frame_text (string_bytes body))) }
    ensures begun { AppendsBeginning (W.contents writer.old) (W.contents writer.new)
        (frame_text (string_bytes body)) }
    ensures memory { result ≡ Err WriteFault.Memory → writer.new ≡ writer.old }
    ensures length { OnOk result (length (string_bytes body) < 2 ^ 64) }
    ensures told { Given (WritesText (frame_text (string_bytes body)) result) given.old.parts
        given.new.parts (W.contents writer.old) (W.contents writer.new) }
    ensures failed { WriterFails (result_err result) given.old given.new }
{
    let frame = with_header(body)?;
    write_frames_traced(writer, frame.as_str(), given)
}

/// Writes a text of whole frames, as `Message::to_frame` makes them (LSP 3.17, "Base Protocol"), and flushes the writer
/// once.
///
/// The fault is `WriteFault::Output`. The writer then got a prefix of the text, or all of it if only the flush failed.
pub fn write_frames<W: Write>(writer: &mut W, frames: &str) -> Result<(), WriteFault>
    ensures ok { OnOk result (Appends (W.contents writer.old) (W.contents writer.new) frames.now) }
    ensures begun { AppendsBeginning (W.contents writer.old) (W.contents writer.new) frames.now }
    ensures fault { IfErr result IsOutput }
{
    write_frames_traced(writer, frames, &mut ByteTrace::new())
}

/// Writes a text of whole frames, as `write_frames` does, and adds the bytes that the writer takes to the trace, and the
/// flush.
pub fn write_frames_traced<W: Write>(
    writer: &mut W,
    frames: &str,
    given: &mut ByteTrace,
) -> Result<(), WriteFault>
    ensures ok { OnOk result (Appends (W.contents writer.old) (W.contents writer.new) frames.now) }
    ensures begun { AppendsBeginning (W.contents writer.old) (W.contents writer.new) frames.now }
    ensures fault { IfErr result IsOutput }
    ensures told { Given (WritesText frames.now result) given.old.parts given.new.parts
        (W.contents writer.old) (W.contents writer.new) }
    ensures failed { WriterFails (result_err result) given.old given.new }
{
    write_bytes(writer, frames.as_bytes(), given)?;
    match writer.flush() {
        Ok(()) => {
            given.add(&[]);
            Ok(())
        }
        Err(error) => {
            given.add_failure(&error.kind());
            Err(WriteFault::Output(error.kind()))
        }
    }
}

/// Adds the header part before the body, in the body's own room.
pub(crate) fn with_header(body: String) -> Result<String, AllocError>
    ensures text { IfOk result (λ frame. string_bytes frame ≡ frame_text (string_bytes body)) }
    ensures length { OnOk result (length (string_bytes body) < 2 ^ 64) }
{
    let mut frame = body;
    let length = frame.len();
    let header = header_part(length)?;
    frame.insert_str(0, header.as_str())?;
    Ok(frame)
}

/// Composes the header part of a content part that has this many bytes. It always has room, and needs no memory.
fn header_part(length: usize) -> Result<ArrayString<HEADER_ROOM>, AllocError>
    ensures { IfOk result (λ header. header.bytes
        ≡ codes "Content-Length: " ++ (decimal length ++ 13 ∷ 10 ∷ 13 ∷ 10 ∷ [])) }
{
    let mut header = ArrayString::new();
    write!(header, "Content-Length: {length}\r\n\r\n").map_err(|_| AllocError)?;
    Ok(header)
}

/// Writes all the bytes, or a prefix of them. An interrupted write is a fault, as any other.
fn write_bytes<W: Write>(
    writer: &mut W,
    bytes: &[u8],
    given: &mut ByteTrace,
) -> Result<(), WriteFault>
    ensures ok { OnOk result (Appends (W.contents writer.old) (W.contents writer.new) bytes.now) }
    ensures begun { AppendsBeginning (W.contents writer.old) (W.contents writer.new) bytes.now }
    ensures fault { IfErr result IsOutput }
    ensures told { Given (GivesText bytes.now result) given.old.parts given.new.parts
        (W.contents writer.old) (W.contents writer.new) }
    ensures failed { WriterFails (result_err result) given.old given.new }
{
    let mut rest = bytes;
    while !rest.is_empty() {
        match writer.write(rest) {
            Ok(0) => {
                given.add_failure(&ErrorKind::WriteZero);
                return Err(WriteFault::Output(ErrorKind::WriteZero));
            }
            Ok(count) => {
                given.add(&rest[..count]);
                rest = &rest[count..];
            }
            Err(error) => {
                given.add_failure(&error.kind());
                return Err(WriteFault::Output(error.kind()));
            }
        }
    }
    Ok(())
}
