// Bytes passed on from a reader to a writer.
ghost use Rattle.lsp_proxy.specs.Passing.{CarriesSo, PassesPiece, WritesSo};

use std::io::{ErrorKind, Read, Write};

/// How it ended.
#[derive(Clone, Copy, Debug)]
pub enum Ended {
    /// All that the reader had was written.
    All,
    /// The reader failed. What it gave was written.
    Unread,
    /// The writer failed. It took a prefix of what the reader gave.
    Unwritten,
}

/// Gets each piece before it is written.
pub trait Hears {
    fn hear(&mut self, piece: &[u8]);
}

/// Writes each piece that a reader gives, at once and whole, up to its end. Before that it shows the piece to `hears`.
pub fn pass_on<H: Hears, R: Read, W: Write>(hears: &mut H, reader: &mut R, writer: &mut W) -> Ended
    ensures { CarriesSo result (R.remaining reader.old) (R.remaining reader.new)
        (W.contents writer.old) (W.contents writer.new) }
{
    let mut buf = [0; 8192];
    for _ in 0..u64::MAX {
        match pass_piece(hears, reader, writer, &mut buf) {
            Ok(true) => {}
            Ok(false) => return Ended::All,
            Err(ended) => return ended,
        }
    }
    Ended::Unread
}

/// Passes one piece on, and says whether there was one, or whether to try again.
fn pass_piece<H: Hears, R: Read, W: Write>(
    hears: &mut H,
    reader: &mut R,
    writer: &mut W,
    buf: &mut [u8; 8192],
) -> Result<bool, Ended>
    ensures { PassesPiece result (R.remaining reader.old) (R.remaining reader.new)
        (W.contents writer.old) (W.contents writer.new) }
{
    let count = match reader.read(buf) {
        Ok(0) => return Ok(false),
        Ok(count) => count,
        Err(error) if error.kind() == ErrorKind::Interrupted => return Ok(true),
        Err(_) => return Err(Ended::Unread),
    };
    let piece = &buf[..count];
    hears.hear(piece);
    write_piece(writer, piece)?;
    Ok(true)
}

/// Writes a piece whole, and flushes. If the writer fails, the first bytes of the piece were written, and no others.
fn write_piece<W: Write>(writer: &mut W, piece: &[u8]) -> Result<(), Ended>
    ensures { WritesSo result (W.contents writer.old) (W.contents writer.new) piece.now }
{
    let mut rest = piece;
    for _ in 0..u64::MAX {
        if rest.is_empty() {
            return match writer.flush() {
                Ok(()) => Ok(()),
                Err(_) => Err(Ended::Unwritten),
            };
        }
        match writer.write(rest) {
            Ok(0) => return Err(Ended::Unwritten),
            Ok(count) => rest = &rest[count..],
            Err(error) if error.kind() == ErrorKind::Interrupted => {}
            Err(_) => return Err(Ended::Unwritten),
        }
    }
    Err(Ended::Unwritten)
}
