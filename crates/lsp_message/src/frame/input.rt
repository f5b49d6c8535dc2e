// The push reader of frames: it is given the bytes of a stream in pieces, and returns each frame.
ghost use Rattle.std.specs.Prelude.{◌≡◌, ◌≢◌, ◌⊎◌, ◌<◌, ◌≤◌, ◌+◌, ◌-◌, ◌++◌, [], ℕ, Option, length, take, Ok, Err, Some, None, IfOk, IfErr, IsTrue, MatchOption, vec_capacity};
ghost use Rattle.std.specs.List.{concat};
ghost use Rattle.lsp_message.specs.FrameInput.{AwaitsMore, IsEndOf, ReadsContent, RanOut};
ghost use Rattle.lsp_message.specs.FramePlace.{next_of, less_of, HasNoFeed, IsLine, AtHeader, AtContent, IsHeader, IsFaultOf};
ghost use Rattle.lsp_message.specs.HeaderPart.{header_line as line_spec};
ghost use Rattle.lsp_message.specs.declared.frame.ReadFault.{ReadFault};
ghost use Rattle.lsp_message.specs.declared.frame.ReadFault.TheVariants.{Memory};
ghost use Rattle.lsp_message.specs.declared.frame.input.Place.TheVariants.{Content, Fault, Header, Refused};

use crate::frame::ReadFault;
use crate::frame::byte_trace::ByteTrace;
use crate::frame::header::{HeaderLine, header_line};
use crate::frame::limits::Limits;
use memchr::memchr;
use std::alloc::{AllocError, Global};
use std::mem;

/// Which part of the frame the next byte belongs to.
#[derive(Clone, Copy)]
pub(crate) enum Place {
    /// The header part. The first number is how many more bytes it may have, if it is bounded. The second is the length
    /// that its whole lines give.
    Header(Option<u64>, Option<u64>),
    /// The content part, which has this many bytes.
    Content(usize),
    /// The header part has ended, and no memory could be reserved for the content part. It has this many bytes.
    Refused(usize),
    /// The bytes have this fault, so no frame follows.
    Fault(ReadFault),
}

/// What follows a line of the header part.
#[derive(Clone, Copy)]
pub(crate) enum Next {
    /// Another line of the header part. The lines so far give this length.
    Header(Option<u64>),
    /// The content part. The header part gives this many bytes.
    Content(usize),
}

/// A frame that arrived whole (LSP 3.17, "Base Protocol").
#[derive(Drop)]
pub struct Frame {
    /// Its content part.
    pub content: Vec<u8>,
    /// All its bytes, as clauses see them.
    pub bytes: ByteTrace,
}

/// Reads frames from bytes that arrive in pieces (LSP 3.17, "Base Protocol"). Use it where the input must not block:
/// the caller reads the bytes and passes them to `receive`, which returns each frame once it is whole.
///
/// It holds the bytes of at most one frame. A header line that arrives in one piece is not copied. The memory for the
/// content part is reserved when the header part ends.
#[derive(Drop)]
pub struct FrameInput {
    alloc: Global,
    limits: Limits,
    place: Place,
    line: Vec<u8>,
    content: Vec<u8>,
    seen: ByteTrace,
    ghost header: { (room given : Option ℕ) → place ≡ Header room given → AtHeader limits (concat seen.parts) room given line.items },
    ghost part: { (size : ℕ) → place ≡ Content size → AtContent limits (concat seen.parts) size line.items content.items },
    ghost reserved: { (size : ℕ) → place ≡ Content size → size ≤ vec_capacity content },
    ghost refused: { (size : ℕ) → place ≡ Refused size → IsHeader limits size (concat seen.parts) },
    ghost fault: { (kind : ReadFault) → place ≡ Fault kind → IsFaultOf limits (concat seen.parts) kind },
}

impl FrameInput {
    /// Makes a reader at the start of a frame, within `limits`. It does not allocate.
    pub fn new(alloc: Global, limits: Limits) -> FrameInput
        ensures empty { concat result.seen.parts ≡ [] }
        ensures limits { result.limits ≡ limits }
        ensures awaits { AwaitsMore result.limits (concat result.seen.parts) }
    {
        FrameInput {
            alloc,
            limits,
            place: Place::Header(limits.header, None),
            line: Vec::new(alloc),
            content: Vec::new(alloc),
            seen: ByteTrace::new(),
        }
    }

    /// Takes the first bytes of `piece`, at most up to the end of a header line or of the content part. Returns how many
    /// bytes it took, and the frame if they complete it. Then the next frame starts. Call it again with the rest of the
    /// piece until none is left. It takes at least one byte of a piece that is not empty, unless it fails.
    ///
    /// A header line at fault is `LineNotText`, `LineEnd`, `NoSeparator` or `BadLength`. The blank line is at fault with
    /// `NoLength` or `TooLong`. The bytes are taken up to the end of that line. A header part above its bound is
    /// `HeaderTooLong`, and the first byte above the bound is the last one taken. After these faults each later call
    /// takes no byte and returns the same fault.
    ///
    /// If memory runs out for a header line, the fault is `Memory`, and this call took no byte. The caller may try
    /// again. If memory runs out for the content part, the fault is `Memory`, and the header part was taken. Each later
    /// call takes no byte and returns `Memory`.
    pub fn receive(&mut self, piece: &[u8]) -> (usize, Result<Option<Frame>, ReadFault>)
        ensures within { result.0 ≤ length piece.now }
        ensures some { IfOk result.1 (λ _. 0 < length piece.now → 0 < result.0) }
        ensures read { ReadsContent self.old.limits (concat self.old.seen.parts ++ take result.0 piece.now) result.1 (concat self.new.seen.parts) }
        ensures memory { result.1 ≡ Err Memory → RanOut self.old.limits (concat self.new.seen.parts) result.0 }
        ensures awaits { IfOk result.1 (λ _. AwaitsMore self.new.limits (concat self.new.seen.parts)) }
        ensures limits { self.new.limits ≡ self.old.limits }
    {
        match self.place {
            Place::Header(room, given) => self.receive_header(room, given, piece),
            Place::Content(size) => self.receive_content(size, piece),
            Place::Refused(_) => (0, Err(ReadFault::Memory)),
            Place::Fault(fault) => (0, Err(fault)),
        }
    }

    /// Takes bytes of the header part, up to the end of a line. The header part may have `room` more bytes, and its
    /// whole lines give the length `given`.
    fn receive_header(
        &mut self,
        room: Option<u64>,
        given: Option<u64>,
        piece: &[u8],
    ) -> (usize, Result<Option<Frame>, ReadFault>)
        requires here { self.old.place ≡ Header room given }
        ensures within { result.0 ≤ length piece.now }
        ensures some { IfOk result.1 (λ _. 0 < length piece.now → 0 < result.0) }
        ensures read { ReadsContent self.old.limits (concat self.old.seen.parts ++ take result.0 piece.now) result.1 (concat self.new.seen.parts) }
        ensures memory { result.1 ≡ Err Memory → RanOut self.old.limits (concat self.new.seen.parts) result.0 }
        ensures awaits { IfOk result.1 (λ _. AwaitsMore self.new.limits (concat self.new.seen.parts)) }
        ensures limits { self.new.limits ≡ self.old.limits }
    {
        let count = line_reach(piece);
        match room {
            Some(most) if count as u64 > most => self.end_above(most as usize + 1, piece),
            _ => self.receive_line(room, given, &piece[..count]),
        }
    }

    /// Takes the first `count` bytes, of which the last is above the bound of the header part.
    fn end_above(&mut self, count: usize, piece: &[u8]) -> (usize, Result<Option<Frame>, ReadFault>)
        requires within { count ≤ length piece.now }
        requires fault { IsFaultOf self.old.limits (concat self.old.seen.parts ++ take count piece.now) ReadFault.HeaderTooLong }
        ensures count { result.0 ≡ count }
        ensures failed { result.1 ≡ Err ReadFault.HeaderTooLong }
        ensures read { ReadsContent self.old.limits (concat self.old.seen.parts ++ take result.0 piece.now) result.1 (concat self.new.seen.parts) }
        ensures limits { self.new.limits ≡ self.old.limits }
    {
        self.seen.add(&piece[..count]);
        self.place = Place::Fault(ReadFault::HeaderTooLong);
        (count, Err(ReadFault::HeaderTooLong))
    }

    /// Takes bytes of one header line, for which the header part has room.
    fn receive_line(
        &mut self,
        room: Option<u64>,
        given: Option<u64>,
        shown: &[u8],
    ) -> (usize, Result<Option<Frame>, ReadFault>)
        requires here { self.old.place ≡ Header room given }
        requires fits { (most : ℕ) → room ≡ Some most → length shown.now ≤ most }
        requires line { HasNoFeed shown.now ⊎ IsLine shown.now }
        ensures within { result.0 ≤ length shown.now }
        ensures some { IfOk result.1 (λ _. 0 < length shown.now → 0 < result.0) }
        ensures read { ReadsContent self.old.limits (concat self.old.seen.parts ++ take result.0 shown.now) result.1 (concat self.new.seen.parts) }
        ensures memory { result.1 ≡ Err Memory → RanOut self.old.limits (concat self.new.seen.parts) result.0 }
        ensures awaits { IfOk result.1 (λ _. AwaitsMore self.new.limits (concat self.new.seen.parts)) }
        ensures limits { self.new.limits ≡ self.old.limits }
    {
        let left = less(room, shown.len());
        match line_with(self.limits, given, &mut self.line, shown) {
            Err(_) => (0, Err(ReadFault::Memory)),
            Ok(Err(fault)) => {
                self.seen.add(shown);
                self.place = Place::Fault(fault);
                (shown.len(), Err(fault))
            }
            Ok(Ok(Next::Content(size))) => {
                self.seen.add(shown);
                self.place = Place::Refused(size);
                (shown.len(), self.begin_content(size))
            }
            Ok(Ok(Next::Header(given))) => {
                self.seen.add(shown);
                self.place = Place::Header(left, given);
                (shown.len(), Ok(None))
            }
        }
    }

    /// Reserves the memory for a content part of `size` bytes. The header part has just ended.
    fn begin_content(&mut self, size: usize) -> Result<Option<Frame>, ReadFault>
        requires header { IsHeader self.old.limits size (concat self.old.seen.parts) }
        requires line { self.old.line.items ≡ [] }
        requires here { self.old.place ≡ Refused size }
        ensures read { ReadsContent self.old.limits (concat self.old.seen.parts) result (concat self.new.seen.parts) }
        ensures memory { result ≡ Err Memory → IsHeader self.old.limits size (concat self.new.seen.parts) }
        ensures awaits { IfOk result (λ _. AwaitsMore self.new.limits (concat self.new.seen.parts)) }
        ensures limits { self.new.limits ≡ self.old.limits }
    {
        match Vec::with_capacity(self.alloc, size) {
            Err(_) => Err(ReadFault::Memory),
            Ok(content) if size == 0 => {
                let bytes = mem::replace(&mut self.seen, ByteTrace::new());
                self.place = Place::Header(self.limits.header, None);
                Ok(Some(Frame { content, bytes }))
            }
            Ok(content) => {
                self.content = content;
                self.place = Place::Content(size);
                Ok(None)
            }
        }
    }

    /// Takes bytes of the content part, which has `size` bytes. Memory for all of them is reserved.
    fn receive_content(
        &mut self,
        size: usize,
        piece: &[u8],
    ) -> (usize, Result<Option<Frame>, ReadFault>)
        requires here { self.old.place ≡ Content size }
        ensures within { result.0 ≤ length piece.now }
        ensures some { IfOk result.1 (λ _. 0 < length piece.now → 0 < result.0) }
        ensures read { ReadsContent self.old.limits (concat self.old.seen.parts ++ take result.0 piece.now) result.1 (concat self.new.seen.parts) }
        ensures memory { result.1 ≡ Err Memory → RanOut self.old.limits (concat self.new.seen.parts) result.0 }
        ensures awaits { IfOk result.1 (λ _. AwaitsMore self.new.limits (concat self.new.seen.parts)) }
        ensures limits { self.new.limits ≡ self.old.limits }
        ensures no_memory { result.1 ≢ Err Memory }
    {
        let missing = size - self.content.len();
        let count = piece.len().min(missing);
        self.content.extend_from_slice(&piece[..count]).unwrap();
        if count < missing {
            self.seen.add(&piece[..count]);
            return (count, Ok(None));
        }
        let content = mem::replace(&mut self.content, Vec::new(self.alloc));
        let mut bytes = mem::replace(&mut self.seen, ByteTrace::new());
        bytes.add(&piece[..count]);
        self.place = Place::Header(self.limits.header, None);
        (count, Ok(Some(Frame { content, bytes })))
    }

    /// Returns the fault of the input if it ends here. Returns `None` at the start of a header line, where the input may
    /// end.
    ///
    /// Inside a header line the fault is `LineNotText` or `LineEnd`. Inside a content part it is `ShortBody`. After a
    /// fault it is the same fault. After `Memory` for a header line it is the fault of the bytes that were taken before.
    pub fn at_end(&self) -> Option<ReadFault>
        ensures { IsEndOf self.now.limits (concat self.now.seen.parts) result }
    {
        match self.place {
            Place::Header(_, _) if self.line.is_empty() => None,
            Place::Header(_, _) => header_line(self.line.as_slice()).err(),
            Place::Content(_) => Some(ReadFault::ShortBody),
            Place::Refused(_) => Some(ReadFault::Memory),
            Place::Fault(fault) => Some(fault),
        }
    }
}

/// Returns how many bytes the first line of the piece has, with its line feed. A piece without a line feed is all in
/// one line.
fn line_reach(piece: &[u8]) -> usize
    ensures within { result ≤ length piece.now }
    ensures some { 0 < length piece.now → 0 < result }
    ensures line { (count : ℕ) → count ≤ result → HasNoFeed (take count piece.now) ⊎ IsLine (take count piece.now) }
{
    match memchr(b'\n', piece) {
        Some(at) => at + 1,
        None => piece.len(),
    }
}

/// Returns the room that is left after `count` bytes, if there is a bound.
fn less(room: Option<u64>, count: usize) -> Option<u64>
    requires { (most : ℕ) → room ≡ Some most → count ≤ most }
    ensures { result ≡ less_of room count }
{
    match room {
        Some(most) => Some(most - count as u64),
        None => None,
    }
}

/// Returns what follows after more bytes of a header line. If they do not end the line, they are added to `line`. If
/// they do, `line` becomes empty. A line that is shown whole is not copied.
fn line_with(
    limits: Limits,
    given: Option<u64>,
    line: &mut Vec<u8>,
    shown: &[u8],
) -> Result<Result<Next, ReadFault>, AllocError>
    requires line { HasNoFeed shown.now ⊎ IsLine shown.now }
    ensures part { IfOk result (λ after. HasNoFeed shown.now → (after ≡ Ok (Next.Header given)) × (line.new.items ≡ line.old.items ++ shown.now)) }
    ensures whole { IfOk result (λ after. IsLine shown.now → (after ≡ next_of limits given (line_spec (line.old.items ++ shown.now))) × (line.new.items ≡ [])) }
    ensures kept { IfErr result (λ _. line.new.items ≡ line.old.items) }
{
    let ends = shown.ends_with(b"\n");
    if ends && line.is_empty() {
        return Ok(after_line(limits, given, shown));
    }
    line.extend_from_slice(shown)?;
    if !ends {
        return Ok(Ok(Next::Header(given)));
    }
    let after = after_line(limits, given, line.as_slice());
    line.clear();
    Ok(after)
}

/// Returns what follows a whole line of the header part. The lines before it give the length `given`.
pub(crate) fn after_line(limits: Limits, given: Option<u64>, line: &[u8]) -> Result<Next, ReadFault>
    ensures { result ≡ next_of limits given (line_spec line.now) }
{
    match header_line(line)? {
        HeaderLine::Length(size) => Ok(Next::Header(Some(size))),
        HeaderLine::Other => Ok(Next::Header(given)),
        HeaderLine::Blank => match given {
            None => Err(ReadFault::NoLength),
            Some(size) if size > limits.content => Err(ReadFault::TooLong),
            Some(size) => Ok(Next::Content(size as usize)),
        },
    }
}
