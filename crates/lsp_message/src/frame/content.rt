// The content part of the message at the front of a reader's bytes.
ghost use Rattle.std.specs.Prelude.{◌≡◌, ◌<◌, ◌++◌, Err, Some, None, IfSome};
ghost use Rattle.std.specs.Result.{result_err};
ghost use Rattle.lsp_message.specs.Failures.{ReaderFails};
ghost use Rattle.lsp_message.specs.Frame.{content_within, RunsOutBefore};
ghost use Rattle.lsp_message.specs.Gathering.{TakesFront};
ghost use Rattle.lsp_message.specs.Reading.{Answers};
ghost use Rattle.lsp_message.specs.Told.{Told, IsOfParts};
ghost use Rattle.lsp_message.specs.FrameInput.{AwaitsMore};
ghost use Rattle.lsp_message.specs.FrameLooks.{answered_as, failed_as, failure_in, IsAtEndOf, Looks, noted};
ghost use Rattle.std.specs.List.{concat};

use crate::frame::byte_trace::ByteTrace;
use crate::frame::input::{Frame, FrameInput};
use crate::frame::limits::Limits;
use crate::frame::{ReadFault, unless_interrupted};
use std::alloc::Global;
use std::io::{BufRead, ErrorKind};

/// Reads the content part of one message, and the header part before it, within `limits` (LSP 3.17, "Base Protocol").
/// `Ok(None)` means that the input ended at the start of a header line.
///
/// The faults are those of `Message::read_traced`, except those about the meaning of the content part, which
/// `Message::from_content` finds. After `Memory` none of the content part was taken.
pub fn read_content_within<R: BufRead>(
    alloc: Global,
    reader: &mut R,
    limits: Limits,
) -> Result<Option<Vec<u8>>, ReadFault>
    ensures exact { IfSome (R.remaining reader.old) (λ text.
        Answers (λ content. content.items) result (R.remaining reader.new)
        (content_within limits text)) }
    ensures begun { TakesFront (R.remaining reader.old) (R.remaining reader.new) }
    ensures memory { result ≡ Err ReadFault.Memory → IfSome (R.remaining reader.old) (λ text.
        RunsOutBefore limits text (R.remaining reader.new)) }
{
    read_content_traced(alloc, reader, limits, &mut ByteTrace::new())
}

/// Reads the content part of one message, as `read_content_within` does. It adds the bytes that it takes, and the
/// failures of the reader, to the trace.
pub fn read_content_traced<R: BufRead>(
    alloc: Global,
    reader: &mut R,
    limits: Limits,
    taken: &mut ByteTrace,
) -> Result<Option<Vec<u8>>, ReadFault>
    ensures exact { IfSome (R.remaining reader.old) (λ text.
        Answers (λ content. content.items) result (R.remaining reader.new)
        (content_within limits text)) }
    ensures begun { TakesFront (R.remaining reader.old) (R.remaining reader.new) }
    ensures memory { result ≡ Err ReadFault.Memory → IfSome (R.remaining reader.old) (λ text.
        RunsOutBefore limits text (R.remaining reader.new)) }
    ensures told { Told (IsOfParts (λ content. content.items) (content_within limits) result)
        taken.old.parts taken.new.parts (R.remaining reader.old) (R.remaining reader.new) }
    ensures failed { ReaderFails (result_err result) taken.old taken.new }
{
    let mut input = FrameInput::new(alloc, limits);
    for _look in 0..u64::MAX {
        if let Some(answer) = look(reader, &mut input, taken) {
            return answer;
        }
    }
    Err(ReadFault::Input(ErrorKind::Other))
}

/// Looks once at the reader and passes what it shows to `input`. Returns the answer, or `None` if more bytes are needed
/// or the reader was interrupted.
fn look<R: BufRead>(
    reader: &mut R,
    input: &mut FrameInput,
    taken: &mut ByteTrace,
) -> Option<Result<Option<Vec<u8>>, ReadFault>>
    requires awaits { AwaitsMore input.old.limits (concat input.old.seen.parts) }
    ensures told { Told (Looks input.old.limits (concat input.old.seen.parts) result (concat input.new.seen.parts))
        taken.old.parts taken.new.parts (R.remaining reader.old) (R.remaining reader.new) }
    ensures memory { result ≡ Some (Err ReadFault.Memory) → IfSome (R.remaining reader.old) (λ text.
        RunsOutBefore input.old.limits (concat input.old.seen.parts ++ text) (R.remaining reader.new)) }
    ensures failed { ReaderFails (failure_in result) taken.old taken.new }
    ensures goes_on { result ≡ None → noted taken.old < noted taken.new }
    ensures awaits { result ≡ None → AwaitsMore input.new.limits (concat input.new.seen.parts) }
    ensures limits { input.new.limits ≡ input.old.limits }
{
    let shown = match reader.fill_buf() {
        Ok(shown) => shown,
        Err(error) => return failed(unless_interrupted(error, (), taken)),
    };
    if shown.is_empty() {
        taken.add(shown);
        return Some(answer_at_end(input));
    }
    let (count, read) = input.receive(shown);
    if count == 0 {
        return answered(read);
    }
    taken.add(&shown[..count]);
    reader.consume(count);
    answered(read)
}

/// Returns the fault of a reader that failed as the answer, and `None` for one that was interrupted.
fn failed(again: Result<(), ReadFault>) -> Option<Result<Option<Vec<u8>>, ReadFault>>
    ensures value { result ≡ failed_as again }
{
    match again {
        Ok(()) => None,
        Err(fault) => Some(Err(fault)),
    }
}

/// Returns the answer if the input ends here.
fn answer_at_end(input: &FrameInput) -> Result<Option<Vec<u8>>, ReadFault>
    ensures { IsAtEndOf input.now.limits (concat input.now.seen.parts) result }
{
    match input.at_end() {
        None => Ok(None),
        Some(fault) => Err(fault),
    }
}

/// Returns what was read as the answer, or `None` if the frame is not whole.
fn answered(read: Result<Option<Frame>, ReadFault>) -> Option<Result<Option<Vec<u8>>, ReadFault>>
    ensures value { result ≡ answered_as read }
{
    match read {
        Ok(None) => None,
        Ok(Some(frame)) => Some(Ok(Some(frame.content))),
        Err(fault) => Some(Err(fault)),
    }
}
