// Messages, read from a reader and written to a writer.
ghost use Rattle.std.specs.Prelude.{◌≡◌, ◌≢◌, ◌<◌, ◌≤◌, length, Err, IfOk, IfSome, OnOk, Some, string_bytes};
ghost use Rattle.std.specs.Result.{result_err, result_map_both};
ghost use Rattle.serde_json.specs.Read.{read as read_json, max_depth};
ghost use Rattle.serde_json.specs.View.{view};
ghost use Rattle.lsp_message.specs.Failures.{ReaderFails, WriterFails};
ghost use Rattle.lsp_message.specs.Frame.{body_means, tree_means, RunsOut, no_limit, of_content, reading_of, reading_within};
ghost use Rattle.lsp_message.specs.Gathering.{TakesFront};
ghost use Rattle.lsp_message.specs.Ranges.{nesting};
ghost use Rattle.lsp_message.specs.Readable.{WritesReadably};
ghost use Rattle.lsp_message.specs.Reading.{Answers};
ghost use Rattle.lsp_message.specs.ReadingSteps.{Decodes};
ghost use Rattle.lsp_message.specs.Told.{Given, IsOfParts, Told, WritesParts};
ghost use Rattle.lsp_message.specs.View.{message_view};
ghost use Rattle.lsp_message.specs.Written.{IsFrameOf, Writes};

use crate::frame::byte_trace::ByteTrace;
use crate::frame::content::read_content_traced;
use crate::frame::limits::Limits;
use crate::frame::write::{with_header, write_body};
use crate::frame::{ReadFault, WriteFault};
use crate::msg::Message;
use serde_json::Value;
use std::alloc::{AllocError, Global};
use std::io::{BufRead, Write};

impl Message {
    /// Reads one message (LSP 3.17, "Base Protocol"). `Ok(None)` means that the input ended at the start of a header
    /// line.
    ///
    /// `ReadFault` describes each fault. The bytes after the message, or after those at fault, stay unread. After
    /// `Input` and `Memory` no byte after the message was taken. After `Memory` either none of the content part was
    /// taken, or all of it.
    ///
    /// The content part may have any length, and memory for all of it is reserved before its first byte is read. To set
    /// a limit, use `read_within`.
    pub fn read<R: BufRead>(alloc: Global, reader: &mut R) -> Result<Option<Message>, ReadFault>
        ensures exact { IfSome (R.remaining reader.old) (λ text.
            Answers message_view result (R.remaining reader.new) (reading_of text)) }
        ensures begun { TakesFront (R.remaining reader.old) (R.remaining reader.new) }
        ensures memory { result ≡ Err ReadFault.Memory → IfSome (R.remaining reader.old) (λ text.
            RunsOut no_limit text (R.remaining reader.new)) }
        ensures unlimited { IfSome (R.remaining reader.old) (λ _. result ≢ Err ReadFault.TooLong) }
    {
        Message::read_within(alloc, reader, u64::MAX)
    }

    /// Reads one message whose content part has at most `limit` bytes, as `read` does (LSP 3.17, "Base Protocol").
    ///
    /// If the length is above the limit, the fault is `TooLong`, and the content part stays unread. The fault is then
    /// never that no memory was left for it. That none is reserved for it is tested, and not part of the contract. If
    /// there are several lines with `Content-Length`, the last one counts. The header part is not bounded: the reader
    /// gathers everything from a peer that sends no line end. `read_traced` bounds it.
    pub fn read_within<R: BufRead>(
        alloc: Global,
        reader: &mut R,
        limit: u64,
    ) -> Result<Option<Message>, ReadFault>
        ensures exact { IfSome (R.remaining reader.old) (λ text.
            Answers message_view result (R.remaining reader.new) (reading_within (of_content limit) text)) }
        ensures begun { TakesFront (R.remaining reader.old) (R.remaining reader.new) }
        ensures memory { result ≡ Err ReadFault.Memory → IfSome (R.remaining reader.old) (λ text.
            RunsOut (of_content limit) text (R.remaining reader.new)) }
    {
        let limits = Limits {
            header: None,
            content: limit,
        };
        Message::read_traced(alloc, reader, limits, &mut ByteTrace::new())
    }

    /// Reads one message within `limits`, as `read_within` does, and adds the bytes that it takes to the trace.
    ///
    /// A header part that is longer than its bound is the fault `HeaderTooLong`. Exactly one byte above the bound was
    /// taken then. A bad line below the bound has its own fault.
    ///
    /// The trace is known for every reader, also for one that does not say which bytes it has left, such as standard
    /// input.
    pub fn read_traced<R: BufRead>(
        alloc: Global,
        reader: &mut R,
        limits: Limits,
        taken: &mut ByteTrace,
    ) -> Result<Option<Message>, ReadFault>
        ensures exact { IfSome (R.remaining reader.old) (λ text.
            Answers message_view result (R.remaining reader.new) (reading_within limits text)) }
        ensures begun { TakesFront (R.remaining reader.old) (R.remaining reader.new) }
        ensures memory { result ≡ Err ReadFault.Memory → IfSome (R.remaining reader.old) (λ text.
            RunsOut limits text (R.remaining reader.new)) }
        ensures told { Told (IsOfParts message_view (reading_within limits) result) taken.old.parts
            taken.new.parts (R.remaining reader.old) (R.remaining reader.new) }
        ensures failed { ReaderFails (result_err result) taken.old taken.new }
    {
        let content = match read_content_traced(alloc, reader, limits, taken)? {
            Some(content) => content,
            None => return Ok(None),
        };
        Ok(Some(Message::from_content(alloc, &content)?))
    }

    /// Reads the message in a content part (LSP 3.17, "Content Part"), which `read_content_within` returns.
    ///
    /// The fault is `BodyNotText`, `NoJson`, `NoMessage` or `Batch`, or `Memory` if an allocation failed.
    pub fn from_content(alloc: Global, content: &[u8]) -> Result<Message, ReadFault>
        ensures { Decodes message_view result (body_means content.now) }
    {
        match std::str::from_utf8(content) {
            Ok(text) => message_in_text(alloc, text),
            Err(_) => Err(ReadFault::BodyNotText),
        }
    }

    /// Writes one message as a frame (LSP 3.17, "Base Protocol"), and flushes the writer once.
    ///
    /// After `WriteFault::Output` the writer got a prefix of the frame, after `WriteFault::Memory` nothing. If the
    /// message nests at most 127 levels, `Message::read` reads it back from its frame, whatever follows the frame.
    pub fn write<W: Write>(&self, alloc: Global, writer: &mut W) -> Result<(), WriteFault>
        ensures frame { Writes (message_view self.now) (W.contents writer.old) result
            (W.contents writer.new) }
        ensures memory { result ≡ Err WriteFault.Memory → writer.new ≡ writer.old }
        ensures reads_back { OnOk result (
            WritesReadably (message_view self.now) (W.contents writer.old)
            (W.contents writer.new)) }
    {
        self.write_traced(alloc, writer, &mut ByteTrace::new())
    }

    /// Writes one message, as `write` does, and adds the bytes that the writer takes to the trace.
    pub fn write_traced<W: Write>(
        &self,
        alloc: Global,
        writer: &mut W,
        given: &mut ByteTrace,
    ) -> Result<(), WriteFault>
        ensures frame { Writes (message_view self.now) (W.contents writer.old) result
            (W.contents writer.new) }
        ensures memory { result ≡ Err WriteFault.Memory → writer.new ≡ writer.old }
        ensures reads_back { OnOk result (
            WritesReadably (message_view self.now) (W.contents writer.old)
            (W.contents writer.new)) }
        ensures told { Given (WritesParts (message_view self.now) result) given.old.parts
            given.new.parts (W.contents writer.old) (W.contents writer.new) }
        ensures failed { WriterFails (result_err result) given.old given.new }
    {
        let body = self.body_text(alloc)?;
        write_body(writer, body, given)
    }

    /// Makes the frame of the message: the bytes that `write` writes (LSP 3.17, "Base Protocol"). The error means that
    /// an allocation failed.
    ///
    /// `write_frames` writes it, alone or together with others.
    pub fn to_frame(&self, alloc: Global) -> Result<String, AllocError>
        ensures { IfOk result (λ frame. IsFrameOf (message_view self.now) (string_bytes frame)) }
    {
        let body = self.body_text(alloc)?;
        with_header(body)
    }
}

/// Reads the message in a JSON text. An empty text does not allocate.
fn message_in_text(alloc: Global, text: &str) -> Result<Message, ReadFault>
    ensures means { Decodes message_view result (tree_means (read_json text.now)) }
    ensures some { result ≡ Err ReadFault.Memory → 0 < length text.now }
{
    match Value::from_str(alloc, text) {
        Ok(tree) => message_in_tree(tree),
        Err(error) => {
            if error.is_memory() {
                return Err(ReadFault::Memory);
            }
            Err(ReadFault::NoJson)
        }
    }
}

/// Makes a message from a tree. A tree that is no message is a fault; a list is a batch.
fn message_in_tree(tree: Value) -> Result<Message, ReadFault>
    ensures { result_map_both message_view (λ fault. fault) result ≡ tree_means (Some (view tree)) }
{
    match tree {
        Value::Array(_) => Err(ReadFault::Batch),
        tree => Message::from_tree(tree).ok_or(ReadFault::NoMessage),
    }
}
