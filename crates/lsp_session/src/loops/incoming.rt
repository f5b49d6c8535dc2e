// A message that came: as trees, or as a call whose content part is kept.
ghost use Rattle.std.specs.Prelude.{◌≡◌, IfOk, IfSome};
ghost use Rattle.std.specs.Result.{result_err};
ghost use Rattle.lsp_message.specs.Failures.{ReaderFails};
ghost use Rattle.lsp_message.specs.Frame.{body_means, reading_within};
ghost use Rattle.lsp_message.specs.Gathering.{TakesFront};
ghost use Rattle.lsp_message.specs.Methods.{is_exit as exit_spec};
ghost use Rattle.lsp_message.specs.Reading.{Answers};
ghost use Rattle.lsp_message.specs.ReadingSteps.{Decodes};
ghost use Rattle.lsp_message.specs.Told.{Told, IsOfParts};
ghost use Rattle.lsp_session.specs.Event.{arrival_view, message as message_event};
ghost use Rattle.lsp_session.specs.Incoming.{incoming_view, GoesOn};
ghost use Rattle.lsp_session.specs.Machine.{came_view};

use crate::lifecycle::{Arrival, is_exit};
use crate::loops::machine::Came;
use lsp_calls::{CallContent, CallReader};
use lsp_message::{ByteTrace, Limits, Message, ReadFault, read_content_traced};
use std::alloc::Global;
use std::io::BufRead;

/// A message that came.
#[derive(Drop)]
pub(crate) enum Incoming {
    /// A message.
    Message(Message),
    /// The content part of a call, which is not `exit`.
    Call(CallContent),
}

impl Incoming {
    /// Reads one message within `limits`, as `Message::read_traced` does, but makes no tree of a call.
    pub(crate) fn read_traced<R: BufRead>(
        alloc: Global,
        reader: &mut R,
        limits: Limits,
        calls: &mut CallReader,
        taken: &mut ByteTrace,
    ) -> Result<Option<Incoming>, ReadFault>
        ensures exact { IfSome (R.remaining reader.old) (λ text.
            Answers incoming_view result (R.remaining reader.new) (reading_within limits text)) }
        ensures begun { TakesFront (R.remaining reader.old) (R.remaining reader.new) }
        ensures told { Told (IsOfParts incoming_view (reading_within limits) result) taken.old.parts
            taken.new.parts (R.remaining reader.old) (R.remaining reader.new) }
        ensures failed { ReaderFails (result_err result) taken.old taken.new }
        ensures goes_on { IfOk result (λ came. IfSome came GoesOn) }
    {
        let content = match read_content_traced(alloc, reader, limits, taken)? {
            Some(content) => content,
            None => return Ok(None),
        };
        Ok(Some(Incoming::in_content(alloc, calls, content)?))
    }

    /// Reads what a content part holds. It makes no tree of a call.
    pub(crate) fn in_content(
        alloc: Global,
        calls: &mut CallReader,
        content: Vec<u8>,
    ) -> Result<Incoming, ReadFault>
        ensures decodes { Decodes incoming_view result (body_means content.items) }
        ensures goes_on { IfOk result GoesOn }
    {
        match calls.take(content) {
            Ok(call) => Ok(Incoming::Call(call)),
            Err(content) => Ok(Incoming::Message(Message::from_content(alloc, &content)?)),
        }
    }

    /// Reads what a content part holds. If calls are read, it makes no tree of a call.
    pub(crate) fn in_part(
        alloc: Global,
        calls: &mut CallReader,
        reads_calls: bool,
        content: Vec<u8>,
    ) -> Result<Incoming, ReadFault>
        ensures { Decodes incoming_view result (body_means content.items) }
    {
        if reads_calls {
            return Incoming::in_content(alloc, calls, content);
        }
        Ok(Incoming::Message(Message::from_content(alloc, &content)?))
    }

    /// Returns whether this is the notification `exit`.
    pub(crate) fn is_exit(&self) -> bool
        requires { GoesOn self.now }
        ensures { result ≡ exit_spec (incoming_view self.now) }
    {
        match self {
            Incoming::Message(message) => is_exit(message),
            Incoming::Call(_) => false,
        }
    }

    /// Makes an arrival.
    pub(crate) fn into_arrival(self) -> Arrival
        ensures { arrival_view result ≡ message_event (incoming_view self) }
    {
        match self {
            Incoming::Message(message) => Arrival::Message(message),
            Incoming::Call(content) => Arrival::Call(content),
        }
    }

    /// Makes an event of a session.
    pub(crate) fn into_came(self) -> Came
        ensures { came_view result ≡ message_event (incoming_view self) }
    {
        match self {
            Incoming::Message(message) => Came::Message(message),
            Incoming::Call(content) => Came::Call(content),
        }
    }
}
