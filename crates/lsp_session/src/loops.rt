//! Loops over messages: from a reader to an outbox, and from an inbox to a writer (LSP 3.17, "Base Protocol").
ghost use Rattle.std.specs.Prelude.{IfSome, List};
ghost use Rattle.lsp_message.specs.Frame.{no_limit, of_content};
ghost use Rattle.lsp_message.specs.Message as plain;
ghost use Rattle.lsp_session.specs.ReadLoop.{Hands};
ghost use Rattle.lsp_session.specs.WriteLoop.{OffersAll};

use crate::lifecycle::{Outbox, SendFault, is_exit};
use lsp_message::{Message, ReadFault};
use std::alloc::Global;
use std::io::{BufRead, ErrorKind};

mod account;
mod application;
mod bad_content_policy;
mod both_ends;
mod byte_session;
mod client_streams;
mod frame_outbox;
mod handler;
mod handler_application;
mod handler_service;
mod incoming;
mod machine;
mod pending_output;
mod service;
mod session_outcome;
mod skip_and_flag;
mod stream_inbox;
mod stream_session;
mod stream_transport;
mod tolerant_inbox;
mod transcript;
mod transport;
mod unwoken;
mod write;

pub use application::{Application, serve_application};
pub use bad_content_policy::{BadContentPolicy, EndOnBadContent, SkipAndCount, SkipSilently};
pub use both_ends::serve_service;
pub use byte_session::ByteSession;
pub use client_streams::ClientStreams;
pub use frame_outbox::FrameOutbox;
pub use handler::{Handler, SessionEnd, initialize_result, serve};
pub use handler_application::HandlerApplication;
pub use handler_service::HandlerService;
pub use machine::{Awaits, Came, SessionCore, Stage, Turn, TurnOutput};
pub use service::{Output, Sendable, Service, ToSend};
pub use session_outcome::{SessionOutcome, StopReason};
pub use skip_and_flag::SkipAndFlag;
pub use stream_inbox::StreamInbox;
pub use stream_session::{SessionFault, session, session_answer, session_within};
pub use stream_transport::StreamTransport;
pub use tolerant_inbox::{TolerantInbox, is_bad_content};
pub use transcript::Transcript;
pub use transport::serve_transport;
pub use write::{WriteEnd, write_loop};

/// How a loop over a reader's messages ended.
#[derive(Clone, Copy, Debug, PartialEq, Eq)]
pub enum ReadEnd {
    /// With the notification `exit`, which was passed on.
    Exit,
    /// At the end of the input.
    End,
    /// With a fault of reading, or after 2^64 - 1 messages (`Input` of kind `Other`).
    Fault(ReadFault),
    /// The outbox is closed. The message that it refused is dropped.
    Closed,
    /// An allocation of the outbox failed. The message is dropped.
    Memory,
}

/// Says how reading ends if a message is refused.
impl From<SendFault> for ReadEnd {
    ghost use Rattle.std.specs.Prelude.{◌≡◌};
    ghost use Rattle.lsp_session.specs.ReadLoop.{refused_end};

    ghost from_gives = { λ fault end. end ≡ refused_end fault };

    fn from(fault: SendFault) -> ReadEnd {
        match fault {
            SendFault::Closed(message) => {
                drop(message);
                ReadEnd::Closed
            }
            SendFault::Memory(message) => {
                drop(message);
                ReadEnd::Memory
            }
        }
    }
}

/// Passes on a reader's messages to an outbox, up to and including the first `exit`. `offered` holds for every reader:
/// each change of the outbox is that of a send.
pub fn read_loop<R: BufRead, O: Outbox>(alloc: Global, reader: &mut R, outbox: &mut O) -> ReadEnd
    ensures handed { IfSome (R.remaining reader.old) (λ text.
        Hands no_limit O.sends text outbox.old outbox.new (R.remaining reader.new) result) }
    ensures offered { (ms : List plain.Message) × OffersAll O.sends outbox.old ms outbox.new }
{
    read_loop_within(alloc, reader, outbox, u64::MAX)
}

/// Passes on a reader's messages to an outbox, up to and including the first `exit`. A message whose content part has
/// more than `limit` bytes ends the loop with `ReadFault::TooLong`, and stays unread. A header part is not bounded.
pub fn read_loop_within<R: BufRead, O: Outbox>(
    alloc: Global,
    reader: &mut R,
    outbox: &mut O,
    limit: u64,
) -> ReadEnd
    ensures handed { IfSome (R.remaining reader.old) (λ text.
        Hands (of_content limit) O.sends text outbox.old outbox.new (R.remaining reader.new) result) }
    ensures offered { (ms : List plain.Message) × OffersAll O.sends outbox.old ms outbox.new }
{
    for _ in 0..u64::MAX {
        let message = match Message::read_within(alloc, reader, limit) {
            Ok(Some(message)) => message,
            Ok(None) => return ReadEnd::End,
            Err(fault) => return ReadEnd::Fault(fault),
        };
        let is_last = is_exit(&message);
        match outbox.send(message) {
            Ok(()) => {}
            Err(fault) => return ReadEnd::from(fault),
        }
        if is_last {
            return ReadEnd::Exit;
        }
    }
    ReadEnd::Fault(ReadFault::Input(ErrorKind::Other))
}
