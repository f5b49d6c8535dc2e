//! The answers of a dispatcher.
use lsp_message::{Message, Notification, Request, Response};
use std::error::Error;
use std::fmt;

/// What a dispatcher answers to a call: the message to send, and the work to do.
#[derive(Debug, Drop)]
pub enum Answer {
    /// Send this reply. It is the error -32601 to a request whose method begins with `$/` (LSP 3.17, "`$` Notifications
    /// and Requests").
    Unknown(Response),
    /// Do the work of this request, and call `finish` with its id and its ticket.
    Work {
        /// The request.
        request: Request,
        /// Its ticket. Tickets are 0, 1, 2, .. in the order in which requests arrive. A ticket that was pending under
        /// the same id until now no longer gets a reply: call `Dispatcher::ticket_of` for it before `deliver`, and drop
        /// its work.
        ticket: u64,
    },
    /// Send this reply, and drop the work: the client cancelled the request (LSP 3.17, "Cancellation Support").
    Cancelled {
        /// The reply, with code -32800.
        reply: Response,
        /// The ticket of the request.
        ticket: u64,
    },
    /// Send this reply: the work is done.
    Finished {
        /// The reply.
        reply: Response,
        /// The ticket of the request.
        ticket: u64,
    },
    /// A notification for the server.
    Note(Notification),
    /// There is nothing to do.
    Nothing,
}

impl Answer {
    ghost use Rattle.std.specs.Prelude.{◌≡◌, option_map};
    ghost use Rattle.lsp_message.specs.View.{message_view};
    ghost use Rattle.lsp_dispatch.specs.DispatchAnswers.{answer_view, reply_of};

    /// Returns the message to send, if there is one: for `Unknown`, `Cancelled` and `Finished`.
    pub fn into_reply(self) -> Option<Message>
        ensures { option_map message_view result ≡ reply_of (answer_view self) }
    {
        match self {
            Answer::Unknown(reply) => Some(Message::Response(reply)),
            Answer::Cancelled { reply, .. } => Some(Message::Response(reply)),
            Answer::Finished { reply, .. } => Some(Message::Response(reply)),
            Answer::Work { request, .. } => {
                drop(request);
                None
            }
            Answer::Note(notification) => {
                drop(notification);
                None
            }
            Answer::Nothing => None,
        }
    }
}

/// Why a message was not delivered. Each variant returns the message, and the dispatcher is unchanged.
///
/// It prints `dispatch fault N`, where N is its `number`. To show a person more, match on the variant.
#[derive(Debug, Drop)]
pub enum DispatchFault {
    /// 1: an allocation failed.
    Memory(Message),
    /// 2: every ticket was used, 18446744073709551615 in all.
    Spent(Message),
}

impl DispatchFault {
    ghost use Rattle.std.specs.Prelude.{◌≡◌};
    ghost use Rattle.lsp_dispatch.specs.DispatchFaults.{dispatch_fault_number};

    /// Returns the fault's number, 1 or 2.
    pub fn number(&self) -> u8
        ensures { result ≡ dispatch_fault_number self.now }
    {
        match self {
            DispatchFault::Memory(_) => 1,
            DispatchFault::Spent(_) => 2,
        }
    }
}

impl fmt::Display for DispatchFault {
    ghost use Rattle.lsp_dispatch.specs.DispatchFaults.{dispatch_fault_text};

    ghost output = { dispatch_fault_text };

    fn fmt<W: fmt::Write>(&self, f: &mut fmt::Formatter<W>) -> fmt::Result {
        write!(f, "dispatch fault {}", self.number())
    }
}

impl Error for DispatchFault {}
