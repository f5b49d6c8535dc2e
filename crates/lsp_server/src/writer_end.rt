// The result of the writing thread of a connection.
use crate::io_fault::IoFault;
use crate::outgoing::TakenMessages;
use crossbeam_channel::Receiver;
use lsp_message::{ByteTrace, Message};
use std::snapshot::Snapshot;
use std::thread::Promise;

/// The result of the thread. Except `answer`, only clauses see it.
#[derive(Drop)]
pub(crate) struct WriterEnd {
    /// The channel that it took from.
    pub(crate) channel: Snapshot<Receiver<Message>>,
    /// The messages that it took.
    pub(crate) taken: TakenMessages,
    /// The bytes that the writer took.
    pub(crate) given: ByteTrace,
    /// Whether all was written.
    pub(crate) answer: Result<(), IoFault>,
}

/// The promise of the thread: it writes what it takes from this channel.
#[derive(Drop)]
pub(crate) struct WritesChannel {
    pub(crate) channel: Snapshot<Receiver<Message>>,
}

impl Promise<WriterEnd> for WritesChannel {
    ghost use Rattle.lsp_server.specs.Wrote.{Wrote};

    ghost kept_by = { Wrote };
}
