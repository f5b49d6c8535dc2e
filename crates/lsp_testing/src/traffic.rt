// The messages that passed between a test client and its server.
ghost use Rattle.std.specs.Prelude.{◌≡◌, ◌++◌, [], List, IfOk, length};
ghost use Rattle.std.specs.List.{FoldsTo};
ghost use Rattle.lsp_message.specs.View.{message_view};
ghost use Rattle.lsp_message.specs.declared.msg.Message as msg;
ghost use Rattle.lsp_testing.specs.Traffic.{AddsLine, Arrives, Reads, from_client, to_client};

use crate::fault::TestFault;
use lsp_message::{Message, ReadFault};
use std::alloc::{AllocError, Global};

/// The messages of the server that nobody took, and a line for each message that passed.
#[derive(Drop)]
pub(crate) struct Traffic {
    alloc: Global,
    pub(crate) own: Vec<Message>,
    pub(crate) lines: String,
}

impl Traffic {
    /// Makes the traffic of a client that has sent nothing yet.
    pub(crate) fn new(alloc: Global) -> Traffic
        ensures own { result.own.items ≡ [] }
        ensures lines { result.lines.bytes.items ≡ [] }
    {
        Traffic {
            alloc,
            own: Vec::new(alloc),
            lines: String::new(alloc),
        }
    }

    /// Adds the line of a message, with this mark in front.
    fn add_line(&mut self, mark: &str, message: &Message) -> Result<(), AllocError>
        ensures line { IfOk result (λ _. AddsLine mark.now (message_view message.now) self.old self.new) }
        ensures own { self.new.own ≡ self.old.own }
    {
        let text = message.member_text(self.alloc)?;
        self.lines.push_str(mark)?;
        self.lines.push_str(text.as_str())?;
        self.lines.push_str("\n")
    }

    /// Notes a message of the client.
    pub(crate) fn add_sent(&mut self, message: &Message) -> Result<(), AllocError>
        ensures line { IfOk result (λ _. AddsLine from_client (message_view message.now) self.old self.new) }
        ensures own { self.new.own ≡ self.old.own }
    {
        self.add_line("-> ", message)
    }

    /// Notes a message of the server, and keeps it.
    fn add_arrived(&mut self, message: Message) -> Result<(), AllocError>
        ensures { IfOk result (λ _. Arrives message self.old self.new) }
    {
        self.add_line("<- ", &message)?;
        self.own.push(message)?;
        Ok(())
    }

    /// Reads the messages in the output of the server, and keeps them.
    pub(crate) fn read(&mut self, output: &[u8]) -> Result<(), TestFault>
        ensures { IfOk result (λ _. (came : List msg.Message) × FoldsTo Reads (output.now, self.old) came ([], self.new)) }
    {
        let mut rest = output;
        for _ in 0..=output.len() {
            if rest.is_empty() {
                return Ok(());
            }
            match Message::read(self.alloc, &mut rest)? {
                Some(message) => self.add_arrived(message)?,
                None => break,
            }
        }
        Err(TestFault::UnreadableOutput(ReadFault::ShortBody))
    }
}
