// The streams of a client.
ghost use Rattle.std.specs.Prelude.{◌≡◌, Some};
ghost use Rattle.lsp_message.specs.Limits.{most_content};
ghost use Rattle.lsp_session.specs.StreamTransports.{IsUnused};

use crate::loops::{BadContentPolicy, StreamTransport, Transcript};
use lsp_message::Limits;
use std::alloc::Global;
use std::io::{BufRead, Write};

/// The reader and the writer of a client, and a transcript of the bytes, which only clauses see.
#[derive(Drop)]
pub struct ClientStreams<R, W> {
    /// The client's messages are read from it.
    pub reader: R,
    /// The messages to the client are written to it.
    pub writer: W,
    /// How many bytes a header part and a content part of the client may have.
    pub limits: Limits,
    transcript: Transcript,
}

impl<R: BufRead, W: Write> ClientStreams<R, W> {
    /// Makes the streams of a client with which nothing was read or written yet. A header part may have
    /// `Limits::HEADER_BYTES` bytes, and a content part any number.
    pub fn new(reader: R, writer: W) -> Self
        ensures reader { result.reader ≡ reader }
        ensures writer { result.writer ≡ writer }
        ensures limits { result.limits ≡ record { header = Some 65536; content = most_content } }
    {
        ClientStreams {
            reader,
            writer,
            limits: Limits {
                header: Some(Limits::HEADER_BYTES),
                content: u64::MAX,
            },
            transcript: Transcript::new(),
        }
    }

    /// Makes a transport on the streams, within their limits, with a new transcript. `StreamTransport::within` says how
    /// the policy is used.
    pub fn transport<'a, L: BadContentPolicy>(
        &'a mut self,
        alloc: Global,
        policy: &'a mut L,
    ) -> StreamTransport<'a, R, W, L>
        ensures unused { IsUnused result }
        ensures reader { result.reader.now ≡ self.old.reader }
        ensures writer { result.writer.now ≡ self.old.writer }
        ensures limited { result.limits ≡ self.old.limits }
    {
        let limits = self.limits;
        self.transcript = Transcript::new();
        StreamTransport::within(
            alloc,
            &mut self.reader,
            &mut self.writer,
            policy,
            limits,
            &mut self.transcript,
        )
    }
}
