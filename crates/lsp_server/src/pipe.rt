//! The socket file of a client (LSP 3.17, "Implementation Considerations").
use std::io;
use std::io::{Read, Write};
use std::net::{Net, OpenStream, Shutdown};
use std::os::unix::net::UnixStream;
use std::time::Duration;

/// A stream over a socket file, for code that is generic over streams. `S` is the system's stream.
#[derive(Drop)]
pub struct PipeStream<S>(S);

impl PipeStream<UnixStream> {
    /// Connects to the client that listens on the file.
    pub(crate) fn connect<R: Net>(rt: &R, name: &str) -> io::Result<PipeStream<UnixStream>> {
        Ok(PipeStream(UnixStream::connect(rt, name)?))
    }
}

impl<S: Read> Read for PipeStream<S> {
    ghost remaining = { λ stream. S.remaining stream.0 };

    fn read(&mut self, buf: &mut [u8]) -> io::Result<usize> {
        self.0.read(buf)
    }
}

impl<S: Write> Write for PipeStream<S> {
    ghost contents = { λ stream. S.contents stream.0 };

    fn write(&mut self, buf: &[u8]) -> io::Result<usize> {
        self.0.write(buf)
    }

    fn flush(&mut self) -> io::Result<()> {
        self.0.flush()
    }
}

impl OpenStream for PipeStream<UnixStream> {
    fn shutdown(&self, how: Shutdown) -> io::Result<()> {
        self.0.shutdown(how)
    }

    fn set_read_timeout(&self, dur: Option<Duration>) -> io::Result<()> {
        self.0.set_read_timeout(dur)
    }

    fn set_write_timeout(&self, dur: Option<Duration>) -> io::Result<()> {
        self.0.set_write_timeout(dur)
    }

    fn read_timeout(&self) -> io::Result<Option<Duration>> {
        self.0.read_timeout()
    }

    fn try_clone(&self) -> io::Result<PipeStream<UnixStream>> {
        Ok(PipeStream(self.0.try_clone()?))
    }
}
