//! A connection over TCP.
ghost use Rattle.std.specs.Prelude.{◌≡◌, true, IfErr};
ghost use Rattle.std.specs.Io.{WritesAtMost};
ghost use Rattle.std.specs.Io.KnownBytes.{WriteAppends};
ghost use Rattle.std.specs.IoError.{error_kind};
ghost use Rattle.lsp_server.specs.IoFault.{is_connect_fault};
ghost use Rattle.lsp_server.specs.declared.io_fault.IoFault.TheVariants.{Socket};

use crate::connection::Connection;
use crate::io_fault::IoFault;
use crate::io_threads::IoThreads;
use libc::net;
use lsp_message::Limits;
use std::io;
use std::io::{ErrorKind, Read, Write};
use std::net::{Net, OpenListener, OpenStream, Shutdown, TcpListener, TcpStream, ToSocketAddrs};
use std::os::fd::AsRawFd;
use std::sync::Wait;
use std::thread::Threads;
use std::time::{Clock, Duration};

/// How many seconds one write waits for room. The system takes what it can of a frame first. So a peer that reads
/// nothing is given up after two or three times as long. One that reads very little is given up too: a writer waits
/// until a good part of the system's buffer is free.
const WRITE_SECONDS: u64 = 10;

impl Connection {
    /// Connects to the peer that listens at the address, such as `"127.0.0.1:9257"`: a host's name or an IP address,
    /// and a port. If a name has several addresses, it takes the first that answers.
    ///
    /// The faults are
    ///
    /// - `Start`: a thread was not started.
    /// - `Socket`: the text is not an address with a port, or nobody listens there. The kind inside says which.
    /// - `Memory`: an allocation failed.
    ///
    /// If the peer reads nothing, or very little, for half a minute, a write fails, and `IoThreads::join` returns write
    /// fault 1.
    pub fn connect<R, A>(rt: &R, addr: A) -> Result<(Connection, IoThreads), IoFault>
    where
        R: Net + Threads + Wait + Clock + AllocGlobal + Copy + Drop + Send + 'static,
        R::Stream: Send + 'static,
        A: ToSocketAddrs,
        ensures { IfErr result (λ fault. is_connect_fault fault ≡ true) }
    {
        Connection::connect_within(rt, addr, Limits::none())
    }

    /// Does what `connect` does, with limits on a header part and a content part. If the peer sends a longer content
    /// part, `IoThreads::join` returns read fault 12; after a longer header part, read fault 14.
    pub fn connect_within<R, A>(
        rt: &R,
        addr: A,
        limits: Limits,
    ) -> Result<(Connection, IoThreads), IoFault>
    where
        R: Net + Threads + Wait + Clock + AllocGlobal + Copy + Drop + Send + 'static,
        R::Stream: Send + 'static,
        A: ToSocketAddrs,
        ensures { IfErr result (λ fault. is_connect_fault fault ≡ true) }
    {
        let stream = TcpStream::connect(rt, addr).map_err(socket_fault)?;
        Connection::over_stream(rt, stream, limits)
    }

    /// Listens at the address, and makes a connection with the first peer that connects. Then it stops listening, and
    /// disconnects any other peer that was waiting.
    ///
    /// The faults are those of `connect`. It is also `Socket` if the program can't listen at the address, for example
    /// because the port is in use.
    pub fn listen<R, A>(rt: &R, addr: A) -> Result<(Connection, IoThreads), IoFault>
    where
        R: Net + Threads + Wait + Clock + AllocGlobal + Copy + Drop + Send + 'static,
        R::Stream: Send + 'static,
        A: ToSocketAddrs,
        ensures { IfErr result (λ fault. is_connect_fault fault ≡ true) }
    {
        Connection::listen_within(rt, addr, Limits::none())
    }

    /// Does what `listen` does, with limits on a header part and a content part. If the peer sends a longer content
    /// part, `IoThreads::join` returns read fault 12; after a longer header part, read fault 14. Use it, with both
    /// limits, if strangers can connect.
    pub fn listen_within<R, A>(
        rt: &R,
        addr: A,
        limits: Limits,
    ) -> Result<(Connection, IoThreads), IoFault>
    where
        R: Net + Threads + Wait + Clock + AllocGlobal + Copy + Drop + Send + 'static,
        R::Stream: Send + 'static,
        A: ToSocketAddrs,
        ensures { IfErr result (λ fault. is_connect_fault fault ≡ true) }
    {
        let listener = TcpListener::bind(rt, addr).map_err(socket_fault)?;
        let (stream, _peer) = listener.accept().map_err(socket_fault)?;
        drop(listener);
        Connection::over_stream(rt, stream, limits)
    }

    /// Makes a connection on a stream that you accepted, for example from a listener at a port that the system chose.
    /// The limits are those of `listen_within`.
    ///
    /// The faults are those of `connect`.
    pub fn over_stream<R>(
        rt: &R,
        stream: R::Stream,
        limits: Limits,
    ) -> Result<(Connection, IoThreads), IoFault>
    where
        R: Net + Threads + Wait + Clock + AllocGlobal + Copy + Drop + Send + 'static,
        R::Stream: Send + 'static,
        ensures { IfErr result (λ fault. is_connect_fault fault ≡ true) }
    {
        let (reader, writer) = halves(stream, None).map_err(socket_fault)?;
        Connection::over(rt, reader, writer, limits)
    }
}

fn socket_fault(error: io::Error) -> IoFault
    ensures { result ≡ Socket (error_kind error) }
{
    IoFault::Socket(error.kind())
}

/// Makes the system check from time to time whether the machine of a stream's peer is still there. A read fails once it
/// is not.
pub(crate) fn keep_alive<S: AsRawFd>(stream: &S) {
    let mut on = [0u8; 16];
    on[..4].copy_from_slice(&1i32.to_ne_bytes());
    let fd = stream.as_raw_fd();
    // If the option is refused, only a peer that went without a word is waited for longer.
    let _ = unsafe { net::setsockopt(fd, net::SOL_SOCKET, net::SO_KEEPALIVE, &on, 4) };
}

/// Makes the reader and the writer of a stream. With a time, a read fails if the peer sends nothing for that long
/// before its first bytes.
pub(crate) fn halves<S: OpenStream + Drop>(
    stream: S,
    first_byte_timeout: Option<Duration>,
) -> io::Result<(ReadHalf<S>, WriteHalf<S>)> {
    // What waits is one write, so holding it back gathers nothing. If the option is refused, frames are only slower.
    let _ = stream.set_nodelay(true);
    stream.set_write_timeout(Some(Duration::from_secs(WRITE_SECONDS)))?;
    stream.set_read_timeout(first_byte_timeout)?;
    let reader = ReadHalf {
        stream: stream.try_clone()?,
        has_time: first_byte_timeout.is_some(),
    };
    Ok((reader, WriteHalf { stream }))
}

/// The half of a stream that the reading thread owns.
#[derive(Drop)]
pub struct ReadHalf<S> {
    stream: S,
    /// Whether a read fails after a time.
    has_time: bool,
}

impl<S: OpenStream + Read> Read for ReadHalf<S> {
    ghost remaining = { λ half. S.remaining half.stream };

    fn read(&mut self, buf: &mut [u8]) -> io::Result<usize> {
        let count = self.stream.read(buf)?;
        if self.has_time {
            // The bytes that came are not lost if the system refuses this. Then the next read tries again.
            self.has_time = self.stream.set_read_timeout(None).is_err();
        }
        Ok(count)
    }
}

/// The half of a stream that the writing thread owns. When it is dropped, the outgoing direction ends: the peer reads
/// the end of the stream, although the reading thread still holds its half. After a failed write both directions end,
/// so the reading thread no longer waits for a peer that can't be answered.
pub struct WriteHalf<S: OpenStream> {
    stream: S,
}

impl<S: OpenStream + Drop> Drop for WriteHalf<S> {
    fn drop(self) {
        let WriteHalf { stream } = self;
        let _ = stream.shutdown(Shutdown::Write);
    }
}

impl<S: OpenStream + Write> Write for WriteHalf<S> {
    ghost contents = { λ half. S.contents half.stream };

    fn write(&mut self, buf: &[u8]) -> io::Result<usize> {
        let written = write_again(&mut self.stream, buf);
        if written.is_err() {
            let _ = self.stream.shutdown(Shutdown::Both);
        }
        written
    }

    fn flush(&mut self) -> io::Result<()> {
        self.stream.flush()
    }
}

/// Writes as `write` does, and again if a signal came before anything was written. While a write has a time, a stop of
/// the process and its continuation are such a signal (signal(7)).
fn write_again<W: Write>(writer: &mut W, buf: &[u8]) -> io::Result<usize>
    ensures bound { WritesAtMost result buf.now }
    ensures bytes { WriteAppends (W.contents writer.old) (W.contents writer.new) result buf.now }
{
    for _ in 0..u64::MAX {
        match writer.write(buf) {
            Err(error) if error.kind() == ErrorKind::Interrupted => {}
            written => return written,
        }
    }
    writer.write(buf)
}
