// The client and the server of a recording.
use lsp_server::transports::StandardOutput;
use std::io::{self, Write};
use std::net::{Net, OpenListener, OpenStream, Shutdown, TcpListener, TcpStream};

/// A client or a server: a reader of the bytes that it sends, and a writer to it. If it is at a socket, it reads the end
/// when the writer is dropped.
#[derive(Drop)]
pub struct Peer<F, T> {
    pub reader: F,
    pub writer: T,
}

/// The writer of a stream. Its peer reads the end when this is dropped.
pub struct WriteEnd<S: OpenStream> {
    stream: S,
}

impl<S: OpenStream + Drop> Drop for WriteEnd<S> {
    fn drop(self) {
        let WriteEnd { stream } = self;
        let _ = stream.shutdown(Shutdown::Write);
    }
}

impl<S: OpenStream + Write> Write for WriteEnd<S> {
    ghost contents = { λ end. S.contents end.stream };

    fn write(&mut self, buf: &[u8]) -> io::Result<usize> {
        self.stream.write(buf)
    }

    fn flush(&mut self) -> io::Result<()> {
        self.stream.flush()
    }
}

/// The program that started this one.
pub fn parent<R: Input + Print + Copy>(rt: &R) -> Peer<R::Reader, StandardOutput<R>> {
    Peer {
        reader: rt.reader(),
        writer: StandardOutput::new(*rt),
    }
}

/// The first peer that connects to the address.
pub fn accept<R: Net + Copy>(
    rt: &R,
    addr: &str,
) -> io::Result<Peer<R::Stream, WriteEnd<R::Stream>>> {
    let listener = TcpListener::bind(rt, addr)?;
    let (stream, _peer) = listener.accept()?;
    drop(listener);
    peer_at(stream)
}

/// The peer that listens at the address.
pub fn connect<R: Net + Copy>(
    rt: &R,
    addr: &str,
) -> io::Result<Peer<R::Stream, WriteEnd<R::Stream>>> {
    peer_at(TcpStream::connect(rt, addr)?)
}

fn peer_at<S: OpenStream + Drop>(stream: S) -> io::Result<Peer<S, WriteEnd<S>>> {
    // If the option is refused, small writes are only slower.
    let _ = stream.set_nodelay(true);
    let reader = stream.try_clone()?;
    Ok(Peer {
        reader,
        writer: WriteEnd { stream },
    })
}
