//! Serves the clients of a program: the one at standard input and output, one that listens itself, or those that
//! connect to an address, one after another or several at the same time.
ghost use Rattle.std.specs.Prelude.{◌≡◌, Some, map, IfOk, IfErr, IsErr, IsErrAnd, IsSomeAnd, IsTrue, string_bytes};
ghost use Rattle.std.specs.Arc.{arc_value};
ghost use Rattle.std.specs.Duration.{as_nanos};
ghost use Rattle.std.specs.IoError.{error_kind};
ghost use Rattle.std.specs.declared.io.ErrorKind.TheVariants.{InvalidInput, OutOfMemory};
ghost use Rattle.std.specs.Io.Buffered.{reader_inner};
ghost use Rattle.lsp_message.specs.Limits.{most_content};
ghost use Rattle.lsp_server.specs.Words.{channel_of, standard, refused as asks_in_vain};
ghost use Rattle.lsp_server.specs.Clients.{medium_of, reader_medium, writer_medium, client_remaining, client_contents, streams, socket as by_socket, file as by_file};

use crate::client_places::ClientPlaces;
use crate::connection::READ_AHEAD;
use crate::pipe::PipeStream;
use crate::socket::{ReadHalf, WriteHalf, halves, keep_alive};
use crate::stdio::StandardOutput;
use crate::words::{Channel, NO_PORT, channel_in, is_unknown};
use lsp_message::Limits;
use lsp_session::{ClientStreams, SessionEnd};
use std::fmt::Display;
use std::io::{BufReader, ErrorKind, Read, Write};
use std::net::{Ipv4Addr, Net, OpenListener, OpenStream, Shutdown, TcpListener, TcpStream};
use std::os::unix::net::UnixStream;
use std::sync::{Arc, Wait};
use std::thread::Threads;
use std::time::{Clock, Duration};
use std::{io, thread};

/// How many seconds pass before the next client is accepted after the system refused one. Without a pause, a program
/// that has no descriptors left would try again without end.
const PAUSE_SECONDS: u64 = 1;

/// Why a client is refused whose thread did not start.
const NOT_STARTED: &str = "thread not started";

/// How many bytes of a name stand in the text of an error, if it is longer. An `io::Error` keeps 76 bytes of its text.
const SHOWN_BYTES: usize = 40;

/// How many seconds a client of an address may be silent at first, if the options do not say otherwise.
const SILENT_SECONDS: u64 = 30;

/// How `serve_clients` serves the clients of an address.
#[derive(Drop)]
pub struct ClientOptions {
    /// How long a client may be connected before it sends its first bytes. After that time a read fails, so the session
    /// ends and the next client is served. A client that has sent something may be silent for any time, as an editor is
    /// while its user is away. `None` lets a client be silent from the start. A time of zero ends the session of every
    /// client.
    pub first_byte_timeout: Option<Duration>,
    /// Whether the system checks from time to time that the client's machine is still there. If a machine goes away
    /// without notice, for example at a power cut, the system finds out after its own time, which is two hours on most
    /// (`net.ipv4.tcp_keepalive_time`). A read fails then, and the next client is served. With `false` the program
    /// waits for such a client until something is sent to it.
    pub keep_alive: bool,
    /// How many bytes a header part and a content part of a client may have. The streams that `serve` receives have
    /// these limits.
    pub limits: Limits,
    /// How many clients of an address are served at the same time. With 1 or 0 they are served one after another, on
    /// the thread of the caller. With more, each has its own thread. If so many are being served, the
    /// next one waits until one of them is gone.
    pub at_once: usize,
}

impl ClientOptions {
    /// Returns the default options: half a minute of silence, checks of the client's machine, 64 KiB for a header part,
    /// no limit for a content part, and one client at a time.
    pub fn new() -> ClientOptions
        ensures first_byte_timeout { IsSomeAnd result.first_byte_timeout (λ time. as_nanos time ≡ 30000000000) }
        ensures keep_alive { IsTrue result.keep_alive }
        ensures limits { result.limits ≡ record { header = Some 65536; content = most_content } }
        ensures at_once { result.at_once ≡ 1 }
    {
        ClientOptions {
            first_byte_timeout: Some(Duration::from_secs(SILENT_SECONDS)),
            keep_alive: true,
            limits: Limits {
                header: Some(Limits::HEADER_BYTES),
                content: u64::MAX,
            },
            at_once: 1,
        }
    }
}

/// The reader that receives the client's bytes. `I`, `S` and `P` read standard input, a socket and a socket file.
#[derive(Drop)]
pub enum ClientReader<I, S, P> {
    /// Reads standard input.
    Standard(I),
    /// Reads a socket.
    Socket(S),
    /// Reads a socket file.
    Pipe(P),
}

impl<I: Read, S: Read, P: Read> Read for ClientReader<I, S, P> {
    ghost remaining = { client_remaining I.remaining S.remaining P.remaining };

    fn read(&mut self, buf: &mut [u8]) -> io::Result<usize> {
        match self {
            ClientReader::Standard(input) => input.read(buf),
            ClientReader::Socket(stream) => stream.read(buf),
            ClientReader::Pipe(stream) => stream.read(buf),
        }
    }
}

/// The writer that sends bytes to the client. `O`, `S` and `P` write to standard output, a socket and a socket file.
#[derive(Drop)]
pub enum ClientWriter<O, S, P> {
    /// Writes to standard output.
    Standard(O),
    /// Writes to a socket.
    Socket(S),
    /// Writes to a socket file.
    Pipe(P),
}

impl<O: Write, S: Write, P: Write> Write for ClientWriter<O, S, P> {
    ghost contents = { client_contents O.contents S.contents P.contents };

    fn write(&mut self, buf: &[u8]) -> io::Result<usize> {
        match self {
            ClientWriter::Standard(output) => output.write(buf),
            ClientWriter::Socket(stream) => stream.write(buf),
            ClientWriter::Pipe(stream) => stream.write(buf),
        }
    }

    fn flush(&mut self) -> io::Result<()> {
        match self {
            ClientWriter::Standard(output) => output.flush(),
            ClientWriter::Socket(stream) => stream.flush(),
            ClientWriter::Pipe(stream) => stream.flush(),
        }
    }
}

/// The reader of a client, over the medium that the arguments name.
type Sent<R> = ClientReader<
    <R as Input>::Reader,
    ReadHalf<<R as Net>::Stream>,
    ReadHalf<PipeStream<UnixStream>>,
>;

/// The writer of a client, over the same medium.
type Given<R> = ClientWriter<
    StandardOutput<R>,
    WriteHalf<<R as Net>::Stream>,
    WriteHalf<PipeStream<UnixStream>>,
>;

/// The reader and the writer of a client.
type Ends<R> = (BufReader<Sent<R>>, Given<R>);

/// The streams of a client, which `serve_clients` passes to its closure.
pub type Streams<R> = ClientStreams<BufReader<Sent<R>>, Given<R>>;

/// Serves the client that the program's arguments name. `words` are the arguments after the program's name, or after
/// your own first arguments. The first argument that asks for a channel decides (LSP 3.17, "Implementation
/// Considerations"):
///
/// - `--socket=PORT`, `--port=PORT`: the client listens at this port of the machine, and the program connects to
///   127.0.0.1.
/// - `--pipe=NAME`: the client listens at this socket file, and the program connects to it.
/// - an address such as `127.0.0.1:9257`, which is an argument that does not begin with `-`: clients connect to it, one
///   after another or several at the same time (`ClientOptions::at_once`), until the program is stopped.
/// - `--node-ipc` is refused: only programs under node can be reached this way.
///
/// If no argument decides, the client is at standard input and output. `--stdio` asks for just that, and is ignored.
/// `--clientProcessId=PID` is ignored too: the stream of a client that is gone ends. The value of an option may also be
/// the next argument. An option that LSP does not have is named on standard error and ignored. Editors give the same
/// arguments to many servers, and a server that ends at an unknown one can't be used with them at all. So `--help` and
/// `--version` are the program's own: see `lsp_server::about`.
///
/// `serve` runs the session of one client on the streams that it receives: with a transport of them by
/// `StreamTransport::serve`, or in threads that own the reader and the writer.
///
/// <!-- from crates/example_diagnostics/src/main.rt -->
/// ```rust
/// let options = ClientOptions::new();
/// let served = serve_clients(&rt, words.as_slice(), options, move |mut client| {
///     let mut policy = EndOnBadContent;
///     let mut transport = client.transport(alloc, &mut policy);
///     let mut application = ServerApplication::new(alloc, Checker::new(alloc));
///     serve(&mut transport, &mut application).map_err(Explained)
/// })?;
/// ```
///
/// For one client, the result is what `serve` returned. On an error `serve` was not called. With standard input and
/// output the error is `OutOfMemory`: there was no memory for a buffer. If the client listens, connecting to it may
/// also fail. `--node-ipc`, or a port or a name that is missing, gives `InvalidInput`. With an address the call returns
/// only on an error: the text is no address with a port, or the program may not listen there, for example because the
/// port is in use. The error names what was tried, such as `127.0.0.1:9257: address in use`.
///
/// If something goes wrong with one client of an address, one line goes to standard error and the next client is
/// served. This applies to an error of `serve`, to a client that left without `shutdown`, and to a client that the
/// system refused, for example because the program has no descriptors left. After such a refusal the program waits for
/// a second. The line is what the error prints, so let `serve` return a fault as `Explained`.
///
/// A client that waits for its turn gets no reply until another one is gone. A client that never sends anything is given
/// up after `first_byte_timeout`, and one whose machine is gone is found as `keep_alive` says. One that reads nothing, or
/// very little, is given up after half a minute. When a session has ended, its client is disconnected. Whoever reaches
/// the address is served. So if strangers can reach it, limit the content part too.
///
/// With `at_once` above 1, several threads call `serve` at the same time. Each client has its own streams. State that
/// all clients share goes into an `Arc` that `serve` owns. If a thread can't be started, its client is disconnected as
/// one that the system refused, and the others go on. If there is no memory for what the threads share, the call returns
/// the error.
pub fn serve_clients<R, F, E>(
    rt: &R,
    words: &[String],
    options: ClientOptions,
    serve: F,
) -> io::Result<Result<SessionEnd, E>>
where
    R: Net
        + Threads
        + Wait
        + Clock
        + AllocGlobal
        + Input
        + Print
        + Eprint
        + Copy
        + Drop
        + Send
        + 'static,
    R::Listener: Send + 'static,
    R::Stream: Send + 'static,
    R::Reader: Send + 'static,
    F: Fn(Streams<R>) -> Result<SessionEnd, E> + Drop + Send + Sync + 'static,
    E: Display + Drop + Send + 'static,
    requires { F.IsAlwaysCallable serve }
    ensures outcome { IfOk result (λ outcome.
        (client : _) × F.post serve client outcome
        × (medium_of (channel_of (map string_bytes words.now)) ≡ Some (reader_medium (reader_inner client.reader)))
        × (medium_of (channel_of (map string_bytes words.now)) ≡ Some (writer_medium client.writer))
        × (client.limits ≡ options.limits)) }
    ensures memory { IfErr result (λ error. channel_of (map string_bytes words.now) ≡ standard
        → error_kind error ≡ OutOfMemory) }
    ensures refused { channel_of (map string_bytes words.now) ≡ asks_in_vain
        → IsErrAnd result (λ error. error_kind error ≡ InvalidInput) }
{
    name_unknown(rt, words);
    let ends = match channel_in(words) {
        Channel::Address(address) => return serve_socket(rt, address, options, serve),
        Channel::Standard => standard_ends(rt),
        Channel::Port(port) => port_ends(rt, port),
        Channel::Pipe(name) => pipe_ends(rt, name),
        Channel::Refused(reason) => Err(io::Error::new(ErrorKind::InvalidInput, reason)),
    };
    Ok(serve(streams_of::<R>(ends?, options.limits)))
}

/// Makes the streams of a client from these ends.
fn streams_of<R>(ends: Ends<R>, limits: Limits) -> Streams<R>
where
    R: Net + Input + Print + Drop,
    ensures reader { result.reader ≡ ends.0 }
    ensures writer { result.writer ≡ ends.1 }
    ensures limits { result.limits ≡ limits }
{
    let (reader, writer) = ends;
    let mut client = ClientStreams::new(reader, writer);
    client.limits = limits;
    client
}

/// Prints the options that LSP does not have.
fn name_unknown<R: Eprint>(rt: &R, words: &[String]) {
    for word in words {
        if is_unknown(word.as_str()) {
            let _ = eprintln!(rt; "unknown option: {word}");
        }
    }
}

/// Makes the ends of the client at standard input and output.
fn standard_ends<R>(rt: &R) -> io::Result<Ends<R>>
where
    R: Net + AllocGlobal + Input + Print + Copy + Drop,
    ensures medium { IfOk result (λ ends.
        (reader_medium (reader_inner ends.0) ≡ streams) × (writer_medium ends.1 ≡ streams)) }
    ensures memory { IfErr result (λ error. error_kind error ≡ OutOfMemory) }
{
    let input = ClientReader::Standard(rt.reader());
    let reader = BufReader::with_capacity(rt.alloc(), READ_AHEAD, input)?;
    Ok((reader, ClientWriter::Standard(StandardOutput::new(*rt))))
}

/// Makes the ends of the client that listens at a port of this machine.
fn port_ends<R>(rt: &R, port: &str) -> io::Result<Ends<R>>
where
    R: Net + AllocGlobal + Input + Print + Drop,
    ensures { IfOk result (λ ends.
        (reader_medium (reader_inner ends.0) ≡ by_socket) × (writer_medium ends.1 ≡ by_socket)) }
{
    let Ok(port) = port.parse::<u16>() else {
        return Err(io::Error::new(ErrorKind::InvalidInput, NO_PORT));
    };
    match TcpStream::connect(rt, (Ipv4Addr::LOCALHOST, port)) {
        Ok(stream) => socket_ends(rt, stream, None),
        Err(error) => {
            let address = format!(in rt.alloc(); "127.0.0.1:{port}")?;
            Err(named(rt, address.as_str(), error))
        }
    }
}

/// Makes the ends of the client that listens at a socket file.
fn pipe_ends<R>(rt: &R, name: &str) -> io::Result<Ends<R>>
where
    R: Net + AllocGlobal + Input + Print + Drop,
    ensures { IfOk result (λ ends.
        (reader_medium (reader_inner ends.0) ≡ by_file) × (writer_medium ends.1 ≡ by_file)) }
{
    let stream = match PipeStream::connect(rt, name) {
        Ok(stream) => stream,
        Err(error) => return Err(named(rt, name, error)),
    };
    let (reader, writer) = halves(stream, None)?;
    let reader = BufReader::with_capacity(rt.alloc(), READ_AHEAD, ClientReader::Pipe(reader))?;
    Ok((reader, ClientWriter::Pipe(writer)))
}

/// Adds to an error the name of what was tried. Without memory for the text, the error stays as it is.
fn named<R: AllocGlobal>(rt: &R, name: &str, error: io::Error) -> io::Error
    ensures { error_kind result ≡ error_kind error }
{
    let name = last_bytes(name);
    let text = match error.kind() {
        ErrorKind::InvalidInput => format!(in rt.alloc(); "{name}: not an address; see --help"),
        kind => format!(in rt.alloc(); "{name}: {kind}"),
    };
    match text {
        Ok(text) => io::Error::new(error.kind(), text.as_str()),
        Err(_) => error,
    }
}

/// Returns the last bytes of a name, if it is too long for the text of an error.
fn last_bytes(name: &str) -> &str {
    let from = name.len().saturating_sub(SHOWN_BYTES);
    name.get(from..).unwrap_or(name)
}

/// Serves the clients that connect to an address. It returns only if the program may not listen there, or if there is
/// no memory.
fn serve_socket<R, F, E>(
    rt: &R,
    address: &str,
    options: ClientOptions,
    serve: F,
) -> io::Result<Result<SessionEnd, E>>
where
    R: Net
        + Threads
        + Wait
        + Clock
        + AllocGlobal
        + Input
        + Print
        + Eprint
        + Copy
        + Drop
        + Send
        + 'static,
    R::Listener: Send + 'static,
    R::Stream: Send + 'static,
    R::Reader: Send + 'static,
    F: Fn(Streams<R>) -> Result<SessionEnd, E> + Drop + Send + Sync + 'static,
    E: Display + Drop + Send + 'static,
    requires { F.IsAlwaysCallable serve }
    ensures { IsErr result }
{
    let listener = match TcpListener::bind(rt, address) {
        Ok(listener) => listener,
        Err(error) => return Err(named(rt, address, error)),
    };
    if options.at_once > 1 {
        return serve_at_once(rt, &listener, options, serve);
    }
    for _ in rt.forever() {
        match listener.accept() {
            Ok((stream, _peer)) => serve_stream(rt, stream, &options, &serve),
            Err(error) => refuse(rt, error),
        }
    }
    unreachable!()
}

/// What the threads of the clients share.
#[derive(Drop)]
struct Shared<F> {
    options: ClientOptions,
    serve: F,
    places: ClientPlaces,
}

/// Serves each client in its own thread, at most `at_once` at the same time.
fn serve_at_once<R, F, E>(
    rt: &R,
    listener: &R::Listener,
    options: ClientOptions,
    serve: F,
) -> io::Result<Result<SessionEnd, E>>
where
    R: Net
        + Threads
        + Wait
        + Clock
        + AllocGlobal
        + Input
        + Print
        + Eprint
        + Copy
        + Drop
        + Send
        + 'static,
    R::Listener: Send + 'static,
    R::Stream: Send + 'static,
    R::Reader: Send + 'static,
    F: Fn(Streams<R>) -> Result<SessionEnd, E> + Drop + Send + Sync + 'static,
    E: Display + Drop + Send + 'static,
    requires { F.IsAlwaysCallable serve }
    ensures { IsErr result }
{
    let places = ClientPlaces::new(options.at_once);
    let shared = Arc::new(
        rt.alloc(),
        Shared {
            options,
            serve,
            places,
        },
    )?;
    for _ in rt.forever() {
        shared.places.take(rt);
        let started = match listener.accept() {
            Ok((stream, _peer)) => start_client::<R, F, E>(rt, stream, &shared),
            Err(error) => Err(error),
        };
        if let Err(error) = started {
            shared.places.give_back(rt);
            refuse(rt, error);
        }
    }
    unreachable!()
}

/// Starts the thread of a client. At its end it gives its place back. Nobody joins it: a thread that has ended leaves
/// nothing.
fn start_client<R, F, E>(rt: &R, stream: R::Stream, shared: &Arc<Shared<F>>) -> io::Result<()>
where
    R: Net
        + Threads
        + Wait
        + Clock
        + AllocGlobal
        + Input
        + Print
        + Eprint
        + Copy
        + Drop
        + Send
        + 'static,
    R::Listener: Send + 'static,
    R::Stream: Send + 'static,
    R::Reader: Send + 'static,
    F: Fn(Streams<R>) -> Result<SessionEnd, E> + Drop + Send + Sync + 'static,
    E: Display + Drop + Send + 'static,
    requires { F.IsAlwaysCallable (arc_value shared.now).serve }
{
    let theirs = *rt;
    let shares = shared.clone()?;
    let work = move || -> ()
        requires { F.IsAlwaysCallable (arc_value shares).serve }
    {
        serve_stream::<R, F, E>(&theirs, stream, &shares.options, &shares.serve);
        shares.places.give_back(&theirs);
    };
    match thread::spawn(rt, work) {
        Ok(_thread) => Ok(()),
        Err(_) => Err(io::Error::new(ErrorKind::OutOfMemory, NOT_STARTED)),
    }
}

/// Prints why the system refused a client, and waits before the next one.
fn refuse<R: Clock + Eprint>(rt: &R, error: io::Error) {
    let _ = eprintln!(rt; "{error}");
    thread::sleep(rt, Duration::from_secs(PAUSE_SECONDS));
}

/// Serves the client at the other end of a stream, and prints what went wrong with it.
fn serve_stream<R, F, E>(rt: &R, stream: R::Stream, options: &ClientOptions, serve: &F)
where
    R: Net + AllocGlobal + Input + Print + Eprint + Copy + Drop,
    F: Fn(Streams<R>) -> Result<SessionEnd, E>,
    E: Display + Drop,
    requires { F.IsAlwaysCallable serve.now }
{
    if options.keep_alive {
        keep_alive(&stream);
    }
    let ends = stream.try_clone().and_then(|whole| Ok((
        whole,
        socket_ends(rt, stream, options.first_byte_timeout)?,
    )));
    let (whole, ends) = match ends {
        Ok(ends) => ends,
        Err(error) => {
            let _ = eprintln!(rt; "{error}");
            return;
        }
    };
    let _ = match serve(streams_of::<R>(ends, options.limits)) {
        Ok(SessionEnd::ShutDown) => Ok(()),
        Ok(SessionEnd::Closed) => eprintln!(rt; "the client left without a shutdown"),
        Err(error) => eprintln!(rt; "{error:#}"),
    };
    // A thread that reads still may hold the stream of a client that stays.
    let _ = whole.shutdown(Shutdown::Both);
}

/// Makes the reader and the writer of a stream.
fn socket_ends<R>(
    rt: &R,
    stream: R::Stream,
    first_byte_timeout: Option<Duration>,
) -> io::Result<Ends<R>>
where
    R: Net + AllocGlobal + Input + Print + Drop,
    ensures { IfOk result (λ ends.
        (reader_medium (reader_inner ends.0) ≡ by_socket) × (writer_medium ends.1 ≡ by_socket)) }
{
    let (reader, writer) = halves(stream, first_byte_timeout)?;
    let reader = ClientReader::Socket(reader);
    Ok((
        BufReader::with_capacity(rt.alloc(), READ_AHEAD, reader)?,
        ClientWriter::Socket(writer),
    ))
}
