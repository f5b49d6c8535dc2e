//! The threads of a connection. One reads, one writes, and one drops large messages that were written.
ghost use Rattle.std.specs.Prelude.{◌≡◌, true, IfErr};
ghost use Rattle.lsp_server.specs.IoFault.{is_start_fault, reader_answer};
ghost use Rattle.lsp_server.specs.Joining.{HasEnded, IsEndOf, Joined};

use crate::io_fault::IoFault;
use crate::spent::{Spent, way_to_maker};
use crate::writer_end::{WriterEnd, WritesChannel};
use crate::written::{Returned, Written, channels_of_written, drop_all};
use crossbeam_channel::{Receiver, Sender, bounded};
use lsp_message::Message;
use lsp_session::ReadEnd;
use std::alloc::Global;
use std::sync::Wait;
use std::thread;
use std::thread::{JoinHandle, Promise, PromisedHandle, Threads};

/// How many messages can wait in each of the two channels of a connection. With more room the threads are woken less
/// often. With less room, less memory is used for a peer that reads nothing.
pub const CHANNEL_ROOM: usize = 16;

/// The threads of a connection. If you drop this value, they run on.
#[derive(Drop)]
pub struct IoThreads {
    reader: JoinHandle<Result<(), IoFault>>,
    writer: Writer,
    dropper: JoinHandle<()>,
    spent: Spent<Message>,
}

/// The thread that writes.
#[derive(Drop)]
enum Writer {
    /// The thread may still run.
    Started(PromisedHandle<WriterEnd, WritesChannel>),
    /// The thread has ended with this result.
    Ended(WriterEnd),
}

impl Writer {
    /// Returns the result of the thread. It waits for the thread if that may still run.
    fn join<R: Threads>(self, rt: &R) -> WriterEnd
        ensures { IsEndOf self result }
    {
        match self {
            Writer::Started(thread) => thread.join(rt),
            Writer::Ended(end) => end,
        }
    }
}

impl IoThreads {
    /// Drops messages that were sent and are written by now, at most four. Call it once for each message that your loop
    /// takes, on the thread that makes the replies:
    ///
    /// <!-- from crates/bench/src/drops.rt -->
    /// ```rust
    /// for message in connection.receiver.iter(rt) {
    ///     threads.drop_written(rt);
    ///     match message {
    /// ```
    ///
    /// It changes speed and memory only, and doesn't wait. If one thread makes a reply and another one drops it, both
    /// wait for each other in the C library. After the first call the thread that writes keeps up to four messages that
    /// this side made for the next call. At most one of them has a frame of more than 8,192 bytes. That thread drops the
    /// others itself, and before the first call all of them.
    pub fn drop_written<R: Wait>(&self, rt: &R) {
        self.spent.drop_waiting(rt);
    }

    /// Waits until everything that was sent is written, or until a write failed. It returns the threads, for `join`.
    ///
    /// Drop the connection first; otherwise the call waits for ever. Call it before a program ends without `join`, for
    /// example after an error of the handshake. Otherwise the last replies may be lost. It does not wait for the thread
    /// that reads, so a silent peer can't hold it up.
    pub fn flush<R: Threads>(self, rt: &R) -> IoThreads
        ensures written { HasEnded self.writer result.writer }
        ensures same_reader { result.reader ≡ self.reader }
        ensures same_dropper { result.dropper ≡ self.dropper }
        ensures same_spent { result.spent ≡ self.spent }
    {
        let IoThreads {
            reader,
            writer,
            dropper,
            spent,
        } = self;
        IoThreads {
            reader,
            writer: Writer::Ended(writer.join(rt)),
            dropper,
            spent,
        }
    }

    /// Waits for the threads to end, and returns their fault if there is one. Drop the connection first; otherwise the
    /// call waits for ever.
    ///
    /// - The thread that reads ends after an `exit`, at the end of the input, at a fault, or when a message was read
    ///   and the connection's receiver is gone. Its fault is returned at once, without waiting for the other threads.
    /// - The thread that writes ends when the connection's sender is gone and everything is written, or at a fault.
    pub fn join<R: Threads>(self, rt: &R) -> Result<(), IoFault>
        ensures { Joined self.writer result }
    {
        let IoThreads {
            reader,
            writer,
            dropper,
            spent,
        } = self;
        drop(spent);
        reader.join(rt)?;
        dropper.join(rt);
        writer.join(rt).answer
    }

    /// Makes the value from the threads that were started.
    pub(crate) fn of(started: Started<Message, WriterEnd, WritesChannel>) -> IoThreads {
        let Started {
            reader,
            writer,
            dropper,
            spent,
        } = started;
        IoThreads {
            reader,
            writer: Writer::Started(writer),
            dropper,
            spent,
        }
    }
}

/// Threads that were started, of which the one that writes keeps a promise.
#[derive(Drop)]
pub(crate) struct Started<M: Drop, T: Drop, P: Promise<T>> {
    reader: JoinHandle<Result<(), IoFault>>,
    writer: PromisedHandle<T, P>,
    dropper: JoinHandle<()>,
    spent: Spent<M>,
}

/// Starts the threads of a connection, in the order writer, dropper, reader, and gives the end at which this side
/// receives. No other place starts one. The thread that writes takes from `outgoing`, and keeps the promise.
///
/// A thread that is not started lets go of its ends of the channels, and this call of the others. So those that were
/// started before find their channels closed, and end.
///
/// It carries any type `M`: the check finds that a thread may own the ends of a channel only if it need not look into
/// what the channel carries.
pub(crate) fn start_threads<M, T, P, R, F, G>(
    rt: &R,
    alloc: Global,
    outgoing: Receiver<M>,
    promise: P,
    read: F,
    write: G,
) -> Result<(Receiver<M>, Started<M, T, P>), IoFault>
where
    M: Drop + Send + 'static,
    T: Drop + Send + 'static,
    P: Promise<T> + Drop,
    R: Threads + Wait + Copy + Drop + Send + 'static,
    F: FnOnce(Sender<M>, Returned<M>) -> Result<(), IoFault> + Drop + Send + 'static,
    G: FnOnce(Receiver<M>, Written<M>) -> T + Drop + Send + 'static,
    requires callable { F.IsAlwaysCallable read × G.IsAlwaysCallable write }
    requires keeps { (written : _) (end : T) → G.post write outgoing written end → P.kept_by promise end }
    ensures { IfErr result (λ fault. is_start_fault fault ≡ true) }
{
    let (incoming, receiver) = bounded(alloc, CHANNEL_ROOM)?;
    let (to_maker, spent) = way_to_maker(alloc)?;
    let (written, returned, large) = channels_of_written(alloc, to_maker)?;
    let theirs = *rt;
    let writing = move || -> T
        requires { G.IsAlwaysCallable write }
        ensures { G.post write outgoing written result }
    { write(outgoing, written) };
    let writer = match thread::spawn_with(rt, promise, writing) {
        Ok(writer) => writer,
        Err(_) => return Err(IoFault::Start),
    };
    let dropper = start(rt, move || drop_all(theirs, large))?;
    let reading = move || -> Result<(), IoFault>
        requires { F.IsAlwaysCallable read }
    { read(incoming, returned) };
    let reader = start(rt, reading)?;
    let started = Started {
        reader,
        writer,
        dropper,
        spent,
    };
    Ok((receiver, started))
}

/// Starts a thread.
fn start<R, F, T>(rt: &R, work: F) -> Result<JoinHandle<T>, IoFault>
where
    R: Threads,
    F: FnOnce() -> T + Drop + Send + 'static,
    T: Drop + Send + 'static,
    requires { F.IsAlwaysCallable work }
    ensures { IfErr result (λ fault. is_start_fault fault ≡ true) }
{
    match thread::spawn(rt, work) {
        Ok(thread) => Ok(thread),
        Err(_) => Err(IoFault::Start),
    }
}

/// Returns the result of the thread that reads.
pub(crate) fn reader_end(end: ReadEnd) -> Result<(), IoFault>
    ensures { result ≡ reader_answer end }
{
    match end {
        ReadEnd::Exit | ReadEnd::End => Ok(()),
        ReadEnd::Fault(fault) => Err(IoFault::Read(fault)),
        ReadEnd::Closed => Err(IoFault::Closed),
        ReadEnd::Memory => Err(IoFault::Memory),
    }
}
