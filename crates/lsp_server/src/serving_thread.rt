//! A thread that serves a connection.
ghost use Rattle.std.specs.Prelude.{◌≡◌, IfOk, IfSome};

use crate::connection::Connection;
use crossbeam_channel::{Receiver, Sender};
use lsp_message::Message;
use std::alloc::AllocError;
use std::thread;
use std::thread::{JoinHandle, Promise, PromisedHandle, SpawnError, Threads};

/// A promise that every result keeps.
#[derive(Drop)]
struct Anything;

impl<T> Promise<T> for Anything {
    ghost use Rattle.std.specs.Prelude.{⊤};

    ghost kept_by = { λ _ _. ⊤ };
}

/// Starts a thread that calls `serve` with the runtime and the connection, and returns its handle. The handle's `join`
/// waits for the thread, and returns the result of `serve`.
///
/// <!-- from crates/example_connection/src/client.rt -->
/// ```rust
/// let (client, server) = Connection::memory(rt.alloc())?;
/// let thread = spawn(rt, server, |rt, server| serve(&rt, server, None))?;
/// ```
///
/// It is an error if the system refuses the thread, or if an end of the connection can't be copied. Then `serve` was
/// not called, and the error's `value` is the connection. No clause says that it is this one, since contracts do not
/// see the ends of a channel.
pub fn spawn<R, F, T>(
    rt: &R,
    connection: Connection,
    serve: F,
) -> Result<JoinHandle<T>, SpawnError<Connection>>
where
    R: Threads + Copy + Drop + Send + 'static,
    F: FnOnce(R, Connection) -> T + Drop + Send + 'static,
    T: Drop + Send + 'static,
    requires { F.IsAlwaysCallable serve }
{
    match spawn_with(rt, Anything, connection, serve) {
        Ok(thread) => Ok(thread.forget_promise()),
        Err(refused) => Err(refused),
    }
}

/// Does what `spawn` does, with a promise that each result of `serve` keeps. By the contract of `join`, the result that
/// `join` returns keeps it too.
pub fn spawn_with<R, P, F, T>(
    rt: &R,
    promise: P,
    connection: Connection,
    serve: F,
) -> Result<PromisedHandle<T, P>, SpawnError<Connection>>
where
    R: Threads + Copy + Drop + Send + 'static,
    P: Promise<T> + Drop,
    F: FnOnce(R, Connection) -> T + Drop + Send + 'static,
    T: Drop + Send + 'static,
    requires runs { F.IsAlwaysCallable serve }
    requires keeps { (answer : T) → F.post serve rt.now connection answer
        → P.kept_by promise answer }
    ensures { IfOk result (λ thread. thread.promise ≡ promise) }
{
    let Ok(Connection { sender, receiver }) = another(&connection) else {
        return Err(SpawnError { value: connection });
    };
    let work = move |theirs: R, sender: Sender<Message>, receiver: Receiver<Message>| -> T
        requires { F.IsAlwaysCallable serve }
        ensures { F.post serve theirs (record { sender = sender; receiver = receiver }) result }
    { serve(theirs, Connection { sender, receiver }) };
    match start(rt, promise, sender, receiver, work) {
        Some(thread) => Ok(thread),
        None => Err(SpawnError { value: connection }),
    }
}

/// Makes a second pair of ends of the connection's channels.
fn another(connection: &Connection) -> Result<Connection, AllocError> {
    Ok(Connection {
        sender: connection.sender.clone()?,
        receiver: connection.receiver.clone()?,
    })
}

/// Starts the thread, or gives nothing if the system refuses it.
///
/// It takes the ends of channels that carry any type `M`: the check finds that a thread may own them only if it need
/// not look into what they carry.
fn start<M, R, P, F, T>(
    rt: &R,
    promise: P,
    sender: Sender<M>,
    receiver: Receiver<M>,
    work: F,
) -> Option<PromisedHandle<T, P>>
where
    M: Drop + Send + 'static,
    R: Threads + Copy + Drop + Send + 'static,
    P: Promise<T> + Drop,
    F: FnOnce(R, Sender<M>, Receiver<M>) -> T + Drop + Send + 'static,
    T: Drop + Send + 'static,
    requires runs { F.IsAlwaysCallable work }
    requires keeps { (answer : T) → F.post work rt.now sender receiver answer
        → P.kept_by promise answer }
    ensures { IfSome result (λ thread. thread.promise ≡ promise) }
{
    let theirs = *rt;
    let working = move || -> T
        requires { F.IsAlwaysCallable work }
        ensures { F.post work theirs sender receiver result }
    { work(theirs, sender, receiver) };
    match thread::spawn_with(rt, promise, working) {
        Ok(thread) => Some(thread),
        Err(_) => None,
    }
}
