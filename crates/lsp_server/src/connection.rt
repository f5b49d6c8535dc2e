//! A connection of two channels, and the lifecycle of a session over them.
ghost use Rattle.std.specs.Prelude.{◌≡◌, true, IfErr};
ghost use Rattle.lsp_server.specs.IoFault.{is_start_fault};

use crate::io_fault::IoFault;
use crate::io_threads::{CHANNEL_ROOM, IoThreads, start_threads};
use crate::reading::{Bounds, read_all};
use crate::transport::{ChannelInbox, ChannelOutbox};
use crate::unread_weights::{DEFAULT_READ_AHEAD_WEIGHT, UnreadWeights};
use crate::writer_end::WritesChannel;
use crate::writing::write_all;
use crossbeam_channel::{Receiver, Sender, bounded, unbounded};
use lsp_message::{Limits, Message, Request, RequestId};
use lsp_session::{
    CallGate, ProtocolError, finish, finish_within, initialize_result, shutdown, start_within,
};
use serde_json::Value;
use std::alloc::{AllocError, Global};
use std::io::{BufReader, Read, Write};
use std::snapshot::Snapshot;
use std::sync::Wait;
use std::thread::Threads;
use std::time::Clock;

/// How many bytes a reader is asked for at once: as many as a pipe holds.
pub(crate) const READ_AHEAD: usize = 65536;

/// The two channels of one side: one for the messages that it sends, one for those that it receives.
///
/// Make one for standard input and output (`stdio`), for TCP (`connect`, `listen`, `over_stream`), for any reader and
/// writer (`over`), or in memory for tests (`memory`). Then do the handshake with `initialize`, take messages from
/// `receiver`, and pass each request to `handle_shutdown` first (LSP 3.17, "Server lifecycle").
///
/// The calls of the handshake and the shutdown wait for the other side, and may wait for ever. Their errors print one
/// of the texts of `ProtocolError`. A table in `docs/LIFECYCLE.md` lists which message leads to which.
#[derive(Drop)]
pub struct Connection {
    /// Sends messages to the other side.
    pub sender: Sender<Message>,
    /// Receives messages from the other side.
    pub receiver: Receiver<Message>,
}

impl Connection {
    /// Makes two connections, each of which receives what the other sends. Use them for tests. Any number of messages
    /// may wait in between. The error means that an allocation failed.
    pub fn memory(alloc: Global) -> Result<(Connection, Connection), AllocError> {
        let (to_second, from_first) = unbounded(alloc)?;
        let (to_first, from_second) = unbounded(alloc)?;
        let first = Connection {
            sender: to_second,
            receiver: from_second,
        };
        let second = Connection {
            sender: to_first,
            receiver: from_first,
        };
        Ok((first, second))
    }

    /// Makes a connection on any reader and writer, such as the pipes of a child process. If a header part or a content
    /// part is longer than `limits` allow, `IoThreads::join` returns read fault 14 or 12. Messages that were read and
    /// not received weigh at most `DEFAULT_READ_AHEAD_WEIGHT` together.
    ///
    /// The reader gets a buffer here. The writer needs none: the frames of messages that wait together are one write.
    /// The faults are those of `stdio`.
    pub fn over<R, S, W>(
        rt: &R,
        reader: S,
        writer: W,
        limits: Limits,
    ) -> Result<(Connection, IoThreads), IoFault>
    where
        R: Threads + Wait + Clock + AllocGlobal + Copy + Drop + Send + 'static,
        S: Read + Drop + Send + 'static,
        W: Write + Drop + Send + 'static,
        ensures { IfErr result (λ fault. is_start_fault fault ≡ true) }
    {
        Connection::over_within(rt, reader, writer, limits, DEFAULT_READ_AHEAD_WEIGHT)
    }

    /// Does what `over` does, with another bound on unread messages. The messages that were read and not taken from
    /// `receiver` weigh at most `unread` together, in the units of `DEFAULT_READ_AHEAD_WEIGHT`, unless there is only one.
    /// `u64::MAX` is no bound by weight. At most 16 messages wait in any case.
    ///
    /// While too much is unread, the thread that reads does not read on, so the client has to wait. The thread checks
    /// again after a millisecond, later after ten. It goes on once enough was taken. It ends if the connection's
    /// receiver is gone.
    pub fn over_within<R, S, W>(
        rt: &R,
        reader: S,
        writer: W,
        limits: Limits,
        unread: u64,
    ) -> Result<(Connection, IoThreads), IoFault>
    where
        R: Threads + Wait + Clock + AllocGlobal + Copy + Drop + Send + 'static,
        S: Read + Drop + Send + 'static,
        W: Write + Drop + Send + 'static,
        ensures { IfErr result (λ fault. is_start_fault fault ≡ true) }
    {
        let alloc = rt.alloc();
        let Ok(reader) = BufReader::with_capacity(alloc, READ_AHEAD, reader) else {
            return Err(IoFault::Memory);
        };
        let bounds = Bounds {
            limits,
            bound: unread,
            unread: UnreadWeights::new(alloc, CHANNEL_ROOM + 1)?,
        };
        let theirs = *rt;
        let (sender, outgoing) = bounded(alloc, CHANNEL_ROOM)?;
        let promise = WritesChannel {
            channel: Snapshot::of(&outgoing),
        };
        let (receiver, started) = start_threads(
            rt,
            alloc,
            outgoing,
            promise,
            move |incoming, returned| read_all(theirs, alloc, reader, bounds, incoming, returned),
            move |outgoing, written| write_all(theirs, alloc, outgoing, writer, written),
        )?;
        Ok((Connection { sender, receiver }, IoThreads::of(started)))
    }

    /// Waits for the request `initialize`, and returns its id and its params. Use it in place of `initialize` if your
    /// answer depends on the params, or contains more than capabilities:
    ///
    /// <!-- from crates/example_connection/src/main.rt -->
    /// ```rust
    /// let (id, params) = connection.initialize_start(rt).map_err(Explained)?;
    /// let can_be_asked = can_be_asked(&params);
    /// drop(params);
    /// let finished = connection.initialize_finish(rt, id, about(rt.alloc())?);
    /// finished.map_err(Explained)?;
    /// ```
    ///
    /// An earlier request is answered with code -32002, and an earlier notification is dropped. It is an error if
    /// `exit` or a response arrives, if the other side is gone, or if an allocation fails.
    pub fn initialize_start<R: Wait + Clock + AllocGlobal>(
        &self,
        rt: &R,
    ) -> Result<(RequestId, Value), ProtocolError> {
        self.initialize_start_while(rt, || true)
    }

    /// Does what `initialize_start` does, until `running` returns false, which is an error then. It calls `running`
    /// before each wait, and a wait takes at most one second.
    pub fn initialize_start_while<R: Wait + Clock + AllocGlobal, C: Fn() -> bool>(
        &self,
        rt: &R,
        running: C,
    ) -> Result<(RequestId, Value), ProtocolError>
        requires { C.IsAlwaysCallable running }
    {
        let started = start_within(
            rt.alloc(),
            &mut self.inbox(rt),
            &mut self.outbox(rt),
            &mut CallGate { running },
            u64::MAX,
        );
        started.unwrap_or_else(|| Err(ProtocolError::disconnected()))
    }

    /// Sends the result of `initialize`, and waits for the notification `initialized`. For an example see
    /// `initialize_start`.
    ///
    /// It is an error if another message arrives first, if the other side is gone, or if an allocation fails.
    pub fn initialize_finish<R: Wait + Clock + AllocGlobal>(
        &self,
        rt: &R,
        initialize_id: RequestId,
        initialize_result: Value,
    ) -> Result<(), ProtocolError> {
        finish(
            rt.alloc(),
            &mut self.inbox(rt),
            &mut self.outbox(rt),
            initialize_id,
            initialize_result,
        )
    }

    /// Does what `initialize_finish` does, until `running` returns false, which is an error then. The result is sent
    /// before the first call of `running`.
    pub fn initialize_finish_while<R: Wait + Clock + AllocGlobal, C: Fn() -> bool>(
        &self,
        rt: &R,
        initialize_id: RequestId,
        initialize_result: Value,
        running: C,
    ) -> Result<(), ProtocolError>
        requires { C.IsAlwaysCallable running }
    {
        let finished = finish_within(
            rt.alloc(),
            &mut self.inbox(rt),
            &mut self.outbox(rt),
            &mut CallGate { running },
            initialize_id,
            initialize_result,
            u64::MAX,
        );
        finished.unwrap_or_else(|| Err(ProtocolError::disconnected()))
    }

    /// Does the whole handshake: it sends `{"capabilities":<server_capabilities>}`, and returns the params of
    /// `initialize`.
    ///
    /// <!-- from crates/lsp_demo/src/serve.rt -->
    /// ```rust
    /// let capabilities = Value::Object(Map::new(rt.alloc()));
    /// match connection.initialize(rt, capabilities) {
    ///     Ok(_params) => serve_messages(rt, connection),
    ///     Err(error) => ServeEnd::Refused(error),
    /// }
    /// ```
    ///
    /// The errors are those of `initialize_start` and `initialize_finish`.
    pub fn initialize<R: Wait + Clock + AllocGlobal>(
        &self,
        rt: &R,
        server_capabilities: Value,
    ) -> Result<Value, ProtocolError> {
        let (id, params) = self.initialize_start(rt)?;
        let Ok(result) = initialize_result(rt.alloc(), server_capabilities) else {
            return Err(ProtocolError::out_of_memory());
        };
        self.initialize_finish(rt, id, result)?;
        Ok(params)
    }

    /// Does what `initialize` does, until `running` returns false, which is an error then. `running` may read a flag
    /// that another thread sets, for example `|| !stopped.load(Ordering::SeqCst)`. This one counts:
    ///
    /// <!-- from crates/test_live/src/connections.rt -->
    /// ```rust
    /// let running = || {
    ///     signals.tell(Signal::Turns);
    ///     signals.count(Signal::Turns) < last
    /// };
    /// ```
    pub fn initialize_while<R: Wait + Clock + AllocGlobal, C: Fn() -> bool>(
        &self,
        rt: &R,
        server_capabilities: Value,
        running: C,
    ) -> Result<Value, ProtocolError>
        requires { C.IsAlwaysCallable running }
    {
        let (id, params) = self.initialize_start_while(rt, &running)?;
        let Ok(result) = initialize_result(rt.alloc(), server_capabilities) else {
            return Err(ProtocolError::out_of_memory());
        };
        self.initialize_finish_while(rt, id, result, running)?;
        Ok(params)
    }

    /// Answers the request `shutdown` with null, and waits up to 30 seconds for the notification `exit`. Then it
    /// returns `Ok(true)`, and the session is over. For any other request it returns `Ok(false)` at once, and you
    /// answer the request.
    ///
    /// <!-- from crates/example_connection/src/main.rt -->
    /// ```rust
    /// for message in connection.receiver.iter(rt) {
    ///     if let Some(threads) = threads {
    ///         threads.drop_written(rt);
    ///     }
    ///     match message {
    ///         Message::Request(request) => {
    ///             if connection.handle_shutdown(rt, &request).map_err(Explained)? {
    ///                 return Ok(());
    ///             }
    ///             send(rt, connection, Message::from(paths.answer(request)?))?;
    ///         }
    ///         Message::Response(response) => paths.take(response)?,
    ///         Message::Notification(note) => drop(note),
    ///     }
    /// }
    /// ```
    ///
    /// It is an error if another message arrives in place of `exit`, if none arrives in time, if the other side is
    /// gone, or if an allocation fails.
    pub fn handle_shutdown<R: Wait + Clock + AllocGlobal>(
        &self,
        rt: &R,
        req: &Request,
    ) -> Result<bool, ProtocolError> {
        shutdown(rt.alloc(), &mut self.inbox(rt), &mut self.outbox(rt), req)
    }

    fn inbox<'a, R>(&'a self, rt: &'a R) -> ChannelInbox<'a, R> {
        ChannelInbox {
            rt,
            receiver: &self.receiver,
        }
    }

    fn outbox<'a, R>(&'a self, rt: &'a R) -> ChannelOutbox<'a, R> {
        ChannelOutbox {
            rt,
            sender: &self.sender,
        }
    }
}
