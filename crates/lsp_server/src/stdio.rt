//! A connection over standard input and output.
ghost use Rattle.std.specs.Prelude.{◌≡◌, true, IfErr};
ghost use Rattle.lsp_server.specs.IoFault.{is_start_fault};

use crate::connection::Connection;
use crate::io_fault::IoFault;
use crate::io_threads::IoThreads;
use lsp_message::Limits;
use std::io;
use std::io::Write;
use std::sync::Wait;
use std::thread::Threads;
use std::time::Clock;

impl Connection {
    /// Makes a connection on standard input and output, for a server that an editor starts:
    ///
    /// <!-- from crates/example_connection/src/main.rt -->
    /// ```rust
    /// let (connection, threads) = Connection::stdio(&rt).map_err(Explained)?;
    /// let served = serve(&rt, connection, Some(&threads));
    /// let threads = threads.flush(&rt);
    /// served?;
    /// threads.join(&rt).map_err(Explained)?;
    /// ```
    ///
    /// The fault is `Start` if a thread was not started, and `Memory` if an allocation failed.
    pub fn stdio<R>(rt: &R) -> Result<(Connection, IoThreads), IoFault>
    where
        R: Threads + Wait + Clock + AllocGlobal + Input + Print + Copy + Drop + Send + 'static,
        R::Reader: Send + 'static,
        ensures { IfErr result (λ fault. is_start_fault fault ≡ true) }
    {
        Connection::stdio_within(rt, Limits::none())
    }

    /// Does what `stdio` does, with limits on a header part and a content part (LSP 3.17, "Base Protocol"). After a
    /// longer content part, `IoThreads::join` returns read fault 12; after a longer header part, read fault 14.
    pub fn stdio_within<R>(rt: &R, limits: Limits) -> Result<(Connection, IoThreads), IoFault>
    where
        R: Threads + Wait + Clock + AllocGlobal + Input + Print + Copy + Drop + Send + 'static,
        R::Reader: Send + 'static,
        ensures { IfErr result (λ fault. is_start_fault fault ≡ true) }
    {
        Connection::over(rt, rt.reader(), StandardOutput::new(*rt), limits)
    }
}

/// Standard output as a writer that a thread may own, for example for `run_threads` and `Connection::over`.
///
/// It keeps no bytes back, so a flush has nothing to write. No contract says what a terminal or a pipe does with the
/// bytes.
#[derive(Drop)]
pub struct StandardOutput<R>(R);

impl<R: Print> StandardOutput<R> {
    /// Makes the standard output of a runtime, for example `StandardOutput::new(rt)` in `main`.
    pub fn new(rt: R) -> StandardOutput<R>
        ensures { result.0 ≡ rt }
    {
        StandardOutput(rt)
    }
}

impl<R: Print> Write for StandardOutput<R> {
    fn write(&mut self, buf: &[u8]) -> io::Result<usize> {
        io::writer(&self.0).write(buf)
    }

    fn flush(&mut self) -> io::Result<()> {
        io::writer(&self.0).flush()
    }
}
