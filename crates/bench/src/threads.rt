//! What threads cost: the same work on one thread, and on two or three.
use crate::session::Echo;
use crate::speaking::Speaking;
use crate::{Host, session};
use anyhow::{Error, Result};
use lsp_server::policies::EndOnBadContent;
use lsp_server::transports::StandardOutput;
use lsp_server::{
    FrameOutbox, ReadEnd, ServerApplication, ThreadOptions, pump, read_loop, run_in_threads,
    run_threads,
};
use serde_json::{Map, Value};
use std::alloc::Global;
use std::io;
use std::io::{BufRead, Write};

/// Passes messages on with one thread.
pub fn pass_on<R: BufRead, W: Write>(alloc: Global, reader: &mut R, writer: &mut W) -> Result<()> {
    match read_loop(alloc, reader, &mut FrameOutbox::new(alloc, writer)) {
        ReadEnd::Exit | ReadEnd::End => Ok(()),
        ReadEnd::Fault(fault) => Err(Error::from(fault)),
        ReadEnd::Closed | ReadEnd::Memory => Err(Error::msg("a message was not written")),
    }
}

/// Passes messages on with two threads.
pub fn pump_on<T, R>(rt: &T, alloc: Global, reader: R) -> Result<()>
where
    T: Host,
    R: BufRead + Drop + Send + 'static,
{
    Ok(pump(rt, alloc, reader, &mut io::writer(rt))?)
}

/// Runs a whole session on three threads.
pub fn serve<T, R>(rt: &T, alloc: Global, reader: R, echo: Echo) -> Result<()>
where
    T: Host,
    R: BufRead + Drop + Send + 'static,
{
    let capabilities = Value::Object(Map::new(alloc));
    let mut echo = echo;
    let done = run_threads(
        rt,
        alloc,
        reader,
        StandardOutput::new(*rt),
        capabilities,
        &mut echo,
    );
    drop(echo);
    session::ended(done?.answer)
}

/// Runs the same with a `Server`.
pub fn serve_speaking<T, R>(rt: &T, alloc: Global, reader: R) -> Result<()>
where
    T: Host,
    R: BufRead + Drop + Send + 'static,
{
    let speaking = Speaking {
        alloc,
        is_null: false,
    };
    let mut application = ServerApplication::new(alloc, speaking);
    let done = run_in_threads(
        rt,
        alloc,
        reader,
        StandardOutput::new(*rt),
        &mut application,
        &mut EndOnBadContent,
        ThreadOptions::new(),
    );
    session::ended(done?.answer)
}
