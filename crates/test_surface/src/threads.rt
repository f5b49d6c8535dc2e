//! The calls that start threads or use a relay, with their arguments in their order and their results.
ghost use Rattle.std.specs.Prelude.{◌≡◌, ◌<◌, [], None};

use lsp_server::{
    Handler, Parcel, PumpFault, RelayRx, RelayTx, StartFault, Threaded, pump, pump_within, relay,
    run_threads, run_threads_within,
};
use serde_json::Value;
use std::alloc::{AllocError, Global};
use std::io::{BufRead, Write};
use std::sync::Wait;
use std::thread::Threads;

pub fn relay_of(alloc: Global, room: usize) -> Result<(RelayTx, RelayRx), AllocError>
    requires { 0 < room }
{
    relay(alloc, room)
}

pub fn send_end<R: Wait>(tx: &mut RelayTx, rt: &R) -> Result<(), Parcel>
    requires fresh { tx.old.sent ≡ [] }
    requires unplanned { tx.old.source ≡ None }
{
    tx.send(rt, Parcel::End)
}

pub fn take<R: Wait>(rx: &mut RelayRx, rt: &R) -> Option<Parcel> {
    rx.take(rt)
}

// beyond: the sender's end is lent by `&mut`, and is as it was
pub fn settle<R: Wait>(rx: &mut RelayRx, rt: &R, tx: &mut RelayTx) -> Option<Parcel>
    requires { rx.old.relay ≡ tx.old.relay }
{
    rx.settle(rt, tx)
}

pub fn pump_all<T, R, W>(rt: &T, alloc: Global, reader: R, writer: &mut W) -> Result<(), PumpFault>
where
    T: Threads + Wait + Copy + Drop + Send + 'static,
    R: BufRead + Drop + Send + 'static,
    W: Write,
{
    pump(rt, alloc, reader, writer)
}

pub fn pump_up_to<T, R, W>(
    rt: &T,
    alloc: Global,
    reader: R,
    writer: &mut W,
    limit: u64,
) -> Result<(), PumpFault>
where
    T: Threads + Wait + Copy + Drop + Send + 'static,
    R: BufRead + Drop + Send + 'static,
    W: Write,
{
    pump_within(rt, alloc, reader, writer, limit)
}

pub fn serve<T, R, W, H>(
    rt: &T,
    alloc: Global,
    reader: R,
    writer: W,
    capabilities: Value,
    handler: &mut H,
) -> Result<Threaded<W>, StartFault>
where
    T: Threads + Wait + Copy + Drop + Send + 'static,
    R: BufRead + Drop + Send + 'static,
    W: Write + Drop + Send + 'static,
    H: Handler,
{
    run_threads(rt, alloc, reader, writer, capabilities, handler)
}

pub fn serve_up_to<T, R, W, H>(
    rt: &T,
    alloc: Global,
    reader: R,
    writer: W,
    capabilities: Value,
    handler: &mut H,
    limit: u64,
) -> Result<Threaded<W>, StartFault>
where
    T: Threads + Wait + Copy + Drop + Send + 'static,
    R: BufRead + Drop + Send + 'static,
    W: Write + Drop + Send + 'static,
    H: Handler,
{
    run_threads_within(rt, alloc, reader, writer, capabilities, handler, limit)
}
