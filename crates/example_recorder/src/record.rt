// The recorder: a thread for each direction, and a log of the bytes that both pass on.
use crate::lines::write_lines;
use crate::peer::Peer;
use anyhow::Result;
use crossbeam_channel::bounded;
use lsp_proxy::{Ended, Teller, pass_on};
use lsp_watch::Direction;
use std::io::{self, Read, Write};
use std::sync::Wait;
use std::thread::{Builder, JoinHandle, Threads};

/// How many pieces may wait for the log. Beyond these the bytes that pass wait too.
const ROOM: usize = 1024;

/// When a recording is over.
#[derive(Clone, Copy)]
pub enum Until {
    /// Both sides have closed.
    BothClose,
    /// The server has closed. A client that reads standard output learns of it only when the program ends, so its further bytes are
    /// dropped.
    ServerCloses,
}

/// Passes the bytes of a client and a server on to each other, and writes a line for each content part, until the recording is over.
///
/// The bytes pass unchanged, whatever they are. A piece of them goes to the log before it is sent on, so a reply never stands before its
/// request. Each direction ends by itself: when a side has closed, the rest of its bytes is passed on, and then the other side reads the
/// end. So nothing is lost, also if one side closes first. Bytes to a side that is gone are only logged.
pub fn record<R, F, T, G, U, W: Write>(
    rt: &R,
    client: Peer<F, T>,
    server: Peer<G, U>,
    log: &mut W,
    until: Until,
) -> Result<()>
where
    R: Threads + Wait + AllocGlobal + Eprint + Copy + Drop + Send + 'static,
    F: Read + Drop + Send + 'static,
    T: Write + Drop + Send + 'static,
    G: Read + Drop + Send + 'static,
    U: Write + Drop + Send + 'static,
{
    let (sender, heard) = bounded(rt.alloc(), ROOM)?;
    let upward = Teller::new(*rt, Direction::ToServer, sender.clone()?);
    let downward = Teller::new(*rt, Direction::ToClient, sender);
    let upward = start(rt, upward, client.reader, server.writer)?;
    let downward = start(rt, downward, server.reader, client.writer)?;
    write_lines(rt, &heard, log, until)?;
    downward.join(rt);
    match until {
        Until::BothClose => upward.join(rt),
        Until::ServerCloses => drop(upward),
    }
    Ok(())
}

/// Starts a thread that passes on the bytes of one side.
fn start<R, F, T>(rt: &R, tell: Teller<R>, from: F, to: T) -> io::Result<JoinHandle<()>>
where
    R: Threads + Wait + AllocGlobal + Copy + Drop + Send + 'static,
    F: Read + Drop + Send + 'static,
    T: Write + Drop + Send + 'static,
{
    Builder::new().spawn(rt, move || pass_direction(tell, from, to))
}

/// Passes on the bytes of one side, up to their end. If the other side is gone, the rest is only logged.
fn pass_direction<R, F, T>(tell: Teller<R>, from: F, to: T)
where
    R: Wait + AllocGlobal + Drop,
    F: Read + Drop,
    T: Write + Drop,
{
    let (mut tell, mut from, mut to) = (tell, from, to);
    if let Ended::Unwritten = pass_on(&mut tell, &mut from, &mut to) {
        pass_on(&mut tell, &mut from, &mut io::sink());
    }
    drop(to);
    tell.end();
}
