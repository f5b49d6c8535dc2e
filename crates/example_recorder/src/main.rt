//! A recorder that sits between an editor and a language server, and plays a recording again.
//!
//!     example_recorder record LISTEN SERVER FILE    pass all bytes of one session on, and write its messages into the file
//!     example_recorder record - SERVER FILE         the same for an editor that starts programs
//!     example_recorder replay FILE                  write the client's messages of a recording to standard output, as frames
//!     example_recorder replay FILE SERVER           send them to a server, and compare what it answers
//!
//! LISTEN and SERVER are addresses, such as 127.0.0.1:9257, and `-` is standard input and output. A line of a recording is `->` and a
//! content part to the server, or `<-` and one to the client. A space replaces each line end of the content. If the content is no JSON, a
//! vertical tab replaces it, so that the line is no JSON either. While it records, standard error names each line that breaks a rule of
//! `lsp_watch`. The bytes pass unchanged, also if they are no message. A replay to a server ends at a line that is no `Message` of
//! `lsp_server`.
#![tactic(auto)]

mod line;
mod lines;
mod peer;
mod record;
mod replay;

use anyhow::{Error, Result, bail};
use lsp_server::about::About;
use lsp_server::{Connection, Explained};
use peer::{accept, connect, parent};
use record::{Until, record};
use replay::{compare, write_frames};
use std::io::{BufRead, BufReader, BufWriter, Write};
use std::net::Net;
use std::sync::Wait;
use std::thread::Threads;
use std::time::Clock;
use std::{fs, io};

/// What `--help` and `--version` print.
const ABOUT: About<'static> = About {
    name: "example_recorder",
    version: "0.1",
    purpose: "Records the session of an editor and a language server, and plays a recording again.",
    arguments: "  record LISTEN SERVER FILE   records one session into the file
  record - SERVER FILE        the same for an editor that starts programs
  replay FILE                 writes the client's messages, as frames
  replay FILE SERVER          sends them to a server, and compares what it answers
  --help                      prints this text; also -h
  --version                   prints the version; also -V
",
};

fn main(rt: HostRuntime) -> Result<()> {
    let words: Vec<String> = std::env::args(&rt)?.skip(1).collect(rt.alloc())?;
    if let Some(text) = ABOUT.asked(words.as_slice()) {
        return Ok(print!(&rt; "{text}")?);
    }
    match words.as_slice() {
        [word, listen, server, file] if word.as_str() == "record" => {
            let mut log = BufWriter::new(
                rt.alloc(),
                named(file.as_str(), fs::create(&rt, file.as_str()))?,
            )?;
            let recorded = record_session(&rt, listen.as_str(), server.as_str(), &mut log);
            drop(log);
            recorded
        }
        [word, file] if word.as_str() == "replay" => {
            let mut recording = BufReader::new(
                rt.alloc(),
                named(file.as_str(), fs::open(&rt, file.as_str()))?,
            )?;
            write_frames(rt.alloc(), &mut recording, &mut io::writer(&rt))
        }
        [word, file, server] if word.as_str() == "replay" => {
            let mut recording = BufReader::new(
                rt.alloc(),
                named(file.as_str(), fs::open(&rt, file.as_str()))?,
            )?;
            let count = replay_to(&rt, &mut recording, server.as_str())?;
            Ok(println!(rt; "{count} answers, each as recorded")?)
        }
        _ => bail!("usage: example_recorder record LISTEN|- SERVER FILE | replay FILE [SERVER]"),
    }
}

/// Adds the name of a file or an address to the error of a call.
fn named<T>(name: &str, called: io::Result<T>) -> Result<T> {
    match called {
        Ok(it) => Ok(it),
        Err(error) => bail!("{name}: {error}"),
    }
}

/// Records the session of a client and a server.
fn record_session<R, W: Write>(rt: &R, listen: &str, server: &str, log: &mut W) -> Result<()>
where
    R: Net + Threads + Wait + AllocGlobal + Input + Print + Eprint + Copy + Drop + Send + 'static,
    R::Reader: Send + 'static,
    R::Stream: Send + 'static,
{
    match listen {
        "-" => {
            let client = parent(rt);
            let server = named(server, connect(rt, server))?;
            record(rt, client, server, log, Until::ServerCloses)
        }
        addr => {
            let client = named(addr, accept(rt, addr))?;
            let server = named(server, connect(rt, server))?;
            record(rt, client, server, log, Until::BothClose)
        }
    }
}

/// Plays a recording to a server, and returns how many messages of the server were compared.
fn replay_to<R, B: BufRead>(rt: &R, recording: &mut B, server: &str) -> Result<u64>
where
    R: Net + Threads + Wait + Clock + AllocGlobal + Print + Copy + Drop + Send + 'static,
    R::Stream: Send + 'static,
{
    let (connection, threads) = match Connection::connect(rt, server) {
        Ok(ends) => ends,
        Err(fault) => bail!("{server}: {}", Explained(fault)),
    };
    let compared = compare(rt, recording, connection, &mut io::writer(rt));
    let threads = threads.flush(rt);
    if compared.is_err() {
        drop(threads);
        return compared;
    }
    let joined = threads.join(rt).map_err(Explained);
    joined.map_err(Error::from).and(compared)
}
