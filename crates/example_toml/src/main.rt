//! A language server for TOML, over standard input and output, or over a socket.
//!
//! It keeps each text as the client edits it, a range at a time. Each edit starts a check of the whole text after a
//! pause, in a thread of a pool and in the place of the check before. So nobody waits for a check, and no problems of
//! an older text are shown. What TOML 1.0 does not allow is a warning, unless the user sets `toml.version` to `1.1`.
//!
//! It answers most requests at once, from the outline of a text: hovers, symbols, completions, definitions, formatting,
//! semantic tokens and folding ranges. It answers `toml/text` with the text that it holds. A job answers
//! `workspace/symbol`: it searches all open texts for keys, reports its progress, and can be cancelled.
//!
//! Call it as `example_toml [threads | inline] [--stdio | ADDRESS]`. With an address, such as `127.0.0.1:9257`, it
//! serves the clients that connect there. The first argument chooses where the jobs run:
//!
//! - Without it, jobs run in the threads of a pool, beside the threads that read and write. With an address, two
//!   clients are served at the same time, each with its own server and pool.
//! - `inline`: all runs on one thread, each job at the message that starts it. The output depends on the input alone.
//! - `threads`: the same, with a thread that reads and another that writes.
#![tactic(auto)]

mod features;
mod server;
mod sessions;
mod work;

use anyhow::{Result, bail};
use lsp_server::about::{About, CHANNEL_ARGUMENTS};
use lsp_server::clients::{ClientOptions, serve_clients};
use lsp_server::policies::SkipAndFlag;
use lsp_server::{Explained, SessionEnd, StartFault, ThreadsOutcome};
use server::TomlServer;
use sessions::{InlineServer, serve, serve_in_threads, serve_inline};
use std::alloc::Global;
use std::env;

/// How many clients of an address are served at the same time.
const CLIENTS_AT_ONCE: usize = 2;

/// What `--help` and `--version` print.
const ABOUT: About<'static> = About {
    name: "example_toml",
    version: "0.1",
    purpose: "\
A language server for TOML. If the first argument is `inline`, all runs on one thread; if it is `threads`, the same with a
thread that reads and one that writes. Otherwise jobs run in the threads of a pool.",
    arguments: CHANNEL_ARGUMENTS,
};

fn main(rt: HostRuntime) -> Result<()> {
    let alloc: Global = rt.alloc();
    let arguments: Vec<String> = env::args(&rt)?.skip(1).collect(alloc)?;
    if let Some(text) = ABOUT.asked(arguments.as_slice()) {
        return Ok(print!(&rt; "{text}")?);
    }
    let served = match arguments.as_slice() {
        [mode, rest @ ..] if mode.as_str() == "inline" => {
            serve_clients(&rt, rest, ClientOptions::new(), move |mut client| {
                let mut skipped = SkipAndFlag::new(alloc)?;
                let server = InlineServer::new(alloc, TomlServer::new(alloc, skipped.share()?));
                let mut transport = client.transport(alloc, &mut skipped);
                let (_server, answer) = serve_inline(alloc, &mut transport, server);
                Ok(answer.map_err(Explained)?)
            })
        }
        [mode, rest @ ..] if mode.as_str() == "threads" => {
            serve_clients(&rt, rest, ClientOptions::new(), move |client| {
                let mut skipped = SkipAndFlag::new(alloc)?;
                let server = InlineServer::new(alloc, TomlServer::new(alloc, skipped.share()?));
                end_of(serve_in_threads(&rt, alloc, client, server, &mut skipped))
            })
        }
        arguments => {
            let mut options = ClientOptions::new();
            options.at_once = CLIENTS_AT_ONCE;
            serve_clients(&rt, arguments, options, move |client| {
                let mut skipped = SkipAndFlag::new(alloc)?;
                let server = TomlServer::new(alloc, skipped.share()?);
                end_of(serve(&rt, alloc, client, server, &mut skipped))
            })
        }
    };
    match served?? {
        SessionEnd::ShutDown => Ok(()),
        SessionEnd::Closed => bail!("the client left without a shutdown"),
    }
}

/// How a session in threads ended.
fn end_of<S: Drop, W: Drop>(
    session: (S, Result<ThreadsOutcome<W>, StartFault>),
) -> Result<SessionEnd> {
    let (_server, done) = session;
    Ok(done?.answer.map_err(Explained)?)
}
