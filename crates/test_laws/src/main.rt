//! Laws of the libraries, used on something concrete: each is called by a function that has its premises, and that
//! states what follows.
#![tactic(auto)]

mod acts;
mod at_once;
mod dispatch;
mod documents;
mod endings;
mod jobs;
mod links;
mod messages;
mod queues;
mod sessions;
mod streams;
mod texts;
mod threads;
mod watched;

use anyhow::Result;
use lsp_text::PositionEncoding;
use std::alloc::Global;

/// The messages of a client that asks once, shuts the session down and exits.
const CLIENT: &str =
    "Content-Length: 58\r\n\r\n{\"jsonrpc\":\"2.0\",\"id\":1,\"method\":\"initialize\",\"params\":{}}\
    Content-Length: 52\r\n\r\n{\"jsonrpc\":\"2.0\",\"method\":\"initialized\",\"params\":{}}\
    Content-Length: 54\r\n\r\n{\"jsonrpc\":\"2.0\",\"id\":2,\"method\":\"textDocument/hover\"}\
    Content-Length: 44\r\n\r\n{\"jsonrpc\":\"2.0\",\"id\":3,\"method\":\"shutdown\"}\
    Content-Length: 33\r\n\r\n{\"jsonrpc\":\"2.0\",\"method\":\"exit\"}";

fn main(rt: HostRuntime) -> Result<()> {
    let alloc = rt.alloc();
    let count = texts::bytes_before(alloc, "é😀", 2, PositionEncoding::Utf16)?;
    println!(&rt; "{count} bytes stand before column 2 of é😀")?;
    let (number, text) = messages::print_beside_text(alloc, 92)?;
    println!(&rt; "{number} is no {text}")?;
    show_texts(&rt, alloc)?;
    show_sessions(&rt, alloc)
}

/// Shows two texts that a client has opened.
fn show_texts<R: Print>(rt: &R, alloc: Global) -> Result<()> {
    if let Some(text) = documents::opened_text(alloc, "one")? {
        println!(rt; "a document that is opened with `one` has the text `{text}`")?;
    }
    if let Some(text) = documents::changed_text(alloc)? {
        println!(rt; "once ` two` is added to its end, it has the text `{text}`")?;
    }
    Ok(())
}

/// Shows how two sessions end.
fn show_sessions<R: Print>(rt: &R, alloc: Global) -> Result<()> {
    if watched::shuts_down_quiet(alloc, CLIENT) {
        println!(rt; "a server that answers each request is shut down by its client")?;
    }
    if watched::shuts_down_keeper(alloc, CLIENT) {
        println!(rt; "a server that answers no request is shut down by its client")?;
    }
    Ok(())
}
