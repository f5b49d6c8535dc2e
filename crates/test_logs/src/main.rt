//! Laws of logs, used on what a watch sees: each is called by a function that has its premises, and that states what
//! follows.
#![tactic(auto)]

mod logs;

use anyhow::Result;
use lsp_watch::{Direction, LoggedMessage, Watch};
use serde_json::Value;

fn main(rt: HostRuntime) -> Result<()> {
    let alloc = rt.alloc();
    let reply = Value::from_str(alloc, "{\"jsonrpc\":\"2.0\",\"id\":1,\"result\":null}")?;
    let message = LoggedMessage::from_tree(alloc, reply)?;
    let mut watch = Watch::new(alloc);
    let found = logs::observe(&mut watch, 1, Direction::ToClient, &message)?;
    Ok(println!(&rt;
        "{} rule is broken by a reply that nobody asked for",
        found.len()
    )?)
}
