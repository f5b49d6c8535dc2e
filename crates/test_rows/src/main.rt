//! Runs a table of rows from standard input, and prints below each row its result. `tools/rows/make` writes the table,
//! and the expected output. No row needs a thread, a clock or a socket. A row begins with a word:
//!
//! - `#`: a remark.
//! - `calls`, `serve`, `served`, `woken`, `writes`: the calls on lists (`lists.rt`).
//! - `id`: how an id prints. `values`: a message that is cloned, converted and written. `error`: a response with the
//!   data of an error. `result`: a result that waits as text. `extract`: params that are taken out.
//! - `queues`, `dispatch`, `link`: calls on a state, as steps. `replay`: all steps of a dispatcher at once.
//! - `plain`, `typed`: values that are read and written by a type: one of serde's kinds, or of `lsp_types`. `uri`,
//!   `path`: a path and its URI. `names`: whether a URI names a path. `tokens`: the numbers of semantic tokens.
//!   `offset`: the place of a position that was read. `lines`: the lines of a text, and whether there is one more.
//! - `action`, `change`, `report`, `trace`, `register`: what small calls make of an object: a code action, the change of
//!   semantic tokens, a report of diagnostics, a line of a trace, and the registration of watched files.
//! - `method`: the acts at a message, by LSP's methods. `configuration`: what a client is asked, and what it sends.
//! - `announce`: what a table of features announces. `answer`: what it makes of a request.
//! - `json`, `quoted`, `member`: a text of JSON, the same given as a text of JSON, and a member of what it has, each read
//!   where it stands. `content`, `octets`: a content part, and one by its bytes: the call that it holds.
//! - `text`: the JSON text that steps write. `deep`: a result of nested lists.
//! - `document`: a notification about an open document.
//!
//! If an allocation fails, in a call or in the program, the row has a line `refused: ..`, and is run again. The program
//! ends with status 1 if that fails too, or if it has no memory for the table or for a line.
#![tactic(auto)]

mod boxes;
mod by_method;
mod call_texts;
mod dispatching;
mod documents;
mod forms;
mod json_texts;
mod json_writing;
mod links;
mod lists;
mod many;
mod messages;
mod more_types;
mod own;
mod plain;
mod queues;
mod rows;
mod said;
mod servers;
mod small_calls;
mod stop;
mod tables;
mod typed;
mod types;
mod uris;

use rows::Rows;
use said::Said;
use std::io;
use std::io::Write;
use std::process::ExitCode;
use stop::Stop;

fn main(rt: HostRuntime) -> ExitCode {
    match run(&rt) {
        Ok(()) => ExitCode::SUCCESS,
        Err(stop) => {
            let _ = writeln!(rt.stderr(), "test_rows: {}", stop.text());
            ExitCode::FAILURE
        }
    }
}

fn run<R: Input + Print + AllocGlobal>(rt: &R) -> Result<(), Stop> {
    let alloc = rt.alloc();
    let table = io::read_to_string(alloc, rt.reader())?;
    let mut rows = Rows::new(alloc);
    let printed = print_rows(rt, &mut rows, table.as_str());
    drop(rows);
    printed
}

fn print_rows<R: Print>(rt: &R, rows: &mut Rows, table: &str) -> Result<(), Stop> {
    for line in table.lines() {
        print_row(rt, rows, line)?;
    }
    Ok(())
}

fn print_row<R: Print>(rt: &R, rows: &mut Rows, line: &str) -> Result<(), Stop> {
    rt.println(line)?;
    let said = rows.run(line);
    let printed = print_said(rt, &said);
    drop(said);
    printed
}

fn print_said<R: Print>(rt: &R, said: &Said) -> Result<(), Stop> {
    if said.is_short {
        return Err(Stop::Memory);
    }
    if said.is_unknown {
        return Err(Stop::Table);
    }
    Ok(rt.print(said.text.as_str())?)
}
