//! A whole server on standard input and output that answers requests: it knows how many documents its client has open.
#![tactic(auto)]

ghost use Rattle.serde_json.specs.View.{view};
ghost use Rattle.std.specs.Prelude.{false, IfOk, IfSome};
ghost use Rattle.lsp_server.specs.Frame.{no_limit};
ghost use Rattle.lsp_server.specs.Answered.{AnswersRequests};
ghost use Rattle.lsp_server.specs.EndsWell.{EndsWellBetween};
ghost use Rattle.lsp_server.specs.HandlerSession.{of_handler};
ghost use Rattle.lsp_server.specs.Session.{SessionOut};
ghost use Rattle.lsp_server.specs.SessionBytes.{Gives};
ghost use Rattle.lsp_server.specs.SessionLaws.{Both, KeepsOrder};

use anyhow::{Result, bail};
use lsp_server::about::About;
use lsp_server::laws::endings::session_ends_well;
use lsp_server::laws::sessions::session_answers_requests;
use lsp_server::{
    Explained, Handler, Notification, Request, ResponseError, SessionEnd, SessionFault, session,
};
use serde_json::{Value, json};
use std::alloc::{AllocError, Global};
use std::io::{BufRead, BufReader, Write};
use std::{env, io};

/// The documents of a client.
#[derive(Drop)]
struct Documents {
    alloc: Global,
    /// How many are open.
    open_count: u32,
}

impl Handler for Documents {
    ghost use Rattle.serde_json.specs.Data.{number, unsigned};
    ghost use Rattle.std.specs.Prelude.{◌≡◌, ◌≢◌, ◌+◌, ◌-◌, ◌^◌, min, Ok, codes};

    // A request changes nothing, and the count is told who asks for it. `didOpen` adds one, up to the greatest number that there is, and
    // `didClose` takes one away, down to zero. No other notification changes anything.
    ghost answer_post = { λ old _ method _ outcome new.
        (new ≡ old) × (method ≡ codes "demo/openDocuments"
        → outcome ≡ Ok (number (unsigned old.open_count))) };

    ghost note_post = { λ old method _ new.
        (method ≡ codes "textDocument/didOpen" → new.open_count ≡ min (old.open_count + 1) (2 ^ 32 - 1))
        × (method ≡ codes "textDocument/didClose" → new.open_count ≡ old.open_count - 1)
        × (method ≢ codes "textDocument/didOpen" → method ≢ codes "textDocument/didClose" → new ≡ old) };

    fn answer(&mut self, request: &Request) -> Result<Result<Value, ResponseError>, AllocError> {
        if request.method.as_str() == "demo/openDocuments" {
            return Ok(Ok(Value::from(self.open_count)));
        }
        Ok(Err(ResponseError::method_not_found(self.alloc)?))
    }

    fn note(&mut self, notification: &Notification) -> Result<(), AllocError> {
        match notification.method.as_str() {
            "textDocument/didOpen" => self.open_count = self.open_count.saturating_add(1),
            "textDocument/didClose" => self.open_count = self.open_count.saturating_sub(1),
            _ => {}
        }
        Ok(())
    }
}

/// Serves one client, for every reader that says which bytes it has, such as a slice, and every writer.
///
/// The first clause is the one to read: if the result is `Ok`, the bytes that were taken are frames of the client's
/// messages. The bytes that were written are frames of exactly one reply to each request, under its id, in order, as
/// `Documents` answers it, and of nothing else. The null of `shutdown` is the last.
///
/// The second clause says it of each session, also of one that ends with a fault. The messages keep the order of the
/// lifecycle (LSP 3.17, "Server lifecycle"). If a write or an allocation fails, the bytes are a prefix of these. A
/// session that reads one message and ends with "out of memory" meets both clauses.
///
/// The contract says nothing about standard input. `serve` of `example_diagnostics` has one for every reader.
fn serve<R: BufRead, W: Write>(
    alloc: Global,
    reader: &mut R,
    writer: &mut W,
    capabilities: Value,
    documents: &mut Documents,
) -> Result<SessionEnd, SessionFault>
    ensures ends_well { IfSome (R.remaining reader.old) (λ text. IfOk result (λ end.
        EndsWellBetween ⟦<Documents as Handler>⟧.answer_post ⟦<Documents as Handler>⟧.note_post no_limit
        (view capabilities) documents.old text (R.remaining reader.new) (W.contents writer.old) (W.contents writer.new)
        end documents.new)) }
    ensures session { IfSome (R.remaining reader.old) (λ text.
        Gives no_limit
        (Both (SessionOut (of_handler ⟦<Documents as Handler>⟧.answer_post ⟦<Documents as Handler>⟧.note_post
        (view capabilities)) documents.old documents.new)
        (Both AnswersRequests (KeepsOrder false false)))
        text (R.remaining reader.new) (W.contents writer.old) (W.contents writer.new) result) }
{
    session_ends_well::<Documents>();
    session_answers_requests::<Documents>();
    session(alloc, reader, writer, capabilities, documents)
}

/// What `--help` and `--version` print.
const ABOUT: About<'static> = About {
    name: "example_session",
    version: "0.1",
    purpose: "A language server at standard input and output: it counts the open documents.",
    arguments: "  --help          prints this text; also -h
  --version       prints the version; also -V
",
};

fn main(rt: HostRuntime) -> Result<()> {
    let alloc = rt.alloc();
    let words: Vec<String> = env::args(&rt)?.skip(1).collect(alloc)?;
    if let Some(text) = ABOUT.asked(words.as_slice()) {
        return Ok(print!(&rt; "{text}")?);
    }
    // The client is to notify the server when it opens or closes a document.
    let capabilities = json!(in alloc; { "textDocumentSync": { "openClose": true } })?;
    let mut documents = Documents {
        alloc,
        open_count: 0,
    };
    let mut input = BufReader::new(alloc, rt.reader())?;
    let mut output = io::writer(&rt);
    let served = serve(alloc, &mut input, &mut output, capabilities, &mut documents);
    match served.map_err(Explained)? {
        SessionEnd::ShutDown => Ok(()),
        SessionEnd::Closed => bail!("the client left without a shutdown"),
    }
}
