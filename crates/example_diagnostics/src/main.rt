//! A language server with LSP's types: `example_diagnostics [--stdio | ADDRESS]`, on standard input and output, or on a
//! socket, where it serves one client after another.
//!
//! It keeps each text as the client edits it, a range at a time, and marks the lines that are too long. A hover says
//! how long a line is. A definition leads to the heading above a line (`# ..`). The server asks its client how long a
//! line may be, if the client can be asked (`workspace/configuration`, section `lines`, a number; 80 if there is none).
//! Hovers wait until the answer arrives, so they can be cancelled.
#![tactic(auto)]

ghost use Rattle.std.specs.Prelude.{[], IfOk};
ghost use Rattle.lsp_session.specs.ActBytes.{SkipsNothing};
ghost use Rattle.lsp_session.specs.EndsWell.{all_given, all_taken};
ghost use Rattle.lsp_session.specs.StreamTransports.{IsUnused, Serves};
ghost use Rattle.lsp_session.specs.Transcripts.{notes_of};
ghost use Rattle.lsp_acts.specs.ServerApplication.{ServerSession};
ghost use Rattle.lsp_acts.specs.ServerEndsWell.{ServerEndsWell};

use anyhow::{Result as Answer, bail};
use lsp_acts::cancelled_id;
use lsp_documents::{DocumentUpdate, SyncOptions, TextDocuments, UpdateFault};
use lsp_features::{Answers, announce, dispatch, dispatch_ref};
use lsp_methods::{Configuration, from_value, publish};
use lsp_server::about::{About, CHANNEL_ARGUMENTS};
use lsp_server::calls::{CallRef, NotificationRef};
use lsp_server::clients::{ClientOptions, serve_clients};
use lsp_server::laws::policies::nothing_is_skipped;
use lsp_server::laws::server_session_ends_well;
use lsp_server::policies::{BadContentPolicy, EndOnBadContent};
use lsp_server::{
    Act, Explained, Notification, Request, ResponseError, Server, ServerApplication, SessionEnd,
    SessionFault, StreamTransport,
};
use lsp_text::{Text, TextDocument};
use lsp_types::methods::{DefinitionRequest, HoverRequest};
use lsp_types::{
    DefinitionParams, DefinitionResult, Diagnostic, DiagnosticSeverity, Hover, HoverParams,
    InitializeParams, InitializeResult, Location, MarkupKind, MessageType, Position, Range,
    ServerCapabilities, ToJson,
};
use serde_json::Value;
use std::alloc::{AllocError, Global};
use std::io::{BufRead, Write};
use std::{env, mem};

/// The server: the texts and the longest line that is allowed, and the hovers that wait.
#[derive(Drop)]
struct Checker {
    alloc: Global,
    /// How many characters a line may have.
    longest: Configuration<u32>,
    /// Whether the client was asked, and has not answered yet.
    is_asking: bool,
    documents: TextDocuments,
    /// The last log line about a notification that was not applied.
    complaint: String,
    /// The hovers that wait for the configuration.
    waiting: Vec<Request>,
}

/// What a request of the server was for.
#[derive(Drop, PartialEq)]
enum Asked {
    Configuration,
}

type Acts = Vec<Act<Asked>>;

/// The methods that the server announces and answers.
type Features = (HoverRequest, (DefinitionRequest, ()));

impl Server for Checker {
    ghost use Rattle.std.specs.Prelude.{◌≡◌, ◌≢◌, ◌∷◌, [], Err, codes};
    ghost use Rattle.lsp_message.specs.Converted.{method_not_found};
    ghost use Rattle.lsp_acts.specs.Acts.{replies};

    // A request changes no document. One that is neither a hover nor a definition gets the error -32601 alone.
    ghost request_post = { λ old id method _ acts new.
        (new.documents ≡ old.documents)
        × (method ≢ codes "textDocument/hover" → method ≢ codes "textDocument/definition"
        → acts ≡ replies id (Err method_not_found) ∷ []) };

    type PendingData = Asked;

    fn initialize(&mut self, params: Value) -> Result<Result<Value, ResponseError>, AllocError> {
        let params = match from_value::<InitializeParams>(self.alloc, &params)? {
            Ok(params) => params,
            Err(error) => return Ok(Err(error)),
        };
        let can = self.agree(&params)?;
        let result = InitializeResult::new(self.alloc, can, "lines")?;
        Ok(Ok(result.to_json(self.alloc)?))
    }

    fn initialized(&mut self) -> Result<Acts, AllocError> {
        match self.longest.send_request(self.alloc, Asked::Configuration)? {
            Some(asks) => {
                let acts = Act::one(self.alloc, asks)?;
                self.is_asking = true;
                Ok(acts)
            }
            None => Ok(Vec::new(self.alloc)),
        }
    }

    fn reads_calls(&self) -> bool {
        true
    }

    // What a call needs no tree for is answered here. A hover that has to wait is kept by `request`.
    fn call(&mut self, call: &CallRef<'_>) -> Result<Option<Acts>, AllocError> {
        match call {
            CallRef::Request(request) if self.is_asking && request.method == HoverRequest::METHOD =>
                { Ok(None) }
            CallRef::Request(request) => dispatch_ref::<Features, _, _>(self.alloc, self, request),
            CallRef::Notification(notification) => {
                let mut acts = Vec::new(self.alloc);
                self.note(notification, &mut acts)?;
                Ok(Some(acts))
            }
        }
    }

    fn request(&mut self, request: Request) -> Result<Acts, AllocError> {
        let alloc = self.alloc;
        if self.is_asking && request.method.as_str() == HoverRequest::METHOD {
            self.waiting.push(request)?;
            return Ok(Vec::new(alloc));
        }
        match dispatch::<Features, _, _>(alloc, self, request)? {
            Ok(acts) => Ok(acts),
            Err(request) => Act::one(alloc, Act::method_not_found(alloc, request.id)?),
        }
    }

    fn notification(&mut self, notification: Notification) -> Result<Acts, AllocError> {
        // The session answers a request that its client cancels. A later reply of the server would answer a new request with this id.
        if let Some(id) = cancelled_id(&notification)? {
            self.waiting.retain(|it| it.id != id);
        }
        let mut acts = Vec::new(self.alloc);
        self.note(&NotificationRef::of(&notification), &mut acts)?;
        Ok(acts)
    }

    fn response(
        &mut self,
        asked: Asked,
        outcome: Result<Value, ResponseError>,
    ) -> Result<Acts, AllocError> {
        let Asked::Configuration = asked;
        self.is_asking = false;
        self.longest.take_reply(self.alloc, outcome)?;
        let mut acts = Vec::new(self.alloc);
        self.mark_all(&mut acts)?;
        self.answer_waiting(&mut acts)?;
        Ok(acts)
    }

    fn woken(&mut self, alloc: Global) -> Result<Acts, AllocError> {
        Ok(Vec::new(alloc))
    }

    fn shutdown(&mut self, alloc: Global) -> Result<Vec<Act<Asked>>, AllocError> {
        Ok(Vec::new(alloc))
    }

    fn ids_exhausted(&mut self, _asked: Asked) -> Result<(), AllocError> {
        self.is_asking = false;
        Ok(())
    }
}

impl Checker {
    fn new(alloc: Global) -> Checker {
        Checker {
            alloc,
            longest: Configuration::new("lines", 80),
            is_asking: false,
            documents: TextDocuments::new(alloc, SyncOptions::defaults()),
            complaint: String::new(alloc),
            waiting: Vec::new(alloc),
        }
    }

    /// Agrees with the client on how its texts are sent, and returns what the server can do, which announces it.
    fn agree(&mut self, params: &InitializeParams) -> Result<ServerCapabilities, AllocError> {
        let client = &params.capabilities;
        self.longest.read_capabilities(client);
        let features = announce::<Features, _>(self.alloc, self)?;
        let (sync, mut can) = SyncOptions::with_capabilities(self.alloc, client, false)?;
        self.documents = TextDocuments::new(self.alloc, sync);
        can.more = Some(features);
        Ok(can)
    }

    /// Adds the acts after a notification.
    fn note(
        &mut self,
        notification: &NotificationRef<'_>,
        acts: &mut Acts,
    ) -> Result<(), AllocError> {
        match self.documents.apply_ref(notification) {
            Some(Ok(update)) => self.follow(update, acts),
            Some(Err(missed)) => self.complain(missed.or_out_of_memory()?, acts),
            None => Ok(()),
        }
    }

    /// Adds the acts after a notification that was applied: the remark about it, and which lines are too long.
    fn follow(&self, update: DocumentUpdate<'_>, acts: &mut Acts) -> Result<(), AllocError> {
        if update.warning.is_some() {
            let line = format!(in self.alloc; "{update}")?;
            acts.push(Act::log_message(self.alloc, MessageType::WARNING, line.as_str())?)?;
        }
        self.mark(acts, update.uri, self.documents.get(update.uri))
    }

    /// Adds the acts after a notification that was not applied: the reason, but not again at each keystroke, and no
    /// marks for a text that is lost now. If no URI is named, each text may be lost.
    fn complain(&mut self, missed: UpdateFault<'_>, acts: &mut Acts) -> Result<(), AllocError> {
        let line = format!(in self.alloc; "{missed}")?;
        if missed.lost || line.as_str() != self.complaint.as_str() {
            acts.push(Act::log_message(self.alloc, MessageType::ERROR, line.as_str())?)?;
        }
        self.complaint = line;
        match missed.uri {
            None => self.mark_all(acts),
            Some(uri) if missed.lost => self.mark(acts, uri, None),
            Some(_) => Ok(()),
        }
    }

    fn mark_all(&self, acts: &mut Acts) -> Result<(), AllocError> {
        for (uri, kept) in self.documents.iter() {
            self.mark(acts, uri.as_str(), kept.document())?;
        }
        Ok(())
    }

    fn answer_waiting(&mut self, acts: &mut Acts) -> Result<(), AllocError> {
        for request in mem::replace(&mut self.waiting, Vec::new(self.alloc)) {
            acts.append(&mut self.request(request)?)?;
        }
        Ok(())
    }

    /// Shows which lines of a document are too long: none, if it is closed or its text is lost.
    fn mark(
        &self,
        acts: &mut Acts,
        uri: &str,
        document: Option<&TextDocument>,
    ) -> Result<(), AllocError> {
        let version = document.and_then(|document| document.version());
        let found = match document {
            Some(document) => long_lines(self.alloc, document.text(), self.longest.value)?,
            None => Vec::new(self.alloc),
        };
        acts.push(publish(self.alloc, uri, version, found)?)?;
        Ok(())
    }
}

impl Answers<HoverRequest> for Checker {
    ghost use Rattle.std.specs.Prelude.{◌≡◌};

    // A hover changes nothing.
    ghost answers = { λ old _ _ new. new ≡ old };

    /// Returns how long a line is.
    fn answer(&mut self, params: HoverParams) -> Result<Option<Hover>, AllocError> {
        let Some(document) = self.documents.get(params.text_document.uri.as_str()) else {
            return Ok(None);
        };
        let Some(line) = document.text().line(params.position.line) else {
            return Ok(None);
        };
        let length = line.chars().count();
        let text = format!(in self.alloc; "{length} of {} characters", self.longest.value)?;
        Ok(Some(Hover::new(MarkupKind::PlainText, text)))
    }
}

impl Answers<DefinitionRequest> for Checker {
    ghost use Rattle.std.specs.Prelude.{◌≡◌};

    // A definition changes nothing.
    ghost answers = { λ old _ _ new. new ≡ old };

    /// Returns the heading above a line.
    fn answer(&mut self, params: DefinitionParams) -> Result<Option<DefinitionResult>, AllocError> {
        let uri = params.text_document.uri.as_str();
        let Some(document) = self.documents.get(uri) else {
            return Ok(None);
        };
        let Some(line) = heading_above(document.text(), params.position.line) else {
            return Ok(None);
        };
        let start = Position::new(line, 0);
        Ok(Some(DefinitionResult::One(Location {
            uri: String::from_str(self.alloc, uri)?,
            range: Range::new(start, start),
        })))
    }
}

/// Returns a warning for each line with more characters than are allowed.
fn long_lines(alloc: Global, text: &Text, longest: u32) -> Result<Vec<Diagnostic>, AllocError> {
    let mut found = Vec::new(alloc);
    for number in 0..u32::MAX {
        let Some(line) = text.line(number) else {
            break;
        };
        // A line has no more characters than bytes.
        if line.len() > longest as usize && line.chars().count() > longest as usize {
            let range = Range::new(Position::new(number, 0), Position::new(number + 1, 0));
            let message = format!(in alloc; "longer than {longest} characters")?;
            found.push(Diagnostic::new(range, DiagnosticSeverity::WARNING, message))?;
        }
    }
    Ok(found)
}

/// Returns the last line up to this one that is a heading.
fn heading_above(text: &Text, line: u32) -> Option<u32> {
    let mut heading = None;
    for number in 0..=line {
        let Some(words) = text.line(number) else {
            break;
        };
        if words.starts_with("# ") {
            heading = Some(number);
        }
    }
    heading
}

/// Serves the client of a transport. This holds for every reader and writer, also for standard input and output or a
/// socket.
///
/// The first clause is the one to read: if the result is `Ok`, the bytes that were taken are frames of the client's
/// messages, and those that were given are frames of the server's messages. Under no id are there more replies than
/// requests. After a `shutdown`, each request whose id was used once has exactly one reply.
///
/// The others say of each session that the bytes given are frames of what a session of a `Checker` sends, each before
/// the next byte is taken, and that no content part is skipped.
fn serve<R: BufRead, W: Write>(
    transport: &mut StreamTransport<'_, R, W, EndOnBadContent>,
    checker: &mut ServerApplication<Checker, Asked>,
) -> Result<SessionEnd, SessionFault>
    requires { IsUnused transport.old }
    ensures ends_well { IfOk result (λ end. ServerEndsWell transport.old.limits (all_taken transport.new.transcript.now)
        [] (all_given transport.new.transcript.now) end) }
    ensures session { Serves ⟦<EndOnBadContent as BadContentPolicy>⟧.passes
        (ServerSession ⟦<Checker as Server>⟧ checker.old.server checker.new.server) transport.old result transport.new }
    ensures complete { SkipsNothing (notes_of transport.new.transcript.now) }
{
    server_session_ends_well::<R, W, EndOnBadContent, Checker>();
    nothing_is_skipped::<R, W, EndOnBadContent, ServerApplication<Checker, Asked>>();
    transport.serve(checker)
}

/// What `--help` and `--version` print.
const ABOUT: About<'static> = About {
    name: "example_diagnostics",
    version: "0.1",
    purpose: "A language server that marks the lines that are too long.",
    arguments: CHANNEL_ARGUMENTS,
};

fn main(rt: HostRuntime) -> Answer<()> {
    let alloc: Global = rt.alloc();
    let words: Vec<String> = env::args(&rt)?.skip(1).collect(alloc)?;
    if let Some(text) = ABOUT.asked(words.as_slice()) {
        return Ok(print!(&rt; "{text}")?);
    }
    let options = ClientOptions::new();
    let served = serve_clients(&rt, words.as_slice(), options, move |mut client| {
        let mut policy = EndOnBadContent;
        let mut transport = client.transport(alloc, &mut policy);
        let mut application = ServerApplication::new(alloc, Checker::new(alloc));
        serve(&mut transport, &mut application).map_err(Explained)
    })?;
    match served? {
        SessionEnd::ShutDown => Ok(()),
        SessionEnd::Closed => bail!("the client left without a shutdown"),
    }
}
