// The server: the open texts, the checks of them, and the requests.
ghost use Rattle.serde_json.specs.View.{view};
ghost use Rattle.std.specs.List.{All};
ghost use Rattle.std.specs.Option.{option_copied};
ghost use Rattle.std.specs.Prelude.{◌≡◌, [], ◌∷◌, Err, IfOk, IfSome, MatchOption, None, OnOk, Ok, Some, false, map};
ghost use Rattle.std.specs.Prelude.{option_map, string_bytes};
ghost use Rattle.lsp_acts.specs.Acts.{replies};
ghost use Rattle.lsp_diagnostics.specs.Applied.{Applies};
ghost use Rattle.lsp_documents.specs.Held.{texts_of};
ghost use Rattle.lsp_documents.specs.Known.{copied};
ghost use Rattle.lsp_documents.specs.Sessions.{HasNone};
ghost use Rattle.lsp_jobs.specs.Ends.{Outcome};
ghost use Rattle.lsp_message.specs.Converted.{method_not_found};
ghost use Rattle.lsp_message.specs.Message.{notification as told};
ghost use Rattle.lsp_message.specs.View.{error_view};
ghost use Rattle.lsp_types.specs.Reads.{is_named};
ghost use Rattle.example_toml.specs.Reactions.{Follows, LosesTexts, RequestsSettings, SendsOnly, act_seen};
ghost use Rattle.example_toml.specs.Replies.{RefusesOthers, RepliesFound, RepliesNull, RepliesText, document_for};
ghost use Rattle.example_toml.specs.Replies.{document_methods, text_for};
ghost use Rattle.example_toml.specs.Searches.{AnswersOrRefuses, FindsSymbols, no_query as query_missing, word_in};

use crate::features::Features;
use crate::work::{CheckOptions, Search, Silence, Work};
use lsp_diagnostics::{AnalysedDocuments, Findings};
use lsp_documents::{SyncOptions, TextDocuments, uri_from};
use lsp_features::{announce, dispatch};
use lsp_jobs::{AnsweredBy, JobCommand, JobEnd, JobName, JobServer, KeyedJobs, WorkDone};
use lsp_json::JsonRef;
use lsp_methods::send_request;
use lsp_server::policies::SkipAndFlag;
use lsp_server::{Act, ErrorCode, Notification, Request, ResponseError, Server};
use lsp_text::TextDocument;
use lsp_types::methods::{
    ConfigurationRequest, DidChangeConfigurationNotification, WorkspaceSymbolRequest,
};
use lsp_types::{ConfigurationParams, Diagnostic, ToJson, WorkspaceSymbol};
use serde_json::{Value, json};
use std::alloc::{AllocError, Global};
use std::time::Duration;

/// How many milliseconds a check waits after an edit. A further edit replaces it until then.
const PAUSE: u64 = 50;

/// The server of one session.
#[derive(Drop)]
pub struct TomlServer {
    /// The allocator.
    pub alloc: Global,
    /// The documents, and the commands for their checks.
    pub texts: AnalysedDocuments<Work>,
    /// Whether the client can be asked for the user's settings.
    configures: bool,
    /// Whether the client shows symbols as a tree.
    pub shows_trees: bool,
    /// Whether the user set the version of TOML to `1.1`.
    allows_newer: bool,
    /// Whether the session skipped bad content, which may have been a change of any text.
    skipped: SkipAndFlag,
}

type Acts = Vec<Act<()>>;

impl Server for TomlServer {
    ghost use Rattle.std.specs.List.{All};
    ghost use Rattle.std.specs.Prelude.{◌≡◌, Some};
    ghost use Rattle.lsp_acts.specs.Acts.{stays};
    ghost use Rattle.lsp_diagnostics.specs.Applied.{Applies};
    ghost use Rattle.lsp_documents.specs.Sessions.{HasNone};
    ghost use Rattle.lsp_message.specs.Message.{notification};
    ghost use Rattle.lsp_types.specs.Reads.{is_named};
    ghost use Rattle.example_toml.specs.Reactions.{Follows, MayLoseThen, RequestsSettings, SendsOnly};
    ghost use Rattle.example_toml.specs.Replies.{AnswersAtOnce};

    // No document is open at first.
    ghost initialize_post = { λ old _ _ new. HasNone new.texts.documents × (new.texts.commands ≡ old.texts.commands) };

    ghost initialized_post = { λ old acts new. (new ≡ old) × All RequestsSettings acts };

    // A request changes nothing, and is answered at once. If content was skipped, all texts are lost first.
    ghost request_post = { λ old id method params acts new. MayLoseThen old acts (λ left rest. (new ≡ left)
        × AnswersAtOnce ⟦<WorkspaceSymbol as ToJson>⟧.stands left.texts.documents id method params rest) };

    // A notification changes the documents as LSP says. The checks follow the documents. The problems of a text that is
    // no longer known are removed.
    ghost notification_post = { λ old method params acts new. MayLoseThen old acts (λ left rest.
        Applies left.texts.documents (Some (notification method params)) new.texts.documents
        × Follows left new × SendsOnly new.texts.documents rest) };

    ghost response_post = { λ old _ _ acts new. MayLoseThen old acts (λ left rest.
        (new.texts.documents ≡ left.texts.documents) × Follows left new × SendsOnly new.texts.documents rest) };

    ghost shutdown_post = { stays };

    ghost ids_exhausted_post = { λ old _ new. new ≡ old };

    // The server requests nothing but the settings.
    type PendingData = ();

    fn initialize(&mut self, params: Value) -> Result<Result<Value, ResponseError>, AllocError> {
        self.configures = is_true(&params, "/capabilities/workspace/configuration");
        self.shows_trees = is_true(
            &params,
            "/capabilities/textDocument/documentSymbol/hierarchicalDocumentSymbolSupport",
        );
        Ok(Ok(self.agree(&params)?))
    }

    fn initialized(&mut self) -> Result<Acts, AllocError> {
        if self.configures {
            return Act::one(self.alloc, self.settings_request()?);
        }
        Ok(Vec::new(self.alloc))
    }

    fn request(&mut self, request: Request) -> Result<Acts, AllocError> {
        let mut acts = self.lose_texts()?;
        let mut replies = self.reply_to(request)?;
        acts.append(&mut replies)?;
        Ok(acts)
    }

    fn notification(&mut self, notification: Notification) -> Result<Acts, AllocError> {
        let mut acts = self.lose_texts()?;
        let mut more = self.note(&notification)?;
        acts.append(&mut more)?;
        Ok(acts)
    }

    fn response(
        &mut self,
        _asked: (),
        outcome: Result<Value, ResponseError>,
    ) -> Result<Acts, AllocError> {
        let mut acts = self.lose_texts()?;
        let mut more = self.take_settings(&outcome)?;
        acts.append(&mut more)?;
        Ok(acts)
    }

    fn woken(&mut self, alloc: Global) -> Result<Acts, AllocError> {
        Ok(Vec::new(alloc))
    }

    fn shutdown(&mut self, alloc: Global) -> Result<Acts, AllocError> {
        Ok(Vec::new(alloc))
    }

    fn ids_exhausted(&mut self, _asked: ()) -> Result<(), AllocError> {
        Ok(())
    }
}

impl TomlServer {
    /// Makes a server for one session.
    pub fn new(alloc: Global, skipped: SkipAndFlag) -> TomlServer
        ensures commands { result.texts.commands.items ≡ [] }
        ensures documents { HasNone result.texts.documents }
    {
        TomlServer {
            alloc,
            texts: AnalysedDocuments::new(alloc),
            configures: false,
            shows_trees: false,
            allows_newer: false,
            skipped,
        }
    }

    /// If the session skipped bad content since the last message, each text is lost until the client sends it whole.
    /// Its problems are removed. The first act logs this at the client.
    fn lose_texts(&mut self) -> Result<Acts, AllocError>
        ensures { IfOk result (λ acts. LosesTexts self.old (map act_seen acts.items) self.new) }
    {
        if !self.skipped.take() {
            return Ok(Vec::new(self.alloc));
        }
        self.texts.invalidate_all()
    }

    /// Returns the acts for a request that is answered at once.
    fn reply_to(&mut self, request: Request) -> Result<Acts, AllocError>
        ensures same { OnOk result (self.new ≡ self.old) }
        ensures unknown { IfOk result (λ acts. RepliesNull self.old.texts.documents request.id
            (string_bytes request.method) (view request.params) (map act_seen acts.items)) }
        ensures text { IfOk result (λ acts. RepliesText self.old.texts.documents request.id
            (string_bytes request.method) (view request.params) (map act_seen acts.items)) }
        ensures search { IfOk result (λ acts. RepliesFound ⟦<WorkspaceSymbol as ToJson>⟧.stands
            self.old.texts.documents request.id (string_bytes request.method) (view request.params)
            (map act_seen acts.items)) }
        ensures other { IfOk result (λ acts. RefusesOthers request.id (string_bytes request.method)
            (map act_seen acts.items)) }
    {
        match request.method.as_str() {
            WorkspaceSymbolRequest::METHOD => self.search(request),
            "toml/text" => self.reply_text(request),
            _ => self.reply_about_document(request),
        }
    }

    /// Returns the acts for a request about one document, and an error for another request.
    fn reply_about_document(&mut self, request: Request) -> Result<Acts, AllocError>
        ensures same { OnOk result (self.new ≡ self.old) }
        ensures unknown { IfOk result (λ acts. RepliesNull self.old.texts.documents request.id
            (string_bytes request.method) (view request.params) (map act_seen acts.items)) }
        ensures other { IfOk result (λ acts. is_named document_methods (string_bytes request.method) ≡ false
            → map act_seen acts.items ≡ replies request.id (Err method_not_found) ∷ []) }
    {
        let alloc = self.alloc;
        match dispatch::<Features, _, _>(alloc, self, request)? {
            Ok(acts) => Ok(acts),
            Err(request) => Act::one(alloc, Act::method_not_found(alloc, request.id)?),
        }
    }

    /// Replies with the text that the server holds for the document in the params, or with null.
    fn reply_text(&self, request: Request) -> Result<Acts, AllocError>
        ensures { IfOk result (λ acts. map act_seen acts.items
            ≡ replies request.id (Ok (text_for self.now.texts.documents (view request.params))) ∷ []) }
    {
        let text = self.text(&request.params)?;
        Act::one(self.alloc, Act::Reply(request.id, Ok(text)))
    }

    fn text(&self, params: &Value) -> Result<Value, AllocError>
        ensures { IfOk result (λ text. view text ≡ text_for self.now.texts.documents (view params.now)) }
    {
        match self.document(params) {
            Some(document) => Value::try_from_str(self.alloc, document.text().as_str()),
            None => Ok(Value::Null),
        }
    }

    fn document(&self, params: &Value) -> Option<&TextDocument>
        ensures { option_copied result ≡ document_for self.now.texts.documents (view params.now) }
    {
        self.texts
            .documents
            .get(uri_from(&JsonRef::of_tree(params))?)
    }

    /// Finds the keys of all texts that contain a word, at once.
    fn search(&self, request: Request) -> Result<Acts, AllocError>
        ensures { IfOk result (λ acts. (outcome : Outcome)
            × (map act_seen acts.items ≡ replies request.id outcome ∷ [])
            × AnswersOrRefuses ⟦<WorkspaceSymbol as ToJson>⟧.stands (texts_of self.now.texts.documents)
            (view request.params) outcome) }
    {
        match self.search_in(&request.params)? {
            Some(search) => {
                let found = found_by(search)?;
                Act::one(self.alloc, Act::Reply(request.id, Ok(found)))
            }
            None => {
                let error = self.no_query()?;
                Act::one(self.alloc, Act::Reply(request.id, Err(error)))
            }
        }
    }

    /// Makes the error for a search without a word.
    fn no_query(&self) -> Result<ResponseError, AllocError>
        ensures { IfOk result (λ error. error_view error ≡ query_missing) }
    {
        ResponseError::new(self.alloc, ErrorCode::InvalidParams, "no `query`")
    }

    /// Returns the search that a client requests, over the texts as they are now. Without a word there is none.
    fn search_in(&self, params: &Value) -> Result<Option<Search>, AllocError>
        ensures query { IfOk result (λ found. MatchOption found (word_in (view params.now) ≡ None)
            (λ search. word_in (view params.now) ≡ Some (string_bytes search.query))) }
        ensures texts { IfOk result (λ found. IfSome found (λ search.
            copied search.sources.items ≡ texts_of self.now.texts.documents)) }
        ensures encoding { IfOk result (λ found. IfSome found (λ search.
            search.encoding ≡ self.now.texts.documents.sync.encoding)) }
    {
        let Some(query) = query_in(params) else {
            return Ok(None);
        };
        Ok(Some(Search {
            alloc: self.alloc,
            query: String::from_str(self.alloc, query)?,
            sources: self.texts.documents.snapshot()?,
            encoding: self.texts.documents.encoding(),
            progress: WorkDone::from_params(self.alloc, params)?,
        }))
    }

    /// Returns the acts after a notification.
    fn note(&mut self, notification: &Notification) -> Result<Acts, AllocError>
        ensures applies { OnOk result (Applies self.old.texts.documents (Some (told
            (string_bytes notification.now.method) (view notification.now.params))) self.new.texts.documents) }
        ensures follow { OnOk result (Follows self.old self.new) }
        ensures acts { IfOk result (λ acts. SendsOnly self.new.texts.documents (map act_seen acts.items)) }
    {
        if notification.method.as_str() == DidChangeConfigurationNotification::METHOD {
            return self.reconfigure(&notification.params);
        }
        let options = self.options();
        self.texts
            .apply(notification, Duration::from_millis(PAUSE), &options)
    }

    /// Agrees with the client on the encoding and the notifications about texts, and returns the result of
    /// `initialize`.
    fn agree(&mut self, params: &Value) -> Result<Value, AllocError>
        ensures documents { OnOk result (HasNone self.new.texts.documents) }
        ensures commands { self.new.texts.commands ≡ self.old.texts.commands }
    {
        let alloc = self.alloc;
        let mut can = announce::<Features, _>(alloc, self)?;
        if let Some(members) = can.as_object_mut() {
            let search = json!(in alloc; { "workDoneProgress": true })?;
            serde_json::put(members, alloc, "workspaceSymbolProvider", search)?;
        }
        let sync = SyncOptions::negotiate(alloc, params, true, &mut can)?;
        self.texts.documents = TextDocuments::new(alloc, sync);
        json!(in alloc; { "capabilities": can, "serverInfo": { "name": "toml" } })
    }

    /// Asks the client for the settings again, or takes those of a client that can't be asked (LSP 3.17,
    /// "DidChangeConfiguration Notification").
    fn reconfigure(&mut self, params: &Value) -> Result<Acts, AllocError>
        ensures same { self.new.texts.documents ≡ self.old.texts.documents }
        ensures follow { OnOk result (Follows self.old self.new) }
        ensures acts { IfOk result (λ acts. SendsOnly self.new.texts.documents (map act_seen acts.items)) }
    {
        if self.configures {
            return Act::one(self.alloc, self.settings_request()?);
        }
        match params.pointer("/settings/toml") {
            Some(settings) => self.set(settings),
            None => Ok(Vec::new(self.alloc)),
        }
    }

    /// Asks the client for the section `toml` of its configuration (LSP 3.17, "Configuration Request").
    fn settings_request(&self) -> Result<Act<()>, AllocError>
        ensures { IfOk result (λ act. RequestsSettings (act_seen act)) }
    {
        let params = ConfigurationParams::section(self.alloc, "toml")?;
        let request = send_request::<ConfigurationRequest, ()>(self.alloc, &params, ());
        drop(params);
        request
    }

    /// Takes the settings that the client replied. Only one section was asked for.
    fn take_settings(&mut self, outcome: &Result<Value, ResponseError>) -> Result<Acts, AllocError>
        ensures same { self.new.texts.documents ≡ self.old.texts.documents }
        ensures follow { OnOk result (Follows self.old self.new) }
        ensures acts { IfOk result (λ acts. SendsOnly self.new.texts.documents (map act_seen acts.items)) }
    {
        let values = outcome.as_ref().ok();
        match values.and_then(|values| values.pointer("/0")) {
            Some(settings) => self.set(settings),
            None => Ok(Vec::new(self.alloc)),
        }
    }

    /// Takes the user's settings, and checks each text again.
    fn set(&mut self, settings: &Value) -> Result<Acts, AllocError>
        ensures same { self.new.texts.documents ≡ self.old.texts.documents }
        ensures follow { OnOk result (Follows self.old self.new) }
        ensures acts { IfOk result (λ acts. SendsOnly self.new.texts.documents (map act_seen acts.items)) }
    {
        self.allows_newer = settings.get("version").and_then(|version| version.as_str())
            == Some("1.1");
        let options = self.options();
        self.texts.analyse_all(&options)
    }

    /// What a check needs beside the text.
    fn options(&self) -> CheckOptions {
        CheckOptions {
            encoding: self.texts.documents.encoding(),
            allows_newer: self.allows_newer,
        }
    }
}

impl JobServer<Work> for TomlServer {
    ghost use Rattle.std.specs.Prelude.{◌≡◌, Err, None, true};
    ghost use Rattle.example_toml.specs.Jobs.{Searches, search_method};
    ghost use Rattle.example_toml.specs.Searches.{no_query, word_in};

    type KeyedJobs = TomlServer;

    ghost is_long_post = { λ _ method _ is_long. is_long ≡ true → method ≡ search_method };

    // A search reads the texts that are open when its request arrives.
    ghost job_post = { λ server _ _ _ work. Searches server.texts.documents work };

    ghost job_reply_post = { λ _ _ _ params outcome. (word_in params ≡ None) × (outcome ≡ Err no_query) };

    fn is_long(&self, request: &Request) -> bool {
        // If texts are to be lost first, the server does both.
        request.method.as_str() == WorkspaceSymbolRequest::METHOD && !self.skipped.has_happened()
    }

    fn job(&self, request: Request) -> Result<AnsweredBy<Work>, AllocError> {
        match self.search_in(&request.params)? {
            Some(search) => Ok(AnsweredBy::Job(Work::Search(search))),
            None => Ok(AnsweredBy::Reply(Err(self.no_query()?))),
        }
    }
}

impl KeyedJobs<TomlServer, Work> for TomlServer {
    ghost use Rattle.std.specs.Prelude.{◌≡◌, []};
    ghost use Rattle.lsp_diagnostics.specs.Shown.{Shows};

    ghost take_commands_post = { λ old commands new. (commands ≡ old.texts.commands.items)
        × (new.texts.commands.items ≡ []) × (new.texts.documents ≡ old.texts.documents) };

    ghost found_post = { λ old _ found acts new. Shows ⟦<Diagnostic as ToJson>⟧.stands found acts × (new ≡ old) };

    ghost ended_post = { λ old _ _ acts new. (acts ≡ []) × (new ≡ old) };

    fn take_commands(
        server: &mut TomlServer,
        _alloc: Global,
    ) -> Result<Vec<JobCommand<Work>>, AllocError> {
        Ok(server.texts.take_commands())
    }

    fn found(
        server: &mut TomlServer,
        name: &JobName,
        found: Findings,
        alloc: Global,
    ) -> Result<Acts, AllocError> {
        let _ = server;
        let _ = name;
        found.publish(alloc)
    }

    // The problems of a check that did not end are not shown.
    fn ended(
        server: &mut TomlServer,
        name: &JobName,
        end: JobEnd,
        alloc: Global,
    ) -> Result<Acts, AllocError> {
        let _ = server;
        let _ = name;
        let _ = end;
        Ok(Vec::new(alloc))
    }
}

/// Returns the result of a search that nobody cancels. Only a failed allocation is an error.
fn found_by(search: Search) -> Result<Value, AllocError>
    ensures { IfOk result (λ tree. FindsSymbols ⟦<WorkspaceSymbol as ToJson>⟧.stands search.encoding
        (string_bytes search.query) (copied search.sources.items) (view tree)) }
{
    match search.symbols(&mut Silence) {
        Ok(found) => Ok(found),
        Err(_interrupted) => Err(AllocError),
    }
}

/// Returns the word that a client searches for, if it gives one.
fn query_in(params: &Value) -> Option<&str>
    ensures { option_map (λ query. query.now) result ≡ word_in (view params.now) }
{
    params.get("query")?.as_str()
}

/// Returns whether this member of the params is true.
fn is_true(params: &Value, path: &str) -> bool {
    matches!(params.pointer(path), Some(Value::Bool(true)))
}
