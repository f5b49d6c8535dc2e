// The jobs: the check of a text, which the next edit replaces, and the search for keys in all texts.
ghost use Rattle.serde_json.specs.Data.{Data};
ghost use Rattle.serde_json.specs.View.{view};
ghost use Rattle.std.specs.Arc.{arc_value};
ghost use Rattle.std.specs.Prelude.{◌≡◌, ◌++◌, List, IfOk, IsSomeAnd, OnOk, string_bytes};
ghost use Rattle.lsp_documents.specs.Known.{copied};
ghost use Rattle.lsp_jobs.specs.Progress.{progress_method};
ghost use Rattle.lsp_types.specs.declared.diagnostics.Diagnostic.{Diagnostic as Mark};
ghost use Rattle.toml_outline.specs.Keys.{key_of};
ghost use Rattle.toml_outline.specs.Names.{name_of};
ghost use Rattle.toml_outline.specs.Reading.{IsOutlineOf};
ghost use Rattle.toml_outline.specs.Scanned.{keys_of};
ghost use Rattle.example_toml.specs.Problems.{AreMarks, AreOfItsText, AreProblemsOf, IsMarkOf};
ghost use Rattle.example_toml.specs.Searches.{AreFound, AreSymbolsOf, FindsKeys, FindsSymbols, IsSymbolOf};

use lsp_diagnostics::{Analysis, Findings, TextQuery};
use lsp_documents::DocumentSnapshot;
use lsp_jobs::{Interrupted, Job, JobContext, JobResult, WorkDone};
use lsp_server::Notification;
use lsp_text::PositionEncoding;
use lsp_types::{Diagnostic, DiagnosticSeverity, Location, ToJson, WorkspaceSymbol};
use serde_json::Value;
use std::alloc::{AllocError, Global};
use toml_features::symbol_kind;
use toml_outline::{Entry, Outline, Problem, Reader};

/// A job of the server.
#[derive(Drop)]
pub enum Work {
    /// The check of a text.
    Check(Check),
    /// The search for keys, for a request of the client.
    Search(Search),
}

/// What a check needs beside the text.
#[derive(Clone, Copy)]
pub struct CheckOptions {
    /// The client's units.
    pub encoding: PositionEncoding,
    /// Whether what is new in TOML 1.1 is no problem.
    pub allows_newer: bool,
}

/// The check of a text.
#[derive(Drop)]
pub struct Check {
    /// The allocator.
    pub alloc: Global,
    /// The text.
    pub source: DocumentSnapshot,
    /// What else it needs.
    pub options: CheckOptions,
}

/// The search for keys that contain a word.
#[derive(Drop)]
pub struct Search {
    /// The allocator.
    pub alloc: Global,
    /// The word.
    pub query: String,
    /// The texts, as they were when the request arrived.
    pub sources: Vec<DocumentSnapshot>,
    /// The client's units.
    pub encoding: PositionEncoding,
    /// Reports the progress to the client.
    pub progress: WorkDone,
}

impl Job for Work {
    ghost use Rattle.std.specs.Prelude.{◌≡◌, None};
    ghost use Rattle.lsp_jobs.specs.Progress.{progress_method};
    ghost use Rattle.example_toml.specs.Jobs.{EndsSo, IsFor, source_of};

    type Found = Findings;

    ghost is_for = { λ work _ params. IsFor work params };

    ghost run_post = { EndsSo ⟦<WorkspaceSymbol as ToJson>⟧.stands };

    // Only a search sends something while it runs: its progress.
    ghost reports = { λ work method _. (source_of work ≡ None) × (method ≡ progress_method) };

    ghost asks = { λ _ _ _. ⊥ };

    fn run<C: JobContext>(self, context: &mut C) -> Result<JobResult<Findings>, Interrupted> {
        match self {
            Work::Check(check) => check.run(context),
            Work::Search(search) => Ok(JobResult::reply(Ok(search.symbols(context)?))),
        }
    }
}

impl Analysis for Work {
    ghost use Rattle.example_toml.specs.Jobs.{source_of};
    ghost use Rattle.example_toml.specs.Problems.{AreProblems};

    type Options = CheckOptions;

    ghost source = { source_of };

    ghost are = { AreProblems ⟦<Diagnostic as ToJson>⟧.stands };

    fn analysis(
        alloc: Global,
        source: DocumentSnapshot,
        options: &CheckOptions,
    ) -> Result<Work, AllocError> {
        Ok(Work::Check(Check {
            alloc,
            source,
            options: *options,
        }))
    }
}

impl TextQuery for Work {
    ghost use Rattle.example_toml.specs.Jobs.{AnswersRequest};

    ghost answers = { AnswersRequest ⟦<WorkspaceSymbol as ToJson>⟧.stands };
}

/// Reads a text, and stops between two lines if nobody waits for the job any longer.
fn read<'t, C: JobContext>(
    alloc: Global,
    text: &'t str,
    context: &C,
) -> Result<Outline<'t>, Interrupted>
    ensures { IfOk result (IsOutlineOf text.now) }
{
    let mut reader = Reader::new(alloc, text);
    for _ in 0..text.len() + 1 {
        context.check()?;
        if !reader.read_line()? {
            break;
        }
    }
    Ok(reader.finish()?)
}

impl Check {
    fn run<C: JobContext>(self, context: &C) -> Result<JobResult<Findings>, Interrupted>
        ensures { IfOk result (λ done. IsSomeAnd done.found (AreOfItsText self)) }
    {
        let diagnostics = self.diagnostics(context)?;
        let source = self.source;
        Ok(JobResult::found(Findings {
            source,
            diagnostics,
        }))
    }

    /// The problems of the text. What TOML 1.0 does not allow is a warning.
    fn diagnostics<C: JobContext>(&self, context: &C) -> Result<Vec<Diagnostic>, Interrupted>
        ensures { IfOk result (λ marks.
            AreProblemsOf self.now.options (arc_value self.now.source.text) marks.items) }
    {
        let outline = read(self.alloc, self.source.text.as_str(), context)?;
        let mut marks = Vec::new(self.alloc);
        let (problems, newer) = (outline.problems.as_slice(), outline.newer.as_slice());
        self.add(problems, DiagnosticSeverity::ERROR, &mut marks)?;
        if !self.options.allows_newer {
            self.add(newer, DiagnosticSeverity::WARNING, &mut marks)?;
        }
        Ok(marks)
    }

    /// Adds a diagnostic of this severity for each problem.
    fn add(
        &self,
        problems: &[Problem],
        severity: DiagnosticSeverity,
        marks: &mut Vec<Diagnostic>,
    ) -> Result<(), AllocError>
        ensures { OnOk result ((added : List Mark) × (marks.new.items ≡ marks.old.items ++ added)
            × AreMarks severity self.now.options.encoding (arc_value self.now.source.text) problems.now added) }
    {
        for problem in problems.iter() {
            marks.push(self.mark(problem, severity)?)?;
        }
        Ok(())
    }

    /// The diagnostic for a problem (LSP 3.17, "Diagnostic").
    fn mark(
        &self,
        problem: &Problem,
        severity: DiagnosticSeverity,
    ) -> Result<Diagnostic, AllocError>
        ensures { IfOk result (IsMarkOf severity self.now.options.encoding (arc_value self.now.source.text)
            problem.now) }
    {
        let part = problem.span.start..problem.span.end;
        let range = self.source.range_of(part, self.options.encoding);
        let mut mark = Diagnostic::new(range, severity, problem.message.clone()?);
        mark.source = Some(String::from_str(self.alloc, "toml")?);
        Ok(mark)
    }
}

impl Search {
    /// Returns a list of the keys in its texts that contain the word (LSP 3.17, "Workspace Symbols Request"), and
    /// reports its progress.
    pub fn symbols<C: JobContext>(self, context: &mut C) -> Result<Value, Interrupted>
        requires { (params : Data) → C.may progress_method params }
        ensures { IfOk result (λ tree. FindsSymbols ⟦<WorkspaceSymbol as ToJson>⟧.stands self.encoding
            (string_bytes self.query) (copied self.sources.items) (view tree)) }
    {
        let found = self.find(context)?;
        self.progress.end(context, Some("Searched"))?;
        Ok(found.to_json(self.alloc)?)
    }

    /// Finds the keys in all texts.
    fn find<C: JobContext>(&self, context: &mut C) -> Result<Vec<WorkspaceSymbol>, Interrupted>
        requires { (params : Data) → C.may progress_method params }
        ensures { IfOk result (λ found. AreFound self.now.encoding (string_bytes self.now.query)
            (copied self.now.sources.items) found.items) }
    {
        self.progress
            .begin_cancellable(context, "Searching", None, Some(0))?;
        let sources = self.sources.as_slice();
        let mut found = Vec::new(self.alloc);
        for (number, source) in sources.iter().enumerate() {
            let done = percentage(number, sources.len());
            self.progress
                .report(context, Some(source.uri.as_str()), done)?;
            let mut keys = self.find_in(source, context)?;
            found.append(&mut keys)?;
        }
        Ok(found)
    }

    /// Finds the keys in one text.
    fn find_in<C: JobContext>(
        &self,
        source: &DocumentSnapshot,
        context: &C,
    ) -> Result<Vec<WorkspaceSymbol>, Interrupted>
        ensures { IfOk result (λ found. FindsKeys self.now.encoding (string_bytes self.now.query)
            (string_bytes source.now.uri) (arc_value source.now.text) found.items) }
    {
        let outline = read(self.alloc, source.text.as_str(), context)?;
        self.symbols_in(source, &outline, context)
    }

    /// Makes the symbols of the keys in an outline that contain the word.
    fn symbols_in<C: JobContext>(
        &self,
        source: &DocumentSnapshot,
        outline: &Outline<'_>,
        context: &C,
    ) -> Result<Vec<WorkspaceSymbol>, Interrupted>
        ensures { IfOk result (λ found. AreSymbolsOf self.now.encoding (string_bytes self.now.query)
            (string_bytes source.now.uri) (arc_value source.now.text)
            (name_of outline.now.text.now (keys_of outline.now)) 0 (keys_of outline.now) found.items) }
    {
        let entries = outline.entries.as_slice();
        let mut found = Vec::new(self.alloc);
        for (index, entry) in entries.iter().enumerate() {
            context.check()?;
            let name = outline.whole_key(self.alloc, index)?;
            if name.as_str().contains(self.query.as_str()) {
                found.push(self.symbol(source, entry, name)?)?;
            }
        }
        Ok(found)
    }

    /// Makes the symbol of a key.
    fn symbol(
        &self,
        source: &DocumentSnapshot,
        entry: &Entry,
        name: String,
    ) -> Result<WorkspaceSymbol, AllocError>
        ensures { IfOk result (IsSymbolOf self.now.encoding (string_bytes source.now.uri)
            (arc_value source.now.text) (string_bytes name) (key_of entry.now)) }
    {
        let range = source.range_of(entry.key.start..entry.key.end, self.encoding);
        let uri = source.uri.clone()?;
        let kind = symbol_kind(entry.kind);
        Ok(WorkspaceSymbol::new(name, kind, Location { uri, range }))
    }
}

/// Returns how many percent of the documents are done, if there are any.
fn percentage(done: usize, count: usize) -> Option<u32> {
    let percentage = done.saturating_mul(100).checked_div(count)?;
    u32::try_from(percentage).ok()
}

/// A search with this context reports no progress, and nobody cancels it.
#[derive(Drop)]
pub struct Silence;

impl JobContext for Silence {
    fn is_cancelled(&self) -> bool {
        false
    }

    fn report(&mut self, _notification: Notification) -> bool {
        false
    }

    fn send(&mut self, _notification: Notification) -> bool {
        false
    }
}
