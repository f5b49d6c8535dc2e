// The documents of a server, and the analyses that follow them.
ghost use Rattle.serde_json.specs.View.{view};
ghost use Rattle.std.specs.List.{All};
ghost use Rattle.std.specs.Prelude.{◌≡◌, ◌∷◌, ◌++◌, [], IfOk, List, None, OnOk, Some, map, string_bytes, ℕ};
ghost use Rattle.lsp_acts.specs.View.{act_view};
ghost use Rattle.lsp_acts.specs.declared.server.Act.{Act as RustAct};
ghost use Rattle.lsp_documents.specs.Held.{documents_of};
ghost use Rattle.lsp_documents.specs.Notices.{Documents, MissesAll};
ghost use Rattle.lsp_documents.specs.Sessions.{HasNone};
ghost use Rattle.lsp_jobs.specs.declared.job_server.JobCommand.{JobCommand as Command};
ghost use Rattle.lsp_message.specs.Message.{notification as told};
ghost use Rattle.lsp_diagnostics.specs.Applied.{Applies};
ghost use Rattle.lsp_diagnostics.specs.Followed.{AreCommandsFor, Clears, FollowOn, IsCommandFor, LogsAndClears, LogsOrClears, known};
ghost use Rattle.lsp_diagnostics.specs.Logged.{LogsFault, LogsHeard, LogsWarning, Reports};

use lsp_acts::Act;
use lsp_documents::{DocumentSnapshot, DocumentUpdate, SyncOptions, TextDocuments, UpdateFault};
use lsp_jobs::{Job, JobCommand, JobKey};
use lsp_message::Notification;
use lsp_methods::publish;
use std::alloc::{AllocError, Global};
use std::mem;
use std::time::Duration;

/// What the client's log says if each text is lost.
const ALL_LOST: &str = "content was skipped that is no message: no text is known";

/// The type of an error in the client's log (LSP 3.17, "MessageType").
const ERROR: u32 = 1;

/// The type of a warning there.
const WARNING: u32 = 2;

/// A job that can analyse the text of a document.
pub trait Analysis: Job {
    ghost use Rattle.serde_json.specs.Data.{Data};
    ghost use Rattle.std.specs.Prelude.{◌≡◌, IfOk, List, Option, Some};
    ghost use Rattle.lsp_text.specs.Lines.{LinedText};
    ghost use Rattle.lsp_documents.specs.declared.known.DocumentSnapshot.{DocumentSnapshot as Copy};

    /// What an analysis needs beside the text, such as the user's settings.
    type Options;

    /// The text that the job analyses. A job that does something else has none.
    ghost source: { Self → Option Copy };

    /// These may be the diagnostics of a text, as they are written.
    ghost are: { LinedText → List Data → Type 0 };

    /// Makes the job that analyses a text. `Err` means that an allocation failed.
    fn analysis(
        alloc: Global,
        text: DocumentSnapshot,
        options: &Self::Options,
    ) -> Result<Self, AllocError>
        ensures { IfOk result (λ job. source job ≡ Some text) };
}

/// The documents that a client has opened, and the commands that make the analyses follow them.
#[derive(Drop)]
pub struct AnalysedDocuments<J: Job> {
    alloc: Global,
    /// The documents.
    pub documents: TextDocuments,
    commands: Vec<JobCommand<J>>,
    /// The last log line about a notification that was not applied.
    complaint: String,
}

impl<J: Analysis> AnalysedDocuments<J> {
    /// Makes the documents of one session. None is open. `sync` is what was agreed with the client: in `initialize`,
    /// replace `documents` by `TextDocuments::new(alloc, sync)`.
    pub fn new(alloc: Global) -> AnalysedDocuments<J>
        ensures commands { result.commands.items ≡ [] }
        ensures documents { HasNone result.documents }
    {
        AnalysedDocuments {
            alloc,
            documents: TextDocuments::new(alloc, SyncOptions::defaults()),
            commands: Vec::new(alloc),
            complaint: String::new(alloc),
        }
    }

    /// Applies a notification, and makes the analysis of the document follow it. After an edit the analysis waits for
    /// this time, in which a further edit replaces it. If a text is closed or lost, its analysis is stopped, and the
    /// acts remove its diagnostics. If the notification names no document, each text may be lost, and the same is done
    /// for each. A notification about something else changes nothing.
    ///
    /// If the client did something that LSP forbids, an act logs that at the client: as an error if the notification
    /// was not applied, and as a warning otherwise. The same error is not logged twice in a row, unless a text is lost.
    ///
    /// `Err` means that an allocation failed.
    pub fn apply<P: Drop + PartialEq>(
        &mut self,
        notification: &Notification,
        pause: Duration,
        options: &J::Options,
    ) -> Result<Vec<Act<P>>, AllocError>
        ensures applies { OnOk result (Applies self.old.documents (Some (told (string_bytes notification.now.method)
            (view notification.now.params))) self.new.documents) }
        ensures follow { OnOk result (FollowOn J.source self.old.commands.items (documents_of self.old.documents)
            self.new.commands.items (documents_of self.new.documents)) }
        ensures reports { IfOk result (λ acts. Reports self.old.documents (string_bytes notification.now.method)
            (view notification.now.params) self.new.documents (map (act_view P.eq) acts.items)) }
        ensures acts { IfOk result (λ acts. All (LogsOrClears (documents_of self.new.documents))
            (map (act_view P.eq) acts.items)) }
    {
        let mut acts = Vec::new(self.alloc);
        self.note(notification, pause, options, &mut acts)?;
        Ok(acts)
    }

    /// Takes each text for lost until the client sends it whole, since content was skipped that may have changed any of
    /// them. The first act logs this at the client as an error. The others remove the diagnostics. Each analysis is
    /// stopped.
    ///
    /// `Err` means that an allocation failed.
    pub fn invalidate_all<P: Drop + PartialEq>(&mut self) -> Result<Vec<Act<P>>, AllocError>
        ensures lost { MissesAll (documents_of self.old.documents) (documents_of self.new.documents) }
        ensures follow { OnOk result (FollowOn J.source self.old.commands.items (documents_of self.old.documents)
            self.new.commands.items (documents_of self.new.documents)) }
        ensures acts { IfOk result (λ acts. LogsAndClears (documents_of self.new.documents)
            (map (act_view P.eq) acts.items)) }
    {
        self.documents.invalidate_all();
        self.complaint.clear();
        let mut acts = Vec::new(self.alloc);
        acts.push(Act::log_message(self.alloc, ERROR, ALL_LOST)?)?;
        self.stop_all(&mut acts)?;
        Ok(acts)
    }

    /// Starts an analysis of each text again, such as after a change of the settings.
    ///
    /// `Err` means that an allocation failed.
    pub fn analyse_all<P: Drop + PartialEq>(
        &mut self,
        options: &J::Options,
    ) -> Result<Vec<Act<P>>, AllocError>
        ensures same { self.new.documents ≡ self.old.documents }
        ensures commands { OnOk result ((added : List (Command J))
            × (self.new.commands.items ≡ self.old.commands.items ++ added)
            × AreCommandsFor J.source (documents_of self.old.documents) added) }
        ensures follow { OnOk result (FollowOn J.source self.old.commands.items (documents_of self.old.documents)
            self.new.commands.items (documents_of self.new.documents)) }
        ensures clear { IfOk result (λ acts. All (Clears (documents_of self.new.documents))
            (map (act_view P.eq) acts.items)) }
    {
        let mut acts = Vec::new(self.alloc);
        self.look_at_all(Duration::ZERO, options, &mut acts)?;
        Ok(acts)
    }

    /// Takes the commands that start and stop the analyses: see `KeyedJobs::take_commands`.
    pub fn take_commands(&mut self) -> Vec<JobCommand<J>>
        ensures commands { result.items ≡ self.old.commands.items }
        ensures none { self.new.commands.items ≡ [] }
        ensures same { self.new.documents ≡ self.old.documents }
    {
        mem::replace(&mut self.commands, Vec::new(self.alloc))
    }

    fn note<P: Drop + PartialEq>(
        &mut self,
        notification: &Notification,
        pause: Duration,
        options: &J::Options,
        acts: &mut Vec<Act<P>>,
    ) -> Result<(), AllocError>
        requires { acts.old.items ≡ [] }
        ensures applies { OnOk result (Applies self.old.documents (Some (told (string_bytes notification.now.method)
            (view notification.now.params))) self.new.documents) }
        ensures follow { OnOk result (FollowOn J.source self.old.commands.items (documents_of self.old.documents)
            self.new.commands.items (documents_of self.new.documents)) }
        ensures reports { OnOk result (Reports self.old.documents (string_bytes notification.now.method)
            (view notification.now.params) self.new.documents (map (act_view P.eq) acts.new.items)) }
    {
        let pause = pause_after(notification, pause);
        let heard = self.documents.apply(notification);
        self.log_heard(heard, acts)?;
        match heard {
            Some(Ok(update)) => self.look_at(update.uri, pause, options, acts),
            Some(Err(missed)) => match missed.or_out_of_memory()?.uri {
                Some(uri) => self.look_at(uri, pause, options, acts),
                None => self.look_at_all(pause, options, acts),
            },
            None => Ok(()),
        }
    }

    /// Logs what was wrong with a notification, if something was.
    fn log_heard<P: Drop + PartialEq>(
        &mut self,
        heard: Option<Result<DocumentUpdate<'_>, UpdateFault<'_>>>,
        acts: &mut Vec<Act<P>>,
    ) -> Result<(), AllocError>
        ensures documents { self.new.documents ≡ self.old.documents }
        ensures commands { self.new.commands ≡ self.old.commands }
        ensures logs { OnOk result ((more : List (RustAct P)) × (acts.new.items ≡ acts.old.items ++ more)
            × LogsHeard heard.entry (map (act_view P.eq) more)) }
    {
        match heard {
            Some(Ok(update)) => warn(self.alloc, update, acts),
            Some(Err(missed)) => self.complain(missed, acts),
            None => Ok(()),
        }
    }

    /// Logs why a notification was not applied, unless the line before said the same and no text is lost.
    fn complain<P: Drop + PartialEq>(
        &mut self,
        missed: UpdateFault<'_>,
        acts: &mut Vec<Act<P>>,
    ) -> Result<(), AllocError>
        ensures documents { self.new.documents ≡ self.old.documents }
        ensures commands { self.new.commands ≡ self.old.commands }
        ensures logs { OnOk result ((more : List (RustAct P)) × (acts.new.items ≡ acts.old.items ++ more)
            × LogsFault missed.entry (map (act_view P.eq) more)) }
    {
        let line = format!(in self.alloc; "{missed}")?;
        if !missed.lost && line.as_str() == self.complaint.as_str() {
            return Ok(());
        }
        acts.push(Act::log_message(self.alloc, ERROR, line.as_str())?)?;
        self.complaint = line;
        Ok(())
    }

    /// Starts the analysis of a document after a pause, or stops it.
    fn look_at<P: Drop + PartialEq>(
        &mut self,
        uri: &str,
        pause: Duration,
        options: &J::Options,
        acts: &mut Vec<Act<P>>,
    ) -> Result<(), AllocError>
        ensures same { self.new.documents ≡ self.old.documents }
        ensures command { OnOk result ((command : Command J)
            × (self.new.commands.items ≡ self.old.commands.items ++ command ∷ [])
            × IsCommandFor J.source (documents_of self.old.documents) uri.now command) }
        ensures clear { OnOk result ((more : List (RustAct P)) × (acts.new.items ≡ acts.old.items ++ more)
            × All (Clears (documents_of self.old.documents)) (map (act_view P.eq) more)) }
    {
        let command = command_for(self.alloc, &self.documents, uri, pause, options, acts)?;
        self.commands.push(command)?;
        Ok(())
    }

    /// Does the same for each open document.
    fn look_at_all<P: Drop + PartialEq>(
        &mut self,
        pause: Duration,
        options: &J::Options,
        acts: &mut Vec<Act<P>>,
    ) -> Result<(), AllocError>
        ensures same { self.new.documents ≡ self.old.documents }
        ensures commands { OnOk result ((added : List (Command J))
            × (self.new.commands.items ≡ self.old.commands.items ++ added)
            × AreCommandsFor J.source (documents_of self.old.documents) added) }
        ensures clear { OnOk result ((more : List (RustAct P)) × (acts.new.items ≡ acts.old.items ++ more)
            × All (Clears (documents_of self.old.documents)) (map (act_view P.eq) more)) }
    {
        for (uri, _) in self.documents.iter() {
            let command = command_for(
                self.alloc,
                &self.documents,
                uri.as_str(),
                pause,
                options,
                acts,
            )?;
            self.commands.push(command)?;
        }
        Ok(())
    }

    /// Stops the analysis of each open document, since no text is known, and removes the diagnostics.
    fn stop_all<P: Drop + PartialEq>(&mut self, acts: &mut Vec<Act<P>>) -> Result<(), AllocError>
        requires { (uri : List ℕ) → known (documents_of self.old.documents) uri ≡ None }
        ensures same { self.new.documents ≡ self.old.documents }
        ensures commands { OnOk result ((added : List (Command J))
            × (self.new.commands.items ≡ self.old.commands.items ++ added)
            × AreCommandsFor J.source (documents_of self.old.documents) added) }
        ensures clear { OnOk result ((more : List (RustAct P)) × (acts.new.items ≡ acts.old.items ++ more)
            × All (Clears (documents_of self.old.documents)) (map (act_view P.eq) more)) }
    {
        for (uri, _) in self.documents.iter() {
            let command = stop(self.alloc, uri.as_str(), acts)?;
            self.commands.push(command)?;
        }
        Ok(())
    }
}

/// How long the analysis waits that this notification starts. Only an edit may soon be followed by another.
fn pause_after(notification: &Notification, pause: Duration) -> Duration {
    if notification.method.as_str() == "textDocument/didChange" {
        return pause;
    }
    Duration::ZERO
}

/// Logs the warning about a notification that was applied, if there is one.
fn warn<P: Drop + PartialEq>(
    alloc: Global,
    update: DocumentUpdate<'_>,
    acts: &mut Vec<Act<P>>,
) -> Result<(), AllocError>
    ensures { OnOk result ((more : List (RustAct P)) × (acts.new.items ≡ acts.old.items ++ more)
        × LogsWarning update.entry (map (act_view P.eq) more)) }
{
    if update.warning.is_none() {
        return Ok(());
    }
    let line = format!(in alloc; "{update}")?;
    acts.push(Act::log_message(alloc, WARNING, line.as_str())?)?;
    Ok(())
}

/// Starts an analysis of a document's text after a pause, in place of the one before. If the text is not known, the
/// analysis is stopped, and its diagnostics are removed.
fn command_for<J: Analysis, P: Drop + PartialEq>(
    alloc: Global,
    documents: &TextDocuments,
    uri: &str,
    pause: Duration,
    options: &J::Options,
    acts: &mut Vec<Act<P>>,
) -> Result<JobCommand<J>, AllocError>
    ensures command { IfOk result (λ command.
        IsCommandFor J.source (documents_of documents.now) uri.now command) }
    ensures clear { OnOk result ((more : List (RustAct P)) × (acts.new.items ≡ acts.old.items ++ more)
        × All (Clears (documents_of documents.now)) (map (act_view P.eq) more)) }
{
    let Some(document) = documents.get(uri) else {
        return stop(alloc, uri, acts);
    };
    let key = JobKey::from(String::from_str(alloc, uri)?);
    let text = DocumentSnapshot::new(alloc, uri, document)?;
    Ok(JobCommand::StartAfter(key, pause, J::analysis(alloc, text, options)?))
}

/// Stops the analysis of a document whose text is not known, and removes its diagnostics.
fn stop<J: Analysis, P: Drop + PartialEq>(
    alloc: Global,
    uri: &str,
    acts: &mut Vec<Act<P>>,
) -> Result<JobCommand<J>, AllocError>
    ensures command { IfOk result (λ command. (documents : Documents) → known documents uri.now ≡ None
        → IsCommandFor J.source documents uri.now command) }
    ensures clear { OnOk result ((more : List (RustAct P)) × (acts.new.items ≡ acts.old.items ++ more)
        × ((documents : Documents) → known documents uri.now ≡ None
        → All (Clears documents) (map (act_view P.eq) more))) }
{
    let key = JobKey::from(String::from_str(alloc, uri)?);
    acts.push(publish(alloc, uri, None, Vec::new(alloc))?)?;
    Ok(JobCommand::Stop(key))
}
