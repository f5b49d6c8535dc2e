//! Progress of long work, as a client shows it.
// `tools/types` wrote this file from `types.txt`: change that.
ghost use Rattle.std.specs.Prelude.{◌∷◌, [], Some, codes, option_map};
ghost use Rattle.serde_json.specs.Data.{string};
ghost use Rattle.lsp_types.specs.Json.{object_of};
ghost use Rattle.lsp_types.specs.Reads.{IsObject, Named, Optional, Required, ◌and◌};

use crate::choices::NumberOrString;
use crate::json::{FromJson, Members, Misfit, ToJson, write_member, write_some, write_text};
use lsp_json::JsonRef;
use lsp_json_write::JsonSink;
use std::alloc::Global;

/// A token for progress, which whoever requests the progress chooses (LSP 3.17, "Progress Support").
pub type ProgressToken = NumberOrString;

/// The member of a request's params that requests progress (LSP 3.17, "Client Initiated Progress"). Read it from the
/// same value as the other params.
#[derive(Drop)]
pub struct WorkDoneProgressParams {
    /// The token to report with. `None` means that no progress is requested.
    pub work_done_token: Option<ProgressToken>,
}

impl ToJson for WorkDoneProgressParams {
    ghost stands = { λ it. object_of (
        (codes "workDoneToken", option_map ⟦<ProgressToken as ToJson>⟧.stands it.work_done_token) ∷ []) };

    fn write_json<S: JsonSink>(&self, out: &mut S) -> Result<(), S::Error> {
        out.begin_object()?;
        write_some(out, "workDoneToken", &self.work_done_token)?;
        out.end_object()
    }
}

impl FromJson for WorkDoneProgressParams {
    ghost reads = { λ json it. IsObject json
        and Optional ⟦<ProgressToken as FromJson>⟧.reads (codes "workDoneToken") json it.work_done_token };

    fn from_json(alloc: Global, value: &JsonRef<'_>) -> Result<WorkDoneProgressParams, Misfit> {
        match Members::new(alloc, value).optional("workDoneToken").end() {
            Ok(read) => {
                let ((), work_done_token) = read;
                Ok(WorkDoneProgressParams { work_done_token })
            }
            Err(misfit) => Err(misfit),
        }
    }
}

/// The params of `window/workDoneProgress/create` (LSP 3.17, "Server Initiated Progress").
#[derive(Drop)]
pub struct WorkDoneProgressCreateParams {
    /// The token that the server will report with.
    pub token: ProgressToken,
}

impl ToJson for WorkDoneProgressCreateParams {
    ghost stands = { λ it. object_of (
        (codes "token", Some (⟦<ProgressToken as ToJson>⟧.stands it.token)) ∷ []) };

    fn write_json<S: JsonSink>(&self, out: &mut S) -> Result<(), S::Error> {
        out.begin_object()?;
        write_member(out, "token", &self.token)?;
        out.end_object()
    }
}

impl FromJson for WorkDoneProgressCreateParams {
    ghost reads = { λ json it. IsObject json
        and Required ⟦<ProgressToken as FromJson>⟧.reads (codes "token") json it.token };

    fn from_json(
        alloc: Global,
        value: &JsonRef<'_>,
    ) -> Result<WorkDoneProgressCreateParams, Misfit> {
        match Members::new(alloc, value).required("token").end() {
            Ok(read) => {
                let ((), token) = read;
                Ok(WorkDoneProgressCreateParams { token })
            }
            Err(misfit) => Err(misfit),
        }
    }
}

/// The params of `window/workDoneProgress/cancel` (LSP 3.17, "Canceling a Work Done Progress").
pub type WorkDoneProgressCancelParams = WorkDoneProgressCreateParams;

/// The params of `$/progress` (LSP 3.17, "Progress Support").
#[derive(Drop)]
pub struct ProgressParams<T> {
    /// The token of the request, or the one that was created.
    pub token: ProgressToken,
    /// The value: for work one `WorkDoneProgressBegin`, then any number of `WorkDoneProgressReport`, then one
    /// `WorkDoneProgressEnd`; for a result its next part.
    pub value: T,
}

impl<T: ToJson> ToJson for ProgressParams<T> {
    ghost stands = { λ it. object_of (
        (codes "token", Some (⟦<ProgressToken as ToJson>⟧.stands it.token))
        ∷ (codes "value", Some (T.stands it.value)) ∷ []) };

    fn write_json<S: JsonSink>(&self, out: &mut S) -> Result<(), S::Error> {
        out.begin_object()?;
        write_member(out, "token", &self.token)?;
        write_member(out, "value", &self.value)?;
        out.end_object()
    }
}

impl<T: FromJson> FromJson for ProgressParams<T> {
    ghost reads = { λ json it. IsObject json
        and Required ⟦<ProgressToken as FromJson>⟧.reads (codes "token") json it.token
        and Required T.reads (codes "value") json it.value };

    fn from_json(alloc: Global, value: &JsonRef<'_>) -> Result<ProgressParams<T>, Misfit> {
        match Members::new(alloc, value)
            .required("token")
            .required("value")
            .end()
        {
            Ok(read) => {
                let (((), token), value) = read;
                Ok(ProgressParams { token, value })
            }
            Err(misfit) => Err(misfit),
        }
    }
}

/// The start of work (LSP 3.17, "Work Done Progress Begin").
#[derive(Drop)]
pub struct WorkDoneProgressBegin {
    /// A short name of the work, such as `Indexing`.
    pub title: String,
    /// Whether the user may cancel it.
    pub cancellable: Option<bool>,
    /// What is being done now.
    pub message: Option<String>,
    /// How much is done, from 0 to 100. `None` means that this is not known.
    pub percentage: Option<u32>,
}

impl WorkDoneProgressBegin {
    ghost use Rattle.std.specs.Prelude.{◌≡◌, None};

    /// Makes one from the required members. The others are `None`.
    pub fn new(title: String) -> WorkDoneProgressBegin
        ensures { result ≡ record {
          title = title;
          cancellable = None;
          message = None;
          percentage = None;
        } }
    {
        WorkDoneProgressBegin {
            title,
            cancellable: None,
            message: None,
            percentage: None,
        }
    }
}

impl ToJson for WorkDoneProgressBegin {
    ghost stands = { λ it. object_of (
        (codes "cancellable", option_map ⟦<bool as ToJson>⟧.stands it.cancellable)
        ∷ (codes "kind", Some (string (codes "begin")))
        ∷ (codes "message", option_map ⟦<String as ToJson>⟧.stands it.message)
        ∷ (codes "percentage", option_map ⟦<u32 as ToJson>⟧.stands it.percentage)
        ∷ (codes "title", Some (⟦<String as ToJson>⟧.stands it.title)) ∷ []) };

    fn write_json<S: JsonSink>(&self, out: &mut S) -> Result<(), S::Error> {
        out.begin_object()?;
        write_some(out, "cancellable", &self.cancellable)?;
        write_text(out, "kind", "begin")?;
        write_some(out, "message", &self.message)?;
        write_some(out, "percentage", &self.percentage)?;
        write_member(out, "title", &self.title)?;
        out.end_object()
    }
}

impl FromJson for WorkDoneProgressBegin {
    ghost reads = { λ json it. IsObject json
        and Named (codes "kind") (codes "begin") json
        and Required ⟦<String as FromJson>⟧.reads (codes "title") json it.title
        and Optional ⟦<bool as FromJson>⟧.reads (codes "cancellable") json it.cancellable
        and Optional ⟦<String as FromJson>⟧.reads (codes "message") json it.message
        and Optional ⟦<u32 as FromJson>⟧.reads (codes "percentage") json it.percentage };

    fn from_json(alloc: Global, value: &JsonRef<'_>) -> Result<WorkDoneProgressBegin, Misfit> {
        match Members::new(alloc, value)
            .named("kind", "begin")
            .required("title")
            .optional("cancellable")
            .optional("message")
            .optional("percentage")
            .end()
        {
            Ok(read) => {
                let ((((((), ()), title), cancellable), message), percentage) = read;
                Ok(WorkDoneProgressBegin {
                    title,
                    cancellable,
                    message,
                    percentage,
                })
            }
            Err(misfit) => Err(misfit),
        }
    }
}

/// A report of the progress of work (LSP 3.17, "Work Done Progress Report").
#[derive(Drop)]
pub struct WorkDoneProgressReport {
    /// Whether the user may cancel it.
    pub cancellable: Option<bool>,
    /// What is being done now.
    pub message: Option<String>,
    /// How much is done, from 0 to 100, and not less than before.
    pub percentage: Option<u32>,
}

impl Default for WorkDoneProgressReport {
    ghost use Rattle.std.specs.Prelude.{◌≡◌, None};

    /// Makes one in which no member is set.
    fn default() -> WorkDoneProgressReport
        ensures { result ≡ record {
          cancellable = None;
          message = None;
          percentage = None;
        } }
    {
        WorkDoneProgressReport {
            cancellable: None,
            message: None,
            percentage: None,
        }
    }
}

impl ToJson for WorkDoneProgressReport {
    ghost stands = { λ it. object_of (
        (codes "cancellable", option_map ⟦<bool as ToJson>⟧.stands it.cancellable)
        ∷ (codes "kind", Some (string (codes "report")))
        ∷ (codes "message", option_map ⟦<String as ToJson>⟧.stands it.message)
        ∷ (codes "percentage", option_map ⟦<u32 as ToJson>⟧.stands it.percentage) ∷ []) };

    fn write_json<S: JsonSink>(&self, out: &mut S) -> Result<(), S::Error> {
        out.begin_object()?;
        write_some(out, "cancellable", &self.cancellable)?;
        write_text(out, "kind", "report")?;
        write_some(out, "message", &self.message)?;
        write_some(out, "percentage", &self.percentage)?;
        out.end_object()
    }
}

impl FromJson for WorkDoneProgressReport {
    ghost reads = { λ json it. IsObject json
        and Named (codes "kind") (codes "report") json
        and Optional ⟦<bool as FromJson>⟧.reads (codes "cancellable") json it.cancellable
        and Optional ⟦<String as FromJson>⟧.reads (codes "message") json it.message
        and Optional ⟦<u32 as FromJson>⟧.reads (codes "percentage") json it.percentage };

    fn from_json(alloc: Global, value: &JsonRef<'_>) -> Result<WorkDoneProgressReport, Misfit> {
        match Members::new(alloc, value)
            .named("kind", "report")
            .optional("cancellable")
            .optional("message")
            .optional("percentage")
            .end()
        {
            Ok(read) => {
                let (((((), ()), cancellable), message), percentage) = read;
                Ok(WorkDoneProgressReport {
                    cancellable,
                    message,
                    percentage,
                })
            }
            Err(misfit) => Err(misfit),
        }
    }
}

/// The end of work (LSP 3.17, "Work Done Progress End").
#[derive(Drop)]
pub struct WorkDoneProgressEnd {
    /// The outcome of the work.
    pub message: Option<String>,
}

impl Default for WorkDoneProgressEnd {
    ghost use Rattle.std.specs.Prelude.{◌≡◌, None};

    /// Makes one in which no member is set.
    fn default() -> WorkDoneProgressEnd
        ensures { result ≡ record {
          message = None;
        } }
    {
        WorkDoneProgressEnd { message: None }
    }
}

impl ToJson for WorkDoneProgressEnd {
    ghost stands = { λ it. object_of (
        (codes "kind", Some (string (codes "end")))
        ∷ (codes "message", option_map ⟦<String as ToJson>⟧.stands it.message) ∷ []) };

    fn write_json<S: JsonSink>(&self, out: &mut S) -> Result<(), S::Error> {
        out.begin_object()?;
        write_text(out, "kind", "end")?;
        write_some(out, "message", &self.message)?;
        out.end_object()
    }
}

impl FromJson for WorkDoneProgressEnd {
    ghost reads = { λ json it. IsObject json
        and Named (codes "kind") (codes "end") json
        and Optional ⟦<String as FromJson>⟧.reads (codes "message") json it.message };

    fn from_json(alloc: Global, value: &JsonRef<'_>) -> Result<WorkDoneProgressEnd, Misfit> {
        match Members::new(alloc, value)
            .named("kind", "end")
            .optional("message")
            .end()
        {
            Ok(read) => {
                let (((), ()), message) = read;
                Ok(WorkDoneProgressEnd { message })
            }
            Err(misfit) => Err(misfit),
        }
    }
}
