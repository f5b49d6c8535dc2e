// The work of a long request, or of a server's own.
ghost use Rattle.serde_json.specs.Data.{Data};
ghost use Rattle.serde_json.specs.View.{view};
ghost use Rattle.std.specs.Prelude.{◌≡◌, ℕ, List, None, Some, IfOk, IfSome, option_map, string_bytes};
ghost use Rattle.lsp_message.specs.View.{outcome_view};

use lsp_message::{Notification, ResponseError, ResultText};
use serde_json::Value;
use std::alloc::{AllocError, AllocFailed, Global};
use std::time::Duration;

/// The work for one request or one key, with all data that it needs. It runs in a thread of a `JobPool`.
///
/// The ghost members say what a job is for, what its results are, what it reports, and what it asks the client. If an
/// `impl` leaves one out, that may be anything.
pub trait Job: Drop {
    ghost use Rattle.serde_json.specs.Data.{Data};
    ghost use Rattle.std.specs.Prelude.{ℕ, List, Option, ⊤};
    ghost use Rattle.lsp_jobs.specs.Ends.{Outcome};

    /// The type of the result that a job returns to its server. Take `()` if there is none.
    type Found: Drop;

    /// The job is for a request with this method and these params.
    ghost is_for: { Self → List ℕ → Data → Type 0 } = { λ _ _ _. ⊤ };

    /// The job may have this result: the reply to its request, and the result for its server.
    ghost run_post: { Self → Option Outcome → Option Self.Found → Type 0 } = { λ _ _ _. ⊤ };

    /// The job may send a notification with this method and these params while it runs.
    ghost reports: { Self → List ℕ → Data → Type 0 } = { λ _ _ _. ⊤ };

    /// The job may send the client a request with this method and these params while it runs.
    ghost asks: { Self → List ℕ → Data → Type 0 } = { λ _ _ _. ⊤ };

    /// Does the work. A job that takes long calls `JobContext::check` now and then, so that it ends soon after nobody
    /// waits for it any longer. It also reports its progress with the context.
    fn run<C: JobContext>(self, context: &mut C) -> Result<JobResult<Self::Found>, Interrupted>
        requires reporting { (method : List ℕ) (params : Data) → reports «self» method params
            → C.may method params }
        requires asking { (method : List ℕ) (params : Data) → asks «self» method params
            → C.may_send_request method params }
        ensures { IfOk result (λ done.
            run_post «self» (option_map outcome_view done.reply) done.found) };
}

/// The result of a job.
#[derive(Debug, Drop)]
pub struct JobResult<F> {
    /// The reply to its request. If it has none, the request gets the error -32603, `no result`. A job under a key needs
    /// none.
    pub reply: Option<Result<Value, ResponseError>>,
    /// The result for its server: see `KeyedJobs::found`.
    pub found: Option<F>,
}

impl<F: Drop> JobResult<F> {
    /// Makes a result that is the reply to the job's request.
    pub fn reply(outcome: Result<Value, ResponseError>) -> JobResult<F>
        ensures { (option_map outcome_view result.reply ≡ Some (outcome_view outcome)) × (result.found ≡ None) }
    {
        JobResult {
            reply: Some(outcome),
            found: None,
        }
    }

    /// Makes a result for the job's server.
    pub fn found(found: F) -> JobResult<F>
        ensures { (result.reply ≡ None) × (result.found ≡ Some «found») }
    {
        JobResult {
            reply: None,
            found: Some(found),
        }
    }
}

/// Why a job ends before its work is done. `?` returns it from the job.
#[derive(Clone, Copy, Debug, PartialEq, Eq)]
pub enum Interrupted {
    /// Nobody waits for the job any longer, or its client cancelled the progress that it shows. If its request still
    /// has no reply, it gets the error -32800, `canceled by client`.
    Cancelled,
    /// An allocation failed. The request gets the error -32603, `out of memory`.
    Memory,
}

impl From<AllocError> for Interrupted {
    fn from(error: AllocError) -> Interrupted {
        let _ = error;
        Interrupted::Memory
    }
}

impl<T: Drop> From<AllocFailed<T>> for Interrupted {
    fn from(error: AllocFailed<T>) -> Interrupted {
        drop(error);
        Interrupted::Memory
    }
}

/// What a job may do beside its work: it checks whether it is to end, sleeps, reports its progress to the client, and
/// sends it requests.
///
/// A context for tests of your job has to implement `is_cancelled`, `report` and `send`.
pub trait JobContext {
    ghost use Rattle.serde_json.specs.Data.{Data};
    ghost use Rattle.std.specs.Prelude.{ℕ, List, ⊤};

    /// A notification with this method and these params may be sent.
    ghost may: { List ℕ → Data → Type 0 } = { λ _ _. ⊤ };

    /// A request with this method and these params may be sent.
    ghost may_send_request: { List ℕ → Data → Type 0 } = { λ _ _. ⊤ };

    /// Returns whether the job is to end: nobody waits for it any longer, or its client cancelled the progress that it
    /// shows.
    fn is_cancelled(&self) -> bool;

    /// Returns `Err(Interrupted::Cancelled)` if the job is to end.
    fn check(&self) -> Result<(), Interrupted> {
        if self.is_cancelled() {
            return Err(Interrupted::Cancelled);
        }
        Ok(())
    }

    /// Sleeps for this time. If the job is to end, it is woken, and gets `Err(Interrupted::Cancelled)`. Its thread runs
    /// nothing else meanwhile. To wait before a job starts, use `JobCommand::StartAfter`, which holds no thread.
    fn sleep(&mut self, time: Duration) -> Result<(), Interrupted> {
        let _ = time;
        self.check()
    }

    /// Sends a notification while the job runs, such as `$/progress` (LSP 3.17, "Work Done Progress"), if there is room
    /// for it. False means that it was not sent: nobody waits for the job any longer, 15 of its notifications or 256 of
    /// all jobs wait to be taken, or an allocation failed. The job goes on.
    fn report(&mut self, notification: Notification) -> bool
        requires { may (string_bytes notification.method) (view notification.params) };

    /// Sends a notification that must not be dropped. It waits while there is no room for it. False means that it was
    /// not sent, since nobody waits for the job any longer: its request was cancelled or answered otherwise, or the
    /// pool ended.
    fn send(&mut self, notification: Notification) -> bool
        requires { may (string_bytes notification.method) (view notification.params) };

    /// Sends the client a request, such as `workspace/configuration` or `workspace/applyEdit`, and waits for its reply:
    /// the result or the error that the client sent. The job's thread runs nothing else meanwhile.
    ///
    /// `None` means that no reply will arrive. Either the job is to end, and goes on at once, or the session has used
    /// all of its ids. Until then a client that never replies keeps the job waiting. If the job is to end before the
    /// reply arrived, its request is cancelled at the client (LSP 3.17, "Cancellation Support"), and a later reply is
    /// dropped.
    ///
    /// The error means that an allocation failed, and nothing was sent. The default body returns `None`.
    fn send_request(
        &mut self,
        method: String,
        params: Value,
    ) -> Result<Option<Result<Value, ResponseError>>, AllocError>
        requires { may_send_request (string_bytes method) (view params) }
    {
        let _ = (method, params);
        Ok(None)
    }

    /// Keeps this notification, which is sent when the job ends, in place of the one that was kept before. So progress
    /// that began has an end. The default body does nothing.
    fn at_end(&mut self, last: Option<Notification>)
        requires { IfSome last (λ told. may (string_bytes told.method) (view told.params)) }
    {
        drop(last);
    }

    /// Makes the job end if its client cancels the progress with this token, which is a text or an integer of 32 bits
    /// (LSP 3.17, "Canceling Work Done Progress"). The error means that an allocation failed. The default body does
    /// nothing.
    fn cancelled_with(&mut self, token: &Value) -> Result<(), AllocError> {
        let _ = token;
        Ok(())
    }
}

/// The result of a job while it waits for the server.
#[derive(Debug, Drop)]
pub struct DoneJob<F> {
    /// The reply to its request, with its result as text.
    pub reply: Option<Result<ResultText, ResponseError>>,
    /// The result for its server.
    pub found: Option<F>,
}

/// Runs a job, and makes its reply text. It returns the job's result, and the tree of the reply, which nobody needs any
/// longer. If an allocation fails at that, the job ends with `Interrupted::Memory`.
pub(crate) fn run_as_text<J: Job, C: JobContext>(
    job: J,
    alloc: Global,
    context: &mut C,
) -> (Result<DoneJob<J::Found>, Interrupted>, Option<Value>)
    requires reporting { (method : List ℕ) (params : Data) → J.reports «job» method params
        → C.may method params }
    requires asking { (method : List ℕ) (params : Data) → J.asks «job» method params
        → C.may_send_request method params }
    ensures { IfOk result.0 (λ done. J.run_post «job» (option_map outcome_view done.reply) done.found) }
{
    match job.run(context) {
        Ok(done) => with_text(alloc, done),
        Err(end) => (Err(end), None),
    }
}

/// Returns the result of a job with its reply as text, and the tree of the reply. If an allocation fails, the job ends
/// with `Interrupted::Memory`.
fn with_text<F: Drop>(
    alloc: Global,
    done: JobResult<F>,
) -> (Result<DoneJob<F>, Interrupted>, Option<Value>)
    ensures { IfOk result.0 (λ kept. (option_map outcome_view kept.reply ≡ option_map outcome_view done.reply)
        × (kept.found ≡ done.found)) }
{
    let JobResult { reply, found } = done;
    let Some(outcome) = reply else {
        return (Ok(DoneJob { reply: None, found }), None);
    };
    match outcome_with_text(alloc, outcome) {
        Ok((outcome, tree)) => {
            let reply = Some(outcome);
            (Ok(DoneJob { reply, found }), tree)
        }
        Err(_) => (Err(Interrupted::Memory), None),
    }
}

/// Returns an outcome with its result as text, and the tree of the result.
fn outcome_with_text(
    alloc: Global,
    outcome: Result<Value, ResponseError>,
) -> Result<(Result<ResultText, ResponseError>, Option<Value>), AllocError>
    ensures { IfOk result (λ kept. outcome_view kept.0 ≡ outcome_view outcome) }
{
    match outcome {
        Ok(tree) => {
            let (text, tree) = ResultText::with_tree(alloc, tree)?;
            Ok((Ok(text), tree))
        }
        Err(error) => Ok((Err(error), None)),
    }
}
