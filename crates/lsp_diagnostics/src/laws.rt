//! What the client gets from a server with `AnalysedDocuments`.
ghost use Rattle.std.specs.Prelude.{◌≡◌, List, []};
ghost use Rattle.lsp_documents.specs.Sessions.{HasNone};
ghost use Rattle.lsp_documents.specs.declared.documents.TextDocuments.{TextDocuments as Texts};
ghost use Rattle.lsp_jobs.specs.JobLaw.{AnswersByJobs};
ghost use Rattle.lsp_jobs.specs.declared.job_server.JobCommand.{JobCommand};
ghost use Rattle.lsp_session.specs.Session.{Exchange, Stop};
ghost use Rattle.lsp_text.specs.Lines.{LinedText};
ghost use Rattle.serde_json.specs.Data.{Data};
ghost use Rattle.lsp_diagnostics.specs.Answered.{AnswersFromOpenTexts, AnswersFromTexts};
ghost use Rattle.lsp_diagnostics.specs.Shown.{ShowsFindings, ShowsOpenTexts};

use crate::analysed::Analysis;
use crate::findings::Findings;
use crate::text_query::TextQuery;
use lsp_jobs::laws::requests_are_answered_by_their_jobs;
use lsp_jobs::{Job, JobServer, StatesJobs};
use lsp_types::{Diagnostic, ToJson};

/// In a session with jobs that begins with no documents, the diagnostics that are published at a wake-up belong to the
/// text that the server holds at that moment. They have its URI and its version. They are never those of an older text,
/// nor of a document that was closed or whose text is lost. The client's notifications since the result of `initialize`
/// made this text. If all texts were lost before a message, the server logged that at the client at this message.
///
/// `documents` and `commands` say where the server keeps its `AnalysedDocuments`. `ShowsFindings` is what the server
/// and its jobs state.
pub fn diagnostics_are_of_held_texts<S: JobServer<J>, J: Analysis + Job<Found = Findings>>()
    ensures { (documents : S → Texts) (commands : S → List (JobCommand J)) (first : S) (stop : Stop)
        (exchanges : List Exchange)
        → ShowsFindings documents commands ⟦<Diagnostic as ToJson>⟧.stands J.are J.source S.Server
        ⟦<S as StatesJobs<J>>⟧.jobs
        → commands first ≡ [] → HasNone (documents first)
        → AnswersByJobs S.Server ⟦<S as StatesJobs<J>>⟧.jobs first stop exchanges
        → ShowsOpenTexts J.are exchanges }
{}

/// In a session with jobs that begins with no documents, each reply at a wake-up is to the last request under its id.
/// It answers this request from the texts that were open when the request arrived, as the job's `answers` says. The
/// texts that the client sent since then have no part in it. Or the reply is the error of a failed allocation, or of a
/// cancellation. The client's notifications before the request made these texts. If all texts were lost before a
/// message, the server logged that at the client at this message.
///
/// `documents` says where the server keeps its documents. `AnswersFromTexts` is what the server and its jobs state.
pub fn jobs_answer_from_open_texts<S: JobServer<J>, J: TextQuery>()
    ensures { (documents : S → Texts) (first : S) (stop : Stop) (exchanges : List Exchange)
        → AnswersFromTexts documents J.answers S.Server ⟦<S as StatesJobs<J>>⟧.jobs
        → HasNone (documents first)
        → AnswersByJobs S.Server ⟦<S as StatesJobs<J>>⟧.jobs first stop exchanges
        → AnswersFromOpenTexts J.answers exchanges }
{
    requests_are_answered_by_their_jobs::<S, J>();
}
