// What a job answers from the open texts.
use lsp_jobs::Job;

/// A job that can answer a request from the texts that are open.
pub trait TextQuery: Job {
    ghost use Rattle.serde_json.specs.Data.{Data};
    ghost use Rattle.std.specs.Prelude.{List, ℕ};
    ghost use Rattle.lsp_jobs.specs.Ends.{Outcome};
    ghost use Rattle.lsp_text.specs.Lines.{LinedText};

    /// A request with this method and these params may have this outcome, from these texts. A text stands beside its
    /// URI.
    ghost answers: { List (List ℕ × LinedText) → List ℕ → Data → Outcome → Type 0 };
}
