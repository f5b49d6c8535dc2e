//! A law of sessions that are judged one message at a time. It is the contract of a function.
ghost use Rattle.std.specs.Prelude.{◌≡◌, List, ℕ};
ghost use Rattle.lsp_judge.specs.Judged.{Judges};
ghost use Rattle.lsp_judge.specs.Recording.{judged_of};
ghost use Rattle.lsp_judge_c.specs.Messages.{Recorded};
ghost use Rattle.lsp_judge_c.specs.Statuses.{Picks, is_late};
ghost use Rattle.lsp_judge_c.specs.declared.LspJudgeOptions.{LspJudgeOptions};
ghost use Rattle.lsp_judge_c.specs.declared.session.Session.{Session};

/// If the messages of a recording passed one after another, and each line of it was read, the session saw what the judgement of that
/// recording saw.
pub fn a_session_is_judged_as_its_recording()
    ensures choice { (options : LspJudgeOptions) → (text : List ℕ) → (s : Session) → Recorded options text s → Picks options s.choice }
    ensures judged { (options : LspJudgeOptions) → (text : List ℕ) → (s : Session) → Recorded options text s
        → Judges s.judgement (judged_of s.choice (is_late options) text) }
    ensures read { (options : LspJudgeOptions) → (text : List ℕ) → (s : Session) → Recorded options text s → s.unread ≡ 0 }
{}
