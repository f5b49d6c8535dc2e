// The judgement of a log in memory.
ghost use Rattle.std.specs.Prelude.{◌≡◌, ◌==◌, [], IfOk, false};
ghost use Rattle.lsp_message.specs.HeaderPart.{lines};
ghost use Rattle.lsp_judge.specs.Judged.{Judges, nothing, left};
ghost use Rattle.lsp_judge.specs.Recording.{first_unread, judged_of};

use crate::judgement::{Ends, Judgement};
use crate::outcome::Outcome;
use crate::recording::judge_recording;
use crate::report::Report;
use anyhow::Result;
use std::io::Write;

/// The outcome of the judgement of a recording.
#[derive(Clone, Copy, Debug)]
pub struct RecordingOutcome {
    pub outcome: Outcome,
    /// The first line that was not read, from 1 on; 0 if each was read.
    pub unread: u64,
}

/// Judges a recording in memory: each line is `-> ` or `<- `, and the content part of a message. What is found before the line `from` is not
/// reported. No rule of types or texts is judged. The error means that an allocation or a write failed.
pub fn judge_text<W: Write>(
    text: &[u8],
    from: u64,
    report: &Report<'_>,
    out: &mut W,
) -> Result<RecordingOutcome>
    ensures unread { IfOk result (λ it. it.unread ≡ first_unread 1 (lines text.now)) }
    ensures whole { IfOk result (λ it. it.outcome.is_whole ≡ (it.unread == 0)) }
    ensures judged { report.now.choice.now.ignored.items ≡ [] → IfOk result (λ it. it.unread ≡ 0
        → it.outcome.is_judged ≡ (judged_of report.now.choice.now report.now.may_begin_late text.now).is_begun) }
    ensures broken { report.now.choice.now.ignored.items ≡ [] → IfOk result (λ it. it.unread ≡ 0
        → it.outcome.is_broken ≡ left report.now.choice.now false false
        (judged_of report.now.choice.now report.now.may_begin_late text.now)) }
{
    let mut judged = Judgement::new(report.alloc, report.choice.capabilities, None);
    let outcome = judge_with(&mut judged, text, from, report, out);
    drop(judged);
    outcome
}

fn judge_with<W: Write>(
    judged: &mut Judgement,
    text: &[u8],
    from: u64,
    report: &Report<'_>,
    out: &mut W,
) -> Result<RecordingOutcome>
    ensures unread { IfOk result (λ it. it.unread ≡ first_unread 1 (lines text.now)) }
    ensures whole { IfOk result (λ it. it.outcome.is_whole ≡ (it.unread == 0)) }
    ensures judged { Judges judged.old (nothing report.now.choice.now.capabilities None) → report.now.choice.now.ignored.items ≡ [] → IfOk result (λ it. it.unread ≡ 0
        → it.outcome.is_judged ≡ (judged_of report.now.choice.now report.now.may_begin_late text.now).is_begun) }
    ensures broken { Judges judged.old (nothing report.now.choice.now.capabilities None) → report.now.choice.now.ignored.items ≡ [] → IfOk result (λ it. it.unread ≡ 0
        → it.outcome.is_broken ≡ left report.now.choice.now false false
        (judged_of report.now.choice.now report.now.may_begin_late text.now)) }
{
    let unread = judge_recording(judged, text, from, report, out)?;
    let is_judged = judged.is_judged();
    let ends = Ends {
        server: false,
        client: false,
    };
    judged.end(ends, report, out)?;
    Ok(RecordingOutcome {
        outcome: Outcome {
            is_broken: judged.is_broken(),
            is_judged,
            is_whole: unread == 0,
        },
        unread,
    })
}
