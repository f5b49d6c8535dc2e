//! The judge of logs for C: `bindings/c/lsp_judge.h`.
#![tactic(auto)]

mod handle;
pub mod laws;
mod loose;
mod messages;
mod page;
mod session;

ghost use Rattle.std.specs.Prelude.{◌≡◌, ◌≢◌, ◌<◌, ◌≤◌, ℕ, [], length, IfOk, true, false};
ghost use Rattle.lsp_message.specs.HeaderPart.{lines};
ghost use Rattle.lsp_watch.specs.CleanLog.{RepliesOnce, KeepsOrder};
ghost use Rattle.lsp_judge.specs.Recording.{first_unread, session_after};
ghost use Rattle.lsp_judge_c.specs.Statuses.{IsClean, IsBroken, IsEmpty, CleanBy, BrokenBy, EmptyBy, Picks, CountsAll};
ghost use Rattle.lsp_judge_c.specs.Statuses.{is_accepted as is_accepted_in, is_late as may_lack_its_start, side_named, level_named};

use anyhow::Result;
use lsp_judge::choice::{Choice, FailOn};
use lsp_judge::laws::a_clean_recording_keeps_order;
use lsp_judge::lines::judge_lines;
use lsp_judge::memory::{RecordingOutcome, judge_text};
use lsp_judge::report::{Form, Places, Report};
use lsp_judge::rules_list::tell_rules;
use lsp_watch::Level;
use page::{Page, Room};
use std::alloc::Global;
use std::cell::Cell;
use std::marker::Brand;

/// The version: major * 1,000,000 + minor * 1,000 + patch. C: `LSP_JUDGE_VERSION`.
const VERSION: u32 = 26_000;

/// Nothing is said: an allocation failed, or a log that is no recording can't be judged. C: `LSP_JUDGE_FAILED`.
const FAILED: u8 = 4;

/// The options, or a `size`, are refused, and nothing is said. C: `LSP_JUDGE_REFUSED`.
const REFUSED: u8 = 5;

/// The bytes of the two structs. `tests/clib/layout.c` compares them with the header.
const OPTIONS_SIZE: u64 = 24;

const VERDICT_SIZE: u64 = 32;

/// How a log is judged. C: `struct lsp_judge_options`.
#[repr(C)]
#[derive(Clone, Copy)]
pub struct LspJudgeOptions {
    pub size: u64,
    pub from_line: u64,
    pub format: u8,
    pub side: u8,
    pub level: u8,
    pub begins_late: u8,
    pub groups: u32,
}

/// What is said beside the status. C: `struct lsp_judge_verdict`.
#[repr(C)]
#[derive(Clone, Copy)]
pub struct LspJudgeVerdict {
    pub size: u64,
    pub unread: u64,
    pub needed: u64,
    pub written: u64,
}

/// A status up to 3, and its verdict.
#[derive(Clone, Copy)]
struct Judged {
    status: u8,
    verdict: LspJudgeVerdict,
}

/// Judges a log, writes the lines of the report that fit, and returns the status. After the statuses 4 and 5 the verdict is unchanged.
///
/// The format 0 is a recording: each line is `-> ` or `<- `, and the content part of a message (LSP 3.17, "Content Part").
#[unsafe(no_mangle)]
pub extern "C" fn lsp_judge_log(
    alloc: Global,
    options: &LspJudgeOptions,
    log: &[u8],
    report: &mut [u8],
    verdict: &mut LspJudgeVerdict,
) -> u8
    ensures known { result < 6 }
    ensures accepted { result ≢ REFUSED → is_accepted_in options.now verdict.old ≡ true }
    ensures refused { result ≡ REFUSED → is_accepted_in options.now verdict.old ≡ false }
    ensures unsaid { FAILED ≤ result → verdict.new ≡ verdict.old }
    ensures unread { result < FAILED → options.now.format ≡ 0 → verdict.new.unread ≡ first_unread 1 (lines log.now) }
    ensures clean { result ≡ 0 → options.now.format ≡ 0 → IsClean options.now log.now }
    ensures replies { result ≡ 0 → options.now.format ≡ 0 → CountsAll options.now → (count : ℕ) → RepliesOnce (session_after count log.now) }
    ensures order { result ≡ 0 → options.now.format ≡ 0 → CountsAll options.now → (count : ℕ) → KeepsOrder (session_after count log.now) }
    ensures broken { result ≡ 1 → options.now.format ≡ 0 → verdict.new.unread ≡ 0 → IsBroken options.now log.now }
    ensures nothing { result ≡ 2 → options.now.format ≡ 0 → verdict.new.unread ≡ 0 → IsEmpty options.now log.now }
    ensures cut { result ≡ 3 → options.now.format ≡ 0 → verdict.new.unread ≢ 0 }
    ensures within { result < FAILED → verdict.new.written ≤ length report.old }
    ensures whole { result < FAILED → verdict.new.needed ≤ length report.old → verdict.new.written ≡ verdict.new.needed }
{
    a_clean_recording_keeps_order();
    if !is_accepted(options, verdict) {
        return REFUSED;
    }
    let choice = choice_of(alloc, options);
    let judged = judge::<Brand>(alloc, options, &choice, log, report);
    drop(choice);
    match judged {
        Ok(judged) => {
            *verdict = judged.verdict;
            judged.status
        }
        Err(error) => {
            drop(error);
            FAILED
        }
    }
}

/// Writes the rules, a line of JSON for each, and returns 0. Returns 4 if an allocation failed, and 5 for another `size`. After the statuses
/// 4 and 5 the verdict is unchanged.
#[unsafe(no_mangle)]
pub extern "C" fn lsp_judge_rules(
    alloc: Global,
    report: &mut [u8],
    verdict: &mut LspJudgeVerdict,
) -> u8
    ensures known { result ≢ 0 → result ≢ FAILED → result ≡ REFUSED }
    ensures refused { result ≡ REFUSED → verdict.old.size ≢ VERDICT_SIZE }
    ensures accepted { result ≢ REFUSED → verdict.old.size ≡ VERDICT_SIZE }
    ensures unsaid { result ≢ 0 → verdict.new ≡ verdict.old }
    ensures within { result ≡ 0 → verdict.new.written ≤ length report.old }
    ensures whole { result ≡ 0 → verdict.new.needed ≤ length report.old → verdict.new.written ≡ verdict.new.needed }
{
    if verdict.size != VERDICT_SIZE {
        return REFUSED;
    }
    match list_rules::<Brand>(alloc, report) {
        Ok(listed) => {
            *verdict = listed;
            0
        }
        Err(error) => {
            drop(error);
            FAILED
        }
    }
}

/// Returns the version of the library.
#[unsafe(no_mangle)]
pub extern "C" fn lsp_judge_version() -> u32
    ensures { result ≡ 26000 }
{
    VERSION
}

fn judge<R: Room>(
    alloc: Global,
    options: &LspJudgeOptions,
    choice: &Choice,
    log: &[u8],
    room: &mut [u8],
) -> Result<Judged>
    requires size { length room.old ≡ R.size }
    requires all { choice.now.ignored.items ≡ [] }
    ensures known { IfOk result (λ it. it.status < FAILED) }
    ensures unread { IfOk result (λ it. options.now.format ≡ 0 → it.verdict.unread ≡ first_unread 1 (lines log.now)) }
    ensures clean { IfOk result (λ it. it.status ≡ 0 → options.now.format ≡ 0
        → CleanBy choice.now (may_lack_its_start options.now) log.now) }
    ensures broken { IfOk result (λ it. it.status ≡ 1 → options.now.format ≡ 0 → it.verdict.unread ≡ 0
        → BrokenBy choice.now (may_lack_its_start options.now) log.now) }
    ensures nothing { IfOk result (λ it. it.status ≡ 2 → options.now.format ≡ 0 → it.verdict.unread ≡ 0
        → EmptyBy choice.now (may_lack_its_start options.now) log.now) }
    ensures cut { IfOk result (λ it. it.status ≡ 3 → options.now.format ≡ 0 → it.verdict.unread ≢ 0) }
    ensures within { IfOk result (λ it. it.verdict.written ≤ R.size) }
    ensures whole { IfOk result (λ it. it.verdict.needed ≤ R.size → it.verdict.written ≡ it.verdict.needed) }
{
    let mut page: Page<'_, R> = Page::new(room);
    let has_reported = Cell::new(false);
    let report = report_of(alloc, options, choice, &has_reported);
    let judged = judge_format(options, log, &report, &mut page)?;
    Ok(Judged {
        status: judged.outcome.status(),
        verdict: verdict_of(&page, judged.unread),
    })
}

/// Returns how the report is written: as lines of JSON.
fn report_of<'a>(
    alloc: Global,
    options: &LspJudgeOptions,
    choice: &'a Choice,
    has_reported: &'a Cell<bool>,
) -> Report<'a>
    ensures choice { result.choice.now ≡ choice.now }
    ensures start { result.may_begin_late ≡ may_lack_its_start options.now }
{
    Report {
        alloc,
        form: Form::Json,
        places: Places {
            first: "log",
            second: None,
        },
        server: "",
        choice,
        may_begin_late: options.begins_late == 1,
        has_reported,
    }
}

/// Judges a log as its format demands. Of a log that is no recording, `unread` is 0.
fn judge_format<R: Room>(
    options: &LspJudgeOptions,
    log: &[u8],
    report: &Report<'_>,
    page: &mut Page<'_, R>,
) -> Result<RecordingOutcome>
    requires { report.now.choice.now.ignored.items ≡ [] }
    ensures unread { IfOk result (λ it. options.now.format ≡ 0 → it.unread ≡ first_unread 1 (lines log.now)) }
    ensures cut { IfOk result (λ it. options.now.format ≡ 0 → it.outcome.is_whole ≡ false → it.unread ≢ 0) }
    ensures clean { IfOk result (λ it. options.now.format ≡ 0 → it.outcome.is_broken ≡ false → it.outcome.is_judged ≡ true
        → it.outcome.is_whole ≡ true → CleanBy report.now.choice.now report.now.may_begin_late log.now) }
    ensures broken { IfOk result (λ it. options.now.format ≡ 0 → it.outcome.is_broken ≡ true → it.unread ≡ 0
        → BrokenBy report.now.choice.now report.now.may_begin_late log.now) }
    ensures nothing { IfOk result (λ it. options.now.format ≡ 0 → it.outcome.is_judged ≡ false → it.unread ≡ 0
        → EmptyBy report.now.choice.now report.now.may_begin_late log.now) }
{
    if options.format == 0 {
        return judge_text(log, options.from_line, report, page);
    }
    let mut reader = log;
    Ok(RecordingOutcome {
        outcome: judge_lines(report, &mut reader, page)?,
        unread: 0,
    })
}

fn list_rules<R: Room>(alloc: Global, room: &mut [u8]) -> Result<LspJudgeVerdict>
    requires { length room.old ≡ R.size }
    ensures within { IfOk result (λ it. it.written ≤ R.size) }
    ensures whole { IfOk result (λ it. it.needed ≤ R.size → it.written ≡ it.needed) }
{
    let mut page: Page<'_, R> = Page::new(room);
    tell_rules(alloc, Form::Json, &mut page)?;
    Ok(verdict_of(&page, 0))
}

fn verdict_of<R: Room>(page: &Page<'_, R>, unread: u64) -> LspJudgeVerdict
    ensures unread { result.unread ≡ unread }
    ensures within { result.written ≤ R.size }
    ensures whole { result.needed ≤ R.size → result.written ≡ result.needed }
{
    let extent = page.extent();
    LspJudgeVerdict {
        size: VERDICT_SIZE,
        unread,
        needed: extent.needed,
        written: extent.written,
    }
}

/// Whether the sizes are those of this version, and each option has a value that the header names.
fn is_accepted(options: &LspJudgeOptions, verdict: &LspJudgeVerdict) -> bool
    ensures { result ≡ is_accepted_in options.now verdict.now }
{
    if verdict.size != VERDICT_SIZE || options.size != OPTIONS_SIZE {
        return false;
    }
    if options.format > 1 || options.side > 2 || options.level > 2 || options.begins_late > 1 {
        return false;
    }
    if options.format == 0 {
        options.groups == 0
    } else {
        options.groups <= 1 && options.from_line <= 1
    }
}

/// What counts, as the options say. Nothing is ignored, and no rule of types or texts is judged.
fn choice_of(alloc: Global, options: &LspJudgeOptions) -> Choice
    ensures { Picks options.now result }
{
    Choice {
        fail_on: fail_on_of(options.side),
        level: level_of(options.level),
        ignored: Vec::new(alloc),
        capabilities: options.groups == 1,
        types: Vec::new(alloc),
    }
}

fn fail_on_of(side: u8) -> FailOn
    ensures { result ≡ side_named side }
{
    match side {
        0 => FailOn::Servers,
        1 => FailOn::Clients,
        _ => FailOn::Both,
    }
}

fn level_of(level: u8) -> Level
    ensures { result ≡ level_named level }
{
    match level {
        0 => Level::Must,
        1 => Level::Should,
        _ => Level::Implied,
    }
}
