// What C calls to judge a session one message at a time.
ghost use Rattle.std.specs.Prelude.{◌≡◌, ◌≢◌, ◌<◌, ◌≤◌, ℕ, List, length, take, is_some, true, false, None, MatchOption};
ghost use Rattle.lsp_judge_c.specs.Messages.{may_open as may_open_in, takes_message as takes_message_in, takes_end as takes_end_in, direction_named, server_ended, client_ended, Begins, Passes, IsEndOf, Recorded, status_after, status_of_recording};
ghost use Rattle.lsp_judge_c.specs.Statuses.{is_late};

use crate::handle::LspJudgeSession;
use crate::laws::a_session_is_judged_as_its_recording;
use crate::session::Session;
use crate::{FAILED, LspJudgeOptions, LspJudgeVerdict, OPTIONS_SIZE, REFUSED, VERDICT_SIZE};
use lsp_judge::judgement::Ends;
use lsp_watch::Direction;
use std::alloc::Global;
use std::mem::replace;

/// Opens a session, and returns 0. One that is open is freed first. Returns 4 if an allocation failed, and 5 if an option or the `size` is
/// refused: then the session is unchanged.
#[unsafe(no_mangle)]
pub extern "C" fn lsp_judge_new(
    alloc: Global,
    options: &LspJudgeOptions,
    session: &mut LspJudgeSession,
) -> u8
    ensures known { result ≢ 0 → result ≢ FAILED → result ≡ REFUSED }
    ensures accepted { result ≢ REFUSED → may_open_in options.now ≡ true }
    ensures refused { result ≡ REFUSED → may_open_in options.now ≡ false }
    ensures opened { result ≡ 0 → MatchOption session.new.value ⊥ (λ s. Begins options.now s) }
    ensures kept { result ≢ 0 → session.new.value ≡ session.old.value }
{
    if !may_open(options) {
        return REFUSED;
    }
    match Box::new(alloc, Session::new(alloc, options)) {
        Ok(opened) => {
            free(alloc, replace(session, LspJudgeSession::of_box(opened)));
            0
        }
        Err(_) => FAILED,
    }
}

/// Judges one more message, writes the lines of the report that fit, and returns the status. Returns 4 if an allocation failed: then the
/// session is closed. Returns 5 if the session is closed, or another argument is refused: then it is unchanged. After both the verdict is
/// unchanged.
///
/// The direction 0 is to the server, and 1 to the client. The place is counted from 1 on: the report names it as the line.
#[unsafe(no_mangle)]
pub extern "C" fn lsp_judge_message(
    alloc: Global,
    session: &mut LspJudgeSession,
    direction: u8,
    place: u64,
    content: &[u8],
    report: &mut [u8],
    verdict: &mut LspJudgeVerdict,
) -> u8
    ensures known { result < 6 }
    ensures accepted { result ≢ REFUSED
        → takes_message_in (is_some session.old.value) direction place verdict.old ≡ true }
    ensures refused { result ≡ REFUSED
        → takes_message_in (is_some session.old.value) direction place verdict.old ≡ false }
    ensures kept { result ≡ REFUSED → session.new.value ≡ session.old.value }
    ensures failed { result ≡ FAILED → session.new.value ≡ None }
    ensures unsaid { FAILED ≤ result → verdict.new ≡ verdict.old }
    ensures seen { result < FAILED → MatchOption session.old.value ⊥ (λ before. MatchOption session.new.value ⊥
        (λ after. Passes before after (direction_named direction) place content.now)) }
    ensures status { result < FAILED → MatchOption session.new.value ⊥ (λ after. result ≡ status_after after) }
    ensures unread { result < FAILED → MatchOption session.new.value ⊥ (λ after. verdict.new.unread ≡ after.unread) }
    ensures within { result < FAILED → verdict.new.written ≤ length report.old }
    ensures whole { result < FAILED → verdict.new.needed ≤ length report.old → verdict.new.written ≡ verdict.new.needed }
{
    if !takes_message(direction, place, verdict) {
        return REFUSED;
    }
    let Some(mut kept) = replace(session, LspJudgeSession::closed()).into_box(alloc) else {
        return REFUSED;
    };
    match kept.see(alloc, direction_of(direction), place, content) {
        Ok(reported) => {
            *verdict = put(reported.report.as_slice(), kept.unread, report);
            free(alloc, replace(session, LspJudgeSession::of_box(kept)));
            reported.status
        }
        Err(error) => {
            drop(error);
            FAILED
        }
    }
}

/// Ends a session, and closes it: tells the requests without a reply and how much there was, writes the lines of the report that fit, and
/// returns the status. If the messages of a recording passed in it, the status is that of the recording. Returns 4 if an allocation failed, and 5 if the session is closed, or another argument is refused: then it is
/// unchanged. After both the verdict is unchanged.
///
/// The server has ended at 1 and 3, and the client at 2 and 3. A side has also ended where `exit` passed.
#[unsafe(no_mangle)]
pub extern "C" fn lsp_judge_end(
    alloc: Global,
    session: &mut LspJudgeSession,
    ended: u8,
    report: &mut [u8],
    verdict: &mut LspJudgeVerdict,
) -> u8
    ensures known { result < 6 }
    ensures accepted { result ≢ REFUSED → takes_end_in (is_some session.old.value) ended verdict.old ≡ true }
    ensures refused { result ≡ REFUSED → takes_end_in (is_some session.old.value) ended verdict.old ≡ false }
    ensures kept { result ≡ REFUSED → session.new.value ≡ session.old.value }
    ensures closed { result ≢ REFUSED → session.new.value ≡ None }
    ensures unsaid { FAILED ≤ result → verdict.new ≡ verdict.old }
    ensures status { result < FAILED → MatchOption session.old.value ⊥ (λ before. IsEndOf before ended result) }
    ensures recorded { result < FAILED → MatchOption session.old.value ⊥ (λ before. (options : LspJudgeOptions) → (text : List ℕ)
        → Recorded options text before → result ≡ status_of_recording before.choice (is_late options) ended text) }
    ensures unread { result < FAILED → MatchOption session.old.value ⊥ (λ before. verdict.new.unread ≡ before.unread) }
    ensures within { result < FAILED → verdict.new.written ≤ length report.old }
    ensures whole { result < FAILED → verdict.new.needed ≤ length report.old → verdict.new.written ≡ verdict.new.needed }
{
    a_session_is_judged_as_its_recording();
    if !takes_end(ended, verdict) {
        return REFUSED;
    }
    let Some(mut kept) = replace(session, LspJudgeSession::closed()).into_box(alloc) else {
        return REFUSED;
    };
    match kept.end(alloc, ends_of(ended)) {
        Ok(reported) => {
            *verdict = put(reported.report.as_slice(), kept.unread, report);
            reported.status
        }
        Err(error) => {
            drop(error);
            FAILED
        }
    }
}

/// Closes a session, and frees what it keeps. One that is closed stays so.
#[unsafe(no_mangle)]
pub extern "C" fn lsp_judge_free(alloc: Global, session: &mut LspJudgeSession)
    ensures { session.new.value ≡ None }
{
    free(alloc, replace(session, LspJudgeSession::closed()));
}

/// Writes the lines of a report that fit, and returns the verdict.
fn put(report: &[u8], unread: u64, room: &mut [u8]) -> LspJudgeVerdict
    ensures unread { result.unread ≡ unread }
    ensures needed { result.needed ≡ length report.now }
    ensures within { result.written ≤ length room.old }
    ensures whole { length report.now ≤ length room.old → result.written ≡ length report.now }
    ensures bytes { take result.written room.new ≡ take result.written report.now }
{
    let count = fitting(report, room.len());
    room[..count].copy_from_slice(&report[..count]);
    LspJudgeVerdict {
        size: VERDICT_SIZE,
        unread,
        needed: report.len() as u64,
        written: count as u64,
    }
}

/// Returns how many bytes of a report fit: all, or its first lines that fit whole.
fn fitting(report: &[u8], room: usize) -> usize
    ensures within { (result ≤ length report.now) × (result ≤ room) }
    ensures whole { length report.now ≤ room → result ≡ length report.now }
{
    if report.len() <= room {
        return report.len();
    }
    match report[..room].iter().rposition(|it| *it == b'\n') {
        Some(end) => end + 1,
        None => 0,
    }
}

/// Frees what a handle keeps.
fn free(alloc: Global, session: LspJudgeSession) {
    drop(session.into_box(alloc));
}

/// Whether the size is that of this version, and each option has a value that the header names.
fn may_open(options: &LspJudgeOptions) -> bool
    ensures { result ≡ may_open_in options.now }
{
    if options.size != OPTIONS_SIZE || options.format > 1 || options.side > 2 {
        return false;
    }
    if options.level > 2 || options.begins_late > 1 {
        return false;
    }
    options.groups <= 1 && options.from_line <= 1
}

/// Whether an open session takes these arguments.
fn takes_message(direction: u8, place: u64, verdict: &LspJudgeVerdict) -> bool
    ensures { result ≡ takes_message_in true direction place verdict.now }
{
    verdict.size == VERDICT_SIZE && direction <= 1 && place != 0
}

/// Whether an open session takes these arguments of its end.
fn takes_end(ended: u8, verdict: &LspJudgeVerdict) -> bool
    ensures { result ≡ takes_end_in true ended verdict.now }
{
    verdict.size == VERDICT_SIZE && ended <= 3
}

/// Returns the direction of a number.
fn direction_of(direction: u8) -> Direction
    ensures { result ≡ direction_named direction }
{
    match direction {
        0 => Direction::ToServer,
        _ => Direction::ToClient,
    }
}

/// Returns which sides have ended.
fn ends_of(ended: u8) -> Ends
    ensures server { result.server ≡ server_ended ended }
    ensures client { result.client ≡ client_ended ended }
{
    Ends {
        server: ended == 1 || ended == 3,
        client: ended == 2 || ended == 3,
    }
}
