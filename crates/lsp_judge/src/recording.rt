// The judgement of a recording in memory: each line is `-> ` or `<- `, and the content part of a message.
ghost use Rattle.std.specs.List.{list_all, list_any};
ghost use Rattle.std.specs.Prelude.{◌≡◌, ◌+◌, ◌∷◌, [], drop, IfOk, OnOk, MatchOption, is_some, true, false};
ghost use Rattle.lsp_message.specs.HeaderPart.{lines};
ghost use Rattle.lsp_judge.specs.Judged.{Judged, Judges, nothing};
ghost use Rattle.lsp_judge.specs.Recording.{direction_of, line_tree, tree_in, is_read as is_read_in, is_blank as is_blank_in, first_unread, with_line, judged_of, says_unread as says_unread_in};

use crate::judgement::Judgement;
use crate::passed::Passing;
use crate::report::Report;
use anyhow::Result;
use lsp_watch::{Direction, LoggedMessage, Rule};
use std::io::{self, BufRead, Write};

/// What is reported of a line that has neither mark.
const NO_DIRECTION: &str = "neither `-> ` nor `<- ` begins the line";

/// Judges each line of a recording, and returns the first line that was not read: 0 if each was read. What is found before the line `from`
/// is not reported.
///
/// A line was read if it has a direction and its content is JSON in UTF-8, or if it is blank. The error means that an allocation or a
/// write failed.
pub fn judge_recording<W: Write>(
    judged: &mut Judgement,
    text: &[u8],
    from: u64,
    report: &Report<'_>,
    out: &mut W,
) -> Result<u64>
    ensures unread { IfOk result (λ unread. unread ≡ first_unread 1 (lines text.now)) }
    ensures seen { Judges judged.old (nothing report.now.choice.now.capabilities None) → report.now.choice.now.ignored.items ≡ [] → IfOk result (λ unread. unread ≡ 0
        → Judges judged.new (judged_of report.now.choice.now report.now.may_begin_late text.now)) }
{
    let mut line = Vec::new(report.alloc);
    let mut rest = text;
    let mut number = 0;
    let mut unread = 0;
    while !rest.is_empty() {
        line.clear();
        rest.read_until(b'\n', &mut line)?;
        number += 1;
        let is_read = see_from(judged, from, number, line.as_slice(), report, out)?;
        if !is_read && unread == 0 {
            unread = number;
        }
    }
    Ok(unread)
}

/// Sees a line, and reports what is found if the line is not one before `from`. Returns whether the line was read.
fn see_from<W: Write>(
    judged: &mut Judgement,
    from: u64,
    number: u64,
    line: &[u8],
    report: &Report<'_>,
    out: &mut W,
) -> Result<bool>
    ensures read { IfOk result (λ is_read. is_read ≡ is_read_in line.now) }
    ensures seen { (j : Judged) → Judges judged.old j → report.now.choice.now.ignored.items ≡ [] → IfOk result (λ is_read. is_read ≡ true
        → Judges judged.new (with_line report.now.choice.now report.now.may_begin_late number j (line_tree line.now))) }
{
    if number < from {
        see_line(judged, number, line, report, &mut io::sink())
    } else {
        see_line(judged, number, line, report, out)
    }
}

/// Sees a line, reports the rules that its message breaks, and returns whether the line was read.
fn see_line<W: Write>(
    judged: &mut Judgement,
    number: u64,
    line: &[u8],
    report: &Report<'_>,
    out: &mut W,
) -> Result<bool>
    ensures read { IfOk result (λ is_read. is_read ≡ is_read_in line.now) }
    ensures seen { (j : Judged) → Judges judged.old j → report.now.choice.now.ignored.items ≡ [] → IfOk result (λ is_read. is_read ≡ true
        → Judges judged.new (with_line report.now.choice.now report.now.may_begin_late number j (line_tree line.now))) }
{
    let Some((direction, content)) = marked(line) else {
        let is_read = is_blank_line(line);
        if !is_read {
            report.stop(number, NO_DIRECTION, out)?;
        }
        return Ok(is_read);
    };
    let message = LoggedMessage::from_content(report.alloc, content)?;
    let is_read = !is_unread(&message);
    let passing = Passing::new(direction, message);
    let seen = judged.see(number, &passing, report, out);
    drop(passing);
    seen?;
    Ok(is_read)
}

/// The direction that the mark of a line shows, and the content after the mark.
fn marked(line: &[u8]) -> Option<(Direction, &[u8])>
    ensures { MatchOption result (direction_of line.now ≡ None) (λ it. (direction_of line.now ≡ Some it.0) × (it.1.now ≡ drop 3 line.now)) }
{
    if let Some(content) = line.strip_prefix(b"-> ") {
        return Some((Direction::ToServer, content));
    }
    let content = line.strip_prefix(b"<- ")?;
    Some((Direction::ToClient, content))
}

fn is_blank_line(line: &[u8]) -> bool
    ensures { result ≡ list_all is_blank_in line.now }
{
    line.iter().all(|it| is_blank(*it))
}

fn is_blank(byte: u8) -> bool
    ensures { result ≡ is_blank_in byte }
{
    byte == b' ' || byte == b'\t' || byte == b'\r' || byte == b'\n'
}

/// Whether the content of a message is no JSON in UTF-8, as far as this reader reads it.
fn is_unread(message: &LoggedMessage) -> bool
    ensures { result ≡ list_any says_unread_in message.now.faults.items }
{
    message.faults.iter().any(|it| says_unread(*it))
}

/// Whether a rule says that a content could not be read.
fn says_unread(rule: Rule) -> bool
    ensures { result ≡ says_unread_in rule }
{
    matches!(rule, Rule::NotUtf8 | Rule::NotJson | Rule::Unreadable)
}
