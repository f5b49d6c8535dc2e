// The judgement of two files of frames, one of each direction, which do not say what passed first.
use crate::frames::{Frames, Next};
use anyhow::Result;
use lsp_judge::judgement::{Ends, Judgement};
use lsp_judge::outcome::Outcome;
use lsp_judge::passed::{Order, Passing};
use lsp_judge::report::Report;
use lsp_watch::Direction;
use std::io::{BufRead, Write};

/// A file of frames, and where its places begin.
#[derive(Drop)]
pub struct Side<R> {
    pub reader: R,
    pub frames: Frames,
    pub begin: u64,
}

/// Judges the messages in an order in which no rule is broken, if it finds one. A breach is reported as certain only if it is one in each
/// order.
///
/// It takes the next message of the server, unless that breaks a rule. Otherwise it takes the next one of the client. What both sides
/// announce is not judged: that needs the order.
pub fn judge_frames<C: BufRead, S: BufRead, W: Write>(
    report: &Report<'_>,
    client: &mut Side<C>,
    server: &mut Side<S>,
    out: &mut W,
) -> Result<Outcome> {
    let mut judged = Judgement::new(report.alloc, false, None);
    let outcome = judge_all(&mut judged, report, client, server, out);
    drop(judged);
    outcome
}

fn judge_all<C: BufRead, S: BufRead, W: Write>(
    judged: &mut Judgement,
    report: &Report<'_>,
    client: &mut Side<C>,
    server: &mut Side<S>,
    out: &mut W,
) -> Result<Outcome> {
    client.frames.look_on(&mut client.reader)?;
    server.frames.look_on(&mut server.reader)?;
    for _ in 0..u64::MAX {
        match next_direction(judged, &client.frames.next, &server.frames.next)? {
            Some(Direction::ToServer) => {
                let order = order_beside(&server.frames.next);
                pass(judged, Direction::ToServer, order, client, report, out)?;
            }
            Some(Direction::ToClient) => {
                let order = order_beside(&client.frames.next);
                pass(judged, Direction::ToClient, order, server, report, out)?;
            }
            None => break,
        }
    }
    let is_client_whole = tell_stop(&client.frames, client.begin, report, out)?;
    let is_server_whole = tell_stop(&server.frames, server.begin, report, out)?;
    let ends = Ends {
        server: is_end(&server.frames.next),
        client: is_end(&client.frames.next),
    };
    judged.end(ends, report, out)?;
    Ok(Outcome {
        is_broken: judged.is_broken(),
        is_judged: judged.is_judged(),
        is_whole: is_client_whole && is_server_whole,
    })
}

fn is_end(next: &Next) -> bool {
    match next {
        Next::End => true,
        Next::Message(_) | Next::More | Next::Cut | Next::Bad(_) => false,
    }
}

/// What is known of the order, where this comes next in the other file.
fn order_beside(other: &Next) -> Order {
    if is_end(other) {
        Order::BehindAll
    } else {
        Order::Unknown
    }
}

/// The direction of the next message. No message is judged that breaks a rule where the other file ends too early: the lost
/// part may have had the message that it needs.
fn next_direction(judged: &Judgement, client: &Next, server: &Next) -> Result<Option<Direction>> {
    if fits(judged, Direction::ToClient, server)? {
        return Ok(Some(Direction::ToClient));
    }
    if fits(judged, Direction::ToServer, client)? {
        return Ok(Some(Direction::ToServer));
    }
    Ok(match (client, server) {
        (Next::Message(_), Next::Message(_) | Next::End) => Some(Direction::ToServer),
        (Next::End, Next::Message(_)) => Some(Direction::ToClient),
        _ => None,
    })
}

/// Whether there is a message that breaks no rule.
fn fits(judged: &Judgement, direction: Direction, next: &Next) -> Result<bool> {
    match next {
        Next::Message(message) => Ok(judged.fits(direction, message)?),
        Next::More | Next::End | Next::Cut | Next::Bad(_) => Ok(false),
    }
}

/// Judges the next message of a file, and looks for the one after it.
fn pass<R: BufRead, W: Write>(
    judged: &mut Judgement,
    direction: Direction,
    order: Order,
    side: &mut Side<R>,
    report: &Report<'_>,
    out: &mut W,
) -> Result<()> {
    let Some((place, message)) = side.frames.take() else {
        return Ok(());
    };
    let mut passing = Passing::new(direction, message);
    passing.order = order;
    let seen = judged.see(side.begin.saturating_add(place), &passing, report, out);
    drop(passing);
    seen?;
    Ok(side.frames.look_on(&mut side.reader)?)
}

/// Tells why the frames of a direction end too early, and says whether none is bad.
pub fn tell_stop<W: Write>(
    frames: &Frames,
    begin: u64,
    report: &Report<'_>,
    out: &mut W,
) -> Result<bool> {
    let place = begin.saturating_add(frames.place());
    let (why, is_whole) = match frames.next {
        Next::Cut => ("the file is cut here", true),
        Next::Bad(why) => (why, false),
        Next::Message(_) | Next::More | Next::End => return Ok(true),
    };
    report.stop(place, why, out)?;
    Ok(is_whole)
}
