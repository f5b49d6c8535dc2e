// What passes between clients and a server, judged while it passes.
use crate::frames::Frames;
use crate::merged::tell_stop;
use anyhow::Result;
use crossbeam_channel::{Receiver, bounded};
use lsp_judge::full::FullJudgement;
use lsp_judge::judgement::Ends;
use lsp_judge::outcome::Outcome;
use lsp_judge::passed::Passing;
use lsp_judge::report::{Report, SECOND};
use lsp_proxy::{Ended, Heard, Teller, pass_on};
use lsp_watch::Direction;
use std::alloc::AllocError;
use std::io::{self, Read, Write};
use std::net::{Net, OpenStream, Shutdown};
use std::sync::Wait;
use std::thread::{Builder, JoinHandle, Threads};
use std::time::Duration;

/// How many pieces may wait for the judgement. Beyond these what passes waits for it too.
const ROOM: usize = 1024;

/// How many seconds a side is listened to that says nothing, once what it says reaches nobody.
const LAST_SECONDS: u64 = 10;

/// Passes the bytes of a client and a server on to each other, judges them, and returns the outcome at their end.
pub fn judge_between<R, W: Write>(
    rt: &R,
    client: R::Stream,
    server: R::Stream,
    report: &Report<'_>,
    out: &mut W,
) -> Result<Outcome>
where
    R: Net + Threads + Wait + AllocGlobal + Copy + Drop + Send + 'static,
    R::Stream: Send + 'static,
{
    // A refusal only makes small writes slower.
    drop(client.set_nodelay(true));
    drop(server.set_nodelay(true));
    let (sender, heard) = bounded(rt.alloc(), ROOM)?;
    let upward = Teller::new(*rt, Direction::ToServer, sender.clone()?);
    let downward = Teller::new(*rt, Direction::ToClient, sender);
    let ends = (client.try_clone()?, server.try_clone()?);
    let upward = start(rt, upward, client.try_clone()?, server.try_clone()?)?;
    let downward = match start(rt, downward, server, client) {
        Ok(downward) => downward,
        Err(error) => {
            drop(heard);
            drop(ends.0.shutdown(Shutdown::Both));
            drop(ends.1.shutdown(Shutdown::Both));
            upward.join(rt);
            return Err(error.into());
        }
    };
    drop(ends);
    let judged = judge_heard(rt, &heard, report, out);
    drop(heard);
    upward.join(rt);
    downward.join(rt);
    judged
}

/// Starts a thread that passes on what one side sends.
fn start<R, S>(rt: &R, tell: Teller<R>, from: S, to: S) -> io::Result<JoinHandle<()>>
where
    R: Threads + Wait + AllocGlobal + Copy + Drop + Send + 'static,
    S: OpenStream + Read + Write + Drop + Send + 'static,
{
    Builder::new().spawn(rt, move || pass_direction(tell, from, to))
}

/// Passes on what one side sends. At its end the other side reads the end. If the other side is gone, the rest is only judged. If the server
/// is gone, nothing more is read from its client.
fn pass_direction<R, S>(tell: Teller<R>, from: S, to: S)
where
    R: Wait + AllocGlobal + Drop,
    S: OpenStream + Read + Write + Drop,
{
    let (mut tell, mut from, mut to) = (tell, from, to);
    if let Ended::Unwritten = pass_on(&mut tell, &mut from, &mut to) {
        drop(to.shutdown(Shutdown::Both));
        drop(from.set_read_timeout(Some(Duration::from_secs(LAST_SECONDS))));
        pass_on(&mut tell, &mut from, &mut io::sink());
    }
    // The judgement depends on which side ended first. So this end is reported before the other side can answer it by its own.
    tell.end();
    let how = match tell.direction() {
        Direction::ToServer => Shutdown::Write,
        Direction::ToClient => Shutdown::Both,
    };
    drop(to.shutdown(how));
}

/// What is judged of the two directions.
#[derive(Drop)]
struct BothDirections {
    judged: FullJudgement,
    client: Frames,
    server: Frames,
    /// Whether the server closed before the client.
    is_server_first: bool,
    /// Whether the client has closed.
    is_client_over: bool,
    /// Whether the rest only passes.
    is_over: bool,
}

/// Judges what passes, up to the end of both directions, and returns the outcome.
fn judge_heard<R: Wait, W: Write>(
    rt: &R,
    heard: &Receiver<Heard>,
    report: &Report<'_>,
    out: &mut W,
) -> Result<Outcome> {
    let alloc = report.alloc;
    let model = report.choice.model(alloc)?;
    let mut directions = BothDirections {
        judged: FullJudgement::new(alloc, report.choice.capabilities, model),
        client: Frames::new(alloc),
        server: Frames::new(alloc),
        is_server_first: false,
        is_client_over: false,
        is_over: false,
    };
    let judged = directions.judge(rt, heard, report, out);
    drop(directions);
    judged
}

impl BothDirections {
    fn judge<R: Wait, W: Write>(
        &mut self,
        rt: &R,
        heard: &Receiver<Heard>,
        report: &Report<'_>,
        out: &mut W,
    ) -> Result<Outcome> {
        for one in heard.iter(rt) {
            let judged = self.hear(&one, report, out);
            drop(one);
            judged?;
        }
        let ends = Ends {
            server: self.is_server_first && !self.is_over,
            client: false,
        };
        self.judged.end(ends, report, out)?;
        out.flush()?;
        Ok(Outcome {
            is_broken: self.judged.is_broken(),
            is_judged: self.judged.is_judged(),
            is_whole: !self.is_over,
        })
    }

    fn hear<W: Write>(&mut self, heard: &Heard, report: &Report<'_>, out: &mut W) -> Result<()> {
        if self.is_over {
            return Ok(());
        }
        let direction = match heard {
            Heard::Piece(direction, bytes) => {
                self.see(*direction, bytes.as_slice(), report, out)?;
                *direction
            }
            Heard::End(direction) => {
                self.end(*direction);
                *direction
            }
            Heard::Lost => return Err(AllocError.into()),
        };
        self.stop(direction, report, out)?;
        Ok(out.flush()?)
    }

    /// Judges the messages that a piece ends.
    fn see<W: Write>(
        &mut self,
        direction: Direction,
        piece: &[u8],
        report: &Report<'_>,
        out: &mut W,
    ) -> Result<()> {
        self.side(direction).push(piece)?;
        for _ in 0..u64::MAX {
            self.side(direction).look()?;
            let Some((place, message)) = self.side(direction).take() else {
                return Ok(());
            };
            let passing = Passing::new(direction, message);
            let place = begin_of(direction).saturating_add(place);
            let seen = self.judged.see(place, &passing, report, out);
            drop(passing);
            seen?;
        }
        Ok(())
    }

    /// Tells what is wrong with the frame that comes next, if it is bad. Then nothing more is judged.
    fn stop<W: Write>(
        &mut self,
        direction: Direction,
        report: &Report<'_>,
        out: &mut W,
    ) -> Result<()> {
        if !tell_stop(self.side(direction), begin_of(direction), report, out)? {
            self.is_over = true;
        }
        Ok(())
    }

    /// A side has closed.
    fn end(&mut self, direction: Direction) {
        match direction {
            Direction::ToServer => self.is_client_over = true,
            Direction::ToClient => self.is_server_first = !self.is_client_over,
        }
        self.side(direction).end();
    }

    fn side(&mut self, direction: Direction) -> &mut Frames {
        match direction {
            Direction::ToServer => &mut self.client,
            Direction::ToClient => &mut self.server,
        }
    }
}

/// Where the places of a direction begin.
fn begin_of(direction: Direction) -> u64 {
    match direction {
        Direction::ToServer => 0,
        Direction::ToClient => SECOND,
    }
}
