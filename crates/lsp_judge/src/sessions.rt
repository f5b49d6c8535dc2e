// The judgements of the servers of a log: each has one of its own.
use crate::choice::Choice;
use crate::full::FullJudgement;
use crate::judgement::Ends;
use crate::log::Log;
use crate::passed::Passing;
use crate::report::Report;
use anyhow::{Result, ensure};
use lsp_model::Model;
use std::alloc::{AllocError, Global};
use std::io::Write;

/// How many servers a log may have.
const MOST: usize = 64;

/// A server of a log. In a log of one it has no name.
#[derive(Drop)]
struct Session {
    name: Vec<u8>,
    judged: FullJudgement,
}

/// The servers of a log.
#[derive(Drop)]
pub struct Sessions {
    alloc: Global,
    all: Vec<Session>,
}

impl Sessions {
    /// Makes a list of no sessions. It does not allocate.
    pub fn new(alloc: Global) -> Sessions {
        Sessions {
            alloc,
            all: Vec::new(alloc),
        }
    }

    /// Returns whether no session has begun.
    pub fn is_empty(&self) -> bool {
        self.all.is_empty()
    }

    /// Judges one more message of a server: the last one of a log. A log without params shows no capability, so the rules of capabilities
    /// are not judged there.
    pub fn see<W: Write>(
        &mut self,
        log: &Log,
        place: u64,
        passing: &Passing,
        report: &Report<'_>,
        out: &mut W,
    ) -> Result<()> {
        let announces = report.choice.capabilities && !log.is_short();
        let at = self.place_of(log.name(), announces, report.choice)?;
        match self.all.get_mut(at) {
            Some(session) => session.judged.see(place, passing, report, out),
            None => Ok(()),
        }
    }

    /// The place of a server in the list. A new one is added.
    fn place_of(&mut self, name: &[u8], announces: bool, choice: &Choice) -> Result<usize> {
        match self.all.iter().position(|it| it.name.as_slice() == name) {
            Some(at) => Ok(at),
            None => {
                let at = self.all.len();
                ensure!(at < MOST, "more than {MOST} servers in one log");
                self.add(name, announces, choice)?;
                Ok(at)
            }
        }
    }

    fn add(&mut self, name: &[u8], announces: bool, choice: &Choice) -> Result<(), AllocError> {
        let name = Vec::from_slice(self.alloc, name)?;
        let model = choice.model(self.alloc)?;
        let judged = FullJudgement::new(self.alloc, announces, model);
        Ok(self.all.push(Session { name, judged })?)
    }

    /// Tells what is open, and how much there was, and says whether a rule is broken.
    pub fn end<W: Write>(&mut self, report: &Report<'_>, out: &mut W) -> Result<bool> {
        let mut is_broken = false;
        for session in self.all.iter_mut() {
            let name = std::str::from_utf8(session.name.as_slice()).unwrap_or("");
            let ends = Ends {
                server: false,
                client: false,
            };
            session.judged.end(ends, &report.of_server(name), out)?;
            is_broken = is_broken || session.judged.is_broken();
        }
        Ok(is_broken)
    }
}
