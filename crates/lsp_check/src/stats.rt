// How often each method was asked for, and how long the replies took.
use crate::pairs::{Pair, Pairs};
use anyhow::Result;
use lsp_judge::json::{quoted, side_name};
use lsp_judge::log::{Log, Step};
use lsp_judge::report::Form;
use lsp_watch::Direction;
use std::alloc::{AllocError, Global};
use std::collections::BTreeMap;
use std::io::{BufRead, Write};

/// How many methods have a row of their own.
const MOST: usize = 1000;

/// The name of the row of the others.
const OTHERS: &str = "(others)";

/// What is counted of the requests of a method.
#[derive(Drop)]
struct Row {
    direction: Direction,
    count: u64,
    cancelled: u64,
    open: u64,
    /// Of the requests and their replies.
    bytes: u64,
    /// How many replies took how many milliseconds.
    times: BTreeMap<u64, u64>,
}

/// The rows of the methods.
#[derive(Drop)]
pub struct Stats {
    alloc: Global,
    rows: BTreeMap<String, Row>,
}

impl Stats {
    pub fn new(alloc: Global) -> Stats {
        Stats {
            alloc,
            rows: BTreeMap::new(alloc),
        }
    }

    /// Counts what a log has, and says whether it had a message.
    pub fn read<B: BufRead>(&mut self, reader: &mut B) -> Result<bool> {
        let mut pairs = Pairs::new(self.alloc);
        self.read_replied(&mut pairs, reader)?;
        self.add_open(&mut pairs)?;
        Ok(pairs.has_seen())
    }

    /// Counts the requests that have a reply.
    fn read_replied<B: BufRead>(&mut self, pairs: &mut Pairs, reader: &mut B) -> Result<()> {
        let mut log = Log::new(self.alloc);
        for _ in 0..u64::MAX {
            match log.next(reader)? {
                Step::Found(found) => {
                    if let Some(pair) = pairs.see(&found, &log)? {
                        self.add(pair)?;
                    }
                }
                Step::Skipped(..) | Step::Cut(..) => {}
                Step::End => break,
            }
        }
        Ok(())
    }

    /// Counts the requests that have none.
    fn add_open(&mut self, pairs: &mut Pairs) -> Result<()> {
        for _ in 0..u64::MAX {
            match pairs.take_open() {
                Some(pair) => self.add(pair)?,
                None => break,
            }
        }
        Ok(())
    }

    /// Counts a request with its reply, or one without.
    fn add(&mut self, pair: Pair) -> Result<()> {
        let added = self.add_to_row(&pair);
        drop(pair);
        Ok(added?)
    }

    fn add_to_row(&mut self, pair: &Pair) -> Result<(), AllocError> {
        let mut name = format!(in self.alloc; "{} {}", pair.direction, pair.method)?;
        if self.rows.len() >= MOST && !self.rows.contains_key(name.as_str()) {
            name = format!(in self.alloc; "{} {OTHERS}", pair.direction)?;
        }
        if !self.rows.contains_key(name.as_str()) {
            let key = name.clone()?;
            self.rows.insert(key, Row::new(self.alloc, pair.direction))?;
        }
        match self.rows.get_mut(name.as_str()) {
            Some(row) => row.add(pair),
            None => Ok(()),
        }
    }

    /// Tells the rows.
    pub fn tell<W: Write>(&self, form: Form, out: &mut W) -> Result<()> {
        if form == Form::Text {
            writeln!(
                out,
                "{:<48} {:>7} {:>6} {:>9} {:>9} {:>9} {:>9} {:>11}",
                "method", "count", "open", "median ms", "99% ms", "worst ms", "cancelled", "bytes"
            )?;
        }
        for (name, row) in self.rows.iter() {
            match form {
                Form::Json => row.put(self.alloc, name.as_str(), out)?,
                _ => row.print(self.alloc, name.as_str(), out)?,
            }
        }
        Ok(())
    }
}

impl Row {
    fn new(alloc: Global, direction: Direction) -> Row {
        Row {
            direction,
            count: 0,
            cancelled: 0,
            open: 0,
            bytes: 0,
            times: BTreeMap::new(alloc),
        }
    }

    fn add(&mut self, pair: &Pair) -> Result<(), AllocError> {
        self.count = self.count.saturating_add(1);
        self.bytes = self.bytes.saturating_add(pair.bytes);
        if pair.is_cancelled {
            self.cancelled = self.cancelled.saturating_add(1);
        }
        if pair.end.is_none() {
            self.open = self.open.saturating_add(1);
        }
        if let Some(time) = pair.took {
            let count = self.times.entry(time)?.or_insert(0);
            *count = count.saturating_add(1);
        }
        Ok(())
    }

    /// How many replies are timed.
    fn timed(&self) -> u64 {
        let mut all: u64 = 0;
        for count in self.times.values() {
            all = all.saturating_add(*count);
        }
        all
    }

    /// The least time within which so many of a hundred replies came.
    fn within(&self, percent: u64) -> Option<u64> {
        let wanted = self.timed().saturating_mul(percent);
        let mut passed: u64 = 0;
        for (time, count) in self.times.iter() {
            passed = passed.saturating_add(*count);
            if passed.saturating_mul(100) >= wanted {
                return Some(*time);
            }
        }
        None
    }

    fn print<W: Write>(&self, alloc: Global, name: &str, out: &mut W) -> Result<()> {
        write!(out, "{name:<48} {:>7} {:>6}", self.count, self.open)?;
        for percent in [50, 99, 100] {
            let time = match self.within(percent) {
                Some(time) => format!(in alloc; "{time}")?,
                None => String::from_str(alloc, "-")?,
            };
            write!(out, " {:>9}", time.as_str())?;
        }
        Ok(writeln!(out, " {:>9} {:>11}", self.cancelled, self.bytes)?)
    }

    fn put<W: Write>(&self, alloc: Global, name: &str, out: &mut W) -> Result<()> {
        let method = name.split_once(" ").map_or(name, |it| it.1);
        let method = quoted(alloc, method)?;
        let sender = side_name(self.direction);
        write!(
            out,
            "{{\"kind\":\"stats\",\"sender\":\"{sender}\",\"method\":{method},\"count\":{},\"open\":{}",
            self.count, self.open
        )?;
        for (member, percent) in [("median", 50), ("p99", 99), ("worst", 100)] {
            if let Some(time) = self.within(percent) {
                write!(out, ",\"{member}\":{time}")?;
            }
        }
        Ok(writeln!(
            out,
            ",\"cancelled\":{},\"bytes\":{}}}",
            self.cancelled, self.bytes
        )?)
    }
}
