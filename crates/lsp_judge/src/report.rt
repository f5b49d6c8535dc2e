// What there is to tell, in one of the forms.
use crate::choice::Choice;
use crate::reported::{Counts, Reported};
use crate::{json, junit, sarif, text};
use anyhow::Result;
use std::alloc::Global;
use std::cell::Cell;
use std::io::Write;

/// The form of a report.
#[derive(Clone, Copy, PartialEq, Eq)]
pub enum Form {
    Text,
    /// A line of JSON for each thing.
    Json,
    /// One object of SARIF 2.1.0.
    Sarif,
    /// One document of JUnit's XML.
    Junit,
}

/// The places of a second file begin here.
pub const SECOND: u64 = 1 << 63;

/// Where messages stand: in lines of a file, or in bytes of two files or streams of frames.
#[derive(Clone, Copy)]
pub struct Places<'a> {
    pub first: &'a str,
    pub second: Option<&'a str>,
}

impl<'a> Places<'a> {
    /// The file of a place, and the line from 1 on or the byte from 0 on.
    pub fn at(&self, place: u64) -> (&'a str, u64) {
        match self.second {
            Some(second) if place >= SECOND => (second, place.saturating_sub(SECOND)),
            _ => (self.first, place),
        }
    }

    /// What is counted.
    pub fn unit(&self) -> &'static str {
        match self.second {
            Some(_) => "byte",
            None => "line",
        }
    }
}

/// Tells what was found in some form.
#[derive(Clone, Copy)]
pub struct Report<'a> {
    pub alloc: Global,
    pub form: Form,
    pub places: Places<'a>,
    /// The server, in a log of several; it may be empty.
    pub server: &'a str,
    pub choice: &'a Choice,
    /// Whether the start of the session may be missing.
    pub may_begin_late: bool,
    /// Whether something was reported. (SARIF has commas between.)
    pub has_reported: &'a Cell<bool>,
}

impl<'a> Report<'a> {
    /// The same for one of the servers of a log.
    pub fn of_server<'s>(&self, server: &'s str) -> Report<'s>
    where
        'a: 's,
    {
        Report { server, ..*self }
    }

    /// What stands before everything.
    pub fn begin<W: Write>(alloc: Global, form: Form, out: &mut W) -> Result<()> {
        match form {
            Form::Text | Form::Json => Ok(()),
            Form::Sarif => sarif::begin(alloc, out),
            Form::Junit => junit::begin(out),
        }
    }

    /// What stands after everything.
    pub fn end<W: Write>(form: Form, out: &mut W) -> Result<()> {
        match form {
            Form::Text | Form::Json => Ok(()),
            Form::Sarif => sarif::end(out),
            Form::Junit => junit::end(out),
        }
    }

    /// What stands before the things of a file.
    pub fn begin_file<W: Write>(&self, out: &mut W) -> Result<()> {
        match self.form {
            Form::Text | Form::Json | Form::Sarif => Ok(()),
            Form::Junit => junit::begin_file(self, out),
        }
    }

    /// What stands after the things of a file.
    pub fn end_file<W: Write>(&self, out: &mut W) -> Result<()> {
        match self.form {
            Form::Text | Form::Json | Form::Sarif => Ok(()),
            Form::Junit => junit::end_file(out),
        }
    }

    /// One thing: where and what it is, and where the message stands that it goes against.
    pub fn tell<W: Write>(&self, reported: &Reported<'_>, out: &mut W) -> Result<()> {
        match self.form {
            Form::Text => text::tell(self, reported, out),
            Form::Json => json::tell(self, reported, out),
            Form::Sarif => sarif::tell(self, reported, out),
            Form::Junit => junit::tell(self, reported, out),
        }
    }

    /// Why something was not read at a place.
    pub fn stop<W: Write>(&self, place: u64, why: &str, out: &mut W) -> Result<()> {
        self.tell(&Reported::stop(place, why), out)
    }

    /// What is true of the whole file.
    pub fn note<W: Write>(&self, text: &str, out: &mut W) -> Result<()> {
        match self.form {
            Form::Text => Ok(writeln!(out, "{}: {text}", self.places.first)?),
            Form::Json => json::note(self, text, out),
            Form::Sarif | Form::Junit => Ok(()),
        }
    }

    /// How many there were of each.
    pub fn counts<W: Write>(&self, counts: &Counts, out: &mut W) -> Result<()> {
        match self.form {
            Form::Text => text::counts(self, counts, out),
            Form::Json => json::counts(self, counts, out),
            Form::Sarif => Ok(()),
            Form::Junit => junit::counts(self, counts, out),
        }
    }
}
