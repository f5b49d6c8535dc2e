// The reading of a whole text.
ghost use Rattle.std.specs.Prelude.{◌≡◌, ◌↔◌, suc, [], IfOk, IsSome, length};
ghost use Rattle.toml.specs.Parse.{parse_document};
ghost use Rattle.toml_outline.specs.Reading.{HasKeysOf, HasRead, IsOutlineOf, ReadsOn};

use crate::outline::{Outline, Problem, Span};
use crate::scanner::Scanner;
use std::alloc::{AllocError, Global};

/// Reads a text a line at a time, so that its caller may stop between two lines.
#[derive(Drop)]
pub struct Reader<'t> {
    alloc: Global,
    text: &'t str,
    scanner: Scanner<'t>,
}

impl<'t> Reader<'t> {
    /// Begins to read a text.
    pub fn new(alloc: Global, text: &'t str) -> Reader<'t>
        ensures text { result.text.now ≡ text.now }
        ensures read { HasRead text.now (suc (length text.now)) result }
    {
        Reader {
            alloc,
            text,
            scanner: Scanner::new(alloc, text),
        }
    }

    /// Reads the next header, or the next key with its value, and returns whether there was one.
    pub fn read_line(&mut self) -> Result<bool, AllocError>
        ensures text { self.new.text ≡ self.old.text }
        ensures read { IfOk result (ReadsOn self.old self.new) }
    {
        self.scanner.next_line()
    }

    /// Ends the reading, and decides whether the text is a document of TOML 1.1. A document has no problems. If a text
    /// is none for a reason that no line shows, such as a key that is defined twice, it has one problem: the first.
    pub fn finish(self) -> Result<Outline<'t>, AllocError>
        ensures document { IfOk result (λ outline.
            outline.problems.items ≡ [] ↔ IsSome (parse_document self.entry.text.now)) }
        ensures keys { HasRead self.entry.text.now 0 self.entry → IfOk result (HasKeysOf self.entry.text.now) }
    {
        let Reader {
            alloc,
            text,
            scanner,
        } = self;
        let mut outline = scanner.into_outline();
        match toml::table_from_str(alloc, text) {
            Ok(table) => {
                drop(table);
                outline.problems = Vec::new(alloc);
            }
            Err(error) => {
                let Some(span) = error.span() else {
                    return Err(AllocError);
                };
                if outline.problems.is_empty() {
                    outline.problems.push(Problem {
                        span: Span::new(span.start, span.end),
                        message: String::from_str(alloc, error.message())?,
                    })?;
                }
            }
        }
        Ok(outline)
    }
}

/// Reads a whole text.
pub fn read(alloc: Global, text: &str) -> Result<Outline<'_>, AllocError>
    ensures { IfOk result (IsOutlineOf text.now) }
{
    let mut reader = Reader::new(alloc, text);
    for _ in 0..text.len() + 1 {
        if !reader.read_line()? {
            break;
        }
    }
    reader.finish()
}
