// Where a value does not fit its type.
use crate::findings::nothing;
use crate::form::{Form, Member};
use crate::mode::Mode;
use crate::model::Model;
use crate::plain::value_of;
use lsp_watch::{Direction, Entry, Kind, Watch};
use serde_json::Value;
use std::alloc::{AllocError, Global};
use std::fmt;

/// How deep a place is looked for.
const STEPS: u32 = 1000;

/// Where the params or the result of a message do not fit their type.
#[derive(Debug, Drop)]
pub struct Misfit {
    /// The place in the message, such as `/params/position/line` (RFC 6901).
    pub path: String,
    wanted: Wanted,
}

/// What is wanted there.
#[derive(Clone, Copy, Debug, Drop)]
enum Wanted {
    /// A member.
    Member,
    /// A value of this kind.
    Kind(&'static str),
    /// This string.
    Word(&'static str),
    /// A value of one of several types.
    Case,
    /// What the mode looks at.
    Else,
}

/// A value that does not fit, and the place of its type.
#[derive(Clone, Copy)]
struct Step<'v> {
    at: usize,
    value: &'v Value,
}

/// What a look at the parts of a value gives.
enum Part<'v> {
    /// This part does not fit.
    Inner(Step<'v>),
    /// The value itself does not.
    Here(Wanted),
}

/// How a value is like a type.
#[derive(Clone, Copy)]
enum Likeness {
    /// It fits the type loosely.
    Fits,
    /// It is a list or an object, as the type is, and has the members that the type requires.
    Members,
    /// It is a list or an object, as the type is.
    Kind,
}

/// A search for the innermost part that does not fit.
#[derive(Drop)]
struct Search<'m> {
    alloc: Global,
    model: &'m Model,
    mode: Mode,
    path: String,
}

impl Model {
    /// Returns where the params or the result of a message are unfit in a mode, if `is_unfit` returns true. The watch saw the messages before
    /// it. `None` means that the model does not have the method.
    ///
    /// The error means that an allocation failed.
    pub fn misfit(
        &self,
        alloc: Global,
        mode: Mode,
        watch: &Watch,
        direction: Direction,
        message: &Entry,
    ) -> Result<Option<Misfit>, AllocError> {
        let Some(at) = self.type_in(watch, direction, message) else {
            return Ok(None);
        };
        let (path, value) = match message.kind() {
            Kind::Reply(_, _) => ("/result", message.tree().get("result")),
            Kind::Request(_) | Kind::Notification => ("/params", message.params()),
        };
        let search = Search {
            alloc,
            model: self,
            mode,
            path: String::from_str(alloc, path)?,
        };
        let empty = nothing(alloc);
        let misfit = match value {
            None => search.end(at, &empty),
            Some(Value::Null) if path == "/params" => search.end(at, &empty),
            Some(value) => search.end(at, value),
        };
        drop(empty);
        Ok(Some(misfit?))
    }

    /// Returns the place of the type of what a message carries.
    fn type_in(&self, watch: &Watch, direction: Direction, message: &Entry) -> Option<usize> {
        match message.kind() {
            Kind::Reply(id, _) => {
                let asked = watch.waiting(direction.other(), id)?;
                Some(
                    self.method(direction.other(), asked.method.as_str())?
                        .result,
                )
            }
            Kind::Request(_) | Kind::Notification => Some(
                self.method(direction, message.method())?.params,
            ),
        }
    }
}

impl Search<'_> {
    /// Goes from a value that does not fit to the innermost part that does not.
    fn end(mut self, at: usize, value: &Value) -> Result<Misfit, AllocError> {
        let mut step = Step { at, value };
        let mut wanted = Wanted::Else;
        for _ in 0..STEPS {
            match self.part_of(step)? {
                Part::Inner(inner) => step = inner,
                Part::Here(here) => {
                    wanted = here;
                    break;
                }
            }
        }
        let Search { path, .. } = self;
        Ok(Misfit { path, wanted })
    }

    /// Returns the part of a value that does not fit, and adds its key to the path.
    fn part_of<'v>(&mut self, step: Step<'v>) -> Result<Part<'v>, AllocError> {
        let Some(form) = self.model.types.get(step.at) else {
            return Ok(Part::Here(Wanted::Else));
        };
        match form {
            Form::List(at) | Form::Edits(at) | Form::Tokens(at) => self.item_of(*at, step.value),
            Form::Map(at) => self.value_in(*at, step.value),
            Form::Object(members)
            | Form::Around(members, _, _)
            | Form::Range(members)
            | Form::Folding(members) => self.member_of(members, step.value),
            Form::OneOf(cases) => Ok(self.case_of(cases, step.value)),
            Form::Word(word) => Ok(Part::Here(Wanted::Word(word))),
            plain => Ok(Part::Here(Wanted::Kind(kind_of(*plain, self.mode)))),
        }
    }

    fn item_of<'v>(&mut self, at: usize, value: &'v Value) -> Result<Part<'v>, AllocError> {
        let Some(items) = value.as_array() else {
            return Ok(Part::Here(Wanted::Kind("list")));
        };
        for (index, item) in items.iter().enumerate() {
            if !self.model.fits(self.mode, at, item) {
                let key = format!(in self.alloc; "{index}")?;
                self.push(key.as_str())?;
                return Ok(Part::Inner(Step { at, value: item }));
            }
        }
        Ok(Part::Here(Wanted::Else))
    }

    fn value_in<'v>(&mut self, at: usize, value: &'v Value) -> Result<Part<'v>, AllocError> {
        let Some(members) = value.as_object() else {
            return Ok(Part::Here(Wanted::Kind("object")));
        };
        for (key, member) in members.iter() {
            if !self.model.fits(self.mode, at, member) {
                self.push(key.as_str())?;
                return Ok(Part::Inner(Step { at, value: member }));
            }
        }
        Ok(Part::Here(Wanted::Else))
    }

    fn member_of<'v>(
        &mut self,
        members: &[Member],
        value: &'v Value,
    ) -> Result<Part<'v>, AllocError> {
        if !value.is_object() {
            return Ok(Part::Here(Wanted::Kind("object")));
        }
        for member in members {
            match value_of(*member, self.mode.is_strict(), value) {
                None if member.is_required() => {
                    self.push(member.key())?;
                    return Ok(Part::Here(Wanted::Member));
                }
                Some(found) if !self.model.fits(self.mode, member.form(), found) => {
                    self.push(member.key())?;
                    return Ok(Part::Inner(Step {
                        at: member.form(),
                        value: found,
                    }));
                }
                _ => {}
            }
        }
        Ok(Part::Here(Wanted::Else))
    }

    /// Returns the type of several that a value is meant to have. It is the only one that the value fits loosely, or whose members it has,
    /// or which is a list or an object as the value is.
    fn case_of<'v>(&self, cases: &[usize], value: &'v Value) -> Part<'v> {
        let found = self
            .only(cases, value, Likeness::Fits)
            .or(self.only(cases, value, Likeness::Members))
            .or(self.only(cases, value, Likeness::Kind));
        match found {
            Some(at) => Part::Inner(Step { at, value }),
            None => Part::Here(Wanted::Case),
        }
    }

    /// Returns the only type of several that a value is like.
    fn only(&self, cases: &[usize], value: &Value, likeness: Likeness) -> Option<usize> {
        let mut only = None;
        for case in cases {
            if self.is_alike(*case, value, likeness) {
                if only.is_some() {
                    return None;
                }
                only = Some(*case);
            }
        }
        only
    }

    fn is_alike(&self, at: usize, value: &Value, likeness: Likeness) -> bool {
        match likeness {
            Likeness::Fits => self.model.fits(Mode::Loose, at, value),
            Likeness::Members => self.is_of_kind(at, value) && self.has_members(at, value),
            Likeness::Kind => self.is_of_kind(at, value),
        }
    }

    /// Returns whether a value is a list, and the type takes lists, or both is so of objects.
    fn is_of_kind(&self, at: usize, value: &Value) -> bool {
        match self.model.types.get(at) {
            Some(Form::List(_) | Form::Edits(_) | Form::Tokens(_)) => value.is_array(),
            Some(
                Form::Map(_)
                | Form::Object(_)
                | Form::Around(_, _, _)
                | Form::Range(_)
                | Form::Folding(_),
            ) => value.is_object(),
            _ => false,
        }
    }

    /// Returns whether an object, or the first one of a list, has the members that its type requires.
    fn has_members(&self, at: usize, value: &Value) -> bool {
        match self.model.types.get(at) {
            Some(Form::List(inner) | Form::Edits(inner)) => match value.get(0) {
                Some(first) => self.has_keys(*inner, first),
                None => true,
            },
            _ => self.has_keys(at, value),
        }
    }

    fn has_keys(&self, at: usize, value: &Value) -> bool {
        match self.model.types.get(at) {
            Some(
                Form::Object(members)
                | Form::Around(members, _, _)
                | Form::Range(members)
                | Form::Folding(members),
            ) => members
                .iter()
                .all(|it| !it.is_required() || value.get(it.key()).is_some()),
            _ => true,
        }
    }

    /// Adds a key to the path (RFC 6901).
    fn push(&mut self, key: &str) -> Result<(), AllocError> {
        self.path.push_str("/")?;
        for char in key.chars() {
            match char {
                '~' => self.path.push_str("~0")?,
                '/' => self.path.push_str("~1")?,
                other => self.path.push(other)?,
            }
        }
        Ok(())
    }
}

/// Returns what values of a type are called.
fn kind_of(form: Form, mode: Mode) -> &'static str {
    match form {
        Form::Listed(_, _) if mode.is_strict() => "number that is listed",
        Form::Words(_) if mode.is_strict() => "string that is listed",
        Form::Nothing | Form::Null => "null",
        Form::Boolean => "boolean",
        Form::String | Form::Words(_) => "string",
        Form::Integer | Form::Listed(_, _) => "integer",
        Form::Unsigned => "uinteger",
        Form::Decimal => "number",
        _ => "such value",
    }
}

impl Misfit {
    /// Returns a place of which nothing else is said.
    pub(crate) fn at(path: String) -> Misfit {
        Misfit {
            path,
            wanted: Wanted::Else,
        }
    }
}

impl fmt::Display for Misfit {
    fn fmt<W: fmt::Write>(&self, f: &mut fmt::Formatter<W>) -> fmt::Result {
        let path = &self.path;
        match self.wanted {
            Wanted::Member => write!(f, "`{path}` is missing"),
            Wanted::Kind(kind) => write!(f, "`{path}` is no {kind}"),
            Wanted::Word(word) => write!(f, "`{path}` is not `{word}`"),
            Wanted::Case => write!(f, "`{path}` has none of its types"),
            Wanted::Else => write!(f, "`{path}`"),
        }
    }
}
