//! A quick look at a content part, which makes no tree: whether it is surely not `exit`.
ghost use Rattle.std.specs.Prelude.{◌≡◌, Ok, length, true};
ghost use Rattle.lsp_threads.specs.GoesOn.{BeginsNoExit, IsNoExit, ObjectNoExit, PassesOther, PassesValue};

use json::{Invalid, Reader, Scratch, Token};
use std::alloc::Global;
use std::str;

/// How deep the value of a member may nest. A message nests at most 127 levels.
const DEEPEST: usize = 126;
/// The most bytes of a text for which memory is kept.
const MOST_KEPT: usize = 65536;

/// Returns whether the content part is surely not `exit`, whatever message it is. It is true for an object with a
/// `method` other than `exit`, or with an `id` and a `result` or an `error`. Nearly all messages are such objects
/// (JSON-RPC 2.0, sections 4 and 5). False says nothing.
pub fn surely_goes_on(alloc: Global, content: &[u8], kept: &mut Scratch) -> bool
    ensures { result ≡ true → IsNoExit content.now }
{
    match str::from_utf8(content) {
        Ok(text) if text.len() > MOST_KEPT => text_goes_on(text, &mut Scratch::new(alloc)),
        Ok(text) => text_goes_on(text, kept),
        Err(_) => false,
    }
}

/// Returns the same for a text.
fn text_goes_on(text: &str, scratch: &mut Scratch) -> bool
    ensures { result ≡ true → IsNoExit text.now }
{
    match Reader::new(text, scratch) {
        Ok(mut reader) => object_goes_on(&mut reader) && reader.next().is_none(),
        Err(_) => false,
    }
}

/// Returns whether an object comes next that is surely not `exit`.
fn object_goes_on(reader: &mut Reader<'_>) -> bool
    ensures { result ≡ true → ObjectNoExit reader.old }
{
    match reader.next() {
        Some(Token::BeginObject) => matches!(members_go_on(reader), Ok(true)),
        _ => false,
    }
}

/// Which members of a message were found.
#[derive(Clone, Copy, Drop)]
struct Found {
    method: bool,
    id: bool,
    outcome: bool,
}

impl Found {
    fn note(&mut self, name: &str) {
        match name {
            "method" => self.method = true,
            "id" => self.id = true,
            "result" | "error" => self.outcome = true,
            _ => {}
        }
    }

    fn is_message(self) -> bool {
        self.method || (self.id && self.outcome)
    }
}

/// Returns whether the members of an object, which come next, are those of a message that is surely not `exit`.
fn members_go_on(reader: &mut Reader<'_>) -> Result<bool, Invalid>
    ensures { result ≡ Ok true → BeginsNoExit (length reader.old) reader.old }
{
    let mut found = Found {
        method: false,
        id: false,
        outcome: false,
    };
    'members: while let Some(name) = reader.next_key()? {
        found.note(name);
        if !passes_value(reader, name)? {
            return Ok(false);
        }
    }
    Ok(found.is_message())
}

/// Skips the value of a member. Returns false if it may be the method `exit`.
fn passes_value(reader: &mut Reader<'_>, name: &str) -> Result<bool, Invalid>
    ensures { result ≡ Ok true → PassesValue name.now reader.old reader.new }
{
    if name == "method" {
        return Ok(passes_other(reader));
    }
    reader.skip_value(DEEPEST)?;
    Ok(true)
}

/// Takes the next token. Returns whether it is a text other than `exit`.
fn passes_other(reader: &mut Reader<'_>) -> bool
    ensures { result ≡ true → PassesOther reader.old reader.new }
{
    match reader.next() {
        Some(Token::String(name)) => name != "exit",
        _ => false,
    }
}
