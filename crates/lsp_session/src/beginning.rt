// The beginning of what a message prints, so that an error about it stays short.
ghost use Rattle.std.specs.Prelude.{◌≤◌, ℕ, List, length, IfOk, string_bytes};

use std::alloc::{AllocError, Global};
use std::fmt;
use std::fmt::{Debug, Write};
use std::marker::Model;

/// How many bytes of a message are shown at most.
const SHOWN_BYTES: usize = 400;

/// Returns the first characters of what `{:?}` prints of a message: as many whole characters as 400 bytes have room
/// for. It takes no more memory than these.
pub(crate) fn beginning_of<D: Debug>(alloc: Global, message: &D) -> Result<String, AllocError>
    ensures { IfOk result (λ shown. length (string_bytes shown) ≤ 400) }
{
    let mut beginning = Beginning {
        text: String::with_capacity(alloc, SHOWN_BYTES)?,
    };
    // It fails once the room is full.
    let _ = write!(beginning, "{message:?}");
    Ok(beginning.into_text())
}

/// Keeps the text that is written to it, up to a number of bytes, and then fails.
#[derive(Drop)]
struct Beginning {
    text: String,
}

impl Model for Beginning {
    ghost Value = { List ℕ };

    ghost view = { λ b. string_bytes b.text };

    ghost invariant = { λ b. length (string_bytes b.text) ≤ 400 };
}

impl Beginning {
    fn into_text(self) -> String
        ensures { length (string_bytes result) ≤ 400 }
    {
        self.text
    }

    /// Adds a character, if there is room for it.
    fn push(&mut self, next: char) -> fmt::Result {
        if self.text.len() + next.len_utf8() > SHOWN_BYTES {
            return Err(fmt::Error);
        }
        match self.text.push(next) {
            Ok(()) => Ok(()),
            Err(_) => Err(fmt::Error),
        }
    }
}

impl Write for Beginning {
    fn write_str(&mut self, text: &str) -> fmt::Result {
        for next in text.chars() {
            self.push(next)?;
        }
        Ok(())
    }
}
