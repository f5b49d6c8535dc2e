//! Columns of a line.
ghost use Rattle.std.specs.Prelude.{◌≡◌, ℕ, List, length};
ghost use Rattle.std.specs.Prelude.{IfOk};
ghost use Rattle.std.specs.Str.{encode_utf8_all};
ghost use Rattle.lsp_text.specs.Characters.{characters_before};
ghost use Rattle.lsp_text.specs.declared.line_ends.LineEnds.TheVariants.{LineFeed};

use lsp_text::laws::columns_count_characters;
use lsp_text::{Position, PositionEncoding, Text};
use std::alloc::{AllocError, Global};

/// Returns how many bytes of a line stand before a column: those of the whole characters that take at most so many
/// units.
pub fn bytes_before(
    alloc: Global,
    line: &str,
    column: u32,
    encoding: PositionEncoding,
) -> Result<usize, AllocError>
    ensures { IfOk result (λ count. (characters : List ℕ) → line.now ≡ encode_utf8_all characters
        → count ≡ length (encode_utf8_all (characters_before LineFeed encoding column characters))) }
{
    columns_count_characters();
    let text = Text::new(alloc, line)?;
    let count = text.offset_at(Position::new(0, column), encoding);
    drop(text);
    Ok(count)
}
