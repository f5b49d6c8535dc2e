//! Laws of the units of the encodings. Each is the contract of a function, which the proofs of callers can use.
ghost use Rattle.std.specs.Prelude.{◌≡◌, ℕ, List, length};
ghost use Rattle.std.specs.Str.{encode_utf8_all};
ghost use Rattle.lsp_text.specs.Columns.{column_len, width};
ghost use Rattle.lsp_text.specs.Characters.{characters_before, line_units};
ghost use Rattle.lsp_text.specs.declared.line_ends.LineEnds.{LineEnds};
ghost use Rattle.lsp_text.specs.declared.position.PositionEncoding.{PositionEncoding};

/// Columns count the code units of characters: in UTF-8 and UTF-16 those of `char::encode_utf8` and
/// `char::encode_utf16`, in UTF-32 one for each. The bytes before a number of units are those of the whole characters
/// that take no more units. A line has the units of its characters.
pub fn columns_count_characters()
    ensures before { (ends : LineEnds) (e : PositionEncoding) (n : ℕ) (cs : List ℕ)
        → column_len ends e n (encode_utf8_all cs)
        ≡ length (encode_utf8_all (characters_before ends e n cs)) }
    ensures line { (ends : LineEnds) (e : PositionEncoding) (cs : List ℕ)
        → width ends e (encode_utf8_all cs) ≡ line_units ends e cs }
{}
