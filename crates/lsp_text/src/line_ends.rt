// What ends a line.

/// What ends a line of a text.
#[derive(Clone, Copy, PartialEq, Eq, Debug, Drop)]
pub enum LineEnds {
    /// `\n`, with or without a `\r` before it. In positions each `\r` counts as a character, also one before `\n`.
    LineFeed,
    /// `\n`, `\r\n` or `\r` (LSP 3.17, "Text Documents"). No position is between `\r` and `\n`.
    Standard,
}

impl LineEnds {
    ghost use Rattle.std.specs.Prelude.{◌≡◌, ◌<◌, true};
    ghost use Rattle.lsp_text.specs.Lines.{is_break as breaks};

    /// Returns whether a byte ends a line, or is the first of two that do.
    pub(crate) fn has(self, byte: u8) -> bool
        ensures value { result ≡ breaks self byte }
        ensures ascii { result ≡ true → byte < 128 }
    {
        match self {
            LineEnds::LineFeed => byte == b'\n',
            LineEnds::Standard => byte == b'\n' || byte == b'\r',
        }
    }
}
