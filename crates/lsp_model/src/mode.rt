// What is looked at when JSON is compared with a type.
ghost use Rattle.std.specs.Prelude.{◌≡◌};
ghost use Rattle.lsp_model.specs.Fits.{is_strict as is_strict_mode};

/// What is looked at when JSON is compared with a type.
#[derive(Clone, Copy)]
pub enum Mode {
    /// What surely fits no type. Null fits where a member may be missing, any value fits where there is to be none, and any number or
    /// string of an enumeration fits. A number with a fraction or an exponent fits as an integer, since its value may be whole.
    Loose,
    /// What LSP 3.17 does not list, too.
    Strict,
    /// As `Loose`, and edits of one text that overlap.
    Edits,
    /// As `Loose`, and semantic tokens of other than five numbers.
    Tokens,
    /// As `Loose`, and parts that are selected and not within the whole part.
    Selection,
    /// As `Loose`, and ranges that end before they start.
    Ranges,
}

impl Mode {
    /// Returns whether it is `Strict`.
    pub fn is_strict(self) -> bool
        ensures { result ≡ is_strict_mode self }
    {
        matches!(self, Mode::Strict)
    }
}
