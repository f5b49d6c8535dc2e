// The types of LSP's meta model, as data.
ghost use Rattle.std.specs.Prelude.{◌≡◌};
ghost use Rattle.lsp_model.specs.Fits.{key_of, form_of, is_needed};

/// A type of LSP's meta model. A number stands for the type at this place of the same list.
#[derive(Clone, Copy)]
pub enum Form {
    /// Any JSON.
    Any,
    /// No value. Null stands for it.
    Nothing,
    /// Null.
    Null,
    /// A boolean.
    Boolean,
    /// A string.
    String,
    /// A whole number of 32 bits.
    Integer,
    /// A whole number from 0 to 2^31 - 1.
    Unsigned,
    /// A number.
    Decimal,
    /// A whole number that is listed: from the first one to the second.
    Listed(u32, u32),
    /// This string.
    Word(&'static str),
    /// A string that is listed.
    Words(&'static [&'static str]),
    /// A list of values of this type.
    List(usize),
    /// A list of edits of one text.
    Edits(usize),
    /// The numbers of semantic tokens.
    Tokens(usize),
    /// An object with any keys and values of this type.
    Map(usize),
    /// A value of one of these types.
    OneOf(&'static [usize]),
    /// An object with these members, and perhaps others.
    Object(&'static [Member]),
    /// An object with these members, and perhaps others. The range at the second key is within the one at the first.
    Around(&'static [Member], &'static str, &'static str),
    /// A range of a text, with these members.
    Range(&'static [Member]),
    /// A folding range, with these members.
    Folding(&'static [Member]),
}

/// A member of an object: its key and its type.
#[derive(Clone, Copy)]
pub enum Member {
    /// It has to be there.
    Required(&'static str, usize),
    /// It may be missing.
    Optional(&'static str, usize),
}

impl Member {
    /// Returns its key.
    pub fn key(self) -> &'static str
        ensures { result.now ≡ key_of self }
    {
        match self {
            Member::Required(key, _) | Member::Optional(key, _) => key,
        }
    }

    /// Returns the place of its type.
    pub fn form(self) -> usize
        ensures { result ≡ form_of self }
    {
        match self {
            Member::Required(_, form) | Member::Optional(_, form) => form,
        }
    }

    /// Returns whether it has to be there.
    pub fn is_required(self) -> bool
        ensures { result ≡ is_needed self }
    {
        match self {
            Member::Required(_, _) => true,
            Member::Optional(_, _) => false,
        }
    }
}
