//! Semantic tokens: the kind of each token of a text.
ghost use Rattle.std.specs.Prelude.{◌≡◌, true, false, IfOk, MatchOption, None, OnOk, ◌++◌};

use crate::semantic_tokens::SemanticTokens;
use std::alloc::{AllocError, Global};

/// A token of a text, with its kind (LSP 3.17, "Semantic Tokens").
#[derive(Clone, Copy, Drop)]
pub struct SemanticToken {
    /// Its line, from 0.
    pub line: u32,
    /// Where it begins in its line, in the units of `Position::character`.
    pub start: u32,
    /// How long it is, in the same units.
    pub length: u32,
    /// Its type: an index into the legend's `token_types`.
    pub token_type: u32,
    /// Its modifiers. Bit 0 means the first of the legend's `token_modifiers`, and so on.
    pub token_modifiers: u32,
}

impl SemanticToken {
    ghost use Rattle.lsp_types.specs.Tokens.{is_behind, five_behind};

    /// Returns whether the token is at a place or after it.
    fn is_behind(&self, line: u32, start: u32) -> bool
        ensures { result ≡ is_behind line start self.now }
    {
        line < self.line || line == self.line && start <= self.start
    }

    /// Adds the token's numbers, relative to a place before it.
    fn push_behind(&self, line: u32, start: u32, numbers: &mut Vec<u32>) -> Result<(), AllocError>
        requires { is_behind line start self.now ≡ true }
        ensures { OnOk result (numbers.new.items ≡ numbers.old.items ++ five_behind line start self.now) }
    {
        let start = if line == self.line {
            self.start - start
        } else {
            self.start
        };
        numbers.extend_from_slice(&[
            self.line - line,
            start,
            self.length,
            self.token_type,
            self.token_modifiers,
        ])
    }
}

impl SemanticTokens {
    ghost use Rattle.lsp_types.specs.Tokens.{are_behind, numbers_behind};

    /// Encodes tokens as numbers (LSP 3.17, "Integer Encoding for Tokens"). `None` means that they are not in the order
    /// of the text. `Err` means that an allocation failed.
    pub fn encode(
        alloc: Global,
        tokens: &[SemanticToken],
    ) -> Result<Option<SemanticTokens>, AllocError>
        ensures { IfOk result (λ o. MatchOption o (are_behind 0 0 tokens.now ≡ false)
            (λ found. (are_behind 0 0 tokens.now ≡ true)
            × (found.«data».items ≡ numbers_behind 0 0 tokens.now) × (found.result_id ≡ None))) }
    {
        let mut data = Vec::new(alloc);
        let mut line = 0;
        let mut start = 0;
        for token in tokens {
            if !token.is_behind(line, start) {
                return Ok(None);
            }
            token.push_behind(line, start, &mut data)?;
            line = token.line;
            start = token.start;
        }
        Ok(Some(SemanticTokens {
            result_id: None,
            data,
        }))
    }
}
