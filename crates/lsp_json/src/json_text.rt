//! A text that is read with no tree.

ghost use Rattle.lsp_json.specs.Text.{Stands};

use crate::fits::fits;
use crate::json_ref::JsonRef;
use crate::text_ref::TextRef;
use json::{Scratch, Tape};
use std::alloc::Global;

/// The parts of a JSON text, each of which is read where it stands.
#[derive(Drop)]
pub struct JsonText<'a> {
    tape: Tape<'a>,
    ghost stands: { Stands tape },
}

impl<'a> JsonText<'a> {
    ghost use Rattle.std.specs.Prelude.{IfSome, Some, ◌≡◌};
    ghost use Rattle.serde_json.specs.Read.{read as value_of};
    ghost use Rattle.lsp_json.specs.JsonRef.{json_data};
    ghost use Rattle.lsp_json.specs.JsonText.{json_text_data};

    /// Reads a JSON text and makes no tree. The scratch may be used again once the result is dropped. The result is
    /// `None` if `Value::from_str` refuses the text, if an allocation fails or if the text is longer than 4 GiB. So the
    /// caller calls `Value::from_str` after `None`, which tells these cases apart.
    pub fn read(alloc: Global, text: &'a str, scratch: &'a mut Scratch) -> Option<JsonText<'a>>
        ensures { IfSome result (λ it. value_of text.now ≡ Some (json_text_data it)) }
    {
        let Ok(tape) = Tape::parse(text, scratch, Vec::new(alloc)) else {
            return None;
        };
        if !fits(tape.nodes()) {
            return None;
        }
        Some(JsonText { tape })
    }

    /// Returns the value that the whole text is.
    #[tactic(auto, unfolding(crate::specs::JsonText::json_text_data))]
    pub fn root(&self) -> JsonRef<'_>
        ensures { json_data result ≡ json_text_data self.now }
    {
        JsonRef::of_text(TextRef::of_tape(&self.tape))
    }
}
