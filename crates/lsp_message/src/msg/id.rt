ghost use Rattle.std.specs.Prelude.{◌≡◌, Some, IfOk, string_bytes};

use crate::msg::text::{push_decimal, push_quoted};
use serde_json::Value;
use std::alloc::{AllocError, Global};
use std::cmp::Ordering;
use std::fmt;
use std::hash::{Hash, Hasher};
use std::marker::Model;

// How an id is kept. The variants have the names of the Rust crate's: a client reads them in the reply to an early request,
// which shows that request in its debug form.
#[derive(Debug, Drop)]
enum IdRepr {
    I32(i32),
    String(String),
}

/// The id of a request (JSON-RPC 2.0, section 4): an `i32` or a text. Make one with `RequestId::from`.
///
/// It prints a number in decimal and a text in quotes, as `{:?}` does, so that 92 and "92" look different. Ids are
/// ordered: numbers before texts, numbers by value, texts by their bytes.
#[derive(Debug, Drop)]
pub struct RequestId(IdRepr);

impl Model for RequestId {
    ghost use Rattle.lsp_message.specs.Id.{Id};
    ghost use Rattle.lsp_message.specs.RequestId.{id_kept};

    ghost Value = { Id };

    ghost view = { λ r. id_kept r.0 };
}

impl From<i32> for RequestId {
    ghost use Rattle.lsp_message.specs.Id.{number};

    ghost from_gives = { λ z id. id ≡ number z };

    fn from(id: i32) -> RequestId {
        RequestId(IdRepr::I32(id))
    }
}

impl From<String> for RequestId {
    ghost use Rattle.lsp_message.specs.Id.{text};

    ghost from_gives = { λ s id. id ≡ text (string_bytes s) };

    fn from(id: String) -> RequestId {
        RequestId(IdRepr::String(id))
    }
}

impl RequestId {
    /// Copies the id. `Err` means that the allocation for a text failed.
    pub fn clone(&self) -> Result<RequestId, AllocError>
        ensures { IfOk result (λ id. id ≡ self.now) }
    {
        match &self.0 {
            IdRepr::I32(number) => Ok(RequestId(IdRepr::I32(*number))),
            IdRepr::String(text) => Ok(RequestId(IdRepr::String(text.clone()?))),
        }
    }
}

impl PartialEq for RequestId {
    ghost use Rattle.std.specs.Ordering.{eq_by_cmp};
    ghost use Rattle.std.specs.Cmp.{partial_equiv_from_equiv};
    ghost use Rattle.lsp_message.specs.Id.{id_cmp};
    ghost use Rattle.lsp_message.specs.IdLaws.{id_equiv};

    ghost eq = { eq_by_cmp id_cmp };

    ghost laws = { partial_equiv_from_equiv id_equiv };

    fn eq(&self, other: &RequestId) -> bool {
        self.cmp(other) == Ordering::Equal
    }
}

impl Eq for RequestId {
    ghost use Rattle.lsp_message.specs.IdLaws.{id_equiv};

    ghost laws = { id_equiv };
}

impl PartialOrd for RequestId {
    ghost use Rattle.std.specs.Ordering.{as_partial_cmp};
    ghost use Rattle.std.specs.Cmp.{partial_order_from_agreeing_total};
    ghost use Rattle.lsp_message.specs.Id.{id_cmp};
    ghost use Rattle.lsp_message.specs.IdLaws.{id_partial_order};

    ghost partial_cmp = { as_partial_cmp id_cmp };

    ghost laws = { id_partial_order };

    fn partial_cmp(&self, other: &RequestId) -> Option<Ordering> {
        Some(self.cmp(other))
    }
}

impl Ord for RequestId {
    ghost use Rattle.lsp_message.specs.Id.{id_cmp};
    ghost use Rattle.lsp_message.specs.IdLaws.{id_total, id_agrees, id_ties};

    ghost cmp = { id_cmp };

    ghost total = { id_total };

    ghost matches_partial_cmp = { id_agrees };

    ghost matches_eq = { id_ties };

    fn cmp(&self, other: &RequestId) -> Ordering {
        match (&self.0, &other.0) {
            (IdRepr::I32(a), IdRepr::I32(b)) => a.cmp(b),
            (IdRepr::I32(_), IdRepr::String(_)) => Ordering::Less,
            (IdRepr::String(_), IdRepr::I32(_)) => Ordering::Greater,
            (IdRepr::String(a), IdRepr::String(b)) => a.cmp(b),
        }
    }
}

impl Hash for RequestId {
    ghost use Rattle.lsp_message.specs.Id.{hashed};
    ghost use Rattle.lsp_message.specs.IdLaws.{id_alike};

    ghost hash_input = { hashed };

    ghost respects_eq = { id_alike };

    fn hash<H: Hasher>(&self, state: &mut H) {
        match &self.0 {
            IdRepr::I32(number) => {
                state.write_u8(0);
                number.hash(state);
            }
            IdRepr::String(text) => {
                state.write_u8(1);
                text.hash(state);
            }
        }
    }
}

impl fmt::Display for RequestId {
    ghost use Rattle.lsp_message.specs.Id.{printed};

    ghost output = { printed };

    fn fmt<W: fmt::Write>(&self, f: &mut fmt::Formatter<W>) -> fmt::Result {
        match &self.0 {
            IdRepr::I32(number) => write!(f, "{number}"),
            IdRepr::String(text) => write!(f, "{text:?}"),
        }
    }
}

impl Clone for RequestId {
    ghost is_clone = { λ a b. b ≡ a };

    fn clone(&self) -> Result<RequestId, AllocError> {
        RequestId::clone(self)
    }
}

impl RequestId {
    ghost use Rattle.std.specs.Prelude.{◌++◌, OnOk};
    ghost use Rattle.serde_json.specs.View.{view};
    ghost use Rattle.serde_json.specs.Written.{compact_text};
    ghost use Rattle.lsp_message.specs.Meaning.{as_id};
    ghost use Rattle.lsp_message.specs.Ranges.{IsIdInRange};
    ghost use Rattle.lsp_message.specs.Tree.{id_tree};

    /// Returns the id as a JSON value: a number or a text (JSON-RPC 2.0, section 4). `RequestId::from_value` reads it
    /// back.
    ///
    /// Use it for an id in params, such as those of `$/cancelRequest`. `Err` means that the allocation for a text
    /// failed.
    pub fn to_value(&self, alloc: Global) -> Result<Value, AllocError>
        ensures tree { IfOk result (λ v. view v ≡ id_tree self.now) }
        ensures good { as_id (id_tree self.now) ≡ Some self.now }
        ensures range { IsIdInRange self.now }
    {
        match &self.0 {
            IdRepr::I32(number) => Ok(Value::from(*number)),
            IdRepr::String(text) => Value::try_from_str(alloc, text.as_str()),
        }
    }
    // Adds the text of the member `id`.
    pub(crate) fn push_text(&self, out: &mut String, alloc: Global) -> Result<(), AllocError>
        ensures text { OnOk result (string_bytes out.new
            ≡ string_bytes out.old ++ compact_text (id_tree self.now)) }
        ensures range { OnOk result (IsIdInRange self.now) }
    {
        match &self.0 {
            IdRepr::I32(number) => push_decimal(out, *number),
            IdRepr::String(text) => push_quoted(out, alloc, text.as_str()),
        }
    }
}
