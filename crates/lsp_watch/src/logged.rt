// Messages as a log has them, right or wrong in their shape.
ghost use Rattle.std.specs.Prelude.{◌≡◌, ◌∷◌, [], IfOk, None, option_map, option_and_then, unwrap_or, MatchOption};
ghost use Rattle.std.specs.Str.{IsUtf8};
ghost use Rattle.serde_json.specs.Data.{null};
ghost use Rattle.serde_json.specs.Find.{as_str};
ghost use Rattle.serde_json.specs.Read.{read};
ghost use Rattle.serde_json.specs.View.{view, number_view};
ghost use Rattle.lsp_message.specs.Id.{same_id};
ghost use Rattle.lsp_message.specs.Tree.{tree_of};
ghost use Rattle.lsp_message.specs.View.{message_view};
ghost use Rattle.lsp_watch.specs.Documents.{params_in};
ghost use Rattle.lsp_watch.specs.Entries.{entry_view, method_in, kind_in as kind_of_tree, call_kind as kind_of_call, has_success as succeeds};
ghost use Rattle.lsp_watch.specs.Keys.{whole_number as whole, bits_number as number_by_bits, number_key as key_of_number, key_of};
ghost use Rattle.lsp_watch.specs.Shape.{IsReadAs, ReadsAs, NoUtf8, IsNoText};

use crate::rule::Rule;
use crate::shape::faults_in;
use crate::unread::why_unread;
use lsp_message::Message;
use serde_json::{Number, Value};
use std::alloc::{AllocError, Global};
use std::cmp::Ordering;
use std::fmt;
use std::marker::Model;
use std::num::{
    f64_from_bits_with_nan, f64_to_bits_with_nan, nearest_i64_to_f64, saturating_f64_to_i64,
};

/// 2^64. No integer of 64 bits is as high: from here on, a number that is not whole has its bits.
const AFTER_INTEGERS: i128 = 18_446_744_073_709_551_616;

#[derive(Debug, Drop)]
enum KeptId {
    Number(i128),
    Text(String),
}

/// The id of a message in a log: a text or a number (JSON-RPC 2.0, section 4). Numbers are compared by value: `-0` is 0, `1.0` is 1, and
/// `1.5` is no other number. LSP itself has integers of 32 bits.
///
/// It prints a number in decimal and a text in quotes.
#[derive(Debug, Drop)]
pub struct LoggedId(KeptId);

impl Model for LoggedId {
    ghost use Rattle.lsp_message.specs.Id.{Id};
    ghost use Rattle.lsp_watch.specs.KeptId.{id_kept};

    ghost Value = { Id };

    ghost view = { λ r. id_kept r.0 };
}

impl LoggedId {
    /// The id that a value is, if it is one. The error means that an allocation failed.
    pub fn from_value(value: &Value) -> Result<Option<LoggedId>, AllocError>
        ensures { IfOk result (λ id. id ≡ key_of (view value.now)) }
    {
        match value {
            Value::String(text) => Ok(Some(LoggedId(KeptId::Text(text.clone()?)))),
            Value::Number(number) => Ok(Some(LoggedId(KeptId::Number(number_key(number))))),
            _ => Ok(None),
        }
    }

    /// Whether both are the same.
    pub fn is(&self, other: &LoggedId) -> bool
        ensures { result ≡ same_id self.now other.now }
    {
        self.cmp(other) == Ordering::Equal
    }

    /// The same id. The error means that an allocation failed.
    pub fn clone(&self) -> Result<LoggedId, AllocError>
        ensures { IfOk result (λ id. id ≡ self.now) }
    {
        match &self.0 {
            KeptId::Number(number) => Ok(LoggedId(KeptId::Number(*number))),
            KeptId::Text(text) => Ok(LoggedId(KeptId::Text(text.clone()?))),
        }
    }
}

impl PartialEq for LoggedId {
    ghost use Rattle.std.specs.Ordering.{eq_by_cmp};
    ghost use Rattle.std.specs.Cmp.{partial_equiv_from_equiv};
    ghost use Rattle.lsp_message.specs.Id.{id_cmp};
    ghost use Rattle.lsp_message.specs.IdLaws.{id_equiv};

    ghost eq = { eq_by_cmp id_cmp };

    ghost laws = { partial_equiv_from_equiv id_equiv };

    fn eq(&self, other: &LoggedId) -> bool {
        self.cmp(other) == Ordering::Equal
    }
}

impl Eq for LoggedId {
    ghost use Rattle.lsp_message.specs.IdLaws.{id_equiv};

    ghost laws = { id_equiv };
}

impl PartialOrd for LoggedId {
    ghost use Rattle.std.specs.Ordering.{as_partial_cmp};
    ghost use Rattle.lsp_message.specs.Id.{id_cmp};
    ghost use Rattle.lsp_message.specs.IdLaws.{id_partial_order};

    ghost partial_cmp = { as_partial_cmp id_cmp };

    ghost laws = { id_partial_order };

    fn partial_cmp(&self, other: &LoggedId) -> Option<Ordering> {
        Some(self.cmp(other))
    }
}

impl Ord for LoggedId {
    ghost use Rattle.lsp_message.specs.Id.{id_cmp};
    ghost use Rattle.lsp_message.specs.IdLaws.{id_total, id_agrees, id_ties};

    ghost cmp = { id_cmp };

    ghost total = { id_total };

    ghost matches_partial_cmp = { id_agrees };

    ghost matches_eq = { id_ties };

    fn cmp(&self, other: &LoggedId) -> Ordering {
        match (&self.0, &other.0) {
            (KeptId::Number(a), KeptId::Number(b)) => a.cmp(b),
            (KeptId::Number(_), KeptId::Text(_)) => Ordering::Less,
            (KeptId::Text(_), KeptId::Number(_)) => Ordering::Greater,
            (KeptId::Text(a), KeptId::Text(b)) => a.cmp(b),
        }
    }
}

impl fmt::Display for LoggedId {
    fn fmt<W: fmt::Write>(&self, f: &mut fmt::Formatter<W>) -> fmt::Result {
        match &self.0 {
            KeptId::Number(number) => match u64::try_from(number.saturating_sub(AFTER_INTEGERS)) {
                Ok(bits) => write!(f, "{}", f64_from_bits_with_nan(bits)),
                Err(_) => write!(f, "{number}"),
            },
            KeptId::Text(text) => write!(f, "{text:?}"),
        }
    }
}

/// A number that is whole: an integer of 64 bits, or a float whose value is such an integer.
pub fn whole_number(number: &Number) -> Option<i128>
    ensures { result ≡ whole (number_view number.now) }
{
    if let Some(whole) = number.as_i128() {
        return Some(whole);
    }
    let float = number.as_f64()?;
    let whole = saturating_f64_to_i64(float);
    let back = nearest_i64_to_f64(whole);
    if back <= float && float <= back && whole < i64::MAX {
        Some(i128::from(whole))
    } else {
        None
    }
}

/// The number of a key: the value of an integer of 64 bits, and otherwise the bits of the number.
fn number_key(number: &Number) -> i128
    ensures { result ≡ key_of_number (number_view number.now) }
{
    match whole_number(number) {
        Some(whole) => whole,
        None => bits_number(number),
    }
}

fn bits_number(number: &Number) -> i128
    ensures { result ≡ number_by_bits (number_view number.now) }
{
    if let Some(whole) = number.as_i128() {
        return whole;
    }
    let float = number.as_f64().unwrap_or(0.0);
    AFTER_INTEGERS + i128::from(f64_to_bits_with_nan(float))
}

/// Which of the three a message of a log is.
#[derive(Debug, Drop)]
pub enum Kind {
    /// A request, and its id.
    Request(LoggedId),
    /// A notification.
    Notification,
    /// A reply to the request of this id, and whether it has a result.
    Reply(LoggedId, bool),
}

/// A request, a notification or a reply of a log, right or wrong in its shape.
#[derive(Debug, Drop)]
pub struct Entry {
    kind: Kind,
    tree: Value,
}

/// A message as a log has it, right or wrong in its shape.
#[derive(Debug, Drop)]
pub struct LoggedMessage {
    /// The message, if it can be placed in a session: not so if it has no method and no id, or an id that is neither a number nor a text,
    /// or if it could not be read, or if it is an error that names no request.
    pub entry: Option<Entry>,
    /// The rules of its shape that it breaks.
    pub faults: Vec<Rule>,
}

impl Entry {
    /// Which of the three it is.
    pub fn kind(&self) -> &Kind
        ensures { result.now ≡ self.now.kind }
    {
        &self.kind
    }

    /// The id of a request, or of the request that a reply answers.
    pub fn id(&self) -> Option<&LoggedId> {
        match &self.kind {
            Kind::Request(id) | Kind::Reply(id, _) => Some(id),
            Kind::Notification => None,
        }
    }

    /// The method of a request or a notification; of a reply it is empty.
    pub fn method(&self) -> &str
        ensures { result.now ≡ unwrap_or (method_in (view self.now.tree)) [] }
    {
        match self.tree.get("method").and_then(Value::as_str) {
            Some(method) => method,
            None => "",
        }
    }

    /// The params of a request or a notification, if there are any.
    pub fn params(&self) -> Option<&Value>
        ensures { MatchOption result (params_in (entry_view self.now) ≡ null)
            (λ params. params_in (entry_view self.now) ≡ view params.now) }
    {
        match &self.kind {
            Kind::Request(_) | Kind::Notification => self.tree.get("params"),
            Kind::Reply(_, _) => None,
        }
    }

    /// The whole message.
    pub fn tree(&self) -> &Value
        ensures { view result.now ≡ view self.now.tree }
    {
        &self.tree
    }
}

impl LoggedMessage {
    /// The message that a tree of JSON is. The error means that an allocation failed.
    pub fn from_tree(alloc: Global, tree: Value) -> Result<LoggedMessage, AllocError>
        ensures { IfOk result (λ m. IsReadAs m (view tree)) }
    {
        let faults = faults_in(alloc, &tree)?;
        let kind = match kind_in(&tree) {
            Ok(kind) => kind,
            Err(error) => {
                drop(faults);
                return Err(error);
            }
        };
        let entry = match kind {
            Some(kind) => Some(Entry { kind, tree }),
            None => None,
        };
        Ok(LoggedMessage { entry, faults })
    }

    /// The message of a content part. What cannot be read is a message too: its faults say why. The error means that an allocation
    /// failed.
    pub fn from_content(alloc: Global, content: &[u8]) -> Result<LoggedMessage, AllocError>
        ensures text { IsUtf8 content.now → IfOk result (λ m. ReadsAs m (read content.now)) }
        ensures bytes { NoUtf8 content.now → IfOk result (λ m. IsNoText m) }
    {
        match std::str::from_utf8(content) {
            Ok(text) => LoggedMessage::from_text(alloc, text),
            Err(_) => unread(alloc, Rule::NotUtf8),
        }
    }

    /// The message of a text, as `from_content` reads it.
    pub fn from_text(alloc: Global, text: &str) -> Result<LoggedMessage, AllocError>
        ensures { IfOk result (λ m. ReadsAs m (read text.now)) }
    {
        match Value::from_str(alloc, text) {
            Ok(tree) => LoggedMessage::from_tree(alloc, tree),
            Err(error) => {
                if error.is_memory() {
                    return Err(AllocError);
                }
                let reason = format!(in alloc; "{error}");
                drop(error);
                let reason = reason?;
                let rule = why_unread(text, reason.as_str());
                drop(reason);
                unread(alloc, rule)
            }
        }
    }

    /// A message of `lsp_message` as a log has it. The error means that an allocation failed.
    pub fn from_message(alloc: Global, message: &Message) -> Result<LoggedMessage, AllocError>
        ensures { IfOk result (λ m. IsReadAs m (tree_of (message_view message.now))) }
    {
        LoggedMessage::from_tree(alloc, message.to_value(alloc)?)
    }
}

fn unread(alloc: Global, rule: Rule) -> Result<LoggedMessage, AllocError>
    ensures { IfOk result (λ m. (m.entry ≡ None) × (m.faults.items ≡ rule ∷ [])) }
{
    let mut faults = Vec::new(alloc);
    faults.push(rule)?;
    Ok(LoggedMessage {
        entry: None,
        faults,
    })
}

/// What a tree is, by its members `method` and `id`.
fn kind_in(tree: &Value) -> Result<Option<Kind>, AllocError>
    ensures { IfOk result (λ kind. kind ≡ kind_of_tree (view tree.now)) }
{
    let id = tree.get("id");
    match tree.get("method") {
        Some(Value::String(_)) => call_kind(id),
        Some(_) => Ok(None),
        None => match id {
            Some(id) => reply_kind(id, has_success(tree)),
            None => Ok(None),
        },
    }
}

fn call_kind(id: Option<&Value>) -> Result<Option<Kind>, AllocError>
    ensures { IfOk result (λ kind. kind ≡ kind_of_call (option_map (λ v. view v.now) id.entry)) }
{
    let Some(id) = id else {
        return Ok(Some(Kind::Notification));
    };
    match LoggedId::from_value(id)? {
        Some(id) => Ok(Some(Kind::Request(id))),
        None => Ok(None),
    }
}

fn reply_kind(id: &Value, succeeds: bool) -> Result<Option<Kind>, AllocError>
    ensures { IfOk result (λ kind. kind ≡ option_map (λ i. Kind.Reply i succeeds) (key_of (view id.now))) }
{
    match LoggedId::from_value(id)? {
        Some(id) => Ok(Some(Kind::Reply(id, succeeds))),
        None => Ok(None),
    }
}

/// Whether a reply has a result: `error` is missing or null, and `result` is there.
fn has_success(tree: &Value) -> bool
    ensures { result ≡ succeeds (view tree.now) }
{
    let failure = tree.get("error").filter(|error| !error.is_null());
    failure.is_none() && tree.get("result").is_some()
}
