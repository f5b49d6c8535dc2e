// What the params of notifications say.
ghost use Rattle.std.specs.Prelude.{◌≡◌, Option, option_map, option_and_then, codes, IfOk, OnErr, IfSome, true, is_none};
ghost use Rattle.serde_json.specs.Find.{get, as_array, as_i64, as_number};
ghost use Rattle.serde_json.specs.View.{view, items_view};
ghost use Rattle.lsp_json.specs.JsonRef.{items_data, json_data};
ghost use Rattle.lsp_documents.specs.Notices.{has_whole, has_changes};
ghost use Rattle.lsp_documents.specs.Params.{text_in as text_of, count_in as count_of, line_in as line_of, is_negative as is_below, version_in as version_from, position_from as position_of, range_from as range_of, given_range as range_given, change_in as change_of, changes_in as changes_of, document_in as document_of, uri_from as uri_of, opened_in, values_since_whole, changes_given, encoding_named as named, first_named as first_of, offered_by as offers, encoding_of, encoding_in};
ghost use Rattle.lsp_documents.specs.Passes.{with_more};

use lsp_json::{JsonItems, JsonRef};
use lsp_text::{ContentChange, Position, PositionEncoding, Range};
use serde_json::Value;
use std::alloc::{AllocError, Global};

fn text_in<'v>(value: &JsonRef<'v>, name: &str) -> Option<&'v str>
    ensures { option_map (λ s. s.now) result ≡ text_of name.now (json_data value.now) }
{
    value.get(name)?.as_str()
}

fn count_in(value: &JsonRef<'_>, name: &str) -> Option<u32>
    ensures { result ≡ count_of name.now (json_data value.now) }
{
    let number = value.get(name)?.as_u64()?;
    if number < 0x1_0000_0000 {
        Some(number as u32)
    } else {
        None
    }
}

/// Returns whether a value has a member that is an integer below 0, and that 64 bits hold.
fn is_negative(value: &JsonRef<'_>, name: &str) -> bool
    ensures { result ≡ is_below (get name.now (json_data value.now)) }
{
    match integer_in(value, name) {
        Some(number) => number < 0,
        None => false,
    }
}

fn integer_in(value: &JsonRef<'_>, name: &str) -> Option<i64>
    ensures { result ≡ option_and_then as_i64 (option_and_then as_number (get name.now (json_data value.now))) }
{
    value.get(name)?.as_i64()
}

/// Reads the line of a position. A negative one counts as 0 (LSP 3.17, `Position`).
fn line_in(position: &JsonRef<'_>) -> Option<u32>
    ensures { result ≡ line_of (json_data position.now) }
{
    if is_negative(position, "line") {
        Some(0)
    } else {
        count_in(position, "line")
    }
}

/// Reads the version of a document, if there is one that is a number of 32 bits.
#[tactic(auto, using(crate::proofs::ParamLemmas::by_64_bits))]
fn version_in(document: &JsonRef<'_>) -> Option<i32>
    ensures { result ≡ version_from (json_data document.now) }
{
    i32::try_from(integer_in(document, "version")?).ok()
}

/// Reads a position (LSP 3.17, `Position`). It returns `None` if the value is none. Its numbers are whole ones that 32
/// bits hold. A negative line is 0.
pub fn position_from(position: &JsonRef<'_>) -> Option<Position>
    ensures { result ≡ position_of (json_data position.now) }
{
    let line = line_in(position)?;
    let character = count_in(position, "character")?;
    Some(Position { line, character })
}

/// Reads a range (LSP 3.17, `Range`). It returns `None` if the value is none.
pub fn range_from(range: &JsonRef<'_>) -> Option<Range>
    ensures { result ≡ range_of (json_data range.now) }
{
    let start = position_in(range, "start")?;
    let end = position_in(range, "end")?;
    Some(Range { start, end })
}

fn position_in(range: &JsonRef<'_>, name: &str) -> Option<Position>
    ensures { result ≡ option_and_then position_of (get name.now (json_data range.now)) }
{
    position_from(&range.get(name)?)
}

/// Reads the range of a change, if there is one.
#[tactic(auto, using(crate::proofs::ParamLemmas::given_null, crate::proofs::ParamLemmas::given_other))]
fn given_range(change: &JsonRef<'_>) -> Option<Option<Range>>
    ensures { result ≡ range_given (get (codes "range") (json_data change.now)) }
{
    let Some(range) = change.get("range") else {
        return Some(None);
    };
    if range.is_null() {
        return Some(None);
    }
    Some(Some(range_from(&range)?))
}

/// Reads a change, if the value is one.
fn change_in(alloc: Global, change: &JsonRef<'_>) -> Result<Option<ContentChange>, AllocError>
    ensures { IfOk result (λ c. c ≡ change_of (json_data change.now)) }
{
    let Some(text) = text_in(change, "text") else {
        return Ok(None);
    };
    let Some(range) = given_range(change) else {
        return Ok(None);
    };
    let text = String::from_str(alloc, text)?;
    Ok(Some(ContentChange { range, text }))
}

/// Returns whether a change is a whole text, if the value is a change.
fn is_whole_text(change: &JsonRef<'_>) -> Option<bool>
    ensures { result ≡ option_map (λ c. is_none c.range) (change_of (json_data change.now)) }
{
    text_in(change, "text")?;
    let range = given_range(change)?;
    Some(range.is_none())
}

/// Returns the list of changes in a notification.
fn listed_in<'v>(params: &JsonRef<'v>) -> Option<JsonItems<'v>>
    ensures { option_map items_data result
        ≡ option_and_then as_array (get (codes "contentChanges") (json_data params.now)) }
{
    params.get("contentChanges")?.items()
}

/// Returns whether one of the values that decide is a change of the whole text, if each of them is a change. Those from
/// the last whole text on decide, or all if there is none. A whole text replaces the values before it, whether they can
/// be read or not.
#[tactic(auto, using(crate::proofs::ParamLemmas::find_first, crate::proofs::ParamLemmas::find_next, crate::proofs::ParamLemmas::find_all))]
fn whole_among(mut values: JsonItems<'_>) -> Option<bool>
    ensures { result ≡ option_map has_whole (changes_of (values_since_whole (items_data values.entry))) }
{
    let mut found = Some(false);
    while let Some(value) = values.next() {
        found = match is_whole_text(&value) {
            Some(true) => Some(true),
            Some(false) => found,
            None => None,
        };
    }
    found
}

/// Returns whether one of a notification's changes is a whole text, if those that decide can be read.
pub fn whole_in(params: &JsonRef<'_>) -> Option<bool>
    ensures { result ≡ option_map has_whole (changes_given (json_data params.now)) }
{
    whole_among(listed_in(params)?)
}

/// Reads the values of a list that decide, if each of them is a change. An empty list needs no memory.
#[tactic(auto, using(crate::proofs::ParamLemmas::read_first, crate::proofs::ParamLemmas::read_next, crate::proofs::ParamLemmas::read_all))]
fn changes_in(
    alloc: Global,
    mut values: JsonItems<'_>,
) -> Result<Option<Vec<ContentChange>>, AllocError>
    ensures value { IfOk result (λ o.
        option_map (λ v. v.items) o ≡ changes_of (values_since_whole (items_data values.entry))) }
    ensures needed { OnErr result
        (IfSome (changes_of (values_since_whole (items_data values.entry))) (λ cs. has_changes cs ≡ true)) }
{
    let mut changes = Some(Vec::new(alloc));
    while let Some(value) = values.next() {
        changes = match change_in(alloc, &value)? {
            Some(change) => with_change(alloc, changes, change)?,
            None => None,
        };
    }
    Ok(changes)
}

/// Adds a change to those before it, if they could be read. A whole text replaces them.
fn with_change(
    alloc: Global,
    changes: Option<Vec<ContentChange>>,
    change: ContentChange,
) -> Result<Option<Vec<ContentChange>>, AllocError>
    ensures { IfOk result (λ o. option_map (λ v. v.items) o
        ≡ with_more (option_map (λ v. v.items) changes) change) }
{
    if change.range.is_none() {
        return Ok(Some(Vec::from_array(alloc, [change])?));
    }
    let Some(mut changes) = changes else {
        return Ok(None);
    };
    changes.push(change)?;
    Ok(Some(changes))
}

/// Reads a notification's changes, from the last whole text on. It returns `None` if one of these is no change. An
/// empty list needs no memory.
pub fn content_changes(
    alloc: Global,
    params: &JsonRef<'_>,
) -> Result<Option<Vec<ContentChange>>, AllocError>
    ensures value { IfOk result (λ o.
        option_map (λ v. v.items) o ≡ changes_given (json_data params.now)) }
    ensures needed { OnErr result
        (IfSome (changes_given (json_data params.now)) (λ cs. has_changes cs ≡ true)) }
{
    match listed_in(params) {
        Some(values) => changes_in(alloc, values),
        None => Ok(None),
    }
}

/// Returns the URI of the document in params, if they name one. It is in `textDocument`, as for most methods.
pub fn uri_from<'v>(params: &JsonRef<'v>) -> Option<&'v str>
    ensures { option_map (λ s. s.now) result ≡ uri_of (json_data params.now) }
{
    text_in(&params.get("textDocument")?, "uri")
}

/// Returns the version of the document in params, if they have one.
pub fn version_of(params: &JsonRef<'_>) -> Option<i32>
    ensures { result ≡ option_and_then version_from (document_of (json_data params.now)) }
{
    version_in(&params.get("textDocument")?)
}

/// The document that a client opens.
#[derive(Drop)]
pub struct Item<'v> {
    /// Its language.
    pub language_id: &'v str,
    /// Its version, if the client gives one.
    pub version: Option<i32>,
    /// Its text.
    pub text: &'v str,
}

/// Reads the document that a client opens from the params of `textDocument/didOpen`.
pub fn item_in<'v>(params: &JsonRef<'v>) -> Option<Item<'v>>
    ensures { option_map (λ i.
        record { language_id = i.language_id.now; version = i.version; text = i.text.now }) result
        ≡ opened_in (json_data params.now) }
{
    let document = params.get("textDocument")?;
    Some(Item {
        language_id: text_in(&document, "languageId").unwrap_or(""),
        version: version_in(&document),
        text: text_in(&document, "text")?,
    })
}

/// Returns the text of a document that was saved, if it is a string.
pub fn saved_text<'v>(params: &JsonRef<'v>) -> Option<&'v str>
    ensures { option_map (λ s. s.now) result ≡ text_of (codes "text") (json_data params.now) }
{
    text_in(params, "text")
}

/// Returns the encoding with this name (LSP 3.17, `PositionEncodingKind`).
fn encoding_named(name: &str) -> Option<PositionEncoding>
    ensures { result ≡ named name.now }
{
    match name {
        "utf-8" => Some(PositionEncoding::Utf8),
        "utf-16" => Some(PositionEncoding::Utf16),
        "utf-32" => Some(PositionEncoding::Utf32),
        _ => None,
    }
}

/// Returns the first of the names that is an encoding.
fn first_named(names: &[Value]) -> Option<PositionEncoding>
    ensures { result ≡ first_of (items_view names.now) }
{
    for name in names {
        if let Some(name) = name.as_str() {
            let found = encoding_named(name);
            if found.is_some() {
                return found;
            }
        }
    }
    None
}

/// Returns the encoding that follows from the params of `initialize` (LSP 3.17, `general.positionEncodings` of the
/// client's capabilities): the first of the client's encodings that is UTF-8, UTF-16 or UTF-32, or UTF-16 if there is
/// none. `SyncOptions::negotiate` announces it to the client.
pub fn position_encoding(params: &Value) -> PositionEncoding
    ensures { result ≡ encoding_in (view params.now) }
{
    match params.get("capabilities") {
        Some(client) => encoding_for(client),
        None => PositionEncoding::Utf16,
    }
}

/// Returns the encoding for a client with these capabilities.
pub fn encoding_for(client: &Value) -> PositionEncoding
    ensures { result ≡ encoding_of (view client.now) }
{
    let offered = offered_by(client);
    let named = offered.and_then(|names| first_named(names.as_slice()));
    named.unwrap_or(PositionEncoding::Utf16)
}

fn offered_by(client: &Value) -> Option<&Vec<Value>>
    ensures { option_map (λ v. items_view v.now.items) result ≡ offers (view client.now) }
{
    client.get("general")?.get("positionEncodings")?.as_array()
}
