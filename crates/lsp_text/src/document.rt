// A document that a client has opened.
ghost use Rattle.std.specs.Prelude.{◌≡◌, OnOk, OnErr, IfOk, length, is_err, false};
ghost use Rattle.std.specs.Arc.{arc_value};
ghost use Rattle.std.specs.String.{string_bytes};
ghost use Rattle.lsp_text.specs.Documents.{Change, Document};
ghost use Rattle.lsp_text.specs.Edits.{edited_by, past_by};
ghost use Rattle.lsp_text.specs.Lines.{lined};

use crate::blocks::Blocks;
use crate::json::{members_in, needed, put};
use crate::line_ends::LineEnds;
use crate::position::{PositionEncoding, Range};
use crate::text::Text;
use serde::{Described, Deserialize, Deserializer, Format, Serialize, Serializer};
use std::alloc::{AllocError, Global};
use std::marker::Model;
use std::sync::Arc;

/// One change of a document: a new text for a range, or for the whole text (LSP 3.17,
/// `TextDocumentContentChangeEvent`).
#[derive(Drop)]
pub struct ContentChange {
    /// The range that is replaced. `None` means the whole text.
    pub range: Option<Range>,
    /// The new text.
    pub text: String,
}

impl Model for ContentChange {
    ghost Value = { Change };

    ghost view = { λ c. record { range = c.range; text = string_bytes c.text } };
}

impl Described for ContentChange {}

impl Serialize for ContentChange {
    fn serialize<S: Serializer>(&self, out: &mut S) -> Result<(), S::Error> {
        out.begin_map(None)?;
        if let Some(range) = &self.range {
            put("range", range, out)?;
        }
        put("text", &self.text, out)?;
        out.end_map()
    }
}

impl<'de> Deserialize<'de> for ContentChange {
    fn deserialize<F: Format>(
        alloc: Global,
        from: &mut Deserializer<'de, '_, F>,
    ) -> Result<ContentChange, F::Error> {
        let (range, text) = members_in::<Option<Range>, String, F>(alloc, "range", "text", from)?;
        let text = needed(text, "text", from)?;
        let range = range.flatten();
        Ok(ContentChange { range, text })
    }
}

/// A document that a client has opened (LSP 3.17, `TextDocumentItem`). Contracts see its language, its version and its
/// text. The text may be shared. Then the next change copies it first.
#[derive(Drop)]
pub struct TextDocument {
    language_id: String,
    version: Option<i32>,
    text: Arc<Text>,
}

impl Model for TextDocument {
    ghost Value = { Document };

    ghost view = { λ d. record {
      language_id = string_bytes d.language_id;
      version = d.version;
      text = arc_value d.text;
    } };
}

impl TextDocument {
    /// Makes a document that a client opens. `ends` says what ends its lines. `Err` means that an allocation failed.
    pub fn new(
        alloc: Global,
        language_id: &str,
        version: Option<i32>,
        text: &str,
        ends: LineEnds,
    ) -> Result<TextDocument, AllocError>
        ensures { IfOk result (λ d. d ≡ record {
          language_id = language_id.now;
          version = version;
          text = lined ends text.now;
        }) }
    {
        let text = Arc::new(alloc, Text::with_line_ends(alloc, text, ends)?)?;
        let language_id = String::from_str(alloc, language_id)?;
        Ok(TextDocument {
            language_id,
            version,
            text,
        })
    }

    /// Returns the language, as the client names it.
    pub fn language_id(&self) -> &str
        ensures { result.now ≡ self.now.language_id }
    {
        self.language_id.as_str()
    }

    /// Returns the language of a document that is no longer needed.
    pub fn into_language_id(self) -> String
        ensures { string_bytes result ≡ self.language_id }
    {
        let TextDocument { language_id, .. } = self;
        language_id
    }

    /// Returns the version, as the client counts it, if it sent one.
    pub fn version(&self) -> Option<i32>
        ensures { result ≡ self.now.version }
    {
        self.version
    }

    /// Returns the text.
    pub fn text(&self) -> &Text
        ensures { result.now ≡ self.now.text }
    {
        &*self.text
    }

    /// Shares the text with an owner that keeps it while the document changes. It is not copied. `Err` means that it
    /// has too many owners.
    pub fn share_text(&self) -> Result<Arc<Text>, AllocError>
        ensures { IfOk result (λ text. arc_value text ≡ self.now.text) }
    {
        Arc::try_clone(&self.text)
    }

    /// Applies the changes of one notification, each to the text that the one before it left. It returns whether a
    /// position of a change is past an end, as `Text::apply` says. If memory runs out, the document stays as it was. An
    /// empty list of changes needs no memory.
    pub fn change(
        &mut self,
        alloc: Global,
        version: Option<i32>,
        encoding: PositionEncoding,
        changes: &[ContentChange],
    ) -> Result<bool, AllocError>
        ensures past { IfOk result (λ past. past ≡ past_by encoding self.old.text changes.now) }
        ensures ok { OnOk result
            (self.new ≡ record {
              language_id = self.old.language_id;
              version = version;
              text = edited_by encoding self.old.text changes.now;
            }) }
        ensures err { OnErr result (self.new ≡ self.old) }
        ensures none { length changes.now ≡ 0 → is_err result ≡ false }
    {
        let mut past = false;
        if changes.len() == 1 {
            let change = &changes[0];
            let text = Arc::make_mut(&mut self.text)?;
            past = text.apply(alloc, change.range, encoding, change.text.as_str())?;
        } else if changes.len() > 1 {
            let mut text = self.text().clone()?;
            past = apply_all(alloc, &mut text, encoding, changes)?;
            self.text = Arc::new(alloc, text)?;
        }
        self.version = version;
        Ok(past)
    }

    /// Applies the changes of one notification to the text itself, or to a copy if it is shared. It returns what
    /// `change` returns. If memory runs out, some of the changes are applied, and only the language is as it was. An
    /// empty list of changes needs no memory.
    pub fn change_in_place(
        &mut self,
        alloc: Global,
        version: Option<i32>,
        encoding: PositionEncoding,
        changes: &[ContentChange],
    ) -> Result<bool, AllocError>
        ensures past { IfOk result (λ past. past ≡ past_by encoding self.old.text changes.now) }
        ensures ok { OnOk result
            (self.new ≡ record {
              language_id = self.old.language_id;
              version = version;
              text = edited_by encoding self.old.text changes.now;
            }) }
        ensures err { OnErr result (self.new.language_id ≡ self.old.language_id) }
        ensures none { length changes.now ≡ 0 → is_err result ≡ false }
    {
        let mut past = false;
        if !changes.is_empty() {
            let text = Arc::make_mut(&mut self.text)?;
            past = apply_all(alloc, text, encoding, changes)?;
        }
        self.version = version;
        Ok(past)
    }
}

/// From how many changes on the text is edited in blocks. Two copies of the text cost as much as this many edits.
const MANY: usize = 128;

/// Applies changes to a text, one after another. If memory runs out, some of them are applied.
fn apply_all(
    alloc: Global,
    text: &mut Text,
    encoding: PositionEncoding,
    changes: &[ContentChange],
) -> Result<bool, AllocError>
    ensures past { IfOk result (λ past. past ≡ past_by encoding text.old changes.now) }
    ensures ok { OnOk result (text.new ≡ edited_by encoding text.old changes.now) }
{
    if changes.len() >= MANY {
        let mut blocks = Blocks::new(alloc, text.as_str(), text.line_ends())?;
        let past = apply_to_blocks(alloc, &mut blocks, encoding, changes)?;
        *text = blocks.to_text(alloc)?;
        return Ok(past);
    }
    let mut past = false;
    for change in changes {
        let more = text.apply(alloc, change.range, encoding, change.text.as_str())?;
        past = past || more;
    }
    Ok(past)
}

/// Applies changes to a text in blocks, one after another. If memory runs out, some of them are applied.
fn apply_to_blocks(
    alloc: Global,
    text: &mut Blocks,
    encoding: PositionEncoding,
    changes: &[ContentChange],
) -> Result<bool, AllocError>
    ensures past { IfOk result (λ past. past ≡ past_by encoding text.old changes.now) }
    ensures ok { OnOk result (text.new ≡ edited_by encoding text.old changes.now) }
{
    let mut past = false;
    for change in changes {
        let more = text.apply(alloc, change.range, encoding, change.text.as_str())?;
        past = past || more;
    }
    Ok(past)
}
