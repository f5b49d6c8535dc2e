// The result of a request while it waits: its text, which takes less memory than its tree.
ghost use Rattle.std.specs.Prelude.{◌≡◌, Some, Ok, Err, IfOk, OnOk, string_bytes};
ghost use Rattle.std.specs.Result.{result_err};
ghost use Rattle.serde_json.specs.Read.{read};
ghost use Rattle.serde_json.specs.View.{view};
ghost use Rattle.lsp_message.specs.Failures.{WriterFails};
ghost use Rattle.lsp_message.specs.Message.{response};
ghost use Rattle.lsp_message.specs.Readable.{WritesReadably};
ghost use Rattle.lsp_message.specs.ResultText.{IsReadableText, spare_tree};
ghost use Rattle.lsp_message.specs.Text.{IsBodyOf};
ghost use Rattle.lsp_message.specs.Told.{Given, WritesParts};
ghost use Rattle.lsp_message.specs.View.{message_view};
ghost use Rattle.lsp_message.specs.Written.{IsFrameOf, MeansAgain, Writes};

use crate::frame::WriteFault;
use crate::frame::byte_trace::ByteTrace;
use crate::frame::write::{with_header, write_body};
use crate::msg::nesting::nests_within;
use crate::msg::text::result_body;
use crate::msg::{Message, RequestId, Response};
use serde_json::Value;
use std::alloc::{AllocError, Global};
use std::fmt;
use std::io::Write;
use std::marker::Model;
use std::snapshot::Snapshot;

/// The most levels of a text that `serde_json` reads.
const MAX_LEVELS: u32 = 127;

/// The result of a request while it waits to be sent (JSON-RPC 2.0, section 5), as its JSON text. A tree takes some
/// twenty times the memory of its text. A result that nests more than 127 levels is kept as the tree, since
/// `serde_json` would not read its text.
///
/// Contracts see the tree.
#[derive(Drop)]
pub struct ResultText {
    kept: Kept,
}

/// The form in which a result is kept.
#[derive(Drop)]
pub(crate) enum Kept {
    /// Its text. Only clauses see the tree.
    Text(String, Snapshot<Value>),
    /// A text that was written with no tree. Clauses see a tree that it is read as.
    Written(String),
    /// The tree itself.
    Tree(Value),
}

impl Model for ResultText {
    ghost use Rattle.serde_json.specs.contracts.value.Value as row;
    ghost use Rattle.serde_json.specs.declared.value.Value as tree;
    ghost use Rattle.std.specs.Coded.{codes};

    ghost Value = { tree.Value };

    ghost coded = { Prim.hlevel (codes, row.the_row.coded) };

    ghost use Rattle.lsp_message.specs.ResultText.{IsKept, kept_tree};

    ghost view = { λ r. kept_tree r.kept };

    ghost invariant = { λ r. IsKept r.kept };
}

impl fmt::Debug for ResultText {
    fn fmt<W: fmt::Write>(&self, f: &mut fmt::Formatter<W>) -> fmt::Result {
        match &self.kept {
            Kept::Text(text, _) => f.write_str(text.as_str()),
            Kept::Written(text) => f.write_str(text.as_str()),
            Kept::Tree(tree) => write!(f, "{tree:?}"),
        }
    }
}

impl ResultText {
    /// Writes the text of a result, and drops the tree. The error means that an allocation failed.
    pub fn of(alloc: Global, tree: Value) -> Result<ResultText, AllocError>
        ensures { IfOk result (λ kept. kept ≡ tree) }
    {
        let (text, tree) = ResultText::with_tree(alloc, tree)?;
        drop(tree);
        Ok(text)
    }

    /// Writes the text of a result, and returns the tree too, so that the thread that made it can drop it. There is no
    /// tree if it nests more than 127 levels: the result keeps it then. The error means that an allocation failed. The
    /// tree is dropped then.
    pub fn with_tree(alloc: Global, tree: Value) -> Result<(ResultText, Option<Value>), AllocError>
        ensures text { IfOk result (λ made. made.0 ≡ tree) }
        ensures tree { IfOk result (λ made. made.1 ≡ spare_tree tree) }
    {
        if !nests_within(&tree, MAX_LEVELS) {
            let kept = Kept::Tree(tree);
            return Ok((ResultText { kept }, None));
        }
        let mut text = tree.to_string(alloc)?;
        text.shrink_to_fit();
        let kept = Kept::Text(text, Snapshot::of(&tree));
        Ok((ResultText { kept }, Some(tree)))
    }

    /// Takes the text that was written for a result with no tree, such as the text of typed data. The text is not read.
    /// So the caller must know that it is compact JSON, as `serde_json` writes it, which nests at most 127 levels. The
    /// result is the data that the text is read as.
    pub fn from_text(text: String) -> ResultText
        requires { IsReadableText (string_bytes text) }
        ensures { read (string_bytes text) ≡ Some (view result) }
    {
        let mut text = text;
        text.shrink_to_fit();
        let kept = Kept::Written(text);
        ResultText { kept }
    }

    /// Returns the result as a tree again, read from its text. The error means that an allocation failed.
    pub fn into_value(self, alloc: Global) -> Result<Value, AllocError>
        ensures { IfOk result (λ tree. view tree ≡ view self) }
    {
        match self.kept {
            Kept::Text(text, _seen) => read_back(alloc, text.as_str()),
            Kept::Written(text) => read_back(alloc, text.as_str()),
            Kept::Tree(tree) => Ok(tree),
        }
    }

    /// Makes the response with this id and this result, read from the text, as a message. The error means that an
    /// allocation failed.
    pub fn into_message(self, alloc: Global, id: &RequestId) -> Result<Message, AllocError>
        ensures { IfOk result (λ message. message_view message ≡ response id.now (Ok (view self))) }
    {
        let id = id.clone()?;
        let value = self.into_value(alloc)?;
        Ok(Message::Response(Response {
            id,
            response_result: Ok(value),
        }))
    }

    /// Makes the frame of the response with this id and this result: the bytes that `Message::to_frame` makes for it
    /// (LSP 3.17, "Base Protocol"). The text is not read. The error means that an allocation failed.
    pub fn into_frame(self, alloc: Global, id: &RequestId) -> Result<String, AllocError>
        ensures { IfOk result (λ frame. IsFrameOf (response id.now (Ok (view self))) (string_bytes frame)) }
    {
        let body = self.into_body(alloc, id)?;
        with_header(body)
    }

    /// Writes the response with this id and this result, as `Message::write_traced` does, and adds the bytes that the
    /// writer takes to the trace.
    pub fn write_traced<W: Write>(
        self,
        alloc: Global,
        writer: &mut W,
        id: &RequestId,
        given: &mut ByteTrace,
    ) -> Result<(), WriteFault>
        ensures frame { Writes (response id.now (Ok (view self))) (W.contents writer.old) result
            (W.contents writer.new) }
        ensures memory { result ≡ Err WriteFault.Memory → writer.new ≡ writer.old }
        ensures reads_back { OnOk result (
            WritesReadably (response id.now (Ok (view self))) (W.contents writer.old)
            (W.contents writer.new)) }
        ensures told { Given (WritesParts (response id.now (Ok (view self))) result) given.old.parts
            given.new.parts (W.contents writer.old) (W.contents writer.new) }
        ensures failed { WriterFails (result_err result) given.old given.new }
    {
        let body = self.into_body(alloc, id)?;
        write_body(writer, body, given)
    }

    /// Makes the content part of the response with this id and this result.
    fn into_body(self, alloc: Global, id: &RequestId) -> Result<String, AllocError>
        ensures text { IfOk result (λ body.
            IsBodyOf (response id.now (Ok (view self))) (string_bytes body)) }
        ensures reads_back { IfOk result (λ body.
            MeansAgain (response id.now (Ok (view self))) (string_bytes body)) }
    {
        match self.kept {
            Kept::Text(text, _seen) => result_body(alloc, id, text),
            Kept::Written(text) => result_body(alloc, id, text),
            Kept::Tree(tree) => body_of_tree(alloc, id, tree),
        }
    }
}

/// Reads this text back as a tree. The error means that an allocation failed.
fn read_back(alloc: Global, text: &str) -> Result<Value, AllocError>
    requires { IsReadableText text.now }
    ensures { IfOk result (λ tree. read text.now ≡ Some (view tree)) }
{
    match Value::from_str(alloc, text) {
        Ok(tree) => Ok(tree),
        Err(error) => {
            drop(error);
            Err(AllocError)
        }
    }
}

/// Makes the content part of the response with this tree as its result.
fn body_of_tree(alloc: Global, id: &RequestId, tree: Value) -> Result<String, AllocError>
    ensures text { IfOk result (λ body.
        IsBodyOf (response id.now (Ok (view tree))) (string_bytes body)) }
    ensures reads_back { IfOk result (λ body.
        MeansAgain (response id.now (Ok (view tree))) (string_bytes body)) }
{
    let text = tree.to_string(alloc)?;
    drop(tree);
    result_body(alloc, id, text)
}
