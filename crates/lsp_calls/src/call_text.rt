// Calls that are read from content parts.
ghost use Rattle.std.specs.Prelude.{◌≡◌, false, is_some, true, option_and_then, option_map, IfOk, IfSome, IsTrue, IsUtf8, Ok, Some};
ghost use Rattle.serde_json.specs.Find.{as_number};
ghost use Rattle.serde_json.specs.Read.{read as read_json};
ghost use Rattle.lsp_json.specs.JsonRef.{json_data};
ghost use Rattle.lsp_json.specs.JsonText.{json_text_data};
ghost use Rattle.lsp_message.specs.Frame.{body_means};
ghost use Rattle.lsp_message.specs.Meaning.{as_i32};
ghost use Rattle.lsp_message.specs.Methods.{is_exit};
ghost use Rattle.lsp_calls.specs.Contents.{id_in, message_in, method_in};

use crate::call_ref::{CallRef, NotificationRef, RequestRef};
use json::Scratch;
use lsp_json::{JsonRef, JsonText};
use lsp_message::{Message, RequestId};
use std::alloc::{AllocError, Global};
use std::fmt;

/// Reads calls from content parts (LSP 3.17, "Content Part"). It keeps the memory that reading needs. Keep one for a
/// session.
#[derive(Drop)]
pub struct CallReader {
    alloc: Global,
    scratch: Option<Box<Scratch>>,
}

/// A content part that holds a call. It is read when the call is answered.
#[derive(Drop)]
pub struct CallContent {
    content: Vec<u8>,
}

/// A call that was read from a content part.
#[derive(Drop)]
pub struct CallText<'a> {
    text: JsonText<'a>,
    id: Option<RequestId>,
}

impl fmt::Debug for CallContent {
    fn fmt<W: fmt::Write>(&self, f: &mut fmt::Formatter<W>) -> fmt::Result {
        f.write_str("CallContent")
    }
}

impl fmt::Debug for CallReader {
    fn fmt<W: fmt::Write>(&self, f: &mut fmt::Formatter<W>) -> fmt::Result {
        f.write_str("CallReader")
    }
}

impl CallReader {
    ghost use Rattle.std.specs.Prelude.{IfErr, Ok};
    ghost use Rattle.lsp_calls.specs.Calls.{call_content_view, call_view};

    /// Makes a reader. It does not allocate.
    pub fn new(alloc: Global) -> CallReader {
        CallReader {
            alloc,
            scratch: None,
        }
    }

    /// Takes a content part that holds a call other than the notification `exit`. Any other content part goes back, and
    /// so may one with a call: if an allocation failed, or if only a tree of it shows what it means.
    /// `Message::from_content` reads each call, and says what is wrong with a content part that holds no message.
    pub fn take(&mut self, content: Vec<u8>) -> Result<CallContent, Vec<u8>>
        ensures holds { IfOk result (λ it. body_means content.items ≡ Ok (call_content_view it)) }
        ensures goes_on { IfOk result (λ it. is_exit (call_content_view it) ≡ false) }
        ensures back { IfErr result (λ back. back.items ≡ content.items) }
    {
        let alloc = self.alloc;
        let Some(scratch) = self.scratch() else {
            return Err(content);
        };
        if holds_call(alloc, content.as_slice(), scratch) {
            Ok(CallContent { content })
        } else {
            Err(content)
        }
    }

    /// Reads a call. The result is `None` if an allocation failed. `CallContent::into_message` then reads it in another
    /// way.
    #[tactic(auto, using(crate::proofs::CallLemmas::means_call), unfolding(crate::specs::Calls::call_view, crate::specs::Contents::message_in))]
    pub fn read<'a>(&'a mut self, content: &'a CallContent) -> Option<CallText<'a>>
        ensures { IfSome result (λ it. call_view it ≡ call_content_view content.now) }
    {
        let alloc = self.alloc;
        let text = json_in(alloc, content.content.as_slice(), self.scratch()?)?;
        let id = id_of_call(alloc, &text.root())?;
        Some(CallText { text, id })
    }

    /// Returns the memory that reading needs. It is allocated once.
    fn scratch(&mut self) -> Option<&mut Scratch> {
        if self.scratch.is_none() {
            self.scratch = Box::new(self.alloc, Scratch::new(self.alloc)).ok();
        }
        self.scratch.as_deref_mut()
    }
}

impl CallContent {
    ghost use Rattle.lsp_message.specs.View.{message_view};
    ghost use Rattle.lsp_calls.specs.Calls.{call_content_view};

    /// Makes a message with a tree of the params. The error means that an allocation failed.
    #[tactic(auto, unfolding(crate::specs::Contents::message_in))]
    pub fn into_message(self, alloc: Global) -> Result<Message, AllocError>
        ensures { IfOk result (λ message. message_view message ≡ call_content_view self) }
    {
        match Message::from_content(alloc, &self.content) {
            Ok(message) => Ok(message),
            Err(_) => Err(AllocError),
        }
    }
}

impl<'a> CallText<'a> {
    ghost use Rattle.lsp_calls.specs.Calls.{call_ref_view, call_view};

    /// Refers to the parts of the call.
    #[tactic(auto, unfolding(crate::specs::Calls::call_view))]
    pub fn call(&self) -> CallRef<'_>
        ensures { call_ref_view result ≡ call_view self.now }
    {
        let root = self.text.root();
        let method = method_of(&root).unwrap_or("");
        let params = match root.get("params") {
            Some(params) => params,
            None => JsonRef::null(),
        };
        match &self.id {
            Some(id) => CallRef::Request(RequestRef { id, method, params }),
            None => CallRef::Notification(NotificationRef { method, params }),
        }
    }
}

/// Returns whether a content part holds a call other than `exit`.
#[tactic(auto, using(crate::proofs::CallLemmas::holds, crate::proofs::CallLemmas::goes_on))]
fn holds_call(alloc: Global, content: &[u8], scratch: &mut Scratch) -> bool
    ensures holds { IsTrue result → body_means content.now ≡ Ok (message_in content.now) }
    ensures goes_on { IsTrue result → is_exit (message_in content.now) ≡ false }
{
    let Some(text) = json_in(alloc, content, scratch) else {
        return false;
    };
    match method_of(&text.root()) {
        Some(method) => method != "exit",
        None => false,
    }
}

/// Reads the JSON of a content part.
fn json_in<'a>(alloc: Global, content: &'a [u8], scratch: &'a mut Scratch) -> Option<JsonText<'a>>
    ensures utf8 { IfSome result (λ _. IsUtf8 content.now) }
    ensures reads { IfSome result (λ it. read_json content.now ≡ Some (json_text_data it)) }
{
    match std::str::from_utf8(content) {
        Ok(text) => JsonText::read(alloc, text, scratch),
        Err(_) => None,
    }
}

/// Returns the method of a call, if it is a text.
fn method_of<'a>(root: &JsonRef<'a>) -> Option<&'a str>
    ensures { option_map (λ text. text.now) result ≡ method_in (json_data root.now) }
{
    root.get("method")?.as_str()
}

/// Returns the id of a call, or `None` inside if it has no good one. The outer `None` means that this is no call, or
/// that an allocation failed.
fn id_of_call(alloc: Global, root: &JsonRef<'_>) -> Option<Option<RequestId>>
    ensures method { IfSome result (λ _. is_some (method_in (json_data root.now)) ≡ true) }
    ensures id { IfSome result (λ id. id ≡ id_in (json_data root.now)) }
{
    method_of(root)?;
    id_of(alloc, root).ok()
}

/// Returns the id of a call, if it has a good one.
#[tactic(auto, using(crate::proofs::CallLemmas::text_id, crate::proofs::CallLemmas::other_id))]
fn id_of(alloc: Global, root: &JsonRef<'_>) -> Result<Option<RequestId>, AllocError>
    ensures { IfOk result (λ id. id ≡ id_in (json_data root.now)) }
{
    let Some(id) = root.get("id") else {
        return Ok(None);
    };
    match id.as_str() {
        Some(text) => Ok(Some(RequestId::from(String::from_str(alloc, text)?))),
        None => Ok(whole_number(&id).map(RequestId::from)),
    }
}

/// Returns the number of 32 bits that this is, if it is one.
fn whole_number(json: &JsonRef<'_>) -> Option<i32>
    ensures { result ≡ option_and_then as_i32 (as_number (json_data json.now)) }
{
    i32::try_from(json.as_number()?.as_i128()?).ok()
}
