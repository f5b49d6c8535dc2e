//! What a server shows.
// `tools/types` wrote this file from `types.txt`: change that.
ghost use Rattle.std.specs.Prelude.{◌∷◌, [], Some, codes, option_map};
ghost use Rattle.serde_json.specs.Data.{number, unsigned};
ghost use Rattle.lsp_types.specs.Json.{object_of};
ghost use Rattle.lsp_types.specs.Reads.{IsObject, IsWithin, Optional, Required, ◌and◌};

use crate::json::{FromJson, Members, Misfit, ToJson, number_within, write_member, write_some};
use lsp_json::JsonRef;
use lsp_json_write::JsonSink;
use lsp_text::Range;
use std::alloc::Global;

/// How important a message is (LSP 3.17, "MessageType"). On reading, another number is refused.
#[derive(Clone, Copy, Drop)]
pub struct MessageType(pub u32);

impl MessageType {
    /// An error.
    pub const ERROR: MessageType = MessageType(1);
    /// A warning.
    pub const WARNING: MessageType = MessageType(2);
    /// Information.
    pub const INFO: MessageType = MessageType(3);
    /// A log message.
    pub const LOG: MessageType = MessageType(4);
}

impl ToJson for MessageType {
    ghost stands = { λ it. number (unsigned it.0) };

    fn write_json<S: JsonSink>(&self, out: &mut S) -> Result<(), S::Error> {
        self.0.write_json(out)
    }
}

impl FromJson for MessageType {
    ghost reads = { λ json it. IsWithin 1 4 json it.0 };

    fn from_json(alloc: Global, value: &JsonRef<'_>) -> Result<MessageType, Misfit> {
        match number_within(alloc, value, 1, 4) {
            Ok(number) => Ok(MessageType(number)),
            Err(misfit) => Err(misfit),
        }
    }
}

/// The params of `window/showMessage` and `window/logMessage` (LSP 3.17, "ShowMessage Notification").
#[derive(Drop)]
pub struct ShowMessageParams {
    /// How important it is. Its key is `type`.
    pub typ: MessageType,
    /// The text.
    pub message: String,
}

impl ToJson for ShowMessageParams {
    ghost stands = { λ it. object_of (
        (codes "message", Some (⟦<String as ToJson>⟧.stands it.message))
        ∷ (codes "type", Some (⟦<MessageType as ToJson>⟧.stands it.typ)) ∷ []) };

    fn write_json<S: JsonSink>(&self, out: &mut S) -> Result<(), S::Error> {
        out.begin_object()?;
        write_member(out, "message", &self.message)?;
        write_member(out, "type", &self.typ)?;
        out.end_object()
    }
}

impl FromJson for ShowMessageParams {
    ghost reads = { λ json it. IsObject json
        and Required ⟦<MessageType as FromJson>⟧.reads (codes "type") json it.typ
        and Required ⟦<String as FromJson>⟧.reads (codes "message") json it.message };

    fn from_json(alloc: Global, value: &JsonRef<'_>) -> Result<ShowMessageParams, Misfit> {
        match Members::new(alloc, value)
            .required("type")
            .required("message")
            .end()
        {
            Ok(read) => {
                let (((), typ), message) = read;
                Ok(ShowMessageParams { typ, message })
            }
            Err(misfit) => Err(misfit),
        }
    }
}

/// The params of `window/showMessageRequest` (LSP 3.17, "ShowMessage Request"). The result is the `MessageActionItem`
/// that the user chose, or null.
#[derive(Drop)]
pub struct ShowMessageRequestParams {
    /// How important it is. Its key is `type`.
    pub typ: MessageType,
    /// The text.
    pub message: String,
    /// What the user may choose.
    pub actions: Option<Vec<MessageActionItem>>,
}

impl ShowMessageRequestParams {
    ghost use Rattle.std.specs.Prelude.{◌≡◌, None};

    /// Makes one from the required members. The others are `None`.
    pub fn new(typ: MessageType, message: String) -> ShowMessageRequestParams
        ensures { result ≡ record {
          typ = typ;
          message = message;
          actions = None;
        } }
    {
        ShowMessageRequestParams {
            typ,
            message,
            actions: None,
        }
    }
}

impl ToJson for ShowMessageRequestParams {
    ghost stands = { λ it. object_of (
        (codes "actions", option_map ⟦<Vec<MessageActionItem> as ToJson>⟧.stands it.actions)
        ∷ (codes "message", Some (⟦<String as ToJson>⟧.stands it.message))
        ∷ (codes "type", Some (⟦<MessageType as ToJson>⟧.stands it.typ)) ∷ []) };

    fn write_json<S: JsonSink>(&self, out: &mut S) -> Result<(), S::Error> {
        out.begin_object()?;
        write_some(out, "actions", &self.actions)?;
        write_member(out, "message", &self.message)?;
        write_member(out, "type", &self.typ)?;
        out.end_object()
    }
}

impl FromJson for ShowMessageRequestParams {
    ghost reads = { λ json it. IsObject json
        and Required ⟦<MessageType as FromJson>⟧.reads (codes "type") json it.typ
        and Required ⟦<String as FromJson>⟧.reads (codes "message") json it.message
        and Optional ⟦<Vec<MessageActionItem> as FromJson>⟧.reads (codes "actions") json it.actions };

    fn from_json(alloc: Global, value: &JsonRef<'_>) -> Result<ShowMessageRequestParams, Misfit> {
        match Members::new(alloc, value)
            .required("type")
            .required("message")
            .optional("actions")
            .end()
        {
            Ok(read) => {
                let ((((), typ), message), actions) = read;
                Ok(ShowMessageRequestParams {
                    typ,
                    message,
                    actions,
                })
            }
            Err(misfit) => Err(misfit),
        }
    }
}

/// What a user may choose at a message (LSP 3.17, "ShowMessage Request").
#[derive(Drop)]
pub struct MessageActionItem {
    /// What is shown.
    pub title: String,
}

impl ToJson for MessageActionItem {
    ghost stands = { λ it. object_of (
        (codes "title", Some (⟦<String as ToJson>⟧.stands it.title)) ∷ []) };

    fn write_json<S: JsonSink>(&self, out: &mut S) -> Result<(), S::Error> {
        out.begin_object()?;
        write_member(out, "title", &self.title)?;
        out.end_object()
    }
}

impl FromJson for MessageActionItem {
    ghost reads = { λ json it. IsObject json
        and Required ⟦<String as FromJson>⟧.reads (codes "title") json it.title };

    fn from_json(alloc: Global, value: &JsonRef<'_>) -> Result<MessageActionItem, Misfit> {
        match Members::new(alloc, value).required("title").end() {
            Ok(read) => {
                let ((), title) = read;
                Ok(MessageActionItem { title })
            }
            Err(misfit) => Err(misfit),
        }
    }
}

/// The params of `window/showDocument` (LSP 3.17, "Show Document Request").
#[derive(Drop)]
pub struct ShowDocumentParams {
    /// The document's URI, or another.
    pub uri: String,
    /// Whether another program shows it, such as a browser.
    pub external: Option<bool>,
    /// Whether the client gives it the focus.
    pub take_focus: Option<bool>,
    /// The part to select.
    pub selection: Option<Range>,
}

impl ShowDocumentParams {
    ghost use Rattle.std.specs.Prelude.{◌≡◌, None};

    /// Makes one from the required members. The others are `None`.
    pub fn new(uri: String) -> ShowDocumentParams
        ensures { result ≡ record {
          uri = uri;
          external = None;
          take_focus = None;
          selection = None;
        } }
    {
        ShowDocumentParams {
            uri,
            external: None,
            take_focus: None,
            selection: None,
        }
    }
}

impl ToJson for ShowDocumentParams {
    ghost stands = { λ it. object_of (
        (codes "external", option_map ⟦<bool as ToJson>⟧.stands it.external)
        ∷ (codes "selection", option_map ⟦<Range as ToJson>⟧.stands it.selection)
        ∷ (codes "takeFocus", option_map ⟦<bool as ToJson>⟧.stands it.take_focus)
        ∷ (codes "uri", Some (⟦<String as ToJson>⟧.stands it.uri)) ∷ []) };

    fn write_json<S: JsonSink>(&self, out: &mut S) -> Result<(), S::Error> {
        out.begin_object()?;
        write_some(out, "external", &self.external)?;
        write_some(out, "selection", &self.selection)?;
        write_some(out, "takeFocus", &self.take_focus)?;
        write_member(out, "uri", &self.uri)?;
        out.end_object()
    }
}

impl FromJson for ShowDocumentParams {
    ghost reads = { λ json it. IsObject json
        and Required ⟦<String as FromJson>⟧.reads (codes "uri") json it.uri
        and Optional ⟦<bool as FromJson>⟧.reads (codes "external") json it.external
        and Optional ⟦<bool as FromJson>⟧.reads (codes "takeFocus") json it.take_focus
        and Optional ⟦<Range as FromJson>⟧.reads (codes "selection") json it.selection };

    fn from_json(alloc: Global, value: &JsonRef<'_>) -> Result<ShowDocumentParams, Misfit> {
        match Members::new(alloc, value)
            .required("uri")
            .optional("external")
            .optional("takeFocus")
            .optional("selection")
            .end()
        {
            Ok(read) => {
                let (((((), uri), external), take_focus), selection) = read;
                Ok(ShowDocumentParams {
                    uri,
                    external,
                    take_focus,
                    selection,
                })
            }
            Err(misfit) => Err(misfit),
        }
    }
}

/// The result of `window/showDocument` (LSP 3.17, "Show Document Request").
#[derive(Clone, Copy, Drop)]
pub struct ShowDocumentResult {
    /// Whether it is shown.
    pub success: bool,
}

impl ToJson for ShowDocumentResult {
    ghost stands = { λ it. object_of (
        (codes "success", Some (⟦<bool as ToJson>⟧.stands it.success)) ∷ []) };

    fn write_json<S: JsonSink>(&self, out: &mut S) -> Result<(), S::Error> {
        out.begin_object()?;
        write_member(out, "success", &self.success)?;
        out.end_object()
    }
}

impl FromJson for ShowDocumentResult {
    ghost reads = { λ json it. IsObject json
        and Required ⟦<bool as FromJson>⟧.reads (codes "success") json it.success };

    fn from_json(alloc: Global, value: &JsonRef<'_>) -> Result<ShowDocumentResult, Misfit> {
        match Members::new(alloc, value).required("success").end() {
            Ok(read) => {
                let ((), success) = read;
                Ok(ShowDocumentResult { success })
            }
            Err(misfit) => Err(misfit),
        }
    }
}

/// The params of `window/logMessage` (LSP 3.17, "LogMessage Notification").
pub type LogMessageParams = ShowMessageParams;
