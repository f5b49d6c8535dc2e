//! The front of a stream of messages, and the kind of a message, for C: `bindings/c/lsp_front.h`.
#![tactic(auto)]

ghost use Rattle.std.specs.Prelude.{◌≡◌, ◌≢◌, ◌≤◌, length, Ok};
ghost use Rattle.lsp_message.specs.Frame.{body_means};
ghost use Rattle.lsp_message.specs.Front.{front_of};
ghost use Rattle.lsp_message.specs.View.{message_view};
ghost use Rattle.lsp_front_c.specs.Told.{told, kind_told};

use lsp_message::{Front, Message, front};
use std::alloc::Global;

/// How much of some bytes is their first message. C: `struct lsp_front_found`.
#[repr(C)]
#[derive(Clone, Copy)]
pub struct LspFrontFound {
    /// 0: a whole message. 1: more bytes have to come. 2: the header part is at fault.
    pub kind: u8,
    /// The bytes of a whole message, with its header part; or the number of the fault, from 2 to 6.
    pub count: usize,
}

/// Returns how many of the bytes that have arrived are their first message (LSP 3.17, "Base Protocol"). It does not allocate.
#[unsafe(no_mangle)]
pub extern "C" fn lsp_front(bytes: &[u8]) -> LspFrontFound
    ensures value { result ≡ told (front_of bytes.now) }
    ensures within { result.kind ≡ 0 → result.count ≤ length bytes.now }
{
    match front(bytes) {
        Front::Whole(count) => LspFrontFound { kind: 0, count },
        Front::More => LspFrontFound { kind: 1, count: 0 },
        Front::Fault(number) => LspFrontFound {
            kind: 2,
            count: number as usize,
        },
    }
}

/// Returns which message a content part is (LSP 3.17, "Content Part"). 0: a request. 1: a notification. 2: a response. Otherwise it is none,
/// for this reason. 8: it is not UTF-8. 9: it is no JSON, or nests too deeply, or has a number that is too large. 10: it is JSON and no
/// message. 13: it is a batch. 11: an allocation failed, and nothing is said.
#[unsafe(no_mangle)]
pub extern "C" fn lsp_message_kind(alloc: Global, content: &[u8]) -> u8
    ensures { result ≢ 11 → result ≡ kind_told (body_means content.now) }
{
    match Message::from_content(alloc, content) {
        Ok(message) => {
            let kind = kind_of(&message);
            drop(message);
            kind
        }
        Err(fault) => fault.number(),
    }
}

fn kind_of(message: &Message) -> u8
    ensures { result ≡ kind_told (Ok (message_view message.now)) }
{
    match message {
        Message::Request(_) => 0,
        Message::Notification(_) => 1,
        Message::Response(_) => 2,
    }
}
