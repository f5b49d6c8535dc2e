//! Laws of messages, ids and frames. Each is the contract of a function, which the proofs of callers can use.
ghost use Rattle.std.specs.Prelude.{◌≡◌, ◌≢◌, ◌++◌, ◌<◌, ◌^◌, ℕ, List, length, take, IfOk};
ghost use Rattle.lsp_message.specs.Floats.{HasNoFloat};
ghost use Rattle.lsp_message.specs.Front.{front_of};
ghost use Rattle.lsp_message.specs.Id.{printed, number as number_id, text as text_id};
ghost use Rattle.lsp_message.specs.Message as plain;
ghost use Rattle.lsp_message.specs.Text.{IsBodyOf, IsMemberText};
ghost use Rattle.lsp_message.specs.Readable.{AreReadBack};
ghost use Rattle.lsp_message.specs.Written.{frame_text, AreFramesOf};
ghost use Rattle.lsp_message.specs.View.{error_view, request_view, notification_view, response_view, message_view};

use crate::frame::Front;
use crate::msg::{Message, Notification, Request, Response, ResponseError};
use std::alloc::AllocError;

/// A clone of a request is equal to it.
pub fn clone_of_request(request: &Request) -> Result<Request, AllocError>
    ensures { IfOk result (λ copy. request_view copy ≡ request_view request.now) }
{
    request.clone()
}

/// A clone of a notification is equal to it.
pub fn clone_of_notification(notification: &Notification) -> Result<Notification, AllocError>
    ensures { IfOk result (λ copy. notification_view copy ≡ notification_view notification.now) }
{
    notification.clone()
}

/// A clone of an error is equal to it.
pub fn clone_of_error(error: &ResponseError) -> Result<ResponseError, AllocError>
    ensures { IfOk result (λ copy. error_view copy ≡ error_view error.now) }
{
    error.clone()
}

/// A clone of a response is equal to it.
pub fn clone_of_response(response: &Response) -> Result<Response, AllocError>
    ensures { IfOk result (λ copy. response_view copy ≡ response_view response.now) }
{
    response.clone()
}

/// A clone of a message is equal to it.
pub fn clone_of_message(message: &Message) -> Result<Message, AllocError>
    ensures { IfOk result (λ copy. message_view copy ≡ message_view message.now) }
{
    message.clone()
}

/// An id that is a number and an id that is an ASCII text never print the same. Nothing is stated about other texts.
pub fn kinds_print_apart(number: i32, text: &str)
    ensures { printed (number_id number) ≢ printed (text_id text.now) }
{
    let _number = number;
    let _text = text;
}

/// A message without floats has one text and one content part: `member_text` and `body_text` are exact to the byte for
/// it.
pub fn one_text_without_floats()
    ensures member { (m : plain.Message) (t u : List ℕ) → HasNoFloat m → IsMemberText m t
        → IsMemberText m u → t ≡ u }
    ensures body { (m : plain.Message) (t u : List ℕ) → HasNoFloat m → IsBodyOf m t → IsBodyOf m u
        → t ≡ u }
{}

/// `front` finds a whole frame, whatever follows it, and returns `More` for any proper prefix of a frame.
pub fn front_of_frame()
    ensures whole { (body rest : List ℕ) → length body < 2 ^ 64
        → front_of (frame_text body ++ rest) ≡ Front.Whole (length (frame_text body)) }
    ensures part { (body : List ℕ) (count : ℕ) → length body < 2 ^ 64
        → count < length (frame_text body) → front_of (take count (frame_text body)) ≡ Front.More }
{}

/// Whoever reads frames gets the messages that were written, in order, whatever follows the frames (LSP 3.17, "Base
/// Protocol"), up to the first message that nests more than 127 levels. An error's data of null is read back as absent.
/// The frames have fewer than 2^64 bytes in all.
pub fn frames_are_read_back()
    ensures { (sent : List plain.Message) (frames behind : List ℕ) → AreFramesOf sent frames
        → length frames < 2 ^ 64 → AreReadBack sent (frames ++ behind) }
{}
