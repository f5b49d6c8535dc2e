//! Messages, their copies, their texts and their frames.
ghost use Rattle.std.specs.Prelude.{◌≡◌, ◌≢◌, ◌++◌, ◌∷◌, [], ℕ, List, IfOk, string_bytes};
ghost use Rattle.lsp_message.specs.Floats.{HasNoFloat};
ghost use Rattle.lsp_message.specs.Readable.{AreReadBack};
ghost use Rattle.lsp_message.specs.View.{message_view, response_view};
ghost use Rattle.lsp_message.specs.Written.{frame_text};

use lsp_message::laws::{
    clone_of_error, clone_of_message, clone_of_notification, clone_of_request, clone_of_response,
    frames_are_read_back, front_of_frame, kinds_print_apart, one_text_without_floats,
};
use lsp_message::{Front, Message, RequestId, Response, front};
use std::alloc::{AllocError, Global};

/// Returns two copies of a message, which are equal to it: one of the whole, and one by its kind.
pub fn two_copies(message: &Message) -> (Result<Message, AllocError>, Result<Message, AllocError>)
    ensures whole { IfOk result.0 (λ copy. message_view copy ≡ message_view message.now) }
    ensures by_kind { IfOk result.1 (λ copy. message_view copy ≡ message_view message.now) }
{
    let whole = clone_of_message(message);
    (whole, copied_by_kind(message))
}

/// Returns a copy, which is made by the kind of the message.
fn copied_by_kind(message: &Message) -> Result<Message, AllocError>
    ensures { IfOk result (λ copy. message_view copy ≡ message_view message.now) }
{
    match message {
        Message::Request(request) => Ok(Message::Request(clone_of_request(request)?)),
        Message::Notification(notification) => {
            Ok(Message::Notification(clone_of_notification(notification)?))
        }
        Message::Response(response) => Ok(Message::Response(copied_response(response)?)),
    }
}

/// Returns a copy of a response, which keeps the id and the error of one that failed.
fn copied_response(response: &Response) -> Result<Response, AllocError>
    ensures { IfOk result (λ copy. response_view copy ≡ response_view response.now) }
{
    match &response.response_result {
        Ok(_) => clone_of_response(response),
        Err(error) => {
            let id = response.id.clone()?;
            let error = clone_of_error(error)?;
            Ok(Response {
                id,
                response_result: Err(error),
            })
        }
    }
}

/// Prints an id that is a number and one that is the text "92". The two never look the same.
pub fn print_beside_text(alloc: Global, number: i32) -> Result<(String, String), AllocError>
    ensures { IfOk result (λ prints. string_bytes prints.0 ≢ string_bytes prints.1) }
{
    kinds_print_apart(number, "92");
    let number = RequestId::from(number);
    let text = RequestId::from(String::from_str(alloc, "92")?);
    let printed = format!(in alloc; "{number}")?;
    Ok((printed, format!(in alloc; "{text}")?))
}

/// Returns the frame of a message without floats, and its content part. The frame has this content part, since the
/// message has no other.
pub fn frame_and_content(alloc: Global, message: &Message) -> Result<(String, String), AllocError>
    requires { HasNoFloat (message_view message.now) }
    ensures { IfOk result (λ texts. string_bytes texts.0 ≡ frame_text (string_bytes texts.1)) }
{
    one_text_without_floats();
    let frame = message.to_frame(alloc)?;
    Ok((frame, message.body_text(alloc)?))
}

/// Returns the length of a frame, its front with `rest` after it, and its front without its last byte. The first front
/// is the whole frame. For the second more bytes have to come.
pub fn fronts(
    alloc: Global,
    message: &Message,
    rest: &str,
) -> Result<(usize, Front, Front), AllocError>
    ensures whole { IfOk result (λ r. r.1 ≡ Front.Whole r.0) }
    ensures part { IfOk result (λ r. r.2 ≡ Front.More) }
{
    front_of_frame();
    let mut text = message.to_frame(alloc)?;
    let bytes = text.as_bytes();
    let count = bytes.len();
    let part = front(&bytes[..count - 1]);
    text.push_str(rest)?;
    Ok((count, front(text.as_bytes()), part))
}

/// Returns the frames of two messages. Whoever reads them gets the two messages, whatever follows.
pub fn frames_of_two(alloc: Global, first: &Message, second: &Message) -> Result<String, AllocError>
    ensures { IfOk result (λ text. (behind : List ℕ)
        → AreReadBack (message_view first.now ∷ message_view second.now ∷ [])
        (string_bytes text ++ behind)) }
{
    frames_are_read_back();
    let mut text = first.to_frame(alloc)?;
    let frame = second.to_frame(alloc)?;
    text.push_str(frame.as_str())?;
    Ok(text)
}
