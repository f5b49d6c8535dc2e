// Content parts whose calls are read where they stand.
use crate::said::Said;
use lsp_calls::{CallContent, CallReader, CallRef, NotificationRef, RequestRef};
use lsp_json::JsonRef;
use lsp_message::Message;
use std::alloc::AllocError;

/// Says the call that a content part holds, or that the content part goes back.
pub fn content(said: &mut Said, text: &str) {
    let content = said.text_of(text).into_bytes();
    compare(said, content);
}

/// The same of a content part of which each character of the row is a byte.
pub fn octets(said: &mut Said, text: &str) {
    let mut content = Vec::new(said.alloc);
    for character in text.chars() {
        let byte = u8::try_from(u32::from(character)).unwrap_or(0);
        said.kept(content.push(byte));
    }
    compare(said, content);
}

/// Says what is taken. A content part that is taken at the second time alone had no memory at the first.
fn compare(said: &mut Said, content: Vec<u8>) {
    let mut reader = CallReader::new(said.alloc);
    let first = taken(said, &mut reader, content.as_slice());
    let second = taken(said, &mut reader, content.as_slice());
    said.is_short = said.is_short || first != second;
    said.push(first.as_str());
    drop(first);
    drop(second);
    drop(reader);
    drop(content);
}

/// Says what a reader makes of a content part.
fn taken(said: &mut Said, reader: &mut CallReader, content: &[u8]) -> String {
    let mut found = Said::new(said.alloc);
    let copy: Result<Vec<u8>, AllocError> = content.to_vec(said.alloc);
    match reader.take(said.made(copy, Vec::new(said.alloc))) {
        Ok(call) => say_both(&mut found, reader, call),
        Err(back) => {
            found.push("goes back");
            if back.as_slice() != content {
                found.push(" changed");
            }
            drop(back);
        }
    }
    said.is_short = said.is_short || found.is_short;
    found.text
}

/// Says a call as it is read where it stands, and also as a message, if that is another one.
fn say_both(said: &mut Said, reader: &mut CallReader, content: CallContent) {
    let mut found = Said::new(said.alloc);
    match reader.read(&content) {
        Some(text) => {
            say_call(said, text.call());
            drop(text);
        }
        None => said.is_short = true,
    }
    match content.into_message(said.alloc) {
        Ok(message) => say_message(&mut found, message),
        Err(_) => said.is_short = true,
    }
    said.is_short = said.is_short || found.is_short;
    if found.text != said.text {
        said.push("; but as a message ");
        said.push(found.text.as_str());
    }
    drop(found);
}

fn say_message(said: &mut Said, message: Message) {
    match &message {
        Message::Request(request) => say_call(said, CallRef::Request(RequestRef::of(request))),
        Message::Notification(notification) => say_call(
            said,
            CallRef::Notification(NotificationRef::of(notification)),
        ),
        Message::Response(_) => said.push("a response"),
    }
    drop(message);
}

/// Says the kind of a call, its id, its method and its params.
fn say_call(said: &mut Said, call: CallRef<'_>) {
    match call {
        CallRef::Request(request) => {
            said.push("request ");
            said.show(request.id);
            said.push(" ");
            said.push(request.method);
            say_params(said, request.params);
        }
        CallRef::Notification(notification) => {
            said.push("notification ");
            said.push(notification.method);
            say_params(said, notification.params);
        }
    }
}

fn say_params(said: &mut Said, params: JsonRef<'_>) {
    said.push(" ");
    match params.to_value(said.alloc) {
        Ok(tree) => said.show(tree),
        Err(_) => said.is_short = true,
    }
    drop(params);
}
