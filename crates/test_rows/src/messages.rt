// What trees mean as messages, and what messages become.
use crate::by_method;
use crate::said::Said;
use lsp_message::{Message, RequestId, Response, ResponseError, ResultText};
use serde_json::Value;
use std::alloc::{AllocError, Global};

/// Reads the tree of a text. The texts of a table are JSON, so only memory can be missing.
pub fn value_in(alloc: Global, text: &str) -> Result<Value, AllocError> {
    match Value::from_str(alloc, text) {
        Ok(tree) => Ok(tree),
        Err(_) => Err(AllocError),
    }
}

/// The message of a member text, if it is one.
pub fn message_in(alloc: Global, text: &str) -> Result<Option<Message>, AllocError> {
    match Value::from_str(alloc, text) {
        Ok(tree) => Ok(Message::from_tree(tree)),
        Err(_) => Err(AllocError),
    }
}

/// The id in a JSON text, if it is one.
pub fn id_in(alloc: Global, text: &str) -> Result<Option<RequestId>, AllocError> {
    match Value::from_str(alloc, text) {
        Ok(tree) => {
            let read = RequestId::from_value(&tree);
            drop(tree);
            read
        }
        Err(_) => Err(AllocError),
    }
}

/// The text that was found, or an empty one.
pub fn text_in(found: Option<&Value>) -> &str {
    match found {
        Some(Value::String(text)) => text.as_str(),
        _ => "",
    }
}

/// So many lists, each in the next.
pub fn nested(alloc: Global, levels: usize) -> Result<Value, AllocError> {
    let mut value = Value::Array(Vec::new(alloc));
    for _ in 1..levels {
        let mut values = Vec::new(alloc);
        values.push(value)?;
        value = Value::Array(values);
    }
    Ok(value)
}

/// The acts at a message.
pub fn acts(said: &mut Said, text: &str) {
    match message_in(said.alloc, text) {
        Ok(Some(message)) => by_method::acts(said, message),
        Ok(None) => said.push("no message"),
        Err(_) => said.is_short = true,
    }
}

/// The id in a tree, as it prints.
pub fn id_text(said: &mut Said, text: &str) {
    match id_in(said.alloc, text) {
        Ok(Some(id)) => said.show(id),
        Ok(None) => said.push("no id"),
        Err(_) => said.is_short = true,
    }
}

/// Reads the message in a member text, clones it, and says its texts, its tree and its frame.
pub fn values(said: &mut Said, text: &str) {
    match message_in(said.alloc, text) {
        Ok(Some(message)) => {
            let clone: Result<Message, AllocError> = message.clone();
            drop(message);
            say_clone(said, clone)
        }
        Ok(None) => said.unknown(),
        Err(_) => said.is_short = true,
    }
}

fn say_clone(said: &mut Said, clone: Result<Message, AllocError>) {
    match clone {
        Ok(message) => {
            say_texts(said, &message);
            drop(message);
        }
        Err(_) => said.is_short = true,
    }
}

fn say_texts(said: &mut Said, message: &Message) {
    said.add("", message.member_text(said.alloc));
    said.push("\n  ");
    say_value(said, message.to_value(said.alloc));
    said.add("\n  ", message.body_text(said.alloc));
    let mut frame = Vec::new(said.alloc);
    match message.write(said.alloc, &mut frame) {
        Ok(()) => said.bytes("\n  ", frame.as_slice()),
        Err(_) => said.is_short = true,
    }
}

fn say_value(said: &mut Said, made: Result<Value, AllocError>) {
    match made {
        Ok(value) => said.show(value),
        Err(_) => said.is_short = true,
    }
}

/// `CODE MESSAGE DATA`: says the response to the request 1 with this error, which has data: its member text, and the
/// message that is read from its tree.
pub fn error(said: &mut Said, row: &str) {
    let (code, rest) = said.cut(row, " ");
    let (message, data) = said.cut(rest, " ");
    match value_in(said.alloc, data) {
        Ok(data) => {
            let error = ResponseError {
                code: code.parse::<i32>().unwrap_or(0),
                message: said.text_of(message),
                data: Some(data),
            };
            let message = Message::Response(Response {
                id: RequestId::from(1),
                response_result: Err(error),
            });
            say_read_again(said, &message);
            drop(message);
        }
        Err(_) => said.is_short = true,
    }
}

fn say_read_again(said: &mut Said, message: &Message) {
    said.add("", message.member_text(said.alloc));
    said.push("\n  ");
    match message.to_value(said.alloc) {
        Ok(tree) => said.debug(Message::from_tree(tree)),
        Err(_) => said.is_short = true,
    }
}

/// Makes the text of the result in a row, and says it and the tree that it does not need.
pub fn result(said: &mut Said, row: &str) {
    let made = match value_in(said.alloc, row) {
        Ok(tree) => ResultText::with_tree(said.alloc, tree),
        Err(_) => Err(AllocError),
    };
    match made {
        Ok((text, tree)) => {
            said.debug(text);
            say_spare(said, tree);
        }
        Err(_) => said.is_short = true,
    }
}

fn say_spare(said: &mut Said, tree: Option<Value>) {
    said.push("\n  ");
    match tree {
        Some(tree) => said.show(tree),
        None => said.push("no tree"),
    }
}

/// `METHOD MESSAGE`: the params of a message as a number, if it has this method.
pub fn extracted(said: &mut Said, row: &str) {
    let (method, text) = said.cut(row, " ");
    let mut found = Said::new(said.alloc);
    extract(&mut found, message_in(said.alloc, text), method);
    said.is_unknown = said.is_unknown || found.is_unknown;
    said.is_short = said.is_short || found.is_short;
    let text = found.text;
    said.bytes("", text.as_bytes());
}

fn extract(said: &mut Said, message: Result<Option<Message>, AllocError>, method: &str) {
    match message {
        Ok(Some(Message::Request(request))) => match request.extract::<i32>(said.alloc, method) {
            Ok((id, number)) => {
                said.show(id);
                said.push(": ");
                said.show(number);
            }
            Err(error) => said.show(error),
        },
        Ok(Some(Message::Notification(notification))) => {
            match notification.extract::<i32>(said.alloc, method) {
                Ok(number) => said.show(number),
                Err(error) => said.show(error),
            }
        }
        Ok(Some(Message::Response(response))) => {
            drop(response);
            said.unknown()
        }
        Ok(None) => said.unknown(),
        Err(_) => said.is_short = true,
    }
}
