// Acts of the server that speaks, at messages whose params are a place in a document (LSP 3.17, "TextDocumentPositionParams"), read by
// `serde`.
use lsp_acts::Act;
use lsp_message::{ErrorCode, Notification, Request, RequestId, ResponseError};
use lsp_types::{MessageType, Position};
use serde::Deserialize;
use std::alloc::{AllocError, AllocFailed, Global};

/// A place in a document.
#[derive(Drop, Deserialize)]
struct Place {
    #[serde(rename = "textDocument")]
    text_document: Document,
    position: Position,
}

#[derive(Drop, Deserialize)]
struct Document {
    uri: String,
}

/// Answers a request:
///
/// - `typed/uri` returns the document.
/// - `typed/above` returns the position above, and the error -32803 if there is none.
/// - `typed/show` shows a text, and returns null.
/// - `typed/marks` publishes the position as a diagnostic of the document, at version 7, and returns null. In the first
///   line there is no diagnostic, and no version.
pub fn asked<P: Drop + PartialEq>(
    alloc: Global,
    request: Request,
) -> Result<Vec<Act<P>>, AllocError> {
    match request.method.as_str() {
        "typed/uri" => Act::answer(alloc, request, |place: Place| {
            Ok(place.text_document.uri)
        }),
        "typed/above" => Act::try_answer(alloc, request, |place: Place| {
            above(alloc, place.position)
        }),
        "typed/show" => Act::from_request(alloc, request, |id, place: Place| {
            drop(place);
            shown(alloc, id)
        }),
        "typed/marks" => Act::from_request(alloc, request, |id, place| marked(alloc, id, place)),
        _ => listed(alloc, Act::method_not_found(alloc, taken_id(request))),
    }
}

/// The id of a request, without the rest.
pub fn taken_id(request: Request) -> RequestId {
    let Request { id, method, params } = request;
    drop(method);
    drop(params);
    id
}

/// A list of this item alone.
pub fn listed<T: Drop>(alloc: Global, item: Result<T, AllocError>) -> Result<Vec<T>, AllocError> {
    and(Vec::new(alloc), item)
}

/// A list of these items.
pub fn both<T: Drop>(
    alloc: Global,
    first: Result<T, AllocError>,
    second: Result<T, AllocError>,
) -> Result<Vec<T>, AllocError> {
    match listed(alloc, first) {
        Ok(items) => and(items, second),
        Err(error) => {
            drop(second);
            Err(error)
        }
    }
}

/// Returns these items, followed by this one.
fn and<T: Drop>(mut items: Vec<T>, item: Result<T, AllocError>) -> Result<Vec<T>, AllocError> {
    let added = match item {
        Ok(item) => kept(items.push(item)),
        Err(error) => Err(error),
    };
    match added {
        Ok(()) => Ok(items),
        Err(error) => {
            drop(items);
            Err(error)
        }
    }
}

/// Notifies the client of the position, and logs a warning in its log.
pub fn noticed<P: Drop + PartialEq>(
    alloc: Global,
    notification: Notification,
) -> Result<Vec<Act<P>>, AllocError> {
    Act::from_notification(alloc, notification, |place: Place| {
        told(alloc, place.position)
    })
}

/// Whether a list took an item.
pub fn kept<T: Drop>(pushed: Result<(), AllocFailed<T>>) -> Result<(), AllocError> {
    match pushed {
        Ok(()) => Ok(()),
        Err(refused) => {
            drop(refused);
            Err(AllocError)
        }
    }
}

fn above(alloc: Global, at: Position) -> Result<Result<Position, ResponseError>, AllocError> {
    match at.line.checked_sub(1) {
        Some(line) => Ok(Ok(Position::new(line, at.character))),
        None => refused(ResponseError::new(alloc, ErrorCode::RequestFailed, "no line above")),
    }
}

/// Returns the outcome for which this error was made.
pub fn refused<T: Drop, E: Drop>(made: Result<E, AllocError>) -> Result<Result<T, E>, AllocError> {
    match made {
        Ok(error) => Ok(Err(error)),
        Err(error) => Err(error),
    }
}

fn shown<P: Drop + PartialEq>(alloc: Global, id: RequestId) -> Result<Vec<Act<P>>, AllocError> {
    let shown = Act::show_message(alloc, MessageType::INFO, "here");
    both(alloc, shown, Act::reply(alloc, id, &()))
}

fn marked<P: Drop + PartialEq>(
    alloc: Global,
    id: RequestId,
    place: Place,
) -> Result<Vec<Act<P>>, AllocError> {
    let found = [place.position];
    let line = place.position.line;
    let uri = place.text_document.uri.as_str();
    let marked = match line {
        0 => Act::publish(alloc, uri, None, found.get(1..).unwrap_or(&[])),
        _ => Act::publish(alloc, uri, Some(7), &found),
    };
    drop(place);
    both(alloc, marked, Act::reply(alloc, id, &()))
}

fn told<P: Drop + PartialEq>(alloc: Global, at: Position) -> Result<Vec<Act<P>>, AllocError> {
    let told = Act::send_notification(alloc, "typed/told", &at);
    both(
        alloc,
        told,
        Act::log_message(alloc, MessageType::WARNING, "told"),
    )
}
