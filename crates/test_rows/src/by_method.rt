// Acts at messages by LSP's methods, and the client's configuration.
ghost use Rattle.std.specs.Prelude.{◌≡◌, codes, string_bytes};

use crate::messages::value_in;
use crate::said::Said;
use crate::typed::{listed, refused, taken_id};
use crate::types::get;
use lsp_acts::Act;
use lsp_message::{ErrorCode, Message, Notification, Request, RequestId, ResponseError};
use lsp_methods::{
    Configuration, answer, on_notification, on_request, read_params, reply, send_notification,
    try_answer,
};
use lsp_types::methods::{
    CompletionRequest, DefinitionRequest, DidCloseTextDocumentNotification, HoverRequest,
    PublishDiagnosticsNotification,
};
use lsp_types::{
    CompletionParams, DefinitionParams, DefinitionResult, DidChangeConfigurationParams,
    DidCloseTextDocumentParams, Hover, HoverParams, Location, MarkupKind, Position,
    PublishDiagnosticsParams, Range,
};
use lsp_types_features::methods::FoldingRangeRequest;
use lsp_types_features::{FoldingRange, FoldingRangeParams};
use serde_json::Value;
use std::alloc::{AllocError, Global};

type Acts = Result<Vec<Act<u32>>, AllocError>;

/// Makes the acts at a message: the text of a hover is the document, a definition is the line above (the error -32803
/// if there is none), one fold is from line 1 to 2, a completion has its position, and a document that is closed has no
/// marks.
pub fn acts(said: &mut Said, message: Message) {
    let alloc = said.alloc;
    let acts = match message {
        Message::Request(request) => asked(alloc, request),
        Message::Notification(notification) => told(alloc, notification),
        other => {
            drop(other);
            Ok(Vec::new(alloc))
        }
    };
    let acts = said.made(acts, Vec::new(alloc));
    for act in acts {
        said.begin_step();
        say(said, act);
    }
}

fn asked(alloc: Global, request: Request) -> Acts {
    match request.method.as_str() {
        HoverRequest::METHOD => answer::<HoverRequest, u32, _>(
            alloc,
            request,
            |place: HoverParams| {
                Ok(Some(Hover::new(MarkupKind::PlainText, place.text_document.uri)))
            },
        ),
        DefinitionRequest::METHOD => {
            try_answer::<DefinitionRequest, u32, _>(alloc, request, |place| above(alloc, place))
        }
        FoldingRangeRequest::METHOD => {
            on_request::<FoldingRangeRequest, u32, _>(alloc, request, |id, params| {
                folds(alloc, id, params)
            })
        }
        CompletionRequest::METHOD => completed(alloc, request),
        _ => listed(alloc, Act::method_not_found(alloc, taken_id(request))),
    }
}

fn above(
    alloc: Global,
    place: DefinitionParams,
) -> Result<Result<Option<DefinitionResult>, ResponseError>, AllocError> {
    match place.position.line.checked_sub(1) {
        Some(line) => {
            let at = Position::new(line, 0);
            Ok(Ok(Some(DefinitionResult::One(Location {
                uri: place.text_document.uri,
                range: Range::new(at, at),
            }))))
        }
        None => {
            drop(place);
            refused(ResponseError::new(alloc, ErrorCode::RequestFailed, "no line above"))
        }
    }
}

fn folds(alloc: Global, id: RequestId, params: FoldingRangeParams) -> Acts {
    drop(params);
    let folds = Some(vec![in alloc; FoldingRange::new(1, 2)]?);
    let reply = reply::<FoldingRangeRequest, u32>(alloc, id, &folds);
    drop(folds);
    listed(alloc, reply)
}

fn completed(alloc: Global, request: Request) -> Acts
    requires { string_bytes request.method ≡ codes "textDocument/completion" }
{
    let (id, read): (RequestId, Result<CompletionParams, ResponseError>) = read_params::<
        CompletionRequest,
    >(alloc, request)?;
    match read {
        Ok(params) => {
            let position = params.position;
            drop(params);
            listed(alloc, Act::reply(alloc, id, &position))
        }
        Err(error) => listed(alloc, Ok(Act::Reply(id, Err(error)))),
    }
}

fn told(alloc: Global, notification: Notification) -> Acts {
    match notification.method.as_str() {
        DidCloseTextDocumentNotification::METHOD => {
            on_notification::<DidCloseTextDocumentNotification, u32, _>(
                alloc,
                notification,
                |closed| unmarked(alloc, closed),
            )
        }
        _ => {
            drop(notification);
            Ok(Vec::new(alloc))
        }
    }
}

fn unmarked(alloc: Global, closed: DidCloseTextDocumentParams) -> Acts {
    let params = PublishDiagnosticsParams::new(closed.text_document.uri, Vec::new(alloc));
    let told = send_notification::<PublishDiagnosticsNotification, u32>(alloc, &params);
    drop(params);
    listed(alloc, told)
}

fn say_reply(said: &mut Said, id: RequestId, outcome: Result<Value, ResponseError>) {
    match outcome {
        Ok(found) => {
            said.push("reply ");
            said.show(id);
            said.push(" ");
            said.show(found);
        }
        Err(error) => {
            said.push("refuse ");
            said.show(id);
            said.push(" ");
            said.show(error.code);
            said.push(" ");
            said.push(error.message.as_str());
            drop(error);
        }
    }
}

/// Says an act.
pub fn say(said: &mut Said, act: Act<u32>) {
    match act {
        Act::Reply(id, outcome) => say_reply(said, id, outcome),
        Act::ReplyText(id, text) => match text.into_value(said.alloc) {
            Ok(found) => say_reply(said, id, Ok(found)),
            Err(_) => {
                drop(id);
                said.is_short = true;
            }
        },
        Act::SendNotification(notification) => {
            let Notification { method, params } = notification;
            said.push("tell ");
            said.show(method);
            said.push(" ");
            said.show(params);
        }
        Act::SendRequest(method, params, payload) => {
            said.push("ask ");
            said.show(method);
            said.push(" ");
            said.show(params);
            said.push(" for ");
            said.show(payload);
        }
        Act::Cancel(id) => said.show(id),
    }
}

/// Takes a client's capabilities, its replies, the settings that it sends, and params of a change, one after another.
/// Says what is asked, whether each is taken, and the value after it, from 80.
pub fn configuration(said: &mut Said, text: &str) {
    let alloc = said.alloc;
    match value_in(alloc, text) {
        Ok(found) => {
            let client = get(said, &found, "client", Value::Null);
            let mut configuration = Configuration::new("lines", 80);
            configuration.read_capabilities(&client);
            drop(client);
            configured(said, &found, configuration);
            drop(found);
        }
        Err(_) => said.is_short = true,
    }
}

fn configured(said: &mut Said, found: &Value, mut configuration: Configuration<u32>) {
    let alloc = said.alloc;
    match configuration.send_request(alloc, 7) {
        Ok(Some(act)) => say(said, act),
        Ok(None) => said.push("nothing"),
        Err(_) => said.is_short = true,
    }
    let reply = get(said, found, "reply", Value::Null);
    let taken = configuration.take_reply(alloc, Ok(reply));
    say_taken(said, taken, configuration.value);
    let settings = get(said, found, "settings", Value::Null);
    let params = DidChangeConfigurationParams { settings };
    let taken = configuration.take_settings(alloc, &params);
    say_taken(said, taken, configuration.value);
    drop(params);
    changed(said, found, &mut configuration);
    drop(configuration);
}

fn changed(said: &mut Said, found: &Value, configuration: &mut Configuration<u32>) {
    let params = get(said, found, "changed", Value::Null);
    said.push(", ");
    match configuration.change(said.alloc, &params, 8) {
        Ok(Some(act)) => say(said, act),
        Ok(None) => said.push("nothing"),
        Err(_) => said.is_short = true,
    }
    drop(params);
    said.push(", ");
    said.show(configuration.value);
}

fn say_taken(said: &mut Said, taken: Result<bool, AllocError>, value: u32) {
    let taken = said.made(taken, false);
    said.push(if taken { ", taken " } else { ", kept " });
    said.show(value);
}
