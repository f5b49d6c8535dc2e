// What a table of features announces, and what it answers.
use crate::by_method::say;
use crate::messages::{message_in, value_in};
use crate::said::Said;
use crate::types::get;
use lsp_acts::Act;
use lsp_calls::RequestRef;
use lsp_features::{Answers, Offers, announce, dispatch, dispatch_ref};
use lsp_message::{Message, Request};
use lsp_types::methods::{CompletionRequest, HoverRequest, RenameRequest};
use lsp_types::{
    CompletionOptions, CompletionParams, CompletionResult, Hover, HoverParams, MarkupKind,
    RenameOptions, RenameParams, WorkspaceEdit,
};
use lsp_types_features::methods::FoldingRangeRequest;
use lsp_types_features::{FoldingRange, FoldingRangeParams};
use serde_json::Value;
use std::alloc::{AllocError, Global};

/// A server with a table.
#[derive(Drop)]
struct Tabled {
    alloc: Global,
    /// The characters that request a completion.
    triggers: Vec<String>,
    /// How many requests it answered.
    answered: u32,
}

type Features = (
    HoverRequest,
    (
        FoldingRangeRequest,
        (CompletionRequest, (RenameRequest, ())),
    ),
);

impl Answers<HoverRequest> for Tabled {
    fn answer(&mut self, params: HoverParams) -> Result<Option<Hover>, AllocError> {
        self.answered = self.answered.saturating_add(1);
        Ok(Some(Hover::new(MarkupKind::PlainText, params.text_document.uri)))
    }
}

impl Answers<FoldingRangeRequest> for Tabled {
    fn answer(
        &mut self,
        params: FoldingRangeParams,
    ) -> Result<Option<Vec<FoldingRange>>, AllocError> {
        drop(params);
        self.answered = self.answered.saturating_add(1);
        Ok(Some(vec![in self.alloc; FoldingRange::new(1, 2)]?))
    }
}

impl Answers<CompletionRequest> for Tabled {
    fn answer(&mut self, params: CompletionParams) -> Result<Option<CompletionResult>, AllocError> {
        drop(params);
        self.answered = self.answered.saturating_add(1);
        Ok(None)
    }
}

impl Answers<RenameRequest> for Tabled {
    fn answer(&mut self, params: RenameParams) -> Result<Option<WorkspaceEdit>, AllocError> {
        drop(params);
        self.answered = self.answered.saturating_add(1);
        Ok(None)
    }
}

impl Offers<CompletionRequest> for Tabled {
    fn options(&self, _alloc: Global) -> Result<CompletionOptions, AllocError> {
        Ok(CompletionOptions {
            trigger_characters: Some(self.triggers.clone()?),
            ..CompletionOptions::default()
        })
    }
}

impl Offers<RenameRequest> for Tabled {
    fn options(&self, _alloc: Global) -> Result<RenameOptions, AllocError> {
        Ok(RenameOptions::default())
    }
}

/// Says what the table announces, with the `triggers` of an object, and what a table without methods announces.
pub fn announced(said: &mut Said, text: &str) {
    match value_in(said.alloc, text) {
        Ok(found) => {
            let triggers = get(said, &found, "triggers", Vec::new(said.alloc));
            drop(found);
            let server = server_with(said.alloc, triggers);
            say_made(said, announce::<Features, Tabled>(server.alloc, &server));
            said.push(", ");
            say_made(said, announce::<(), Tabled>(server.alloc, &server));
            drop(server);
        }
        Err(_) => said.is_short = true,
    }
}

fn server_with(alloc: Global, triggers: Vec<String>) -> Tabled {
    Tabled {
        alloc,
        triggers,
        answered: 0,
    }
}

fn say_made(said: &mut Said, made: Result<Value, AllocError>) {
    match made {
        Ok(tree) => said.show(tree),
        Err(_) => said.is_short = true,
    }
}

/// Says the act for a request, or that the request is returned, and how many requests were answered.
pub fn answered(said: &mut Said, text: &str) {
    match message_in(said.alloc, text) {
        Ok(Some(Message::Request(request))) => dispatched(said, request),
        Ok(other) => {
            drop(other);
            said.unknown();
        }
        Err(_) => said.is_short = true,
    }
}

/// Prints how a request is answered, and beside it how another call answers the same request, if that differs.
fn dispatched(said: &mut Said, request: Request) {
    let mut called = Said::new(said.alloc);
    say_called(&mut called, &RequestRef::of(&request));
    let mut server = server_with(said.alloc, Vec::new(said.alloc));
    match dispatch::<Features, Tabled, u32>(said.alloc, &mut server, request) {
        Ok(Ok(acts)) => say_all(said, acts),
        Ok(Err(request)) => said.message("returned ", Message::Request(request)),
        Err(_) => said.is_short = true,
    }
    said.push(", ");
    said.show(server.answered);
    said.push(" answered");
    drop(server);
    say_difference(said, called);
}

/// Says the acts for a request whose params are read where they stand, and how many requests were answered.
fn say_called(said: &mut Said, request: &RequestRef<'_>) {
    let mut server = server_with(said.alloc, Vec::new(said.alloc));
    match dispatch_ref::<Features, Tabled, u32>(said.alloc, &mut server, request) {
        Ok(Some(acts)) => say_all(said, acts),
        Ok(None) => said.push("returned"),
        Err(_) => said.is_short = true,
    }
    said.push(", ");
    said.show(server.answered);
    said.push(" answered");
    drop(server);
}

/// Says what the second call said, if the first one said something else. A request that is returned is not in the
/// second text.
fn say_difference(said: &mut Said, called: Said) {
    let is_returned = called.text.as_str() == "returned, 0 answered";
    let is_same = if is_returned {
        said.text.as_str().starts_with("returned ") && said.text.as_str().ends_with(", 0 answered")
    } else {
        said.text.as_str() == called.text.as_str()
    };
    if called.is_short {
        said.is_short = true;
    } else if !is_same {
        said.push(", but ");
        said.push(called.text.as_str());
    }
    drop(called);
}

fn say_all(said: &mut Said, acts: Vec<Act<u32>>) {
    for act in acts {
        say(said, act);
    }
}
