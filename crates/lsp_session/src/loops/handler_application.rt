// A handler beside its capabilities, as an application.
ghost use Rattle.serde_json.specs.View.{view};
ghost use Rattle.std.specs.Prelude.{◌≡◌};
ghost use Rattle.lsp_session.specs.HandlerService.{own_handler};
ghost use Rattle.lsp_session.specs.HandlerSession.{of_handler};
ghost use Rattle.lsp_session.specs.Session.{SessionOut};

use crate::loops::application::Application;
use crate::loops::handler::{Handler, initialize_result};
use crate::loops::service::Service;
use lsp_message::{Message, Notification, Request, RequestId, Response, ResponseError};
use serde_json::Value;
use std::alloc::{AllocError, Global};
use std::mem;

/// A handler with the capabilities of its server. `initialize` is answered with `{"capabilities":<capabilities>}`, and
/// each other request by the handler. A session takes the capabilities out, so each client needs an application of its
/// own.
#[derive(Drop)]
pub struct HandlerApplication<H> {
    alloc: Global,
    /// What the server can do (LSP 3.17, "Initialize Request").
    pub capabilities: Value,
    /// The handler, which answers the requests and handles the notifications.
    pub handler: H,
}

impl<H: Handler> HandlerApplication<H> {
    /// Makes an application of a handler. It does not allocate.
    pub fn new(alloc: Global, capabilities: Value, handler: H) -> Self
        ensures capabilities { result.capabilities ≡ capabilities }
        ensures handler { result.handler ≡ handler }
    {
        HandlerApplication {
            alloc,
            capabilities,
            handler,
        }
    }
}

impl<H: Handler> Service for HandlerApplication<H> {
    type Output = Option<Message>;

    ghost behavior = { own_handler H.answer_post H.note_post };

    fn initialize(&mut self, _params: Value) -> Result<Result<Value, ResponseError>, AllocError> {
        let capabilities = mem::replace(&mut self.capabilities, Value::Null);
        Ok(Ok(initialize_result(self.alloc, capabilities)?))
    }

    fn initialized(&mut self) -> Result<Option<Message>, AllocError> {
        Ok(None)
    }

    fn request(&mut self, request: Request) -> Result<Option<Message>, AllocError> {
        Ok(Some(Message::Response(self.handler.respond(request)?)))
    }

    fn notification(&mut self, notification: Notification) -> Result<Option<Message>, AllocError> {
        self.handler.note(&notification)?;
        Ok(None)
    }

    fn response(&mut self, _response: Response) -> Result<Option<Message>, AllocError> {
        Ok(None)
    }

    fn woken(&mut self) -> Result<Option<Message>, AllocError> {
        Ok(None)
    }

    fn shutdown(&mut self, _id: &RequestId) -> Result<Option<Message>, AllocError> {
        Ok(None)
    }

    fn passes_late(&self) -> bool {
        false
    }
}

impl<H: Handler> Application for HandlerApplication<H> {
    ghost session = { λ old new.
        SessionOut (of_handler H.answer_post H.note_post (view old.capabilities)) old.handler new.handler };

    fn begin(&mut self) {}
}
