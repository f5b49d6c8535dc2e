// A handler, as a service that sends nothing but its answers.
ghost use Rattle.std.specs.Prelude.{◌≡◌};
ghost use Rattle.lsp_session.specs.HandlerService.{lent_handler};

use crate::loops::application::Application;
use crate::loops::handler::{Handler, initialize_result};
use crate::loops::service::Service;
use lsp_message::{Message, Notification, Request, RequestId, Response, ResponseError};
use serde_json::Value;
use std::alloc::{AllocError, Global};
use std::mem;

/// A handler as a service. It returns the handler's answers, and answers `initialize` with the capabilities, which it
/// takes out of the value that it borrows.
#[derive(Drop)]
pub struct HandlerService<'a, H> {
    alloc: Global,
    capabilities: &'a mut Value,
    handler: &'a mut H,
}

impl<'a, H: Handler> HandlerService<'a, H> {
    /// Makes a service of a handler. It does not allocate.
    pub fn new(alloc: Global, capabilities: &'a mut Value, handler: &'a mut H) -> Self
        ensures same_handler { result.handler.ghost_name ≡ handler.entry.ghost_name }
        ensures unchanged { result.handler.now ≡ handler.old }
        ensures capabilities { result.capabilities.now ≡ capabilities.old }
    {
        HandlerService {
            alloc,
            capabilities,
            handler,
        }
    }
}

impl<'a, H: Handler> Service for HandlerService<'a, H> {
    type Output = Option<Message>;

    ghost behavior = { lent_handler H.answer_post H.note_post };

    fn initialize(&mut self, _params: Value) -> Result<Result<Value, ResponseError>, AllocError> {
        let capabilities = mem::replace(self.capabilities, Value::Null);
        Ok(Ok(initialize_result(self.alloc, capabilities)?))
    }

    fn initialized(&mut self) -> Result<Option<Message>, AllocError> {
        Ok(None)
    }

    fn request(&mut self, request: Request) -> Result<Option<Message>, AllocError> {
        Ok(Some(Message::Response(self.handler.respond(request)?)))
    }

    fn notification(&mut self, notification: Notification) -> Result<Option<Message>, AllocError> {
        self.handler.note(&notification)?;
        Ok(None)
    }

    fn response(&mut self, _response: Response) -> Result<Option<Message>, AllocError> {
        Ok(None)
    }

    fn woken(&mut self) -> Result<Option<Message>, AllocError> {
        Ok(None)
    }

    fn shutdown(&mut self, _id: &RequestId) -> Result<Option<Message>, AllocError> {
        Ok(None)
    }

    fn passes_late(&self) -> bool {
        false
    }
}

impl<'a, H: Handler> Application for HandlerService<'a, H> {
    ghost use Rattle.lsp_session.specs.Session.{SessionOut};

    ghost session = { SessionOut Self.behavior };

    fn begin(&mut self) {}
}
