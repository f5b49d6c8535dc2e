//! A server that answers each request at once.
ghost use Rattle.lsp_acts.specs.AtOnce.{LeavesNone};
ghost use Rattle.lsp_session.specs.Prompt.{Talks};
ghost use Rattle.lsp_session.specs.Session.{starting};

use lsp_acts::laws::{server_application_runs_its_server, server_that_answers_at_once_leaves_none};
use lsp_acts::{Act, Server, ServerApplication};
use lsp_message::{Notification, Request, ResponseError};
use lsp_session::{SessionOutcome, TextOutbox, WakingInbox, serve_transport};
use serde_json::Value;
use std::alloc::{AllocError, Global};

/// A server that answers each request with null at once.
#[derive(Drop)]
pub struct Nuller {
    alloc: Global,
}

impl Server for Nuller {
    ghost use Rattle.serde_json.specs.Data.{null};
    ghost use Rattle.std.specs.Prelude.{◌≡◌, ◌∷◌, [], Ok};
    ghost use Rattle.lsp_acts.specs.Acts.{replies};

    ghost request_post = { λ old id _ _ acts new. (new ≡ old) × (acts ≡ replies id (Ok null) ∷ []) };

    type PendingData = ();

    fn initialize(&mut self, _params: Value) -> Result<Result<Value, ResponseError>, AllocError> {
        Ok(Ok(Value::Null))
    }

    fn initialized(&mut self) -> Result<Vec<Act<()>>, AllocError> {
        Ok(Vec::new(self.alloc))
    }

    fn request(&mut self, request: Request) -> Result<Vec<Act<()>>, AllocError> {
        let Request { id, .. } = request;
        Act::one(self.alloc, Act::Reply(id, Ok(Value::Null)))
    }

    fn notification(&mut self, _notification: Notification) -> Result<Vec<Act<()>>, AllocError> {
        Ok(Vec::new(self.alloc))
    }

    fn response(
        &mut self,
        _payload: (),
        _outcome: Result<Value, ResponseError>,
    ) -> Result<Vec<Act<()>>, AllocError> {
        Ok(Vec::new(self.alloc))
    }

    fn woken(&mut self, alloc: Global) -> Result<Vec<Act<()>>, AllocError> {
        Ok(Vec::new(alloc))
    }

    fn shutdown(&mut self, alloc: Global) -> Result<Vec<Act<()>>, AllocError> {
        Ok(Vec::new(alloc))
    }

    fn ids_exhausted(&mut self, _payload: ()) -> Result<(), AllocError> {
        Ok(())
    }
}

/// Serves a client. Each request has its reply, as from a `Handler`.
pub fn serve_nuller<L: WakingInbox + TextOutbox>(
    alloc: Global,
    transport: &mut L,
    nuller: Nuller,
) -> SessionOutcome
    ensures { Talks L.receives L.listens L.sends starting LeavesNone transport.old result.answer transport.new }
{
    server_application_runs_its_server::<Nuller>();
    server_that_answers_at_once_leaves_none::<Nuller>();
    let mut application = ServerApplication::new(alloc, nuller);
    serve_transport(alloc, transport, &mut application)
}
