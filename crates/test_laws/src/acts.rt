//! A server that answers no request before `shutdown`.
ghost use Rattle.std.specs.Prelude.{◌≡◌, Some, IfOk};
ghost use Rattle.lsp_acts.specs.SentByActs.{ActsAt};
ghost use Rattle.lsp_acts.specs.View.{seen};
ghost use Rattle.lsp_message.specs.View.{request_view};
ghost use Rattle.lsp_session.specs.OutputView.{output_view};
ghost use Rattle.lsp_session.specs.Prompt.{Talks};
ghost use Rattle.lsp_session.specs.Session.{starting};
ghost use Rattle.test_laws.specs.Owed.{Owed};

use lsp_acts::laws::{
    call_sends_its_acts, id_used_once_is_answered_once, lost_client_is_owed_what_is_held,
    server_application_runs_its_server, server_keeps_laws, shutdown_leaves_nobody_waiting,
};
use lsp_acts::{Act, Server, ServerApplication};
use lsp_message::{Notification, Request, ResponseError};
use lsp_session::{Output, Service, SessionOutcome, TextOutbox, WakingInbox, serve_transport};
use serde_json::Value;
use std::alloc::{AllocError, Global};

/// A server that answers no request itself. Each gets an error at `shutdown`.
#[derive(Drop)]
pub struct Keeper {
    alloc: Global,
}

impl Keeper {
    /// Makes a server that holds no request.
    pub fn new(alloc: Global) -> Keeper {
        Keeper { alloc }
    }
}

impl Server for Keeper {
    ghost use Rattle.std.specs.Prelude.{◌≡◌, []};

    ghost request_post = { λ old _ _ _ acts new. (new ≡ old) × (acts ≡ []) };

    type PendingData = ();

    fn initialize(&mut self, _params: Value) -> Result<Result<Value, ResponseError>, AllocError> {
        Ok(Ok(Value::Null))
    }

    fn initialized(&mut self) -> Result<Vec<Act<()>>, AllocError> {
        Ok(Vec::new(self.alloc))
    }

    fn request(&mut self, _request: Request) -> Result<Vec<Act<()>>, AllocError> {
        Ok(Vec::new(self.alloc))
    }

    fn notification(&mut self, _notification: Notification) -> Result<Vec<Act<()>>, AllocError> {
        Ok(Vec::new(self.alloc))
    }

    fn response(
        &mut self,
        _payload: (),
        _outcome: Result<Value, ResponseError>,
    ) -> Result<Vec<Act<()>>, AllocError> {
        Ok(Vec::new(self.alloc))
    }

    fn woken(&mut self, alloc: Global) -> Result<Vec<Act<()>>, AllocError> {
        Ok(Vec::new(alloc))
    }

    fn shutdown(&mut self, alloc: Global) -> Result<Vec<Act<()>>, AllocError> {
        Ok(Vec::new(alloc))
    }

    fn ids_exhausted(&mut self, _payload: ()) -> Result<(), AllocError> {
        Ok(())
    }
}

/// Serves a client. The session keeps the laws of a server's session, and says of each id which replies it leaves.
pub fn serve_keeper<L: WakingInbox + TextOutbox>(
    alloc: Global,
    transport: &mut L,
    keeper: Keeper,
) -> (Keeper, SessionOutcome)
    ensures { Talks L.receives L.listens L.sends starting (Owed ⟦<Keeper as Server>⟧ keeper result.0) transport.old
        result.1.answer transport.new }
{
    server_application_runs_its_server::<Keeper>();
    server_keeps_laws::<Keeper>();
    lost_client_is_owed_what_is_held();
    shutdown_leaves_nobody_waiting();
    id_used_once_is_answered_once();
    let mut application = ServerApplication::new(alloc, keeper);
    let outcome = serve_transport(alloc, transport, &mut application);
    (application.into_server(), outcome)
}

/// Gives the server a request, and returns the messages of its acts, which are all that is sent.
pub fn ask_keeper(
    application: &mut ServerApplication<Keeper, ()>,
    request: Request,
) -> Result<Output, AllocError>
    ensures { IfOk result (λ output. ActsAt ⟦<Keeper as Server>⟧ (seen application.old)
        (Some (request_view request)) (output_view output) (seen application.new)) }
{
    call_sends_its_acts::<Keeper>();
    application.request(request)
}
