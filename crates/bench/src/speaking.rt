//! The same session with a `Server`, although it sends nothing first.
use crate::session::ended;
use anyhow::Result;
use lsp_server::policies::EndOnBadContent;
use lsp_server::transports::Transcript;
use lsp_server::{
    Act, Limits, Notification, Request, ResponseError, Server, ServerApplication, StreamTransport,
};
use lsp_session::initialize_result;
use serde_json::{Map, Value};
use std::alloc::{AllocError, Global};
use std::io::{BufRead, Write};

/// Answers with the params, or with null.
#[derive(Drop)]
pub struct Speaking {
    pub alloc: Global,
    pub is_null: bool,
}

type Acts = Vec<Act<()>>;

impl Server for Speaking {
    ghost use Rattle.serde_json.specs.Data.{null, object, member, no_members};
    ghost use Rattle.std.specs.Prelude.{◌≡◌, ◌∷◌, [], Ok, codes, if◌then◌else◌};
    ghost use Rattle.lsp_acts.specs.Acts.{replies};

    type PendingData = ();

    ghost initialize_post = { λ old _ outcome new. (new ≡ old)
        × (outcome ≡ Ok (object (member (codes "capabilities") (object no_members) no_members))) };

    ghost initialized_post = { λ old acts new. (new ≡ old) × (acts ≡ []) };

    ghost request_post = { λ old id _ params acts new. (new ≡ old)
        × (acts ≡ replies id (Ok (if old.is_null then null else params)) ∷ []) };

    ghost notification_post = { λ old _ _ acts new. (new ≡ old) × (acts ≡ []) };

    ghost response_post = { λ old _ _ acts new. (new ≡ old) × (acts ≡ []) };

    ghost ids_exhausted_post = { λ old _ new. new ≡ old };

    fn initialize(&mut self, params: Value) -> Result<Result<Value, ResponseError>, AllocError> {
        drop(params);
        let none = Value::Object(Map::new(self.alloc));
        Ok(Ok(initialize_result(self.alloc, none)?))
    }

    fn initialized(&mut self) -> Result<Acts, AllocError> {
        Ok(Vec::new(self.alloc))
    }

    fn request(&mut self, request: Request) -> Result<Acts, AllocError> {
        let Request { id, method, params } = request;
        drop(method);
        let result = if self.is_null {
            drop(params);
            Value::Null
        } else {
            params
        };
        let mut acts = Vec::new(self.alloc);
        match acts.push(Act::Reply(id, Ok(result))) {
            Ok(()) => Ok(acts),
            Err(failed) => {
                drop(failed);
                Err(AllocError)
            }
        }
    }

    fn notification(&mut self, notification: Notification) -> Result<Acts, AllocError> {
        drop(notification);
        Ok(Vec::new(self.alloc))
    }

    fn response(
        &mut self,
        _payload: (),
        outcome: Result<Value, ResponseError>,
    ) -> Result<Acts, AllocError> {
        drop(outcome);
        Ok(Vec::new(self.alloc))
    }

    fn woken(&mut self, alloc: Global) -> Result<Acts, AllocError> {
        Ok(Vec::new(alloc))
    }

    fn shutdown(&mut self, alloc: Global) -> Result<Vec<Act<()>>, AllocError> {
        Ok(Vec::new(alloc))
    }

    fn ids_exhausted(&mut self, _payload: ()) -> Result<(), AllocError> {
        Ok(())
    }
}

/// Runs the whole session.
pub fn serve<R: BufRead, W: Write>(
    alloc: Global,
    reader: &mut R,
    writer: &mut W,
    is_null: bool,
) -> Result<()> {
    let mut application = ServerApplication::new(alloc, Speaking { alloc, is_null });
    let mut policy = EndOnBadContent;
    let mut transcript = Transcript::new();
    let limits = Limits::none();
    let mut transport = StreamTransport::within(
        alloc,
        reader,
        writer,
        &mut policy,
        limits,
        &mut transcript,
    );
    let answer = transport.serve(&mut application);
    ended(answer)
}
