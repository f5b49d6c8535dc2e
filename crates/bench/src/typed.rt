//! The same session with a `Server` that reads a report of diagnostics by its type, and writes it from its type. It makes
//! no tree.
use crate::session::ended;
use anyhow::Result;
use lsp_json::JsonRef;
use lsp_methods::{from_json, result_text};
use lsp_server::calls::CallRef;
use lsp_server::policies::EndOnBadContent;
use lsp_server::transports::Transcript;
use lsp_server::{
    Act, Limits, Notification, Request, RequestId, ResponseError, Server, ServerApplication,
    StreamTransport,
};
use lsp_session::initialize_result;
use lsp_types_features::FullDocumentDiagnosticReport;
use serde_json::{Map, Value};
use std::alloc::{AllocError, Global};
use std::io::{BufRead, Write};

/// Answers with the report that it gets.
#[derive(Drop)]
struct Typed {
    alloc: Global,
}

type Acts = Vec<Act<()>>;

// Nothing is promised of its replies here: `result_text` states what it writes.
impl Server for Typed {
    type PendingData = ();

    fn initialize(&mut self, params: Value) -> Result<Result<Value, ResponseError>, AllocError> {
        drop(params);
        let none = Value::Object(Map::new(self.alloc));
        Ok(Ok(initialize_result(self.alloc, none)?))
    }

    fn initialized(&mut self) -> Result<Acts, AllocError> {
        Ok(Vec::new(self.alloc))
    }

    fn reads_calls(&self) -> bool {
        true
    }

    fn call(&mut self, call: &CallRef<'_>) -> Result<Option<Acts>, AllocError> {
        match call {
            CallRef::Request(request) => {
                let id = request.id.clone()?;
                Ok(Some(answer(self.alloc, id, &request.params)?))
            }
            CallRef::Notification(_) => Ok(Some(Vec::new(self.alloc))),
        }
    }

    fn request(&mut self, request: Request) -> Result<Acts, AllocError> {
        let Request { id, method, params } = request;
        drop(method);
        let acts = answer(self.alloc, id, &JsonRef::of_tree(&params));
        drop(params);
        acts
    }

    fn notification(&mut self, notification: Notification) -> Result<Acts, AllocError> {
        drop(notification);
        Ok(Vec::new(self.alloc))
    }

    fn response(
        &mut self,
        _payload: (),
        outcome: Result<Value, ResponseError>,
    ) -> Result<Acts, AllocError> {
        drop(outcome);
        Ok(Vec::new(self.alloc))
    }

    fn woken(&mut self, alloc: Global) -> Result<Acts, AllocError> {
        Ok(Vec::new(alloc))
    }

    fn shutdown(&mut self, alloc: Global) -> Result<Acts, AllocError> {
        Ok(Vec::new(alloc))
    }

    fn ids_exhausted(&mut self, _payload: ()) -> Result<(), AllocError> {
        Ok(())
    }
}

/// Makes the reply with the report in the params, or with the error of params that are none.
fn answer(alloc: Global, id: RequestId, params: &JsonRef<'_>) -> Result<Acts, AllocError> {
    match from_json::<FullDocumentDiagnosticReport>(alloc, params)? {
        Ok(found) => {
            let text = result_text(alloc, &found);
            drop(found);
            Act::one(alloc, Act::ReplyText(id, text?))
        }
        Err(error) => Act::one(alloc, Act::Reply(id, Err(error))),
    }
}

/// Runs the whole session.
pub fn serve<R: BufRead, W: Write>(alloc: Global, reader: &mut R, writer: &mut W) -> Result<()> {
    let mut application = ServerApplication::new(alloc, Typed { alloc });
    let mut policy = EndOnBadContent;
    let mut transcript = Transcript::new();
    let mut transport = StreamTransport::within(
        alloc,
        reader,
        writer,
        &mut policy,
        Limits::none(),
        &mut transcript,
    );
    let answer = transport.serve(&mut application);
    ended(answer)
}
