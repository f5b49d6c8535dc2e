//! A session on one thread: its cost compared with `pump`, and how it answers a recorded client.
use anyhow::{Error, Result};
use lsp_server::{
    Handler, Notification, Request, Response, ResponseError, SessionEnd, SessionFault, session,
};
use serde_json::{Map, Value};
use std::alloc::{AllocError, Global};
use std::io::{BufRead, Write};

/// Answers each request with its params, or with a copy of one value.
#[derive(Drop)]
pub struct Echo {
    /// Whether it returns the params.
    pub echoes: bool,
    /// What it answers otherwise.
    pub reply: Value,
}

impl Echo {
    /// Makes one that returns the params, or answers with null.
    pub fn new(is_null: bool) -> Echo {
        Echo {
            echoes: !is_null,
            reply: Value::Null,
        }
    }
}

impl Handler for Echo {
    ghost use Rattle.serde_json.specs.View.{view};
    ghost use Rattle.std.specs.Prelude.{◌≡◌, Ok, if◌then◌else◌};

    ghost answer_post = { λ old id method params outcome new. (new ≡ old)
        × (outcome ≡ Ok (if old.echoes then params else view old.reply)) };

    ghost note_post = { λ old method params new. new ≡ old };

    fn answer(&mut self, request: &Request) -> Result<Result<Value, ResponseError>, AllocError> {
        if self.echoes {
            return Ok(Ok(request.params.clone()?));
        }
        Ok(Ok(self.reply.clone()?))
    }

    fn note(&mut self, _notification: &Notification) -> Result<(), AllocError> {
        Ok(())
    }

    fn respond(&mut self, request: Request) -> Result<Response, AllocError> {
        let Request { id, method, params } = request;
        drop(method);
        if self.echoes {
            let response_result = Ok(params);
            return Ok(Response {
                id,
                response_result,
            });
        }
        drop(params);
        match self.reply.clone() {
            Ok(reply) => Ok(Response {
                id,
                response_result: Ok(reply),
            }),
            Err(error) => {
                drop(id);
                Err(error)
            }
        }
    }
}

/// Runs the whole session.
pub fn serve<R: BufRead, W: Write>(
    alloc: Global,
    reader: &mut R,
    writer: &mut W,
    echo: Echo,
) -> Result<()> {
    let mut echo = echo;
    let capabilities = Value::Object(Map::new(alloc));
    let answer = session(alloc, reader, writer, capabilities, &mut echo);
    drop(echo);
    ended(answer)
}

/// Returns how a session ended.
pub fn ended(answer: Result<SessionEnd, SessionFault>) -> Result<()> {
    match answer {
        Ok(_) => Ok(()),
        Err(fault) => Err(Error::from(fault)),
    }
}
