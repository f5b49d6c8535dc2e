// A handler, and a server that speaks.
use crate::typed;
use crate::typed::{both, kept, listed, refused};
use lsp_acts::{Act, Server};
use lsp_message::{Notification, Request, RequestId, ResponseError};
use lsp_session::{Handler, initialize_result};
use serde_json::{Map, Value};
use std::alloc::{AllocError, Global};
use std::mem;

/// Answers `demo/echo` with its params, knows no other method, and counts the messages that arrive.
#[derive(Drop)]
pub struct Echo {
    alloc: Global,
    /// How many requests arrived.
    pub asked: u32,
    /// How many notifications arrived.
    pub told: u32,
}

impl Echo {
    /// Makes a handler that has received nothing.
    pub fn new(alloc: Global) -> Echo {
        Echo {
            alloc,
            asked: 0,
            told: 0,
        }
    }
}

impl Handler for Echo {
    fn answer(&mut self, request: &Request) -> Result<Result<Value, ResponseError>, AllocError> {
        self.asked = self.asked.saturating_add(1);
        if request.method.as_str() == "demo/echo" {
            let params: Result<Value, AllocError> = request.params.clone();
            return found(params);
        }
        refused(ResponseError::method_not_found(self.alloc))
    }

    fn note(&mut self, _notification: &Notification) -> Result<(), AllocError> {
        self.told = self.told.saturating_add(1);
        Ok(())
    }
}

/// Returns the outcome for which this value was made.
fn found<T: Drop, E: Drop>(made: Result<T, AllocError>) -> Result<Result<T, E>, AllocError> {
    match made {
        Ok(value) => Ok(Ok(value)),
        Err(error) => Err(error),
    }
}

/// Why the server sent its client a request.
#[derive(Drop, PartialEq)]
pub enum Asked {
    /// To answer this request with the reply.
    For(RequestId),
    /// For the configuration, the number of this question, from 1.
    Configuration(u64),
}

/// The answer to a request with its params.
fn echoed(alloc: Global, request: Request) -> Result<Acts, AllocError> {
    let Request { id, method, params } = request;
    drop(method);
    Act::one(alloc, Act::Reply(id, Ok(params)))
}

/// A notification.
fn told(alloc: Global, method: &str, params: Value) -> Result<Act<Asked>, AllocError> {
    match String::from_str(alloc, method) {
        Ok(method) => Ok(Act::SendNotification(Notification { method, params })),
        Err(error) => {
            drop(params);
            Err(error)
        }
    }
}

/// The question of this number for the configuration.
fn question(alloc: Global, number: u64) -> Result<Act<Asked>, AllocError> {
    match String::from_str(alloc, "workspace/configuration") {
        Ok(method) => Ok(Act::SendRequest(method, Value::Null, Asked::Configuration(number))),
        Err(error) => Err(error),
    }
}

/// Notifies its client, sends it requests, and answers late.
///
/// - It sends `demo/hello` first, and asks for the configuration.
/// - It answers `demo/echo` with its params. At `demo/ask` it sends its client `demo/asked`, and answers with the
///   reply. It keeps `demo/hold` until the next notification or wake-up. It knows no other method except those of
///   `typed`.
/// - At a notification it sends its params to the client, asks for the configuration, and answers the requests that it
///   keeps.
/// - At a reply with the configuration it sends the number of the question.
/// - At a wake-up it sends `demo/woken`, and answers the requests that it keeps.
#[derive(Drop)]
pub struct Talker {
    alloc: Global,
    questions: u64,
    held: Vec<RequestId>,
    /// Whether it does something at a wake-up.
    pub tells_wakes: bool,
}

type Acts = Vec<Act<Asked>>;

impl Talker {
    /// Makes a server that has received nothing.
    pub fn new(alloc: Global) -> Talker {
        Talker {
            alloc,
            questions: 0,
            held: Vec::new(alloc),
            tells_wakes: false,
        }
    }

    /// A notification, and the question for the configuration.
    fn asking(&mut self, method: &str, params: Value) -> Result<Acts, AllocError> {
        self.questions = self.questions.saturating_add(1);
        let told = told(self.alloc, method, params);
        both(self.alloc, told, question(self.alloc, self.questions))
    }

    /// Returns these acts, and the answers to the requests that it keeps.
    fn release(&mut self, acts: Result<Acts, AllocError>) -> Result<Acts, AllocError> {
        match acts {
            Ok(mut acts) => match self.release_to(&mut acts) {
                Ok(()) => Ok(acts),
                Err(error) => {
                    drop(acts);
                    Err(error)
                }
            },
            Err(error) => Err(error),
        }
    }

    fn release_to(&mut self, acts: &mut Acts) -> Result<(), AllocError> {
        for id in mem::replace(&mut self.held, Vec::new(self.alloc)) {
            kept(acts.push(Act::Reply(id, Ok(Value::Null))))?;
        }
        Ok(())
    }

    /// Sends the client a request, whose reply is the answer to this request.
    fn ask(&self, request: Request) -> Result<Acts, AllocError> {
        let Request { id, method, params } = request;
        drop(method);
        match String::from_str(self.alloc, "demo/asked") {
            Ok(method) => Act::one(self.alloc, Act::SendRequest(method, params, Asked::For(id))),
            Err(error) => {
                drop(params);
                drop(id);
                Err(error)
            }
        }
    }

    /// Keeps a request.
    fn hold(&mut self, id: RequestId) -> Result<Acts, AllocError> {
        match kept(self.held.push(id)) {
            Ok(()) => Ok(Vec::new(self.alloc)),
            Err(error) => Err(error),
        }
    }
}

impl Server for Talker {
    ghost use Rattle.std.specs.Prelude.{⊤};

    ghost woken_post = { λ _ _ _. ⊤ };

    type PendingData = Asked;

    fn initialize(&mut self, params: Value) -> Result<Result<Value, ResponseError>, AllocError> {
        drop(params);
        found(initialize_result(self.alloc, Value::Object(Map::new(self.alloc))))
    }

    fn initialized(&mut self) -> Result<Acts, AllocError> {
        self.asking("demo/hello", Value::Object(Map::new(self.alloc)))
    }

    fn request(&mut self, request: Request) -> Result<Acts, AllocError> {
        match request.method.as_str() {
            "demo/echo" => echoed(self.alloc, request),
            "demo/ask" => self.ask(request),
            "demo/hold" => self.hold(typed::taken_id(request)),
            _ => typed::asked(self.alloc, request),
        }
    }

    fn notification(&mut self, notification: Notification) -> Result<Acts, AllocError> {
        if notification.method.as_str().starts_with("typed/") {
            return typed::noticed(self.alloc, notification);
        }
        let Notification { method, params } = notification;
        drop(method);
        let acts = self.asking("demo/pushed", params);
        self.release(acts)
    }

    fn response(
        &mut self,
        asked: Asked,
        outcome: Result<Value, ResponseError>,
    ) -> Result<Acts, AllocError> {
        match asked {
            Asked::For(id) => Act::one(self.alloc, Act::Reply(id, outcome)),
            Asked::Configuration(number) => {
                drop(outcome);
                listed(
                    self.alloc,
                    Act::send_notification(self.alloc, "demo/pushed", &number),
                )
            }
        }
    }

    fn woken(&mut self, _alloc: Global) -> Result<Acts, AllocError> {
        if !self.tells_wakes {
            return Ok(Vec::new(self.alloc));
        }
        let acts = listed(
            self.alloc,
            Act::send_notification(self.alloc, "demo/woken", &()),
        );
        self.release(acts)
    }

    fn shutdown(&mut self, alloc: Global) -> Result<Acts, AllocError> {
        if self.held.is_empty() {
            return Ok(Vec::new(alloc));
        }
        listed(alloc, Act::send_notification(alloc, "demo/bye", &()))
    }

    fn ids_exhausted(&mut self, asked: Asked) -> Result<(), AllocError> {
        drop(asked);
        Ok(())
    }
}
