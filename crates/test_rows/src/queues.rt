// The calls of the queues, as steps.
//
// | Step | The call |
// |---|---|
// | `register METHOD PARAMS DATA`, `register_value METHOD PARAMS DATA`, `complete ID` | of `Outgoing` |
// | `deep METHOD LEVELS DATA` | `register` with so many lists, each in the next |
// | `receive ID DATA`, `cancel ID`, `answer ID` | `register`, `cancel` and `complete` of `Incoming` |
// | `after COUNT` | `Outgoing::after`, in the place of the queue of this side |
// | `pending` | `has_pending` |
// | `ids` | of `Incoming` |
// | `ids_of DATA` | of `Outgoing` |
// | `many CALL COUNT` | many calls (`many.rt`) |
// | `shown` | how the queues print for a programmer |
use crate::many;
use crate::messages::{id_in, nested, value_in};
use crate::said::{Said, Stepped};
use lsp_message::{Message, Request, RequestId, Response};
use lsp_queue::{Outgoing, RegisterFault, ReqQueue};
use serde_json::Value;
use std::alloc::AllocError;
use std::fmt::Write;

/// Both queues, with a character for each request.
pub type Queue = ReqQueue<char, char>;

/// Says the results of these steps on new queues.
pub fn answers(said: &mut Said, steps: &str) {
    let queue: Queue = ReqQueue::default(said.alloc);
    said.steps_on(steps, queue)
}

impl Stepped for Queue {
    fn step(&mut self, said: &mut Said, step: &str) {
        let (verb, words) = step.split_once(" ").unwrap_or((step, ""));
        match verb {
            "register" | "register_value" | "deep" => register(said, self, verb, words),
            "after" => begin_after(said, self, words),
            "many" => many::calls(said, self, words),
            "ids" => say_ids(said, self.incoming.ids()),
            "ids_of" => {
                let data = data_in(said, words);
                say_ids(said, self.outgoing.ids_of(&data))
            }
            "shown" => {
                let told = write!(said.text, "{self:?}");
                said.note(told);
            }
            "pending" => {
                said.push("pending ");
                said.show(self.has_pending());
            }
            _ => {
                let (id, _) = words.split_once(" ").unwrap_or((words, ""));
                match id_in(said.alloc, id) {
                    Ok(Some(id)) => call_with(said, self, verb, id, words),
                    Ok(None) => said.unknown(),
                    Err(_) => said.is_short = true,
                }
            }
        }
    }
}

/// Puts an empty queue of this side there, which has used this many ids.
fn begin_after(said: &mut Said, queue: &mut Queue, word: &str) {
    match u32::try_from(said.count_in(word)) {
        Ok(count) if count <= 2147483648 => {
            queue.outgoing = Outgoing::after(said.alloc, count);
            said.push("after ");
            said.push(word);
        }
        _ => said.unknown(),
    }
}

fn say_ids(said: &mut Said, ids: Result<Vec<RequestId>, AllocError>) {
    match ids {
        Ok(ids) => {
            said.push("ids");
            push_ids(said, ids.as_slice());
            drop(ids);
        }
        Err(_) => said.is_short = true,
    }
}

fn push_ids(said: &mut Said, ids: &[RequestId]) {
    for id in ids {
        let told = write!(said.text, " {id}");
        said.note(told);
    }
}

/// A call with an id.
fn call_with(said: &mut Said, queue: &mut Queue, verb: &str, id: RequestId, words: &str) {
    match verb {
        "receive" => receive(said, queue, id, words),
        "cancel" => cancel(said, queue, id),
        "complete" => {
            said.push("complete ");
            said.debug(queue.outgoing.complete(id));
        }
        "answer" => {
            let data = queue.incoming.complete(&id);
            drop(id);
            said.push("answer ");
            said.debug(data);
        }
        _ => {
            drop(id);
            said.unknown()
        }
    }
}

fn data_in(said: &mut Said, word: &str) -> char {
    match word.chars().next() {
        Some(data) => data,
        None => {
            said.is_unknown = true;
            ' '
        }
    }
}

/// Registers params. Those that nest too deep are refused, however often they come. Others are refused only for memory,
/// until all ids were used.
fn register(said: &mut Said, queue: &mut Queue, verb: &str, words: &str) {
    let (method, rest) = said.cut(words, " ");
    let (params, data) = rest.rsplit_once(" ").unwrap_or((rest, ""));
    let data = data_in(said, data);
    let method = said.text_of(method);
    match params_in(said, verb, params) {
        Ok(params) => {
            let registered = match verb {
                "register_value" => queue.outgoing.register_value(method, params, data),
                _ => queue.outgoing.register(method, params, data),
            };
            say_registered(said, registered, verb)
        }
        Err(_) => said.is_short = true,
    }
}

fn params_in(said: &mut Said, verb: &str, params: &str) -> Result<Value, AllocError> {
    match verb {
        "deep" => nested(said.alloc, said.count_in(params)),
        _ => value_in(said.alloc, params),
    }
}

fn say_registered(said: &mut Said, registered: Result<Request, RegisterFault<char>>, verb: &str) {
    match registered {
        Ok(request) => said.message("sent ", Message::from(request)),
        Err(fault) => {
            let is_lasting = verb == "deep" || matches!(fault, RegisterFault::Spent(_));
            said.is_short = said.is_short || !is_lasting;
            said.debug(fault)
        }
    }
}

fn receive(said: &mut Said, queue: &mut Queue, id: RequestId, words: &str) {
    let (word, data) = said.cut(words, " ");
    let data = data_in(said, data);
    match queue.incoming.register(id, data) {
        Ok(()) => {
            said.push("received ");
            said.push(word);
        }
        Err(_) => said.is_short = true,
    }
}

fn cancel(said: &mut Said, queue: &mut Queue, id: RequestId) {
    match queue.incoming.cancel(id) {
        Ok(Some(reply)) => said.message("cancelled ", Message::from(reply)),
        Ok(None) => said.push("cancelled none"),
        Err(_) => said.is_short = true,
    }
}
