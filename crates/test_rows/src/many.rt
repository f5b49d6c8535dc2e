// Many calls of the queues in one step, `many CALL COUNT`. They are made for each number below the count, from the greatest to 0. Each
// request has the data `a`.
//
// | Call | What is called |
// |---|---|
// | `receive` | `Incoming::register`, with the number as an id, and with its decimal digits as an id |
// | `answer_even` | `Incoming::complete` with the same two ids, if the number is even |
// | `register` | `Outgoing::register_value` |
// | `complete_even` | `Outgoing::complete` with the number as the id, if it is even |
use crate::queues::Queue;
use crate::said::Said;
use lsp_message::RequestId;
use serde_json::Value;

/// Makes these calls, and says which.
pub fn calls(said: &mut Said, queue: &mut Queue, words: &str) {
    let (name, word) = said.cut(words, " ");
    let count = i32::try_from(said.count_in(word)).unwrap_or(0);
    for number in (0..count).rev() {
        call(said, queue, name, number);
    }
    said.push("many ");
    said.push(words);
}

/// Makes the calls for one number.
fn call(said: &mut Said, queue: &mut Queue, name: &str, number: i32) {
    let is_even = number % 2 == 0;
    match name {
        "receive" => {
            receive(said, queue, RequestId::from(number));
            let id = text_id(said, number);
            receive(said, queue, id)
        }
        "register" => register(said, queue),
        "answer_even" if is_even => answer(said, queue, number),
        "complete_even" if is_even => {
            queue.outgoing.complete(RequestId::from(number));
        }
        "answer_even" | "complete_even" => {}
        _ => said.unknown(),
    }
}

/// The id that is the text of this number.
fn text_id(said: &mut Said, number: i32) -> RequestId {
    let made = format!(in said.alloc; "{number}");
    let otherwise = String::new(said.alloc);
    RequestId::from(said.made(made, otherwise))
}

fn receive(said: &mut Said, queue: &mut Queue, id: RequestId) {
    if queue.incoming.register(id, 'a').is_err() {
        said.is_short = true;
    }
}

fn answer(said: &mut Said, queue: &mut Queue, number: i32) {
    queue.incoming.complete(&RequestId::from(number));
    let id = text_id(said, number);
    queue.incoming.complete(&id);
    drop(id);
}

fn register(said: &mut Said, queue: &mut Queue) {
    let method = String::new(said.alloc);
    match queue.outgoing.register_value(method, Value::Null, 'a') {
        Ok(request) => drop(request),
        Err(_) => said.is_short = true,
    }
}
