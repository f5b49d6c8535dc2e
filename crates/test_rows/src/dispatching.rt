// The calls of a dispatcher, as steps: the member text of a message that is delivered, or `finish ID TICKET RESULT`. `dispatch` makes
// each call alone, `replay` all of them by the call of that name. The answers print as they do for a programmer. In `dispatch`, a step
// `after TICKETS` puts a dispatcher there that has given out so many tickets.
use crate::messages::{id_in, message_in, value_in};
use crate::said::{Said, Stepped};
use lsp_dispatch::{Answer, Call, DispatchFault, Dispatcher, replay};
use std::alloc::AllocError;
use std::fmt::Write;

/// Says the results of the steps on a new dispatcher, one after another.
pub fn dispatched(said: &mut Said, steps: &str) {
    let dispatcher = Dispatcher::default(said.alloc);
    said.steps_on(steps, dispatcher)
}

impl Stepped for Dispatcher {
    fn step(&mut self, said: &mut Said, step: &str) {
        match step.strip_prefix("after ") {
            Some(word) => {
                *self = Dispatcher::after(said.alloc, said.count_in(word) as u64);
                said.push(step)
            }
            None => call(said, self, step),
        }
    }
}

/// Makes the call of a step.
fn call(said: &mut Said, dispatcher: &mut Dispatcher, step: &str) {
    match call_in(said, step) {
        Ok(Some(Call::Deliver(message))) => say(said, dispatcher.deliver(message)),
        Ok(Some(Call::Finish { id, ticket, result })) => {
            said.debug(dispatcher.finish(id, ticket, result))
        }
        Ok(None) => said.unknown(),
        Err(_) => said.is_short = true,
    }
}

fn say(said: &mut Said, answer: Result<Answer, DispatchFault>) {
    match answer {
        Ok(answer) => said.debug(answer),
        Err(fault) => {
            said.is_short = said.is_short || matches!(fault, DispatchFault::Memory(_));
            said.debug(fault)
        }
    }
}

/// Says the results of all steps on a new dispatcher.
pub fn replayed(said: &mut Said, steps: &str) {
    let mut calls = Calls(Vec::new(said.alloc));
    said.steps(steps, &mut calls);
    match replay(said.alloc, calls.0) {
        Ok(answers) => say_all(said, answers.as_slice()),
        Err(_) => said.is_short = true,
    }
}

/// The calls that `replay` is to make.
#[derive(Drop)]
struct Calls(Vec<Call>);

impl Stepped for Calls {
    fn step(&mut self, said: &mut Said, step: &str) {
        match call_in(said, step) {
            Ok(Some(call)) => said.kept(self.0.push(call)),
            Ok(None) => said.unknown(),
            Err(_) => said.is_short = true,
        }
    }
}

fn say_all(said: &mut Said, answers: &[Answer]) {
    for answer in answers {
        said.begin_step();
        let told = write!(said.text, "{answer:?}");
        said.note(told);
    }
}

fn call_in(said: &mut Said, step: &str) -> Result<Option<Call>, AllocError> {
    match step.strip_prefix("finish ") {
        Some(words) => finish_in(said, words),
        None => match message_in(said.alloc, step) {
            Ok(Some(message)) => Ok(Some(Call::Deliver(message))),
            Ok(None) => Ok(None),
            Err(error) => Err(error),
        },
    }
}

fn finish_in(said: &mut Said, words: &str) -> Result<Option<Call>, AllocError> {
    let (id, rest) = said.cut(words, " ");
    let (ticket, result) = said.cut(rest, " ");
    let ticket = said.count_in(ticket) as u64;
    match id_in(said.alloc, id) {
        Ok(Some(id)) => match value_in(said.alloc, result) {
            Ok(result) => Ok(Some(Call::Finish {
                id,
                ticket,
                result: Ok(result),
            })),
            Err(error) => {
                drop(id);
                Err(error)
            }
        },
        Ok(None) => Ok(None),
        Err(error) => Err(error),
    }
}
