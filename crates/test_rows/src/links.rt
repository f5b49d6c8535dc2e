// The calls of a link, as steps.
//
// | Step | The call |
// |---|---|
// | a member text | `write`; what is on the way then |
// | `deep LEVELS` | the same of a notification whose params are so many lists, each in the next |
// | `pass COUNT` | `pass` |
// | `take`, `skip` | the same |
use crate::messages::{message_in, nested};
use crate::said::{Said, Stepped};
use lsp_message::{Message, Notification};
use lsp_peers::{Link, WorldFault};
use std::alloc::{AllocError, Global};

/// Says the results of these steps on a link without bytes.
pub fn answers(said: &mut Said, steps: &str) {
    let link = Link::default(said.alloc);
    said.steps_on(steps, link)
}

impl Stepped for Link {
    fn step(&mut self, said: &mut Said, step: &str) {
        let (verb, word) = step.split_once(" ").unwrap_or((step, ""));
        match verb {
            "pass" => {
                let count = self.pass(said.count_in(word));
                said.push("passed ");
                said.show(count);
                said.push(", ");
                said.show(self.arrived().len());
                said.push(" there");
            }
            "take" => take(said, self),
            "skip" => {
                said.push("skipped ");
                said.show(self.skip());
            }
            "deep" => {
                let message = deep_message(said.alloc, said.count_in(word));
                write(said, self, message)
            }
            _ => {
                let message = message_in(said.alloc, step);
                write(said, self, message)
            }
        }
    }
}

fn deep_message(alloc: Global, levels: usize) -> Result<Option<Message>, AllocError> {
    let method = String::from_str(alloc, "deep")?;
    match nested(alloc, levels) {
        Ok(params) => Ok(Some(Message::from(Notification { method, params }))),
        Err(error) => Err(error),
    }
}

fn write(said: &mut Said, link: &mut Link, message: Result<Option<Message>, AllocError>) {
    match message {
        Ok(Some(message)) => {
            let written = link.write(&message);
            drop(message);
            said.is_short = said.is_short || written.is_err();
            said.show(link.on_way().len());
            said.push(" on the way");
        }
        Ok(None) => said.unknown(),
        Err(_) => said.is_short = true,
    }
}

fn take(said: &mut Said, link: &mut Link) {
    match link.take() {
        Ok(message) => said.message_or(message, "nothing"),
        Err(WorldFault::Memory) => said.is_short = true,
        Err(WorldFault::NotReadBack) => said.push("body not read back"),
    }
}
