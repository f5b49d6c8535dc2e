//! The steps of a script, each in a line. `A registers p 10 [1,2]` is a request `p` of A with the payload 10, and `A
//! tells p null` a notification. `B gets 59` lets up to 59 bytes arrive at B. With `B takes 2` it takes a message, and
//! if that is a request holds it as 2. Then `B answers 0 true`, `B refuses 0 -32601 text`, `B cancels 0` or `B gives-up
//! 0` closes the request whose id is 0.
use anyhow::{Context, Result, bail};
use lsp_message::RequestId;
use lsp_peers::{Side, Step};
use serde_json::Value;
use std::alloc::Global;

/// Reads the step of a line.
pub fn step_of(alloc: Global, line: &str) -> Result<Step> {
    let (name, rest) = cut(line);
    let side = if name == "A" { Side::A } else { Side::B };
    let (verb, rest) = cut(rest);
    let (word, rest) = cut(rest);
    match verb {
        "registers" => {
            let (payload, params) = cut(rest);
            Ok(Step::Register {
                side,
                payload: payload.parse()?,
                method: String::from_str(alloc, word)?,
                params: Value::from_str(alloc, params)?,
            })
        }
        "tells" => Ok(Step::Tell {
            side,
            method: String::from_str(alloc, word)?,
            params: Value::from_str(alloc, rest)?,
        }),
        "gets" => Ok(Step::Pass {
            to: side,
            bytes: word.parse()?,
        }),
        "takes" => Ok(Step::Take {
            side,
            label: word.parse()?,
        }),
        _ => {
            let id = RequestId::from_value(&Value::from_str(alloc, word)?)?.context("no id")?;
            close(alloc, side, verb, id, rest)
        }
    }
}

/// Makes a step that closes the request with this id, which the side holds.
fn close(alloc: Global, side: Side, verb: &str, id: RequestId, rest: &str) -> Result<Step> {
    match verb {
        "answers" => {
            let result = Value::from_str(alloc, rest)?;
            Ok(Step::Answer { side, id, result })
        }
        "refuses" => {
            let (code, message) = cut(rest);
            Ok(Step::Refuse {
                side,
                id,
                code: code.parse()?,
                message: String::from_str(alloc, message)?,
            })
        }
        "cancels" => Ok(Step::Cancel { side, id }),
        "gives-up" => Ok(Step::GiveUp { side, id }),
        _ => bail!("no such step: {verb}"),
    }
}

/// Returns the first word, and the text after it.
fn cut(words: &str) -> (&str, &str) {
    words.split_once(" ").unwrap_or((words, ""))
}
