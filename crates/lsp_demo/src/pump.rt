// The program without its standard streams.
ghost use Rattle.std.specs.Prelude.{◌≡◌, ◌≤◌, [], Some, None, IfSome};
ghost use Rattle.lsp_demo.specs.Program.{asked_limit, status_of as status_of_spec, PumpsTo};
ghost use Rattle.lsp_message.specs.HeaderPart.{number};
ghost use Rattle.lsp_message.specs.declared.frame.limits.Limits.{Limits as most};
ghost use Rattle.lsp_threads.specs.Passing.{OfTaken, noted};

use crate::report::{report, report_usage};
use lsp_message::{ByteTrace, Limits};
use lsp_threads::{PumpFault, pump_traced};
use std::alloc::Global;
use std::io::{BufRead, Write};
use std::sync::Wait;
use std::thread::{Builder, Threads};

/// The exit status, and traces of the bytes that were read and written, which only clauses see.
#[derive(Drop)]
pub struct PumpStatus {
    /// 0 if all messages were passed on, and 1 otherwise.
    pub status: u8,
    /// The bytes that were taken from the reader.
    pub taken: ByteTrace,
    /// The bytes that the writer took.
    pub given: ByteTrace,
}

/// Runs the program with its arguments, and returns the exit status.
///
/// `pump` writes each message of the reader again, as a frame. An argument after it is the greatest length of a content
/// part in bytes. The status is 0 if all messages were passed on, and 1 after a fault, whose text goes to `errors`. For
/// other arguments, and for none, the usage goes to `errors`, and the status is 1. A fault of `errors` is ignored.
/// `main` calls this with all arguments that do not ask for the server.
///
/// `told` holds for every reader and writer, including standard input and output: the bytes that were given are the
/// frames of the messages at the front of the bytes that were taken, as far as the status says, whatever follows them.
pub fn pump_words<T, R, W, E>(
    rt: &T,
    alloc: Global,
    words: &[String],
    reader: R,
    writer: &mut W,
    errors: &mut E,
) -> PumpStatus
where
    T: Threads + Wait + Copy + Drop + Send + 'static,
    R: BufRead + Drop + Send + 'static,
    W: Write,
    E: Write,
    ensures told { (limit : most) → asked_limit words.now ≡ Some limit → OfTaken result.taken.parts (λ text.
        PumpsTo limit text (Some []) (noted result.given) result.status) }
    ensures pumped { (limit : most) → asked_limit words.now ≡ Some limit → IfSome (R.remaining reader)
        (λ text. PumpsTo limit text (W.contents writer.old) (W.contents writer.new) result.status) }
    ensures status { result.status ≤ 1 }
    ensures refused { asked_limit words.now ≡ None → result.status ≡ 1 }
    ensures untouched { asked_limit words.now ≡ None → writer.new ≡ writer.old }
{
    let Some(limit) = pump_limits(words) else {
        return PumpStatus {
            status: report_usage(errors),
            taken: ByteTrace::new(),
            given: ByteTrace::new(),
        };
    };
    let pumped = pump_traced(rt, Builder::new(), alloc, reader, writer, limit);
    PumpStatus {
        status: status_of(errors, pumped.answer),
        taken: pumped.taken,
        given: pumped.given,
    }
}

/// Returns the exit status for the result of passing messages on. A fault is printed.
fn status_of<E: Write>(errors: &mut E, answer: Result<(), PumpFault>) -> u8
    ensures { result ≡ status_of_spec answer }
{
    match answer {
        Ok(()) => 0,
        Err(fault) => report(errors, fault),
    }
}

/// Returns the limits on the parts of a frame, if the arguments ask for messages to be passed on.
fn pump_limits(words: &[String]) -> Option<Limits>
    ensures { result ≡ asked_limit words.now }
{
    match words {
        [word] if word.as_str() == "pump" => Some(Limits::none()),
        [word, limit] if word.as_str() == "pump" => {
            let most = limit_of(limit.as_str())?;
            Some(Limits::of_content(most))
        }
        _ => None,
    }
}

/// Returns the number in an argument: digits, with or without a `+` before them.
fn limit_of(word: &str) -> Option<u64>
    ensures { result ≡ number word.now }
{
    word.parse().ok()
}
