// How much a client wants to know of what the server does.
ghost use Rattle.std.specs.Prelude.{◌≡◌, IfOk, IfSome, is_some, string_bytes, option_and_then, option_map};
ghost use Rattle.lsp_methods.specs.Tracing.{or_off, trace_named, traces, wants_trace};
ghost use Rattle.lsp_acts.specs.View.{act_view};

use crate::sending::send_notification;
use lsp_acts::Act;
use lsp_types::methods::LogTraceNotification;
use lsp_types::{InitializeParams, LogTraceParams, SetTraceParams};
use std::alloc::{AllocError, Global};

/// How much trace a client wants (LSP 3.17, "TraceValue").
///
/// Keep one in your server. Read it from the params of `initialize` by `from_initialize`, and at `$/setTrace` by
/// `from_params`. Its `log` makes what the server sends.
#[derive(Clone, Copy, Debug, PartialEq, Eq, Drop)]
pub enum TraceValue {
    /// No `$/logTrace`.
    Off,
    /// Messages alone.
    Messages,
    /// Messages, and more about them.
    Verbose,
}

impl TraceValue {
    /// Returns the value of this name: `off`, `messages` or `verbose`. `None` means that it is another name.
    pub fn from_name(name: &str) -> Option<TraceValue>
        ensures { result ≡ trace_named name.now }
    {
        match name {
            "off" => Some(TraceValue::Off),
            "messages" => Some(TraceValue::Messages),
            "verbose" => Some(TraceValue::Verbose),
            _ => None,
        }
    }

    /// Returns the value that the client sets by `$/setTrace` (LSP 3.17, "SetTrace"). `None` means that the standard
    /// has no such value. Keep the value of before then.
    pub fn from_params(params: &SetTraceParams) -> Option<TraceValue>
        ensures { result ≡ trace_named (string_bytes params.now.value) }
    {
        TraceValue::from_name(params.value.as_str())
    }

    /// Returns the value that the client sets at the start (LSP 3.17, "Initialize Request"). If `trace` is missing, or if
    /// the standard has no such value, the trace is off.
    pub fn from_initialize(params: &InitializeParams) -> TraceValue
        ensures { result ≡ or_off (option_and_then (λ name. trace_named (string_bytes name)) params.now.trace) }
    {
        match &params.trace {
            Some(name) => match TraceValue::from_name(name.as_str()) {
                Some(value) => value,
                None => TraceValue::Off,
            },
            None => TraceValue::Off,
        }
    }

    /// Makes the notification that says what the server does: `$/logTrace` (LSP 3.17, "LogTrace"). `verbose` says more
    /// about it, and is sent only if the client wants `verbose` traces. The result is `None` if the trace is off.
    ///
    /// `Err` means that an allocation failed.
    pub fn log<P: Drop + PartialEq>(
        self,
        alloc: Global,
        message: &str,
        verbose: Option<&str>,
    ) -> Result<Option<Act<P>>, AllocError>
        ensures off { IfOk result (λ sent. is_some sent ≡ wants_trace self) }
        ensures act { IfOk result (λ sent. IfSome sent (λ act.
            act_view P.eq act ≡ traces self message.now (option_map (λ text. text.now) verbose.entry))) }
    {
        let verbose = match self {
            TraceValue::Off => return Ok(None),
            TraceValue::Messages => None,
            TraceValue::Verbose => verbose,
        };
        let params = trace_params(alloc, message, verbose)?;
        let sent = send_notification::<LogTraceNotification, P>(alloc, &params);
        drop(params);
        match sent {
            Ok(act) => Ok(Some(act)),
            Err(failed) => Err(failed),
        }
    }
}

/// Makes the params of `$/logTrace`.
fn trace_params(
    alloc: Global,
    message: &str,
    verbose: Option<&str>,
) -> Result<LogTraceParams, AllocError>
    ensures { IfOk result (λ params. (string_bytes params.message ≡ message.now)
        × (option_map string_bytes params.verbose ≡ option_map (λ text. text.now) verbose.entry)) }
{
    let verbose = match verbose {
        Some(text) => Some(String::from_str(alloc, text)?),
        None => None,
    };
    match String::from_str(alloc, message) {
        Ok(message) => Ok(LogTraceParams { message, verbose }),
        Err(failed) => {
            drop(verbose);
            Err(failed)
        }
    }
}
