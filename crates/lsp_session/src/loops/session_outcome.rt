// How a session over an inbox and an outbox ended, and why.
ghost use Rattle.std.specs.Prelude.{◌≡◌, Ok, Err};
ghost use Rattle.lsp_session.specs.SessionOutcome.{reason_of_fault};
ghost use Rattle.lsp_session.specs.declared.loops.handler.SessionEnd.TheVariants.{ShutDown, Closed};
ghost use Rattle.lsp_session.specs.declared.loops.session_outcome.StopReason.TheVariants.{Decided};

use crate::error::ProtocolError;
use crate::loops::handler::SessionEnd;

/// Why a session took no further message.
#[derive(Clone, Copy, Debug, PartialEq, Eq)]
pub enum StopReason {
    /// The last message decided: `exit`, or one that the lifecycle does not allow.
    Decided,
    /// The messages ended, or there were 2^64 - 1 events.
    NoMore,
    /// After `shutdown` no message arrived in time.
    TimedOut,
    /// The outbox refused a message.
    Refused,
    /// An allocation failed, in the session or in its service.
    Exhausted,
}

/// How a session ended, and why.
#[derive(Debug, Drop)]
pub struct SessionOutcome {
    /// How it ended, as `serve` returns it.
    pub answer: Result<SessionEnd, ProtocolError>,
    /// Why it took no further message.
    pub stop: StopReason,
}

impl SessionOutcome {
    /// The session was shut down.
    pub(crate) fn shut_down() -> SessionOutcome
        ensures { result ≡ record { answer = Ok ShutDown; stop = Decided } }
    {
        SessionOutcome {
            answer: Ok(SessionEnd::ShutDown),
            stop: StopReason::Decided,
        }
    }

    /// The session was closed, for this reason.
    pub(crate) fn closed(stop: StopReason) -> SessionOutcome
        ensures { result ≡ record { answer = Ok Closed; stop = stop } }
    {
        SessionOutcome {
            answer: Ok(SessionEnd::Closed),
            stop,
        }
    }

    /// The session ended with this error, which says why.
    pub(crate) fn failed(error: ProtocolError) -> SessionOutcome
        ensures { result ≡ record { answer = Err error; stop = reason_of_fault error } }
    {
        let stop = error.stop_reason();
        SessionOutcome {
            answer: Err(error),
            stop,
        }
    }
}
