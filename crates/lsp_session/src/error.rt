//! Why a handshake, or the end of a session, failed.
ghost use Rattle.std.specs.Prelude.{◌≡◌, ◌⊎◌, IfOk};
ghost use Rattle.lsp_session.specs.ProtocolError.{disconnected, expected_initialize, aborted, expected_initialized, unexpected_in_shutdown, shutdown_timeout, shutdown_disconnected, out_of_memory, Shows};
ghost use Rattle.lsp_session.specs.SessionOutcome.{reason_of_fault};

use crate::beginning::beginning_of;
use crate::lifecycle::SendFault;
use crate::loops::StopReason;
use lsp_message::Message;
use std::alloc::{AllocError, Global};
use std::error::Error;
use std::fmt;
use std::marker::Model;

// The cause. A text shows the message that should have been another.
#[derive(Debug, Drop)]
enum ProtocolRepr {
    Disconnected,
    ExpectedInitialize(String),
    Aborted,
    ExpectedInitialized(String),
    UnexpectedInShutdown(String),
    ShutdownTimeout,
    ShutdownDisconnected,
    OutOfMemory,
    /// The outbox was closed to a message.
    RefusedClosed,
    /// An allocation of the outbox failed.
    RefusedMemory,
}

/// Why a handshake, or the end of a session, failed (LSP 3.17, "Server lifecycle").
///
/// It prints one of these texts. In place of `..` it prints the message that arrived, as `{:?}` does, at most 400 bytes
/// of it. That part may change between versions.
///
/// | Text | `channel_is_disconnected` |
/// |---|---|
/// | `disconnected channel` | true |
/// | `expected initialize request, got ..` | false |
/// | `Initialization has been aborted during initialization` | false |
/// | `expected initialized notification, got: ..` | false |
/// | `unexpected message during shutdown: ..` | false |
/// | `timed out waiting for exit notification` | false |
/// | `channel disconnected waiting for exit notification` | true |
/// | `out of memory` | false |
///
/// To find out which error it is, call `channel_is_disconnected` and `is_out_of_memory`, or compare the text. Two
/// errors are equal if they print the same text and return the same from `channel_is_disconnected`.
#[derive(Debug, Drop)]
pub struct ProtocolError(ProtocolRepr);

impl Model for ProtocolError {
    ghost use Rattle.lsp_session.specs.ProtocolError.{ProtocolFault, fault_kept};

    ghost Value = { ProtocolFault };

    ghost view = { λ e. fault_kept e.0 };
}

impl From<SendFault> for ProtocolError {
    ghost use Rattle.lsp_session.specs.Start.{fault_of_refusal};

    ghost from_gives = { λ fault error. error ≡ fault_of_refusal fault };

    /// Makes the error of a session whose outbox refuses a message: `disconnected channel`, or `out of memory`.
    fn from(fault: SendFault) -> ProtocolError {
        match fault {
            SendFault::Closed(message) => {
                drop(message);
                ProtocolError(ProtocolRepr::RefusedClosed)
            }
            SendFault::Memory(message) => {
                drop(message);
                ProtocolError(ProtocolRepr::RefusedMemory)
            }
        }
    }
}

impl From<AllocError> for ProtocolError {
    ghost from_gives = { λ _ error. error ≡ out_of_memory };

    /// Makes the error `out of memory`.
    fn from(_failed: AllocError) -> ProtocolError {
        ProtocolError::out_of_memory()
    }
}

impl ProtocolError {
    ghost use Rattle.lsp_session.specs.ProtocolError.{is_disconnected, is_memory};

    /// Returns whether the other side is gone: the texts `disconnected channel` and `channel disconnected waiting for
    /// exit notification`.
    pub fn channel_is_disconnected(&self) -> bool
        ensures { result ≡ is_disconnected self.now }
    {
        matches!(
            &self.0,
            ProtocolRepr::Disconnected
                | ProtocolRepr::ShutdownDisconnected
                | ProtocolRepr::RefusedClosed
        )
    }

    /// Returns whether an allocation failed: the text `out of memory`.
    pub fn is_out_of_memory(&self) -> bool
        ensures { result ≡ is_memory self.now }
    {
        matches!(
            &self.0,
            ProtocolRepr::OutOfMemory | ProtocolRepr::RefusedMemory
        )
    }
}

impl ProtocolError {
    /// Returns the error `disconnected channel` of a closed inbox or outbox.
    pub fn disconnected() -> ProtocolError
        ensures { result ≡ disconnected }
    {
        ProtocolError(ProtocolRepr::Disconnected)
    }

    /// Returns why a session stopped that ends with this error.
    pub(crate) fn stop_reason(&self) -> StopReason
        ensures { result ≡ reason_of_fault self.now }
    {
        match &self.0 {
            ProtocolRepr::Disconnected | ProtocolRepr::ShutdownDisconnected => StopReason::NoMore,
            ProtocolRepr::ShutdownTimeout => StopReason::TimedOut,
            ProtocolRepr::RefusedClosed | ProtocolRepr::RefusedMemory => StopReason::Refused,
            ProtocolRepr::OutOfMemory => StopReason::Exhausted,
            ProtocolRepr::ExpectedInitialize(_)
            | ProtocolRepr::Aborted
            | ProtocolRepr::ExpectedInitialized(_)
            | ProtocolRepr::UnexpectedInShutdown(_) => StopReason::Decided,
        }
    }

    // The gate said no.
    pub(crate) fn aborted() -> ProtocolError
        ensures { result ≡ aborted }
    {
        ProtocolError(ProtocolRepr::Aborted)
    }

    // Nothing came after `shutdown`.
    pub(crate) fn shutdown_timeout() -> ProtocolError
        ensures { result ≡ shutdown_timeout }
    {
        ProtocolError(ProtocolRepr::ShutdownTimeout)
    }

    // The inbox was closed after `shutdown`.
    pub(crate) fn shutdown_disconnected() -> ProtocolError
        ensures { result ≡ shutdown_disconnected }
    {
        ProtocolError(ProtocolRepr::ShutdownDisconnected)
    }

    /// Returns the error `out of memory` of a failed allocation.
    pub fn out_of_memory() -> ProtocolError
        ensures { result ≡ out_of_memory }
    {
        ProtocolError(ProtocolRepr::OutOfMemory)
    }

    // Another message came in the place of the request `initialize`.
    pub(crate) fn expected_initialize(alloc: Global, message: &Message) -> ProtocolError
        ensures { Shows expected_initialize result ⊎ (result ≡ out_of_memory) }
    {
        match beginning_of(alloc, message) {
            Ok(shown) => ProtocolError(ProtocolRepr::ExpectedInitialize(shown)),
            Err(_) => ProtocolError::out_of_memory(),
        }
    }

    // Another message came in the place of the notification `initialized`.
    pub(crate) fn expected_initialized(alloc: Global, message: &Message) -> ProtocolError
        ensures { Shows expected_initialized result ⊎ (result ≡ out_of_memory) }
    {
        match beginning_of(alloc, message) {
            Ok(shown) => ProtocolError(ProtocolRepr::ExpectedInitialized(shown)),
            Err(_) => ProtocolError::out_of_memory(),
        }
    }

    // Another message came in the place of the notification `exit`.
    pub(crate) fn unexpected_in_shutdown(alloc: Global, message: &Message) -> ProtocolError
        ensures { Shows unexpected_in_shutdown result ⊎ (result ≡ out_of_memory) }
    {
        match beginning_of(alloc, message) {
            Ok(shown) => ProtocolError(ProtocolRepr::UnexpectedInShutdown(shown)),
            Err(_) => ProtocolError::out_of_memory(),
        }
    }
}

impl ProtocolError {
    ghost use Rattle.lsp_session.specs.ProtocolError.{fixed_text, open_text};

    // How the text begins.
    fn fixed_text(&self) -> &'static str
        ensures { result.now ≡ fixed_text self.now }
    {
        match &self.0 {
            ProtocolRepr::Disconnected | ProtocolRepr::RefusedClosed => "disconnected channel",
            ProtocolRepr::ExpectedInitialize(_) => "expected initialize request, got ",
            ProtocolRepr::Aborted => "Initialization has been aborted during initialization",
            ProtocolRepr::ExpectedInitialized(_) => "expected initialized notification, got: ",
            ProtocolRepr::UnexpectedInShutdown(_) => "unexpected message during shutdown: ",
            ProtocolRepr::ShutdownTimeout => "timed out waiting for exit notification",
            ProtocolRepr::ShutdownDisconnected =>
                "channel disconnected waiting for exit notification",
            ProtocolRepr::OutOfMemory | ProtocolRepr::RefusedMemory => "out of memory",
        }
    }

    // How it ends: the message that came.
    fn open_text(&self) -> &str
        ensures { result.now ≡ open_text self.now }
    {
        match &self.0 {
            ProtocolRepr::ExpectedInitialize(shown)
            | ProtocolRepr::ExpectedInitialized(shown)
            | ProtocolRepr::UnexpectedInShutdown(shown) => shown.as_str(),
            ProtocolRepr::Disconnected
            | ProtocolRepr::Aborted
            | ProtocolRepr::ShutdownTimeout
            | ProtocolRepr::ShutdownDisconnected
            | ProtocolRepr::OutOfMemory
            | ProtocolRepr::RefusedClosed
            | ProtocolRepr::RefusedMemory => "",
        }
    }
}

impl fmt::Display for ProtocolError {
    ghost use Rattle.std.specs.Prelude.{Some};
    ghost use Rattle.lsp_session.specs.ProtocolError.{fault_text};

    ghost output = { λ e. Some (fault_text e) };

    fn fmt<W: fmt::Write>(&self, f: &mut fmt::Formatter<W>) -> fmt::Result {
        let fixed = self.fixed_text();
        let open = self.open_text();
        write!(f, "{fixed}{open}")
    }
}

impl Error for ProtocolError {}

impl PartialEq for ProtocolError {
    ghost use Rattle.std.specs.Cmp.{partial_equiv_from_equiv};
    ghost use Rattle.lsp_session.specs.ProtocolError.{fault_eq};
    ghost use Rattle.lsp_session.specs.ProtocolErrorLaws.{fault_equiv};

    ghost eq = { fault_eq };

    ghost laws = { partial_equiv_from_equiv fault_equiv };

    #[tactic(auto, using(crate::proofs::SameTexts::same_text))]
    fn eq(&self, other: &ProtocolError) -> bool {
        self.fixed_text() == other.fixed_text() && self.open_text() == other.open_text()
    }
}

impl Eq for ProtocolError {
    ghost use Rattle.lsp_session.specs.ProtocolErrorLaws.{fault_equiv};

    ghost laws = { fault_equiv };
}

impl Clone for ProtocolError {
    ghost is_clone = { λ a b. b ≡ a };

    fn clone(&self) -> Result<ProtocolError, AllocError> {
        Ok(ProtocolError(match &self.0 {
            ProtocolRepr::Disconnected => ProtocolRepr::Disconnected,
            ProtocolRepr::ExpectedInitialize(shown) => ProtocolRepr::ExpectedInitialize(
                shown.clone()?,
            ),
            ProtocolRepr::Aborted => ProtocolRepr::Aborted,
            ProtocolRepr::ExpectedInitialized(shown) => ProtocolRepr::ExpectedInitialized(
                shown.clone()?,
            ),
            ProtocolRepr::UnexpectedInShutdown(shown) => ProtocolRepr::UnexpectedInShutdown(
                shown.clone()?,
            ),
            ProtocolRepr::ShutdownTimeout => ProtocolRepr::ShutdownTimeout,
            ProtocolRepr::ShutdownDisconnected => ProtocolRepr::ShutdownDisconnected,
            ProtocolRepr::OutOfMemory => ProtocolRepr::OutOfMemory,
            ProtocolRepr::RefusedClosed => ProtocolRepr::RefusedClosed,
            ProtocolRepr::RefusedMemory => ProtocolRepr::RefusedMemory,
        }))
    }
}
