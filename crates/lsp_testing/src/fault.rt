// Why a step of a test failed.
use lsp_message::{ReadFault, ResponseError};
use std::alloc::AllocError;
use std::error::Error;
use std::fmt;

/// Why a step of a test failed. It prints a sentence for the person who reads the test's output.
#[derive(Debug, Drop)]
pub enum TestFault {
    /// The server has not answered a request of this method. If it answers later, for example after a reply of the
    /// client, use `TestClient::ask` and `TestClient::take_reply`.
    NoReply(String),
    /// The server answered a request of this method with this error.
    Refused(String, ResponseError),
    /// The session has ended. The text says how.
    Ended(String),
    /// The server wrote a message that a client can't read: it nests more than 127 levels.
    UnreadableOutput(ReadFault),
    /// All ids of requests are used: the client has sent 2^31 - 1 requests.
    NoIds,
    /// An allocation of the client failed. The client may have lost messages.
    Memory,
}

impl fmt::Display for TestFault {
    fn fmt<W: fmt::Write>(&self, f: &mut fmt::Formatter<W>) -> fmt::Result {
        match self {
            TestFault::NoReply(method) => write!(f, "the server has not answered {method}"),
            TestFault::Refused(method, error) => write!(
                f,
                "the server answered {method} with the error {}: {}",
                error.code, error.message
            ),
            TestFault::Ended(why) => write!(f, "the session has ended: {why}"),
            TestFault::UnreadableOutput(fault) => {
                write!(f, "the output of the server is not readable: {fault}")
            }
            TestFault::NoIds => write!(f, "all ids of requests are used"),
            TestFault::Memory => write!(f, "out of memory"),
        }
    }
}

impl Error for TestFault {}

impl From<AllocError> for TestFault {
    fn from(_: AllocError) -> TestFault {
        TestFault::Memory
    }
}

impl From<ReadFault> for TestFault {
    fn from(fault: ReadFault) -> TestFault {
        match fault {
            ReadFault::Memory => TestFault::Memory,
            other => TestFault::UnreadableOutput(other),
        }
    }
}
