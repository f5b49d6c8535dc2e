//! The steps of two sides, and the outcome of each.
use lsp_message::RequestId;
use serde_json::Value;

/// One of the two peers.
#[derive(Clone, Copy, Debug, PartialEq, Eq)]
pub enum Side {
    /// The one peer.
    A,
    /// The other peer.
    B,
}

/// One step of a side.
#[derive(Debug, Drop)]
pub enum Step {
    /// The side registers a request with a payload under its next id, and writes the request to the other side
    /// (JSON-RPC 2.0, section 4).
    Register {
        /// The side that registers it.
        side: Side,
        /// The method of the request.
        method: String,
        /// Its params. Null is not written.
        params: Value,
        /// What the side keeps under the id until it takes the reply.
        payload: u64,
    },
    /// The side sends a notification: it writes it to the other side (JSON-RPC 2.0, section 4.1).
    Tell {
        /// The side that sends it.
        side: Side,
        /// The method of the notification.
        method: String,
        /// Its params. Null is not written.
        params: Value,
    },
    /// This many bytes arrive at a side, or all that are on the way to it if these are fewer.
    Pass {
        /// The side where they arrive.
        to: Side,
        /// How many arrive at most.
        bytes: usize,
    },
    /// The side takes its first message, if the whole frame has arrived. If it is a request, the side holds it then. A
    /// reply returns the payload of its request. A notification changes no queue.
    Take {
        /// The side that takes it.
        side: Side,
        /// What the side keeps with a request until it answers it, refuses it, cancels it or gives it up.
        label: u64,
    },
    /// The side answers a request that it holds (JSON-RPC 2.0, section 5).
    Answer {
        /// The side that answers.
        side: Side,
        /// The id of the request.
        id: RequestId,
        /// The result.
        result: Value,
    },
    /// The side replies to a request that it holds, with an error that has no data (JSON-RPC 2.0, section 5.1).
    Refuse {
        /// The side that replies.
        side: Side,
        /// The id of the request.
        id: RequestId,
        /// The error's code. Take the `number` of an `ErrorCode`.
        code: i32,
        /// Its text.
        message: String,
    },
    /// The side replies to a request that it holds, with the error that it was cancelled (LSP 3.17, "Cancellation
    /// Support").
    Cancel {
        /// The side that replies.
        side: Side,
        /// The id of the request.
        id: RequestId,
    },
    /// The side forgets a request that it holds, and writes no reply.
    GiveUp {
        /// The side that forgets it.
        side: Side,
        /// The id of the request.
        id: RequestId,
    },
}

impl Step {
    ghost use Rattle.std.specs.Prelude.{◌≡◌};
    ghost use Rattle.lsp_peers.specs.Sides.{side_of};

    /// Returns the side that takes the step, or at which the bytes arrive.
    pub fn side(&self) -> Side
        ensures { result ≡ side_of self.now }
    {
        match self {
            Step::Register { side, .. } => *side,
            Step::Tell { side, .. } => *side,
            Step::Pass { to, .. } => *to,
            Step::Take { side, .. } => *side,
            Step::Answer { side, .. } => *side,
            Step::Refuse { side, .. } => *side,
            Step::Cancel { side, .. } => *side,
            Step::GiveUp { side, .. } => *side,
        }
    }
}

/// The outcome of a step.
#[derive(Debug, Drop, PartialEq, Eq)]
pub enum Outcome {
    /// The request was written, with this id. The requests of a side have the ids 0, 1, 2, ..
    Registered(RequestId),
    /// All of the side's 2147483648 ids were used, and nothing happened.
    Spent,
    /// The notification was written.
    Told,
    /// This many bytes arrived.
    Passed(usize),
    /// The request with this id was taken.
    Arrived(RequestId),
    /// The reply with this id was taken. It returns this payload, or `None` if the id was not pending.
    Returned(RequestId, Option<u64>),
    /// A notification was taken.
    Notified,
    /// No frame has arrived whole, and nothing was taken.
    Waiting,
    /// The request was answered, by a result or by an error. It was held under this label.
    Answered(u64),
    /// The reply was written, which says that the request was cancelled.
    Cancelled,
    /// The request is forgotten. It was held under this label.
    GaveUp(u64),
    /// The side holds no request with this id, and nothing happened.
    Absent,
}
