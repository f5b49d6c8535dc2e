// A message that passed.
ghost use Rattle.std.specs.Prelude.{◌≡◌, Some};
ghost use Rattle.lsp_judge.specs.Choice.{decides as decides_for, is_known as is_all_known, narrowed as narrowed_by};

use lsp_watch::{Direction, LoggedMessage, Rule, Verdict};

/// What is known of the order in which two directions passed.
#[derive(Clone, Copy, Debug, PartialEq, Eq)]
pub enum Order {
    /// All of it.
    Known,
    /// Nothing, but all of the other direction has passed.
    BehindAll,
    /// Nothing.
    Unknown,
}

impl Order {
    /// Whether a breach of this rule is one in each order that there may have been.
    ///
    /// It is so if the rule looks at what one side sends alone. A reply that nobody asked for, an id in use and what needs the result of
    /// `initialize` are decided once all of the other direction has passed: there is no more request, reply or result that could have come
    /// before. The rules of tokens look at both directions, and so do those of what both sides announce.
    pub fn decides(self, rule: Rule) -> bool
        ensures { result ≡ decides_for self rule }
    {
        match (self, rule) {
            (Order::Known, _) => true,
            (_, Rule::NoSuchToken | Rule::TokenEnded) => false,
            (
                _,
                Rule::NoReply
                | Rule::NotAnnounced
                | Rule::AnnouncedUnknown
                | Rule::ClientCannot
                | Rule::NeverOpened
                | Rule::WrongType
                | Rule::LooseType
                | Rule::EditsOverlap
                | Rule::TokensNotInFives
                | Rule::SelectionOutside
                | Rule::RangeReversed
                | Rule::LineOutside,
            ) => false,
            (
                Order::Unknown,
                Rule::NobodyAsked | Rule::IdStillOpen | Rule::BeforeResult | Rule::SentAgain,
            ) => false,
            _ => true,
        }
    }

    /// Whether all of it is known.
    pub fn is_known(self) -> bool
        ensures { result ≡ is_all_known self }
    {
        match self {
            Order::Known => true,
            Order::BehindAll | Order::Unknown => false,
        }
    }

    /// What is known of it, by whether each reply before had its request. If one had none, it is not known which request another reply
    /// answers: in another order the first reply may have had one.
    pub fn narrowed(self, is_matched: bool) -> Order
        ensures { result ≡ narrowed_by self is_matched }
    {
        match self {
            Order::BehindAll if !is_matched => Order::Unknown,
            order => order,
        }
    }
}

/// A message with its direction, and when it passed, in milliseconds from some time on.
#[derive(Debug, Drop)]
pub struct Passing {
    pub direction: Direction,
    pub message: LoggedMessage,
    pub time: Option<u64>,
    /// How many milliseconds a reply took, if that is known.
    pub took: Option<u64>,
    pub order: Order,
    /// How sure a breach of a rule of types is. These rules are not judged if the log does not show members as they were sent.
    pub types: Option<Verdict>,
}

impl Passing {
    /// A message of which no time is known, in its place.
    pub fn new(direction: Direction, message: LoggedMessage) -> Passing
        ensures direction { result.direction ≡ direction }
        ensures message { result.message ≡ message }
        ensures order { result.order ≡ Order.Known }
        ensures types { result.types ≡ Some Verdict.Breach }
    {
        Passing {
            direction,
            message,
            time: None,
            took: None,
            order: Order::Known,
            types: Some(Verdict::Breach),
        }
    }

    /// The method; of a reply, that it is one.
    pub fn method(&self) -> &str {
        match &self.message.entry {
            Some(entry) => match entry.method() {
                "" => "reply",
                method => method,
            },
            None => "message",
        }
    }
}
