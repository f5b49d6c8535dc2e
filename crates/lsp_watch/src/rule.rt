// The rules of the protocol, and their data.
ghost use Rattle.std.specs.Prelude.{◌≡◌, IfOk};
ghost use Rattle.lsp_watch.specs.RuleData.{level_of, side_of, group_of, all_rules};

use std::alloc::{AllocError, Global};
use std::fmt;

/// A rule of the protocol. It prints as a sentence with its section.
///
/// These are no rules, since neither standard demands them:
///
/// - `didSave` of a document that is not open: nothing is said of it.
/// - `willSave` of one: "clients *should* ensure that the document is open", and only if the server asked to hear of that.
/// - A request or diagnostics for one: "a server's ability to fulfill requests is independent of whether a text document is open
///   or closed".
/// - `$/cancelRequest` or `window/workDoneProgress/cancel` of what there is not.
/// - Progress under a token of `window/workDoneProgress/create` before the client has answered that.
/// - Progress under one token for two things, or in another order than begin, reports, end.
/// - Progress after the `end` under a token of a request's params: such a token is valid as long as the request has no reply.
/// - `exit` between the result of `initialize` and `initialized`.
#[derive(Clone, Copy)]
pub enum Rule {
    /// The content of a message is UTF-8.
    NotUtf8,
    /// The content of a message is JSON.
    NotJson,
    /// The content was not read: it nests too deeply, or has a text or a number that this reader does not take. Whether it breaks a
    /// rule is not known.
    Unreadable,
    /// LSP has no batches.
    Batch,
    /// A message is an object.
    NoObject,
    /// `jsonrpc` is "2.0".
    BadVersion,
    /// A message has a method, or the id of the request that it replies to.
    NoMessage,
    /// `method` is a text.
    BadMethod,
    /// `id` is an integer or a text; in an error it may be null.
    BadId,
    /// An id that is a number is an integer of 32 bits.
    WideId,
    /// `params` are an object or a list.
    BadParams,
    /// A reply has a result or an error, and not both.
    BothOutcomes,
    /// A reply has a result or an error.
    NoOutcome,
    /// An error is an object with an integer `code` and a text `message`.
    BadError,
    /// A request of LSP has an id.
    NeedsId,
    /// A notification of LSP has no id.
    TakesNoId,
    /// A reply answers a request that has no reply yet.
    NobodyAsked,
    /// An id is not used again before its request has its reply.
    IdStillOpen,
    /// A request gets its reply.
    NoReply,
    /// Before the result of `initialize` a client sends `initialize` alone, and a server only what may go with it.
    BeforeResult,
    /// `initialized` is the first that a client sends after that result.
    BeforeInitialized,
    /// `initialize` is not sent again after its result, and `initialized` is sent once.
    SentAgain,
    /// After `shutdown` a client sends replies and `exit` alone.
    AfterShutdown,
    /// After `exit` a client sends replies alone.
    AfterExit,
    /// A document is not opened twice without a close between.
    AlreadyOpen,
    /// A document is open when it changes or closes.
    NotOpen,
    /// The version of a document increases with each change. A version that is missing or null is skipped.
    VersionNotHigher,
    /// Progress has a token that is open: of a request that has no reply yet, or of a `window/workDoneProgress/create` that was not
    /// refused.
    NoSuchToken,
    /// A token of `window/workDoneProgress/create` is used once.
    TokenEnded,
    /// A server gives a result for a method only if it announced or registered the method.
    NotAnnounced,
    /// A server that announced or registered a method knows it.
    AnnouncedUnknown,
    /// A server sends a request only if the client announced that it can answer.
    ClientCannot,
    /// A server publishes diagnostics for documents that the client opened.
    NeverOpened,
    /// Params and results have the types that LSP lists.
    WrongType,
    /// A member that may be missing is not null, and an enumeration has a listed value.
    LooseType,
    /// Edits of one text do not overlap.
    EditsOverlap,
    /// Semantic tokens have five numbers each.
    TokensNotInFives,
    /// The part of a symbol or a link that is selected is within the whole part.
    SelectionOutside,
    /// A range ends at its start or after it.
    RangeReversed,
    /// The lines of a folding range are lines of its document.
    LineOutside,
}

/// Which rules are judged together. It prints as one word.
#[derive(Clone, Copy, Debug, PartialEq, Eq)]
pub enum Group {
    /// The rules of messages, ids, the lifecycle, documents and progress.
    Session,
    /// The rules of what both sides announced.
    Capabilities,
    /// The rules of the types of params and results.
    Types,
    /// The rules of edits, tokens and parts of texts.
    Texts,
}

/// How strongly the standards demand what a rule says. It prints as one word.
#[derive(Clone, Copy, Debug, PartialEq, Eq)]
pub enum Level {
    /// A sentence demands it.
    Must,
    /// A sentence recommends it.
    Should,
    /// No sentence says it. It follows from what the standards describe.
    Implied,
}

/// Who breaks a rule: the sender of the message, or always the same side. It prints as one word.
#[derive(Clone, Copy, Debug, PartialEq, Eq)]
pub enum Side {
    /// Whoever sends the message.
    Sender,
    /// Whoever was asked, and sent no reply.
    Receiver,
    /// The client.
    Client,
}

impl Rule {
    /// How strongly the standards demand it.
    pub fn level(self) -> Level
        ensures { result ≡ level_of self }
    {
        match self {
            Rule::TokenEnded => Level::Should,
            Rule::Batch
            | Rule::IdStillOpen
            | Rule::AfterExit
            | Rule::NeedsId
            | Rule::TakesNoId
            | Rule::NotAnnounced
            | Rule::AnnouncedUnknown
            | Rule::ClientCannot
            | Rule::NeverOpened
            | Rule::LooseType
            | Rule::RangeReversed => Level::Implied,
            _ => Level::Must,
        }
    }

    /// The group that it belongs to.
    pub fn group(self) -> Group
        ensures { result ≡ group_of self }
    {
        match self {
            Rule::NotAnnounced | Rule::AnnouncedUnknown | Rule::ClientCannot | Rule::NeverOpened =>
                Group::Capabilities,
            Rule::WrongType | Rule::LooseType => Group::Types,
            Rule::EditsOverlap
            | Rule::TokensNotInFives
            | Rule::SelectionOutside
            | Rule::RangeReversed
            | Rule::LineOutside => Group::Texts,
            _ => Group::Session,
        }
    }

    /// Who breaks it.
    pub fn side(self) -> Side
        ensures { result ≡ side_of self }
    {
        match self {
            Rule::NoReply => Side::Receiver,
            Rule::BeforeInitialized
            | Rule::SentAgain
            | Rule::AfterShutdown
            | Rule::AfterExit
            | Rule::AlreadyOpen
            | Rule::NotOpen
            | Rule::VersionNotHigher => Side::Client,
            _ => Side::Sender,
        }
    }

    /// Its name, as `{:?}` prints it.
    pub fn name(self) -> &'static str {
        match self {
            Rule::NotUtf8 => "NotUtf8",
            Rule::NotJson => "NotJson",
            Rule::Unreadable => "Unreadable",
            Rule::Batch => "Batch",
            Rule::NoObject => "NoObject",
            Rule::BadVersion => "BadVersion",
            Rule::NoMessage => "NoMessage",
            Rule::BadMethod => "BadMethod",
            Rule::BadId => "BadId",
            Rule::WideId => "WideId",
            Rule::BadParams => "BadParams",
            Rule::BothOutcomes => "BothOutcomes",
            Rule::NoOutcome => "NoOutcome",
            Rule::BadError => "BadError",
            Rule::NeedsId => "NeedsId",
            Rule::TakesNoId => "TakesNoId",
            _ => self.name_in_session(),
        }
    }

    fn name_in_session(self) -> &'static str {
        match self {
            Rule::NobodyAsked => "NobodyAsked",
            Rule::IdStillOpen => "IdStillOpen",
            Rule::NoReply => "NoReply",
            Rule::BeforeResult => "BeforeResult",
            Rule::BeforeInitialized => "BeforeInitialized",
            Rule::SentAgain => "SentAgain",
            Rule::AfterShutdown => "AfterShutdown",
            Rule::AfterExit => "AfterExit",
            Rule::AlreadyOpen => "AlreadyOpen",
            Rule::NotOpen => "NotOpen",
            Rule::VersionNotHigher => "VersionNotHigher",
            Rule::NoSuchToken => "NoSuchToken",
            Rule::NotAnnounced => "NotAnnounced",
            Rule::AnnouncedUnknown => "AnnouncedUnknown",
            Rule::ClientCannot => "ClientCannot",
            Rule::NeverOpened => "NeverOpened",
            Rule::WrongType => "WrongType",
            Rule::LooseType => "LooseType",
            Rule::EditsOverlap => "EditsOverlap",
            Rule::TokensNotInFives => "TokensNotInFives",
            Rule::SelectionOutside => "SelectionOutside",
            Rule::RangeReversed => "RangeReversed",
            Rule::LineOutside => "LineOutside",
            _ => "TokenEnded",
        }
    }

    /// What a message that breaks it does wrong.
    pub fn sentence(self) -> &'static str {
        match self {
            Rule::NotUtf8 => "the content is not UTF-8",
            Rule::NotJson => "the content is no JSON",
            Rule::Unreadable =>
                "the content was not read: it nests too deeply, or has a text or a number that cannot be kept",
            Rule::Batch => "the content is a batch, which LSP does not have",
            Rule::NoObject => "the content is no object",
            Rule::BadVersion => "`jsonrpc` is not \"2.0\"",
            Rule::NoMessage => "there is neither a method nor an id",
            Rule::BadMethod => "`method` is no text",
            Rule::BadId => "`id` is neither an integer nor a text",
            Rule::WideId => "`id` is no integer of 32 bits",
            Rule::BadParams => "`params` is neither an object nor a list",
            Rule::BothOutcomes => "there is a `result` and an `error`",
            Rule::NoOutcome => "there is neither a `result` nor an `error`",
            Rule::BadError => "`error` is no object with an integer `code` and a text `message`",
            Rule::NeedsId => "a request of this method has an id",
            Rule::TakesNoId => "a notification of this method has no id",
            _ => self.sentence_in_session(),
        }
    }

    fn sentence_in_session(self) -> &'static str {
        match self {
            Rule::NobodyAsked =>
                "no request waits for this reply: none had its id, or it has its reply",
            Rule::IdStillOpen => "the id is in use: a request with it has no reply yet",
            Rule::NoReply => "the session is over, and the request has no reply",
            Rule::BeforeResult => "`initialize` has no result yet",
            Rule::BeforeInitialized => "`initialized` has to come first",
            Rule::SentAgain => "it may be sent only once",
            Rule::AfterShutdown => "after `shutdown` only `exit` may be sent",
            Rule::AfterExit => "nothing may be sent after `exit`",
            Rule::AlreadyOpen => "the document is open",
            Rule::NotOpen => "the document is not open",
            Rule::VersionNotHigher => "the version of the document is not higher",
            Rule::NoSuchToken => "no request has this token, or it is over",
            Rule::NotAnnounced =>
                "the server gives a result for a method that it did not announce or register",
            Rule::AnnouncedUnknown =>
                "the server announced or registered this method, and answers that it does not know it",
            Rule::ClientCannot => "the client did not announce that it answers this request",
            Rule::NeverOpened => "the client never opened the document of these diagnostics",
            Rule::WrongType => "a member is missing or has another type",
            Rule::LooseType =>
                "a member is null that may only be missing, or its value is not listed",
            Rule::EditsOverlap => "two edits of one text overlap",
            Rule::TokensNotInFives => "semantic tokens have five numbers each",
            Rule::SelectionOutside => "the part that is selected is not within the whole part",
            Rule::RangeReversed => "the end of a range is before its start",
            Rule::LineOutside => "a line of a folding range is no line of the document",
            _ => "the progress of this token has ended",
        }
    }

    /// The standard that says it, and the section.
    pub fn section(self) -> &'static str {
        match self {
            Rule::NotUtf8 | Rule::Batch => "LSP 3.17, \"Base Protocol\"",
            Rule::NotJson | Rule::Unreadable | Rule::NoObject | Rule::BadVersion => {
                "JSON-RPC 2.0, sections 4 and 5"
            }
            Rule::NoMessage | Rule::BadMethod | Rule::IdStillOpen => "JSON-RPC 2.0, section 4",
            Rule::BadId | Rule::WideId => "LSP 3.17, \"Request Message\"",
            Rule::BadParams => "JSON-RPC 2.0, section 4.2",
            Rule::BothOutcomes | Rule::NoOutcome | Rule::NobodyAsked | Rule::NoReply => {
                "JSON-RPC 2.0, section 5"
            }
            Rule::BadError => "JSON-RPC 2.0, section 5.1",
            Rule::NeedsId | Rule::TakesNoId => {
                "JSON-RPC 2.0, section 4.1, and the method's section of LSP 3.17"
            }
            Rule::BeforeResult => "LSP 3.17, \"Initialize Request\"",
            Rule::BeforeInitialized => "LSP 3.17, \"Initialized Notification\"",
            Rule::SentAgain => {
                "LSP 3.17, \"Initialize Request\" and \"Initialized Notification\""
            }
            Rule::AfterShutdown => "LSP 3.17, \"Shutdown Request\"",
            Rule::AfterExit => "LSP 3.17, \"Exit Notification\"",
            Rule::AlreadyOpen | Rule::NotOpen => "LSP 3.17, \"DidOpenTextDocument Notification\"",
            Rule::VersionNotHigher => "LSP 3.17, \"VersionedTextDocumentIdentifier\"",
            Rule::NoSuchToken => {
                "LSP 3.17, \"Work Done Progress\" and \"Partial Result Progress\""
            }
            Rule::TokenEnded => "LSP 3.17, \"Creating Work Done Progress\"",
            Rule::NotAnnounced | Rule::AnnouncedUnknown | Rule::ClientCannot => {
                "LSP 3.17, \"Capabilities\""
            }
            Rule::NeverOpened => "LSP 3.17, \"PublishDiagnostics Notification\"",
            Rule::WrongType | Rule::LooseType => "the method's section of LSP 3.17",
            Rule::EditsOverlap => "LSP 3.17, \"TextEdit[]\"",
            Rule::TokensNotInFives => "LSP 3.17, \"Semantic Tokens\"",
            Rule::SelectionOutside => "LSP 3.17, \"DocumentSymbol\" and \"LocationLink\"",
            Rule::RangeReversed => "LSP 3.17, \"Range\" and \"FoldingRange\"",
            Rule::LineOutside => "LSP 3.17, \"FoldingRange\"",
        }
    }
}

/// All rules, in the order of the type. The error means that an allocation failed.
pub fn rules(alloc: Global) -> Result<Vec<Rule>, AllocError>
    ensures { IfOk result (λ rules. rules.items ≡ all_rules) }
{
    let rules = [
        Rule::NotUtf8,
        Rule::NotJson,
        Rule::Unreadable,
        Rule::Batch,
        Rule::NoObject,
        Rule::BadVersion,
        Rule::NoMessage,
        Rule::BadMethod,
        Rule::BadId,
        Rule::WideId,
        Rule::BadParams,
        Rule::BothOutcomes,
        Rule::NoOutcome,
        Rule::BadError,
        Rule::NeedsId,
        Rule::TakesNoId,
        Rule::NobodyAsked,
        Rule::IdStillOpen,
        Rule::NoReply,
        Rule::BeforeResult,
        Rule::BeforeInitialized,
        Rule::SentAgain,
        Rule::AfterShutdown,
        Rule::AfterExit,
        Rule::AlreadyOpen,
        Rule::NotOpen,
        Rule::VersionNotHigher,
        Rule::NoSuchToken,
        Rule::TokenEnded,
        Rule::NotAnnounced,
        Rule::AnnouncedUnknown,
        Rule::ClientCannot,
        Rule::NeverOpened,
        Rule::WrongType,
        Rule::LooseType,
        Rule::EditsOverlap,
        Rule::TokensNotInFives,
        Rule::SelectionOutside,
        Rule::RangeReversed,
        Rule::LineOutside,
    ];
    match Vec::from_array(alloc, rules) {
        Ok(rules) => Ok(rules),
        Err(_) => Err(AllocError),
    }
}

impl fmt::Debug for Rule {
    fn fmt<W: fmt::Write>(&self, f: &mut fmt::Formatter<W>) -> fmt::Result {
        f.write_str(self.name())
    }
}

impl fmt::Display for Rule {
    fn fmt<W: fmt::Write>(&self, f: &mut fmt::Formatter<W>) -> fmt::Result {
        let (sentence, section) = (self.sentence(), self.section());
        write!(f, "{sentence} ({section})")
    }
}

impl fmt::Display for Level {
    fn fmt<W: fmt::Write>(&self, f: &mut fmt::Formatter<W>) -> fmt::Result {
        f.write_str(match self {
            Level::Must => "must",
            Level::Should => "should",
            Level::Implied => "implied",
        })
    }
}

impl fmt::Display for Group {
    fn fmt<W: fmt::Write>(&self, f: &mut fmt::Formatter<W>) -> fmt::Result {
        f.write_str(match self {
            Group::Session => "session",
            Group::Capabilities => "capabilities",
            Group::Types => "types",
            Group::Texts => "texts",
        })
    }
}

impl fmt::Display for Side {
    fn fmt<W: fmt::Write>(&self, f: &mut fmt::Formatter<W>) -> fmt::Result {
        f.write_str(match self {
            Side::Sender => "sender",
            Side::Receiver => "receiver",
            Side::Client => "client",
        })
    }
}
