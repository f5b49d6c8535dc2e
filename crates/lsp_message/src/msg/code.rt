/// The error codes that JSON-RPC 2.0 (section 5.1) and LSP 3.17 ("Response Message") define.
#[derive(Clone, Copy, Debug, PartialEq, Eq)]
pub enum ErrorCode {
    /// -32700: the text is not JSON (JSON-RPC 2.0, section 5.1).
    ParseError,
    /// -32600: the JSON is not a request (JSON-RPC 2.0, section 5.1).
    InvalidRequest,
    /// -32601: the server does not have this method (JSON-RPC 2.0, section 5.1).
    MethodNotFound,
    /// -32602: the params do not fit the method (JSON-RPC 2.0, section 5.1).
    InvalidParams,
    /// -32603: the server failed inside (JSON-RPC 2.0, section 5.1).
    InternalError,
    /// -32099: one end of the range that JSON-RPC 2.0 (section 5.1) leaves to servers. It is not an error itself.
    ServerErrorStart,
    /// -32000: the other end of that range (JSON-RPC 2.0, section 5.1). It is not an error itself.
    ServerErrorEnd,
    /// -32002: a request arrived before `initialize` (LSP 3.17, "Response Message").
    ServerNotInitialized,
    /// -32001: none of the other codes fits (LSP 3.17, "Response Message").
    UnknownErrorCode,
    /// -32800: the client cancelled the request, and the server noticed it (LSP 3.17, "Response Message").
    RequestCanceled,
    /// -32801: the content of a document changed unexpectedly, so the result would be wrong (LSP 3.17, "Response
    /// Message").
    ContentModified,
    /// -32802: the server cancelled the request. Only some kinds of requests allow it (LSP 3.17, "Response Message").
    ServerCancelled,
    /// -32803: the request was correct but failed. The message tells a person why (LSP 3.17, "Response Message").
    RequestFailed,
}

impl ErrorCode {
    ghost use Rattle.std.specs.Prelude.{◌≡◌};
    ghost use Rattle.lsp_message.specs.ErrorCode.{number_of};

    /// Returns the number to send in a reply, for `ResponseError::code`.
    pub fn number(self) -> i32
        ensures { result ≡ number_of self }
    {
        match self {
            ErrorCode::ParseError => -32700,
            ErrorCode::InvalidRequest => -32600,
            ErrorCode::MethodNotFound => -32601,
            ErrorCode::InvalidParams => -32602,
            ErrorCode::InternalError => -32603,
            ErrorCode::ServerErrorStart => -32099,
            ErrorCode::ServerErrorEnd => -32000,
            ErrorCode::ServerNotInitialized => -32002,
            ErrorCode::UnknownErrorCode => -32001,
            ErrorCode::RequestCanceled => -32800,
            ErrorCode::ContentModified => -32801,
            ErrorCode::ServerCancelled => -32802,
            ErrorCode::RequestFailed => -32803,
        }
    }
}
