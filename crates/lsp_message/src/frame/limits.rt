// What is read at most of a frame.
ghost use Rattle.std.specs.Prelude.{◌≡◌, Some};
ghost use Rattle.lsp_message.specs.Limits.{of_content as of_content_spec, no_limit as no_limit_spec};

/// The most bytes of a header part and of a content part that are read (LSP 3.17, "Base Protocol").
#[derive(Clone, Copy, Debug, PartialEq, Eq)]
pub struct Limits {
    /// The most bytes of a header part, with its blank line. A longer one is `ReadFault::HeaderTooLong`. With `None` it
    /// is not bounded, and the reader gathers everything from a peer that sends no line end.
    pub header: Option<u64>,
    /// The most bytes of a content part. A longer one is `ReadFault::TooLong`.
    pub content: u64,
}

impl Limits {
    /// A bound on the header part that suits a reader of strangers: 64 KiB. The header part of a usual client has some
    /// forty bytes.
    pub const HEADER_BYTES: u64 = 65536;

    /// Makes limits from a bound on the header part and one on the content part, in bytes.
    pub fn new(header: u64, content: u64) -> Limits
        ensures header { result.header ≡ Some header }
        ensures content { result.content ≡ content }
    {
        Limits {
            header: Some(header),
            content,
        }
    }

    /// Makes limits of a content part of at most `limit` bytes, and a header part of any length.
    pub fn of_content(limit: u64) -> Limits
        ensures { result ≡ of_content_spec limit }
    {
        Limits {
            header: None,
            content: limit,
        }
    }

    /// Makes limits that allow parts of any length.
    pub fn none() -> Limits
        ensures { result ≡ no_limit_spec }
    {
        Limits::of_content(u64::MAX)
    }
}
