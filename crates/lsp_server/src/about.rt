//! What a program says about itself: its help and its version.
ghost use Rattle.std.specs.Prelude.{◌≡◌};
ghost use Rattle.lsp_server.specs.About.{asked_of, has_word as is_among};

use std::fmt;

/// The arguments that `serve_clients` and `About` read, a line for each, for `About::arguments`.
pub const CHANNEL_ARGUMENTS: &str =
    "  --stdio         the client is at standard input and output, as without an argument
  --socket=PORT   the client listens at this port of 127.0.0.1; also --port=PORT
  --pipe=NAME     the client listens at this socket file
  ADDRESS         clients connect to this address, such as 127.0.0.1:9257
  --help          prints this text; also -h
  --version       prints the version; also -V
";

/// What a program says about itself.
///
/// `serve_clients` ignores an option that LSP does not have, and waits for a client. So ask first whether an argument
/// asks for the help or the version, print the text, and end:
///
/// <!-- from crates/example_diagnostics/src/main.rt -->
/// ```rust
/// if let Some(text) = ABOUT.asked(words.as_slice()) {
///     return Ok(print!(&rt; "{text}")?);
/// }
/// ```
#[derive(Clone, Copy, Debug, PartialEq, Eq)]
pub struct About<'a> {
    /// The program's name.
    pub name: &'a str,
    /// Its version.
    pub version: &'a str,
    /// What the program does, and how it is called: whole lines.
    pub purpose: &'a str,
    /// Its arguments, a line for each: `CHANNEL_ARGUMENTS` for a program that calls `serve_clients`.
    pub arguments: &'a str,
}

/// The text that an argument asks for. It ends in a line feed.
#[derive(Clone, Copy, Debug, PartialEq, Eq)]
pub enum AboutText<'a> {
    /// It prints the name, the version, the purpose and the arguments.
    Help(About<'a>),
    /// It prints the name and the version.
    Version(About<'a>),
}

impl<'a> About<'a> {
    /// Returns the text that the arguments ask for: the help if one of them is `--help` or `-h`, and otherwise the version
    /// if one is `--version` or `-V`.
    pub fn asked(self, words: &[String]) -> Option<AboutText<'a>>
        ensures { result ≡ asked_of self.entry words.now }
    {
        if has_word(words, "--help", "-h") {
            Some(AboutText::Help(self))
        } else if has_word(words, "--version", "-V") {
            Some(AboutText::Version(self))
        } else {
            None
        }
    }
}

/// Returns whether one of the arguments is one of two.
fn has_word(words: &[String], long: &str, short: &str) -> bool
    ensures { result ≡ is_among long.now short.now words.now }
{
    words
        .iter()
        .any(|word| word.as_str() == long || word.as_str() == short)
}

impl fmt::Display for AboutText<'_> {
    ghost use Rattle.lsp_server.specs.About.{about_text};

    ghost output = { about_text };

    fn fmt<W: fmt::Write>(&self, f: &mut fmt::Formatter<W>) -> fmt::Result {
        match self {
            AboutText::Help(about) => write!(
                f,
                "{} {}\n{}\n\n{}",
                about.name, about.version, about.purpose, about.arguments
            ),
            AboutText::Version(about) => writeln!(f, "{} {}", about.name, about.version),
        }
    }
}
