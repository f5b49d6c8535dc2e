//! The arguments of a command line that say where a program's client is (LSP 3.17, "Implementation Considerations").
ghost use Rattle.std.specs.Prelude.{◌≡◌, map, option_map, string_bytes};
ghost use Rattle.lsp_server.specs.Words.{channel_of, channel_view, option_name, option_value, is_option as begins_as_option, is_unknown as names_nothing, with_port as needs_port};

/// Where the client of a program is.
#[derive(Drop)]
pub(crate) enum Channel<'a> {
    /// At standard input and output.
    Standard,
    /// Clients connect to this address.
    Address(&'a str),
    /// The client listens at this port of the machine.
    Port(&'a str),
    /// The client listens at this socket file.
    Pipe(&'a str),
    /// Nowhere: the arguments were refused for this reason.
    Refused(&'a str),
}

const NODE_IPC: &str = "`--node-ipc` is for programs under node";

const NO_NAME: &str = "no name after `--pipe`";

pub(crate) const NO_PORT: &str = "no port number after `--socket` or `--port`";

/// Returns the channel that the arguments ask for. The first argument that asks for one decides.
pub(crate) fn channel_in(words: &[String]) -> Channel<'_>
    ensures { channel_view result ≡ channel_of (map string_bytes words.now) }
{
    let [word, rest @ ..] = words else {
        return Channel::Standard;
    };
    let word = word.as_str();
    if !is_option(word) {
        return Channel::Address(word);
    }
    let (name, value) = parts_of(word);
    match name {
        "--node-ipc" => Channel::Refused(NODE_IPC),
        "--pipe" => match (value, rest) {
            (Some(name), _) => Channel::Pipe(name),
            (None, [next, ..]) => Channel::Pipe(next.as_str()),
            (None, []) => Channel::Refused(NO_NAME),
        },
        "--socket" | "--port" => match (value, rest) {
            (Some(port), _) => Channel::Port(port),
            (None, [next, ..]) if !is_option(next.as_str()) => Channel::Port(next.as_str()),
            (None, _) => with_port(channel_in(rest)),
        },
        "--clientProcessId" => match (value, rest) {
            (None, [_number, rest @ ..]) => channel_in(rest),
            _ => channel_in(rest),
        },
        _ => channel_in(rest),
    }
}

/// Returns the channel after `--socket`. Standard input and output then means that the port is missing.
fn with_port(channel: Channel<'_>) -> Channel<'_>
    ensures { channel_view result ≡ needs_port (channel_view channel.entry) }
{
    match channel {
        Channel::Standard => Channel::Refused(NO_PORT),
        other => other,
    }
}

/// Returns whether the argument is an option that LSP does not have.
pub(crate) fn is_unknown(word: &str) -> bool
    ensures { result ≡ names_nothing word.now }
{
    let (name, _value) = parts_of(word);
    is_option(word)
        && !matches!(
            name,
            "--stdio" | "--pipe" | "--socket" | "--port" | "--node-ipc" | "--clientProcessId"
        )
}

fn is_option(word: &str) -> bool
    ensures { result ≡ begins_as_option word.now }
{
    word.starts_with("-")
}

/// Splits an option into its name and the text after the first `=`.
fn parts_of(word: &str) -> (&str, Option<&str>)
    ensures name { result.0.now ≡ option_name word.now }
    ensures value { option_map (λ s. s.now) result.1 ≡ option_value word.now }
{
    match word.split_once('=') {
        Some((name, value)) => (name, Some(value)),
        None => (word, None),
    }
}
