// The direction in which a message goes.
use std::fmt;

/// The direction in which a message goes. It prints as `->` to the server and `<-` to the client.
#[derive(Clone, Copy, Debug, PartialEq, Eq)]
pub enum Direction {
    /// From the client to the server.
    ToServer,
    /// From the server to the client.
    ToClient,
}

impl Direction {
    ghost use Rattle.std.specs.Prelude.{◌≡◌};
    ghost use Rattle.lsp_watch.specs.Log.{other as other_direction, from_client};

    /// The opposite direction.
    pub fn other(self) -> Direction
        ensures { result ≡ other_direction self }
    {
        match self {
            Direction::ToServer => Direction::ToClient,
            Direction::ToClient => Direction::ToServer,
        }
    }

    /// Returns whether the client sends the messages of this direction.
    pub fn is_from_client(self) -> bool
        ensures { result ≡ from_client self }
    {
        match self {
            Direction::ToServer => true,
            Direction::ToClient => false,
        }
    }
}

impl fmt::Display for Direction {
    fn fmt<W: fmt::Write>(&self, f: &mut fmt::Formatter<W>) -> fmt::Result {
        f.write_str(match self {
            Direction::ToServer => "->",
            Direction::ToClient => "<-",
        })
    }
}
