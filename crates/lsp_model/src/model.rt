// The methods of LSP, and the types of their params and results.
ghost use Rattle.std.specs.Prelude.{◌≡◌, find, option_map, option_and_then};
ghost use Rattle.std.specs.Str.{bytes_eq};
ghost use Rattle.lsp_model.specs.Methods.{takes as takes_direction, is_method, method_named};

use crate::form::Form;
use lsp_watch::Direction;
use std::fmt;

/// Who receives a method.
#[derive(Clone, Copy)]
pub enum Receiver {
    /// The server.
    Server,
    /// The client.
    Client,
    /// Both.
    Both,
}

impl Receiver {
    /// Returns whether it receives messages that go in this direction.
    pub fn takes(self, direction: Direction) -> bool
        ensures { result ≡ takes_direction self direction }
    {
        match (self, direction) {
            (Receiver::Both, _)
            | (Receiver::Server, Direction::ToServer)
            | (Receiver::Client, Direction::ToClient) => true,
            (Receiver::Server, Direction::ToClient) | (Receiver::Client, Direction::ToServer) =>
                false,
        }
    }
}

/// A method, with the places of the types of its params and of its result.
#[derive(Clone, Copy)]
pub struct Method {
    /// Its name.
    pub name: &'static str,
    /// Who receives it.
    pub receiver: Receiver,
    /// The place of the type of its params.
    pub params: usize,
    /// The place of the type of its result. A notification has none.
    pub result: usize,
}

impl Method {
    fn is(&self, direction: Direction, name: &str) -> bool
        ensures { result ≡ is_method direction name.now self.now }
    {
        self.name == name && self.receiver.takes(direction)
    }
}

/// Methods, and the types that they name by their places.
#[derive(Drop)]
pub struct Model {
    /// The methods.
    pub methods: Vec<Method>,
    /// The types.
    pub types: Vec<Form>,
}

impl Model {
    /// Returns the method of this name that may go in this direction, if the model has it.
    pub fn method(&self, direction: Direction, name: &str) -> Option<Method>
        ensures { result ≡ method_named direction name.now self.now }
    {
        self.methods
            .iter()
            .copied()
            .find(|it| it.is(direction, name))
    }
}

impl fmt::Debug for Model {
    fn fmt<W: fmt::Write>(&self, f: &mut fmt::Formatter<W>) -> fmt::Result {
        let (methods, types) = (self.methods.len(), self.types.len());
        write!(f, "Model with {methods} methods and {types} types")
    }
}
