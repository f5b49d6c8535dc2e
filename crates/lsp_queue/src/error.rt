//! Why a request was not registered.
use std::error::Error;
use std::fmt;

/// Why a request was not registered. Each variant returns the data, and the queue is unchanged.
///
/// It prints `register fault N`, where N is its `number`. To show a person more, match on the variant.
#[derive(Debug, Drop)]
pub enum RegisterFault<T> {
    /// 1: an allocation of the queue failed.
    Memory(T),
    /// 2: `serde_json` could not convert the params, or an allocation failed while it did.
    Unwritable(T),
    /// 3: all 2147483648 ids were used.
    Spent(T),
}

impl<T> RegisterFault<T> {
    ghost use Rattle.std.specs.Prelude.{◌≡◌};
    ghost use Rattle.lsp_queue.specs.Registering.{register_fault_number};

    /// Returns the fault's number, from 1 to 3.
    pub fn number(&self) -> u8
        ensures { result ≡ register_fault_number self.now }
    {
        match self {
            RegisterFault::Memory(_) => 1,
            RegisterFault::Unwritable(_) => 2,
            RegisterFault::Spent(_) => 3,
        }
    }
}

impl<T> fmt::Display for RegisterFault<T> {
    ghost use Rattle.lsp_queue.specs.Registering.{register_fault_text};

    ghost output = { register_fault_text };

    fn fmt<W: fmt::Write>(&self, f: &mut fmt::Formatter<W>) -> fmt::Result {
        write!(f, "register fault {}", self.number())
    }
}

impl<T: fmt::Debug + Drop> Error for RegisterFault<T> {}
