// Methods that a server announces and answers.
ghost use Rattle.std.specs.Prelude.{◌≡◌, List, ℕ, IfOk, ⊤};
ghost use Rattle.serde_json.specs.Data.{Data};
ghost use Rattle.serde_json.specs.View.{view};
ghost use Rattle.lsp_features.specs.Features.{IsOption};

use lsp_types::{RequestToServer, ToJson};
use serde_json::Value;
use std::alloc::{AllocError, Global};

/// A method that a server `S` announces by a member of its capabilities (LSP 3.17, "ServerCapabilities").
pub trait Feature<S>: RequestToServer {
    // The key of the member.
    ghost member: { List ℕ };

    // What the server announces there.
    ghost offers: { S → Data → Type 0 };

    /// Its method.
    fn method() -> &'static str
        ensures { result.now ≡ Self.method };

    /// The key of the member.
    fn member() -> &'static str
        ensures { result.now ≡ member };

    /// Makes the value of the member. `Err` means that an allocation failed.
    fn offer(server: &S, alloc: Global) -> Result<Value, AllocError>
        ensures { IfOk result (λ value. offers server.now (view value)) };
}

/// A method that is announced with options.
pub trait HasOptions: RequestToServer {
    /// Its options.
    type Options: ToJson + Drop;
}

/// A server that says with which options it announces a method.
pub trait Offers<M: HasOptions> {
    // Whether it announces the method with these options.
    ghost options: { Self → M.Options → Type 0 } = { λ _ _. ⊤ };

    /// Returns the options. `Err` means that an allocation failed.
    fn options(&self, alloc: Global) -> Result<M::Options, AllocError>
        ensures { IfOk result (λ found. options self.now found) };
}

/// Makes the value of a member from the options of a server.
pub(crate) fn options_of<M, S>(server: &S, alloc: Global) -> Result<Value, AllocError>
where
    M: HasOptions,
    S: Offers<M>,
    ensures { IfOk result (λ value. IsOption (S.options server.now) M.Options.stands (view value)) }
{
    let options = server.options(alloc)?;
    options.to_json(alloc)
}

/// A server that answers requests of a method.
pub trait Answers<M: RequestToServer> {
    // Whether it may answer these params with this result, and change in this manner.
    ghost answers: { Self → M.Params → M.Result → Self → Type 0 } = { λ _ _ _ _. ⊤ };

    /// Returns the result for these params. `Err` means that an allocation failed.
    fn answer(&mut self, params: M::Params) -> Result<M::Result, AllocError>
        ensures { IfOk result (λ found. answers self.old params found self.new) };
}
