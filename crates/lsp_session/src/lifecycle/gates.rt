// Gates with no contents.
use crate::lifecycle::Gate;

/// A gate that always says yes.
#[derive(Clone, Copy, Debug)]
pub struct OpenGate;

impl Gate for OpenGate {
    ghost use Rattle.std.specs.Prelude.{◌≡◌, true};

    ghost asks = { λ _ answer _. answer ≡ true };

    fn ask(&mut self) -> bool {
        true
    }
}

/// A gate that calls a closure. Contracts know nothing about its answers.
#[derive(Debug, Drop)]
pub struct CallGate<C: Fn() -> bool> {
    /// Returns whether to go on.
    pub running: C,
}

impl<C: Fn() -> bool> Gate for CallGate<C> {
    ghost use Rattle.std.specs.Prelude.{⊤};

    ghost can_ask = { λ gate. C.IsAlwaysCallable gate.running };

    ghost asks = { λ _ _ _. ⊤ };

    fn ask(&mut self) -> bool {
        (self.running)()
    }
}
