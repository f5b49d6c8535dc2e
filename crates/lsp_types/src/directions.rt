// Which way a method goes, and what goes with it.
ghost use Rattle.std.specs.Prelude.{◌≡◌, List, ℕ};

use crate::json::{FromJson, ToJson};

/// A request that a client sends and a server answers (LSP 3.17, "Request Message").
pub trait RequestToServer {
    /// Its params.
    type Params: FromJson;

    /// Its result.
    type Result: ToJson + Drop;

    // Its method.
    ghost method: { List ℕ };
}

/// A notification that a client sends and a server receives (LSP 3.17, "Notification Message").
pub trait NotificationToServer {
    /// Its params.
    type Params: FromJson;

    // Its method.
    ghost method: { List ℕ };
}

/// A request that a server sends and a client answers (LSP 3.17, "Request Message").
pub trait RequestToClient {
    /// Its params.
    type Params: ToJson;

    /// Its result, which the server reads.
    type Result;

    // Its method.
    ghost method: { List ℕ };

    /// Its method.
    fn method() -> &'static str
        ensures { result.now ≡ method };
}

/// A notification that a server sends and a client receives (LSP 3.17, "Notification Message").
pub trait NotificationToClient {
    /// Its params.
    type Params: ToJson;

    // Its method.
    ghost method: { List ℕ };

    /// Its method.
    fn method() -> &'static str
        ensures { result.now ≡ method };
}
