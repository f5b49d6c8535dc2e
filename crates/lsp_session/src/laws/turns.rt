//! How many turns the steps of the lifecycle take with a list of events.
ghost use Rattle.std.specs.Prelude.{◌<◌, ℕ, length, Option, IsSome};
ghost use Rattle.lsp_message.specs.Message.{Message};
ghost use Rattle.lsp_session.specs.Finish.{FinishAnswer, AwaitsWithin, FinishesWithin};
ghost use Rattle.lsp_session.specs.Lists.{ListGives};
ghost use Rattle.lsp_session.specs.Start.{StartAnswer, StartsWithin};
ghost use Rattle.lsp_session.specs.declared.lifecycle.lists.ListInbox.{ListInbox};

use crate::lifecycle::{Gate, Outbox};

/// `start_within`, `wait_within` and `finish_within` return an answer if their inbox is a list with fewer events than
/// they have turns, whatever the gate and the outbox are. This follows from their contracts, and applies to each call
/// that was made.
pub fn list_is_answered<G: Gate, O: Outbox>()
    ensures start { (limit : ℕ) (old new : G × ListInbox × O) (answer : Option StartAnswer)
        → StartsWithin G.asks ListGives O.sends limit old answer new
        → length old.1.events.items < limit → IsSome answer }
    ensures wait { (limit : ℕ) (old new : G × ListInbox) (answer : Option FinishAnswer)
        → AwaitsWithin G.asks ListGives limit old answer new → length old.1.events.items < limit
        → IsSome answer }
    ensures finish { (limit : ℕ) (reply : Message) (old new : G × ListInbox
        × O) (answer : Option FinishAnswer)
        → FinishesWithin G.asks ListGives O.sends limit reply old answer new
        → length old.1.events.items < limit → IsSome answer }
{}
