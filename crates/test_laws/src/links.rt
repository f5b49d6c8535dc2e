//! Two peers and their links.
ghost use Rattle.std.specs.Prelude.{◌≡◌, ◌++◌, ◌∷◌, [], List, IfOk};
ghost use Rattle.lsp_message.specs.Message as plain;
ghost use Rattle.lsp_peers.specs.Exchange.{WorldAfter};
ghost use Rattle.lsp_peers.specs.History.{Entry};
ghost use Rattle.test_laws.specs.Taken.{Takes};

use lsp_peers::laws::{
    a_beginning_is_a_history, a_history_has_its_facts, a_history_is_shallow,
    a_reply_gives_back_its_payload_once, a_reply_is_the_answer_of_the_other_side,
    a_take_gives_the_last_message, an_entry_moves_its_request, each_request_is_in_one_place,
    requests_arrive_in_order,
};
use lsp_peers::{Outcome, Side, Step, World, WorldFault};

/// Lets a side take the next message, and returns the outcome. Requests arrive in order. A reply is the other side's
/// answer to the request of its id, and gives back the payload of this request, once. The steps up to here have their
/// facts, and none nests more than 126 levels.
pub fn take(world: &mut World, side: Side) -> Result<Outcome, WorldFault>
    ensures { (handed : Side → List plain.Message) (before : List Entry)
        → WorldAfter world.old handed before → IfOk result (λ outcome.
        (entry : Entry) × (entry.outcome ≡ outcome) × WorldAfter world.new handed (before ++ entry ∷ [])
        × Takes side world.old world.new before entry) }
{
    a_beginning_is_a_history();
    each_request_is_in_one_place();
    a_history_has_its_facts();
    a_history_is_shallow();
    a_take_gives_the_last_message();
    requests_arrive_in_order();
    a_reply_gives_back_its_payload_once();
    a_reply_is_the_answer_of_the_other_side();
    an_entry_moves_its_request();
    world.step(Step::Take { side, label: 0 })
}
