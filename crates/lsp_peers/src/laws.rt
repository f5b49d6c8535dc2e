//! Laws of the histories of two peers. Each is the contract of a function, which the proofs of callers can use.
ghost use Rattle.std.specs.Prelude.{◌≡◌, ◌<◌, ◌++◌, ◌∷◌, [], ℕ, List, Option, Result, IsSome, false, length, map as each};
ghost use Rattle.lsp_message.specs.Id.{Id};
ghost use Rattle.serde_json.specs.Data.{Data};
ghost use Rattle.lsp_message.specs.Message as plain;
ghost use Rattle.lsp_message.specs.Message.{ErrorObject, response};
ghost use Rattle.lsp_message.specs.View.{message_view};
ghost use Rattle.lsp_peers.specs.Exchange.{WorldAfter, seen_at};
ghost use Rattle.lsp_peers.specs.History.{Entry, IsHistory, entries_of, payloads, labels, returned};
ghost use Rattle.lsp_peers.specs.HistoryLaw.{FactsOf, TakenAs, AnsweredBy};
ghost use Rattle.lsp_peers.specs.Ids.{nth_id, item_at, has};
ghost use Rattle.lsp_peers.specs.InOnePlace.{InOnePlace, place_of, moved_by_owner, moved_by_other};
ghost use Rattle.lsp_peers.specs.Shallow.{AllShallow};
ghost use Rattle.lsp_peers.specs.Sides.{side_of, other};
ghost use Rattle.lsp_peers.specs.declared.step.Outcome.{Outcome};
ghost use Rattle.lsp_peers.specs.declared.step.Outcome.TheVariants.{Arrived, Returned};
ghost use Rattle.lsp_peers.specs.declared.step.Side.{Side};
ghost use Rattle.lsp_peers.specs.declared.step.Step.{Step};
ghost use Rattle.lsp_peers.specs.declared.step.Step.TheVariants.{Take};
ghost use Rattle.lsp_peers.specs.declared.world.World.{World};

/// The entries before an entry of a history are a history.
pub fn a_beginning_is_a_history()
    ensures { (before after : List Entry) → IsHistory (before ++ after) → IsHistory before }
{}

/// Each step of a history has params and a result that nest at most 126 levels, so each message that a side takes is
/// read back.
pub fn a_history_is_shallow()
    ensures { (history : List Entry) → IsHistory history
        → AllShallow (each (λ entry. entry.step) history) }
{}

/// States the outcomes of a history by its steps and outcomes alone. Requests are registered and arrive as 0, 1, 2, ..;
/// each reply returns the payload of its own request, once; and a request is found exactly if it is held.
pub fn a_history_has_its_facts()
    ensures { (history : List Entry) → IsHistory history
        → FactsOf (each (λ entry. entry.step) history) (each (λ entry. entry.outcome) history) }
{}

/// A reply that a side takes returns the payload that the side registered under the id. No reply to that id was taken
/// before.
pub fn a_reply_gives_back_its_payload_once()
    ensures { (before : List Entry) (entry : Entry) → IsHistory (before ++ entry ∷ []) →
        (side : Side) (label : ℕ) (id : Id) (payload : Option ℕ) → entry.step ≡ Take side label
        → entry.outcome ≡ Returned id payload →
        IsSome payload × (payload ≡ item_at (payloads (entries_of side before)) id)
        × (has id (returned (entries_of side before)) ≡ false) }
{}

/// The requests that arrive at a side have the ids 0, 1, 2, .., and the other side registered each of them before.
pub fn requests_arrive_in_order()
    ensures { (before : List Entry) (entry : Entry) → IsHistory (before ++ entry ∷ []) →
        (side : Side) (label : ℕ) (id : Id) → entry.step ≡ Take side label
        → entry.outcome ≡ Arrived id →
        (id ≡ nth_id (length (labels (entries_of side before))))
        × (length (labels (entries_of side before))
        < length (payloads (entries_of (other side) before))) }
{}

/// The message that a `Take` names is the last that the side took: the request of that id, the reply to it, or a
/// notification.
pub fn a_take_gives_the_last_message()
    ensures { (world new : World) (handed : Side → List plain.Message) (before : List Entry)
        (entry : Entry) →
        WorldAfter world handed before → WorldAfter new handed (before ++ entry ∷ [])
        → (side : Side) (label : ℕ) → entry.step ≡ Take side label →
        TakenAs entry.outcome (each message_view (seen_at side world).taken)
        (each message_view (seen_at side new).taken) }
{}

/// A reply that a side takes is one that the other side wrote before, in answer to the request of this id.
pub fn a_reply_is_the_answer_of_the_other_side()
    ensures { (world new : World) (handed : Side → List plain.Message) (before : List Entry)
        (entry : Entry) →
        WorldAfter world handed before → WorldAfter new handed (before ++ entry ∷ [])
        → (side : Side) (label : ℕ) (id : Id) (payload : Option ℕ) →
        entry.step ≡ Take side label → entry.outcome ≡ Returned id payload
        → (answer : Result Data ErrorObject)
        × (each message_view (seen_at side new).taken ≡ each message_view (seen_at side world).taken
        ++ response id answer ∷ []) × AnsweredBy (other side) id answer before }
{}

/// Each request that a side registered is in one place: on the way, with the other side, on the way back, done, or
/// given up. The frames that wait, the requests that the other side holds and the payloads that are pending are those
/// of these places.
pub fn each_request_is_in_one_place()
    ensures { (history : List Entry) → IsHistory history → (side : Side)
        → InOnePlace (entries_of side history) (entries_of (other side) history) }
{}

/// An entry moves at most one request: the one that its outcome names, to the place that its step says.
pub fn an_entry_moves_its_request()
    ensures { (before : List Entry) (entry : Entry) → IsHistory (before ++ entry ∷ []) →
        (side : Side) → side_of entry.step ≡ side → (id : Id) →
        (place_of (entries_of side (before ++ entry ∷ [])) (entries_of (other side) (before ++ entry ∷ [])) id
        ≡ moved_by_owner entry.step entry.outcome id (place_of (entries_of side before) (entries_of (other side) before) id))
        × (place_of (entries_of (other side) (before ++ entry ∷ [])) (entries_of side (before ++ entry ∷ [])) id
        ≡ moved_by_other entry.step entry.outcome id (place_of (entries_of (other side) before) (entries_of side before) id)) }
{}
