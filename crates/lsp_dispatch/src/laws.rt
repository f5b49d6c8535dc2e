//! A law of the dispatcher. It is the contract of a function, which the proofs of callers can use.
ghost use Rattle.std.specs.Prelude.{List, []};
ghost use Rattle.lsp_dispatch.specs.DispatchCalls.{Call};
ghost use Rattle.lsp_dispatch.specs.Dispatch.{Dispatches};
ghost use Rattle.lsp_dispatch.specs.DispatchLaw.{RepliesOnce};
ghost use Rattle.lsp_dispatch.specs.DispatchPending.{answers_from, no_work};

/// Whatever calls are made on a new dispatcher, each answer is right for its place, and each request gets at most one
/// reply, and none after it was replaced.
pub fn replies_once()
    ensures dispatches { (calls : List Call) → Dispatches [] calls (answers_from no_work calls) }
    ensures once { (calls : List Call) → RepliesOnce (answers_from no_work calls) }
{}
