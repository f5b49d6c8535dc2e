//! A law of the queues. It is the contract of a function, which the proofs of callers can use.
ghost use Rattle.std.specs.Prelude.{◌≡◌, List};
ghost use Rattle.std.specs.FinMap as map;
ghost use Rattle.lsp_message.specs.Id.{Id};
ghost use Rattle.lsp_queue.specs.QueueRun.{Call, after_all, last_registered};

/// After any list of calls on a queue, an id has the data that was last registered under it, until it is completed or
/// cancelled. So `complete` returns the data once.
pub fn pending_is_last_registered<D>()
    ensures { (calls : List (Call D)) (id : Id)
        → map.get (after_all calls) id ≡ last_registered id calls }
{}
