//! Laws about a session in threads, as implications.
ghost use Rattle.serde_json.specs.Data.{Data};
ghost use Rattle.std.specs.Prelude.{Bool, false, ℕ, List, Option, Result};
ghost use Rattle.lsp_message.specs.declared.frame.byte_trace.ByteTrace.{ByteTrace};
ghost use Rattle.lsp_session.specs.declared.loops.handler.SessionEnd.{SessionEnd as EndOfSession};
ghost use Rattle.lsp_session.specs.declared.loops.stream_session.SessionFault.{SessionFault as FaultOfSession};
ghost use Rattle.lsp_session.specs.HandlerSession.{of_handler};
ghost use Rattle.lsp_session.specs.PassingBytes.{SkipsNoContent};
ghost use Rattle.lsp_session.specs.Session.{SessionOut};
ghost use Rattle.lsp_threads.specs.InThreads.{EndsWellInThreads, HandlesInThreads, ServesInThreads};
ghost use Rattle.lsp_threads.specs.Passing.{GivenTo, TakenFrom};
ghost use Rattle.lsp_threads.specs.Writes.{Begun};
ghost use Rattle.lsp_threads.specs.Threads.{ThreadsGiveOver, ThreadsTellOver};
ghost use Rattle.lsp_message.specs.declared.frame.limits.Limits.{Limits};

use lsp_session::{Application, BadContentPolicy, Handler};

/// With a policy that never skips anything, such as `EndOnBadContent`, each frame of a session of `run_in_threads_over` is a
/// message, and each wake-up was sent by one of the relay's wakers. So what the contract of `run_threads` says about
/// its session also applies to this one.
///
/// The laws of `lsp_session` about the exchanges of a session, such as `session_answers_requests`, apply to it in
/// threads too.
pub fn nothing_is_skipped_in_threads<L: BadContentPolicy, A: Application>()
    ensures { (old new : A) (wakeable : Bool) (limit : Limits) (text : List ℕ) (first last : L)
        (before after : Option (List ℕ)) (answer : Result EndOfSession FaultOfSession)
        → SkipsNoContent L.passes
        → ThreadsTellOver wakeable L.passes limit (A.session old new) text first last before after answer
        → ThreadsGiveOver wakeable limit (A.session old new) text before after answer }
{}

/// A session of a handler in threads that ended well (`run_in_threads` with a `HandlerApplication` and a policy that
/// skips nothing), for every reader and writer. The bytes that were taken, up to those that the session did not use, are
/// frames of the client's messages, and perhaps the end of the input. The bytes that were given are frames of one reply
/// to each request, under its id, in order, each with an outcome that the handler may give then, and of nothing else.
/// The last reply is the null of `shutdown`, if that came (JSON-RPC 2.0, section 5; LSP 3.17, "Server lifecycle").
pub fn session_in_threads_ends_well<L: BadContentPolicy, H: Handler>()
    ensures { (limits : Limits) (capabilities : Data) (old new : H) (first last : L)
        (known before after : Option (List ℕ)) (taken given : ByteTrace) (writes : List Begun)
        (answer : Result EndOfSession FaultOfSession)
        → SkipsNoContent L.passes
        → ServesInThreads false L.passes limits first last
        (SessionOut (of_handler H.answer_post H.note_post capabilities) old new) known before after taken given writes
        answer
        → EndsWellInThreads H.answer_post H.note_post limits capabilities old taken given answer new }
{}

/// The same of `run_threads`, whose contract names no traces: there are bytes that were taken from the reader, and
/// bytes that were given to the writer, of which this is true.
pub fn handler_in_threads_ends_well<H: Handler>()
    ensures { (limits : Limits) (capabilities : Data) (old new : H) (known before after : Option (List ℕ))
        (answer : Result EndOfSession FaultOfSession)
        → HandlesInThreads limits (SessionOut (of_handler H.answer_post H.note_post capabilities) old new) known before
        after answer
        → (taken : ByteTrace) × (given : ByteTrace) × TakenFrom known taken.parts × GivenTo before given.parts after
        × EndsWellInThreads H.answer_post H.note_post limits capabilities old taken given answer new }
{}
