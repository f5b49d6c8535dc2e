//! Requests whose work can be cancelled.
ghost use Rattle.std.specs.Prelude.{[], ◌∷◌, IfOk};
ghost use Rattle.lsp_dispatch.specs.Dispatch.{Dispatches};
ghost use Rattle.lsp_dispatch.specs.DispatchAnswers.{answer_view};
ghost use Rattle.lsp_dispatch.specs.DispatchCalls.{delivers};
ghost use Rattle.lsp_dispatch.specs.DispatchLaw.{RepliesOnce};
ghost use Rattle.lsp_message.specs.View.{message_view};

use lsp_dispatch::laws::replies_once;
use lsp_dispatch::{Answer, DispatchFault, Dispatcher};
use lsp_message::Message;
use std::alloc::Global;

/// Gives a new dispatcher two messages, such as a request and its cancellation, and returns its answers. Each answer is
/// right for its place, and each request gets at most one reply.
pub fn answers_to_two(
    alloc: Global,
    first: Message,
    second: Message,
) -> Result<(Answer, Answer), DispatchFault>
    ensures right { IfOk result (λ r. Dispatches []
        (delivers (message_view first) ∷ delivers (message_view second) ∷ [])
        (answer_view r.0 ∷ answer_view r.1 ∷ [])) }
    ensures once { IfOk result (λ r. RepliesOnce (answer_view r.0 ∷ answer_view r.1 ∷ [])) }
{
    replies_once();
    let mut dispatcher = Dispatcher::default(alloc);
    let answer = dispatcher.deliver(first)?;
    let later = dispatcher.deliver(second)?;
    Ok((answer, later))
}
