// Which steps write messages that are read back.
ghost use Rattle.std.specs.Prelude.{◌≡◌, true};
ghost use Rattle.lsp_peers.specs.Shallow.{IsShallow};

use crate::step::Step;
use lsp_message::nests_within;

/// A message has one level around its params or its result, and is read back with 127.
const MAX_LEVELS: u32 = 126;

/// Returns whether the params or the result nest so little that the message is read back.
pub(crate) fn is_shallow(step: &Step) -> bool
    ensures shallow { result ≡ true → IsShallow step.now }
    ensures all { IsShallow step.now → result ≡ true }
{
    match step {
        Step::Register { params, .. } => nests_within(params, MAX_LEVELS),
        Step::Tell { params, .. } => nests_within(params, MAX_LEVELS),
        Step::Answer { result, .. } => nests_within(result, MAX_LEVELS),
        _ => true,
    }
}
