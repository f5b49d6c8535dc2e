//! Which texts serde_json reads.

ghost use Rattle.std.specs.Prelude.{◌≡◌, IfSome, IsSome, IsTrue, Some, map};
ghost use Rattle.json.specs.Tape.{node_token};
ghost use Rattle.lsp_json.specs.Fits.{left_after, left_after_all};

use crate::numbers::number;
use json::Node;

/// How deep the arrays and the objects of a text may nest.
const MAX_DEPTH: usize = 127;

/// Tells whether the arrays and the objects nest 127 deep at most and each number is one that serde_json reads.
pub(crate) fn fits(nodes: &[Node<'_>]) -> bool
    ensures { IsTrue result → IsSome (left_after_all (map node_token nodes.now) 127) }
{
    let mut left = MAX_DEPTH;
    for node in nodes {
        match next_left(node, left) {
            Some(after) => left = after,
            None => return false,
        }
    }
    true
}

/// Counts how much deeper the values after this node may nest.
fn next_left(node: &Node<'_>, left: usize) -> Option<usize>
    ensures { IfSome result (λ after. left_after left (node_token node.now) ≡ Some after) }
{
    match node {
        Node::Object(_) | Node::Array(_) => left.checked_sub(1),
        Node::EndObject | Node::EndArray => left.checked_add(1),
        Node::Number(text) => {
            number(text)?;
            Some(left)
        }
        _ => Some(left),
    }
}
