//! Whether `serde_json` accepts what a tape holds: its numbers are in range, and it doesn't nest too deep.

ghost use Rattle.std.specs.Prelude.{◌≡◌, is_some, map};
ghost use Rattle.json.specs.Tape.{node_token};
ghost use Rattle.json_tape.specs.Ranges.{depth_after, depths};

use crate::number::is_number;
use json::Node;

/// How deep arrays and objects may nest.
pub const MAX_DEPTH: usize = 127;

/// Whether all of a tape's nodes are accepted.
pub(crate) fn is_accepted(nodes: &[Node<'_>]) -> bool
    ensures { result ≡ is_some (depths 0 (map node_token nodes.now)) }
{
    let mut depth = 0;
    for node in nodes {
        match depth_after(depth, node) {
            Some(next) => depth = next,
            None => return false,
        }
    }
    true
}

/// How deep the tape is nested behind a node, where the node is accepted.
fn depth_after(depth: usize, node: &Node<'_>) -> Option<usize>
    ensures { result ≡ depth_after depth (node_token node.now) }
{
    match node {
        Node::Object(_) | Node::Array(_) => {
            if depth < MAX_DEPTH {
                Some(depth + 1)
            } else {
                None
            }
        }
        Node::EndObject | Node::EndArray => Some(depth.saturating_sub(1)),
        Node::Number(text) => { if is_number(text) { Some(depth) } else { None } }
        Node::Key(_) | Node::String(_) | Node::Bool(_) | Node::Null => Some(depth),
    }
}
