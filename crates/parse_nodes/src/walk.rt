//! Walks back over nodes. The last node of a tree is its root, which has the tree's size.
ghost use Rattle.std.specs.Prelude.{◌≡◌, length};
ghost use Rattle.parse_nodes.specs.Building.{start_of, tree_start};

use crate::node::ParseNode;

/// Where the tree begins that ends before a place.
pub(crate) fn tree_start(nodes: &[ParseNode], place: usize) -> usize
    ensures { result ≡ tree_start nodes.now place }
{
    let Some(root) = place.checked_sub(1) else {
        return 0;
    };
    match nodes.get(root) {
        Some(node) => place.saturating_sub(node.size as usize),
        None => place,
    }
}

/// Where the last so many trees begin.
pub(crate) fn start_of(nodes: &[ParseNode], count: usize) -> usize
    ensures { result ≡ start_of nodes.now count (length nodes.now) }
{
    let mut place = nodes.len();
    for _ in 0..count {
        place = tree_start(nodes, place);
    }
    place
}
