//! Steps in a tree: to a child by its label, and to the next node in preorder.
ghost use Rattle.std.specs.Prelude.{◌≡◌, ◌<◌, None, slice_get};
ghost use Rattle.index_links.specs.Forest.{children_of, nodes_of};
ghost use Rattle.piece_merge.specs.Paths.{IsNextNode, IsRooted};
ghost use Rattle.piece_merge.specs.RecordTree.{IsLabelled};

use index_links::TreeLinks;

// The child of a node with a label, if it has one.
pub(crate) fn child_with(links: &TreeLinks, parent: u32, label: u16) -> Option<u32>
    requires { parent < nodes_of links.now }
    ensures { IsLabelled links.now parent label result }
{
    let mut next = links.first_child(parent);
    while let Some(child) = next {
        let other = links.label(child);
        if other >= label {
            return if other == label { next } else { None };
        }
        next = links.next_sibling(child);
    }
    None
}

// The node behind a node in preorder, which has the next path.
pub(crate) fn next_node(links: &TreeLinks, node: u32) -> Option<u32>
    requires tree { IsRooted links.now }
    requires node { node < nodes_of links.now }
    ensures { IsNextNode links.now node result }
{
    match links.first_child(node) {
        Some(child) => Some(child),
        None => next_above(links, node),
    }
}

// The same for a node without children: the next sibling of the node or of the lowest node above
// it that has one.
fn next_above(links: &TreeLinks, node: u32) -> Option<u32>
    requires tree { IsRooted links.now }
    requires node { node < nodes_of links.now }
    requires leaf { slice_get (children_of links.now node) 0 ≡ None }
    ensures { IsNextNode links.now node result }
{
    let mut at = node;
    while let Some(parent) = links.parent(at) {
        if let Some(next) = links.next_sibling(at) {
            return Some(next);
        }
        at = parent;
    }
    None
}
