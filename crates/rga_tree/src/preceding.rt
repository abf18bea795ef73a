//! Back through the order, one element at a time, by look-ups. Takes no memory.
ghost use Rattle.std.specs.Prelude.{◌≡◌, ◌++◌, ◌∷◌, [], slice_get, true, false};
ghost use Rattle.rga_ops.specs.Prelude.{is_root, IsSound};
ghost use Rattle.rga_ops.specs.RootPath.{is_complete};
ghost use Rattle.rga_tree.specs.Children.{next_newer};
ghost use Rattle.rga_tree.specs.Nodes.{content_of_nodes, children_of};
ghost use Rattle.rga_tree.specs.Preceding.{beginning, IsLastUnder};
ghost use Rattle.rga_store.specs.Child.{is_child};
ghost use Rattle.rga_tree.specs.Tree.{HasFamilies};

use crate::nodes::{Node, find_node};
use indexmap::IndexMap;
use rga_ops::Id;

/// What stands directly before an element in the order; the root before the first. Of siblings the
/// newest is first, and all that stands under one comes before the next. So it is the last under
/// the next newer sibling, or else the parent.
pub(crate) fn element_before(nodes: &IndexMap<Id, Node>, near: &mut usize, parent: Id, id: Id) -> Id
    requires family { HasFamilies nodes.now.entries }
    requires sound { IsSound (content_of_nodes nodes.now.entries) }
    requires child { is_child (content_of_nodes nodes.now.entries) parent id ≡ true }
    requires complete { is_complete (content_of_nodes nodes.now.entries) id ≡ true }
    ensures before { let content = content_of_nodes nodes.now.entries in
        beginning content id ≡ beginning content result ++ id ∷ [] }
    ensures complete { is_root result ≡ false →
        is_complete (content_of_nodes nodes.now.entries) result ≡ true }
{
    match newer_sibling(nodes, near, parent, id) {
        Some(sibling) => last_under(nodes, near, sibling),
        None => parent,
    }
}

/// The last in the order of the root or a complete element, and of what stands under it: the oldest
/// child's oldest child, and so on. It leaves the index of the last at `near`.
pub(crate) fn last_under(nodes: &IndexMap<Id, Node>, near: &mut usize, id: Id) -> Id
    requires family { HasFamilies nodes.now.entries }
    requires sound { IsSound (content_of_nodes nodes.now.entries) }
    requires complete { is_root id ≡ false →
        is_complete (content_of_nodes nodes.now.entries) id ≡ true }
    ensures { IsLastUnder (content_of_nodes nodes.now.entries) id result }
{
    let mut last = id;
    while let Some(child) = oldest_child(nodes, near, last) {
        // A child's node mostly stands directly after its parent's.
        *near = near.wrapping_add(1);
        last = child;
    }
    last
}

fn oldest_child(nodes: &IndexMap<Id, Node>, near: &mut usize, parent: Id) -> Option<Id>
    ensures { result ≡ slice_get (children_of nodes.now.entries parent) 0 }
{
    find_node(nodes, near, parent)?.children.oldest()
}

fn newer_sibling(nodes: &IndexMap<Id, Node>, near: &mut usize, parent: Id, id: Id) -> Option<Id>
    ensures { result ≡ next_newer id (children_of nodes.now.entries parent) }
{
    find_node(nodes, near, parent)?.children.next_newer(id)
}
