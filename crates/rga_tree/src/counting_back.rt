//! Visible elements counted from an element back through the order, by look-ups. Takes no memory.
ghost use Rattle.std.specs.Prelude.{◌≡◌, ◌≤◌, ◌++◌, ◌∷◌, [], false, true, length, slice_get, is_some, None, Some, IfSome};
ghost use Rattle.std.specs.FinMap as finite_map;
ghost use Rattle.rga_ops.specs.Prelude.{is_root, order, visible, IsSound};
ghost use Rattle.rga_ops.specs.RootPath.{is_complete, root_path};
ghost use Rattle.rga_ops.specs.Order.{shown};
ghost use Rattle.rga_ops.specs.Places.{is_visible};
ghost use Rattle.rga_store.specs.declared.text_store.TheConstants.{MAX_LIMIT};
ghost use Rattle.rga_tree.specs.Nodes.{content_of_nodes, char_at, AreDistinctNodes};
ghost use Rattle.rga_tree.specs.Preceding.{beginning, visible_up_to, IsShownChild};
ghost use Rattle.rga_tree.specs.Tree.{HasFamilies};

use crate::nodes::{Node, find_node};
use crate::preceding::{element_before, last_under};
use indexmap::IndexMap;
use rga_ops::Id;

/// The visible element at an index; none past the end.
pub(crate) fn element_at(nodes: &IndexMap<Id, Node>, k: usize) -> Option<Id>
    requires apart { AreDistinctNodes nodes.now.entries }
    requires family { HasFamilies nodes.now.entries }
    requires sound { IsSound (content_of_nodes nodes.now.entries) }
    requires few { finite_map.len (content_of_nodes nodes.now.entries).inserted ≤ MAX_LIMIT }
    ensures { result ≡ slice_get (visible (content_of_nodes nodes.now.entries)) k }
{
    let mut near = 0;
    let mut at = last_element(nodes, &mut near);
    let mut count = count_up_to(nodes, at);
    if count <= k {
        return None;
    }
    while let Some(step) = step_back(nodes, &mut near, at) {
        let (before, ch) = step;
        count -= usize::from(ch.is_some());
        if count <= k {
            return Some(at);
        }
        at = before;
    }
    None
}

/// How many visible elements there are up to the root or a complete element.
pub(crate) fn count_up_to(nodes: &IndexMap<Id, Node>, id: Id) -> usize
    requires apart { AreDistinctNodes nodes.now.entries }
    requires family { HasFamilies nodes.now.entries }
    requires sound { IsSound (content_of_nodes nodes.now.entries) }
    requires few { finite_map.len (content_of_nodes nodes.now.entries).inserted ≤ MAX_LIMIT }
    requires complete { is_root id ≡ false →
        is_complete (content_of_nodes nodes.now.entries) id ≡ true }
    ensures { result ≡ length (visible_up_to (content_of_nodes nodes.now.entries) id) }
{
    let mut at = id;
    let mut near = 0;
    let mut count = 0;
    while let Some(step) = step_back(nodes, &mut near, at) {
        let (before, ch) = step;
        count += usize::from(ch.is_some());
        at = before;
    }
    count
}

/// What stands directly before an element, and its character if it is visible; none for the root.
pub(crate) fn step_back(
    nodes: &IndexMap<Id, Node>,
    near: &mut usize,
    id: Id,
) -> Option<(Id, Option<char>)>
    requires apart { AreDistinctNodes nodes.now.entries }
    requires family { HasFamilies nodes.now.entries }
    requires sound { IsSound (content_of_nodes nodes.now.entries) }
    requires complete { is_root id ≡ false →
        is_complete (content_of_nodes nodes.now.entries) id ≡ true }
    ensures before { let content = content_of_nodes nodes.now.entries in IfSome result
        (λ p. beginning content id ≡ beginning content p.0 ++ id ∷ []) }
    ensures visible { let content = content_of_nodes nodes.now.entries in IfSome result
        (λ p. is_some p.1 ≡ is_visible content id) }
    ensures shown { let content = content_of_nodes nodes.now.entries in IfSome result
        (λ p. p.1 ≡ shown content id) }
    ensures complete { let content = content_of_nodes nodes.now.entries in IfSome result
        (λ p. is_root p.0 ≡ false → is_complete content p.0 ≡ true) }
    ensures root { result ≡ None → is_root id ≡ true }
{
    let (parent, ch) = parent_and_char(nodes, near, id)?;
    Some((element_before(nodes, near, parent, id), ch))
}

/// The last element of the order; the root where there is none. It leaves its index at `near`.
pub(crate) fn last_element(nodes: &IndexMap<Id, Node>, near: &mut usize) -> Id
    requires family { HasFamilies nodes.now.entries }
    requires sound { IsSound (content_of_nodes nodes.now.entries) }
    ensures last { beginning (content_of_nodes nodes.now.entries) result
        ≡ order (content_of_nodes nodes.now.entries) }
    ensures complete { is_root result ≡ false →
        is_complete (content_of_nodes nodes.now.entries) result ≡ true }
{
    last_under(nodes, near, Id::ROOT)
}

/// Whether an identifier is the root or complete: up the parents from it.
pub(crate) fn reaches_root(nodes: &IndexMap<Id, Node>, id: Id) -> bool
    requires apart { AreDistinctNodes nodes.now.entries }
    requires sound { IsSound (content_of_nodes nodes.now.entries) }
    ensures { result ≡ is_some (root_path (content_of_nodes nodes.now.entries) id) }
{
    let mut at = id;
    let mut near = 0;
    while let Some(child) = parent_and_char(nodes, &mut near, at) {
        at = child.0;
    }
    at == Id::ROOT
}

/// The parent of an inserted element, and its character unless it is deleted. It leaves the index
/// before the element's own at `near`: the parent's node mostly stands there.
fn parent_and_char(
    nodes: &IndexMap<Id, Node>,
    near: &mut usize,
    id: Id,
) -> Option<(Id, Option<char>)>
    requires { AreDistinctNodes nodes.now.entries }
    ensures shown { let content = content_of_nodes nodes.now.entries in IfSome result
        (λ p. IsShownChild content id p.0 p.1) }
    ensures absent { let content = content_of_nodes nodes.now.entries in result ≡ None →
        finite_map.get content.inserted id ≡ None }
{
    let node = find_node(nodes, near, id)?;
    *near = near.wrapping_sub(1);
    let (parent, _) = node.element?;
    Some((parent, char_of(node)))
}

/// The character of a node that is inserted and not deleted.
fn char_of(node: &Node) -> Option<char>
    ensures { result ≡ char_at (Some node.now) }
{
    if node.deleted {
        return None;
    }
    let (_, ch) = node.element?;
    Some(ch)
}
