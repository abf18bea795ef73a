//! What two sets of nodes know together, and where they conflict. Takes no memory.
ghost use Rattle.std.specs.Prelude.{◌≡◌, ◌+◌, ◌||◌, ◌⊎◌, Some, is_some, false};
ghost use Rattle.std.specs.Option.{option_map_or};
ghost use Rattle.std.specs.FinSet as finite_set;
ghost use Rattle.rga_ops.specs.Identifier.{Identifier, IsLarger};
ghost use Rattle.rga_ops.specs.Content.{join, known_count, known_ids};
ghost use Rattle.rga_ops.specs.ListAnswer.{has_another, least_conflict};
ghost use Rattle.rga_tree.specs.Nodes.{content_of_nodes, AreDistinctNodes};

use crate::nodes::{Node, element_of};
use indexmap::IndexMap;
use rga_ops::{Id, Op};

/// The least identifier that names two insertions, one in each.
pub(crate) fn least_conflict(own: &IndexMap<Id, Node>, others: &IndexMap<Id, Node>) -> Option<Id>
    requires own { AreDistinctNodes own.now.entries }
    requires others { AreDistinctNodes others.now.entries }
    ensures { result
        ≡ least_conflict (content_of_nodes own.now.entries) (content_of_nodes others.now.entries) }
{
    let mut least = None;
    for i in 0..others.len() {
        if let Some((id, node)) = others.get_index(i) {
            if conflicts(own, *id, node) {
                least = Some(lesser(least, *id));
            }
        }
    }
    least
}

/// How many identifiers the others make known.
pub(crate) fn count_unknown(own: &IndexMap<Id, Node>, others: &IndexMap<Id, Node>) -> usize
    requires own { AreDistinctNodes own.now.entries }
    requires others { AreDistinctNodes others.now.entries }
    ensures { let here = content_of_nodes own.now.entries in
        let there = content_of_nodes others.now.entries in
        known_count here + result ≡ known_count (join here there) }
{
    let mut count = 0;
    for i in 0..others.len() {
        if let Some((id, node)) = others.get_index(i) {
            if is_known(node) && !knows(own, *id) {
                count += 1;
            }
        }
    }
    count
}

/// Whether the nodes insert another element than this node's under its identifier.
fn conflicts(nodes: &IndexMap<Id, Node>, id: Id, node: &Node) -> bool
    requires { AreDistinctNodes nodes.now.entries }
    ensures { let content = content_of_nodes nodes.now.entries in result
        ≡ option_map_or (λ x. has_another content (Op.Insert id x.0 x.1)) node.now.element false }
{
    match (element_of(nodes, id), node.element) {
        (Some(present), Some(element)) => present != element,
        _ => false,
    }
}

/// The lesser of two identifiers, or the second where there is no first.
fn lesser(first: Option<Id>, second: Id) -> Id
    ensures either { (first ≡ Some result) ⊎ (result ≡ second) }
    ensures within_first { (k : Identifier) → first ≡ Some k → IsLarger result k → ⊥ }
    ensures within_second { IsLarger result second → ⊥ }
{
    match first {
        Some(id) if id < second => id,
        _ => second,
    }
}

/// Whether the nodes know an identifier: it is inserted, deleted or both.
pub(crate) fn knows(nodes: &IndexMap<Id, Node>, id: Id) -> bool
    requires { AreDistinctNodes nodes.now.entries }
    ensures { result ≡ finite_set.contains (known_ids (content_of_nodes nodes.now.entries)) id }
{
    match nodes.get(&id) {
        Some(node) => is_known(node),
        None => false,
    }
}

/// Whether a node means anything.
fn is_known(node: &Node) -> bool
    ensures { result ≡ (is_some node.now.element || node.now.deleted) }
{
    node.element.is_some() || node.deleted
}
