//! A content as a list of operations, and operations told one by one.
ghost use Rattle.std.specs.Prelude.{◌≡◌, ◌++◌, map, IfErr, OnOk};
ghost use Rattle.std.specs.List.{filter_map};
ghost use Rattle.std.specs.FinMap as finite_map;
ghost use Rattle.std.specs.FinSet as finite_set;
ghost use Rattle.rga_ops.specs.Operations.{insertion_at, rising};
ghost use Rattle.rga_tree.specs.Nodes.{content_of_nodes, ids_where, is_picked, AreDistinctNodes};

use crate::nodes::{Node, element_of};
use indexmap::IndexMap;
use rga_ops::{Id, Op, OutOfMemory};
use rga_store::Listener;
use std::alloc::Global;

/// Adds the insertions by rising identifier.
pub(crate) fn list_insertions(
    alloc: Global,
    ops: &mut Vec<Op>,
    nodes: &IndexMap<Id, Node>,
) -> Result<(), OutOfMemory>
    requires { AreDistinctNodes nodes.now.entries }
    ensures ok { let content = content_of_nodes nodes.now.entries in
        OnOk result (ops.new.items ≡ ops.old.items
        ++ filter_map (insertion_at content) (finite_map.keys content.inserted)) }
{
    let mut ids = Vec::new(alloc);
    push_ids(&mut ids, nodes, false)?;
    ids.sort_unstable();
    push_insertions(ops, nodes, &ids)
}

/// Adds the deletions by rising identifier.
pub(crate) fn list_deletions(
    alloc: Global,
    ops: &mut Vec<Op>,
    nodes: &IndexMap<Id, Node>,
) -> Result<(), OutOfMemory>
    requires { AreDistinctNodes nodes.now.entries }
    ensures ok { let content = content_of_nodes nodes.now.entries in
        OnOk result (ops.new.items ≡ ops.old.items
        ++ map Op.Delete (rising (finite_set.items content.deleted))) }
{
    let mut ids = Vec::new(alloc);
    push_ids(&mut ids, nodes, true)?;
    ids.sort_unstable();
    push_deletions(ops, &ids)
}

/// The identifiers of the nodes that are marked as deleted, or else of those that have an element.
fn push_ids(ids: &mut Vec<Id>, nodes: &IndexMap<Id, Node>, marked: bool) -> Result<(), OutOfMemory>
    ensures ok { OnOk result
        (ids.new.items ≡ ids.old.items ++ ids_where (is_picked marked) nodes.now.entries) }
{
    for i in 0..nodes.len() {
        if let Some((id, node)) = nodes.get_index(i) {
            if is_picked(node, marked) {
                ids.push(*id)?;
            }
        }
    }
    Ok(())
}

/// Whether a node is marked as deleted, or else whether it has an element.
fn is_picked(node: &Node, marked: bool) -> bool
    ensures { result ≡ is_picked marked node.now }
{
    if marked {
        return node.deleted;
    }
    node.element.is_some()
}

fn push_insertions(
    ops: &mut Vec<Op>,
    nodes: &IndexMap<Id, Node>,
    ids: &[Id],
) -> Result<(), OutOfMemory>
    requires { AreDistinctNodes nodes.now.entries }
    ensures ok { let content = content_of_nodes nodes.now.entries in OnOk result
        (ops.new.items ≡ ops.old.items ++ filter_map (insertion_at content) ids.now) }
{
    for id in ids {
        if let Some(element) = element_of(nodes, *id) {
            let (parent, ch) = element;
            ops.push(Op::Insert {
                id: *id,
                parent,
                ch,
            })?;
        }
    }
    Ok(())
}

fn push_deletions(ops: &mut Vec<Op>, ids: &[Id]) -> Result<(), OutOfMemory>
    ensures ok { OnOk result (ops.new.items ≡ ops.old.items ++ map Op.Delete ids.now) }
{
    for id in ids {
        ops.push(Op::Delete { id: *id })?;
    }
    Ok(())
}

/// Tells the operations of a list.
pub(crate) fn tell_each<L: Listener>(ops: &[Op], listener: &mut L) -> Result<(), OutOfMemory>
    ensures ok { OnOk result (L.hears listener.old ops.now listener.new) }
{
    for op in ops {
        listener.hear(op)?;
    }
    Ok(())
}
