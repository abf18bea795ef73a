//! The operations of a list that are new at a store.
ghost use Rattle.std.specs.Prelude.{◌≡◌, [], not, IfOk, IfErr, OnOk};
ghost use Rattle.rga_ops.specs.Prelude.{Content, join, single};
ghost use Rattle.rga_ops.specs.NewOperations.{holds, new_operations};
ghost use Rattle.rga_store.specs.Reached.{Reaches, ReachesElements, ReachesDeletions};

use crate::text_store::TextStore;
use indexmap::{IndexMap, IndexSet};
use rga_ops::{Id, Op, OutOfMemory};
use std::alloc::Global;

/// The operations of a list that are new where a store takes it one by one, in their order: those
/// that neither the store holds nor the operations before it in the list. `Memory` alone.
pub fn new_operations_at<S: TextStore>(
    alloc: Global,
    store: &S,
    ops: &[Op],
) -> Result<Vec<Op>, OutOfMemory>
    ensures ok { IfOk result (λ new. new.items ≡ new_operations (S.content store.now) ops.now) }
{
    let mut inserted = IndexMap::new(alloc);
    let mut deleted = IndexSet::new(alloc);
    let mut picked = Vec::new(alloc);
    pick_new(store, &mut inserted, &mut deleted, ops, &mut picked)?;
    Ok(picked)
}

/// Picks the operations of a list that are new, where nothing was added yet. `Memory` alone.
fn pick_new<S: TextStore>(
    store: &S,
    inserted: &mut IndexMap<Id, (Id, char)>,
    deleted: &mut IndexSet<Id>,
    ops: &[Op],
    picked: &mut Vec<Op>,
) -> Result<(), OutOfMemory>
    requires reached { Reaches (S.content store.now) inserted.old deleted.old (S.content store.now) }
    requires none { picked.old.items ≡ [] }
    ensures ok { OnOk result (picked.new.items ≡ new_operations (S.content store.now) ops.now) }
{
    for op in ops {
        if !is_new(store, inserted, deleted, op)? {
            continue;
        }
        picked.push(*op)?;
    }
    Ok(())
}

/// Whether neither the store has the operation nor what was added. Then it is added, but for an
/// insertion that conflicts. `Memory` alone.
fn is_new<S: TextStore>(
    store: &S,
    inserted: &mut IndexMap<Id, (Id, char)>,
    deleted: &mut IndexSet<Id>,
    op: &Op,
) -> Result<bool, OutOfMemory>
    ensures new { IfOk result (λ new. (d : Content) →
        Reaches (S.content store.now) inserted.old deleted.old d → new ≡ not (holds d op.now)) }
    ensures added { OnOk result ((d : Content) →
        Reaches (S.content store.now) inserted.old deleted.old d →
        Reaches (S.content store.now) inserted.new deleted.new (join d (single op.now))) }
{
    match op {
        Op::Insert { id, parent, ch } => insertion_is_new(store, inserted, *id, (*parent, *ch)),
        Op::Delete { id } => deletion_is_new(store, deleted, *id),
    }
}

/// Whether neither the store has this insertion nor what was added. Where they have none of its
/// identifier, it is added. `Memory` alone.
fn insertion_is_new<S: TextStore>(
    store: &S,
    added: &mut IndexMap<Id, (Id, char)>,
    id: Id,
    element: (Id, char),
) -> Result<bool, OutOfMemory>
    ensures new { IfOk result (λ new. (d : Content) →
        ReachesElements (S.content store.now) added.old d →
        new ≡ not (holds d (Op.Insert id element.0 element.1))) }
    ensures added { OnOk result ((d : Content) →
        ReachesElements (S.content store.now) added.old d →
        ReachesElements (S.content store.now) added.new
        (join d (single (Op.Insert id element.0 element.1)))) }
{
    match store.get(id).or(added.get(&id).copied()) {
        Some(first) => Ok(first != element),
        None => {
            let _none = added.insert(id, element)?;
            Ok(true)
        }
    }
}

/// Whether neither the store has this deletion nor what was added. Then it is added. `Memory`
/// alone.
fn deletion_is_new<S: TextStore>(
    store: &S,
    added: &mut IndexSet<Id>,
    id: Id,
) -> Result<bool, OutOfMemory>
    ensures new { IfOk result (λ new. (d : Content) →
        ReachesDeletions (S.content store.now) added.old d → new ≡ not (holds d (Op.Delete id))) }
    ensures added { OnOk result ((d : Content) →
        ReachesDeletions (S.content store.now) added.old d →
        ReachesDeletions (S.content store.now) added.new (join d (single (Op.Delete id)))) }
{
    if store.is_deleted(id) {
        return Ok(false);
    }
    let is_new = added.insert(id)?;
    Ok(is_new)
}
