//! What stands for elements that were restored.
ghost use Rattle.std.specs.Prelude.{◌≡◌, ◌<◌, ◌≤◌, ◌+◌, ◌++◌, [], ◌∷◌, None, is_some, map, length, IfOk, IfErr};
ghost use Rattle.std.specs.List.{list_any};
ghost use Rattle.indexmap.specs.IndexMap.{get, spare};
ghost use Rattle.rga_ops.specs.Identifier.{is_id};
ghost use Rattle.rga_doc.specs.UndoGroup.{inserted_elements};
ghost use Rattle.mg_buffer.specs.Groups.{all_substituted, substituted};
ghost use Rattle.mg_buffer.specs.Restored.{AreFirst, AreRising, IsFirst, IsShortened, latest, restored_by};

use crate::change::Change;
use indexmap::IndexMap;
use rga_ops::{Id, Op, OutOfMemory};
use std::alloc::Global;

/// What stands for an element in the end.
fn follow(restored: &IndexMap<Id, Id>, id: Id) -> Id
    requires { AreRising restored.now.entries }
    ensures { result ≡ latest restored.now.entries id }
{
    let mut last = id;
    while let Some(next) = restored.get(&last).copied() {
        last = next;
    }
    last
}

/// Notes what stands for each element in the end, so that it is found at once. Takes no memory.
pub(crate) fn shorten_all(restored: &mut IndexMap<Id, Id>, deleted: &[(Id, char)])
    requires { AreRising restored.old.entries }
    ensures { IsShortened restored.old.entries restored.new.entries }
{
    for (id, _) in deleted {
        shorten(restored, *id);
    }
}

/// The same for one element.
fn shorten(restored: &mut IndexMap<Id, Id>, id: Id)
    requires { AreRising restored.old.entries }
    ensures { IsShortened restored.old.entries restored.new.entries }
{
    if !restored.contains_key(&id) {
        return;
    }
    let last = follow(restored, id);
    if restored.insert(id, last).is_err() {
        unreachable!();
    }
}

/// What stands for each element in the end. `Memory` alone.
fn follow_all(
    alloc: Global,
    restored: &IndexMap<Id, Id>,
    ids: &[Id],
) -> Result<Vec<Id>, OutOfMemory>
    requires { AreRising restored.now.entries }
    ensures ok { IfOk result (λ last. last.items ≡ map (latest restored.now.entries) ids.now) }
{
    let mut last = Vec::with_capacity(alloc, ids.len())?;
    for id in ids {
        last.push_reserved(follow(restored, *id));
    }
    Ok(last)
}

/// The same for elements with their characters. `Memory` alone.
fn follow_deleted(
    alloc: Global,
    restored: &IndexMap<Id, Id>,
    deleted: &[(Id, char)],
) -> Result<Vec<(Id, char)>, OutOfMemory>
    requires { AreRising restored.now.entries }
    ensures ok { IfOk result
        (λ last. last.items ≡ map (λ b. (latest restored.now.entries b.0, b.1)) deleted.now) }
{
    let mut last = Vec::with_capacity(alloc, deleted.len())?;
    for (id, ch) in deleted {
        last.push_reserved((follow(restored, *id), *ch));
    }
    Ok(last)
}

/// A group with what stands for its elements. `Memory` alone.
pub(crate) fn follow_change(
    alloc: Global,
    restored: &IndexMap<Id, Id>,
    group: &Change,
) -> Result<Change, OutOfMemory>
    requires { AreRising restored.now.entries }
    ensures ok { IfOk result
        (λ change. change ≡ substituted (latest restored.now.entries) group.now) }
{
    Ok(Change {
        inserted: follow_all(alloc, restored, &group.inserted)?,
        deleted: follow_deleted(alloc, restored, &group.deleted)?,
    })
}

/// The same for each group. `Memory` alone.
pub(crate) fn follow_groups(
    alloc: Global,
    restored: &IndexMap<Id, Id>,
    groups: &[Change],
) -> Result<Vec<Change>, OutOfMemory>
    requires { AreRising restored.now.entries }
    ensures ok { IfOk result
        (λ last. last.items ≡ all_substituted (latest restored.now.entries) groups.now) }
{
    let mut last = Vec::with_capacity(alloc, groups.len())?;
    for group in groups {
        last.push_reserved(follow_change(alloc, restored, group)?);
    }
    Ok(last)
}

/// Whether some element was restored already.
pub(crate) fn is_any_restored(restored: &IndexMap<Id, Id>, deleted: &[(Id, char)]) -> bool
    ensures { result ≡ list_any (λ b. is_some (get is_id restored.now b.0)) deleted.now }
{
    deleted.iter().any(|b| restored.contains_key(&b.0))
}

/// Notes what operations restore, by each in turn. There is room.
pub(crate) fn restore_all(restored: &mut IndexMap<Id, Id>, ops: &[Op])
    requires first { AreFirst restored.old.entries ops.now }
    requires room { length (inserted_elements ops.now) ≤ spare restored.old }
    ensures { restored.new.entries ≡ restored.old.entries ++ restored_by ops.now }
{
    for op in ops {
        restore(restored, op);
    }
}

/// Notes what an operation restores, if it does. There is room.
#[tactic(auto, using(crate::proofs::RestoredLaws::deletion_restores_nothing))]
fn restore(restored: &mut IndexMap<Id, Id>, op: &Op)
    requires first { IsFirst restored.old.entries op.now }
    requires room { length (inserted_elements (op.now ∷ [])) ≤ spare restored.old }
    ensures entries { restored.new.entries ≡ restored.old.entries ++ restored_by (op.now ∷ []) }
    ensures room { spare restored.old
        ≤ spare restored.new + length (inserted_elements (op.now ∷ [])) }
{
    match op {
        Op::Insert { id, parent, .. } => {
            if restored.insert(*parent, *id).is_err() {
                unreachable!();
            }
        }
        Op::Delete { .. } => {}
    }
}
