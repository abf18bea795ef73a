//! Elements that wait, in lists under what they wait for.
ghost use Rattle.std.specs.Prelude.{◌≡◌, ◌++◌, ◌∷◌, [], if◌then◌else◌, not, ◌&&◌, true, false, OnOk, OnErr, IfErr};
ghost use Rattle.std.specs.Ordering.{eq_by_cmp};
ghost use Rattle.std.specs.FinMap as finite_map;
ghost use Rattle.rga_ops.specs.Identifier.{Identifier, id_cmp};
ghost use Rattle.rga_ops.specs.Content.{Content};
ghost use Rattle.rga_ops.specs.Placement.{without};
ghost use Rattle.std.specs.BTreeSet.{contains};
ghost use Rattle.rga_flat.specs.Waiting.{StayListed, under, has_list, is_listed, KeepsUnder, KeepsLists, SettlesLists, AreInserted};

use rga_ops::{Id, OutOfMemory};
use std::alloc::Global;
use std::collections::{BTreeMap, BTreeSet};

/// The children in the list under an identifier go onto a stack.
pub(crate) fn push_waiting(
    work: &mut Vec<Id>,
    waiting: &BTreeMap<Id, Vec<Id>>,
    parent: Id,
) -> Result<(), OutOfMemory>
    ensures ok { OnOk result (work.new.items ≡ work.old.items ++ under waiting.now parent) }
{
    match waiting.get(&parent) {
        Some(list) => {
            work.extend_from_slice(list.as_slice())?;
            Ok(())
        }
        None => Ok(()),
    }
}

/// Whether an identifier has a list that is not done with.
pub(crate) fn is_listed(waiting: &BTreeMap<Id, Vec<Id>>, done: &BTreeSet<Id>, id: Id) -> bool
    ensures { result ≡ is_listed waiting.now done.now id }
{
    waiting.contains_key(&id) && !done.contains(&id)
}

/// Whether an identifier has a list.
pub(crate) fn has_list(waiting: &BTreeMap<Id, Vec<Id>>, id: Id) -> bool
    ensures { result ≡ has_list waiting.now id }
{
    waiting.contains_key(&id)
}

/// An identifier has a list from now on.
fn ensure_list(
    alloc: Global,
    waiting: &mut BTreeMap<Id, Vec<Id>>,
    id: Id,
) -> Result<(), OutOfMemory>
    ensures there { OnOk result (has_list waiting.new id ≡ true) }
    ensures under { KeepsUnder waiting.old waiting.new }
    ensures lists { KeepsLists waiting.old waiting.new id }
{
    let _list = waiting.entry(id)?.or_insert(Vec::new(alloc));
    Ok(())
}

/// A child goes behind those in the list under its parent.
fn push_under(
    alloc: Global,
    waiting: &mut BTreeMap<Id, Vec<Id>>,
    parent: Id,
    id: Id,
) -> Result<(), OutOfMemory>
    ensures ok { OnOk result ((p : Identifier) → under waiting.new p
        ≡ (if eq_by_cmp id_cmp parent p then under waiting.old p ++ id ∷ [] else under waiting.old p)) }
    ensures same { OnErr result (KeepsUnder waiting.old waiting.new) }
    ensures lists { KeepsLists waiting.old waiting.new parent }
{
    let list = waiting.entry(parent)?.or_insert(Vec::new(alloc));
    list.push(id)?;
    Ok(())
}

/// An element waits for its parent. It has a list itself, and stands in that under its parent.
pub(crate) fn add_waiting(
    alloc: Global,
    waiting: &mut BTreeMap<Id, Vec<Id>>,
    parent: Id,
    id: Id,
) -> Result<(), OutOfMemory>
    ensures there { OnOk result (has_list waiting.new id ≡ true) }
    ensures ok { OnOk result ((p : Identifier) → under waiting.new p
        ≡ (if eq_by_cmp id_cmp parent p then under waiting.old p ++ id ∷ [] else under waiting.old p)) }
    ensures same { OnErr result (KeepsUnder waiting.old waiting.new) }
    ensures stays { StayListed waiting.old waiting.new }
    ensures others { (p : Identifier) → eq_by_cmp id_cmp id p ≡ false →
        eq_by_cmp id_cmp parent p ≡ false → has_list waiting.new p ≡ has_list waiting.old p }
{
    ensure_list(alloc, waiting, id)?;
    push_under(alloc, waiting, parent, id)
}

/// The list of an identifier goes.
fn clear_list(waiting: &mut BTreeMap<Id, Vec<Id>>, id: Id)
    ensures under { (p : Identifier) → eq_by_cmp id_cmp id p ≡ false →
        under waiting.new p ≡ under waiting.old p }
    ensures lists { (p : Identifier) → has_list waiting.new p
        ≡ (not (eq_by_cmp id_cmp id p) && has_list waiting.old p) }
{
    let _list = waiting.remove(&id);
}

/// The list of an identifier, if there is one, is done with.
pub(crate) fn settle_list(
    waiting: &BTreeMap<Id, Vec<Id>>,
    done: &mut BTreeSet<Id>,
    id: Id,
) -> Result<(), OutOfMemory>
    ensures gone { OnOk result (is_listed waiting.now done.new id ≡ false) }
    ensures others { (p : Identifier) → eq_by_cmp id_cmp id p ≡ false →
        is_listed waiting.now done.new p ≡ is_listed waiting.now done.old p }
    ensures settles { SettlesLists waiting.now done.old done.new }
    ensures inserted { (c : Content) → finite_map.contains_key c.inserted id ≡ true →
        AreInserted c done.old done.new }
{
    if !waiting.contains_key(&id) {
        return Ok(());
    }
    done.insert(id)?;
    Ok(())
}

/// The lists that are done with go. Takes no memory.
pub(crate) fn clear_lists(waiting: &mut BTreeMap<Id, Vec<Id>>, done: &BTreeSet<Id>)
    ensures under { (p : Identifier) → contains id_cmp done.now p ≡ false →
        under waiting.new p ≡ under waiting.old p }
    ensures lists { (p : Identifier) → has_list waiting.new p
        ≡ is_listed waiting.old done.now p }
{
    for id in done {
        clear_list(waiting, *id);
    }
}

/// A child leaves the list under its parent, if it is there. Takes no memory.
pub(crate) fn remove_child(waiting: &mut BTreeMap<Id, Vec<Id>>, parent: Id, id: Id)
    ensures under { (p : Identifier) → under waiting.new p ≡ (if eq_by_cmp id_cmp parent p
        then without id (under waiting.old p) else under waiting.old p) }
    ensures lists { (p : Identifier) → has_list waiting.new p ≡ has_list waiting.old p }
{
    if let Some(list) = waiting.get_mut(&parent) {
        list.retain_mut(|child| *child != id);
    }
}
