//! A new element and those that waited for it, placed in the sequence. What is still to be placed is
//! on a stack, its top next; an element that is placed leaves its children there.
ghost use Rattle.std.specs.Prelude.{◌≡◌, ◌||◌, ◌++◌, ◌∷◌, [], Some, true, false, IfErr, OnOk, OnErr};
ghost use Rattle.std.specs.FinMap as finite_map;
ghost use Rattle.std.specs.Ordering.{eq_by_cmp};
ghost use Rattle.rga_ops.specs.Identifier.{Identifier, id_cmp, is_root};
ghost use Rattle.rga_ops.specs.Content.{Element};
ghost use Rattle.rga_sequence.specs.Entries.{has, put_entry};
ghost use Rattle.rga_flat.specs.Flat.{entry_for};
ghost use Rattle.rga_flat.specs.Placing.{IsPlacing, taken_out};
ghost use Rattle.rga_flat.specs.Waiting.{under, is_listed, SettlesLists, AreInserted};

use crate::waiting::{push_waiting, settle_list};
use rga_ops::{Id, OutOfMemory};
use rga_records::Records;
use rga_sequence::{Entry, Near, Sequence};
use std::alloc::Global;
use std::collections::{BTreeMap, BTreeSet};

/// Places a new element behind its parent, and then those that waited for it, each behind its own;
/// their lists are done with. `Memory` alone; then those that were placed are taken out again, so
/// the sequence is as it was.
pub(crate) fn place_all(
    alloc: Global,
    records: &mut Records,
    sequence: &mut Sequence,
    waiting: &BTreeMap<Id, Vec<Id>>,
    done: &mut BTreeSet<Id>,
    id: Id,
) -> Result<(), OutOfMemory>
    requires { IsPlacing records.old.content (under waiting.now) (is_listed waiting.now done.old)
        sequence.old (id ∷ []) }
    ensures ok { OnOk result (IsPlacing records.old.content (under waiting.now)
        (is_listed waiting.now done.new) sequence.new []) }
    ensures same { OnErr result (sequence.new ≡ sequence.old) }
    ensures settles { SettlesLists waiting.now done.old done.new }
    ensures inserted { AreInserted records.old.content done.old done.new }
    ensures records { records.new ≡ records.old }
{
    let mut placed = Vec::new(alloc);
    let mut work = Vec::new(alloc);
    work.push(id)?;
    while let Some(top) = work.pop() {
        let noted = place_noted(
            records,
            sequence,
            waiting,
            done,
            &mut work,
            &mut placed,
            top,
        );
        if let Err(refusal) = noted {
            go_back(records, sequence, placed);
            return Err(refusal);
        }
    }
    Ok(())
}

/// Places an element behind its parent, puts its children onto the stack, and notes it.
fn place_noted(
    records: &mut Records,
    sequence: &mut Sequence,
    waiting: &BTreeMap<Id, Vec<Id>>,
    done: &mut BTreeSet<Id>,
    work: &mut Vec<Id>,
    placed: &mut Vec<Id>,
    id: Id,
) -> Result<(), OutOfMemory>
    requires element { (x : Element) × (finite_map.get records.old.content.inserted id ≡ Some x) }
    requires parent { (x : Element) → finite_map.get records.old.content.inserted id ≡ Some x →
        (is_root x.parent || has x.parent sequence.old) ≡ true }
    requires absent { has id sequence.old ≡ false }
    ensures put { OnOk result ((x : Element) →
        finite_map.get records.old.content.inserted id ≡ Some x →
        sequence.new ≡ put_entry x.parent (entry_for records.old.content id x) sequence.old) }
    ensures work { OnOk result (work.new.items ≡ work.old.items ++ under waiting.now id) }
    ensures gone { OnOk result (is_listed waiting.now done.new id ≡ false) }
    ensures others { (p : Identifier) → eq_by_cmp id_cmp id p ≡ false →
        is_listed waiting.now done.new p ≡ is_listed waiting.now done.old p }
    ensures settles { SettlesLists waiting.now done.old done.new }
    ensures inserted { AreInserted records.old.content done.old done.new }
    ensures noted { OnOk result (placed.new.items ≡ placed.old.items ++ id ∷ []) }
    ensures same { OnErr result (sequence.new ≡ sequence.old) }
    ensures same_notes { OnErr result (placed.new.items ≡ placed.old.items) }
    ensures records { records.new ≡ records.old }
{
    push_waiting(work, waiting, id)?;
    settle_list(waiting, done, id)?;
    placed.reserve(1)?;
    let deleted = records.is_deleted(id);
    match records.element(id) {
        Some((parent, ch)) => {
            let entry = Entry { id, ch, deleted };
            let parents = records.near(parent);
            let own = put_behind(records, sequence, parent, parents, &entry)?;
            records.set_near(entry.id, own);
            let _room = placed.push(entry.id);
            Ok(())
        }
        None => unreachable!(),
    }
}

/// Puts an entry behind its parent, which may stand there, and answers where it stands itself. What
/// moves to a block of another name is told of it.
pub(crate) fn put_behind(
    records: &mut Records,
    sequence: &mut Sequence,
    parent: Id,
    near: Near,
    entry: &Entry,
) -> Result<Near, OutOfMemory>
    requires parent { (is_root parent || has parent sequence.old) ≡ true }
    requires absent { has entry.now.id sequence.old ≡ false }
    ensures put { OnOk result (sequence.new ≡ put_entry parent entry.now sequence.old) }
    ensures same { OnErr result (sequence.new ≡ sequence.old) }
    ensures records { records.new ≡ records.old }
{
    let put = sequence.put(parent, near, *entry)?;
    if let Some(block) = put.new_block {
        note_block(records, sequence, block);
    }
    Ok(put.near)
}

/// The records of the entries of a block are told where these stand.
pub(crate) fn note_block(records: &mut Records, sequence: &Sequence, block: usize)
    ensures { records.new ≡ records.old }
{
    if let Some(entries) = sequence.block(block) {
        note_entries(records, entries, Near { block, index: 0 });
    }
}

/// The records of some entries are told where these stand, the first of them there.
pub(crate) fn note_entries(records: &mut Records, entries: &[Entry], first: Near)
    ensures { records.new ≡ records.old }
{
    let mut near = first;
    for entry in entries {
        records.set_near(entry.id, near);
        near = next(near);
    }
}

/// Where an entry may stand that is put behind another.
pub(crate) fn next(near: Near) -> Near {
    Near {
        block: near.block,
        index: near.index.saturating_add(1),
    }
}

/// Whether that is directly behind another.
pub(crate) fn is_next(near: Near, other: Near) -> bool {
    if near.block != other.block {
        return false;
    }
    near.index == other.index.saturating_add(1)
}

/// Takes out what was placed, the last first. Takes no memory.
fn go_back(records: &Records, sequence: &mut Sequence, mut placed: Vec<Id>)
    ensures { sequence.new ≡ taken_out placed.items sequence.old }
{
    while let Some(last) = placed.pop() {
        sequence.take_out(last, records.near(last));
    }
}
