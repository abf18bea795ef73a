//! An operation that is new, taken into the records, the sequence and what waits.
ghost use Rattle.std.specs.Prelude.{◌≡◌, ◌≢◌, Some, is_some, Ok, Err, IfErr, OnOk, OnErr, true, false};
ghost use Rattle.std.specs.FinMap as finite_map;
ghost use Rattle.std.specs.FinSet as finite_set;
ghost use Rattle.std.specs.BTreeSet.{contains};
ghost use Rattle.rga_ops.specs.Prelude.{Memory};
ghost use Rattle.rga_ops.specs.Identifier.{Identifier, id_cmp};
ghost use Rattle.rga_ops.specs.Content.{Content, element, join, single};
ghost use Rattle.rga_ops.specs.Answer.{answer};
ghost use Rattle.rga_ops.specs.RootPath.{is_complete};
ghost use Rattle.rga_store.specs.Without.{without_insertion};
ghost use Rattle.rga_store.specs.Growth.{NeedsRoom};
ghost use Rattle.rga_flat.specs.Based.{IsBased};
ghost use Rattle.rga_flat.specs.Flat.{is_above, AreMarked, IsFlat};
ghost use Rattle.rga_flat.specs.Waiting.{StayListed, under, has_list, is_listed, SettlesLists, AreInserted};

use crate::placing::{is_next, next, place_all, put_behind};
use crate::waiting::{add_waiting, has_list, is_listed};
use rga_ops::{Id, Op, OutOfMemory, Refusal, Taken, answer_to};
use rga_records::Records;
use rga_sequence::{Entry, Near, Sequence};
use std::alloc::Global;
use std::collections::{BTreeMap, BTreeSet};

/// Takes an operation. `Memory` alone beside what is answered to it, and then no operation is taken.
pub(crate) fn take(
    alloc: Global,
    records: &mut Records,
    sequence: &mut Sequence,
    waiting: &mut BTreeMap<Id, Vec<Id>>,
    done: &mut BTreeSet<Id>,
    op: &Op,
) -> Result<Taken, Refusal>
    requires inserted { (p : Identifier) → contains id_cmp done.old p ≡ true →
        finite_map.contains_key records.old.content.inserted p ≡ true }
    requires flat { IsFlat records.old.content sequence.old
        (under waiting.old) (is_listed waiting.old done.old) }
    ensures exact { result ≢ Err Memory →
        result ≡ answer records.old.limit records.old.content op.now }
    ensures memory { result ≡ Err Memory →
        answer records.old.limit records.old.content op.now ≡ Ok Taken.New }
    ensures growth { result ≡ Err Memory → NeedsRoom records.old.content op.now }
    ensures new { result ≡ Ok Taken.New →
        records.new.content ≡ join records.old.content (single op.now) }
    ensures same { result ≢ Ok Taken.New → records.new.content ≡ records.old.content }
    ensures flat { OnOk result (IsFlat records.new.content sequence.new
        (under waiting.new) (is_listed waiting.new done.new)) }
    ensures back { OnErr result (IsFlat records.new.content sequence.new
        (under waiting.new) (is_listed waiting.new done.old)) }
    ensures settles { SettlesLists waiting.old done.old done.new }
    ensures inserted { OnOk result (AreInserted records.new.content done.old done.new) }
    ensures lists { StayListed waiting.old waiting.new }
    ensures based { (base : Content) →
        IsBased base records.old.content (under waiting.old) (has_list waiting.old) →
        IsBased base records.new.content (under waiting.new) (has_list waiting.new) }
    ensures limit { records.new.limit ≡ records.old.limit }
{
    let found = records.find(op.id());
    let deleted = found.deleted;
    let answer = answer_to(*op, found);
    if answer != Ok(Taken::New) {
        return answer;
    }
    match op {
        Op::Insert { id, parent, ch } => {
            let entry = Entry {
                id: *id,
                ch: *ch,
                deleted,
            };
            insert(alloc, records, sequence, waiting, done, *parent, &entry)?;
            Ok(Taken::New)
        }
        Op::Delete { id } => {
            delete(records, sequence, waiting, done, *id)?;
            Ok(Taken::New)
        }
    }
}

/// Takes an insertion that is new. `Memory` alone, which changes nothing.
fn insert(
    alloc: Global,
    records: &mut Records,
    sequence: &mut Sequence,
    waiting: &mut BTreeMap<Id, Vec<Id>>,
    done: &mut BTreeSet<Id>,
    parent: Id,
    entry: &Entry,
) -> Result<(), OutOfMemory>
    requires new { let op = Op.Insert entry.now.id parent entry.now.ch in
        answer records.old.limit records.old.content op ≡ Ok Taken.New }
    requires deleted { entry.now.deleted
        ≡ finite_set.contains records.old.content.deleted entry.now.id }
    requires fresh { contains id_cmp done.old entry.now.id ≡ false }
    requires flat { IsFlat records.old.content sequence.old
        (under waiting.old) (is_listed waiting.old done.old) }
    ensures ok { OnOk result (records.new.content
        ≡ join records.old.content (single (Op.Insert entry.now.id parent entry.now.ch))) }
    ensures same { OnErr result (records.new.content ≡ records.old.content) }
    ensures flat { OnOk result (IsFlat records.new.content sequence.new
        (under waiting.new) (is_listed waiting.new done.new)) }
    ensures back { OnErr result (IsFlat records.new.content sequence.new
        (under waiting.new) (is_listed waiting.new done.old)) }
    ensures settles { SettlesLists waiting.old done.old done.new }
    ensures inserted { OnOk result (AreInserted records.new.content done.old done.new) }
    ensures lists { StayListed waiting.old waiting.new }
    ensures based { (base : Content) →
        IsBased base records.old.content (under waiting.old) (has_list waiting.old) →
        IsBased base records.new.content (under waiting.new) (has_list waiting.new) }
    ensures limit { records.new.limit ≡ records.old.limit }
{
    let clock = records.clock();
    let found = near_above(records, waiting, done, parent);
    let above = found.is_some();
    let near = found.unwrap_or(Near::FRONT);
    records.insert(entry.id, parent, entry.ch, next(near), entry.deleted)?;
    let settled = settle(
        alloc, records, sequence, waiting, done, parent, near, above, entry,
    );
    if let Err(refusal) = settled {
        let op = Op::Insert {
            id: entry.id,
            parent,
            ch: entry.ch,
        };
        records.remove(&op, clock);
        return Err(refusal);
    }
    Ok(())
}

/// The sequence and what waits follow a new insertion: its element is placed, and those that waited for
/// it, or it waits itself. `Memory` alone, and then they are as they were.
fn settle(
    alloc: Global,
    records: &mut Records,
    sequence: &mut Sequence,
    waiting: &mut BTreeMap<Id, Vec<Id>>,
    done: &mut BTreeSet<Id>,
    parent: Id,
    near: Near,
    above: bool,
    entry: &Entry,
) -> Result<(), OutOfMemory>
    requires element { finite_map.get records.old.content.inserted entry.now.id
        ≡ Some (element parent entry.now.ch) }
    requires deleted { entry.now.deleted
        ≡ finite_set.contains records.old.content.deleted entry.now.id }
    requires above { above ≡ is_above (without_insertion entry.now.id records.old.content) parent }
    requires fresh { contains id_cmp done.old entry.now.id ≡ false }
    requires flat { IsFlat (without_insertion entry.now.id records.old.content) sequence.old
        (under waiting.old) (is_listed waiting.old done.old) }
    ensures ok { OnOk result (IsFlat records.old.content sequence.new
        (under waiting.new) (is_listed waiting.new done.new)) }
    ensures same { OnErr result (IsFlat (without_insertion entry.now.id records.old.content)
        sequence.new (under waiting.new) (is_listed waiting.new done.old)) }
    ensures settles { SettlesLists waiting.old done.old done.new }
    ensures inserted { AreInserted records.old.content done.old done.new }
    ensures lists { StayListed waiting.old waiting.new }
    ensures based { (base : Content) →
        IsBased base (without_insertion entry.now.id records.old.content)
        (under waiting.old) (has_list waiting.old) → OnOk result
        (IsBased base records.old.content (under waiting.new) (has_list waiting.new)) }
    ensures left { (base : Content) →
        IsBased base (without_insertion entry.now.id records.old.content)
        (under waiting.old) (has_list waiting.old) → OnErr result
        (IsBased base (without_insertion entry.now.id records.old.content)
        (under waiting.new) (has_list waiting.new)) }
    ensures records { records.new ≡ records.old }
{
    let _known = records.known();
    if !above {
        return add_waiting(alloc, waiting, parent, entry.id);
    }
    if has_list(waiting, entry.id) {
        return place_all(alloc, records, sequence, waiting, done, entry.id);
    }
    let own = put_behind(records, sequence, parent, near, entry)?;
    if !is_next(own, near) {
        records.set_near(entry.id, own);
    }
    Ok(())
}

/// Where an identifier that is complete may stand; of the root, anywhere. Takes no memory.
pub(crate) fn near_above(
    records: &Records,
    waiting: &BTreeMap<Id, Vec<Id>>,
    done: &BTreeSet<Id>,
    id: Id,
) -> Option<Near>
    requires { AreMarked records.now.content (is_listed waiting.now done.now) }
    ensures { is_some result ≡ is_above records.now.content id }
{
    if id == Id::ROOT {
        return Some(Near::FRONT);
    }
    near_if_complete(records, waiting, done, id)
}

/// Where an identifier that is complete may stand. Takes no memory.
#[inline(always)]
fn near_if_complete(
    records: &Records,
    waiting: &BTreeMap<Id, Vec<Id>>,
    done: &BTreeSet<Id>,
    id: Id,
) -> Option<Near>
    requires { AreMarked records.now.content (is_listed waiting.now done.now) }
    ensures { is_some result ≡ is_complete records.now.content id }
{
    let near = records.near_if_inserted(id)?;
    if is_listed(waiting, done, id) {
        return None;
    }
    Some(near)
}

/// Takes a deletion that is new. `Memory` alone, which changes nothing; never for an identifier that
/// is inserted.
fn delete(
    records: &mut Records,
    sequence: &mut Sequence,
    waiting: &BTreeMap<Id, Vec<Id>>,
    done: &BTreeSet<Id>,
    id: Id,
) -> Result<(), OutOfMemory>
    requires new { answer records.old.limit records.old.content (Op.Delete id) ≡ Ok Taken.New }
    requires flat { IsFlat records.old.content sequence.old
        (under waiting.now) (is_listed waiting.now done.now) }
    ensures ok { OnOk result (records.new.content
        ≡ join records.old.content (single (Op.Delete id))) }
    ensures same { OnErr result (records.new.content ≡ records.old.content) }
    ensures growth { OnErr result
        (finite_map.contains_key records.old.content.inserted id ≡ false) }
    ensures flat { IsFlat records.new.content sequence.new
        (under waiting.now) (is_listed waiting.now done.now) }
    ensures based { (base : Content) →
        IsBased base records.old.content (under waiting.now) (has_list waiting.now) →
        IsBased base records.new.content (under waiting.now) (has_list waiting.now) }
    ensures limit { records.new.limit ≡ records.old.limit }
{
    let found = near_if_complete(records, waiting, done, id);
    records.delete(id)?;
    match found {
        Some(near) => {
            sequence.mark(id, near, true);
            Ok(())
        }
        None => Ok(()),
    }
}
