//! Insertions of a list of which each is the parent of the next, taken some at once: their entries
//! go into the sequence in one piece.
ghost use Rattle.std.specs.Prelude.{◌≡◌, ◌≤◌, ◌++◌, ◌∷◌, [], Ok, true, false, length, take, IfSome, IfOk, OnOk, OnErr, IfErr, ◌+◌, ◌<◌, min, vec_len, vec_capacity};
ghost use Rattle.std.specs.FinSet as finite_set;
ghost use Rattle.rga_ops.specs.Content.{join, single, clock_of};
ghost use Rattle.rga_ops.specs.Answer.{answer};
ghost use Rattle.rga_sequence.specs.Entries.{put_chain, IsChain};
ghost use Rattle.rga_store.specs.Back.{CanTakeBack};
ghost use Rattle.rga_flat.specs.Chains.{ChainShows, IsGathered};
ghost use Rattle.rga_flat.specs.Flat.{is_above, IsFlat};
ghost use Rattle.rga_flat.specs.Waiting.{under, has_list, is_listed};

use crate::newer::{gather_newer, is_newer};
use crate::placing::{next, note_block, note_entries};
use crate::taking::near_above;
use crate::waiting::has_list;
use rga_ops::{Id, Op, OutOfMemory, Taken, answer_to};
use rga_records::Records;
use rga_sequence::{Entry, MOST_AT_ONCE, Near, Sequence};
use rga_store::{Step, note};
use std::alloc::Global;
use std::collections::{BTreeMap, BTreeSet};

/// Takes the insertions at the front of a list of which each is the parent of the next, as far as
/// they are new, wait for nothing and nothing waits for them, and answers how many: none where it
/// does not begin with two such, and not more than may be put at once. `Memory` alone, which changes
/// nothing.
pub(crate) fn take_chain<'a>(
    alloc: Global,
    records: &mut Records,
    sequence: &mut Sequence,
    waiting: &BTreeMap<Id, Vec<Id>>,
    done: &BTreeSet<Id>,
    ops: &'a [Op],
    steps: &mut Vec<Step<'a>>,
) -> Result<usize, OutOfMemory>
    requires back { CanTakeBack steps.old.items records.old.content }
    requires flat { IsFlat records.old.content sequence.old
        (under waiting.now) (is_listed waiting.now done.now) }
    ensures gathered { IfOk result (λ count. IsGathered records.old.limit records.old.content
        records.new.content (take count ops.now) steps.old.items steps.new.items) }
    ensures within { IfOk result (λ count. count ≤ length ops.now) }
    ensures flat { IsFlat records.new.content sequence.new
        (under waiting.now) (is_listed waiting.now done.now) }
    ensures same { OnErr result (records.new.content ≡ records.old.content) }
    ensures same_steps { OnErr result (steps.new.items ≡ steps.old.items) }
    ensures limit { records.new.limit ≡ records.old.limit }
{
    let Some(parent) = parent_of_chain(ops) else {
        return Ok(0);
    };
    let Some(found) = near_above(records, waiting, done, parent) else {
        return Ok(0);
    };
    let near = sequence.near(parent, found);
    let before = steps.as_slice().len();
    let most = MOST_AT_ONCE.min(ops.len());
    let mut entries = Vec::with_capacity(alloc, most)?;
    steps.reserve(most)?;
    let gathered = gather(
        alloc,
        records,
        waiting,
        parent,
        near,
        ops,
        steps,
        &mut entries,
    );
    if let Err(refusal) = gathered {
        records.remove_steps(steps, before);
        return Err(refusal);
    }
    if let Err(refusal) = put_chain(records, sequence, parent, near, entries.as_slice()) {
        records.remove_steps(steps, before);
        return Err(refusal);
    }
    Ok(entries.as_slice().len())
}

/// The parent of an insertion.
fn parent_of(op: &Op) -> Option<Id> {
    match op {
        Op::Insert { parent, .. } => Some(*parent),
        Op::Delete { .. } => None,
    }
}

/// The parent of the first operation of a list, where that is an insertion and the parent of the
/// second.
fn parent_of_chain(ops: &[Op]) -> Option<Id> {
    if ops.len() < 2 {
        return None;
    }
    if parent_of(&ops[1]) != Some(ops[0].id()) {
        return None;
    }
    parent_of(&ops[0])
}

/// Takes insertions into the records, the first behind a parent and each other behind the one before
/// it, and notes them, for which there is room: at once if the first is newer than all that is known,
/// or else one after another. `Memory` alone; those before stay.
fn gather<'a>(
    alloc: Global,
    records: &mut Records,
    waiting: &BTreeMap<Id, Vec<Id>>,
    parent: Id,
    near: Near,
    ops: &'a [Op],
    steps: &mut Vec<Step<'a>>,
    entries: &mut Vec<Entry>,
) -> Result<(), OutOfMemory>
    requires back { CanTakeBack steps.old.items records.old.content }
    requires above { is_above records.old.content parent ≡ true }
    requires none { entries.old.items ≡ [] }
    requires room { min MOST_AT_ONCE (length ops.now) ≤ vec_capacity entries.old }
    requires steps_room { vec_len steps.old + min MOST_AT_ONCE (length ops.now)
        ≤ vec_capacity steps.old }
    ensures gathered { IsGathered records.old.limit records.old.content records.new.content
        (take (length entries.new.items) ops.now) steps.old.items steps.new.items }
    ensures shows { ChainShows records.old.content records.new.content parent entries.new.items
        waiting.now }
    ensures few { length entries.new.items ≤ MOST_AT_ONCE }
    ensures within { length entries.new.items ≤ length ops.now }
    ensures limit { records.new.limit ≡ records.old.limit }
{
    if is_newer(ops, records.clock()) {
        return gather_newer(alloc, records, waiting, parent, near, ops, steps, entries);
    }
    let mut last = parent;
    let mut own = near;
    for op in ops {
        if entries.as_slice().len() >= MOST_AT_ONCE {
            return Ok(());
        }
        let Some(entry) = next_entry(records, waiting, last, op) else {
            return Ok(());
        };
        let _before = records.known();
        own = next(own);
        add(records, last, own, op, &entry, steps, entries)?;
        let _now = records.known();
        last = entry.id;
    }
    Ok(())
}

/// The entry of an insertion behind a parent, if it is new and nothing waits for it. Takes no memory.
#[inline(always)]
fn next_entry(
    records: &mut Records,
    waiting: &BTreeMap<Id, Vec<Id>>,
    parent: Id,
    op: &Op,
) -> Option<Entry>
    ensures op { IfSome result (λ e. op.now ≡ Op.Insert e.id parent e.ch) }
    ensures new { IfSome result (λ e.
        answer records.old.limit records.old.content op.now ≡ Ok Taken.New) }
    ensures deleted { IfSome result (λ e.
        e.deleted ≡ finite_set.contains records.old.content.deleted e.id) }
    ensures unlisted { IfSome result (λ e. has_list waiting.now e.id ≡ false) }
    ensures same { records.new ≡ records.old }
{
    let Op::Insert {
        id,
        parent: above,
        ch,
    } = *op
    else {
        return None;
    };
    if above != parent {
        return None;
    }
    let found = records.find(id);
    let deleted = found.deleted;
    if answer_to(*op, found) != Ok(Taken::New) {
        return None;
    }
    if has_list(waiting, id) {
        return None;
    }
    Some(Entry { id, ch, deleted })
}

/// Takes an insertion that is new into the records, and notes it, for which there is room. `Memory`
/// alone, which changes nothing.
#[inline(always)]
fn add<'a>(
    records: &mut Records,
    parent: Id,
    near: Near,
    op: &'a Op,
    entry: &Entry,
    steps: &mut Vec<Step<'a>>,
    entries: &mut Vec<Entry>,
) -> Result<(), OutOfMemory>
    requires op { op.now ≡ Op.Insert entry.now.id parent entry.now.ch }
    requires new { answer records.old.limit records.old.content
        (Op.Insert entry.now.id parent entry.now.ch) ≡ Ok Taken.New }
    requires deleted { entry.now.deleted
        ≡ finite_set.contains records.old.content.deleted entry.now.id }
    requires room { vec_len entries.old < vec_capacity entries.old }
    requires steps_room { vec_len steps.old < vec_capacity steps.old }
    ensures ok { OnOk result (records.new.content
        ≡ join records.old.content (single (Op.Insert entry.now.id parent entry.now.ch))) }
    ensures steps { OnOk result (steps.new.items ≡ steps.old.items ++ record {
      op = op.entry;
      clock = clock_of records.old.content;
    } ∷ []) }
    ensures entries { OnOk result (entries.new.items ≡ entries.old.items ++ entry.now ∷ []) }
    ensures same { OnErr result (records.new.content ≡ records.old.content) }
    ensures same_steps { OnErr result (steps.new.items ≡ steps.old.items) }
    ensures same_entries { OnErr result (entries.new.items ≡ entries.old.items) }
    ensures capacity { vec_capacity entries.new ≡ vec_capacity entries.old }
    ensures steps_capacity { vec_capacity steps.new ≡ vec_capacity steps.old }
    ensures limit { records.new.limit ≡ records.old.limit }
{
    let clock = records.clock();
    records.insert(entry.id, parent, entry.ch, near, entry.deleted)?;
    note(steps, op, clock);
    entries.push_reserved(*entry);
    Ok(())
}

/// Puts the entries of a chain, and tells their records where they stand. `near` is where the parent
/// may stand, in whose block they were told to be. `Memory` alone, and then the sequence is as it
/// was.
fn put_chain(
    records: &mut Records,
    sequence: &mut Sequence,
    parent: Id,
    near: Near,
    entries: &[Entry],
) -> Result<(), OutOfMemory>
    requires chain { IsChain parent entries.now sequence.old }
    requires few { length entries.now ≤ MOST_AT_ONCE }
    ensures put { OnOk result (sequence.new ≡ put_chain parent entries.now sequence.old) }
    ensures same { OnErr result (sequence.new ≡ sequence.old) }
    ensures records { records.new ≡ records.old }
{
    if entries.len() == 0 {
        return Ok(());
    }
    let put = sequence.put_chain(parent, near, entries)?;
    if let Some(block) = put.new_block {
        note_block(records, sequence, block);
        if block == put.near.block {
            return Ok(());
        }
    }
    if put.near.block != near.block {
        note_entries(records, entries, put.near);
    }
    Ok(())
}
