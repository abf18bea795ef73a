//! Insertions of which each is the parent of the next, and newer than all that is known: these need
//! no look-ups, and come into the records at once.
ghost use Rattle.std.specs.Prelude.{◌≡◌, ◌≤◌, ◌<◌, ◌+◌, [], true, false, length, take, min, vec_len, vec_capacity, IfSome, IfErr};
ghost use Rattle.rga_ops.specs.Content.{known_count};
ghost use Rattle.rga_records.specs.Chains.{grown, AreNewer};
ghost use Rattle.rga_store.specs.Back.{CanTakeBack};
ghost use Rattle.rga_flat.specs.Chains.{ChainShows, IsGathered};
ghost use Rattle.rga_flat.specs.Flat.{is_above};
ghost use Rattle.rga_flat.specs.Waiting.{has_list};

use crate::waiting::has_list;
use rga_ops::{Id, Op, OutOfMemory};
use rga_records::Records;
use rga_sequence::{Entry, MOST_AT_ONCE, Near};
use rga_store::{Step, note};
use std::alloc::Global;
use std::collections::BTreeMap;

/// Whether the counter of the first operation of a list is above a clock.
pub(crate) fn is_newer(ops: &[Op], clock: u64) -> bool {
    if ops.len() == 0 {
        return false;
    }
    ops[0].id().counter() > clock
}

/// Takes insertions that are newer than all that is known into the records, the first behind a parent
/// and each other behind the one before it, and notes them, for which there is room: all, or none. A
/// refusal of memory takes none.
pub(crate) fn gather_newer<'a>(
    alloc: Global,
    records: &mut Records,
    waiting: &BTreeMap<Id, Vec<Id>>,
    parent: Id,
    near: Near,
    ops: &'a [Op],
    steps: &mut Vec<Step<'a>>,
    entries: &mut Vec<Entry>,
) -> Result<(), OutOfMemory>
    requires back { CanTakeBack steps.old.items records.old.content }
    requires above { is_above records.old.content parent ≡ true }
    requires none { entries.old.items ≡ [] }
    requires room { min MOST_AT_ONCE (length ops.now) ≤ vec_capacity entries.old }
    requires steps_room { vec_len steps.old + min MOST_AT_ONCE (length ops.now)
        ≤ vec_capacity steps.old }
    ensures gathered { IsGathered records.old.limit records.old.content records.new.content
        (take (length entries.new.items) ops.now) steps.old.items steps.new.items }
    ensures shows { ChainShows records.old.content records.new.content parent entries.new.items
        waiting.now }
    ensures few { length entries.new.items ≤ MOST_AT_ONCE }
    ensures within { length entries.new.items ≤ length ops.now }
    ensures limit { records.new.limit ≡ records.old.limit }
{
    let before = steps.as_slice().len();
    scan(records, waiting, parent, ops, steps, entries);
    let chain = entries.as_slice();
    let answer = records.insert_chain(alloc, parent, near, chain);
    if let Ok(true) = answer {
        return Ok(());
    }
    entries.truncate(0);
    steps.truncate(before);
    answer?;
    Ok(())
}

/// Notes the insertions at the front of a list that are newer than all that is known, the first
/// behind a parent and each other behind the one before it, and makes their entries, for which there
/// is room. Takes no memory.
fn scan<'a>(
    records: &Records,
    waiting: &BTreeMap<Id, Vec<Id>>,
    parent: Id,
    ops: &'a [Op],
    steps: &mut Vec<Step<'a>>,
    entries: &mut Vec<Entry>,
)
    requires back { CanTakeBack steps.old.items records.now.content }
    requires above { is_above records.now.content parent ≡ true }
    requires none { entries.old.items ≡ [] }
    requires room { min MOST_AT_ONCE (length ops.now) ≤ vec_capacity entries.old }
    requires steps_room { vec_len steps.old + min MOST_AT_ONCE (length ops.now)
        ≤ vec_capacity steps.old }
    ensures newer { AreNewer records.now.content parent entries.new.items }
    ensures known { known_count records.now.content + length entries.new.items
        ≤ records.now.limit }
    ensures gathered { IsGathered records.now.limit records.now.content
        (grown records.now.content parent entries.new.items)
        (take (length entries.new.items) ops.now) steps.old.items steps.new.items }
    ensures shows { ChainShows records.now.content
        (grown records.now.content parent entries.new.items) parent entries.new.items waiting.now }
    ensures few { length entries.new.items ≤ MOST_AT_ONCE }
    ensures within { length entries.new.items ≤ length ops.now }
{
    let known = records.known();
    let most = MOST_AT_ONCE.min(records.limit() - known);
    let mut last = parent;
    let mut clock = records.clock();
    for op in ops {
        if entries.as_slice().len() >= most {
            return;
        }
        let Some(entry) = newer_entry(waiting, last, clock, op) else {
            return;
        };
        note(steps, op, clock);
        entries.push_reserved(entry);
        clock = entry.id.counter();
        last = entry.id;
    }
}

/// The entry of an insertion behind a parent, if its counter is above that of the parent and above
/// a clock, and nothing waits for it. Takes no memory.
#[inline(always)]
fn newer_entry(waiting: &BTreeMap<Id, Vec<Id>>, parent: Id, clock: u64, op: &Op) -> Option<Entry>
    ensures op { IfSome result (λ e. op.now ≡ Op.Insert e.id parent e.ch) }
    ensures newer { IfSome result (λ e. clock < e.id.counter) }
    ensures rises { IfSome result (λ e. parent.counter < e.id.counter) }
    ensures visible { IfSome result (λ e. e.deleted ≡ false) }
    ensures unlisted { IfSome result (λ e. has_list waiting.now e.id ≡ false) }
{
    let Op::Insert {
        id,
        parent: above,
        ch,
    } = *op
    else {
        return None;
    };
    if above != parent {
        return None;
    }
    if id.counter() <= clock {
        return None;
    }
    if id.counter() <= parent.counter() {
        return None;
    }
    if has_list(waiting, id) {
        return None;
    }
    Some(Entry {
        id,
        ch,
        deleted: false,
    })
}
