//! Lists of operations, taken whole or not at all. What was taken of a list is removed again where
//! one of it is refused, and that takes no memory.
ghost use Rattle.std.specs.Prelude.{◌≡◌, ◌≢◌, ◌≤◌, ◌<◌, true, length, take, Ok, Err, IfOk, OnOk, OnErr, IfErr};
ghost use Rattle.std.specs.BTreeSet.{contains};
ghost use Rattle.std.specs.FinMap as finite_map;
ghost use Rattle.rga_ops.specs.Prelude.{Memory};
ghost use Rattle.rga_ops.specs.Identifier.{Identifier, id_cmp};
ghost use Rattle.rga_ops.specs.Content.{Content};
ghost use Rattle.rga_ops.specs.Answer.{taken, taken_one_by_one};
ghost use Rattle.rga_store.specs.Back.{without_noted, CanTakeBack};
ghost use Rattle.rga_store.specs.Growth.{has_unknown};
ghost use Rattle.rga_flat.specs.Based.{IsBased};
ghost use Rattle.rga_flat.specs.Flat.{IsFlat};
ghost use Rattle.rga_flat.specs.Waiting.{StayListed, under, has_list, is_listed, SettlesLists};

use crate::chains::take_chain;
use crate::taking::take;
use crate::undoing::go_back;
use crate::waiting::clear_lists;
use rga_ops::{Id, Op, Refusal, Taken};
use rga_records::Records;
use rga_sequence::{MOST_AT_ONCE, Sequence};
use rga_store::{Step, has_unknown, note};
use std::alloc::Global;
use std::collections::{BTreeMap, BTreeSet};

/// Takes the operations one by one, or none of them: the first that is refused leaves all as it
/// was. Memory may be refused before that one is found, but not if all is known.
pub(crate) fn take_whole(
    alloc: Global,
    records: &mut Records,
    sequence: &mut Sequence,
    waiting: &mut BTreeMap<Id, Vec<Id>>,
    ops: &[Op],
) -> Result<(), Refusal>
    requires { IsFlat records.old.content sequence.old (under waiting.old) (has_list waiting.old) }
    ensures ok { OnOk result (taken_one_by_one records.old.limit records.old.content ops.now
        ≡ Ok records.new.content) }
    ensures refused { IfErr result (λ e. e ≢ Memory →
        taken_one_by_one records.old.limit records.old.content ops.now ≡ Err e) }
    ensures growth { OnErr result (has_unknown records.old.content ops.now ≡ true) }
    ensures same { OnErr result (records.new.content ≡ records.old.content) }
    ensures flat { IsFlat records.new.content sequence.new
        (under waiting.new) (has_list waiting.new) }
    ensures limit { records.new.limit ≡ records.old.limit }
{
    if !has_unknown(records, ops) {
        return Ok(());
    }
    let mut steps = Vec::with_capacity(alloc, ops.len())?;
    let mut done = BTreeSet::new(alloc);
    let mut index = 0;
    while index < ops.len() {
        let left = &ops[index..];
        match take_next(
            alloc, records, sequence, waiting, &mut done, left, &mut steps,
        ) {
            Ok(count) => index += count,
            Err(refusal) => {
                go_back(records, sequence, waiting, &done, steps);
                return Err(refusal);
            }
        }
    }
    clear_lists(waiting, &done);
    Ok(())
}

/// Takes a chain at the front of a list, if there is one, and the operation behind it, and answers
/// how many these are. Notes those that were new.
fn take_next<'a>(
    alloc: Global,
    records: &mut Records,
    sequence: &mut Sequence,
    waiting: &mut BTreeMap<Id, Vec<Id>>,
    done: &mut BTreeSet<Id>,
    ops: &'a [Op],
    steps: &mut Vec<Step<'a>>,
) -> Result<usize, Refusal>
    requires some { 0 < length ops.now }
    requires back { CanTakeBack steps.old.items records.old.content }
    requires inserted { (p : Identifier) → contains id_cmp done.old p ≡ true →
        finite_map.contains_key records.old.content.inserted p ≡ true }
    requires flat { IsFlat records.old.content sequence.old
        (under waiting.old) (is_listed waiting.old done.old) }
    ensures ok { IfOk result (λ count. taken_one_by_one records.old.limit records.old.content
        (take count ops.now) ≡ Ok records.new.content) }
    ensures some { IfOk result (λ count. 0 < count) }
    ensures within { IfOk result (λ count. count ≤ length ops.now) }
    ensures refused { IfErr result (λ e. e ≢ Memory →
        taken_one_by_one records.old.limit records.old.content ops.now ≡ Err e) }
    ensures steps { CanTakeBack steps.new.items records.new.content }
    ensures start { without_noted steps.new.items records.new.content
        ≡ without_noted steps.old.items records.old.content }
    ensures flat { OnOk result (IsFlat records.new.content sequence.new
        (under waiting.new) (is_listed waiting.new done.new)) }
    ensures left { OnErr result (IsFlat records.new.content sequence.new
        (under waiting.new) (is_listed waiting.new done.old)) }
    ensures inserted { OnOk result ((p : Identifier) → contains id_cmp done.new p ≡ true →
        finite_map.contains_key records.new.content.inserted p ≡ true) }
    ensures settles { SettlesLists waiting.old done.old done.new }
    ensures lists { StayListed waiting.old waiting.new }
    ensures based { (base : Content) →
        IsBased base records.old.content (under waiting.old) (has_list waiting.old) →
        IsBased base records.new.content (under waiting.new) (has_list waiting.new) }
    ensures limit { records.new.limit ≡ records.old.limit }
{
    let count = take_chain(alloc, records, sequence, waiting, done, ops, steps)?;
    // So many fill a quarter of a block; what is behind them may be a chain again.
    if count >= MOST_AT_ONCE {
        return Ok(count);
    }
    if count >= ops.len() {
        return Ok(count);
    }
    take_noted(alloc, records, sequence, waiting, done, &ops[count], steps)?;
    Ok(count + 1)
}

/// Takes an operation, and notes it if it was new.
fn take_noted<'a>(
    alloc: Global,
    records: &mut Records,
    sequence: &mut Sequence,
    waiting: &mut BTreeMap<Id, Vec<Id>>,
    done: &mut BTreeSet<Id>,
    op: &'a Op,
    steps: &mut Vec<Step<'a>>,
) -> Result<(), Refusal>
    requires back { CanTakeBack steps.old.items records.old.content }
    requires inserted { (p : Identifier) → contains id_cmp done.old p ≡ true →
        finite_map.contains_key records.old.content.inserted p ≡ true }
    requires flat { IsFlat records.old.content sequence.old
        (under waiting.old) (is_listed waiting.old done.old) }
    ensures ok { OnOk result
        (taken records.old.limit records.old.content op.now ≡ Ok records.new.content) }
    ensures refused { IfErr result (λ e. e ≢ Memory →
        taken records.old.limit records.old.content op.now ≡ Err e) }
    ensures steps { CanTakeBack steps.new.items records.new.content }
    ensures start { without_noted steps.new.items records.new.content
        ≡ without_noted steps.old.items records.old.content }
    ensures flat { OnOk result (IsFlat records.new.content sequence.new
        (under waiting.new) (is_listed waiting.new done.new)) }
    ensures left { OnErr result (IsFlat records.new.content sequence.new
        (under waiting.new) (is_listed waiting.new done.old)) }
    ensures inserted { OnOk result ((p : Identifier) → contains id_cmp done.new p ≡ true →
        finite_map.contains_key records.new.content.inserted p ≡ true) }
    ensures settles { SettlesLists waiting.old done.old done.new }
    ensures lists { StayListed waiting.old waiting.new }
    ensures based { (base : Content) →
        IsBased base records.old.content (under waiting.old) (has_list waiting.old) →
        IsBased base records.new.content (under waiting.new) (has_list waiting.new) }
    ensures limit { records.new.limit ≡ records.old.limit }
{
    steps.reserve(1)?;
    let clock = records.clock();
    match take(alloc, records, sequence, waiting, done, op)? {
        Taken::Known => Ok(()),
        Taken::New => {
            note(steps, op, clock);
            Ok(())
        }
    }
}
