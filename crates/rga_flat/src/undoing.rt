//! Operations that leave a store again, the last first. Takes no memory.
ghost use Rattle.std.specs.Prelude.{◌≡◌, not, filter};
ghost use Rattle.std.specs.BTreeSet.{contains};
ghost use Rattle.rga_ops.specs.Identifier.{Identifier, id_cmp};
ghost use Rattle.rga_ops.specs.Content.{clock_of, Holds};
ghost use Rattle.rga_store.specs.Without.{without_operation};
ghost use Rattle.rga_store.specs.Back.{without_noted, CanTakeBack};
ghost use Rattle.rga_flat.specs.Flat.{IsFlat};
ghost use Rattle.rga_flat.specs.Undo.{undone_entries, undone_under, IsReturnable};
ghost use Rattle.rga_flat.specs.Waiting.{under, has_list};

use crate::waiting::remove_child;
use rga_ops::{Id, Op};
use rga_records::Records;
use rga_sequence::Sequence;
use rga_store::Step;
use std::collections::{BTreeMap, BTreeSet};

/// Removes the operations of the steps. What has a list that was done with waits again.
pub(crate) fn go_back(
    records: &mut Records,
    sequence: &mut Sequence,
    waiting: &mut BTreeMap<Id, Vec<Id>>,
    done: &BTreeSet<Id>,
    mut steps: Vec<Step<'_>>,
)
    requires back { CanTakeBack steps.items records.old.content }
    requires returnable { IsReturnable records.old.content
        (without_noted steps.items records.old.content) sequence.old waiting.old done.now }
    ensures content { records.new.content ≡ without_noted steps.entry.items records.old.content }
    ensures flat { IsFlat records.new.content sequence.new
        (under waiting.new) (has_list waiting.new) }
    ensures limit { records.new.limit ≡ records.old.limit }
{
    take_out_all(records, sequence, done);
    while let Some(step) = steps.pop() {
        undo(records, sequence, waiting, step.op, step.clock);
    }
}

/// The entries of what has a list that was done with go.
fn take_out_all(records: &Records, sequence: &mut Sequence, done: &BTreeSet<Id>)
    ensures { sequence.new ≡ filter (λ e. not (contains id_cmp done.now e.id)) sequence.old }
{
    for id in done {
        sequence.take_out(*id, records.near(*id));
    }
}

/// An operation leaves, to the clock from before it.
fn undo(
    records: &mut Records,
    sequence: &mut Sequence,
    waiting: &mut BTreeMap<Id, Vec<Id>>,
    op: &Op,
    clock: u64,
)
    requires held { Holds records.old.content op.now }
    requires clock { clock ≡ clock_of (without_operation op.now records.old.content) }
    ensures content { records.new.content ≡ without_operation op.now records.old.content }
    ensures limit { records.new.limit ≡ records.old.limit }
    ensures entries { sequence.new ≡ undone_entries op.now sequence.old }
    ensures under { (p : Identifier) →
        under waiting.new p ≡ undone_under op.now p (under waiting.old p) }
    ensures lists { (p : Identifier) → has_list waiting.new p ≡ has_list waiting.old p }
{
    match op {
        Op::Insert { id, parent, .. } => {
            sequence.take_out(*id, records.near(*id));
            remove_child(waiting, *parent, *id);
        }
        Op::Delete { id } => sequence.mark(*id, records.near(*id), false),
    }
    records.remove(op, clock);
}
