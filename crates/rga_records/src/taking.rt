//! Operations that are taken into records, and that leave them again.
ghost use Rattle.std.specs.Prelude.{◌≡◌, ◌≢◌, Ok, Err, OnOk, IfErr, drop, take};
ghost use Rattle.rga_ops.specs.Prelude.{Memory};
ghost use Rattle.rga_ops.specs.Content.{join, single};
ghost use Rattle.rga_ops.specs.Answer.{answer, taken};
ghost use Rattle.rga_store.specs.Growth.{NeedsRoom};
ghost use Rattle.rga_store.specs.Back.{without_noted, CanTakeBack};

use crate::records_by_id::Records;
use rga_ops::{Op, Refusal, Taken, answer_to};
use rga_sequence::Near;
use rga_store::{Step, note};

/// Takes an operation. `Memory` alone beside what is answered to it, and then nothing is changed.
#[inline(always)]
pub(crate) fn take_op(records: &mut Records, op: &Op) -> Result<Taken, Refusal>
    ensures exact { result ≢ Err Memory →
        result ≡ answer records.old.limit records.old.content op.now }
    ensures memory { result ≡ Err Memory →
        answer records.old.limit records.old.content op.now ≡ Ok Taken.New }
    ensures growth { result ≡ Err Memory → NeedsRoom records.old.content op.now }
    ensures new { result ≡ Ok Taken.New →
        records.new.content ≡ join records.old.content (single op.now) }
    ensures same { result ≢ Ok Taken.New → records.new.content ≡ records.old.content }
    ensures limit { records.new.limit ≡ records.old.limit }
{
    if let Op::Insert { id, parent, ch } = op {
        if records.is_newer(*id, *parent) {
            records.insert_newer(*id, *parent, *ch)?;
            return Ok(Taken::New);
        }
        if records.has_room_for(*id, *parent) && records.insert_absent(*id, *parent, *ch)? {
            return Ok(Taken::New);
        }
    }
    if let Op::Delete { id } = op {
        if id.counter() > 0 && records.delete_inserted(*id) {
            return Ok(Taken::New);
        }
    }
    take_found(records, op)
}

/// The same, by what is found of the operation's identifier.
#[inline(always)]
fn take_found(records: &mut Records, op: &Op) -> Result<Taken, Refusal>
    ensures exact { result ≢ Err Memory →
        result ≡ answer records.old.limit records.old.content op.now }
    ensures memory { result ≡ Err Memory →
        answer records.old.limit records.old.content op.now ≡ Ok Taken.New }
    ensures growth { result ≡ Err Memory → NeedsRoom records.old.content op.now }
    ensures new { result ≡ Ok Taken.New →
        records.new.content ≡ join records.old.content (single op.now) }
    ensures same { result ≢ Ok Taken.New → records.new.content ≡ records.old.content }
    ensures limit { records.new.limit ≡ records.old.limit }
{
    let found = records.find(op.id());
    let deleted = found.deleted;
    let answer = answer_to(*op, found);
    if answer != Ok(Taken::New) {
        return answer;
    }
    match op {
        Op::Insert { id, parent, ch } => {
            records.insert(*id, *parent, *ch, Near::FRONT, deleted)?;
            Ok(Taken::New)
        }
        Op::Delete { id } => {
            records.delete(*id)?;
            Ok(Taken::New)
        }
    }
}

/// Takes an operation, and notes it if it was new.
pub(crate) fn take_noted<'a>(
    records: &mut Records,
    op: &'a Op,
    steps: &mut Vec<Step<'a>>,
) -> Result<(), Refusal>
    requires { CanTakeBack steps.old.items records.old.content }
    ensures ok { OnOk result
        (taken records.old.limit records.old.content op.now ≡ Ok records.new.content) }
    ensures refused { IfErr result (λ e. e ≢ Memory →
        taken records.old.limit records.old.content op.now ≡ Err e) }
    ensures steps { CanTakeBack steps.new.items records.new.content }
    ensures start { without_noted steps.new.items records.new.content
        ≡ without_noted steps.old.items records.old.content }
    ensures limit { records.new.limit ≡ records.old.limit }
{
    steps.reserve(1)?;
    let clock = records.clock();
    match take_op(records, op)? {
        Taken::Known => Ok(()),
        Taken::New => {
            note(steps, op, clock);
            Ok(())
        }
    }
}

/// The operations of the steps from one on leave the records, the last first. Takes no memory.
pub(crate) fn remove_from(records: &mut Records, steps: &mut Vec<Step<'_>>, from: usize)
    requires { CanTakeBack steps.old.items records.old.content }
    ensures content { records.new.content
        ≡ without_noted (drop from steps.old.items) records.old.content }
    ensures steps { steps.new.items ≡ take from steps.old.items }
    ensures limit { records.new.limit ≡ records.old.limit }
{
    while steps.as_slice().len() > from {
        match steps.pop() {
            Some(step) => records.remove(step.op, step.clock),
            None => unreachable!(),
        }
    }
}
