//! Operations of others, taken by the live buffer.
ghost use Rattle.std.specs.Prelude.{◌≡◌, [], ◌∷◌};
ghost use Rattle.std.specs.List.{list_any};
ghost use Rattle.mg_live.specs.Reports as spec;

use crate::fault::ReportFault;
use crate::live::Live;
use mg_editor::Editor;
use rga_ops::{Op, OutOfMemory};
use rga_store::TextStore;

/// How far above the clock a counter may be: 2^32.
const MOST_AHEAD: u64 = 4_294_967_296;

/// Whether what an operation inserts or deletes has a counter too far above the clock.
fn is_far(clock: u64, op: &Op) -> bool
    ensures { result ≡ spec.is_far clock op.now }
{
    let counter = match op {
        Op::Insert { id, .. } => id.counter(),
        Op::Delete { id } => id.counter(),
    };
    counter > clock && counter - clock > MOST_AHEAD
}

/// Whether one of these has.
fn is_any_far(clock: u64, ops: &[Op]) -> bool
    ensures { result ≡ list_any (spec.is_far clock) ops.now }
{
    ops.iter().any(|op| is_far(clock, op))
}

/// The live buffer takes an operation of another. Refused, in this order: where the buffer was
/// removed, where the counter is too far ahead, and as the buffer says.
pub(crate) fn take_one<S: TextStore>(
    live: &mut Live,
    editor: &mut Editor<S>,
    op: Op,
) -> Result<Result<(), OutOfMemory>, ReportFault>
    ensures { spec.TakesOthers (op ∷ []) (spec.TakesOperation op)
        editor.old live.old result editor.new live.new }
{
    let Some(index) = editor.live_index(live.name.as_slice()) else {
        return Err(ReportFault::Closed);
    };
    if is_far(editor.clock_at(index), &op) {
        return Err(ReportFault::Far);
    }
    match editor.take_operation(index, op) {
        Ok(_) => {
            live.telling.took = true;
            Ok(Ok(()))
        }
        Err(refusal) => Err(ReportFault::Refused(refusal)),
    }
}

/// The live buffer takes operations of another, all or none. Refused as of `take_one`.
pub(crate) fn take_list<S: TextStore>(
    live: &mut Live,
    editor: &mut Editor<S>,
    ops: &[Op],
) -> Result<Result<(), OutOfMemory>, ReportFault>
    ensures { spec.TakesOthers ops.now (spec.TakesList ops.now)
        editor.old live.old result editor.new live.new }
{
    let Some(index) = editor.live_index(live.name.as_slice()) else {
        return Err(ReportFault::Closed);
    };
    if is_any_far(editor.clock_at(index), ops) {
        return Err(ReportFault::Far);
    }
    match editor.take_operations(index, ops) {
        Ok(()) => {
            live.telling.took = true;
            Ok(Ok(()))
        }
        Err(refusal) => Err(ReportFault::Refused(refusal)),
    }
}
