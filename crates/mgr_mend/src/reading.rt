//! The operations of a damaged log.
ghost use Rattle.std.specs.Prelude.{◌≡◌, ◌∷◌, [], ◌++◌, Ok, Err, IfOk, OnOk, MatchOption};
ghost use Rattle.rga_lines.specs.Log.{operations_at};
ghost use Rattle.rga_lines.specs.declared.fault.LineFault.{LineFault as Fault};
ghost use Rattle.mgr_mend.specs.Mending.{line_operations, all_lines, whole_operations};
ghost use Rattle.mgr_mend.specs.Parts.{count_said, counts_of};

use memchr::memchr;
use rga_lines::{Line, LineFault, read_any, read_deletion, read_insertions};
use rga_ops::{Op, OutOfMemory};
use std::alloc::Global;

/// What the lines of a log say, and its rest as one more.
#[derive(Drop)]
pub(crate) struct LogOperations {
    /// The operations of all.
    pub(crate) ops: Vec<Op>,
    /// How many of them each has. `None` if it is no operation.
    pub(crate) counts: Vec<Option<usize>>,
}

/// Reads the operations of all lines that have some, and of the rest.
pub(crate) fn read_operations(alloc: Global, bytes: &[u8]) -> Result<LogOperations, OutOfMemory>
    ensures ops { IfOk result (λ log. log.ops.items ≡ whole_operations bytes.now) }
    ensures counts { IfOk result (λ log. log.counts.items ≡ counts_of (all_lines bytes.now)) }
{
    let mut ops = Vec::new(alloc);
    let mut counts = Vec::new(alloc);
    let mut own = Vec::new(alloc);
    let mut rest = bytes;
    'lines: while let Some(end) = memchr(b'\n', rest) {
        let (line, _) = rest.split_at(end);
        let (_, behind) = rest.split_at(end + 1);
        add_line(alloc, &mut ops, &mut counts, &mut own, line)?;
        rest = behind;
    }
    add_line(alloc, &mut ops, &mut counts, &mut own, rest)?;
    Ok(LogOperations { ops, counts })
}

/// Adds the operations of a line, and how many they are. What stands in the last list counts for
/// nothing: its places are used again.
fn add_line(
    alloc: Global,
    ops: &mut Vec<Op>,
    counts: &mut Vec<Option<usize>>,
    own: &mut Vec<Op>,
    line: &[u8],
) -> Result<(), OutOfMemory>
    ensures ops { OnOk result (ops.new.items ≡ ops.old.items ++ line_operations line.now) }
    ensures counts { OnOk result (counts.new.items
        ≡ counts.old.items ++ count_said (operations_at line.now) ∷ []) }
{
    let count = read_line(alloc, own, line)?;
    ops.extend_from_slice(own)?;
    counts.push(count)?;
    Ok(())
}

/// Reads the operations of a line into the list, in place of what stood there, and answers how many
/// they are: `None` if the line is no operation.
pub(crate) fn read_line(
    alloc: Global,
    ops: &mut Vec<Op>,
    line: &[u8],
) -> Result<Option<usize>, OutOfMemory>
    ensures ops { OnOk result (ops.new.items ≡ line_operations line.now) }
    ensures count { IfOk result (λ count. count ≡ count_said (operations_at line.now)) }
{
    if let Some(deletion) = read_deletion(line) {
        ops.clear();
        ops.push(deletion)?;
        return Ok(Some(1));
    }
    match read_insertions(ops, line) {
        Ok(true) => Ok(Some(ops.as_slice().len())),
        Ok(false) => read_other(alloc, ops, line),
        Err(memory) => Err(memory),
    }
}

/// The same of any line, whatever it is.
fn read_other(alloc: Global, ops: &mut Vec<Op>, line: &[u8]) -> Result<Option<usize>, OutOfMemory>
    ensures ops { OnOk result (ops.new.items ≡ line_operations line.now) }
    ensures count { IfOk result (λ count. count ≡ count_said (operations_at line.now)) }
{
    ops.clear();
    let Some(own) = operations_of_line(alloc, line)? else {
        return Ok(None);
    };
    ops.extend_from_slice(&own)?;
    Ok(Some(own.as_slice().len()))
}

/// The operations that a line stands for; `None` for one that stands for none.
pub(crate) fn operations_of_line(alloc: Global, line: &[u8]) -> Result<Option<Vec<Op>>, OutOfMemory>
    ensures { IfOk result (λ o. MatchOption o ((e : Fault) × (operations_at line.now ≡ Err e))
        (λ ops. operations_at line.now ≡ Ok ops.items)) }
{
    match read_any(alloc, line) {
        Ok(Line::One(op)) => Ok(Some(vec![in alloc; op]?)),
        Ok(Line::Run(run)) => {
            let ops = run.ops(alloc)?;
            Ok(Some(ops))
        }
        Ok(Line::Deletions(run)) => {
            let ops = run.ops(alloc)?;
            Ok(Some(ops))
        }
        Ok(Line::Head) => Ok(None),
        Ok(Line::Last(_)) => Ok(None),
        Err(LineFault::Memory(memory)) => Err(memory),
        Err(_) => Ok(None),
    }
}
