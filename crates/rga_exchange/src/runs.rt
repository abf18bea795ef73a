//! Operations appended to a log in runs.
ghost use Rattle.std.specs.Prelude.{◌≡◌, ℕ, ◌≤◌, ◌<◌, ◌++◌, ◌∷◌, List, [], length, true, Ok, IfOk, IfErr, OnOk, string_bytes};
ghost use Rattle.rga_ops.specs.Prelude.{checked, is_id, join, content_of, Content};
ghost use Rattle.rga_ops.specs.ListAnswer.{AreWellFormed, IsJoinable};
ghost use Rattle.rga_ops.specs.declared.op.Op.TheVariants.{Insert, Delete};
ghost use Rattle.rga_exchange.specs.Counting.{CountsAs, Writes, WritesFront, WritesAllBut};
ghost use Rattle.rga_lines.specs.Runs.{next};
ghost use Rattle.rga_lines.specs.Spelling.{IsWritable};
ghost use Rattle.rga_lines.specs.Stream.{newline, rest_of};
ghost use Rattle.rga_exchange.specs.RunLines.{stretch_line, going_behind, front_run};
ghost use Rattle.rga_exchange.specs.RunLines.{front_line, front_count, runs_text};
ghost use Rattle.rga_exchange.specs.Sending.{AppendsFirst, AreWritable, StandsFor};

use crate::Counted;
use crate::block::Block;
use crate::fault::SendFault;
use rga_lines::{MAX_RUN, Run, write_line, write_run};
use rga_ops::{Id, Op, OutOfMemory};
use std::alloc::{AllocError, Global};
use std::io::Write;

/// Writes operations as `append_log` does, in the order of the list, but neighbours in it that are
/// a run of insertions in one line, as many as a run may have. Answers how many operations there
/// are.
///
/// Beside one block of some 64 KiB a run is held. The device is used as by `append_log`.
pub fn append_runs<W: Write>(
    alloc: Global,
    ops: &[Op],
    writer: &mut Counted<W>,
) -> Result<u64, SendFault>
    ensures number { IfOk result (λ number. number ≡ length ops.now) }
    ensures written { OnOk result (Writes W.contents writer.old writer.new (runs_text ops.now)) }
    // A log that is empty or ends in a newline, and stands for a content, then stands for that
    // content joined with the operations.
    ensures joined { OnOk result ((bytes : List ℕ) (c : Content) → StandsFor bytes c
        → rest_of bytes ≡ [] → AreWellFormed ops.now → IsJoinable c ops.now
        → StandsFor (bytes ++ runs_text ops.now) (join c (content_of ops.now))) }
    ensures begun { WritesFront W.contents writer.old writer.new (runs_text ops.now) }
    // Whatever is answered, such a log, with what was written behind it, stands for that content
    // joined with the first so many of the operations.
    ensures gained { AppendsFirst W.contents writer.old writer.new ops.now }
    ensures flushed { OnOk result (writer.new.flushed ≡ true) }
    ensures device { CountsAs SendFault.Write result writer.old writer.new }
{
    may_be_written(ops);
    let mut block = Block::new(alloc)?;
    push_runs(alloc, ops, &mut block, writer)?;
    block.finish(writer)?;
    Ok(ops.len() as u64)
}

/// What each operation has is within the ranges of its types.
pub(crate) fn may_be_written(ops: &[Op])
    ensures { AreWellFormed ops.now → AreWritable ops.now }
{
    for op in ops {
        one_may_be_written(op);
    }
}

#[tactic(auto, using(rga_lines::proofs::WritableLemmas::insertion_writable, rga_lines::proofs::WritableLemmas::deletion_writable))]
fn one_may_be_written(op: &Op)
    ensures { checked op.now ≡ Ok tt → IsWritable op.now }
{
    // What an identifier may be is told with its counter.
    match op {
        Op::Insert { id, parent, ch } => {
            let _counters = (id.counter(), parent.counter(), *ch);
        }
        Op::Delete { id } => {
            let _counter = id.counter();
        }
    }
}

/// Adds the lines of the operations to the block, which is written whenever it is full.
fn push_runs<W: Write>(
    alloc: Global,
    ops: &[Op],
    block: &mut Block,
    writer: &mut Counted<W>,
) -> Result<(), SendFault>
    ensures ok { OnOk result (WritesAllBut W.contents writer.old writer.new
        (block.old ++ runs_text ops.now) block.new) }
    ensures begun { WritesFront W.contents writer.old writer.new (block.old ++ runs_text ops.now) }
    ensures device { CountsAs SendFault.Write result writer.old writer.new }
{
    let mut rest = ops;
    'lines: while let Some((op, behind)) = rest.split_first() {
        let count = push_front(alloc, op, behind, block, writer)?;
        rest = behind.split_at(count).1;
    }
    Ok(())
}

/// Adds the line that begins with an operation before others, and answers how many of those it has
/// beside.
fn push_front<W: Write>(
    alloc: Global,
    op: &Op,
    behind: &[Op],
    block: &mut Block,
    writer: &mut Counted<W>,
) -> Result<usize, SendFault>
    ensures count { IfOk result (λ n. n ≡ front_count op.now behind.now) }
    ensures within { IfOk result (λ n. n ≤ length behind.now) }
    ensures ok { OnOk result (WritesAllBut W.contents writer.old writer.new
        (block.old ++ (front_line op.now behind.now ++ newline ∷ [])) block.new) }
    ensures begun { WritesFront W.contents writer.old writer.new block.old }
    ensures device { CountsAs SendFault.Write result writer.old writer.new }
{
    let (line, count) = first_line(alloc, op, behind)?;
    block.take_line(line.as_bytes(), writer)?;
    Ok(count)
}

/// That line, and how many it has beside.
fn first_line(alloc: Global, op: &Op, behind: &[Op]) -> Result<(String, usize), OutOfMemory>
    ensures line { IfOk result (λ p. string_bytes p.0 ≡ front_line op.now behind.now) }
    ensures count { IfOk result (λ p. p.1 ≡ front_count op.now behind.now) }
    ensures within { IfOk result (λ p. p.1 ≤ length behind.now) }
{
    match op {
        Op::Insert { id, parent, ch } => line_of_run(alloc, *id, *parent, *ch, behind),
        Op::Delete { .. } => {
            let line = write_line(alloc, op)?;
            Ok((line, 0))
        }
    }
}

/// The same for an insertion.
fn line_of_run(
    alloc: Global,
    id: Id,
    parent: Id,
    ch: char,
    behind: &[Op],
) -> Result<(String, usize), OutOfMemory>
    ensures line { IfOk result (λ p.
        string_bytes p.0 ≡ front_line (Insert id parent ch) behind.now) }
    ensures count { IfOk result (λ p. p.1 ≡ front_count (Insert id parent ch) behind.now) }
    ensures within { IfOk result (λ p. p.1 ≤ length behind.now) }
{
    let run = run_in_front(alloc, id, parent, ch, behind)?;
    let line = shortest_line(alloc, &run)?;
    Ok((line, run.chars.len() - 1))
}

/// The line of a run without its newline, or of an insertion where it is a run of one. `Memory` is
/// the only refusal.
pub fn shortest_line(alloc: Global, run: &Run) -> Result<String, OutOfMemory>
    requires { 0 < length run.now.chars }
    ensures ok { IfOk result (λ s. string_bytes s ≡ stretch_line run.now) }
{
    let chars = run.chars.as_slice();
    if chars.len() == 1 {
        let op = Op::Insert {
            id: run.id,
            parent: run.parent,
            ch: chars[0],
        };
        write_line(alloc, &op)
    } else {
        write_run(alloc, run)
    }
}

/// The run that begins with an insertion before operations, up to `MAX_RUN` characters.
fn run_in_front(
    alloc: Global,
    id: Id,
    parent: Id,
    ch: char,
    behind: &[Op],
) -> Result<Run, AllocError>
    ensures { IfOk result (λ r. r ≡ front_run id parent ch behind.now) }
{
    let mut chars = Vec::new(alloc);
    chars.push(ch)?;
    let mut last = id;
    let mut rest = behind;
    'chars: while chars.len() < MAX_RUN {
        let Some((op, later)) = rest.split_first() else {
            break;
        };
        let Some((id, ch)) = next_in_list(last, op) else {
            break;
        };
        chars.push(ch)?;
        last = id;
        rest = later;
    }
    Ok(Run { id, parent, chars })
}

/// What an insertion that goes on behind an identifier has: its own identifier and its character.
fn next_in_list(last: Id, op: &Op) -> Option<(Id, char)>
    ensures { result ≡ going_behind last op.now }
{
    match op {
        Op::Insert { id, parent, ch } if is_next(*id, last) && *parent == last => Some((*id, *ch)),
        _ => None,
    }
}

/// Whether an identifier is the next one of the same replica.
fn is_next(id: Id, last: Id) -> bool
    ensures { result ≡ is_id id (next last) }
{
    id.counter() == last.counter() + 1 && id.replica() == last.replica()
}
