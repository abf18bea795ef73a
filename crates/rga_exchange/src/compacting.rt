//! Logs in as few lines as runs allow.
ghost use Rattle.std.specs.Prelude.{◌≡◌, ℕ, ◌≤◌, ◌<◌, ◌++◌, ◌∷◌, [], length, slice_index, if◌then◌else◌, true, Ok, Some, None, IfOk, IfErr, OnOk, string_bytes};
ghost use Rattle.std.specs.Option.{option_map, option_map_or};
ghost use Rattle.rga_ops.specs.Prelude.{checked, operations, content_of, IsSound};
ghost use Rattle.rga_ops.specs.Content.{element};
ghost use Rattle.rga_ops.specs.Identifier.{is_in_range};
ghost use Rattle.rga_ops.specs.declared.op.Op.TheVariants.{Insert, Delete};
ghost use Rattle.rga_exchange.specs.Counting.{CountsAs, Writes, WritesFront, WritesAllBut};
ghost use Rattle.rga_lines.specs.declared.run.TheConstants.{MAX_RUN};
ghost use Rattle.rga_lines.specs.Runs.{IsRun, next};
ghost use Rattle.rga_lines.specs.Stream.{bytes_of_lines, rest_of};
ghost use Rattle.rga_exchange.specs.Sending.{StandsFor};
ghost use Rattle.rga_exchange.specs.Compacting.{compact_lines, compact_text, next_character, run_of};
ghost use Rattle.rga_exchange.specs.Compacting.{is_next_deleted, most_deletions, deletion_size, deletion_line};
ghost use Rattle.rga_exchange.specs.Turns.{ends_behind, deleted_behind, lines_at};

use crate::finding::{element_in, is_deleted_in};
use crate::runs::may_be_written;
use crate::{Block, Counted, SendFault, shortest_line};
use rga_lines::{DeletionRun, MAX_RUN, Run, write_deletion_run, write_line};
use rga_ops::{Id, Op, OutOfMemory};
use rga_store::TextStore;
use std::alloc::{AllocError, Global};
use std::io::Write;
use std::marker::Model;

/// Writes the operations of a store in as few lines as runs allow, each with its newline: the runs by
/// rising first identifier, a run of one as an insertion, and then the deletions by rising identifier.
/// With `dels` a deletion and those of the next counters of its replica are written as a run of at
/// most `MAX_RUN`, by its first identifier, and a run of one as a deletion. Answers how many lines
/// there are.
///
/// Beside the list of the operations one block of some 64 KiB is held, one run, and two tables of
/// 512 KiB. The device is used as by `send`.
pub fn compact<S: TextStore, W: Write>(
    alloc: Global,
    store: &S,
    dels: bool,
    writer: &mut Counted<W>,
) -> Result<u64, SendFault>
    ensures number { IfOk result (λ n. n ≡ length (compact_lines dels (S.content store.now))) }
    ensures written { OnOk result (Writes W.contents writer.old writer.new
        (compact_text dels (S.content store.now))) }
    // These lines stand for the content, and the last one too ends in a newline.
    ensures stands { OnOk result (StandsFor (compact_text dels (S.content store.now))
        (S.content store.now)) }
    ensures ended { OnOk result (rest_of (compact_text dels (S.content store.now)) ≡ []) }
    ensures begun { WritesFront W.contents writer.old writer.new
        (compact_text dels (S.content store.now)) }
    ensures flushed { OnOk result (writer.new.flushed ≡ true) }
    ensures device { CountsAs SendFault.Write result writer.old writer.new }
{
    // What is known is told with the fact that each operation is well-formed.
    let _known = store.known();
    let ops = store.ops()?;
    compact_ops(alloc, &ops, dels, writer)
}

/// The same of operations as a store lists them: the insertions by rising identifier, and then the
/// deletions by rising identifier.
pub fn compact_ops<W: Write>(
    alloc: Global,
    ops: &[Op],
    dels: bool,
    writer: &mut Counted<W>,
) -> Result<u64, SendFault>
    requires all { ops.now ≡ operations (content_of ops.now) }
    requires sound { IsSound (content_of ops.now) }
    ensures number { IfOk result (λ n. n ≡ length (compact_lines dels (content_of ops.now))) }
    ensures written { OnOk result (Writes W.contents writer.old writer.new
        (compact_text dels (content_of ops.now))) }
    // These lines stand for the content, and the last one too ends in a newline.
    ensures stands { OnOk result (StandsFor (compact_text dels (content_of ops.now))
        (content_of ops.now)) }
    ensures ended { OnOk result (rest_of (compact_text dels (content_of ops.now)) ≡ []) }
    ensures begun { WritesFront W.contents writer.old writer.new
        (compact_text dels (content_of ops.now)) }
    ensures flushed { OnOk result (writer.new.flushed ≡ true) }
    ensures device { CountsAs SendFault.Write result writer.old writer.new }
{
    may_be_written(ops);
    let mut block = Block::new(alloc)?;
    let lines = push_compacted(alloc, ops, dels, &mut block, writer)?;
    block.finish(writer)?;
    Ok(lines)
}

/// Adds the lines of all operations to the block, which is written whenever it is full, and answers
/// how many lines there are.
fn push_compacted<W: Write>(
    alloc: Global,
    ops: &[Op],
    dels: bool,
    block: &mut Block,
    writer: &mut Counted<W>,
) -> Result<u64, SendFault>
    requires all { ops.now ≡ operations (content_of ops.now) }
    requires sound { IsSound (content_of ops.now) }
    ensures number { IfOk result (λ n. n ≡ length (compact_lines dels (content_of ops.now))) }
    ensures ok { OnOk result (WritesAllBut W.contents writer.old writer.new
        (block.old ++ compact_text dels (content_of ops.now)) block.new) }
    ensures begun { WritesFront W.contents writer.old writer.new
        (block.old ++ compact_text dels (content_of ops.now)) }
    ensures device { CountsAs SendFault.Write result writer.old writer.new }
{
    let most = most_of(dels);
    let mut ends = RunEnds::new(alloc)?;
    let mut deleted = RunEnds::new(alloc)?;
    let mut lines = 0u64;
    for (index, op) in ops.iter().enumerate() {
        lines += push_operation(
            alloc,
            ops,
            index,
            op,
            most,
            &mut ends,
            &mut deleted,
            block,
            writer,
        )?;
    }
    Ok(lines)
}

/// How many deletions a run has at most.
fn most_of(dels: bool) -> u64
    ensures most { result ≡ most_deletions dels }
    ensures some { 0 < result }
    ensures few { result ≤ MAX_RUN }
{
    if dels { MAX_RUN as u64 } else { 1 }
}

/// Adds the line that comes for an operation, where one does, and answers how many there are.
fn push_operation<W: Write>(
    alloc: Global,
    ops: &[Op],
    index: usize,
    op: &Op,
    most: u64,
    ends: &mut RunEnds,
    deleted: &mut RunEnds,
    block: &mut Block,
    writer: &mut Counted<W>,
) -> Result<u64, SendFault>
    requires all { ops.now ≡ operations (content_of ops.now) }
    requires checked { checked op.now ≡ Ok tt }
    requires some { 0 < most }
    requires few { most ≤ MAX_RUN }
    ensures number { IfOk result (λ n. n ≡ length (lines_at (content_of ops.now) most
        (slice_index ends.old) (slice_index deleted.old) op.now)) }
    ensures ok { OnOk result (WritesAllBut W.contents writer.old writer.new
        (block.old ++ bytes_of_lines (lines_at (content_of ops.now) most
        (slice_index ends.old) (slice_index deleted.old) op.now)) block.new) }
    ensures ends { OnOk result ((replica : ℕ) → slice_index ends.new replica
        ≡ ends_behind (content_of ops.now) (slice_index ends.old) op.now replica) }
    ensures deleted { OnOk result ((replica : ℕ) → slice_index deleted.new replica
        ≡ deleted_behind (content_of ops.now) most (slice_index deleted.old) op.now replica) }
    ensures begun { WritesFront W.contents writer.old writer.new block.old }
    ensures device { CountsAs SendFault.Write result writer.old writer.new }
{
    let Some(line) = next_line(alloc, ops, index, op, most, ends, deleted)? else {
        return Ok(0);
    };
    block.take_line(line.as_bytes(), writer)?;
    Ok(1)
}

/// The line that comes for an operation, if one does: one that is in the last run of its replica has
/// none.
fn next_line(
    alloc: Global,
    ops: &[Op],
    index: usize,
    op: &Op,
    most: u64,
    ends: &mut RunEnds,
    deleted: &mut RunEnds,
) -> Result<Option<String>, OutOfMemory>
    requires all { ops.now ≡ operations (content_of ops.now) }
    requires checked { checked op.now ≡ Ok tt }
    requires some { 0 < most }
    requires few { most ≤ MAX_RUN }
    ensures line { IfOk result (λ line. option_map_or (λ text. string_bytes text ∷ []) line []
        ≡ lines_at (content_of ops.now) most (slice_index ends.old) (slice_index deleted.old)
        op.now) }
    ensures ends { OnOk result ((replica : ℕ) → slice_index ends.new replica
        ≡ ends_behind (content_of ops.now) (slice_index ends.old) op.now replica) }
    ensures deleted { OnOk result ((replica : ℕ) → slice_index deleted.new replica
        ≡ deleted_behind (content_of ops.now) most (slice_index deleted.old) op.now replica) }
{
    match op {
        Op::Insert { id, parent, ch } => run_line(alloc, ops, index, *id, *parent, *ch, ends),
        Op::Delete { id } => deletion_run_line(alloc, ops, index, *id, most, deleted),
    }
}

/// The line of the run that a deletion begins, unless it is in one.
#[tactic(auto, using(rga_lines::proofs::WritableLemmas::deletion_writable))]
fn deletion_run_line(
    alloc: Global,
    ops: &[Op],
    index: usize,
    id: Id,
    most: u64,
    deleted: &mut RunEnds,
) -> Result<Option<String>, OutOfMemory>
    requires all { ops.now ≡ operations (content_of ops.now) }
    requires checked { checked (Delete id) ≡ Ok tt }
    requires some { 0 < most }
    requires few { most ≤ MAX_RUN }
    ensures line { IfOk result (λ line. option_map_or (λ text. string_bytes text ∷ []) line []
        ≡ lines_at (content_of ops.now) most (slice_index deleted.old) (slice_index deleted.old)
        (Delete id)) }
    ensures deleted { OnOk result ((replica : ℕ) → slice_index deleted.new replica
        ≡ deleted_behind (content_of ops.now) most (slice_index deleted.old) (Delete id) replica) }
{
    // What an identifier may be is told with its counter.
    let _counter = id.counter();
    if deleted.covers(id) {
        return Ok(None);
    }
    let count = deletions_from(ops, index, id, most);
    deleted.note(id, count);
    let line = deletion_line(alloc, &DeletionRun { id, count })?;
    Ok(Some(line))
}

/// How many deletions the run has that begins with one: those that go on behind it too, up to so
/// many.
fn deletions_from(ops: &[Op], index: usize, id: Id, most: u64) -> u64
    requires all { ops.now ≡ operations (content_of ops.now) }
    requires some { 0 < most }
    requires within { is_in_range id.counter id.replica ≡ true }
    ensures count { result ≡ deletion_size (content_of ops.now) most id }
    ensures few { result ≤ most }
{
    let mut count = 1u64;
    let mut last = id;
    let mut near = index;
    'deletions: while count < most {
        let Some(next) = next_deleted(ops, &mut near, last) else {
            break;
        };
        count += 1;
        last = next;
    }
    count
}

/// The identifier behind the last one of a run of deletions, if it is deleted.
fn next_deleted(ops: &[Op], near: &mut usize, last: Id) -> Option<Id>
    requires all { ops.now ≡ operations (content_of ops.now) }
    requires within { is_in_range last.counter last.replica ≡ true }
    ensures { result
        ≡ (if is_next_deleted (content_of ops.now) last then Some (next last) else None) }
{
    let Ok(following) = Id::new(last.counter() + 1, last.replica()) else {
        return None;
    };
    if is_deleted_in(ops, near, following) {
        Some(following)
    } else {
        None
    }
}

/// The line of a run of deletions, or of a deletion where it is a run of one.
fn deletion_line(alloc: Global, run: &DeletionRun) -> Result<String, OutOfMemory>
    ensures { IfOk result (λ s. string_bytes s ≡ deletion_line run.now) }
{
    if run.count == 1 {
        write_line(alloc, &Op::Delete { id: run.id })
    } else {
        write_deletion_run(alloc, run)
    }
}

/// The line of the run that an insertion begins, unless it is in one.
fn run_line(
    alloc: Global,
    ops: &[Op],
    index: usize,
    id: Id,
    parent: Id,
    ch: char,
    ends: &mut RunEnds,
) -> Result<Option<String>, OutOfMemory>
    requires all { ops.now ≡ operations (content_of ops.now) }
    requires checked { checked (Insert id parent ch) ≡ Ok tt }
    ensures line { IfOk result (λ line. option_map_or (λ text. string_bytes text ∷ []) line []
        ≡ lines_at (content_of ops.now) 1 (slice_index ends.old) (slice_index ends.old)
        (Insert id parent ch)) }
    ensures ends { OnOk result ((replica : ℕ) → slice_index ends.new replica
        ≡ ends_behind (content_of ops.now) (slice_index ends.old) (Insert id parent ch) replica) }
{
    let rises = parent.counter() < id.counter();
    prove!(rises);
    if ends.covers(id) {
        return Ok(None);
    }
    let run = run_from(alloc, ops, index, id, parent, ch)?;
    ends.note(id, run.chars.len() as u64);
    let line = shortest_line(alloc, &run)?;
    Ok(Some(line))
}

/// The run that begins with an insertion: with those that go on behind it, up to `MAX_RUN`
/// characters.
fn run_from(
    alloc: Global,
    ops: &[Op],
    index: usize,
    id: Id,
    parent: Id,
    ch: char,
) -> Result<Run, AllocError>
    requires all { ops.now ≡ operations (content_of ops.now) }
    requires rising { checked (Insert id parent ch) ≡ Ok tt }
    requires within { is_in_range id.counter id.replica ≡ true }
    ensures run { IfOk result (λ r. r ≡ run_of (content_of ops.now) (id, element parent ch)) }
    ensures whole { IfOk result (λ r. IsRun r) }
{
    let mut chars = Vec::new(alloc);
    chars.push(ch)?;
    let mut last = id;
    let mut near = index;
    'chars: while chars.len() < MAX_RUN {
        let Some((next, ch)) = next_in_run(ops, &mut near, last) else {
            break;
        };
        chars.push(ch)?;
        last = next;
    }
    Ok(Run { id, parent, chars })
}

/// The insertion that goes on with a run behind its last identifier: its own, and its character.
fn next_in_run(ops: &[Op], near: &mut usize, last: Id) -> Option<(Id, char)>
    requires all { ops.now ≡ operations (content_of ops.now) }
    requires within { is_in_range last.counter last.replica ≡ true }
    ensures { result ≡ option_map (λ ch. (next last, ch))
        (next_character (content_of ops.now) last) }
{
    let Ok(next) = Id::new(last.counter() + 1, last.replica()) else {
        return None;
    };
    let (parent, ch) = element_in(ops, near, next)?;
    if parent == last {
        Some((next, ch))
    } else {
        None
    }
}

/// The counter behind the last run of each replica, by its number; 0 where there is none.
#[derive(Drop)]
struct RunEnds {
    counters: Vec<u64>,
}

impl Model for RunEnds {
    ghost use Rattle.std.specs.Prelude.{◌≡◌, ℕ, List, length};

    ghost Value = { List ℕ };

    ghost view = { λ ends. ends.counters.items };

    ghost invariant = { λ ends. length ends.counters.items ≡ 65536 };
}

impl RunEnds {
    ghost use Rattle.std.specs.Prelude.{◌≡◌, ◌≤◌, ℕ, slice_index, IfOk};
    ghost use Rattle.rga_lines.specs.declared.run.TheConstants.{MAX_RUN};
    ghost use Rattle.rga_exchange.specs.Turns.{covers, ends_with};

    /// No run yet.
    fn new(alloc: Global) -> Result<Self, AllocError>
        ensures { IfOk result (λ ends. (replica : ℕ) → slice_index ends replica ≡ 0) }
    {
        let counters = vec![in alloc; 0u64; 65536]?;
        Ok(RunEnds { counters })
    }

    /// Whether an identifier that is behind all that begin a run is in the last run of its replica.
    fn covers(&self, id: Id) -> bool
        ensures { result ≡ covers (slice_index self.now) id }
    {
        id.counter() < self.counters[usize::from(id.replica())]
    }

    /// Notes the last run of its replica, by its first identifier and its size.
    fn note(&mut self, id: Id, size: u64)
        requires { size ≤ MAX_RUN }
        ensures { (replica : ℕ) → slice_index self.new replica
            ≡ ends_with (slice_index self.old) id size replica }
    {
        let end = id.counter() + size;
        self.counters[usize::from(id.replica())] = end;
    }
}
