//! Which insertions stay, where several of one identifier differ.
ghost use Rattle.std.specs.Prelude.{◌≡◌, ◌∷◌, [], ◌++◌, List, map, Some, Ok, IfOk, OnOk, Contains, ◌&&◌, ◌==◌, if◌then◌else◌};
ghost use Rattle.indexmap.specs.IndexMap.{get};
ghost use Rattle.rga_ops.specs.Identifier.{Identifier, is_id};
ghost use Rattle.rga_ops.specs.Operation.{checked};
ghost use Rattle.rga_ops.specs.declared.op.Op.TheVariants.{Insert, Delete};
ghost use Rattle.rga_lines.specs.Spelling.{IsWritable};
ghost use Rattle.rga_ops.specs.declared.op.Op.{Op as SpecOp};
ghost use Rattle.mgr_mend.specs.Mending as spec;
ghost use Rattle.mgr_mend.specs.Parts.{judged, AreWritableIfSound, HasLeast};

use indexmap::IndexMap;
use rga_lines::write_line;
use rga_ops::{Id, Op, OutOfMemory};
use std::alloc::Global;
use std::cmp::Ordering;

/// An operation, and whether another insertion is kept in its place.
#[derive(Clone, Copy)]
pub(crate) struct Judged {
    pub(crate) op: Op,
    pub(crate) beaten: bool,
}

/// Finds which of the operations are beaten: the insertions of an identifier but those with the
/// least line.
pub(crate) fn judge(alloc: Global, ops: &[Op]) -> Result<Vec<Judged>, OutOfMemory>
    ensures list { IfOk result (λ list. list.items ≡ map (judged ops.now) ops.now) }
    // What is well-formed can be read back.
    ensures writable { OnOk result (AreWritableIfSound ops.now) }
{
    let least = least_insertions(alloc, ops)?;
    let mut list = Vec::with_capacity(alloc, ops.len())?;
    for op in ops {
        tell_writable(op);
        let beaten = is_beaten(alloc, &least, op)?;
        list.push(Judged { op: *op, beaten })?;
    }
    Ok(list)
}

/// Of a well-formed operation the identifiers and the character say that it can be read back.
fn tell_writable(op: &Op)
    ensures { checked op.now ≡ Ok tt → IsWritable op.now }
{
    match op {
        Op::Insert { id, parent, ch } => tell_insertion_writable(id, parent, *ch),
        Op::Delete { id } => tell_deletion_writable(id),
    }
}

#[tactic(auto, using(rga_lines::proofs::WritableLemmas::insertion_writable))]
fn tell_insertion_writable(id: &Id, parent: &Id, ch: char)
    ensures { let op = Insert id.now parent.now ch in checked op ≡ Ok tt → IsWritable op }
{
    let _own = id.counter();
    let _above = parent.counter();
    let _ch = ch;
}

#[tactic(auto, using(rga_lines::proofs::WritableLemmas::deletion_writable))]
fn tell_deletion_writable(id: &Id)
    ensures { checked (Delete id.now) ≡ Ok tt → IsWritable (Delete id.now) }
{
    let _own = id.counter();
}

/// Of each identifier that is inserted the insertion with the least line.
fn least_insertions(alloc: Global, ops: &[Op]) -> Result<IndexMap<Id, Op>, OutOfMemory>
    ensures { IfOk result (λ least. HasLeast ops.now least) }
{
    let mut least = IndexMap::new(alloc);
    for op in ops {
        put_least(alloc, &mut least, op)?;
    }
    Ok(least)
}

/// Puts an insertion into the place of the one that it beats, or where there is none.
fn put_least(alloc: Global, least: &mut IndexMap<Id, Op>, op: &Op) -> Result<(), OutOfMemory>
    ensures { OnOk result ((ops : List SpecOp) → HasLeast ops least.old
        → HasLeast (ops ++ op.now ∷ []) least.new) }
{
    let Op::Insert { id, .. } = op else {
        return Ok(());
    };
    let Some(known) = least_of(least, *id) else {
        return enter(least, *id, *op);
    };
    if beats(alloc, op, &known)? {
        enter(least, *id, *op)
    } else {
        Ok(())
    }
}

/// The least insertion of an identifier, if it has one.
fn least_of(least: &IndexMap<Id, Op>, id: Id) -> Option<Op>
    ensures { result ≡ get is_id least.now id }
{
    least.get(&id).copied()
}

/// Puts an insertion in the place of its identifier.
fn enter(least: &mut IndexMap<Id, Op>, id: Id, op: Op) -> Result<(), OutOfMemory>
    ensures { OnOk result ((other : Identifier) → get is_id least.new other
        ≡ (if is_id id other then Some op else get is_id least.old other)) }
{
    least.insert(id, op)?;
    Ok(())
}

/// Whether the least insertion of its identifier beats the operation.
fn is_beaten(alloc: Global, least: &IndexMap<Id, Op>, op: &Op) -> Result<bool, OutOfMemory>
    ensures { IfOk result (λ beaten. (ops : List SpecOp) → HasLeast ops least.now
        → Contains ops op.now → beaten ≡ spec.is_beaten ops op.now) }
{
    let Op::Insert { id, .. } = op else {
        return Ok(false);
    };
    match least_of(least, *id) {
        Some(known) => beats(alloc, &known, op),
        None => Ok(false),
    }
}

/// Whether both are insertions of one identifier, and the line of the first is less.
fn beats(alloc: Global, op: &Op, other: &Op) -> Result<bool, OutOfMemory>
    ensures { IfOk result (λ less. less ≡ spec.beats op.now other.now) }
{
    match (op, other) {
        (
            Op::Insert { id, parent, ch },
            Op::Insert {
                id: same,
                parent: above,
                ch: char,
            },
        ) if id == same => {
            if is_same_element(*parent, *ch, *above, *char) {
                return Ok(false);
            }
            is_less(alloc, op, other)
        }
        _ => Ok(false),
    }
}

/// Whether two insertions have the same parent and the same character.
fn is_same_element(parent: Id, ch: char, above: Id, char: char) -> bool
    ensures { result ≡ (is_id parent above && (ch == char)) }
{
    parent == above && ch == char
}

/// Whether the line of the first operation is less, byte by byte.
fn is_less(alloc: Global, op: &Op, other: &Op) -> Result<bool, OutOfMemory>
    ensures { IfOk result (λ less. less ≡ spec.is_less_line op.now other.now) }
{
    let line = write_line(alloc, op)?;
    let other_line = write_line(alloc, other)?;
    Ok(line.as_bytes().cmp(other_line.as_bytes()) == Ordering::Less)
}
