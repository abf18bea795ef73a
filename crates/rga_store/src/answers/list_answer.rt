//! The answer to a list of operations that is taken whole or not at all.
ghost use Rattle.std.specs.Prelude.{◌≡◌, ◌≢◌, ◌+◌, ℕ, None, Ok, Err, OnErr, IfOk, IfErr};
ghost use Rattle.std.specs.FinSet as finite_set;
ghost use Rattle.rga_ops.specs.Prelude.{Content, all_checked, content_of, element_at, join, known_count, known_ids, list_answer, Memory};
ghost use Rattle.rga_ops.specs.ListAnswer.{early_conflict, first_conflict};

use crate::answers::early_answer::check_each;
use rga_ops::{Id, Op, OutOfMemory, Refusal};
use std::alloc::Global;
use std::collections::{BTreeMap, BTreeSet};

/// What the answer to a list asks of a store, or of what a store keeps its elements in. None of the
/// calls takes memory.
pub trait Lookup {
    /// What it holds.
    ghost holds: { Self → Content };

    /// How many identifiers it may know.
    ghost may_know: { Self → ℕ };

    /// The parent and the character of an element that is inserted.
    fn element_of(&self, id: Id) -> Option<(Id, char)>
        ensures { result ≡ element_at (holds self.now) id };

    /// Whether an identifier is inserted, deleted or both.
    fn knows_of(&self, id: Id) -> bool
        ensures { result ≡ finite_set.contains (known_ids (holds self.now)) id };

    /// How many more identifiers it may know.
    fn room(&self) -> usize
        ensures { known_count (holds self.now) + result ≡ may_know self.now };
}

/// What is answered to a list that is taken whole or not at all.
///
/// Refusals, in this order: `BadId` or `BadOrder` of the first operation that is ill-formed;
/// `Conflict` of the first that conflicts with what is held or with one before it in the list;
/// `Full` where more identifiers would be known than the limit allows. `Memory` may come in the
/// place of any answer but that to an ill-formed operation, and to a conflict in front of which
/// nothing is inserted anew: these are found without memory.
pub fn answer_to_list<L: Lookup>(alloc: Global, held: &L, ops: &[Op]) -> Result<(), Refusal>
    ensures exact { result ≢ Err Memory →
        result ≡ list_answer (L.may_know held.now) (L.holds held.now) ops.now }
    ensures memory { result ≡ Err Memory → all_checked ops.now ≡ Ok tt }
    ensures early { result ≡ Err Memory →
        early_conflict (L.holds held.now) ops.now ≡ None }
{
    check_each(ops)?;
    if let Some(id) = first_conflict(alloc, held, ops)? {
        return Err(Refusal::Conflict(id));
    }
    if count_new_ids(alloc, held, ops)? > held.room() {
        return Err(Refusal::Full);
    }
    Ok(())
}

/// The identifier of the first operation that conflicts with what is held or with one before it in
/// the list. `Memory` alone, and only behind an insertion that is new.
fn first_conflict<L: Lookup>(alloc: Global, held: &L, ops: &[Op]) -> Result<Option<Id>, OutOfMemory>
    ensures ok { IfOk result (λ conflict. conflict ≡ first_conflict (L.holds held.now) ops.now) }
    ensures early { OnErr result (early_conflict (L.holds held.now) ops.now ≡ None) }
{
    let mut added = BTreeMap::new(alloc);
    for op in ops {
        if let Op::Insert { id, parent, ch } = op {
            match held.element_of(*id).or(added.get(id).copied()) {
                Some(element) if element == (*parent, *ch) => {}
                Some(_) => return Ok(Some(*id)),
                None => {
                    let _none = added.insert(*id, (*parent, *ch))?;
                }
            }
        }
    }
    Ok(None)
}

/// How many identifiers the list makes known that are not. `Memory` alone.
fn count_new_ids<L: Lookup>(alloc: Global, held: &L, ops: &[Op]) -> Result<usize, OutOfMemory>
    ensures ok { IfOk result (λ count. known_count (L.holds held.now) + count
        ≡ known_count (join (L.holds held.now) (content_of ops.now))) }
{
    let mut added = BTreeSet::new(alloc);
    for op in ops {
        let id = op.id();
        if !held.knows_of(id) {
            let _is_new = added.insert(id)?;
        }
    }
    Ok(added.len())
}
