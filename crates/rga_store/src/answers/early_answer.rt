//! The answer to a list, as far as it is found without memory.
ghost use Rattle.std.specs.Prelude.{◌≡◌, ℕ, None, Ok, Err, IfErr, OnOk};
ghost use Rattle.rga_ops.specs.Prelude.{all_checked, list_answer};
ghost use Rattle.rga_ops.specs.ListAnswer.{early_conflict};

use crate::text_store::TextStore;
use rga_ops::{Id, Op, Refusal};

/// What the first ill-formed operation is refused for.
pub(crate) fn check_each(ops: &[Op]) -> Result<(), Refusal>
    ensures { result ≡ all_checked ops.now }
{
    for op in ops {
        op.check()?;
    }
    Ok(())
}

/// What a store answers to a list that is taken whole or not at all, as far as this is found
/// without memory: `BadId` or `BadOrder` of the first operation that is ill-formed, and a
/// `Conflict` in front of which nothing is inserted anew. `Ok` where there is neither: the store
/// may still refuse the list, with `Memory` too.
pub fn early_answer_at<S: TextStore>(store: &S, ops: &[Op]) -> Result<(), Refusal>
    ensures refused { IfErr result (λ e. (limit : ℕ) →
        list_answer limit (S.content store.now) ops.now ≡ Err e) }
    ensures well_formed { OnOk result (all_checked ops.now ≡ Ok tt) }
    ensures early { OnOk result (early_conflict (S.content store.now) ops.now ≡ None) }
{
    check_each(ops)?;
    match early_conflict_at(store, ops) {
        Some(id) => Err(Refusal::Conflict(id)),
        None => Ok(()),
    }
}

/// The identifier of the first operation that conflicts with what the store holds, unless something
/// is inserted anew before.
fn early_conflict_at<S: TextStore>(store: &S, ops: &[Op]) -> Option<Id>
    ensures { result ≡ early_conflict (S.content store.now) ops.now }
{
    for op in ops {
        let Op::Insert { id, parent, ch } = op else {
            continue;
        };
        let Some(element) = store.get(*id) else {
            return None;
        };
        if element != (*parent, *ch) {
            return Some(*id);
        }
    }
    None
}
