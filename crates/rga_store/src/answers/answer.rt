//! The answer to an operation at a store.
ghost use Rattle.std.specs.Prelude.{◌≡◌};
ghost use Rattle.rga_ops.specs.Answer.{answer, facts};
ghost use Rattle.rga_ops.specs.Found.{facts_of};

use crate::text_store::TextStore;
use rga_ops::{Found, Id, Op, Refusal, Taken, answer_to};

/// What a store answers to an operation, want of memory aside: what `apply` then answers, or
/// `Memory` in the place of `New`.
///
/// Refusals, in this order: `BadId`, `BadOrder`, `Conflict`, `Full`. Takes no memory.
pub fn answer_at<S: TextStore>(store: &S, op: Op) -> Result<Taken, Refusal>
    ensures { result ≡ answer (S.limit store.now) (S.content store.now) op }
{
    answer_to(op, found_in(store, op.id()))
}

/// What the store knows of an identifier, and of its own room.
fn found_in<S: TextStore>(store: &S, id: Id) -> Found
    ensures { facts_of result ≡ facts (S.limit store.now) (S.content store.now) id }
{
    let element = store.get(id);
    let deleted = store.is_deleted(id);
    let known = store.known();
    let limit = store.limit();
    Found {
        element,
        deleted,
        known,
        limit,
    }
}
