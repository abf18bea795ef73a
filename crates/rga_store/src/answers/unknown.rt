//! Lists of which all is known.
ghost use Rattle.std.specs.Prelude.{◌≡◌, ◌↔◌, ℕ, [], true, false, Ok};
ghost use Rattle.rga_ops.specs.Answer.{taken_one_by_one};
ghost use Rattle.rga_ops.specs.Content.{Content, Holds};
ghost use Rattle.rga_ops.specs.NewOperations.{new_operations};
ghost use Rattle.rga_ops.specs.Prelude.{content_of, join};
ghost use Rattle.rga_store.specs.Growth as spec;

use rga_ops::Op;

/// What can say whether it has an operation.
pub trait Holder {
    /// What it holds.
    ghost held: { Self → Content };

    /// Whether an operation is in what it holds. Takes no memory.
    fn has(&self, op: &Op) -> bool
        ensures { (result ≡ true) ↔ Holds (held self.now) op.now };
}

/// Whether some operation of a list is ill-formed, or not held. Else to take the list changes
/// nothing. Takes no memory.
pub fn has_unknown<H: Holder>(holder: &H, ops: &[Op]) -> bool
    ensures exact { result ≡ spec.has_unknown (H.held holder.now) ops.now }
    ensures taken { result ≡ false → (limit : ℕ) →
        taken_one_by_one limit (H.held holder.now) ops.now ≡ Ok (H.held holder.now) }
    ensures joined { result ≡ false →
        join (H.held holder.now) (content_of ops.now) ≡ H.held holder.now }
    ensures none_new { result ≡ false → new_operations (H.held holder.now) ops.now ≡ [] }
{
    is_any_unknown(holder, ops)
}

/// Whether one of these is ill-formed, or not held. Takes no memory.
fn is_any_unknown<H: Holder>(holder: &H, ops: &[Op]) -> bool
    ensures { result ≡ spec.has_unknown (H.held holder.now) ops.now }
{
    ops.iter().any(|op| is_unknown(holder, op))
}

/// Whether an operation is ill-formed, or not held. Takes no memory.
fn is_unknown<H: Holder>(holder: &H, op: &Op) -> bool
    ensures { result ≡ spec.is_unknown (H.held holder.now) op.now }
{
    op.check().is_err() || !holder.has(op)
}
