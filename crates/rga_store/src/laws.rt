//! Theorems about replicas of any kind: stores, and whatever else takes operations.
//!
//! Each function does nothing: its contract is a theorem, which the check proves like any other
//! contract. What a store's methods answer is their own contract in `TextStore`.

ghost use Rattle.std.specs.Prelude.{◌≡◌, List};
ghost use Rattle.rga_ops.specs.Content.{IsAgreed, HasSameOperations};
ghost use Rattle.rga_ops.specs.Order.{order, text};
ghost use Rattle.rga_ops.specs.Took.{Took};
ghost use Rattle.rga_ops.specs.declared.op.Op.{Op as Operation};

use crate::taker::Taker;

/// Two replicas that took the same operations, in any order and with any repeats, one by one, as
/// lists or from other replicas, show the same elements in the same order, and the same text. The
/// premise is that the operations agree: no identifier names two insertions.
pub fn replicas_that_took_the_same_show_the_same<S: Taker, T: Taker>()
    ensures content { (xs ys : List Operation) (s : S) (t : T) →
        Took xs (S.content s) → Took ys (T.content t) → IsAgreed xs → HasSameOperations xs ys →
        S.content s ≡ T.content t }
    ensures order { (xs ys : List Operation) (s : S) (t : T) →
        Took xs (S.content s) → Took ys (T.content t) → IsAgreed xs → HasSameOperations xs ys →
        order (S.content s) ≡ order (T.content t) }
    ensures text { (xs ys : List Operation) (s : S) (t : T) →
        Took xs (S.content s) → Took ys (T.content t) → IsAgreed xs → HasSameOperations xs ys →
        text (S.content s) ≡ text (T.content t) }
{}
