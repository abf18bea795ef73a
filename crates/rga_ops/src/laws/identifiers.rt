//! The order and the equality of identifiers.
ghost use Rattle.std.specs.Prelude.{◌≡◌};
ghost use Rattle.rga_ops.specs.Identifier.{Identifier, id_cmp, is_id};

use crate::id::Id;

/// Identifiers are ordered by counter, and then by replica; two are equal where both are.
pub fn identifiers_are_ordered_by_counter_and_replica()
    ensures order { (a b : Identifier) → ⟦<Id as Ord>⟧.cmp a b ≡ id_cmp a b }
    ensures equality { (a b : Identifier) → ⟦<Id as PartialEq>⟧.eq a b ≡ is_id a b }
{}
