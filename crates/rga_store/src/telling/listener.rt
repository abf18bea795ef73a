//! What is told operations.
ghost use Rattle.std.specs.Prelude.{◌≡◌, List, [], ◌∷◌, ◌++◌, OnOk, IfErr};
ghost use Rattle.rga_ops.specs.declared.op.Op.{Op as Operation};

use rga_ops::{Op, OutOfMemory};

/// Something that is told operations, one by one.
pub trait Listener {
    /// What these operations, told in turn, may make of the first state: the second.
    ghost hears: { Self → List Operation → Self → Type 0 };

    /// To be told nothing changes nothing.
    ghost hears_nothing: { (s : Self) → hears s [] s };

    /// Operations may be told in parts.
    ghost hears_on: { (s t u : Self) (xs ys : List Operation) →
        hears s xs t → hears t ys u → hears s (xs ++ ys) u };

    /// Is told an operation. `Memory` alone.
    fn hear(&mut self, op: &Op) -> Result<(), OutOfMemory>
        ensures ok { OnOk result (hears self.old (op.now ∷ []) self.new) };
}
