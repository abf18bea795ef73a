//! The operations of a list that were taken, each noted for the way back.
ghost use Rattle.std.specs.Prelude.{◌≡◌, ◌<◌, ◌++◌, ◌∷◌, [], vec_len, vec_capacity};

use rga_ops::Op;

/// An operation of a list that was new, and the clock from before it.
#[derive(Drop)]
pub struct Step<'a> {
    pub op: &'a Op,
    pub clock: u64,
}

/// Notes an operation, for which there is room. Takes no memory.
#[inline(always)]
pub fn note<'a>(steps: &mut Vec<Step<'a>>, op: &'a Op, clock: u64)
    requires { vec_len steps.old < vec_capacity steps.old }
    ensures noted { steps.new.items ≡ steps.old.items ++ record { op = op.entry; clock = clock } ∷ [] }
    ensures capacity { vec_capacity steps.new ≡ vec_capacity steps.old }
{
    steps.push_reserved(Step { op, clock });
}
