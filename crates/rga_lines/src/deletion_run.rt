//! Runs of deletions.
ghost use Rattle.std.specs.Prelude.{◌≡◌, IfOk, IfErr};
ghost use Rattle.rga_lines.specs.Runs.{run_deletions, IsDeletionRun};

use crate::fault::LineFault;
use rga_ops::{Id, Op, OutOfMemory};
use std::alloc::Global;

/// Deletions of elements of one replica with rising counters: the identifier of the first one, and
/// how many they are.
#[derive(Clone, Copy)]
pub struct DeletionRun {
    pub id: Id,
    pub count: u64,
}

impl DeletionRun {
    /// The deletions that it stands for. The caller sees to it that these are 1 to `MAX_RUN`, of
    /// elements whose last one's counter is in range; `line_of` gives no other. `Memory` is the
    /// only refusal.
    pub fn ops(&self, alloc: Global) -> Result<Vec<Op>, OutOfMemory>
        requires { IsDeletionRun self.now }
        ensures ok { IfOk result (λ ops. ops.items ≡ run_deletions self.now) }
    {
        let mut ops = Vec::with_capacity(alloc, self.count as usize)?;
        let replica = self.id.replica();
        let mut counter = self.id.counter();
        let mut left = self.count;
        'deletions: while left > 0 {
            let Ok(id) = Id::new(counter, replica) else {
                unreachable!()
            };
            ops.push(Op::Delete { id })?;
            counter += 1;
            left -= 1;
        }
        Ok(ops)
    }
}
