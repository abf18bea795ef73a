//! Runs of insertions.
ghost use Rattle.std.specs.Prelude.{◌≡◌, IfOk, IfErr};
ghost use Rattle.rga_lines.specs.Runs.{Stretch, stretch, stretch_code, stretch_operations, IsRun};

use crate::fault::LineFault;
use rga_ops::{Id, Op, OutOfMemory};
use std::alloc::Global;
use std::marker::Model;

/// The most operations of a run: the characters of one of insertions, or deletions.
pub const MAX_RUN: usize = 4096;

/// Insertions of one replica with rising counters, each after the one before it: the first one's
/// identifier and parent, and the characters.
#[derive(Drop)]
pub struct Run {
    pub id: Id,
    pub parent: Id,
    pub chars: Vec<char>,
}

impl Model for Run {
    ghost Value = { Stretch };

    ghost coded = { stretch_code };

    ghost view = { λ r. stretch r.id r.parent r.chars.items };
}

impl Run {
    /// The insertions that it stands for. The caller sees to it that it has 1 to `MAX_RUN`
    /// characters, that the last one's counter is in range, and that its own counter is above its
    /// parent's; `line_of` gives no other. `Memory` is the only refusal.
    pub fn ops(&self, alloc: Global) -> Result<Vec<Op>, OutOfMemory>
        requires { IsRun self.now }
        ensures ok { IfOk result (λ ops. ops.items ≡ stretch_operations self.now) }
    {
        let mut ops = Vec::with_capacity(alloc, self.chars.len())?;
        let mut counter = self.id.counter();
        let replica = self.id.replica();
        let mut parent = self.parent;
        let mut rest = self.chars.as_slice();
        'chars: while let Some((ch, behind)) = rest.split_first() {
            let Ok(id) = Id::new(counter, replica) else {
                unreachable!()
            };
            let op = Op::Insert {
                id,
                parent,
                ch: *ch,
            };
            ops.push(op)?;
            parent = id;
            counter += 1;
            rest = behind;
        }
        Ok(ops)
    }
}
