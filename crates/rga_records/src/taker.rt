//! Records as what takes operations: a log is read into them whose text is asked for at its end.
ghost use Rattle.std.specs.Prelude.{◌≡◌, ◌≢◌, true, Ok, Err, OnOk, OnErr, IfErr};
ghost use Rattle.rga_ops.specs.Prelude.{Memory};
ghost use Rattle.rga_ops.specs.Answer.{taken_one_by_one};
ghost use Rattle.rga_store.specs.Growth.{has_unknown};

use crate::records_by_id::Records;
use crate::taking::{remove_from, take_noted, take_op};
use rga_ops::{Op, Refusal, Taken};
use rga_store::{Holder, Taker, answer_to_list, has_unknown};

impl Taker for Records {
    ghost use Rattle.rga_store.specs.Growth.{NeedsRoom};

    ghost content = { λ s. s.content };

    ghost limit = { λ s. s.limit };

    ghost may_grow = { λ s op. NeedsRoom s.content op };

    ghost follows = { λ s ops t. Unit {0} };

    ghost follows_nothing = { λ s. tt };

    ghost follows_on = { λ s t u xs ys a b. tt };

    fn apply(&mut self, op: Op) -> Result<Taken, Refusal> {
        take_op(self, &op)
    }

    fn apply_all(&mut self, ops: &[Op]) -> Result<(), Refusal> {
        let _known = self.known();
        let Err(refused) = take_whole(self, ops) else {
            return Ok(());
        };
        // Which refusal comes first depends on the whole list, so it is looked for only now.
        answer_to_list(self.alloc(), self, ops)?;
        Err(refused)
    }
}

impl Holder for Records {
    ghost held = { λ s. s.content };

    fn has(&self, op: &Op) -> bool {
        self.contains(op)
    }
}

/// Takes operations one by one, or none of them: the first that is refused leaves all as it was.
/// Memory may be refused before that one is found, but not if all is known.
fn take_whole(records: &mut Records, ops: &[Op]) -> Result<(), Refusal>
    ensures ok { OnOk result (taken_one_by_one records.old.limit records.old.content ops.now
        ≡ Ok records.new.content) }
    ensures refused { IfErr result (λ e. e ≢ Memory →
        taken_one_by_one records.old.limit records.old.content ops.now ≡ Err e) }
    ensures growth { OnErr result (has_unknown records.old.content ops.now ≡ true) }
    ensures same { OnErr result (records.new.content ≡ records.old.content) }
    ensures limit { records.new.limit ≡ records.old.limit }
{
    if !has_unknown(records, ops) {
        return Ok(());
    }
    let mut steps = Vec::with_capacity(records.alloc(), ops.len())?;
    for op in ops {
        if let Err(refusal) = take_noted(records, op, &mut steps) {
            remove_from(records, &mut steps, 0);
            return Err(refusal);
        }
    }
    Ok(())
}
