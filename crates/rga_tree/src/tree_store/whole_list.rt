//! Lists of operations, taken whole or not at all. What was taken of a list is removed again where
//! one of it is refused, and that takes no memory.
ghost use Rattle.std.specs.Prelude.{◌≡◌, ◌≢◌, true, Ok, Err, OnOk, OnErr, IfErr};
ghost use Rattle.rga_ops.specs.Prelude.{Memory};
ghost use Rattle.rga_ops.specs.Content.{join, single};
ghost use Rattle.rga_ops.specs.Answer.{answer, taken, taken_one_by_one};
ghost use Rattle.rga_store.specs.Back.{without_noted, CanTakeBack};
ghost use Rattle.rga_store.specs.Growth.{has_unknown};

use super::TreeStore;
use rga_ops::{Op, Refusal, Taken};
use rga_store::{Step, Taker, has_unknown, note};

impl TreeStore {
    /// Takes the operations one by one, or none of them: the first that is refused leaves all as it
    /// was. Memory may be refused before that one is found, but not if all is known.
    pub(super) fn take_whole(&mut self, ops: &[Op]) -> Result<(), Refusal>
        ensures ok { OnOk result
            (taken_one_by_one self.old.limit self.old.content ops.now ≡ Ok self.new.content) }
        ensures refused { IfErr result (λ e. e ≢ Memory →
            taken_one_by_one self.old.limit self.old.content ops.now ≡ Err e) }
        ensures growth { OnErr result (has_unknown self.old.content ops.now ≡ true) }
        ensures same { OnErr result (self.new.content ≡ self.old.content) }
        ensures limit { self.new.limit ≡ self.old.limit }
    {
        if !has_unknown(self, ops) {
            return Ok(());
        }
        let mut steps = Vec::with_capacity(self.alloc, ops.len())?;
        for op in ops {
            if let Err(refusal) = self.take_noted(op, &mut steps) {
                self.go_back(steps);
                return Err(refusal);
            }
        }
        Ok(())
    }

    /// Takes an operation, and notes it if it was new.
    fn take_noted<'a>(&mut self, op: &'a Op, steps: &mut Vec<Step<'a>>) -> Result<(), Refusal>
        requires { CanTakeBack steps.old.items self.old.content }
        ensures ok { OnOk result
            (taken self.old.limit self.old.content op.now ≡ Ok self.new.content) }
        ensures refused { IfErr result (λ e. e ≢ Memory →
            taken self.old.limit self.old.content op.now ≡ Err e) }
        ensures steps { CanTakeBack steps.new.items self.new.content }
        ensures start { without_noted steps.new.items self.new.content
            ≡ without_noted steps.old.items self.old.content }
        ensures limit { self.new.limit ≡ self.old.limit }
    {
        steps.reserve(1)?;
        let clock = self.clock;
        match self.take(op)? {
            Taken::Known => Ok(()),
            Taken::New => {
                note(steps, op, clock);
                Ok(())
            }
        }
    }

    /// Takes an operation as `apply` does, an insertion by one search less. For an insertion
    /// `Memory` may come in the place of any answer.
    fn take(&mut self, op: &Op) -> Result<Taken, Refusal>
        ensures exact { result ≢ Err Memory →
            result ≡ answer self.old.limit self.old.content op.now }
        ensures new { result ≡ Ok Taken.New →
            self.new.content ≡ join self.old.content (single op.now) }
        ensures same { result ≢ Ok Taken.New → self.new.content ≡ self.old.content }
        ensures limit { self.new.limit ≡ self.old.limit }
    {
        match op {
            Op::Insert { id, parent, ch } => self.insert(*id, *parent, *ch),
            Op::Delete { .. } => self.apply(*op),
        }
    }

    /// Removes the operations of the steps, the last first. Takes no memory.
    fn go_back(&mut self, mut steps: Vec<Step<'_>>)
        requires { CanTakeBack steps.items self.old.content }
        ensures content { self.new.content ≡ without_noted steps.entry.items self.old.content }
        ensures limit { self.new.limit ≡ self.old.limit }
    {
        while let Some(step) = steps.pop() {
            self.remove(step.op, step.clock);
        }
    }
}
