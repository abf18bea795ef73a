//! The buffer at an index: it takes operations from elsewhere, or runs a command.
ghost use Rattle.std.specs.Prelude.{◌≡◌, ◌≢◌, ◌<◌, [], ◌∷◌, None, Ok, Err, length, IfSome, OnOk, OnErr};
ghost use Rattle.rga_ops.specs.Prelude.{all_checked, answer, list_answer, Memory};
ghost use Rattle.rga_ops.specs.ListAnswer.{early_conflict};
ghost use Rattle.mg_workspace.specs.AtIndex as spec;
ghost use Rattle.mg_workspace.specs.Names.{buffer_named};

use crate::fault::{ActionFault, of_buffer};
use crate::workspace::Workspace;
use mg_plain::Command;
use rga_ops::{Op, Refusal, Taken};
use rga_store::{Taker, TextStore};

impl<S: TextStore> Workspace<S> {
    /// The index of the current buffer. Takes no memory.
    pub fn current_index(&self) -> usize
        ensures exact { result ≡ self.now.buffers.current }
        ensures within { result < length self.now.buffers.all }
    {
        self.buffers.current_index()
    }

    /// The index of the buffer of a name. Takes no memory.
    pub fn named(&self, name: &[char]) -> Option<usize>
        ensures exact { result ≡ buffer_named name.now self.now.buffers.all }
        ensures within { IfSome result (λ i. i < length self.now.buffers.all) }
    {
        self.buffers.named(name)
    }

    /// The buffer at an index takes an operation from elsewhere, with the answers of `Buffer`'s
    /// `apply`. Nothing else changes, and a refusal changes nothing.
    pub fn take_at(&mut self, index: usize, op: Op) -> Result<Taken, Refusal>
        requires { index < length self.old.buffers.all }
        ensures exact { let b = spec.state_at index self.old in result ≢ Err Memory →
            result ≡ answer b.limit b.content op }
        ensures memory { let b = spec.state_at index self.old in result ≡ Err Memory →
            answer b.limit b.content op ≡ Ok Taken.New }
        ensures taken { OnOk result
            (self.new ≡ spec.with_operations_at index (op ∷ []) self.old) }
        ensures same { OnErr result (self.new ≡ self.old) }
    {
        let opened = self.buffers.at_mut(index);
        opened.buffer.apply(op)
    }

    /// The buffer at an index takes operations from elsewhere, all or none, with the answers of
    /// `Buffer`'s `apply_all`. Nothing else changes, and a refusal changes nothing.
    pub fn take_all_at(&mut self, index: usize, ops: &[Op]) -> Result<(), Refusal>
        requires { index < length self.old.buffers.all }
        ensures exact { let b = spec.state_at index self.old in result ≢ Err Memory →
            result ≡ list_answer b.limit b.content ops.now }
        ensures memory { result ≡ Err Memory → all_checked ops.now ≡ Ok tt }
        ensures early { let b = spec.state_at index self.old in result ≡ Err Memory →
            early_conflict b.content ops.now ≡ None }
        ensures taken { OnOk result
            (self.new ≡ spec.with_operations_at index ops.now self.old) }
        ensures same { OnErr result (self.new ≡ self.old) }
    {
        let opened = self.buffers.at_mut(index);
        opened.buffer.apply_all(ops)
    }

    /// The buffer at an index runs a command, as the current one does. It need not be current, and
    /// the current one stays. A refusal changes nothing.
    pub fn run_at(
        &mut self,
        index: usize,
        command: &Command,
        argument: u16,
    ) -> Result<(), ActionFault>
        requires { index < length self.old.buffers.all }
        ensures ran { spec.RunsAt index command.now argument self.old (self.new, result) }
        ensures same { OnErr result (self.new ≡ self.old) }
    {
        let opened = self.buffers.at_mut(index);
        let answer = opened
            .buffer
            .run(command, argument, &mut self.memo, self.fill);
        of_buffer(answer)
    }
}
