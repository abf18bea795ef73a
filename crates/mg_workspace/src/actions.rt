//! Actions: what a step has the buffers and the windows do.
ghost use Rattle.std.specs.Prelude.{◌≡◌, Err};
ghost use Rattle.mg_workspace.specs.Memory.{ActionMemory as Memory};
ghost use Rattle.mg_workspace.specs.Actions as spec;

use crate::fault::{ActionFault, of_buffer};
use crate::workspace::Workspace;
use mg_minibuffer::Action;
use mg_plain::Command;
use rga_store::TextStore;

impl<S: TextStore> Workspace<S> {
    /// Does an action. Want of memory changes nothing.
    pub fn do_action(&mut self, action: &Action) -> Result<(), ActionFault>
        ensures done { spec.Done action.now self.old (self.new, result) }
        ensures kept { result ≡ Err Memory → self.new ≡ self.old }
    {
        match action {
            Action::Nothing => Ok(()),
            Action::EndRun => {
                self.idle();
                Ok(())
            }
            Action::Run(command, argument) => self.run(command, *argument),
            Action::Undo => self.undo(),
            Action::Arrange(arrangement) => self.arrange(*arrangement),
            Action::Switch(name) => self.switch(name.as_slice()),
            Action::Kill(name) => self.kill(name.as_slice()),
        }
    }

    /// The current buffer runs a command.
    pub fn run(&mut self, command: &Command, argument: u16) -> Result<(), ActionFault>
        ensures ran { spec.Done (Action.Run command.now argument) self.old (self.new, result) }
        ensures kept { result ≡ Err Memory → self.new ≡ self.old }
    {
        let current = self.buffers.current_mut();
        let answer = current
            .buffer
            .run(command, argument, &mut self.memo, self.fill);
        of_buffer(answer)
    }

    /// The current buffer undoes.
    fn undo(&mut self) -> Result<(), ActionFault>
        ensures undid { spec.Done Action.Undo self.old (self.new, result) }
        ensures kept { result ≡ Err Memory → self.new ≡ self.old }
    {
        let answer = self.buffers.current_mut().buffer.undo(&mut self.memo);
        of_buffer(answer)
    }

    /// A run of commands ends.
    fn idle(&mut self)
        ensures { self.new ≡ spec.idled_work self.old }
    {
        self.buffers.idle(&mut self.memo);
    }
}
