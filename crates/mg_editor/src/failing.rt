//! Why saves and exchanges failed.
ghost use Rattle.std.specs.Prelude.{◌≡◌};
ghost use Rattle.mg_workspace.specs.Failures.{first_standing};
ghost use Rattle.mg_workspace.specs.Workspaces.{with_task};
ghost use Rattle.mg_editor.specs.Failing as spec;
ghost use Rattle.mg_editor.specs.Telling as telling;

use crate::editor::Editor;
use crate::fault::CarryFault;
use mg_files::{ExchangeFault, LinkFault, PortFault};
use mg_minibuffer::Message;
use mg_workspace::{Failure, Task};
use rga_exchange::{ReceiveFault, SendFault};
use rga_store::TextStore;

pub(crate) fn port_failure(fault: PortFault) -> Failure
    ensures { result ≡ spec.port_failure fault }
{
    match fault {
        PortFault::File => Failure::Device,
        PortFault::Memory(_) => Failure::Memory,
    }
}

fn exchange_failure(fault: ExchangeFault) -> Failure
    ensures { result ≡ spec.exchange_failure fault }
{
    match fault {
        ExchangeFault::Save(fault) => port_failure(fault),
        ExchangeFault::Link(LinkFault::Socket | LinkFault::NoPort) => Failure::Device,
        ExchangeFault::Link(LinkFault::Memory(_)) => Failure::Memory,
        ExchangeFault::Send(SendFault::Write) => Failure::Device,
        ExchangeFault::Send(SendFault::Memory(_)) => Failure::Memory,
        ExchangeFault::Receive(ReceiveFault::Line(line, fault)) => Failure::Line(line, fault),
        ExchangeFault::Receive(ReceiveFault::Refused(line, refusal)) => {
            Failure::Refused(line, refusal)
        }
        ExchangeFault::Receive(ReceiveFault::Cut | ReceiveFault::Count | ReceiveFault::Read) => {
            Failure::Device
        }
        ExchangeFault::Receive(ReceiveFault::Memory(_)) => Failure::Memory,
    }
}

/// Why a save or an exchange failed, of which this came.
fn outcome_failure(outcome: &Result<Message, CarryFault>) -> Option<Failure>
    ensures { result ≡ spec.outcome_failure outcome.now }
{
    match outcome {
        Ok(_) | Err(CarryFault::Load(_)) => None,
        Err(CarryFault::Port(fault)) => Some(port_failure(*fault)),
        Err(CarryFault::Exchange(fault)) => Some(exchange_failure(*fault)),
    }
}

impl<S: TextStore> Editor<S> {
    /// Notes what came of a save or an exchange of the current buffer, says it, and answers it.
    pub(crate) fn conclude_task(
        &mut self,
        task: Task,
        outcome: Result<Message, CarryFault>,
    ) -> Result<(), CarryFault>
        ensures told { let work = with_task task (spec.outcome_failure outcome) self.old.work in
            self.new ≡ telling.editor_saying work (telling.outcome_message outcome) self.old }
        ensures answer { result ≡ telling.outcome_answer outcome }
    {
        self.work.note(task, outcome_failure(&outcome));
        self.conclude(outcome)
    }

    /// Why the first of the saves and exchanges failed that were not done since in their buffers.
    /// Takes no memory.
    pub fn failure(&self) -> Option<Failure>
        ensures { result ≡ first_standing self.now.work.failures }
    {
        self.work.failure()
    }
}
