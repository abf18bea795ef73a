//! Meetings of the current buffer with peers.
ghost use Rattle.std.specs.Prelude.{◌≡◌};
ghost use Rattle.mg_files.specs.Asking.{Connects, Waits};
ghost use Rattle.mg_files.specs.Linking.{account, ExchangesOver};
ghost use Rattle.mg_files.specs.Meeting.{CountsFaults};
ghost use Rattle.mg_workspace.specs.declared.failures.Task.TheVariants.{Exchange};
ghost use Rattle.mg_editor.specs.Carrying as carrying;
ghost use Rattle.mg_editor.specs.Meeting as spec;
ghost use Rattle.mg_editor.specs.Telling as telling;

use crate::editor::Editor;
use crate::fault::CarryFault;
use mg_files::{ExchangeFault, Exchanged, Port};
use mg_minibuffer::{Message, Request};
use mg_workspace::Task;
use rga_store::Teller;

/// What came of a meeting.
fn meeting_outcome(answer: Result<Exchanged, ExchangeFault>) -> Result<Message, CarryFault>
    ensures { result ≡ spec.meeting_outcome answer }
{
    match answer {
        Ok(exchanged) => Ok(Message::Exchanged(exchanged.sent, exchanged.received)),
        Err(fault) => Err(CarryFault::Exchange(fault)),
    }
}

impl<S: Teller> Editor<S> {
    /// The current buffer is exchanged with a peer that waits, which is said.
    pub(crate) fn exchange<P: Port>(&mut self, port: &mut P) -> Result<(), CarryFault>
        ensures told { carrying.Carried Request.Exchange
            (P.calls port.old) (P.calls port.new) self.old self.new result }
        ensures over { let a =
            account P.Link.remaining P.Link.contents P.links P.calls port.old port.new in
            telling.ChangesCurrent Exchange (λ answer b d. ExchangesOver a b d Connects answer)
            spec.meeting_outcome self.old self.new result }
        ensures device { CountsFaults (telling.port_outcome result)
            (P.failures port.old) (P.failures port.new) }
    {
        let answer = mg_files::exchange(self.alloc, self.work.current_mut(), port);
        self.conclude_task(Task::Exchange, meeting_outcome(answer))
    }

    /// The current buffer is exchanged with a peer that is waited for, which is said.
    pub(crate) fn serve<P: Port>(&mut self, port: &mut P) -> Result<(), CarryFault>
        ensures told { carrying.Carried Request.Serve
            (P.calls port.old) (P.calls port.new) self.old self.new result }
        ensures over { let a =
            account P.Link.remaining P.Link.contents P.links P.calls port.old port.new in
            telling.ChangesCurrent Exchange (λ answer b d. ExchangesOver a b d Waits answer)
            spec.meeting_outcome self.old self.new result }
        ensures device { CountsFaults (telling.port_outcome result)
            (P.failures port.old) (P.failures port.new) }
    {
        let answer = mg_files::serve(self.alloc, self.work.current_mut(), port);
        self.conclude_task(Task::Exchange, meeting_outcome(answer))
    }
}
