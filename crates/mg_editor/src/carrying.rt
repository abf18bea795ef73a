//! Requests, carried to the files.
ghost use Rattle.std.specs.Prelude.{◌≡◌, ◌<◌, length, IfSome, encode_utf8_all};
ghost use Rattle.mg_workspace.specs.Buffers.{most_buffers};
ghost use Rattle.mg_workspace.specs.declared.failures.Task.TheVariants.{Exchange};
ghost use Rattle.mg_files.specs.Linking.{account, ExchangesOver};
ghost use Rattle.mg_files.specs.Meeting.{CountsFaults};
ghost use Rattle.mg_editor.specs.Carrying as spec;
ghost use Rattle.mg_editor.specs.Finding as finding;
ghost use Rattle.mg_editor.specs.Meeting as meeting;
ghost use Rattle.mg_editor.specs.Telling as telling;

use crate::editor::Editor;
use crate::fault::CarryFault;
use crate::opening::{message_of_end, open};
use mg_buffer::string_of;
use mg_files::{Port, PortFault, save};
use mg_minibuffer::{Message, Request};
use mg_workspace::Task;
use rga_exchange::LogEnd;
use rga_store::Teller;

/// What came of a save, be there something to save or not.
fn save_outcome(answer: Result<bool, PortFault>) -> Result<Message, CarryFault>
    ensures { result ≡ spec.save_outcome answer }
{
    match answer {
        Ok(true) => Ok(Message::Wrote),
        Ok(false) => Ok(Message::NoChanges),
        Err(fault) => Err(CarryFault::Port(fault)),
    }
}

/// What came of a buffer that was to be opened.
fn opening_outcome(answer: Result<LogEnd, CarryFault>) -> Result<Message, CarryFault>
    ensures { result ≡ finding.opening_outcome answer }
{
    match answer {
        Ok(end) => Ok(message_of_end(end)),
        Err(fault) => Err(fault),
    }
}

impl<S: Teller> Editor<S> {
    /// Carries a request to a port. `Save` saves the current buffer, as `mg_files::save` does,
    /// and says what came of it: that it was written, that there were no changes, or the fault. `Find`
    /// goes to the buffer of that name, which asks nothing of a port where it is open; else, unless
    /// as many buffers are open as may be, which is said, it is opened by what the port answers to
    /// the load of its name, and is current then, and a log that was torn is told. `Exchange` and
    /// `Serve` exchange the current buffer with a peer, as `mg_files::exchange` and `serve` do,
    /// and say how many operations were sent and received, or the fault. The other requests ask
    /// nothing of a port.
    ///
    /// Faults, which are said already: of `Save` and `Find` `Port` with those of the port, and of
    /// `Find` `Load` with those of `mg_files::load`, which leave text, point, mark, groups and
    /// all other buffers as they were, and open none; of `Exchange` and `Serve` `Exchange` with
    /// theirs, which leave what was taken before, and all other buffers as they were.
    pub fn carry<P: Port>(&mut self, request: Request, port: &mut P) -> Result<(), CarryFault>
        ensures carried { spec.Carried request
            (P.calls port.old) (P.calls port.new) self.old self.new result }
        ensures met { let a =
            account P.Link.remaining P.Link.contents P.links P.calls port.old port.new in
            IfSome (meeting.role_of request) (λ role. telling.ChangesCurrent Exchange
            (λ answer b d. ExchangesOver a b d role answer) meeting.meeting_outcome
            self.old self.new result) }
        ensures device { CountsFaults (telling.port_outcome result)
            (P.failures port.old) (P.failures port.new) }
    {
        match request {
            Request::Idle | Request::Quit => Ok(()),
            Request::Save => self.save(port),
            Request::Find(name) => self.find(name.as_slice(), port),
            Request::Exchange => self.exchange(port),
            Request::Serve => self.serve(port),
        }
    }

    /// The current buffer is saved, which is said.
    fn save<P: Port>(&mut self, port: &mut P) -> Result<(), CarryFault>
        ensures saved { spec.Carried Request.Save
            (P.calls port.old) (P.calls port.new) self.old self.new result }
        ensures device { CountsFaults (telling.port_outcome result)
            (P.failures port.old) (P.failures port.new) }
    {
        let answer = save(self.alloc, self.work.current_mut(), port);
        self.conclude_task(Task::Save, save_outcome(answer))
    }

    /// The buffer of a name is current, opened if need be.
    fn find<P: Port>(&mut self, name: &[char], port: &mut P) -> Result<(), CarryFault>
        ensures found { spec.Carried (Request.Find name.now)
            (P.calls port.old) (P.calls port.new) self.old self.new result }
        ensures device { CountsFaults (telling.port_outcome result)
            (P.failures port.old) (P.failures port.new) }
    {
        if self.work.visit(name) {
            return Ok(());
        }
        if self.work.is_full() {
            self.talk.tell(Message::TooManyBuffers);
            return Ok(());
        }
        let answer = self.load(name, port);
        self.conclude(opening_outcome(answer))
    }

    /// Opens the buffer of a name by what the port finds under it, and answers how its log ends.
    fn load<P: Port>(&mut self, name: &[char], port: &mut P) -> Result<LogEnd, CarryFault>
        requires { length self.old.work.buffers.all < most_buffers }
        ensures loads { finding.Loads (encode_utf8_all name.now)
            (P.calls port.old) (P.calls port.new) result self.old.work self.new.work }
        ensures talk { self.new.talk ≡ self.old.talk }
        ensures device { CountsFaults (telling.port_outcome result)
            (P.failures port.old) (P.failures port.new) }
    {
        let text = string_of(self.alloc, name)?;
        let found = port.load(text.as_str())?;
        Ok(open(self.alloc, &mut self.work, text.as_str(), found)?)
    }
}
