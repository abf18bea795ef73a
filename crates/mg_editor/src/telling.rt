//! What is said of requests and actions, and of their faults.
ghost use Rattle.std.specs.Prelude.{◌≡◌};
ghost use Rattle.mg_editor.specs.Telling as spec;

use crate::editor::Editor;
use crate::fault::CarryFault;
use mg_files::{ExchangeFault, LinkFault, LoadFault, PortFault};
use mg_minibuffer::Message;
use mg_plain::Notice;
use mg_workspace::Cause;
use rga_exchange::{ReceiveFault, SendFault};
use rga_store::TextStore;

/// What is said of an action that is refused.
pub(crate) fn message_of_cause(cause: Cause) -> Message
    ensures { result ≡ spec.message_of_cause cause }
{
    match cause {
        Cause::Notice(notice) => Message::Refused(notice),
        Cause::BufferFull => Message::BufferFull,
        Cause::IdentifiersUsedUp => Message::IdentifiersUsedUp,
        Cause::WindowTooSmall => Message::WindowTooSmall,
        Cause::OnlyOneWindow => Message::OnlyOneWindow,
        Cause::NoSuchBuffer => Message::NoSuchBuffer,
        Cause::BufferIsChanged => Message::BufferIsChanged,
        Cause::OnlyOneBuffer => Message::OnlyOneBuffer,
    }
}

/// What is said of a port that is asked for files.
fn message_of_port(fault: PortFault) -> Message
    ensures { result ≡ spec.message_of_port fault }
{
    match fault {
        PortFault::File => Message::FileFault,
        PortFault::Memory(memory) => Message::Refused(Notice::Memory(memory)),
    }
}

/// What is said of a buffer that is not loaded. Of a log only a line, or what it says, can be at
/// fault. Replica and limit of an editor are within theirs, so of a text only `Full` is refused.
fn message_of_load(fault: LoadFault) -> Message
    ensures { result ≡ spec.message_of_load fault }
{
    match fault {
        LoadFault::Log(ReceiveFault::Line(line, fault)) => Message::BadLine(line, fault),
        LoadFault::Log(ReceiveFault::Refused(line, refusal)) => {
            Message::RefusedLine(line, refusal)
        }
        LoadFault::Log(
            ReceiveFault::Cut | ReceiveFault::Count | ReceiveFault::Read | ReceiveFault::Memory(_),
        ) => Message::FileFault,
        LoadFault::NotText => Message::NotText,
        LoadFault::Store(_) => Message::BufferFull,
        LoadFault::Memory(memory) => Message::Refused(Notice::Memory(memory)),
    }
}

/// What is said of a meeting with a peer.
fn message_of_exchange(fault: ExchangeFault) -> Message
    ensures { result ≡ spec.message_of_exchange fault }
{
    match fault {
        ExchangeFault::Save(fault) => message_of_port(fault),
        ExchangeFault::Link(LinkFault::Socket) => Message::SocketFault,
        ExchangeFault::Link(LinkFault::NoPort) => Message::NoPort,
        ExchangeFault::Link(LinkFault::Memory(memory)) => Message::Refused(Notice::Memory(memory)),
        ExchangeFault::Send(SendFault::Write) => Message::SocketFault,
        ExchangeFault::Send(SendFault::Memory(memory)) => Message::Refused(Notice::Memory(memory)),
        ExchangeFault::Receive(ReceiveFault::Line(line, fault)) => Message::BadLine(line, fault),
        ExchangeFault::Receive(ReceiveFault::Refused(line, refusal)) => {
            Message::RefusedLine(line, refusal)
        }
        ExchangeFault::Receive(ReceiveFault::Cut) => Message::Cut,
        ExchangeFault::Receive(ReceiveFault::Count) => Message::WrongCount,
        ExchangeFault::Receive(ReceiveFault::Read) => Message::SocketFault,
        ExchangeFault::Receive(ReceiveFault::Memory(memory)) => {
            Message::Refused(Notice::Memory(memory))
        }
    }
}

/// What is said of a request that was not carried out.
fn message_of_fault(fault: CarryFault) -> Message
    ensures { result ≡ spec.message_of_fault fault }
{
    match fault {
        CarryFault::Port(fault) => message_of_port(fault),
        CarryFault::Load(fault) => message_of_load(fault),
        CarryFault::Exchange(fault) => message_of_exchange(fault),
    }
}

/// What is said of a request.
fn outcome_message(outcome: &Result<Message, CarryFault>) -> Message
    ensures { result ≡ spec.outcome_message outcome.now }
{
    match outcome {
        Ok(message) => *message,
        Err(fault) => message_of_fault(*fault),
    }
}

impl<S: TextStore> Editor<S> {
    /// Says what came of a request, and answers it.
    pub(crate) fn conclude(
        &mut self,
        outcome: Result<Message, CarryFault>,
    ) -> Result<(), CarryFault>
        ensures told { let said = spec.outcome_message outcome in
            self.new ≡ spec.editor_saying self.old.work said self.old }
        ensures answer { result ≡ spec.outcome_answer outcome }
    {
        self.talk.tell(outcome_message(&outcome));
        outcome?;
        Ok(())
    }
}
