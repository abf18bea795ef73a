//! Why an action was not done.
ghost use Rattle.std.specs.Prelude.{◌≡◌};
ghost use Rattle.mg_workspace.specs.Actions as spec;

use mg_buffer::BufferFault;
use mg_plain::Notice;
use mg_screen::WindowFault;
use rga_ops::{OutOfMemory, Refusal};
use std::alloc::AllocError;

/// What an action is refused for.
#[derive(Clone, Copy)]
pub enum Cause {
    /// What a command or an undo says of itself.
    Notice(Notice),
    /// The document has no room for more identifiers.
    BufferFull,
    /// No counter is left for a new identifier.
    IdentifiersUsedUp,
    WindowTooSmall,
    OnlyOneWindow,
    NoSuchBuffer,
    BufferIsChanged,
    OnlyOneBuffer,
}

/// Why an action was not done.
#[derive(Clone, Copy)]
pub enum ActionFault {
    /// It was refused, for that cause.
    Refused(Cause),
    /// A growth of memory was refused.
    Memory(OutOfMemory),
}

/// What a buffer answered, as what came of an action.
pub(crate) fn of_buffer(answer: Result<(), BufferFault>) -> Result<(), ActionFault>
    ensures { result ≡ spec.of_buffer answer }
{
    match answer {
        Ok(()) => Ok(()),
        Err(BufferFault::Notice(notice)) => Err(ActionFault::Refused(Cause::Notice(notice))),
        Err(BufferFault::Store(Refusal::Full)) => Err(ActionFault::Refused(Cause::BufferFull)),
        Err(BufferFault::Store(Refusal::Clock)) => {
            Err(ActionFault::Refused(Cause::IdentifiersUsedUp))
        }
        Err(BufferFault::Store(Refusal::Memory(memory))) => Err(ActionFault::Memory(memory)),
        // A buffer refuses for no other cause.
        Err(BufferFault::Store(_)) => Err(ActionFault::Memory(OutOfMemory::from(AllocError))),
    }
}

impl From<OutOfMemory> for ActionFault {
    ghost use Rattle.mg_workspace.specs.Memory.{ActionMemory};

    ghost from_gives = { λ _ fault. fault ≡ ActionMemory };

    fn from(memory: OutOfMemory) -> ActionFault {
        ActionFault::Memory(memory)
    }
}

impl From<AllocError> for ActionFault {
    ghost use Rattle.mg_workspace.specs.Memory.{ActionMemory};

    ghost from_gives = { λ _ fault. fault ≡ ActionMemory };

    fn from(refused: AllocError) -> ActionFault {
        ActionFault::Memory(OutOfMemory::from(refused))
    }
}

impl From<WindowFault> for ActionFault {
    ghost use Rattle.std.specs.Prelude.{◌≡◌};
    ghost use Rattle.mg_screen.specs.declared.windows.WindowFault.TheVariants as window;
    ghost use Rattle.mg_screen.specs.Memory.{WindowMemory};
    ghost use Rattle.mg_workspace.specs.declared.fault.ActionFault.TheVariants.{Refused};
    ghost use Rattle.mg_workspace.specs.Memory.{ActionMemory as Memory};
    ghost use Rattle.mg_workspace.specs.declared.fault.Cause.TheVariants.{WindowTooSmall, OnlyOneWindow};

    ghost from_gives = { λ e fault. (e ≡ window.TooSmall → fault ≡ Refused WindowTooSmall)
        × (e ≡ window.OnlyOne → fault ≡ Refused OnlyOneWindow)
        × (e ≡ WindowMemory → fault ≡ Memory) };

    fn from(e: WindowFault) -> ActionFault {
        match e {
            WindowFault::TooSmall => ActionFault::Refused(Cause::WindowTooSmall),
            WindowFault::OnlyOne => ActionFault::Refused(Cause::OnlyOneWindow),
            WindowFault::Memory(memory) => ActionFault::Memory(memory),
        }
    }
}
