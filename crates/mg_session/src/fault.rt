//! Why a session ended early.
ghost use Rattle.std.specs.Prelude.{◌≡◌};
ghost use Rattle.mg_session.specs.Faults as spec;

use mg_files::{LoadFault, PortFault};
use mg_workspace::Failure;
use rga_ops::OutOfMemory;
use std::alloc::AllocError;

/// Why a session ended before the end of its keys, or did not begin.
#[derive(Clone, Copy, PartialEq, Eq)]
pub enum SessionFault {
    /// What was found is not loaded. Never `Memory`.
    Load(LoadFault),
    /// The files could not be read.
    File,
    /// The device of the keys failed.
    Keys,
    /// The device of the screen failed.
    Screen,
    /// A growth of memory was refused.
    Memory(OutOfMemory),
    /// Of a strict session: for that a save or an exchange failed, and none was done since.
    Failed(Failure),
}

impl From<AllocError> for SessionFault {
    ghost use Rattle.mg_session.specs.Memory.{SessionMemory};

    ghost from_gives = { λ _ fault. fault ≡ SessionMemory };

    fn from(refused: AllocError) -> SessionFault {
        SessionFault::Memory(OutOfMemory::from(refused))
    }
}

/// The fault of a load.
pub(crate) fn of_load(fault: LoadFault) -> SessionFault
    ensures { result ≡ spec.session_load_fault fault }
{
    match fault {
        LoadFault::Memory(memory) => SessionFault::Memory(memory),
        fault => SessionFault::Load(fault),
    }
}

/// The fault of a port that is asked for files.
pub(crate) fn of_port(fault: PortFault) -> SessionFault
    ensures { result ≡ spec.port_fault fault }
{
    match fault {
        PortFault::File => SessionFault::File,
        PortFault::Memory(memory) => SessionFault::Memory(memory),
    }
}
