//! Why the editor did not do what it was asked.
use mg_files::{ExchangeFault, LoadFault, PortFault};
use std::alloc::AllocError;

/// Why a request was not carried out.
#[derive(Clone, Copy)]
pub enum CarryFault {
    /// The port did not do what it was asked.
    Port(PortFault),
    /// What was found is not loaded.
    Load(LoadFault),
    /// The current buffer and a peer did not exchange all that they hold.
    Exchange(ExchangeFault),
}

impl From<PortFault> for CarryFault {
    ghost use Rattle.std.specs.Prelude.{◌≡◌};
    ghost use Rattle.mg_editor.specs.declared.fault.CarryFault.TheVariants.{Port};

    ghost from_gives = { λ e fault. fault ≡ Port e };

    fn from(e: PortFault) -> CarryFault {
        CarryFault::Port(e)
    }
}

impl From<LoadFault> for CarryFault {
    ghost use Rattle.std.specs.Prelude.{◌≡◌};
    ghost use Rattle.mg_editor.specs.declared.fault.CarryFault.TheVariants.{Load};

    ghost from_gives = { λ e fault. fault ≡ Load e };

    fn from(e: LoadFault) -> CarryFault {
        CarryFault::Load(e)
    }
}

impl From<AllocError> for CarryFault {
    ghost use Rattle.std.specs.Prelude.{◌≡◌};
    ghost use Rattle.mg_files.specs.Memory.{LoadMemory as Memory};
    ghost use Rattle.mg_editor.specs.declared.fault.CarryFault.TheVariants.{Load};

    ghost from_gives = { λ _ fault. fault ≡ Load Memory };

    fn from(refused: AllocError) -> CarryFault {
        CarryFault::Load(LoadFault::from(refused))
    }
}
