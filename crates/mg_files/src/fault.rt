//! Why nothing was loaded, or not all exchanged.
ghost use Rattle.std.specs.Prelude.{◌≡◌};
ghost use Rattle.mg_files.specs.Faults.{load_fault, store_fault};
ghost use Rattle.mg_files.specs.Memory.{LoadMemory as Memory};
ghost use Rattle.mg_files.specs.declared.fault.ExchangeFault.TheVariants.{Link, Receive, Save, Send};

use crate::port::{LinkFault, PortFault};
use rga_exchange::{ReceiveFault, SendFault};
use rga_ops::{OutOfMemory, Refusal};
use std::alloc::AllocError;

/// Why nothing was loaded.
#[derive(Clone, Copy, PartialEq, Eq)]
pub enum LoadFault {
    /// The log is not read to its end. Never `Cut`, `Count`, `Read` or `Memory`.
    Log(ReceiveFault),
    /// The text is not UTF-8.
    NotText,
    /// The store refused: `BadId` of the replica, `Range` of the limit, `Full` where the text has
    /// more characters than the limit. Never `Memory`.
    Store(Refusal),
    /// A growth of memory was refused.
    Memory(OutOfMemory),
}

impl From<ReceiveFault> for LoadFault {
    ghost from_gives = { λ e fault. fault ≡ load_fault e };

    fn from(e: ReceiveFault) -> LoadFault {
        match e {
            ReceiveFault::Memory(memory) => LoadFault::Memory(memory),
            // The bytes of a log are in memory, whose reading does not fail.
            ReceiveFault::Read => LoadFault::Memory(OutOfMemory::from(AllocError)),
            _ => LoadFault::Log(e),
        }
    }
}

impl From<Refusal> for LoadFault {
    ghost from_gives = { λ e fault. fault ≡ store_fault e };

    fn from(e: Refusal) -> LoadFault {
        match e {
            Refusal::Memory(memory) => LoadFault::Memory(memory),
            _ => LoadFault::Store(e),
        }
    }
}

impl From<OutOfMemory> for LoadFault {
    ghost from_gives = { λ _ fault. fault ≡ Memory };

    fn from(memory: OutOfMemory) -> LoadFault {
        LoadFault::Memory(memory)
    }
}

impl From<AllocError> for LoadFault {
    ghost from_gives = { λ _ fault. fault ≡ Memory };

    fn from(refused: AllocError) -> LoadFault {
        LoadFault::Memory(OutOfMemory::from(refused))
    }
}

/// Why a buffer and a peer did not exchange all that they hold. What was taken of the peer stays.
#[derive(Clone, Copy)]
pub enum ExchangeFault {
    /// A save failed.
    Save(PortFault),
    /// A link was not opened, or the sending on it was not ended.
    Link(LinkFault),
    /// Not all was sent.
    Send(SendFault),
    /// The peer was not heard to its end.
    Receive(ReceiveFault),
}

impl From<PortFault> for ExchangeFault {
    ghost from_gives = { λ e fault. fault ≡ Save e };

    fn from(e: PortFault) -> ExchangeFault {
        ExchangeFault::Save(e)
    }
}

impl From<LinkFault> for ExchangeFault {
    ghost from_gives = { λ e fault. fault ≡ Link e };

    fn from(e: LinkFault) -> ExchangeFault {
        ExchangeFault::Link(e)
    }
}

impl From<SendFault> for ExchangeFault {
    ghost from_gives = { λ e fault. fault ≡ Send e };

    fn from(e: SendFault) -> ExchangeFault {
        ExchangeFault::Send(e)
    }
}

impl From<ReceiveFault> for ExchangeFault {
    ghost from_gives = { λ e fault. fault ≡ Receive e };

    fn from(e: ReceiveFault) -> ExchangeFault {
        ExchangeFault::Receive(e)
    }
}
