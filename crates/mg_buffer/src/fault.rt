//! Why a command or an undo was refused.
ghost use Rattle.std.specs.Prelude.{◌≡◌};
ghost use Rattle.rga_ops.specs.Prelude.{Memory};
ghost use Rattle.mg_buffer.specs.declared.fault.BufferFault.TheVariants.{Store as StoreFault};

use mg_plain::Notice;
use rga_ops::{OutOfMemory, Refusal};

/// Why a command or an undo was refused. Nothing changed then.
#[derive(Clone, Copy, PartialEq, Eq)]
pub enum BufferFault {
    /// The text has nothing for it to work on. Never `Memory`.
    Notice(Notice),
    /// The document refused: `Full`, `Clock`, or `Memory`, also where the command found none.
    Store(Refusal),
}

impl From<Notice> for BufferFault {
    ghost use Rattle.std.specs.Prelude.{◌≡◌};
    ghost use Rattle.mg_buffer.specs.Faults.{fault_of};

    ghost from_gives = { λ notice fault. fault ≡ fault_of notice };

    fn from(notice: Notice) -> BufferFault {
        match notice {
            Notice::Memory(memory) => BufferFault::Store(Refusal::Memory(memory)),
            _ => BufferFault::Notice(notice),
        }
    }
}

impl From<Refusal> for BufferFault {
    ghost from_gives = { λ refusal fault. fault ≡ StoreFault refusal };

    fn from(refusal: Refusal) -> BufferFault {
        BufferFault::Store(refusal)
    }
}

impl From<OutOfMemory> for BufferFault {
    ghost from_gives = { λ _ fault. fault ≡ StoreFault Memory };

    fn from(memory: OutOfMemory) -> BufferFault {
        BufferFault::Store(Refusal::Memory(memory))
    }
}
