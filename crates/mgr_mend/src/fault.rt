//! Why logs are not merged.
ghost use Rattle.std.specs.Prelude.{◌≡◌};
ghost use Rattle.mgr_mend.specs.Merging.{at_log, load_fault, port_fault};
ghost use Rattle.mgr_mend.specs.Memory.{MergeMemory as Memory};

use crate::merged::Torn;
use mg_files::{LoadFault, PortFault};
use mgr_show::ShowFault;
use rga_ops::OutOfMemory;
use std::alloc::AllocError;

/// Why `mgr merge` leaves a note as it was, or, with `File` and `Memory`, may have written a part
/// of it. Logs are named by their index, from 0.
#[derive(Drop)]
pub enum MergeFault {
    /// There is a text under the name, and no log: its characters are in no operation.
    NoLog,
    /// What stands under the name is not loaded.
    Load(LoadFault),
    /// This log is refused or can't be read.
    Log(usize, ShowFault),
    /// This log has operations, the note or a log before it has some, and none of the log's is tied
    /// to these.
    Apart(usize),
    /// An operation of this log is new, and its counter is more than 2^32 above all that the note
    /// knows.
    Far(usize),
    /// Nothing is new, and the text that stands there is neither the note's nor that of a log. These
    /// logs had a last line that was cut off and left out.
    TextStays(Vec<Torn>),
    /// A file of the note could not be read or written, or something else has it open.
    File,
    /// A growth of memory was refused.
    Memory(OutOfMemory),
}

impl From<OutOfMemory> for MergeFault {
    ghost from_gives = { λ _ fault. fault ≡ Memory };

    fn from(memory: OutOfMemory) -> MergeFault {
        MergeFault::Memory(memory)
    }
}

impl From<AllocError> for MergeFault {
    ghost from_gives = { λ _ fault. fault ≡ Memory };

    fn from(refused: AllocError) -> MergeFault {
        MergeFault::Memory(OutOfMemory::from(refused))
    }
}

impl From<PortFault> for MergeFault {
    ghost from_gives = { λ fault e. e ≡ port_fault fault };

    fn from(fault: PortFault) -> MergeFault {
        match fault {
            PortFault::File => MergeFault::File,
            PortFault::Memory(memory) => MergeFault::Memory(memory),
        }
    }
}

impl From<LoadFault> for MergeFault {
    ghost from_gives = { λ fault e. e ≡ load_fault fault };

    fn from(fault: LoadFault) -> MergeFault {
        match fault {
            LoadFault::Memory(memory) => MergeFault::Memory(memory),
            other => MergeFault::Load(other),
        }
    }
}

impl MergeFault {
    /// The fault of the log with this index: memory is no log's.
    pub(crate) fn at_log(index: usize, fault: ShowFault) -> MergeFault
        ensures { result ≡ at_log index fault }
    {
        match fault {
            ShowFault::Memory(memory) => MergeFault::Memory(memory),
            other => MergeFault::Log(index, other),
        }
    }
}
