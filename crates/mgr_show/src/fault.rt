//! Why commands that read logs end without what they are to write.
ghost use Rattle.std.specs.Prelude.{◌≡◌};
ghost use Rattle.mgr_show.specs.Memory.{ShowMemory, JoinMemory, MissingMemory};
ghost use Rattle.mgr_show.specs.Log.{show_fault};
ghost use Rattle.mgr_show.specs.Compacted.{send_fault};
ghost use Rattle.mgr_show.specs.Joined.{at_log, join_fault};
ghost use Rattle.mgr_show.specs.Missing.{send_fault as missing_fault};

use rga_exchange::{LogFault, ReceiveFault, SendFault};
use rga_lines::LineFault;
use rga_ops::{OutOfMemory, Refusal};
use std::alloc::AllocError;

/// Why `mgr show` ends without the whole text, or `mgr compact` without the whole log. Lines count
/// from 1.
#[derive(Clone, Copy, PartialEq, Eq)]
pub enum ShowFault {
    /// The line is no operation.
    Line(u64, LineFault),
    /// The operation of the line was refused.
    Refused(u64, Refusal),
    /// The last line, which has this number, has no newline and is no operation.
    Torn(u64),
    /// The device of the input failed.
    Read,
    /// The device of the output failed.
    Write,
    /// A growth of memory was refused.
    Memory(OutOfMemory),
}

impl From<OutOfMemory> for ShowFault {
    ghost from_gives = { λ _ fault. fault ≡ ShowMemory };

    fn from(memory: OutOfMemory) -> ShowFault {
        ShowFault::Memory(memory)
    }
}

impl From<AllocError> for ShowFault {
    ghost from_gives = { λ _ fault. fault ≡ ShowMemory };

    fn from(refused: AllocError) -> ShowFault {
        ShowFault::Memory(OutOfMemory::from(refused))
    }
}

impl From<LogFault> for ShowFault {
    ghost from_gives = { λ fault e. e ≡ show_fault fault };

    fn from(fault: LogFault) -> ShowFault {
        match fault {
            LogFault::Line(number, fault) => ShowFault::Line(number, fault),
            LogFault::Refused(number, refusal) => ShowFault::Refused(number, refusal),
            LogFault::Read => ShowFault::Read,
            LogFault::Memory(memory) => ShowFault::Memory(memory),
        }
    }
}

impl From<SendFault> for ShowFault {
    ghost from_gives = { λ fault e. e ≡ send_fault fault };

    fn from(fault: SendFault) -> ShowFault {
        match fault {
            SendFault::Write => ShowFault::Write,
            SendFault::Memory(memory) => ShowFault::Memory(memory),
        }
    }
}

/// Why `mgr join` ends without the whole join.
#[derive(Clone, Copy, PartialEq, Eq)]
pub enum JoinFault {
    /// The log with this index, from 0, is refused or can't be read: never `Write` or `Memory`.
    Log(usize, ShowFault),
    /// All logs were taken, and a counter is far above the number of identifiers that they know.
    Far,
    /// The device of the output failed.
    Write,
    /// A growth of memory was refused.
    Memory(OutOfMemory),
}

impl JoinFault {
    /// The fault of the log with this index: memory is no log's.
    pub(crate) fn at_log(index: usize, fault: ShowFault) -> JoinFault
        ensures { result ≡ at_log index fault }
    {
        match fault {
            ShowFault::Memory(memory) => JoinFault::Memory(memory),
            other => JoinFault::Log(index, other),
        }
    }
}

impl From<OutOfMemory> for JoinFault {
    ghost from_gives = { λ _ fault. fault ≡ JoinMemory };

    fn from(memory: OutOfMemory) -> JoinFault {
        JoinFault::Memory(memory)
    }
}

impl From<SendFault> for JoinFault {
    ghost from_gives = { λ fault e. e ≡ join_fault fault };

    fn from(fault: SendFault) -> JoinFault {
        match fault {
            SendFault::Write => JoinFault::Write,
            SendFault::Memory(memory) => JoinFault::Memory(memory),
        }
    }
}

/// Why `mgr missing` ends without all operations that are missing.
#[derive(Clone, Copy, PartialEq, Eq)]
pub enum MissingFault {
    /// The claims do not begin with their head.
    Head,
    /// The claims are refused or can't be read: `Line`, which has the number of the claim from 1,
    /// `Count`, `Cut` or `Read`.
    Claims(ReceiveFault),
    /// The log of the note is refused or can't be read: never `Torn`, `Write` or `Memory`.
    Log(ShowFault),
    /// The device of the output failed.
    Write,
    /// A growth of memory was refused.
    Memory(OutOfMemory),
}

impl From<OutOfMemory> for MissingFault {
    ghost from_gives = { λ _ fault. fault ≡ MissingMemory };

    fn from(memory: OutOfMemory) -> MissingFault {
        MissingFault::Memory(memory)
    }
}

impl From<SendFault> for MissingFault {
    ghost from_gives = { λ fault e. e ≡ missing_fault fault };

    fn from(fault: SendFault) -> MissingFault {
        match fault {
            SendFault::Write => MissingFault::Write,
            SendFault::Memory(memory) => MissingFault::Memory(memory),
        }
    }
}
