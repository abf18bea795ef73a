//! Why operations are not sent, or not taken, or not all of them.
ghost use Rattle.std.specs.Prelude.{◌≡◌};
ghost use Rattle.rga_exchange.specs.Memory.{SendMemory, LogMemory, ReceiveMemory};
ghost use Rattle.rga_exchange.specs.Receiving.{receive_fault};

use rga_lines::LineFault;
use rga_ops::{OutOfMemory, Refusal};
use std::alloc::{AllocError, AllocFailed};

/// Why operations were not sent. Whatever was written is a beginning of the text.
#[derive(Clone, Copy, Debug, PartialEq, Eq)]
pub enum SendFault {
    /// The device failed.
    Write,
    /// A growth of memory was refused.
    Memory(OutOfMemory),
}

impl SendFault {
    /// The refusal of memory that kept operations from being written into memory: a `Vec` that is
    /// written to fails for no other cause.
    pub fn in_memory(self) -> OutOfMemory {
        match self {
            SendFault::Memory(memory) => memory,
            SendFault::Write => OutOfMemory::from(AllocError),
        }
    }
}

impl From<OutOfMemory> for SendFault {
    ghost from_gives = { λ _ fault. fault ≡ SendMemory };

    fn from(memory: OutOfMemory) -> SendFault {
        SendFault::Memory(memory)
    }
}

impl From<AllocError> for SendFault {
    ghost from_gives = { λ _ fault. fault ≡ SendMemory };

    fn from(refused: AllocError) -> SendFault {
        SendFault::Memory(OutOfMemory::from(refused))
    }
}

impl From<std::io::Error> for SendFault {
    ghost use Rattle.std.specs.Prelude.{◌≡◌};
    ghost use Rattle.rga_exchange.specs.declared.fault.SendFault.TheVariants.{Write};

    ghost from_gives = { λ _ fault. fault ≡ Write };

    fn from(_: std::io::Error) -> SendFault {
        SendFault::Write
    }
}

/// Why a log is not read to its end. Lines count from 1. The operations of the lines before the
/// fault are taken.
#[derive(Clone, Copy)]
pub enum LogFault {
    /// The line is no operation.
    Line(u64, LineFault),
    /// The operation of the line was refused.
    Refused(u64, Refusal),
    /// The device failed.
    Read,
    /// A growth of memory was refused.
    Memory(OutOfMemory),
}

impl From<OutOfMemory> for LogFault {
    ghost from_gives = { λ _ fault. fault ≡ LogMemory };

    fn from(memory: OutOfMemory) -> LogFault {
        LogFault::Memory(memory)
    }
}

/// Why an exchange is not received to its end. Lines count from 1. The operations of the lines
/// before the fault are taken; for `Cut` and `Count` these are all whole lines.
#[derive(Clone, Copy, Debug, PartialEq, Eq)]
pub enum ReceiveFault {
    /// The line is neither an operation nor the end line.
    Line(u64, LineFault),
    /// The input ended before the end line.
    Cut,
    /// The end line names another number of operations.
    Count,
    /// The device failed.
    Read,
    /// The operation of the line was refused.
    Refused(u64, Refusal),
    /// A growth of memory was refused.
    Memory(OutOfMemory),
}

impl From<OutOfMemory> for ReceiveFault {
    ghost from_gives = { λ _ fault. fault ≡ ReceiveMemory };

    fn from(memory: OutOfMemory) -> ReceiveFault {
        ReceiveFault::Memory(memory)
    }
}

/// A value that found no room is dropped.
impl<T: Drop> From<AllocFailed<T>> for ReceiveFault {
    ghost from_gives = { λ _ fault. fault ≡ ReceiveMemory };

    fn from(failed: AllocFailed<T>) -> ReceiveFault {
        ReceiveFault::Memory(OutOfMemory::from(failed))
    }
}

impl From<LogFault> for ReceiveFault {
    ghost from_gives = { λ fault e. e ≡ receive_fault fault };

    fn from(fault: LogFault) -> ReceiveFault {
        match fault {
            LogFault::Line(number, fault) => ReceiveFault::Line(number, fault),
            LogFault::Refused(number, refusal) => ReceiveFault::Refused(number, refusal),
            LogFault::Read => ReceiveFault::Read,
            LogFault::Memory(memory) => ReceiveFault::Memory(memory),
        }
    }
}
