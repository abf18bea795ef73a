//! The answers to an operation.
ghost use Rattle.std.specs.Prelude.{◌≡◌};
ghost use Rattle.rga_ops.specs.Memory.{Memory as NoMemory};
ghost use Rattle.rga_ops.specs.RefusalName.{refusal_name};

use crate::id::Id;
use crate::out_of_memory::OutOfMemory;
use std::alloc::{AllocError, AllocFailed};

/// How an operation was taken.
#[derive(Clone, Copy, Debug, PartialEq, Eq)]
pub enum Taken {
    /// It was not in the content, and is now.
    New,
    /// It was in the content already, which stays as it is.
    Known,
}

/// Why something was refused. Where several hold, the one that stands first here is answered; of a
/// list the first ill-formed operation counts, and `Memory` may come in the place of what takes
/// memory to find. A refusal changes nothing.
#[derive(Clone, Copy, Debug, PartialEq, Eq)]
pub enum Refusal {
    /// No identifier of an element: out of range, or the root.
    BadId,
    /// An insertion whose counter is not above its parent's.
    BadOrder,
    /// Another insertion has this identifier.
    Conflict(Id),
    /// As many identifiers are known as the limit allows.
    Full,
    /// A number, or a place in the text, out of range.
    Range,
    /// No counters are left.
    Clock,
    /// A growth of memory was refused.
    Memory(OutOfMemory),
}

impl Refusal {
    /// The refusal's name, as it is printed.
    pub fn name(self) -> &'static str
        ensures { result.now ≡ refusal_name self }
    {
        match self {
            Refusal::BadId => "BadId",
            Refusal::BadOrder => "BadOrder",
            Refusal::Conflict(_) => "Conflict",
            Refusal::Full => "Full",
            Refusal::Range => "Range",
            Refusal::Clock => "Clock",
            Refusal::Memory(_) => "Memory",
        }
    }

    /// What was answered of memory, for whoever knows that nothing else was refused.
    pub fn memory(self) -> OutOfMemory
        requires { self ≡ NoMemory }
    {
        match self {
            Refusal::Memory(memory) => memory,
            _ => unreachable!(),
        }
    }
}

impl From<OutOfMemory> for Refusal {
    ghost from_gives = { λ _ refusal. refusal ≡ NoMemory };

    fn from(memory: OutOfMemory) -> Refusal {
        Refusal::Memory(memory)
    }
}

impl From<AllocError> for Refusal {
    ghost from_gives = { λ _ refusal. refusal ≡ NoMemory };

    fn from(refused: AllocError) -> Refusal {
        Refusal::Memory(OutOfMemory::from(refused))
    }
}

/// A value that found no room is dropped.
impl<T: Drop> From<AllocFailed<T>> for Refusal {
    ghost from_gives = { λ _ refusal. refusal ≡ NoMemory };

    fn from(failed: AllocFailed<T>) -> Refusal {
        Refusal::Memory(OutOfMemory::from(failed))
    }
}
