//! What can be wrong with a line.
ghost use Rattle.std.specs.Prelude.{◌≡◌, IsSome, ◌↔◌};
ghost use Rattle.rga_lines.specs.Memory.{LineMemory as Memory};
ghost use Rattle.rga_lines.specs.FaultName.{fault_name};
ghost use Rattle.serde_json.specs.Errors.{IsMemory};

use rga_ops::OutOfMemory;
use std::alloc::{AllocError, AllocFailed};

/// Why a line is neither an operation or a run of them nor the head or the end of an exchange.
/// Where several hold, the one that is tested first is answered: `Long`; `Json`; `Kind` where the
/// value is no object; `Member` where it has no `op`; `Kind` where `op` is no text or is unknown;
/// `Member` where a member of that kind of line is absent or a further one is there; `Kind` where a
/// member has the wrong type; `Id`; `Char`; `Order`. Want of memory comes last: it is answered only
/// where a growth was refused.
#[derive(Clone, Copy, Debug, PartialEq, Eq)]
pub enum LineFault {
    /// More than `MAX_LINE` bytes.
    Long,
    /// Not UTF-8, or no JSON value: an empty line too.
    Json,
    /// A member is absent, or a further one is there.
    Member,
    /// No object; an `op` that is no text or is unknown; a `char` or a `text` that is no text; an
    /// `id` or a `parent` that is no array; a `count` that is no whole number below 2^64; a
    /// `version` that is not 2. Also the head or the end of an exchange, where an operation was to
    /// be read.
    Kind,
    /// An `id` or a `parent` that is not exactly two whole numbers in the ranges of an identifier.
    /// A `parent` may be the root, [0,0]. Also a run, of insertions or deletions, whose last counter
    /// is above the greatest.
    Id,
    /// A `char` that is not exactly one character, a `text` that is not 1 to 4096 of them, or a
    /// `count` of deletions that is not 1 to 4096.
    Char,
    /// An insertion, or a run, whose counter is not above its parent's.
    Order,
    /// A growth of memory was refused.
    Memory(OutOfMemory),
}

impl LineFault {
    /// The fault's name, as it is printed.
    pub fn name(self) -> &'static str
        ensures { result.now ≡ fault_name self }
    {
        match self {
            LineFault::Long => "Long",
            LineFault::Json => "Json",
            LineFault::Member => "Member",
            LineFault::Kind => "Kind",
            LineFault::Id => "Id",
            LineFault::Char => "Char",
            LineFault::Order => "Order",
            LineFault::Memory(_) => "Memory",
        }
    }
}

impl From<OutOfMemory> for LineFault {
    ghost from_gives = { λ _ e. e ≡ Memory };

    fn from(memory: OutOfMemory) -> LineFault {
        LineFault::Memory(memory)
    }
}

impl From<AllocError> for LineFault {
    ghost from_gives = { λ _ e. e ≡ Memory };

    fn from(refused: AllocError) -> LineFault {
        LineFault::Memory(OutOfMemory::from(refused))
    }
}

/// A value that found no room is dropped.
impl<T: Drop> From<AllocFailed<T>> for LineFault {
    ghost from_gives = { λ _ e. e ≡ Memory };

    fn from(failed: AllocFailed<T>) -> LineFault {
        LineFault::Memory(OutOfMemory::from(failed))
    }
}

/// The refusal of memory that an error of serde_json tells of, which holds none itself. `None` if it
/// tells of something else.
pub fn of_json(error: &serde_json::Error) -> Option<OutOfMemory>
    ensures { IsSome result ↔ IsMemory error.now }
{
    if error.is_memory() {
        Some(OutOfMemory::from(AllocError))
    } else {
        None
    }
}
