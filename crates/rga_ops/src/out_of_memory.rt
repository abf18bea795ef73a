//! Want of memory.
ghost use Rattle.std.specs.Prelude.{◌≡◌, ◌+◌, ◌≤◌, ◌^◌, ◌↔◌, IfOk, IfErr, IsSome};
ghost use Rattle.std.specs.IoError.{error_kind};
ghost use Rattle.std.specs.declared.io.ErrorKind.TheVariants.{OutOfMemory as WantsMemory};
ghost use Rattle.rga_ops.specs.Memory.{out_of_memory};

use std::alloc::{AllocError, AllocFailed};
use std::io::ErrorKind;
use std::{fmt, io};

/// A growth of memory was refused: it holds what the allocator answered. The places where code still
/// makes such an answer of its own accord are counted by `scripts/made_refusals.py`.
#[derive(Clone, Copy, PartialEq, Eq)]
pub struct OutOfMemory {
    refused: AllocError,
}

impl fmt::Debug for OutOfMemory {
    fn fmt<W: fmt::Write>(&self, f: &mut fmt::Formatter<W>) -> fmt::Result {
        f.write_str("OutOfMemory")
    }
}

impl From<AllocError> for OutOfMemory {
    ghost from_gives = { λ _ memory. memory ≡ out_of_memory };

    fn from(refused: AllocError) -> OutOfMemory {
        OutOfMemory { refused }
    }
}

/// A value that found no room is dropped.
impl<T: Drop> From<AllocFailed<T>> for OutOfMemory {
    ghost from_gives = { λ _ memory. memory ≡ out_of_memory };

    fn from(failed: AllocFailed<T>) -> OutOfMemory {
        OutOfMemory::from(AllocError::from(failed))
    }
}

impl From<OutOfMemory> for io::Error {
    ghost from_gives = { λ _ error. error_kind error ≡ WantsMemory };

    fn from(memory: OutOfMemory) -> io::Error {
        io::Error::from(memory.refused)
    }
}

/// The refusal of memory that an error of a device tells of, which holds none itself. `None` if it
/// tells of something else.
pub fn of_io(error: &io::Error) -> Option<OutOfMemory>
    ensures { IsSome result ↔ (error_kind error.now ≡ WantsMemory) }
{
    if error.kind() == ErrorKind::OutOfMemory {
        Some(OutOfMemory::from(AllocError))
    } else {
        None
    }
}

/// The sum of two counts of things in memory. Out of memory if no `usize` is so large: there is no
/// room for so much.
pub fn counted_together(first: usize, second: usize) -> Result<usize, OutOfMemory>
    ensures ok { IfOk result (λ sum. sum ≡ first + second) }
    ensures err { IfErr result (λ _. 2 ^ 64 ≤ first + second) }
{
    match first.checked_add(second) {
        Some(sum) => Ok(sum),
        None => Err(OutOfMemory::from(AllocError)),
    }
}
