//! What a command comes to: a plan, or a notice.
ghost use Rattle.std.specs.Prelude.{◌≡◌};
ghost use Rattle.mg_plain.specs.Memory.{NoticeMemory as NoMemory};
ghost use Rattle.mg_plain.specs.NoticeMessage.{notice_message};

use crate::view::Kind;
use rga_ops::{OutOfMemory, Splice};
use std::alloc::{AllocError, AllocFailed};
use std::marker::Model;

/// What a command does to a text.
#[derive(Drop)]
pub struct Plan {
    /// What is replaced, in places of the old text that fall and keep apart.
    pub splices: Vec<Splice>,
    /// Where point goes, in the new text.
    pub point: usize,
    /// Where the mark goes, in the new text.
    pub mark: Option<usize>,
    /// What goes into the kill buffer: behind what is there, where this command and the one before
    /// kill, else in its place; `None` where the kill buffer stays.
    pub kill: Option<Vec<char>>,
    pub goal: usize,
    pub kind: Kind,
}

impl Model for Plan {
    ghost use Rattle.std.specs.Option.{option_map};
    ghost use Rattle.mg_plain.specs.Effect.{Effect};

    ghost Value = { Effect };

    ghost view = { λ p. record {
      splices = p.splices.items;
      point = p.point;
      mark = p.mark;
      kill = option_map (λ k. k.items) p.kill;
      goal = p.goal;
      kind = p.kind;
    } };
}

/// Why a command is not done, which then changes nothing. Where several hold, the one that stands
/// first here is answered.
#[derive(Clone, Copy, Debug, PartialEq, Eq)]
pub enum Notice {
    /// The text begins too soon.
    BeginningOfBuffer,
    /// The text ends too soon.
    EndOfBuffer,
    /// No mark is set.
    NoMark,
    /// The pattern stands nowhere that it is looked for.
    SearchFailed,
    /// No edit is left to take back.
    NothingToUndo,
    /// A growth of memory was refused.
    Memory(OutOfMemory),
}

impl Notice {
    /// The notice, as it is shown.
    pub fn message(self) -> &'static str
        ensures { result.now ≡ notice_message self }
    {
        match self {
            Notice::BeginningOfBuffer => "Beginning of buffer",
            Notice::EndOfBuffer => "End of buffer",
            Notice::NoMark => "No mark set",
            Notice::SearchFailed => "Search failed",
            Notice::NothingToUndo => "Nothing to undo",
            Notice::Memory(_) => "Out of memory",
        }
    }
}

impl From<OutOfMemory> for Notice {
    ghost from_gives = { λ _ notice. notice ≡ NoMemory };

    fn from(memory: OutOfMemory) -> Notice {
        Notice::Memory(memory)
    }
}

impl From<AllocError> for Notice {
    ghost from_gives = { λ _ notice. notice ≡ NoMemory };

    fn from(refused: AllocError) -> Notice {
        Notice::Memory(OutOfMemory::from(refused))
    }
}

/// A value that found no room is dropped.
impl<T: Drop> From<AllocFailed<T>> for Notice {
    ghost from_gives = { λ _ notice. notice ≡ NoMemory };

    fn from(failed: AllocFailed<T>) -> Notice {
        Notice::Memory(OutOfMemory::from(failed))
    }
}
