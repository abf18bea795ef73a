//! What is noted of groups of blocks, so that these are passed and counted a group at a time.
ghost use Rattle.std.specs.Prelude.{◌≡◌, ◌++◌, ◌∷◌, [], true, false};

use rga_ops::Id;
use std::alloc::Global;

/// How many blocks are a group.
pub(crate) const GROUP: usize = 32;

/// What is noted of the groups, from the first on. What is missing at the end costs time alone.
#[derive(Drop)]
pub(crate) struct Groups {
    /// Of each an identifier that none of its identifiers is less than.
    pub(crate) bounds: Vec<Id>,
    /// Of each whole one how many of its entries are visible.
    pub(crate) counts: Vec<usize>,
}

/// One more is noted, where there is room.
pub(crate) fn push_note<T: Copy>(notes: &mut Vec<T>, note: T) -> bool
    ensures pushed { result ≡ true → notes.new.items ≡ notes.old.items ++ note ∷ [] }
    ensures same { result ≡ false → notes.new.items ≡ notes.old.items }
{
    notes.push(note).is_ok()
}

impl Groups {
    ghost use Rattle.std.specs.Prelude.{◌≡◌, ◌≤◌, length, take};
    ghost use Rattle.rga_sequence.specs.Blocks.{Blocks, AreGroups};

    /// Nothing is noted. Takes no memory.
    pub(crate) fn new(alloc: Global) -> Groups
        ensures { (bs : Blocks) → AreGroups result bs }
    {
        Groups {
            bounds: Vec::new(alloc),
            counts: Vec::new(alloc),
        }
    }

    /// What is noted of the groups that end before a block stays, whatever blocks come from there
    /// on.
    pub(crate) fn forget_from(&mut self, block: usize)
        ensures { (bs cs : Blocks) → AreGroups self.old bs → block ≤ length bs →
            take block cs ≡ take block bs → AreGroups self.new cs }
    {
        self.bounds.truncate(block / GROUP);
        self.counts.truncate(block / GROUP);
    }
}
