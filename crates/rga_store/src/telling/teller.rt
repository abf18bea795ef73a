//! What tells the operations that it holds.
ghost use Rattle.std.specs.Prelude.{◌≡◌, OnOk, IfErr};
ghost use Rattle.rga_ops.specs.Operations.{insertions, deletions};

use crate::telling::listener::Listener;
use crate::text_store::TextStore;
use rga_ops::OutOfMemory;

/// A store that tells its operations one by one. Whether it makes a list of them first is its own
/// affair.
pub trait Teller: TextStore {
    /// Tells the insertions by rising identifier. `Memory` alone, where the listener answers it or a
    /// list has no room.
    fn tell_insertions<L: Listener>(&self, listener: &mut L) -> Result<(), OutOfMemory>
        ensures ok { OnOk result
            (L.hears listener.old (insertions (Self.content self.now)) listener.new) };

    /// Tells the deletions by rising identifier. `Memory` alone, as of insertions.
    fn tell_deletions<L: Listener>(&self, listener: &mut L) -> Result<(), OutOfMemory>
        ensures ok { OnOk result
            (L.hears listener.old (deletions (Self.content self.now)) listener.new) };

    /// Tells one listener the insertions and another the deletions, each as the calls above do. A
    /// store may do so in one pass over what it holds.
    fn tell_both<L: Listener, M: Listener>(
        &self,
        of_insertions: &mut L,
        of_deletions: &mut M,
    ) -> Result<(), OutOfMemory>
        ensures insertions { OnOk result
            (L.hears of_insertions.old (insertions (Self.content self.now)) of_insertions.new) }
        ensures deletions { OnOk result
            (M.hears of_deletions.old (deletions (Self.content self.now)) of_deletions.new) }
    {
        self.tell_insertions(of_insertions)?;
        self.tell_deletions(of_deletions)
    }
}
