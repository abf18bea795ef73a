//! Operations that leave a store again. Takes no memory.
ghost use Rattle.std.specs.Prelude.{◌≡◌, true};
ghost use Rattle.std.specs.FinSet as finite_set;
ghost use Rattle.rga_ops.specs.Content.{clock_of, Holds};
ghost use Rattle.rga_store.specs.Child.{is_child};
ghost use Rattle.rga_store.specs.Without.{without_insertion, without_deletion, without_operation};

use super::TreeStore;
use crate::nodes::{clear_element, clear_mark, remove_child};
use rga_ops::{Id, Op};
use rga_store::counts::uncount_unless;

impl TreeStore {
    /// Removes an operation, to the clock from before it.
    pub(super) fn remove(&mut self, op: &Op, clock: u64)
        requires held { Holds self.old.content op.now }
        requires clock { clock ≡ clock_of (without_operation op.now self.old.content) }
        ensures content { self.new.content ≡ without_operation op.now self.old.content }
        ensures limit { self.new.limit ≡ self.old.limit }
    {
        match op {
            Op::Insert { id, parent, .. } => self.remove_insertion(*id, *parent, clock),
            Op::Delete { id } => self.remove_deletion(*id, clock),
        }
    }

    /// The element goes out of its node, and out of its siblings. Its children wait again.
    fn remove_insertion(&mut self, id: Id, parent: Id, clock: u64)
        requires child { is_child self.old.content parent id ≡ true }
        requires clock { clock ≡ clock_of (without_insertion id self.old.content) }
        ensures content { self.new.content ≡ without_insertion id self.old.content }
        ensures limit { self.new.limit ≡ self.old.limit }
    {
        let deleted = clear_element(&mut self.nodes, id);
        remove_child(&mut self.nodes, parent, id);
        self.inserted -= 1;
        uncount_unless(deleted, &mut self.known);
        self.clock = clock;
    }

    /// The mark goes.
    fn remove_deletion(&mut self, id: Id, clock: u64)
        requires deleted { finite_set.contains self.old.content.deleted id ≡ true }
        requires clock { clock ≡ clock_of (without_deletion id self.old.content) }
        ensures content { self.new.content ≡ without_deletion id self.old.content }
        ensures limit { self.new.limit ≡ self.old.limit }
    {
        let inserted = clear_mark(&mut self.nodes, id);
        uncount_unless(inserted, &mut self.known);
        self.clock = clock;
    }
}
