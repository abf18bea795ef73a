//! What commands and undos did.
ghost use Rattle.std.specs.Prelude.{◌≡◌, ◌≤◌, length, IfOk, IfErr};
ghost use Rattle.mg_buffer.specs.Groups.{past_of, point_after};

use rga_ops::{Id, Op, OutOfMemory};
use rga_store::TextStore;
use std::alloc::Global;
use std::marker::Model;

/// What one command or one undo did: the elements that it inserted, and those that it deleted, with
/// their characters.
#[derive(Drop)]
pub(crate) struct Change {
    pub(crate) inserted: Vec<Id>,
    pub(crate) deleted: Vec<(Id, char)>,
}

impl Model for Change {
    ghost use Rattle.mg_buffer.specs.Groups.{Past, past_code};

    ghost Value = { Past };

    ghost coded = { past_code };

    ghost view = { λ g. record { inserted = g.inserted.items; deleted = g.deleted.items } };
}

impl Change {
    /// What operations do to what a store holds. `Memory` alone.
    pub(crate) fn of<S: TextStore>(
        alloc: Global,
        store: &S,
        ops: &[Op],
    ) -> Result<Change, OutOfMemory>
        ensures ok { IfOk result (λ g. g ≡ past_of (S.content store.now) ops.now) }
    {
        let gone = count_deletions(ops);
        let mut inserted = Vec::with_capacity(alloc, ops.len() - gone)?;
        let mut deleted = Vec::with_capacity(alloc, gone)?;
        for op in ops {
            match op {
                Op::Insert { id, .. } => inserted.push(*id)?,
                Op::Delete { id } => deleted.push((*id, store.get(*id).map_or('\0', |p| p.1)))?,
            }
        }
        Ok(Change { inserted, deleted })
    }

    /// The element that point is behind after an undo that did this.
    pub(crate) fn point_after(&self, point: Id) -> Id
        ensures { result ≡ point_after point self.now }
    {
        if let Some(last) = self.inserted.last() {
            return *last;
        }
        match self.deleted.first() {
            Some(first) => first.0,
            None => point,
        }
    }
}

/// How many of the operations are deletions.
fn count_deletions(ops: &[Op]) -> usize
    ensures { result ≤ length ops.now }
{
    let mut count = 0;
    for op in ops {
        if let Op::Delete { .. } = op {
            count += 1;
        }
    }
    count
}
