//! Room that is made before a change, and what is put there, so that nothing can fail.
ghost use Rattle.std.specs.Prelude.{◌≡◌, ◌<◌, ◌≤◌, ◌+◌, ◌++◌, length, IfOk, IfErr, OnOk};
ghost use Rattle.std.specs.Vec.{vec_len, vec_capacity};
ghost use Rattle.mg_buffer.specs.Groups.{past_of, substituted};
ghost use Rattle.mg_buffer.specs.Restored.{latest, newest_restored};

use crate::change::Change;
use crate::history::History;
use rga_ops::{Op, OutOfMemory};
use rga_store::TextStore;
use std::alloc::Global;

/// What operations do to what a store holds, with room for the group of it, for so many elements
/// that they restore, and for them among the unsaved ones. `Memory` alone; groups and unsaved ones
/// stay.
pub(crate) fn prepare<S: TextStore>(
    alloc: Global,
    store: &S,
    history: &mut History,
    unsaved: &mut Vec<Op>,
    ops: &[Op],
    restores: usize,
) -> Result<Change, OutOfMemory>
    ensures change { IfOk result (λ change. change ≡ past_of (S.content store.now) ops.now) }
    ensures room { OnOk result (0 < history.new.room) }
    ensures entries { OnOk result (restores ≤ history.new.entries) }
    ensures settled { IfOk result
        (λ change. (substituted (latest history.new.restored) change).deleted ≡ change.deleted) }
    ensures space { OnOk result
        (vec_len unsaved.new + length ops.now ≤ vec_capacity unsaved.new) }
    ensures newest { newest_restored history.new ≤ newest_restored history.old }
    ensures same { (history.new.pasts ≡ history.old.pasts)
        × (unsaved.new.items ≡ unsaved.old.items) }
{
    let change = Change::of(alloc, store, ops)?;
    unsaved.reserve(ops.len())?;
    history.make_room(alloc, &change, restores)?;
    Ok(change)
}

/// Adds operations behind the others. Takes no memory.
pub(crate) fn add_all(all: &mut Vec<Op>, ops: &[Op])
    requires { vec_len all.old + length ops.now ≤ vec_capacity all.old }
    ensures { all.new.items ≡ all.old.items ++ ops.now }
{
    let _ = all.extend_from_slice(ops);
}
