//! What is counted of a content.
ghost use Rattle.std.specs.Prelude.{◌≡◌, IfOk, IfErr};
ghost use Rattle.mgr_show.specs.Counts.{AreCounts};

use crate::tallies::{Tally, count_insertions, tallies_of};
use rga_flat::FlatStore;
use rga_ops::OutOfMemory;
use rga_store::TextStore;
use std::alloc::Global;
use std::collections::BTreeMap;

/// What is counted of a content.
#[derive(Drop)]
pub(crate) struct Counts {
    pub(crate) operations: usize,
    pub(crate) insertions: usize,
    pub(crate) deletions: usize,
    /// How many elements are visible.
    pub(crate) visible: usize,
    /// How many elements wait for an ancestor.
    pub(crate) waiting: usize,
    /// What each replica wrote, by rising replica.
    pub(crate) tallies: BTreeMap<u16, Tally>,
}

/// Counts what a store holds. `Memory` alone.
pub(crate) fn counts_of(alloc: Global, store: &FlatStore) -> Result<Counts, OutOfMemory>
    ensures counts { IfOk result (λ counts. AreCounts counts store.now.content) }
{
    let ops = store.ops()?;
    let insertions = count_insertions(&ops);
    let tallies = tallies_of(alloc, &ops)?;
    let waiting = store.waiting_count()?;
    let operations = ops.as_slice().len();
    Ok(Counts {
        operations,
        insertions,
        deletions: operations - insertions,
        visible: store.visible_len(),
        waiting,
        tallies,
    })
}
