//! Records of insertions of which each is the parent of the next, all at once.
ghost use Rattle.std.specs.Prelude.{◌≡◌, ◌≢◌, ◌≤◌, [], true, Ok, length, vec_capacity};
ghost use Rattle.rga_records.specs.Chains.{grown, latest_of, AreNewer, AreRows};
ghost use Rattle.rga_records.specs.Records.{content_of_records, AreOrdered};

use crate::entries::{short_index, short_name};
use rga_ops::{Id, OutOfMemory};
use rga_pages::{Pages, Record};
use rga_sequence::{Entry, Near};
use std::alloc::Global;

/// The elements of a chain get their records, and where they may stand: behind their parent, which
/// may stand near there. Says whether they got them: not if one stands behind their places already.
/// A refusal of memory changes nothing.
pub(crate) fn append_chain(
    alloc: Global,
    entries: &mut Pages,
    parent: Id,
    near: Near,
    chain: &[Entry],
) -> Result<bool, OutOfMemory>
    requires ordered { AreOrdered entries.old }
    requires newer { AreNewer (content_of_records entries.old) parent chain.now }
    ensures content { result ≡ Ok true → content_of_records entries.new
        ≡ grown (content_of_records entries.old) parent chain.now }
    ensures same { result ≢ Ok true →
        content_of_records entries.new ≡ content_of_records entries.old }
    ensures ordered { AreOrdered entries.new }
{
    let mut rows = Vec::with_capacity(alloc, chain.len())?;
    add_rows(parent, near, chain, &mut rows);
    entries.append(rows.as_slice())
}

/// The records of the elements of a chain, for which there is room.
fn add_rows(parent: Id, near: Near, chain: &[Entry], rows: &mut Vec<(Id, Record)>)
    requires none { rows.old.items ≡ [] }
    requires room { length chain.now ≤ vec_capacity rows.old }
    ensures { AreRows parent chain.now rows.new.items }
{
    let block = short_name(near.block);
    let mut last = parent;
    let mut index = near.index;
    for entry in chain {
        index = index.saturating_add(1);
        let record = Record::inserted(last, entry.ch, block, short_index(index), false);
        rows.push_reserved((entry.id, record));
        last = entry.id;
    }
}

/// The counter of the last element of a chain; another where there is none.
pub(crate) fn latest(clock: u64, chain: &[Entry]) -> u64
    ensures { result ≡ latest_of clock chain.now }
{
    let count = chain.len();
    if count == 0 {
        return clock;
    }
    chain[count - 1].id.counter()
}
