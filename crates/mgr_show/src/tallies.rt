//! How much each replica wrote.
ghost use Rattle.std.specs.Prelude.{◌≡◌, ◌≤◌, ◌<◌, ◌+◌, ◌^◌, [], OnOk, IfOk, filter, length};
ghost use Rattle.std.specs.Ordering.{nat_cmp};
ghost use Rattle.std.specs.BTreeMap.{insert_entry};
ghost use Rattle.std.specs.List.{All};
ghost use Rattle.std.specs.Map.{values_of};
ghost use Rattle.mgr_show.specs.Tallies.{and_character, and_tallies, is_insertion, tally_of};

use rga_ops::{Id, Op};
use std::alloc::{AllocError, Global};
use std::collections::BTreeMap;

/// What a replica wrote: how many characters, and the greatest counter of these.
#[derive(Clone, Copy)]
pub(crate) struct Tally {
    pub(crate) characters: u64,
    pub(crate) counter: u64,
}

/// What each replica wrote, by rising replica.
pub(crate) fn tallies_of(alloc: Global, ops: &[Op]) -> Result<BTreeMap<u16, Tally>, AllocError>
    ensures { IfOk result (λ tallies. tallies.entries ≡ and_tallies [] ops.now) }
{
    let mut tallies = BTreeMap::new(alloc);
    let mut rest = ops;
    'ops: while let Some((op, behind)) = rest.split_first() {
        if let Op::Insert { id, .. } = op {
            add_character(&mut tallies, *id)?;
        }
        rest = behind;
    }
    Ok(tallies)
}

/// Adds a character of an identifier.
fn add_character(tallies: &mut BTreeMap<u16, Tally>, id: Id) -> Result<(), AllocError>
    requires { All (λ (t : Tally). t.characters + 1 < 2 ^ 64) (values_of tallies.old.entries) }
    ensures { OnOk result (tallies.new.entries ≡ insert_entry nat_cmp tallies.old.entries id.replica
        (and_character id.counter (tally_of id.replica tallies.old.entries))) }
{
    let tally = match tallies.get(&id.replica()) {
        None => Tally {
            characters: 1,
            counter: id.counter(),
        },
        Some(tally) => Tally {
            characters: tally.characters + 1,
            counter: tally.counter.max(id.counter()),
        },
    };
    tallies.insert(id.replica(), tally)?;
    Ok(())
}

/// How many of some operations are insertions.
pub(crate) fn count_insertions(ops: &[Op]) -> usize
    ensures count { result ≡ length (filter is_insertion ops.now) }
    ensures within { result ≤ length ops.now }
{
    let mut count = 0;
    for op in ops {
        if let Op::Insert { .. } = op {
            count += 1;
        }
    }
    count
}
