//! Bounds of groups of blocks, so that larger identifiers are passed a group at a time. The k-th
//! bound is that of the k-th group; those of the last groups may be missing.
ghost use Rattle.std.specs.Prelude.{◌≡◌, ◌≤◌, ◌<◌, ◌+◌, ◌*◌, true, false, vec_len};
ghost use Rattle.rga_sequence.specs.Blocks.{Blocks, AreBlocksFrom, AreBounds, IsLow, AreLarger, Passes};

use crate::block::Block;
use crate::entry::Entry;
use crate::groups::{GROUP, push_note};
use crate::scans::{is_larger, lesser};
use rga_ops::Id;

/// The bound of a block's group is lowered to an identifier that comes in there.
pub(crate) fn lower(bounds: &mut Vec<Id>, block: usize, id: Id)
    ensures kept { (bs : Blocks) → AreBounds bounds.old.items bs → AreBounds bounds.new.items bs }
    ensures low { IsLow bounds.new.items block id }
{
    let group = block / GROUP;
    if group < bounds.as_slice().len() {
        bounds[group] = lesser(bounds[group], id);
    }
}

/// An identifier that none is less than in the group that begins with a block.
fn least_from(blocks: &Vec<Block>, from: usize) -> Id
    requires { from < vec_len blocks.now }
    ensures { AreBlocksFrom result from (from + GROUP) blocks.now.items }
{
    let mut least = blocks[from].least();
    let mut block = from + 1;
    while block < blocks.as_slice().len() && block - from < GROUP {
        least = lesser(least, blocks[block].least());
        block += 1;
    }
    least
}

/// The bounds as far as that of a group, where there is room for them.
fn note_bounds(blocks: &Vec<Block>, bounds: &mut Vec<Id>, group: usize)
    requires within { group * GROUP < vec_len blocks.now }
    requires bounds { AreBounds bounds.old.items blocks.now.items }
    ensures bounds { AreBounds bounds.new.items blocks.now.items }
{
    while bounds.as_slice().len() <= group {
        let least = least_from(blocks, bounds.as_slice().len() * GROUP);
        if !push_note(bounds, least) {
            return;
        }
    }
}

/// Whether a whole group begins with a block, its identifiers are larger, and a block follows it.
fn is_group_larger(blocks: &Vec<Block>, bounds: &mut Vec<Id>, block: usize, id: Id) -> bool
    requires block { block < vec_len blocks.now }
    requires bounds { AreBounds bounds.old.items blocks.now.items }
    ensures bounds { AreBounds bounds.new.items blocks.now.items }
    ensures next { result ≡ true → block + GROUP < vec_len blocks.now }
    ensures larger { result ≡ true → AreLarger id block (block + GROUP) blocks.now.items }
{
    if block % GROUP != 0 {
        return false;
    }
    if blocks.as_slice().len() - block <= GROUP {
        return false;
    }
    let group = block / GROUP;
    note_bounds(blocks, bounds, group);
    if group >= bounds.as_slice().len() {
        return false;
    }
    is_larger(bounds[group], id)
}

/// The first block from `from` on with which no group begins whose identifiers are larger than an
/// entry's, or which the last one follows.
pub(crate) fn past_groups(
    blocks: &Vec<Block>,
    bounds: &mut Vec<Id>,
    from: usize,
    entry: &Entry,
) -> usize
    requires block { from < vec_len blocks.now }
    requires bounds { AreBounds bounds.old.items blocks.now.items }
    ensures bounds { AreBounds bounds.new.items blocks.now.items }
    ensures on { from ≤ result }
    ensures block { result < vec_len blocks.now }
    ensures past { Passes blocks.now.items from 0 result 0 entry.now }
{
    let mut block = from;
    while is_group_larger(blocks, bounds, block, entry.id) {
        block += GROUP;
    }
    block
}
