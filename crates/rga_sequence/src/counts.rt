//! Counts of groups of blocks, so that visible entries are counted a group at a time. The k-th count
//! is that of the k-th group, which is whole; those of the last groups may be missing.
ghost use Rattle.std.specs.Prelude.{◌≡◌, ◌≤◌, ◌<◌, ◌+◌, ◌^◌, List, [], length, vec_len, slice_index_or, slice_set, take, sum};
ghost use Rattle.rga_sequence.specs.declared.entry.Entry.{Entry};
ghost use Rattle.rga_sequence.specs.Entries.{visible_count};
ghost use Rattle.rga_sequence.specs.Blocks.{Blocks, flat, IsCount, AreCounts};

use crate::block::Block;
use crate::groups::{GROUP, push_note};

/// How many entries are visible in the group that begins with a block.
fn count_group(blocks: &Vec<Block>, from: usize) -> usize
    requires { from + GROUP ≤ vec_len blocks.now }
    ensures { IsCount result from (from + GROUP) blocks.now.items }
{
    let mut count = 0;
    let mut block = from;
    while block < from + GROUP {
        count += blocks[block].visible_len();
        block += 1;
    }
    count
}

/// The counts that are missing, where there is room for them.
pub(crate) fn note_counts(blocks: &Vec<Block>, counts: &mut Vec<usize>)
    requires { AreCounts counts.old.items blocks.now.items }
    ensures { AreCounts counts.new.items blocks.now.items }
{
    while counts.as_slice().len() < blocks.as_slice().len() / GROUP {
        let count = count_group(blocks, counts.as_slice().len() * GROUP);
        if !push_note(counts, count) {
            return;
        }
    }
}

/// A block that had so many visible entries before has so many now: so its group's count changes.
/// One that is too large goes, and those behind it.
pub(crate) fn recount(counts: &mut Vec<usize>, block: usize, before: usize, now: usize)
    ensures { (bs : Blocks) (b : List Entry) → AreCounts counts.old.items bs →
        before ≡ visible_count (slice_index_or bs block []) → now ≡ visible_count b →
        AreCounts counts.new.items (slice_set bs block b) }
{
    let group = block / GROUP;
    if group >= counts.as_slice().len() {
        return;
    }
    let others = counts[group].saturating_sub(before);
    match others.checked_add(now) {
        Some(count) => counts[group] = count,
        None => counts.truncate(group),
    }
}

fn sum_of(counts: &[usize]) -> usize
    requires { sum counts.now < 2 ^ 64 }
    ensures { result ≡ sum counts.now }
{
    counts.iter().sum()
}

/// How many entries are visible in the blocks before one.
pub(crate) fn count_before(blocks: &Vec<Block>, counts: &Vec<usize>, block: usize) -> usize
    requires fits { length (flat blocks.now.items) < 2 ^ 64 }
    requires within { block ≤ vec_len blocks.now }
    requires counts { AreCounts counts.now.items blocks.now.items }
    ensures { result ≡ visible_count (flat (take block blocks.now.items)) }
{
    let groups = (block / GROUP).min(counts.as_slice().len());
    let mut count = sum_of(&counts.as_slice()[..groups]);
    let mut next = groups * GROUP;
    while next < block {
        count += blocks[next].visible_len();
        next += 1;
    }
    count
}

/// The group of the k-th visible entry, and how many visible entries from its front on come before
/// that; the group behind those that are counted, if it is in none of these.
pub(crate) fn group_with(counts: &[usize], k: usize) -> (usize, usize)
    ensures within { result.0 ≤ length counts.now }
    ensures rest { sum (take result.0 counts.now) + result.1 ≡ k }
{
    let mut group = 0;
    let mut rest = k;
    while group < counts.len() && counts[group] <= rest {
        rest -= counts[group];
        group += 1;
    }
    (group, rest)
}
