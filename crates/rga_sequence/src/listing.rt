//! What blocks have: how many entries, which are visible, and their text.
ghost use Rattle.std.specs.Prelude.{◌≡◌, ◌<◌, ◌+◌, ◌^◌, ◌++◌, length, slice_get, vec_len, take, drop, IfOk, IfErr, OnOk};
ghost use Rattle.rga_sequence.specs.Entries.{ids, entries_up_to, visible_count, visible_ids, visible_text};
ghost use Rattle.rga_sequence.specs.Blocks.{flat, Stands, IsSequence, AreCounts};

use crate::block::{Block, MOST};
use crate::counts::{count_before, group_with};
use crate::groups::GROUP;
use crate::place::Place;
use crate::scans::{push_ids, push_text};
use rga_ops::{Id, OutOfMemory};
use std::alloc::Global;

/// How many entries there are.
pub(crate) fn len(blocks: &Vec<Block>) -> usize
    requires { length (flat blocks.now.items) < 2 ^ 64 }
    ensures { result ≡ length (flat blocks.now.items) }
{
    let mut count = 0;
    for block in blocks {
        count += block.len();
    }
    count
}

/// How many visible entries are that at a place or stand before it.
pub(crate) fn place_at(blocks: &Vec<Block>, counts: &Vec<usize>, at: Place, id: Id) -> usize
    requires fits { length (flat blocks.now.items) < 2 ^ 64 }
    requires block { at.block < vec_len blocks.now }
    requires within { at.index < MOST }
    requires stands { Stands blocks.now.items at.block at.index id }
    requires kept { IsSequence blocks.now.items }
    requires counts { AreCounts counts.now.items blocks.now.items }
    ensures { result ≡ visible_count (entries_up_to id (flat blocks.now.items)) }
{
    let count = count_before(blocks, counts, at.block);
    count + blocks[at.block].visible_before(at.index + 1)
}

/// The k-th visible entry of some blocks.
fn element_in(blocks: &[Block], k: usize) -> Option<Id>
    ensures { result ≡ slice_get (visible_ids (flat blocks.now)) k }
{
    let mut left = k;
    for block in blocks {
        let count = block.visible_len();
        if left < count {
            return block.visible_at(left);
        }
        left -= count;
    }
    None
}

/// The k-th visible entry.
pub(crate) fn element_at(blocks: &Vec<Block>, counts: &Vec<usize>, k: usize) -> Option<Id>
    requires { AreCounts counts.now.items blocks.now.items }
    ensures { result ≡ slice_get (visible_ids (flat blocks.now.items)) k }
{
    let (group, rest) = group_with(counts.as_slice(), k);
    element_in(&blocks.as_slice()[group * GROUP..], rest)
}

/// The visible entries of some blocks from the lo-th to the one before the hi-th go behind a list.
fn push_elements(
    list: &mut Vec<Id>,
    blocks: &[Block],
    lo: usize,
    hi: usize,
) -> Result<(), OutOfMemory>
    ensures ok { OnOk result (list.new.items
        ≡ list.old.items ++ drop lo (take hi (visible_ids (flat blocks.now)))) }
{
    let mut skip = lo;
    let mut end = hi;
    for block in blocks {
        if end <= skip {
            return Ok(());
        }
        block.push_visible(list, skip, end)?;
        skip = skip.saturating_sub(block.visible_len());
        end = end.saturating_sub(block.visible_len());
    }
    Ok(())
}

/// The visible entries from the lo-th to the one before the hi-th.
pub(crate) fn elements(
    alloc: Global,
    blocks: &Vec<Block>,
    counts: &Vec<usize>,
    lo: usize,
    hi: usize,
) -> Result<Vec<Id>, OutOfMemory>
    requires { AreCounts counts.now.items blocks.now.items }
    ensures ok { IfOk result (λ list.
        list.items ≡ drop lo (take hi (visible_ids (flat blocks.now.items)))) }
{
    let (group, rest) = group_with(counts.as_slice(), lo);
    let later = &blocks.as_slice()[group * GROUP..];
    let mut list = Vec::new(alloc);
    push_elements(&mut list, later, rest, hi.saturating_sub(lo - rest))?;
    Ok(list)
}

/// The identifiers.
pub(crate) fn list_ids(alloc: Global, blocks: &Vec<Block>) -> Result<Vec<Id>, OutOfMemory>
    ensures ok { IfOk result (λ list. list.items ≡ ids (flat blocks.now.items)) }
{
    let mut list = Vec::new(alloc);
    for block in blocks {
        push_ids(&mut list, block.entries())?;
    }
    Ok(list)
}

/// The characters of the visible entries.
pub(crate) fn text(alloc: Global, blocks: &Vec<Block>) -> Result<Vec<char>, OutOfMemory>
    ensures ok { IfOk result (λ chars. chars.items ≡ visible_text (flat blocks.now.items)) }
{
    let mut chars = Vec::new(alloc);
    for block in blocks {
        push_text(&mut chars, block.entries())?;
    }
    Ok(chars)
}
