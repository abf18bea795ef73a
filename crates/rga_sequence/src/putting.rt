//! Entries come in at a place.
ghost use Rattle.std.specs.Prelude.{◌≡◌, ◌≤◌, ◌<◌, ◌+◌, ◌++◌, List, true, false, insert, length, vec_len, slice_index_or, [], IfSome, IfErr, OnOk, OnErr};
ghost use Rattle.rga_sequence.specs.declared.entry.Entry.{Entry};
ghost use Rattle.rga_sequence.specs.Blocks.{Blocks, flat, before, behind, IsPlace, cut_in, AreFilled, IsSequence, AreGroups};
ghost use Rattle.rga_sequence.specs.Entries.{put_chain, IsChain};

use crate::block::{Block, MOST};
use crate::bounds::lower;
use crate::counts::recount;
use crate::entry::Entry;
use crate::finding::Hints;
use crate::groups::Groups;
use crate::place::Place;
use crate::scans::least_of;
use crate::skipping::{behind_parent, skip};
use rga_ops::{Id, OutOfMemory};
use std::alloc::Global;

/// How many entries may be put at once. So many fit into each part of a block that is cut.
pub const MOST_AT_ONCE: usize = 64;

/// Before how many entries those that come in get a block of their own.
const MANY: usize = 128;

/// Entries of a chain go behind the parent of the first, past those of larger identifiers that stand
/// there. A block that is new has the name `name`. Answers where the first stands. `Memory` alone.
pub(crate) fn put_behind(
    alloc: Global,
    blocks: &mut Vec<Block>,
    groups: &mut Groups,
    hints: Hints,
    parent: Id,
    name: usize,
    entries: &[Entry],
) -> Result<Place, OutOfMemory>
    requires kept { IsSequence blocks.old.items }
    requires groups { AreGroups groups.old blocks.old.items }
    requires some { 0 < length entries.now }
    requires chain { IsChain parent entries.now (flat blocks.old.items) }
    requires few { length entries.now ≤ MOST_AT_ONCE }
    ensures ok { OnOk result
        (flat blocks.new.items ≡ put_chain parent entries.now (flat blocks.old.items)) }
    ensures err { OnErr result (flat blocks.new.items ≡ flat blocks.old.items) }
    ensures kept { IsSequence blocks.new.items }
    ensures groups { AreGroups groups.new blocks.new.items }
{
    if blocks.as_slice().len() == 0 {
        put_own(alloc, blocks, groups, 0, name, entries)?;
        return Ok(Place { block: 0, index: 0 });
    }
    let from = behind_parent(blocks, hints, parent);
    let first = &entries[0];
    let at = skip(blocks, &mut groups.bounds, from, first, entries.len());
    put_at(alloc, blocks, groups, at, name, entries)
}

/// Entries come in at a place. A block without room is cut in two first, at the place if that leaves
/// enough to both parts: so what is typed on from there moves nothing. A block that is new has the
/// name `name`. Answers where the first entry stands. `Memory` alone.
fn put_at(
    alloc: Global,
    blocks: &mut Vec<Block>,
    groups: &mut Groups,
    at: Place,
    name: usize,
    entries: &[Entry],
) -> Result<Place, OutOfMemory>
    requires block { at.block < vec_len blocks.old }
    requires place { IsPlace blocks.old.items at.block at.index }
    requires some { 0 < length entries.now }
    requires few { length entries.now ≤ MOST_AT_ONCE }
    requires filled { AreFilled blocks.old.items }
    requires groups { AreGroups groups.old blocks.old.items }
    ensures ok { OnOk result (flat blocks.new.items
        ≡ before blocks.old.items at.block at.index
        ++ (entries.now ++ behind blocks.old.items at.block at.index)) }
    ensures err { OnErr result (flat blocks.new.items ≡ flat blocks.old.items) }
    ensures filled { AreFilled blocks.new.items }
    ensures groups { AreGroups groups.new blocks.new.items }
{
    let count = entries.len();
    if let Some(block) = own_block(blocks, at, count) {
        put_own(alloc, blocks, groups, block, name, entries)?;
        return Ok(Place { block, index: 0 });
    }
    if has_room(blocks, at.block, count) {
        put_in_block(blocks, groups, at, entries)?;
        return Ok(at);
    }
    let cut = at.index.max(MOST_AT_ONCE).min(MOST - MOST_AT_ONCE);
    cut_block(alloc, blocks, groups, at.block, cut, name)?;
    let place = moved(at, cut);
    put_in_block(blocks, groups, place, entries)?;
    Ok(place)
}

/// Where the block of their own is to come in that so many entries at a place get: at the end of a
/// block without room, or where they would move many.
fn own_block(blocks: &Vec<Block>, at: Place, count: usize) -> Option<usize>
    requires block { at.block < vec_len blocks.now }
    requires place { IsPlace blocks.now.items at.block at.index }
    ensures within { IfSome result (λ k. k ≤ vec_len blocks.now) }
    ensures there { IfSome result (λ k. (es : List Entry) → flat (insert blocks.now.items k es)
        ≡ before blocks.now.items at.block at.index
        ++ (es ++ behind blocks.now.items at.block at.index)) }
{
    let len = blocks[at.block].len();
    if at.index >= len && count > MOST - len {
        return Some(at.block + 1);
    }
    if at.index > 0 {
        return None;
    }
    if len < MANY {
        return None;
    }
    Some(at.block)
}

/// Whether a block has room for so many more entries.
fn has_room(blocks: &Vec<Block>, block: usize, count: usize) -> bool
    requires { block < vec_len blocks.now }
    ensures room { result ≡ true →
        length (slice_index_or blocks.now.items block []) + count ≤ MOST }
    ensures full { result ≡ false →
        MOST < length (slice_index_or blocks.now.items block []) + count }
    ensures most { length (slice_index_or blocks.now.items block []) ≤ MOST }
{
    count <= MOST - blocks[block].len()
}

/// Entries come in at a place, where their block has room.
fn put_in_block(
    blocks: &mut Vec<Block>,
    groups: &mut Groups,
    at: Place,
    entries: &[Entry],
) -> Result<(), OutOfMemory>
    requires block { at.block < vec_len blocks.old }
    requires place { IsPlace blocks.old.items at.block at.index }
    requires some { 0 < length entries.now }
    requires room { length (slice_index_or blocks.old.items at.block []) + length entries.now ≤ MOST }
    requires filled { AreFilled blocks.old.items }
    requires groups { AreGroups groups.old blocks.old.items }
    ensures ok { OnOk result (flat blocks.new.items
        ≡ before blocks.old.items at.block at.index
        ++ (entries.now ++ behind blocks.old.items at.block at.index)) }
    ensures err { OnErr result (flat blocks.new.items ≡ flat blocks.old.items) }
    ensures filled { AreFilled blocks.new.items }
    ensures groups { AreGroups groups.new blocks.new.items }
{
    lower(&mut groups.bounds, at.block, least_of(entries));
    let block = &mut blocks[at.block];
    let before = block.visible_len();
    block.put(at.index, entries)?;
    recount(&mut groups.counts, at.block, before, block.visible_len());
    Ok(())
}

/// Entries come in as a block of their own.
fn put_own(
    alloc: Global,
    blocks: &mut Vec<Block>,
    groups: &mut Groups,
    block: usize,
    name: usize,
    entries: &[Entry],
) -> Result<(), OutOfMemory>
    requires block { block ≤ vec_len blocks.old }
    requires some { 0 < length entries.now }
    requires few { length entries.now ≤ MOST_AT_ONCE }
    requires filled { AreFilled blocks.old.items }
    requires groups { AreGroups groups.old blocks.old.items }
    ensures ok { OnOk result (blocks.new.items ≡ insert blocks.old.items block entries.now) }
    ensures err { OnErr result (blocks.new.items ≡ blocks.old.items) }
    ensures filled { AreFilled blocks.new.items }
    ensures groups { AreGroups groups.new blocks.new.items }
{
    let own = Block::of_some(alloc, name, entries)?;
    blocks.insert(block, own)?;
    groups.forget_from(block);
    Ok(())
}

/// A block becomes two. The one with fewer entries has the name `name`.
fn cut_block(
    alloc: Global,
    blocks: &mut Vec<Block>,
    groups: &mut Groups,
    block: usize,
    cut: usize,
    name: usize,
) -> Result<(), OutOfMemory>
    requires block { block < vec_len blocks.old }
    requires first { 0 < cut }
    requires second { cut < length (slice_index_or blocks.old.items block []) }
    requires filled { AreFilled blocks.old.items }
    requires groups { AreGroups groups.old blocks.old.items }
    ensures ok { OnOk result (blocks.new.items ≡ cut_in blocks.old.items block cut) }
    ensures len { OnOk result (vec_len blocks.new ≡ vec_len blocks.old + 1) }
    ensures err { OnErr result (blocks.new.items ≡ blocks.old.items) }
    ensures filled { AreFilled blocks.new.items }
    ensures groups { AreGroups groups.new blocks.new.items }
{
    let second = blocks[block].len() - cut;
    let old = blocks[block].name();
    let (first_name, second_name) = if cut < second {
        (name, old)
    } else {
        (old, name)
    };
    let tail = blocks[block].tail(alloc, cut, second_name)?;
    blocks.insert(block + 1, tail)?;
    blocks[block].cut(cut, first_name);
    groups.forget_from(block);
    Ok(())
}

/// Where a place is, once its block is two.
fn moved(at: Place, cut: usize) -> Place
    requires block { at.block < 18446744073709551615 }
    requires first { MOST_AT_ONCE ≤ cut }
    requires second { cut + MOST_AT_ONCE ≤ MOST }
    ensures block { result.block ≤ at.block + 1 }
    ensures place { (bs : Blocks) → IsPlace bs at.block at.index → IsPlace bs at.block cut →
        IsPlace (cut_in bs at.block cut) result.block result.index }
    ensures room { (bs : Blocks) → length (slice_index_or bs at.block []) ≤ MOST →
        length (slice_index_or (cut_in bs at.block cut) result.block []) + MOST_AT_ONCE ≤ MOST }
    ensures before { (bs : Blocks) → IsPlace bs at.block at.index →
        before (cut_in bs at.block cut) result.block result.index ≡ before bs at.block at.index }
    ensures behind { (bs : Blocks) → IsPlace bs at.block at.index →
        behind (cut_in bs at.block cut) result.block result.index ≡ behind bs at.block at.index }
{
    if at.index <= cut {
        at
    } else {
        Place {
            block: at.block + 1,
            index: at.index - cut,
        }
    }
}
