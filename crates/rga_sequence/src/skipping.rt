//! Where a new entry goes: behind its parent, past the larger ones.
ghost use Rattle.std.specs.Prelude.{◌≡◌, ◌<◌, ◌+◌, ◌++◌, ◌∷◌, ◌||◌, List, vec_len, true, false};
ghost use Rattle.rga_ops.specs.Identifier.{is_root};
ghost use Rattle.rga_sequence.specs.declared.entry.Entry.{Entry};
ghost use Rattle.rga_sequence.specs.Entries.{has, change_behind_entry, put_entry_past_larger};
ghost use Rattle.rga_sequence.specs.Blocks.{flat, before, behind, IsPlace, Passes, Stops, IsSequence, AreBounds};

use crate::block::{Block, MOST};
use crate::bounds::past_groups;
use crate::entry::Entry;
use crate::finding::{Hints, find};
use crate::place::Place;
use rga_ops::Id;

/// The place directly behind a parent.
pub(crate) fn behind_parent(blocks: &Vec<Block>, hints: Hints, parent: Id) -> Place
    requires some { 0 < vec_len blocks.now }
    requires kept { IsSequence blocks.now.items }
    requires parent { is_root parent || has parent (flat blocks.now.items) ≡ true }
    ensures block { result.block < vec_len blocks.now }
    ensures place { IsPlace blocks.now.items result.block result.index }
    ensures behind { (f : List Entry → List Entry) → let bs = blocks.now.items in
        change_behind_entry parent f (flat bs)
        ≡ before bs result.block result.index ++ f (behind bs result.block result.index) }
{
    if parent == Id::ROOT {
        return Place { block: 0, index: 0 };
    }
    let Some(Place { block, index }) = find(blocks, hints, parent) else {
        unreachable!();
    };
    Place {
        block,
        index: index + 1,
    }
}

/// The index in the same block behind the identifiers larger than an entry's.
fn past_in_block(blocks: &Vec<Block>, at: Place, entry: &Entry) -> usize
    requires block { at.block < vec_len blocks.now }
    requires place { IsPlace blocks.now.items at.block at.index }
    ensures place { IsPlace blocks.now.items at.block result }
    ensures stops { Stops blocks.now.items at.block result entry.now }
    ensures past { Passes blocks.now.items at.block at.index at.block result entry.now }
{
    blocks[at.block].past_larger(at.index, entry.id)
}

/// Whether an index is the end of its block, and another block follows.
fn goes_on(blocks: &Vec<Block>, block: usize, index: usize) -> bool
    requires block { block < vec_len blocks.now }
    requires place { IsPlace blocks.now.items block index }
    ensures next { result ≡ true → block + 1 < vec_len blocks.now }
    ensures front { result ≡ true → IsPlace blocks.now.items (block + 1) 0 }
    ensures before { result ≡ true →
        before blocks.now.items block index ≡ before blocks.now.items (block + 1) 0 }
    ensures behind { result ≡ true →
        behind blocks.now.items block index ≡ behind blocks.now.items (block + 1) 0 }
    ensures end { (e : Entry) → result ≡ false → Stops blocks.now.items block index e →
        put_entry_past_larger e (behind blocks.now.items block index)
        ≡ e ∷ behind blocks.now.items block index }
{
    if index < blocks[block].len() {
        return false;
    }
    block + 1 < blocks.as_slice().len()
}

/// The same place, as the end of the block before it where there is room for so many.
fn back(blocks: &Vec<Block>, at: Place, count: usize) -> Place
    requires block { at.block < vec_len blocks.now }
    requires place { IsPlace blocks.now.items at.block at.index }
    ensures block { result.block < vec_len blocks.now }
    ensures place { IsPlace blocks.now.items result.block result.index }
    ensures before { before blocks.now.items result.block result.index
        ≡ before blocks.now.items at.block at.index }
    ensures behind { behind blocks.now.items result.block result.index
        ≡ behind blocks.now.items at.block at.index }
{
    if at.index > 0 {
        return at;
    }
    if at.block == 0 {
        return at;
    }
    let block = at.block - 1;
    let index = blocks[block].len();
    if count > MOST - index {
        return at;
    }
    Place { block, index }
}

/// The place behind `from` and the identifiers larger than an entry's that stand there: where there
/// are two, the one with room for `count` entries. The bounds that are missing on the way are noted.
pub(crate) fn skip(
    blocks: &Vec<Block>,
    bounds: &mut Vec<Id>,
    from: Place,
    entry: &Entry,
    count: usize,
) -> Place
    requires block { from.block < vec_len blocks.now }
    requires place { IsPlace blocks.now.items from.block from.index }
    requires bounds { AreBounds bounds.old.items blocks.now.items }
    ensures bounds { AreBounds bounds.new.items blocks.now.items }
    ensures block { result.block < vec_len blocks.now }
    ensures place { IsPlace blocks.now.items result.block result.index }
    ensures skipped { let bs = blocks.now.items in
        before bs from.block from.index
        ++ put_entry_past_larger entry.now (behind bs from.block from.index)
        ≡ before bs result.block result.index ++ entry.now ∷ behind bs result.block result.index }
    ensures stops { let bs = blocks.now.items in
        put_entry_past_larger entry.now (behind bs result.block result.index)
        ≡ entry.now ∷ behind bs result.block result.index }
{
    let mut block = from.block;
    let mut index = past_in_block(blocks, from, entry);
    while goes_on(blocks, block, index) {
        block = past_groups(blocks, bounds, block + 1, entry);
        index = past_in_block(blocks, Place { block, index: 0 }, entry);
    }
    back(blocks, Place { block, index }, count)
}
