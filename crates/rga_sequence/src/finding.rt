//! Where an identifier stands.
ghost use Rattle.std.specs.Prelude.{◌≡◌, ◌<◌, [], vec_len, None, IfSome, true, false, slice_index_or};
ghost use Rattle.rga_sequence.specs.Entries.{has, entry_of, IsPart};
ghost use Rattle.rga_sequence.specs.Blocks.{flat, Stands, IsSequence};

use crate::block::{Block, MOST};
use crate::entry::Entry;
use crate::place::Place;
use crate::scans::{index_from, is_at};
use rga_ops::Id;

/// Where an identifier is looked for first: at a place, and then from another on in its block,
/// whichever these are.
#[derive(Clone, Copy)]
pub(crate) struct Hints {
    pub(crate) last: Place,
    pub(crate) near: Place,
}

/// Where an identifier stands.
pub(crate) fn find(blocks: &Vec<Block>, hints: Hints, id: Id) -> Option<Place>
    ensures some { IfSome result (λ p. Stands blocks.now.items p.block p.index id) }
    ensures there { IfSome result (λ _. has id (flat blocks.now.items) ≡ true) }
    ensures block { IfSome result (λ p. p.block < vec_len blocks.now) }
    ensures within { IfSome result (λ p. p.index < MOST) }
    ensures none { result ≡ None → has id (flat blocks.now.items) ≡ false }
{
    if let Some(place) = find_at(blocks, hints.last, id) {
        return Some(place);
    }
    if let Some(place) = find_in(blocks, hints.near.block, hints.near.index, id) {
        return Some(place);
    }
    find_in_all(blocks, id)
}

/// The place, if the identifier stands there.
fn find_at(blocks: &Vec<Block>, at: Place, id: Id) -> Option<Place>
    ensures some { IfSome result (λ p. Stands blocks.now.items p.block p.index id) }
    ensures there { IfSome result (λ _. has id (flat blocks.now.items) ≡ true) }
    ensures block { IfSome result (λ p. p.block < vec_len blocks.now) }
    ensures within { IfSome result (λ p. p.index < MOST) }
{
    if at.block >= blocks.len() {
        return None;
    }
    if is_at(blocks[at.block].entries(), at.index, id) {
        return Some(at);
    }
    None
}

/// Where an identifier stands in a block, if there is such a block. It is looked for from an index
/// on first.
fn find_in(blocks: &Vec<Block>, block: usize, from: usize, id: Id) -> Option<Place>
    ensures some { IfSome result (λ p. Stands blocks.now.items p.block p.index id) }
    ensures there { IfSome result (λ _. has id (flat blocks.now.items) ≡ true) }
    ensures block { IfSome result (λ p. p.block < vec_len blocks.now) }
    ensures within { IfSome result (λ p. p.index < MOST) }
    ensures none { result ≡ None → has id (slice_index_or blocks.now.items block []) ≡ false }
{
    if block >= blocks.len() {
        return None;
    }
    let index = index_from(blocks[block].entries(), from, id)?;
    Some(Place { block, index })
}

/// Where an identifier stands in whichever block.
fn find_in_all(blocks: &Vec<Block>, id: Id) -> Option<Place>
    ensures some { IfSome result (λ p. Stands blocks.now.items p.block p.index id) }
    ensures there { IfSome result (λ _. has id (flat blocks.now.items) ≡ true) }
    ensures block { IfSome result (λ p. p.block < vec_len blocks.now) }
    ensures within { IfSome result (λ p. p.index < MOST) }
    ensures none { result ≡ None → has id (flat blocks.now.items) ≡ false }
{
    let mut block = 0;
    while block < blocks.as_slice().len() {
        if let Some(place) = find_in(blocks, block, 0, id) {
            return Some(place);
        }
        block += 1;
    }
    None
}

/// The entry at a place.
pub(crate) fn entry_at(blocks: &Vec<Block>, at: Place, id: Id) -> Option<Entry>
    requires block { at.block < vec_len blocks.now }
    requires stands { Stands blocks.now.items at.block at.index id }
    requires kept { IsSequence blocks.now.items }
    ensures { result ≡ entry_of id (flat blocks.now.items) }
{
    Some(blocks[at.block].entry(at.index))
}

/// The entries of a block, if there is such a block.
pub(crate) fn entries_of(blocks: &Vec<Block>, block: usize) -> Option<&[Entry]>
    ensures { IfSome result (λ es. IsPart es.now (flat blocks.now.items)) }
{
    if block >= blocks.len() {
        return None;
    }
    Some(blocks[block].entries())
}
