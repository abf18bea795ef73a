//! Some entries in a row.
ghost use Rattle.std.specs.Prelude.{◌≡◌, ◌≤◌, ◌<◌, ◌+◌, ◌++◌, length, vec_len, slice_get, Some, take, drop, remove, IfOk, IfErr, OnOk, OnErr};
ghost use Rattle.rga_sequence.specs.Entries.{visible_count, visible_ids};
ghost use Rattle.rga_sequence.specs.Blocks.{larger_at_front, insert_all, mark_at_index, AreFrom};

use crate::entry::Entry;
use crate::scans::{
    count_one, count_visible, id_at, is_larger, least_of, lesser, past_larger, push_id_range,
    push_visible, visible_at,
};
use rga_ops::{Id, OutOfMemory};
use std::alloc::Global;
use std::marker::Model;

/// How many entries a block has at most.
pub(crate) const MOST: usize = 256;

/// For how many entries a block asks for room at a time.
const ROOM: usize = 64;

/// Some entries in a row. It knows how many of them are visible, and an identifier that none of
/// theirs is less than. By its name it is found wherever it stands.
#[derive(Drop)]
pub(crate) struct Block {
    entries: Vec<Entry>,
    visible: usize,
    least: Id,
    name: usize,
}

impl Model for Block {
    ghost use Rattle.std.specs.Prelude.{List};
    ghost use Rattle.rga_sequence.specs.declared.entry.Entry.{Entry};
    ghost use Rattle.rga_sequence.specs.Blocks.{IsBlock};

    ghost Value = { List Entry };

    ghost view = { λ b. b.entries.items };

    ghost invariant = { λ b. IsBlock b.visible b.least b.entries.items };
}

/// How much room is asked for where there are `len` and some come in.
fn room_for(len: usize, more: usize) -> usize
    requires { len + more ≤ MOST }
    ensures { more ≤ result }
{
    (len + more + (ROOM - 1)) / ROOM * ROOM - len
}

/// Entries come in at an index. Those from there on are moved in one go.
fn insert_into(entries: &mut Vec<Entry>, index: usize, more: &[Entry]) -> Result<(), OutOfMemory>
    requires index { index ≤ vec_len entries.old }
    requires room { vec_len entries.old + length more.now ≤ MOST }
    ensures ok { OnOk result (entries.new.items ≡ insert_all entries.old.items index more.now) }
    ensures err { OnErr result (entries.new.items ≡ entries.old.items) }
{
    let len = entries.as_slice().len();
    entries.reserve_exact(room_for(len, more.len()))?;
    entries.extend_from_slice(more)?;
    entries.as_mut_slice()[index..].rotate_right(more.len());
    Ok(())
}

/// What none is less than, once others are there too: as large as it can be where there was none.
fn new_least(entries: &[Entry], least: Id, more: &[Entry]) -> Id
    requires { AreFrom least entries.now }
    ensures old { AreFrom result entries.now }
    ensures new { AreFrom result more.now }
{
    let new = least_of(more);
    if entries.len() == 0 {
        return new;
    }
    lesser(least, new)
}

/// The entry at an index is deleted or not.
fn mark(entries: &mut Vec<Entry>, index: usize, deleted: bool)
    requires { index < vec_len entries.old }
    ensures { entries.new.items ≡ mark_at_index deleted index entries.old.items }
{
    entries[index].deleted = deleted;
}

impl Block {
    /// A block of these entries.
    fn of(entries: Vec<Entry>, name: usize) -> Block
        requires { length entries.items ≤ MOST }
        ensures { result ≡ entries.items }
    {
        let visible = count_visible(entries.as_slice());
        let least = least_of(entries.as_slice());
        Block {
            entries,
            visible,
            least,
            name,
        }
    }

    /// A block of some entries. `Memory` alone.
    pub(crate) fn of_some(alloc: Global, name: usize, some: &[Entry]) -> Result<Block, OutOfMemory>
        requires { length some.now ≤ MOST }
        ensures ok { IfOk result (λ b. b ≡ some.now) }
    {
        let mut entries = Vec::with_capacity(alloc, room_for(0, some.len()))?;
        entries.extend_from_slice(some)?;
        Ok(Block::of(entries, name))
    }

    /// An identifier that none of the entries' is less than.
    pub(crate) fn least(&self) -> Id
        ensures { AreFrom result self.now }
    {
        self.least
    }

    /// The block's name.
    pub(crate) fn name(&self) -> usize {
        self.name
    }

    pub(crate) fn len(&self) -> usize
        ensures len { result ≡ length self.now }
        ensures most { result ≤ MOST }
    {
        self.entries.as_slice().len()
    }

    /// How many entries are visible.
    pub(crate) fn visible_len(&self) -> usize
        ensures count { result ≡ visible_count self.now }
        ensures most { result ≤ MOST }
    {
        self.visible
    }

    /// How many of the entries before an index are visible.
    pub(crate) fn visible_before(&self, index: usize) -> usize
        requires { index ≤ length self.now }
        ensures { result ≡ visible_count (take index self.now) }
    {
        if self.visible >= self.entries.as_slice().len() {
            return index;
        }
        count_visible(&self.entries.as_slice()[..index])
    }

    /// The k-th visible entry.
    pub(crate) fn visible_at(&self, k: usize) -> Option<Id>
        ensures { result ≡ slice_get (visible_ids self.now) k }
    {
        if self.visible >= self.entries.as_slice().len() {
            return id_at(self.entries.as_slice(), k);
        }
        visible_at(self.entries.as_slice(), k)
    }

    /// The visible entries from the lo-th to the one before the hi-th go behind a list.
    pub(crate) fn push_visible(
        &self,
        list: &mut Vec<Id>,
        lo: usize,
        hi: usize,
    ) -> Result<(), OutOfMemory>
        requires { lo < hi }
        ensures ok { OnOk result (list.new.items
            ≡ list.old.items ++ drop lo (take hi (visible_ids self.now))) }
    {
        if lo >= self.visible {
            return Ok(());
        }
        let entries = self.entries.as_slice();
        if self.visible >= entries.len() {
            return push_id_range(list, entries, lo, hi);
        }
        push_visible(list, entries, lo, hi)
    }

    /// The entries.
    pub(crate) fn entries(&self) -> &[Entry]
        ensures same { result.now ≡ self.now }
        ensures most { length self.now ≤ MOST }
    {
        self.entries.as_slice()
    }

    /// The entry at an index.
    pub(crate) fn entry(&self, index: usize) -> Entry
        requires { index < length self.now }
        ensures { slice_get self.now index ≡ Some result }
    {
        self.entries[index]
    }

    /// The first index from `from` on where no identifier larger than `id` stands.
    pub(crate) fn past_larger(&self, from: usize, id: Id) -> usize
        requires { from ≤ length self.now }
        ensures index { result ≡ from + larger_at_front id (drop from self.now) }
        ensures within { result ≤ length self.now }
    {
        if is_larger(self.least, id) {
            return self.entries.as_slice().len();
        }
        past_larger(self.entries.as_slice(), from, id)
    }

    /// Entries come in at an index. `Memory` alone.
    pub(crate) fn put(&mut self, index: usize, more: &[Entry]) -> Result<(), OutOfMemory>
        requires index { index ≤ length self.old }
        requires room { length self.old + length more.now ≤ MOST }
        ensures ok { OnOk result (self.new ≡ insert_all self.old index more.now) }
        ensures err { OnErr result (self.new ≡ self.old) }
    {
        let least = new_least(self.entries.as_slice(), self.least, more);
        let visible = self.visible + count_visible(more);
        insert_into(&mut self.entries, index, more)?;
        self.least = least;
        self.visible = visible;
        Ok(())
    }

    /// What stands from an index on, as a block of its own. `Memory` alone.
    pub(crate) fn tail(&self, alloc: Global, from: usize, name: usize) -> Result<Block, OutOfMemory>
        requires { from ≤ length self.now }
        ensures ok { IfOk result (λ b. b ≡ drop from self.now) }
    {
        let entries = Vec::from_slice(alloc, &self.entries.as_slice()[from..])?;
        Ok(Block::of(entries, name))
    }

    /// What stands from an index on goes; the block has another name now.
    pub(crate) fn cut(&mut self, at: usize, name: usize)
        ensures { self.new ≡ take at self.old }
    {
        self.name = name;
        self.entries.truncate(at);
        self.visible = count_visible(self.entries.as_slice());
        self.least = least_of(self.entries.as_slice());
    }

    /// The entry at an index goes. Takes no memory.
    pub(crate) fn remove(&mut self, index: usize)
        requires { index < length self.old }
        ensures { self.new ≡ remove self.old index }
    {
        let entry = self.entries.remove(index);
        self.visible -= count_one(entry);
    }

    /// The entry at an index is deleted or not. Takes no memory.
    pub(crate) fn mark(&mut self, index: usize, deleted: bool)
        requires { index < length self.old }
        ensures { self.new ≡ mark_at_index deleted index self.old }
    {
        let before = count_one(self.entries[index]);
        mark(&mut self.entries, index, deleted);
        let now = count_one(self.entries[index]);
        self.visible = self.visible - before + now;
    }
}
