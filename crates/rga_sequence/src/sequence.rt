//! A sequence of entries.
ghost use Rattle.std.specs.Prelude.{◌≡◌, ◌≤◌, ◌<◌, ◌^◌, ◌||◌, [], length, slice_get, take, drop, true, false, IfSome, IfOk, IfErr, OnOk, OnErr};
ghost use Rattle.rga_ops.specs.Identifier.{is_root};
ghost use Rattle.rga_sequence.specs.Entries.{ids, has, entry_of, place_in, put_chain, put_entry, without_entry, mark_entry, visible_count, visible_ids, visible_text, IsChain, IsPart};

use crate::block::Block;
use crate::counts::{count_before, note_counts};
use crate::entry::Entry;
use crate::finding::{entries_of, entry_at, find};
use crate::groups::Groups;
use crate::listing;
use crate::names::{hints_of, near_at, renumber};
use crate::near::Near;
use crate::place::Place;
use crate::putting::{MOST_AT_ONCE, put_behind};
use crate::removing::{mark_at, remove_at};
use rga_ops::{Id, OutOfMemory};
use std::alloc::Global;
use std::marker::Model;

/// Where entries were put, for whoever finds entries by the names of their blocks.
#[derive(Clone, Copy)]
pub struct Put {
    /// Where the first of them stands; the others stand behind it, in the same block.
    pub near: Near,
    /// The name of the block that is new, if there is one: all its entries have that name now.
    pub new_block: Option<usize>,
}

/// Entries in a row, in blocks of at most 256. No two have one identifier.
///
/// An entry is found in its block, and that by its name. Where it may stand is for speed alone:
/// whatever is given, the answer is the same, but behind a wrong name all blocks are looked through.
#[derive(Drop)]
pub struct Sequence {
    alloc: Global,
    blocks: Vec<Block>,
    groups: Groups,
    // Where the block of each name stands, and where an entry was looked for last.
    names: Vec<usize>,
    last: Place,
}

impl Model for Sequence {
    ghost use Rattle.std.specs.Prelude.{List};
    ghost use Rattle.rga_sequence.specs.declared.entry.Entry.{Entry};
    ghost use Rattle.rga_sequence.specs.Blocks.{flat, IsSequence, AreGroups};

    ghost Value = { List Entry };

    ghost view = { λ s. flat s.blocks.items };

    ghost invariant = { λ s. IsSequence s.blocks.items × AreGroups s.groups s.blocks.items };
}

impl Sequence {
    /// No entries. Takes no memory.
    pub fn new(alloc: Global) -> Sequence
        ensures { result ≡ [] }
    {
        Sequence {
            alloc,
            blocks: Vec::new(alloc),
            groups: Groups::new(alloc),
            names: Vec::new(alloc),
            last: Place { block: 0, index: 0 },
        }
    }

    /// An entry goes behind its parent, past those of larger identifiers that stand there: so a
    /// Replicated Growable Array that is one sequence takes an insertion (Roh and others 2011).
    /// `near` is where the parent may stand. `Memory` alone, and then nothing is changed.
    pub fn put(&mut self, parent: Id, near: Near, entry: Entry) -> Result<Put, OutOfMemory>
        requires parent { is_root parent || has parent self.old ≡ true }
        requires absent { has entry.id self.old ≡ false }
        ensures ok { OnOk result (self.new ≡ put_entry parent entry self.old) }
        ensures err { OnErr result (self.new ≡ self.old) }
    {
        self.put_chain(parent, near, &[entry])
    }

    /// Entries of which each is the parent of the next are put, one after another, into one block.
    /// Each identifier is larger than the one before it: so all of them stand behind the first.
    /// `near` is where the first one's parent may stand. `Memory` alone, and then nothing is
    /// changed.
    pub fn put_chain(
        &mut self,
        parent: Id,
        near: Near,
        entries: &[Entry],
    ) -> Result<Put, OutOfMemory>
        requires some { 0 < length entries.now }
        requires chain { IsChain parent entries.now self.old }
        requires few { length entries.now ≤ MOST_AT_ONCE }
        ensures ok { OnOk result (self.new ≡ put_chain parent entries.now self.old) }
        ensures err { OnErr result (self.new ≡ self.old) }
    {
        self.names.reserve(1)?;
        let count = self.blocks.as_slice().len();
        let hints = hints_of(&self.names, self.last, near);
        let new_name = self.names.as_slice().len();
        let at = put_behind(
            self.alloc,
            &mut self.blocks,
            &mut self.groups,
            hints,
            parent,
            new_name,
            entries,
        )?;
        self.last = Place {
            block: at.block,
            index: at.index.saturating_add(entries.len()).saturating_sub(1),
        };
        if self.blocks.as_slice().len() == count {
            return Ok(Put {
                near: near_at(&self.blocks, at),
                new_block: None,
            });
        }
        // Where there is no room for the name, its block is looked for among all.
        let _room = self.names.push(0);
        // Where a block was cut, it may be the one before that has the new name.
        renumber(&mut self.names, &self.blocks, at.block.saturating_sub(1));
        note_counts(&self.blocks, &mut self.groups.counts);
        Ok(Put {
            near: near_at(&self.blocks, at),
            new_block: Some(new_name),
        })
    }

    /// The entry of an identifier goes, if there is one. Takes no memory.
    pub fn take_out(&mut self, id: Id, near: Near)
        ensures { self.new ≡ without_entry id self.old }
    {
        let hints = hints_of(&self.names, self.last, near);
        let count = self.blocks.as_slice().len();
        if let Some(at) = find(&self.blocks, hints, id) {
            remove_at(&mut self.blocks, &mut self.groups, at, id);
            if self.blocks.as_slice().len() < count {
                renumber(&mut self.names, &self.blocks, at.block);
                note_counts(&self.blocks, &mut self.groups.counts);
            }
        }
    }

    /// The entry of an identifier, if there is one, is deleted or not. Takes no memory.
    pub fn mark(&mut self, id: Id, near: Near, deleted: bool)
        ensures { self.new ≡ mark_entry deleted id self.old }
    {
        let hints = hints_of(&self.names, self.last, near);
        if let Some(at) = find(&self.blocks, hints, id) {
            mark_at(&mut self.blocks, &mut self.groups, at, id, deleted);
            self.last = at;
        }
    }

    /// The entry of an identifier. Takes no memory.
    pub fn find(&self, id: Id, near: Near) -> Option<Entry>
        ensures { result ≡ entry_of id self.now }
    {
        let hints = hints_of(&self.names, self.last, near);
        let at = find(&self.blocks, hints, id)?;
        entry_at(&self.blocks, at, id)
    }

    /// Whether there is an entry of an identifier. Takes no memory.
    pub fn contains(&self, id: Id, near: Near) -> bool
        ensures { result ≡ has id self.now }
    {
        let hints = hints_of(&self.names, self.last, near);
        find(&self.blocks, hints, id).is_some()
    }

    /// How many entries there are. Takes no memory.
    pub fn len(&self) -> usize
        requires { length self.now < 2 ^ 64 }
        ensures { result ≡ length self.now }
    {
        listing::len(&self.blocks)
    }

    /// How many entries are visible. Takes no memory.
    pub fn visible_len(&self) -> usize
        requires { length self.now < 2 ^ 64 }
        ensures { result ≡ visible_count self.now }
    {
        let count = self.blocks.as_slice().len();
        count_before(&self.blocks, &self.groups.counts, count)
    }

    /// The k-th visible entry, from 0. Takes no memory.
    pub fn element_at(&self, k: usize) -> Option<Id>
        ensures { result ≡ slice_get (visible_ids self.now) k }
    {
        listing::element_at(&self.blocks, &self.groups.counts, k)
    }

    /// The visible entries from the lo-th to the one before the hi-th. `Memory` alone.
    pub fn elements(&self, alloc: Global, lo: usize, hi: usize) -> Result<Vec<Id>, OutOfMemory>
        ensures ok { IfOk result (λ list.
            list.items ≡ drop lo (take hi (visible_ids self.now))) }
    {
        listing::elements(alloc, &self.blocks, &self.groups.counts, lo, hi)
    }

    /// How many visible entries are that of an identifier or stand before it, if there is one.
    /// Takes no memory.
    pub fn place_of(&self, id: Id, near: Near) -> Option<usize>
        requires { length self.now < 2 ^ 64 }
        ensures { result ≡ place_in id self.now }
    {
        let hints = hints_of(&self.names, self.last, near);
        let at = find(&self.blocks, hints, id)?;
        Some(listing::place_at(&self.blocks, &self.groups.counts, at, id))
    }

    /// The identifiers, deleted entries' too. `Memory` alone.
    pub fn ids(&self, alloc: Global) -> Result<Vec<Id>, OutOfMemory>
        ensures ok { IfOk result (λ list. list.items ≡ ids self.now) }
    {
        listing::list_ids(alloc, &self.blocks)
    }

    /// The characters of the visible entries. `Memory` alone.
    pub fn text(&self, alloc: Global) -> Result<Vec<char>, OutOfMemory>
        ensures ok { IfOk result (λ chars. chars.items ≡ visible_text self.now) }
    {
        listing::text(alloc, &self.blocks)
    }

    /// Where the entry of an identifier stands now, so that what is put behind it next is quick; what
    /// was given where there is none. Takes no memory.
    pub fn near(&self, id: Id, near: Near) -> Near {
        if id == Id::ROOT {
            return near;
        }
        let hints = hints_of(&self.names, self.last, near);
        match find(&self.blocks, hints, id) {
            Some(at) => near_at(&self.blocks, at),
            None => near,
        }
    }

    /// The entries of the block of a name that was answered: those that have that name. Takes no
    /// memory.
    pub fn block(&self, name: usize) -> Option<&[Entry]>
        ensures { IfSome result (λ es. IsPart es.now self.now) }
    {
        let near = Near {
            block: name,
            index: 0,
        };
        let hints = hints_of(&self.names, self.last, near);
        entries_of(&self.blocks, hints.near.block)
    }
}
