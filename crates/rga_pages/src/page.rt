//! Some entries in a row.
ghost use Rattle.std.specs.Prelude.{◌≡◌, ◌≤◌, ◌<◌, ◌++◌, length, take, drop, insert, remove, slice_set, IfOk, IfErr, OnOk, OnErr};
ghost use Rattle.rga_pages.specs.Pages.{BeginsWith};

use crate::entry::Record;
use rga_ops::{Id, OutOfMemory};
use std::alloc::Global;
use std::marker::Model;

/// How many entries a page has at most.
pub(crate) const MOST: usize = 256;

/// Some entries in a row: identifiers with their records.
#[derive(Drop)]
pub struct Page {
    entries: Vec<(Id, Record)>,
    // The first entry's identifier, so that a search for a page looks at no entries.
    first: Id,
}

impl Model for Page {
    ghost use Rattle.rga_pages.specs.Pages.{Entries, BeginsWith};

    ghost Value = { Entries };

    ghost view = { λ p. p.entries.items };

    ghost invariant = { λ p. BeginsWith p.first p.entries.items };
}

/// The first entry's identifier; the root where there is none.
fn first_of(entries: &[(Id, Record)]) -> Id
    ensures { BeginsWith result entries.now }
{
    if entries.len() == 0 {
        return Id::ROOT;
    }
    entries[0].0
}

impl Page {
    /// A page of some entries, in room for as many as a page has at most. `Memory` alone.
    pub(crate) fn of_some(alloc: Global, some: &[(Id, Record)]) -> Result<Page, OutOfMemory>
        ensures ok { IfOk result (λ p. p ≡ some.now) }
    {
        let mut entries = Vec::with_capacity(alloc, MOST)?;
        entries.extend_from_slice(some)?;
        let first = first_of(entries.as_slice());
        Ok(Page { entries, first })
    }

    /// The entries.
    pub fn entries(&self) -> &[(Id, Record)]
        ensures { result.now ≡ self.now }
    {
        self.entries.as_slice()
    }

    /// The first entry's identifier.
    pub(crate) fn first(&self) -> Id
        ensures { BeginsWith result self.now }
    {
        self.first
    }

    /// An entry comes in at an index. `Memory` alone.
    #[inline(always)]
    pub(crate) fn put(&mut self, index: usize, id: Id, value: Record) -> Result<(), OutOfMemory>
        requires { index ≤ length self.old }
        ensures ok { OnOk result (self.new ≡ insert self.old index (id, value)) }
        ensures err { OnErr result (self.new ≡ self.old) }
    {
        if index == 0 || index < self.entries.as_slice().len() {
            return self.put_before(index, id, value);
        }
        self.entries.reserve(1)?;
        self.entries.push_reserved((id, value));
        Ok(())
    }

    /// The same before others, or as the first. Those from there on are moved in one go, which LLVM
    /// does not make of `Vec::insert`.
    fn put_before(&mut self, index: usize, id: Id, value: Record) -> Result<(), OutOfMemory>
        requires { index ≤ length self.old }
        ensures ok { OnOk result (self.new ≡ insert self.old index (id, value)) }
        ensures err { OnErr result (self.new ≡ self.old) }
    {
        self.entries.push((id, value))?;
        self.entries.as_mut_slice()[index..].rotate_right(1);
        if index == 0 {
            self.first = id;
        }
        Ok(())
    }

    /// The entry at an index is another. Takes no memory.
    pub(crate) fn set(&mut self, index: usize, id: Id, value: Record)
        requires { index < length self.old }
        ensures { self.new ≡ slice_set self.old index (id, value) }
    {
        self.entries[index] = (id, value);
        if index == 0 {
            self.first = id;
        }
    }

    /// The entry at an index goes. Takes no memory.
    pub(crate) fn remove(&mut self, index: usize)
        requires { index < length self.old }
        ensures { self.new ≡ remove self.old index }
    {
        let _gone = self.entries.remove(index);
        self.first = first_of(self.entries.as_slice());
    }

    /// What stands from an index on, as a page of its own. `Memory` alone.
    pub(crate) fn tail(&self, alloc: Global, from: usize) -> Result<Page, OutOfMemory>
        requires { from ≤ length self.now }
        ensures ok { IfOk result (λ p. p ≡ drop from self.now) }
    {
        Page::of_some(alloc, &self.entries.as_slice()[from..])
    }

    /// More entries come in behind those that there are. `Memory` alone.
    pub(crate) fn extend(&mut self, more: &[(Id, Record)]) -> Result<(), OutOfMemory>
        ensures ok { OnOk result (self.new ≡ self.old ++ more.now) }
        ensures err { OnErr result (self.new ≡ self.old) }
    {
        self.entries.extend_from_slice(more)?;
        self.first = first_of(self.entries.as_slice());
        Ok(())
    }

    /// What stands from an index on goes. Takes no memory.
    pub(crate) fn cut(&mut self, at: usize)
        ensures { self.new ≡ take at self.old }
    {
        self.entries.truncate(at);
        self.first = first_of(self.entries.as_slice());
    }
}
