//! Records by identifier.
ghost use Rattle.std.specs.Prelude.{◌≡◌, ◌≢◌, ◌++◌, [], is_some, false, true, None, Some, Ok, IfErr, OnOk, OnErr};
ghost use Rattle.std.specs.BTreeMap.{insert_entry};
ghost use Rattle.std.specs.Map.{remove_entry, set_value};
ghost use Rattle.std.specs.Ordering.{eq_by_cmp};
ghost use Rattle.rga_ops.specs.Identifier.{id_cmp};
ghost use Rattle.rga_pages.specs.Pages.{entries_in, record_of, marked, noted, AreFilledPages, AreOrdered, IsUnmarked, Updates};

use crate::appending::{append, can_follow, end_of};
use crate::entry::Record;
use crate::page::Page;
use crate::putting::{has_room, insert, insert_in_full, overwrite, write};
use crate::removing::remove_at;
use crate::search::{end_for, find, find_record};
use crate::spot::Spot;
use rga_ops::{Id, OutOfMemory};
use std::alloc::Global;
use std::marker::Model;

/// Records by identifier, in sorted pages. Callers see the entries in the order of their
/// identifiers.
#[derive(Drop)]
pub struct Pages {
    alloc: Global,
    pages: Vec<Page>,
    // Where an identifier was looked for or put last.
    last: Spot,
}

impl Model for Pages {
    ghost use Rattle.rga_pages.specs.Pages.{Entries, entries_in, ArePages};

    ghost Value = { Entries };

    ghost view = { λ s. entries_in s.pages.items };

    ghost invariant = { λ s. ArePages s.pages.items };
}

impl Pages {
    /// No records. Takes no memory.
    pub fn new(alloc: Global) -> Pages
        ensures { result ≡ [] }
    {
        Pages {
            alloc,
            pages: Vec::new(alloc),
            last: Spot {
                page: 0,
                index: 0,
                found: false,
            },
        }
    }

    /// The record of an identifier. Takes no memory.
    pub fn get(&self, id: Id) -> Option<Record>
        ensures value { result ≡ record_of id self.now }
        ensures ordered { AreOrdered self.now }
    {
        let mut last = self.last;
        match find_record(&self.pages, &mut last, id) {
            Some(found) => Some(found.1),
            None => None,
        }
    }

    /// The record of an identifier, for which the next look-ups are quick. Takes no memory.
    pub fn look_up(&mut self, id: Id) -> Option<Record>
        ensures value { result ≡ record_of id self.old }
        ensures ordered { AreOrdered self.old }
        ensures same { self.new ≡ self.old }
    {
        match find_record(&self.pages, &mut self.last, id) {
            Some(found) => Some(found.1),
            None => None,
        }
    }

    /// An identifier gets its record. `Memory` alone, which changes nothing, and only where it had
    /// none.
    #[inline(always)]
    pub fn insert(&mut self, id: Id, value: Record) -> Result<(), OutOfMemory>
        ensures entries { OnOk result (self.new ≡ insert_entry id_cmp self.old id value) }
        ensures updates { OnOk result (Updates self.old self.new id (Some value)) }
        ensures err { OnErr result (self.new ≡ self.old) }
        ensures absent { OnErr result (record_of id self.old ≡ None) }
        ensures ordered { AreOrdered self.new }
        ensures was_ordered { AreOrdered self.old }
    {
        if let Some(end) = end_for(&self.pages, id) {
            write(&mut self.pages, end, id, value)?;
            self.last.page = end.page;
            self.last.index = end.index;
            return Ok(());
        }
        let spot = insert(self.alloc, &mut self.pages, self.last, id, value)?;
        self.last = spot;
        Ok(())
    }

    /// An identifier that has no record gets one, if others have some. Says whether it got it.
    /// `Memory` alone, which changes nothing, and only where it had none.
    #[inline(always)]
    pub fn insert_absent(&mut self, id: Id, value: Record) -> Result<bool, OutOfMemory>
        ensures updates { result ≡ Ok true → Updates self.old self.new id (Some value) }
        ensures absent { result ≡ Ok true → record_of id self.old ≡ None }
        ensures refused { OnErr result (record_of id self.old ≡ None) }
        ensures same { result ≡ Ok false → self.new ≡ self.old }
        ensures err { OnErr result (self.new ≡ self.old) }
        ensures ordered { AreOrdered self.new }
        ensures was_ordered { AreOrdered self.old }
    {
        if self.pages.as_slice().len() == 0 {
            return Ok(false);
        }
        let spot = find(&self.pages, self.last, id);
        self.last.page = spot.page;
        self.last.index = spot.index;
        if spot.found {
            return Ok(false);
        }
        if has_room(&self.pages, spot) {
            write(&mut self.pages, spot, id, value)?;
            return Ok(true);
        }
        let put = insert_in_full(self.alloc, &mut self.pages, spot, id, value)?;
        self.last = put;
        Ok(true)
    }

    /// Entries come in behind all others, some few, if the first of them is above these: what the
    /// last page has no room for begins one more. Says whether they came in. A refusal of memory
    /// changes nothing.
    pub fn append(&mut self, entries: &[(Id, Record)]) -> Result<bool, OutOfMemory>
        requires { AreOrdered entries.now }
        ensures entries { result ≡ Ok true → self.new ≡ self.old ++ entries.now }
        ensures same { result ≢ Ok true → self.new ≡ self.old }
        ensures ordered { AreOrdered self.new }
        ensures was_ordered { AreOrdered self.old }
    {
        if !can_follow(&self.pages, entries) {
            return Ok(false);
        }
        append(self.alloc, &mut self.pages, entries)?;
        self.last = end_of(&self.pages);
        Ok(true)
    }

    /// The record of an identifier is another, if there is one. Takes no memory.
    pub fn set(&mut self, id: Id, value: Record)
        ensures entries { self.new ≡ set_value (eq_by_cmp id_cmp id) self.old value }
        ensures updates { is_some (record_of id self.old) ≡ true →
            Updates self.old self.new id (Some value) }
        ensures ordered { AreOrdered self.new }
    {
        if let Some(found) = find_record(&self.pages, &mut self.last, id) {
            overwrite(&mut self.pages, found.0, id, value);
        }
    }

    /// The record of an identifier, if there is one, says that the element may stand in the block of
    /// that name, at that index. Takes no memory.
    pub fn note(&mut self, id: Id, block: u32, index: u8)
        ensures updates { Updates self.old self.new id
            (noted block index (record_of id self.old)) }
        ensures ordered { AreOrdered self.new }
        ensures was_ordered { AreOrdered self.old }
    {
        if let Some(found) = find_record(&self.pages, &mut self.last, id) {
            overwrite(&mut self.pages, found.0, id, found.1.moved(block, index));
        }
    }

    /// The record of an identifier, if there is one, as it was before it gets a mark. Takes no memory.
    pub fn mark(&mut self, id: Id) -> Option<Record>
        ensures value { result ≡ record_of id self.old }
        ensures updates { Updates self.old self.new id (marked (record_of id self.old)) }
        ensures same { result ≡ None → self.new ≡ self.old }
        ensures ordered { AreOrdered self.new }
        ensures was_ordered { AreOrdered self.old }
    {
        match find_record(&self.pages, &mut self.last, id) {
            Some(found) => {
                overwrite(&mut self.pages, found.0, id, found.1.marked());
                Some(found.1)
            }
            None => None,
        }
    }

    /// The record of an identifier gets a mark, if there is one with an element and without a mark. Says
    /// whether it got it. Takes no memory.
    pub fn mark_inserted(&mut self, id: Id) -> bool
        ensures found { result ≡ true → IsUnmarked (record_of id self.old) }
        ensures updates { result ≡ true →
            Updates self.old self.new id (marked (record_of id self.old)) }
        ensures kept { result ≡ false → self.new ≡ self.old }
        ensures ordered { AreOrdered self.new }
        ensures was_ordered { AreOrdered self.old }
    {
        match find_record(&self.pages, &mut self.last, id) {
            Some(found) => {
                if found.1.deleted {
                    return false;
                }
                if found.1.ch.is_none() {
                    return false;
                }
                overwrite(&mut self.pages, found.0, id, found.1.marked());
                true
            }
            None => false,
        }
    }

    /// The record of an identifier goes, if there is one. Takes no memory.
    pub fn remove(&mut self, id: Id)
        ensures entries { self.new ≡ remove_entry (eq_by_cmp id_cmp id) self.old }
        ensures updates { Updates self.old self.new id None }
        ensures ordered { AreOrdered self.new }
    {
        if let Some(found) = find_record(&self.pages, &mut self.last, id) {
            remove_at(&mut self.pages, found.0, id);
        }
    }

    /// The entries, page by page; no page is empty.
    pub fn pages(&self) -> &Vec<Page>
        ensures pages { entries_in result.now.items ≡ self.now }
        ensures ordered { AreOrdered self.now }
        ensures filled { AreFilledPages result.now.items }
    {
        &self.pages
    }
}
