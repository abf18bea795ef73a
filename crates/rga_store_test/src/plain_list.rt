//! Entries in one plain list, each with the name of its block in a sequence.
use rga_ops::{Id, Refusal};
use rga_sequence::Entry;
use std::alloc::Global;

/// An entry, and what was told of its block.
#[derive(Clone, Copy)]
pub struct Named {
    pub entry: Entry,
    pub name: usize,
}

/// Entries in one piece, looked through from the front.
#[derive(Drop)]
pub struct PlainList {
    pub rows: Vec<Named>,
}

impl PlainList {
    pub fn new(alloc: Global) -> PlainList {
        PlainList {
            rows: Vec::new(alloc),
        }
    }

    /// The row at an index, if there is one.
    pub fn at(&self, index: usize) -> Option<Named> {
        self.rows.get(index).copied()
    }

    /// The identifier and the name of the row before an index; the root where there is none.
    pub fn parent(&self, index: usize) -> (Id, usize) {
        if index == 0 {
            return (Id::ROOT, 0);
        }
        match self.at(index - 1) {
            Some(row) => (row.entry.id, row.name),
            None => (Id::ROOT, 0),
        }
    }

    pub fn has(&self, id: Id) -> bool {
        self.rows.iter().any(|row| row.entry.id == id)
    }

    /// The first index behind the first `behind` rows at which no larger identifier stands.
    fn index_for(&self, behind: usize, id: Id) -> usize {
        for (index, row) in self.rows.iter().enumerate() {
            if index >= behind && row.entry.id < id {
                return index;
            }
        }
        self.rows.len()
    }

    /// An entry goes behind the first `behind` rows and the larger ones that stand there.
    pub fn put(&mut self, behind: usize, entry: &Entry, name: usize) -> Result<(), Refusal> {
        let index = self.index_for(behind, entry.id).min(self.rows.len());
        let entry = *entry;
        self.rows.insert(index, Named { entry, name })?;
        Ok(())
    }

    /// The entries of a new block have its name.
    pub fn rename(&mut self, entries: &[Entry], name: usize) {
        for row in self.rows.iter_mut() {
            if entries.iter().any(|entry| entry.id == row.entry.id) {
                row.name = name;
            }
        }
    }

    pub fn delete(&mut self, index: usize) {
        if let Some(row) = self.rows.get_mut(index) {
            row.entry.deleted = true;
        }
    }

    pub fn take_out(&mut self, index: usize) {
        if index < self.rows.len() {
            self.rows.remove(index);
        }
    }

    /// The identifiers of all rows, or of those that are visible.
    pub fn ids(&self, alloc: Global, deleted_too: bool) -> Result<Vec<Id>, Refusal> {
        let mut ids = Vec::new(alloc);
        for row in &self.rows {
            if deleted_too || !row.entry.deleted {
                ids.push(row.entry.id)?;
            }
        }
        Ok(ids)
    }

    /// The characters of the visible rows.
    pub fn text(&self, alloc: Global) -> Result<Vec<char>, Refusal> {
        let mut chars = Vec::new(alloc);
        for row in &self.rows {
            if !row.entry.deleted {
                chars.push(row.entry.ch)?;
            }
        }
        Ok(chars)
    }
}
