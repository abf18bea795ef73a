//! The children of one parent.
ghost use Rattle.std.specs.Prelude.{◌≡◌, ◌≤◌, [], length, slice_get, false, IfOk, IfErr, OnOk, OnErr};
ghost use Rattle.std.specs.List.Sorted.{IsPartitionPoint};
ghost use Rattle.rga_ops.specs.Identifier.{id_cmp};
ghost use Rattle.rga_store.specs.Rising.{IsRising};
ghost use Rattle.rga_tree.specs.Children.{has_child, AddsChild, RemovesChild, children_in, next_newer};

use rga_ops::{Id, OutOfMemory};
use smallvec::SmallVec;
use std::alloc::Global;
use std::cmp::Ordering;
use std::collections::BTreeSet;
use std::ops::Bound;

/// How many children stand in one piece.
const MOST_IN_ONE_PIECE: usize = 64;

/// The children of one parent, by rising identifier. Mostly there is one, which takes no memory of
/// its own. In one piece a child that comes before others moves these, so many stand in a tree.
#[derive(Drop)]
pub(crate) enum ChildList {
    Few(SmallVec<Id, 1>),
    Many(BTreeSet<Id>),
}

impl ChildList {
    /// The list of no children. Takes no memory.
    pub(crate) fn new(alloc: Global) -> ChildList
        ensures { children_in result ≡ [] }
    {
        ChildList::Few(SmallVec::new(alloc))
    }

    /// A child that is not there goes in.
    pub(crate) fn put(&mut self, alloc: Global, id: Id) -> Result<(), OutOfMemory>
        requires rising { IsRising (children_in self.old) }
        requires absent { has_child (children_in self.old) id ≡ false }
        ensures added { OnOk result (AddsChild (children_in self.old) (children_in self.new) id) }
        ensures rising { IsRising (children_in self.new) }
        ensures same { OnErr result (self.new ≡ self.old) }
    {
        match self {
            ChildList::Few(few) => {
                if few.as_slice().len() < MOST_IN_ONE_PIECE {
                    return put_among_few(few, id);
                }
                let set = many_with(alloc, few.as_slice(), id)?;
                *self = ChildList::Many(set);
                Ok(())
            }
            ChildList::Many(set) => put_among_many(set, id),
        }
    }

    /// A child leaves, if it is there. Takes no memory.
    pub(crate) fn remove(&mut self, id: Id)
        requires { IsRising (children_in self.old) }
        ensures removed { RemovesChild (children_in self.old) (children_in self.new) id }
        ensures rising { IsRising (children_in self.new) }
    {
        match self {
            ChildList::Few(few) => few.retain(|child| *child != id),
            ChildList::Many(set) => {
                let _was_there = set.remove(&id);
            }
        }
    }

    /// The oldest child. Takes no memory.
    pub(crate) fn oldest(&self) -> Option<Id>
        ensures { result ≡ slice_get (children_in self.now) 0 }
    {
        match self {
            ChildList::Few(few) => few.as_slice().first().copied(),
            ChildList::Many(set) => set.first().copied(),
        }
    }

    /// The oldest of the children that are newer than an identifier. Takes no memory.
    pub(crate) fn next_newer(&self, id: Id) -> Option<Id>
        ensures { result ≡ next_newer id (children_in self.now) }
    {
        match self {
            ChildList::Few(few) => next_among_few(few.as_slice(), id),
            ChildList::Many(set) => next_among_many(set, id),
        }
    }
}

/// Where a child goes in that is not there.
fn insertion_index(few: &[Id], id: Id) -> usize
    requires rising { IsRising few.now }
    requires absent { has_child few.now id ≡ false }
    ensures within { result ≤ length few.now }
    ensures index { IsPartitionPoint (λ y. id_cmp y id ≡ Ordering.Less)
        (λ y. id_cmp y id ≡ Ordering.Greater) few.now result }
{
    match few.binary_search(&id) {
        Ok(index) => index,
        Err(index) => index,
    }
}

fn put_among_few(few: &mut SmallVec<Id, 1>, id: Id) -> Result<(), OutOfMemory>
    requires rising { IsRising few.old.items }
    requires absent { has_child few.old.items id ≡ false }
    ensures added { OnOk result (AddsChild few.old.items few.new.items id) }
    ensures rising { IsRising few.new.items }
    ensures same { OnErr result (few.new ≡ few.old) }
{
    let index = insertion_index(few.as_slice(), id);
    few.insert(index, id)?;
    Ok(())
}

fn put_among_many(set: &mut BTreeSet<Id>, id: Id) -> Result<(), OutOfMemory>
    ensures added { OnOk result (AddsChild set.old.keys set.new.keys id) }
    ensures rising { IsRising set.new.keys }
    ensures same { OnErr result (set.new ≡ set.old) }
{
    set.insert(id)?;
    Ok(())
}

/// A tree of these children and one more.
fn many_with(alloc: Global, few: &[Id], id: Id) -> Result<BTreeSet<Id>, OutOfMemory>
    ensures added { IfOk result (λ set. AddsChild few.now set.keys id) }
    ensures rising { IfOk result (λ set. IsRising set.keys) }
{
    let mut set = BTreeSet::new(alloc);
    for child in few {
        put_among_many(&mut set, *child)?;
    }
    put_among_many(&mut set, id)?;
    Ok(set)
}

fn next_among_few(few: &[Id], id: Id) -> Option<Id>
    ensures { result ≡ next_newer id few.now }
{
    for child in few {
        if *child > id {
            return Some(*child);
        }
    }
    None
}

fn next_among_many(set: &BTreeSet<Id>, id: Id) -> Option<Id>
    ensures { result ≡ next_newer id set.now.keys }
{
    match set.range((Bound::Excluded(id), Bound::Unbounded)).next() {
        Some(child) => Some(*child),
        None => None,
    }
}
