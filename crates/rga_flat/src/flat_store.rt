//! A store as records and one sequence.
ghost use Rattle.std.specs.Prelude.{◌≡◌, Ok, length};
ghost use Rattle.rga_ops.specs.Order.{waiting};

use crate::reading::{count_inserted, string_of};
use crate::taking::take;
use crate::waiting::clear_lists;
use crate::whole_list::take_whole;
use rga_ops::{Id, Op, OutOfMemory, Refusal, Taken};
use rga_records::Records;
use rga_sequence::Sequence;
use rga_store::{Listener, Taker, Teller, TextStore, answer_to_list};
use std::alloc::Global;
use std::collections::{BTreeMap, BTreeSet};
use std::marker::Model;

/// What is known of each identifier, the complete elements in order, and what waits. An element
/// that waits has a list of the children that wait for it, and so has what is not inserted but
/// waited for.
#[derive(Drop)]
pub struct FlatStore {
    alloc: Global,
    records: Records,
    sequence: Sequence,
    waiting: BTreeMap<Id, Vec<Id>>,
}

impl Model for FlatStore {
    ghost use Rattle.rga_store.specs.Kept.{Kept, kept_code};

    ghost Value = { Kept };

    ghost coded = { kept_code };

    ghost use Rattle.rga_flat.specs.Flat.{IsFlat};
    ghost use Rattle.rga_flat.specs.Waiting.{under, has_list};

    ghost view = { λ a. a.records };

    ghost invariant = { λ a.
        IsFlat a.records.content a.sequence (under a.waiting) (has_list a.waiting) };
}

impl Taker for FlatStore {
    ghost use Rattle.rga_store.specs.Growth.{NeedsRoom};

    ghost content = { λ s. s.content };

    ghost limit = { λ s. s.limit };

    ghost may_grow = { λ s op. NeedsRoom s.content op };

    ghost follows = { λ s ops t. Unit {0} };

    ghost follows_nothing = { λ s. tt };

    ghost follows_on = { λ s t u xs ys a b. tt };

    fn apply(&mut self, op: Op) -> Result<Taken, Refusal> {
        let mut done = BTreeSet::new(self.alloc);
        let taken = take(
            self.alloc,
            &mut self.records,
            &mut self.sequence,
            &mut self.waiting,
            &mut done,
            &op,
        )?;
        clear_lists(&mut self.waiting, &done);
        Ok(taken)
    }

    fn apply_all(&mut self, ops: &[Op]) -> Result<(), Refusal> {
        let _known = self.records.known();
        let Err(refused) = take_whole(
            self.alloc,
            &mut self.records,
            &mut self.sequence,
            &mut self.waiting,
            ops,
        ) else {
            return Ok(());
        };
        // Which refusal comes first depends on the whole list, so it is looked for only now.
        answer_to_list(self.alloc, &self.records, ops)?;
        Err(refused)
    }
}

impl TextStore for FlatStore {
    ghost use Rattle.std.proofs.Common.{true≢false, sym, ◌∙◌};

    ghost deletes_freely = { λ s id inserted grows. true≢false (sym inserted ∙ grows) };

    fn new(alloc: Global, limit: usize) -> Result<FlatStore, Refusal> {
        let records = Records::new(alloc, limit)?;
        Ok(FlatStore {
            alloc,
            records,
            sequence: Sequence::new(alloc),
            waiting: BTreeMap::new(alloc),
        })
    }

    fn get(&self, id: Id) -> Option<(Id, char)> {
        self.records.element(id)
    }

    fn is_deleted(&self, id: Id) -> bool {
        self.records.is_deleted(id)
    }

    fn known(&self) -> usize {
        self.records.known()
    }

    fn contains(&self, op: &Op) -> bool {
        self.records.contains(op)
    }

    fn clock(&self) -> u64 {
        self.records.clock()
    }

    fn limit(&self) -> usize {
        self.records.limit()
    }

    fn order(&self) -> Result<Vec<Id>, OutOfMemory> {
        self.sequence.ids(self.alloc)
    }

    fn text(&self, alloc: Global) -> Result<Vec<char>, OutOfMemory> {
        self.sequence.text(alloc)
    }

    fn text_string(&self, alloc: Global) -> Result<String, OutOfMemory> {
        let chars = self.sequence.text(alloc)?;
        string_of(alloc, chars.as_slice())
    }

    fn visible(&self, alloc: Global) -> Result<(Vec<Id>, Vec<char>), OutOfMemory> {
        let count = count_inserted(&self.records);
        let ids = self.sequence.elements(alloc, 0, count)?;
        let chars = self.sequence.text(alloc)?;
        Ok((ids, chars))
    }

    fn visible_len(&self) -> usize {
        let _count = count_inserted(&self.records);
        self.sequence.visible_len()
    }

    fn element_at(&self, k: usize) -> Option<Id> {
        self.sequence.element_at(k)
    }

    fn elements(&self, alloc: Global, lo: usize, hi: usize) -> Result<Vec<Id>, OutOfMemory> {
        self.sequence.elements(alloc, lo, hi)
    }

    fn place_of(&self, id: Id) -> Option<usize> {
        if id == Id::ROOT {
            return Some(0);
        }
        let _count = count_inserted(&self.records);
        self.sequence.place_of(id, self.records.near(id))
    }

    fn waiting_count(&self) -> Result<usize, OutOfMemory>
        ensures exact { result ≡ Ok (length (waiting self.now.content)) }
    {
        let count = count_inserted(&self.records);
        Ok(count - self.sequence.len())
    }

    fn ops(&self) -> Result<Vec<Op>, OutOfMemory> {
        self.records.ops(self.alloc)
    }

    fn copy(&self) -> Result<FlatStore, OutOfMemory> {
        let _known = self.records.known();
        let ops = self.records.ops(self.alloc)?;
        let mut copy = match FlatStore::new(self.alloc, self.records.limit()) {
            Ok(copy) => copy,
            Err(refused) => return Err(refused.memory()),
        };
        let taken = take_whole(
            copy.alloc,
            &mut copy.records,
            &mut copy.sequence,
            &mut copy.waiting,
            &ops,
        );
        match taken {
            Ok(()) => Ok(copy),
            Err(refused) => Err(refused.memory()),
        }
    }

    fn merge(&mut self, other: &FlatStore) -> Result<(), Refusal> {
        if let Some(id) = self.records.least_conflict(&other.records) {
            return Err(Refusal::Conflict(id));
        }
        let room = self.records.limit() - self.records.known();
        if self.records.count_unknown(&other.records) > room {
            return Err(Refusal::Full);
        }
        let _known = other.records.known();
        let ops = other.records.ops(self.alloc)?;
        take_whole(
            self.alloc,
            &mut self.records,
            &mut self.sequence,
            &mut self.waiting,
            &ops,
        )
    }
}

impl Teller for FlatStore {
    fn tell_insertions<L: Listener>(&self, listener: &mut L) -> Result<(), OutOfMemory> {
        self.records.tell_insertions(listener)
    }

    fn tell_deletions<L: Listener>(&self, listener: &mut L) -> Result<(), OutOfMemory> {
        self.records.tell_deletions(listener)
    }

    fn tell_both<L: Listener, M: Listener>(
        &self,
        of_insertions: &mut L,
        of_deletions: &mut M,
    ) -> Result<(), OutOfMemory> {
        self.records.tell_both(of_insertions, of_deletions)
    }
}
