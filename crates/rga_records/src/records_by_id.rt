//! Records by identifier, with the clock and the counts of their content.
ghost use Rattle.std.specs.Prelude.{◌≡◌, ◌≢◌, ◌≤◌, ◌<◌, ◌+◌, ◌↔◌, length, take, drop, None, Ok, Err, OnOk, OnErr, IfOk, IfErr, is_some, string_bytes, encode_utf8_all, true, false};
ghost use Rattle.std.specs.FinMap as finite_map;
ghost use Rattle.std.specs.FinSet as finite_set;
ghost use Rattle.rga_ops.specs.Prelude.{answer, clock_of, element_at, join, known_count, nothing, operations, single, text, IsSound};
ghost use Rattle.rga_ops.specs.Answer.{facts};
ghost use Rattle.rga_ops.specs.Content.{Holds};
ghost use Rattle.rga_ops.specs.Found.{facts_of};
ghost use Rattle.rga_ops.specs.Operations.{insertions, deletions};
ghost use Rattle.rga_ops.specs.ListAnswer.{least_conflict};
ghost use Rattle.rga_ops.specs.declared.refusal.Taken.TheVariants.{New};
ghost use Rattle.rga_store.specs.Limit.{is_limit};
ghost use Rattle.rga_store.specs.Without.{without_operation, without_insertion, without_deletion};
ghost use Rattle.rga_store.specs.Back.{without_noted, CanTakeBack};
ghost use Rattle.rga_records.specs.Chains.{grown, AreNewer};

use crate::chains::{append_chain, latest};
use crate::entries::{
    add_element, clear_element, clear_mark, find_element, found_or_new, is_known, is_marked, mark,
    mark_inserted, near_of, set_element, set_near,
};
use crate::merging::{count_unknown, first_conflict};
use crate::operations::{Told, count_marked};
use crate::taking::remove_from;
use crate::telling::{Deaf, tell_pages};
use crate::walking::text_of;
use rga_ops::{Found, Id, Op, OutOfMemory, Refusal};
use rga_pages::Pages;
use rga_sequence::{Entry, Near};
use rga_store::counts::{count_unless, raise, uncount_unless};
use rga_store::{Listener, Lookup, MAX_LIMIT, Step};
use std::alloc::Global;
use std::marker::Model;

/// What is known of each identifier: a record for each that is inserted, deleted or both, and how
/// many there may be. Callers see the content that the records stand for, and the limit.
#[derive(Drop)]
pub struct Records {
    alloc: Global,
    entries: Pages,
    clock: u64,
    /// How many identifiers are inserted.
    inserted: usize,
    /// How many identifiers are inserted, deleted or both.
    known: usize,
    limit: usize,
}

impl Model for Records {
    ghost use Rattle.rga_store.specs.Kept.{Kept, kept_code};

    ghost Value = { Kept };

    ghost coded = { kept_code };

    ghost use Rattle.rga_records.specs.Records.{content_of_records, AreRecords};

    ghost view = { λ a. record {
      content = content_of_records a.entries;
      limit = a.limit;
    } };

    ghost invariant = { λ a. AreRecords a.entries a.clock a.inserted a.known a.limit };
}

impl Lookup for Records {
    ghost holds = { λ s. s.content };

    ghost may_know = { λ s. s.limit };

    fn element_of(&self, id: Id) -> Option<(Id, char)> {
        find_element(&self.entries, id)
    }

    fn knows_of(&self, id: Id) -> bool {
        is_known(&self.entries, id)
    }

    fn room(&self) -> usize {
        self.limit - self.known
    }
}

impl Records {
    /// Records of nothing, which may know `limit` identifiers. `Range` unless that is 1 to
    /// `MAX_LIMIT`. Takes no memory.
    pub fn new(alloc: Global, limit: usize) -> Result<Records, Refusal>
        ensures range { is_limit limit ≡ false → result ≡ Err Refusal.Range }
        ensures made { is_limit limit ≡ true →
            result ≡ Ok (record { content = nothing; limit = limit }) }
    {
        if limit < 1 || limit > MAX_LIMIT {
            return Err(Refusal::Range);
        }
        Ok(Records {
            alloc,
            entries: Pages::new(alloc),
            clock: 0,
            inserted: 0,
            known: 0,
            limit,
        })
    }

    /// Where memory is taken from.
    pub(crate) fn alloc(&self) -> Global {
        self.alloc
    }

    /// What is known of an identifier, and of the room that is left. The next calls for the same
    /// identifier are quick. Takes no memory.
    #[inline(always)]
    pub fn find(&mut self, id: Id) -> Found
        ensures facts { facts_of result ≡ facts self.old.limit self.old.content id }
        ensures same { self.new ≡ self.old }
    {
        // What is newer than all that is known needs no search.
        if id.counter() > self.clock {
            return Found {
                element: None,
                deleted: false,
                known: self.known,
                limit: self.limit,
            };
        }
        self.look_up(id)
    }

    /// What is known of an identifier that is looked for.
    #[inline(never)]
    fn look_up(&mut self, id: Id) -> Found
        ensures facts { facts_of result ≡ facts self.old.limit self.old.content id }
        ensures same { self.new ≡ self.old }
    {
        let record = found_or_new(self.entries.look_up(id));
        Found {
            element: record.element(),
            deleted: record.deleted,
            known: self.known,
            limit: self.limit,
        }
    }

    /// The parent and the character of an element that is inserted. Takes no memory.
    pub fn element(&self, id: Id) -> Option<(Id, char)>
        ensures { result ≡ element_at self.now.content id }
    {
        find_element(&self.entries, id)
    }

    /// Whether an identifier is deleted, be it inserted or not. Takes no memory.
    pub fn is_deleted(&self, id: Id) -> bool
        ensures { result ≡ finite_set.contains self.now.content.deleted id }
    {
        is_marked(&self.entries, id)
    }

    /// Whether an operation is in the content. Takes no memory.
    pub fn contains(&self, op: &Op) -> bool
        ensures { (result ≡ true) ↔ Holds self.now.content op.now }
    {
        match op {
            Op::Insert { id, parent, ch } => self.element(*id) == Some((*parent, *ch)),
            Op::Delete { id } => self.is_deleted(*id),
        }
    }

    /// The greatest counter among the insertions, their parents and the deletions; 0 where there
    /// is none. Takes no memory.
    pub fn clock(&self) -> u64
        ensures { result ≡ clock_of self.now.content }
    {
        self.clock
    }

    /// How many identifiers are inserted, deleted or both. Takes no memory.
    pub fn known(&self) -> usize
        ensures known { result ≡ known_count self.now.content }
        ensures within { result ≤ self.now.limit }
        ensures sound { IsSound self.now.content }
    {
        self.known
    }

    /// How many identifiers are inserted. Takes no memory.
    pub fn inserted(&self) -> usize
        ensures { result ≡ finite_map.len self.now.content.inserted }
    {
        self.inserted
    }

    /// How many identifiers may be known. Takes no memory.
    pub fn limit(&self) -> usize
        ensures limit { result ≡ self.now.limit }
        ensures range { is_limit result ≡ true }
    {
        self.limit
    }

    /// Where the element of an identifier that is inserted may stand, as it was noted. Takes no
    /// memory.
    pub fn near_if_inserted(&self, id: Id) -> Option<Near>
        ensures { is_some result ≡ finite_map.contains_key self.now.content.inserted id }
    {
        near_of(&self.entries, id)
    }

    /// Where the element of an identifier may stand, as it was noted; at the front where nothing was.
    /// Takes no memory.
    pub fn near(&self, id: Id) -> Near {
        near_of(&self.entries, id).unwrap_or(Near::FRONT)
    }

    /// Notes where the element of a known identifier may stand. Takes no memory.
    pub fn set_near(&mut self, id: Id, near: Near)
        ensures { self.new ≡ self.old }
    {
        set_near(&mut self.entries, id, near);
    }

    /// Takes an insertion that is new, and notes where the element may come to stand. `deleted` says
    /// whether its identifier is deleted, as `find` told. `Memory` alone, which changes nothing.
    #[inline(always)]
    pub fn insert(
        &mut self,
        id: Id,
        parent: Id,
        ch: char,
        near: Near,
        deleted: bool,
    ) -> Result<(), OutOfMemory>
        requires new { answer self.old.limit self.old.content (Op.Insert id parent ch) ≡ Ok New }
        requires deleted { deleted ≡ finite_set.contains self.old.content.deleted id }
        ensures ok { OnOk result
            (self.new.content ≡ join self.old.content (single (Op.Insert id parent ch))) }
        ensures same { OnErr result (self.new.content ≡ self.old.content) }
        ensures limit { self.new.limit ≡ self.old.limit }
    {
        set_element(&mut self.entries, id, parent, ch, near, deleted)?;
        self.inserted += 1;
        count_unless(deleted, &mut self.known);
        raise(&mut self.clock, id.counter());
        Ok(())
    }

    /// Whether an insertion is newer than all that is known and than its parent, and has room. Takes
    /// no memory.
    #[inline(always)]
    pub(crate) fn is_newer(&self, id: Id, parent: Id) -> bool
        ensures newer { result ≡ true → clock_of self.now.content < id.counter }
        ensures rises { result ≡ true → parent.counter < id.counter }
        ensures room { result ≡ true → known_count self.now.content < self.now.limit }
    {
        if id.counter() <= self.clock {
            return false;
        }
        self.has_room_for(id, parent)
    }

    /// Whether an insertion is newer than its parent, and has room. Takes no memory.
    #[inline(always)]
    pub(crate) fn has_room_for(&self, id: Id, parent: Id) -> bool
        ensures rises { result ≡ true → parent.counter < id.counter }
        ensures room { result ≡ true → known_count self.now.content < self.now.limit }
    {
        if id.counter() <= parent.counter() {
            return false;
        }
        self.known < self.limit
    }

    /// Takes an insertion that is newer than all that is known and than its parent, where there is
    /// room. `Memory` alone, which changes nothing.
    #[inline(always)]
    pub(crate) fn insert_newer(&mut self, id: Id, parent: Id, ch: char) -> Result<(), OutOfMemory>
        requires newer { clock_of self.old.content < id.counter }
        requires rises { parent.counter < id.counter }
        requires room { known_count self.old.content < self.old.limit }
        ensures ok { OnOk result
            (self.new.content ≡ join self.old.content (single (Op.Insert id parent ch))) }
        ensures same { OnErr result (self.new.content ≡ self.old.content) }
        ensures limit { self.new.limit ≡ self.old.limit }
    {
        set_element(&mut self.entries, id, parent, ch, Near::FRONT, false)?;
        self.inserted += 1;
        self.known += 1;
        self.clock = id.counter();
        Ok(())
    }

    /// Takes an insertion that is newer than its parent, where there is room, if nothing is known of
    /// its identifier and something of others. Says whether it took it. `Memory` alone, which changes
    /// nothing.
    #[inline(never)]
    pub(crate) fn insert_absent(
        &mut self,
        id: Id,
        parent: Id,
        ch: char,
    ) -> Result<bool, OutOfMemory>
        requires rises { parent.counter < id.counter }
        requires room { known_count self.old.content < self.old.limit }
        ensures answered { result ≡ Ok true →
            answer self.old.limit self.old.content (Op.Insert id parent ch) ≡ Ok New }
        ensures refused { OnErr result
            (answer self.old.limit self.old.content (Op.Insert id parent ch) ≡ Ok New) }
        ensures new { result ≡ Ok true →
            self.new.content ≡ join self.old.content (single (Op.Insert id parent ch)) }
        ensures known { result ≡ Ok false → self.new.content ≡ self.old.content }
        ensures same { OnErr result (self.new.content ≡ self.old.content) }
        ensures limit { self.new.limit ≡ self.old.limit }
    {
        if !add_element(&mut self.entries, id, parent, ch)? {
            return Ok(false);
        }
        self.inserted += 1;
        self.known += 1;
        raise(&mut self.clock, id.counter());
        Ok(true)
    }

    /// Takes insertions that are newer than all that is known, the first behind a parent and each
    /// other behind the one before it, and notes where the elements may come to stand: behind the
    /// parent, which may stand near there. Says whether it took them: not if one has a record
    /// already, of which nothing is known. A refusal of memory changes nothing.
    pub fn insert_chain(
        &mut self,
        alloc: Global,
        parent: Id,
        near: Near,
        chain: &[Entry],
    ) -> Result<bool, OutOfMemory>
        requires newer { AreNewer self.old.content parent chain.now }
        requires room { known_count self.old.content + length chain.now ≤ self.old.limit }
        ensures ok { result ≡ Ok true → self.new.content ≡ grown self.old.content parent chain.now }
        ensures same { result ≢ Ok true → self.new.content ≡ self.old.content }
        ensures limit { self.new.limit ≡ self.old.limit }
    {
        if !append_chain(alloc, &mut self.entries, parent, near, chain)? {
            return Ok(false);
        }
        self.inserted += chain.len();
        self.known += chain.len();
        self.clock = latest(self.clock, chain);
        Ok(true)
    }

    /// Takes a deletion that is new. `Memory` alone, which changes nothing; never for an identifier
    /// that is inserted.
    pub fn delete(&mut self, id: Id) -> Result<(), OutOfMemory>
        requires { answer self.old.limit self.old.content (Op.Delete id) ≡ Ok New }
        ensures ok { OnOk result
            (self.new.content ≡ join self.old.content (single (Op.Delete id))) }
        ensures same { OnErr result (self.new.content ≡ self.old.content) }
        ensures growth { OnErr result
            (finite_map.contains_key self.old.content.inserted id ≡ false) }
        ensures limit { self.new.limit ≡ self.old.limit }
    {
        let inserted = mark(&mut self.entries, id)?;
        count_unless(inserted, &mut self.known);
        raise(&mut self.clock, id.counter());
        Ok(())
    }

    /// Takes a deletion, if its identifier is inserted and not deleted. Says whether it took it. Takes
    /// no memory.
    #[inline(never)]
    pub(crate) fn delete_inserted(&mut self, id: Id) -> bool
        requires { 0 < id.counter }
        ensures answered { result ≡ true →
            answer self.old.limit self.old.content (Op.Delete id) ≡ Ok New }
        ensures new { result ≡ true →
            self.new.content ≡ join self.old.content (single (Op.Delete id)) }
        ensures kept { result ≡ false → self.new.content ≡ self.old.content }
        ensures limit { self.new.limit ≡ self.old.limit }
    {
        if !mark_inserted(&mut self.entries, id) {
            return false;
        }
        raise(&mut self.clock, id.counter());
        true
    }

    /// Removes an operation, to the clock from before it. Takes no memory.
    pub fn remove(&mut self, op: &Op, clock: u64)
        requires held { Holds self.old.content op.now }
        requires clock { clock ≡ clock_of (without_operation op.now self.old.content) }
        ensures content { self.new.content ≡ without_operation op.now self.old.content }
        ensures limit { self.new.limit ≡ self.old.limit }
    {
        match op {
            Op::Insert { id, .. } => self.remove_insertion(*id, clock),
            Op::Delete { id } => self.remove_deletion(*id, clock),
        }
    }

    /// Removes the operations of the steps from one on, the last first. Takes no memory.
    pub fn remove_steps(&mut self, steps: &mut Vec<Step<'_>>, from: usize)
        requires { CanTakeBack steps.old.items self.old.content }
        ensures content { self.new.content
            ≡ without_noted (drop from steps.old.items) self.old.content }
        ensures steps { steps.new.items ≡ take from steps.old.items }
        ensures limit { self.new.limit ≡ self.old.limit }
    {
        remove_from(self, steps, from);
    }

    /// The element of an identifier goes.
    fn remove_insertion(&mut self, id: Id, clock: u64)
        requires inserted { finite_map.contains_key self.old.content.inserted id ≡ true }
        requires clock { clock ≡ clock_of (without_insertion id self.old.content) }
        ensures content { self.new.content ≡ without_insertion id self.old.content }
        ensures limit { self.new.limit ≡ self.old.limit }
    {
        let deleted = clear_element(&mut self.entries, id);
        self.inserted -= 1;
        uncount_unless(deleted, &mut self.known);
        self.clock = clock;
    }

    /// The mark of an identifier goes.
    fn remove_deletion(&mut self, id: Id, clock: u64)
        requires deleted { finite_set.contains self.old.content.deleted id ≡ true }
        requires clock { clock ≡ clock_of (without_deletion id self.old.content) }
        ensures content { self.new.content ≡ without_deletion id self.old.content }
        ensures limit { self.new.limit ≡ self.old.limit }
    {
        let inserted = clear_mark(&mut self.entries, id);
        uncount_unless(inserted, &mut self.known);
        self.clock = clock;
    }

    /// The content as operations: the insertions by rising identifier, and then the deletions by
    /// rising identifier. There is room for all at first, so that the list is not moved while it
    /// grows. `Memory` alone.
    pub fn ops(&self, alloc: Global) -> Result<Vec<Op>, OutOfMemory>
        ensures ok { IfOk result (λ ops. ops.items ≡ operations self.now.content) }
    {
        let room = self
            .inserted
            .saturating_add(count_marked(self.entries.pages()));
        let mut told = Told {
            ops: Vec::with_capacity(alloc, room)?,
        };
        self.tell_insertions(&mut told)?;
        self.tell_deletions(&mut told)?;
        Ok(told.ops)
    }

    /// The characters of the visible elements, in order, in UTF-8. The elements are put in order
    /// for it, in one pass by rising identifier. `Memory` alone.
    pub fn text_string(&self, alloc: Global) -> Result<String, OutOfMemory>
        ensures ok { IfOk result (λ string.
            string_bytes string ≡ encode_utf8_all (text self.now.content)) }
    {
        let _known = self.known();
        text_of(alloc, &self.entries, self.known)
    }

    /// Tells the insertions by rising identifier, without a list of them. `Memory` where the listener
    /// answers it.
    pub fn tell_insertions<L: Listener>(&self, listener: &mut L) -> Result<(), OutOfMemory>
        ensures ok { OnOk result
            (L.hears listener.old (insertions self.now.content) listener.new) }
    {
        self.tell_both(listener, &mut Deaf)
    }

    /// Tells the deletions by rising identifier, without a list of them. `Memory` where the listener
    /// answers it.
    pub fn tell_deletions<L: Listener>(&self, listener: &mut L) -> Result<(), OutOfMemory>
        ensures ok { OnOk result
            (L.hears listener.old (deletions self.now.content) listener.new) }
    {
        self.tell_both(&mut Deaf, listener)
    }

    /// Tells one listener the insertions and another the deletions, each by rising identifier, in
    /// one pass. `Memory` where a listener answers it.
    pub fn tell_both<L: Listener, M: Listener>(
        &self,
        of_insertions: &mut L,
        of_deletions: &mut M,
    ) -> Result<(), OutOfMemory>
        ensures insertions { OnOk result
            (L.hears of_insertions.old (insertions self.now.content) of_insertions.new) }
        ensures deletions { OnOk result
            (M.hears of_deletions.old (deletions self.now.content) of_deletions.new) }
    {
        tell_pages(self.entries.pages(), of_insertions, of_deletions)
    }

    /// The least identifier that names two insertions, one in each: the first, since they rise.
    /// Takes no memory.
    pub fn least_conflict(&self, other: &Records) -> Option<Id>
        ensures { result ≡ least_conflict self.now.content other.now.content }
    {
        first_conflict(&self.entries, other.entries.pages())
    }

    /// How many identifiers the other records know and these do not. Takes no memory.
    pub fn count_unknown(&self, other: &Records) -> usize
        ensures { known_count self.now.content + result
            ≡ known_count (join self.now.content other.now.content) }
    {
        let _few = other.known();
        count_unknown(&self.entries, &other.entries)
    }
}
