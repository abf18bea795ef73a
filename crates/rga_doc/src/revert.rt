//! Edits that are reverted.
ghost use Rattle.std.specs.Prelude.{◌≡◌, ◌||◌, not, ◌+◌, ◌≤◌, ◌<◌, ◌++◌, filter, take, length, Ok, Err, IfOk, IfErr, OnOk, OnErr};
ghost use Rattle.indexmap.specs.IndexSet.{contains};
ghost use Rattle.rga_ops.specs.Prelude.{Identifier, clock_of, content_of, is_id, join, order, text, IsAnswer, Memory};
ghost use Rattle.rga_ops.specs.Order.{waiting};
ghost use Rattle.rga_ops.specs.Places.{is_visible};
ghost use Rattle.rga_ops.specs.RootPath.{is_complete};
ghost use Rattle.rga_store.specs.Taking.{TakesMore};
ghost use Rattle.rga_doc.specs.LocalEdit.{room_answer, place_answer};
ghost use Rattle.rga_doc.specs.Revert.{distinct_elements, restorations, revert_operations, are_restorable, revert_answer, put_back};

use crate::doc::Doc;
use crate::draft::Draft;
use crate::edit::{check_counters, has_room};
use crate::taking::take_all;
use indexmap::IndexSet;
use rga_ops::{Id, Op, OutOfMemory, Refusal};
use rga_store::{Taker, TextStore};
use std::alloc::Global;

impl<S: TextStore> Doc<S> {
    /// Reverts an edit that inserted the elements `gone` and deleted those of `back`: deletes those
    /// of `gone` that are visible, each once, in the order given, and then inserts each character
    /// of `back` with its element as the parent, with counters that go on from the clock. So each
    /// restored element stands directly behind the one that it restores, whatever stood there.
    ///
    /// Refusals, in this order: `Full` where the new characters exceed the limit; `Range` where an
    /// element of `back` is not complete or stands there twice; `Clock` where there are new
    /// characters and not that many counters; `Memory`, which may come in the place of the last two.
    /// A refusal changes nothing.
    #[tactic(auto, using(rga_store::proofs::TakingLaws::joined_taken))]
    pub fn revert(&mut self, gone: &[Id], back: &[(Id, char)]) -> Result<Vec<Op>, Refusal>
        ensures exact { IsAnswer result
            (revert_answer self.old.limit self.old.content back.now) }

        ensures operations { IfOk result (λ ops. ops.items
            ≡ revert_operations self.old.replica self.old.content gone.now back.now) }
        ensures content { IfOk result (λ ops. self.new
            ≡ record self.old
            { content = join self.old.content (content_of ops.items); listed = self.new.listed }) }
        // Each restored element stands directly behind the one that it restores.
        ensures place { OnOk result (order self.new.content
            ≡ put_back self.old.replica (clock_of self.old.content) back.now
            (order self.old.content)) }

        ensures took { IfOk result
            (λ ops. TakesMore self.old.content ops.items self.new.content) }
        ensures same { OnErr result (self.new ≡ self.old) }
        // Nothing asks for memory before there is room.
        ensures room { result ≡ Err Memory →
            room_answer self.old.limit self.old.content (length back.now) ≡ Ok tt }
    {
        let ops = self.draft_revert(gone, back)?;
        let _front = self.take_revert(gone, back, &ops)?;
        Ok(ops)
    }

    /// Takes the operations of a revert that `draft_revert` gave for this document as it is, and
    /// answers how many characters at the front are known to have stayed. A listed document may be
    /// listed then or not. `Memory` alone; then nothing changes.
    #[tactic(auto, using(rga_store::proofs::TakingLaws::joined_taken))]
    pub fn take_revert(
        &mut self,
        gone: &[Id],
        back: &[(Id, char)],
        ops: &[Op],
    ) -> Result<usize, OutOfMemory>
        requires allowed { revert_answer self.old.limit self.old.content back.now ≡ Ok tt }
        requires operations { ops.now
            ≡ revert_operations self.old.replica self.old.content gone.now back.now }

        ensures content { OnOk result (self.new ≡ record self.old
            { content = join self.old.content (content_of ops.now); listed = self.new.listed }) }
        ensures front { IfOk result (λ n. take n (text self.new.content)
            ≡ take n (text self.old.content)) }
        ensures took { OnOk result (TakesMore self.old.content ops.now self.new.content) }
        ensures same { OnErr result (self.new ≡ self.old) }
    {
        let (deletions, insertions) = ops.split_at(ops.len() - back.len());
        let margins = self
            .listing
            .margins(&self.store, deletions, insertions.len());
        take_all(&mut self.store, ops)?;
        let front = self
            .listing
            .follow(self.alloc, &self.store, margins, insertions);
        Ok(front)
    }

    /// The operations of `revert`, which are not taken. The refusals are those of `revert`.
    pub fn draft_revert(&self, gone: &[Id], back: &[(Id, char)]) -> Result<Vec<Op>, Refusal>
        ensures exact { IsAnswer result
            (revert_answer self.now.limit self.now.content back.now) }

        ensures operations { IfOk result (λ ops. ops.items
            ≡ revert_operations self.now.replica self.now.content gone.now back.now) }

        ensures room { result ≡ Err Memory →
            room_answer self.now.limit self.now.content (length back.now) ≡ Ok tt }
    {
        if !has_room(&self.store, back.len()) {
            return Err(Refusal::Full);
        }
        let waits = self.store.waiting_count()?;
        check_restorable(self.alloc, &self.store, waits, back)?;
        check_counters(&self.store, back.len())?;
        let visible = collect_visible(self.alloc, &self.store, waits, gone)?;
        let mut draft = Draft::new(self.alloc, self.replica, self.store.clock());
        draft.delete(&visible)?;
        draft.restore(back)?;
        Ok(draft.ops)
    }
}

/// `Range` if an element is not complete or stands twice; `Memory`.
fn check_restorable<S: TextStore>(
    alloc: Global,
    store: &S,
    waits: usize,
    back: &[(Id, char)],
) -> Result<(), Refusal>
    requires { waits ≡ length (waiting (S.content store.now)) }
    ensures { IsAnswer result (place_answer (are_restorable (S.content store.now) back.now)) }
{
    let mut seen = IndexSet::new(alloc);
    for (element, _) in back {
        if !is_in_order(store, waits, *element) {
            return Err(Refusal::Range);
        }
        if !put_in(&mut seen, *element)? {
            return Err(Refusal::Range);
        }
    }
    Ok(())
}

/// Those of the elements that are visible, each once. `Memory` alone.
fn collect_visible<S: TextStore>(
    alloc: Global,
    store: &S,
    waits: usize,
    ids: &[Id],
) -> Result<Vec<Id>, OutOfMemory>
    requires { waits ≡ length (waiting (S.content store.now)) }
    ensures ok { IfOk result (λ kept. kept.items
        ≡ distinct_elements (filter (is_visible (S.content store.now)) ids.now)) }
{
    let mut seen = IndexSet::new(alloc);
    let mut kept = Vec::new(alloc);
    for id in ids {
        if !is_in_order(store, waits, *id) {
            continue;
        }
        if store.is_deleted(*id) {
            continue;
        }
        if !put_in(&mut seen, *id)? {
            continue;
        }
        kept.push(*id)?;
    }
    Ok(kept)
}

/// Whether an element is complete: if none waits, each that is inserted is. Takes no memory.
fn is_in_order<S: TextStore>(store: &S, waits: usize, id: Id) -> bool
    requires { waits ≡ length (waiting (S.content store.now)) }
    ensures { result ≡ is_complete (S.content store.now) id }
{
    if waits == 0 {
        return store.get(id).is_some();
    }
    if id == Id::ROOT {
        return false;
    }
    store.place_of(id).is_some()
}

/// Puts an element in, and tells whether it is new. `Memory` alone.
fn put_in(set: &mut IndexSet<Id>, id: Id) -> Result<bool, OutOfMemory>
    ensures new { IfOk result (λ new. new ≡ not (contains is_id set.old id)) }
    ensures members { OnOk result ((q : Identifier) →
        contains is_id set.new q ≡ (is_id id q || contains is_id set.old q)) }
{
    Ok(set.insert(id)?)
}

impl Draft {
    /// One new element for each character, with its element as the parent.
    fn restore(&mut self, back: &[(Id, char)]) -> Result<(), OutOfMemory>
        requires { 0 < length back.now → self.old.last + length back.now ≤ Id.MAX_COUNTER }
        ensures ops { OnOk result (self.new.ops.items
            ≡ self.old.ops.items ++ restorations self.old.replica self.old.last back.now) }
    {
        for (element, ch) in back {
            let Ok(id) = Id::new(self.last + 1, self.replica) else {
                unreachable!()
            };
            self.ops.push(Op::Insert {
                id,
                parent: *element,
                ch: *ch,
            })?;
            self.last += 1;
        }
        Ok(())
    }
}
