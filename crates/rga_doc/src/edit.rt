//! Edits by place.
ghost use Rattle.std.specs.Prelude.{◌≡◌, ◌≤◌, ◌&&◌, ℕ, min, nat_le, true, length, Ok, Err, IfOk, IfErr, OnOk, OnErr, if◌then◌else◌};
ghost use Rattle.rga_ops.specs.Prelude.{content_of, join, order, text, IsAnswer, Memory};
ghost use Rattle.rga_ops.specs.Splice.{spliced, text_after, are_falling, end_of, new_characters};
ghost use Rattle.rga_store.specs.Limit.{is_limit};
ghost use Rattle.rga_store.specs.Taking.{TakesMore};
ghost use Rattle.rga_doc.specs.Excerpt.{begin_of};
ghost use Rattle.rga_doc.specs.LocalEdit.{splice_operations, splices_operations, splice_answer, splices_answer, edit_answer, room_answer, counter_answer, order_after};

use crate::doc::Doc;
use crate::draft::Draft;
use crate::excerpt::Excerpt;
use rga_ops::{Id, Op, OutOfMemory, Refusal, Splice};
use rga_store::{Taker, TextStore};

impl<S: TextStore> Doc<S> {
    /// Replaces the characters `lo` to `hi - 1` of the text by `put`, and answers the operations:
    /// deletions of the visible elements there, in order, and then insertions with counters that go
    /// on from the clock, the first after the visible element `lo - 1`, each further one after the
    /// one before it (the local insertion of Attiya and others 2016).
    ///
    /// Refusals, in this order: `Full` where the new characters exceed the limit; `Range` where
    /// `lo` is above `hi` or `hi` above the length of the text; `Clock` where there are new
    /// characters and not that many counters; `Memory`, which may come in the place of `Clock`, and
    /// of `Range` where `lo` is not above `hi`. A refusal changes nothing, but that it may leave the
    /// document listed.
    #[tactic(auto, using(rga_store::proofs::TakingLaws::joined_taken))]
    pub fn splice(&mut self, lo: usize, hi: usize, put: &[char]) -> Result<Vec<Op>, Refusal>
        ensures exact { IsAnswer result
            (splice_answer self.old.limit self.old.content lo hi put.now) }

        ensures operations { IfOk result (λ ops. ops.items
            ≡ splice_operations self.old.replica self.old.content lo hi put.now) }
        ensures content { IfOk result (λ ops. self.new
            ≡ record self.old
            { content = join self.old.content (content_of ops.items); listed = self.new.listed }) }
        ensures text { OnOk result
            (text self.new.content ≡ spliced (text self.old.content) lo hi put.now) }
        // The new elements stand in a row directly behind their left neighbour, whatever stood
        // there.
        ensures place { OnOk result
            (order self.new.content ≡ order_after self.old.replica self.old.content lo put.now) }

        ensures took { IfOk result
            (λ ops. TakesMore self.old.content ops.items self.new.content) }
        ensures same { OnErr result
            (self.new ≡ record self.old { listed = self.new.listed }) }
        // Nothing asks for memory before there is room and the places are in order.
        ensures room { result ≡ Err Memory →
            room_answer self.old.limit self.old.content (length put.now) ≡ Ok tt }
        ensures ordered { result ≡ Err Memory → lo ≤ hi }
    {
        self.check_edit(lo <= hi, hi, put.len())?;
        let ops = self.write_splice(lo, hi, put)?;
        Ok(self.take_splice(lo, hi, put, ops)?)
    }

    /// What refuses an edit whose places are in order or not, that ends at a place and puts so many
    /// characters, memory for its operations aside. Lists the document.
    fn check_edit(&mut self, is_ordered: bool, end: usize, new: usize) -> Result<(), Refusal>
        ensures exact { (count : ℕ) → new ≡ min count usize.MAX → IsAnswer result
            (edit_answer self.old.limit self.old.content
            (is_ordered && nat_le end (length (text self.old.content))) count) }
        ensures listed { OnOk result (self.new ≡ record self.old { listed = true }) }
        ensures same { OnErr result
            (self.new ≡ record self.old { listed = self.new.listed }) }
        ensures room { (count : ℕ) → new ≡ min count usize.MAX → result ≡ Err Memory →
            room_answer self.old.limit self.old.content count ≡ Ok tt }
        ensures in_order { OnOk result (is_ordered ≡ true) }
        ensures ordered { result ≡ Err Memory → is_ordered ≡ true }
    {
        if !has_room(&self.store, new) {
            return Err(Refusal::Full);
        }
        if !is_ordered {
            return Err(Refusal::Range);
        }
        self.list()?;
        if end > self.characters().len() {
            return Err(Refusal::Range);
        }
        check_counters(&self.store, new)
    }

    /// The operations of a splice that is allowed. `Memory` alone.
    fn write_splice(&self, lo: usize, hi: usize, put: &[char]) -> Result<Vec<Op>, OutOfMemory>
        requires allowed { splice_answer self.now.limit self.now.content lo hi put.now ≡ Ok tt }
        ensures operations { IfOk result (λ ops. ops.items
            ≡ splice_operations self.now.replica self.now.content lo hi put.now) }
    {
        let elements = Excerpt::of(self.alloc, &self.store, lo, hi)?;
        let mut draft = Draft::new(self.alloc, self.replica, self.store.clock());
        draft.splice(&elements, lo, hi, put)?;
        Ok(draft.ops)
    }

    /// Several splices at once, of places that fall and do not overlap: each ends at or before the
    /// begin of the one before it. The places are meant in the old text; the splices are done in
    /// the order given.
    ///
    /// Refusals, in this order, for all splices together: `Full`, `Range` (of a place, or of two
    /// that do not fall), `Clock`; `Memory`, which may come in the place of `Clock`, and of `Range`
    /// where the places fall. A refusal changes nothing, but that it may leave the document listed.
    #[tactic(auto, using(rga_store::proofs::TakingLaws::joined_taken))]
    pub fn splices(&mut self, splices: &[Splice]) -> Result<Vec<Op>, Refusal>
        ensures exact { IsAnswer result
            (splices_answer self.old.limit self.old.content splices.now) }

        ensures operations { IfOk result (λ ops. ops.items
            ≡ splices_operations self.old.replica self.old.content splices.now) }
        ensures content { IfOk result (λ ops. self.new
            ≡ record self.old
            { content = join self.old.content (content_of ops.items); listed = self.new.listed }) }
        ensures text { OnOk result
            (text self.new.content ≡ text_after (text self.old.content) splices.now) }

        ensures took { IfOk result
            (λ ops. TakesMore self.old.content ops.items self.new.content) }
        ensures same { OnErr result
            (self.new ≡ record self.old { listed = self.new.listed }) }
        ensures room { result ≡ Err Memory →
            room_answer self.old.limit self.old.content (new_characters splices.now) ≡ Ok tt }
        ensures ordered { result ≡ Err Memory →
            are_falling (end_of splices.now) splices.now ≡ true }
    {
        let ops = self.draft(splices)?;
        Ok(self.take_or_forget(splices, ops)?)
    }

    /// The operations of several splices, which are not taken yet: `take` does that, and what
    /// stands above can make its own room before it. Lists the document.
    ///
    /// Refuses as `splices` does. Nothing else changes than that the document may be listed.
    pub fn draft(&mut self, splices: &[Splice]) -> Result<Vec<Op>, Refusal>
        ensures exact { IsAnswer result
            (splices_answer self.old.limit self.old.content splices.now) }
        ensures operations { IfOk result (λ ops. ops.items
            ≡ splices_operations self.old.replica self.old.content splices.now) }

        ensures listed { OnOk result (self.new ≡ record self.old { listed = true }) }
        ensures same { OnErr result
            (self.new ≡ record self.old { listed = self.new.listed }) }
        ensures room { result ≡ Err Memory →
            room_answer self.old.limit self.old.content (new_characters splices.now) ≡ Ok tt }
        ensures ordered { result ≡ Err Memory →
            are_falling (end_of splices.now) splices.now ≡ true }
    {
        let end = end_of(splices);
        let new = count_characters(splices);
        self.check_edit(are_falling(end, splices), end, new)?;
        Ok(self.write_splices(splices)?)
    }

    /// The operations of splices that are allowed. `Memory` alone.
    fn write_splices(&self, splices: &[Splice]) -> Result<Vec<Op>, OutOfMemory>
        requires allowed { splices_answer self.now.limit self.now.content splices.now ≡ Ok tt }
        ensures operations { IfOk result (λ ops. ops.items
            ≡ splices_operations self.now.replica self.now.content splices.now) }
    {
        let (lo, hi) = (begin_of(splices), end_of(splices));
        let elements = Excerpt::of(self.alloc, &self.store, lo, hi)?;
        let draft = Draft::new(self.alloc, self.replica, self.store.clock());
        draft.splices(&elements, splices)
    }
}

/// Whether the limit leaves room for so many more. The store says with its limit that this is in
/// range.
pub(crate) fn has_room<S: TextStore>(store: &S, new: usize) -> bool
    ensures answer { room_answer (S.limit store.now) (S.content store.now) new
        ≡ (if result then Ok tt else Err Refusal.Full) }
    ensures limited { is_limit (S.limit store.now) ≡ true }
{
    new <= store.limit() - store.known()
}

/// `Clock` where there are new characters and not that many counters above the clock.
pub(crate) fn check_counters<S: TextStore>(store: &S, new: usize) -> Result<(), Refusal>
    ensures { result ≡ counter_answer (S.content store.now) new }
{
    if new as u64 > Id::MAX_COUNTER.saturating_sub(store.clock()) {
        return Err(Refusal::Clock);
    }
    Ok(())
}

/// How many characters the splices put; at most the greatest number.
pub(crate) fn count_characters(splices: &[Splice]) -> usize
    ensures { result ≡ min (new_characters splices.now) usize.MAX }
{
    let mut count: usize = 0;
    for splice in splices {
        count = count.saturating_add(splice.put.len());
    }
    count
}

/// Where the first splice ends, and so all of them where they fall; 0 where there is none.
fn end_of(splices: &[Splice]) -> usize
    ensures { result ≡ end_of splices.now }
{
    splices.first().map_or(0, |splice| splice.hi)
}

/// Where the last splice begins, and so no other before it where they fall; 0 where there is none.
fn begin_of(splices: &[Splice]) -> usize
    ensures { result ≡ begin_of splices.now }
{
    match splices.last() {
        Some(splice) => splice.lo,
        None => 0,
    }
}

/// Whether each splice ends at or before the begin of the one before it, and the first at or before
/// the end.
fn are_falling(end: usize, splices: &[Splice]) -> bool
    ensures { result ≡ are_falling end splices.now }
{
    let mut bound = end;
    for splice in splices {
        if splice.lo > splice.hi || splice.hi > bound {
            return false;
        }
        bound = splice.lo;
    }
    true
}
