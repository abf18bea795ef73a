//! What was drafted, taken.
ghost use Rattle.std.specs.Prelude.{◌≡◌, true, Ok, IfOk, IfErr, OnOk, OnErr};
ghost use Rattle.rga_ops.specs.Prelude.{content_of, join, list_answer, order, text};
ghost use Rattle.rga_ops.specs.Splice.{spliced, text_after};
ghost use Rattle.rga_store.specs.Taking.{TakesMore};
ghost use Rattle.rga_doc.specs.LocalEdit.{splice_operations, splices_operations, splice_answer, splices_answer, order_after};

use crate::doc::Doc;
use crate::edit::count_characters;
use rga_ops::{Op, OutOfMemory, Splice};
use rga_store::{Taker, TextStore};

/// Each of more splices would move much of what stands behind it: then all is listed anew.
const MOST_IN_PLACE: usize = 16;

impl<S: TextStore> Doc<S> {
    /// Takes the operations of splices that `draft` gave for this document as it is. `Memory`
    /// alone; then nothing changes.
    #[tactic(auto, using(rga_store::proofs::TakingLaws::joined_taken))]
    pub fn take(&mut self, splices: &[Splice], ops: &[Op]) -> Result<(), OutOfMemory>
        requires listed { self.old.listed ≡ true }
        requires allowed { splices_answer self.old.limit self.old.content splices.now ≡ Ok tt }
        requires operations { ops.now
            ≡ splices_operations self.old.replica self.old.content splices.now }

        ensures content { OnOk result (self.new
            ≡ record self.old { content = join self.old.content (content_of ops.now) }) }
        ensures text { OnOk result
            (text self.new.content ≡ text_after (text self.old.content) splices.now) }
        ensures took { OnOk result (TakesMore self.old.content ops.now self.new.content) }
        ensures same { OnErr result (self.new ≡ self.old) }
    {
        let new = count_characters(splices).min(self.store.limit());
        if splices.len() > MOST_IN_PLACE {
            let characters = self.listing.characters.spliced(self.alloc, splices, new)?;
            take_all(&mut self.store, ops)?;
            self.listing.characters = characters;
            return Ok(());
        }
        self.listing.characters.make_room(new)?;
        take_all(&mut self.store, ops)?;
        self.listing.replace_all(splices);
        Ok(())
    }

    /// Takes the operations of a splice that is allowed, in a listed document, and answers them.
    /// `Memory` alone; then nothing changes, but that the document may not be listed.
    pub(crate) fn take_splice(
        &mut self,
        lo: usize,
        hi: usize,
        put: &[char],
        ops: Vec<Op>,
    ) -> Result<Vec<Op>, OutOfMemory>
        requires listed { self.old.listed ≡ true }
        requires allowed { splice_answer self.old.limit self.old.content lo hi put.now ≡ Ok tt }
        requires operations { ops.items
            ≡ splice_operations self.old.replica self.old.content lo hi put.now }
        ensures ok { IfOk result (λ taken. taken.items ≡ ops.items) }
        ensures content { OnOk result (self.new ≡ record self.old
            { content = join self.old.content (content_of ops.items); listed = self.new.listed }) }
        ensures text { OnOk result
            (text self.new.content ≡ spliced (text self.old.content) lo hi put.now) }
        ensures place { OnOk result
            (order self.new.content ≡ order_after self.old.replica self.old.content lo put.now) }
        ensures same { OnErr result (self.new ≡ record self.old { listed = self.new.listed }) }
    {
        self.listing.make_room(self.alloc, put.len());
        take_all(&mut self.store, &ops)?;
        self.listing.splice(lo, hi, put);
        Ok(ops)
    }

    /// Takes what was drafted and answers it, and gives up what is listed where that alone wants
    /// memory. `Memory` alone; then nothing changes, but that the document may not be listed.
    pub(crate) fn take_or_forget(
        &mut self,
        splices: &[Splice],
        ops: Vec<Op>,
    ) -> Result<Vec<Op>, OutOfMemory>
        requires listed { self.old.listed ≡ true }
        requires allowed { splices_answer self.old.limit self.old.content splices.now ≡ Ok tt }
        requires operations { ops.items
            ≡ splices_operations self.old.replica self.old.content splices.now }
        ensures ok { IfOk result (λ taken. taken.items ≡ ops.items) }
        ensures content { OnOk result (self.new ≡ record self.old
            { content = join self.old.content (content_of ops.items); listed = self.new.listed }) }
        ensures same { OnErr result (self.new ≡ record self.old { listed = self.new.listed }) }
    {
        if self.take(splices, &ops).is_ok() {
            return Ok(ops);
        }
        self.listing.forget(self.alloc);
        take_all(&mut self.store, &ops)?;
        Ok(ops)
    }
}

/// Takes operations that the store takes; else nothing changes.
#[tactic(auto, using(rga_store::proofs::TakingLaws::memory_alone))]
pub(crate) fn take_all<S: TextStore>(store: &mut S, ops: &[Op]) -> Result<(), OutOfMemory>
    requires { list_answer (S.limit store.old) (S.content store.old) ops.now ≡ Ok tt }
    ensures content { OnOk result
        (S.content store.new ≡ join (S.content store.old) (content_of ops.now)) }
    ensures same { OnErr result (S.content store.new ≡ S.content store.old) }
    ensures limit { S.limit store.new ≡ S.limit store.old }
{
    match store.apply_all(ops) {
        Ok(()) => Ok(()),
        Err(refused) => Err(refused.memory()),
    }
}
