//! The operations of an edit that is not taken yet.
ghost use Rattle.std.specs.Prelude.{◌≡◌, ◌<◌, ◌≤◌, ◌+◌, ◌++◌, [], true, map, length, OnOk, IfOk, IfErr};
ghost use Rattle.rga_ops.specs.Splice.{are_falling, new_characters};
ghost use Rattle.rga_doc.specs.Excerpt.{begin_of};
ghost use Rattle.rga_doc.specs.LocalEdit.{chain, splice_operations_at, draft_operations};

use crate::excerpt::Excerpt;
use rga_ops::{Id, Op, OutOfMemory, Splice};
use std::alloc::Global;

/// Operations in the order in which they are made, and what names the next insertion.
#[derive(Drop)]
pub(crate) struct Draft {
    pub(crate) ops: Vec<Op>,
    pub(crate) replica: u16,
    /// The last counter that is in use.
    pub(crate) last: u64,
    pub(crate) ghost numbered: { 1 ≤ replica },
}

impl Draft {
    /// An edit with no operations yet.
    pub(crate) fn new(alloc: Global, replica: u16, last: u64) -> Draft
        requires { 1 ≤ replica }
        ensures ops { result.ops.items ≡ [] }
        ensures replica { result.replica ≡ replica }
        ensures last { result.last ≡ last }
    {
        Draft {
            ops: Vec::new(alloc),
            replica,
            last,
        }
    }

    /// The operations of a splice, by the visible elements of the text that its places are meant
    /// in.
    pub(crate) fn splice(
        &mut self,
        elements: &Excerpt,
        lo: usize,
        hi: usize,
        put: &[char],
    ) -> Result<(), OutOfMemory>
        requires begin { elements.now.start ≤ lo }
        requires ordered { lo ≤ hi }
        requires in_text { hi ≤ length elements.now.items }
        requires counters { 0 < length put.now → self.old.last + length put.now ≤ Id.MAX_COUNTER }
        ensures ops { OnOk result (self.new.ops.items ≡ self.old.ops.items
            ++ splice_operations_at elements.now.items self.old.replica self.old.last lo hi
            put.now) }
        ensures last { OnOk result (self.new.last ≡ self.old.last + length put.now) }
        ensures replica { self.new.replica ≡ self.old.replica }
    {
        self.delete(elements.between(lo, hi))?;
        self.insert(elements.left_of(lo), put)
    }

    /// All operations, with those of several splices whose places are meant in the same text.
    pub(crate) fn splices(
        self,
        elements: &Excerpt,
        splices: &[Splice],
    ) -> Result<Vec<Op>, OutOfMemory>
        requires begin { elements.now.start ≤ begin_of splices.now }
        requires falling { are_falling (length elements.now.items) splices.now ≡ true }
        requires counters { 0 < new_characters splices.now
            → self.last + new_characters splices.now ≤ Id.MAX_COUNTER }
        ensures ops { IfOk result (λ ops. ops.items ≡ self.ops.items
            ++ draft_operations self.replica elements.now.items self.last splices.now) }
    {
        let mut draft = self;
        for splice in splices {
            draft.splice(elements, splice.lo, splice.hi, &splice.put)?;
        }
        Ok(draft.ops)
    }

    /// A deletion of each element.
    pub(crate) fn delete(&mut self, elements: &[Id]) -> Result<(), OutOfMemory>
        ensures ops { OnOk result
            (self.new.ops.items ≡ self.old.ops.items ++ map Op.Delete elements.now) }
        ensures last { self.new.last ≡ self.old.last }
        ensures replica { self.new.replica ≡ self.old.replica }
    {
        self.ops.reserve(elements.len())?;
        for id in elements {
            self.ops.push_reserved(Op::Delete { id: *id });
        }
        Ok(())
    }

    /// One new element for each character, the first after the given one.
    fn insert(&mut self, after: Id, put: &[char]) -> Result<(), OutOfMemory>
        requires { 0 < length put.now → self.old.last + length put.now ≤ Id.MAX_COUNTER }
        ensures ops { OnOk result (self.new.ops.items
            ≡ self.old.ops.items ++ chain self.old.replica self.old.last after put.now) }
        ensures last { OnOk result (self.new.last ≡ self.old.last + length put.now) }
        ensures replica { self.new.replica ≡ self.old.replica }
    {
        self.ops.reserve(put.len())?;
        let mut parent = after;
        for ch in put {
            let Ok(id) = Id::new(self.last + 1, self.replica) else {
                unreachable!()
            };
            self.ops.push_reserved(Op::Insert {
                id,
                parent,
                ch: *ch,
            });
            self.last += 1;
            parent = id;
        }
        Ok(())
    }
}
