//! Undo.
ghost use Rattle.std.specs.Prelude.{◌≡◌, ◌⊎◌, ◌<◌, ◌≤◌, ℕ, ◌++◌, true, Err, Some, IsSome, length, take, IfSome, IfOk, OnOk, OnErr};
ghost use Rattle.std.specs.Option.{option_map};
ghost use Rattle.rga_ops.specs.Content.{clock_of, join, content_of};
ghost use Rattle.rga_ops.specs.ListAnswer.{IsAnswer};
ghost use Rattle.rga_ops.specs.Order.{text};
ghost use Rattle.rga_doc.specs.Revert.{are_restorable, revert_answer, revert_operations};
ghost use Rattle.mg_buffer.specs.Faults.{growth_answer, undo_answer};
ghost use Rattle.mg_buffer.specs.Following.{TakesUnsaved};
ghost use Rattle.mg_buffer.specs.Groups.{all_substituted, group_to_undo, past_at, past_of, point_after, stand_in, with_group};
ghost use Rattle.mg_buffer.specs.Kept.{IsLineOfPlace};
ghost use Rattle.mg_buffer.specs.Restored.{newest_restored};
ghost use Rattle.mg_buffer.specs.Undid.{Reverted, Undid};
ghost use Rattle.rga_ops.specs.Prelude.{Memory};
ghost use Rattle.mg_buffer.specs.declared.fault.BufferFault.TheVariants.{Store};

use crate::buffer::Buffer;
use crate::change::Change;
use crate::fault::BufferFault;
use crate::history::History;
use crate::line_numbers::KnownLine;
use crate::marker::Marker;
use crate::memo::Memo;
use crate::room::{add_all, prepare};
use mg_plain::{Kind, Notice};
use rga_doc::Doc;
use rga_ops::{Id, Op, Refusal};
use rga_store::TextStore;
use std::alloc::Global;

impl<S: TextStore> Buffer<S> {
    /// Undoes the newest group, or in a run of undos the group before the one that was undone last:
    /// takes the operations of its revert, which are unsaved then, and a group of their own where
    /// there are any. From then on each restored element stands in every group for the one that it
    /// restores. Point goes behind the last element inserted, else behind the first deleted, else
    /// it stays; the mark stays behind its element. The kind becomes Plain.
    ///
    /// Faults, in this order: `NothingToUndo` where there is no group to take; `Full` and `Clock`
    /// of the restored characters; `Memory`. A fault changes nothing.
    pub fn undo(&mut self, memo: &mut Memo) -> Result<(), BufferFault>
        ensures exact { (result ≡ Err (Store Memory)) ⊎ (result ≡ undo_answer self.old) }
        ensures undid { OnOk result (Undid self.old memo.old self.new memo.new) }
        ensures took { OnOk result (TakesUnsaved self.old self.new) }
        ensures same { OnErr result (self.new ≡ self.old) }
        ensures memo { OnErr result (memo.new ≡ memo.old) }
        // Where there is nothing to undo, no memory is asked for.
        ensures noticed { result ≡ Err (Store Memory) →
            IsSome (group_to_undo self.old.groups self.old.undone) }
    {
        let Some(index) = self.index_to_undo() else {
            return Err(BufferFault::Notice(Notice::NothingToUndo));
        };
        let undone = self.history.change_at(self.alloc, index)?;
        let line = self.line_before(&undone.inserted);
        self.revert(index, &undone, line)?;
        memo.kind = Kind::Plain;
        Ok(())
    }

    /// The index of the group that an undo takes.
    #[tactic(auto, using(crate::proofs::GroupLaws::last_group_at))]
    fn index_to_undo(&self) -> Option<usize>
        ensures within { IfSome result (λ i. i < length self.now.groups) }
        ensures due { IfSome result (λ i. group_to_undo self.now.groups self.now.undone
            ≡ Some (i, past_at self.now.groups i)) }
        ensures index { result
            ≡ option_map (λ p. p.0) (group_to_undo self.now.groups self.now.undone) }
    {
        let count = self.undone.unwrap_or(self.history.count());
        if count == 0 || count > self.history.count() {
            return None;
        }
        Some(count - 1)
    }

    /// Reverts a group, by what it did and a line that is known. `Full`, `Clock` and `Memory`, as the
    /// document has them.
    #[tactic(auto, using(crate::proofs::KeptLaws::kept_still))]
    fn revert(&mut self, index: usize, undone: &Change, line: KnownLine) -> Result<(), Refusal>
        requires within { index < length self.old.groups }
        requires at { undone.now ≡ past_at self.old.groups index }
        requires line { IsLineOfPlace (text self.old.content) line }
        ensures exact { IsAnswer result
            (growth_answer self.old (length (past_at self.old.groups index).deleted)) }
        ensures reverted { OnOk result
            (Reverted index (past_at self.old.groups index) self.old self.new) }
        ensures same { OnErr result (self.new ≡ self.old) }
    {
        let (front, point) = take_reverted(
            self.alloc,
            &mut self.doc,
            &mut self.history,
            &mut self.unsaved,
            undone,
            self.point.element,
        )?;
        self.line = line.kept_in(front);
        self.point = Marker {
            element: point,
            place: 0,
        };
        self.undone = Some(index);
        self.listed = false;
        Ok(())
    }

    /// The line of a place up to which the text most likely stays where elements go: before point,
    /// and before the first and the last of them.
    fn line_before(&self, gone: &[Id]) -> KnownLine
        ensures { IsLineOfPlace (text self.now.content) result }
    {
        if !self.listed {
            return self.line;
        }
        let first = self.place_left_of(gone.first());
        let last = self.place_left_of(gone.last());
        let place = self.point.place.min(first).min(last);
        self.line.moved(self.doc.characters(), place)
    }

    /// The place directly left of an element, as far as there is one.
    fn place_left_of(&self, element: Option<&Id>) -> usize {
        match element {
            Some(id) => self
                .doc
                .store()
                .place_of(*id)
                .unwrap_or(0)
                .saturating_sub(1),
            None => usize::MAX,
        }
    }
}

/// Takes the operations of the revert of a group in a document, and adds the group of that, and the
/// operations behind the unsaved ones. Answers how many characters at the front stayed, and where
/// point goes. `Full`, `Clock` and `Memory`, as the document has them.
#[tactic(auto, using(rga_doc::proofs::UndoLists::as_many_inserted))]
fn take_reverted<S: TextStore>(
    alloc: Global,
    doc: &mut Doc<S>,
    history: &mut History,
    unsaved: &mut Vec<Op>,
    undone: &Change,
    point: Id,
) -> Result<(usize, Id), Refusal>
    requires at { (index : ℕ) × (undone.now ≡ past_at history.old.pasts index) }
    requires old { newest_restored history.old ≤ clock_of doc.old.content }
    requires able { are_restorable doc.old.content undone.now.deleted ≡ true }
    ensures exact { IsAnswer result
        (revert_answer doc.old.limit doc.old.content undone.now.deleted) }
    ensures taken { let d = doc.old in let g = undone.now in
        let ops = revert_operations d.replica d.content g.inserted g.deleted in OnOk result
        ((doc.new ≡ record d { content = join d.content (content_of ops); listed = doc.new.listed })
        × (history.new.pasts ≡ all_substituted (stand_in ops)
        (with_group history.old.pasts (past_of d.content ops) ops))
        × (newest_restored history.new ≤ clock_of d.content)
        × (unsaved.new.items ≡ unsaved.old.items ++ ops)) }
    ensures front { IfOk result
        (λ p. take p.0 (text doc.new.content) ≡ take p.0 (text doc.old.content)) }
    ensures point { let d = doc.old in let g = undone.now in
        let ops = revert_operations d.replica d.content g.inserted g.deleted in
        IfOk result (λ p. p.1 ≡ point_after point (past_of d.content ops)) }
    ensures same { OnErr result ((doc.new ≡ doc.old)
        × (history.new.pasts ≡ history.old.pasts)
        × (newest_restored history.new ≤ newest_restored history.old)
        × (unsaved.new.items ≡ unsaved.old.items)) }
{
    let inserted = undone.inserted.as_slice();
    let deleted = undone.deleted.as_slice();
    let drafted = doc.draft_revert(inserted, deleted)?;
    let ops = drafted.as_slice();
    let done = prepare(alloc, doc.store(), history, unsaved, ops, deleted.len())?;
    let front = doc.take_revert(inserted, deleted, ops)?;
    let element = done.point_after(point);
    history.add_undo(done, ops);
    add_all(unsaved, ops);
    Ok((front, element))
}
