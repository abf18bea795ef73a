//! What commands and undos did, oldest first.
ghost use Rattle.std.specs.Prelude.{◌≡◌, ◌<◌, ◌≤◌, ◌+◌, ◌++◌, [], map, length, IfOk, IfErr, OnOk};
ghost use Rattle.std.specs.Vec.{vec_len, vec_capacity};
ghost use Rattle.rga_doc.specs.UndoGroup.{inserted_elements};
ghost use Rattle.mg_buffer.specs.Groups.{all_substituted, past_at, stand_in, substituted, with_group};
ghost use Rattle.mg_buffer.specs.Restored.{Restores, latest, newest_restored, restored_by};

use crate::change::Change;
use crate::restored::{follow_change, follow_groups, is_any_restored, restore_all, shorten_all};
use indexmap::IndexMap;
use rga_ops::{Id, Op, OutOfMemory};
use std::alloc::Global;
use std::marker::Model;

/// The undo groups, as they were added. What restores an element stands for it in every group: that
/// is looked up when a group is undone.
#[derive(Drop)]
pub(crate) struct History {
    groups: Vec<Change>,
    /// By each element that an undo restored the one that stands for it since.
    restored: IndexMap<Id, Id>,
}

impl Model for History {
    ghost use Rattle.std.specs.Prelude.{◌-◌, vec_len, vec_capacity};
    ghost use Rattle.indexmap.specs.IndexMap.{spare};
    ghost use Rattle.mg_buffer.specs.Groups.{all_substituted};
    ghost use Rattle.mg_buffer.specs.Restored.{AreRising, PastList, latest};

    ghost Value = { PastList };

    ghost view = { λ h. record {
      pasts = all_substituted (latest h.restored.entries) h.groups.items;
      restored = h.restored.entries;
      room = vec_capacity h.groups - vec_len h.groups;
      entries = spare h.restored;
    } };

    ghost invariant = { λ h. AreRising h.restored.entries };
}

impl History {
    /// No group.
    pub(crate) fn new(alloc: Global) -> History
        ensures pasts { result.pasts ≡ [] }
        ensures restored { result.restored ≡ [] }
    {
        History {
            groups: Vec::new(alloc),
            restored: IndexMap::new(alloc),
        }
    }

    /// How many groups there are.
    pub(crate) fn count(&self) -> usize
        ensures { result ≡ length self.now.pasts }
    {
        self.groups.as_slice().len()
    }

    /// What the group at an index did, by what stands for its elements now. What it deleted is found
    /// at once from then on. `Memory` alone; groups stay.
    pub(crate) fn change_at(&mut self, alloc: Global, index: usize) -> Result<Change, OutOfMemory>
        requires { index < length self.old.pasts }
        ensures ok { IfOk result (λ change. change ≡ past_at self.old.pasts index) }
        ensures pasts { self.new.pasts ≡ self.old.pasts }
        ensures newest { newest_restored self.new ≡ newest_restored self.old }
    {
        shorten_all(&mut self.restored, &self.groups[index].deleted);
        follow_change(alloc, &self.restored, &self.groups[index])
    }

    /// Makes room for the group of a change, and for so many elements that it restores. `Memory`
    /// alone; groups stay.
    pub(crate) fn make_room(
        &mut self,
        alloc: Global,
        change: &Change,
        restores: usize,
    ) -> Result<(), OutOfMemory>
        ensures room { OnOk result (0 < self.new.room) }
        ensures entries { OnOk result (restores ≤ self.new.entries) }
        ensures settled { OnOk result
            ((substituted (latest self.new.restored) change.now).deleted ≡ change.now.deleted) }
        ensures pasts { self.new.pasts ≡ self.old.pasts }
        ensures newest { newest_restored self.new ≤ newest_restored self.old }
    {
        self.settle(alloc, &change.deleted)?;
        self.groups.reserve(1)?;
        self.restored.reserve(restores)?;
        Ok(())
    }

    /// If one of these elements was restored before, each group gets what stands for its elements,
    /// and what was restored is forgotten, so that nothing stands for that one. What is restored
    /// stays deleted, so no command should meet this. `Memory` alone; groups stay.
    #[tactic(auto, using(crate::proofs::RestoredLaws::none_restored))]
    fn settle(&mut self, alloc: Global, deleted: &[(Id, char)]) -> Result<(), OutOfMemory>
        ensures settled { OnOk result
            (map (λ b. (latest self.new.restored b.0, b.1)) deleted.now ≡ deleted.now) }
        ensures pasts { self.new.pasts ≡ self.old.pasts }
        ensures newest { newest_restored self.new ≤ newest_restored self.old }
    {
        if !is_any_restored(&self.restored, deleted) {
            return Ok(());
        }
        self.groups = follow_groups(alloc, &self.restored, &self.groups)?;
        self.restored.clear();
        Ok(())
    }

    /// Adds the group of what a command did, unless there was no operation. There is room.
    pub(crate) fn add(&mut self, change: Change, ops: &[Op])
        requires room { 0 < self.old.room }
        requires settled { substituted (latest self.old.restored) change ≡ change }
        ensures pasts { self.new.pasts ≡ with_group self.old.pasts change ops.now }
        ensures restored { self.new.restored ≡ self.old.restored }
    {
        add_group(&mut self.groups, change, ops);
    }

    /// Adds the group of an undo, unless there was no operation. What its operations insert stands
    /// in every group for what they restore. There is room.
    pub(crate) fn add_undo(&mut self, change: Change, ops: &[Op])
        requires room { 0 < self.old.room }
        requires entries { length (inserted_elements ops.now) ≤ self.old.entries }
        requires settled { substituted (latest self.old.restored) change ≡ change }
        requires restores { Restores self.old ops.now }
        ensures pasts { self.new.pasts
            ≡ all_substituted (stand_in ops.now) (with_group self.old.pasts change ops.now) }
        ensures restored { self.new.restored ≡ self.old.restored ++ restored_by ops.now }
    {
        add_group(&mut self.groups, change, ops);
        restore_all(&mut self.restored, ops);
    }
}

/// Adds a group, unless there was no operation. Takes no memory.
fn add_group(groups: &mut Vec<Change>, group: Change, ops: &[Op])
    requires { vec_len groups.old + 1 ≤ vec_capacity groups.old }
    ensures { groups.new.items ≡ with_group groups.old.items group ops.now }
{
    if !ops.is_empty() {
        groups.push_reserved(group);
    }
}
