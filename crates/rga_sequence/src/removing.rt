//! The entry at a place goes, or is deleted or not.
ghost use Rattle.std.specs.Prelude.{◌≡◌, ◌<◌, vec_len};
ghost use Rattle.rga_sequence.specs.Entries.{without_entry, mark_entry};
ghost use Rattle.rga_sequence.specs.Blocks.{flat, Stands, IsSequence, AreGroups};

use crate::block::Block;
use crate::counts::recount;
use crate::groups::Groups;
use crate::place::Place;
use rga_ops::Id;

/// The entry at a place goes, and its block where it was the only one there.
pub(crate) fn remove_at(blocks: &mut Vec<Block>, groups: &mut Groups, at: Place, id: Id)
    requires block { at.block < vec_len blocks.old }
    requires stands { Stands blocks.old.items at.block at.index id }
    requires kept { IsSequence blocks.old.items }
    requires groups { AreGroups groups.old blocks.old.items }
    ensures gone { flat blocks.new.items ≡ without_entry id (flat blocks.old.items) }
    ensures kept { IsSequence blocks.new.items }
    ensures groups { AreGroups groups.new blocks.new.items }
{
    if blocks[at.block].len() == 1 {
        blocks.remove(at.block);
        groups.forget_from(at.block);
        return;
    }
    let block = &mut blocks[at.block];
    let before = block.visible_len();
    block.remove(at.index);
    recount(&mut groups.counts, at.block, before, block.visible_len());
}

/// The entry at a place is deleted or not.
pub(crate) fn mark_at(
    blocks: &mut Vec<Block>,
    groups: &mut Groups,
    at: Place,
    id: Id,
    deleted: bool,
)
    requires block { at.block < vec_len blocks.old }
    requires stands { Stands blocks.old.items at.block at.index id }
    requires kept { IsSequence blocks.old.items }
    requires groups { AreGroups groups.old blocks.old.items }
    ensures marked { flat blocks.new.items ≡ mark_entry deleted id (flat blocks.old.items) }
    ensures kept { IsSequence blocks.new.items }
    ensures groups { AreGroups groups.new blocks.new.items }
{
    let block = &mut blocks[at.block];
    let before = block.visible_len();
    block.mark(at.index, deleted);
    recount(&mut groups.counts, at.block, before, block.visible_len());
}
