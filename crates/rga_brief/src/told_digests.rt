//! Digests of the operations that are told.
ghost use Rattle.std.specs.Prelude.{◌≡◌, Some, None, IfOk, IfErr, OnOk, if◌then◌else◌};
ghost use Rattle.std.specs.BTreeMap.{get, IsOrdered};
ghost use Rattle.rga_ops.specs.Operation.{id_of};
ghost use Rattle.rga_brief.specs.Digest.{block_cmp, block_of, is_block, with_operation};
ghost use Rattle.rga_brief.specs.Hearing.{digests_told, with_last};
ghost use Rattle.rga_brief.specs.declared.block.Block.{Block as BlockName};

use crate::block::Block;
use crate::digests::{Digests, with_operation};
use rga_ops::{Op, OutOfMemory};
use rga_store::Listener;
use std::alloc::Global;
use std::collections::BTreeMap;
use std::marker::Model;

/// The digests of the operations that were told, by block.
#[derive(Drop)]
pub(crate) struct ToldDigests {
    digests: BTreeMap<Block, Digests>,
    /// The block of the last operation and its digests, which are not put among the others yet.
    last: Option<(Block, Digests)>,
}

impl Model for ToldDigests {
    ghost use Rattle.std.specs.BTreeMap.{IsOrdered};
    ghost use Rattle.rga_brief.specs.Digest.{block_cmp};
    ghost use Rattle.rga_brief.specs.Hearing.{Digesting};

    ghost Value = { Digesting };

    ghost view = { λ told. record { digests = told.digests.entries; last = told.last } };

    ghost invariant = { λ told. IsOrdered block_cmp told.digests };
}

impl Listener for ToldDigests {
    ghost use Rattle.rga_brief.specs.Hearing.{Hears, hears_nothing, hears_on};

    ghost hears = { λ s ops t. Hears s ops t };

    ghost hears_nothing = { λ s. hears_nothing s };

    ghost hears_on = { λ s t u xs ys a b. hears_on s t u xs ys a b };

    fn hear(&mut self, op: &Op) -> Result<(), OutOfMemory> {
        self.last = Some(add_operation(&mut self.digests, self.last, op)?);
        Ok(())
    }
}

impl ToldDigests {
    /// Of nothing.
    pub(crate) fn new(alloc: Global) -> ToldDigests
        ensures { (b : BlockName) → digests_told result b ≡ None }
    {
        ToldDigests {
            digests: BTreeMap::new(alloc),
            last: None,
        }
    }

    /// All of them. `Memory` alone.
    pub(crate) fn whole(self) -> Result<BTreeMap<Block, Digests>, OutOfMemory>
        ensures ok { IfOk result (λ digests. (b : BlockName) →
            get block_cmp digests b ≡ digests_told self b) }
        ensures ordered { IfOk result (λ digests. IsOrdered block_cmp digests) }
    {
        let ToldDigests { mut digests, last } = self;
        put(&mut digests, last)?;
        Ok(digests)
    }
}

/// An operation is mixed into the digests of its block, which is the last one then. The one that was
/// the last, if it is another, is put among the others. `Memory` alone.
fn add_operation(
    digests: &mut BTreeMap<Block, Digests>,
    last: Option<(Block, Digests)>,
    op: &Op,
) -> Result<(Block, Digests), OutOfMemory>
    requires { IsOrdered block_cmp digests.old }
    ensures ok { let before = with_last last (get block_cmp digests.old) in
        IfOk result (λ now. (b : BlockName) → with_last (Some now) (get block_cmp digests.new) b
        ≡ (if is_block (block_of (id_of op.now)) b
        then Some (with_operation (before b) op.now) else before b)) }
    ensures ordered { IsOrdered block_cmp digests.new }
{
    let block = Block::of(op.id());
    if let Some((same, before)) = last {
        if same == block {
            return Ok((block, with_operation(Some(before), op)));
        }
    }
    put(digests, last)?;
    let before = digests.get(&block).copied();
    Ok((block, with_operation(before, op)))
}

/// The digests of the last block, if there is one, are put among the others. `Memory` alone.
fn put(
    digests: &mut BTreeMap<Block, Digests>,
    last: Option<(Block, Digests)>,
) -> Result<(), OutOfMemory>
    requires { IsOrdered block_cmp digests.old }
    ensures ok { OnOk result ((b : BlockName) →
        get block_cmp digests.new b ≡ with_last last (get block_cmp digests.old) b) }
    ensures ordered { IsOrdered block_cmp digests.new }
{
    let Some((block, before)) = last else {
        return Ok(());
    };
    let _replaced = digests.insert(block, before)?;
    Ok(())
}
