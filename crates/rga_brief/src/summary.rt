//! What a replica knows, in short.
ghost use Rattle.std.specs.Prelude.{◌≡◌, IfOk, IfErr};
ghost use Rattle.rga_brief.specs.Summary.{IsSummary, digests_at};

use crate::block::Block;
use crate::digests::Digests;
use crate::told_digests::ToldDigests;
use rga_ops::OutOfMemory;
use rga_store::Teller;
use std::alloc::Global;
use std::collections::BTreeMap;
use std::marker::Model;

/// What a replica knows, in short: the digests of each block in which it has something.
///
/// If two replicas have one digest of a block, their insertions there are taken for the same, or
/// their deletions. Should they differ all the same, nothing of them is sent until the block changes
/// at one of the two, and a conflict there is not seen.
#[derive(Drop)]
pub struct Summary {
    digests: BTreeMap<Block, Digests>,
}

impl Model for Summary {
    ghost use Rattle.rga_brief.specs.Summary as spec;

    ghost Value = { spec.Summary };

    ghost view = { λ s. s.digests.entries };
}

impl Summary {
    /// What a peer claims to know.
    pub fn claimed(digests: BTreeMap<Block, Digests>) -> Summary
        ensures { result ≡ digests.entries }
    {
        Summary { digests }
    }

    /// The digests by block.
    pub fn digests(&self) -> &BTreeMap<Block, Digests>
        ensures { result.now.entries ≡ self.now }
    {
        &self.digests
    }

    /// The digests of a block. Takes no memory.
    pub(crate) fn digests_of(&self, block: Block) -> Option<Digests>
        ensures { result ≡ digests_at self.now block }
    {
        self.digests.get(&block).copied()
    }
}

/// The summary of what a store holds: there is one (`laws`). `Memory` alone. It takes n log n steps
/// for n operations.
pub fn summary_of<S: Teller>(alloc: Global, store: &S) -> Result<Summary, OutOfMemory>
    ensures ok { IfOk result (λ summary. IsSummary (S.content store.now) summary) }
{
    let mut told = ToldDigests::new(alloc);
    store.tell_insertions(&mut told)?;
    store.tell_deletions(&mut told)?;
    let digests = told.whole()?;
    Ok(Summary { digests })
}
